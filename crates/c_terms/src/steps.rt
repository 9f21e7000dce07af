ghost use Rattle.std.specs.Prelude.{false};
ghost use Rattle.typing_rules.specs.Terms as terms;
ghost use Rattle.typing_rules.specs.Terms.{change_by};
ghost use Rattle.typing_rules.specs.OrderedParts as ordered;
ghost use Rattle.c_values.specs.Stand.{MeansTyped};
ghost use Rattle.c_values.specs.Answers.{MeansTerm, MeansTarget, address_term, change_view};
ghost use Rattle.c_typed.specs.Typed as tree;
ghost use Rattle.c_known.specs.Gives.{Gives};
ghost use Rattle.c_terms.specs.Nodes as node;
ghost use Rattle.c_terms.specs.Nodes.{OverTerm, OverAll, OverTarget};

use crate::nodes::{target_of, value, written};
use c_known::Known;
use c_tree::{CompoundOp, PostfixOp, PrefixOp};
use c_values::{Change, Designated, Target, Term, Typed, Written};
use srmt_base::Op;
use typing_rules::TypeRefusal;

/// A target changes by 1, which has the line of the whole expression.
fn changed_by_one(
    known: &Known,
    line: u32,
    change: Change,
    target: Target,
) -> Result<Term, TypeRefusal>
    ensures { (t : terms.Target) → MeansTarget known.now.types target t
        → Gives MeansTerm known.now known.now result (ordered.changed line (change_view change) t (terms.one_value line)) }
{
    let one = c_values::one_value(known.alloc, line)?;
    c_operators::changed(known.alloc, &known.types, line, change, target, one)
}

/// `++` and `--`.
fn stepped(known: &mut Known, line: u32, change: Change, operand: Term) -> Result<Term, TypeRefusal>
    ensures { OverTerm known.old.types operand (λ t. Gives MeansTerm known.old known.new result (node.stepped_of line (change_view change) t)) }
{
    let target = target_of(known, operand)?;
    changed_by_one(known, line, change, target)
}

/// `++` and `--` behind an operand (C11 6.5.2.4), whose first token has a line.
pub fn postfix(
    known: &mut Known,
    op: PostfixOp,
    line: u32,
    at: u32,
    first: u32,
    operand: Term,
) -> Result<Term, TypeRefusal>
    ensures { OverTerm known.old.types operand (λ t. Gives MeansTerm known.old known.new result (node.postfix_of op line at first t)) }
{
    let op = match op {
        PostfixOp::Increment => Op::Add,
        PostfixOp::Decrement => Op::Sub,
    };
    let change = Change {
        is_after: true,
        first,
        op,
        at,
    };
    stepped(known, line, change, operand)
}

/// The address of what is no lvalue, or of an lvalue that is known to have it.
fn address(known: &mut Known, line: u32, operand: Term) -> Result<Term, TypeRefusal>
    ensures { OverTerm known.old.types operand (λ t. Gives MeansTerm known.old known.new result (address_term line t)) }
{
    c_values::address(known.alloc, &mut known.types, line, operand)
}

/// `&` (C11 6.5.3.2).
fn address_of(known: &mut Known, line: u32, operand: Term) -> Result<Term, TypeRefusal>
    ensures { OverTerm known.old.types operand (λ t. Gives MeansTerm known.old known.new result (ordered.address_of line t)) }
{
    match operand {
        Term::Object(place) => {
            known.mark(place.get());
            address(known, line, Term::Object(place))
        }
        Term::Result(of) => address(known, line, Term::Result(of)),
        Term::Designator(first, of, ty) => address(known, line, Term::Designator(first, of, ty)),
    }
}

/// `++` and `--` before an operand, whose first token has a line.
fn stepped_before(
    known: &mut Known,
    line: u32,
    op: Op,
    first: u32,
    operand: Term,
) -> Result<Term, TypeRefusal>
    ensures { OverTerm known.old.types operand (λ t. Gives MeansTerm known.old known.new result (node.stepped_of line (change_by false first op line) t)) }
{
    let change = Change {
        is_after: false,
        first,
        op,
        at: line,
    };
    stepped(known, line, change, operand)
}

/// An operator before its operand (C11 6.5.3), whose first token has a line.
pub fn prefix(
    known: &mut Known,
    op: PrefixOp,
    line: u32,
    first: u32,
    operand: Term,
) -> Result<Term, TypeRefusal>
    ensures { OverTerm known.old.types operand (λ t. Gives MeansTerm known.old known.new result (node.prefix_of op line first t)) }
{
    match op {
        PrefixOp::Increment => stepped_before(known, line, Op::Add, first, operand),
        PrefixOp::Decrement => stepped_before(known, line, Op::Sub, first, operand),
        PrefixOp::AddressOf => address_of(known, line, operand),
        PrefixOp::Indirection => {
            let a = written(known, first, operand)?;
            c_operators::indirect(known.alloc, &known.types, line, a)
        }
        PrefixOp::Plus => {
            let a = written(known, first, operand)?;
            c_operators::promoted(known.alloc, &known.types, line, a)
        }
        PrefixOp::Minus => {
            let a = written(known, first, operand)?;
            c_operators::negative(known.alloc, &known.types, line, a)
        }
        PrefixOp::Complement => {
            let a = written(known, first, operand)?;
            c_operators::complemented(known.alloc, &known.types, line, a)
        }
        PrefixOp::Not => {
            let a = written(known, first, operand)?;
            c_operators::opposite(known.alloc, &known.types, line, a)
        }
    }
}

/// An assignment (C11 6.5.16) to a target whose first token has a line.
pub fn assignment(
    known: &mut Known,
    op: Option<CompoundOp>,
    line: u32,
    first: u32,
    at: u32,
    target: Target,
    a: Written,
) -> Result<Term, TypeRefusal>
    ensures { OverTarget known.old.types target a (λ t w. Gives MeansTerm known.old known.new result (node.assignment_of op line first at t w)) }
{
    match op {
        None => c_operators::assigned(known.alloc, &known.types, line, at, target, a),
        Some(op) => {
            let change = Change {
                is_after: false,
                first,
                op: op.op(),
                at,
            };
            c_operators::changed(known.alloc, &known.types, line, change, target, a)
        }
    }
}

/// A call of the function that a value points to (C11 6.5.2.2).
fn call_through(
    known: &mut Known,
    line: u32,
    at: u32,
    callee: Typed,
    arguments: Vec<Written>,
) -> Result<Term, TypeRefusal>
    ensures { (v : tree.Value) → MeansTyped known.old.types callee v → OverAll known.old.types arguments.items (λ ws.
        Gives MeansTerm known.old known.new result (ordered.call_through line at v ws)) }
{
    let ty = c_operators::callee_type(&known.types, at, &callee)?;
    let values = c_operators::arguments_for(known.alloc, &known.types, at, ty, arguments)?;
    known.count_type(at, ty)?;
    c_operators::call_through(known.alloc, &known.types, line, at, ty, callee, values)
}

/// A call (C11 6.5.2.2).
pub fn call_of(
    known: &mut Known,
    line: u32,
    at: u32,
    function: Term,
    arguments: Vec<Written>,
) -> Result<Term, TypeRefusal>
    ensures { OverTerm known.old.types function (λ t. OverAll known.old.types arguments.items (λ ws.
        Gives MeansTerm known.old known.new result (ordered.call_of line at t ws))) }
{
    match function {
        Term::Object(place) => {
            let callee = value(known, Term::Object(place))?;
            call_through(known, line, at, callee, arguments)
        }
        Term::Result(callee) => call_through(known, line, at, callee, arguments),
        Term::Designator(_, Designated::Entity(n, _), ty) => {
            c_operators::call_of_entity(known.alloc, &known.types, line, at, n, ty, arguments)
        }
        Term::Designator(_, Designated::Predeclared(of), ty) => {
            c_operators::call_of_predeclared(known.alloc, &known.types, line, at, of, ty, arguments)
        }
        Term::Designator(_, Designated::Through(callee), _) => {
            call_through(known, line, at, callee, arguments)
        }
    }
}
