ghost use Rattle.std.specs.Prelude.{◌≡◌};
ghost use Rattle.typing_rules.specs.Terms as terms;
ghost use Rattle.typing_rules.specs.Terms.{number_value};
ghost use Rattle.typing_rules.specs.Checking.{pure};
ghost use Rattle.typing_rules.specs.OrderedParts as ordered;
ghost use Rattle.c_values.specs.Stand.{MeansTyped, MeansWritten};
ghost use Rattle.c_values.specs.Answers.{MeansTerm, MeansTarget};
ghost use Rattle.c_known.specs.Gives.{Gives};
ghost use Rattle.c_terms.specs.Nodes as node;
ghost use Rattle.c_terms.specs.Nodes.{OverTerm, OverType, OverOne, OverTwo, OverAll};

use c_known::Known;
use c_tree::BinaryOp;
use c_types::QualifiedRef;
use c_values::{Target, Term, Typed, Written};
use srmt_base::Ty;
use typing_rules::TypeRefusal;

/// A constant of an integer type, modulo 2^32 (C11 6.4.4).
pub fn number(known: &mut Known, line: u32, ty: Ty, number: u32) -> Result<Term, TypeRefusal>
    ensures { Gives MeansTerm known.old known.new result (pure (terms.result (number_value line ty number))) }
{
    c_values::number_term(known.alloc, line, ty, number)
}

/// The value of an operand whose first token has a line (C11 6.3.2.1).
pub fn written(known: &mut Known, first: u32, term: Term) -> Result<Written, TypeRefusal>
    ensures { OverTerm known.old.types term (λ t. Gives MeansWritten known.old known.new result (node.valued_of first t)) }
{
    c_values::written(known.alloc, &mut known.types, first, term)
}

/// The value of an operand.
pub fn value(known: &mut Known, term: Term) -> Result<Typed, TypeRefusal>
    ensures { OverTerm known.old.types term (λ t. Gives MeansTyped known.old known.new result (ordered.valued t)) }
{
    c_values::valued(known.alloc, &mut known.types, term)
}

/// `a[i]` (C11 6.5.2.1).
pub fn indexed(
    known: &mut Known,
    line: u32,
    at: u32,
    a: Written,
    b: Written,
) -> Result<Term, TypeRefusal>
    ensures { OverTwo known.old.types a b (λ v w. Gives MeansTerm known.old known.new result (ordered.indexed line at v w)) }
{
    c_operators::indexed(known.alloc, &known.types, line, at, a, b)
}

/// What is called (C11 6.5.2.2p1).
pub fn called(known: &mut Known, term: Term) -> Result<Term, TypeRefusal>
    ensures { OverTerm known.old.types term (λ t. Gives MeansTerm known.old known.new result (ordered.called t)) }
{
    c_values::called(known.alloc, &mut known.types, term)
}

/// `sizeof` of an expression (C11 6.5.3.4), which is not evaluated.
pub fn sized_term(known: &mut Known, line: u32, operand: Term) -> Result<Term, TypeRefusal>
    ensures { OverTerm known.old.types operand (λ t. Gives MeansTerm known.old known.new result (node.sized_of line t)) }
{
    let ty = c_values::unvalued(&operand)?;
    c_operators::sized(known.alloc, &known.types, line, ty)
}

/// `sizeof` of a type (C11 6.5.3.4).
pub fn sized_type(known: &mut Known, line: u32, ty: QualifiedRef) -> Result<Term, TypeRefusal>
    ensures { OverType known.old.types ty (λ t. Gives MeansTerm known.old known.new result (ordered.sized line t.type)) }
{
    c_operators::sized(known.alloc, &known.types, line, ty.target)
}

/// A cast (C11 6.5.4).
pub fn cast_to(
    known: &mut Known,
    line: u32,
    ty: QualifiedRef,
    a: Written,
) -> Result<Term, TypeRefusal>
    ensures { OverType known.old.types ty (λ t. OverOne known.old.types a (λ w.
        Gives MeansTerm known.old known.new result (ordered.cast_to line t w))) }
{
    c_operators::cast_to(known.alloc, &known.types, line, ty, a)
}

/// An operator between two operands (C11 6.5.5 to 6.5.14).
pub fn binary(
    known: &mut Known,
    op: BinaryOp,
    line: u32,
    at: u32,
    a: Written,
    b: Written,
) -> Result<Term, TypeRefusal>
    ensures { OverTwo known.old.types a b (λ v w. Gives MeansTerm known.old known.new result (node.binary_of op line at v w)) }
{
    match op {
        BinaryOp::Arithmetic(op) => c_operators::computed(
            known.alloc,
            &known.types,
            line,
            op,
            at,
            a,
            b,
        ),
        BinaryOp::And => c_operators::conjoined(known.alloc, &known.types, line, at, a, b),
        BinaryOp::Or => c_operators::disjoined(known.alloc, &known.types, line, at, a, b),
    }
}

/// `?:` (C11 6.5.15).
pub fn chosen(
    known: &mut Known,
    line: u32,
    at: u32,
    test: Written,
    a: Written,
    b: Written,
) -> Result<Term, TypeRefusal>
    ensures { OverOne known.old.types test (λ u. OverTwo known.old.types a b (λ v w.
        Gives MeansTerm known.old known.new result (ordered.chosen line at u v w))) }
{
    c_operators::chosen(known.alloc, &mut known.types, line, at, test, a, b)
}

/// The left side of an assignment.
pub fn target_of(known: &mut Known, term: Term) -> Result<Target, TypeRefusal>
    ensures { OverTerm known.old.types term (λ t. Gives MeansTarget known.old known.new result (ordered.target_of t)) }
{
    c_values::target_of(known.alloc, &mut known.types, term)
}

/// Operands whose values are dropped, and the last, whose value it is (C11 6.5.17).
pub fn sequence_of(
    known: &mut Known,
    line: u32,
    dropped: Vec<Written>,
    last: Written,
) -> Result<Term, TypeRefusal>
    ensures { OverAll known.old.types dropped.items (λ ws. OverOne known.old.types last (λ w.
        Gives MeansTerm known.old known.new result (pure (terms.result (terms.sequence_of line ws w))))) }
{
    c_operators::sequence_of(known.alloc, line, dropped, last)
}
