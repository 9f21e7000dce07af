ghost use Rattle.std.specs.Prelude.{List, ⊤};
ghost use Rattle.srmt_base.specs.declared.ty.Ty.TheVariants.{Int};
ghost use Rattle.c_types.specs.Types.{integer};
ghost use Rattle.c_types.specs.declared.type_ref.Row.{Row};
ghost use Rattle.c_typed.specs.Typed as tree;
ghost use Rattle.c_types.specs.Rules.{tested_type};
ghost use Rattle.c_types.specs.Table.{Extends};
ghost use Rattle.typing_rules.specs.Terms as terms;
ghost use Rattle.typing_rules.specs.Checking.{ruled_by};
ghost use Rattle.typing_rules.specs.OrderedParts as ordered;
ghost use Rattle.c_values.specs.Stand.{Operands, Makes, MeansTyped, MeansWritten};
ghost use Rattle.c_values.specs.Answers.{Answers, MeansTerm, OverTyped, OverThree, IsAllowed, both_tested};

use crate::choice::choice_of;
use c_typed::{Constant, ValueNode};
use c_types::{TypeRef, Types};
use c_values::{Term, Typed, Written, constants, make, operand_of, result_of, tested};
use srmt_base::Ty;
use std::alloc::{AllocError, Global};
use typing_rules::TypeRefusal;

/// `&&` (C11 6.5.13).
pub fn conjoined(
    alloc: Global,
    types: &Types,
    line: u32,
    at: u32,
    a: Written,
    b: Written,
) -> Result<Term, TypeRefusal>
    ensures { Operands types.now a b (λ v w. Answers (MeansTerm types.now) result (ordered.conjoined line at v w)) }
{
    tested_both(types, at, &a.typed, &b.typed)?;
    result_of(conjunction(alloc, line, a.typed, b.typed))
}

/// `||` (C11 6.5.14).
pub fn disjoined(
    alloc: Global,
    types: &Types,
    line: u32,
    at: u32,
    a: Written,
    b: Written,
) -> Result<Term, TypeRefusal>
    ensures { Operands types.now a b (λ v w. Answers (MeansTerm types.now) result (ordered.disjoined line at v w)) }
{
    tested_both(types, at, &a.typed, &b.typed)?;
    result_of(disjunction(alloc, line, a.typed, b.typed))
}

/// `?:` (C11 6.5.15).
pub fn chosen(
    alloc: Global,
    types: &mut Types,
    line: u32,
    at: u32,
    test: Written,
    a: Written,
    b: Written,
) -> Result<Term, TypeRefusal>
    ensures kept { Extends types.old types.new }
    ensures term { OverThree types.old test a b (λ u v w. Answers (MeansTerm types.new) result (ordered.chosen line at u v w)) }
{
    let form = types.choice_form(
        test.typed.value.get().ty,
        operand_of(types, &a.typed),
        operand_of(types, &b.typed),
    );
    match form {
        Err(rule) => Err(TypeRefusal::Mismatch(at, rule)),
        Ok(form) => result_of(choice_of(alloc, types, line, form, test.typed, a, b)),
    }
}

/// Whether both operands of `&&` or `||` may be tested.
fn tested_both(types: &Types, at: u32, a: &Typed, b: &Typed) -> Result<(), TypeRefusal>
    ensures { (v w : tree.Value) → MeansTyped types.now a.now v → MeansTyped types.now b.now w → Answers IsAllowed result (both_tested at v w) }
{
    tested(types, at, a)?;
    tested(types, at, b)
}

/// `&&` of two values.
fn conjunction(alloc: Global, line: u32, a: Typed, b: Typed) -> Result<Typed, AllocError>
    ensures { (rows : List Row) (v w : tree.Value) → MeansTyped rows a v → MeansTyped rows b w
        → Makes rows result (tree.value line (integer Int) (tree.conjunction v w)) }
{
    let second = constants::as_test(b.constant);
    let constant = constants::chosen(a.constant, second, Constant::Value(0));
    let node = ValueNode::Conjunction(a.value, b.value);
    make(alloc, line, TypeRef::Integer(Ty::Int), node, constant)
}

/// `||` of two values.
fn disjunction(alloc: Global, line: u32, a: Typed, b: Typed) -> Result<Typed, AllocError>
    ensures { (rows : List Row) (v w : tree.Value) → MeansTyped rows a v → MeansTyped rows b w
        → Makes rows result (tree.value line (integer Int) (tree.disjunction v w)) }
{
    let second = constants::as_test(b.constant);
    let constant = constants::chosen(a.constant, Constant::Value(1), second);
    let node = ValueNode::Disjunction(a.value, b.value);
    make(alloc, line, TypeRef::Integer(Ty::Int), node, constant)
}
