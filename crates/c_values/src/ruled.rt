ghost use Rattle.std.specs.Prelude.{◌≡◌};
ghost use Rattle.c_types.specs.Rules.{tested_type};
ghost use Rattle.c_types.specs.Types.{CType};
ghost use Rattle.c_types.specs.Table.{operand_at, Stands};
ghost use Rattle.c_typed.specs.Typed as tree;
ghost use Rattle.typing_rules.specs.Terms as terms;
ghost use Rattle.typing_rules.specs.Checking.{ruled_by};
ghost use Rattle.c_values.specs.Stand.{WrittenOne, MeansTyped, MeansWritten};
ghost use Rattle.c_values.specs.Answers.{Answers, OverTyped, IsAllowed, value_for};

use crate::assign::converted_by;
use crate::constants;
use crate::made::or_memory;
use crate::typed::{Typed, Written};
use c_types::{OperandRef, TypeRef, Types};
use std::alloc::Global;
use typing_rules::TypeRefusal;

/// An operand as the rules on types see it.
pub fn operand_of(types: &Types, of: &Typed) -> OperandRef
    ensures { (v : tree.Value) → MeansTyped types.now of.now v → operand_at types.now result ≡ terms.operand_of v }
{
    let ty = of.value.get().ty;
    OperandRef {
        of: ty,
        is_null: types.is_integer(ty) && constants::is_zero(of.constant),
    }
}

/// Whether a value may be tested (C11 6.8.4.1p1, 6.8.5p2).
pub fn tested(types: &Types, at: u32, a: &Typed) -> Result<(), TypeRefusal>
    ensures { OverTyped types.now a.now (λ v. Answers IsAllowed result (ruled_by at (tested_type (tree.type_of v)))) }
{
    if types.is_scalar(a.value.get().ty) {
        Ok(())
    } else {
        Err(TypeRefusal::Mismatch(at, 5))
    }
}

/// An operand converted to a type as by assignment, or the rule that is broken (C11 6.5.16.1).
pub fn converted_to(
    alloc: Global,
    types: &Types,
    at: u32,
    to: TypeRef,
    a: Written,
) -> Result<Typed, TypeRefusal>
    ensures { WrittenOne types.now to a (λ t w. Answers (MeansTyped types.now) result (value_for at t w)) }
{
    match types.conversion_form(to, operand_of(types, &a.typed)) {
        Err(rule) => Err(TypeRefusal::Mismatch(at, rule)),
        Ok(form) => or_memory(converted_by(alloc, types, form, to, a)),
    }
}
