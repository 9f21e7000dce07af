ghost use Rattle.std.specs.Prelude.{◌≡◌};
ghost use Rattle.c_types.specs.Table.{operand_at};
ghost use Rattle.c_typed.specs.Typed as tree;
ghost use Rattle.typing_rules.specs.Terms as terms;
ghost use Rattle.typing_rules.specs.OrderedParts as ordered;
ghost use Rattle.c_values.specs.Answers.{Answers, MeansTerm};
ghost use Rattle.c_values.specs.Stand.{Operands, MeansTyped, MeansWritten};

use crate::element::element;
use c_types::{OperandRef, Types};
use c_values::{Term, Typed, Written, binary_value, operand_of, result_of};
use srmt_base::Op;
use std::alloc::{AllocError, Global};
use typing_rules::TypeRefusal;

/// `a[i]` (C11 6.5.2.1).
pub fn indexed(
    alloc: Global,
    types: &Types,
    line: u32,
    at: u32,
    a: Written,
    b: Written,
) -> Result<Term, TypeRefusal>
    ensures { Operands types.now a b (λ v w. Answers (MeansTerm types.now) result (ordered.indexed line at v w)) }
{
    match types.index_form(a.typed.value.get().ty, b.typed.value.get().ty) {
        Err(rule) => Err(TypeRefusal::Mismatch(at, rule)),
        Ok(form) => element(alloc, types, line, at, form, a, b),
    }
}

/// An operator between two operands, with its line (C11 6.5.5 to 6.5.12).
pub fn computed(
    alloc: Global,
    types: &Types,
    line: u32,
    op: Op,
    at: u32,
    a: Written,
    b: Written,
) -> Result<Term, TypeRefusal>
    ensures { Operands types.now a b (λ v w. Answers (MeansTerm types.now) result (ordered.computed line op at v w)) }
{
    match types.binary_form(op, operand_of(types, &a.typed), operand_of(types, &b.typed)) {
        Err(rule) => Err(TypeRefusal::Mismatch(at, rule)),
        Ok(form) => result_of(binary_value(alloc, types, line, op, at, form, a, b)),
    }
}
