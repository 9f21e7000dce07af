ghost use Rattle.std.specs.Prelude.{List};
ghost use Rattle.c_types.specs.declared.type_ref.Row.{Row};
ghost use Rattle.typing_rules.specs.Terms as terms;
ghost use Rattle.typing_rules.specs.Checking.{pure};
ghost use Rattle.c_values.specs.Stand.{Makes, MeansTyped};
ghost use Rattle.c_values.specs.Answers.{Answers, MeansTerm, AreWritten, OverWritten};

use crate::arguments::values_of;
use c_typed::{Constant, ValueNode};
use c_values::{Term, Typed, Written, make, result_of};
use std::alloc::{AllocError, Global};
use typing_rules::TypeRefusal;

/// Operands whose values are dropped, and the last, whose value it is (C11 6.5.17).
pub fn sequence_of(
    alloc: Global,
    line: u32,
    dropped: Vec<Written>,
    last: Written,
) -> Result<Term, TypeRefusal>
    ensures { (rows : List Row) (ws : List terms.Written) → AreWritten rows dropped.items ws
        → OverWritten rows last (λ w. Answers (MeansTerm rows) result (pure (terms.result (terms.sequence_of line ws w)))) }
{
    result_of(sequence(alloc, line, dropped, last.typed))
}

/// Operands whose values are dropped, and the last.
fn sequence(
    alloc: Global,
    line: u32,
    dropped: Vec<Written>,
    last: Typed,
) -> Result<Typed, AllocError>
    ensures { (rows : List Row) (ws : List terms.Written) (w : terms.Written) → AreWritten rows dropped.items ws → MeansTyped rows last w.value
        → Makes rows result (terms.sequence_of line ws w) }
{
    let ty = last.value.get().ty;
    let values = values_of(alloc, dropped)?;
    let node = ValueNode::Sequence(values, last.value);
    make(alloc, line, ty, node, Constant::NoForm)
}
