ghost use Rattle.std.specs.Prelude.{◌≡◌, ℕ, IfOk};
ghost use Rattle.mid_code.specs.Fits.{IsValue};
ghost use Rattle.c_types.specs.Table.{type_at};
ghost use Rattle.source_meaning.specs.Expressions as meaning;
ghost use Rattle.source_meaning.specs.World.{computed};
ghost use Rattle.c_meaning.specs.Operators.{moved_result, HasScaleOf};

use crate::setting::At;
use c_types::TypeRef;
use srmt_base::{Trap, pointer_sum};

/// 1 where a value is not 0, else 0.
pub(crate) fn truth(value: u64) -> u64
    ensures value { result ≡ meaning.truth value }
    ensures small { IsValue result }
{
    u64::from(value != 0)
}

/// What a pointer and an integer of these types make, the pointer or the integer first (C11 6.5.6p8).
pub(crate) fn moved(
    at: At,
    is_less: bool,
    pointer_first: bool,
    a: TypeRef,
    b: TypeRef,
    x: u64,
    y: u64,
) -> Result<u64, Trap>
    requires scale { HasScaleOf pointer_first (type_at at.program.now.types a) (type_at at.program.now.types b) }
    requires first { IsValue x }
    requires second { IsValue y }
    ensures exact { result ≡ moved_result is_less pointer_first (type_at at.entry.program.now.types a) (type_at at.entry.program.now.types b) x y }
    ensures small { IfOk result IsValue }
{
    if pointer_first {
        pointer_sum(x, at.ty(b), y, is_less, at.scale(a))
    } else {
        pointer_sum(y, at.ty(a), x, is_less, at.scale(b))
    }
}
