ghost use Rattle.std.specs.Prelude.{◌≡◌, ◌<◌, ◌^◌, unsigned_abs, pos, ◌*ℤ◌};
ghost use Rattle.srmt_base.specs.Types.{value_at};
ghost use Rattle.srmt_base.specs.Pointer.{amount_of};
ghost use Rattle.c_types.specs.Types.{cells_of, target_of};
ghost use Rattle.c_types.specs.Table.{type_at};
ghost use Rattle.c_typed.specs.Starts as starts;
ghost use Rattle.c_starts.specs.Small.{IsSmall};

use crate::computing::read;
use c_typed::{Constant, Start};
use c_types::{TypeRef, Types};
use srmt_base::Ty;

/// The greatest offset that a pointer can have.
const LAST: i128 = 65535;

/// The cells of a number of elements.
fn cells(ty: Ty, index: u64, scale: u32) -> i128
    ensures exact { result ≡ value_at ty index *ℤ pos scale }
    ensures bounded { unsigned_abs result < 2 ^ 65 }
{
    i128::from(read(ty, index)) * i128::from(scale)
}

/// The cells by which a sum with an index moves; a difference moves the other way (C11 6.5.6p8).
fn amount(ty: Ty, index: u64, is_less: bool, scale: u32) -> i128
    ensures exact { result ≡ amount_of ty index is_less scale }
    ensures bounded { unsigned_abs result < 2 ^ 65 }
{
    let cells = cells(ty, index, scale);
    if is_less { -cells } else { cells }
}

/// An offset moved by an amount, if a pointer can have it.
fn offset_by(offset: u32, amount: i128) -> Option<u32>
    requires { unsigned_abs amount < 2 ^ 65 }
    ensures { result ≡ starts.offset_by offset amount }
{
    let offset = i128::from(offset) + amount;
    if 0 <= offset && offset <= LAST {
        Some(offset as u32)
    } else {
        None
    }
}

/// An address of an object moved by an amount.
fn moved(start: Option<Start>, amount: i128) -> Option<Start>
    requires { unsigned_abs amount < 2 ^ 65 }
    ensures { result ≡ starts.moved start amount }
{
    match start {
        None => None,
        Some(Start::Number(_)) | Some(Start::Function(_)) => None,
        Some(Start::Object(number, offset)) => match offset_by(offset, amount) {
            Some(offset) => Some(Start::Object(number, offset)),
            None => None,
        },
        Some(Start::Text(number, offset)) => match offset_by(offset, amount) {
            Some(offset) => Some(Start::Text(number, offset)),
            None => None,
        },
    }
}

/// An address moved by elements, whose number is a constant, of what its type points to (C11 6.5.6p8).
pub(crate) fn moved_by(
    types: &Types,
    start: Option<Start>,
    by: Constant,
    ty: Ty,
    is_less: bool,
    base: TypeRef,
) -> Option<Start>
    ensures { result ≡ starts.moved_by start by ty is_less (type_at types.now base) }
{
    match by {
        Constant::NoForm | Constant::Traps => None,
        Constant::Value(n) => {
            let scale = types.size(types.target(base).target).cells;
            moved(start, amount(ty, n, is_less, scale))
        }
    }
}

/// An address constant as a `_Bool` (C11 6.3.1.2).
pub(crate) fn as_bool(start: Option<Start>) -> Option<Start>
    ensures { result ≡ starts.as_bool start }
{
    match start {
        None => None,
        Some(Start::Number(n)) => Some(Start::Number(if n == 0 { 0 } else { 1 })),
        Some(Start::Object(..)) | Some(Start::Text(..)) => Some(Start::Number(1)),
        Some(Start::Function(_)) => Some(Start::Number(1)),
    }
}

/// A constant as what a cell starts with.
pub(crate) fn number_if(constant: Constant) -> Option<Start>
    requires { IsSmall constant }
    ensures { result ≡ starts.number_if constant }
{
    match constant {
        Constant::NoForm | Constant::Traps => None,
        Constant::Value(n) => Some(Start::Number(n as u32)),
    }
}
