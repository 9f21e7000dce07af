ghost use Rattle.std.specs.Prelude.{◌≡◌, ◌+◌, ◌-◌, ◌^◌, ◌<◌, length, All};
ghost use Rattle.std.specs.Option.{option_copied};
ghost use Rattle.mid_code.specs.Fits.{IsValue};
ghost use Rattle.mid_code.specs.Versions.{version_at};
ghost use Rattle.frames.specs.Copied.{versions_of, IsKept, CanCopyAll, CopiesNone, HasCopied, CopiesMany};

use crate::alone::{Stand, go_on};
use mid_code::{Pair, VersionLine, VersionOp};
use srmt_base::Side;

/// What copied instructions came to.
#[derive(Clone, Copy, Debug)]
pub(crate) struct Run {
    /// Where the activation stands behind them.
    pub(crate) stand: Stand,
    /// How many there were.
    pub(crate) count: u32,
}

/// Goes on in a function's version while its instructions are copied ones that need the registers,
/// the place and turns alone.
pub(crate) fn run_copied(
    pair: &Pair,
    side: Side,
    number: u16,
    registers: &mut [u64],
    stand: Stand,
) -> Run
    requires can { CanCopyAll side pair.now number (length registers.old) }
    requires small { All IsValue registers.old }
    ensures copies { CopiesMany side pair.now number result.count registers.old stand registers.new result.stand }
    ensures kept { IsKept registers.old registers.new }

    // It ends where no more can be performed so, unless there were 2^32 - 1 of them.
    ensures whole { result.count < 2 ^ 32 - 1 → CopiesNone side pair.now number registers.new result.stand }
{
    let mut stand = stand;
    let mut count = 0;
    while count < u32::MAX {
        match copy(pair, side, number, registers, stand) {
            Some(next) => {
                stand = next;
                count += 1;
            }
            None => break,
        }
    }
    Run { stand, count }
}

/// Performs the instruction at which the activation stands, where it is such a one.
#[inline(always)]
fn copy(pair: &Pair, side: Side, number: u16, registers: &mut [u64], stand: Stand) -> Option<Stand>
    requires can { CanCopyAll side pair.now number (length registers.old) }
    requires small { All IsValue registers.old }
    ensures { HasCopied side pair.now number registers.old stand registers.new result }
{
    let line = line_at(pair, side, number, stand.place)?;
    match &line.op {
        VersionOp::Copied(mid) => go_on(registers, stand, mid),
        _ => None,
    }
}

/// The instruction at a place of a side's version of a function.
#[inline(always)]
fn line_at(pair: &Pair, side: Side, number: u16, place: u32) -> Option<&VersionLine>
    ensures { option_copied result ≡ version_at (versions_of side pair.now) number place }
{
    match side {
        Side::Lead => pair.leading_at(number, place as usize),
        Side::Trail => pair.trailing_at(number, place as usize),
    }
}
