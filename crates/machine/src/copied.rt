ghost use Rattle.std.specs.Prelude.{◌-◌, ◌^◌, ◌<◌};
ghost use Rattle.machine.specs.Fits.{SideFits};
ghost use Rattle.machine.specs.Quiet.{NoneQuiet, QuietSteps};

use crate::machine::Machine;
use mid_code::Pair;
use srmt_base::Side;

/// Makes the next steps of a side while they are copied instructions that need its registers, its
/// place and turns alone, and says how many these were. None of them asks a link. The machine was
/// started with this side and has not ended.
pub fn run_copied(pair: &Pair, m: &mut Machine, side: Side) -> u32
    requires fits { SideFits side pair.now m.old }
    ensures steps { QuietSteps side pair.now result m.old m.new }

    // It ends where no further step is one that asks nothing and goes on, unless there were 2^32 - 1.
    ensures whole { result < 2 ^ 32 - 1 → NoneQuiet side pair.now m.new }
    ensures fits { SideFits side pair.now m.new }
{
    // The call is for the proof: a pair is one of a program of the first form.
    let _pair = pair.classed();
    m.frames.run_copied(pair, side)
}
