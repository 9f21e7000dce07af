ghost use Rattle.std.specs.Prelude.{◌≡◌, ◌+◌, ◌^◌, ◌<◌, [], OnErr};
ghost use Rattle.mid_code.specs.Registers.{registers_list};
ghost use Rattle.mid_code.specs.Valid.{IsValid};
ghost use Rattle.mid_code.specs.Fits.{Fits};
ghost use Rattle.mid_code.specs.Meaning.{after_call, step};
ghost use Rattle.frames.specs.Acts.{CanCall, called};
ghost use Rattle.frames.specs.Reaching.{state_of, Leads, LeadsTo, GivesEvent, Counted};

use frames::{Did, Running, next_line, perform, reach};
use mid_code::{MidProgram, Registers};
use srmt_base::SourceEnd;
use srmt_outside::{Failed, Outlet};

/// Executes the next instruction, with its event, and answers the end if the run ends by it. Every
/// function that is called is entered.
pub(crate) fn execute<O: Outlet>(
    running: &mut Running,
    program: &MidProgram,
    outlet: &mut O,
) -> Result<Option<SourceEnd>, Failed>
    requires valid { IsValid program.now }
    requires fits { Fits program.now (state_of running.old) }
    requires room { running.old.frames.room.objects ≡ 2097152 }
    ensures leads { Leads (step program.now (state_of running.old)) (state_of running.new) result (O.events outlet.old) (O.events outlet.new) }
    ensures room { running.new.frames.room ≡ running.old.frames.room }

    // An event that failed is not written, and its instruction is still to be done.
    ensures before { OnErr result (GivesEvent (step program.now (state_of running.old))) }
    ensures kept { OnErr result (running.new ≡ running.old) }
    ensures unwritten { OnErr result (O.events outlet.new ≡ O.events outlet.old) }
    ensures counted { Counted result (O.faults outlet.old) (O.faults outlet.new) }
{
    let Some(line) = next_line(program, &running.frames) else {
        unreachable!();
    };
    match perform(&mut running.frames, program, line) {
        Did::Went => Ok(None),
        Did::Called {
            function,
            args,
            target,
        } => Ok(call(running, program, function, &args, target)),
        Did::Left(value) => {
            running.frames.leave(program, value);
            Ok(None)
        }
        Did::Trapped(trap, at) => Ok(Some(SourceEnd::Trap(trap, at))),
        Did::Wants(access) => reach(running, program, access, line.line, outlet),
    }
}

/// Enters a function that is called, or answers the end where its part has no activation or no turn
/// left.
#[inline(never)]
fn call(
    running: &mut Running,
    program: &MidProgram,
    function: u16,
    args: &Registers,
    target: u16,
) -> Option<SourceEnd>
    requires place { running.old.frames.machine.top.place + 1 < 2 ^ 32 }
    requires can { CanCall program.now running.old.frames.machine.top function (registers_list args.now) target }
    ensures leads { let entry = called program.now function args.now target running.old.frames.machine in LeadsTo (after_call (state_of running.old) entry) (state_of running.new) [] result }
    ensures room { running.new.frames.room ≡ running.old.frames.room }
{
    match running.frames.call(program, function, args, target) {
        Ok(()) => None,
        Err(refused) => Some(SourceEnd::Trap(refused.trap, refused.line)),
    }
}
