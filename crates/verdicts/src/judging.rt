ghost use Rattle.std.specs.Prelude.{◌≡◌};
ghost use Rattle.verdicts.specs.Verdict.{verdict_of_ends, stopped_by};
ghost use Rattle.srmt_base.specs.Trap.{is_budget};

use crate::thread_end::ThreadEnd;
use crate::verdict::{Report, Verdict};
use srmt_base::Trap;

// Both sides came to the same trap.
fn stopped(trap: Trap, line: u32) -> Verdict
    ensures { result ≡ stopped_by (is_budget trap) trap line }
{
    if trap.is_budget() {
        Verdict::Exhausted(trap, line)
    } else {
        Verdict::Undefined(trap, line)
    }
}

/// The verdict on the ends of the leading and of the trailing side: the first row that fits.
pub fn verdict_of(lead: ThreadEnd, trail: ThreadEnd) -> Verdict
    ensures { result ≡ verdict_of_ends lead trail }
{
    let first = &lead;
    let second = &trail;
    match (first, second) {
        (ThreadEnd::WriteFault, _) => Verdict::WriteFault,
        (_, ThreadEnd::Mismatch(taken, own)) => {
            Verdict::Reported(Report::Mismatch(*taken, *own))
        }
        (ThreadEnd::Echo(taken, own), _) => Verdict::Reported(Report::Echo(*taken, *own)),
        (ThreadEnd::Exit(status), ThreadEnd::Exit(other)) if *status == *other => {
            Verdict::Exit(*status)
        }
        (ThreadEnd::Trap(trap, line), ThreadEnd::Trap(other, at))
            if trap.code() == other.code() && *line == *at => { stopped(*trap, *line) }
        _ => Verdict::Reported(Report::Parted(*first, *second)),
    }
}
