ghost use Rattle.std.specs.Prelude.{◌≡◌, ◌≢◌, ◌≤◌, [], true, false};
ghost use Rattle.srmt_outside.specs.Count.{Rose};
ghost use Rattle.srmt_outside.specs.Told.{Appends, AppendsPrefix};
ghost use Rattle.answers.specs.Answer.{final_status};
ghost use Rattle.answers.specs.Notes.{lines_of, written};

use crate::answer::{Finished, RunAnswer};
use crate::pen::Pen;
use srmt_outside::Sink;

/// The status where a line was not written.
const UNNOTED: u8 = 124;

/// Writes the lines of an answer as notes, until one is not written, and says how the call has
/// ended. Takes no memory.
pub fn finish<N: Sink>(answer: RunAnswer, notes: &mut N) -> Finished
    ensures answer { result.answer ≡ answer }
    ensures status { result.status ≡ final_status result.noted answer }
    ensures noted { result.noted ≡ true
        → Appends (N.bytes notes.old) (N.bytes notes.new) (written (lines_of answer)) }
    ensures unnoted { result.noted ≡ false
        → AppendsPrefix (N.bytes notes.old) (N.bytes notes.new) (written (lines_of answer)) }
    ensures failed { result.noted ≡ false
        → (lines_of answer ≢ []) × Rose (N.faults notes.old) (N.faults notes.new) }
    ensures never_falls { N.faults notes.old ≤ N.faults notes.new }
{
    let mut pen = Pen::new(notes);
    pen.answer(&answer);
    let noted = pen.going;
    let status = if noted { answer.status() } else { UNNOTED };
    Finished {
        status,
        answer,
        noted,
    }
}
