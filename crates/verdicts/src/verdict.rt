use crate::thread_end::ThreadEnd;
use srmt_base::{Trap, Word};

/// What the two sides' ends say together of a run.
#[derive(Clone, Copy, Debug, PartialEq, Eq)]
pub enum Verdict {
    /// Both ended by this status.
    Exit(u8),
    /// Both came to this undefined behaviour, at a line of the source.
    Undefined(Trap, u32),
    /// Both used up this budget, at a line of the source.
    Exhausted(Trap, u32),
    /// The sides differ.
    Reported(Report),
    /// An event could not be written.
    WriteFault,
}

/// How the sides differ.
#[derive(Clone, Copy, Debug, PartialEq, Eq)]
pub enum Report {
    /// The trailing side took the first word where it had the second.
    Mismatch(Word, Word),
    /// The leading side took the first acknowledgement where it had the second.
    Echo(Word, Word),
    /// The leading and the trailing side ended so, and not alike.
    Parted(ThreadEnd, ThreadEnd),
}

/// The answer of a run of both sides.
#[derive(Clone, Copy, Debug, PartialEq, Eq)]
pub struct Ran {
    pub verdict: Verdict,
    /// The counted steps of the leading side, the one on which it ended among them.
    pub lead_steps: u64,
    /// Those of the trailing side.
    pub trail_steps: u64,
    /// How many words the leading side's steps sent.
    pub words: u64,
    /// How many acknowledgements the trailing side's steps sent.
    pub acks: u64,
    /// Whether a register was replaced in the run.
    pub applied: bool,
}
