ghost use Rattle.std.specs.Prelude.{◌≡◌};
ghost use Rattle.answers.specs.declared.answer.RunAnswer.TheVariants.{OutOfMemory, WriteFault};
ghost use Rattle.answers.specs.Answer.{verdict_status, end_status, status_of, unread};

use c_lexer::LexRefusal;
use c_parser::ParseRefusal;
use srmt_base::SourceEnd;
use srmt_outside::{Failed, FileFault};
use std::alloc::AllocError;
use typing_rules::TypeRefusal;
use verdicts::{Ran, Verdict};

/// How a call has ended.
#[derive(Clone, Copy, Debug, PartialEq, Eq)]
pub struct Finished {
    /// The status with which the process is to end.
    pub status: u8,
    pub answer: RunAnswer,
    /// Whether all lines of the answer were written.
    pub noted: bool,
}

/// What a call answers.
#[derive(Clone, Copy, Debug, PartialEq, Eq)]
pub enum RunAnswer {
    /// The program ran on one thread, and ended so.
    Alone(SourceEnd),
    /// Both sides of the program ran, with this answer.
    Ran(Ran),
    /// The program has a typing.
    Checked,
    /// The words ask how the program is used.
    Help,
    /// The words ask which version this is.
    Version,
    /// The words are not taken.
    Usage,
    /// A file was not read.
    ReadFault,
    /// A file is longer than its limit.
    TooLong,
    /// The program was refused.
    Refused(CompileRefusal),
    /// An event was not written.
    WriteFault,
    /// Memory ran out.
    OutOfMemory,
}

/// A file of a program.
#[derive(Clone, Copy, Debug, PartialEq, Eq)]
pub enum Which {
    Main,
    Binary,
}

/// Why a program is refused.
#[derive(Clone, Copy, Debug, PartialEq, Eq)]
pub enum CompileRefusal {
    /// It is not of the first form.
    Form,
    /// A file has no list of tokens.
    Lex(Which, LexRefusal),
    /// The tokens of a file are no translation unit.
    Parse(Which, ParseRefusal),
    /// The program has no typing.
    Typing(TypeRefusal),
}

impl RunAnswer {
    /// The status with which the process is to end: a program's own where it ended with one.
    pub fn status(&self) -> u8
        ensures { result ≡ status_of self.now }
    {
        match *self {
            RunAnswer::Alone(ref end) => status_of_end(end),
            RunAnswer::Ran(ref ran) => status_of_verdict(&ran.verdict),
            RunAnswer::Checked | RunAnswer::Help | RunAnswer::Version => 0,
            RunAnswer::ReadFault | RunAnswer::TooLong | RunAnswer::WriteFault => 124,
            RunAnswer::OutOfMemory => 125,
            RunAnswer::Usage => 126,
            RunAnswer::Refused(_) => 127,
        }
    }
}

/// The status of an end on one thread.
fn status_of_end(end: &SourceEnd) -> u8
    ensures { result ≡ end_status end.now }
{
    match *end {
        SourceEnd::Exit(status) => status,
        SourceEnd::Trap(trap, _) if trap.is_budget() => 122,
        SourceEnd::Trap(..) => 121,
    }
}

/// The status of a verdict.
fn status_of_verdict(verdict: &Verdict) -> u8
    ensures { result ≡ verdict_status verdict.now }
{
    match *verdict {
        Verdict::Exit(status) => status,
        Verdict::Undefined(..) => 121,
        Verdict::Exhausted(..) => 122,
        Verdict::Reported(_) => 123,
        Verdict::WriteFault => 124,
    }
}

impl From<FileFault> for RunAnswer {
    ghost from_gives = { λ fault answer. answer ≡ unread fault };

    fn from(fault: FileFault) -> RunAnswer {
        match fault {
            FileFault::Failed => RunAnswer::ReadFault,
            FileFault::TooLong => RunAnswer::TooLong,
            FileFault::Memory => RunAnswer::OutOfMemory,
        }
    }
}

impl From<AllocError> for RunAnswer {
    ghost from_gives = { λ _ answer. answer ≡ OutOfMemory };

    fn from(_error: AllocError) -> RunAnswer {
        RunAnswer::OutOfMemory
    }
}

impl From<Failed> for RunAnswer {
    ghost from_gives = { λ _ answer. answer ≡ WriteFault };

    fn from(_failed: Failed) -> RunAnswer {
        RunAnswer::WriteFault
    }
}
