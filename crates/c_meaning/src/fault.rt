ghost use Rattle.std.specs.Prelude.{◌≡◌, Some};
ghost use Rattle.c_meaning.specs.Fault.{text_of};
ghost use Rattle.c_meaning.specs.declared.fault.MeaningFault.TheVariants.{Memory};

use std::alloc::{AllocError, AllocFailed};
use std::error::Error;
use std::fmt;

/// Why a run stopped before its end.
#[derive(Clone, Copy, Debug, PartialEq, Eq, Hash)]
pub enum MeaningFault {
    /// An event was not written, and the outlet's count of faults rose.
    Write,
    /// There was no memory.
    Memory,
}

impl fmt::Display for MeaningFault {
    ghost output = { λ fault. Some (text_of fault) };

    fn fmt<W: fmt::Write>(&self, f: &mut fmt::Formatter<W>) -> fmt::Result {
        f.write_str(match self {
            MeaningFault::Write => "an event was not written",
            MeaningFault::Memory => "out of memory",
        })
    }
}

impl Error for MeaningFault {}

impl From<AllocError> for MeaningFault {
    ghost from_gives = { λ _ e. e ≡ Memory };

    fn from(_error: AllocError) -> MeaningFault {
        MeaningFault::Memory
    }
}

impl<T: Drop> From<AllocFailed<T>> for MeaningFault {
    ghost from_gives = { λ _ e. e ≡ Memory };

    fn from(_error: AllocFailed<T>) -> MeaningFault {
        MeaningFault::Memory
    }
}
