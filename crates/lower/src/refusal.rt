use std::alloc::{AllocError, AllocFailed};

/// Why a program is not lowered. Functions are lowered in order, and the first cause decides.
#[derive(Clone, Copy, Debug, PartialEq, Eq)]
pub enum LowerRefusal {
    /// A function needs a 1,025th register: the line of the first token of the innermost expression that needs it, of a
    /// local's, a parameter's or an initialized local's name, else of a `return` without a value or of the function's `}`.
    TooManyRegisters(u32),
    /// A function has more than 65,535 instructions: the line of its name.
    TooLong(u32),
    /// Want of memory.
    Memory,
}

impl From<AllocError> for LowerRefusal {
    ghost use Rattle.std.specs.Prelude.{◌≡◌};
    ghost use Rattle.lower.specs.declared.refusal.LowerRefusal.TheVariants.{Memory};

    ghost from_gives = { λ _ e. e ≡ Memory };

    fn from(_error: AllocError) -> LowerRefusal {
        LowerRefusal::Memory
    }
}

impl<T: Drop> From<AllocFailed<T>> for LowerRefusal {
    ghost use Rattle.std.specs.Prelude.{◌≡◌};
    ghost use Rattle.lower.specs.declared.refusal.LowerRefusal.TheVariants.{Memory};

    ghost from_gives = { λ _ e. e ≡ Memory };

    fn from(_error: AllocFailed<T>) -> LowerRefusal {
        LowerRefusal::Memory
    }
}
