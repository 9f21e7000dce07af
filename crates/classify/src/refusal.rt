ghost use Rattle.std.specs.Prelude.{◌≡◌};
ghost use Rattle.classify.specs.declared.refusal.ClassRefusal.TheVariants.{Memory};

use std::alloc::AllocError;

/// Why a program has no classes.
#[derive(Clone, Copy, Debug, PartialEq, Eq)]
pub enum ClassRefusal {
    /// It would have more than 65,535 sites, those of wrappers among them.
    TooManySites,
    /// There was no memory.
    Memory,
}

impl From<AllocError> for ClassRefusal {
    ghost from_gives = { λ _ e. e ≡ Memory };

    fn from(_error: AllocError) -> ClassRefusal {
        ClassRefusal::Memory
    }
}
