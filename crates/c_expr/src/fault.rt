ghost use Rattle.std.specs.Prelude.{◌≡◌};
ghost use Rattle.c_expr.specs.declared.fault.Fault.TheVariants.{Memory};

use c_lexer::Token;
use std::alloc::{AllocError, AllocFailed};

/// Why a line of the grammar finds nothing at the front of some tokens.
#[derive(Clone, Copy, Debug, PartialEq, Eq)]
pub enum Fault {
    /// The first token that does not fit, by the number of tokens from it on; 0 where the tokens end early.
    Refused(usize),
    /// There is no memory left.
    Memory,
}

impl<T: Drop> From<AllocFailed<T>> for Fault {
    ghost from_gives = { λ _ e. e ≡ Memory };

    fn from(_e: AllocFailed<T>) -> Fault {
        Fault::Memory
    }
}

impl From<AllocError> for Fault {
    ghost from_gives = { λ _ e. e ≡ Memory };

    fn from(_e: AllocError) -> Fault {
        Fault::Memory
    }
}

/// What a line of the grammar finds, and the tokens behind it.
pub type Read<'t, T> = Result<(T, &'t [Token]), Fault>;
