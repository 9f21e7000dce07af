ghost use Rattle.std.specs.Prelude.{◌≡◌};
ghost use Rattle.c_parser.specs.declared.refusal.ParseRefusal.TheVariants.{Memory as NoMemory};

use c_lexer::TokenKind;
use std::alloc::AllocError;

/// Why the tokens of a source are no unit, and the place of the first byte of the token that does not belong,
/// or the source's length where the tokens end early.
#[derive(Clone, Copy, Debug, PartialEq, Eq)]
pub enum ParseRefusal {
    /// Another token is expected there.
    Expected(u32),
    /// A keyword or punctuator that has no place in the accepted subset.
    LeftOut(u32, TokenKind),
    /// A token that is nested too deeply.
    TooDeep(u32),
    /// There is no memory left.
    Memory,
}

impl From<AllocError> for ParseRefusal {
    ghost from_gives = { λ _ e. e ≡ NoMemory };

    fn from(_e: AllocError) -> ParseRefusal {
        ParseRefusal::Memory
    }
}
