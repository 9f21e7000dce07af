//! The tokens of a source text: where each lies, what it is and what it is worth (C11 6.4).
//!
//! The crate promises that a source has the tokens that `tokens` gives, that a source with tokens is not
//! refused unless memory ends, and that a refusal names the first fault of the source from the left. It
//! stands on `srmt_base` for the types of numbers.
#![tactic(auto)]

mod bytes;
mod law;
mod lexer;
mod number;
mod piece;
mod quoted;
mod space;
#[cfg(test)]
mod tests;
mod token;
mod word;

pub use law::one_reading;
pub use lexer::tokens;
pub use quoted::text;
pub use token::{KEYWORDS, LexRefusal, PUNCTUATORS, Token, TokenKind};
