use crate::token::TokenKind;

/// What a piece of a source is.
#[derive(Clone, Copy, Debug)]
pub enum Piece {
    /// One blank.
    Blank,
    /// A comment from `//` to the end of its line.
    LineComment,
    /// A comment from `/*` to the next `*/`.
    BlockComment,
    /// One of the two `#include` lines, without its line feed.
    Include,
    /// A token.
    Lexeme(TokenKind),
}
