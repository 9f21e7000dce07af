ghost use Rattle.std.specs.Prelude.{◌≡◌};
ghost use Rattle.c_lexer.specs.declared.token.LexRefusal.TheVariants.{Memory};

use srmt_base::Ty;
use std::alloc::{AllocError, AllocFailed};

/// A token of a source: the half-open range of its bytes, and its line, from 1.
#[derive(Clone, Copy, Debug, PartialEq, Eq)]
pub struct Token {
    /// What it is, with its value where it has one.
    pub kind: TokenKind,
    /// The place of its first byte.
    pub start: u32,
    /// The place behind its last byte.
    pub end: u32,
    /// One more than the number of line feeds before it.
    pub line: u32,
}

/// What a token is (C11 6.4).
#[derive(Clone, Copy, Debug, PartialEq, Eq)]
pub enum TokenKind {
    /// The place in `KEYWORDS`, from 0.
    Keyword(u8),
    /// An identifier.
    Name,
    /// An integer constant: `Int` or `UInt`, and the value.
    Number(Ty, u32),
    /// A character constant, of type `int`: the value modulo 2^32.
    Character(u32),
    /// A string literal, with its quotes.
    Text,
    /// The place in `PUNCTUATORS`, from 0.
    Punct(u8),
}

/// Why a source has no list of tokens, and the place of the first byte of what is wrong.
#[derive(Clone, Copy, Debug, PartialEq, Eq)]
pub enum LexRefusal {
    /// A byte that begins no token.
    BadByte(u32),
    /// A block comment without its end.
    OpenComment(u32),
    /// A quoted token without its closing quote on the line.
    OpenText(u32),
    /// A quoted token with an unknown escape or one above 255, or a character constant that is not one
    /// character.
    BadText(u32),
    /// A number that is no integer constant.
    BadNumber(u32),
    /// An integer constant that no type holds.
    LiteralTooWide(u32),
    /// A directive other than the two `#include` lines, at its `#`.
    Directive(u32),
    /// There is no memory left.
    Memory,
}

impl<T: Drop> From<AllocFailed<T>> for LexRefusal {
    ghost from_gives = { λ _ e. e ≡ Memory };

    fn from(_e: AllocFailed<T>) -> LexRefusal {
        LexRefusal::Memory
    }
}

impl From<AllocError> for LexRefusal {
    ghost from_gives = { λ _ e. e ≡ Memory };

    fn from(_e: AllocError) -> LexRefusal {
        LexRefusal::Memory
    }
}

/// The keywords (C11 6.4.1).
pub const KEYWORDS: [&[u8]; 44] = [
    b"auto",
    b"break",
    b"case",
    b"char",
    b"const",
    b"continue",
    b"default",
    b"do",
    b"double",
    b"else",
    b"enum",
    b"extern",
    b"float",
    b"for",
    b"goto",
    b"if",
    b"inline",
    b"int",
    b"long",
    b"register",
    b"restrict",
    b"return",
    b"short",
    b"signed",
    b"sizeof",
    b"static",
    b"struct",
    b"switch",
    b"typedef",
    b"union",
    b"unsigned",
    b"void",
    b"volatile",
    b"while",
    b"_Alignas",
    b"_Alignof",
    b"_Atomic",
    b"_Bool",
    b"_Complex",
    b"_Generic",
    b"_Imaginary",
    b"_Noreturn",
    b"_Static_assert",
    b"_Thread_local",
];

/// The punctuators of the accepted subset (C11 6.4.6).
pub const PUNCTUATORS: [&[u8]; 46] = [
    b"[", b"]", b"(", b")", b"{", b"}", b".", b"->", b"++", b"--", b"&", b"*", b"+", b"-", b"~",
    b"!", b"/", b"%", b"<<", b">>", b"<", b">", b"<=", b">=", b"==", b"!=", b"^", b"|", b"&&",
    b"||", b"?", b":", b";", b"...", b"=", b"*=", b"/=", b"%=", b"+=", b"-=", b"<<=", b">>=",
    b"&=", b"^=", b"|=", b",",
];
