//! Cuts a source into its pieces.

ghost use Rattle.std.specs.Prelude.{◌≡◌, ◌+◌, ◌-◌, ◌^◌, ◌<◌, ◌≤◌, ◌≢◌, ◌++◌, List, [], ◌∷◌, length, IfOk, IfErr, OnOk, MatchResult, ◌⊎◌};
ghost use Rattle.c_lexer.specs.Tokens.{Lexes, Refuses, LieWithin, HaveBytes};
ghost use Rattle.c_lexer.specs.declared.token.Token.{Token};
ghost use Rattle.c_lexer.specs.declared.token.LexRefusal.{LexRefusal};
ghost use Rattle.c_lexer.specs.declared.piece.Piece.{Piece};
ghost use Rattle.c_lexer.specs.Tokens as tokens;
ghost use Rattle.c_lexer.specs.Scan as spec;

use crate::bytes::{begins_name, is_blank, is_line_feed};
use crate::number::number;
use crate::piece::Piece;
use crate::quoted::quoted;
use crate::space::{block_comment, directive, line_len};
use crate::token::{LexRefusal, Token};
use crate::word::{mark, name};
use std::alloc::Global;

/// The piece that the bytes begin, and its length. They lie at a place of the source, and perhaps only blanks
/// and comments stand before them on their line.
#[tactic(auto, unfolding(crate::specs::Scan::front))]
fn front(bytes: &[u8], is_first: bool, at: u32) -> Result<(Piece, usize), LexRefusal>
    requires first { 0 < length bytes.now }
    requires short { length bytes.now < 2 ^ 32 }
    ensures value { result ≡ spec.front is_first at bytes.now }
    ensures within { IfOk result (λ found. (1 ≤ found.1) × (found.1 ≤ length bytes.now)) }
{
    let b = bytes[0];
    if is_blank(b) {
        Ok((Piece::Blank, 1))
    } else if begins_name(b) {
        Ok(name(bytes))
    } else if b.is_ascii_digit() {
        number(bytes, at)
    } else if b == b'\'' || b == b'"' {
        quoted(bytes, at)
    } else if bytes.starts_with(b"//") {
        Ok((Piece::LineComment, line_len(bytes)))
    } else if bytes.starts_with(b"/*") {
        block_comment(bytes, at)
    } else if is_first && b == b'#' {
        directive(bytes, at)
    } else {
        mark(bytes, at)
    }
}

fn line_feeds(bytes: &[u8]) -> usize
    ensures value { result ≡ tokens.line_feeds bytes.now }
    ensures within { result ≤ length bytes.now }
{
    bytes.iter().filter(|b| is_line_feed(**b)).count()
}

/// The line feeds of a piece, of which a line comment and a token have none.
fn feeds_of(piece: Piece, word: &[u8]) -> usize
    ensures value { result ≡ spec.feeds_of piece word.now }
    ensures within { result ≤ length word.now }
{
    match piece {
        Piece::Blank | Piece::BlockComment | Piece::Include => line_feeds(word),
        Piece::LineComment | Piece::Lexeme(_) => 0,
    }
}

/// Whether only blanks and comments stand on the line up to the end of a piece.
fn first_after(is_first: bool, piece: Piece, word: &[u8]) -> bool
    ensures { result ≡ tokens.first_after is_first piece word.now }
{
    match piece {
        Piece::Blank => is_first || word == b"\n".as_slice(),
        Piece::LineComment => is_first,
        Piece::BlockComment => is_first,
        Piece::Include => is_first,
        Piece::Lexeme(_) => false,
    }
}

/// Where a piece begins: its place and line, and whether only blanks and comments stand before it on the line.
#[derive(Clone, Copy)]
struct Place {
    at: u32,
    line: u32,
    is_first: bool,
}

impl Place {
    /// The place behind a piece that begins here.
    fn past(self, piece: Piece, word: &[u8]) -> Place
        requires short { self.at + length word.now < 2 ^ 32 }
        requires lines { self.line + length word.now < 2 ^ 32 }
        ensures at { result.at ≡ self.at + length word.now }
        ensures line { result.line ≡ self.line + spec.feeds_of piece word.now }
        ensures first { result.is_first ≡ tokens.first_after self.is_first piece word.now }
        ensures lines { result.line ≤ self.line + length word.now }
    {
        Place {
            at: self.at + word.len() as u32,
            line: self.line + feeds_of(piece, word) as u32,
            is_first: first_after(self.is_first, piece, word),
        }
    }

    /// The place behind a blank that lies here.
    fn past_blank(self, b: u8) -> Place
        requires short { self.at + 1 < 2 ^ 32 }
        requires lines { self.line + 1 < 2 ^ 32 }
        ensures at { result.at ≡ self.at + 1 }
        ensures line { result.line ≡ self.line + tokens.line_feeds (b ∷ []) }
        ensures first { result.is_first ≡ tokens.first_after self.is_first Piece.Blank (b ∷ []) }
        ensures lines { result.line ≤ self.line + 1 }
    {
        let ends_line = is_line_feed(b);
        Place {
            at: self.at + 1,
            line: if ends_line { self.line + 1 } else { self.line },
            is_first: self.is_first || ends_line,
        }
    }
}

/// Keeps a piece that is a token.
fn keep(kept: &mut Vec<Token>, piece: Piece, place: Place, end: u32) -> Result<(), LexRefusal>
    ensures ok { OnOk result (kept.new.items ≡ kept.old.items ++ spec.token_at piece place.at place.line end) }
    ensures err { IfErr result (λ refusal. refusal ≡ LexRefusal.Memory) }
{
    if let Piece::Lexeme(kind) = piece {
        let token = Token {
            kind,
            start: place.at,
            end,
            line: place.line,
        };
        kept.push(token)?;
    }
    Ok(())
}

/// The tokens of a source (C11 6.4), or its first fault.
pub fn tokens(alloc: Global, src: &[u8]) -> Result<Vec<Token>, LexRefusal>
    requires { length src.now ≤ 1048576 }
    ensures found { IfOk result (λ found. Lexes src.now found.items) }
    ensures refused { IfErr result (λ refusal. refusal ≢ LexRefusal.Memory → Refuses src.now refusal) }

    // A source with tokens has these answered, and one with a fault this, unless memory ends.
    ensures only { (list : List Token) → Lexes src.now list
        → MatchResult result (λ found. found.items ≡ list) (λ refusal. refusal ≡ LexRefusal.Memory) }
    ensures first { (fault : LexRefusal) → Refuses src.now fault
        → MatchResult result (λ found. ⊥) (λ refusal. (refusal ≡ fault) ⊎ (refusal ≡ LexRefusal.Memory)) }

    ensures within { IfOk result (λ found. LieWithin 0 (length src.now) found.items) }
    ensures texts { IfOk result (λ found. HaveBytes src.now found.items) }
{
    let mut kept = Vec::with_capacity(alloc, src.len() / 3)?;
    let mut rest = src;
    let mut place = Place {
        at: 0,
        line: 1,
        is_first: true,
    };
    while !rest.is_empty() {
        let b = rest[0];
        if is_blank(b) {
            place = place.past_blank(b);
            rest = rest.split_at(1).1;
            continue;
        }
        let (piece, len) = front(rest, place.is_first, place.at)?;
        let (word, after) = rest.split_at(len);
        let next = place.past(piece, word);
        keep(&mut kept, piece, place, next.at)?;
        place = next;
        rest = after;
    }
    Ok(kept)
}
