//! The whole parse.

ghost use Rattle.std.specs.Prelude.{◌≡◌, ◌≤◌, ◌<◌, Ok, Err, Some, None, length};
ghost use Rattle.c_lexer.specs.Tokens.{Lexes};
ghost use Rattle.c_tree.specs.declared.unit.Unit.{Unit as TheUnit};
ghost use Rattle.c_parser.specs.declared.refusal.ParseRefusal.{ParseRefusal as Refusal};
ghost use Rattle.c_parser.specs.Nesting as nesting;
ghost use Rattle.c_parser.specs.Refusals as refusals;
ghost use Rattle.c_parser.specs.Answers.{Answers, IsUnitWithin, UnlessMemory};

use crate::nesting::first_too_deep;
use crate::refusal::ParseRefusal;
use crate::unit::unit;
use c_expr::Fault;
use c_expr::codes::{GRAMMAR_WORDS, code};
use c_expr::tokens::one_of;
use c_lexer::{Token, TokenKind};
use c_tree::Unit;
use std::alloc::Global;

/// Whether a kind stands nowhere in the grammar.
fn is_left_out(kind: TokenKind) -> bool
    ensures { result ≡ refusals.is_left_out kind }
{
    match kind {
        TokenKind::Keyword(_) => !one_of(&GRAMMAR_WORDS, code(kind)),
        TokenKind::Punct(place) => one_of(&[6, 7, 33], u16::from(place)),
        TokenKind::Name | TokenKind::Number(_, _) | TokenKind::Character(_) | TokenKind::Text =>
            false,
    }
}

/// Why the tokens stop in front of these.
fn refusal(src: &[u8], rest: &[Token]) -> ParseRefusal
    requires { length src.now ≤ 1048576 }
    ensures { refusals.IsRefusalOf src.now rest.now result }
{
    match rest {
        [] => ParseRefusal::Expected(src.len() as u32),
        [first, ..] => {
            if is_left_out(first.kind) {
                ParseRefusal::LeftOut(first.start, first.kind)
            } else {
                ParseRefusal::Expected(first.start)
            }
        }
    }
}

/// What the tokens are, where none of them is nested too deeply.
fn whole(alloc: Global, tokens: &[Token], src: &[u8]) -> Result<Unit, ParseRefusal>
    requires size { length src.now ≤ 1048576 }
    requires none { nesting.first_too_deep tokens.now ≡ None }
    ensures { Answers tokens.now src.now result }
{
    match unit(alloc, src, tokens) {
        Ok(unit) => Ok(unit),
        Err(Fault::Refused(left)) => {
            let rest = &tokens[tokens.len() - left..];
            Err(refusal(src, rest))
        }
        Err(Fault::Memory) => Err(ParseRefusal::Memory),
    }
}

/// What they are, where the one at this place is the first that is nested too deeply.
fn in_front(alloc: Global, tokens: &[Token], src: &[u8], at: usize) -> Result<Unit, ParseRefusal>
    requires size { length src.now ≤ 1048576 }
    requires within { at < length tokens.now }
    requires deep { nesting.first_too_deep tokens.now ≡ Some at }
    ensures { Answers tokens.now src.now result }
{
    let front = &tokens[..at];
    let first = tokens[at];
    match unit(alloc, src, front) {
        Ok(_unit) => Err(ParseRefusal::TooDeep(first.start)),
        Err(Fault::Refused(left)) => {
            if left == 0 {
                Err(ParseRefusal::TooDeep(first.start))
            } else {
                let rest = &tokens[at - left..];
                Err(refusal(src, rest))
            }
        }
        Err(Fault::Memory) => Err(ParseRefusal::Memory),
    }
}

/// What the tokens are.
fn answer(alloc: Global, tokens: &[Token], src: &[u8]) -> Result<Unit, ParseRefusal>
    requires { length src.now ≤ 1048576 }
    ensures { Answers tokens.now src.now result }
{
    match first_too_deep(alloc, tokens)? {
        None => whole(alloc, tokens, src),
        Some(at) => in_front(alloc, tokens, src, at),
    }
}

/// The unit that the tokens of a source are, or the place at which they stop being one (C11 6.5 to 6.9, in the
/// accepted subset).
pub fn parse(alloc: Global, tokens: &[Token], src: &[u8]) -> Result<Unit, ParseRefusal>
    requires lexed { Lexes src.now tokens.now }
    requires size { length src.now ≤ 1048576 }
    // A unit is that of the tokens, and a refusal is theirs.
    ensures answers { Answers tokens.now src.now result }
    // The unit of the tokens is found.
    ensures found { (unit : TheUnit) → IsUnitWithin tokens.now src.now unit → UnlessMemory result (Ok unit) }
    // Each refusal is told.
    ensures refused { (refusal : Refusal) → refusals.Refuses tokens.now src.now refusal → UnlessMemory result (Err refusal) }
{
    answer(alloc, tokens, src)
}
