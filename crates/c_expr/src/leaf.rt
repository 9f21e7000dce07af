//! The bytes of names and texts.

ghost use Rattle.std.specs.Prelude.{◌≡◌, ◌≤◌, ◌-◌, IfOk, take, drop, length};
ghost use Rattle.c_expr.specs.Nodes as nodes;

use c_lexer::{Token, TokenKind, text};
use sqlite_items::Items;
use std::alloc::{AllocError, Global};

/// The part of a source where a token lies.
#[tactic(auto, using(crate::proofs::Leaves::part_is))]
fn part(src: &[u8], token: Token) -> &[u8]
    ensures value { result.now ≡ take (token.end - token.start) (drop token.start src.now) }
    ensures short { length result.now ≤ token.end }
{
    let behind = &src[(token.start as usize).min(src.len())..];
    let len = token.end.saturating_sub(token.start) as usize;
    &behind[..len.min(behind.len())]
}

/// The bytes of a token in its source.
#[tactic(auto, unfolding(crate::specs::Nodes::spelling))]
pub fn spelling(alloc: Global, src: &[u8], token: Token) -> Result<Items<u8>, AllocError>
    ensures { IfOk result (λ bytes. bytes ≡ nodes.spelling src.now token) }
{
    Items::from_slice(alloc, part(src, token))
}

/// The bytes of a text between its quotes, with the escapes read.
pub fn text_of(alloc: Global, src: &[u8], token: Token) -> Result<Items<u8>, AllocError>
    requires { token.kind ≡ TokenKind.Text }
    ensures { IfOk result (λ bytes. bytes ≡ nodes.text_of src.now token) }
{
    let part = part(src, token);
    let whole = Token {
        start: 0,
        end: part.len() as u32,
        ..token
    };
    match text(alloc, part, whole)? {
        None => Ok(Items::new(alloc)),
        Some(bytes) => Ok(Items::from_vec(bytes)),
    }
}
