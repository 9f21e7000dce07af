//! What some tokens begin with.

ghost use Rattle.std.specs.Prelude.{◌≡◌, ◌≤◌, length, IfOk, Ok};
ghost use Rattle.c_expr.specs.Codes as codes;
ghost use Rattle.c_expr.specs.Reading as reading;
ghost use Rattle.c_expr.specs.Parts as parts;
ghost use Rattle.c_expr.specs.Spelling.{line_at};
ghost use Rattle.c_expr.specs.Outcome.{Gives, seen};

use crate::codes::{OPEN_PAREN, PARAMETER_STARTS, SPECIFIER_WORDS, code, is_among_binary};
use crate::fault::{Fault, Read};
use c_lexer::{Token, TokenKind};

/// Whether a kind is one of these.
pub fn one_of(kinds: &[u16], kind: u16) -> bool
    ensures { result ≡ codes.one_of kinds.now kind }
{
    let mut left = kinds;
    while let [first, others @ ..] = left {
        if kind == *first {
            return true;
        }
        left = others;
    }
    false
}

/// What a table says of a kind.
pub fn meaning<A: Copy>(table: &[(u16, A)], kind: u16) -> Option<A>
    ensures { result ≡ codes.meaning table.now kind }
{
    let mut left = table;
    while let [first, others @ ..] = left {
        if kind == first.0 {
            return Some(first.1);
        }
        left = others;
    }
    None
}

/// Whether the first token is of one of these kinds.
#[tactic(auto, unfolding(crate::specs::Reading::begins))]
pub fn begins(kinds: &[u16], tokens: &[Token]) -> bool
    ensures { result ≡ reading.begins kinds.now tokens.now }
{
    match tokens {
        [] => false,
        [first, ..] => one_of(kinds, code(first.kind)),
    }
}

/// Whether a table has the kind of the first token.
#[tactic(auto, using(crate::proofs::Tables::one_of_kinds), unfolding(crate::specs::Reading::begins))]
pub fn begins_in<A: Copy>(table: &[(u16, A)], tokens: &[Token]) -> bool
    ensures { result ≡ reading.begins (codes.kinds table.now) tokens.now }
{
    match tokens {
        [] => false,
        [first, ..] => meaning(table, code(first.kind)).is_some(),
    }
}

/// Whether an operator between two operands may be first.
pub fn may_go_on(tokens: &[Token]) -> bool
    ensures { result ≡ parts.may_go_on tokens.now }
{
    match tokens {
        [] => false,
        [first, ..] => is_among_binary(code(first.kind)),
    }
}

/// The tokens behind the first one.
fn behind(tokens: &[Token]) -> &[Token]
    ensures { result.now ≡ parts.behind tokens.now }
{
    match tokens {
        [] => &[],
        [_first, rest @ ..] => rest,
    }
}

/// Whether a `(` is first, and behind it the name of a type.
#[tactic(auto, unfolding(crate::specs::Reading::begins_type, crate::specs::Reading::then_begins, crate::specs::Reading::begins))]
pub fn begins_type(tokens: &[Token]) -> bool
    ensures { result ≡ reading.begins_type tokens.now }
{
    begins(&[OPEN_PAREN], tokens) && begins_in(&SPECIFIER_WORDS, behind(tokens))
}

/// Whether a `(` is first that encloses a declarator, and begins no list of parameters.
#[tactic(auto, unfolding(crate::specs::Reading::encloses, crate::specs::Reading::then_begins, crate::specs::Reading::begins))]
pub fn encloses(tokens: &[Token]) -> bool
    ensures { result ≡ reading.encloses tokens.now }
{
    begins(&[OPEN_PAREN], tokens) && !begins(&PARAMETER_STARTS, behind(tokens))
}

/// A token of this kind.
#[tactic(auto, unfolding(crate::specs::Reading::token))]
pub fn one(kind: u16, tokens: &[Token]) -> Read<'_, Token>
    ensures { Gives seen result (reading.one kind tokens.now) }
{
    match tokens {
        [] => Err(Fault::Refused(0)),
        [first, rest @ ..] => {
            if code(first.kind) == kind {
                Ok((*first, rest))
            } else {
                Err(Fault::Refused(tokens.len()))
            }
        }
    }
}

/// A text.
#[tactic(auto, unfolding(crate::specs::Reading::token))]
pub fn one_text(tokens: &[Token]) -> Read<'_, Token>
    ensures found { Gives seen result (reading.one codes.text tokens.now) }
    ensures text { IfOk result (λ found. found.0.kind ≡ TokenKind.Text) }
{
    match tokens {
        [] => Err(Fault::Refused(0)),
        [first, rest @ ..] => match first.kind {
            TokenKind::Text => Ok((*first, rest)),
            TokenKind::Name
            | TokenKind::Number(_, _)
            | TokenKind::Character(_)
            | TokenKind::Keyword(_)
            | TokenKind::Punct(_) => Err(Fault::Refused(tokens.len())),
        },
    }
}

/// The line of a token of a table, and what it means.
#[tactic(auto, unfolding(crate::specs::Reading::token))]
pub fn sign<'t, A: Copy>(table: &[(u16, A)], tokens: &'t [Token]) -> Read<'t, (u32, A)>
    ensures { Gives seen result (reading.sign table.now tokens.now) }
{
    match tokens {
        [] => Err(Fault::Refused(0)),
        [first, rest @ ..] => match meaning(table, code(first.kind)) {
            None => Err(Fault::Refused(tokens.len())),
            Some(a) => Ok(((first.line, a), rest)),
        },
    }
}

/// The line of the first token, or 0.
pub fn line_here(tokens: &[Token]) -> u32
    ensures { result ≡ line_at tokens.now }
{
    match tokens {
        [] => 0,
        [first, ..] => first.line,
    }
}
