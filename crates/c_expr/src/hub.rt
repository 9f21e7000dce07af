//! Expressions and declarators by depth.

ghost use Rattle.std.specs.Prelude.{◌≡◌};
ghost use Rattle.c_expr.specs.Reading as reading;
ghost use Rattle.c_expr.specs.Outcome.{Gives, seen};

use crate::fault::{Fault, Read};
use crate::grammar::Grammar;
use crate::start::{Naming, Start};
use c_lexer::Token;
use c_tree::{Declarator, Expr};
use sqlite_items::Boxed;
use std::alloc::Global;

/// An expression, which leads back to expressions and declarators so many times at most.
#[cycle(hub)]
#[tactic(auto, unfolding(crate::specs::Reading::expr_at, crate::specs::Reading::declarator_at))]
pub fn expr_at<'t>(
    alloc: Global,
    src: &[u8],
    depth: usize,
    start: Start,
    tokens: &'t [Token],
) -> Read<'t, Boxed<Expr>>
    ensures { Gives seen result (reading.expr_at src.now depth start tokens.now) }
{
    if depth == 0 {
        return Err(Fault::Refused(tokens.len()));
    }
    let below = depth - 1;
    let grammar = Grammar::new(
        alloc,
        src,
        below,
        |start, rest|
            ensures { Gives seen result (reading.expr_at src.entry.now below start rest.now) }
        { expr_at(alloc, src, below, start, rest) },
        |naming, rest|
            ensures { Gives seen result (reading.declarator_at src.entry.now below naming rest.now) }
        { declarator_at(alloc, src, below, naming, rest) },
    );
    grammar.expr_line(start, tokens)
}

/// A declarator, which leads back to expressions and declarators so many times at most.
#[cycle(hub)]
#[tactic(auto, unfolding(crate::specs::Reading::expr_at, crate::specs::Reading::declarator_at))]
pub fn declarator_at<'t>(
    alloc: Global,
    src: &[u8],
    depth: usize,
    naming: Naming,
    tokens: &'t [Token],
) -> Read<'t, Declarator>
    ensures { Gives seen result (reading.declarator_at src.now depth naming tokens.now) }
{
    if depth == 0 {
        return Err(Fault::Refused(tokens.len()));
    }
    let below = depth - 1;
    let grammar = Grammar::new(
        alloc,
        src,
        below,
        |start, rest|
            ensures { Gives seen result (reading.expr_at src.entry.now below start rest.now) }
        { expr_at(alloc, src, below, start, rest) },
        |naming, rest|
            ensures { Gives seen result (reading.declarator_at src.entry.now below naming rest.now) }
        { declarator_at(alloc, src, below, naming, rest) },
    );
    grammar.declarator_line(naming, tokens)
}
