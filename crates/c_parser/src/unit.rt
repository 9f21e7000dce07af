//! Statements by depth, and translation units (C11 6.9).

ghost use Rattle.std.specs.Prelude.{◌≡◌, [], length};
ghost use Rattle.c_parser.specs.ReadingUnits as units;
ghost use Rattle.c_expr.specs.Outcome.{Gives, seen};
ghost use Rattle.c_parser.specs.UnitParts as parts;
ghost use Rattle.c_parser.specs.UnitOutcome.{at_source, at_statement, statement_of};

use crate::source::Source;
use crate::statement::Statements;
use c_expr::codes::{OPEN_BRACE, SPECIFIER_WORDS};
use c_expr::tokens::{begins, begins_in};
use c_expr::{Fault, Naming, Read, declarator_at, first_line, specifiers};
use c_lexer::Token;
use c_tree::{Block, Declarator, External, FunctionDefinition, Specifier, Stmt, Unit};
use sqlite_items::{Boxed, Items};
use std::alloc::Global;

/// A statement, which leads back to statements so many times at most.
#[cycle(statement)]
#[tactic(auto, unfolding(crate::specs::ReadingUnits::statement_at))]
pub fn statement_at<'t>(source: Source<'_>, left: usize, tokens: &'t [Token]) -> Read<'t, Stmt>
    ensures { Gives seen result (statement_of source.entry.src.now source.entry.depth left tokens.now) }
{
    if left == 0 {
        return Err(Fault::Refused(tokens.len()));
    }
    let below = left - 1;
    let statements = Statements::new(
        source,
        below,
        |rest|
            ensures { Gives seen result (statement_of source.entry.src.now source.entry.depth below rest.now) }
        { statement_at(source, below, rest) },
    );
    statements.statement(tokens)
}

/// The body of a function.
fn body<'t>(source: Source<'_>, tokens: &'t [Token]) -> Read<'t, Block>
    ensures { Gives seen result (at_statement units.block source.entry.src.now source.entry.depth source.entry.depth tokens.now) }
{
    let statements = Statements::new(
        source,
        source.depth,
        |rest|
            ensures { Gives seen result (statement_of source.entry.src.now source.entry.depth source.entry.depth rest.now) }
        { statement_at(source, source.depth, rest) },
    );
    statements.block(tokens)
}

/// A function behind its specifiers and its declarator (C11 6.9.1).
#[tactic(auto, unfolding(crate::specs::ReadingUnits::function_body))]
fn function<'t>(
    source: Source<'_>,
    specifiers: Items<Specifier>,
    declarator: Declarator,
    tokens: &'t [Token],
) -> Read<'t, External>
    ensures { Gives seen result (at_source units.function_body source.entry.src.now source.entry.depth source.entry.depth specifiers declarator tokens.now) }
{
    let (body, rest) = body(source, tokens)?;
    let line = first_line(&specifiers);
    let definition = FunctionDefinition {
        line,
        specifiers,
        declarator,
        body,
    };
    let function = External::Function(Boxed::new(source.alloc, definition)?);
    Ok((function, rest))
}

/// Declarations behind their specifiers and their first declarator.
#[tactic(auto, unfolding(crate::specs::ReadingUnits::other_items))]
fn other<'t>(
    source: Source<'_>,
    specifiers: Items<Specifier>,
    declarator: Declarator,
    tokens: &'t [Token],
) -> Read<'t, External>
    ensures { Gives seen result (at_source units.other_items source.entry.src.now source.entry.depth source.entry.depth specifiers declarator tokens.now) }
{
    let (declaration, rest) = source.other_items(specifiers, declarator, tokens)?;
    let declaration = External::Declaration(Boxed::new(source.alloc, declaration)?);
    Ok((declaration, rest))
}

/// C11 6.9
#[tactic(auto, unfolding(crate::specs::ReadingUnits::external))]
fn external<'t>(source: Source<'_>, tokens: &'t [Token]) -> Read<'t, External>
    ensures { Gives seen result (at_source units.external source.entry.src.now source.entry.depth source.entry.depth tokens.now) }
{
    let (specifiers, rest) = specifiers(source.alloc, tokens)?;
    let (declarator, rest) = declarator_at(
        source.alloc,
        source.src,
        source.depth,
        Naming::Named,
        rest,
    )?;
    if begins(&[OPEN_BRACE], rest) {
        function(source, specifiers, declarator, rest)
    } else {
        other(source, specifiers, declarator, rest)
    }
}

/// The externals that the tokens begin with.
#[tactic(auto, unfolding(c_expr::specs::Reading::grown_from))]
fn externals<'t>(source: Source<'_>, tokens: &'t [Token]) -> Read<'t, Items<External>>
    ensures { Gives seen result (at_source parts.externals source.entry.src.now source.entry.depth source.entry.depth tokens.now) }
{
    let mut found = Items::new(source.alloc);
    let mut rest = tokens;
    for _turn in 0..tokens.len() {
        if !begins_in(&SPECIFIER_WORDS, rest) {
            break;
        }
        let (next, more) = external(source, rest)?;
        found.push(next)?;
        rest = more;
    }
    Ok((found, rest))
}

/// All of the tokens as a unit.
#[tactic(auto, unfolding(crate::specs::ReadingUnits::unit_of, crate::specs::ReadingUnits::unit))]
pub fn unit(alloc: Global, src: &[u8], tokens: &[Token]) -> Result<Unit, Fault>
    ensures { Gives (λ unit. (unit, [])) result (units.unit_of src.now tokens.now) }
{
    let source = Source {
        alloc,
        src,
        depth: tokens.len(),
    };
    let (externals, rest) = externals(source, tokens)?;
    match rest {
        [] => Ok(Unit { externals }),
        [..] => Err(Fault::Refused(rest.len())),
    }
}
