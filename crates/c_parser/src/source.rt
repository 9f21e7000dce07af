//! A source whose tokens are read, and its declarations (C11 6.7).

ghost use Rattle.std.specs.Prelude.{◌≡◌, ◌++◌, [], length};
ghost use Rattle.c_expr.specs.declared.start.Naming.TheVariants as naming;
ghost use Rattle.c_expr.specs.Reading as reading;
ghost use Rattle.c_parser.specs.ReadingUnits as units;
ghost use Rattle.c_parser.specs.UnitParts as parts;
ghost use Rattle.c_expr.specs.Outcome.{Gives, seen};
ghost use Rattle.c_parser.specs.UnitOutcome.{at_source};

use c_expr::codes::{
    CLOSE_BRACE, CLOSE_PAREN, COMMA, EQUALS, OPEN_BRACE, OPEN_PAREN, SEMICOLON, SPECIFIER_WORDS,
};
use c_expr::tokens::{begins, begins_in, one};
use c_expr::{Fault, Naming, Read, Start, declarator_at, expr_at, first_line, specifiers};
use c_lexer::Token;
use c_tree::{Declaration, Declarator, Expr, ForStart, Initializer, Item, Specifier};
use sqlite_items::{Boxed, Items};
use std::alloc::Global;

/// A source, and how often a line of the grammar may lead back to itself there.
#[derive(Clone, Copy)]
pub struct Source<'s> {
    pub alloc: Global,
    pub src: &'s [u8],
    pub depth: usize,
}

impl<'s> Source<'s> {
    /// An expression from a line of its grammar on.
    pub fn expr<'t>(&self, start: Start, tokens: &'t [Token]) -> Read<'t, Boxed<Expr>>
        ensures { Gives seen result (reading.expr_at self.now.src.now self.now.depth start tokens.now) }
    {
        expr_at(self.alloc, self.src, self.depth, start, tokens)
    }

    fn declarator<'t>(&self, tokens: &'t [Token]) -> Read<'t, Declarator>
        ensures { Gives seen result (reading.declarator_at self.now.src.now self.now.depth naming.Named tokens.now) }
    {
        declarator_at(self.alloc, self.src, self.depth, Naming::Named, tokens)
    }

    /// An initializer that is an expression.
    fn value<'t>(&self, tokens: &'t [Token]) -> Read<'t, Initializer>
        ensures { Gives seen result (at_source parts.value self.now.src.now self.now.depth tokens.now) }
    {
        let (value, rest) = self.expr(Start::Assignment, tokens)?;
        Ok((Initializer::Value(value), rest))
    }

    /// C11 6.7.9, with so many lists in lists at most.
    #[cycle(initializer)]
    #[tactic(auto, unfolding(crate::specs::ReadingUnits::initializer_at))]
    pub fn initializer<'t>(&self, left: usize, tokens: &'t [Token]) -> Read<'t, Initializer>
        ensures { Gives seen result (at_source units.initializer_at self.now.src.now self.now.depth left tokens.now) }
    {
        if left == 0 {
            return Err(Fault::Refused(tokens.len()));
        }
        if begins(&[OPEN_BRACE], tokens) {
            self.initializer_list(left - 1, tokens)
        } else {
            self.value(tokens)
        }
    }

    /// An initializer behind a comma.
    #[cycle(initializer)]
    fn next_initializer<'t>(&self, left: usize, tokens: &'t [Token]) -> Read<'t, Initializer>
        ensures { Gives seen result (reading.behind_comma (at_source units.initializer_at self.now.src.now self.now.depth left) tokens.now) }
    {
        let (_comma, rest) = one(COMMA, tokens)?;
        let (initializer, rest) = self.initializer(left, rest)?;
        Ok((initializer, rest))
    }

    /// At least one initializer.
    #[cycle(initializer)]
    #[tactic(auto, unfolding(c_expr::specs::Reading::grown_from))]
    fn initializers<'t>(&self, left: usize, tokens: &'t [Token]) -> Read<'t, Items<Initializer>>
        ensures { Gives seen result (reading.listed (at_source units.initializer_at self.now.src.now self.now.depth left) tokens.now) }
    {
        let mut found = Items::new(self.alloc);
        let (first, mut rest) = self.initializer(left, tokens)?;
        found.push(first)?;
        for _turn in 0..rest.len() {
            if !begins(&[COMMA], rest) {
                break;
            }
            let (next, more) = self.next_initializer(left, rest)?;
            found.push(next)?;
            rest = more;
        }
        Ok((found, rest))
    }

    /// `{`, initializers and `}`.
    #[cycle(initializer)]
    #[tactic(auto, unfolding(crate::specs::ReadingUnits::initializer_list))]
    fn initializer_list<'t>(&self, left: usize, tokens: &'t [Token]) -> Read<'t, Initializer>
        ensures { Gives seen result (at_source units.initializer_list self.now.src.now self.now.depth (at_source units.initializer_at self.now.src.now self.now.depth left) tokens.now) }
    {
        let (open, rest) = one(OPEN_BRACE, tokens)?;
        let (found, rest) = self.initializers(left, rest)?;
        let (_close, rest) = one(CLOSE_BRACE, rest)?;
        Ok((Initializer::List(open.line, found), rest))
    }

    /// Perhaps `=` and an initializer.
    #[tactic(auto, unfolding(crate::specs::ReadingUnits::given))]
    fn given<'t>(&self, tokens: &'t [Token]) -> Read<'t, Option<Initializer>>
        ensures { Gives seen result (at_source units.given self.now.src.now self.now.depth self.now.depth tokens.now) }
    {
        if !begins(&[EQUALS], tokens) {
            return Ok((None, tokens));
        }
        let (_equals, rest) = one(EQUALS, tokens)?;
        let (initializer, rest) = self.initializer(self.depth, rest)?;
        Ok((Some(initializer), rest))
    }

    #[tactic(auto, unfolding(crate::specs::ReadingUnits::item))]
    fn item<'t>(&self, tokens: &'t [Token]) -> Read<'t, Item>
        ensures { Gives seen result (at_source units.item self.now.src.now self.now.depth self.now.depth tokens.now) }
    {
        let (declarator, rest) = self.declarator(tokens)?;
        let (initializer, rest) = self.given(rest)?;
        Ok((
            Item {
                declarator,
                initializer,
            },
            rest,
        ))
    }

    /// An item behind a comma.
    fn next_item<'t>(&self, tokens: &'t [Token]) -> Read<'t, Item>
        ensures { Gives seen result (reading.behind_comma (at_source units.item self.now.src.now self.now.depth self.now.depth) tokens.now) }
    {
        let (_comma, rest) = one(COMMA, tokens)?;
        let (item, rest) = self.item(rest)?;
        Ok((item, rest))
    }

    /// The items behind those before, without the `;`.
    #[tactic(auto, unfolding(c_expr::specs::Reading::grown_from))]
    fn items_behind<'t>(&self, before: Items<Item>, tokens: &'t [Token]) -> Read<'t, Items<Item>>
        ensures { Gives seen result (at_source parts.items_behind self.now.src.now self.now.depth self.now.depth before tokens.now) }
    {
        let mut found = before;
        let mut rest = tokens;
        for _turn in 0..tokens.len() {
            if !begins(&[COMMA], rest) {
                break;
            }
            let (next, more) = self.next_item(rest)?;
            found.push(next)?;
            rest = more;
        }
        Ok((found, rest))
    }

    /// The items behind those before, and the `;`.
    #[tactic(auto, unfolding(crate::specs::ReadingUnits::further_items))]
    fn further_items<'t>(&self, before: Items<Item>, tokens: &'t [Token]) -> Read<'t, Items<Item>>
        ensures { Gives seen result (at_source units.further_items self.now.src.now self.now.depth self.now.depth before tokens.now) }
    {
        let (items, rest) = self.items_behind(before, tokens)?;
        let (_semicolon, rest) = one(SEMICOLON, rest)?;
        Ok((items, rest))
    }

    /// C11 6.7
    #[tactic(auto, unfolding(crate::specs::ReadingUnits::declaration))]
    pub fn declaration<'t>(&self, tokens: &'t [Token]) -> Read<'t, Declaration>
        ensures { Gives seen result (at_source units.declaration self.now.src.now self.now.depth self.now.depth tokens.now) }
    {
        let (specifiers, rest) = specifiers(self.alloc, tokens)?;
        let (first, rest) = self.item(rest)?;
        let items = Items::from_vec(Vec::from_array(self.alloc, [first])?);
        let (items, rest) = self.further_items(items, rest)?;
        let line = first_line(&specifiers);
        let declaration = Declaration {
            line,
            specifiers,
            items,
        };
        Ok((declaration, rest))
    }

    /// The rest of a declaration behind its specifiers and its first declarator.
    pub fn other_items<'t>(
        &self,
        specifiers: Items<Specifier>,
        declarator: Declarator,
        tokens: &'t [Token],
    ) -> Read<'t, Declaration>
        ensures { Gives seen result (at_source parts.other_items self.now.src.now self.now.depth self.now.depth specifiers declarator tokens.now) }
    {
        let (initializer, rest) = self.given(tokens)?;
        let first = Item {
            declarator,
            initializer,
        };
        let items = Items::from_vec(Vec::from_array(self.alloc, [first])?);
        let (items, rest) = self.further_items(items, rest)?;
        let line = first_line(&specifiers);
        let declaration = Declaration {
            line,
            specifiers,
            items,
        };
        Ok((declaration, rest))
    }

    /// An expression, or nothing before a token of this kind.
    pub fn optional<'t>(&self, end: u16, tokens: &'t [Token]) -> Read<'t, Option<Boxed<Expr>>>
        ensures { Gives seen result (at_source units.optional self.now.src.now self.now.depth self.now.depth end tokens.now) }
    {
        if begins(&[end], tokens) {
            return Ok((None, tokens));
        }
        let (expr, rest) = self.expr(Start::Expression, tokens)?;
        Ok((Some(expr), rest))
    }

    /// An expression in parentheses.
    #[tactic(auto, unfolding(crate::specs::ReadingUnits::condition))]
    pub fn condition<'t>(&self, tokens: &'t [Token]) -> Read<'t, Expr>
        ensures { Gives seen result (at_source units.condition self.now.src.now self.now.depth self.now.depth tokens.now) }
    {
        let (_open, rest) = one(OPEN_PAREN, tokens)?;
        let (expr, rest) = self.expr(Start::Expression, rest)?;
        let (_close, rest) = one(CLOSE_PAREN, rest)?;
        Ok((expr.into_inner(), rest))
    }

    /// What a `for` statement does first.
    #[tactic(auto, unfolding(crate::specs::ReadingUnits::for_start))]
    pub fn for_start<'t>(&self, tokens: &'t [Token]) -> Read<'t, ForStart>
        ensures { Gives seen result (at_source units.for_start self.now.src.now self.now.depth self.now.depth tokens.now) }
    {
        if begins_in(&SPECIFIER_WORDS, tokens) {
            let (declaration, rest) = self.declaration(tokens)?;
            let declaration = Boxed::new(self.alloc, declaration)?;
            return Ok((ForStart::Declaration(declaration), rest));
        }
        let (expr, rest) = self.optional(SEMICOLON, tokens)?;
        let (_semicolon, rest) = one(SEMICOLON, rest)?;
        Ok((ForStart::Expr(expr), rest))
    }
}
