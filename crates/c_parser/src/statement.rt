//! Statements (C11 6.8).

ghost use Rattle.std.specs.Prelude.{◌≡◌};
ghost use Rattle.c_expr.specs.Reading as reading;
ghost use Rattle.c_parser.specs.ReadingUnits as units;
ghost use Rattle.c_parser.specs.UnitParts as parts;
ghost use Rattle.c_parser.specs.ForParts as loop_parts;
ghost use Rattle.c_expr.specs.Outcome.{Gives, seen};
ghost use Rattle.c_parser.specs.UnitOutcome.{at_statement, statement_of, LeadsToStatement};

use crate::source::Source;
use c_expr::codes::{
    BREAK, CLOSE_BRACE, CLOSE_PAREN, CONTINUE, DO, ELSE, FOR, IF, OPEN_BRACE, OPEN_PAREN, RETURN,
    SEMICOLON, SPECIFIER_WORDS, WHILE, code,
};
use c_expr::tokens::{begins, begins_in, one};
use c_expr::{Fault, Read, Start};
use c_lexer::Token;
use c_tree::{Block, BlockItem, Expr, ForHead, ForStart, Stmt, StmtNode};
use sqlite_items::{Boxed, Items};

/// The lines of the grammar of statements, with the function that they lead back to.
#[derive(Drop)]
pub struct Statements<'s, S> {
    pub source: Source<'s>,
    /// How often the function may still lead back to itself.
    pub left: usize,
    pub stmt: S,
}

impl<'s, S> Statements<'s, S>
where
    S: Fn(&[Token]) -> Result<(Stmt, &[Token]), Fault>,
{
    pub fn new(source: Source<'s>, left: usize, stmt: S) -> Statements<'s, S>
        ensures src { result.source.src.now ≡ source.entry.src.now }
        ensures depth { result.source.depth ≡ source.entry.depth }
        ensures left { result.left ≡ left }
        ensures stmt { result.stmt ≡ stmt }
    {
        Statements { source, left, stmt }
    }

    /// A declaration or a statement of a block.
    #[tactic(auto, unfolding(crate::specs::ReadingUnits::block_item))]
    fn block_item<'t>(&self, tokens: &'t [Token]) -> Read<'t, BlockItem>
        requires { LeadsToStatement S.Fn self.now.stmt self.now.source.src.now self.now.source.depth self.now.left }
        ensures { Gives seen result (at_statement units.block_item self.now.source.src.now self.now.source.depth self.now.left tokens.now) }
    {
        if begins_in(&SPECIFIER_WORDS, tokens) {
            let (declaration, rest) = self.source.declaration(tokens)?;
            return Ok((BlockItem::Declaration(declaration), rest));
        }
        let (stmt, rest) = (self.stmt)(tokens)?;
        Ok((BlockItem::Statement(stmt), rest))
    }

    /// What stands between the braces of a block.
    #[tactic(auto, unfolding(crate::specs::ReadingUnits::block_items, c_expr::specs::Reading::grown_from))]
    fn block_items<'t>(&self, tokens: &'t [Token]) -> Read<'t, Items<BlockItem>>
        requires { LeadsToStatement S.Fn self.now.stmt self.now.source.src.now self.now.source.depth self.now.left }
        ensures { Gives seen result (at_statement units.block_items self.now.source.src.now self.now.source.depth self.now.left tokens.now) }
    {
        let mut found = Items::new(self.source.alloc);
        let mut rest = tokens;
        for _turn in 0..tokens.len() {
            if !until(CLOSE_BRACE, rest) {
                break;
            }
            let (next, more) = self.block_item(rest)?;
            found.push(next)?;
            rest = more;
        }
        Ok((found, rest))
    }

    /// C11 6.8.2
    #[tactic(auto, unfolding(crate::specs::ReadingUnits::block, crate::specs::StatementNodes::block_node))]
    pub fn block<'t>(&self, tokens: &'t [Token]) -> Read<'t, Block>
        requires { LeadsToStatement S.Fn self.now.stmt self.now.source.src.now self.now.source.depth self.now.left }
        ensures { Gives seen result (at_statement units.block self.now.source.src.now self.now.source.depth self.now.left tokens.now) }
    {
        let (open, rest) = one(OPEN_BRACE, tokens)?;
        let (items, rest) = self.block_items(rest)?;
        let (close, rest) = one(CLOSE_BRACE, rest)?;
        let block = Block {
            line: open.line,
            items,
            end: close.line,
        };
        Ok((block, rest))
    }

    /// A block as a statement.
    #[tactic(auto, unfolding(crate::specs::StatementNodes::stmt_at))]
    fn block_statement<'t>(&self, tokens: &'t [Token]) -> Read<'t, Stmt>
        requires { LeadsToStatement S.Fn self.now.stmt self.now.source.src.now self.now.source.depth self.now.left }
        ensures { Gives seen result (at_statement parts.block_statement self.now.source.src.now self.now.source.depth self.now.left tokens.now) }
    {
        let (block, rest) = self.block(tokens)?;
        let line = block.line;
        let node = StmtNode::Block(Boxed::new(self.source.alloc, block)?);
        Ok((Stmt { line, node }, rest))
    }

    /// An expression and `;` (C11 6.8.3).
    #[tactic(auto, unfolding(crate::specs::ReadingUnits::expr_statement, crate::specs::StatementNodes::stmt_at))]
    fn expr_statement<'t>(&self, tokens: &'t [Token]) -> Read<'t, Stmt>
        requires { LeadsToStatement S.Fn self.now.stmt self.now.source.src.now self.now.source.depth self.now.left }
        ensures { Gives seen result (at_statement units.expr_statement self.now.source.src.now self.now.source.depth self.now.left tokens.now) }
    {
        let (expr, rest) = self.source.expr(Start::Expression, tokens)?;
        let (_semicolon, rest) = one(SEMICOLON, rest)?;
        let expr = expr.into_inner();
        let line = expr.line;
        let node = StmtNode::Expr(expr);
        Ok((Stmt { line, node }, rest))
    }

    /// A statement within a statement.
    fn inner<'t>(&self, tokens: &'t [Token]) -> Read<'t, Boxed<Stmt>>
        requires { LeadsToStatement S.Fn self.now.stmt self.now.source.src.now self.now.source.depth self.now.left }
        ensures { Gives seen result (statement_of self.now.source.src.now self.now.source.depth self.now.left tokens.now) }
    {
        let (stmt, rest) = (self.stmt)(tokens)?;
        Ok((Boxed::new(self.source.alloc, stmt)?, rest))
    }

    /// Perhaps `else` and a statement.
    fn second_branch<'t>(&self, tokens: &'t [Token]) -> Read<'t, Option<Boxed<Stmt>>>
        requires { LeadsToStatement S.Fn self.now.stmt self.now.source.src.now self.now.source.depth self.now.left }
        ensures { Gives seen result (at_statement parts.second_branch self.now.source.src.now self.now.source.depth self.now.left tokens.now) }
    {
        if !begins(&[ELSE], tokens) {
            return Ok((None, tokens));
        }
        let (_word, rest) = one(ELSE, tokens)?;
        let (stmt, rest) = self.inner(rest)?;
        Ok((Some(stmt), rest))
    }

    /// What follows the first branch of an `if` statement, with what stands before.
    #[tactic(auto, unfolding(crate::specs::StatementNodes::stmt_at))]
    fn if_second<'t>(
        &self,
        line: u32,
        condition: Expr,
        first: Boxed<Stmt>,
        tokens: &'t [Token],
    ) -> Read<'t, Stmt>
        requires { LeadsToStatement S.Fn self.now.stmt self.now.source.src.now self.now.source.depth self.now.left }
        ensures { Gives seen result (at_statement loop_parts.if_second self.now.source.src.now self.now.source.depth self.now.left line condition first tokens.now) }
    {
        let (second, rest) = self.second_branch(tokens)?;
        let stmt = Stmt {
            line,
            node: StmtNode::If(condition, first, second),
        };
        Ok((stmt, rest))
    }

    /// C11 6.8.4.1
    #[tactic(auto, unfolding(crate::specs::ReadingUnits::if_statement))]
    fn if_statement<'t>(&self, tokens: &'t [Token]) -> Read<'t, Stmt>
        requires { LeadsToStatement S.Fn self.now.stmt self.now.source.src.now self.now.source.depth self.now.left }
        ensures { Gives seen result (at_statement units.if_statement self.now.source.src.now self.now.source.depth self.now.left tokens.now) }
    {
        let (word, rest) = one(IF, tokens)?;
        let (condition, rest) = self.source.condition(rest)?;
        let (first, rest) = self.inner(rest)?;
        let (stmt, rest) = self.if_second(word.line, condition, first, rest)?;
        Ok((stmt, rest))
    }

    /// C11 6.8.5.1
    #[tactic(auto, unfolding(crate::specs::ReadingUnits::while_statement, crate::specs::StatementNodes::stmt_at))]
    fn while_statement<'t>(&self, tokens: &'t [Token]) -> Read<'t, Stmt>
        requires { LeadsToStatement S.Fn self.now.stmt self.now.source.src.now self.now.source.depth self.now.left }
        ensures { Gives seen result (at_statement units.while_statement self.now.source.src.now self.now.source.depth self.now.left tokens.now) }
    {
        let (word, rest) = one(WHILE, tokens)?;
        let (condition, rest) = self.source.condition(rest)?;
        let (body, rest) = self.inner(rest)?;
        let stmt = Stmt {
            line: word.line,
            node: StmtNode::While(condition, body),
        };
        Ok((stmt, rest))
    }

    /// C11 6.8.5.2
    #[tactic(auto, unfolding(crate::specs::ReadingUnits::do_statement, crate::specs::StatementNodes::stmt_at))]
    fn do_statement<'t>(&self, tokens: &'t [Token]) -> Read<'t, Stmt>
        requires { LeadsToStatement S.Fn self.now.stmt self.now.source.src.now self.now.source.depth self.now.left }
        ensures { Gives seen result (at_statement units.do_statement self.now.source.src.now self.now.source.depth self.now.left tokens.now) }
    {
        let (word, rest) = one(DO, tokens)?;
        let (body, rest) = self.inner(rest)?;
        let (_while, rest) = one(WHILE, rest)?;
        let (condition, rest) = self.source.condition(rest)?;
        let (_semicolon, rest) = one(SEMICOLON, rest)?;
        let stmt = Stmt {
            line: word.line,
            node: StmtNode::Do(body, condition),
        };
        Ok((stmt, rest))
    }

    /// The body of a `for` statement, with what stands before.
    #[tactic(auto, unfolding(crate::specs::StatementNodes::stmt_at))]
    fn for_body<'t>(&self, line: u32, head: ForHead, tokens: &'t [Token]) -> Read<'t, Stmt>
        requires { LeadsToStatement S.Fn self.now.stmt self.now.source.src.now self.now.source.depth self.now.left }
        ensures { Gives seen result (at_statement loop_parts.for_body self.now.source.src.now self.now.source.depth self.now.left line head tokens.now) }
    {
        let (body, rest) = self.inner(tokens)?;
        let stmt = Stmt {
            line,
            node: StmtNode::For(head, body),
        };
        Ok((stmt, rest))
    }

    /// The step of a `for` statement, the `)` and the body, with what stands before.
    fn for_step<'t>(
        &self,
        line: u32,
        start: ForStart,
        condition: Option<Boxed<Expr>>,
        tokens: &'t [Token],
    ) -> Read<'t, Stmt>
        requires { LeadsToStatement S.Fn self.now.stmt self.now.source.src.now self.now.source.depth self.now.left }
        ensures { Gives seen result (at_statement loop_parts.for_step self.now.source.src.now self.now.source.depth self.now.left line start condition tokens.now) }
    {
        let (step, rest) = self.source.optional(CLOSE_PAREN, tokens)?;
        let (_close, rest) = one(CLOSE_PAREN, rest)?;
        let head = ForHead {
            start,
            condition,
            step,
        };
        let (stmt, rest) = self.for_body(line, head, rest)?;
        Ok((stmt, rest))
    }

    /// The condition of a `for` statement and all that follows, with what stands before.
    fn for_condition<'t>(&self, line: u32, start: ForStart, tokens: &'t [Token]) -> Read<'t, Stmt>
        requires { LeadsToStatement S.Fn self.now.stmt self.now.source.src.now self.now.source.depth self.now.left }
        ensures { Gives seen result (at_statement loop_parts.for_condition self.now.source.src.now self.now.source.depth self.now.left line start tokens.now) }
    {
        let (condition, rest) = self.source.optional(SEMICOLON, tokens)?;
        let (_semicolon, rest) = one(SEMICOLON, rest)?;
        let (stmt, rest) = self.for_step(line, start, condition, rest)?;
        Ok((stmt, rest))
    }

    /// C11 6.8.5.3
    #[tactic(auto, unfolding(crate::specs::ReadingUnits::for_statement))]
    fn for_statement<'t>(&self, tokens: &'t [Token]) -> Read<'t, Stmt>
        requires { LeadsToStatement S.Fn self.now.stmt self.now.source.src.now self.now.source.depth self.now.left }
        ensures { Gives seen result (at_statement units.for_statement self.now.source.src.now self.now.source.depth self.now.left tokens.now) }
    {
        let (word, rest) = one(FOR, tokens)?;
        let (_open, rest) = one(OPEN_PAREN, rest)?;
        let (start, rest) = self.source.for_start(rest)?;
        let (stmt, rest) = self.for_condition(word.line, start, rest)?;
        Ok((stmt, rest))
    }

    /// C11 6.8.6.4
    #[tactic(auto, unfolding(crate::specs::ReadingUnits::return_statement, crate::specs::StatementNodes::stmt_at))]
    fn return_statement<'t>(&self, tokens: &'t [Token]) -> Read<'t, Stmt>
        requires { LeadsToStatement S.Fn self.now.stmt self.now.source.src.now self.now.source.depth self.now.left }
        ensures { Gives seen result (at_statement units.return_statement self.now.source.src.now self.now.source.depth self.now.left tokens.now) }
    {
        let (word, rest) = one(RETURN, tokens)?;
        let (value, rest) = self.source.optional(SEMICOLON, rest)?;
        let (_semicolon, rest) = one(SEMICOLON, rest)?;
        let stmt = Stmt {
            line: word.line,
            node: StmtNode::Return(unboxed(value)),
        };
        Ok((stmt, rest))
    }

    /// C11 6.8.6.3
    #[tactic(auto, unfolding(crate::specs::ReadingUnits::break_statement, crate::specs::StatementNodes::stmt_at))]
    fn break_statement<'t>(&self, tokens: &'t [Token]) -> Read<'t, Stmt>
        ensures { Gives seen result (at_statement units.break_statement self.now.source.src.now self.now.source.depth self.now.left tokens.now) }
    {
        let (word, rest) = one(BREAK, tokens)?;
        let (_semicolon, rest) = one(SEMICOLON, rest)?;
        let stmt = Stmt {
            line: word.line,
            node: StmtNode::Break,
        };
        Ok((stmt, rest))
    }

    /// C11 6.8.6.2
    #[tactic(auto, unfolding(crate::specs::ReadingUnits::continue_statement, crate::specs::StatementNodes::stmt_at))]
    fn continue_statement<'t>(&self, tokens: &'t [Token]) -> Read<'t, Stmt>
        ensures { Gives seen result (at_statement units.continue_statement self.now.source.src.now self.now.source.depth self.now.left tokens.now) }
    {
        let (word, rest) = one(CONTINUE, tokens)?;
        let (_semicolon, rest) = one(SEMICOLON, rest)?;
        let stmt = Stmt {
            line: word.line,
            node: StmtNode::Continue,
        };
        Ok((stmt, rest))
    }

    /// A jump statement (C11 6.8.6), or an expression and `;`.
    fn jump_line<'t>(&self, tokens: &'t [Token]) -> Read<'t, Stmt>
        requires { LeadsToStatement S.Fn self.now.stmt self.now.source.src.now self.now.source.depth self.now.left }
        ensures { Gives seen result (at_statement loop_parts.jump_line self.now.source.src.now self.now.source.depth self.now.left tokens.now) }
    {
        if begins(&[RETURN], tokens) {
            self.return_statement(tokens)
        } else if begins(&[BREAK], tokens) {
            self.break_statement(tokens)
        } else if begins(&[CONTINUE], tokens) {
            self.continue_statement(tokens)
        } else {
            self.expr_statement(tokens)
        }
    }

    /// An iteration statement (C11 6.8.5), or a line of `jump_line`.
    fn iteration_line<'t>(&self, tokens: &'t [Token]) -> Read<'t, Stmt>
        requires { LeadsToStatement S.Fn self.now.stmt self.now.source.src.now self.now.source.depth self.now.left }
        ensures { Gives seen result (at_statement loop_parts.iteration_line self.now.source.src.now self.now.source.depth self.now.left tokens.now) }
    {
        if begins(&[WHILE], tokens) {
            self.while_statement(tokens)
        } else if begins(&[DO], tokens) {
            self.do_statement(tokens)
        } else if begins(&[FOR], tokens) {
            self.for_statement(tokens)
        } else {
            self.jump_line(tokens)
        }
    }

    /// C11 6.8
    #[tactic(auto, unfolding(crate::specs::ReadingUnits::stmt_line))]
    pub fn statement<'t>(&self, tokens: &'t [Token]) -> Read<'t, Stmt>
        requires { LeadsToStatement S.Fn self.now.stmt self.now.source.src.now self.now.source.depth self.now.left }
        ensures { Gives seen result (at_statement units.stmt_line self.now.source.src.now self.now.source.depth self.now.left tokens.now) }
    {
        if begins(&[OPEN_BRACE], tokens) {
            self.block_statement(tokens)
        } else if begins(&[SEMICOLON], tokens) {
            empty_statement(tokens)
        } else if begins(&[IF], tokens) {
            self.if_statement(tokens)
        } else {
            self.iteration_line(tokens)
        }
    }
}

/// An expression without its box, if there is one.
fn unboxed(expr: Option<Boxed<Expr>>) -> Option<Expr>
    ensures { result ≡ expr }
{
    match expr {
        None => None,
        Some(expr) => Some(expr.into_inner()),
    }
}

/// Whether there is a token, and not one of this kind.
#[tactic(auto, unfolding(c_expr::specs::Reading::until))]
pub fn until(end: u16, tokens: &[Token]) -> bool
    ensures { result ≡ reading.until end tokens.now }
{
    match tokens {
        [] => false,
        [first, ..] => code(first.kind) != end,
    }
}

/// A `;` alone (C11 6.8.3).
#[tactic(auto, unfolding(crate::specs::StatementNodes::stmt_at))]
fn empty_statement(tokens: &[Token]) -> Read<'_, Stmt>
    ensures { Gives seen result (parts.empty_statement tokens.now) }
{
    let (semicolon, rest) = one(SEMICOLON, tokens)?;
    let stmt = Stmt {
        line: semicolon.line,
        node: StmtNode::Empty,
    };
    Ok((stmt, rest))
}
