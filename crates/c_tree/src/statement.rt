use crate::declaration::Declaration;
use crate::expression::Expr;
use sqlite_items::{Boxed, Items};

/// A statement (C11 6.8).
#[cycle(statement)]
#[derive(Drop)]
pub struct Stmt {
    /// The line of its first token: for one that begins with a word the line of this word.
    pub line: u32,
    pub node: StmtNode,
}

/// What a statement is.
#[cycle(statement)]
#[derive(Drop)]
pub enum StmtNode {
    Block(Boxed<Block>),
    /// A `;` alone (C11 6.8.3).
    Empty,
    Expr(Expr),
    /// The condition, the first branch, and the branch behind `else` (C11 6.8.4.1).
    If(Expr, Boxed<Stmt>, Option<Boxed<Stmt>>),
    /// The condition and the body (C11 6.8.5.1).
    While(Expr, Boxed<Stmt>),
    /// The body and the condition (C11 6.8.5.2).
    Do(Boxed<Stmt>, Expr),
    /// What stands in the parentheses, and the body (C11 6.8.5.3).
    For(ForHead, Boxed<Stmt>),
    Continue,
    Break,
    Return(Option<Expr>),
}

/// What stands in the parentheses of a `for` statement (C11 6.8.5.3).
#[derive(Drop)]
pub struct ForHead {
    /// What is done first.
    pub start: ForStart,
    /// What is tested before each turn, if anything is.
    pub condition: Option<Boxed<Expr>>,
    /// What is done after each turn, if anything is.
    pub step: Option<Boxed<Expr>>,
}

/// What a `for` statement does first.
#[derive(Drop)]
pub enum ForStart {
    Declaration(Boxed<Declaration>),
    Expr(Option<Boxed<Expr>>),
}

/// A compound statement (C11 6.8.2).
#[cycle(statement)]
#[derive(Drop)]
pub struct Block {
    /// The line of the `{`.
    pub line: u32,
    pub items: Items<BlockItem>,
    /// The line of the `}`.
    pub end: u32,
}

/// A part of a compound statement.
#[cycle(statement)]
#[derive(Drop)]
pub enum BlockItem {
    Declaration(Declaration),
    Statement(Stmt),
}
