use crate::value::Value;
use sqlite_items::{Boxed, Items};

/// A cell of an array with the value that it is given.
#[derive(Drop)]
pub struct Cell {
    pub index: u32,
    pub value: Value,
}

/// What a local is initialized with (C11 6.7.9).
#[derive(Drop)]
pub enum Initializer {
    Scalar(Value),
    /// The given cells of an array, in order.
    Cells(Items<Cell>),
}

/// A local that a declaration declares, by its number in the function's table.
#[derive(Drop)]
pub struct LocalItem {
    pub number: u32,
    pub initializer: Option<Initializer>,
}

/// What a `for` does first (C11 6.8.5.3).
#[derive(Drop)]
pub enum ForStart {
    Value(Option<Boxed<Value>>),
    /// Locals that live as long as the loop.
    Locals(Items<LocalItem>),
}

/// What stands in the parentheses of a `for`.
#[derive(Drop)]
pub struct ForHead {
    pub start: ForStart,
    pub test: Option<Boxed<Value>>,
    pub step: Option<Boxed<Value>>,
}

/// A statement (C11 6.8), with the line of its first token.
#[cycle(statement)]
#[derive(Drop)]
pub struct Stmt {
    pub line: u32,
    pub node: StmtNode,
}

/// What a statement is.
#[cycle(statement)]
#[derive(Drop)]
pub enum StmtNode {
    Block(Boxed<Block>),
    Empty,
    Value(Value),
    /// The test, the first branch, and the branch behind `else`.
    If(Value, Boxed<Stmt>, Option<Boxed<Stmt>>),
    While(Value, Boxed<Stmt>),
    Do(Boxed<Stmt>, Value),
    For(ForHead, Boxed<Stmt>),
    Continue,
    Break,
    /// A value of the function's result type.
    Return(Option<Value>),
}

/// A block (C11 6.8.2): its locals are those that its declarations declare.
#[cycle(statement)]
#[derive(Drop)]
pub struct Block {
    /// The line of the `{`.
    pub line: u32,
    pub items: Items<BlockItem>,
    /// The line of the `}`.
    pub end: u32,
}

/// A part of a block.
#[cycle(statement)]
#[derive(Drop)]
pub enum BlockItem {
    Declaration(Items<LocalItem>),
    Statement(Stmt),
}
