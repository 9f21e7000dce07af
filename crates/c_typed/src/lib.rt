//! The typed tree of a program: plain data that typing makes, and that the meaning of the source, its evaluator and
//! its lowering read.
//!
//! There is a variant for each construct of the meaning of the source. Every conversion is a node of its own, and each
//! node has its type and the lines that an instruction made for it may name.
#![tactic(auto)]

mod constant;
mod program;
mod statement;
mod value;

pub use constant::Constant;
pub use program::{
    Function, LocalRow, Numbered, Start, StartCell, Static, TextObject, TypedFile, TypedProgram,
};
pub use statement::{
    Block, BlockItem, Cell, ForHead, ForStart, Initializer, LocalItem, Stmt, StmtNode,
};
pub use value::{IntegerChange, Place, PlaceNode, PointerChange, Value, ValueNode};
