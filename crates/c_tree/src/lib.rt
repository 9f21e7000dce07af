//! The syntax tree of a source text (C11 6.5 to 6.9, in the accepted subset): plain data that the parser
//! makes, and that typing reads.
//!
//! There is a type for each line of the grammar, a variant for each of its cases and a field for each part.
//! A line that only passes on what another one gives makes no node of its own. Each node keeps the line of
//! its first token, and each name, operator and bracket that a later message or instruction may name keeps
//! its own. The crate promises nothing else; it stands on `srmt_base` for operators and the types of numbers.
#![tactic(auto)]

mod declaration;
mod expression;
mod name;
mod operator;
mod specifier;
mod statement;
mod unit;

pub use declaration::{Declaration, Initializer, Item};
pub use expression::{Declarator, Direct, Expr, ExprNode, Parameter, Suffix, TypeName};
pub use name::Name;
pub use operator::{BinaryOp, CompoundOp, PostfixOp, PrefixOp};
pub use specifier::{Pointer, Specifier, SpecifierWord};
pub use statement::{Block, BlockItem, ForHead, ForStart, Stmt, StmtNode};
pub use unit::{External, FunctionDefinition, Unit};
