//! Expressions, declarators and names of types at the front of a source's tokens (C11 6.5, 6.7.1 to 6.7.7, in the
//! accepted subset), with the reading of tokens that they and the lines of the grammar above them stand on.
//!
//! Each reader gives the tree that the front of the tokens spells and the tokens behind it, or the first token
//! that does not belong there. The crate stands on `c_lexer` for tokens and on `c_tree` for trees.
#![tactic(auto)]

pub mod codes;
mod declarator;
mod expression;
mod fault;
mod grammar;
mod hub;
mod law;
mod leaf;
mod list;
mod start;
pub mod tokens;

pub use declarator::{first_line, specifiers};
pub use fault::{Fault, Read};
pub use hub::{declarator_at, expr_at};
pub use law::{one_expression, spellings};
pub use list::with_item;
pub use start::{Naming, Start};
