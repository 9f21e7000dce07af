//! The values that every layer of the compiler and of the runner speaks of: integer types and
//! operators, traps, events, and the words that the two threads exchange.
//!
//! The crate promises that arithmetic is that of C11 with this project's choices, and that words
//! and the numbers of 64 bits with a kind of 1 to 6 are the same thing. It stands on std alone, and
//! nothing here takes memory.
#![tactic(auto)]

mod args;
mod arithmetic;
mod budgets;
mod codes;
mod conversion;
mod event;
pub mod laws;
mod limits;
mod op;
mod part;
mod pointer;
mod request_kind;
mod side;
mod statics;
mod trap;
mod ty;
mod word;

pub use args::Args;
pub use arithmetic::arith;
pub use budgets::{Budget, Budgets};
pub use conversion::convert;
pub use event::Event;
pub use limits::Limits;
pub use op::Op;
pub use part::Part;
pub use pointer::{pointer_comparison, pointer_difference, pointer_sum};
pub use request_kind::RequestKind;
pub use side::Side;
pub use statics::Static;
pub use trap::{SourceEnd, Trap};
pub use ty::Ty;
pub use word::{Kind, Site, Word, pack};

#[cfg(test)]
mod tests;
