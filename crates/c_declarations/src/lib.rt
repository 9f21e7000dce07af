//! Declarations and initializers, checked in order (C11 6.7, 6.7.9).
//!
//! An initializer's cells go into one vector, in order: `scalar` adds that of a scalar's value, `text` those of a text,
//! `items` those of a list, and `shape` refuses what has another shape than its type. `completed` has the type that an
//! initializer completes, and `initializer` puts both together.
#![tactic(auto)]

mod block;
mod completed;
mod function;
mod initializer;
mod items;
mod name;
mod none;
mod object;
mod scalar;
mod shape;
mod text;

pub use block::declared_in_block;
pub use initializer::{Initialized, cells_given};
pub use none::no_initial;
