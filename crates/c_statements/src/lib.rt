//! Statements, checked in order (C11 6.8): the body of a function whose result type is known.
#![tactic(auto)]

mod expression;
mod jump;
mod memory;
mod start;
mod statement;
mod within;

pub use statement::items;
