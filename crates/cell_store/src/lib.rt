//! The memory of a program: objects of cells, by number.
//!
//! A [`Store`] keeps one row of cells and a table of the live objects in order of number. Its
//! contracts speak of a list of objects alone: each access answers what the list answers, and no
//! call but `start` takes memory. [`PlainStore`] keeps that list itself, slowly, under the same
//! contracts. The crate stands on srmt_base, which has the definition.
#![tactic(auto)]

mod plain;
mod steps;
mod store;
mod table;

pub use plain::PlainStore;
pub use steps::Steps;
pub use store::Store;

#[cfg(test)]
mod tests;
