//! How the two threads of a run have ended, and the verdict on both ends.
//!
//! The crate promises that a verdict is the first row of its table that fits both ends. It stands on
//! the words and the traps of `srmt_base`, and nothing here takes memory.
#![tactic(auto)]

mod judging;
#[cfg(test)]
mod tests;
mod thread_end;
mod verdict;

pub use judging::verdict_of;
pub use thread_end::ThreadEnd;
pub use verdict::{Ran, Report, Verdict};
