//! The steps of each side of a pair, over any link to the other side.
//!
//! The crate gives the trait `Link`, whose clauses say what every link does, and `OneStep`, the
//! link in memory for one step; and the machine of one side with `lead_step` and `trail_step`, which
//! are exactly the steps that the definitions give, and `run_copied`, which makes all steps that ask
//! no link and stand next to one another. It stands on the versions of `mid_code`, the rows of
//! `frames`, the words of `word_stream`, the world, and the outlets of `srmt_outside`. Nothing after
//! `Machine::start` takes memory.
#![tactic(auto)]

mod copied;
mod heard;
mod leading;
mod link;
mod link_call;
mod machine;
mod one_step;
mod stepped;
mod steps;
#[cfg(test)]
mod tests;
mod trailing;

pub use copied::run_copied;
pub use leading::lead_step;
pub use link::Link;
pub use link_call::{LastCall, Taken};
pub use machine::Machine;
pub use one_step::OneStep;
pub use stepped::Stepped;
pub use trailing::trail_step;
pub use verdicts::ThreadEnd;
