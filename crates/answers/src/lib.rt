//! What a call of the program answers, with which status the process ends, and which lines are
//! written for it.
//!
//! The crate promises that each answer has its status and its lines, as its tables say, and that
//! the notes grow by exactly these lines, or by a first part of them where a note failed. It stands
//! on the two ends and verdicts of `verdicts`, on the sinks of `srmt_outside`, and on the kit's
//! `itoa` for numbers. Nothing here takes memory.
#![tactic(auto)]

mod about;
mod answer;
mod lines;
mod noting;
mod parts;
mod pen;
mod refusals;
#[cfg(test)]
mod tests;
mod texts;

pub use about::{HELP, VERSION};
pub use answer::{CompileRefusal, Finished, RunAnswer, Which};
pub use noting::finish;
