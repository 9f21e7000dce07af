//! The evaluator of typed programs: their meaning on one thread, as a program.
//!
//! [`evaluate`] walks the typed tree. What is still to be done stands in a list of tasks, so that no expression, no
//! statement and no depth of calls needs the thread's stack. Each step leaves what the list means as it was, and the
//! meaning of the list at the start is that of the program.
#![tactic(auto)]

mod access;
mod calls;
mod fault;
mod finish;
mod jumps;
mod lifetimes;
mod locals;
mod operators;
mod plans;
mod run;
mod running;
mod setting;
mod stack;
mod statement_plans;
mod statics;
mod steps;
mod store;
mod task;
mod values;

pub use fault::MeaningFault;
pub use running::evaluate;
