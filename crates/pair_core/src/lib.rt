//! Both sides of a pair together, one event at a time.
//!
//! The crate says what a run of the two sides is, whatever the order of their steps: what each has
//! taken is a prefix of what the other has sent. It gives the verdict on the two ends, and the law
//! that holds over every order. It stands on the steps of `machine`.
#![tactic(auto)]

mod duo;
mod in_turn;
mod laws;
mod way;

pub use duo::Duo;
pub use in_turn::alternate;
pub use laws::over_every_schedule;
pub use verdicts::{Ran, Report, Verdict, verdict_of};
