//! Upsets, values that take the place of others in one side of a run, and the text by which a user names them.
#![tactic(auto)]

mod list;
mod reading;
mod upset;

pub use list::{ListRefusal, read_list};
pub use upset::{Target, Upset};

#[cfg(test)]
mod tests;
