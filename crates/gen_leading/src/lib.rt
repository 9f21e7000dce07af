//! The versions of the functions of the main file that the leading thread runs.
//!
//! [`generate`] gives exactly the versions that `mid_code` defines. A first pass over a function's
//! code sums the sizes of its groups, which gives their places; a second one gathers them in a row
//! that is reserved exactly.
#![tactic(auto)]

mod exchange;
#[cfg(test)]
mod tests;
mod versions;

pub use versions::generate;
