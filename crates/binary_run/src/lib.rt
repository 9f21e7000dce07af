//! The machine of the binary functions by themselves.
//!
//! [`BinaryRun`] runs the functions of the binary file for whoever runs those of the main file: it
//! enters a function, makes its steps by the meaning of `mid_code`, and answers where a function of
//! the main file is called, where the function that was entered returns, and where the run ends.
//! Its definition (specs/Binary) is a step of the meaning but at these crossings. It stands on
//! `frames`, which performs the instructions, and nothing after its start takes memory.
#![tactic(auto)]

mod binary;
mod laws;

pub use binary::{BinaryRun, BinaryStep};
pub use laws::runs_as_meant;

#[cfg(test)]
mod tests;
