//! The machine that runs a program of middle code on one thread.
//!
//! It gives exactly the events and the end that the program means, whatever the outlet is, or says
//! that the outlet failed. It stands on `mid_code`, whose meaning it is, on the live activations of
//! `frames`, and on the outlets of `srmt_outside`. Nothing after the start takes memory.
#![tactic(auto)]

mod execute;
mod run;

pub use run::MidRun;

#[cfg(test)]
mod tests;
