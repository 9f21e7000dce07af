//! Tests of middle code: which programs are valid, and where another one first breaks a rule.
//!
//! They stand apart from the crate that they test, which is proved once in this way.
#![tactic(auto)]

#[cfg(test)]
mod tests;
