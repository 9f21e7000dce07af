//! Expressions, names of types and declarators, checked in order (C11 6.5, 6.7.6, 6.7.7).
//!
//! `term`, `value_of`, `type_named` and `derivations` give what the ordered function of the typing rules gives of the
//! same tree, or its first refusal; want of memory may come instead. What is known before becomes what is known after.
//! The recursion over the trees stands in `expression`; what a node makes of its checked operands in `nodes` and `steps`,
//! and what declarators need besides in `kinds`. It stands on the crates of values, of what is known, and of declarators.
#![tactic(auto)]

mod expression;
mod kinds;
mod nodes;
mod steps;

pub use expression::{derivations, term, type_named, value_of};
