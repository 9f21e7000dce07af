//! The classes of a program's instructions: which the two threads both perform, and which the
//! leading thread performs alone. Each of the latter has a site, a number of 16 bits.
//!
//! [`classify`] gives exactly the classes that `mid_code` defines, and refuses a program exactly
//! where it has more sites than there are.
#![tactic(auto)]

mod classes;
mod instruction;
mod refusal;
#[cfg(test)]
mod tests;

pub use classes::classify;
pub use refusal::ClassRefusal;
