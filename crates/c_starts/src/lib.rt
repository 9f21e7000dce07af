//! What an initializer of a static object gives (C11 6.6p9, 6.7.9p4).
#![tactic(auto)]

mod computing;
mod constant;
mod moving;
mod start;

pub use start::start_of;

#[cfg(test)]
mod tests;
