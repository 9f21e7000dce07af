//! The scopes of a program's names (C11 6.2.1): what a name means now, and the way back at the end of a block.
#![tactic(auto)]

mod blocks;
mod scopes;

pub use blocks::Blocks;

#[cfg(test)]
mod tests;
