//! What the protected program shares with the outside, and the run in which nothing is compared.
//!
//! The world changes by requests alone, and answers each. The crate defines the world, what an
//! instruction asks of it, and the ideal run: one machine that asks at once whatever it wants, with
//! the words that its exchanges spell. It stands on the middle code of `mid_code`, the words of
//! `word_stream` and the outlets of `srmt_outside`.
#![tactic(auto)]

mod laws;
mod world;

pub use laws::ideal_is_middle;
pub use world::World;
