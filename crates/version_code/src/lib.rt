//! What the generators of both versions stand on: where the places of a function move, and the
//! instructions of a version as they are gathered.
//!
//! Each takes its memory first, exactly as much as it needs.
#![tactic(auto)]

mod lines;
mod places;

pub use lines::Lines;
pub use places::{moved, moved_mid};
