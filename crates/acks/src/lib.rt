//! The two ends of the link between the leading and the trailing thread.
//!
//! An end sends into one queue and takes from the other: words go to the trailing side, and
//! acknowledgements come back. It looks at the other side only where it must, after it has
//! published and released all that is its own, so that it holds back nothing the other side needs.
//! It is a `Link` of the crate `machine` and stands on `batch_queue`. Only `ends` takes memory.
#![tactic(auto)]

mod link_ends;
mod side_done;
mod side_ends;
#[cfg(test)]
mod tests;

pub use link_ends::{LeadDone, LeadEnds, TrailDone, TrailEnds, ends, rejoin_ends};
pub use side_done::SideDone;
pub use side_ends::SideEnds;
