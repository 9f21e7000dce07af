//! A queue of words between one sending and one receiving thread, with no lock and no waiting.
//!
//! Each end publishes its index once in a batch, and looks at the other end's index only where its
//! caller says so. The crate promises that what is received is a prefix of what was sent, in order,
//! and counts every look. It stands on `atomic_table`, whose steps keep the rule of `specs/Rule`,
//! and on the words of `srmt_base`. Only `new` takes memory.
#![tactic(auto)]

mod queue;
mod receiver;
mod rule;
mod sender;
#[cfg(test)]
mod tests;
mod view;

pub use queue::{new, rejoin};
pub use receiver::Receiver;
pub use sender::{Pushed, Sender};
pub use view::{SendView, TakeView};
