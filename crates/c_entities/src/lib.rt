//! The objects and functions with linkage of a program (C11 6.2.2), while its files are checked: what their
//! declarations have said of each so far, and which of them is meant by a name.
#![tactic(auto)]

mod change;
mod entities;
mod entity;
mod link;

pub use entities::Entities;
pub use entity::{Defining, Definition, Entity, File, Linked, Storage};
