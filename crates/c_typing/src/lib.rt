//! The checker of types: the typed program of the trees of one or two files, or the first refusal (C11 6.7, 6.9).
#![tactic(auto)]

mod at_file;
mod begin;
mod contents;
mod declaration;
mod file;
mod function;
mod item;
mod program;

pub use program::check;
