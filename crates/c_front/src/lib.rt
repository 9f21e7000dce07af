//! The front end (C11 5.1.1.2): from the bytes of one or two files to the typed program, or to the first refusal. Each
//! layer goes over the main file and then over the binary file before the next layer begins.
#![tactic(auto)]

mod front;
mod layer;

pub use front::check_files;
