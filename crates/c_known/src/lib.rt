//! What is known at a place of a program while its files are checked: its types, what each name means there (C11
//! 6.2.1), and what the program has so far.
//!
//! Each method of `Known` gives what one step of checking in order gives (typing_rules): the same result with the same
//! known after it, or the same refusal; want of memory may come instead. The table of types only grows, so that what
//! was made before stands still. Proofs of longer steps are put together by the laws in proofs/Binding.
#![tactic(auto)]

mod begin;
mod counts;
mod known;
mod lines;
mod local;
mod local_rows;
mod locals;
mod names;
mod refusals;
mod scopes;
mod terms;
mod texts;

pub use c_entities::{Defining, Definition, Entities, Entity, File, Linked, Storage};
pub use known::Known;
pub use lines::line_in;
pub use local::{Local, Meaning, Use};
pub use names::predeclared;
pub use refusals::{given, needs, ruled};
pub use terms::predeclared_type;
