//! What a program has once its files are checked (C11 6.9): the static objects and texts of a file, `main`, and what each
//! entity is in the end.
#![tactic(auto)]

mod entry;
mod numbering;
mod static_objects;
mod text_objects;
mod uses;

pub use entry::main_entity;
pub use numbering::numbers;
pub use static_objects::statics;
pub use text_objects::texts;
pub use uses::resolve;
