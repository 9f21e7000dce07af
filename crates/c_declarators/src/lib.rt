//! What specifiers and declarators make of each other (C11 6.7.1 to 6.7.3, 6.7.6): the types that they give, or the
//! rule that they break.
#![tactic(auto)]

mod derivation;
mod empty;
mod length;
mod mark;
mod parameters;
mod specifier;
mod tree;
mod types;
mod words;

pub use derivation::{Derivation, Lines};
pub use empty::is_empty_list;
pub use length::length_of;
pub use parameters::{derived, own_parameters, parameter};
pub use specifier::{SpecifiedType, Storage, specified};
pub use tree::{first_if, first_of_declarator, lines_if, lines_of, name_if, name_of};
