//! The nodes of the typed tree, made of their parts as checking makes them (C11 6.5): constants, places, values after
//! decay, conversions, and what a binary operator computes in a form that the rules on types allow.
#![tactic(auto)]

mod arithmetic;
mod assign;
mod binary;
pub mod constants;
mod convert;
mod literal;
mod made;
mod objects;
mod place;
mod ruled;
mod term;
mod typed;

pub use assign::{converted_by, null_of, promoted_value, repointed};
pub use binary::{binary_value, is_difference, result_type};
pub use convert::converted;
pub use literal::{byte_value, number_term, number_value, one_value};
pub use made::{make, or_memory, result_of, value_of};
pub use objects::{linked_term, local_term, object, pointed_term, text_object};
pub use ruled::{converted_to, operand_of, tested};
pub use term::{address, called, target_of, unvalued, valued, written};
pub use typed::{Change, Designated, Predeclared, Target, Term, Typed, Written};
