//! The operators of the typed tree, checked as the rules on types say (C11 6.5): what an operator, an assignment, a cast
//! or a call makes of operands whose types are known, or the rule that they break.
#![tactic(auto)]

mod arguments;
mod assignment;
mod call;
mod cast;
mod change;
mod choice;
mod element;
mod logic;
mod operator;
mod sequence;
mod unary;

pub use assignment::{assigned, changed};
pub use call::{arguments_for, call_of_entity, call_of_predeclared, call_through, callee_type};
pub use cast::{cast_to, sized};
pub use logic::{chosen, conjoined, disjoined};
pub use operator::{computed, indexed};
pub use sequence::sequence_of;
pub use unary::{complemented, indirect, negative, opposite, promoted};
