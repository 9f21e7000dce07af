//! That the events of a typed function's body are no more than the tokens of its source: whoever
//! bounds the events of a run relies on it.
#![tactic(auto)]

mod laws;

pub use laws::typed_functions_are_short;
