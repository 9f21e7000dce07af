//! What a program means (C11 5.1.2.2.3 and 6.5 to 6.9, in the accepted subset), as a definition: the events of a run on
//! one thread, and its end.
//!
//! The definition is `means`, and the page at the head of specs/Lib.antt says in what order to read it. It stands on the
//! typed tree and on the memory, the budgets and the input of the machine, which are the same here and there. Its laws
//! are the contracts of the functions below, which do nothing.
#![tactic(auto)]

mod laws;

pub use laws::{
    bound_is_no_limit, budgets_are_exact, events_are_few, quiet_expressions_only_compute,
    values_stay_small,
};
