//! That every typed program has types of the language throughout (C11 6.2.5, within the subset and the limits).
#![tactic(auto)]

mod laws;

pub use laws::programs_have_types;
