//! That every typed program can run: whoever runs one relies on it.
#![tactic(auto)]

mod laws;

pub use laws::typed_programs_can_run;
