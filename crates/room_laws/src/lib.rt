//! That the objects of a typed program that live from its start have room in each part: whoever runs one relies on it.
#![tactic(auto)]

mod laws;

pub use laws::typed_programs_have_room;
