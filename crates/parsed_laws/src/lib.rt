//! What holds of every typed program that the bytes of one or two files spell: the grammar gives each list in braces an
//! item (C11 6.7.9p1), and so every such program has types of the language throughout; its constants have 32 bits, and so
//! every such program can run, on numbers of 44 bits throughout; its functions have no more tokens than the files have bytes,
//! and so its runs have few events.
#![tactic(auto)]

mod laws;

pub use laws::{
    parsed_programs_can_run, parsed_programs_give_values, parsed_programs_have_few_events,
    parsed_programs_have_types, parsed_units_are_short, parsed_units_have_items,
    parsed_units_have_numbers,
};
