//! Middle code: the instructions of a register machine into which a program is lowered, the
//! programs made of them, and what such a program means.
//!
//! The crate holds plain data and the definitions that every layer above cites: which programs
//! are valid, what one instruction does, and which events and which end a run has. It stands on
//! the values of `srmt_base`.
#![tactic(auto)]

mod access;
mod class;
mod code_laws;
mod field;
mod flow;
mod laws;
mod limits;
mod mid;
mod pair;
mod program;
mod refusal;
mod registers;
mod rules;
mod validity;
mod version;
mod way;

pub use access::Access;
pub use class::{Class, Shared, everything_shared};
pub use code_laws::{
    everything_can_be_shared, sites_are_apart, valid_is_well_formed, versions_have_groups,
    wrappers_have_sites,
};
pub use field::{Field, Wanted, fields};
pub use laws::{
    budgets_are_exact, is_bounded, is_determined, is_never_stuck, keeping_is_decided,
    main_is_entered, steps_near_the_end, values_stay_small,
};
pub use mid::Mid;
pub use pair::{Classed, Pair};
pub use program::{FunType, MidFunction, MidLine, MidProgram, RegisterKind};
pub use refusal::MidRefusal;
pub use registers::Registers;
pub use srmt_base::Static;
pub use validity::valid;
pub use version::{Operands, Version, VersionLine, VersionOp};
pub use way::{Way, way_of};
