//! The sources that are compiled until the whole subset of C is: `main` writes constants and returns
//! one.
//!
//! The crate promises that a source is read exactly where a grammar by cases has it, that its middle
//! code means what the source does, and that a program of the four instructions that the sides of a
//! pair have becomes a pair. It stands on the programs of `mid_code` and the values of `srmt_base`.
#![tactic(auto)]

mod compiling;
mod lowering;
mod pairing;
mod reading;
mod rest;
mod source;

pub use compiling::compile_first_form;
pub use lowering::lower_first_form;
pub use pairing::pair_of;
pub use reading::read_first_form;
pub use source::{Constant, FirstForm, FormRefusal, PutConstant};
