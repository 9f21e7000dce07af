//! The live activations of a program of middle code, and what its instructions do to them.
//!
//! [`Frames`] keeps the registers and the open objects of all activations in rows; [`perform`] does
//! what an instruction means to the newest of them; [`Running`] adds memory and the input, and
//! [`reach`] does there what an instruction wants of them. The contracts speak of the machine and of
//! the meaning of `mid_code` alone. Nothing after the start takes memory. Whoever runs a program
//! stands on this: the machine on one thread, that of the binary functions, and both sides of a pair.
#![tactic(auto)]

mod act;
mod alone;
mod copied;
mod entry;
mod frames;
mod input;
mod memory;
mod operators;
mod running;
mod statics;
mod wants;

pub use act::{Did, perform};
pub use entry::{Refused, part_of};
pub use frames::{Frames, Room};
pub use input::{Input, next_byte};
pub use memory::Memory;
pub use running::{OPEN_OBJECTS, Running, next_line};
pub use statics::begin_statics;
pub use wants::reach;
