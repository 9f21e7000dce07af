//! Lowering: typed trees to middle code.
//!
//! [`lower`] goes over the tree of each function once, in order, by plain recursion: the parser lets constructs nest so
//! deep and no deeper, so trees are shallow. Code is emitted as it comes. Where a jump leads may become known only later:
//! the code so far says so (code.rt).
#![tactic(auto)]

mod allotted;
mod body;
mod calls;
mod changes;
mod choices;
mod code;
mod emitter;
mod functions;
mod initializers;
mod inside;
mod jumps;
mod locals;
mod loops;
mod operators;
mod places;
mod programs;
mod refusal;
mod statements;
mod statics;
mod types;
mod values;

pub use programs::lower;
pub use refusal::LowerRefusal;
