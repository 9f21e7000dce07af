//! Which object or function a declaration with linkage declares (C11 6.2.2), and what its declarations agree in.
#![tactic(auto)]

mod declare;
mod define;
mod link;
mod prior;

pub use define::{count_if, define_tentatively, defines};
pub use link::links;
