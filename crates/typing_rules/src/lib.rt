//! What it means that a program is typed (C11 6.5 to 6.9, in the accepted subset), twice, and the theorem that ties
//! the two.
//!
//! The typing relation says of the trees of one or two files and of a typed program that the one is typed as the
//! other: a case for each construct, and no order of checking. The ordered function answers the typed program, or the
//! first refusal in the order of checking, with its line and rule. It answers a program exactly where the relation has
//! one, and that is the only one.
#![tactic(auto)]

mod laws;
mod refusal;

pub use laws::{contents_fit, functions_fit, one_typing, refused_has_no_typing, typing_is_exact};
pub use refusal::{Size, TypeRefusal};
