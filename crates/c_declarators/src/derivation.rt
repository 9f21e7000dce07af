use c_known::Local;
use c_types::Qualifiers;

/// A part of a declarator (C11 6.7.6), with the length of an array or the parameters of a function.
#[derive(Drop)]
pub enum Derivation {
    Pointer(Qualifiers),
    Array(Option<u32>),
    Function(Vec<Local>),
}

/// The lines of a declarator: that of what is said of its type, and that of what is said of its lengths.
#[derive(Clone, Copy, Debug, PartialEq, Eq)]
pub struct Lines {
    pub rules: u32,
    pub lengths: u32,
}
