/// What an expression is as an integer constant expression (C11 6.6p6).
#[derive(Clone, Copy, Debug, PartialEq, Eq)]
pub enum Constant {
    /// It has not the form of one.
    NoForm,
    /// It has the form of one, and a part of it that is evaluated has no value at its type.
    Traps,
    /// Its value modulo 2^32.
    Value(u64),
}
