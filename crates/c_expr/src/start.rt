/// The line of the grammar of expressions at which reading begins (C11 6.5).
#[derive(Clone, Copy, Debug, PartialEq, Eq)]
pub enum Start {
    /// C11 6.5.17
    Expression,
    /// C11 6.5.16
    Assignment,
    /// C11 6.5.15
    Conditional,
    /// C11 6.5.4
    Cast,
    /// C11 6.5.3
    Unary,
}

/// Whether a declarator declares a name.
#[derive(Clone, Copy, Debug, PartialEq, Eq)]
pub enum Naming {
    /// It does (C11 6.7.6).
    Named,
    /// It does not (C11 6.7.7).
    Unnamed,
    /// It may or may not, in a parameter.
    Either,
}
