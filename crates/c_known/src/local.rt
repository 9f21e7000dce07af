use c_types::QualifiedRef;
use c_values::Predeclared;

/// What a name means.
#[derive(Clone, Copy, Debug, PartialEq, Eq)]
pub enum Meaning {
    /// A local, by its number in the function's table.
    Local(u32),
    /// An object or function with linkage, by its number, with the type that the declarations of this file give it.
    Linked(u32, QualifiedRef),
    Predeclared(Predeclared),
    /// A constant of type `int`, modulo 2^32.
    Constant(u32),
}

/// A local of a function, a parameter too.
#[derive(Drop)]
pub struct Local {
    /// Its name, if it has one.
    pub name: Option<Vec<u8>>,
    /// The line of its name, or of its first specifier where it has none.
    pub line: u32,
    /// The line of its declarator's first token.
    pub first: u32,
    pub ty: QualifiedRef,
    /// Whether `&` is applied to it.
    pub is_addressed: bool,
}

/// An occurrence of an entity's name in an expression.
#[derive(Clone, Copy, Debug, PartialEq, Eq)]
pub struct Use {
    pub entity: u32,
    pub line: u32,
}
