/// A word of a declaration's specifiers (C11 6.7.1 to 6.7.3).
#[derive(Clone, Copy, Debug, PartialEq, Eq)]
pub enum SpecifierWord {
    Static,
    Extern,
    Const,
    Volatile,
    Void,
    /// `_Bool`
    Bool,
    Char,
    Short,
    Int,
    Signed,
    Unsigned,
}

/// A word of a declaration's specifiers, with its line.
#[derive(Clone, Copy, Debug, PartialEq, Eq)]
pub struct Specifier {
    pub line: u32,
    pub word: SpecifierWord,
}

/// A `*` of a declarator with the qualifiers behind it (C11 6.7.6.1), each of which may stand more than once.
#[derive(Clone, Copy, Debug, PartialEq, Eq)]
pub struct Pointer {
    pub line: u32,
    /// Whether `const` is among them.
    pub is_const: bool,
    /// Whether `volatile` is among them.
    pub is_volatile: bool,
}
