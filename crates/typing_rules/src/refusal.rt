/// Why a program has no typing. Each line is that of the file, or 2,000,000 more in the binary file.
#[derive(Clone, Copy, Debug, PartialEq, Eq)]
pub enum TypeRefusal {
    /// A name that is not declared.
    Unknown(u32),
    /// A name that is declared twice in one block or in two ways, or defined twice.
    Twice(u32),
    /// The number of the rule that is broken.
    Mismatch(u32, u8),
    /// The main file defines no `int main(void)`.
    NoMain,
    /// A name that is used and that no file defines.
    Unresolved(u32),
    TooLarge(u32, Size),
    Memory,
}

/// What is too large.
#[derive(Clone, Copy, Debug, PartialEq, Eq)]
pub enum Size {
    /// More than 16 parameters of a function.
    Params,
    /// More than 65,535 cells of an object or of a written array type.
    Cells,
    /// More than 1,048,576 static cells of a file.
    Statics,
    /// More than 4,096 functions of a file.
    Functions,
    /// More than 65,535 different types of functions that are defined or called through a pointer.
    Types,
}
