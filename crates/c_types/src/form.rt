use srmt_base::Ty;

/// What an operator between two operands computes on (C11 6.5.5 to 6.5.12).
#[derive(Clone, Copy, Debug, PartialEq, Eq)]
pub enum BinaryForm {
    /// Two integers, each converted to this type.
    Integers(Ty),
    /// A shift at this type, to which the left operand is promoted. The right one is promoted by itself (C11 6.5.7p3).
    Shift(Ty),
    /// A pointer on the left, and an integer that is promoted.
    PointerAndInteger,
    /// An integer that is promoted, and a pointer on the right.
    IntegerAndPointer,
    /// Two pointers to one type.
    Pointers,
    /// A pointer, and a null pointer constant that becomes one of its type.
    PointerAndNull,
    /// A null pointer constant that becomes a pointer of the other's type, and this pointer.
    NullAndPointer,
}

/// What the branches of a conditional operator are (C11 6.5.15p3).
#[derive(Clone, Copy, Debug, PartialEq, Eq)]
pub enum ChoiceForm {
    /// Two integers, each converted to this type.
    Integers(Ty),
    Voids,
    /// Two pointers to one type.
    Pointers,
    PointerAndNull,
    NullAndPointer,
}

/// A conversion as by assignment (C11 6.5.16.1p1).
#[derive(Clone, Copy, Debug, PartialEq, Eq)]
pub enum Conversion {
    /// From an integer type to an integer type.
    Integer(Ty, Ty),
    /// From a pointer to `_Bool`.
    PointerToBool,
    /// From a null pointer constant to a pointer.
    Null,
    /// From a pointer to a pointer to the same type, with no qualifier lost.
    Pointer,
}
