use c_types::{QualifiedRef, TypeRef};
use sqlite_items::{Boxed, Items};
use srmt_base::{Op, Ty};

/// An lvalue (C11 6.3.2.1p1), with the line of its first token.
#[cycle(value)]
#[derive(Drop)]
pub struct Place {
    pub line: u32,
    pub ty: QualifiedRef,
    pub node: PlaceNode,
}

/// What an lvalue is.
#[cycle(value)]
#[derive(Drop)]
pub enum PlaceNode {
    /// A local, by its number in the function's table.
    Local(u32),
    /// A static object, by the number of its entity.
    Static(u32),
    /// A text, by its number in the file.
    Text(u32),
    /// `*p` (C11 6.5.3.2).
    Pointed(Boxed<Value>),
    /// `a[i]` (C11 6.5.2.1): the line of the `[`, whether the pointer stands first, and both operands as written. The
    /// integer is promoted.
    Element(u32, bool, Boxed<Value>, Boxed<Value>),
}

/// A value, with the line of its first token, parentheses not counted, and its type.
#[cycle(value)]
#[derive(Drop)]
pub struct Value {
    pub line: u32,
    pub ty: TypeRef,
    pub node: ValueNode,
}

/// How a value is made.
#[cycle(value)]
#[derive(Drop)]
pub enum ValueNode {
    /// A constant or `sizeof`: the value modulo 2^32.
    Constant(u32),
    /// A null pointer constant, converted to a pointer (C11 6.3.2.3p3).
    Null,
    /// What a place holds.
    Read(Boxed<Place>),
    /// The address of an array's first element (C11 6.3.2.1p3).
    FirstElement(Boxed<Place>),
    /// `&` of a place (C11 6.5.3.2).
    Address(Boxed<Place>),
    /// A function, by the number of its entity.
    Function(u32),
    /// `-` of a promoted integer (C11 6.5.3.3).
    Minus(Boxed<Value>),
    /// `~` of a promoted integer.
    Complement(Boxed<Value>),
    /// `!` of a promoted integer or a pointer.
    Negation(Boxed<Value>),
    /// An operator on integers and its line, at the type of the left operand (C11 6.5.5 to 6.5.12).
    Arithmetic(Op, u32, Boxed<Value>, Boxed<Value>),
    /// A pointer and a promoted integer as written (C11 6.5.6p8): the operator's line, whether it is `-`, and whether
    /// the pointer stands first.
    Sum(u32, bool, bool, Boxed<Value>, Boxed<Value>),
    /// Two pointers subtracted, with the operator's line (C11 6.5.6p9).
    Difference(u32, Boxed<Value>, Boxed<Value>),
    /// Two pointers compared, with the operator's line (C11 6.5.8, 6.5.9).
    Comparison(Op, u32, Boxed<Value>, Boxed<Value>),
    /// `&&` (C11 6.5.13).
    Conjunction(Boxed<Value>, Boxed<Value>),
    /// `||` (C11 6.5.14).
    Disjunction(Boxed<Value>, Boxed<Value>),
    /// `?:` (C11 6.5.15).
    Choice(Boxed<Value>, Boxed<Value>, Boxed<Value>),
    /// The operands whose values are dropped, and the last (C11 6.5.17).
    Sequence(Items<Boxed<Value>>, Boxed<Value>),
    /// `=`, with a value of the place's type (C11 6.5.16.1).
    Assignment(Boxed<Place>, Boxed<Value>),
    /// `l op= e`, `++l`, `l++` on integers; the operand is 1 for a step.
    Update(IntegerChange, Boxed<Place>, Boxed<Value>),
    /// The same on a pointer.
    Move(PointerChange, Boxed<Place>, Boxed<Value>),
    /// An integer converted to an integer type (C11 6.3.1, 6.5.4): the line of the operand's first token, parentheses
    /// counted.
    Conversion(u32, Boxed<Value>),
    /// A pointer converted to `_Bool`, with the same line.
    ToBool(u32, Boxed<Value>),
    /// A pointer to the same type with other qualifiers (C11 6.3.2.3p2).
    Requalified(Boxed<Value>),
    /// A value that is not used (C11 6.3.2.2).
    Discarded(Boxed<Value>),
    /// A call of a function: the line of the `(`, the number of its entity, and the arguments (C11 6.5.2.2).
    Call(u32, u32, Items<Boxed<Value>>),
    /// A call of the function that a value points to.
    CallThrough(u32, Boxed<Value>, Items<Boxed<Value>>),
    /// C11 7.21.7.8, with the line of the `(`.
    Putchar(u32, Boxed<Value>),
    /// C11 7.21.7.6.
    Getchar(u32),
    /// C11 7.22.4.4.
    Exit(u32, Boxed<Value>),
}

/// How an integer changes.
#[derive(Clone, Copy, Debug, PartialEq, Eq)]
pub struct IntegerChange {
    /// Whether the value is the old one.
    pub is_after: bool,
    /// The line of the left side's first token, parentheses counted.
    pub first: u32,
    pub op: Op,
    /// The operator's line.
    pub at: u32,
    /// The type at which it computes. The old value is converted to it, and the result back.
    pub ty: Ty,
}

/// How a pointer changes.
#[derive(Clone, Copy, Debug, PartialEq, Eq)]
pub struct PointerChange {
    /// Whether the value is the old one.
    pub is_after: bool,
    pub is_less: bool,
    /// The operator's line.
    pub at: u32,
}
