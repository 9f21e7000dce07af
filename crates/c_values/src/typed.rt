use c_typed::{Constant, Place, Value};
use c_types::TypeRef;
use sqlite_items::Boxed;
use srmt_base::Op;

/// A value, and what it is as an integer constant expression.
#[derive(Drop)]
pub struct Typed {
    pub value: Boxed<Value>,
    pub constant: Constant,
}

/// The value of an operand, and the line of its first token as it is written, parentheses counted.
#[derive(Drop)]
pub struct Written {
    pub first: u32,
    pub typed: Typed,
}

/// A function that is declared outside of every file (C11 7.21.7.6, 7.21.7.8, 7.22.4.4).
#[derive(Clone, Copy, Debug, PartialEq, Eq)]
pub enum Predeclared {
    /// `int putchar(int)`
    Putchar,
    /// `int getchar(void)`
    Getchar,
    /// `void exit(int)`
    Exit,
}

/// A function that an expression designates (C11 6.3.2.1p4).
#[derive(Drop)]
pub enum Designated {
    /// One with linkage, by the number of its entity, and whether it is `main`.
    Entity(u32, bool),
    Predeclared(Predeclared),
    /// The one that a value points to.
    Through(Typed),
}

/// What an expression is before an array or a function decays (C11 6.3.2.1).
#[derive(Drop)]
pub enum Term {
    /// An lvalue.
    Object(Boxed<Place>),
    Result(Typed),
    /// A function designator: the line of its first token, the function, and its type.
    Designator(u32, Designated, TypeRef),
}

/// The left side of an assignment, or the operand of `++ --` (C11 6.5.2.4, 6.5.3.1, 6.5.16).
#[derive(Drop)]
pub struct Target {
    /// The type of its old value.
    pub ty: TypeRef,
    /// Its place, if it is an lvalue.
    pub place: Option<Boxed<Place>>,
}

/// `p op= e`, `++p`, `p++` (C11 6.5.2.4, 6.5.3.1, 6.5.16.2).
#[derive(Clone, Copy, Debug, PartialEq, Eq)]
pub struct Change {
    /// Whether the value is the old one.
    pub is_after: bool,
    /// The line of the left side's first token, parentheses counted.
    pub first: u32,
    pub op: Op,
    /// The operator's line.
    pub at: u32,
}
