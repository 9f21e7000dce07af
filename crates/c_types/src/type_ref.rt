ghost use Rattle.std.specs.Prelude.{◌≡◌};
ghost use Rattle.std.specs.Cmp.Rules.{hashing};
ghost use Rattle.std.proofs.Common.{rules};
ghost use Rattle.c_types.specs.Hashing.{writes_of};

use crate::qualifiers::Qualifiers;
use crate::size::Size;
use srmt_base::Ty;
use std::hash::{Hash, Hasher};

/// A type as a table of types knows it: `void` and an integer type by themselves, another one by its row.
#[derive(Clone, Copy, Debug, PartialEq, Eq)]
pub enum TypeRef {
    Void,
    Integer(Ty),
    Derived(usize),
}

impl Hash for TypeRef {
    ghost hash_input = { writes_of };

    ghost respects_eq = { Prim.search (hashing, rules) };

    fn hash<H: Hasher>(&self, state: &mut H) {
        match *self {
            TypeRef::Void => state.write_u8(0),
            TypeRef::Integer(ty) => state.write_u8(1 + ty.code()),
            TypeRef::Derived(row) => state.write_usize(row),
        }
    }
}

/// A type with its qualifiers.
#[derive(Clone, Copy, Debug, PartialEq, Eq, Hash)]
pub struct QualifiedRef {
    pub qualifiers: Qualifiers,
    pub target: TypeRef,
}

/// A row of a table of types: a type that is made of earlier ones.
#[derive(Clone, Copy, Debug, PartialEq, Eq, Hash)]
pub enum Row {
    /// A pointer to a type.
    Pointer(QualifiedRef),
    /// An array of elements of a type, its length, and its size.
    Array(QualifiedRef, Option<u32>, Size),
    /// A function with a result and no parameters.
    Returning(QualifiedRef),
    /// A function with one more parameter in front, and the function without it.
    Taking(TypeRef, TypeRef),
}

/// How a type is made.
#[derive(Clone, Copy, Debug, PartialEq, Eq)]
pub enum Shape {
    Void,
    Integer(Ty),
    /// A pointer to a type.
    Pointer(QualifiedRef),
    /// An array of elements of a type, its length, and its size.
    Array(QualifiedRef, Option<u32>, Size),
    /// A function with a result and no parameters.
    Returning(QualifiedRef),
    /// A function with one more parameter in front, and the function without it.
    Taking(TypeRef, TypeRef),
}
