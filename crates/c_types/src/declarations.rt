ghost use Rattle.std.specs.Prelude.{◌≡◌};
ghost use Rattle.c_types.specs.Types.{CType, same_qualifiers as one_qualifiers, are_for_one as for_one, may_be_one as one_object, composite as composite_type};
ghost use Rattle.c_types.specs.Table.{type_at, qualified_at, Stands};
ghost use Rattle.c_types.specs.OneObject.{is_array_of as array_of_element, lacks_length as without_length};

use crate::qualifiers::Qualifiers;
use crate::table::Types;
use crate::type_ref::{QualifiedRef, Shape, TypeRef};

/// Whether two types have the same qualifiers.
pub fn same_qualifiers(a: Qualifiers, b: Qualifiers) -> bool
    ensures { result ≡ one_qualifiers a b }
{
    a.is_const == b.is_const && a.is_volatile == b.is_volatile
}

impl Types {
    /// Whether a type is an array's of an element, whatever its length.
    fn is_array_of(&self, of: TypeRef, element: QualifiedRef) -> bool
        ensures { result ≡ array_of_element (type_at self.now of) (qualified_at self.now element) }
    {
        match self.shape(of) {
            Shape::Array(other, _, _) => {
                same_qualifiers(element.qualifiers, other.qualifiers)
                    && self.is_one(element.target, other.target)
            }
            Shape::Void | Shape::Integer(_) | Shape::Pointer(_) => false,
            Shape::Returning(_) | Shape::Taking(..) => false,
        }
    }

    /// Whether a type is an array's without a length.
    fn lacks_length(&self, of: TypeRef) -> bool
        ensures { result ≡ without_length (type_at self.now of) }
    {
        match self.shape(of) {
            Shape::Array(_, length, _) => length.is_none(),
            Shape::Void | Shape::Integer(_) | Shape::Pointer(_) => false,
            Shape::Returning(_) | Shape::Taking(..) => false,
        }
    }

    /// Whether two declarations of these types may be of one object or function: an array's length may be missing in
    /// one of them (C11 6.7p4).
    pub fn are_for_one(&self, a: TypeRef, b: TypeRef) -> bool
        ensures { result ≡ for_one (type_at self.now a) (type_at self.now b) }
    {
        match self.shape(a) {
            Shape::Array(element, None, _) => self.is_array_of(b, element),
            Shape::Array(element, Some(_), _) => {
                if self.lacks_length(b) {
                    self.is_array_of(b, element)
                } else {
                    self.is_one(a, b)
                }
            }
            Shape::Void | Shape::Integer(_) | Shape::Pointer(_) => self.is_one(a, b),
            Shape::Returning(_) | Shape::Taking(..) => self.is_one(a, b),
        }
    }

    /// The same for types with their qualifiers.
    pub fn may_be_one(&self, a: QualifiedRef, b: QualifiedRef) -> bool
        ensures { result ≡ one_object (qualified_at self.now a) (qualified_at self.now b) }
    {
        same_qualifiers(a.qualifiers, b.qualifiers) && self.are_for_one(a.target, b.target)
    }

    /// Of the types of two declarations of one object the one with a length, if one has it (C11 6.2.7p3).
    pub fn composite(&self, a: TypeRef, b: TypeRef) -> TypeRef
        ensures { (t u : CType) → Stands self.now a t → Stands self.now b u → Stands self.now result (composite_type t u) }
    {
        if self.lacks_length(a) { b } else { a }
    }
}
