ghost use Rattle.std.specs.Prelude.{◌≡◌};
ghost use Rattle.c_types.specs.Types.{is_array as array_type, result_of};
ghost use Rattle.c_types.specs.Table.{type_at, Stands, FirstParameterIs};

use crate::table::Types;
use crate::type_ref::{Shape, TypeRef};

impl Types {
    /// Whether a type is an array's.
    pub fn is_array(&self, of: TypeRef) -> bool
        ensures { result ≡ array_type (type_at self.now of) }
    {
        match self.shape(of) {
            Shape::Array(..) => true,
            Shape::Void | Shape::Integer(_) | Shape::Pointer(_) => false,
            Shape::Returning(_) | Shape::Taking(..) => false,
        }
    }

    /// The type of what a function's call gives (C11 6.5.2.2p5); `void` for a type that is no function's.
    pub fn result(&self, of: TypeRef) -> TypeRef
        ensures { Stands self.now result (result_of (type_at self.now of)) }
    {
        match self.shape(of) {
            Shape::Taking(_, rest) => self.result(rest),
            Shape::Returning(value) => value.target,
            Shape::Void | Shape::Integer(_) | Shape::Pointer(_) | Shape::Array(..) => TypeRef::Void,
        }
    }

    /// The first parameter of a function and the function without it, if it has one.
    pub fn first_parameter(&self, of: TypeRef) -> Option<(TypeRef, TypeRef)>
        ensures { FirstParameterIs self.now result (type_at self.now of) }
    {
        match self.shape(of) {
            Shape::Taking(parameter, rest) => Some((parameter, rest)),
            Shape::Void | Shape::Integer(_) | Shape::Pointer(_) | Shape::Array(..) => None,
            Shape::Returning(_) => None,
        }
    }
}
