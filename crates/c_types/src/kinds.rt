ghost use Rattle.std.specs.Prelude.{◌≡◌, ◌==◌, length, IfOk};
ghost use Rattle.c_types.specs.Types.{is_void as void_type, is_integer as integer_type, is_scalar as scalar_type, is_object_pointer as object_pointer, is_complete_pointer as complete_pointer, is_function_pointer as function_pointer, is_pointer as pointer_type, is_function as function_type, is_complete as complete_type, ty_of, target_of, parameters_of, decayed as decayed_type};
ghost use Rattle.c_types.specs.Table.{size_of, type_at, qualified_at, Stands, StandsFor, Extends};

use crate::integer::{integer_bytes, integer_cells};
use crate::qualifiers::Qualifiers;
use crate::size::Size;
use crate::table::Types;
use crate::type_ref::{QualifiedRef, Shape, TypeRef};
use srmt_base::Ty;
use std::alloc::AllocError;

const PLAIN: Qualifiers = Qualifiers {
    is_const: false,
    is_volatile: false,
};

/// `void` without qualifiers.
const UNQUALIFIED_VOID: QualifiedRef = QualifiedRef {
    qualifiers: PLAIN,
    target: TypeRef::Void,
};

impl Types {
    /// Whether a type is `void`.
    pub fn is_void(&self, of: TypeRef) -> bool
        ensures { result ≡ void_type (type_at self.now of) }
    {
        match self.shape(of) {
            Shape::Void => true,
            Shape::Integer(_) | Shape::Pointer(_) | Shape::Array(..) => false,
            Shape::Returning(_) | Shape::Taking(..) => false,
        }
    }

    /// Whether a type is a pointer's.
    pub fn is_pointer(&self, of: TypeRef) -> bool
        ensures { result ≡ pointer_type (type_at self.now of) }
    {
        match self.shape(of) {
            Shape::Pointer(_) => true,
            Shape::Void | Shape::Integer(_) | Shape::Array(..) => false,
            Shape::Returning(_) | Shape::Taking(..) => false,
        }
    }

    /// Whether a type is a function's.
    pub fn is_function(&self, of: TypeRef) -> bool
        ensures { result ≡ function_type (type_at self.now of) }
    {
        match self.shape(of) {
            Shape::Returning(_) | Shape::Taking(..) => true,
            Shape::Void | Shape::Integer(_) | Shape::Pointer(_) | Shape::Array(..) => false,
        }
    }

    /// What a pointer points to; `void` for a type that is no pointer's.
    pub fn target(&self, of: TypeRef) -> QualifiedRef
        ensures { StandsFor self.now result (target_of (type_at self.now of)) }
    {
        match self.shape(of) {
            Shape::Pointer(target) => target,
            Shape::Void | Shape::Integer(_) | Shape::Array(..) => UNQUALIFIED_VOID,
            Shape::Returning(_) | Shape::Taking(..) => UNQUALIFIED_VOID,
        }
    }

    /// Whether a type is a complete object's (C11 6.2.5p1).
    pub fn is_complete(&self, of: TypeRef) -> bool
        ensures { result ≡ complete_type (type_at self.now of) }
    {
        match self.shape(of) {
            Shape::Integer(_) | Shape::Pointer(_) => true,
            Shape::Array(_, length, _) => length.is_some(),
            Shape::Void | Shape::Returning(_) | Shape::Taking(..) => false,
        }
    }

    /// How large an object of a type is: 0 where the type is not complete.
    pub fn size(&self, of: TypeRef) -> Size
        ensures { result ≡ size_of (type_at self.now of) }
    {
        match self.shape(of) {
            Shape::Integer(ty) => Size {
                cells: integer_cells(ty),
                bytes: integer_bytes(ty),
            },
            Shape::Pointer(_) => Size { cells: 1, bytes: 4 },
            Shape::Array(_, _, size) => size,
            Shape::Void | Shape::Returning(_) | Shape::Taking(..) => Size { cells: 0, bytes: 0 },
        }
    }

    /// Whether a type is an integer's.
    pub fn is_integer(&self, of: TypeRef) -> bool
        ensures { result ≡ integer_type (type_at self.now of) }
    {
        match self.shape(of) {
            Shape::Integer(_) => true,
            Shape::Void | Shape::Pointer(_) | Shape::Array(..) => false,
            Shape::Returning(_) | Shape::Taking(..) => false,
        }
    }

    /// What integer type a type is; `int` for one that is none.
    pub fn ty(&self, of: TypeRef) -> Ty
        ensures { result ≡ ty_of (type_at self.now of) }
    {
        match self.shape(of) {
            Shape::Integer(ty) => ty,
            Shape::Void | Shape::Pointer(_) | Shape::Array(..) => Ty::Int,
            Shape::Returning(_) | Shape::Taking(..) => Ty::Int,
        }
    }

    /// Whether a type is an integer's or a pointer's (C11 6.2.5p21).
    pub fn is_scalar(&self, of: TypeRef) -> bool
        ensures { result ≡ scalar_type (type_at self.now of) }
    {
        self.is_integer(of) || self.is_pointer(of)
    }

    /// Whether a type is a pointer's to an object, perhaps to an array without a length.
    pub fn is_object_pointer(&self, of: TypeRef) -> bool
        ensures { result ≡ object_pointer (type_at self.now of) }
    {
        self.is_pointer(of) && !self.is_function(self.target(of).target)
    }

    /// Whether a type is a pointer's to a complete object type.
    pub fn is_complete_pointer(&self, of: TypeRef) -> bool
        ensures { result ≡ complete_pointer (type_at self.now of) }
    {
        self.is_pointer(of) && self.is_complete(self.target(of).target)
    }

    /// Whether a type is a pointer's to a function.
    pub fn is_function_pointer(&self, of: TypeRef) -> bool
        ensures { result ≡ function_pointer (type_at self.now of) }
    {
        self.is_pointer(of) && self.is_function(self.target(of).target)
    }

    /// The type to which an array or a function decays (C11 6.3.2.1p3, p4); another type stays.
    pub fn decayed(&mut self, of: TypeRef) -> Result<TypeRef, AllocError>
        ensures kept { Extends self.old self.new }
        ensures made { IfOk result (λ r. Stands self.new r (decayed_type (type_at self.old of))) }
    {
        match self.shape(of) {
            Shape::Array(element, _, _) => self.pointer_to(element),
            Shape::Returning(_) | Shape::Taking(..) => self.pointer_to(QualifiedRef {
                qualifiers: PLAIN,
                target: of,
            }),
            Shape::Void => Ok(self.standing(of)),
            Shape::Integer(_) => Ok(self.standing(of)),
            Shape::Pointer(_) => Ok(self.standing(of)),
        }
    }

    /// Whether a function has so many parameters.
    pub fn has_parameters(&self, of: TypeRef, count: usize) -> bool
        ensures { result ≡ (length (parameters_of (type_at self.now of)) == count) }
    {
        match self.shape(of) {
            Shape::Taking(_, rest) => count > 0 && self.has_parameters(rest, count - 1),
            Shape::Void | Shape::Integer(_) | Shape::Pointer(_) | Shape::Array(..) => count == 0,
            Shape::Returning(_) => count == 0,
        }
    }
}
