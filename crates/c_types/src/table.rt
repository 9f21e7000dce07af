ghost use Rattle.std.specs.Prelude.{◌≡◌, ◌<◌, ◌↔◌, [], IfOk, IfSome, IsNone, length};
ghost use Rattle.c_types.specs.declared.type_ref.TypeRef.{TypeRef as TypeRef'};
ghost use Rattle.c_types.specs.Types.{pointer_to as pointer_type, array_of as array_type, returning as returning_type, taking as taking_type, same_type, cells_of};
ghost use Rattle.c_types.specs.Table.{row_type, shape_type, shape_of as shape_of_row, types_of, type_at, qualified_at, Stands, Extends, IsBelow, IsMadeBelow, IsShapedBelow};

use crate::type_ref::{QualifiedRef, Row, Shape, TypeRef};
use indexmap::IndexSet;
use std::alloc::{AllocError, Global};
use std::marker::Model;

/// The types of a program. Each stands once, so that two types are one where their references are equal.
#[derive(Drop)]
pub struct Types {
    rows: IndexSet<Row>,
}

impl Model for Types {
    ghost use Rattle.std.specs.Prelude.{List};
    ghost use Rattle.c_types.specs.declared.type_ref.Row.{Row as Row'};

    ghost Value = { List Row' };

    ghost use Rattle.c_types.specs.Table.{WellMade};

    ghost view = { λ t. t.rows.keys };

    ghost invariant = { λ t. WellMade t.rows.keys };
}

impl Types {
    /// A table with no row.
    pub fn new(alloc: Global) -> Self
        ensures { result ≡ [] }
    {
        Types {
            rows: IndexSet::new(alloc),
        }
    }

    /// How a type is made.
    pub fn shape(&self, of: TypeRef) -> Shape
        ensures made { type_at self.now of ≡ shape_type (types_of self.now) result }
        ensures below { IsShapedBelow (types_of self.now) (length self.now) result }
    {
        match of {
            TypeRef::Void => Shape::Void,
            TypeRef::Integer(ty) => Shape::Integer(ty),
            TypeRef::Derived(row) => shape_of(self.rows.get_index(row).copied()),
        }
    }

    /// The type of a row, which is added where it is new.
    fn intern(&mut self, row: Row) -> Result<TypeRef, AllocError>
        requires { IsMadeBelow (types_of self.old) (length self.old) row }
        ensures kept { Extends self.old self.new }
        ensures made { IfOk result (λ r. Stands self.new r (row_type (types_of self.old) row)) }
    {
        let (index, _) = self.rows.insert_full(row)?;
        Ok(TypeRef::Derived(index))
    }

    /// The reference itself, or `void` where it is to no row.
    pub(crate) fn known(&self, of: TypeRef) -> TypeRef
        ensures below { IsBelow (length self.now) result }
        ensures same { type_at self.now result ≡ type_at self.now of }
    {
        match of {
            TypeRef::Void => TypeRef::Void,
            TypeRef::Integer(ty) => TypeRef::Integer(ty),
            TypeRef::Derived(row) => {
                if row < self.rows.len() {
                    TypeRef::Derived(row)
                } else {
                    TypeRef::Void
                }
            }
        }
    }

    /// Whether two types are one type.
    pub fn is_one(&self, a: TypeRef, b: TypeRef) -> bool
        ensures { result ≡ same_type (type_at self.now a) (type_at self.now b) }
    {
        let _ = &self.rows;
        self.known(a) == self.known(b)
    }

    /// The same reference, or one that stands for the same type.
    pub fn standing(&self, of: TypeRef) -> TypeRef
        ensures { Stands self.now result (type_at self.now of) }
    {
        self.known(of)
    }

    /// The one reference that stands for the type of a reference.
    pub fn reference(&self, of: TypeRef) -> TypeRef
        ensures same { Stands self.now result (type_at self.now of) }
        ensures one { (other : TypeRef') → Stands self.now other (type_at self.now of) → other ≡ result }
    {
        let _ = &self.rows;
        self.known(of)
    }

    /// A pointer to a type.
    pub fn pointer_to(&mut self, target: QualifiedRef) -> Result<TypeRef, AllocError>
        ensures kept { Extends self.old self.new }
        ensures made { IfOk result (λ r. Stands self.new r (pointer_type (qualified_at self.old target))) }
    {
        let target = self.qualified(target);
        self.intern(Row::Pointer(target))
    }

    /// An array of elements of a type, or `None` where it has more than 65,535 cells.
    pub fn array_of(
        &mut self,
        element: QualifiedRef,
        length: Option<u32>,
    ) -> Result<Option<TypeRef>, AllocError>
        ensures kept { Extends self.old self.new }
        ensures large { IfOk result (λ r. IsNone r ↔ (65535 < cells_of (array_type (qualified_at self.old element) length))) }
        ensures made { IfOk result (λ r. IfSome r (λ array. Stands self.new array (array_type (qualified_at self.old element) length))) }
    {
        let element = self.qualified(element);
        match self.size(element.target).times(length) {
            None => Ok(None),
            Some(size) => Ok(Some(self.intern(Row::Array(element, length, size))?)),
        }
    }

    /// A function without parameters.
    pub fn returning(&mut self, value: QualifiedRef) -> Result<TypeRef, AllocError>
        ensures kept { Extends self.old self.new }
        ensures made { IfOk result (λ r. Stands self.new r (returning_type value.qualifiers (type_at self.old value.target))) }
    {
        let value = self.qualified(value);
        self.intern(Row::Returning(value))
    }

    /// A function with one more parameter in front.
    pub fn taking(&mut self, parameter: TypeRef, rest: TypeRef) -> Result<TypeRef, AllocError>
        ensures kept { Extends self.old self.new }
        ensures made { IfOk result (λ r. Stands self.new r (taking_type (type_at self.old parameter) (type_at self.old rest))) }
    {
        let parameter = self.known(parameter);
        let rest = self.known(rest);
        self.intern(Row::Taking(parameter, rest))
    }

    /// A qualified reference whose type is known.
    fn qualified(&self, of: QualifiedRef) -> QualifiedRef
        ensures below { IsBelow (length self.now) result.target }
        ensures same { qualified_at self.now result ≡ qualified_at self.now of }
    {
        QualifiedRef {
            qualifiers: of.qualifiers,
            target: self.known(of.target),
        }
    }
}

/// How the type of a row is made; `void` where there is no row.
fn shape_of(row: Option<Row>) -> Shape
    ensures { result ≡ shape_of_row row }
{
    match row {
        None => Shape::Void,
        Some(Row::Pointer(target)) => Shape::Pointer(target),
        Some(Row::Array(element, length, size)) => Shape::Array(element, length, size),
        Some(Row::Returning(result)) => Shape::Returning(result),
        Some(Row::Taking(parameter, rest)) => Shape::Taking(parameter, rest),
    }
}
