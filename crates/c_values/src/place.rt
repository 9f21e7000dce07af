ghost use Rattle.std.specs.Prelude.{if◌then◌else◌, IfOk};
ghost use Rattle.c_types.specs.Types.{is_array, decayed, pointer_to, plain, pointer};
ghost use Rattle.c_types.specs.Table.{type_at, Extends, Stands};
ghost use Rattle.c_typed.specs.Typed as tree;
ghost use Rattle.typing_rules.specs.Terms as terms;
ghost use Rattle.typing_rules.specs.OrderedParts as ordered;
ghost use Rattle.c_values.specs.Stand.{Makes, MeansTyped};
ghost use Rattle.c_values.specs.Answers.{Answers, OverDesignator, OverPlace, OverType};

use crate::made::{make, or_memory};
use crate::typed::{Designated, Typed};
use c_typed::{Constant, Place, ValueNode};
use c_types::{QualifiedRef, Qualifiers, TypeRef, Types};
use sqlite_items::Boxed;
use std::alloc::{AllocError, Global};
use typing_rules::TypeRefusal;

/// What a place holds, or where an array begins (C11 6.3.2.1p2, p3).
pub(crate) fn value_at(
    alloc: Global,
    types: &mut Types,
    place: Boxed<Place>,
) -> Result<Typed, AllocError>
    ensures kept { Extends types.old types.new }
    ensures value { OverPlace types.old place (λ p. Makes types.new result (terms.value_at p)) }
{
    let line = place.get().line;
    let ty = place.get().ty.target;
    if types.is_array(ty) {
        first_element(alloc, types, line, ty, place)
    } else {
        make(alloc, line, ty, ValueNode::Read(place), Constant::NoForm)
    }
}

/// Where an array of a type begins.
fn first_element(
    alloc: Global,
    types: &mut Types,
    line: u32,
    ty: TypeRef,
    place: Boxed<Place>,
) -> Result<Typed, AllocError>
    ensures kept { Extends types.old types.new }
    ensures value { OverType types.old ty (λ t. OverPlace types.old place (λ p. Makes types.new result (tree.value line (decayed t) (tree.first_element p)))) }
{
    let to = types.decayed(ty)?;
    let node = ValueNode::FirstElement(place);
    make(alloc, line, to, node, Constant::NoForm)
}

/// The type of the value at a place of a type.
pub(crate) fn value_type(types: &mut Types, ty: TypeRef) -> Result<TypeRef, AllocError>
    ensures kept { Extends types.old types.new }
    ensures made { IfOk result (λ r. Stands types.new r (if is_array (type_at types.old ty) then decayed (type_at types.old ty) else type_at types.old ty)) }
{
    if types.is_array(ty) {
        types.decayed(ty)
    } else {
        Ok(types.standing(ty))
    }
}

/// `&` of a place (C11 6.5.3.2).
pub(crate) fn address_of_place(
    alloc: Global,
    types: &mut Types,
    line: u32,
    place: Boxed<Place>,
) -> Result<Typed, AllocError>
    ensures kept { Extends types.old types.new }
    ensures value { OverPlace types.old place (λ p. Makes types.new result (tree.value line (pointer_to (tree.place_type p)) (tree.address p))) }
{
    let to = types.pointer_to(place.get().ty)?;
    let node = ValueNode::Address(place);
    make(alloc, line, to, node, Constant::NoForm)
}

/// A function by its number, as a pointer to it.
fn function_value(
    alloc: Global,
    types: &mut Types,
    line: u32,
    number: u32,
    ty: TypeRef,
) -> Result<Typed, AllocError>
    ensures kept { Extends types.old types.new }
    ensures value { OverType types.old ty (λ t. Makes types.new result (tree.value line (pointer plain t) (tree.function number))) }
{
    let to = types.pointer_to(QualifiedRef {
        qualifiers: Qualifiers {
            is_const: false,
            is_volatile: false,
        },
        target: ty,
    })?;
    make(
        alloc,
        line,
        to,
        ValueNode::Function(number),
        Constant::NoForm,
    )
}

/// The value of a function designator: a pointer to the function (C11 6.3.2.1p4). `main` and predeclared functions
/// have none.
pub(crate) fn designated(
    alloc: Global,
    types: &mut Types,
    line: u32,
    of: Designated,
    ty: TypeRef,
) -> Result<Typed, TypeRefusal>
    ensures kept { Extends types.old types.new }
    ensures value { OverDesignator types.old of ty (λ d t. Answers (MeansTyped types.new) result (ordered.designated line d t)) }
{
    match of {
        Designated::Entity(_, true) => Err(TypeRefusal::Mismatch(line, 20)),
        Designated::Entity(number, false) => {
            or_memory(function_value(alloc, types, line, number, ty))
        }
        Designated::Predeclared(_) => Err(TypeRefusal::Mismatch(line, 20)),
        Designated::Through(pointer) => Ok(pointer),
    }
}
