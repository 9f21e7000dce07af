ghost use Rattle.std.specs.Prelude.{◌≡◌};
ghost use Rattle.c_types.specs.Table.{type_at};
ghost use Rattle.c_typed.specs.Views.{value_view, place_view};
ghost use Rattle.c_typed.specs.Starts as starts;

use crate::constant::constant_of;
use crate::moving::{as_bool, moved_by, number_if};
use c_typed::{Place, PlaceNode, Start, Value, ValueNode};
use c_types::Types;

/// What a cell of a static object starts with, if a value is a constant that an initializer may have: a number, a null
/// pointer, a function, or an address of a static object, perhaps of one of its elements (C11 6.6p9).
#[cycle(starts)]
pub fn start_of(types: &Types, value: &Value) -> Option<Start>
    ensures { result ≡ starts.start_of (value_view (type_at types.now) value.now) }
{
    match &value.node {
        ValueNode::Constant(_) | ValueNode::Minus(_) | ValueNode::Complement(_) => {
            number_if(constant_of(types, value))
        }
        ValueNode::Negation(_) | ValueNode::Arithmetic(..) | ValueNode::Conjunction(..) => {
            number_if(constant_of(types, value))
        }
        ValueNode::Disjunction(..) | ValueNode::Choice(..) | ValueNode::Conversion(..) => {
            number_if(constant_of(types, value))
        }
        ValueNode::Null => Some(Start::Number(0)),
        ValueNode::Function(entity) => Some(Start::Function(*entity)),
        ValueNode::FirstElement(place) | ValueNode::Address(place) => {
            place_start(types, place.get())
        }
        ValueNode::Sum(_, is_less, true, a, b) => moved_by(
            types,
            start_of(types, a.get()),
            constant_of(types, b.get()),
            types.ty(b.get().ty),
            *is_less,
            a.get().ty,
        ),
        ValueNode::Sum(_, is_less, false, a, b) => moved_by(
            types,
            start_of(types, b.get()),
            constant_of(types, a.get()),
            types.ty(a.get().ty),
            *is_less,
            b.get().ty,
        ),
        ValueNode::ToBool(_, e) => as_bool(start_of(types, e.get())),
        ValueNode::Requalified(e) => start_of(types, e.get()),
        ValueNode::Read(_) | ValueNode::Difference(..) | ValueNode::Comparison(..) => None,
        ValueNode::Sequence(..) | ValueNode::Assignment(..) | ValueNode::Update(..) => None,
        ValueNode::Move(..) | ValueNode::Discarded(_) | ValueNode::Call(..) => None,
        ValueNode::CallThrough(..) | ValueNode::Putchar(..) => None,
        ValueNode::Getchar(_) | ValueNode::Exit(..) => None,
    }
}

/// The address of an lvalue, if it is a constant (C11 6.6p9).
#[cycle(starts)]
fn place_start(types: &Types, place: &Place) -> Option<Start>
    ensures { result ≡ starts.place_start (place_view (type_at types.now) place.now) }
{
    match &place.node {
        PlaceNode::Local(_) => None,
        PlaceNode::Static(entity) => Some(Start::Object(*entity, 0)),
        PlaceNode::Text(number) => Some(Start::Text(*number, 0)),
        PlaceNode::Pointed(e) => start_of(types, e.get()),
        PlaceNode::Element(_, true, a, b) => moved_by(
            types,
            start_of(types, a.get()),
            constant_of(types, b.get()),
            types.ty(b.get().ty),
            false,
            a.get().ty,
        ),
        PlaceNode::Element(_, false, a, b) => moved_by(
            types,
            start_of(types, b.get()),
            constant_of(types, a.get()),
            types.ty(a.get().ty),
            false,
            b.get().ty,
        ),
    }
}
