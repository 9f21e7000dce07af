ghost use Rattle.std.specs.Prelude.{◌≡◌};
ghost use Rattle.c_types.specs.Types.{is_integer as integer_type};
ghost use Rattle.c_types.specs.Table.{type_at};
ghost use Rattle.c_typed.specs.Constants as constant;
ghost use Rattle.c_typed.specs.declared.constant.Constant.TheVariants.{Value as Known};
ghost use Rattle.c_typed.specs.Views.{value_view};
ghost use Rattle.c_starts.specs.Small.{IsSmall};

use crate::computing::computed;
use c_typed::{Constant, Value, ValueNode};
use c_types::{TypeRef, Types};
use c_values::constants::{as_test, chosen, complement, converted, opposite};
use srmt_base::Op;

/// A constant of a type, if that is an integer's.
fn integer_only(types: &Types, ty: TypeRef, number: u32) -> Constant
    ensures exact { result ≡ constant.integer_only (type_at types.now ty) (Known number) }
    ensures small { IsSmall result }
{
    if types.is_integer(ty) {
        Constant::Value(u64::from(number))
    } else {
        Constant::NoForm
    }
}

/// What a value is as an integer constant expression (C11 6.6p6).
pub(crate) fn constant_of(types: &Types, value: &Value) -> Constant
    ensures exact { result ≡ constant.constant_of (value_view (type_at types.now) value.now) }
    ensures small { IsSmall result }
{
    match &value.node {
        ValueNode::Constant(n) => integer_only(types, value.ty, *n),
        ValueNode::Minus(e) => computed(
            Op::Sub,
            types.ty(value.ty),
            Constant::Value(0),
            constant_of(types, e.get()),
        ),
        ValueNode::Complement(e) => complement(constant_of(types, e.get())),
        ValueNode::Negation(e) => opposite(constant_of(types, e.get())),
        ValueNode::Arithmetic(op, _, a, b) => computed(
            *op,
            types.ty(a.get().ty),
            constant_of(types, a.get()),
            constant_of(types, b.get()),
        ),
        ValueNode::Conjunction(a, b) => chosen(
            constant_of(types, a.get()),
            as_test(constant_of(types, b.get())),
            Constant::Value(0),
        ),
        ValueNode::Disjunction(a, b) => chosen(
            constant_of(types, a.get()),
            Constant::Value(1),
            as_test(constant_of(types, b.get())),
        ),
        ValueNode::Choice(e, a, b) => chosen(
            constant_of(types, e.get()),
            constant_of(types, a.get()),
            constant_of(types, b.get()),
        ),
        ValueNode::Conversion(_, e) => converted(
            types.ty(e.get().ty),
            types.ty(value.ty),
            constant_of(types, e.get()),
        ),
        ValueNode::Null | ValueNode::Read(_) | ValueNode::FirstElement(_) => Constant::NoForm,
        ValueNode::Address(_) | ValueNode::Function(_) | ValueNode::Sum(..) => Constant::NoForm,
        ValueNode::Difference(..) | ValueNode::Comparison(..) => Constant::NoForm,
        ValueNode::Sequence(..) | ValueNode::Assignment(..) | ValueNode::Update(..) =>
            Constant::NoForm,
        ValueNode::Move(..) | ValueNode::ToBool(..) | ValueNode::Requalified(_) => Constant::NoForm,
        ValueNode::Discarded(_) | ValueNode::Call(..) | ValueNode::CallThrough(..) =>
            Constant::NoForm,
        ValueNode::Putchar(..) | ValueNode::Getchar(_) | ValueNode::Exit(..) => Constant::NoForm,
    }
}
