ghost use Rattle.std.specs.Prelude.{IfOk};
ghost use Rattle.c_types.specs.Types.{CType};
ghost use Rattle.c_types.specs.Table.{Stands};
ghost use Rattle.c_typed.specs.Typed as tree;
ghost use Rattle.typing_rules.specs.Terms as terms;
ghost use Rattle.c_values.specs.Stand.{TypedOne, WrittenOne, Makes, MeansTyped, MeansWritten};

use crate::convert::converted;
use crate::made::make;
use crate::typed::{Typed, Written};
use c_typed::{Constant, ValueNode};
use c_types::{Conversion, TypeRef, Types, promoted};
use std::alloc::{AllocError, Global};

/// An operand after the integer promotions (C11 6.3.1.1).
pub fn promoted_value(alloc: Global, types: &Types, operand: Written) -> Result<Typed, AllocError>
    ensures { (t : terms.Written) → MeansWritten types.now operand t → Makes types.now result (terms.promoted_value t) }
{
    let to = promoted(types.ty(operand.typed.value.get().ty));
    converted(alloc, types, to, operand)
}

/// A null pointer constant as a pointer of a type (C11 6.3.2.3p3).
pub fn null_of(
    alloc: Global,
    types: &Types,
    to: TypeRef,
    operand: Typed,
) -> Result<Typed, AllocError>
    ensures { TypedOne types.now to operand (λ t v. Makes types.now result (terms.null_of t v)) }
{
    let line = operand.value.get().line;
    make(alloc, line, to, ValueNode::Null, Constant::NoForm)
}

/// A pointer as one of a type that differs in qualifiers, if in anything (C11 6.3.2.3p2).
pub fn repointed(
    alloc: Global,
    types: &Types,
    to: TypeRef,
    operand: Typed,
) -> Result<Typed, AllocError>
    ensures { TypedOne types.now to operand (λ t v. Makes types.now result (terms.repointed t v)) }
{
    if types.is_one(operand.value.get().ty, to) {
        Ok(operand)
    } else {
        requalified(alloc, types, to, operand)
    }
}

/// A pointer as one of another type.
fn requalified(
    alloc: Global,
    types: &Types,
    to: TypeRef,
    operand: Typed,
) -> Result<Typed, AllocError>
    ensures { TypedOne types.now to operand (λ t v. Makes types.now result (tree.value (tree.start_of v) t (tree.requalified v))) }
{
    let line = operand.value.get().line;
    make(
        alloc,
        line,
        to,
        ValueNode::Requalified(operand.value),
        Constant::NoForm,
    )
}

/// A pointer as a `_Bool` (C11 6.3.1.2).
fn tested(alloc: Global, types: &Types, to: TypeRef, operand: Written) -> Result<Typed, AllocError>
    ensures { WrittenOne types.now to operand (λ t w. Makes types.now result (tree.value w.first t (tree.to_bool w.first w.value))) }
{
    let node = ValueNode::ToBool(operand.first, operand.typed.value);
    make(alloc, operand.first, to, node, Constant::NoForm)
}

/// An operand converted as by assignment (C11 6.5.16.1p2).
pub fn converted_by(
    alloc: Global,
    types: &Types,
    form: Conversion,
    to: TypeRef,
    operand: Written,
) -> Result<Typed, AllocError>
    ensures { WrittenOne types.now to operand (λ t w. Makes types.now result (terms.converted_by form t w)) }
{
    match form {
        Conversion::Integer(_, target) => converted(alloc, types, target, operand),
        Conversion::PointerToBool => tested(alloc, types, to, operand),
        Conversion::Null => null_of(alloc, types, to, operand.typed),
        Conversion::Pointer => repointed(alloc, types, to, operand.typed),
    }
}
