ghost use Rattle.std.specs.Prelude.{◌≡◌, List, IfOk};
ghost use Rattle.c_types.specs.Types.{ty_of};
ghost use Rattle.c_types.specs.declared.type_ref.Row.{Row};
ghost use Rattle.typing_rules.specs.Terms as terms;
ghost use Rattle.c_values.specs.Stand.{Makes, MeansTyped, MeansWritten, converted_value};

use crate::constants;
use crate::typed::{Typed, Written};
use c_typed::{Constant, Value, ValueNode};
use c_types::{TypeRef, Types};
use sqlite_items::Boxed;
use srmt_base::Ty;
use std::alloc::{AllocError, Global};

/// An operand as an integer of a type (C11 6.3.1).
pub fn converted(
    alloc: Global,
    types: &Types,
    to: Ty,
    operand: Written,
) -> Result<Typed, AllocError>
    ensures { (t : terms.Written) → MeansWritten types.now operand t → Makes types.now result (terms.converted to t) }
{
    let from = types.ty(operand.typed.value.get().ty);
    converted_from(alloc, from, to, operand)
}

/// An operand of an integer type as an integer of another.
pub(crate) fn converted_from(
    alloc: Global,
    from: Ty,
    to: Ty,
    operand: Written,
) -> Result<Typed, AllocError>
    ensures { (rows : List Row) (t : terms.Written) → MeansWritten rows operand t → from ≡ ty_of (terms.written_type t)
        → Makes rows result (terms.converted to t) }
{
    if from.code() == to.code() {
        Ok(operand.typed)
    } else {
        conversion(alloc, from, to, operand)
    }
}

/// A conversion of an operand from one integer type to another.
fn conversion(alloc: Global, from: Ty, to: Ty, operand: Written) -> Result<Typed, AllocError>
    ensures { (rows : List Row) (t : terms.Written) → MeansWritten rows operand t → from ≡ ty_of (terms.written_type t)
        → Makes rows result (converted_value to t) }
{
    let constant = constants::converted(from, to, operand.typed.constant);
    let value = Boxed::new(
        alloc,
        Value {
            line: operand.first,
            ty: TypeRef::Integer(to),
            node: ValueNode::Conversion(operand.first, operand.typed.value),
        },
    )?;
    Ok(Typed { value, constant })
}
