ghost use Rattle.std.specs.Prelude.{List};
ghost use Rattle.c_types.specs.declared.type_ref.Row.{Row};
ghost use Rattle.typing_rules.specs.Terms as terms;
ghost use Rattle.c_values.specs.Stand.{Makes, MeansTyped, MeansWritten};
ghost use Rattle.c_values.specs.Answers.{OverPlace, OverTyped, OverWritten, change_view, updated_value, moved_value};

use c_typed::{Constant, IntegerChange, Place, PointerChange, ValueNode};
use c_types::{BinaryForm, Types};
use c_values::{Change, Typed, Written, converted, is_difference, make, promoted_value};
use sqlite_items::Boxed;
use srmt_base::Ty;
use std::alloc::{AllocError, Global};

/// An integer that changes, at a type, by a value.
fn updated(
    alloc: Global,
    line: u32,
    change: Change,
    ty: Ty,
    place: Boxed<Place>,
    by: Typed,
) -> Result<Typed, AllocError>
    ensures { (rows : List Row) → OverPlace rows place (λ p. OverTyped rows by (λ v.
        Makes rows result (updated_value line (change_view change) ty p v))) }
{
    let to = place.get().ty.target;
    let how = IntegerChange {
        is_after: change.is_after,
        first: change.first,
        op: change.op,
        at: change.at,
        ty,
    };
    let node = ValueNode::Update(how, place, by.value);
    make(alloc, line, to, node, Constant::NoForm)
}

/// A pointer that changes by a value.
fn moved(
    alloc: Global,
    line: u32,
    change: Change,
    place: Boxed<Place>,
    by: Typed,
) -> Result<Typed, AllocError>
    ensures { (rows : List Row) → OverPlace rows place (λ p. OverTyped rows by (λ v.
        Makes rows result (moved_value line (change_view change) p v))) }
{
    let to = place.get().ty.target;
    let how = PointerChange {
        is_after: change.is_after,
        is_less: is_difference(change.op),
        at: change.at,
    };
    let node = ValueNode::Move(how, place, by.value);
    make(alloc, line, to, node, Constant::NoForm)
}

/// An integer that changes by an operand that is converted to a type.
fn updated_by_converted(
    alloc: Global,
    types: &Types,
    line: u32,
    change: Change,
    ty: Ty,
    place: Boxed<Place>,
    by: Written,
) -> Result<Typed, AllocError>
    ensures { OverPlace types.now place (λ p. OverWritten types.now by (λ w.
        Makes types.now result (updated_value line (change_view change) ty p (terms.converted ty w)))) }
{
    let by = converted(alloc, types, ty, by)?;
    updated(alloc, line, change, ty, place, by)
}

/// An integer that is shifted by an operand that is promoted.
fn updated_by_promoted(
    alloc: Global,
    types: &Types,
    line: u32,
    change: Change,
    ty: Ty,
    place: Boxed<Place>,
    by: Written,
) -> Result<Typed, AllocError>
    ensures { OverPlace types.now place (λ p. OverWritten types.now by (λ w.
        Makes types.now result (updated_value line (change_view change) ty p (terms.promoted_value w)))) }
{
    let by = promoted_value(alloc, types, by)?;
    updated(alloc, line, change, ty, place, by)
}

/// A pointer that changes by an operand that is promoted.
fn moved_by_promoted(
    alloc: Global,
    types: &Types,
    line: u32,
    change: Change,
    place: Boxed<Place>,
    by: Written,
) -> Result<Typed, AllocError>
    ensures { OverPlace types.now place (λ p. OverWritten types.now by (λ w.
        Makes types.now result (moved_value line (change_view change) p (terms.promoted_value w)))) }
{
    let by = promoted_value(alloc, types, by)?;
    moved(alloc, line, change, place, by)
}

/// `p op= e`, `++p`, `p++` in a form.
pub(crate) fn change_by(
    alloc: Global,
    types: &Types,
    line: u32,
    change: Change,
    form: BinaryForm,
    place: Boxed<Place>,
    by: Written,
) -> Result<Typed, AllocError>
    ensures { OverPlace types.now place (λ p. OverWritten types.now by (λ w.
        Makes types.now result (terms.changed_value line (change_view change) form p w))) }
{
    match form {
        BinaryForm::Integers(ty) => {
            updated_by_converted(alloc, types, line, change, ty, place, by)
        }
        BinaryForm::Shift(ty) => updated_by_promoted(alloc, types, line, change, ty, place, by),
        BinaryForm::PointerAndInteger => {
            moved_by_promoted(alloc, types, line, change, place, by)
        }
        BinaryForm::IntegerAndPointer | BinaryForm::Pointers => {
            moved(alloc, line, change, place, by.typed)
        }
        BinaryForm::PointerAndNull | BinaryForm::NullAndPointer => {
            moved(alloc, line, change, place, by.typed)
        }
    }
}
