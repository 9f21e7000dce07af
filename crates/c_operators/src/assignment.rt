ghost use Rattle.std.specs.Prelude.{◌≡◌};
ghost use Rattle.c_types.specs.Types.{CType};
ghost use Rattle.c_types.specs.Table.{Stands};
ghost use Rattle.typing_rules.specs.Terms as terms;
ghost use Rattle.typing_rules.specs.OrderedParts as ordered;
ghost use Rattle.c_values.specs.Stand.{WrittenOne, Makes, MeansTyped, MeansWritten};
ghost use Rattle.c_values.specs.Answers.{Answers, MeansTerm, OverTarget, MeansTarget, OverPlace, OverWritten, change_view, value_for};

use crate::change::change_by;
use c_typed::{Constant, Place, ValueNode};
use c_types::{Conversion, TypeRef, Types};
use c_values::{
    Change, Target, Term, Typed, Written, converted_by, make, operand_of, or_memory, result_of,
};
use sqlite_items::Boxed;
use std::alloc::{AllocError, Global};
use typing_rules::TypeRefusal;

/// `=` (C11 6.5.16.1).
pub fn assigned(
    alloc: Global,
    types: &Types,
    line: u32,
    at: u32,
    target: Target,
    a: Written,
) -> Result<Term, TypeRefusal>
    ensures { OverTarget types.now target a (λ t w. Answers (MeansTerm types.now) result (ordered.assigned line at t w)) }
{
    let may_change = may_change(types, &target);
    match types.assignment_form(may_change, target.ty, operand_of(types, &a.typed)) {
        Err(rule) => Err(TypeRefusal::Mismatch(at, rule)),
        Ok(form) => match target.place {
            None => Err(TypeRefusal::Mismatch(at, 7)),
            Some(place) => result_of(assignment(alloc, types, line, form, place, a)),
        },
    }
}

/// `op=`, `++`, `--` (C11 6.5.16.2, 6.5.3.1, 6.5.2.4).
pub fn changed(
    alloc: Global,
    types: &Types,
    line: u32,
    change: Change,
    target: Target,
    a: Written,
) -> Result<Term, TypeRefusal>
    ensures { OverTarget types.now target a (λ t w. Answers (MeansTerm types.now) result (ordered.changed line (change_view change) t w)) }
{
    let may_change = may_change(types, &target);
    match types.update_form(change.op, may_change, target.ty, a.typed.value.get().ty) {
        Err(rule) => Err(TypeRefusal::Mismatch(change.at, rule)),
        Ok(form) => match target.place {
            None => Err(TypeRefusal::Mismatch(change.at, 7)),
            Some(place) => result_of(change_by(alloc, types, line, change, form, place, a)),
        },
    }
}

/// Whether the left side is a modifiable lvalue (C11 6.3.2.1p1).
fn may_change(types: &Types, target: &Target) -> bool
    ensures { (t : terms.Target) → MeansTarget types.now target.now t → result ≡ terms.may_change t }
{
    match &target.place {
        None => false,
        Some(place) => types.is_modifiable(place.get().ty),
    }
}

/// `=` in a form.
fn assignment(
    alloc: Global,
    types: &Types,
    line: u32,
    form: Conversion,
    place: Boxed<Place>,
    a: Written,
) -> Result<Typed, AllocError>
    ensures { OverPlace types.now place (λ p. OverWritten types.now a (λ w. Makes types.now result (terms.assigned_value line form p w))) }
{
    let ty = place.get().ty.target;
    let a = converted_by(alloc, types, form, ty, a)?;
    let node = ValueNode::Assignment(place, a.value);
    make(alloc, line, ty, node, Constant::NoForm)
}
