ghost use Rattle.std.specs.Prelude.{◌≡◌, List, IfOk, true, false};
ghost use Rattle.srmt_base.specs.Types.{IsPromoted};
ghost use Rattle.c_types.specs.Types.{CType};
ghost use Rattle.c_types.specs.Rules.{binary_type, IsPromotedForm, computed_type as type_computed};
ghost use Rattle.c_types.specs.Table.{Stands};
ghost use Rattle.c_types.specs.declared.type_ref.Row.{Row};
ghost use Rattle.c_typed.specs.Typed as tree;
ghost use Rattle.typing_rules.specs.Terms as terms;
ghost use Rattle.c_values.specs.Stand.{integers_value, shift_value, Makes, MeansTyped, MeansWritten};
ghost use Rattle.c_values.specs.Stand.{TypedTwo, WrittenTwo, TypedAndWritten, WrittenAndTyped, Operands};

use crate::arithmetic::{arithmetic, comparison, difference, sum};
use crate::assign::{null_of, promoted_value};
use crate::convert::converted;
use crate::typed::{Typed, Written};
use c_types::{BinaryForm, TypeRef, Types};
use srmt_base::{Op, Ty};
use std::alloc::{AllocError, Global};

/// The type of what an operator computes in a form.
fn computed_type(form: BinaryForm, a: TypeRef, b: TypeRef) -> TypeRef
    ensures { (rows : List Row) (t u : CType) → Stands rows a t → Stands rows b u → Stands rows result (type_computed form t u) }
{
    match form {
        BinaryForm::Integers(ty) => TypeRef::Integer(ty),
        BinaryForm::Shift(ty) => TypeRef::Integer(ty),
        BinaryForm::PointerAndInteger => a,
        BinaryForm::IntegerAndPointer => b,
        BinaryForm::Pointers => TypeRef::Integer(Ty::Int),
        BinaryForm::PointerAndNull => TypeRef::Integer(Ty::Int),
        BinaryForm::NullAndPointer => TypeRef::Integer(Ty::Int),
    }
}

/// The type of the result of an operator in a form.
pub fn result_type(op: Op, form: BinaryForm, a: TypeRef, b: TypeRef) -> TypeRef
    ensures { (rows : List Row) (t u : CType) → Stands rows a t → Stands rows b u → Stands rows result (binary_type op form t u) }
{
    if op.is_comparison() {
        TypeRef::Integer(Ty::Int)
    } else {
        computed_type(form, a, b)
    }
}

/// An operator on two operands that are converted to an integer type.
fn integers(
    alloc: Global,
    types: &Types,
    line: u32,
    ty: TypeRef,
    op: Op,
    at: u32,
    computes: Ty,
    a: Written,
    b: Written,
) -> Result<Typed, AllocError>
    requires { IsPromoted computes }
    ensures { WrittenTwo types.now ty a b (λ t v w. Makes types.now result (integers_value line t op at computes v w)) }
{
    let a = converted(alloc, types, computes, a)?;
    let b = converted(alloc, types, computes, b)?;
    arithmetic(alloc, line, ty, op, at, computes, a, b)
}

/// A shift of an operand that is promoted, by another one that is.
fn shift(
    alloc: Global,
    types: &Types,
    line: u32,
    ty: TypeRef,
    op: Op,
    at: u32,
    computes: Ty,
    a: Written,
    b: Written,
) -> Result<Typed, AllocError>
    requires { IsPromoted computes }
    ensures { WrittenTwo types.now ty a b (λ t v w. Makes types.now result (shift_value line t op at computes v w)) }
{
    let a = converted(alloc, types, computes, a)?;
    let b = promoted_value(alloc, types, b)?;
    arithmetic(alloc, line, ty, op, at, computes, a, b)
}

/// A pointer on the left, and an integer that is promoted.
fn pointer_and_integer(
    alloc: Global,
    types: &Types,
    line: u32,
    ty: TypeRef,
    at: u32,
    is_less: bool,
    a: Typed,
    b: Written,
) -> Result<Typed, AllocError>
    ensures { TypedAndWritten types.now ty a b (λ t v w. Makes types.now result (tree.value line t (tree.sum at is_less true v (terms.promoted_value w)))) }
{
    let b = promoted_value(alloc, types, b)?;
    sum(alloc, line, ty, at, is_less, true, a, b)
}

/// An integer that is promoted, and a pointer on the right.
fn integer_and_pointer(
    alloc: Global,
    types: &Types,
    line: u32,
    ty: TypeRef,
    at: u32,
    a: Written,
    b: Typed,
) -> Result<Typed, AllocError>
    ensures { WrittenAndTyped types.now ty a b (λ t v w. Makes types.now result (tree.value line t (tree.sum at false false (terms.promoted_value v) w))) }
{
    let a = promoted_value(alloc, types, a)?;
    sum(alloc, line, ty, at, false, false, a, b)
}

/// Two pointers, compared or subtracted.
fn pointers(
    alloc: Global,
    line: u32,
    ty: TypeRef,
    op: Op,
    at: u32,
    a: Typed,
    b: Typed,
) -> Result<Typed, AllocError>
    ensures { (rows : List Row) → TypedTwo rows ty a b (λ t v w. Makes rows result (tree.value line t (terms.pointers_node op at v w))) }
{
    if op.is_comparison() {
        comparison(alloc, line, ty, op, at, a, b)
    } else {
        difference(alloc, line, ty, at, a, b)
    }
}

/// A pointer, and a null pointer constant that becomes one of its type.
fn pointer_and_null(
    alloc: Global,
    types: &Types,
    line: u32,
    ty: TypeRef,
    op: Op,
    at: u32,
    a: Typed,
    b: Typed,
) -> Result<Typed, AllocError>
    ensures { TypedTwo types.now ty a b (λ t v w. Makes types.now result (tree.value line t (terms.pointers_node op at v (terms.null_of (tree.type_of v) w)))) }
{
    let b = null_of(alloc, types, a.value.get().ty, b)?;
    pointers(alloc, line, ty, op, at, a, b)
}

/// A null pointer constant that becomes a pointer of the other's type, and this pointer.
fn null_and_pointer(
    alloc: Global,
    types: &Types,
    line: u32,
    ty: TypeRef,
    op: Op,
    at: u32,
    a: Typed,
    b: Typed,
) -> Result<Typed, AllocError>
    ensures { TypedTwo types.now ty a b (λ t v w. Makes types.now result (tree.value line t (terms.pointers_node op at (terms.null_of (tree.type_of w) v) w))) }
{
    let a = null_of(alloc, types, b.value.get().ty, a)?;
    pointers(alloc, line, ty, op, at, a, b)
}

/// Whether an operator is `-`.
pub fn is_difference(op: Op) -> bool
    ensures { result ≡ terms.is_difference op }
{
    match op {
        Op::Sub => true,
        Op::Add | Op::Mul | Op::Div | Op::Rem | Op::Shl | Op::Shr => false,
        Op::And | Op::Or | Op::Xor => false,
        Op::Lt | Op::Gt | Op::Le | Op::Ge | Op::Eq | Op::Ne => false,
    }
}

/// What an operator computes in a form, with its line.
pub fn binary_value(
    alloc: Global,
    types: &Types,
    line: u32,
    op: Op,
    at: u32,
    form: BinaryForm,
    a: Written,
    b: Written,
) -> Result<Typed, AllocError>
    requires { IsPromotedForm form }
    ensures { Operands types.now a b (λ v w. Makes types.now result (terms.binary_value line op at form v w)) }
{
    let ty = result_type(op, form, a.typed.value.get().ty, b.typed.value.get().ty);
    match form {
        BinaryForm::Integers(computes) => integers(alloc, types, line, ty, op, at, computes, a, b),
        BinaryForm::Shift(computes) => shift(alloc, types, line, ty, op, at, computes, a, b),
        BinaryForm::PointerAndInteger => {
            pointer_and_integer(alloc, types, line, ty, at, is_difference(op), a.typed, b)
        }
        BinaryForm::IntegerAndPointer => {
            integer_and_pointer(alloc, types, line, ty, at, a, b.typed)
        }
        BinaryForm::Pointers => pointers(alloc, line, ty, op, at, a.typed, b.typed),
        BinaryForm::PointerAndNull => {
            pointer_and_null(alloc, types, line, ty, op, at, a.typed, b.typed)
        }
        BinaryForm::NullAndPointer => {
            null_and_pointer(alloc, types, line, ty, op, at, a.typed, b.typed)
        }
    }
}
