ghost use Rattle.std.specs.Prelude.{◌≡◌, true, false};
ghost use Rattle.c_types.specs.Types.{Qualified};
ghost use Rattle.c_types.specs.Rules.{element_of};
ghost use Rattle.c_types.specs.Table.{StandsFor, type_at};
ghost use Rattle.c_typed.specs.Typed as tree;
ghost use Rattle.typing_rules.specs.Terms as terms;
ghost use Rattle.typing_rules.specs.Checking.{pure};
ghost use Rattle.c_values.specs.Stand.{is_pointer_first as pointer_is_first, Operands, MeansTyped, MeansWritten};
ghost use Rattle.c_values.specs.Answers.{Answers, MeansTerm};

use c_typed::PlaceNode;
use c_types::{BinaryForm, QualifiedRef, TypeRef, Types};
use c_values::{Term, Typed, Written, object, or_memory, promoted_value};
use std::alloc::Global;
use typing_rules::TypeRefusal;

/// The element that an index names, by the types of both operands.
fn element_type(types: &Types, a: TypeRef, b: TypeRef) -> QualifiedRef
    ensures { StandsFor types.now result (element_of (type_at types.now a) (type_at types.now b)) }
{
    if types.is_pointer(a) {
        types.target(a)
    } else {
        types.target(b)
    }
}

/// `p[i]`, with the pointer first.
fn pointer_first(
    alloc: Global,
    types: &Types,
    line: u32,
    at: u32,
    ty: QualifiedRef,
    a: Typed,
    b: Written,
) -> Result<Term, TypeRefusal>
    ensures { (q : Qualified) (v : tree.Value) (w : terms.Written) → StandsFor types.now ty q → MeansTyped types.now a v → MeansWritten types.now b w
        → Answers (MeansTerm types.now) result (pure (terms.object (tree.place line q (tree.element at true v (terms.promoted_value w))))) }
{
    let b = or_memory(promoted_value(alloc, types, b))?;
    object(
        alloc,
        line,
        ty,
        PlaceNode::Element(at, true, a.value, b.value),
    )
}

/// `i[p]`, with the integer first.
fn integer_first(
    alloc: Global,
    types: &Types,
    line: u32,
    at: u32,
    ty: QualifiedRef,
    a: Written,
    b: Typed,
) -> Result<Term, TypeRefusal>
    ensures { (q : Qualified) (v : terms.Written) (w : tree.Value) → StandsFor types.now ty q → MeansWritten types.now a v → MeansTyped types.now b w
        → Answers (MeansTerm types.now) result (pure (terms.object (tree.place line q (tree.element at false (terms.promoted_value v) w)))) }
{
    let a = or_memory(promoted_value(alloc, types, a))?;
    object(
        alloc,
        line,
        ty,
        PlaceNode::Element(at, false, a.value, b.value),
    )
}

/// `a[i]`, whose integer is promoted (C11 6.5.2.1).
pub(crate) fn element(
    alloc: Global,
    types: &Types,
    line: u32,
    at: u32,
    form: BinaryForm,
    a: Written,
    b: Written,
) -> Result<Term, TypeRefusal>
    ensures { Operands types.now a b (λ v w. Answers (MeansTerm types.now) result (pure (terms.object (terms.element_place line at form v w)))) }
{
    let ty = element_type(types, a.typed.value.get().ty, b.typed.value.get().ty);
    if is_pointer_first(form) {
        pointer_first(alloc, types, line, at, ty, a.typed, b)
    } else {
        integer_first(alloc, types, line, at, ty, a, b.typed)
    }
}

/// Whether the pointer of an index stands first.
fn is_pointer_first(form: BinaryForm) -> bool
    ensures { result ≡ pointer_is_first form }
{
    match form {
        BinaryForm::PointerAndInteger => true,
        BinaryForm::Integers(_) | BinaryForm::Shift(_) | BinaryForm::IntegerAndPointer => false,
        BinaryForm::Pointers | BinaryForm::PointerAndNull | BinaryForm::NullAndPointer => false,
    }
}
