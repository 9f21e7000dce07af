ghost use Rattle.std.specs.Prelude.{◌≡◌, List, IfOk};
ghost use Rattle.c_types.specs.Types.{CType, with_both as both_qualifiers};
ghost use Rattle.c_types.specs.Rules.{choice_type as type_chosen};
ghost use Rattle.c_types.specs.declared.form.ChoiceForm.TheVariants as choice;
ghost use Rattle.c_types.specs.Table.{type_at, Extends, Stands};
ghost use Rattle.c_types.specs.declared.type_ref.Row.{Row};
ghost use Rattle.c_typed.specs.Typed as tree;
ghost use Rattle.typing_rules.specs.Terms as terms;
ghost use Rattle.c_values.specs.Stand.{Makes, MeansTyped, MeansWritten, WrittenOne};
ghost use Rattle.c_values.specs.Answers.{OverBranches};

use c_typed::ValueNode;
use c_types::{ChoiceForm, QualifiedRef, Qualifiers, TypeRef, Types};
use c_values::{Typed, Written, constants, converted, make, null_of, repointed};
use std::alloc::{AllocError, Global};

/// The qualifiers of both.
fn with_both(a: Qualifiers, b: Qualifiers) -> Qualifiers
    ensures { result ≡ both_qualifiers a b }
{
    Qualifiers {
        is_const: a.is_const || b.is_const,
        is_volatile: a.is_volatile || b.is_volatile,
    }
}

/// A pointer to what the first points to, with the qualifiers of both (C11 6.5.15p6).
fn common_pointer(types: &mut Types, a: TypeRef, b: TypeRef) -> Result<TypeRef, AllocError>
    ensures kept { Extends types.old types.new }
    ensures made { IfOk result (λ r. Stands types.new r (type_chosen choice.Pointers (type_at types.old a) (type_at types.old b))) }
{
    let first = types.target(a);
    let second = types.target(b);
    types.pointer_to(QualifiedRef {
        qualifiers: with_both(first.qualifiers, second.qualifiers),
        target: first.target,
    })
}

/// The type of the result, where the branches have these (C11 6.5.15p5, p6).
fn choice_type(
    types: &mut Types,
    form: ChoiceForm,
    a: TypeRef,
    b: TypeRef,
) -> Result<TypeRef, AllocError>
    ensures kept { Extends types.old types.new }
    ensures made { IfOk result (λ r. Stands types.new r (type_chosen form (type_at types.old a) (type_at types.old b))) }
{
    match form {
        ChoiceForm::Integers(ty) => Ok(TypeRef::Integer(ty)),
        ChoiceForm::Voids => Ok(TypeRef::Void),
        ChoiceForm::Pointers => common_pointer(types, a, b),
        ChoiceForm::PointerAndNull => Ok(types.standing(a)),
        ChoiceForm::NullAndPointer => Ok(types.standing(b)),
    }
}

/// A branch as one of the common type.
fn branch(
    alloc: Global,
    types: &Types,
    form: ChoiceForm,
    to: TypeRef,
    a: Written,
) -> Result<Typed, AllocError>
    ensures { WrittenOne types.now to a (λ t w. Makes types.now result (terms.branch form t w)) }
{
    match form {
        ChoiceForm::Integers(ty) => converted(alloc, types, ty, a),
        ChoiceForm::Voids => Ok(a.typed),
        ChoiceForm::Pointers => repointed(alloc, types, to, a.typed),
        ChoiceForm::PointerAndNull => Ok(a.typed),
        ChoiceForm::NullAndPointer => Ok(a.typed),
    }
}

/// The first branch as one of the common type.
fn first_branch(
    alloc: Global,
    types: &Types,
    form: ChoiceForm,
    to: TypeRef,
    a: Written,
) -> Result<Typed, AllocError>
    ensures { WrittenOne types.now to a (λ t w. Makes types.now result (terms.first_branch form t w)) }
{
    match form {
        ChoiceForm::NullAndPointer => null_of(alloc, types, to, a.typed),
        ChoiceForm::Integers(ty) => branch(alloc, types, ChoiceForm::Integers(ty), to, a),
        ChoiceForm::Voids => branch(alloc, types, ChoiceForm::Voids, to, a),
        ChoiceForm::Pointers => branch(alloc, types, ChoiceForm::Pointers, to, a),
        ChoiceForm::PointerAndNull => branch(alloc, types, ChoiceForm::PointerAndNull, to, a),
    }
}

/// The second branch as one of the common type.
fn second_branch(
    alloc: Global,
    types: &Types,
    form: ChoiceForm,
    to: TypeRef,
    a: Written,
) -> Result<Typed, AllocError>
    ensures { WrittenOne types.now to a (λ t w. Makes types.now result (terms.second_branch form t w)) }
{
    match form {
        ChoiceForm::PointerAndNull => null_of(alloc, types, to, a.typed),
        ChoiceForm::Integers(ty) => branch(alloc, types, ChoiceForm::Integers(ty), to, a),
        ChoiceForm::Voids => branch(alloc, types, ChoiceForm::Voids, to, a),
        ChoiceForm::Pointers => branch(alloc, types, ChoiceForm::Pointers, to, a),
        ChoiceForm::NullAndPointer => branch(alloc, types, ChoiceForm::NullAndPointer, to, a),
    }
}

/// `?:` of a condition and of two branches of a type.
fn choice(
    alloc: Global,
    line: u32,
    ty: TypeRef,
    test: Typed,
    a: Typed,
    b: Typed,
) -> Result<Typed, AllocError>
    ensures { (rows : List Row) (t : CType) (u v w : tree.Value) → Stands rows ty t → MeansTyped rows test u → MeansTyped rows a v → MeansTyped rows b w
        → Makes rows result (tree.value line t (tree.choice u v w)) }
{
    let constant = constants::chosen(test.constant, a.constant, b.constant);
    let node = ValueNode::Choice(test.value, a.value, b.value);
    make(alloc, line, ty, node, constant)
}

/// `?:` whose branches become ones of a type.
fn choice_at(
    alloc: Global,
    types: &Types,
    line: u32,
    ty: TypeRef,
    form: ChoiceForm,
    test: Typed,
    a: Written,
    b: Written,
) -> Result<Typed, AllocError>
    ensures { (t : CType) → Stands types.now ty t → OverBranches types.now test a b (λ u v w.
        Makes types.now result (tree.value line t (tree.choice u (terms.first_branch form t v) (terms.second_branch form t w)))) }
{
    let a = first_branch(alloc, types, form, ty, a)?;
    let b = second_branch(alloc, types, form, ty, b)?;
    choice(alloc, line, ty, test, a, b)
}

/// `?:` in a form.
pub(crate) fn choice_of(
    alloc: Global,
    types: &mut Types,
    line: u32,
    form: ChoiceForm,
    test: Typed,
    a: Written,
    b: Written,
) -> Result<Typed, AllocError>
    ensures kept { Extends types.old types.new }
    ensures value { OverBranches types.old test a b (λ u v w. Makes types.new result (terms.choice_value line form u v w)) }
{
    let ty = choice_type(types, form, a.typed.value.get().ty, b.typed.value.get().ty)?;
    choice_at(alloc, types, line, ty, form, test, a, b)
}
