ghost use Rattle.c_types.specs.Table.{Stands};
ghost use Rattle.typing_rules.specs.Terms as terms;
ghost use Rattle.c_values.specs.Stand.{Makes};
ghost use Rattle.typing_rules.specs.OrderedParts as ordered;
ghost use Rattle.c_values.specs.Answers.{Answers, MeansTerm, OverWritten, OverType, OverQualified};

use c_typed::{Constant, ValueNode};
use c_types::{QualifiedRef, TypeRef, Types};
use c_values::{Term, Typed, Written, constants, make, number_term, result_of};
use srmt_base::Ty;
use std::alloc::{AllocError, Global};
use typing_rules::TypeRefusal;

/// A cast (C11 6.5.4).
pub fn cast_to(
    alloc: Global,
    types: &Types,
    line: u32,
    ty: QualifiedRef,
    a: Written,
) -> Result<Term, TypeRefusal>
    ensures { OverQualified types.now ty (λ q. OverWritten types.now a (λ w. Answers (MeansTerm types.now) result (ordered.cast_to line q w))) }
{
    match types.cast_rule(ty.target, a.typed.value.get().ty) {
        Err(rule) => Err(TypeRefusal::Mismatch(line, rule)),
        Ok(()) => result_of(cast(alloc, types, line, ty.target, a)),
    }
}

/// `sizeof` (C11 6.5.3.4).
pub fn sized(alloc: Global, types: &Types, line: u32, of: TypeRef) -> Result<Term, TypeRefusal>
    ensures { OverType types.now of (λ t. Answers (MeansTerm types.now) result (ordered.sized line t)) }
{
    if types.is_complete(of) {
        number_term(alloc, line, Ty::UInt, types.size(of).bytes)
    } else {
        Err(TypeRefusal::Mismatch(line, 13))
    }
}

/// A value converted to a type that a cast allows: `void` or an integer type.
fn cast(
    alloc: Global,
    types: &Types,
    line: u32,
    to: TypeRef,
    a: Written,
) -> Result<Typed, AllocError>
    ensures { OverType types.now to (λ t. OverWritten types.now a (λ w. Makes types.now result (terms.cast_value line t w))) }
{
    if types.is_void(to) {
        make(
            alloc,
            line,
            TypeRef::Void,
            ValueNode::Discarded(a.typed.value),
            Constant::NoForm,
        )
    } else {
        let from = types.ty(a.typed.value.get().ty);
        let constant = constants::converted(from, types.ty(to), a.typed.constant);
        let node = ValueNode::Conversion(a.first, a.typed.value);
        make(alloc, line, to, node, constant)
    }
}
