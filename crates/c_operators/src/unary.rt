ghost use Rattle.std.specs.Prelude.{List};
ghost use Rattle.srmt_base.specs.Types.{IsPromoted};
ghost use Rattle.c_types.specs.declared.type_ref.Row.{Row};
ghost use Rattle.typing_rules.specs.Terms as terms;
ghost use Rattle.typing_rules.specs.OrderedParts as ordered;
ghost use Rattle.c_values.specs.Stand.{Makes, negation_value};
ghost use Rattle.c_values.specs.Answers.{Answers, MeansTerm, OverTyped, OverWritten};

use c_typed::ValueNode;
use c_types::{TypeRef, Types};
use c_values::{
    Term, Typed, Written, constants, converted, make, pointed_term, promoted_value, result_of,
};
use srmt_base::Ty;
use std::alloc::{AllocError, Global};
use typing_rules::TypeRefusal;

/// `*` (C11 6.5.3.2).
pub fn indirect(alloc: Global, types: &Types, line: u32, a: Written) -> Result<Term, TypeRefusal>
    ensures { OverWritten types.now a (λ w. Answers (MeansTerm types.now) result (ordered.indirect line w)) }
{
    match types.indirection_type(a.typed.value.get().ty) {
        Err(rule) => Err(TypeRefusal::Mismatch(line, rule)),
        Ok(to) => pointed_term(alloc, types, line, a.typed, to),
    }
}

/// `!` (C11 6.5.3.3p5).
pub fn opposite(alloc: Global, types: &Types, line: u32, a: Written) -> Result<Term, TypeRefusal>
    ensures { OverWritten types.now a (λ w. Answers (MeansTerm types.now) result (ordered.opposite line w)) }
{
    if types.is_scalar(a.typed.value.get().ty) {
        result_of(negated(alloc, types, line, a))
    } else {
        Err(TypeRefusal::Mismatch(line, 5))
    }
}

/// `+` before an operand (C11 6.5.3.3p2).
pub fn promoted(alloc: Global, types: &Types, line: u32, a: Written) -> Result<Term, TypeRefusal>
    ensures { OverWritten types.now a (λ w. Answers (MeansTerm types.now) result (ordered.promoted line w)) }
{
    match types.unary_type(a.typed.value.get().ty) {
        Err(rule) => Err(TypeRefusal::Mismatch(line, rule)),
        Ok(ty) => result_of(converted(alloc, types, ty, a)),
    }
}

/// `-` before an operand (C11 6.5.3.3p3).
pub fn negative(alloc: Global, types: &Types, line: u32, a: Written) -> Result<Term, TypeRefusal>
    ensures { OverWritten types.now a (λ w. Answers (MeansTerm types.now) result (ordered.negative line w)) }
{
    match types.unary_type(a.typed.value.get().ty) {
        Err(rule) => Err(TypeRefusal::Mismatch(line, rule)),
        Ok(ty) => result_of(minus(alloc, types, line, ty, a)),
    }
}

/// `~` (C11 6.5.3.3p4).
pub fn complemented(
    alloc: Global,
    types: &Types,
    line: u32,
    a: Written,
) -> Result<Term, TypeRefusal>
    ensures { OverWritten types.now a (λ w. Answers (MeansTerm types.now) result (ordered.complemented line w)) }
{
    match types.unary_type(a.typed.value.get().ty) {
        Err(rule) => Err(TypeRefusal::Mismatch(line, rule)),
        Ok(ty) => result_of(complement(alloc, types, line, ty, a)),
    }
}

/// `!` of an operand of a scalar type.
fn negated(alloc: Global, types: &Types, line: u32, a: Written) -> Result<Typed, AllocError>
    ensures { OverWritten types.now a (λ w. Makes types.now result (terms.negated_value line w)) }
{
    if types.is_integer(a.typed.value.get().ty) {
        negation_of_integer(alloc, types, line, a)
    } else {
        negation(alloc, line, a.typed)
    }
}

/// `!` of an integer, which is promoted.
fn negation_of_integer(
    alloc: Global,
    types: &Types,
    line: u32,
    a: Written,
) -> Result<Typed, AllocError>
    ensures { OverWritten types.now a (λ w. Makes types.now result (negation_value line (terms.promoted_value w))) }
{
    let a = promoted_value(alloc, types, a)?;
    negation(alloc, line, a)
}

/// `!` of a value.
fn negation(alloc: Global, line: u32, a: Typed) -> Result<Typed, AllocError>
    ensures { (rows : List Row) → OverTyped rows a (λ v. Makes rows result (negation_value line v)) }
{
    let constant = constants::opposite(a.constant);
    let node = ValueNode::Negation(a.value);
    make(alloc, line, TypeRef::Integer(Ty::Int), node, constant)
}

/// `-` of an operand that is converted to a promoted type.
fn minus(alloc: Global, types: &Types, line: u32, ty: Ty, a: Written) -> Result<Typed, AllocError>
    requires { IsPromoted ty }
    ensures { OverWritten types.now a (λ w. Makes types.now result (terms.minus_value line ty w)) }
{
    let a = converted(alloc, types, ty, a)?;
    let constant = constants::minus(ty, a.constant);
    let node = ValueNode::Minus(a.value);
    make(alloc, line, TypeRef::Integer(ty), node, constant)
}

/// `~` of an operand that is converted to a promoted type.
fn complement(
    alloc: Global,
    types: &Types,
    line: u32,
    ty: Ty,
    a: Written,
) -> Result<Typed, AllocError>
    ensures { OverWritten types.now a (λ w. Makes types.now result (terms.complement_value line ty w)) }
{
    let a = converted(alloc, types, ty, a)?;
    let constant = constants::complement(a.constant);
    let node = ValueNode::Complement(a.value);
    make(alloc, line, TypeRef::Integer(ty), node, constant)
}
