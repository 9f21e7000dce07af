ghost use Rattle.std.specs.Prelude.{List};
ghost use Rattle.c_types.specs.Table.{Extends, Stands};
ghost use Rattle.c_types.specs.declared.type_ref.Row.{Row};
ghost use Rattle.typing_rules.specs.Terms as terms;
ghost use Rattle.typing_rules.specs.OrderedParts as ordered;
ghost use Rattle.c_values.specs.Stand.{MeansTyped, MeansWritten};
ghost use Rattle.c_values.specs.Answers.{Answers, MeansTerm, MeansTarget, OverTerm, OverPlace, OverDesignator, address_term, written_value};

use crate::made::{make, or_memory, result_of};
use crate::place::{address_of_place, designated, value_at, value_type};
use crate::typed::{Designated, Target, Term, Typed, Written};
use c_typed::{Constant, Place, ValueNode};
use c_types::{TypeRef, Types};
use sqlite_items::Boxed;
use std::alloc::Global;
use typing_rules::TypeRefusal;

/// The value of an operand: an lvalue is read, an array and a function decay (C11 6.3.2.1).
pub fn valued(alloc: Global, types: &mut Types, term: Term) -> Result<Typed, TypeRefusal>
    ensures kept { Extends types.old types.new }
    ensures value { OverTerm types.old term (λ t. Answers (MeansTyped types.new) result (ordered.valued t)) }
{
    match term {
        Term::Object(place) => or_memory(value_at(alloc, types, place)),
        Term::Result(value) => Ok(value),
        Term::Designator(line, of, ty) => designated(alloc, types, line, of, ty),
    }
}

/// The same with the line of the operand's first token as it is written, parentheses counted.
pub fn written(
    alloc: Global,
    types: &mut Types,
    first: u32,
    term: Term,
) -> Result<Written, TypeRefusal>
    ensures kept { Extends types.old types.new }
    ensures value { OverTerm types.old term (λ t. Answers (MeansWritten types.new) result (written_value first t)) }
{
    let typed = valued(alloc, types, term)?;
    Ok(Written { first, typed })
}

/// `&` (C11 6.5.3.2). What is known of a local whose address is taken does not change here.
pub fn address(alloc: Global, types: &mut Types, line: u32, term: Term) -> Result<Term, TypeRefusal>
    ensures kept { Extends types.old types.new }
    ensures value { OverTerm types.old term (λ t. Answers (MeansTerm types.new) result (address_term line t)) }
{
    match term {
        Term::Object(place) => result_of(address_of_place(alloc, types, line, place)),
        Term::Result(_) => Err(TypeRefusal::Mismatch(line, 9)),
        Term::Designator(first, of, ty) => address_of_function(alloc, types, line, first, of, ty),
    }
}

/// The left side of an assignment, or the operand of `++ --`.
pub fn target_of(alloc: Global, types: &mut Types, term: Term) -> Result<Target, TypeRefusal>
    ensures kept { Extends types.old types.new }
    ensures value { OverTerm types.old term (λ t. Answers (MeansTarget types.new) result (ordered.target_of t)) }
{
    match term {
        Term::Object(place) => object_target(types, place),
        Term::Result(value) => Ok(Target {
            ty: value.value.get().ty,
            place: None,
        }),
        Term::Designator(line, of, ty) => function_target(alloc, types, line, of, ty),
    }
}

/// The type of an operand of `sizeof`, which is not evaluated and does not decay (C11 6.5.3.4).
pub fn unvalued(term: &Term) -> Result<TypeRef, TypeRefusal>
    ensures { (rows : List Row) → OverTerm rows term.now (λ t. Answers (Stands rows) result (ordered.unvalued t)) }
{
    match term {
        Term::Object(place) => Ok(place.get().ty.target),
        Term::Result(value) => Ok(value.value.get().ty),
        Term::Designator(_, Designated::Entity(..), ty) => Ok(*ty),
        Term::Designator(line, Designated::Predeclared(_), _) => {
            Err(TypeRefusal::Mismatch(*line, 20))
        }
        Term::Designator(_, Designated::Through(_), ty) => Ok(*ty),
    }
}

/// What is called (C11 6.5.2.2p1): a function by its name, or the one that a value points to.
pub fn called(alloc: Global, types: &mut Types, term: Term) -> Result<Term, TypeRefusal>
    ensures kept { Extends types.old types.new }
    ensures value { OverTerm types.old term (λ t. Answers (MeansTerm types.new) result (ordered.called t)) }
{
    match term {
        Term::Object(place) => result_of(value_at(alloc, types, place)),
        Term::Result(value) => Ok(Term::Result(value)),
        Term::Designator(line, of, ty) => called_function(line, of, ty),
    }
}

/// A function that is called by its name, or the one that a value points to.
fn called_function(line: u32, of: Designated, ty: TypeRef) -> Result<Term, TypeRefusal>
    ensures { (rows : List Row) → OverDesignator rows of ty (λ d t. Answers (MeansTerm rows) result (ordered.called (terms.designator line d t))) }
{
    match of {
        Designated::Entity(_, true) => Err(TypeRefusal::Mismatch(line, 20)),
        Designated::Entity(number, false) => {
            let of = Designated::Entity(number, false);
            Ok(Term::Designator(line, of, ty))
        }
        Designated::Predeclared(function) => {
            let of = Designated::Predeclared(function);
            Ok(Term::Designator(line, of, ty))
        }
        Designated::Through(pointer) => Ok(Term::Result(pointer)),
    }
}

/// A place as the left side of an assignment, with the type of what it holds.
fn object_target(types: &mut Types, place: Boxed<Place>) -> Result<Target, TypeRefusal>
    ensures kept { Extends types.old types.new }
    ensures value { OverPlace types.old place (λ p. Answers (MeansTarget types.new) result (ordered.target_of (terms.object p))) }
{
    let ty = or_memory(value_type(types, place.get().ty.target))?;
    let place = Some(place);
    Ok(Target { ty, place })
}

/// A function as the left side of an assignment.
fn function_target(
    alloc: Global,
    types: &mut Types,
    line: u32,
    of: Designated,
    ty: TypeRef,
) -> Result<Target, TypeRefusal>
    ensures kept { Extends types.old types.new }
    ensures value { OverDesignator types.old of ty (λ d t. Answers (MeansTarget types.new) result (ordered.target_of (terms.designator line d t))) }
{
    let value = designated(alloc, types, line, of, ty)?;
    let ty = value.value.get().ty;
    Ok(Target { ty, place: None })
}

/// `&` of a function: the pointer to which it decays.
fn address_of_function(
    alloc: Global,
    types: &mut Types,
    line: u32,
    first: u32,
    of: Designated,
    ty: TypeRef,
) -> Result<Term, TypeRefusal>
    ensures kept { Extends types.old types.new }
    ensures value { OverDesignator types.old of ty (λ d t. Answers (MeansTerm types.new) result (address_term line (terms.designator first d t))) }
{
    let pointer = designated(alloc, types, first, of, ty)?;
    let ty = pointer.value.get().ty;
    result_of(make(
        alloc,
        line,
        ty,
        ValueNode::Requalified(pointer.value),
        Constant::NoForm,
    ))
}
