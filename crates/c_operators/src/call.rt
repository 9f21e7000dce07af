ghost use Rattle.std.specs.Prelude.{ℕ, List, Bool as Test, IfOk};
ghost use Rattle.c_types.specs.Rules.{callee_type as callee_rule};
ghost use Rattle.c_types.specs.Types.{CType, result_of};
ghost use Rattle.c_types.specs.Table.{Stands};
ghost use Rattle.c_types.specs.declared.type_ref.Row.{Row};
ghost use Rattle.c_typed.specs.Typed as tree;
ghost use Rattle.typing_rules.specs.Terms as terms;
ghost use Rattle.typing_rules.specs.Checking.{pure, ruled_by};
ghost use Rattle.typing_rules.specs.OrderedParts as ordered;
ghost use Rattle.c_values.specs.Stand.{Makes, MeansTyped, MeansValue};
ghost use Rattle.c_values.specs.Answers.{Answers, MeansTerm, MeanValues, OverCall, OverTyped, predeclared_view};

use crate::arguments::passed;
use c_typed::{Constant, Value, ValueNode};
use c_types::{TypeRef, Types};
use c_values::{Predeclared, Term, Typed, Written, make, number_value, result_of, value_of};
use sqlite_items::{Boxed, Items};
use srmt_base::Ty;
use std::alloc::{AllocError, Global};
use typing_rules::TypeRefusal;

/// The type of the function that a value points to (C11 6.5.2.2p1).
pub fn callee_type(types: &Types, at: u32, callee: &Typed) -> Result<TypeRef, TypeRefusal>
    ensures { OverTyped types.now callee.now (λ v. Answers (Stands types.now) result (ruled_by at (callee_rule (tree.type_of v)))) }
{
    match types.callee_type(callee.value.get().ty) {
        Err(rule) => Err(TypeRefusal::Mismatch(at, rule)),
        Ok(ty) => Ok(ty),
    }
}

/// As many arguments as parameters, each converted as by assignment (C11 6.5.2.2p2, p7).
pub fn arguments_for(
    alloc: Global,
    types: &Types,
    at: u32,
    ty: TypeRef,
    arguments: Vec<Written>,
) -> Result<Items<Boxed<Value>>, TypeRefusal>
    ensures { OverCall types.now ty arguments.items (λ t ws. Answers (MeanValues types.now) result (ordered.arguments_for at t ws)) }
{
    let arguments = Items::from_vec(arguments);
    if types.has_parameters(ty, arguments.len()) {
        passed(alloc, types, at, ty, Items::new(alloc), arguments)
    } else {
        Err(TypeRefusal::Mismatch(at, 11))
    }
}

/// A call of a function by its name (C11 6.5.2.2).
pub fn call_of_entity(
    alloc: Global,
    types: &Types,
    line: u32,
    at: u32,
    number: u32,
    ty: TypeRef,
    arguments: Vec<Written>,
) -> Result<Term, TypeRefusal>
    ensures { (first : ℕ) (is_main : Test) → OverCall types.now ty arguments.items (λ t ws.
        Answers (MeansTerm types.now) result (ordered.call_of line at (terms.designator first (terms.entity number is_main) t) ws)) }
{
    let arguments = arguments_for(alloc, types, at, ty, arguments)?;
    result_of(call(alloc, types, line, at, number, ty, arguments))
}

/// A call of a function that is declared outside of every file.
pub fn call_of_predeclared(
    alloc: Global,
    types: &Types,
    line: u32,
    at: u32,
    function: Predeclared,
    ty: TypeRef,
    arguments: Vec<Written>,
) -> Result<Term, TypeRefusal>
    ensures { (first : ℕ) → OverCall types.now ty arguments.items (λ t ws.
        Answers (MeansTerm types.now) result (ordered.call_of line at (terms.designator first (terms.predeclared (predeclared_view function)) t) ws)) }
{
    let arguments = arguments_for(alloc, types, at, ty, arguments)?;
    result_of(predeclared_call(alloc, types, line, at, function, ty, arguments))
}

/// A call of the function of a type that a value points to, whose arguments are converted.
pub fn call_through(
    alloc: Global,
    types: &Types,
    line: u32,
    at: u32,
    ty: TypeRef,
    callee: Typed,
    arguments: Items<Boxed<Value>>,
) -> Result<Term, TypeRefusal>
    ensures { (t : CType) (v : tree.Value) (vs : tree.Values) → Stands types.now ty t → MeansTyped types.now callee v → MeanValues types.now arguments vs
        → Answers (MeansTerm types.now) result (pure (terms.result (tree.value line (result_of t) (tree.call_through at v vs)))) }
{
    let to = types.result(ty);
    let node = ValueNode::CallThrough(at, callee.value, arguments);
    result_of(make(alloc, line, to, node, Constant::NoForm))
}

/// A call of a function of a type, by its number.
fn call(
    alloc: Global,
    types: &Types,
    line: u32,
    at: u32,
    number: u32,
    ty: TypeRef,
    arguments: Items<Boxed<Value>>,
) -> Result<Typed, AllocError>
    ensures { (t : CType) (vs : tree.Values) → Stands types.now ty t → MeanValues types.now arguments vs
        → Makes types.now result (tree.value line (result_of t) (tree.call at number vs)) }
{
    let to = types.result(ty);
    let node = ValueNode::Call(at, number, arguments);
    make(alloc, line, to, node, Constant::NoForm)
}

/// A call of a predeclared function of a type.
fn predeclared_call(
    alloc: Global,
    types: &Types,
    line: u32,
    at: u32,
    function: Predeclared,
    ty: TypeRef,
    arguments: Items<Boxed<Value>>,
) -> Result<Typed, AllocError>
    ensures { (t : CType) (vs : tree.Values) → Stands types.now ty t → MeanValues types.now arguments vs
        → Makes types.now result (tree.value line (result_of t) (terms.predeclared_node (predeclared_view function) at vs)) }
{
    let to = types.result(ty);
    match function {
        Predeclared::Putchar => putchar(alloc, line, at, to, arguments),
        Predeclared::Getchar => make(alloc, line, to, ValueNode::Getchar(at), Constant::NoForm),
        Predeclared::Exit => exit(alloc, line, at, to, arguments),
    }
}

/// A call of `putchar` (C11 7.21.7.8).
fn putchar(
    alloc: Global,
    line: u32,
    at: u32,
    ty: TypeRef,
    arguments: Items<Boxed<Value>>,
) -> Result<Typed, AllocError>
    ensures { (rows : List Row) (t : CType) (vs : tree.Values) → Stands rows ty t → MeanValues rows arguments vs
        → Makes rows result (tree.value line t (tree.putchar at (terms.first_argument at vs))) }
{
    let argument = first_argument(alloc, at, arguments)?;
    let node = ValueNode::Putchar(at, argument);
    make(alloc, line, ty, node, Constant::NoForm)
}

/// A call of `exit` (C11 7.22.4.4).
fn exit(
    alloc: Global,
    line: u32,
    at: u32,
    ty: TypeRef,
    arguments: Items<Boxed<Value>>,
) -> Result<Typed, AllocError>
    ensures { (rows : List Row) (t : CType) (vs : tree.Values) → Stands rows ty t → MeanValues rows arguments vs
        → Makes rows result (tree.value line t (tree.exit at (terms.first_argument at vs))) }
{
    let argument = first_argument(alloc, at, arguments)?;
    let node = ValueNode::Exit(at, argument);
    make(alloc, line, ty, node, Constant::NoForm)
}

/// The first argument, or 0 where there is none.
fn first_argument(
    alloc: Global,
    at: u32,
    arguments: Items<Boxed<Value>>,
) -> Result<Boxed<Value>, AllocError>
    ensures { (rows : List Row) (vs : tree.Values) → MeanValues rows arguments vs → IfOk result (λ r. MeansValue rows r (terms.first_argument at vs)) }
{
    let mut arguments = arguments;
    if arguments.is_empty() {
        let zero = number_value(alloc, at, Ty::Int, 0)?;
        Ok(value_of(zero))
    } else {
        Ok(arguments.remove(0))
    }
}
