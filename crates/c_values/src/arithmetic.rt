ghost use Rattle.std.specs.Prelude.{◌≡◌, List, IfOk};
ghost use Rattle.srmt_base.specs.Types.{IsPromoted};
ghost use Rattle.c_types.specs.Types.{CType, integer, ty_of};
ghost use Rattle.c_types.specs.Table.{Stands};
ghost use Rattle.c_types.specs.declared.type_ref.Row.{Row};
ghost use Rattle.c_typed.specs.Typed as tree;
ghost use Rattle.typing_rules.specs.Terms as terms;
ghost use Rattle.c_values.specs.Stand.{TypedTwo, Makes, MeansTyped, MeansWritten};

use crate::constants;
use crate::made::make;
use crate::typed::Typed;
use c_typed::{Constant, ValueNode};
use c_types::TypeRef;
use srmt_base::{Op, Ty};
use std::alloc::{AllocError, Global};

/// An operator on two integers of a type, with its line, and the type of what it gives.
pub(crate) fn arithmetic(
    alloc: Global,
    line: u32,
    ty: TypeRef,
    op: Op,
    at: u32,
    computes: Ty,
    a: Typed,
    b: Typed,
) -> Result<Typed, AllocError>
    requires { IsPromoted computes }
    ensures { (rows : List Row) → TypedTwo rows ty a b (λ t v w. ty_of (tree.type_of v) ≡ computes
        → Makes rows result (tree.value line t (tree.arithmetic op at v w))) }
{
    let constant = constants::computed(op, computes, a.constant, b.constant);
    make(
        alloc,
        line,
        ty,
        ValueNode::Arithmetic(op, at, a.value, b.value),
        constant,
    )
}

/// A pointer and an integer, added or subtracted, of which the pointer stands first or second (C11 6.5.6p8).
pub(crate) fn sum(
    alloc: Global,
    line: u32,
    ty: TypeRef,
    at: u32,
    is_less: bool,
    pointer_first: bool,
    a: Typed,
    b: Typed,
) -> Result<Typed, AllocError>
    ensures { (rows : List Row) → TypedTwo rows ty a b (λ t v w. Makes rows result (tree.value line t (tree.sum at is_less pointer_first v w))) }
{
    let node = ValueNode::Sum(at, is_less, pointer_first, a.value, b.value);
    make(alloc, line, ty, node, Constant::NoForm)
}

/// Two pointers subtracted (C11 6.5.6p9).
pub(crate) fn difference(
    alloc: Global,
    line: u32,
    ty: TypeRef,
    at: u32,
    a: Typed,
    b: Typed,
) -> Result<Typed, AllocError>
    ensures { (rows : List Row) → TypedTwo rows ty a b (λ t v w. Makes rows result (tree.value line t (tree.difference at v w))) }
{
    make(
        alloc,
        line,
        ty,
        ValueNode::Difference(at, a.value, b.value),
        Constant::NoForm,
    )
}

/// Two pointers compared (C11 6.5.8, 6.5.9).
pub(crate) fn comparison(
    alloc: Global,
    line: u32,
    ty: TypeRef,
    op: Op,
    at: u32,
    a: Typed,
    b: Typed,
) -> Result<Typed, AllocError>
    ensures { (rows : List Row) → TypedTwo rows ty a b (λ t v w. Makes rows result (tree.value line t (tree.comparison op at v w))) }
{
    make(
        alloc,
        line,
        ty,
        ValueNode::Comparison(op, at, a.value, b.value),
        Constant::NoForm,
    )
}
