ghost use Rattle.std.specs.Prelude.{◌≡◌, ◌<◌, ◌^◌, [], ◌∷◌, map, IfOk, OnOk};
ghost use Rattle.c_types.specs.declared.type_ref.TypeRef.{TypeRef as TypeRef'};
ghost use Rattle.c_types.specs.Types.{CType};
ghost use Rattle.c_typed.specs.Views.{place_node_view};
ghost use Rattle.c_scopes.specs.Scopes.{with_meaning};
ghost use Rattle.c_known.specs.Locals as rows;
ghost use Rattle.c_known.specs.Locals.{IsCount, changed_at, addressed, completed, row_in, names_from, DeclaresOne};

use crate::local::{Local, Meaning};
use c_scopes::Blocks;
use c_typed::{LocalRow, PlaceNode};
use c_types::{QualifiedRef, Types};
use sqlite_items::Items;
use std::alloc::{AllocError, Global};
use typing_rules::TypeRefusal;

/// A number of rows.
pub(crate) fn count(rows: usize) -> Result<u32, TypeRefusal>
    ensures { IsCount result rows }
{
    if rows <= u32::MAX as usize {
        Ok(rows as u32)
    } else {
        Err(TypeRefusal::Memory)
    }
}

/// The number of a local, if a place is one.
pub(crate) fn local_number(node: &PlaceNode) -> Option<u32>
    ensures { (types : TypeRef' → CType) → result ≡ rows.local_number (place_node_view types node.now) }
{
    match node {
        PlaceNode::Local(number) => Some(*number),
        PlaceNode::Static(_) => None,
        PlaceNode::Text(_) => None,
        PlaceNode::Pointed(_) => None,
        PlaceNode::Element(_, _, _, _) => None,
    }
}

/// `&` is applied to a local.
pub(crate) fn address(locals: &mut Vec<Local>, number: u32)
    ensures { locals.new.items ≡ changed_at addressed locals.old.items number }
{
    let number = number as usize;
    if number < locals.len() {
        locals[number].is_addressed = true;
    }
}

/// The type of a local becomes known.
pub(crate) fn complete(locals: &mut Vec<Local>, number: u32, ty: QualifiedRef)
    ensures { locals.new.items ≡ changed_at (completed ty) locals.old.items number }
{
    let number = number as usize;
    if number < locals.len() {
        locals[number].ty = ty;
    }
}

/// The row of a local. It stands in memory where it is an array or volatile, or where `&` is applied to it.
fn row(types: &Types, of: &Local) -> LocalRow
    ensures { result ≡ row_in types.now of.now }
{
    LocalRow {
        line: of.line,
        first: of.first,
        ty: of.ty,
        is_placed: of.is_addressed || of.ty.qualifiers.is_volatile || types.is_array(of.ty.target),
    }
}

/// The rows of locals.
pub(crate) fn rows_of(
    alloc: Global,
    types: &Types,
    locals: &[Local],
) -> Result<Items<LocalRow>, AllocError>
    ensures { IfOk result (λ r. r ≡ map (row_in types.now) locals.now) }
{
    let mut found = Items::new(alloc);
    for local in locals {
        found.push(row(types, local))?;
    }
    Ok(found)
}

/// A parameter gets its meaning under its name, if it has one.
fn declare_parameter(
    blocks: &mut Blocks<Meaning>,
    alloc: Global,
    parameter: &Local,
    number: u32,
) -> Result<(), AllocError>
    ensures { OnOk result (DeclaresOne blocks.old blocks.new parameter.now number) }
{
    match &parameter.name {
        None => Ok(()),
        Some(name) => blocks.declare(alloc, name.as_slice(), Meaning::Local(number)),
    }
}

/// The scope of a function's parameters, which are its first locals.
pub(crate) fn scope_of(alloc: Global, parameters: &[Local]) -> Result<Blocks<Meaning>, AllocError>
    ensures { IfOk result (λ b. b ≡ names_from 0 parameters.now ∷ []) }
{
    let mut blocks = Blocks::new(alloc);
    blocks.open()?;
    let mut left = parameters.len();
    if left > u32::MAX as usize {
        return Err(AllocError);
    }
    while left > 0 {
        left -= 1;
        declare_parameter(&mut blocks, alloc, &parameters[left], left as u32)?;
    }
    Ok(blocks)
}
