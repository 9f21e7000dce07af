ghost use Rattle.std.specs.Prelude.{◌≡◌, ℕ, List, [], ◌∷◌, map};
ghost use Rattle.c_types.specs.declared.type_ref.Row.{Row};
ghost use Rattle.c_typed.specs.Statements.{no_items};
ghost use Rattle.c_typed.specs.StatementViews.{all_items, block_item_view, local_item_view};
ghost use Rattle.source_meaning.specs.Statements.{locals_of, numbers_of};
ghost use Rattle.lower.specs.Statements.{opens, begins, all_begin, begun_at};
ghost use Rattle.lower.specs.Emits.{itself, nothing, rows_of, types_of, inside_view};
ghost use Rattle.lower.specs.Runs.{Begins};

use crate::body::Body;
use crate::inside::{Inside, cells, kind_of};
use crate::refusal::LowerRefusal;
use c_typed::{BlockItem, LocalItem};
use mid_code::Mid;

/// An object of so many cells begins, at the line of its name, and its register is that of a local.
pub(crate) fn open(
    body: &mut Body,
    number: usize,
    cells: u16,
    line: u32,
) -> Result<u16, LowerRefusal>
    ensures { (rows : List Row) → Begins itself rows (λ start. start ∷ []) body.old body.new result (opens line number cells) }
{
    let target = body.out.new_address(line)?;
    body.out.settle(number, target);
    body.objects.push(body.out.here())?;
    body.out.emit(line, Mid::Open { target, cells })?;
    Ok(target)
}

/// A local gets its register: in memory it begins as an object of zeros, else as 0.
fn begin_local(at: Inside, body: &mut Body, number: usize) -> Result<(), LowerRefusal>
    ensures { Begins nothing (rows_of at.entry) (λ start. begun_at (inside_view at.entry).rows start (number ∷ [])) body.old body.new result
        (begins (inside_view at.entry) number) }
{
    let row = at.row(number);
    let types = at.types();
    if row.is_placed {
        open(body, number, cells(types, row.ty.target)?, row.line)?;
        return Ok(());
    }
    let target = body.out.register(kind_of(types, row.ty.target), row.line)?;
    body.out.settle(number, target);
    body.out.emit(row.first, Mid::Const { target, value: 0 })
}

/// Locals begin, in order.
pub(crate) fn begin_locals(
    at: Inside,
    body: &mut Body,
    locals: &[LocalItem],
) -> Result<(), LowerRefusal>
    ensures { Begins nothing (rows_of at.entry)
        (λ start. begun_at (inside_view at.entry).rows start (numbers_of (map (local_item_view (types_of at.entry)) locals.now))) body.old body.new
        result (all_begin (inside_view at.entry) (numbers_of (map (local_item_view (types_of at.entry)) locals.now))) }
{
    for local in locals {
        begin_local(at, body, local.number as usize)?;
    }
    Ok(())
}

/// The locals that an item of a block declares begin.
fn begin_item(at: Inside, body: &mut Body, item: &BlockItem) -> Result<(), LowerRefusal>
    ensures { Begins nothing (rows_of at.entry)
        (λ start. begun_at (inside_view at.entry).rows start (locals_of (block_item_view (types_of at.entry) item.now no_items))) body.old body.new
        result (all_begin (inside_view at.entry) (locals_of (block_item_view (types_of at.entry) item.now no_items))) }
{
    match item {
        BlockItem::Declaration(locals) => begin_locals(at, body, locals.as_slice()),
        BlockItem::Statement(_) => Ok(()),
    }
}

/// The locals that a block declares itself begin.
pub(crate) fn begin_block(
    at: Inside,
    body: &mut Body,
    items: &[BlockItem],
) -> Result<(), LowerRefusal>
    ensures { Begins nothing (rows_of at.entry)
        (λ start. begun_at (inside_view at.entry).rows start (locals_of (all_items (map (block_item_view (types_of at.entry)) items.now)))) body.old body.new
        result (all_begin (inside_view at.entry) (locals_of (all_items (map (block_item_view (types_of at.entry)) items.now)))) }
{
    for item in items {
        begin_item(at, body, item)?;
    }
    Ok(())
}
