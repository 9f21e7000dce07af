ghost use Rattle.std.specs.Prelude.{◌≡◌, ℕ, List, map};
ghost use Rattle.c_types.specs.declared.type_ref.Row.{Row};
ghost use Rattle.c_types.specs.Table.{type_at};
ghost use Rattle.c_typed.specs.Views.{value_view};
ghost use Rattle.c_typed.specs.StatementViews.{row_view, cell_view, local_item_view};
ghost use Rattle.lower.specs.Expressions.{row_at};
ghost use Rattle.lower.specs.Statements.{to_cell, cell_given, cells_given, storing as store_by, in_memory_given, in_register_given, all_cells_given, initializes, all_initialize};
ghost use Rattle.lower.specs.Emits.{Emits, itself, nothing, rows_of, types_of, inside_view};

use crate::emitter::Emitter;
use crate::inside::Inside;
use crate::refusal::LowerRefusal;
use crate::values::value;
use c_typed::{Cell, Initializer, LocalItem, LocalRow, Value};
use mid_code::Mid;
use srmt_base::Ty;

/// The register of an address moves from the first cell of a local to the one of an index.
fn move_to_cell(
    out: &mut Emitter,
    row: LocalRow,
    pointer: u16,
    cell: u32,
) -> Result<(), LowerRefusal>
    ensures { (rows : List Row) → Emits nothing rows out.old out.new result
        (to_cell (row_view (type_at rows) row) pointer cell) }
{
    if cell == 0 {
        return Ok(());
    }
    let index = out.temporary(0, row.line)?;
    out.emit(
        row.first,
        Mid::Const {
            target: index,
            value: u64::from(cell),
        },
    )?;
    out.emit(
        row.line,
        Mid::PtrAdd {
            target: pointer,
            pointer,
            index,
            ty: Ty::UInt,
            negated: false,
            scale: 1,
        },
    )
}

/// A cell takes its value, through the register of an address.
fn give_cell(
    at: Inside,
    out: &mut Emitter,
    row: LocalRow,
    home: u16,
    pointer: u16,
    cell: &Cell,
) -> Result<(), LowerRefusal>
    ensures { Emits nothing (rows_of at.entry) out.old out.new result
        (cell_given (inside_view at.entry) (row_view (types_of at.entry) row) home pointer (cell_view (types_of at.entry) cell.now)) }
{
    out.emit(
        row.first,
        Mid::Move {
            target: pointer,
            source: home,
        },
    )?;
    move_to_cell(out, row, pointer, cell.index)?;
    let source = value(at, out, &cell.value, 0)?;
    out.emit(row.line, Mid::Store { pointer, source })
}

/// The given cells of an array take their values (C11 6.7.9p17).
fn give_cells(
    at: Inside,
    out: &mut Emitter,
    number: usize,
    cells: &[Cell],
) -> Result<(), LowerRefusal>
    ensures { Emits nothing (rows_of at.entry) out.old out.new result
        (all_cells_given (inside_view at.entry) (row_at (inside_view at.entry).rows number) number (map (cell_view (types_of at.entry)) cells.now)) }
{
    let row = at.row(number);
    let home = out.home(number);
    let pointer = out.new_address(row.line)?;
    for cell in cells {
        give_cell(at, out, row, home, pointer, cell)?;
    }
    Ok(())
}

/// The instruction that gives a local in memory its value.
fn storing(row: LocalRow, pointer: u16, source: u16) -> Mid
    ensures { (rows : List Row) → result ≡ store_by (row_view (type_at rows) row) pointer source }
{
    if row.ty.qualifiers.is_volatile {
        Mid::VStore { pointer, source }
    } else {
        Mid::Store { pointer, source }
    }
}

/// A local in memory takes its value (C11 6.7.9p11).
fn give_memory(at: Inside, out: &mut Emitter, number: usize, e: &Value) -> Result<(), LowerRefusal>
    ensures { Emits nothing (rows_of at.entry) out.old out.new result
        (in_memory_given (inside_view at.entry) (row_at (inside_view at.entry).rows number) number (value_view (types_of at.entry) e.now)) }
{
    let row = at.row(number);
    let home = out.home(number);
    let pointer = out.new_address(row.line)?;
    out.emit(
        row.first,
        Mid::Move {
            target: pointer,
            source: home,
        },
    )?;
    let source = value(at, out, e, 0)?;
    out.emit(row.line, storing(row, pointer, source))
}

/// A local in a register takes its value.
fn give_register(
    at: Inside,
    out: &mut Emitter,
    number: usize,
    e: &Value,
) -> Result<(), LowerRefusal>
    ensures { Emits nothing (rows_of at.entry) out.old out.new result
        (in_register_given (inside_view at.entry) (row_at (inside_view at.entry).rows number) number (value_view (types_of at.entry) e.now)) }
{
    let row = at.row(number);
    let source = value(at, out, e, 0)?;
    let target = out.home(number);
    out.emit(row.first, Mid::Move { target, source })
}

/// A local takes the value of its initializer, if it has one.
fn initialize(at: Inside, out: &mut Emitter, local: &LocalItem) -> Result<(), LowerRefusal>
    ensures { Emits nothing (rows_of at.entry) out.old out.new result
        (initializes (inside_view at.entry) (local_item_view (types_of at.entry) local.now).number
        (local_item_view (types_of at.entry) local.now).initializer) }
{
    let number = local.number as usize;
    match &local.initializer {
        None => Ok(()),
        Some(Initializer::Cells(cells)) => give_cells(at, out, number, cells.as_slice()),
        Some(Initializer::Scalar(e)) => {
            if at.row(number).is_placed {
                give_memory(at, out, number, e)
            } else {
                give_register(at, out, number, e)
            }
        }
    }
}

/// Locals take their values, in order.
pub(crate) fn initialize_all(
    at: Inside,
    out: &mut Emitter,
    locals: &[LocalItem],
) -> Result<(), LowerRefusal>
    ensures { Emits nothing (rows_of at.entry) out.old out.new result
        (all_initialize (inside_view at.entry) (map (local_item_view (types_of at.entry)) locals.now)) }
{
    for local in locals {
        initialize(at, out, local)?;
    }
    Ok(())
}
