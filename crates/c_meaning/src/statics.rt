ghost use Rattle.std.specs.Prelude.{◌≡◌, ◌+◌, ◌≤◌, All, replicate, length, slice_set, IfOk};
ghost use Rattle.mid_code.specs.Fits.{IsValue};
ghost use Rattle.srmt_base.specs.Statics.{static_cells, started_objects};
ghost use Rattle.c_types.specs.Table.{type_at};
ghost use Rattle.c_typed.specs.StatementViews.{program_view, static_view};
ghost use Rattle.frames.specs.Statics.{IsSound};
ghost use Rattle.source_meaning.specs.Start as meaning;
ghost use Rattle.source_meaning.specs.Sound.{CanRun, HasCells};
ghost use Rattle.source_meaning.specs.Values.{CellsStart};
ghost use Rattle.c_meaning.specs.Runs.{types_of};

use crate::setting::{address_of_text, cells, file_of, value_of_entity};
use c_typed::{Start, StartCell, Static as TypedStatic, TextObject, TypedProgram};
use c_types::{Shape, TypeRef, Types};
use cell_store::Store;
use frames::begin_statics;
use sqlite_items::Items;
use srmt_base::{Part, Static, Ty, convert};
use std::alloc::{AllocError, Global};

/// What a cell starts with.
fn start_value(program: &TypedProgram, part: Part, start: Start) -> u64
    requires can { CanRun (program_view program.now) }
    requires small { IsValue (meaning.start_value (program_view program.now) part start) }
    ensures value { result ≡ meaning.start_value (program_view program.now) part start }
    ensures small { IsValue result }
{
    match start {
        Start::Number(number) => u64::from(number),
        Start::Object(entity, offset) => value_of_entity(program, entity) + u64::from(offset),
        Start::Text(number, offset) => address_of_text(program, part, number) + u64::from(offset),
        Start::Function(entity) => value_of_entity(program, entity),
    }
}

/// Whether the elements of an array are `const` (C11 6.7.3p9).
fn has_const_elements(types: &Types, of: TypeRef) -> bool
    ensures { result ≡ meaning.has_const_elements (type_at types.now of) }
{
    match types.shape(of) {
        Shape::Array(element, _, _) => {
            element.qualifiers.is_const || has_const_elements(types, element.target)
        }
        Shape::Void | Shape::Integer(_) | Shape::Pointer(_) => false,
        Shape::Returning(_) | Shape::Taking(..) => false,
    }
}

/// A cell takes a value, if it is there.
fn set_cell(cells: &mut Vec<u64>, index: usize, value: u64)
    ensures { cells.new.items ≡ slice_set cells.old.items index value }
{
    if let Some(cell) = cells.get_mut(index) {
        *cell = value;
    }
}

/// The contents of a static object of so many cells.
fn contents(
    alloc: Global,
    program: &TypedProgram,
    part: Part,
    cells: u16,
    given: &[StartCell],
) -> Result<Vec<u64>, AllocError>
    requires can { CanRun (program_view program.now) }
    requires small { CellsStart (program_view program.now) part given.now }
    ensures contents { IfOk result (λ values. values.items ≡ meaning.with_given (program_view program.now) part given.now (replicate cells 0)) }
    ensures small { IfOk result (λ values. All IsValue values.items) }
    ensures cells { IfOk result (λ values. length values.items ≡ cells) }
{
    let mut values = vec![in alloc; 0; cells as usize]?;
    for cell in given {
        let value = start_value(program, part, cell.start);
        set_cell(&mut values, cell.index as usize, value);
    }
    Ok(values)
}

/// A static object, which may only be read where it is `const` (C11 6.7.3p6).
fn object_of_static(
    alloc: Global,
    program: &TypedProgram,
    part: Part,
    object: &TypedStatic,
) -> Result<Static, AllocError>
    requires can { CanRun (program_view program.now) }
    requires cells { HasCells (type_at program.now.types object.now.ty.target) }
    requires small { CellsStart (program_view program.now) part object.now.cells }
    ensures object { IfOk result (λ made. made ≡ meaning.object_of_static (program_view program.now) part (static_view (types_of program.now) object.now)) }
    ensures sound { IfOk result IsSound }
{
    let types = &program.types;
    let cells = cells(types, object.ty.target);
    let values = contents(alloc, program, part, cells, object.cells.as_slice())?;
    Ok(Static {
        cells,
        read_only: object.ty.qualifiers.is_const || has_const_elements(types, object.ty.target),
        values: Items::from_vec(values),
    })
}

/// A string literal: its bytes as `char`, and a final 0 (C11 6.4.5p6, p7).
fn object_of_text(alloc: Global, text: &TextObject) -> Result<Static, AllocError>
    requires { length text.now.bytes + 1 ≤ 65535 }
    ensures object { IfOk result (λ made. made ≡ meaning.object_of_text text.now) }
    ensures sound { IfOk result IsSound }
{
    let bytes = text.bytes.as_slice();
    let mut values = Vec::with_capacity(alloc, bytes.len())?;
    for byte in bytes {
        values.push(convert(Ty::UChar, Ty::Char, u64::from(*byte)))?;
    }
    Ok(Static {
        cells: bytes.len() as u16 + 1,
        read_only: true,
        values: Items::from_vec(values),
    })
}

/// The objects of a part at the start, in the order of their numbers.
fn objects_at_start(
    alloc: Global,
    program: &TypedProgram,
    part: Part,
) -> Result<Vec<Static>, AllocError>
    requires { CanRun (program_view program.now) }
    ensures objects { IfOk result (λ objects. objects.items ≡ meaning.objects_at_start (program_view program.now) part) }
    ensures sound { IfOk result (λ objects. All IsSound objects.items) }
{
    let file = file_of(program, part);
    let mut objects = Vec::new(alloc);
    for object in file.statics.as_slice() {
        objects.push(object_of_static(alloc, program, part, object)?)?;
    }
    for text in file.texts.as_slice() {
        objects.push(object_of_text(alloc, text)?)?;
    }
    Ok(objects)
}

/// The memory of a part at the start.
pub(crate) fn start_of(
    alloc: Global,
    program: &TypedProgram,
    part: Part,
    cells: u32,
) -> Result<Store, AllocError>
    requires can { CanRun (program_view program.now) }
    requires few { cells ≤ 1048576 }
    requires room { static_cells (meaning.objects_at_start (program_view program.now) part) ≤ cells }
    ensures { IfOk result (λ store. store ≡ started_objects part (meaning.objects_at_start (program_view program.now) part) cells) }
{
    let objects = objects_at_start(alloc, program, part)?;
    begin_statics(alloc, objects.as_slice(), cells, part)
}
