ghost use Rattle.std.specs.Prelude.{◌≡◌, ◌≤◌, replicate, slice_set, map, IfOk, IfErr};
ghost use Rattle.c_types.specs.Table.{type_at};
ghost use Rattle.c_typed.specs.StatementViews.{program_view, static_view};
ghost use Rattle.srmt_base.specs.Convert.{convert_of};
ghost use Rattle.srmt_base.specs.declared.ty.Ty.TheVariants.{Char, UChar};
ghost use Rattle.source_meaning.specs.Places.{value_of_entity as entity_of};
ghost use Rattle.source_meaning.specs.Start as meaning;
ghost use Rattle.lower.specs.Programs.{shortened, without_zeros};
ghost use Rattle.lower.specs.declared.refusal.LowerRefusal.TheVariants.{Memory};

use crate::inside::{cells, file_of, number_of_text};
use crate::refusal::LowerRefusal;
use c_typed::{Numbered, Start, StartCell, Static as TypedStatic, TextObject, TypedProgram};
use c_types::{Shape, TypeRef, Types};
use sqlite_items::Items;
use srmt_base::{Part, Static, Ty, convert};
use std::alloc::{AllocError, Global};

/// What an entity is: the number of a function, or the address of an object.
fn value_of_entity(program: &TypedProgram, entity: u32) -> u64
    ensures value { result ≡ entity_of (program_view program.now) entity }
    ensures small { result ≤ 281474976710656 }
{
    match program.entities.as_slice().get(entity as usize) {
        None => 0,
        Some(Numbered::Nowhere) => 0,
        Some(Numbered::Function(number)) => u64::from(*number),
        Some(Numbered::Object(number)) => u64::from(*number) * 65536,
    }
}

/// What a cell starts with.
fn start_value(program: &TypedProgram, part: Part, start: Start) -> Result<u64, LowerRefusal>
    ensures value { IfOk result (λ v. v ≡ meaning.start_value (program_view program.now) part start) }
    ensures memory { IfErr result (λ e. e ≡ Memory) }
{
    match start {
        Start::Number(number) => Ok(u64::from(number)),
        Start::Object(entity, offset) => {
            Ok(value_of_entity(program, entity) + u64::from(offset))
        }
        Start::Text(number, offset) => {
            let object = number_of_text(program, part, number)?;
            Ok(u64::from(object) * 65536 + u64::from(offset))
        }
        Start::Function(entity) => Ok(value_of_entity(program, entity)),
    }
}

/// Whether the elements of an array are `const` (C11 6.7.3p9).
fn has_const_elements(types: &Types, of: TypeRef) -> bool
    ensures { result ≡ meaning.has_const_elements (type_at types.now of) }
{
    match types.shape(of) {
        Shape::Array(element, _, _) => {
            element.qualifiers.is_const || has_const_elements(types, element.target)
        }
        Shape::Void | Shape::Integer(_) | Shape::Pointer(_) => false,
        Shape::Returning(_) | Shape::Taking(..) => false,
    }
}

/// A cell takes a value, if it is there.
fn set_cell(cells: &mut Vec<u64>, index: usize, value: u64)
    ensures { cells.new.items ≡ slice_set cells.old.items index value }
{
    if let Some(cell) = cells.get_mut(index) {
        *cell = value;
    }
}

/// The contents of a static object of so many cells.
fn contents(
    alloc: Global,
    program: &TypedProgram,
    part: Part,
    cells: u16,
    given: &[StartCell],
) -> Result<Vec<u64>, LowerRefusal>
    ensures contents { IfOk result (λ values. values.items ≡ meaning.with_given (program_view program.now) part given.now (replicate cells 0)) }
    ensures memory { IfErr result (λ e. e ≡ Memory) }
{
    let mut values = vec![in alloc; 0; cells as usize]?;
    for cell in given {
        let value = start_value(program, part, cell.start)?;
        set_cell(&mut values, cell.index as usize, value);
    }
    Ok(values)
}

/// The zeros at the end are left out.
fn drop_zeros(values: &mut Vec<u64>)
    ensures { values.new.items ≡ without_zeros values.old.items }
{
    while values.last() == Some(&0) {
        values.pop();
    }
}

/// A static object, which may only be read where it is `const` (C11 6.7.3p6).
fn object_of_static(
    alloc: Global,
    program: &TypedProgram,
    part: Part,
    object: &TypedStatic,
) -> Result<Static, LowerRefusal>
    ensures object { IfOk result (λ made.
        made ≡ shortened (meaning.object_of_static (program_view program.now) part (static_view (type_at program.now.types) object.now))) }
    ensures memory { IfErr result (λ e. e ≡ Memory) }
{
    let types = &program.types;
    let cells = cells(types, object.ty.target)?;
    let mut values = contents(alloc, program, part, cells, object.cells.as_slice())?;
    drop_zeros(&mut values);
    Ok(Static {
        cells,
        read_only: object.ty.qualifiers.is_const || has_const_elements(types, object.ty.target),
        values: Items::from_vec(values),
    })
}

/// The bytes of a string literal as `char`.
fn characters(alloc: Global, bytes: &[u8]) -> Result<Vec<u64>, AllocError>
    ensures { IfOk result (λ values. values.items ≡ map (convert_of UChar Char) bytes.now) }
{
    let mut values = Vec::with_capacity(alloc, bytes.len())?;
    for byte in bytes {
        values.push(convert(Ty::UChar, Ty::Char, u64::from(*byte)))?;
    }
    Ok(values)
}

/// A string literal: its bytes as `char`, and a final 0 (C11 6.4.5p6, p7).
fn object_of_text(alloc: Global, text: &TextObject) -> Result<Static, LowerRefusal>
    ensures object { IfOk result (λ made. made ≡ shortened (meaning.object_of_text text.now)) }
    ensures memory { IfErr result (λ e. e ≡ Memory) }
{
    let bytes = text.bytes.as_slice();
    if bytes.len() > 65_534 {
        return Err(LowerRefusal::Memory);
    }
    let mut values = characters(alloc, bytes)?;
    drop_zeros(&mut values);
    Ok(Static {
        cells: bytes.len() as u16 + 1,
        read_only: true,
        values: Items::from_vec(values),
    })
}

/// The static objects of a part, in the order of their numbers.
pub(crate) fn statics_of(
    alloc: Global,
    program: &TypedProgram,
    part: Part,
) -> Result<Items<Static>, LowerRefusal>
    ensures objects { IfOk result (λ objects. objects ≡ map shortened (meaning.objects_at_start (program_view program.now) part)) }
    ensures memory { IfErr result (λ e. e ≡ Memory) }
{
    let file = file_of(program, part);
    let mut objects = Vec::new(alloc);
    for object in file.statics.as_slice() {
        objects.push(object_of_static(alloc, program, part, object)?)?;
    }
    for text in file.texts.as_slice() {
        objects.push(object_of_text(alloc, text)?)?;
    }
    Ok(Items::from_vec(objects))
}
