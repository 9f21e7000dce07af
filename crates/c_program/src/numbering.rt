ghost use Rattle.std.specs.Prelude.{◌≡◌, ◌+◌, ℕ, List, map, length, IfOk, IfErr, OnOk, replicate};
ghost use Rattle.c_types.specs.declared.type_ref.TypeRef.{TypeRef};
ghost use Rattle.c_types.specs.Types.{CType};
ghost use Rattle.c_typed.specs.Statements as typed;
ghost use Rattle.c_typed.specs.StatementViews.{function_view, static_view, file_view};
ghost use Rattle.c_typed.specs.declared.program.Numbered.TheVariants as numbered;
ghost use Rattle.typing_rules.specs.declared.refusal.TypeRefusal.TheVariants.{Memory};
ghost use Rattle.typing_rules.specs.Checking.{asks};
ghost use Rattle.c_known.specs.Gives.{Gives, IsSame};
ghost use Rattle.c_program.specs.Whole.{IsFile};
ghost use Rattle.c_program.specs.Numbers.{or_numbered, alone, filled, by_functions, by_statics};

use c_known::Known;
use c_typed::{Function, Numbered, Static, TypedFile};
use sqlite_items::Items;
use std::alloc::Global;
use typing_rules::TypeRefusal;

/// The number of the first object of the binary part.
const FIRST_BINARY_OBJECT: u32 = 134_217_728;

/// What an entity is by its first definition, or else by another.
fn or_else(first: Numbered, other: Numbered) -> Numbered
    ensures { result ≡ or_numbered first other }
{
    match first {
        Numbered::Nowhere => other,
        Numbered::Function(_) | Numbered::Object(_) => first,
    }
}

/// An entity that is nowhere so far is defined.
fn fill(table: &mut Vec<Numbered>, entity: u32, is: Numbered)
    ensures { table.new.items ≡ filled (alone entity is) 0 table.old.items }
{
    if let Some(place) = table.get_mut(entity as usize) {
        *place = or_else(*place, is);
    }
}

/// The number behind another.
fn following(number: u32) -> Result<u32, TypeRefusal>
    ensures next { IfOk result (λ n. n ≡ number + 1) }
    ensures memory { IfErr result (λ e. e ≡ Memory) }
{
    match number.checked_add(1) {
        Some(next) => Ok(next),
        None => Err(TypeRefusal::Memory),
    }
}

/// The functions of a file are numbered in order, from the first number on; the number behind the last.
fn number_functions(
    table: &mut Vec<Numbered>,
    functions: &[Function],
    first: u32,
) -> Result<u32, TypeRefusal>
    ensures filled { (types : TypeRef → CType) → OnOk result
        (table.new.items ≡ filled (by_functions first (map (function_view types) functions.now)) 0 table.old.items) }
    ensures next { IfOk result (λ n. n ≡ first + length functions.now) }
    ensures memory { IfErr result (λ e. e ≡ Memory) }
{
    let mut number = first;
    for function in functions {
        fill(table, function.entity, Numbered::Function(number));
        number = following(number)?;
    }
    Ok(number)
}

/// So are the static objects of a file.
fn number_statics(
    table: &mut Vec<Numbered>,
    statics: &[Static],
    first: u32,
) -> Result<(), TypeRefusal>
    ensures filled { (types : TypeRef → CType) → OnOk result
        (table.new.items ≡ filled (by_statics first (map (static_view types) statics.now)) 0 table.old.items) }
    ensures memory { IfErr result (λ e. e ≡ Memory) }
{
    let mut number = first;
    for object in statics {
        fill(table, object.entity, Numbered::Object(number));
        number = following(number)?;
    }
    Ok(())
}

/// A table of entities that are nowhere.
fn nowhere(alloc: Global, count: usize) -> Result<Vec<Numbered>, TypeRefusal>
    ensures made { IfOk result (λ table. table.items ≡ replicate count numbered.Nowhere) }
    ensures memory { IfErr result (λ e. e ≡ Memory) }
{
    let mut table = Vec::new(alloc);
    match table.resize(count, Numbered::Nowhere) {
        Ok(()) => Ok(table),
        Err(_) => Err(TypeRefusal::Memory),
    }
}

/// What each entity is in the end, of so many.
fn table_of(
    alloc: Global,
    count: usize,
    main: &TypedFile,
    binary: &TypedFile,
) -> Result<Vec<Numbered>, TypeRefusal>
    ensures made { (types : TypeRef → CType) → IfOk result (λ table.
        table.items ≡ typed.numbers_from (file_view types main.now) (file_view types binary.now) 0 count) }
    ensures memory { IfErr result (λ e. e ≡ Memory) }
{
    let mut table = nowhere(alloc, count)?;
    let next = number_functions(&mut table, main.functions.as_slice(), 1)?;
    number_functions(&mut table, binary.functions.as_slice(), next)?;
    number_statics(&mut table, main.statics.as_slice(), 1)?;
    number_statics(&mut table, binary.statics.as_slice(), FIRST_BINARY_OBJECT)?;
    Ok(table)
}

/// What each entity is in the end.
pub fn numbers(
    known: &Known,
    main: &TypedFile,
    binary: &TypedFile,
) -> Result<Items<Numbered>, TypeRefusal>
    ensures { (f g : typed.TypedFile) → IsFile known.now.types main.now f → IsFile known.now.types binary.now g
        → Gives IsSame known.now known.now result (asks (λ k. typed.numbers_from f g 0 (length k.entities))) }
{
    match table_of(known.alloc, known.entities.count(), main, binary) {
        Ok(table) => Ok(Items::from_vec(table)),
        Err(refusal) => Err(refusal),
    }
}
