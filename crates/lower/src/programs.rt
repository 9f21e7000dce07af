ghost use Rattle.std.specs.Prelude.{◌≡◌, List, [], map, OnOk, IfOk};
ghost use Rattle.c_types.specs.Types.{CType};
ghost use Rattle.c_types.specs.Table.{type_at};
ghost use Rattle.c_typed.specs.StatementViews.{function_view, program_view};
ghost use Rattle.source_meaning.specs.Places.{file_of as file_of_part};
ghost use Rattle.lower.specs.Programs.{all_types, lowered, lowered_functions, types_of_program};
ghost use Rattle.lower.specs.Functions.{AreTypes, GivesFunctions, GivesProgram};

use crate::functions::lower_function;
use crate::inside::{Inside, file_of, number_of, short};
use crate::refusal::LowerRefusal;
use crate::statics::statics_of;
use crate::types::{add_types, fun_types};
use c_typed::TypedProgram;
use c_types::TypeRef;
use indexmap::IndexSet;
use mid_code::{MidFunction, MidProgram};
use sqlite_items::Items;
use srmt_base::Part;
use std::alloc::{AllocError, Global};

/// The types of the functions of a program, each once, in the order of the functions.
fn types_of_functions(
    alloc: Global,
    program: &TypedProgram,
) -> Result<IndexSet<TypeRef>, AllocError>
    ensures { IfOk result (λ known. AreTypes program.now.types known.keys (types_of_program (program_view program.now))) }
{
    let mut known = IndexSet::new(alloc);
    let types = &program.types;
    add_types(&mut known, types, program.main_file.functions.as_slice())?;
    add_types(&mut known, types, program.binary_file.functions.as_slice())?;
    Ok(known)
}

/// Lowers the functions of a part, in order, behind those that are lowered.
fn lower_part(
    alloc: Global,
    program: &TypedProgram,
    part: Part,
    known: IndexSet<TypeRef>,
    lowered: &mut Vec<MidFunction>,
) -> Result<IndexSet<TypeRef>, LowerRefusal>
    ensures { (types : List CType) → AreTypes program.now.types known.keys types
        → GivesFunctions (λ known. known.keys) program.now.types lowered.old.items lowered.new.items
        (lowered_functions (program_view program.now) part (file_of_part part (program_view program.now)).functions types) result }
{
    let mut known = known;
    for function in file_of(program, part).functions.as_slice() {
        let at = Inside {
            program,
            part,
            function,
        };
        let found = lower_function(alloc, at, known)?;
        lowered.push(found.function)?;
        known = found.types;
    }
    Ok(known)
}

/// Lowers a typed program to middle code: exactly to what the table of lowering says, or the cause for which the first
/// function that is refused is, or `Memory`. What no typed program of bytes has (a function, a type of functions or a text
/// past what middle code can name, a call with more than 16 arguments) is `Memory` too.
pub fn lower(alloc: Global, program: &TypedProgram) -> Result<MidProgram, LowerRefusal>
    ensures { GivesProgram (lowered (program_view program.now)) result }
{
    let mut functions = Vec::new(alloc);
    let first = types_of_functions(alloc, program)?;
    let between = lower_part(alloc, program, Part::Protected, first, &mut functions)?;
    let known = lower_part(alloc, program, Part::Binary, between, &mut functions)?;
    let Ok(main_functions) = u16::try_from(program.main_file.functions.len()) else {
        return Err(LowerRefusal::Memory);
    };
    Ok(MidProgram {
        types: fun_types(alloc, &program.types, &known)?,
        main_functions,
        main: short(number_of(program, program.main))?,
        main_statics: statics_of(alloc, program, Part::Protected)?,
        binary_statics: statics_of(alloc, program, Part::Binary)?,
        functions: Items::from_vec(functions),
    })
}
