ghost use Rattle.std.specs.Prelude.{◌≡◌, IfOk, option_map, option_copied};
ghost use Rattle.typing_rules.specs.SourceViews.{unit_view, main_line, binary_line};
ghost use Rattle.typing_rules.specs.OrderedUnits as ordered;
ghost use Rattle.c_typed.specs.Statements as typed;
ghost use Rattle.c_typed.specs.StatementViews.{program_view};
ghost use Rattle.typing_rules.specs.TypingUnits.{Types};
ghost use Rattle.typing_rules.specs.UnitRules.{nothing_known};
ghost use Rattle.c_known.specs.Views.{Knows};
ghost use Rattle.c_known.specs.Gives.{Gives};
ghost use Rattle.c_typing.specs.Steps.{numbered_program, resolved_program, finished, main_checked};
ghost use Rattle.c_program.specs.Whole.{IsFile};
ghost use Rattle.c_typing.specs.Files.{IsProgram, Checks, Finds};

use crate::file::{check_binary, check_file};
use c_known::{File, Known};
use c_program::{main_entity, numbers, resolve};
use c_tree::Unit;
use c_typed::{Numbered, TypedFile, TypedProgram};
use sqlite_items::Items;
use std::alloc::Global;
use typing_rules::TypeRefusal;

/// A program without its table of types.
#[derive(Drop)]
pub(crate) struct Checked {
    pub main_file: TypedFile,
    pub binary_file: TypedFile,
    pub entities: Items<Numbered>,
    pub main: u32,
}

/// A program of two files whose names are resolved: what each entity is.
fn number_program(
    known: &mut Known,
    main_file: TypedFile,
    binary_file: TypedFile,
    main: u32,
) -> Result<Checked, TypeRefusal>
    ensures { (f g : typed.TypedFile) → IsFile known.old.types main_file f → IsFile known.old.types binary_file g
        → Gives IsProgram known.old known.new result (numbered_program f g main) }
{
    let entities = numbers(known, &main_file, &binary_file)?;
    Ok(Checked {
        main_file,
        binary_file,
        entities,
        main,
    })
}

/// The same where `main` is found.
fn resolve_program(
    known: &mut Known,
    main_file: TypedFile,
    binary_file: TypedFile,
    main: u32,
) -> Result<Checked, TypeRefusal>
    ensures { (f g : typed.TypedFile) → IsFile known.old.types main_file f → IsFile known.old.types binary_file g
        → Gives IsProgram known.old known.new result (resolved_program f g main) }
{
    resolve(known)?;
    number_program(known, main_file, binary_file, main)
}

/// The program of two files that are checked.
fn finish(
    known: &mut Known,
    main_file: TypedFile,
    binary_file: TypedFile,
) -> Result<Checked, TypeRefusal>
    ensures { (f g : typed.TypedFile) → IsFile known.old.types main_file f → IsFile known.old.types binary_file g
        → Gives IsProgram known.old known.new result (finished f g) }
{
    let main = main_entity(known)?;
    resolve_program(known, main_file, binary_file, main)
}

/// The program of a main file that is checked, and of a binary file.
fn check_rest(
    known: &mut Known,
    main_file: TypedFile,
    binary: Option<&Unit>,
) -> Result<Checked, TypeRefusal>
    ensures { (f : typed.TypedFile) → IsFile known.old.types main_file f
        → Gives IsProgram known.old known.new result (main_checked (option_map (unit_view binary_line) (option_copied binary.entry)) f) }
{
    let binary_file = check_binary(known, binary)?;
    finish(known, main_file, binary_file)
}

/// The program of the trees of one or two files.
fn check_program(
    known: &mut Known,
    main: &Unit,
    binary: Option<&Unit>,
) -> Result<Checked, TypeRefusal>
    ensures { Gives IsProgram known.old known.new result
        (ordered.program_of (unit_view main_line main.now) (option_map (unit_view binary_line) (option_copied binary.entry))) }
{
    let main_file = check_file(known, File::Main, main)?;
    check_rest(known, main_file, binary)
}

/// The same with its table of types, where nothing else was known before.
fn check_all(known: Known, main: &Unit, binary: Option<&Unit>) -> Result<TypedProgram, TypeRefusal>
    ensures { Knows known nothing_known → Checks result
        (ordered.checked (unit_view main_line main.now) (option_map (unit_view binary_line) (option_copied binary.entry))) }
{
    let mut known = known;
    let program = check_program(&mut known, main, binary)?;
    Ok(TypedProgram {
        types: known.types,
        main_file: program.main_file,
        binary_file: program.binary_file,
        entities: program.entities,
        main: program.main,
    })
}

/// The same where nothing is known yet.
fn check_in_order(
    alloc: Global,
    main: &Unit,
    binary: Option<&Unit>,
) -> Result<TypedProgram, TypeRefusal>
    ensures { Checks result
        (ordered.checked (unit_view main_line main.now) (option_map (unit_view binary_line) (option_copied binary.entry))) }
{
    match Known::new(alloc) {
        Ok(known) => check_all(known, main, binary),
        Err(_) => Err(TypeRefusal::Memory),
    }
}

/// The typed program of the trees of one or two files, or the first refusal in the order of checking. Each line of a
/// refusal is that of the file, or 2,000,000 more in the binary file.
pub fn check(alloc: Global, main: &Unit, binary: Option<&Unit>) -> Result<TypedProgram, TypeRefusal>
    ensures typed { IfOk result (λ p.
        Types (unit_view main_line main.now) (option_map (unit_view binary_line) (option_copied binary.entry)) (program_view p)) }
    ensures found { (program : typed.Program)
        → Types (unit_view main_line main.now) (option_map (unit_view binary_line) (option_copied binary.entry)) program
        → Finds result program }
    ensures answers { Checks result
        (ordered.checked (unit_view main_line main.now) (option_map (unit_view binary_line) (option_copied binary.entry))) }
{
    check_in_order(alloc, main, binary)
}
