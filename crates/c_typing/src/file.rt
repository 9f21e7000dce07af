ghost use Rattle.std.specs.Prelude.{◌≡◌, ◌∷◌, ◌++◌, [], OnOk, IfErr, List, map, option_map, option_copied};
ghost use Rattle.typing_rules.specs.SourceViews.{external_view, unit_view};
ghost use Rattle.typing_rules.specs.OrderedUnits as ordered;
ghost use Rattle.typing_rules.specs.UnitRules as rule;
ghost use Rattle.typing_rules.specs.Checking.{asks};
ghost use Rattle.c_typed.specs.Statements as typed;
ghost use Rattle.c_known.specs.Views.{line_in as told_line};
ghost use Rattle.c_known.specs.Gives.{Gives};
ghost use Rattle.c_entities.specs.declared.entity.File.TheVariants.{Binary};
ghost use Rattle.typing_rules.specs.declared.refusal.TypeRefusal.TheVariants.{Memory};
ghost use Rattle.c_typing.specs.Steps.{external_step};
ghost use Rattle.c_program.specs.Whole.{IsFile};
ghost use Rattle.c_typing.specs.Files.{AreFunctions, MoreFunctions};

use crate::function::define_function;
use crate::item::declare_all;
use c_known::{File, Known};
use c_program::{statics, texts};
use c_tree::{External, Unit};
use c_typed::{Function, TypedFile};
use sqlite_items::Items;
use typing_rules::TypeRefusal;

/// One more function.
fn add_function(made: &mut Items<Function>, function: Function) -> Result<(), TypeRefusal>
    ensures added { OnOk result (made.new ≡ made.old ++ function ∷ []) }
    ensures memory { IfErr result (λ refusal. refusal ≡ Memory) }
{
    match made.push(function) {
        Ok(()) => Ok(()),
        Err(_) => Err(TypeRefusal::Memory),
    }
}

/// A declaration of a file: a function that it defines stands behind those before.
fn check_external(
    known: &mut Known,
    file: File,
    made: &mut Items<Function>,
    x: &External,
) -> Result<(), TypeRefusal>
    ensures { (fs : List typed.Function) → AreFunctions known.old.types made.old fs
        → Gives (MoreFunctions made.new) known.old known.new result (external_step fs (external_view (told_line file) x.now)) }
{
    match x {
        External::Function(d) => {
            let function = define_function(known, file, d.get())?;
            add_function(made, function)
        }
        External::Declaration(d) => declare_all(known, file, d.get()),
    }
}

/// The functions that the declarations of a file define, in order.
fn externals(known: &mut Known, file: File, xs: &[External]) -> Result<Items<Function>, TypeRefusal>
    ensures { Gives AreFunctions known.old known.new result (ordered.externals_of (map (external_view (told_line file)) xs.now)) }
{
    let mut made = Items::new(known.alloc);
    for x in xs {
        check_external(known, file, &mut made, x)?;
    }
    Ok(made)
}

/// The end of a file with its functions: its static objects and texts.
fn end_file(known: &mut Known, functions: Items<Function>) -> Result<TypedFile, TypeRefusal>
    ensures { (fs : List typed.Function) → AreFunctions known.old.types functions fs
        → Gives IsFile known.old known.new result (asks (rule.typed_file fs)) }
{
    let statics = statics(known)?;
    let texts = texts(known)?;
    Ok(TypedFile {
        functions,
        statics,
        texts,
    })
}

/// A file (C11 6.9).
pub(crate) fn check_file(
    known: &mut Known,
    file: File,
    unit: &Unit,
) -> Result<TypedFile, TypeRefusal>
    ensures { Gives IsFile known.old known.new result (ordered.file_of (unit_view (told_line file) unit.now)) }
{
    let functions = externals(known, file, unit.externals.as_slice())?;
    end_file(known, functions)
}

/// The binary file, if there is one.
pub(crate) fn check_binary(known: &mut Known, unit: Option<&Unit>) -> Result<TypedFile, TypeRefusal>
    ensures { Gives IsFile known.old known.new result
        (ordered.binary_of (option_map (unit_view (told_line Binary)) (option_copied unit.entry))) }
{
    match unit {
        None => Ok(TypedFile {
            functions: Items::new(known.alloc),
            statics: Items::new(known.alloc),
            texts: Items::new(known.alloc),
        }),
        Some(unit) => {
            known.begin_binary()?;
            check_file(known, File::Binary, unit)
        }
    }
}
