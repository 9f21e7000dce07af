ghost use Rattle.std.specs.Prelude.{◌≡◌, List, map, option_map};
ghost use Rattle.c_types.specs.Types.{Qualified};
ghost use Rattle.c_types.specs.Table.{StandsFor};
ghost use Rattle.typing_rules.specs.SourceViews.{declaration_view, initial_view, item_view};
ghost use Rattle.typing_rules.specs.DeclaratorRules as rule;
ghost use Rattle.typing_rules.specs.OrderedUnits as ordered;
ghost use Rattle.c_entities.specs.Views.{storage_view};
ghost use Rattle.c_known.specs.Views.{line_in as told_line};
ghost use Rattle.c_known.specs.Gives.{Gives, IsDone};
ghost use Rattle.c_declarators.specs.Derivations.{lines_view, AreDerivations};
ghost use Rattle.c_declarators.specs.Specifiers.{storage_view as word_view};
ghost use Rattle.c_declarators.specs.Trees.{declarator_in};
ghost use Rattle.c_typing.specs.Steps.{declared_at_file, declared_typed, item_derived};

use crate::at_file::AtFile;
use crate::declaration::declare_typed;
use c_declarators::{Derivation, Lines, Storage as Word, derived, lines_of, name_of, specified};
use c_entities::Storage;
use c_known::{File, Known, line_in};
use c_terms::derivations;
use c_tree::{Declaration, Item};
use c_types::QualifiedRef;
use typing_rules::TypeRefusal;

/// A storage word as one of an object or function with linkage.
pub(crate) fn storage_of(word: Word) -> Storage
    ensures { storage_view result ≡ word_view word }
{
    match word {
        Word::NoWord => Storage::None,
        Word::Static => Storage::Static,
        Word::Extern => Storage::Extern,
    }
}

/// What is declared with a type, under the name of its declarator.
fn declare_named(
    known: &mut Known,
    file: File,
    storage: Storage,
    ty: QualifiedRef,
    x: &Item,
) -> Result<(), TypeRefusal>
    ensures { (t : Qualified) → StandsFor known.old.types ty t
        → Gives IsDone known.old known.new result
        (declared_typed (rule.or_no_name (rule.name_of (declarator_in file x.now.declarator))) (storage_view storage) t
        (option_map (initial_view (told_line file)) x.now.initializer)) }
{
    match name_of(&x.declarator) {
        None => {
            let at = AtFile {
                file,
                line: 0,
                storage,
                ty,
            };
            declare_typed(known, at, b"".as_slice(), &x.initializer)
        }
        Some(name) => {
            let at = AtFile {
                file,
                line: line_in(file, name.line),
                storage,
                ty,
            };
            declare_typed(known, at, name.bytes.as_slice(), &x.initializer)
        }
    }
}

/// The same, where the parts of its declarator are known.
fn declare_derived(
    known: &mut Known,
    file: File,
    storage: Storage,
    base: QualifiedRef,
    lines: Lines,
    ds: &[Derivation],
    x: &Item,
) -> Result<(), TypeRefusal>
    ensures { (t : Qualified) (es : List rule.Derivation) → StandsFor known.old.types base t → AreDerivations known.old.types ds.now es
        → Gives IsDone known.old known.new result
        (item_derived (storage_view storage) t (lines_view lines) (item_view (told_line file) x.now) es) }
{
    let ty = derived(known, lines, base, ds)?;
    declare_named(known, file, storage, ty, x)
}

/// What an item of a declaration declares, behind specifiers on a line.
fn declare_item(
    known: &mut Known,
    file: File,
    storage: Storage,
    base: QualifiedRef,
    line: u32,
    x: &Item,
) -> Result<(), TypeRefusal>
    ensures { (t : Qualified) → StandsFor known.old.types base t
        → Gives IsDone known.old known.new result
        (ordered.item_at_file (storage_view storage) t (told_line file line) (item_view (told_line file) x.now)) }
{
    let lines = lines_of(file, line, &x.declarator);
    let ds = derivations(known, file, lines, &x.declarator)?;
    declare_derived(known, file, storage, base, lines, ds.as_slice(), x)
}

/// What the items of a declaration declare, in order.
fn declare_items(
    known: &mut Known,
    file: File,
    storage: Storage,
    base: QualifiedRef,
    line: u32,
    items: &[Item],
) -> Result<(), TypeRefusal>
    ensures { (t : Qualified) → StandsFor known.old.types base t
        → Gives IsDone known.old known.new result
        (ordered.items_at_file (storage_view storage) t (told_line file line) (map (item_view (told_line file)) items.now)) }
{
    for x in items {
        declare_item(known, file, storage, base, line, x)?;
    }
    Ok(())
}

/// A declaration at file scope (C11 6.7, 6.9.2).
pub(crate) fn declare_all(known: &mut Known, file: File, d: &Declaration) -> Result<(), TypeRefusal>
    ensures { Gives IsDone known.old known.new result (declared_at_file (declaration_view (told_line file) d.now)) }
{
    let base = specified(file, true, d.line, d.specifiers.as_slice())?;
    declare_items(
        known,
        file,
        storage_of(base.storage),
        base.ty,
        d.line,
        d.items.as_slice(),
    )
}
