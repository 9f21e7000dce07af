ghost use Rattle.std.specs.Prelude.{◌≡◌, List, ◌++◌, map, Err, OnOk, OnErr};
ghost use Rattle.c_types.specs.Types.{Qualified};
ghost use Rattle.c_types.specs.Table.{StandsFor};
ghost use Rattle.typing_rules.specs.declared.refusal.TypeRefusal.TheVariants as refusal;
ghost use Rattle.typing_rules.specs.SourceViews.{declaration_view, item_view};
ghost use Rattle.typing_rules.specs.OrderedDeclarations.{declared_in_block as declared, item_in_block as item_declared, items_in_block as items_declared};
ghost use Rattle.c_known.specs.Views.{line_in};
ghost use Rattle.c_known.specs.Gives.{Gives};
ghost use Rattle.c_declarators.specs.Trees.{declarator_in};
ghost use Rattle.c_declarations.specs.Parts.{AreLocalItems, IsLocalItem, type_declared, as_declared, one_or_none};

use crate::function::function_in_block;
use crate::object::object_in_block;
use c_declarators::{derived, lines_of, specified};
use c_known::{File, Known};
use c_terms::derivations;
use c_tree::{Declaration, Declarator, Item};
use c_typed::LocalItem;
use c_types::QualifiedRef;
use sqlite_items::Items;
use typing_rules::TypeRefusal;

/// The type of a declarator behind specifiers on a line.
fn declared_type(
    known: &mut Known,
    file: File,
    base: QualifiedRef,
    specifiers: u32,
    d: &Declarator,
) -> Result<QualifiedRef, TypeRefusal>
    ensures { (t : Qualified) → StandsFor known.old.types base t
        → Gives StandsFor known.old known.new result (type_declared t (line_in file specifiers) (declarator_in file d.now)) }
{
    let lines = lines_of(file, specifiers, d);
    match derivations(known, file, lines, d) {
        Ok(ds) => derived(known, lines, base, ds.as_slice()),
        Err(refusal) => Err(refusal),
    }
}

/// What declares a local, if it is an object of a type and not a function.
fn declared_as(
    known: &mut Known,
    file: File,
    ty: QualifiedRef,
    x: &Item,
) -> Result<Option<LocalItem>, TypeRefusal>
    ensures { (t : Qualified) → StandsFor known.old.types ty t
        → Gives IsLocalItem known.old known.new result (as_declared (item_view (line_in file) x.now) t) }
{
    if known.types.is_function(ty.target) {
        function_in_block(known, file, ty, x)
    } else {
        object_in_block(known, file, ty, x)
    }
}

/// The local that an item of a declaration declares, if it is no function.
fn item_in_block(
    known: &mut Known,
    file: File,
    base: QualifiedRef,
    specifiers: u32,
    x: &Item,
) -> Result<Option<LocalItem>, TypeRefusal>
    ensures { (t : Qualified) → StandsFor known.old.types base t
        → Gives IsLocalItem known.old known.new result (item_declared t (line_in file specifiers) (item_view (line_in file) x.now)) }
{
    match declared_type(known, file, base, specifiers, &x.declarator) {
        Ok(ty) => declared_as(known, file, ty, x),
        Err(refusal) => Err(refusal),
    }
}

/// Adds a local, if there is one.
fn add(items: &mut Items<LocalItem>, found: Option<LocalItem>) -> Result<(), TypeRefusal>
    ensures added { OnOk result (items.new ≡ items.old ++ one_or_none found) }
    ensures memory { OnErr result (result ≡ Err refusal.Memory) }
{
    let Some(item) = found else {
        return Ok(());
    };
    match items.push(item) {
        Ok(()) => Ok(()),
        Err(_) => Err(TypeRefusal::Memory),
    }
}

/// Those that the items declare, in order.
fn items_in_block(
    known: &mut Known,
    file: File,
    base: QualifiedRef,
    specifiers: u32,
    xs: &[Item],
) -> Result<Items<LocalItem>, TypeRefusal>
    ensures { (t : Qualified) → StandsFor known.old.types base t
        → Gives AreLocalItems known.old known.new result (items_declared t (line_in file specifiers) (map (item_view (line_in file)) xs.now)) }
{
    let mut items = Items::new(known.alloc);
    for x in xs {
        let found = item_in_block(known, file, base, specifiers, x)?;
        add(&mut items, found)?;
    }
    Ok(items)
}

/// The locals that a declaration in a block declares (C11 6.7).
pub fn declared_in_block(
    known: &mut Known,
    file: File,
    d: &Declaration,
) -> Result<Items<LocalItem>, TypeRefusal>
    ensures { Gives AreLocalItems known.old known.new result (declared (declaration_view (line_in file) d.now)) }
{
    match specified(file, false, d.line, d.specifiers.as_slice()) {
        Ok(said) => items_in_block(known, file, said.ty, d.line, d.items.as_slice()),
        Err(refusal) => Err(refusal),
    }
}
