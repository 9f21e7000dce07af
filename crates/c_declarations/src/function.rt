ghost use Rattle.std.specs.Prelude.{is_none};
ghost use Rattle.c_types.specs.Types.{Qualified};
ghost use Rattle.c_types.specs.Table.{StandsFor};
ghost use Rattle.typing_rules.specs.Known as what;
ghost use Rattle.typing_rules.specs.declared.refusal.TypeRefusal.TheVariants as refusal;
ghost use Rattle.typing_rules.specs.Checking.{makes, tests};
ghost use Rattle.typing_rules.specs.OrderedDeclarations.{predeclared_again, linked_in_block, function_meaning as meaning_in_order};
ghost use Rattle.typing_rules.specs.SourceViews.{item_view};
ghost use Rattle.c_values.specs.Answers.{predeclared_view};
ghost use Rattle.c_known.specs.Views.{line_in};
ghost use Rattle.c_known.specs.Gives.{Gives, IsDone};
ghost use Rattle.c_known.specs.Standing.{MeansMeaning};
ghost use Rattle.c_declarations.specs.Parts.{IsLocalItem, function_declared, without_initial, meant, meaning_found, found_and_meant};

use crate::name::{bytes_of_name, line_of_name};
use crate::none::no_initial;
use c_known::{File, Known, Meaning, Storage, predeclared, predeclared_type};
use c_linkage::links;
use c_tree::Item;
use c_typed::LocalItem;
use c_types::QualifiedRef;
use c_values::Predeclared;
use typing_rules::TypeRefusal;

/// A name has no meaning in the innermost scope yet.
fn is_free(known: &Known, line: u32, name: &[u8]) -> Result<(), TypeRefusal>
    ensures { Gives IsDone known.now known.now result
        (tests (λ k. is_none (what.found_in name.now (what.innermost k.scopes))) (refusal.Twice line)) }
{
    match known.found_here(name) {
        None => Ok(()),
        Some(_) => Err(TypeRefusal::Twice(line)),
    }
}

/// A name means this from now on in the innermost scope.
fn give_meaning(known: &mut Known, name: &[u8], meaning: Meaning) -> Result<(), TypeRefusal>
    ensures { (m : what.Meaning) → MeansMeaning known.old.types meaning m → Gives IsDone known.old known.new result (makes (what.meaning name.now m)) }
{
    match known.blocks.declare(known.alloc, name, meaning) {
        Ok(()) => Ok(()),
        Err(_) => Err(TypeRefusal::Memory),
    }
}

/// A predeclared function that is declared in a block once more.
fn again(
    known: &mut Known,
    line: u32,
    name: &[u8],
    ty: QualifiedRef,
    of: Predeclared,
) -> Result<Meaning, TypeRefusal>
    ensures { (t : Qualified) → StandsFor known.old.types ty t
        → Gives MeansMeaning known.old known.new result (predeclared_again (record { line = line; bytes = name.now }) t (predeclared_view of)) }
{
    match predeclared_type(&mut known.types, of) {
        Ok(declared) => {
            if known.types.is_one(ty.target, declared) {
                Ok(Meaning::Predeclared(of))
            } else {
                Err(TypeRefusal::Mismatch(line, 17))
            }
        }
        Err(_) => Err(TypeRefusal::Memory),
    }
}

/// A function with linkage.
fn linked(
    known: &mut Known,
    line: u32,
    name: &[u8],
    ty: QualifiedRef,
) -> Result<Meaning, TypeRefusal>
    ensures { (t : Qualified) → StandsFor known.old.types ty t
        → Gives MeansMeaning known.old known.new result (linked_in_block (record { line = line; bytes = name.now }) t) }
{
    match links(known, name, line, Storage::None, ty) {
        Ok(found) => Ok(Meaning::Linked(found.entity, found.ty)),
        Err(refusal) => Err(refusal),
    }
}

/// What the name of a function that is declared in a block means.
fn function_meaning(
    known: &mut Known,
    line: u32,
    name: &[u8],
    ty: QualifiedRef,
) -> Result<Meaning, TypeRefusal>
    ensures { (t : Qualified) → StandsFor known.old.types ty t
        → Gives MeansMeaning known.old known.new result
        (meaning_in_order (record { line = line; bytes = name.now }) t (what.found_in name.now what.predeclared_scope)) }
{
    match predeclared(name) {
        None => linked(known, line, name, ty),
        Some(Meaning::Local(_)) => linked(known, line, name, ty),
        Some(Meaning::Linked(..)) => linked(known, line, name, ty),
        Some(Meaning::Predeclared(of)) => again(known, line, name, ty, of),
        Some(Meaning::Constant(_)) => linked(known, line, name, ty),
    }
}

/// The same of an item.
fn item_meaning(
    known: &mut Known,
    file: File,
    ty: QualifiedRef,
    x: &Item,
) -> Result<Meaning, TypeRefusal>
    ensures { (t : Qualified) → StandsFor known.old.types ty t
        → Gives MeansMeaning known.old known.new result (meaning_found (item_view (line_in file) x.now) t) }
{
    let line = line_of_name(file, &x.declarator);
    function_meaning(known, line, bytes_of_name(&x.declarator), ty)
}

/// A function has no initializer, and declares no local.
fn without(known: &mut Known, file: File, x: &Item) -> Result<Option<LocalItem>, TypeRefusal>
    ensures { Gives IsLocalItem known.old known.new result (without_initial (item_view (line_in file) x.now)) }
{
    let at = line_of_name(file, &x.declarator);
    match no_initial(known, file, at, &x.initializer) {
        Ok(()) => Ok(None),
        Err(refusal) => Err(refusal),
    }
}

/// Its name means it from now on.
fn with_meaning(
    known: &mut Known,
    file: File,
    x: &Item,
    meaning: Meaning,
) -> Result<Option<LocalItem>, TypeRefusal>
    ensures { (m : what.Meaning) → MeansMeaning known.old.types meaning m
        → Gives IsLocalItem known.old known.new result (meant (item_view (line_in file) x.now) m) }
{
    match give_meaning(known, bytes_of_name(&x.declarator), meaning) {
        Ok(()) => without(known, file, x),
        Err(refusal) => Err(refusal),
    }
}

/// A function whose name is free.
fn free_function(
    known: &mut Known,
    file: File,
    ty: QualifiedRef,
    x: &Item,
) -> Result<Option<LocalItem>, TypeRefusal>
    ensures { (t : Qualified) → StandsFor known.old.types ty t
        → Gives IsLocalItem known.old known.new result (found_and_meant (item_view (line_in file) x.now) t) }
{
    match item_meaning(known, file, ty, x) {
        Ok(meaning) => with_meaning(known, file, x, meaning),
        Err(refusal) => Err(refusal),
    }
}

/// A function in a block is seen in the block alone (C11 6.2.2p5); it declares no local.
pub(crate) fn function_in_block(
    known: &mut Known,
    file: File,
    ty: QualifiedRef,
    x: &Item,
) -> Result<Option<LocalItem>, TypeRefusal>
    ensures { (t : Qualified) → StandsFor known.old.types ty t
        → Gives IsLocalItem known.old known.new result (function_declared (item_view (line_in file) x.now) t) }
{
    let line = line_of_name(file, &x.declarator);
    match is_free(known, line, bytes_of_name(&x.declarator)) {
        Ok(()) => free_function(known, file, ty, x),
        Err(refusal) => Err(refusal),
    }
}
