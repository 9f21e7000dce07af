ghost use Rattle.std.specs.Prelude.{List, Ok, IfOk, option_map};
ghost use Rattle.c_types.specs.declared.type_ref.Row.{Row};
ghost use Rattle.c_types.specs.Types.{Qualified};
ghost use Rattle.c_types.specs.Table.{StandsFor};
ghost use Rattle.typing_rules.specs.DeclarationRules as rule;
ghost use Rattle.typing_rules.specs.OrderedDeclarations.{local_initialized as initializes};
ghost use Rattle.typing_rules.specs.SourceViews.{item_view, initial_view};
ghost use Rattle.c_known.specs.Views.{line_in};
ghost use Rattle.typing_rules.specs.Known as what;
ghost use Rattle.typing_rules.specs.Checking.{makes};
ghost use Rattle.typing_rules.specs.OrderedParts.{declares};
ghost use Rattle.c_known.specs.Gives.{Gives, IsDone};
ghost use Rattle.c_known.specs.Standing.{MeansLocal};
ghost use Rattle.c_declarations.specs.Parts.{IsLocalItem, object_declared, MeansInitialized, MeansInitializerIf, item_name, new_object, sized, numbered, named, added, given, completes};

use crate::initializer::{Initialized, cells_given};
use crate::name::{bytes_of_name, line_of_name};
use c_declarators::first_of_declarator;
use c_known::{File, Known, Local, Meaning};
use c_tree::{Initializer, Item};
use c_typed::{Initializer as TypedInitializer, LocalItem};
use c_types::{QualifiedRef, Types};
use sqlite_items::Items;
use std::alloc::{AllocError, Global};
use typing_rules::TypeRefusal;

/// What a local of a type is initialized with.
fn initializer_of(types: &Types, done: Initialized) -> Option<TypedInitializer>
    ensures { (i : rule.Initialized) → MeansInitialized types.now done i → MeansInitializerIf types.now result (rule.initializer_of i.type.type i.given) }
{
    if types.is_array(done.ty.target) {
        Some(TypedInitializer::Cells(Items::from_vec(done.given)))
    } else {
        match done.given.into_iter().next() {
            None => None,
            Some(cell) => Some(TypedInitializer::Scalar(cell.value)),
        }
    }
}

/// A local has the type that its initializer completes.
fn completed(known: &mut Known, number: u32, done: Initialized) -> Option<TypedInitializer>
    ensures { (i : rule.Initialized) → MeansInitialized known.old.types done i
        → Gives MeansInitializerIf known.old known.new (Ok result) (completes number i) }
{
    known.complete_local(number, done.ty);
    initializer_of(&known.types, done)
}

/// What a local is initialized with, if it is (C11 6.7.9).
fn local_initialized(
    known: &mut Known,
    file: File,
    at: u32,
    number: u32,
    ty: QualifiedRef,
    x: &Option<Initializer>,
) -> Result<Option<TypedInitializer>, TypeRefusal>
    ensures { (t : Qualified) → StandsFor known.old.types ty t
        → Gives MeansInitializerIf known.old known.new result (initializes at number t (option_map (initial_view (line_in file)) x.now)) }
{
    match x {
        None => Ok(None),
        Some(x) => match cells_given(known, file, false, at, ty, x) {
            Ok(done) => Ok(completed(known, number, done)),
            Err(refusal) => Err(refusal),
        },
    }
}

/// A local that stands among the others, with its initializer.
fn given_object(
    known: &mut Known,
    file: File,
    number: u32,
    ty: QualifiedRef,
    x: &Item,
) -> Result<Option<LocalItem>, TypeRefusal>
    ensures { (t : Qualified) → StandsFor known.old.types ty t
        → Gives IsLocalItem known.old known.new result (given (item_view (line_in file) x.now) t number) }
{
    let at = line_of_name(file, &x.declarator);
    match local_initialized(known, file, at, number, ty, &x.initializer) {
        Ok(initializer) => Ok(Some(LocalItem {
            number,
            initializer,
        })),
        Err(refusal) => Err(refusal),
    }
}

/// An object as a local.
fn local_of(alloc: Global, file: File, ty: QualifiedRef, x: &Item) -> Result<Local, AllocError>
    ensures { (rows : List Row) (t : Qualified) → StandsFor rows ty t → IfOk result (λ l. MeansLocal rows l (new_object (item_view (line_in file) x.now) t)) }
{
    Ok(Local {
        name: Some(bytes_of_name(&x.declarator).to_vec(alloc)?),
        line: line_of_name(file, &x.declarator),
        first: first_of_declarator(file, &x.declarator),
        ty,
        is_addressed: false,
    })
}

/// It stands among the locals.
fn add_object(known: &mut Known, file: File, ty: QualifiedRef, x: &Item) -> Result<(), TypeRefusal>
    ensures { (t : Qualified) → StandsFor known.old.types ty t
        → Gives IsDone known.old known.new result (makes (what.with_local (new_object (item_view (line_in file) x.now) t))) }
{
    match local_of(known.alloc, file, ty, x) {
        Ok(local) => known.add_local(local),
        Err(_) => Err(TypeRefusal::Memory),
    }
}

/// A new local whose name is declared.
fn added_object(
    known: &mut Known,
    file: File,
    number: u32,
    ty: QualifiedRef,
    x: &Item,
) -> Result<Option<LocalItem>, TypeRefusal>
    ensures { (t : Qualified) → StandsFor known.old.types ty t
        → Gives IsLocalItem known.old known.new result (added (item_view (line_in file) x.now) t number) }
{
    match add_object(known, file, ty, x) {
        Ok(()) => given_object(known, file, number, ty, x),
        Err(refusal) => Err(refusal),
    }
}

/// A name is that of a local with a number.
fn name_object(known: &mut Known, file: File, number: u32, x: &Item) -> Result<(), TypeRefusal>
    ensures { Gives IsDone known.old known.new result (declares (item_name (item_view (line_in file) x.now)) (what.local number)) }
{
    let line = line_of_name(file, &x.declarator);
    known.declare(line, bytes_of_name(&x.declarator), Meaning::Local(number))
}

/// A new local with its number.
fn named_object(
    known: &mut Known,
    file: File,
    number: u32,
    ty: QualifiedRef,
    x: &Item,
) -> Result<Option<LocalItem>, TypeRefusal>
    ensures { (t : Qualified) → StandsFor known.old.types ty t
        → Gives IsLocalItem known.old known.new result (named (item_view (line_in file) x.now) t number) }
{
    match name_object(known, file, number, x) {
        Ok(()) => added_object(known, file, number, ty, x),
        Err(refusal) => Err(refusal),
    }
}

/// A new local of a type that an object may have.
fn numbered_object(
    known: &mut Known,
    file: File,
    ty: QualifiedRef,
    x: &Item,
) -> Result<Option<LocalItem>, TypeRefusal>
    ensures { (t : Qualified) → StandsFor known.old.types ty t
        → Gives IsLocalItem known.old known.new result (numbered (item_view (line_in file) x.now) t) }
{
    match known.local_count() {
        Ok(number) => named_object(known, file, number, ty, x),
        Err(refusal) => Err(refusal),
    }
}

/// An object whose type is no `void`: it is complete, or its initializer completes it.
fn sized_object(
    known: &mut Known,
    file: File,
    ty: QualifiedRef,
    x: &Item,
) -> Result<Option<LocalItem>, TypeRefusal>
    ensures { (t : Qualified) → StandsFor known.old.types ty t
        → Gives IsLocalItem known.old known.new result (sized (item_view (line_in file) x.now) t) }
{
    if x.initializer.is_some() || known.types.is_complete(ty.target) {
        numbered_object(known, file, ty, x)
    } else {
        Err(TypeRefusal::Mismatch(line_of_name(file, &x.declarator), 15))
    }
}

/// An object in a block is a local, known from its declarator on (C11 6.2.1p7).
pub(crate) fn object_in_block(
    known: &mut Known,
    file: File,
    ty: QualifiedRef,
    x: &Item,
) -> Result<Option<LocalItem>, TypeRefusal>
    ensures { (t : Qualified) → StandsFor known.old.types ty t
        → Gives IsLocalItem known.old known.new result (object_declared (item_view (line_in file) x.now) t) }
{
    if known.types.is_void(ty.target) {
        Err(TypeRefusal::Mismatch(line_of_name(file, &x.declarator), 14))
    } else {
        sized_object(known, file, ty, x)
    }
}
