ghost use Rattle.std.specs.Prelude.{◌≡◌, ◌&&◌, not, map, IfOk};
ghost use Rattle.c_types.specs.Types.{Qualified, is_complete};
ghost use Rattle.c_types.specs.Table.{StandsFor};
ghost use Rattle.typing_rules.specs.Known.{Linked as KnownLinked, linked as linked_to, with_file_meaning};
ghost use Rattle.typing_rules.specs.SourceViews.{initial_view};
ghost use Rattle.typing_rules.specs.DeclarationRules as rule;
ghost use Rattle.typing_rules.specs.UnitRules.{with_contents};
ghost use Rattle.typing_rules.specs.Checking.{makes};
ghost use Rattle.typing_rules.specs.OrderedUnits as ordered;
ghost use Rattle.c_entities.specs.Changes.{Reads, started};
ghost use Rattle.c_known.specs.Views.{line_in as told_line};
ghost use Rattle.c_known.specs.Gives.{Gives, IsDone};
ghost use Rattle.c_known.specs.Standing.{MeansLinked};
ghost use Rattle.c_declarations.specs.Parts.{MeansInitialized};
ghost use Rattle.c_typing.specs.Contents.{cell_start, agrees_in, contents_counted, contents_agreeing, contents_given, defined_then};

use crate::at_file::AtFile;
use c_declarations::{Initialized, cells_given};
use c_entities::Defining;
use c_known::{Known, Linked};
use c_linkage::{count_if, defines};
use c_starts::start_of;
use c_tree::Initializer;
use c_typed::{Cell, Start, StartCell};
use c_types::{QualifiedRef, Types};
use std::alloc::{AllocError, Global};
use typing_rules::TypeRefusal;

/// What a cell starts with whose value is a constant.
fn or_zero(start: Option<Start>) -> Start
    ensures { result ≡ rule.or_zero start }
{
    match start {
        Some(start) => start,
        None => Start::Number(0),
    }
}

/// What a given cell of a static object starts with (C11 6.7.9p4).
fn start_cell(types: &Types, cell: &Cell) -> StartCell
    ensures { result ≡ cell_start types.now cell.now }
{
    StartCell {
        index: cell.index,
        start: or_zero(start_of(types, &cell.value)),
    }
}

/// What the given cells of a static object start with.
fn start_cells(alloc: Global, types: &Types, cells: &[Cell]) -> Result<Vec<StartCell>, AllocError>
    ensures { IfOk result (λ starts. starts.items ≡ map (cell_start types.now) cells.now) }
{
    let mut starts = Vec::new(alloc);
    for cell in cells {
        starts.push(start_cell(types, cell))?;
    }
    Ok(starts)
}

/// What an object starts with becomes known, and the type that its initializer completes.
fn start_object(known: &mut Known, number: u32, done: Initialized) -> Result<(), TypeRefusal>
    ensures { (i : rule.Initialized) → MeansInitialized known.old.types done i
        → Gives IsDone known.old known.new result (makes (started number i.type (rule.starts_of i.given))) }
{
    match start_cells(known.alloc, &known.types, done.given.as_slice()) {
        Ok(cells) => {
            known
                .entities
                .start(&known.types, known.file, number, done.ty, cells);
            Ok(())
        }
        Err(_) => Err(TypeRefusal::Memory),
    }
}

/// A name of file scope has a type that an initializer completes.
fn complete_name(
    known: &mut Known,
    name: &[u8],
    linked: Linked,
    ty: QualifiedRef,
) -> Result<(), TypeRefusal>
    ensures { (l : KnownLinked) (t : Qualified) → MeansLinked known.old.types linked l → StandsFor known.old.types ty t
        → Gives IsDone known.old known.new result
        (makes (with_file_meaning name.now (linked_to l.entity (rule.composed l.type t)))) }
{
    let completed = QualifiedRef {
        qualifiers: linked.ty.qualifiers,
        target: known.types.composite(linked.ty.target, ty.target),
    };
    known.declare_at_file(
        name,
        Linked {
            entity: linked.entity,
            ty: completed,
        },
    )
}

/// What an object starts with becomes known, and its type to all its names.
fn set_contents(
    known: &mut Known,
    line: u32,
    name: &[u8],
    linked: Linked,
    done: Initialized,
) -> Result<(), TypeRefusal>
    ensures { (l : KnownLinked) (i : rule.Initialized) → MeansLinked known.old.types linked l → MeansInitialized known.old.types done i
        → Gives IsDone known.old known.new result (makes (with_contents (record { line = line; bytes = name.now }) l i)) }
{
    let ty = done.ty;
    start_object(known, linked.entity, done)?;
    complete_name(known, name, linked, ty)
}

/// Whether the cells of an object are counted before its initializer: its type is complete.
fn counts_before(types: &Types, is_first: bool, linked: Linked) -> bool
    ensures { (l : KnownLinked) → MeansLinked types.now linked l → result ≡ is_first && is_complete l.type.type }
{
    is_first && types.is_complete(linked.ty.target)
}

/// Whether they are counted after it: its initializer completes its type.
fn counts_after(types: &Types, is_first: bool, linked: Linked) -> bool
    ensures { (l : KnownLinked) → MeansLinked types.now linked l → result ≡ is_first && not (is_complete l.type.type) }
{
    is_first && !types.is_complete(linked.ty.target)
}

/// The same after the cells of an object are counted whose type its initializer completes.
fn count_contents(
    known: &mut Known,
    line: u32,
    name: &[u8],
    linked: Linked,
    is_first: bool,
    done: Initialized,
) -> Result<(), TypeRefusal>
    ensures { (l : KnownLinked) (i : rule.Initialized) → MeansLinked known.old.types linked l → MeansInitialized known.old.types done i
        → Gives IsDone known.old known.new result (contents_counted (record { line = line; bytes = name.now }) l is_first i) }
{
    let counts = counts_after(&known.types, is_first, linked);
    count_if(known, counts, line, done.ty)?;
    set_contents(known, line, name, linked, done)
}

/// Whether a type that an initializer completes agrees with the declarations of an object (C11 6.7p4).
fn agrees(known: &Known, linked: Linked, ty: QualifiedRef) -> bool
    ensures { (l : KnownLinked) (t : Qualified) → MeansLinked known.now.types linked l → StandsFor known.now.types ty t
        → Reads known.now.types known.now.entities (λ k. result ≡ agrees_in l t k.entities) }
{
    known.types.may_be_one(ty, linked.ty)
        && known
            .types
            .may_be_one(ty, known.entities.type_of(linked.entity))
}

/// The same where the type that its initializer completes agrees with the declarations of the object.
fn agree_contents(
    known: &mut Known,
    line: u32,
    name: &[u8],
    linked: Linked,
    is_first: bool,
    done: Initialized,
) -> Result<(), TypeRefusal>
    ensures { (l : KnownLinked) (i : rule.Initialized) → MeansLinked known.old.types linked l → MeansInitialized known.old.types done i
        → Gives IsDone known.old known.new result (contents_agreeing (record { line = line; bytes = name.now }) l is_first i) }
{
    if agrees(known, linked, done.ty) {
        count_contents(known, line, name, linked, is_first, done)
    } else {
        Err(TypeRefusal::Mismatch(line, 17))
    }
}

/// The same with its initializer (C11 6.7.9).
fn give_contents(
    known: &mut Known,
    at: AtFile,
    name: &[u8],
    linked: Linked,
    is_first: bool,
    x: &Initializer,
) -> Result<(), TypeRefusal>
    ensures { (t : Qualified) (l : KnownLinked) → StandsFor known.old.types at.ty t → MeansLinked known.old.types linked l
        → Gives IsDone known.old known.new result
        (contents_given (record { line = at.line; bytes = name.now }) l t (initial_view (told_line at.file) x.now) is_first) }
{
    let done = cells_given(known, at.file, true, at.line, at.ty, x)?;
    agree_contents(known, at.line, name, linked, is_first, done)
}

/// An object is defined, perhaps for the first time: its cells are counted where its type is complete before.
fn define_then(
    known: &mut Known,
    at: AtFile,
    name: &[u8],
    linked: Linked,
    is_first: bool,
    x: &Initializer,
) -> Result<(), TypeRefusal>
    ensures { (t : Qualified) (l : KnownLinked) → StandsFor known.old.types at.ty t → MeansLinked known.old.types linked l
        → Gives IsDone known.old known.new result
        (defined_then (record { line = at.line; bytes = name.now }) l t (initial_view (told_line at.file) x.now) is_first) }
{
    let counts = counts_before(&known.types, is_first, linked);
    count_if(known, counts, at.line, linked.ty)?;
    give_contents(known, at, name, linked, is_first, x)
}

/// An object with an initializer is defined (C11 6.9.2p1).
pub(crate) fn define_with(
    known: &mut Known,
    at: AtFile,
    name: &[u8],
    linked: Linked,
    x: &Initializer,
) -> Result<(), TypeRefusal>
    ensures { (t : Qualified) (l : KnownLinked) → StandsFor known.old.types at.ty t → MeansLinked known.old.types linked l
        → Gives IsDone known.old known.new result
        (ordered.defined_with (record { line = at.line; bytes = name.now }) l t (initial_view (told_line at.file) x.now)) }
{
    let is_first = defines(known, Defining::Fully, at.line, linked.entity)?;
    define_then(known, at, name, linked, is_first, x)
}
