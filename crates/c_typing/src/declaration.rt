ghost use Rattle.std.specs.Prelude.{◌≡◌, ℕ, List, None, option_map};
ghost use Rattle.c_types.specs.Types.{CType, Qualified};
ghost use Rattle.c_types.specs.Table.{Stands, StandsFor};
ghost use Rattle.typing_rules.specs.Known.{Linked as KnownLinked};
ghost use Rattle.typing_rules.specs.SourceViews.{initial_view};
ghost use Rattle.typing_rules.specs.OrderedUnits as ordered;
ghost use Rattle.c_values.specs.Answers.{predeclared_view};
ghost use Rattle.c_entities.specs.Views.{storage_view};
ghost use Rattle.c_known.specs.Views.{line_in as told_line};
ghost use Rattle.c_known.specs.Gives.{Gives, IsDone};
ghost use Rattle.c_known.specs.Standing.{MeansLinked};
ghost use Rattle.c_typing.specs.Steps.{declared_so, declared_same, named_so, declared_by_name, declared_typed};

use crate::at_file::AtFile;
use crate::contents::define_with;
use c_declarations::no_initial;
use c_entities::Storage;
use c_known::{Known, Linked, Meaning, predeclared, predeclared_type};
use c_linkage::{define_tentatively, links};
use c_tree::Initializer;
use c_types::TypeRef;
use c_values::Predeclared;
use typing_rules::TypeRefusal;

/// An object without an initializer is defined, unless it is declared with `extern` (C11 6.9.2p2).
fn define_without(known: &mut Known, at: AtFile, linked: Linked) -> Result<(), TypeRefusal>
    ensures { (t : Qualified) (l : KnownLinked) (bytes : List ℕ) → MeansLinked known.old.types linked l
        → Gives IsDone known.old known.new result
        (ordered.object_defined (record { line = at.line; bytes = bytes }) (storage_view at.storage) l t None) }
{
    match at.storage {
        Storage::Extern => Ok(()),
        Storage::Static | Storage::None => define_tentatively(known, at.line, linked),
    }
}

/// An object that is declared is defined where the declaration defines it (C11 6.9.2).
fn define_object(
    known: &mut Known,
    at: AtFile,
    name: &[u8],
    linked: Linked,
    x: &Option<Initializer>,
) -> Result<(), TypeRefusal>
    ensures { (t : Qualified) (l : KnownLinked) → StandsFor known.old.types at.ty t → MeansLinked known.old.types linked l
        → Gives IsDone known.old known.new result
        (ordered.object_defined (record { line = at.line; bytes = name.now }) (storage_view at.storage) l t
        (option_map (initial_view (told_line at.file)) x.now)) }
{
    match x {
        None => define_without(known, at, linked),
        Some(x) => define_with(known, at, name, linked, x),
    }
}

/// What is declared may have an initializer, if it is no function.
fn declare_so(
    known: &mut Known,
    at: AtFile,
    name: &[u8],
    linked: Linked,
    x: &Option<Initializer>,
) -> Result<(), TypeRefusal>
    ensures { (t : Qualified) (l : KnownLinked) → StandsFor known.old.types at.ty t → MeansLinked known.old.types linked l
        → Gives IsDone known.old known.new result
        (declared_so (record { line = at.line; bytes = name.now }) (storage_view at.storage) t
        (option_map (initial_view (told_line at.file)) x.now) l) }
{
    if known.types.is_function(at.ty.target) {
        no_initial(known, at.file, at.line, x)
    } else {
        define_object(known, at, name, linked, x)
    }
}

/// A name gets its meaning at file scope.
fn name_so(
    known: &mut Known,
    at: AtFile,
    name: &[u8],
    linked: Linked,
    x: &Option<Initializer>,
) -> Result<(), TypeRefusal>
    ensures { (t : Qualified) (l : KnownLinked) → StandsFor known.old.types at.ty t → MeansLinked known.old.types linked l
        → Gives IsDone known.old known.new result
        (named_so (record { line = at.line; bytes = name.now }) (storage_view at.storage) t
        (option_map (initial_view (told_line at.file)) x.now) l) }
{
    known.declare_at_file(name, linked)?;
    declare_so(known, at, name, linked, x)
}

/// An object or function is declared.
fn declare_linked(
    known: &mut Known,
    at: AtFile,
    name: &[u8],
    x: &Option<Initializer>,
) -> Result<(), TypeRefusal>
    ensures { (t : Qualified) → StandsFor known.old.types at.ty t
        → Gives IsDone known.old known.new result
        (ordered.declared_at_file (record { line = at.line; bytes = name.now }) (storage_view at.storage) t
        (option_map (initial_view (told_line at.file)) x.now)) }
{
    let linked = links(known, name, at.line, at.storage, at.ty)?;
    name_so(known, at, name, linked, x)
}

/// What is declared once more has the same type.
fn declare_same(
    known: &mut Known,
    at: AtFile,
    x: &Option<Initializer>,
    ty: TypeRef,
) -> Result<(), TypeRefusal>
    ensures { (t : Qualified) (u : CType) → StandsFor known.old.types at.ty t → Stands known.old.types ty u
        → Gives IsDone known.old known.new result
        (declared_same at.line t u (option_map (initial_view (told_line at.file)) x.now)) }
{
    if known.types.is_one(at.ty.target, ty) {
        no_initial(known, at.file, at.line, x)
    } else {
        Err(TypeRefusal::Twice(at.line))
    }
}

/// A predeclared function is declared once more, with the same type.
fn declare_again(
    known: &mut Known,
    at: AtFile,
    x: &Option<Initializer>,
    of: Predeclared,
) -> Result<(), TypeRefusal>
    ensures { (t : Qualified) (bytes : List ℕ) → StandsFor known.old.types at.ty t
        → Gives IsDone known.old known.new result
        (ordered.declared_again (record { line = at.line; bytes = bytes }) t
        (option_map (initial_view (told_line at.file)) x.now) (predeclared_view of)) }
{
    match predeclared_type(&mut known.types, of) {
        Ok(ty) => declare_same(known, at, x, ty),
        Err(_) => Err(TypeRefusal::Memory),
    }
}

/// A name is declared, which may be that of a predeclared function.
fn declare_by_name(
    known: &mut Known,
    at: AtFile,
    name: &[u8],
    x: &Option<Initializer>,
) -> Result<(), TypeRefusal>
    ensures { (t : Qualified) → StandsFor known.old.types at.ty t
        → Gives IsDone known.old known.new result
        (declared_by_name (record { line = at.line; bytes = name.now }) (storage_view at.storage) t
        (option_map (initial_view (told_line at.file)) x.now)) }
{
    match predeclared(name) {
        None => declare_linked(known, at, name, x),
        Some(Meaning::Predeclared(of)) => declare_again(known, at, x, of),
        Some(Meaning::Local(_)) => Err(TypeRefusal::Twice(at.line)),
        Some(Meaning::Linked(..)) => Err(TypeRefusal::Twice(at.line)),
        Some(Meaning::Constant(_)) => Err(TypeRefusal::Twice(at.line)),
    }
}

/// A name is declared with a type, which is not `void`.
pub(crate) fn declare_typed(
    known: &mut Known,
    at: AtFile,
    name: &[u8],
    x: &Option<Initializer>,
) -> Result<(), TypeRefusal>
    ensures { (t : Qualified) → StandsFor known.old.types at.ty t
        → Gives IsDone known.old known.new result
        (declared_typed (record { line = at.line; bytes = name.now }) (storage_view at.storage) t
        (option_map (initial_view (told_line at.file)) x.now)) }
{
    if known.types.is_void(at.ty.target) {
        Err(TypeRefusal::Mismatch(at.line, 14))
    } else {
        declare_by_name(known, at, name, x)
    }
}
