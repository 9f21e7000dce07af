ghost use Rattle.std.specs.Prelude.{◌≡◌, ℕ};
ghost use Rattle.c_types.specs.Types.{Qualified};
ghost use Rattle.c_types.specs.Table.{StandsFor};
ghost use Rattle.typing_rules.specs.Known.{Linked as KnownLinked};
ghost use Rattle.typing_rules.specs.OrderedUnits as ordered;
ghost use Rattle.c_entities.specs.Views.{storage_view};
ghost use Rattle.c_known.specs.Gives.{Gives, IsSame};
ghost use Rattle.c_known.specs.Standing.{MeansLinked};
ghost use Rattle.c_typing.specs.Functions.{begun_linked, begun_named, begun_defined, begun_counted, begun_typed};

use crate::at_file::AtFile;
use c_entities::Defining;
use c_known::{Known, Linked, predeclared};
use c_linkage::{defines, links};
use typing_rules::TypeRefusal;

/// A function's type is one more of the program.
fn begin_typed(known: &mut Known, at: AtFile, entity: u32) -> Result<u32, TypeRefusal>
    ensures { (t : Qualified) → StandsFor known.old.types at.ty t
        → Gives IsSame known.old known.new result (begun_typed at.line t entity) }
{
    known.count_type(at.line, at.ty.target)?;
    Ok(entity)
}

/// A file has room for one more function.
fn begin_counted(known: &mut Known, at: AtFile, entity: u32) -> Result<u32, TypeRefusal>
    ensures { (t : Qualified) → StandsFor known.old.types at.ty t
        → Gives IsSame known.old known.new result (begun_counted at.line t entity) }
{
    known.has_room_for_function(at.line)?;
    begin_typed(known, at, entity)
}

/// A function is defined once.
fn begin_defined(known: &mut Known, at: AtFile, entity: u32) -> Result<u32, TypeRefusal>
    ensures { (t : Qualified) → StandsFor known.old.types at.ty t
        → Gives IsSame known.old known.new result (begun_defined at.line t entity) }
{
    defines(known, Defining::Fully, at.line, entity)?;
    begin_counted(known, at, entity)
}

/// Its name means it from now on.
fn begin_named(
    known: &mut Known,
    at: AtFile,
    name: &[u8],
    linked: Linked,
) -> Result<u32, TypeRefusal>
    ensures { (t : Qualified) (l : KnownLinked) → StandsFor known.old.types at.ty t → MeansLinked known.old.types linked l
        → Gives IsSame known.old known.new result (begun_named (record { line = at.line; bytes = name.now }) t l) }
{
    known.declare_at_file(name, linked)?;
    begin_defined(known, at, linked.entity)
}

/// It is declared.
fn begin_linked(known: &mut Known, at: AtFile, name: &[u8]) -> Result<u32, TypeRefusal>
    ensures { (t : Qualified) → StandsFor known.old.types at.ty t
        → Gives IsSame known.old known.new result
        (begun_linked (record { line = at.line; bytes = name.now }) (storage_view at.storage) t) }
{
    let linked = links(known, name, at.line, at.storage, at.ty)?;
    begin_named(known, at, name, linked)
}

/// A function is defined: its entity.
pub(crate) fn begin_function(known: &mut Known, at: AtFile, name: &[u8]) -> Result<u32, TypeRefusal>
    ensures { (t : Qualified) → StandsFor known.old.types at.ty t
        → Gives IsSame known.old known.new result
        (ordered.function_begun (record { line = at.line; bytes = name.now }) (storage_view at.storage) t) }
{
    match predeclared(name) {
        None => begin_linked(known, at, name),
        Some(_) => Err(TypeRefusal::Twice(at.line)),
    }
}
