ghost use Rattle.std.specs.Prelude.{◌≡◌};
ghost use Rattle.c_types.specs.Types.{Qualified};
ghost use Rattle.c_types.specs.Table.{StandsFor};
ghost use Rattle.typing_rules.specs.Known.{Linked as KnownLinked};
ghost use Rattle.typing_rules.specs.OrderedUnits as ordered;
ghost use Rattle.c_entities.specs.Views.{defining_view};
ghost use Rattle.c_known.specs.Gives.{Gives, IsDone, IsSame};
ghost use Rattle.c_known.specs.Standing.{MeansLinked};
ghost use Rattle.c_linkage.specs.Linking.{tentatively_complete};

use c_entities::Defining;
use c_known::{Known, Linked};
use c_types::QualifiedRef;
use typing_rules::TypeRefusal;

/// An entity is defined, in one file and there once (C11 6.9p3, p5): whether it is so for the first time.
pub fn defines(
    known: &mut Known,
    how: Defining,
    line: u32,
    number: u32,
) -> Result<bool, TypeRefusal>
    ensures { Gives IsSame known.old known.new result (ordered.defines (defining_view how) line number) }
{
    let before = known.entities.definition(number);
    if before.allows(how, known.file) {
        known.entities.define(known.file, how, number);
        Ok(before.is_undefined())
    } else {
        Err(TypeRefusal::Twice(line))
    }
}

/// The cells of an object whose type is complete are counted, where a test holds.
pub fn count_if(
    known: &mut Known,
    test: bool,
    line: u32,
    ty: QualifiedRef,
) -> Result<(), TypeRefusal>
    ensures { (t : Qualified) → StandsFor known.old.types ty t → Gives IsDone known.old known.new result (ordered.counted_if test line t) }
{
    if test {
        let cells = known.types.size(ty.target).cells;
        known.count_cells(line, cells)
    } else {
        Ok(())
    }
}

/// An object with a complete type is defined without an initializer.
fn define_complete(known: &mut Known, line: u32, linked: Linked) -> Result<(), TypeRefusal>
    ensures { (l : KnownLinked) → MeansLinked known.old.types linked l → Gives IsDone known.old known.new result (tentatively_complete line l) }
{
    let is_first = defines(known, Defining::Tentatively, line, linked.entity)?;
    count_if(known, is_first, line, linked.ty)
}

/// An object is defined without an initializer (C11 6.9.2p2, p3).
pub fn define_tentatively(known: &mut Known, line: u32, linked: Linked) -> Result<(), TypeRefusal>
    ensures { (l : KnownLinked) → MeansLinked known.old.types linked l → Gives IsDone known.old known.new result (ordered.defined_tentatively line l) }
{
    if known.types.is_complete(linked.ty.target) {
        define_complete(known, line, linked)
    } else {
        Err(TypeRefusal::Mismatch(line, 15))
    }
}
