ghost use Rattle.std.specs.Prelude.{◌≡◌, Option};
ghost use Rattle.c_types.specs.Types.{Qualified};
ghost use Rattle.c_types.specs.Table.{StandsFor};
ghost use Rattle.typing_rules.specs.Known.{Linked as KnownLinked};
ghost use Rattle.c_known.specs.Gives.{Gives, IsSame};
ghost use Rattle.c_known.specs.Standing.{MeansLinked, MeansLinkedIf};
ghost use Rattle.c_linkage.specs.Linking.{entity_declared, linked_anew};

use crate::prior::{Prior, known_type};
use c_known::{Known, Linked};
use c_types::QualifiedRef;
use typing_rules::TypeRefusal;

/// An entity is declared, a new one or an old one once more: its number.
fn declare_entity(
    known: &mut Known,
    name: &[u8],
    ty: QualifiedRef,
    prior: Prior,
) -> Result<u32, TypeRefusal>
    ensures { (t : Qualified) → StandsFor known.old.types ty t
        → Gives IsSame known.old known.new result (entity_declared prior.old name.now t prior.is_external) }
{
    match prior.old {
        Some(number) => {
            known
                .entities
                .declare_again(&known.types, known.file, number, ty);
            Ok(number)
        }
        None => {
            match known
                .entities
                .add(known.alloc, known.file, name, ty, prior.is_external)
            {
                Ok(number) => Ok(number),
                Err(_) => Err(TypeRefusal::Memory),
            }
        }
    }
}

/// The same, with the line of its name where the file declares it for the first time.
pub(crate) fn declare(
    known: &mut Known,
    name: &[u8],
    line: u32,
    ty: QualifiedRef,
    prior: Prior,
) -> Result<Linked, TypeRefusal>
    ensures { (b : Option KnownLinked) (t : Qualified) → MeansLinkedIf known.old.types prior.before b → StandsFor known.old.types ty t
        → Gives MeansLinked known.old known.new result
        (linked_anew b prior.is_external prior.old (record { line = line; bytes = name.now }) t) }
{
    let linked_type = known_type(&known.types, prior.before, ty);
    let entity = declare_entity(known, name, ty, prior)?;
    match known.entities.declare_first(known.file, entity, line) {
        Ok(()) => Ok(Linked {
            entity,
            ty: linked_type,
        }),
        Err(_) => Err(TypeRefusal::Memory),
    }
}
