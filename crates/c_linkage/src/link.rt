ghost use Rattle.std.specs.Prelude.{◌≡◌, Option};
ghost use Rattle.c_types.specs.Types.{Qualified};
ghost use Rattle.c_types.specs.Table.{StandsFor};
ghost use Rattle.typing_rules.specs.Known.{Linked as KnownLinked};
ghost use Rattle.typing_rules.specs.OrderedDeclarations as ordered;
ghost use Rattle.c_entities.specs.Views.{storage_view};
ghost use Rattle.c_known.specs.Gives.{Gives};
ghost use Rattle.c_known.specs.Standing.{MeansLinked, MeansLinkedIf};
ghost use Rattle.c_linkage.specs.Linking.{linked_found, linked_agreeing, linked_same};

use crate::declare::declare;
use crate::prior::{Prior, agrees_before};
use c_entities::Storage;
use c_known::{Known, Linked};
use c_types::QualifiedRef;
use typing_rules::TypeRefusal;

/// An object or function is declared whose declarations agree in type, if they do in linkage (C11 6.2.2p7).
fn link_same(
    known: &mut Known,
    name: &[u8],
    line: u32,
    ty: QualifiedRef,
    prior: Prior,
) -> Result<Linked, TypeRefusal>
    ensures { (b : Option KnownLinked) (t : Qualified) → MeansLinkedIf known.old.types prior.before b → StandsFor known.old.types ty t
        → Gives MeansLinked known.old known.new result
        (linked_same b prior.is_external prior.old (record { line = line; bytes = name.now }) t) }
{
    if known.entities.has_linkage(prior.old, prior.is_external) {
        declare(known, name, line, ty, prior)
    } else {
        Err(TypeRefusal::Twice(line))
    }
}

/// The same, if they agree in type with the declarations in other scopes and files (C11 6.2.7p2).
fn link_agreeing(
    known: &mut Known,
    name: &[u8],
    line: u32,
    ty: QualifiedRef,
    prior: Prior,
) -> Result<Linked, TypeRefusal>
    ensures { (b : Option KnownLinked) (t : Qualified) → MeansLinkedIf known.old.types prior.before b → StandsFor known.old.types ty t
        → Gives MeansLinked known.old known.new result
        (linked_agreeing b prior.is_external prior.old (record { line = line; bytes = name.now }) t) }
{
    if known.entities.agrees_with(&known.types, prior.old, ty) {
        link_same(known, name, line, ty, prior)
    } else {
        Err(TypeRefusal::Mismatch(line, 17))
    }
}

/// The same, if they agree in type with the declarations at file scope.
fn link_found(
    known: &mut Known,
    name: &[u8],
    line: u32,
    ty: QualifiedRef,
    prior: Prior,
) -> Result<Linked, TypeRefusal>
    ensures { (b : Option KnownLinked) (t : Qualified) → MeansLinkedIf known.old.types prior.before b → StandsFor known.old.types ty t
        → Gives MeansLinked known.old known.new result
        (linked_found b prior.is_external prior.old (record { line = line; bytes = name.now }) t) }
{
    if agrees_before(&known.types, prior.before, ty) {
        link_agreeing(known, name, line, ty, prior)
    } else {
        Err(TypeRefusal::Mismatch(line, 17))
    }
}

/// A declaration of an object or function with linkage, with the line of its name: what the name means at file scope.
pub fn links(
    known: &mut Known,
    name: &[u8],
    line: u32,
    storage: Storage,
    ty: QualifiedRef,
) -> Result<Linked, TypeRefusal>
    ensures { (t : Qualified) → StandsFor known.old.types ty t
        → Gives MeansLinked known.old known.new result
        (ordered.links (record { line = line; bytes = name.now }) (storage_view storage) t) }
{
    let before = known.earlier(name);
    let is_function = known.types.is_function(ty.target);
    let is_external = known.entities.linkage(storage, is_function, before);
    let old = known.entities.declared_before(before, is_external, name);
    let prior = Prior {
        before,
        is_external,
        old,
    };
    link_found(known, name, line, ty, prior)
}
