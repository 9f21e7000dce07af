ghost use Rattle.std.specs.Prelude.{◌≡◌, IfOk, IfErr, OnOk, List, ◌∷◌, []};
ghost use Rattle.c_types.specs.declared.type_ref.Row.{Row};
ghost use Rattle.c_types.specs.declared.type_ref.TypeRef.{TypeRef as TypeRef'};
ghost use Rattle.c_types.specs.Types.{CType};
ghost use Rattle.c_types.specs.Table.{type_at};
ghost use Rattle.c_typed.specs.StatementViews.{static_view};
ghost use Rattle.typing_rules.specs.declared.refusal.TypeRefusal.TheVariants.{Memory};
ghost use Rattle.typing_rules.specs.Known as known_of;
ghost use Rattle.typing_rules.specs.UnitRules as rule;
ghost use Rattle.typing_rules.specs.Checking.{asks};
ghost use Rattle.c_entities.specs.Views.{file_view, definition_view, entity_view};
ghost use Rattle.c_known.specs.Views.{Knows};
ghost use Rattle.c_known.specs.Gives.{Gives};
ghost use Rattle.c_program.specs.Whole.{AreStatics};
ghost use Rattle.c_program.specs.Statics.{IsEntity, MoreStatics, is_static, static_if};

use c_known::{Definition, Entity, File, Known};
use c_typed::Static;
use c_types::Types;
use sqlite_items::Items;
use std::alloc::{AllocError, Global};
use typing_rules::TypeRefusal;

/// Whether it is this file that defines something, perhaps only tentatively.
fn is_defined_in(file: File, definition: Definition) -> bool
    ensures { result ≡ rule.is_defined_in (file_view file) (definition_view definition) }
{
    match definition {
        Definition::Undefined => false,
        Definition::Tentative(other) | Definition::Defined(other) => file.is(other),
    }
}

/// Whether an entity is an object that a file defines.
fn is_defined_object(types: &Types, file: File, entity: &Entity) -> bool
    ensures { result ≡ is_static (file_view file) (entity_view (type_at types.now) entity.now) }
{
    !types.is_function(entity.ty.target) && is_defined_in(file, entity.definition)
}

/// The static object that an entity is, with the line of its first declaration in the file.
fn static_of(alloc: Global, entity: &Entity, number: u32, line: u32) -> Result<Static, AllocError>
    ensures { (types : TypeRef' → CType) → IfOk result (λ x.
        static_view types x ≡ rule.static_of (record { entity = number; line = line }) (entity_view types entity.now)) }
{
    Ok(Static {
        entity: number,
        line,
        ty: entity.ty,
        cells: Items::from_slice(alloc, entity.contents.as_slice())?,
    })
}

/// A static object stands behind the others.
fn add_object(
    found: &mut Items<Static>,
    alloc: Global,
    entity: &Entity,
    number: u32,
    line: u32,
) -> Result<(), TypeRefusal>
    ensures added { (rows : List Row) (e : known_of.Entity) → IsEntity rows entity.now e
        → OnOk result (MoreStatics rows found.old found.new (rule.static_of (record { entity = number; line = line }) e ∷ [])) }
    ensures memory { IfErr result (λ e. e ≡ Memory) }
{
    match static_of(alloc, entity, number, line) {
        Ok(object) => match found.push(object) {
            Ok(()) => Ok(()),
            Err(_) => Err(TypeRefusal::Memory),
        },
        Err(_) => Err(TypeRefusal::Memory),
    }
}

/// An entity stands behind the others, if it is an object that the file defines.
fn add_entity(
    known: &Known,
    found: &mut Items<Static>,
    entity: &Entity,
    number: u32,
    line: u32,
) -> Result<(), TypeRefusal>
    ensures added { (e : known_of.Entity) → IsEntity known.now.types entity.now e
        → OnOk result (MoreStatics known.now.types found.old found.new (static_if (file_view known.now.file) (record { entity = number; line = line }) e)) }
    ensures memory { IfErr result (λ e. e ≡ Memory) }
{
    if is_defined_object(&known.types, known.file, entity) {
        add_object(found, known.alloc, entity, number, line)
    } else {
        Ok(())
    }
}

/// The same of the entity of a number, if there is one.
fn add_declared(
    known: &Known,
    found: &mut Items<Static>,
    number: u32,
    line: u32,
) -> Result<(), TypeRefusal>
    ensures added { (k : known_of.Known) → Knows known.now k
        → OnOk result (MoreStatics known.now.types found.old found.new (rule.statics_of k.file k.entities (record { entity = number; line = line } ∷ []))) }
    ensures memory { IfErr result (λ e. e ≡ Memory) }
{
    match known.entities.get(number) {
        None => Ok(()),
        Some(entity) => add_entity(known, found, entity, number, line),
    }
}

/// The static objects that the file defines, in the order of their first declarations in it.
pub fn statics(known: &Known) -> Result<Items<Static>, TypeRefusal>
    ensures { Gives AreStatics known.now known.now result (asks (λ k. rule.statics_of k.file k.entities k.declared)) }
{
    let mut found = Items::new(known.alloc);
    for index in 0..usize::MAX {
        let Some((number, line)) = known.entities.first(index) else {
            return Ok(found);
        };
        add_declared(known, &mut found, number, line)?;
    }
    // No memory holds so many declarations.
    Err(TypeRefusal::Memory)
}
