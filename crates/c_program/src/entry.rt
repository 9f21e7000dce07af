ghost use Rattle.std.specs.Prelude.{◌≡◌, []};
ghost use Rattle.srmt_base.specs.declared.ty.Ty.TheVariants.{Int};
ghost use Rattle.c_types.specs.Types.{same_type, function_of, unqualified, integer};
ghost use Rattle.c_types.specs.Table.{type_at};
ghost use Rattle.typing_rules.specs.Known.{Known as KnownProgram, entity_at};
ghost use Rattle.typing_rules.specs.UnitRules as rule;
ghost use Rattle.c_entities.specs.Views.{entity_view, definition_view};
ghost use Rattle.c_known.specs.Views.{Knows};
ghost use Rattle.c_known.specs.Gives.{Gives, IsSame};
ghost use Rattle.c_program.specs.Whole.{main_found};

use c_known::{Definition, Entity, File, Known};
use c_types::{Qualifiers, Shape, TypeRef, Types, same_qualifiers};
use srmt_base::Ty;
use typing_rules::TypeRefusal;

const PLAIN: Qualifiers = Qualifiers {
    is_const: false,
    is_volatile: false,
};

/// Whether a type is that of a function without parameters that returns an `int`.
fn is_type_of_main(types: &Types, of: TypeRef) -> bool
    ensures { result ≡ same_type (type_at types.now of) (function_of [] (unqualified (integer Int))) }
{
    let Shape::Returning(value) = types.shape(of) else {
        return false;
    };
    same_qualifiers(value.qualifiers, PLAIN)
        && types.is_one(value.target, TypeRef::Integer(Ty::Int))
}

/// Whether it is the main file that defines something, and not only tentatively.
fn is_defined_fully(definition: Definition) -> bool
    ensures { result ≡ rule.is_defined_fully (definition_view definition) }
{
    match definition {
        Definition::Undefined | Definition::Tentative(_) => false,
        Definition::Defined(file) => file.is(File::Main),
    }
}

/// Whether an entity is the function that the program begins with.
fn begins_program(types: &Types, entity: &Entity) -> bool
    ensures { result ≡ rule.begins_program (entity_view (type_at types.now) entity.now) }
{
    entity.name.as_slice() == b"main".as_slice()
        && is_defined_fully(entity.definition)
        && is_type_of_main(types, entity.ty.target)
}

/// The same of the entity of a number, if there is one.
fn begins_at(known: &Known, number: u32) -> bool
    ensures { (k : KnownProgram) → Knows known.now k → result ≡ rule.begins_program (entity_at k.entities number) }
{
    match known.entities.get(number) {
        None => false,
        Some(entity) => begins_program(&known.types, entity),
    }
}

/// The entity of `int main(void)` that the main file defines (C11 5.1.2.2.1p1).
pub fn main_entity(known: &Known) -> Result<u32, TypeRefusal>
    ensures { Gives IsSame known.now known.now result main_found }
{
    let Ok(count) = u32::try_from(known.entities.count()) else {
        return Err(TypeRefusal::Memory);
    };
    for number in 0..count {
        if begins_at(known, number) {
            return Ok(number);
        }
    }
    Err(TypeRefusal::NoMain)
}
