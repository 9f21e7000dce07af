ghost use Rattle.std.specs.Prelude.{◌≡◌, List, [], length, option_map, option_copied, slice_get};
ghost use Rattle.c_types.specs.declared.type_ref.Row.{Row};
ghost use Rattle.c_types.specs.Table.{type_at, StandsFor};
ghost use Rattle.typing_rules.specs.Known as known;
ghost use Rattle.c_entities.specs.Views.{AreEntities, entity_view, definition_view, first_view};
ghost use Rattle.c_entities.specs.Changes.{Reads};

use crate::entity::{Definition, Entity};
use c_types::{QualifiedRef, Qualifiers, TypeRef};
use indexmap::IndexMap;
use std::alloc::Global;

/// The entities of a program, by their number in the order of their first declaration in either file.
#[derive(Drop)]
pub struct Entities {
    pub(crate) rows: Vec<Entity>,
    /// Those that this file declares, in the order of their first declaration in it, each with the line of its name.
    pub(crate) declared: IndexMap<u32, u32>,
    /// Those with external linkage, by their names.
    pub(crate) externals: IndexMap<Vec<u8>, u32>,
}

const NO_TYPE: QualifiedRef = QualifiedRef {
    qualifiers: Qualifiers {
        is_const: false,
        is_volatile: false,
    },
    target: TypeRef::Void,
};

impl Entities {
    /// No entity.
    pub fn new(alloc: Global) -> Self
        ensures { (rows : List Row) → AreEntities rows result [] [] }
    {
        Entities {
            rows: Vec::new(alloc),
            declared: IndexMap::new(alloc),
            externals: IndexMap::new(alloc),
        }
    }

    /// An entity, if there is one of a number.
    pub fn get(&self, number: u32) -> Option<&Entity>
        ensures { (rows : List Row) → Reads rows self.now (λ k.
            option_map (entity_view (type_at rows)) (option_copied result) ≡ slice_get k.entities number) }
    {
        self.rows.get(number as usize)
    }

    /// How many entities there are.
    pub fn count(&self) -> usize
        ensures { (rows : List Row) → Reads rows self.now (λ k. result ≡ length k.entities) }
    {
        self.rows.len()
    }

    /// The number of an entity that the file declares, and the line of its first declaration there, by the order of
    /// these.
    pub fn first(&self, index: usize) -> Option<(u32, u32)>
        ensures { (rows : List Row) → Reads rows self.now (λ k. option_map first_view result ≡ slice_get k.declared index) }
    {
        match self.declared.get_index(index) {
            None => None,
            Some((number, line)) => Some((*number, *line)),
        }
    }

    /// Whether an entity has external linkage.
    pub fn is_external(&self, number: u32) -> bool
        ensures { (rows : List Row) → Reads rows self.now (λ k. result ≡ (known.entity_at k.entities number).is_external) }
    {
        match self.get(number) {
            None => false,
            Some(entity) => entity.is_external,
        }
    }

    /// The type that the declarations of an entity give it; `void` where there is none of the number.
    pub fn type_of(&self, number: u32) -> QualifiedRef
        ensures { (rows : List Row) → Reads rows self.now (λ k. StandsFor rows result (known.entity_at k.entities number).type) }
    {
        match self.get(number) {
            None => NO_TYPE,
            Some(entity) => entity.ty,
        }
    }

    /// Whether an entity is defined, and where.
    pub fn definition(&self, number: u32) -> Definition
        ensures { (rows : List Row) → Reads rows self.now (λ k.
            definition_view result ≡ (known.entity_at k.entities number).definition) }
    {
        match self.get(number) {
            None => Definition::Undefined,
            Some(entity) => entity.definition,
        }
    }

    /// Whether an entity is the function that the program begins with.
    pub fn is_main(&self, number: u32) -> bool
        ensures { (rows : List Row) → Reads rows self.now (λ k. result ≡ known.is_main (known.entity_at k.entities number)) }
    {
        match self.get(number) {
            None => false,
            Some(entity) => entity.is_main(),
        }
    }

    /// The entity with external linkage that has a name (C11 6.2.2p2).
    pub fn external(&self, name: &[u8]) -> Option<u32>
        ensures { (rows : List Row) → Reads rows self.now (λ k. result ≡ known.external_from 0 name.now k.entities) }
    {
        self.externals.get(name).copied()
    }
}
