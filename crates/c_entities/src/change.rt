ghost use Rattle.std.specs.Prelude.{◌≡◌, ℕ, Bool as Test, true, List, [], None, Some, IfOk, OnOk, length};
ghost use Rattle.c_types.specs.declared.type_ref.Row.{Row};
ghost use Rattle.c_types.specs.Types.{Qualified};
ghost use Rattle.c_types.specs.Table.{StandsFor};
ghost use Rattle.typing_rules.specs.Known as known;
ghost use Rattle.typing_rules.specs.DeclarationRules as rule;
ghost use Rattle.c_entities.specs.Views.{AreEntities, defining_view, IsNumbered};
ghost use Rattle.c_entities.specs.Changes.{Reads, Changes, started};

use crate::entities::Entities;
use crate::entity::{Defining, Definition, Entity, File};
use c_typed::StartCell;
use c_types::{QualifiedRef, Types};
use indexmap::IndexMap;
use std::alloc::{AllocError, Global};

/// A name gets the number of its entity, if it has none.
fn number_name(
    externals: &mut IndexMap<Vec<u8>, u32>,
    alloc: Global,
    name: &[u8],
    number: u32,
) -> Result<(), AllocError>
    ensures { OnOk result (IsNumbered externals.old.entries externals.new.entries name.now true number) }
{
    if externals.contains_key(name) {
        return Ok(());
    }
    let key = name.to_vec(alloc)?;
    externals.insert(key, number)?;
    Ok(())
}

/// The same for a name with external linkage alone.
fn number_external(
    externals: &mut IndexMap<Vec<u8>, u32>,
    alloc: Global,
    name: &[u8],
    number: u32,
    is_external: bool,
) -> Result<(), AllocError>
    ensures { OnOk result (IsNumbered externals.old.entries externals.new.entries name.now is_external number) }
{
    if is_external {
        number_name(externals, alloc, name, number)
    } else {
        Ok(())
    }
}

impl Entities {
    /// The number of the next entity, if there may be one more.
    fn next(&self) -> Result<u32, AllocError>
        ensures { (rows : List Row) → Reads rows self.now (λ k. IfOk result (λ n. n ≡ length k.entities)) }
    {
        match u32::try_from(self.rows.len()) {
            Ok(number) => Ok(number),
            Err(_) => Err(AllocError),
        }
    }

    /// A new entity is declared in a file.
    pub fn add(
        &mut self,
        alloc: Global,
        file: File,
        name: &[u8],
        ty: QualifiedRef,
        is_external: bool,
    ) -> Result<u32, AllocError>
        ensures number { (rows : List Row) → Reads rows self.old (λ k. IfOk result (λ n. n ≡ length k.entities)) }
        ensures added { (rows : List Row) (t : Qualified) → StandsFor rows ty t
            → OnOk result (Changes rows file self.old self.new (rule.declared_entity None name.now t is_external)) }
    {
        let number = self.next()?;
        number_external(&mut self.externals, alloc, name, number, is_external)?;
        let name = name.to_vec(alloc)?;
        self.rows.push(Entity {
            name,
            ty,
            is_external,
            file,
            definition: Definition::Undefined,
            contents: Vec::new(alloc),
        })?;
        Ok(number)
    }

    /// An entity is declared once more, with a type that agrees with that of its declarations before.
    pub fn declare_again(&mut self, types: &Types, file: File, number: u32, ty: QualifiedRef)
        ensures { (t : Qualified) (name : List ℕ) (is_external : Test) → StandsFor types.now ty t
            → Changes types.now file self.old self.new (rule.declared_entity (Some number) name t is_external) }
    {
        if let Some(entity) = self.rows.get_mut(number as usize) {
            entity.ty.target = types.composite(entity.ty.target, ty.target);
        }
    }

    /// An entity is declared in the file, perhaps for the first time, with the line of its name.
    pub fn declare_first(&mut self, file: File, number: u32, line: u32) -> Result<(), AllocError>
        ensures { (rows : List Row) → OnOk result (Changes rows file self.old self.new (known.declared_first number line)) }
    {
        if self.declared.contains_key(&number) {
            return Ok(());
        }
        self.declared.insert(number, line)?;
        Ok(())
    }

    /// An entity is defined in a file.
    pub fn define(&mut self, file: File, how: Defining, number: u32)
        ensures { (rows : List Row) → Changes rows file self.old self.new (rule.with_definition (defining_view how) number) }
    {
        if let Some(entity) = self.rows.get_mut(number as usize) {
            entity.definition = entity.definition.defined_by(how, file);
        }
    }

    /// What an object starts with, and the type that this completes.
    pub fn start(
        &mut self,
        types: &Types,
        file: File,
        number: u32,
        ty: QualifiedRef,
        cells: Vec<StartCell>,
    )
        ensures { (t : Qualified) → StandsFor types.now ty t → Changes types.now file self.old self.new (started number t cells.items) }
    {
        if let Some(entity) = self.rows.get_mut(number as usize) {
            entity.ty.target = types.composite(entity.ty.target, ty.target);
            entity.contents = cells;
        }
    }

    /// Another file begins, which declares nothing yet.
    pub fn begin_file(&mut self)
        ensures { (rows : List Row) → Reads rows self.old (λ k. AreEntities rows self.new k.entities []) }
    {
        self.declared.clear();
    }
}
