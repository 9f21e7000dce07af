ghost use Rattle.std.specs.Prelude.{◌≡◌, Ok, IfOk, IfErr, [], ◌∷◌};
ghost use Rattle.typing_rules.specs.declared.refusal.TypeRefusal.TheVariants.{Memory};
ghost use Rattle.typing_rules.specs.UnitRules.{nothing_known, binary_begun};
ghost use Rattle.typing_rules.specs.Checking.{makes};
ghost use Rattle.c_known.specs.Views.{Knows};
ghost use Rattle.c_known.specs.Gives.{Gives, IsDone};

use crate::known::Known;
use c_entities::{Entities, File, Linked};
use c_scopes::Blocks;
use c_types::Types;
use indexmap::IndexSet;
use std::alloc::{AllocError, Global};
use typing_rules::TypeRefusal;

/// The scope of a file, in which nothing is declared yet.
fn file_names(alloc: Global) -> Result<Blocks<Linked>, AllocError>
    ensures { IfOk result (λ names. names ≡ [] ∷ []) }
{
    let mut names = Blocks::new(alloc);
    names.open()?;
    Ok(names)
}

impl Known {
    /// What is known before the main file.
    pub fn new(alloc: Global) -> Result<Known, TypeRefusal>
        ensures known { IfOk result (λ k. Knows k nothing_known) }
        ensures memory { IfErr result (λ refusal. refusal ≡ Memory) }
    {
        match file_names(alloc) {
            Ok(names) => Ok(Known {
                alloc,
                types: Types::new(alloc),
                file: File::Main,
                blocks: Blocks::new(alloc),
                names,
                entities: Entities::new(alloc),
                locals: Vec::new(alloc),
                texts: Vec::new(alloc),
                static_cells: 0,
                functions: 0,
                function_types: IndexSet::new(alloc),
                uses: Vec::new(alloc),
            }),
            Err(_) => Err(TypeRefusal::Memory),
        }
    }

    /// The binary file begins.
    pub fn begin_binary(&mut self) -> Result<(), TypeRefusal>
        ensures { Gives IsDone self.old self.new result (makes binary_begun) }
    {
        match file_names(self.alloc) {
            Ok(names) => {
                self.begin(names);
                Ok(())
            }
            Err(_) => Err(TypeRefusal::Memory),
        }
    }

    /// The binary file begins with a scope of its own.
    fn begin(&mut self, names: Blocks<Linked>)
        ensures { names ≡ [] ∷ [] → Gives IsDone self.old self.new (Ok result) (makes binary_begun) }
    {
        self.file = File::Binary;
        self.blocks = Blocks::new(self.alloc);
        self.names = names;
        self.entities.begin_file();
        self.locals.clear();
        self.texts.clear();
        self.static_cells = 0;
        self.functions = 0;
    }
}
