ghost use Rattle.std.specs.Prelude.{Ok, ℕ, List, length, take, drop};
ghost use Rattle.c_types.specs.Types.{Qualified};
ghost use Rattle.c_types.specs.Table.{StandsFor};
ghost use Rattle.c_typed.specs.Typed as tree;
ghost use Rattle.typing_rules.specs.Known as known;
ghost use Rattle.typing_rules.specs.UnitRules.{function_opened, function_closed};
ghost use Rattle.typing_rules.specs.Checking.{makes, asks};
ghost use Rattle.typing_rules.specs.OrderedParts.{marked};
ghost use Rattle.c_values.specs.Stand.{MeansPlace};
ghost use Rattle.c_known.specs.Gives.{Gives, IsDone, IsSame};
ghost use Rattle.c_known.specs.Standing.{MeansLocal, MeanLocals, MeanVec, AreRows};
ghost use Rattle.c_known.specs.Locals.{list_ended};

use crate::known::Known;
use crate::local::Local;
use crate::local_rows::{address, complete, count, local_number, rows_of, scope_of};
use c_scopes::Blocks;
use c_typed::{LocalRow, Place};
use c_types::QualifiedRef;
use sqlite_items::Items;
use typing_rules::TypeRefusal;

impl Known {
    /// `&` is applied to a place (C11 6.5.3.2): a local stands in memory from now on.
    pub fn mark(&mut self, place: &Place)
        ensures { (line : ℕ) (type : Qualified) (node : tree.PlaceNode) → MeansPlace self.old.types place.now (tree.place line type node)
            → Gives IsDone self.old self.new (Ok result) (marked node) }
    {
        if let Some(number) = local_number(&place.node) {
            address(&mut self.locals, number);
        }
    }

    /// How many locals the function has so far.
    pub fn local_count(&self) -> Result<u32, TypeRefusal>
        ensures { Gives IsSame self.now self.now result (asks (λ k. length k.locals)) }
    {
        count(self.locals.len())
    }

    /// A new local of the function.
    pub fn add_local(&mut self, local: Local) -> Result<(), TypeRefusal>
        ensures { (l : known.Local) → MeansLocal self.old.types local l → Gives IsDone self.old self.new result (makes (known.with_local l)) }
    {
        match self.locals.push(local) {
            Ok(()) => Ok(()),
            Err(_) => Err(TypeRefusal::Memory),
        }
    }

    /// The type of a local whose initializer completes it (C11 6.7.9p22).
    pub fn complete_local(&mut self, number: u32, ty: QualifiedRef)
        ensures { (type : Qualified) → StandsFor self.old.types ty type
            → Gives IsDone self.old self.new (Ok result) (makes (known.local_completed number type)) }
    {
        complete(&mut self.locals, number, ty);
    }

    /// The end of a list of parameters, whose scope ends too: the locals from a number on, which are its parameters and
    /// no longer locals of the function.
    pub fn end_parameters(&mut self, before: u32) -> Result<Vec<Local>, TypeRefusal>
        ensures { Gives MeanVec self.old self.new result (list_ended before) }
    {
        let len = self.locals.as_slice().len();
        let before = len.min(before as usize);
        match self.locals.split_off(before) {
            Ok(parameters) => {
                self.blocks.close();
                Ok(parameters)
            }
            Err(_) => Err(TypeRefusal::Memory),
        }
    }

    /// The body of a function begins, in the scope of its parameters (C11 6.2.1p4).
    pub fn open_function(&mut self, parameters: Vec<Local>) -> Result<(), TypeRefusal>
        ensures { (ps : List known.Local) → MeanLocals self.old.types parameters.items ps
            → Gives IsDone self.old self.new result (makes (function_opened ps)) }
    {
        if self.functions == u32::MAX {
            return Err(TypeRefusal::Memory);
        }
        match scope_of(self.alloc, parameters.as_slice()) {
            Ok(scope) => {
                self.blocks = scope;
                self.locals = parameters;
                self.functions += 1;
                Ok(())
            }
            Err(_) => Err(TypeRefusal::Memory),
        }
    }

    /// The rows of the function's locals.
    pub fn rows(&self) -> Result<Items<LocalRow>, TypeRefusal>
        ensures { Gives AreRows self.now self.now result (asks (λ k. k.locals)) }
    {
        match rows_of(self.alloc, &self.types, self.locals.as_slice()) {
            Ok(rows) => Ok(rows),
            Err(_) => Err(TypeRefusal::Memory),
        }
    }

    /// The end of a function's body.
    pub fn close_function(&mut self)
        ensures { Gives IsDone self.old self.new (Ok result) (makes function_closed) }
    {
        self.blocks = Blocks::new(self.alloc);
        self.locals.clear();
    }
}
