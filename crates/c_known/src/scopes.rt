ghost use Rattle.std.specs.Prelude.{Ok, is_none, option_map, option_copied};
ghost use Rattle.typing_rules.specs.Known as known;
ghost use Rattle.typing_rules.specs.declared.refusal.TypeRefusal.TheVariants as refusal;
ghost use Rattle.typing_rules.specs.SourceViews.{named_view};
ghost use Rattle.typing_rules.specs.Checking.{makes, tests};
ghost use Rattle.typing_rules.specs.OrderedParts.{declares, named_local};
ghost use Rattle.c_known.specs.Views.{line_in as told_line};
ghost use Rattle.c_known.specs.Gives.{Gives, IsDone};
ghost use Rattle.c_known.specs.Standing.{MeansMeaning, MeansLinked};

use crate::known::Known;
use crate::lines::line_in;
use crate::local::Meaning;
use crate::refusals::needs;
use c_entities::{File, Linked};
use c_tree::Name;
use typing_rules::TypeRefusal;

impl Known {
    /// Begins a scope of a block or of a list of parameters (C11 6.2.1p4).
    pub fn open(&mut self) -> Result<(), TypeRefusal>
        ensures { Gives IsDone self.old self.new result (makes known.opened) }
    {
        match self.blocks.open() {
            Ok(()) => Ok(()),
            Err(_) => Err(TypeRefusal::Memory),
        }
    }

    /// Ends the innermost scope.
    pub fn close(&mut self)
        ensures { Gives IsDone self.old self.new (Ok result) (makes known.closed) }
    {
        self.blocks.close();
    }

    /// A name is not declared in the innermost scope yet.
    fn is_free(&self, line: u32, name: &[u8]) -> Result<(), TypeRefusal>
        ensures { Gives IsDone self.now self.now result (tests (λ k. is_none (known.found_in name.now (known.innermost k.scopes))) (refusal.Twice line)) }
    {
        needs(
            self.blocks.lookup_here(name).is_none(),
            TypeRefusal::Twice(line),
        )
    }

    /// A name means this from now on in the innermost scope.
    fn give_meaning(&mut self, name: &[u8], meaning: Meaning) -> Result<(), TypeRefusal>
        ensures { (m : known.Meaning) → MeansMeaning self.old.types meaning m → Gives IsDone self.old self.new result (makes (known.meaning name.now m)) }
    {
        match self.blocks.declare(self.alloc, name, meaning) {
            Ok(()) => Ok(()),
            Err(_) => Err(TypeRefusal::Memory),
        }
    }

    /// A name gets its meaning in the innermost scope, where it has none yet (C11 6.7p3).
    pub fn declare(&mut self, line: u32, name: &[u8], meaning: Meaning) -> Result<(), TypeRefusal>
        ensures { (m : known.Meaning) → MeansMeaning self.old.types meaning m
            → Gives IsDone self.old self.new result (declares (record { line = line; bytes = name.now }) m) }
    {
        self.is_free(line, name)?;
        self.give_meaning(name, meaning)
    }

    /// The number of a new local is meant by its name, if it has one.
    pub fn name_local(
        &mut self,
        file: File,
        name: Option<&Name>,
        number: u32,
    ) -> Result<(), TypeRefusal>
        ensures { Gives IsDone self.old self.new result
            (named_local (option_map (named_view (told_line file)) (option_copied name.entry)) number) }
    {
        match name {
            None => Ok(()),
            Some(name) => self.declare(
                line_in(file, name.line),
                name.bytes.as_slice(),
                Meaning::Local(number),
            ),
        }
    }

    /// A name gets its meaning at file scope.
    pub fn declare_at_file(&mut self, name: &[u8], linked: Linked) -> Result<(), TypeRefusal>
        ensures { (l : known.Linked) → MeansLinked self.old.types linked l
            → Gives IsDone self.old self.new result (makes (known.with_file_meaning name.now (known.linked l.entity l.type))) }
    {
        match self.names.declare(self.alloc, name, linked) {
            Ok(()) => Ok(()),
            Err(_) => Err(TypeRefusal::Memory),
        }
    }
}
