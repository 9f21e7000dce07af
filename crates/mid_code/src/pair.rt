ghost use Rattle.std.specs.Prelude.{◌≡◌};
ghost use Rattle.std.specs.Option.{option_copied};
ghost use Rattle.mid_code.specs.Versions.{version_at};

use crate::class::{Class, Shared};
use crate::program::MidProgram;
use crate::version::{Version, VersionLine};
use sqlite_items::Items;
use std::marker::Model;

/// A valid program with what is shared of its protected functions, and the class and the site of
/// each of their instructions.
#[derive(Debug, Drop)]
pub struct Classed {
    program: MidProgram,
    shared: Items<Shared>,
    classes: Items<Items<Class>>,
}

impl Model for Classed {
    ghost use Rattle.std.specs.Prelude.{◌≡◌};
    ghost use Rattle.mid_code.specs.Classes.{SharedProgram, classes_of, shared_program};
    ghost use Rattle.mid_code.specs.Pairs.{HasSites};

    ghost Value = { SharedProgram };

    ghost view = { λ c. shared_program c.program c.shared };

    ghost invariant = { λ c. HasSites (shared_program c.program c.shared) × (c.classes ≡ classes_of (shared_program c.program c.shared)) };
}

impl Classed {
    ghost use Rattle.std.specs.Prelude.{◌≡◌};
    ghost use Rattle.mid_code.specs.Classes.{classes_of, shared_program};
    ghost use Rattle.mid_code.specs.Pairs.{HasSites};

    /// A program with the classes of its instructions, a row for each protected function.
    pub fn new(program: MidProgram, shared: Items<Shared>, classes: Items<Items<Class>>) -> Self
        requires sites { HasSites (shared_program program shared) }
        requires classes { classes ≡ classes_of (shared_program program shared) }
        ensures { result ≡ shared_program program shared }
    {
        Classed {
            program,
            shared,
            classes,
        }
    }

    pub fn program(&self) -> &MidProgram
        ensures same { result.now ≡ self.now.program }
        ensures sites { HasSites self.now }
    {
        &self.program
    }

    /// What is shared of each protected function.
    pub fn shared(&self) -> &Items<Shared>
        ensures { result.now ≡ self.now.shared }
    {
        &self.shared
    }

    pub fn classes(&self) -> &Items<Items<Class>>
        ensures { result.now ≡ classes_of self.now }
    {
        &self.classes
    }
}

/// A program in the versions that the two threads run.
#[derive(Debug, Drop)]
pub struct Pair {
    program: Classed,
    leading: Items<Version>,
    trailing: Items<Version>,
}

impl Model for Pair {
    ghost use Rattle.std.specs.Prelude.{◌≡◌};
    ghost use Rattle.mid_code.specs.Classes.{SharedProgram};
    ghost use Rattle.mid_code.specs.Versions.{leading_versions, trailing_versions};

    ghost Value = { SharedProgram };

    ghost view = { λ p. p.program };

    ghost invariant = { λ p. (p.leading ≡ leading_versions p.program) × (p.trailing ≡ trailing_versions p.program) };
}

impl Pair {
    ghost use Rattle.std.specs.Prelude.{◌≡◌};
    ghost use Rattle.std.specs.Option.{option_copied};
    ghost use Rattle.mid_code.specs.Pairs.{HasSites};
    ghost use Rattle.mid_code.specs.Versions.{leading_versions, trailing_versions, version_at};

    /// A program with its versions, one of each kind for each protected function.
    pub fn new(program: Classed, leading: Items<Version>, trailing: Items<Version>) -> Self
        requires leading { leading ≡ leading_versions program }
        requires trailing { trailing ≡ trailing_versions program }
        ensures { result ≡ program }
    {
        Pair {
            program,
            leading,
            trailing,
        }
    }

    pub fn classed(&self) -> &Classed
        ensures same { result.now ≡ self.now }
        ensures sites { HasSites self.now }
    {
        let program = &self.program;
        let _program = program.program();
        program
    }

    /// The instruction at a place of the leading version of a function, the first of which is 1.
    pub fn leading_at(&self, function: u16, place: usize) -> Option<&VersionLine>
        ensures { option_copied result ≡ version_at (leading_versions self.now) function place }
    {
        line_at(&self.leading, function, place)
    }

    /// The instruction at a place of the trailing version of a function.
    pub fn trailing_at(&self, function: u16, place: usize) -> Option<&VersionLine>
        ensures { option_copied result ≡ version_at (trailing_versions self.now) function place }
    {
        line_at(&self.trailing, function, place)
    }
}

fn line_at(versions: &Items<Version>, function: u16, place: usize) -> Option<&VersionLine>
    ensures { option_copied result ≡ version_at versions.now function place }
{
    if function == 0 {
        return None;
    }
    let version = versions.get(usize::from(function) - 1)?;
    version.code.get(place)
}
