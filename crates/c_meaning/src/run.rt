ghost use Rattle.std.specs.Prelude.{◌≡◌, ℕ, ◌∷◌, IfOk, OnOk};
ghost use Rattle.mid_code.specs.Fits.{IsValue};
ghost use Rattle.c_typed.specs.declared.program.TypedProgram.{TypedProgram as Program};
ghost use Rattle.source_meaning.specs.World.{computed};
ghost use Rattle.c_meaning.specs.Runs.{Frames, Steps, with_result};
ghost use Rattle.c_meaning.specs.Told.{did_of, IsFraming};

use crate::setting::At;
use crate::stack::Tasks;
use crate::store::{Stored, Trapped};
use crate::task::Current;
use crate::values::Values;
use c_typed::TypedProgram;
use srmt_base::{Event, Trap};
use std::alloc::AllocError;

/// What a step came to.
#[derive(Clone, Copy)]
pub(crate) enum Did {
    /// The run goes on.
    Went,
    /// It goes on, and a turn was taken.
    Turned,
    /// It goes on after an event.
    Told(Event),
    /// It has ended by undefined behaviour, or by a budget that is used up.
    Trapped(Trapped),
    /// It has ended with a status, of which 8 bits count.
    Exited(u64),
}

/// A run: what it stores, the function that runs, its pending work, and the stack of values.
#[derive(Drop)]
pub(crate) struct Run<'p> {
    pub(crate) current: Current<'p>,
    pub(crate) world: Stored,
    pub(crate) tasks: Tasks<'p>,
    pub(crate) values: Values,
}

/// The run goes on, after an event if there is one.
pub(crate) fn told(event: Option<Event>) -> Did
    ensures { result ≡ did_of event }
{
    match event {
        None => Did::Went,
        Some(event) => Did::Told(event),
    }
}

/// A trap ends the run, at a line.
pub(crate) fn trapped(trap: Trap, line: u32) -> Did
    ensures { result ≡ Did.Trapped (record { trap = trap; line = line }) }
{
    Did::Trapped(Trapped { trap, line })
}

impl<'p> Run<'p> {
    /// Where the run stands.
    pub(crate) fn at(&self, program: &'p TypedProgram) -> At<'p>
        ensures { result ≡ record { program = program.entry; current = self.now.current } }
    {
        At {
            program,
            current: self.current,
        }
    }

    /// A value goes onto the stack.
    pub(crate) fn gives(&mut self, value: u64) -> Result<Did, AllocError>
        requires { IsValue value }
        ensures values { OnOk result (self.new ≡ record self.old { values = value ∷ self.old.values }) }
        ensures went { IfOk result (λ d. d ≡ Did.Went) }
    {
        self.values.push(value)?;
        Ok(Did::Went)
    }

    /// A result goes onto the stack, or its trap ends the run at a line.
    pub(crate) fn gives_or_traps(
        &mut self,
        line: u32,
        outcome: Result<u64, Trap>,
    ) -> Result<Did, AllocError>
        requires { IfOk outcome IsValue }
        ensures steps { (p : Program) → IfOk result (Steps p (with_result p self.old (computed line outcome)) self.old self.new) }
        ensures frame { OnOk result (Frames self.old self.new) }
        ensures falls { IfOk result IsFraming }
    {
        match outcome {
            Ok(value) => self.gives(value),
            Err(trap) => Ok(trapped(trap, line)),
        }
    }
}
