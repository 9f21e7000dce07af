ghost use Rattle.std.specs.Prelude.{◌≡◌, ℕ, ◌+◌, ◌-◌, ◌^◌, ◌<◌, ◌∷◌, [], IfOk, OnOk, OnErr};
ghost use Rattle.mid_code.specs.Fits.{IsValue};
ghost use Rattle.srmt_base.specs.Budgets.{enter_of, leave_of};
ghost use Rattle.c_typed.specs.StatementViews.{program_view};
ghost use Rattle.source_meaning.specs.Calls.{parameters_begin, numbers_below};
ghost use Rattle.source_meaning.specs.Places.{all_end};
ghost use Rattle.source_meaning.specs.Sound.{CanRun};
ghost use Rattle.source_meaning.specs.World.{spends};
ghost use Rattle.c_meaning.specs.Entering as entering;
ghost use Rattle.c_meaning.specs.Lifetimes.{IsReadyAt};
ghost use Rattle.c_meaning.specs.Pending.{leave};
ghost use Rattle.c_meaning.specs.Runs.{types_of, setting_of, Changes, Leaves, Steps, IsSound, Falls, turns_of, depths_of};
ghost use Rattle.c_meaning.specs.TaskViews.{current_view};

use crate::locals::Locals;
use crate::run::{Did, Run, trapped};
use crate::setting::At;
use crate::store::{Stored, Trapped};
use crate::task::{Current, ItemsWork, Task};
use c_typed::TypedProgram;
use srmt_base::{Part, Trap};
use std::alloc::{AllocError, Global};
use std::mem;

/// A function by its number, and its part: from 1, those of the main file first.
pub(crate) fn function_at(program: &TypedProgram, number: u64) -> Option<Current>
    ensures { entering.IsFunctionAt program.now number result }
{
    if number == 0 {
        return None;
    }
    let first = program.main_file.functions.as_slice();
    let second = program.binary_file.functions.as_slice();
    let at = (number - 1) as usize;
    if at < first.len() {
        let function = first.get(at)?;
        Some(Current {
            part: Part::Protected,
            function,
        })
    } else {
        let function = second.get(at - first.len())?;
        Some(Current {
            part: Part::Binary,
            function,
        })
    }
}

impl Stored {
    /// The entry of a function is taken from the budget of its part.
    fn spend_entry(&mut self, entered: Current) -> Result<(), Trapped>
        ensures changes { Changes (spends entered.entry.function.now.line (enter_of entered.entry.part)) self.old self.new result }
        ensures spent { OnOk result (entering.TakesOne self.old.budgets self.new.budgets) }
        ensures kept { OnErr result (self.new ≡ self.old) }
        ensures locals { self.new.locals ≡ self.old.locals }
    {
        match self.budgets.of(entered.part).enter() {
            Ok(budget) => {
                self.budgets = self.budgets.with(entered.part, budget);
                Ok(())
            }
            Err(trap) => Err(Trapped {
                trap,
                line: entered.function.line,
            }),
        }
    }

    /// A parameter takes an argument, as an object of memory or in a register.
    fn begin_parameter(&mut self, at: At, number: usize, value: u64) -> Result<(), Trapped>
        requires ready { IsReadyAt at }
        requires small { IsValue value }
        ensures changes { (bound : ℕ) → Changes (entering.takes (setting_of bound at.entry) number value) self.old self.new result }
        ensures budgets { self.new.budgets ≡ self.old.budgets }
    {
        let row = at.row(number);
        if row.is_placed {
            self.begin_object(at, number)?;
            let pointer = self.locals.get(number);
            match self.memory.put(pointer, value) {
                Ok(()) => Ok(()),
                Err(trap) => Err(Trapped {
                    trap,
                    line: row.line,
                }),
            }
        } else {
            self.locals.set(number, value);
            Ok(())
        }
    }

    /// The parameters have the values of the arguments, in order (C11 6.5.2.2p4).
    fn begin_parameters(&mut self, at: At, arguments: &Locals) -> Result<(), Trapped>
        requires ready { IsReadyAt at }
        ensures changes { (bound : ℕ) → Changes (parameters_begin (setting_of bound at.entry) 0 arguments.now) self.old self.new result }
        ensures budgets { self.new.budgets ≡ self.old.budgets }
    {
        for number in 0..arguments.len() {
            self.begin_parameter(at, number, arguments.get(number))?;
        }
        Ok(())
    }

    /// The parameters end, the last first.
    fn end_parameters(&mut self, at: At)
        ensures leaves { (bound : ℕ) → Leaves (all_end (setting_of bound at.entry) (numbers_below at.entry.current.function.now.parameters)) self.old self.new }
        ensures budgets { self.new.budgets ≡ self.old.budgets }
    {
        let parameters = at.current.function.parameters as usize;
        for ended in 0..parameters {
            self.end(at, parameters - 1 - ended);
        }
    }
}

impl<'p> Run<'p> {
    /// A function is called by its number.
    pub(crate) fn enter(
        &mut self,
        alloc: Global,
        at: At<'p>,
        line: u32,
        number: u64,
        arguments: Locals,
    ) -> Result<Did, AllocError>
        requires can { CanRun (program_view at.program.now) }
        requires sound { IsSound at.program.now self.old }
        requires here { at.current ≡ self.old.current }
        ensures steps { let p = at.entry.program.now in IfOk result (Steps p (entering.called p line number arguments self.old) self.old self.new) }
        ensures sound { OnOk result (IsSound at.entry.program.now self.new) }
        ensures turned { IfOk result (Falls at.entry.program.now 0 self.old self.new) }
    {
        match function_at(at.program, number) {
            None => Ok(trapped(Trap::NotAFunction, line)),
            Some(entered) => match self.world.spend_entry(entered) {
                Ok(()) => {
                    let function = At {
                        program: at.program,
                        current: entered,
                    };
                    self.begin_body(alloc, function, &arguments)
                }
                Err(end) => Ok(Did::Trapped(end)),
            },
        }
    }

    /// Another function runs, with locals of its own, and is to be left for the one before.
    fn exchange(&mut self, alloc: Global, at: At<'p>) -> Result<(), AllocError>
        ensures { OnOk result (entering.Exchanged at.entry self.old self.new) }
    {
        let mut locals = Locals::zeros(alloc, at.current.function.locals.len())?;
        mem::swap(&mut self.world.locals, &mut locals);
        let items = at.current.function.body.items.as_slice();
        self.tasks.push(Task::Leave(self.current, locals))?;
        self.tasks.push(Task::Items(ItemsWork::End, items))?;
        self.tasks.push(Task::Items(ItemsWork::Execute, items))?;
        self.current = at.current;
        Ok(())
    }

    /// The body of a function begins, and then the function is left.
    fn begin_body(
        &mut self,
        alloc: Global,
        at: At<'p>,
        arguments: &Locals,
    ) -> Result<Did, AllocError>
        requires ready { IsReadyAt at }
        ensures steps { let p = at.entry.program.now in IfOk result (Steps p (entering.bodied at.entry arguments.now self.old) self.old self.new) }
        ensures budgets { OnOk result (self.new.world.budgets ≡ self.old.world.budgets) }
        ensures begun { OnOk result (entering.HasBody at.entry self.old self.new) }
        ensures turned { IfOk result entering.IsEntered }
    {
        self.exchange(alloc, at)?;
        match self.world.begin_parameters(at, arguments) {
            Ok(()) => {
                let items = at.current.function.body.items.as_slice();
                match self.world.begin_block(at, items) {
                    Ok(()) => Ok(Did::Turned),
                    Err(end) => Ok(Did::Trapped(end)),
                }
            }
            Err(end) => Ok(Did::Trapped(end)),
        }
    }

    /// A function is left for its caller, whose locals these are, and gives a value.
    pub(crate) fn leave(
        &mut self,
        at: At<'p>,
        caller: Current<'p>,
        locals: Locals,
        value: u64,
    ) -> Result<(), AllocError>
        requires here { at.current ≡ self.old.current }
        requires small { IsValue value }
        requires depths { depths_of self.old.world.budgets < 2 ^ 32 - 1 }
        ensures steps { OnOk result (entering.Left at.entry caller.entry locals value self.old self.new) }
        ensures values { OnOk result (self.new.values ≡ value ∷ self.old.values) }
        ensures tasks { OnOk result (self.new.tasks ≡ self.old.tasks) }
        ensures current { OnOk result (self.new.current ≡ caller.entry) }
        ensures turns { OnOk result (turns_of self.new.world.budgets ≡ turns_of self.old.world.budgets) }
        ensures depths { OnOk result (depths_of self.new.world.budgets ≡ depths_of self.old.world.budgets + 1) }
    {
        self.world.end_parameters(at);
        let part = at.current.part;
        let budget = self.world.budgets.of(part).leave();
        self.world.budgets = self.world.budgets.with(part, budget);
        self.world.locals = locals;
        self.current = caller;
        self.values.push(value)
    }
}
