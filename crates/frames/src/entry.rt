ghost use Rattle.std.specs.Prelude.{◌≡◌, ◌+◌, ◌^◌, ◌<◌, ◌≤◌, length, Some, OnOk, OnErr, IfErr, All};
ghost use Rattle.mid_code.specs.Fits.{IsValue};
ghost use Rattle.mid_code.specs.Registers.{registers_list};
ghost use Rattle.mid_code.specs.Machine.{Entered, Refused as Refuses, returned, part_of_function};
ghost use Rattle.frames.specs.Kept.{TakesResult};
ghost use Rattle.frames.specs.Acts.{IsThere, CanEnter, called, entered_above};

use crate::frames::Frames;
use mid_code::{MidProgram, Registers};
use srmt_base::{Budget, Part, Trap};

/// Why a function was not entered: its part has no live activation or no turn left, which is told at
/// the line of its name.
#[derive(Clone, Copy, Debug, PartialEq, Eq)]
pub struct Refused {
    pub trap: Trap,
    pub line: u32,
}

/// The part of a function.
pub fn part_of(program: &MidProgram, function: u16) -> Part
    ensures { result ≡ part_of_function program.now function }
{
    if function <= program.main_functions {
        Part::Protected
    } else {
        Part::Binary
    }
}

impl Frames {
    /// Enters a function that the newest activation calls, with its registers as the arguments. The
    /// caller has then passed its call.
    pub fn call(
        &mut self,
        program: &MidProgram,
        function: u16,
        args: &Registers,
        into: u16,
    ) -> Result<(), Refused>
        requires place { self.old.machine.top.place + 1 < 2 ^ 32 }
        requires can { CanEnter program.now function (length (registers_list args.now)) }
        requires there { All (IsThere self.old.machine.top) (registers_list args.now) }
        ensures ok { OnOk result (called program.now function args.now into self.old.machine ≡ Entered self.new.machine) }
        ensures refused { IfErr result (λ r. called program.now function args.now into self.old.machine ≡ Refuses r.trap r.line) }
        ensures room { self.new.room ≡ self.old.room }
        ensures err { OnErr result (self.new ≡ self.old) }
    {
        let Some(code) = program.function(function) else {
            unreachable!();
        };
        let part = part_of(program, function);
        match self.budgets().of(part).enter() {
            Ok(budget) => {
                self.set_budget(part, budget);
                self.pass();
                self.push_from(function, code.kinds.len() as u16, args.as_slice(), into);
                Ok(())
            }
            Err(trap) => Err(Refused {
                trap,
                line: code.line,
            }),
        }
    }

    /// Enters a function above all activations, which stay as they are.
    pub fn enter(
        &mut self,
        program: &MidProgram,
        function: u16,
        args: &[u64],
        into: u16,
    ) -> Result<(), Refused>
        requires can { CanEnter program.now function (length args.now) }
        requires small { All IsValue args.now }
        ensures ok { OnOk result (entered_above program.now function args.now into self.old.machine ≡ Entered self.new.machine) }
        ensures refused { IfErr result (λ r. entered_above program.now function args.now into self.old.machine ≡ Refuses r.trap r.line) }
        ensures room { self.new.room ≡ self.old.room }
        ensures err { OnErr result (self.new ≡ self.old) }
    {
        let Some(code) = program.function(function) else {
            unreachable!();
        };
        let part = part_of(program, function);
        match self.budgets().of(part).enter() {
            Ok(budget) => {
                self.set_budget(part, budget);
                self.push(function, code.kinds.len() as u16, args, into);
                Ok(())
            }
            Err(trap) => Err(Refused {
                trap,
                line: code.line,
            }),
        }
    }

    /// Leaves the newest activation, whose caller takes the result.
    pub fn leave(&mut self, program: &MidProgram, value: u64)
        requires caller { TakesResult self.old.machine.top.into self.old.machine.below }
        requires small { IsValue value }
        ensures returns { returned program.now value self.old.machine ≡ Some self.new.machine }
        ensures room { self.new.room ≡ self.old.room }
    {
        let part = part_of(program, self.function());
        let into = self.target();
        let left = self.budgets().of(part);
        self.pop();
        self.take(into, value);
        self.set_budget(part, left.leave());
    }
}
