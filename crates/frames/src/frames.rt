ghost use Rattle.std.specs.Prelude.{◌≡◌, ℕ, ◌+◌, ◌-◌, ◌^◌, ◌<◌, ◌≤◌, List, [], ◌∷◌, ◌++◌, Option, Some, None, length, map, take, drop, slice_index, IfOk, All, vec_len, vec_capacity};
ghost use Rattle.srmt_base.specs.Args.{args_list};
ghost use Rattle.srmt_base.specs.Budgets.{budget_of, with_budget};
ghost use Rattle.mid_code.specs.Valid.{IsValid};
ghost use Rattle.mid_code.specs.Fits.{IsValue, IsWithin, open_count};
ghost use Rattle.mid_code.specs.Meaning.{State, Comes};
ghost use Rattle.mid_code.specs.Registers.{registers_list};
ghost use Rattle.mid_code.specs.Machine.{activations, arguments, passed, moved_to, given, given_object, passed_close, resumed, register, with_top};
ghost use Rattle.frames.specs.Kept.{with_machine, depths, fresh, pushed, IsPopped, newest_number};
ghost use Rattle.frames.specs.Acts.{IsThere};
ghost use Rattle.frames.specs.Alone.{IsWithinCode, ComesAlone};
ghost use Rattle.frames.specs.Copied.{CanCopyAll, CopiesNone, CopiesMany, IsHeldOn, CopiesManyOn};

use crate::alone::{Stand, run_code};
use crate::copied::{Run, run_copied};
use crate::entry::part_of;
use crate::memory::Memory;
use mid_code::{MidProgram, Pair, Registers};
use srmt_base::{Args, Budget, Budgets, Part, Side};
use std::alloc::{AllocError, Global};
use std::marker::Model;

/// What there is room for.
#[derive(Clone, Copy, Debug, PartialEq, Eq)]
pub struct Room {
    /// How many activations may live, at most 4,096.
    pub activations: u32,
    /// How many objects they may have open, at most 2^22.
    pub objects: u32,
}

/// What the table keeps of an activation.
#[derive(Clone, Copy, Debug)]
struct Line {
    /// The number of its function.
    function: u16,
    /// The register of its caller that takes its result.
    into: u16,
    /// How many registers it has.
    count: u16,
    /// The place of its next instruction.
    place: u32,
    /// Where its registers begin in the row.
    base: u32,
    /// Where its open objects begin in the row.
    floor: u32,
    /// How many objects it has open.
    held: u32,
}

/// An object that an activation has begun and not ended.
#[derive(Clone, Copy, Debug)]
struct Begun {
    /// The place of the instruction that began it.
    place: u32,
    number: u32,
}

/// The live activations, in one row of registers and one of open objects, with a table of where
/// they lie; and what is left of the budgets.
#[derive(Debug, Drop)]
pub struct Frames {
    room: Room,
    top: Line,
    below: Vec<Line>,
    registers: Vec<u64>,
    objects: Vec<Begun>,
    budgets: Budgets,
}

impl Model for Frames {
    ghost use Rattle.std.specs.Prelude.{◌+◌, vec_capacity};
    ghost use Rattle.frames.specs.Kept.{Kept, machine_in, AreKept};

    ghost Value = { Kept };

    ghost view = { λ s. record { machine = machine_in s.registers.items s.objects.items s.top s.below.items s.budgets; room = s.room } };

    ghost invariant = { λ s. AreKept s.room s.registers.items s.objects.items s.top s.below.items s.budgets
        (vec_capacity s.registers) (vec_capacity s.objects) (vec_capacity s.below) };
}

impl Frames {
    /// Takes the memory for all that there is room for: 8,224 bytes for each activation, and 8 for
    /// each open object. One function with `count` registers, all 0, has begun.
    pub fn start(
        alloc: Global,
        function: u16,
        count: u16,
        budgets: Budgets,
        room: Room,
    ) -> Result<Self, AllocError>
        requires count { count ≤ 1024 }
        requires depths { 1 + depths budgets ≤ room.activations }
        requires activations { room.activations ≤ 4096 }
        requires objects { room.objects ≤ 2 ^ 22 }
        ensures machine { IfOk result (λ f. f.machine ≡ record { top = fresh function count [] 0; below = []; budgets = budgets }) }
        ensures room { IfOk result (λ f. f.room ≡ room) }
    {
        let mut registers = Vec::with_capacity(alloc, 1024 * room.activations as usize)?;
        registers.resize(usize::from(count), 0)?;
        Ok(Frames {
            room,
            top: Line {
                function,
                into: 0,
                count,
                place: 0,
                base: 0,
                floor: 0,
                held: 0,
            },
            below: Vec::with_capacity(alloc, room.activations as usize)?,
            registers,
            objects: Vec::with_capacity(alloc, room.objects as usize)?,
            budgets,
        })
    }

    /// The number of the newest activation's function.
    pub fn function(&self) -> u16
        ensures { result ≡ self.now.machine.top.function }
    {
        self.top.function
    }

    /// The place of its next instruction.
    pub fn place(&self) -> u32
        ensures { result ≡ self.now.machine.top.place }
    {
        self.top.place
    }

    /// The register of its caller that takes its result.
    pub fn target(&self) -> u16
        ensures { result ≡ self.now.machine.top.into }
    {
        self.top.into
    }

    /// How many activations are below the newest.
    pub fn height(&self) -> usize
        ensures { result ≡ length self.now.machine.below }
    {
        self.below.len()
    }

    /// What a register of the newest activation holds.
    pub fn read(&self, register: u16) -> u64
        requires { IsThere self.now.machine.top register }
        ensures value { result ≡ slice_index self.now.machine.top.registers register }
        ensures small { IsValue result }
    {
        self.registers[self.top.base as usize + usize::from(register)]
    }

    /// What the registers that a call passes hold.
    pub fn values(&self, registers: &Registers) -> Args
        requires { All (IsThere self.now.machine.top) (registers_list registers.now) }
        ensures { args_list result ≡ arguments self.now.machine.top registers.now }
    {
        let mut args = Args::new();
        for register in registers.as_slice() {
            args.push(self.read(*register));
        }
        args
    }

    /// What is left of the budgets. There is room for all activations that they allow.
    pub fn budgets(&self) -> Budgets
        ensures budgets { result ≡ self.now.machine.budgets }
        ensures room { length (activations self.now.machine) + depths self.now.machine.budgets ≤ self.now.room.activations }
        ensures bounded { self.now.room.activations ≤ 4096 }
    {
        self.budgets
    }

    /// Another budget of a part is left, which may allow as many activations as there is room for.
    pub fn set_budget(&mut self, part: Part, budget: Budget)
        requires room { length (activations self.old.machine) + depths (with_budget part budget self.old.machine.budgets) ≤ self.old.room.activations }
        ensures { let m = self.old.machine in self.new ≡ with_machine (record m { budgets = with_budget part budget m.budgets }) self.old }
    {
        self.budgets = self.budgets.with(part, budget);
    }

    /// Passes the instruction.
    pub fn pass(&mut self)
        requires { self.old.machine.top.place + 1 < 2 ^ 32 }
        ensures { let m = self.old.machine in self.new ≡ with_machine (with_top (passed m.top) m) self.old }
    {
        self.top.place += 1;
    }

    /// Goes to a place.
    pub fn go(&mut self, place: u32)
        ensures { let m = self.old.machine in self.new ≡ with_machine (with_top (moved_to place m.top) m) self.old }
    {
        self.top.place = place;
    }

    /// Passes the instruction, with a value in its target register.
    pub fn give(&mut self, target: u16, value: u64)
        requires place { self.old.machine.top.place + 1 < 2 ^ 32 }
        requires target { IsThere self.old.machine.top target }
        requires small { IsValue value }
        ensures { let m = self.old.machine in self.new ≡ with_machine (with_top (given target value m.top) m) self.old }
    {
        self.top.place += 1;
        self.registers[self.top.base as usize + usize::from(target)] = value;
    }

    /// A register of the newest activation takes a value, and it stands where it stood.
    pub fn take(&mut self, register: u16, value: u64)
        requires register { IsThere self.old.machine.top register }
        requires small { IsValue value }
        ensures { let m = self.old.machine in self.new ≡ with_machine (with_top (resumed register value m.top) m) self.old }
    {
        self.registers[self.top.base as usize + usize::from(register)] = value;
    }

    /// Passes the instruction, with the address of a new object of a number in its target register.
    pub fn begin(&mut self, target: u16, number: u32)
        requires place { self.old.machine.top.place + 1 < 2 ^ 32 }
        requires target { IsThere self.old.machine.top target }
        requires number { number < 2 ^ 28 }
        requires room { open_count (activations self.old.machine) < self.old.room.objects }
        ensures { let m = self.old.machine in self.new ≡ with_machine (with_top (given_object target number m.top) m) self.old }
    {
        let place = self.top.place;
        let Ok(()) = self.objects.push(Begun { place, number }) else {
            unreachable!();
        };
        self.top.held += 1;
        self.top.place += 1;
        let at = self.top.base as usize + usize::from(target);
        self.registers[at] = u64::from(number) * 65536;
    }

    /// The number of the newest open object of the newest activation.
    pub fn newest(&self) -> Option<u32>
        ensures { result ≡ newest_number self.now.machine.top.opened }
    {
        if self.top.held == 0 {
            return None;
        }
        Some(self.objects[self.objects.len() - 1].number)
    }

    /// Passes the instruction, and no longer has its newest object open.
    pub fn finish(&mut self)
        requires place { self.old.machine.top.place + 1 < 2 ^ 32 }
        requires some { 1 ≤ length self.old.machine.top.opened }
        ensures { let m = self.old.machine in self.new ≡ with_machine (with_top (passed_close m.top) m) self.old }
    {
        let len = self.objects.len();
        self.objects.truncate(len - 1);
        self.top.held -= 1;
        self.top.place += 1;
    }

    /// Begins an activation with `count` registers above the newest, and takes no budget for it. The
    /// values go into its first registers.
    pub fn push(&mut self, function: u16, count: u16, values: &[u64], into: u16)
        requires count { count ≤ 1024 }
        requires few { length values.now ≤ count }
        requires small { All IsValue values.now }
        requires room { length (activations self.old.machine) + depths self.old.machine.budgets < self.old.room.activations }
        ensures { let m = self.old.machine in self.new ≡ with_machine (pushed (fresh function count values.now into) m) self.old }
    {
        let Ok(()) = self.below.push(self.top) else {
            unreachable!();
        };
        let base = self.registers.len();
        let Ok(()) = self.registers.extend_from_slice(values) else {
            unreachable!();
        };
        let Ok(()) = self.registers.resize(base + usize::from(count), 0) else {
            unreachable!();
        };
        self.top = Line {
            function,
            into,
            count,
            place: 0,
            base: base as u32,
            floor: self.objects.len() as u32,
            held: 0,
        };
    }

    /// The same, where the values are those of registers of the newest activation.
    pub fn push_from(&mut self, function: u16, count: u16, args: &[u16], into: u16)
        requires count { count ≤ 1024 }
        requires few { length args.now ≤ count }
        requires each { All (IsThere self.old.machine.top) args.now }
        requires room { length (activations self.old.machine) + depths self.old.machine.budgets < self.old.room.activations }
        ensures { let m = self.old.machine in self.new ≡ with_machine (pushed (fresh function count (map (register m.top) args.now) into) m) self.old }
    {
        let caller = self.top;
        let Ok(()) = self.below.push(caller) else {
            unreachable!();
        };
        let base = self.registers.len();
        append_arguments(&mut self.registers, caller.base as usize, args);
        let Ok(()) = self.registers.resize(base + usize::from(count), 0) else {
            unreachable!();
        };
        self.top = Line {
            function,
            into,
            count,
            place: 0,
            base: base as u32,
            floor: self.objects.len() as u32,
            held: 0,
        };
    }

    /// Leaves the newest activation, and gives no budget for it.
    pub fn pop(&mut self)
        requires { 1 ≤ length self.old.machine.below }
        ensures machine { IsPopped self.old.machine.below self.old.machine self.new.machine }
        ensures room { self.new.room ≡ self.old.room }
    {
        self.registers.truncate(self.top.base as usize);
        self.objects.truncate(self.top.floor as usize);
        let Some(caller) = self.below.pop() else {
            unreachable!();
        };
        self.top = caller;
    }

    /// Goes on while the instructions of the newest activation need its registers, its place, the
    /// turns of its part and cells of memory alone.
    pub fn run_alone(&mut self, program: &MidProgram, memory: &mut Memory)
        requires valid { IsValid program.now }
        requires within { IsWithin program.now self.old.machine.top }
        ensures comes { (s : State) → s.machine ≡ self.old.machine → s.memory ≡ memory.old → Comes program.now s [] (record s { machine = self.new.machine; memory = memory.new }) }
        ensures room { self.new.room ≡ self.old.room }
    {
        let part = part_of(program, self.top.function);
        let left = self.budgets.of(part);
        let stand = Stand {
            place: self.top.place,
            turns: left.turns,
        };
        let base = self.top.base as usize;
        let function = self.top.function;
        let end = run_row(program, function, &mut self.registers, base, memory, stand);
        self.top.place = end.place;
        let left = Budget {
            turns: end.turns,
            depth: left.depth,
        };
        self.budgets = self.budgets.with(part, left);
    }

    /// Goes on in a side's version while its instructions are copied ones that need the registers of
    /// the newest activation, its place and the turns of its part alone. Says how many there were: it
    /// ends where no more can be performed so, unless there were 2^32 - 1 of them.
    pub fn run_copied(&mut self, pair: &Pair, side: Side) -> u32
        requires can { let a = self.old.machine.top in CanCopyAll side pair.now a.function (length a.registers) }
        ensures copies { CopiesManyOn side pair.now result self.old.machine self.new.machine }
        ensures whole { result < 2 ^ 32 - 1 → IsHeldOn side pair.now self.new.machine }
        ensures room { self.new.room ≡ self.old.room }
    {
        let part = part_of(pair.classed().program(), self.top.function);
        let left = self.budgets.of(part);
        let stand = Stand {
            place: self.top.place,
            turns: left.turns,
        };
        let base = self.top.base as usize;
        let function = self.top.function;
        let run = copy_row(pair, side, function, &mut self.registers, base, stand);
        self.top.place = run.stand.place;
        let left = Budget {
            turns: run.stand.turns,
            depth: left.depth,
        };
        self.budgets = self.budgets.with(part, left);
        run.count
    }
}

/// Appends the registers of an activation that are named.
fn append_arguments(registers: &mut Vec<u64>, base: usize, args: &[u16])
    requires each { All (λ r. base + r < vec_len registers.old) args.now }
    requires room { vec_len registers.old + length args.now ≤ vec_capacity registers.old }
    ensures items { registers.new.items ≡ registers.old.items ++ map (λ r. slice_index registers.old.items (base + r)) args.now }
    ensures capacity { vec_capacity registers.old ≤ vec_capacity registers.new }
{
    for register in args {
        let value = registers[base + usize::from(*register)];
        let Ok(()) = registers.push(value) else {
            unreachable!();
        };
    }
}

/// Goes on so with the registers of an activation from a place of the row on.
fn run_row(
    program: &MidProgram,
    number: u16,
    registers: &mut Vec<u64>,
    base: usize,
    memory: &mut Memory,
    stand: Stand,
) -> Stand
    requires valid { IsValid program.now }
    requires base { base ≤ vec_len registers.old }
    requires within { IsWithinCode program.now number stand.place (drop base registers.old.items) }
    ensures before { take base registers.new.items ≡ take base registers.old.items }
    ensures count { length registers.new.items ≡ length registers.old.items }
    ensures capacity { vec_capacity registers.new ≡ vec_capacity registers.old }
    ensures comes { ComesAlone program.now number (drop base registers.old.items) memory.old stand (drop base registers.new.items) memory.new result }
    ensures within { IsWithinCode program.now number result.place (drop base registers.new.items) }
{
    run_code(program, number, &mut registers[base..], memory, stand)
}

/// Performs copied instructions so with the registers of an activation from a place of the row on.
fn copy_row(
    pair: &Pair,
    side: Side,
    number: u16,
    registers: &mut Vec<u64>,
    base: usize,
    stand: Stand,
) -> Run
    requires base { base ≤ vec_len registers.old }
    requires can { CanCopyAll side pair.now number (length (drop base registers.old.items)) }
    requires small { All IsValue (drop base registers.old.items) }
    ensures before { take base registers.new.items ≡ take base registers.old.items }
    ensures count { length registers.new.items ≡ length registers.old.items }
    ensures capacity { vec_capacity registers.new ≡ vec_capacity registers.old }
    ensures copies { CopiesMany side pair.now number result.count (drop base registers.old.items) stand (drop base registers.new.items) result.stand }
    ensures each { All IsValue (drop base registers.new.items) }
    ensures whole { result.count < 2 ^ 32 - 1 → CopiesNone side pair.now number (drop base registers.new.items) result.stand }
{
    run_copied(pair, side, number, &mut registers[base..], stand)
}
