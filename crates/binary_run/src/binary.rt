ghost use Rattle.std.specs.Prelude.{◌≡◌, ◌+◌, ◌≤◌, ◌<◌, ◌^◌, ◌↔◌, IsTrue, length, drop, Ok, Err, OnOk, OnErr, IfOk, IfErr};
ghost use Rattle.srmt_base.specs.Args.{args_list};
ghost use Rattle.srmt_base.specs.Objects.{load_of, put_of};
ghost use Rattle.mid_code.specs.declared.program.MidProgram.{MidProgram as TheProgram};
ghost use Rattle.mid_code.specs.Registers.{registers_list};
ghost use Rattle.mid_code.specs.Valid.{IsValid};
ghost use Rattle.mid_code.specs.Start.{FitLimits};
ghost use Rattle.mid_code.specs.Machine.{Leaves, Reaches, arguments, part_of_function};
ghost use Rattle.mid_code.specs.Fits.{IsValue};
ghost use Rattle.frames.specs.Kept.{TakesResult};
ghost use Rattle.frames.specs.Acts.{CanCall, CanReach};
ghost use Rattle.frames.specs.Reaching.{Counted};
ghost use Rattle.binary_run.specs.Binary.{Rests, Enters, Runs, Stopped, started_binary, calls, enters, meant, runs, binary_step, gives_back};
ghost use Rattle.binary_run.specs.Fits.{ComesTo, LeavesOutside, IsDue, MayEnter, FitsBinary, AreSmall, IsFollowed};
ghost use Rattle.binary_run.specs.Bounds.{left_to_run, IsNearer};

use cell_store::Store;
use frames::{
    Did, Frames, Input, Memory, OPEN_OBJECTS, Room, Running, begin_statics, next_byte, next_line,
    part_of, perform, reach,
};
use mid_code::{Access, MidProgram, Registers};
use srmt_base::{Args, Budget, Budgets, Limits, Part, SourceEnd, Trap};
use srmt_outside::{Failed, Outlet};
use std::alloc::{AllocError, Global};
use std::marker::Model;

/// What a step of the binary functions came to.
#[derive(Clone, Copy, Debug, PartialEq, Eq)]
pub enum BinaryStep {
    /// It goes on.
    Went,
    /// The function that was entered last has returned this value.
    Returned(u64),
    /// A function of the main file is called, by its number: its result is to be given back.
    Calls(u16, Args),
    /// The run has ended.
    Ended(SourceEnd),
}

/// What is to be done next.
#[derive(Clone, Copy, Debug)]
enum Due {
    /// Nothing, until a function is entered or a value is given back.
    Nothing,
    /// The entry of a function.
    Entry(u16, Args),
    /// An instruction.
    Instruction,
    /// Nothing any more.
    Over,
}

/// Room for 1,000 activations of binary functions, and a stub below and above each.
const ROOM: Room = Room {
    activations: 2_001,
    objects: OPEN_OBJECTS,
};

/// The machine of the binary functions, as the world runs it. It keeps their objects.
#[derive(Drop)]
pub struct BinaryRun {
    /// The live activations. Memory is lent to them where they reach it: else there is none here,
    /// and no input.
    running: Running,
    objects: Store,
    /// How many functions were entered from outside and have not returned.
    entered: u32,
    due: Due,
}

impl Model for BinaryRun {
    ghost use Rattle.std.specs.Prelude.{◌≡◌, ◌≤◌};
    ghost use Rattle.binary_run.specs.Binary.{BinaryState};

    ghost Value = { BinaryState };

    ghost use Rattle.binary_run.specs.View.{state_of_run};

    ghost view = { state_of_run };

    ghost invariant = { λ a. a.running.frames.room ≡ record { activations = 2001; objects = 2097152 } };
}

impl BinaryRun {
    /// Begins the static objects of the binary file, and rests. It takes all memory of the machine:
    /// 16 MiB for activations, 16 MiB for open objects, and 20 bytes for each cell.
    pub fn start(alloc: Global, program: &MidProgram, limits: Limits) -> Result<Self, AllocError>
        requires valid { IsValid program.now }
        requires limits { FitLimits program.now limits }
        ensures started { IfOk result (λ run. run ≡ started_binary program.now limits) }
        ensures fits { IfOk result (FitsBinary program.now) }
    {
        let budgets = Budgets {
            protected: Budget { turns: 0, depth: 0 },
            binary: Budget {
                turns: limits.turns,
                depth: limits.depth,
            },
        };
        let statics = program.binary_statics.as_slice();
        Ok(BinaryRun {
            objects: begin_statics(alloc, statics, limits.cells, Part::Binary)?,
            running: Running {
                frames: Frames::start(alloc, program.main, 1, budgets, ROOM)?,
                memory: Memory::new(Store::start(alloc, 0, 1)?, Store::start(alloc, 0, 1)?),
                input: Input::new(Vec::new(alloc)),
            },
            entered: 0,
            due: Due::Nothing,
        })
    }

    /// Enters a binary function, where it rests. The next step tests whether an activation and a
    /// turn are left, and the one after it is the function's first instruction.
    pub fn enter(&mut self, program: &MidProgram, function: u16, args: &Args)
        requires fits { FitsBinary program.now self.old }
        requires rests { self.old.next ≡ Rests }
        requires may { MayEnter program.now function (args_list args.now) }
        ensures enters { self.new ≡ record self.old { next = Enters function (args_list args.now) } }
        ensures fits { FitsBinary program.now self.new }
    {
        let _program = program;
        self.due = Due::Entry(function, *args);
    }

    /// Makes one step, over the objects of the main file and the input: the entry of a function, or
    /// one instruction with its event. `at` is the place of the next byte of the input.
    pub fn step<O: Outlet>(
        &mut self,
        program: &MidProgram,
        shared: &mut Store,
        input: &[u8],
        at: &mut usize,
        outlet: &mut O,
    ) -> Result<BinaryStep, Failed>
        requires valid { IsValid program.now }
        requires fits { FitsBinary program.now self.old }
        requires due { IsDue self.old.next }
        requires within { at.old ≤ length input.now }
        ensures step { IfOk result (λ answer.
            ComesTo (binary_step program.now self.old shared.old (drop at.old input.now))
            self.new shared.new (drop at.new input.now) answer (O.events outlet.old) (O.events outlet.new)) }
        ensures small { IfOk result AreSmall }
        ensures next { IfOk result (λ answer. IsFollowed answer self.new) }
        ensures nearer { IfOk result (λ answer. IsNearer answer (left_to_run program.now self.old.machine) (left_to_run program.now self.new.machine)) }
        ensures fits { FitsBinary program.now self.new }
        ensures within { at.new ≤ length input.now }

        // An event that failed is not written, and its instruction is still to be done.
        ensures kept { OnErr result ((self.new ≡ self.old) × (shared.new ≡ shared.old) × (at.new ≡ at.old)) }
        ensures unwritten { OnErr result (O.events outlet.new ≡ O.events outlet.old) }
        ensures counted { Counted result (O.faults outlet.old) (O.faults outlet.new) }
    {
        let _cells = shared.budget();
        match self.due {
            Due::Entry(function, args) => Ok(self.begin(program, function, &args)),
            Due::Instruction => {
                let answer = self.advance(program, shared, input, at, outlet)?;
                Ok(answer)
            }
            Due::Nothing | Due::Over => unreachable!(),
        }
    }

    /// A function begins, unless no activation or no turn is left.
    fn begin(&mut self, program: &MidProgram, function: u16, args: &Args) -> BinaryStep
        requires valid { IsValid program.now }
        requires fits { FitsBinary program.now self.old }
        requires next { self.old.next ≡ Enters function (args_list args.now) }
        ensures enters { LeavesOutside (enters program.now function (args_list args.now) self.old) self.new result }
        ensures next { IsFollowed result self.new }
    {
        match self
            .running
            .frames
            .enter(program, function, args.as_slice(), 0)
        {
            Ok(()) => {
                self.entered += 1;
                self.due = Due::Instruction;
                BinaryStep::Went
            }
            Err(refused) => self.stop(SourceEnd::Trap(refused.trap, refused.line)),
        }
    }

    /// The run ends.
    fn stop(&mut self, end: SourceEnd) -> BinaryStep
        ensures stopped { self.new ≡ record self.old { next = Stopped } }
        ensures answer { result ≡ BinaryStep.Ended end }
    {
        self.due = Due::Over;
        BinaryStep::Ended(end)
    }

    /// Makes the step of an instruction.
    fn advance<O: Outlet>(
        &mut self,
        program: &MidProgram,
        shared: &mut Store,
        input: &[u8],
        at: &mut usize,
        outlet: &mut O,
    ) -> Result<BinaryStep, Failed>
        requires valid { IsValid program.now }
        requires fits { FitsBinary program.now self.old }
        requires next { self.old.next ≡ Runs }
        requires within { at.old ≤ length input.now }
        ensures step { IfOk result (λ answer.
            ComesTo (binary_step program.now self.old shared.old (drop at.old input.now))
            self.new shared.new (drop at.new input.now) answer (O.events outlet.old) (O.events outlet.new)) }
        ensures next { IfOk result (λ answer. IsFollowed answer self.new) }
        ensures within { at.new ≤ length input.now }
        ensures kept { OnErr result ((self.new ≡ self.old) × (shared.new ≡ shared.old) × (at.new ≡ at.old)) }
        ensures unwritten { OnErr result (O.events outlet.new ≡ O.events outlet.old) }
        ensures counted { Counted result (O.faults outlet.old) (O.faults outlet.new) }
    {
        let Some(line) = next_line(program, &self.running.frames) else {
            unreachable!();
        };
        match perform(&mut self.running.frames, program, line) {
            Did::Went => Ok(BinaryStep::Went),
            Did::Called {
                function,
                args,
                target,
            } => Ok(self.call(program, function, &args, target)),
            Did::Left(value) => Ok(self.leave(program, value)),
            Did::Trapped(trap, at) => Ok(self.stop(SourceEnd::Trap(trap, at))),
            Did::Wants(access) => {
                let answer = self.reach(program, access, line.line, shared, input, at, outlet)?;
                Ok(answer)
            }
        }
    }

    /// Calls a function: one of the main file is called outside.
    fn call(
        &mut self,
        program: &MidProgram,
        function: u16,
        args: &Registers,
        target: u16,
    ) -> BinaryStep
        requires valid { IsValid program.now }
        requires fits { FitsBinary program.now self.old }
        requires next { self.old.next ≡ Runs }
        requires can { CanCall program.now self.old.machine.top function (registers_list args.now) target }
        ensures calls { let b = self.old in LeavesOutside
            (calls program.now (part_of_function program.now function) function (arguments b.machine.top args.now) target b)
            self.new result }
        ensures next { IsFollowed result self.new }
    {
        match part_of(program, function) {
            Part::Protected => {
                let values = self.running.frames.values(args);
                self.running.frames.pass();
                self.running.frames.push(function, 1, &[], target);
                self.due = Due::Nothing;
                BinaryStep::Calls(function, values)
            }
            Part::Binary => match self.running.frames.call(program, function, args, target) {
                Ok(()) => BinaryStep::Went,
                Err(refused) => self.stop(SourceEnd::Trap(refused.trap, refused.line)),
            },
        }
    }

    /// Leaves the newest activation. One with a stub below it was entered from outside.
    fn leave(&mut self, program: &MidProgram, value: u64) -> BinaryStep
        requires valid { IsValid program.now }
        requires fits { FitsBinary program.now self.old }
        requires next { self.old.next ≡ Runs }
        requires value { IsValue value }
        ensures leaves { LeavesOutside (runs program.now (Leaves value) self.old) self.new result }
        ensures next { IsFollowed result self.new }
    {
        self.running.frames.leave(program, value);
        match part_of(program, self.running.frames.function()) {
            Part::Protected => {
                self.entered -= 1;
                self.due = Due::Nothing;
                BinaryStep::Returned(value)
            }
            Part::Binary => BinaryStep::Went,
        }
    }

    /// Does what an instruction wants of memory or the outside.
    fn reach<O: Outlet>(
        &mut self,
        program: &MidProgram,
        access: Access,
        line: u32,
        shared: &mut Store,
        input: &[u8],
        at: &mut usize,
        outlet: &mut O,
    ) -> Result<BinaryStep, Failed>
        requires valid { IsValid program.now }
        requires fits { FitsBinary program.now self.old }
        requires next { self.old.next ≡ Runs }
        requires can { CanReach access self.old.machine.top }
        requires place { self.old.machine.top.place + 1 < 2 ^ 32 }
        requires within { at.old ≤ length input.now }
        ensures meant { IfOk result (λ answer.
            ComesTo (meant program.now (Reaches access line) self.old shared.old (drop at.old input.now))
            self.new shared.new (drop at.new input.now) answer (O.events outlet.old) (O.events outlet.new)) }
        ensures next { IfOk result (λ answer. IsFollowed answer self.new) }
        ensures within { at.new ≤ length input.now }
        ensures kept { OnErr result ((self.new ≡ self.old) × (shared.new ≡ shared.old) × (at.new ≡ at.old)) }
        ensures unwritten { OnErr result (O.events outlet.new ≡ O.events outlet.old) }
        ensures counted { Counted result (O.faults outlet.old) (O.faults outlet.new) }
    {
        if let Access::Gets { target } = access {
            let byte = next_byte(input, at);
            self.running.frames.give(target, byte);
            return Ok(BinaryStep::Went);
        }
        let _cells = shared.budget();
        self.running.memory.exchange(shared, &mut self.objects);
        let end = reach(&mut self.running, program, access, line, outlet);
        self.running.memory.exchange(shared, &mut self.objects);
        match end? {
            None => Ok(BinaryStep::Went),
            Some(end) => Ok(self.stop(end)),
        }
    }

    /// Whether it rests: nothing is to be done until a function is entered or a value is given back.
    pub fn rests(&self) -> bool
        ensures { IsTrue result ↔ (self.now.next ≡ Rests) }
    {
        matches!(self.due, Due::Nothing)
    }

    /// How many functions were entered from outside and have not returned.
    pub fn entered(&self) -> usize
        ensures { result ≡ self.now.entered }
    {
        self.entered as usize
    }

    /// Gives back what the function has returned that was called, where it rests with a call out.
    pub fn give_back(&mut self, value: u64)
        requires rests { self.old.next ≡ Rests }
        requires called { TakesResult self.old.machine.top.into self.old.machine.below }
        requires small { value < 2 ^ 44 }
        ensures gives { self.new ≡ gives_back self.old.machine.below value self.old }
        ensures fits { (program : TheProgram) → FitsBinary program self.old → FitsBinary program self.new }
    {
        let target = self.running.frames.target();
        self.running.frames.pop();
        self.running.frames.take(target, value);
        self.due = Due::Instruction;
    }

    /// The value of a cell of the binary file's objects.
    pub fn load(&self, pointer: u64) -> Result<u64, Trap>
        ensures value { result ≡ load_of self.now.objects pointer }
        ensures small { IfOk result (λ value. value < 2 ^ 44) }
    {
        self.objects.load(pointer)
    }

    /// Writes a cell of the binary file's objects, which is not one of a string literal.
    pub fn put(&mut self, pointer: u64, value: u64) -> Result<(), Trap>
        requires { value < 2 ^ 44 }
        ensures ok { OnOk result ((put_of self.old.objects pointer value ≡ Ok self.new.objects) × (self.new ≡ record self.old { objects = self.new.objects })) }
        ensures trap { IfErr result (λ trap. put_of self.old.objects pointer value ≡ Err trap) }
        ensures err { OnErr result (self.new ≡ self.old) }
        ensures fits { (program : TheProgram) → FitsBinary program self.old → FitsBinary program self.new }
    {
        self.objects.put(pointer, value)
    }
}
