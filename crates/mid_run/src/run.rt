ghost use Rattle.std.specs.Prelude.{◌≡◌, ◌≤◌, List, [], Some, OnOk, OnErr, IfOk};
ghost use Rattle.srmt_base.specs.declared.event.Event.{Event};
ghost use Rattle.srmt_outside.specs.Count.{Rose};
ghost use Rattle.srmt_outside.specs.Told.{Appends};
ghost use Rattle.mid_code.specs.Valid.{IsValid};
ghost use Rattle.mid_code.specs.Start.{FitLimits};
ghost use Rattle.mid_code.specs.Meaning.{started};
ghost use Rattle.frames.specs.Reaching.{Counted};
ghost use Rattle.mid_run.specs.Progress.{Progress, At, FitsIn, IsStep, Runs, IsBeforeEvent, end_of};

use crate::execute::execute;
use frames::{Frames, Input, Memory, OPEN_OBJECTS, Room, Running, begin_statics};
use mid_code::MidProgram;
use srmt_base::{Budget, Budgets, Limits, Part, SourceEnd};
use srmt_outside::{Failed, Outlet};
use std::alloc::{AllocError, Global};
use std::marker::Model;

/// A run of a program on one thread.
#[derive(Drop)]
pub struct MidRun {
    running: Running,
    over: Option<SourceEnd>,
}

impl Model for MidRun {
    ghost use Rattle.std.specs.Prelude.{◌≡◌};
    ghost use Rattle.mid_run.specs.Progress.{Progress};

    ghost Value = { Progress };

    ghost use Rattle.mid_run.specs.View.{progress_of};

    ghost view = { progress_of };

    ghost invariant = { λ a. a.running.frames.room.objects ≡ 2097152 };
}

impl MidRun {
    /// Begins the static objects and enters `main`. It takes all memory of the run: 16 KiB for each
    /// activation that the limits allow, 40 bytes for each cell, and 16 MiB for open objects.
    pub fn start(
        alloc: Global,
        program: &MidProgram,
        input: Vec<u8>,
        limits: Limits,
    ) -> Result<Self, AllocError>
        requires valid { IsValid program.now }
        requires limits { FitLimits program.now limits }
        ensures started { IfOk result (λ run. run ≡ At (started program.now input.items limits)) }
        ensures fits { IfOk result (FitsIn program.now) }
    {
        let Some(main) = program.function(program.main) else {
            unreachable!();
        };
        let budgets = Budgets {
            protected: Budget {
                turns: limits.turns - 1,
                depth: limits.depth - 1,
            },
            binary: Budget {
                turns: limits.turns,
                depth: limits.depth,
            },
        };
        let room = Room {
            activations: 2 * limits.depth,
            objects: OPEN_OBJECTS,
        };
        let count = main.kinds.len() as u16;
        let frames = Frames::start(alloc, program.main, count, budgets, room)?;
        let statics = program.main_statics.as_slice();
        let protected = begin_statics(alloc, statics, limits.cells, Part::Protected)?;
        let statics = program.binary_statics.as_slice();
        let binary = begin_statics(alloc, statics, limits.cells, Part::Binary)?;
        let running = Running {
            frames,
            memory: Memory::new(protected, binary),
            input: Input::new(input),
        };
        Ok(MidRun {
            running,
            over: None,
        })
    }

    /// Makes one step: one instruction, with its event. After an end it answers the same end.
    pub fn step<O: Outlet>(
        &mut self,
        program: &MidProgram,
        outlet: &mut O,
    ) -> Result<Option<SourceEnd>, Failed>
        requires valid { IsValid program.now }
        requires fits { FitsIn program.now self.old }
        ensures step { OnOk result (IsStep program.now self.old self.new (O.events outlet.old) (O.events outlet.new)) }
        ensures end { IfOk result (λ end. end ≡ end_of self.new) }
        ensures fits { FitsIn program.now self.new }

        // An event that failed is not written, and its instruction is still to be done.
        ensures before { OnErr result (IsBeforeEvent program.now self.new) }
        ensures kept { OnErr result (self.new ≡ self.old) }
        ensures unwritten { OnErr result (O.events outlet.new ≡ O.events outlet.old) }
        ensures counted { Counted result (O.faults outlet.old) (O.faults outlet.new) }
        ensures failed { OnErr result (Rose (O.faults outlet.old) (O.faults outlet.new)) }
        ensures never_falls { O.faults outlet.old ≤ O.faults outlet.new }
    {
        if let Some(end) = self.over {
            return Ok(Some(end));
        }
        let end = execute(&mut self.running, program, outlet)?;
        self.over = end;
        Ok(end)
    }

    /// Runs to the end. After an end it answers the same end.
    pub fn run<O: Outlet>(
        &mut self,
        program: &MidProgram,
        outlet: &mut O,
    ) -> Result<SourceEnd, Failed>
        requires valid { IsValid program.now }
        requires fits { FitsIn program.now self.old }
        ensures runs { (events : List Event) × Runs program.now self.old events self.new × Appends (O.events outlet.old) (O.events outlet.new) events }
        ensures end { IfOk result (λ end. end_of self.new ≡ Some end) }
        ensures fits { FitsIn program.now self.new }

        // It stops where an event failed, before the instruction that is to give it.
        ensures before { OnErr result (IsBeforeEvent program.now self.new) }
        ensures counted { Counted result (O.faults outlet.old) (O.faults outlet.new) }
        ensures failed { OnErr result (Rose (O.faults outlet.old) (O.faults outlet.new)) }
        ensures never_falls { O.faults outlet.old ≤ O.faults outlet.new }
    {
        loop {
            self.advance(program);
            if let Some(end) = self.step(program, outlet)? {
                return Ok(end);
            }
        }
    }

    /// Makes steps while the instructions need the newest activation, its turns and cells alone.
    fn advance(&mut self, program: &MidProgram)
        requires valid { IsValid program.now }
        requires fits { FitsIn program.now self.old }
        ensures runs { Runs program.now self.old [] self.new }
    {
        if self.over.is_none() {
            let running = &mut self.running;
            running.frames.run_alone(program, &mut running.memory);
        }
    }
}
