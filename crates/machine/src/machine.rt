ghost use Rattle.std.specs.Prelude.{◌≡◌, ◌+◌, ◌<◌, ◌≤◌, ◌^◌, length, get_or, IfOk};
ghost use Rattle.std.specs.Option.{option_copied};
ghost use Rattle.mid_code.specs.Start.{FitLimits};
ghost use Rattle.machine.specs.Side.{opening};
ghost use Rattle.srmt_base.specs.Statics.{static_cells};
ghost use Rattle.mid_code.specs.Versions.{operands_list};
ghost use Rattle.machine.specs.Steps.{holds, passed_on, side_op};
ghost use Rattle.machine.specs.Fits.{AreRegisters, SideFits};

use crate::heard::Heard;
use frames::{Frames, Room};
use mid_code::{Operands, Pair, VersionLine};
use srmt_base::{Budget, Budgets, Limits, Side, Static};
use std::alloc::{AllocError, Global};
use std::marker::Model;

/// One side of a pair: its live activations, at places of its version, and the acknowledgements that
/// it has taken so far where it awaits them.
#[derive(Debug, Drop)]
pub struct Machine {
    pub(crate) frames: Frames,
    pub(crate) heard: Heard,
    // The number of the next object, how many cells live, and how many may: no instruction of a pair
    // begins an object yet.
    fresh: u64,
    cells: u64,
    budget: u32,
}

impl Model for Machine {
    ghost use Rattle.machine.specs.Side.{SideState};

    ghost Value = { SideState };

    ghost use Rattle.machine.specs.View.{side_of};

    ghost view = { side_of };
}

impl Machine {
    /// Enters `main` in the version of a side. Nothing after it takes memory: it takes 8,224 bytes for
    /// each activation that the limits allow in both parts, and 8 for each cell.
    pub fn start(
        alloc: Global,
        pair: &Pair,
        _side: Side,
        limits: Limits,
    ) -> Result<Machine, AllocError>
        requires { FitLimits pair.now.program limits }
        ensures opening { IfOk result (λ machine. machine ≡ opening pair.now limits) }
        ensures fits { IfOk result (SideFits _side pair.now) }
    {
        let program = pair.classed().program();
        let Some(main) = program.function(program.main) else {
            unreachable!()
        };
        let budgets = Budgets {
            protected: Budget {
                turns: limits.turns - 1,
                depth: limits.depth - 1,
            },
            binary: Budget {
                turns: limits.turns,
                depth: limits.depth,
            },
        };
        let room = Room {
            activations: 2 * limits.depth,
            objects: limits.cells,
        };
        let count = main.kinds.len() as u16;
        let frames = Frames::start(alloc, program.main, count, budgets, room)?;
        Ok(Machine {
            frames,
            heard: Heard::new(),
            fresh: program.main_statics.len() as u64 + 1,
            cells: cells_of(program.main_statics.as_slice()),
            budget: limits.cells,
        })
    }

    /// The instruction of a side's version at which it stands.
    pub(crate) fn next_line<'a>(&self, pair: &'a Pair, side: Side) -> Option<&'a VersionLine>
        ensures { option_copied result ≡ side_op side pair.now self.now }
    {
        let function = self.frames.function();
        let place = self.frames.place() as usize;
        match side {
            Side::Lead => pair.leading_at(function, place),
            Side::Trail => pair.trailing_at(function, place),
        }
    }

    /// What a register holds.
    pub(crate) fn register(&self, number: u16) -> u64
        requires { number < length self.now.at.machine.top.registers }
        ensures { result ≡ holds self.now number }
    {
        self.frames.read(number)
    }

    /// What the register of an operand holds.
    pub(crate) fn operand(&self, operands: &Operands, index: usize) -> u64
        requires within { index < length (operands_list operands.now) }
        requires registers { AreRegisters self.now (operands_list operands.now) }
        ensures { result ≡ holds self.now (get_or (operands_list operands.now) index 0) }
    {
        let Some(register) = operands.get(index) else {
            unreachable!()
        };
        self.register(register)
    }

    /// Passes its instruction.
    pub(crate) fn pass(&mut self)
        requires { self.old.at.machine.top.place + 1 < 2 ^ 32 }
        ensures { self.new ≡ passed_on self.old }
    {
        self.frames.pass();
        self.heard.clear();
    }
}

// How many cells objects of static storage duration have.
fn cells_of(objects: &[Static]) -> u64
    requires { static_cells objects.now ≤ 1048576 }
    ensures { result ≡ static_cells objects.now }
{
    let mut cells = 0;
    for object in objects {
        cells += u64::from(object.cells);
    }
    cells
}
