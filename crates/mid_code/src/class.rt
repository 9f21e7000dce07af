ghost use Rattle.std.specs.Prelude.{◌≡◌, ◌≤◌, map, take, length, IfOk};
ghost use Rattle.mid_code.specs.Rules.{same_kind};
ghost use Rattle.mid_code.specs.Ways.{begins_object};
ghost use Rattle.mid_code.specs.Closed.{all_of};
ghost use Rattle.mid_code.specs.declared.program.RegisterKind.TheVariants.{Address};

use crate::program::{MidFunction, MidLine, MidProgram, RegisterKind};
use crate::rules::same_kind;
use crate::way::way_of;
use sqlite_items::Items;
use srmt_base::Site;
use std::alloc::{AllocError, Global};

/// How the two threads share an instruction.
#[derive(Clone, Copy, Debug, PartialEq, Eq)]
pub enum Class {
    /// Both threads perform it.
    Repeatable,
    /// The leading thread performs it alone, and forwards its operands and its result.
    NonRepeatable(Site),
    /// The same, but it waits until the trailing thread has echoed its operands.
    FailStop(Site),
}

/// What of a function is shared: the objects that it may hand to memory, to another function or to
/// the outside, and the registers that may point to them. Each thread keeps all others for itself.
#[derive(Debug, Drop)]
pub struct Shared {
    /// Of each register, whether it is in the set. A `Number` never is.
    pub registers: Items<bool>,
    /// Of each place, whether an `Open` in the set stands there.
    pub places: Items<bool>,
}

fn addresses(alloc: Global, kinds: &[RegisterKind]) -> Result<Items<bool>, AllocError>
    ensures { IfOk result (λ marks. marks ≡ map (same_kind Address) kinds.now) }
{
    let mut marks = Items::new(alloc);
    for kind in kinds {
        marks.push(same_kind(RegisterKind::Address, *kind))?;
    }
    Ok(marks)
}

fn beginnings(alloc: Global, code: &[MidLine]) -> Result<Items<bool>, AllocError>
    ensures { IfOk result (λ marks. marks ≡ map (λ l. begins_object l.mid) code.now) }
{
    let mut marks = Items::new(alloc);
    for line in code {
        marks.push(way_of(&line.mid).is_beginning())?;
    }
    Ok(marks)
}

impl Shared {
    /// All of a function: each `Address`, and each `Open`.
    pub fn all_of(alloc: Global, function: &MidFunction) -> Result<Shared, AllocError>
        ensures { IfOk result (λ shared. shared ≡ all_of function.now) }
    {
        let registers = addresses(alloc, function.kinds.as_slice())?;
        let places = beginnings(alloc, function.code.as_slice())?;
        Ok(Shared { registers, places })
    }
}

/// All that the functions of the main file can share, by function.
pub fn everything_shared(alloc: Global, program: &MidProgram) -> Result<Items<Shared>, AllocError>
    requires { program.now.main_functions ≤ length program.now.functions }
    ensures { IfOk result (λ shared. shared ≡ map all_of (take program.now.main_functions program.now.functions)) }
{
    let functions = &program.functions.as_slice()[..usize::from(program.main_functions)];
    let mut shared = Items::new(alloc);
    for function in functions {
        shared.push(Shared::all_of(alloc, function)?)?;
    }
    Ok(shared)
}
