ghost use Rattle.std.specs.Prelude.{◌≡◌, ◌+◌, ◌-◌, ◌==◌, ◌^◌, ◌<◌, length, slice_set, All, Some, None, if◌then◌else◌};
ghost use Rattle.srmt_base.specs.Memory.{write_of};
ghost use Rattle.mid_code.specs.Valid.{IsValid};
ghost use Rattle.mid_code.specs.Fits.{IsValue};
ghost use Rattle.frames.specs.Alone.{Names, HasStepped, HasPassed, IsSetIf, IsWrittenIf, jumped, IsWithinCode, ComesAlone};

use crate::memory::Memory;
use crate::operators::apply;
use mid_code::{Mid, MidProgram};
use srmt_base::{Trap, convert, pointer_comparison, pointer_difference, pointer_sum};

/// Where an activation stands.
#[derive(Clone, Copy, Debug)]
pub(crate) struct Stand {
    /// The place of its next instruction.
    pub(crate) place: u32,
    /// How many turns are left to its part.
    pub(crate) turns: u64,
}

/// Goes on in a function's code while its instructions need the registers, the place, turns and cells
/// alone.
#[inline(never)]
pub(crate) fn run_code(
    program: &MidProgram,
    number: u16,
    registers: &mut [u64],
    memory: &mut Memory,
    stand: Stand,
) -> Stand
    requires valid { IsValid program.now }
    requires within { IsWithinCode program.now number stand.place registers.old }
    ensures comes { ComesAlone program.now number registers.old memory.old stand registers.new memory.new result }
    ensures within { IsWithinCode program.now number result.place registers.new }
    ensures count { length registers.new ≡ length registers.old }
{
    let Some(function) = program.function(number) else {
        unreachable!();
    };
    let code = function.code.as_slice();
    let mut stand = stand;
    loop {
        match pass(registers, memory, stand, &code[stand.place as usize].mid) {
            Some(next) => stand = next,
            None => return stand,
        }
    }
}

/// Performs an instruction that needs the registers, the place, turns and cells alone, and does not
/// trap. `None` where it is another one.
#[inline(always)]
fn pass(registers: &mut [u64], memory: &mut Memory, stand: Stand, mid: &Mid) -> Option<Stand>
    requires place { stand.place + 1 < 2 ^ 32 }
    requires names { Names mid.now (length registers.old) }
    requires small { All IsValue registers.old }
    ensures { HasPassed mid.now registers.old memory.old stand registers.new memory.new result }
{
    match go_on(registers, stand, mid) {
        Some(next) => Some(next),
        None => access(registers, memory, stand, mid),
    }
}

/// Performs a read or a write of a cell that does not trap. `None` where it is another instruction.
#[inline(always)]
fn access(registers: &mut [u64], memory: &mut Memory, stand: Stand, mid: &Mid) -> Option<Stand>
    requires place { stand.place + 1 < 2 ^ 32 }
    requires names { Names mid.now (length registers.old) }
    requires small { All IsValue registers.old }
    ensures { HasPassed mid.now registers.old memory.old stand registers.new memory.new result }
{
    match *mid {
        Mid::Load { target, pointer } => {
            let outcome = memory.load(registers[usize::from(pointer)]);
            set_if(registers, stand, target, outcome)
        }
        Mid::Store { pointer, source } => {
            let value = registers[usize::from(source)];
            write(memory, stand, registers[usize::from(pointer)], value)
        }
        _ => None,
    }
}

/// Writes a cell, unless that is a trap.
#[inline(always)]
fn write(memory: &mut Memory, stand: Stand, pointer: u64, value: u64) -> Option<Stand>
    requires place { stand.place + 1 < 2 ^ 32 }
    requires small { IsValue value }
    ensures { IsWrittenIf (write_of memory.old pointer value) memory.old stand memory.new result }
{
    match memory.put(pointer, value) {
        Ok(()) => Some(Stand {
            place: stand.place + 1,
            turns: stand.turns,
        }),
        Err(_) => None,
    }
}

/// Performs an instruction that needs the registers, the place and turns alone, and does not trap.
/// `None` where it is another one.
#[inline(always)]
pub(crate) fn go_on(registers: &mut [u64], stand: Stand, mid: &Mid) -> Option<Stand>
    requires place { stand.place + 1 < 2 ^ 32 }
    requires names { Names mid.now (length registers.old) }
    ensures { HasStepped mid.now registers.old stand registers.new result }
{
    match *mid {
        Mid::Const { target, value } => set(registers, stand, target, value),
        Mid::Move { target, source } => {
            let value = registers[usize::from(source)];
            set(registers, stand, target, value)
        }
        Mid::Arith {
            op,
            ty,
            target,
            left,
            right,
        } => {
            let outcome = apply(
                op,
                ty,
                registers[usize::from(left)],
                registers[usize::from(right)],
            );
            set_if(registers, stand, target, outcome)
        }
        Mid::Conv {
            from,
            to,
            target,
            source,
        } => {
            let value = convert(from, to, registers[usize::from(source)]);
            set(registers, stand, target, value)
        }
        Mid::PtrAdd {
            target,
            pointer,
            index,
            ty,
            negated,
            scale,
        } => {
            let outcome = pointer_sum(
                registers[usize::from(pointer)],
                ty,
                registers[usize::from(index)],
                negated,
                scale,
            );
            set_if(registers, stand, target, outcome)
        }
        Mid::PtrDiff {
            target,
            left,
            right,
            scale,
        } => {
            let outcome = pointer_difference(
                registers[usize::from(left)],
                registers[usize::from(right)],
                scale,
            );
            set_if(registers, stand, target, outcome)
        }
        Mid::PtrCmp {
            op,
            target,
            left,
            right,
        } => {
            let outcome = pointer_comparison(
                op,
                registers[usize::from(left)],
                registers[usize::from(right)],
            );
            set_if(registers, stand, target, outcome)
        }
        Mid::GlobAddr { target, object } => {
            set(registers, stand, target, u64::from(object) * 65536)
        }
        Mid::FunAddr { target, function } => set(registers, stand, target, u64::from(function)),
        Mid::Jump { place } => jump(stand, true, place),
        Mid::JumpZ { source, place } => jump(stand, registers[usize::from(source)] == 0, place),
        Mid::JumpN { source, place } => jump(stand, registers[usize::from(source)] != 0, place),
        Mid::Turn => turn(stand),
        Mid::Load { .. }
        | Mid::Store { .. }
        | Mid::VLoad { .. }
        | Mid::VStore { .. }
        | Mid::Open { .. }
        | Mid::Close { .. }
        | Mid::Call { .. }
        | Mid::CallPtr { .. }
        | Mid::Return { .. }
        | Mid::Put { .. }
        | Mid::Get { .. }
        | Mid::Exit { .. } => None,
    }
}

/// A value goes into the target register.
#[inline(always)]
fn set(registers: &mut [u64], stand: Stand, target: u16, value: u64) -> Option<Stand>
    requires place { stand.place + 1 < 2 ^ 32 }
    requires target { target < length registers.old }
    ensures registers { registers.new ≡ slice_set registers.old target value }
    ensures passes { result ≡ Some (record stand { place = stand.place + 1 }) }
{
    registers[usize::from(target)] = value;
    Some(Stand {
        place: stand.place + 1,
        turns: stand.turns,
    })
}

/// A result goes into the target register, or it is a trap and nothing changes.
#[inline(always)]
fn set_if(
    registers: &mut [u64],
    stand: Stand,
    target: u16,
    outcome: Result<u64, Trap>,
) -> Option<Stand>
    requires place { stand.place + 1 < 2 ^ 32 }
    requires target { target < length registers.old }
    ensures { IsSetIf target outcome registers.old stand registers.new result }
{
    match outcome {
        Ok(value) => set(registers, stand, target, value),
        Err(_) => None,
    }
}

/// A jump is taken or not.
#[inline(always)]
fn jump(stand: Stand, taken: bool, place: u32) -> Option<Stand>
    requires { stand.place + 1 < 2 ^ 32 }
    ensures { result ≡ Some (jumped taken place stand) }
{
    if taken {
        Some(Stand {
            place,
            turns: stand.turns,
        })
    } else {
        Some(Stand {
            place: stand.place + 1,
            turns: stand.turns,
        })
    }
}

/// Counts a turn, if one is left.
#[inline(always)]
fn turn(stand: Stand) -> Option<Stand>
    requires { stand.place + 1 < 2 ^ 32 }
    ensures { result ≡ if stand.turns == 0 then None else Some (record stand { place = stand.place + 1; turns = stand.turns - 1 }) }
{
    if stand.turns == 0 {
        return None;
    }
    Some(Stand {
        place: stand.place + 1,
        turns: stand.turns - 1,
    })
}
