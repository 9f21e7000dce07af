ghost use Rattle.std.specs.Prelude.{◌≡◌, ℕ, ◌+◌, ◌^◌, ◌<◌, length, IfOk, MatchOption, true, false};
ghost use Rattle.srmt_base.specs.Budgets.{after_turn};
ghost use Rattle.mid_code.specs.Fits.{IsValue};
ghost use Rattle.mid_code.specs.declared.program.MidProgram.{MidProgram as Program};
ghost use Rattle.mid_code.specs.Machine.{goes, given, gives, moved_if, counts, is_callee, closes, local_of, act};
ghost use Rattle.frames.specs.Acts.{IsThere, IsNewest, IsReady, IsCallOf, GoesTo, HasDone, performed};

use crate::entry::part_of;
use crate::frames::Frames;
use mid_code::{Access, Mid, MidLine, MidProgram, Registers};
use srmt_base::{
    Op, Trap, Ty, arith, convert, pointer_comparison, pointer_difference, pointer_sum,
};

/// What an instruction did.
#[derive(Clone, Copy, Debug, PartialEq, Eq)]
pub enum Did {
    /// The activation has gone on.
    Went,
    /// It calls a function, and is as it was: the registers are the arguments, and the target takes
    /// the result.
    Called {
        function: u16,
        args: Registers,
        target: u16,
    },
    /// It leaves its function with this value, and is as it was.
    Left(u64),
    /// It stops the run, at a line, and is as it was.
    Trapped(Trap, u32),
    /// It wants this of memory or of the outside, and is as it was.
    Wants(Access),
}

/// Performs an instruction, as far as it needs the newest activation and the budget of its part
/// alone.
pub fn perform(frames: &mut Frames, program: &MidProgram, line: &MidLine) -> Did
    requires ready { IsReady program.now frames.old.machine.top line.now.mid }
    ensures { HasDone program.now (performed program.now line.now frames.old) line.now.line frames.old frames.new result }
{
    let at = line.line;
    match line.mid {
        Mid::Const { target, value } => set(frames, target, value),
        Mid::Move { target, source } => {
            let value = frames.read(source);
            set(frames, target, value)
        }
        Mid::Arith {
            op,
            ty,
            target,
            left,
            right,
        } => {
            let outcome = arith(op, ty, frames.read(left), frames.read(right));
            set_or_trap(frames, target, outcome, at)
        }
        Mid::Conv {
            from,
            to,
            target,
            source,
        } => {
            let value = convert(from, to, frames.read(source));
            set(frames, target, value)
        }
        Mid::PtrAdd {
            target,
            pointer,
            index,
            ty,
            negated,
            scale,
        } => {
            let outcome = pointer_sum(frames.read(pointer), ty, frames.read(index), negated, scale);
            set_or_trap(frames, target, outcome, at)
        }
        Mid::PtrDiff {
            target,
            left,
            right,
            scale,
        } => {
            let outcome = pointer_difference(frames.read(left), frames.read(right), scale);
            set_or_trap(frames, target, outcome, at)
        }
        Mid::PtrCmp {
            op,
            target,
            left,
            right,
        } => {
            let outcome = pointer_comparison(op, frames.read(left), frames.read(right));
            set_or_trap(frames, target, outcome, at)
        }
        Mid::GlobAddr { target, object } => set(frames, target, u64::from(object) * 65536),
        Mid::FunAddr { target, function } => set(frames, target, u64::from(function)),
        Mid::Load { target, pointer } => Did::Wants(Access::Loads {
            target,
            pointer: frames.read(pointer),
        }),
        Mid::Store { pointer, source } => Did::Wants(Access::Stores {
            pointer: frames.read(pointer),
            value: frames.read(source),
        }),
        Mid::VLoad { target, pointer } => Did::Wants(Access::VolatileLoads {
            target,
            pointer: frames.read(pointer),
        }),
        Mid::VStore { pointer, source } => Did::Wants(Access::VolatileStores {
            pointer: frames.read(pointer),
            value: frames.read(source),
        }),
        Mid::Open { target, cells } => Did::Wants(Access::Opens { target, cells }),
        Mid::Close { place } => close(frames, place, at),
        Mid::Jump { place } => jump(frames, true, place),
        Mid::JumpZ { source, place } => {
            let taken = frames.read(source) == 0;
            jump(frames, taken, place)
        }
        Mid::JumpN { source, place } => {
            let taken = frames.read(source) != 0;
            jump(frames, taken, place)
        }
        Mid::Turn => turn(frames, program, at),
        Mid::Call {
            target,
            function,
            args,
        } => Did::Called {
            function,
            args,
            target,
        },
        Mid::CallPtr {
            target,
            callee,
            ty,
            args,
        } => {
            let value = frames.read(callee);
            match callee_of(program, value, ty) {
                Ok(function) => Did::Called {
                    function,
                    args,
                    target,
                },
                Err(trap) => Did::Trapped(trap, at),
            }
        }
        Mid::Return { source } => Did::Left(frames.read(source)),
        Mid::Put { source } => Did::Wants(Access::Puts(frames.read(source))),
        Mid::Get { target } => Did::Wants(Access::Gets { target }),
        Mid::Exit { source } => Did::Wants(Access::Exits(frames.read(source))),
    }
}

/// A value goes into the target register.
fn set(frames: &mut Frames, target: u16, value: u64) -> Did
    requires place { frames.old.machine.top.place + 1 < 2 ^ 32 }
    requires target { IsThere frames.old.machine.top target }
    requires small { IsValue value }
    ensures { GoesTo frames.old (given target value frames.old.machine.top) frames.new result }
{
    frames.give(target, value);
    Did::Went
}

/// A result goes into the target register, or its trap stops the run.
fn set_or_trap(frames: &mut Frames, target: u16, outcome: Result<u64, Trap>, at: u32) -> Did
    requires place { frames.old.machine.top.place + 1 < 2 ^ 32 }
    requires target { IsThere frames.old.machine.top target }
    requires small { IfOk outcome IsValue }
    ensures { (program : Program) → let l = local_of program frames.old.machine in HasDone program (gives target at l outcome) at frames.old frames.new result }
{
    match outcome {
        Ok(value) => set(frames, target, value),
        Err(trap) => Did::Trapped(trap, at),
    }
}

/// A jump is taken or not.
fn jump(frames: &mut Frames, taken: bool, place: u32) -> Did
    requires { frames.old.machine.top.place + 1 < 2 ^ 32 }
    ensures { GoesTo frames.old (moved_if taken place frames.old.machine.top) frames.new result }
{
    if taken {
        frames.go(place);
    } else {
        frames.pass();
    }
    Did::Went
}

/// Counts a turn.
fn turn(frames: &mut Frames, program: &MidProgram, at: u32) -> Did
    requires { frames.old.machine.top.place + 1 < 2 ^ 32 }
    ensures { let l = local_of program.now frames.old.machine in HasDone program.now (counts at l (after_turn l.budget)) at frames.old frames.new result }
{
    let part = part_of(program, frames.function());
    match frames.budgets().of(part).count_turn() {
        Ok(budget) => {
            frames.set_budget(part, budget);
            frames.pass();
            Did::Went
        }
        Err(trap) => Did::Trapped(trap, at),
    }
}

/// The function of a type whose number a value is, if it is one that may be called.
fn callee_of(program: &MidProgram, value: u64, ty: u16) -> Result<u16, Trap>
    requires { length program.now.functions < 65536 }
    ensures { IsCallOf program.now ty value result }
{
    if value == 0 {
        return Err(Trap::NullPointer);
    }
    match callee(program, value, ty) {
        Some(number) => Ok(number),
        None => Err(Trap::NotAFunction),
    }
}

/// The function of a type whose number a value is, if it is one that may be called.
fn callee(program: &MidProgram, value: u64, ty: u16) -> Option<u16>
    requires { length program.now.functions < 65536 }
    ensures { MatchOption result (is_callee program.now ty value ≡ false) (λ number. (number ≡ value) × (is_callee program.now ty value ≡ true)) }
{
    if value >= 65536 {
        return None;
    }
    let number = value as u16;
    let code = program.function(number)?;
    if code.ty == ty && number != program.main {
        Some(number)
    } else {
        None
    }
}

/// The newest object of the activation is to end.
fn close(frames: &Frames, place: u32, at: u32) -> Did
    requires { IsNewest place frames.now.machine.top.opened }
    ensures { (program : Program) → HasDone program (closes place at frames.now.machine.top.opened) at frames.now frames.now result }
{
    let Some(number) = frames.newest() else {
        unreachable!();
    };
    Did::Wants(Access::Closes { number })
}
