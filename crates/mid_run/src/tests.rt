ghost use Rattle.std.specs.Prelude.{◌≡◌, ◌^◌, ◌≤◌, IfOk};
ghost use Rattle.srmt_base.specs.Statics.{static_cells};

use crate::MidRun;
use cases::mid;
use mid_code::{
    FunType, Mid, MidFunction, MidLine, MidProgram, RegisterKind, Registers, Static, valid,
};
use sqlite_items::Items;
use srmt_base::{Event, Limits, Op, SourceEnd, Trap, Ty};
use srmt_outside::MemOutlet;
use std::alloc::{AllocError, Global};
use std::process::Abort;
use std::test::Fail;

mod budgets;
mod calls;
mod cases;

/// Instructions one after another, with the numbers of their lines from `line` on.
fn lines(alloc: Global, line: u32, code: &[Mid]) -> Result<Items<MidLine>, AllocError>
    requires { line ≤ 2 ^ 24 }
{
    let mut lines = Items::new(alloc);
    let mut at = line;
    for mid in code {
        lines.push(MidLine {
            line: at,
            mid: *mid,
        })?;
        at = at.wrapping_add(1);
    }
    Ok(lines)
}

fn kinds(alloc: Global) -> Result<Items<RegisterKind>, AllocError> {
    let number = RegisterKind::Number;
    let address = RegisterKind::Address;
    Items::from_slice(alloc, &[number, number, number, number, address, address])
}

/// A function of the type of one number to a number.
fn function(alloc: Global, line: u32, code: &[Mid]) -> Result<MidFunction, AllocError>
    requires { line ≤ 2 ^ 24 }
{
    Ok(MidFunction {
        ty: 1,
        kinds: kinds(alloc)?,
        line,
        code: lines(alloc, line, code)?,
    })
}

/// The type of no number to a number, which is that of `main`, and of one number to a number.
fn types(alloc: Global) -> Result<Items<FunType>, AllocError> {
    let number = RegisterKind::Number;
    let of_none = FunType {
        params: Items::new(alloc),
        result: number,
    };
    let of_one = FunType {
        params: Items::from_slice(alloc, &[number])?,
        result: number,
    };
    Ok(Items::from_vec(vec![in alloc; of_none, of_one]?))
}

/// `main` with this code, from line 1 on, and the three others.
fn functions(alloc: Global, code: &[Mid]) -> Result<Items<MidFunction>, AllocError> {
    let main = MidFunction {
        ty: 0,
        kinds: kinds(alloc)?,
        line: 100,
        code: lines(alloc, 1, code)?,
    };
    let adds = function(alloc, 200, &[set(1, 1), arith(Op::Add, 0, 0, 1), leave()])?;
    let calls = function(alloc, 300, &[call(3, 0), leave()])?;
    let puts = function(alloc, 2_000_400, &[put(), leave()])?;
    Ok(Items::from_vec(vec![in alloc; main, adds, calls, puts]?))
}

fn object(alloc: Global, cells: u16, read_only: bool) -> Result<Static, AllocError>
    ensures { IfOk result (λ object. object.cells ≡ cells) }
{
    let values: &[u64] = if cells == 2 { &[5, 7] } else { &[9] };
    Ok(Static {
        cells,
        read_only,
        values: Items::from_slice(alloc, values)?,
    })
}

/// `main` has this code, from line 1 on. Function 2 adds 1, function 3 calls itself, and function 4,
/// of the binary file, writes a byte. Object 1 holds 5 and 7, object 2 may only be read.
fn program(alloc: Global, code: &[Mid]) -> Result<MidProgram, AllocError>
    ensures main_statics { IfOk result (λ p. static_cells p.main_statics ≡ 3) }
    ensures binary_statics { IfOk result (λ p. static_cells p.binary_statics ≡ 1) }
{
    Ok(MidProgram {
        types: types(alloc)?,
        main_functions: 3,
        main: 1,
        main_statics: Items::from_vec(vec![in alloc;
            object(alloc, 2, false)?,
            object(alloc, 1, true)?,
        ]?),
        binary_statics: Items::from_vec(vec![in alloc; object(alloc, 1, false)?]?),
        functions: functions(alloc, code)?,
    })
}

fn set(target: u16, value: u64) -> Mid {
    Mid::Const { target, value }
}

fn arith(op: Op, target: u16, left: u16, right: u16) -> Mid {
    Mid::Arith {
        op,
        ty: Ty::Int,
        target,
        left,
        right,
    }
}

fn args(register: u16) -> Registers {
    let mut args = Registers::new();
    args.push(register);
    args
}

/// Calls a function with one register. The result goes into register 0.
fn call(function: u16, register: u16) -> Mid {
    Mid::Call {
        target: 0,
        function,
        args: args(register),
    }
}

/// Leaves the function with register 0.
fn leave() -> Mid {
    Mid::Return { source: 0 }
}

/// Writes register 0 as a byte.
fn put() -> Mid {
    Mid::Put { source: 0 }
}

/// Ends the run with register 0.
fn exit() -> Mid {
    Mid::Exit { source: 0 }
}

/// Runs a program on the input `a`. None where the program is not valid, or where an event failed.
fn run(
    alloc: Global,
    code: &[Mid],
    limits: Limits,
    outlet: &mut MemOutlet,
) -> Result<Option<SourceEnd>, AllocError>
    requires some_turns { 1 ≤ limits.turns }
    requires turns { limits.turns ≤ 10 ^ 12 }
    requires some_depth { 1 ≤ limits.depth }
    requires depth { limits.depth ≤ 1000 }
    requires some_cells { 3 ≤ limits.cells }
    requires cells { limits.cells ≤ 1048576 }
{
    let program = program(alloc, code)?;
    let Ok(()) = valid(&program) else {
        return Ok(None);
    };
    let input = Vec::from_slice(alloc, b"a")?;
    let mut run = MidRun::start(alloc, &program, input, limits)?;
    Ok(run.run(&program, outlet).ok())
}

const LIMITS: Limits = Limits {
    turns: 1_000,
    depth: 10,
    cells: 100,
};

/// The code of `main`, the events that it is to give before its end, and the end.
#[derive(Clone, Copy)]
struct Case<'a> {
    code: &'a [Mid],
    before: &'a [Event],
    end: SourceEnd,
}

/// It gives some events, and then exits.
fn tells<'a>(code: &'a [Mid], before: &'a [Event], status: u8) -> Case<'a> {
    Case {
        code,
        before,
        end: SourceEnd::Exit(status),
    }
}

/// It exits, with no other event.
fn exits<'a>(code: &'a [Mid], status: u8) -> Case<'a> {
    tells(code, &[], status)
}

/// It gives no event, and traps at a line.
fn traps<'a>(code: &'a [Mid], trap: Trap, line: u32) -> Case<'a> {
    Case {
        code,
        before: &[],
        end: SourceEnd::Trap(trap, line),
    }
}

/// All events of a case: an exit is one of them.
fn events(alloc: Global, case: &Case) -> Result<Vec<Event>, AllocError> {
    let mut events = Vec::from_slice(alloc, case.before)?;
    if let SourceEnd::Exit(status) = case.end {
        events.push(Event::Exit(status))?;
    }
    Ok(events)
}

/// Runs each case, and compares.
fn check(rt: &impl Abort, alloc: Global, cases: &[Case]) -> Result<(), AllocError> {
    for case in cases {
        let mut outlet = MemOutlet::with_room(alloc, 4)?;
        let done = run(alloc, case.code, LIMITS, &mut outlet)?;
        let events = events(alloc, case)?;
        assert_eq!(rt; done, Some(case.end), "{:?}", case.code);
        assert_eq!(rt; outlet.events(), events.as_slice(), "{:?}", case.code);
    }
    Ok(())
}

/// Each program gives its event, if it has one, and comes to its end.
#[test]
fn programs_come_to_their_ends(rt: HostRuntime) -> Result<(), Fail> {
    let alloc = rt.alloc();
    for (a, b, c, d, e, f, event, end) in &cases::CASES {
        let code = [mid(*a), mid(*b), mid(*c), mid(*d), mid(*e), mid(*f)];
        let mut outlet = MemOutlet::with_room(alloc, 4)?;
        let done = run(alloc, &code, LIMITS, &mut outlet)?;
        assert_eq!(rt; done, Some(*end), "{code:?}");
        let mut events = Vec::new(alloc);
        if let Some(event) = *event {
            events.push(event)?;
        }
        if let SourceEnd::Exit(status) = *end {
            events.push(Event::Exit(status))?;
        }
        assert_eq!(rt; outlet.events(), events.as_slice(), "{code:?}");
    }
    Ok(())
}
