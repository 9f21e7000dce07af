ghost use Rattle.std.specs.Prelude.{◌≡◌, ◌^◌, ◌≤◌, IfOk, OnErr, IsTrue};
ghost use Rattle.srmt_base.specs.Args.{args_list};
ghost use Rattle.srmt_base.specs.Statics.{static_cells};
ghost use Rattle.mid_code.specs.Valid.{IsValid};
ghost use Rattle.binary_run.specs.Binary.{Rests};
ghost use Rattle.binary_run.specs.Fits.{IsDue, MayEnter, FitsBinary};

use crate::{BinaryRun, BinaryStep};
use cell_store::Store;
use mid_code::{
    FunType, Mid, MidFunction, MidLine, MidProgram, RegisterKind, Registers, Static, valid,
};
use sqlite_items::Items;
use srmt_base::{Args, Event, Limits, Op, SourceEnd, Trap, Ty};
use srmt_outside::{Failed, MemOutlet, Outlet};
use std::alloc::{AllocError, Global};
use std::test::Fail;

/// The first number of an object of the binary file, as an address.
const FIRST: u64 = 134_217_728 * 65_536;

const LIMITS: Limits = Limits {
    turns: 100,
    depth: 10,
    cells: 10,
};

/// Instructions one after another, with the numbers of their lines from `line` on.
fn lines(alloc: Global, line: u32, code: &[Mid]) -> Result<Items<MidLine>, AllocError>
    requires { line ≤ 2 ^ 24 }
{
    let mut lines = Items::new(alloc);
    let mut at = line;
    for mid in code {
        lines.push(MidLine {
            line: at,
            mid: *mid,
        })?;
        at = at.wrapping_add(1);
    }
    Ok(lines)
}

/// An object of one cell, which holds 9.
fn object(alloc: Global) -> Result<Static, AllocError>
    ensures { IfOk result (λ object. object.cells ≡ 1) }
{
    Ok(Static {
        cells: 1,
        read_only: false,
        values: Items::from_slice(alloc, &[9])?,
    })
}

fn set(target: u16, value: u64) -> Mid {
    Mid::Const { target, value }
}

fn arith(op: Op, target: u16, left: u16, right: u16) -> Mid {
    Mid::Arith {
        op,
        ty: Ty::Int,
        target,
        left,
        right,
    }
}

fn args(register: u16) -> Registers {
    let mut args = Registers::new();
    args.push(register);
    args
}

/// Ends the run with what register 0 holds.
fn exit() -> Mid {
    Mid::Exit { source: 0 }
}

/// A function of six numbers and an address.
fn function(alloc: Global, ty: u16, line: u32, code: &[Mid]) -> Result<MidFunction, AllocError>
    requires { line ≤ 2 ^ 24 }
{
    let number = RegisterKind::Number;
    let kinds = [
        number,
        number,
        number,
        number,
        number,
        number,
        RegisterKind::Address,
    ];
    Ok(MidFunction {
        ty,
        kinds: Items::from_slice(alloc, &kinds)?,
        line,
        code: lines(alloc, line, code)?,
    })
}

fn call(function: u16) -> Mid {
    Mid::Call {
        target: 0,
        function,
        args: args(0),
    }
}

/// `each` calls the function of the number in register 1 with each number below that in register 0,
/// and returns the sum of what it gives.
fn each(alloc: Global) -> Result<MidFunction, AllocError> {
    let calls = Mid::CallPtr {
        target: 4,
        callee: 1,
        ty: 1,
        args: args(3),
    };
    let code = [
        set(2, 0),
        set(3, 0),
        set(5, 1),
        Mid::Turn,
        arith(Op::Lt, 4, 3, 0),
        Mid::JumpZ {
            source: 4,
            place: 10,
        },
        calls,
        arith(Op::Add, 2, 2, 4),
        arith(Op::Add, 3, 3, 5),
        Mid::Jump { place: 3 },
        Mid::Return { source: 2 },
    ];
    function(alloc, 2, 2_000_200, &code)
}

/// The types: that of `main`, of one number to a number, and of two numbers to a number.
fn types(alloc: Global) -> Result<Items<FunType>, AllocError> {
    let number = RegisterKind::Number;
    let mut types = Items::new(alloc);
    for params in [&[][..], &[number], &[number, number]] {
        types.push(FunType {
            params: Items::from_slice(alloc, params)?,
            result: number,
        })?;
    }
    Ok(types)
}

/// Functions 1 and 2 are those of the main file. Of the binary file, 3 writes a byte and returns 1,
/// 4 is `each`, 5 ends the run, 6 divides by 0, 7 calls functions 3 and 2, 8 calls itself, and 9
/// returns what the static object holds.
fn program(alloc: Global) -> Result<MidProgram, AllocError>
    ensures main_statics { IfOk result (λ p. static_cells p.main_statics ≡ 0) }
    ensures binary_statics { IfOk result (λ p. static_cells p.binary_statics ≡ 1) }
{
    let back = Mid::Return { source: 0 };
    let main = function(alloc, 0, 1, &[exit()])?;
    let show = function(alloc, 1, 2, &[back])?;
    let say = [Mid::Put { source: 0 }, set(1, 1), Mid::Return { source: 1 }];
    let say = function(alloc, 1, 2_000_100, &say)?;
    let each = each(alloc)?;
    let ends = function(alloc, 1, 2_000_300, &[exit()])?;
    let divides = function(alloc, 1, 2_000_400, &[arith(Op::Div, 0, 0, 1), back])?;
    let both = function(alloc, 1, 2_000_500, &[call(3), call(2), back])?;
    let again = function(alloc, 1, 2_000_600, &[call(8), back])?;
    let load = [
        Mid::GlobAddr {
            target: 6,
            object: 134_217_728,
        },
        Mid::Load {
            target: 0,
            pointer: 6,
        },
        back,
    ];
    let load = function(alloc, 1, 2_000_700, &load)?;
    let functions = vec![in alloc; main, show, say, each, ends, divides, both, again, load]?;
    Ok(MidProgram {
        types: types(alloc)?,
        main_functions: 2,
        main: 1,
        main_statics: Items::new(alloc),
        binary_statics: Items::from_vec(vec![in alloc; object(alloc)?]?),
        functions: Items::from_vec(functions),
    })
}

/// What the main file does where the binary functions rest.
#[derive(Clone, Copy, Debug)]
enum Turn {
    Enter(u16, Args),
    Give(u64),
}

fn values(list: &[u64]) -> Args {
    let mut values = Args::new();
    for value in list {
        if !values.is_full() {
            values.push(*value);
        }
    }
    values
}

fn enter(number: u16, list: &[u64]) -> Turn {
    Turn::Enter(number, values(list))
}

fn calls(number: u16, list: &[u64]) -> BinaryStep {
    BinaryStep::Calls(number, values(list))
}

fn traps(trap: Trap, line: u32) -> BinaryStep {
    BinaryStep::Ended(SourceEnd::Trap(trap, line))
}

/// Whether a function may be entered with these arguments.
fn may_enter(program: &MidProgram, number: u16, args: &Args) -> bool
    ensures { IsTrue result → MayEnter program.now number (args_list args.now) }
{
    let Some(function) = program.function(number) else {
        return false;
    };
    let Some(ty) = program.types.get(usize::from(function.ty)) else {
        return false;
    };
    number > program.main_functions
        && args.len() == ty.params.len()
        && args.as_slice().iter().all(|value| *value < 1 << 44)
}

/// Enters a function or gives a value back, where it may.
fn take_turn(run: &mut BinaryRun, program: &MidProgram, turn: &Turn) -> bool
    requires fits { FitsBinary program.now run.old }
    ensures fits { FitsBinary program.now run.new }
    ensures due { IsTrue result → IsDue run.new.next }
{
    if !run.rests() {
        return false;
    }
    match turn {
        Turn::Enter(number, args) => {
            if !may_enter(program, *number, args) {
                return false;
            }
            run.enter(program, *number, args);
        }
        Turn::Give(value) => {
            if run.entered() == 0 || *value >= 1 << 44 {
                return false;
            }
            run.give_back(*value);
        }
    }
    true
}

/// Makes steps until something else than `Went` is answered, at most 1,000.
fn go<O: Outlet>(
    run: &mut BinaryRun,
    program: &MidProgram,
    shared: &mut Store,
    outlet: &mut O,
) -> Result<BinaryStep, Failed>
    requires valid { IsValid program.now }
    requires fits { FitsBinary program.now run.old }
    requires due { IsDue run.old.next }
    ensures fits { FitsBinary program.now run.new }
    ensures due { OnErr result (IsDue run.new.next) }
{
    let mut at = 0;
    for _ in 0..1_000 {
        match run.step(program, shared, b"", &mut at, outlet)? {
            BinaryStep::Went => {}
            answer => return Ok(answer),
        }
    }
    Ok(BinaryStep::Went)
}

/// Whether the machine gives these answers, each after what the main file does.
fn play(
    alloc: Global,
    limits: Limits,
    turns: &[(Turn, BinaryStep)],
    outlet: &mut MemOutlet,
) -> Result<bool, AllocError>
    requires some_turns { 1 ≤ limits.turns }
    requires turns { limits.turns ≤ 10 ^ 12 }
    requires some_depth { 1 ≤ limits.depth }
    requires depth { limits.depth ≤ 1000 }
    requires some_cells { 1 ≤ limits.cells }
    requires cells { limits.cells ≤ 1048576 }
{
    let program = program(alloc)?;
    let Ok(()) = valid(&program) else {
        return Ok(false);
    };
    let mut run = BinaryRun::start(alloc, &program, limits)?;
    let mut shared = Store::start(alloc, 1, 1)?;
    for (turn, answer) in turns {
        if !take_turn(&mut run, &program, turn) {
            return Ok(false);
        }
        match go(&mut run, &program, &mut shared, outlet) {
            Ok(said) if said == *answer => {}
            _ => return Ok(false),
        }
    }
    Ok(true)
}

#[test]
fn calls_across_the_files(rt: HostRuntime) -> Result<(), Fail> {
    let one = BinaryStep::Returned(1);
    let rows: [(u64, u32, &[(Turn, BinaryStep)], &[Event]); 9] = [
        (
            100,
            10,
            &[
                (enter(4, &[3, 2]), calls(2, &[0])),
                (enter(3, &[65]), one),
                (Turn::Give(1), calls(2, &[1])),
                (enter(3, &[66]), one),
                (Turn::Give(1), calls(2, &[2])),
                (enter(3, &[67]), one),
                (Turn::Give(1), BinaryStep::Returned(3)),
            ],
            &[Event::Byte(65), Event::Byte(66), Event::Byte(67)],
        ),
        (
            3,
            2,
            &[(enter(4, &[1, 2]), calls(2, &[0])), (enter(3, &[65]), one)],
            &[Event::Byte(65)],
        ),
        (
            2,
            2,
            &[
                (enter(4, &[1, 2]), calls(2, &[0])),
                (enter(3, &[65]), traps(Trap::Turns, 2_000_100)),
            ],
            &[],
        ),
        (
            2,
            1,
            &[
                (enter(4, &[1, 2]), calls(2, &[0])),
                (enter(3, &[65]), traps(Trap::Depth, 2_000_100)),
            ],
            &[],
        ),
        (
            100,
            10,
            &[(enter(5, &[263]), BinaryStep::Ended(SourceEnd::Exit(7)))],
            &[Event::Exit(7)],
        ),
        (
            100,
            10,
            &[(enter(6, &[1]), traps(Trap::DivideByZero, 2_000_400))],
            &[],
        ),
        (
            100,
            10,
            &[
                (enter(4, &[1, 2]), calls(2, &[0])),
                (enter(7, &[66]), calls(2, &[1])),
                (Turn::Give(8), BinaryStep::Returned(8)),
                (Turn::Give(9), BinaryStep::Returned(9)),
            ],
            &[Event::Byte(66)],
        ),
        (
            100,
            10,
            &[(enter(8, &[1]), traps(Trap::Depth, 2_000_600))],
            &[],
        ),
        (100, 10, &[(enter(9, &[1]), BinaryStep::Returned(9))], &[]),
    ];
    for (turns, depth, script, events) in rows {
        let limits = Limits {
            turns,
            depth,
            cells: 10,
        };
        assert!(rt; 1 <= turns && turns <= 1_000 && 1 <= depth && depth <= 1_000);
        let mut outlet = MemOutlet::with_room(rt.alloc(), 4)?;
        let played = play(rt.alloc(), limits, script, &mut outlet)?;
        assert!(rt; played, "{script:?}");
        assert_eq!(rt; outlet.events(), events, "{script:?}");
    }
    Ok(())
}

/// What function 3 answers over an outlet, after its event has failed over another.
fn retry(alloc: Global, outlet: &mut MemOutlet) -> Result<Option<BinaryStep>, AllocError> {
    let program = program(alloc)?;
    let Ok(()) = valid(&program) else {
        return Ok(None);
    };
    let mut run = BinaryRun::start(alloc, &program, LIMITS)?;
    let mut shared = Store::start(alloc, 1, 1)?;
    let mut none = MemOutlet::with_room(alloc, 0)?;
    if !take_turn(&mut run, &program, &enter(3, &[65])) {
        return Ok(None);
    }
    match go(&mut run, &program, &mut shared, &mut none) {
        Ok(_) => Ok(None),
        Err(Failed) => Ok(go(&mut run, &program, &mut shared, outlet).ok()),
    }
}

#[test]
fn an_event_that_failed_is_still_to_be_done(rt: HostRuntime) -> Result<(), Fail> {
    let mut outlet = MemOutlet::with_room(rt.alloc(), 1)?;
    let answer = retry(rt.alloc(), &mut outlet)?;
    assert_eq!(rt; answer, Some(BinaryStep::Returned(1)));
    assert_eq!(rt; outlet.events(), [Event::Byte(65)].as_slice());
    Ok(())
}

/// Whether the cell of the static object is written and read from outside, and no other.
fn has_one_cell(alloc: Global) -> Result<bool, AllocError> {
    let program = program(alloc)?;
    let Ok(()) = valid(&program) else {
        return Ok(false);
    };
    let mut run = BinaryRun::start(alloc, &program, LIMITS)?;
    let done = run.put(FIRST, 8);
    Ok(
        done == Ok(())
            && run.load(FIRST) == Ok(8)
            && run.put(FIRST + 1, 8) == Err(Trap::OutsideObject)
            && run.load(65_536) == Err(Trap::DeadObject),
    )
}

#[test]
fn cells_from_outside(rt: HostRuntime) -> Result<(), Fail> {
    let has = has_one_cell(rt.alloc())?;
    assert!(rt; has);
    Ok(())
}
