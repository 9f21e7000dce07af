//! How many instructions of middle code a second the machine runs on one thread.
//!
//! Two loops run for as many rounds as the only argument says: one of arithmetic, moves and jumps,
//! and one that reads, adds to and writes each cell of an array. The speeds go to standard error, so
//! that standard output is the same in each run.
#![tactic(auto)]

ghost use Rattle.std.specs.Prelude.{◌≡◌, ◌^◌, ◌<◌, [], IfOk};
ghost use Rattle.mid_code.specs.Valid.{IsValid};

use anyhow::{Result, bail};
use mid_code::{FunType, Mid, MidFunction, MidLine, MidProgram, RegisterKind, valid};
use mid_run::MidRun;
use sqlite_items::Items;
use srmt_base::{Limits, Op, SourceEnd, Ty};
use srmt_outside::SureOutlet;
use std::alloc::{AllocError, Global};
use std::env;
use std::time::{Clock, Instant};

/// How many rounds the loop of arithmetic makes where the program has no argument.
const SMALL: u64 = 100_000;

/// How many instructions of two of its rounds are run: one is jumped over in every other round.
const OF_TWO_ROUNDS: u64 = 17;

/// How many cells the array has.
const CELLS: u16 = 1_000;

/// How many instructions one sweep over the array takes.
const OF_A_SWEEP: u64 = 8_004;

/// The kinds of the registers: numbers, and two addresses.
const KINDS: [RegisterKind; 8] = [
    RegisterKind::Number,
    RegisterKind::Number,
    RegisterKind::Number,
    RegisterKind::Number,
    RegisterKind::Number,
    RegisterKind::Number,
    RegisterKind::Address,
    RegisterKind::Address,
];

/// The number of rounds that the program was asked for.
fn asked(rt: &HostRuntime) -> Result<u64>
    ensures { IfOk result (λ count. count < 2 ^ 32) }
{
    match env::args(rt)?.nth(1) {
        Some(text) => Ok(text.as_str().parse::<u32>()? as u64),
        None => Ok(SMALL),
    }
}

fn arith(op: Op, target: u16, left: u16, right: u16) -> Mid {
    Mid::Arith {
        op,
        ty: Ty::UInt,
        target,
        left,
        right,
    }
}

fn set(target: u16, value: u64) -> Mid {
    Mid::Const { target, value }
}

/// Goes on at the place where the register is not 0.
fn jump(source: u16, place: u32) -> Mid {
    Mid::JumpN { source, place }
}

/// Counts register 0 down to 0, and works on the others.
fn arithmetic(rounds: u64) -> [Mid; 13] {
    [
        set(0, rounds),
        set(1, 1),
        set(2, 0),
        Mid::Turn,
        arith(Op::Add, 2, 2, 0),
        arith(Op::Xor, 3, 2, 0),
        Mid::Move {
            target: 4,
            source: 3,
        },
        arith(Op::And, 5, 0, 1),
        Mid::JumpZ {
            source: 5,
            place: 10,
        },
        arith(Op::Add, 2, 4, 1),
        arith(Op::Sub, 0, 0, 1),
        jump(0, 3),
        Mid::Exit { source: 2 },
    ]
}

/// Counts register 0 down to 0, and each time adds it to all cells of an array.
fn array(sweeps: u64) -> [Mid; 17] {
    [
        set(0, sweeps),
        set(1, 1),
        set(3, u64::from(CELLS)),
        Mid::Open {
            target: 6,
            cells: CELLS,
        },
        Mid::Turn,
        set(2, 0),
        Mid::Turn,
        Mid::PtrAdd {
            target: 7,
            pointer: 6,
            index: 2,
            ty: Ty::UInt,
            negated: false,
            scale: 1,
        },
        Mid::Load {
            target: 4,
            pointer: 7,
        },
        arith(Op::Add, 4, 4, 0),
        Mid::Store {
            pointer: 7,
            source: 4,
        },
        arith(Op::Add, 2, 2, 1),
        arith(Op::Lt, 5, 2, 3),
        jump(5, 6),
        arith(Op::Sub, 0, 0, 1),
        jump(0, 4),
        Mid::Exit { source: 4 },
    ]
}

/// A program of one function with these instructions.
fn program(alloc: Global, instructions: &[Mid]) -> Result<MidProgram, AllocError>
    ensures main_statics { IfOk result (λ program. program.main_statics ≡ []) }
    ensures binary_statics { IfOk result (λ program. program.binary_statics ≡ []) }
{
    let main_type = FunType {
        params: Items::new(alloc),
        result: RegisterKind::Number,
    };
    let mut code = Items::new(alloc);
    for mid in instructions {
        code.push(MidLine { line: 1, mid: *mid })?;
    }
    let main = MidFunction {
        ty: 0,
        kinds: Items::from_slice(alloc, &KINDS)?,
        line: 1,
        code,
    };
    Ok(MidProgram {
        types: Items::from_vec(vec![in alloc; main_type]?),
        main_functions: 1,
        main: 1,
        main_statics: Items::new(alloc),
        binary_statics: Items::new(alloc),
        functions: Items::from_vec(vec![in alloc; main]?),
    })
}

/// What a run of up to 2^32 turns may spend.
const LIMITS: Limits = Limits {
    turns: 10_000_000_000,
    depth: 1,
    cells: 1_000,
};

/// The end of the program's run, and how many microseconds it took.
fn timed(rt: &HostRuntime, program: &MidProgram) -> Result<(Option<SourceEnd>, u128)>
    requires valid { IsValid program.now }
    requires main_statics { program.now.main_statics ≡ [] }
    requires binary_statics { program.now.binary_statics ≡ [] }
{
    let alloc = rt.alloc();
    let mut run = MidRun::start(alloc, program, Vec::new(alloc), LIMITS)?;
    let mut outlet = SureOutlet::new();
    let start = Instant::now(rt)?;
    let end = run.run(program, &mut outlet).ok();
    let micros = start.elapsed(rt)?.as_micros();
    Ok((end, micros))
}

/// How many instructions a second are run, where so many take some microseconds.
fn speed(instructions: u64, micros: u128) -> u64
    requires { instructions < 2 ^ 40 }
{
    (u128::from(instructions) * 1_000_000 / micros.max(1)) as u64
}

/// Runs these instructions, so many of which are executed, and tells how fast and to what end.
fn measure(rt: &HostRuntime, name: &str, instructions: &[Mid], count: u64) -> Result<()>
    requires { count < 2 ^ 40 }
{
    let program = program(rt.alloc(), instructions)?;
    if valid(&program).is_err() {
        bail!("the program is not valid");
    }
    let (end, micros) = timed(rt, &program)?;
    eprintln!(rt; "{name}: {} instructions a second", speed(count, micros))?;
    println!(rt; "{end:?}")?;
    Ok(())
}

fn main(rt: HostRuntime) -> Result<()> {
    let rounds = asked(&rt)?;
    let sweeps = rounds / u64::from(CELLS) + 1;
    measure(
        &rt,
        "arithmetic",
        &arithmetic(rounds),
        rounds * OF_TWO_ROUNDS / 2,
    )?;
    measure(&rt, "array", &array(sweeps), sweeps * OF_A_SWEEP)
}
