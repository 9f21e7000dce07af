//! How many words a second go from one thread to another.
//!
//! The same words, in order, go through a queue of `batch_queue` with the sizes of the words, one
//! with the sizes of the acknowledgements, and a ring of the kit's `rtrb`. The only argument is
//! the number of words. The speeds go to standard error, so that standard output is the same in
//! each run.
#![tactic(auto)]

ghost use Rattle.std.specs.Prelude.{◌^◌, ◌<◌, IfOk};

mod batches;
mod ring;

use std::env;
use std::io::Write;
use std::time::{Clock, Instant};

/// How many words go through each queue where the program has no argument.
const SMALL: u64 = 100_000;

/// The number of words that the program was asked for.
fn asked(rt: &HostRuntime) -> Result<u64, anyhow::Error>
    ensures { IfOk result (λ count. count < 2 ^ 32) }
{
    match env::args(rt)?.nth(1) {
        Some(text) => Ok(text.as_str().parse::<u32>()? as u64),
        None => Ok(SMALL),
    }
}

/// Words a second, since `start`.
fn speed(rt: &HostRuntime, start: Instant, count: u64) -> Result<u64, anyhow::Error>
    requires { count < 2 ^ 32 }
{
    let micros = start.elapsed(rt)?.as_micros().max(1);
    Ok((count as u128 * 1_000_000 / micros) as u64)
}

fn main(rt: HostRuntime) -> Result<(), anyhow::Error> {
    let count = asked(&rt)?;
    let start = Instant::now(&rt)?;
    let words = batches::run::<4096, 64, HostRuntime>(&rt, rt.alloc(), count)?;
    eprintln!(rt;
        "batch_queue 4096/64: {} words a second",
        speed(&rt, start, count)?
    )?;
    let start = Instant::now(&rt)?;
    let acks = batches::run::<256, 32, HostRuntime>(&rt, rt.alloc(), count)?;
    eprintln!(rt;
        "batch_queue 256/32: {} words a second",
        speed(&rt, start, count)?
    )?;
    let start = Instant::now(&rt)?;
    let ring = ring::run(&rt, rt.alloc(), count)?;
    eprintln!(rt; "rtrb 4096: {} words a second", speed(&rt, start, count)?)?;
    println!(rt; "in order: {}", words && acks && ring)?;
    Ok(())
}
