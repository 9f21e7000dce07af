//! How long the tokens and the tree of a source take.
//!
//! The only argument names the source. How many tokens and externals it has goes to standard output, and how
//! long both took to standard error, so that standard output is the same in each run.
#![tactic(auto)]

use anyhow::{Result, bail};
use c_lexer::tokens;
use c_parser::parse;
use std::time::{Clock, Instant};
use std::{env, fs};

/// The longest source that is read, in bytes.
const LONGEST: usize = 1_048_576;

/// The bytes of the source that the program was asked for.
fn asked(rt: &HostRuntime) -> Result<Vec<u8>> {
    match env::args(rt)?.nth(1) {
        Some(path) => Ok(fs::read(rt, path.as_str())?),
        None => bail!("no source is named"),
    }
}

fn main(rt: HostRuntime) -> Result<()> {
    let src = asked(&rt)?;
    if src.len() > LONGEST {
        bail!("the source is too long");
    }
    let start = Instant::now(&rt)?;
    let Ok(found) = tokens(rt.alloc(), &src) else {
        bail!("the source has no tokens");
    };
    let lexed = start.elapsed(&rt)?.as_micros();
    let start = Instant::now(&rt)?;
    let Ok(unit) = parse(rt.alloc(), &found, &src) else {
        bail!("the tokens are no unit");
    };
    let parsed = start.elapsed(&rt)?.as_micros();
    eprintln!(rt; "tokens: {lexed} microseconds, tree: {parsed} microseconds")?;
    println!(rt;
        "{} tokens, {} externals",
        found.len(),
        unit.externals.len()
    )?;
    Ok(())
}
