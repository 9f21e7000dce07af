//! What the lexer and the parser answer to each source of a file of cases.
//!
//! The only argument names the file. Each line of it that is not empty is a source, in which a backquote stands
//! for a line feed. A line with `@` is one too: how many times, a front, a part that comes so many times, a
//! middle, another part that comes as often, and a back. Behind a `?` at its front the tree is printed, and else
//! how many externals it has.
#![tactic(auto)]

mod line;
mod show;

use anyhow::{Result, bail};
use c_lexer::tokens;
use c_parser::parse;
use line::source;
use show::Printer;
use std::alloc::Global;
use std::{env, fs};

/// The longest source that is read, in bytes.
const LONGEST: usize = 1_048_576;

/// The bytes of the file that the program was asked for.
fn asked(rt: &HostRuntime) -> Result<Vec<u8>> {
    match env::args(rt)?.nth(1) {
        Some(path) => Ok(fs::read(rt, path.as_str())?),
        None => bail!("no file of cases is named"),
    }
}

/// What is answered to a source.
fn answer(alloc: Global, src: &[u8], shown: bool) -> Result<String> {
    if src.len() > LONGEST {
        bail!("a source is too long");
    }
    let found = match tokens(alloc, src) {
        Ok(found) => found,
        Err(refusal) => return Ok(format!(in alloc; "{refusal:?}")?),
    };
    match parse(alloc, &found, src) {
        Ok(unit) => {
            if shown {
                let mut printer = Printer::new(alloc);
                printer.unit(&unit)?;
                Ok(printer.text)
            } else {
                Ok(format!(in alloc; "{} externals", unit.externals.len())?)
            }
        }
        Err(refusal) => Ok(format!(in alloc; "{refusal:?}")?),
    }
}

fn main(rt: HostRuntime) -> Result<()> {
    let cases = asked(&rt)?;
    for case in cases.split(|b| *b == b'\n') {
        if let [first, rest @ ..] = case {
            let shown = *first == b'?';
            let src = source(rt.alloc(), if shown { rest } else { case })?;
            let answer = answer(rt.alloc(), &src, shown)?;
            println!(rt; "{}", answer.as_str())?;
        }
    }
    Ok(())
}
