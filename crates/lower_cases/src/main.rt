//! What programs of a file of cases are lowered to.
//!
//! The only argument names the file. Each line of it that is not empty is a program: the source of its main file and,
//! behind a `$`, that of its binary file (case_files tells how a source is written). Of a long function the last instructions are shown.
#![tactic(auto)]

mod show;

use anyhow::{Result, bail};
use c_lexer::tokens;
use c_parser::parse;
use c_tree::Unit;
use c_typed::TypedProgram;
use c_typing::check;
use case_files::{asked, source};
use lower::lower;
use show::show_program;
use std::alloc::Global;
use std::str;

/// The longest source that is read, in bytes.
const LONGEST: usize = 1_048_576;

/// The tree of a source.
fn tree(alloc: Global, text: &[u8]) -> Result<Unit> {
    let src = source(alloc, text)?;
    if src.len() > LONGEST {
        bail!("a source is too long");
    }
    let found = match tokens(alloc, &src) {
        Ok(found) => found,
        Err(_) => bail!("the lexer refuses a source"),
    };
    match parse(alloc, &found, &src) {
        Ok(unit) => Ok(unit),
        Err(_) => bail!("the parser refuses a source"),
    }
}

/// The typed program of one tree or two.
fn typed(alloc: Global, main: &Unit, binary: Option<&Unit>) -> Result<TypedProgram> {
    match check(alloc, main, binary) {
        Ok(program) => Ok(program),
        Err(_) => bail!("checking refuses a program"),
    }
}

/// The typed program that a case says.
fn program(alloc: Global, case: &[u8]) -> Result<TypedProgram> {
    let mut files = case.split(|b| *b == b'$');
    let main = tree(alloc, files.next().unwrap_or(&[]))?;
    let Some(text) = files.next() else {
        return typed(alloc, &main, None);
    };
    let binary = tree(alloc, text)?;
    typed(alloc, &main, Some(&binary))
}

fn main(rt: HostRuntime) -> Result<()> {
    let cases = asked(&rt)?;
    for case in cases.split(|b| *b == b'\n') {
        if case.is_empty() {
            continue;
        }
        println!(rt; "== {}", str::from_utf8(case)?)?;
        let program = program(rt.alloc(), case)?;
        match lower(rt.alloc(), &program) {
            Ok(lowered) => show_program(&rt, &lowered)?,
            Err(refusal) => println!(rt; "{refusal:?}")?,
        }
    }
    Ok(())
}
