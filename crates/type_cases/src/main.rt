//! What the lexer, the parser and checking answer to each program of a file of cases.
//!
//! The only argument names the file. Each line of it that is not empty is a program: the source of its main file and,
//! behind a `$`, that of its binary file (case_files tells how a source is written).
#![tactic(auto)]

use anyhow::{Result, bail};
use c_lexer::tokens;
use c_parser::parse;
use c_tree::Unit;
use c_typing::check;
use case_files::{asked, source};
use std::alloc::Global;

/// The longest source that is read, in bytes.
const LONGEST: usize = 1_048_576;

/// What comes of a source: its tree, or the refusal of the lexer or the parser.
#[derive(Drop)]
enum Outcome {
    Tree(Unit),
    Refused(String),
}

/// Reads a source.
fn reading(alloc: Global, text: &[u8]) -> Result<Outcome> {
    let src = source(alloc, text)?;
    if src.len() > LONGEST {
        bail!("a source is too long");
    }
    let found = match tokens(alloc, &src) {
        Ok(found) => found,
        Err(refusal) => return Ok(Outcome::Refused(format!(in alloc; "{refusal:?}")?)),
    };
    match parse(alloc, &found, &src) {
        Ok(unit) => Ok(Outcome::Tree(unit)),
        Err(refusal) => Ok(Outcome::Refused(format!(in alloc; "{refusal:?}")?)),
    }
}

/// What checking answers to trees.
fn checked(alloc: Global, main: &Unit, binary: Option<&Unit>) -> Result<String> {
    match check(alloc, main, binary) {
        Ok(_) => Ok(String::from_str(alloc, "Checked")?),
        Err(refusal) => Ok(format!(in alloc; "{refusal:?}")?),
    }
}

/// What is answered to a program.
fn answer(alloc: Global, case: &[u8]) -> Result<String> {
    let mut files = case.split(|b| *b == b'$');
    let main = match reading(alloc, files.next().unwrap_or(&[]))? {
        Outcome::Tree(unit) => unit,
        Outcome::Refused(why) => return Ok(why),
    };
    let Some(text) = files.next() else {
        return checked(alloc, &main, None);
    };
    match reading(alloc, text)? {
        Outcome::Tree(unit) => checked(alloc, &main, Some(&unit)),
        Outcome::Refused(why) => Ok(why),
    }
}

fn main(rt: HostRuntime) -> Result<()> {
    let cases = asked(&rt)?;
    for case in cases.split(|b| *b == b'\n') {
        if !case.is_empty() {
            let answer = answer(rt.alloc(), case)?;
            println!(rt; "{}", answer.as_str())?;
        }
    }
    Ok(())
}
