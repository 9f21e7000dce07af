//! The runner: it takes the source of a program and runs it, or checks it.
//!
//! It runs every program of the subset, of one file or two, by its meaning. Today it compiles
//! sources of the first form alone, in which `main` writes constant bytes and returns a constant,
//! and runs them by the machine of one thread or by both sides of their pair in turn. It checks the
//! sources of the whole subset. The top call promises, of any files and any outlet, that a program
//! that runs gives exactly its events and its end, and one that is checked its typing or its first
//! refusal; or an answer with its cause, its status and its lines. It stands on `mid_run` and
//! `pair_core`, on the sources of `first_form`, on `c_front` and the evaluator of `c_meaning`, on
//! `answers`, and on the traits of `srmt_outside`.
#![tactic(auto)]

mod reference;
mod sources;
mod still;
#[cfg(test)]
mod tests;
mod words;

use crate::still::srmtrun_still;
use crate::words::read_question;
use answers::{Finished, RunAnswer, finish};
use srmt_outside::{RealFiles, RealOutlet, RealSink};
use std::io::ErrorKind;
use std::process::ExitCode;
use std::{env, io};

fn main(rt: HostRuntime) -> ExitCode {
    let finished = match command_words(rt) {
        Ok(words) => run(rt, &words),
        // A word is no text, or memory ran out.
        Err(error) if error.kind() == ErrorKind::InvalidData => fail(rt, RunAnswer::Usage),
        Err(_) => fail(rt, RunAnswer::OutOfMemory),
    };
    ExitCode::from(finished.status)
}

// The words of the command, after the program's own name.
fn command_words(rt: HostRuntime) -> io::Result<Vec<String>> {
    Ok(env::args(&rt)?.skip(1).collect(rt.alloc())?)
}

// A run on the system's files and streams. What is asked of the program itself is its output, and
// any other line is a note.
fn run(rt: HostRuntime, words: &[String]) -> Finished {
    let alloc = rt.alloc();
    let mut files = RealFiles::new(rt);
    let mut outlet = RealOutlet::new(rt.stdout(), rt.stderr());
    if read_question(words).is_some() {
        let mut texts = RealSink::new(rt.stdout());
        srmtrun_still(alloc, words, &mut files, &mut outlet, &mut texts)
    } else {
        let mut notes = RealSink::new(rt.stderr());
        srmtrun_still(alloc, words, &mut files, &mut outlet, &mut notes)
    }
}

// The end of a call that has no words.
fn fail(rt: HostRuntime, answer: RunAnswer) -> Finished {
    finish(answer, &mut RealSink::new(rt.stderr()))
}
