use self::calls::{CALLS, FORM, TOO_LONG, Want};
use crate::still::srmtrun_still;
use answers::{CompileRefusal, RunAnswer};
use first_form::{Constant, FirstForm, read_first_form};
use pair_core::{Ran, Verdict};
use srmt_base::{Event, SourceEnd};
use srmt_outside::{MemFiles, MemOutlet, MemSink};
use std::alloc::{AllocError, Global};
use std::test::Fail;

mod calls;
mod checks;
mod reference;
mod schedules;

// A call over a file `a.c`, and what is to come of it.
#[derive(Debug, Drop)]
struct Case<'a> {
    words: &'a [&'a str],
    source: &'a [u8],
    // The numbers of the calls that fail: of the files, of the outlet and of the notes, or 0.
    fails: [u64; 3],
    want: Want,
    status: u8,
    // The bytes among the events. Where the program exits, one event more follows.
    bytes: &'a [u8],
    notes: &'a str,
}

// The words of a command.
fn owned(alloc: Global, texts: &[&str]) -> Result<Vec<String>, AllocError> {
    let mut words = Vec::new(alloc);
    for text in texts {
        words.push(String::from_str(alloc, text)?)?;
    }
    Ok(words)
}

// The bytes among events.
fn bytes_of(alloc: Global, events: &[Event]) -> Result<Vec<u8>, AllocError> {
    let mut bytes = Vec::new(alloc);
    for event in events {
        if let Event::Byte(byte) = event {
            bytes.push(*byte)?;
        }
    }
    Ok(bytes)
}

// An answer of both sides.
fn ran(verdict: Verdict, counts: [u64; 4]) -> RunAnswer {
    let [lead_steps, trail_steps, words, acks] = counts;
    RunAnswer::Ran(Ran {
        verdict,
        lead_steps,
        trail_steps,
        words,
        acks,
        applied: false,
    })
}

// The answer of a call with this status.
fn answer_of(want: Want, status: u8) -> RunAnswer {
    match want {
        Want::Alone => RunAnswer::Alone(SourceEnd::Exit(status)),
        Want::Both(counts) => ran(Verdict::Exit(status), counts),
        Want::BothFailed(counts) => ran(Verdict::WriteFault, counts),
        Want::Help => RunAnswer::Help,
        Want::Version => RunAnswer::Version,
        Want::Usage => RunAnswer::Usage,
        Want::ReadFault => RunAnswer::ReadFault,
        Want::TooLong => RunAnswer::TooLong,
        Want::Form => RunAnswer::Refused(CompileRefusal::Form),
        Want::WriteFault => RunAnswer::WriteFault,
    }
}

// How many events there are beside the bytes.
fn exits(want: Want) -> usize {
    match want {
        Want::Alone | Want::Both(_) => 1,
        _ => 0,
    }
}

// The files of a case.
fn files_of(alloc: Global, case: &Case<'_>) -> Result<MemFiles, AllocError> {
    let mut files = MemFiles::new(alloc);
    files.give(alloc, "a.c", case.source)?;
    files.fails.push(case.fails[0])?;
    Ok(files)
}

// An outlet whose call of this number fails.
fn outlet_of(alloc: Global, fails: u64) -> Result<MemOutlet, AllocError> {
    let mut outlet = MemOutlet::with_room(alloc, 30_000)?;
    outlet.fails.push(fails)?;
    Ok(outlet)
}

// Notes whose call of this number fails.
fn notes_of(alloc: Global, fails: u64) -> Result<MemSink, AllocError> {
    let mut notes = MemSink::with_room(alloc, 100)?;
    notes.fails.push(fails)?;
    Ok(notes)
}

// Whether the events are the bytes of a case, and one more where its program exits.
fn written(alloc: Global, case: &Case<'_>, events: &[Event]) -> Result<bool, AllocError> {
    let bytes = bytes_of(alloc, events)?;
    let count = events.len().checked_sub(exits(case.want));
    Ok(bytes.as_slice() == case.bytes && count == Some(bytes.len()))
}

// Whether the call over these comes to what it is to come to. All lines are noted where no call of the
// notes is to fail.
fn comes_to(
    alloc: Global,
    case: &Case<'_>,
    words: &[String],
    files: &mut MemFiles,
    outlet: &mut MemOutlet,
    notes: &mut MemSink,
) -> Result<bool, AllocError> {
    let finished = srmtrun_still(alloc, words, files, outlet, notes);
    let ended = finished.answer == answer_of(case.want, case.status)
        && finished.status == case.status;
    let noted = finished.noted == (case.fails[2] == 0) && notes.bytes() == case.notes.as_bytes();
    Ok(ended && noted && written(alloc, case, outlet.events())?)
}

// Whether the call comes to what it is to come to.
fn holds(alloc: Global, case: &Case<'_>) -> Result<bool, AllocError> {
    let words = owned(alloc, case.words)?;
    let mut files = files_of(alloc, case)?;
    let mut outlet = outlet_of(alloc, case.fails[1])?;
    let mut notes = notes_of(alloc, case.fails[2])?;
    comes_to(alloc, case, &words, &mut files, &mut outlet, &mut notes)
}

#[test]
fn calls_come_to_this(rt: HostRuntime) -> Result<(), Fail> {
    for (words, source, fails, want, status, bytes, notes) in &CALLS {
        let case = Case {
            words,
            source,
            fails: *fails,
            want: *want,
            status: *status,
            bytes,
            notes,
        };
        assert!(rt; holds(rt.alloc(), &case)?, "{case:?}");
    }
    Ok(())
}

// A source with so many statements `putchar(7);`.
fn sevens(alloc: Global, puts: u32) -> Result<Vec<u8>, AllocError> {
    let mut source = Vec::from_slice(alloc, b"int main(void){")?;
    for _ in 0..puts {
        source.extend_from_slice(b"putchar(7);")?;
    }
    source.extend_from_slice(b"return 0;}")?;
    Ok(source)
}

// Whether a source runs to its exit with 0, and writes these bytes.
fn runs(alloc: Global, source: &[u8], bytes: &[u8]) -> Result<bool, AllocError> {
    let case = Case {
        words: &["a.c", "--single"],
        source,
        fails: [0, 0, 0],
        want: Want::Alone,
        status: 0,
        bytes,
        notes: "",
    };
    holds(alloc, &case)
}

// Whether a source is answered so, and is not run.
fn stops(
    alloc: Global,
    source: &[u8],
    want: Want,
    status: u8,
    notes: &str,
) -> Result<bool, AllocError> {
    let case = Case {
        words: &["a.c", "--single"],
        source,
        fails: [0, 0, 0],
        want,
        status,
        bytes: b"",
        notes,
    };
    holds(alloc, &case)
}

// The longest source that is read.
fn longest(alloc: Global) -> Result<Vec<u8>, AllocError> {
    let mut source = Vec::from_slice(alloc, b"int main(void){return 0;}")?;
    source.resize(1_048_576, b'\n')?;
    Ok(source)
}

fn most_run(alloc: Global) -> Result<bool, AllocError> {
    let most = sevens(alloc, 20_000)?;
    runs(alloc, &most, &[7; 20_000])
}

fn more_are_refused(alloc: Global) -> Result<bool, AllocError> {
    let more = sevens(alloc, 20_001)?;
    stops(alloc, &more, Want::Form, 127, FORM)
}

fn longest_runs(alloc: Global) -> Result<bool, AllocError> {
    let source = longest(alloc)?;
    runs(alloc, &source, b"")
}

fn longer_is_too_long(alloc: Global) -> Result<bool, AllocError> {
    let mut source = longest(alloc)?;
    source.push(b'\n')?;
    stops(alloc, &source, Want::TooLong, 124, TOO_LONG)
}

#[test]
fn limits_are_exact(rt: HostRuntime) -> Result<(), Fail> {
    assert!(rt; most_run(rt.alloc())?);
    assert!(rt; more_are_refused(rt.alloc())?);
    assert!(rt; longest_runs(rt.alloc())?);
    assert!(rt; longer_is_too_long(rt.alloc())?);
    Ok(())
}

// Whether each part of the form of the source below has the line on which it stands.
fn has_lines(form: &FirstForm) -> bool {
    let lines = (form.main_line, form.return_line, form.end_line);
    let status = Constant { value: 7, line: 9 };
    let byte = Constant { value: 65, line: 7 };
    match form.puts.as_slice() {
        [put] => {
            lines == (3, 8, 11)
                && form.status == status
                && (put.name_line, put.paren_line) == (5, 6)
                && put.constant == byte
        }
        _ => false,
    }
}

#[test]
fn lines_are_kept(rt: HostRuntime) -> Result<(), Fail> {
    let source = b"\nint\nmain\n(void) {\nputchar\n(\n65\n); return\n7\n;\n}\n";
    let form = read_first_form(rt.alloc(), source).map_err(|_| "no first form")?;
    assert!(rt; has_lines(&form));
    Ok(())
}
