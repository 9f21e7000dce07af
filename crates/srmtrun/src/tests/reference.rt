use super::owned;
use crate::still::srmtrun_still;
use answers::RunAnswer;
use srmt_base::{Event, SourceEnd, Trap};
use srmt_outside::{MemFiles, MemOutlet, MemSink};
use std::alloc::{AllocError, Global};
use std::test::Fail;

// The words behind `a.c --reference`, that file, the number of the event that fails, or 0, the answer, the events and the
// line. The binary file `b.c` and the input `in` are there too.
type Row = (
    &'static [&'static str],
    &'static [u8],
    u64,
    RunAnswer,
    &'static [Event],
    &'static str,
);

const COPY: &[u8] =
    b"int main(void) {\nint c;\nwhile ((c = getchar()) != EOF) putchar(c);\nreturn 0;\n}";

const THREE: &[u8] = b"int main(void) {\nint i = 0;\nwhile (i < 3) i = i + 1;\nreturn i;\n}";

const SHOW: &[u8] =
    b"int each(int n, int (*f)(int));\nint say(int c);\nint show(int i) { return say(65 + i); }\nint main(void) { return each(3, show); }";

const EACH: &[u8] =
    b"int say(int c) { putchar(c); return 1; }\nint each(int n, int (*f)(int)) {\nint s = 0;\nfor (int i = 0; i < n; i++) s += f(i);\nreturn s;\n}";

const BEYOND: &[u8] =
    b"int main(void) {\nint x = 2147483647;\nputchar(79);\nputchar(80);\nreturn x + 1;\n}";

const INPUT: &[&str] = &["--input", "in"];

const fn exit(status: u8) -> RunAnswer {
    RunAnswer::Alone(SourceEnd::Exit(status))
}

// Files with this program, and the words that run it by its meaning.
fn program(alloc: Global, main: &[u8]) -> Result<(MemFiles, Vec<String>), AllocError> {
    let mut files = MemFiles::new(alloc);
    files.give(alloc, "a.c", main)?;
    files.give(alloc, "b.c", EACH)?;
    Ok((
        files,
        owned(alloc, &["a.c", "--reference", "--binary", "b.c"])?,
    ))
}

// Whether a call whose event behind these fails has written these alone.
fn stops(alloc: Global, main: &[u8], before: &[Event]) -> Result<bool, AllocError> {
    let (mut files, words) = program(alloc, main)?;
    let mut outlet = MemOutlet::with_room(alloc, 10)?;
    outlet.fails.push(before.len() as u64 + 1)?;
    let mut notes = MemSink::with_room(alloc, 100)?;
    let finished = srmtrun_still(alloc, &words, &mut files, &mut outlet, &mut notes);
    Ok(finished.answer == RunAnswer::WriteFault && outlet.events() == before)
}

// Whether it does so at each of its events.
fn stops_at_each(alloc: Global, main: &[u8], events: &[Event]) -> Result<bool, AllocError> {
    let mut all = true;
    for done in 0..events.len() {
        all &= stops(alloc, main, &events[..done])?;
    }
    Ok(all)
}

// Whether a call whose note of this number fails ends with the status 124 and a first part of its line.
fn is_cut(alloc: Global, main: &[u8], line: &str, fails: u64) -> Result<bool, AllocError> {
    let (mut files, words) = program(alloc, main)?;
    let mut outlet = MemOutlet::with_room(alloc, 10)?;
    let mut notes = MemSink::with_room(alloc, 100)?;
    notes.fails.push(fails)?;
    let finished = srmtrun_still(alloc, &words, &mut files, &mut outlet, &mut notes);
    let is_first = line.as_bytes().starts_with(notes.bytes());
    Ok(!finished.noted && finished.status == 124 && is_first)
}

// Whether it does so at each of so many notes.
fn is_cut_at_each(alloc: Global, main: &[u8], line: &str, calls: u64) -> Result<bool, AllocError> {
    let mut all = true;
    for call in 1..=calls {
        all &= is_cut(alloc, main, line, call)?;
    }
    Ok(all)
}

// Whether a call has its answer, its events and its line.
fn answers(alloc: Global, row: &Row) -> Result<bool, AllocError> {
    let (more, main, fails, answer, events, text) = row;
    let mut files = MemFiles::new(alloc);
    files.give(alloc, "a.c", main)?;
    files.give(alloc, "b.c", EACH)?;
    files.give(alloc, "in", b"a\xffb")?;
    let mut outlet = MemOutlet::with_room(alloc, 10)?;
    outlet.fails.push(*fails)?;
    let mut notes = MemSink::with_room(alloc, 100)?;
    let mut words = owned(alloc, more)?;
    words.append(&mut owned(alloc, &["a.c", "--reference"])?)?;
    let finished = srmtrun_still(alloc, &words, &mut files, &mut outlet, &mut notes);
    let told = outlet.events() == *events && notes.bytes() == text.as_bytes();
    Ok(told && finished.noted && finished.answer == *answer)
}

#[test]
fn programs_run_by_their_meaning(rt: HostRuntime) -> Result<(), Fail> {
    let rows: [Row; 6] = [
        (
            INPUT,
            COPY,
            0,
            exit(0),
            &[
                Event::Byte(97),
                Event::Byte(255),
                Event::Byte(98),
                Event::Exit(0),
            ],
            "",
        ),
        (&[], COPY, 0, exit(0), &[Event::Exit(0)], ""),
        (
            INPUT,
            COPY,
            2,
            RunAnswer::WriteFault,
            &[Event::Byte(97)],
            "srmtrun: fault: output\n",
        ),
        (
            &["--turns", "4"],
            THREE,
            0,
            RunAnswer::Alone(SourceEnd::Trap(Trap::Turns, 3)),
            &[],
            "srmtrun: exhausted: Turns at line 3\n",
        ),
        (&["--turns", "5"], THREE, 0, exit(3), &[Event::Exit(3)], ""),
        (
            &["--binary", "b.c"],
            SHOW,
            0,
            exit(3),
            &[
                Event::Byte(65),
                Event::Byte(66),
                Event::Byte(67),
                Event::Exit(3),
            ],
            "",
        ),
    ];
    for row in &rows {
        assert!(rt; answers(rt.alloc(), row)?);
    }
    Ok(())
}

#[test]
fn programs_stop_at_each_event_and_note(rt: HostRuntime) -> Result<(), Fail> {
    let alloc = rt.alloc();
    let shown = [
        Event::Byte(65),
        Event::Byte(66),
        Event::Byte(67),
        Event::Exit(3),
    ];
    assert!(rt; stops_at_each(alloc, SHOW, &shown)?);
    let before = [Event::Byte(79), Event::Byte(80)];
    assert!(rt; stops_at_each(alloc, BEYOND, &before)?);
    let line = "srmtrun: undefined: Overflow at line 5\n";
    assert!(rt; is_cut_at_each(alloc, BEYOND, line, 6)?);
    Ok(())
}
