use crate::texts::{kind_name, trap_name};
use crate::{CompileRefusal, RunAnswer, Which, finish};
use c_lexer::LexRefusal;
use c_parser::ParseRefusal;
use srmt_base::{Kind, Site, SourceEnd, Trap, Word, pack};
use srmt_outside::MemSink;
use std::test::Fail;
use typing_rules::{Size, TypeRefusal};
use verdicts::{Ran, Report, ThreadEnd, Verdict};

// An answer of both sides.
fn ran(verdict: Verdict) -> RunAnswer {
    RunAnswer::Ran(Ran {
        verdict,
        lead_steps: 3,
        trail_steps: 6,
        words: 1,
        acks: 1,
        applied: true,
    })
}

fn reported(report: Report) -> RunAnswer {
    ran(Verdict::Reported(report))
}

// The leading side trapped while the trailing side waited.
fn parted() -> RunAnswer {
    let overflow = ThreadEnd::Trap(Trap::Overflow, 3);
    reported(Report::Parted(overflow, ThreadEnd::PeerEnded))
}

fn trapped(trap: Trap, line: u32) -> RunAnswer {
    RunAnswer::Alone(SourceEnd::Trap(trap, line))
}

// A main file that has no tokens.
fn lexed(cause: LexRefusal) -> RunAnswer {
    RunAnswer::Refused(CompileRefusal::Lex(Which::Main, cause))
}

// A program that has no typing.
fn typed(cause: TypeRefusal) -> RunAnswer {
    RunAnswer::Refused(CompileRefusal::Typing(cause))
}

fn word(kind: Kind, site: u16, value: u32) -> Word {
    pack(kind, Site(site), u64::from(value))
}

#[test]
fn answers_have_their_lines(rt: HostRuntime) -> Result<(), Fail> {
    let mismatch = Report::Mismatch(word(Kind::Check, 1, 131_072), word(Kind::Check, 1, 65_536));
    let echo = Report::Echo(word(Kind::Ack, 1, 65), word(Kind::Ack, 65_535, 66));
    let rows = [
        (RunAnswer::Alone(SourceEnd::Exit(122)), 122, ""),
        (
            trapped(Trap::Overflow, 3),
            121,
            "srmtrun: undefined: Overflow at line 3\n",
        ),
        (
            trapped(Trap::DivideByZero, 2_000_000),
            121,
            "srmtrun: undefined: DivideByZero at line 2000000\n",
        ),
        (
            trapped(Trap::Turns, 2_000_001),
            122,
            "srmtrun: exhausted: Turns at binary line 1\n",
        ),
        (ran(Verdict::Exit(7)), 7, ""),
        (
            ran(Verdict::Undefined(Trap::OutsideObject, 4)),
            121,
            "srmtrun: undefined: OutsideObject at line 4\n",
        ),
        (
            ran(Verdict::Exhausted(Trap::Depth, 1)),
            122,
            "srmtrun: exhausted: Depth at line 1\n",
        ),
        (
            reported(mismatch),
            123,
            "srmtrun: report: mismatch: took check 1 131072, own check 1 65536\n",
        ),
        (
            reported(echo),
            123,
            "srmtrun: report: echo: took ack 1 65, own ack 65535 66\n",
        ),
        (
            parted(),
            123,
            "srmtrun: report: parted: lead trap Overflow at line 3, trail peer ended\n",
        ),
        (
            reported(Report::Parted(ThreadEnd::Exit(0), ThreadEnd::Exit(7))),
            123,
            "srmtrun: report: parted: lead exit 0, trail exit 7\n",
        ),
        (ran(Verdict::WriteFault), 124, "srmtrun: fault: output\n"),
        (RunAnswer::WriteFault, 124, "srmtrun: fault: output\n"),
        (RunAnswer::ReadFault, 124, "srmtrun: fault: reading\n"),
        (RunAnswer::TooLong, 124, "srmtrun: fault: too long\n"),
        (RunAnswer::OutOfMemory, 125, "srmtrun: fault: memory\n"),
        (
            RunAnswer::Usage,
            126,
            "srmtrun: usage: srmtrun PROGRAM [options]\n",
        ),
        (
            RunAnswer::Refused(CompileRefusal::Form),
            127,
            "srmtrun: refused: form\n",
        ),
        (RunAnswer::Checked, 0, ""),
        (
            lexed(LexRefusal::LiteralTooWide(22)),
            127,
            "srmtrun: refused: lex main LiteralTooWide at 22\n",
        ),
        (
            lexed(LexRefusal::Directive(0)),
            127,
            "srmtrun: refused: lex main Directive at 0\n",
        ),
        (
            RunAnswer::Refused(CompileRefusal::Lex(Which::Binary, LexRefusal::OpenText(7))),
            127,
            "srmtrun: refused: lex binary OpenText at 7\n",
        ),
        (
            RunAnswer::Refused(CompileRefusal::Parse(Which::Binary, ParseRefusal::Expected(23))),
            127,
            "srmtrun: refused: parse binary Expected at 23\n",
        ),
        (
            RunAnswer::Refused(CompileRefusal::Parse(Which::Main, ParseRefusal::TooDeep(222))),
            127,
            "srmtrun: refused: parse main TooDeep at 222\n",
        ),
        (
            typed(TypeRefusal::Unresolved(2)),
            127,
            "srmtrun: refused: type Unresolved at line 2\n",
        ),
        (
            typed(TypeRefusal::Mismatch(2_000_001, 17)),
            127,
            "srmtrun: refused: type Mismatch 17 at binary line 1\n",
        ),
        (
            typed(TypeRefusal::Unknown(1)),
            127,
            "srmtrun: refused: type Unknown at line 1\n",
        ),
        (
            typed(TypeRefusal::NoMain),
            127,
            "srmtrun: refused: type NoMain\n",
        ),
        (
            typed(TypeRefusal::Mismatch(1, 7)),
            127,
            "srmtrun: refused: type Mismatch 7 at line 1\n",
        ),
        (
            typed(TypeRefusal::TooLarge(2_000_003, Size::Cells)),
            127,
            "srmtrun: refused: type TooLarge Cells at binary line 3\n",
        ),
    ];
    for (answer, status, text) in rows {
        let mut notes = MemSink::with_room(rt.alloc(), 100)?;
        let finished = finish(answer, &mut notes);
        assert_eq!(rt; (finished.status, finished.noted), (status, true), "{text}");
        assert_eq!(rt; notes.bytes(), text.as_bytes());
    }
    Ok(())
}

#[test]
fn traps_and_kinds_have_their_names(rt: HostRuntime) -> Result<(), Fail> {
    let traps = [
        "Overflow",
        "DivideByZero",
        "ShiftRange",
        "NullPointer",
        "OutsideObject",
        "DeadObject",
        "ReadOnly",
        "OtherObject",
        "NotAFunction",
        "Turns",
        "Depth",
        "Store",
    ];
    for (before, name) in traps.iter().enumerate() {
        let trap = Trap::of_code(before as u64 + 1).ok_or("no trap")?;
        assert_eq!(rt; trap_name(trap), *name);
    }
    let kinds = [
        (Kind::Check, "check"),
        (Kind::Value, "value"),
        (Kind::Trap, "trap"),
        (Kind::Callback, "callback"),
        (Kind::Ack, "ack"),
        (Kind::Exit, "exit"),
    ];
    for (kind, name) in kinds {
        assert_eq!(rt; kind_name(kind), name);
    }
    Ok(())
}

// A note that fails at any push, or for want of room at any byte, ends the noting: a first part of
// the lines is written, and the status is 124.
#[test]
fn a_failed_note_is_told(rt: HostRuntime) -> Result<(), Fail> {
    let text = b"srmtrun: report: parted: lead trap Overflow at line 3, trail peer ended\n";
    for room in 0..72 {
        let mut notes = MemSink::with_room(rt.alloc(), room)?;
        let finished = finish(parted(), &mut notes);
        assert_eq!(rt; (finished.status, finished.noted), (124, false), "{room}");
        assert_eq!(rt; notes.bytes().len(), room as usize);
        assert!(rt; text.starts_with(notes.bytes()));
    }
    // The call that fails, and how many bytes were written before it.
    let calls = [
        (1, 0),
        (2, 17),
        (3, 30),
        (4, 35),
        (5, 43),
        (6, 47),
        (7, 52),
        (8, 53),
        (9, 61),
        (10, 71),
    ];
    for (call, bytes) in calls {
        let mut notes = MemSink::with_room(rt.alloc(), 100)?;
        notes.fails.push(call)?;
        let finished = finish(parted(), &mut notes);
        assert_eq!(rt; (finished.status, finished.noted), (124, false), "{call}");
        assert_eq!(rt; notes.bytes().len(), bytes);
        assert!(rt; text.starts_with(notes.bytes()));
    }
    Ok(())
}
