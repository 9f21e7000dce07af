use crate::{Report, ThreadEnd, Verdict, verdict_of};
use srmt_base::{Kind, Site, Trap, Word, pack};
use std::test::Fail;

fn taken() -> Word {
    pack(Kind::Check, Site(1), 65)
}

fn own() -> Word {
    pack(Kind::Check, Site(2), 65)
}

fn mismatch() -> ThreadEnd {
    ThreadEnd::Mismatch(taken(), own())
}

fn echo() -> ThreadEnd {
    ThreadEnd::Echo(taken(), own())
}

fn divided(line: u32) -> ThreadEnd {
    ThreadEnd::Trap(Trap::DivideByZero, line)
}

fn shifted() -> ThreadEnd {
    ThreadEnd::Trap(Trap::ShiftRange, 3)
}

fn turned() -> ThreadEnd {
    ThreadEnd::Trap(Trap::Turns, 3)
}

fn parted(lead: ThreadEnd, trail: ThreadEnd) -> Verdict {
    Verdict::Reported(Report::Parted(lead, trail))
}

// The rows in their order, and beside some what only just misses them.
#[test]
fn verdicts_are_those_of_the_rows(rt: HostRuntime) -> Result<(), Fail> {
    let rows = [
        (ThreadEnd::WriteFault, mismatch(), Verdict::WriteFault),
        (
            ThreadEnd::Exit(0),
            mismatch(),
            Verdict::Reported(Report::Mismatch(taken(), own())),
        ),
        (
            echo(),
            mismatch(),
            Verdict::Reported(Report::Mismatch(taken(), own())),
        ),
        (
            echo(),
            ThreadEnd::PeerEnded,
            Verdict::Reported(Report::Echo(taken(), own())),
        ),
        (ThreadEnd::Exit(7), ThreadEnd::Exit(7), Verdict::Exit(7)),
        (
            ThreadEnd::Exit(0),
            ThreadEnd::Exit(7),
            parted(ThreadEnd::Exit(0), ThreadEnd::Exit(7)),
        ),
        (
            divided(3),
            divided(3),
            Verdict::Undefined(Trap::DivideByZero, 3),
        ),
        (divided(3), divided(4), parted(divided(3), divided(4))),
        (divided(3), shifted(), parted(divided(3), shifted())),
        (turned(), turned(), Verdict::Exhausted(Trap::Turns, 3)),
        (
            ThreadEnd::PeerEnded,
            ThreadEnd::Exit(0),
            parted(ThreadEnd::PeerEnded, ThreadEnd::Exit(0)),
        ),
    ];
    for (lead, trail, want) in rows {
        assert_eq!(rt; verdict_of(lead, trail), want);
    }
    Ok(())
}
