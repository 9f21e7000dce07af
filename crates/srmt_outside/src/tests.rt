ghost use Rattle.std.specs.Prelude.{◌≡◌, ◌<◌, ◌≤◌, length, OnOk, OnErr, IfOk, IfSome, IsErrOf};
ghost use Rattle.srmt_outside.specs.Count.{next_count};
ghost use Rattle.srmt_outside.specs.Files.{Asks, faults_after};
ghost use Rattle.srmt_outside.specs.Told.{Appends, AppendsPrefix};

use super::*;
use std::alloc::Global;
use std::io::{ErrorKind, Write};
use std::test::Fail;
use std::{fs, io};

// What a caller learns of any outlet: it wrote these events, or a prefix of them and a fault.
fn write_all<O: Outlet>(outlet: &mut O, events: &[Event]) -> Result<(), Failed>
    ensures ok { OnOk result (Appends (O.events outlet.old) (O.events outlet.new) events.now) }
    ensures failed { OnErr result
        (AppendsPrefix (O.events outlet.old) (O.events outlet.new) events.now) }
    ensures stands { OnOk result (O.faults outlet.new ≡ O.faults outlet.old) }
    ensures counted { OnErr result (O.faults outlet.new ≡ next_count (O.faults outlet.old)) }
{
    for event in events {
        outlet.event(*event)?;
    }
    Ok(())
}

// What a caller learns of any files: the bytes, or the cause of the refusal.
fn load<F: Files>(alloc: Global, files: &mut F, name: &str) -> Result<Vec<u8>, FileFault>
    ensures ok { IfOk result (λ bytes. IfSome (F.contents files.old name.now) (λ told. bytes.items ≡ told)) }
    ensures within { IfOk result (λ bytes. length bytes.items ≤ 10) }
    ensures too_long { IsErrOf result FileFault.TooLong
        → IfSome (F.contents files.old name.now) (λ told. 10 < length told) }
    ensures count { F.faults files.new ≡ faults_after (F.faults files.old) result }
    ensures asks { Asks result (F.asked files.old) (F.asked files.new) name.now }
    ensures unchanged { F.contents files.new ≡ F.contents files.old }
{
    let mut bytes = Vec::new(alloc);
    files.read(alloc, name, &mut bytes, 10)?;
    Ok(bytes)
}

const EVENTS: [Event; 5] = [
    Event::Byte(65),
    Event::PortRead(1, 2),
    Event::PortWrite(3, 4, 5),
    Event::Byte(66),
    Event::Exit(7),
];

// A writer that takes no byte, and cannot flush.
#[derive(Drop)]
struct Full;

impl Write for Full {
    fn write(&mut self, _bytes: &[u8]) -> io::Result<usize> {
        Ok(0)
    }

    fn flush(&mut self) -> io::Result<()> {
        Err(io::Error::from(ErrorKind::StorageFull))
    }
}

#[test]
fn outlets_in_memory_take_events(rt: HostRuntime) -> Result<(), Fail> {
    let mut outlet = MemOutlet::with_room(rt.alloc(), 3)?;
    outlet.fails.push(2)?;
    let mut answers = [true; 5];
    for i in 0..5 {
        answers[i] = outlet.event(EVENTS[i]).is_ok();
    }
    let again = write_all(&mut outlet, &EVENTS);
    let mut sure = SureOutlet::new();
    let all = write_all(&mut sure, &EVENTS);
    let counted = SureOutlet {
        bytes: 2,
        port_reads: 1,
        port_writes: 1,
        exits: 1,
    };
    let holds = [
        answers == [true, false, true, true, false],
        outlet.events() == [EVENTS[0], EVENTS[2], EVENTS[3]].as_slice(),
        again == Err(Failed),
        all == Ok(()),
        sure == counted,
    ];
    assert_eq!(rt; holds, [true; 5]);
    Ok(())
}

#[test]
fn a_real_outlet_writes_bytes_and_lines(rt: HostRuntime) -> Result<(), Fail> {
    let mut output = Vec::new(rt.alloc());
    let mut errors = Vec::new(rt.alloc());
    let mut outlet = RealOutlet::new(&mut output, &mut errors);
    let all = write_all(&mut outlet, &EVENTS);
    drop(outlet);
    let mut full = RealOutlet::new(Full, Full);
    let mut answers = [true; 5];
    for i in 0..5 {
        answers[i] = full.event(EVENTS[i]).is_ok();
    }
    let holds = [
        all == Ok(()),
        output.as_slice() == b"AB".as_slice(),
        errors.as_slice() == b"read 1 2\nwrite 3 4 5\n".as_slice(),
        answers == [false; 5],
    ];
    assert_eq!(rt; holds, [true; 4]);
    Ok(())
}

#[test]
fn files_in_memory_are_read(rt: HostRuntime) -> Result<(), Fail> {
    let alloc = rt.alloc();
    let mut files = MemFiles::new(alloc);
    files.give(alloc, "a.c", b"old")?;
    files.give(alloc, "b.c", b"0123456789")?;
    files.give(alloc, "long", b"0123456789a")?;
    files.give(alloc, "a.c", b"int x;")?;
    files.fails.push(2)?;
    let mut into = Vec::new(alloc);
    for (name, want) in [
        ("a.c", Ok(())),
        ("a.c", Err(FileFault::Failed)),
        ("b.c", Ok(())),
        ("long", Err(FileFault::TooLong)),
        ("none", Err(FileFault::Failed)),
    ] {
        assert_eq!(rt; files.read(alloc, name, &mut into, 10), want, "{name}");
    }
    let mut sure = SureFiles::new(alloc);
    sure.give(alloc, "a.c", b"abc")?;
    let answers = [
        sure.read(alloc, "a.c", &mut into, 3),
        sure.read(alloc, "a.c", &mut into, 2),
        sure.read(alloc, "none", &mut into, 0),
    ];
    assert_eq!(rt; answers, [Ok(()), Err(FileFault::TooLong), Ok(())]);
    assert_eq!(rt; into.as_slice(), b"int x;0123456789abc".as_slice());
    Ok(())
}

#[test]
fn real_files_are_read(rt: HostRuntime) -> Result<(), Fail> {
    let name = "srmt_outside_real_files_are_read";
    fs::write(&rt, name, "abc")?;
    let mut files = RealFiles::new(rt);
    let mut into = Vec::new(rt.alloc());
    for (name, limit, want) in [
        (name, 3, Ok(())),
        (name, 2, Err(FileFault::TooLong)),
        ("/dev/null", 0, Ok(())),
        ("/dev/zero", 100_000, Err(FileFault::TooLong)),
        ("/dev/null/none", 9, Err(FileFault::Failed)),
        ("/", 9, Err(FileFault::Failed)),
    ] {
        assert_eq!(rt;
            files.read(rt.alloc(), name, &mut into, limit),
            want,
            "{name} {limit}"
        );
    }
    fs::remove_file(&rt, name)?;
    assert_eq!(rt; into.as_slice(), b"abc".as_slice());
    Ok(())
}

#[test]
fn sinks_take_pieces(rt: HostRuntime) -> Result<(), Fail> {
    let mut sink = MemSink::with_room(rt.alloc(), 4)?;
    sink.fails.push(2)?;
    let mut answers = [true; 5];
    let pieces = ["ab", "x", "cde", "", "f"];
    for i in 0..5 {
        answers[i] = sink.push(pieces[i].as_bytes()).is_ok();
    }
    let mut sure = SureSink::new();
    let counted = sure.push(b"abcde");
    let mut written = Vec::new(rt.alloc());
    let wrote = RealSink::new(&mut written).push(b"abcde");
    let holds = [
        answers == [true, false, false, true, false],
        sink.bytes() == b"abcd".as_slice(),
        counted == Ok(()),
        sure == SureSink { bytes: 5 },
        wrote == Ok(()),
        written.as_slice() == b"abcde".as_slice(),
        RealSink::new(Full).push(b"a") == Err(Failed),
    ];
    assert_eq!(rt; holds, [true; 7]);
    Ok(())
}

fn sends<T: Send>() {}

// Each outlet may move to another thread.
fn outlets_are_sent<O: Send, E: Send>() {
    sends::<MemOutlet>();
    sends::<SureOutlet>();
    sends::<RealOutlet<O, E>>();
}
