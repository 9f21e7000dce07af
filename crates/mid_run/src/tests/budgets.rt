use super::{args, arith, exit, run, set};
use mid_code::Mid;
use srmt_base::{Limits, Op, SourceEnd, Trap};
use srmt_outside::MemOutlet;
use std::test::Fail;

/// A call of a function, and the end.
fn enters(function: u16) -> [Mid; 2] {
    let target = 0;
    let args = args(0);
    let call = Mid::Call {
        target,
        function,
        args,
    };
    [call, exit()]
}

/// Ten cells twice, one after the other, and the end.
fn opens_twice() -> [Mid; 5] {
    let open = Mid::Open {
        target: 4,
        cells: 10,
    };
    [
        open,
        Mid::Close { place: 0 },
        open,
        Mid::Close { place: 2 },
        exit(),
    ]
}

#[test]
fn budgets_at_their_limits(rt: HostRuntime) -> Result<(), Fail> {
    let turns = [Mid::Turn, Mid::Turn, exit()];
    let adds = enters(2);
    let puts = enters(4);
    let opens = opens_twice();
    let rows: [(u64, u32, u32, &[Mid], SourceEnd); 8] = [
        (3, 1, 3, &turns, SourceEnd::Exit(0)),
        (2, 1, 3, &turns, SourceEnd::Trap(Trap::Turns, 2)),
        (2, 2, 3, &adds, SourceEnd::Exit(1)),
        (1, 2, 3, &adds, SourceEnd::Trap(Trap::Turns, 200)),
        (1, 1, 3, &adds, SourceEnd::Trap(Trap::Depth, 200)),
        (1, 1, 3, &puts, SourceEnd::Exit(0)),
        (1, 1, 13, &opens, SourceEnd::Exit(0)),
        (1, 1, 12, &opens, SourceEnd::Trap(Trap::Store, 1)),
    ];
    for (turns, depth, cells, code, end) in rows {
        let limits = Limits {
            turns,
            depth,
            cells,
        };
        assert!(rt; 1 <= turns && turns <= 1_000 && 1 <= depth && depth <= 1_000);
        assert!(rt; 3 <= cells && cells <= 1_000);
        let mut outlet = MemOutlet::with_room(rt.alloc(), 4)?;
        let done = run(rt.alloc(), code, limits, &mut outlet)?;
        assert_eq!(rt; done, Some(end), "{limits:?} {code:?}");
    }
    Ok(())
}

/// A loop of ten million turns: it ends where a turn more is left, and else by its last arrival at
/// the top.
#[test]
fn ten_million_turns(rt: HostRuntime) -> Result<(), Fail> {
    let code = [
        set(0, 9_999_999),
        set(1, 1),
        Mid::Turn,
        arith(Op::Sub, 0, 0, 1),
        Mid::JumpN {
            source: 0,
            place: 2,
        },
        exit(),
    ];
    let rows = [
        (10_000_000, SourceEnd::Exit(0)),
        (9_999_999, SourceEnd::Trap(Trap::Turns, 3)),
    ];
    for (turns, end) in rows {
        let limits = Limits {
            turns,
            depth: 1,
            cells: 3,
        };
        assert!(rt; 1 <= turns && turns <= 10_000_000);
        let mut outlet = MemOutlet::with_room(rt.alloc(), 1)?;
        let done = run(rt.alloc(), &code, limits, &mut outlet)?;
        assert_eq!(rt; done, Some(end), "{limits:?}");
    }
    Ok(())
}

/// A loop with no way out ends where its turns do.
#[test]
fn a_loop_without_an_end(rt: HostRuntime) -> Result<(), Fail> {
    let limits = Limits {
        turns: 10_000_000,
        depth: 1,
        cells: 3,
    };
    let mut outlet = MemOutlet::with_room(rt.alloc(), 1)?;
    let code = [Mid::Turn, Mid::Jump { place: 0 }];
    let done = run(rt.alloc(), &code, limits, &mut outlet)?;
    assert_eq!(rt; done, Some(SourceEnd::Trap(Trap::Turns, 1)));
    Ok(())
}
