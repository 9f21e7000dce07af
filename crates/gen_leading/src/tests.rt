use crate::versions::version;
use mid_code::{Class, Mid, MidFunction, MidLine, Operands, Registers, VersionLine, VersionOp};
use sqlite_items::Items;
use srmt_base::{RequestKind, Site};
use std::process::Abort;
use std::test::Fail;

/// A branch to the last instruction, a volatile read, an indirect call, and a shared store.
fn code(args: Registers) -> [MidLine; 4] {
    let branch = Mid::JumpZ {
        source: 0,
        place: 3,
    };
    let read = Mid::VLoad {
        target: 1,
        pointer: 2,
    };
    let call = Mid::CallPtr {
        target: 3,
        callee: 4,
        ty: 5,
        args,
    };
    let store = Mid::Store {
        pointer: 2,
        source: 1,
    };
    [at(10, branch), at(11, read), at(12, call), at(13, store)]
}

fn at(line: u32, mid: Mid) -> MidLine {
    MidLine { line, mid }
}

const CLASSES: [Class; 4] = [
    Class::Repeatable,
    Class::FailStop(Site(1)),
    Class::FailStop(Site(2)),
    Class::NonRepeatable(Site(3)),
];

/// The groups begin at 0, 1, 4 and 8: there the branch leads, and the call goes on.
fn expected(args: Registers) -> [VersionOp; 9] {
    let one = Operands::One(2);
    let called = Operands::Called { callee: 4, args };
    [
        VersionOp::Copied(Mid::JumpZ {
            source: 0,
            place: 8,
        }),
        VersionOp::Ask {
            site: Site(1),
            operands: one,
        },
        VersionOp::Await {
            site: Site(1),
            operands: one,
        },
        act(1, RequestKind::VLoad, 1, one),
        VersionOp::Enter {
            callee: 4,
            ty: 5,
            target: 3,
            place: 8,
            args,
        },
        VersionOp::Ask {
            site: Site(2),
            operands: called,
        },
        VersionOp::Await {
            site: Site(2),
            operands: called,
        },
        act(2, RequestKind::Call, 3, called),
        VersionOp::SharedStore {
            site: Site(3),
            pointer: 2,
            source: 1,
        },
    ]
}

fn act(site: u16, request: RequestKind, target: u16, operands: Operands) -> VersionOp {
    VersionOp::Act {
        site: Site(site),
        request,
        target: Some(target),
        function: None,
        operands,
    }
}

/// The lines of the middle instructions.
const LINES: [u32; 9] = [10, 11, 11, 11, 12, 12, 12, 12, 13];

#[test]
fn groups_take_the_place_of_instructions(rt: HostRuntime) -> Result<(), Fail> {
    let alloc = rt.alloc();
    let mut args = Registers::new();
    args.push(6);
    let function = MidFunction {
        ty: 0,
        kinds: Items::new(alloc),
        line: 9,
        code: Items::from_slice(alloc, &code(args))?,
    };
    let version = version(alloc, &CLASSES, &function)?;
    assert_eq!(rt; version.code.len(), 9);
    for (place, op) in expected(args).iter().enumerate() {
        let line = VersionLine {
            line: LINES[place],
            op: *op,
        };
        assert_eq!(rt; version.code.get(place).copied(), Some(line));
    }
    Ok(())
}
