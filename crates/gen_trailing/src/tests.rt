use crate::versions::version;
use mid_code::{Class, Mid, MidFunction, MidLine, Operands, Registers, VersionLine, VersionOp};
use sqlite_items::Items;
use srmt_base::Site;
use std::process::Abort;
use std::test::Fail;

/// A branch to the last instruction, a volatile read, an indirect call, and a shared store.
fn code(args: Registers) -> [MidLine; 4] {
    let branch = Mid::JumpZ {
        source: 0,
        place: 3,
    };
    let read = Mid::VLoad {
        target: 1,
        pointer: 2,
    };
    let call = Mid::CallPtr {
        target: 3,
        callee: 4,
        ty: 5,
        args,
    };
    let store = Mid::Store {
        pointer: 2,
        source: 1,
    };
    [at(10, branch), at(11, read), at(12, call), at(13, store)]
}

fn at(line: u32, mid: Mid) -> MidLine {
    MidLine { line, mid }
}

const CLASSES: [Class; 4] = [
    Class::Repeatable,
    Class::FailStop(Site(1)),
    Class::FailStop(Site(2)),
    Class::NonRepeatable(Site(3)),
];

/// The groups begin at 0, 1, 4 and 9: there the branch leads, and the call goes on.
fn expected(args: Registers) -> [VersionOp; 11] {
    let one = Operands::One(2);
    let called = Operands::Called { callee: 4, args };
    [
        VersionOp::Copied(Mid::JumpZ {
            source: 0,
            place: 9,
        }),
        VersionOp::Check {
            site: Site(1),
            source: 2,
        },
        VersionOp::Ack {
            site: Site(1),
            operands: one,
        },
        VersionOp::Take {
            site: Site(1),
            target: Some(1),
        },
        VersionOp::Enter {
            callee: 4,
            ty: 5,
            target: 3,
            place: 9,
            args,
        },
        VersionOp::Check {
            site: Site(2),
            source: 4,
        },
        VersionOp::Check {
            site: Site(2),
            source: 6,
        },
        VersionOp::Ack {
            site: Site(2),
            operands: called,
        },
        VersionOp::Take {
            site: Site(2),
            target: Some(3),
        },
        VersionOp::Check {
            site: Site(3),
            source: 2,
        },
        VersionOp::CheckStored {
            site: Site(3),
            source: 1,
        },
    ]
}

/// The lines of the middle instructions.
const LINES: [u32; 11] = [10, 11, 11, 11, 12, 12, 12, 12, 12, 13, 13];

#[test]
fn groups_take_the_place_of_instructions(rt: HostRuntime) -> Result<(), Fail> {
    let alloc = rt.alloc();
    let mut args = Registers::new();
    args.push(6);
    let function = MidFunction {
        ty: 0,
        kinds: Items::new(alloc),
        line: 9,
        code: Items::from_slice(alloc, &code(args))?,
    };
    let version = version(alloc, &CLASSES, &function)?;
    assert_eq!(rt; version.code.len(), 11);
    for (place, op) in expected(args).iter().enumerate() {
        let line = VersionLine {
            line: LINES[place],
            op: *op,
        };
        assert_eq!(rt; version.code.get(place).copied(), Some(line));
    }
    Ok(())
}
