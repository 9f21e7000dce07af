use mid_code::{Mid, Registers};
use srmt_base::{Op, Ty};

const NONE: Registers = Registers {
    count: 0,
    numbers: [0; 16],
};
/// Register 0, and register 0 twice.
const ONE: Registers = Registers {
    count: 1,
    numbers: [0; 16],
};

const TWO: Registers = Registers {
    count: 2,
    numbers: [0; 16],
};
/// An address, and a register that is not there.
const ADDRESS: Registers = Registers {
    count: 1,
    numbers: [2, 0, 0, 0, 0, 0, 0, 0, 0, 0, 0, 0, 0, 0, 0, 0],
};

const FAR: Registers = Registers {
    count: 1,
    numbers: [4, 0, 0, 0, 0, 0, 0, 0, 0, 0, 0, 0, 0, 0, 0, 0],
};

/// Instructions that stand at place 1 of `main`, each with the rule that it breaks there.
pub const SINGLE: [(Mid, u8); 61] = [
    (
        Mid::Const {
            target: 0,
            value: (1 << 44) - 1,
        },
        0,
    ),
    (
        Mid::Const {
            target: 3,
            value: 0,
        },
        0,
    ),
    (
        Mid::Move {
            target: 0,
            source: 1,
        },
        0,
    ),
    (
        Mid::Move {
            target: 2,
            source: 3,
        },
        0,
    ),
    (
        Mid::Arith {
            op: Op::Ne,
            ty: Ty::UInt,
            target: 0,
            left: 1,
            right: 1,
        },
        0,
    ),
    (
        Mid::Conv {
            from: Ty::Bool,
            to: Ty::Char,
            target: 0,
            source: 1,
        },
        0,
    ),
    (
        Mid::PtrAdd {
            target: 2,
            pointer: 3,
            index: 0,
            ty: Ty::Short,
            negated: true,
            scale: 1,
        },
        0,
    ),
    (
        Mid::PtrDiff {
            target: 0,
            left: 2,
            right: 3,
            scale: 1,
        },
        0,
    ),
    (
        Mid::PtrCmp {
            op: Op::Le,
            target: 0,
            left: 2,
            right: 3,
        },
        0,
    ),
    (
        Mid::GlobAddr {
            target: 2,
            object: 1,
        },
        0,
    ),
    (
        Mid::GlobAddr {
            target: 2,
            object: 134_217_728,
        },
        0,
    ),
    (
        Mid::FunAddr {
            target: 0,
            function: 3,
        },
        0,
    ),
    (
        Mid::Load {
            target: 0,
            pointer: 2,
        },
        0,
    ),
    (
        Mid::Store {
            pointer: 2,
            source: 3,
        },
        0,
    ),
    (
        Mid::VLoad {
            target: 3,
            pointer: 2,
        },
        0,
    ),
    (
        Mid::VStore {
            pointer: 2,
            source: 0,
        },
        0,
    ),
    (
        Mid::Open {
            target: 2,
            cells: 65_535,
        },
        0,
    ),
    (Mid::Jump { place: 2 }, 0),
    (
        Mid::JumpZ {
            source: 2,
            place: 0,
        },
        0,
    ),
    (
        Mid::JumpN {
            source: 0,
            place: 2,
        },
        0,
    ),
    (Mid::Turn, 0),
    (
        Mid::Call {
            target: 0,
            function: 2,
            args: ONE,
        },
        0,
    ),
    (
        Mid::CallPtr {
            target: 2,
            callee: 0,
            ty: 2,
            args: TWO,
        },
        0,
    ),
    (
        Mid::CallPtr {
            target: 1,
            callee: 0,
            ty: 3,
            args: ADDRESS,
        },
        0,
    ),
    (Mid::Put { source: 0 }, 0),
    (Mid::Get { target: 0 }, 0),
    (Mid::Exit { source: 0 }, 0),
    (
        Mid::Const {
            target: 0,
            value: 1 << 44,
        },
        1,
    ),
    (
        Mid::Open {
            target: 2,
            cells: 0,
        },
        1,
    ),
    (
        Mid::Const {
            target: 4,
            value: 0,
        },
        3,
    ),
    (
        Mid::GlobAddr {
            target: 2,
            object: 0,
        },
        3,
    ),
    (
        Mid::GlobAddr {
            target: 2,
            object: 2,
        },
        3,
    ),
    (
        Mid::GlobAddr {
            target: 2,
            object: 134_217_729,
        },
        3,
    ),
    (
        Mid::FunAddr {
            target: 0,
            function: 0,
        },
        3,
    ),
    (
        Mid::FunAddr {
            target: 0,
            function: 1,
        },
        3,
    ),
    (
        Mid::FunAddr {
            target: 0,
            function: 4,
        },
        3,
    ),
    (
        Mid::Call {
            target: 0,
            function: 1,
            args: NONE,
        },
        3,
    ),
    (
        Mid::Call {
            target: 0,
            function: 2,
            args: FAR,
        },
        3,
    ),
    (
        Mid::CallPtr {
            target: 0,
            callee: 0,
            ty: 5,
            args: NONE,
        },
        3,
    ),
    (
        Mid::Arith {
            op: Op::Add,
            ty: Ty::Char,
            target: 2,
            left: 0,
            right: 0,
        },
        3,
    ),
    (
        Mid::PtrAdd {
            target: 2,
            pointer: 2,
            index: 0,
            ty: Ty::Int,
            negated: false,
            scale: 0,
        },
        3,
    ),
    (
        Mid::PtrDiff {
            target: 0,
            left: 2,
            right: 3,
            scale: 0,
        },
        3,
    ),
    (
        Mid::PtrCmp {
            op: Op::Add,
            target: 0,
            left: 2,
            right: 3,
        },
        3,
    ),
    (
        Mid::Const {
            target: 2,
            value: 1,
        },
        4,
    ),
    (
        Mid::Move {
            target: 2,
            source: 1,
        },
        4,
    ),
    (
        Mid::Arith {
            op: Op::Add,
            ty: Ty::Int,
            target: 2,
            left: 0,
            right: 0,
        },
        4,
    ),
    (
        Mid::PtrAdd {
            target: 2,
            pointer: 0,
            index: 0,
            ty: Ty::Int,
            negated: false,
            scale: 1,
        },
        4,
    ),
    (
        Mid::PtrCmp {
            op: Op::Eq,
            target: 0,
            left: 2,
            right: 0,
        },
        4,
    ),
    (
        Mid::Load {
            target: 0,
            pointer: 0,
        },
        4,
    ),
    (
        Mid::CallPtr {
            target: 0,
            callee: 2,
            ty: 0,
            args: NONE,
        },
        4,
    ),
    (Mid::Put { source: 2 }, 4),
    (Mid::Jump { place: 3 }, 5),
    (Mid::Jump { place: 1 }, 5),
    (
        Mid::JumpZ {
            source: 0,
            place: 4_294_967_295,
        },
        5,
    ),
    (Mid::Close { place: 3 }, 5),
    (
        Mid::Call {
            target: 0,
            function: 2,
            args: TWO,
        },
        7,
    ),
    (
        Mid::Call {
            target: 0,
            function: 2,
            args: ADDRESS,
        },
        7,
    ),
    (
        Mid::Call {
            target: 2,
            function: 2,
            args: ONE,
        },
        7,
    ),
    (
        Mid::CallPtr {
            target: 0,
            callee: 0,
            ty: 2,
            args: TWO,
        },
        7,
    ),
    (Mid::Return { source: 0 }, 7),
    (Mid::Close { place: 0 }, 8),
];
