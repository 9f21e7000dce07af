mod instructions;
mod pieces;

use instructions::SINGLE;
use mid_code::{
    FunType, Mid, MidFunction, MidLine, MidProgram, MidRefusal, RegisterKind, Registers, Static,
    valid,
};
use sqlite_items::Items;
use std::alloc::{AllocError, Global};
use std::test::Fail;

/// How a program differs from a valid one.
#[derive(Clone, Copy, Debug)]
struct Shape {
    main: u16,
    main_functions: u16,
    main_ty: u16,
    second_ty: u16,
    second_registers: u16,
    statics: u16,
    cells: u16,
    values: [u64; 2],
    params: u16,
}

/// The valid one: `main` and a second function are those of the main file, a third is of the
/// binary file.
const SHAPE: Shape = Shape {
    main: 1,
    main_functions: 2,
    main_ty: 0,
    second_ty: 1,
    second_registers: 4,
    statics: 1,
    cells: 2,
    values: [0, 1],
    params: 16,
};

/// Of each function registers 0 and 1 are numbers, and those from 2 on addresses.
fn kinds(alloc: Global, count: u16) -> Result<Items<RegisterKind>, AllocError> {
    let mut kinds = Items::new(alloc);
    for register in 0..count {
        let kind = if register < 2 {
            RegisterKind::Number
        } else {
            RegisterKind::Address
        };
        kinds.push(kind)?;
    }
    Ok(kinds)
}

fn numbers(alloc: Global, count: u16) -> Result<Items<RegisterKind>, AllocError> {
    let mut kinds = Items::new(alloc);
    for _ in 0..count {
        kinds.push(RegisterKind::Number)?;
    }
    Ok(kinds)
}

fn add_numbers(
    alloc: Global,
    types: &mut Items<FunType>,
    params: u16,
    kind: RegisterKind,
) -> Result<(), AllocError> {
    let params = numbers(alloc, params)?;
    types.push(FunType {
        params,
        result: kind,
    })
}

fn add_address(alloc: Global, types: &mut Items<FunType>) -> Result<(), AllocError> {
    let params = Items::from_slice(alloc, &[RegisterKind::Address])?;
    types.push(FunType {
        params,
        result: RegisterKind::Number,
    })
}

/// The types: none to a number, one and two numbers to a number and to an address, an address to a
/// number, and so many numbers to a number.
fn types(alloc: Global, params: u16) -> Result<Items<FunType>, AllocError> {
    let mut types = Items::new(alloc);
    add_numbers(alloc, &mut types, 0, RegisterKind::Number)?;
    add_numbers(alloc, &mut types, 1, RegisterKind::Number)?;
    add_numbers(alloc, &mut types, 2, RegisterKind::Address)?;
    add_address(alloc, &mut types)?;
    add_numbers(alloc, &mut types, params, RegisterKind::Number)?;
    Ok(types)
}

fn add_static(alloc: Global, statics: &mut Items<Static>, shape: &Shape) -> Result<(), AllocError> {
    let values = Items::from_slice(alloc, &shape.values)?;
    statics.push(Static {
        cells: shape.cells,
        read_only: false,
        values,
    })
}

fn statics(alloc: Global, shape: &Shape) -> Result<Items<Static>, AllocError> {
    let mut statics = Items::new(alloc);
    for _ in 0..shape.statics {
        add_static(alloc, &mut statics, shape)?;
    }
    Ok(statics)
}

fn lines(alloc: Global, code: &[Mid]) -> Result<Items<MidLine>, AllocError> {
    let mut lines = Items::new(alloc);
    for mid in code {
        lines.push(MidLine { line: 1, mid: *mid })?;
    }
    Ok(lines)
}

fn add_function(
    alloc: Global,
    functions: &mut Items<MidFunction>,
    ty: u16,
    registers: u16,
    code: &[Mid],
) -> Result<(), AllocError> {
    let kinds = kinds(alloc, registers)?;
    let code = lines(alloc, code)?;
    functions.push(MidFunction {
        ty,
        kinds,
        line: 1,
        code,
    })
}

fn functions(
    alloc: Global,
    shape: &Shape,
    main: &[Mid],
    second: &[Mid],
) -> Result<Items<MidFunction>, AllocError> {
    let mut functions = Items::new(alloc);
    add_function(alloc, &mut functions, shape.main_ty, 4, main)?;
    add_function(
        alloc,
        &mut functions,
        shape.second_ty,
        shape.second_registers,
        second,
    )?;
    add_function(alloc, &mut functions, 2, 4, &[Mid::Return { source: 2 }])?;
    Ok(functions)
}

fn program(
    alloc: Global,
    shape: &Shape,
    main: &[Mid],
    second: &[Mid],
) -> Result<MidProgram, AllocError> {
    let types = types(alloc, shape.params)?;
    let main_statics = statics(alloc, shape)?;
    let binary_statics = statics(alloc, &SHAPE)?;
    let functions = functions(alloc, shape, main, second)?;
    Ok(MidProgram {
        types,
        main_functions: shape.main_functions,
        main: shape.main,
        main_statics,
        binary_statics,
        functions,
    })
}

/// A place of a function, and the rule that is broken there.
type Broken = (u16, u32, u8);

fn answer(program: &MidProgram) -> Option<Broken> {
    match valid(program) {
        Ok(()) => None,
        Err(
            MidRefusal {
                function,
                place,
                rule,
            },
        ) => Some((function, place, rule)),
    }
}

const END: Mid = Mid::Exit { source: 0 };

const BACK: Mid = Mid::Return { source: 0 };

/// Programs that are the valid one but for a number of their own, each with its answer.
const SHAPES: [(Shape, Option<Broken>); 20] = [
    (SHAPE, None),
    (Shape { main: 0, ..SHAPE }, Some((0, 0, 1))),
    (Shape { main: 3, ..SHAPE }, Some((0, 0, 1))),
    (
        Shape {
            main_functions: 4,
            ..SHAPE
        },
        Some((0, 0, 1)),
    ),
    (
        Shape {
            params: 17,
            ..SHAPE
        },
        Some((0, 0, 1)),
    ),
    (Shape { cells: 0, ..SHAPE }, Some((0, 0, 1))),
    (Shape { cells: 1, ..SHAPE }, Some((0, 0, 1))),
    (
        Shape {
            values: [1, 0],
            ..SHAPE
        },
        Some((0, 0, 1)),
    ),
    (
        Shape {
            values: [1 << 44, 1],
            ..SHAPE
        },
        Some((0, 0, 1)),
    ),
    (
        Shape {
            values: [(1 << 44) - 1, 1],
            ..SHAPE
        },
        None,
    ),
    (
        Shape {
            statics: 16,
            cells: 65_535,
            ..SHAPE
        },
        None,
    ),
    (
        Shape {
            statics: 17,
            cells: 65_535,
            ..SHAPE
        },
        Some((0, 0, 1)),
    ),
    (
        Shape {
            main_ty: 1,
            ..SHAPE
        },
        Some((1, 0, 1)),
    ),
    (
        Shape {
            second_ty: 5,
            ..SHAPE
        },
        Some((2, 0, 1)),
    ),
    (
        Shape {
            second_registers: 0,
            ..SHAPE
        },
        Some((2, 0, 1)),
    ),
    (
        Shape {
            second_registers: 1,
            ..SHAPE
        },
        None,
    ),
    (
        Shape {
            second_registers: 1024,
            ..SHAPE
        },
        None,
    ),
    (
        Shape {
            second_registers: 1025,
            ..SHAPE
        },
        Some((2, 0, 1)),
    ),
    (
        Shape {
            second_ty: 2,
            second_registers: 1,
            ..SHAPE
        },
        Some((2, 0, 1)),
    ),
    (
        Shape {
            second_ty: 3,
            ..SHAPE
        },
        Some((2, 0, 7)),
    ),
];

#[test]
fn limits_are_kept(rt: HostRuntime) -> Result<(), Fail> {
    for (shape, expected) in SHAPES {
        let tried = program(rt.alloc(), &shape, &[END], &[BACK])?;
        assert_eq!(rt; answer(&tried), expected, "{shape:?}");
    }
    let empty = program(rt.alloc(), &SHAPE, &[END], &[])?;
    assert_eq!(rt; answer(&empty), Some((2, 0, 1)));
    assert_eq!(rt; empty.line(1, 0), Some(MidLine { line: 1, mid: END }));
    for (function, place) in [(0, 0), (1, 1), (2, 0), (4, 0)] {
        assert_eq!(rt; empty.line(function, place), None, "{function}:{place}");
    }
    assert!(rt; empty.function(3).is_some());
    Ok(())
}

#[test]
fn instructions_keep_their_rules(rt: HostRuntime) -> Result<(), Fail> {
    for (mid, rule) in SINGLE {
        let tried = program(rt.alloc(), &SHAPE, &[Mid::Turn, mid, END], &[BACK])?;
        let expected = if rule == 0 { None } else { Some((1, 1, rule)) };
        assert_eq!(rt; answer(&tried), expected, "{mid:?}");
    }
    Ok(())
}

const OPEN: Mid = Mid::Open {
    target: 2,
    cells: 1,
};

/// Code of `main`, or of the second function, each with its answer.
const CODES: [(u16, [Mid; 5], Option<Broken>); 18] = [
    // Objects close in reverse, and none needs to be closed where the run ends.
    (
        1,
        [
            OPEN,
            OPEN,
            Mid::Close { place: 1 },
            Mid::Close { place: 0 },
            END,
        ],
        None,
    ),
    (
        1,
        [
            OPEN,
            OPEN,
            Mid::Close { place: 0 },
            Mid::Close { place: 1 },
            END,
        ],
        Some((1, 2, 8)),
    ),
    (
        1,
        [
            OPEN,
            Mid::Close { place: 0 },
            Mid::Close { place: 0 },
            END,
            END,
        ],
        Some((1, 2, 8)),
    ),
    (
        1,
        [OPEN, OPEN, Mid::Close { place: 1 }, Mid::Turn, END],
        None,
    ),
    (2, [OPEN, Mid::Close { place: 0 }, BACK, BACK, BACK], None),
    (2, [OPEN, BACK, BACK, BACK, BACK], Some((2, 1, 8))),
    (2, [OPEN, END, BACK, BACK, BACK], None),
    // A place that is entered on two ways has the same open objects on both.
    (
        1,
        [
            Mid::JumpZ {
                source: 0,
                place: 2,
            },
            OPEN,
            END,
            END,
            END,
        ],
        Some((1, 1, 8)),
    ),
    (
        1,
        [
            OPEN,
            Mid::JumpN {
                source: 0,
                place: 3,
            },
            Mid::Turn,
            Mid::Close { place: 0 },
            END,
        ],
        None,
    ),
    // A loop leaves open what it found.
    (
        1,
        [Mid::Turn, OPEN, Mid::Jump { place: 0 }, END, END],
        Some((1, 2, 8)),
    ),
    (
        1,
        [
            Mid::Turn,
            OPEN,
            Mid::Close { place: 1 },
            Mid::Jump { place: 0 },
            END,
        ],
        None,
    ),
    // A place that is not reached is not judged by its open objects, and may not be entered from behind.
    (
        1,
        [
            Mid::Jump { place: 2 },
            Mid::Close { place: 0 },
            END,
            END,
            END,
        ],
        None,
    ),
    (
        1,
        [
            Mid::Jump { place: 2 },
            Mid::Turn,
            Mid::Jump { place: 1 },
            END,
            END,
        ],
        Some((1, 2, 8)),
    ),
    // The last instruction is one that no other follows.
    (
        1,
        [END, END, END, END, Mid::Put { source: 0 }],
        Some((1, 4, 6)),
    ),
    (
        1,
        [
            END,
            END,
            END,
            END,
            Mid::JumpN {
                source: 0,
                place: 5,
            },
        ],
        Some((1, 4, 5)),
    ),
    (2, [END, END, END, Mid::Turn, Mid::Jump { place: 3 }], None),
    // The first place counts, whatever the rule, and the least rule there.
    (
        1,
        [
            OPEN,
            Mid::Close { place: 1 },
            Mid::Const {
                target: 0,
                value: 1 << 44,
            },
            END,
            END,
        ],
        Some((1, 1, 8)),
    ),
    (
        2,
        [Mid::Return { source: 2 }, END, END, END, BACK],
        Some((2, 0, 7)),
    ),
];

#[test]
fn code_keeps_its_rules(rt: HostRuntime) -> Result<(), Fail> {
    for (function, code, expected) in CODES {
        let tried = if function == 1 {
            program(rt.alloc(), &SHAPE, &code, &[BACK])?
        } else {
            program(rt.alloc(), &SHAPE, &[END], &code)?
        };
        assert_eq!(rt; answer(&tried), expected, "{code:?}");
    }
    Ok(())
}

#[test]
fn registers_stand_in_order(rt: HostRuntime) {
    let mut registers = Registers::new();
    assert!(rt; registers.is_empty());
    for number in [7, 1023, 7] {
        if !registers.is_full() {
            registers.push(number);
        }
    }
    assert_eq!(rt; registers.as_slice(), [7, 1023, 7].as_slice());
    assert_eq!(rt; registers.len(), 3);
    assert_eq!(rt; registers.get(1), Some(1023));
    assert_eq!(rt; registers.get(3), None);
    let copy = registers;
    assert_eq!(rt; copy, registers);
}
