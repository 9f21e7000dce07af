ghost use Rattle.std.specs.Prelude.{All, IfOk};
ghost use Rattle.mid_code.specs.Pairs.{IsOfFirstForm};
ghost use Rattle.mid_code.specs.Classes.{protected_functions};

use crate::classes::classify;
use crate::instruction::class_of;
use mid_code::{
    Class, FunType, Mid, MidFunction, MidLine, MidProgram, RegisterKind, Registers, Shared, valid,
};
use sqlite_items::Items;
use srmt_base::Site;
use std::alloc::{AllocError, Global};
use std::process::Abort;
use std::test::Fail;

/// Instructions at their places, where register 2 is shared, and the object begun at place 1.
fn rows(args: Registers) -> [(usize, Mid, Class); 14] {
    let alone = Class::NonRepeatable(Site(7));
    let echoed = Class::FailStop(Site(7));
    let both = Class::Repeatable;
    let to_main = Mid::Call {
        target: 0,
        function: 2,
        args,
    };
    let to_binary = Mid::Call {
        target: 0,
        function: 3,
        args,
    };
    let indirect = Mid::CallPtr {
        target: 0,
        callee: 1,
        ty: 0,
        args,
    };
    [
        (
            0,
            Mid::Move {
                target: 2,
                source: 2,
            },
            both,
        ),
        (
            0,
            Mid::Load {
                target: 0,
                pointer: 2,
            },
            alone,
        ),
        (
            0,
            Mid::Load {
                target: 0,
                pointer: 3,
            },
            both,
        ),
        (
            0,
            Mid::Store {
                pointer: 2,
                source: 0,
            },
            alone,
        ),
        (
            0,
            Mid::Store {
                pointer: 3,
                source: 0,
            },
            both,
        ),
        (
            0,
            Mid::VLoad {
                target: 0,
                pointer: 3,
            },
            echoed,
        ),
        (
            1,
            Mid::Open {
                target: 2,
                cells: 1,
            },
            alone,
        ),
        (
            2,
            Mid::Open {
                target: 3,
                cells: 1,
            },
            both,
        ),
        (2, Mid::Close { place: 1 }, alone),
        (1, Mid::Close { place: 2 }, both),
        (0, to_main, both),
        (0, to_binary, echoed),
        (0, indirect, echoed),
        (0, Mid::Get { target: 0 }, echoed),
    ]
}

#[test]
fn instructions_have_their_classes(rt: HostRuntime) -> Result<(), Fail> {
    let alloc = rt.alloc();
    let shared = Shared {
        registers: Items::from_slice(alloc, &[false, false, true, false])?,
        places: Items::from_slice(alloc, &[false, true, false])?,
    };
    for (place, mid, class) in rows(Registers::new()) {
        assert_eq!(rt; class_of(2, &shared, place, &mid, 6), class);
    }
    Ok(())
}

/// A byte is written, and the run ends.
fn program(alloc: Global) -> Result<MidProgram, AllocError>
    ensures { IfOk result (λ program. All (λ f. All (λ l. IsOfFirstForm l.mid) f.code) (protected_functions program)) }
{
    let start = MidLine {
        line: 1,
        mid: Mid::Const {
            target: 0,
            value: 65,
        },
    };
    let put = MidLine {
        line: 1,
        mid: Mid::Put { source: 0 },
    };
    let exit = MidLine {
        line: 1,
        mid: Mid::Exit { source: 0 },
    };
    let main_type = FunType {
        params: Items::new(alloc),
        result: RegisterKind::Number,
    };
    let main = MidFunction {
        ty: 0,
        kinds: Items::from_slice(alloc, &[RegisterKind::Number])?,
        line: 1,
        code: Items::from_slice(alloc, &[start, put, exit])?,
    };
    Ok(MidProgram {
        types: Items::from_vec(vec![in alloc; main_type]?),
        main_functions: 1,
        main: 1,
        main_statics: Items::new(alloc),
        binary_statics: Items::new(alloc),
        functions: Items::from_vec(vec![in alloc; main]?),
    })
}

#[test]
fn sites_count_from_one(rt: HostRuntime) -> Result<(), Fail> {
    let alloc = rt.alloc();
    let program = program(alloc)?;
    let Ok(()) = valid(&program) else {
        return Err(AllocError)?;
    };
    let Ok(classed) = classify(alloc, program) else {
        return Err(AllocError)?;
    };
    let expected = [
        Class::Repeatable,
        Class::FailStop(Site(1)),
        Class::FailStop(Site(2)),
    ];
    let row = classed.classes().get(0).map(|row| row.as_slice());
    assert_eq!(rt; row, Some(&expected[..]));
    Ok(())
}
