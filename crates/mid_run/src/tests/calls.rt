use super::{args, call, check, exit, exits, set, tells, traps};
use mid_code::{Mid, Registers};
use srmt_base::{Event, Trap};
use std::test::Fail;

/// Calls the function whose number register 1 holds. The result goes into register 0.
fn call_value(ty: u16, args: Registers) -> Mid {
    Mid::CallPtr {
        target: 0,
        callee: 1,
        ty,
        args,
    }
}

#[test]
fn calls_by_number(rt: HostRuntime) -> Result<(), Fail> {
    check(
        &rt,
        rt.alloc(),
        &[
            exits(&[set(0, 4), call(2, 0), exit()], 5),
            traps(&[call(3, 0), exit()], Trap::Depth, 300),
            tells(&[set(1, 65), call(4, 1), exit()], &[Event::Byte(65)], 65),
        ],
    )?;
    Ok(())
}

#[test]
fn calls_by_value(rt: HostRuntime) -> Result<(), Fail> {
    let adds = Mid::FunAddr {
        target: 1,
        function: 2,
    };
    let of_one = call_value(1, args(0));
    let of_none = call_value(0, Registers::new());
    check(
        &rt,
        rt.alloc(),
        &[
            exits(&[set(0, 4), adds, of_one, exit()], 5),
            traps(&[of_one, exit()], Trap::NullPointer, 1),
            traps(&[set(1, 1), of_one, exit()], Trap::NotAFunction, 2),
            traps(&[set(1, 65_538), of_one, exit()], Trap::NotAFunction, 2),
            // A function of another type.
            traps(&[adds, of_none, exit()], Trap::NotAFunction, 2),
            // `main`, whose type is that of the call.
            traps(&[set(1, 1), of_none, exit()], Trap::NotAFunction, 2),
        ],
    )?;
    Ok(())
}
