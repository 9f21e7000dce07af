mod table;

use crate::{
    Args, Budget, Budgets, Kind, Limits, Op, Part, RequestKind, Site, Trap, Ty, Word, arith,
    convert, pack, pointer_comparison, pointer_difference, pointer_sum,
};

#[test]
fn computes_what_gcc_computes(rt: HostRuntime) {
    for (op, ty, a, b, outcome) in &table::OPERATIONS {
        assert!(rt; ty.is_promoted());
        assert_eq!(rt;
            arith(*op, *ty, *a, *b),
            *outcome,
            "{op:?} at {ty:?} of {a} and {b}"
        );
    }
}

#[test]
fn converts_as_gcc_does(rt: HostRuntime) {
    for (from, to, a, outcome) in &table::CONVERSIONS {
        assert_eq!(rt;
            convert(*from, *to, *a),
            *outcome,
            "{from:?} to {to:?} of {a}"
        );
    }
}

#[test]
fn computes_as_written(rt: HostRuntime) {
    let minus_one = 4294967295;
    let cell = 3 * 65536 + 5;
    for (outcome, want) in [
        (arith(Op::Shr, Ty::Int, 4294967288, 1), Ok(4294967292)),
        (arith(Op::Shr, Ty::Int, 1, 32), Err(Trap::ShiftRange)),
        (arith(Op::Lt, Ty::UInt, 4294967295, 1), Ok(0)),
        (pointer_sum(cell, Ty::Int, 2, false, 1), Ok(cell + 2)),
        (
            pointer_sum(cell, Ty::Int, minus_one, false, 5),
            Ok(cell - 5),
        ),
        (pointer_sum(cell, Ty::Int, minus_one, true, 4), Ok(cell + 4)),
        (
            pointer_sum(cell, Ty::UInt, minus_one, false, 1),
            Err(Trap::OutsideObject),
        ),
        (
            pointer_sum(cell, Ty::Int, 6, true, 1),
            Err(Trap::OutsideObject),
        ),
        (
            pointer_sum(cell, Ty::Int, 65530, false, 1),
            Ok(cell + 65530),
        ),
        (
            pointer_sum(cell, Ty::Int, 65531, false, 1),
            Err(Trap::OutsideObject),
        ),
        (pointer_sum(0, Ty::Int, 0, false, 4), Ok(0)),
        (pointer_sum(0, Ty::Int, 1, false, 4), Err(Trap::NullPointer)),
        (pointer_difference(cell + 6, cell, 2), Ok(3)),
        (pointer_difference(cell, cell + 7, 2), Ok(4294967293)),
        (pointer_difference(cell, 65536, 1), Err(Trap::OtherObject)),
        (pointer_comparison(Op::Lt, cell, cell + 1), Ok(1)),
        (pointer_comparison(Op::Eq, cell, 0), Ok(0)),
        (
            pointer_comparison(Op::Ge, cell, 65536),
            Err(Trap::OtherObject),
        ),
    ] {
        assert_eq!(rt; outcome, want);
    }
}

#[test]
fn keeps_words_arguments_and_codes(rt: HostRuntime) {
    let word = pack(Kind::Check, Site(1), 65);
    let mut args = Args::new();
    let none = args.is_empty();
    args.push(7);
    args.push(8);
    let holds = [
        word.bits() == 1152939096792891457,
        word.kind() == Kind::Check,
        word.site() == Site(1),
        word.value() == 65,
        Word::of_bits(word.bits()) == Some(word),
        Word::of_bits(0) == None,
        none,
        args.len() == 2,
        !args.is_full(),
        args.get(1) == Some(8),
        args.get(2) == None,
        args.as_slice() == [7, 8].as_slice(),
        Trap::Store.code() == 12,
        Trap::of_code(1) == Some(Trap::Overflow),
        Trap::of_code(13) == None,
        Trap::Depth.is_budget(),
        RequestKind::CallbackReturn.code() == 11,
        RequestKind::of_code(5) == Some(RequestKind::Put),
        RequestKind::of_code(0) == None,
        Op::Ne.code() == 15,
        Op::of_code(5) == Some(Op::Shl),
        Op::of_code(16) == None,
        !Op::Xor.is_comparison(),
    ];
    assert_eq!(rt; holds, [true; 23]);
}

#[test]
fn knows_types_and_budgets(rt: HostRuntime) {
    let full = Budgets::full(Limits {
        turns: 2,
        depth: 1,
        cells: 0,
    });
    let start = full.of(Part::Binary);
    let inside = Budget { turns: 1, depth: 0 };
    let after = full.with(Part::Binary, inside);
    let holds = [
        Ty::UInt.code() == 7,
        Ty::of_code(0) == Some(Ty::Bool),
        Ty::of_code(8) == None,
        Ty::Short.width() == 16,
        Ty::Char.least() == -128,
        Ty::UShort.greatest() == 65535,
        !Ty::Short.can_hold(32768),
        start.enter() == Ok(inside),
        inside.enter() == Err(Trap::Depth),
        inside.count_turn() == Ok(Budget { turns: 0, depth: 0 }),
        inside.leave() == Budget { turns: 1, depth: 1 },
        after.of(Part::Protected) == start,
        after.of(Part::Binary) == inside,
    ];
    assert_eq!(rt; holds, [true; 13]);
}
