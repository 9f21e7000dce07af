use mid_code::{Field, Mid, Operands, RegisterKind, Registers, Wanted, Way, fields, way_of};

#[test]
fn operands_stand_in_order(rt: HostRuntime) {
    let mut args = Registers::new();
    args.push(3);
    let called = Operands::Called { callee: 7, args };
    assert_eq!(rt; called.len(), 2);
    assert_eq!(rt; called.get(0), Some(7));
    assert_eq!(rt; called.get(1), Some(3));
    assert_eq!(rt; Operands::Passed(args).get(0), Some(3));
    assert_eq!(rt; Operands::Two(1, 2).get(1), Some(2));
    assert_eq!(rt; Operands::One(1).get(1), None);
    assert_eq!(rt; Operands::Nothing.len(), 0);
}

#[test]
fn fields_stand_in_order(rt: HostRuntime) {
    let jump = Mid::JumpZ {
        source: 1,
        place: 9,
    };
    let source = Field::Reads {
        register: 1,
        kind: Wanted::Any,
    };
    let row = [Some(source), Some(Field::Target(9)), None, None, None, None];
    assert_eq!(rt; fields(&jump), row);
    assert_eq!(rt; way_of(&jump), Way::Branches(9));
    let number = Wanted::Kind(RegisterKind::Number);
    let target = Field::Writes {
        register: 2,
        kind: number,
    };
    assert_eq!(rt; fields(&Mid::Get { target: 2 })[0], Some(target));
    assert!(rt; way_of(&Mid::Return { source: 0 }).is_final());
    assert!(rt; way_of(&Mid::Turn).is_counting());
}
