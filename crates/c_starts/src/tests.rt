use crate::start_of;
use c_typed::{Place, PlaceNode, Start, Value, ValueNode};
use c_types::{QualifiedRef, Qualifiers, TypeRef, Types};
use sqlite_items::Boxed;
use srmt_base::Ty;
use std::alloc::{AllocError, Global};
use std::rt::HostRuntime;
use std::test::Fail;

const INT: TypeRef = TypeRef::Integer(Ty::Int);

fn plain(target: TypeRef) -> QualifiedRef {
    QualifiedRef {
        qualifiers: Qualifiers {
            is_const: false,
            is_volatile: false,
        },
        target,
    }
}

/// `int (*)[4]`
fn row_pointer(types: &mut Types) -> Result<TypeRef, AllocError> {
    let row = types.array_of(plain(INT), Some(4))?;
    types.pointer_to(plain(row.unwrap_or(INT)))
}

/// Whether the difference, the number of rows, and what a cell starts with that is so far from the object 3.
const MOVES: [(bool, u32, Option<Start>); 5] = [
    (false, 2, Some(Start::Object(3, 8))),
    (true, 0, Some(Start::Object(3, 0))),
    (true, 1, None),
    (false, 16383, Some(Start::Object(3, 65532))),
    (false, 16384, None),
];

/// `a + n` or `a - n` of a pointer type, where the array `a` is the object 3.
fn moved(alloc: Global, ty: TypeRef, is_less: bool, n: u32) -> Result<Value, AllocError> {
    let by = Boxed::new(
        alloc,
        Value {
            line: 1,
            ty: INT,
            node: ValueNode::Constant(n),
        },
    )?;
    let array = Place {
        line: 1,
        ty: plain(ty),
        node: PlaceNode::Static(3),
    };
    let first = Value {
        line: 1,
        ty,
        node: ValueNode::FirstElement(Boxed::new(alloc, array)?),
    };
    let node = ValueNode::Sum(1, is_less, true, Boxed::new(alloc, first)?, by);
    Ok(Value { line: 1, ty, node })
}

#[test]
fn addresses_move_by_rows(rt: HostRuntime) -> Result<(), Fail> {
    let mut types = Types::new(rt.alloc());
    let ty = row_pointer(&mut types)?;
    for (is_less, n, start) in MOVES {
        let value = moved(rt.alloc(), ty, is_less, n)?;
        assert!(&rt; start_of(&types, &value) == start);
    }
    Ok(())
}
