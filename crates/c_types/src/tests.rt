use crate::{
    BinaryForm, ChoiceForm, Conversion, OperandRef, QualifiedRef, Qualifiers, TypeRef, Types, usual,
};
use srmt_base::{Op, Ty};
use std::alloc::AllocError;
use std::rt::HostRuntime;
use std::test::Fail;

/// Two types, and that to which the usual arithmetic conversions convert.
const USUAL: [(Ty, Ty, Ty); 9] = [
    (Ty::Bool, Ty::Bool, Ty::Int),
    (Ty::Char, Ty::UChar, Ty::Int),
    (Ty::SChar, Ty::Char, Ty::Int),
    (Ty::UShort, Ty::Short, Ty::Int),
    (Ty::UShort, Ty::UInt, Ty::UInt),
    (Ty::Int, Ty::Int, Ty::Int),
    (Ty::Int, Ty::UInt, Ty::UInt),
    (Ty::UInt, Ty::Int, Ty::UInt),
    (Ty::UInt, Ty::UInt, Ty::UInt),
];

#[test]
fn usual_conversions(rt: HostRuntime) -> Result<(), Fail> {
    for (a, b, to) in USUAL {
        assert!(&rt; usual(a, b) == to);
    }
    Ok(())
}

const INT: TypeRef = TypeRef::Integer(Ty::Int);

const PLAIN: Qualifiers = Qualifiers {
    is_const: false,
    is_volatile: false,
};

const CONST: Qualifiers = Qualifiers {
    is_const: true,
    is_volatile: false,
};

fn pointer(
    types: &mut Types,
    qualifiers: Qualifiers,
    target: TypeRef,
) -> Result<TypeRef, AllocError> {
    types.pointer_to(QualifiedRef { qualifiers, target })
}

/// An operand of the rows below.
#[derive(Clone, Copy, Debug, PartialEq, Eq)]
enum Given {
    Int,
    Null,
    Void,
    /// `int *p`
    P,
    /// `const int *q`
    Q,
    /// `char *s`
    S,
}

/// `int *`, `const int *` and `char *`.
#[derive(Clone, Copy, Debug, PartialEq, Eq)]
struct Pointers {
    p: TypeRef,
    q: TypeRef,
    s: TypeRef,
}

impl Pointers {
    fn operand(self, given: Given) -> OperandRef {
        let of = match given {
            Given::Int | Given::Null => INT,
            Given::Void => TypeRef::Void,
            Given::P => self.p,
            Given::Q => self.q,
            Given::S => self.s,
        };
        OperandRef {
            of,
            is_null: given == Given::Null,
        }
    }
}

fn pointers_in(types: &mut Types) -> Result<Pointers, AllocError> {
    Ok(Pointers {
        p: pointer(types, PLAIN, INT)?,
        q: pointer(types, CONST, INT)?,
        s: pointer(types, PLAIN, TypeRef::Integer(Ty::Char))?,
    })
}

/// Which operators take two operands, and which rule they break.
const OPERATORS: [(Op, Given, Given, Result<BinaryForm, u8>); 9] = [
    (Op::Sub, Given::P, Given::Q, Ok(BinaryForm::Pointers)),
    (Op::Sub, Given::P, Given::S, Err(2)),
    (Op::Sub, Given::Int, Given::P, Err(2)),
    (
        Op::Add,
        Given::Int,
        Given::P,
        Ok(BinaryForm::IntegerAndPointer),
    ),
    (Op::Mul, Given::Void, Given::P, Err(1)),
    (Op::Add, Given::Void, Given::P, Err(14)),
    (Op::Lt, Given::P, Given::Null, Err(3)),
    (
        Op::Eq,
        Given::P,
        Given::Null,
        Ok(BinaryForm::PointerAndNull),
    ),
    (Op::Eq, Given::P, Given::Int, Err(4)),
];

/// The first row of operators that another form than its own is answered for.
fn wrong_operator(types: &Types, pointers: Pointers) -> Option<usize> {
    for (i, (op, a, b, form)) in OPERATORS.iter().enumerate() {
        if types.binary_form(*op, pointers.operand(*a), pointers.operand(*b)) != *form {
            return Some(i);
        }
    }
    None
}

/// To which type which value is converted as by assignment, and which rule that breaks.
const CONVERSIONS: [(Given, Given, Result<Conversion, u8>); 4] = [
    (Given::Q, Given::P, Ok(Conversion::Pointer)),
    (Given::P, Given::Q, Err(8)),
    (Given::P, Given::Null, Ok(Conversion::Null)),
    (Given::Int, Given::P, Err(8)),
];

/// The first row of conversions that another form than its own is answered for.
fn wrong_conversion(types: &Types, pointers: Pointers) -> Option<usize> {
    for (i, (to, from, form)) in CONVERSIONS.iter().enumerate() {
        if types.conversion_form(pointers.operand(*to).of, pointers.operand(*from)) != *form {
            return Some(i);
        }
    }
    None
}

/// Whether a pointer and a null pointer constant may be branches, and only behind a condition that is a scalar.
fn branches_hold(types: &Types, pointers: Pointers) -> bool {
    let p = pointers.operand(Given::P);
    let null = pointers.operand(Given::Null);
    types.choice_form(p.of, p, null) == Ok(ChoiceForm::PointerAndNull)
        && types.choice_form(TypeRef::Void, p, pointers.operand(Given::Int)) == Err(5)
        && types.conversion_form(TypeRef::Integer(Ty::Bool), p) == Ok(Conversion::PointerToBool)
}

#[test]
fn pointer_rules(rt: HostRuntime) -> Result<(), Fail> {
    let mut types = Types::new(rt.alloc());
    let made = pointers_in(&mut types)?;
    let again = pointers_in(&mut types)?;
    assert!(&rt; made == again);
    assert!(&rt;
        wrong_operator(&types, made).is_none() && wrong_conversion(&types, made).is_none()
    );
    assert!(&rt; branches_hold(&types, made));
    Ok(())
}

/// `int [300][2]` has 600 cells and 2,400 bytes; 65,536 cells are too many.
fn arrays_hold(types: &mut Types) -> Result<bool, AllocError> {
    let inner = QualifiedRef {
        qualifiers: PLAIN,
        target: INT,
    };
    let Some(target) = types.array_of(inner, Some(2))? else {
        return Ok(false);
    };
    let rows = QualifiedRef {
        qualifiers: PLAIN,
        target,
    };
    let Some(table) = types.array_of(rows, Some(300))? else {
        return Ok(false);
    };
    let Some(open) = types.array_of(rows, None)? else {
        return Ok(false);
    };
    let size = types.size(table);
    let are_large = types.array_of(rows, Some(32768))?.is_none()
        && types.array_of(rows, Some(32767))?.is_some();
    let are_complete = types.is_complete(table) && !types.is_complete(open);
    Ok(size.cells == 600 && size.bytes == 2400 && are_large && are_complete)
}

#[test]
fn array_sizes(rt: HostRuntime) -> Result<(), Fail> {
    let mut types = Types::new(rt.alloc());
    assert!(&rt; arrays_hold(&mut types)?);
    Ok(())
}
