ghost use Rattle.std.specs.Prelude.{◌≡◌, ◌<◌, ◌≤◌, ◌^◌};
ghost use Rattle.srmt_base.specs.Types.{IsPromoted, value_at, width_of};
ghost use Rattle.srmt_base.specs.Arith.{arith_of, bits_at};
ghost use Rattle.srmt_base.specs.declared.op.Op.TheVariants as Op;
ghost use Rattle.c_typed.specs.Constants as constant;
ghost use Rattle.c_starts.specs.Small.{IsSmall};
ghost use Rattle.c_starts.specs.Wide as wide;

use c_typed::Constant;
use srmt_base::{Op, Trap, Ty, arith};

/// The promoted type with the sign of a type.
fn wide(ty: Ty) -> Ty
    ensures exact { result ≡ wide.wide_of ty }
    ensures promoted { IsPromoted result }
{
    match ty {
        Ty::Char | Ty::SChar | Ty::Short | Ty::Int => Ty::Int,
        Ty::Bool | Ty::UChar | Ty::UShort | Ty::UInt => Ty::UInt,
    }
}

/// What a number stands for when it is read at a type.
pub(crate) fn read(ty: Ty, number: u64) -> i64
    ensures { result ≡ value_at ty number }
{
    let low = (number % (1 << 32)) as u32;
    if ty.is_signed() {
        i64::from(low.cast_signed())
    } else {
        i64::from(low)
    }
}

/// A result of the wide type, where a signed type must be able to represent it (C11 6.5p5).
fn fitted(ty: Ty, computed: Result<u64, Trap>) -> Result<u64, Trap>
    ensures { result ≡ wide.fitted ty computed }
{
    match computed {
        Ok(n) => {
            if ty.is_signed() && !ty.can_hold(i128::from(read(ty, n))) {
                Err(Trap::Overflow)
            } else {
                Ok(n)
            }
        }
        Err(trap) => Err(trap),
    }
}

/// A remainder of the wide type, which is defined where the type can represent the quotient (C11 6.5.5p6).
fn remained(ty: Ty, quotient: Result<u64, Trap>, remainder: Result<u64, Trap>) -> Result<u64, Trap>
    ensures { result ≡ wide.remained ty quotient remainder }
{
    match quotient {
        Ok(quotient) => {
            if ty.can_hold(i128::from(read(ty, quotient))) {
                remainder
            } else {
                Err(Trap::Overflow)
            }
        }
        Err(trap) => Err(trap),
    }
}

/// A shift, whose count must be below the width (C11 6.5.7p3).
fn shift_left(ty: Ty, a: u64, b: u64) -> Result<u64, Trap>
    ensures { result ≡ arith_of Op.Shl ty a b }
{
    if b % (1 << 32) < u64::from(ty.width()) {
        fitted(ty, arith(Op::Shl, wide(ty), a, b))
    } else {
        Err(Trap::ShiftRange)
    }
}

fn shift_right(ty: Ty, a: u64, b: u64) -> Result<u64, Trap>
    ensures { result ≡ arith_of Op.Shr ty a b }
{
    if b % (1 << 32) < u64::from(ty.width()) {
        arith(Op::Shr, wide(ty), a, b)
    } else {
        Err(Trap::ShiftRange)
    }
}

/// What an operator gives at a type of any width (C11 6.5.5 to 6.5.12), or the trap that stops it.
fn arith_at(op: Op, ty: Ty, a: u64, b: u64) -> Result<u64, Trap>
    ensures { result ≡ arith_of op ty a b }
{
    match op {
        Op::Add | Op::Sub | Op::Mul | Op::Div => fitted(ty, arith(op, wide(ty), a, b)),
        Op::Rem => remained(
            ty,
            arith(Op::Div, wide(ty), a, b),
            arith(Op::Rem, wide(ty), a, b),
        ),
        Op::Shl => shift_left(ty, a, b),
        Op::Shr => shift_right(ty, a, b),
        Op::And | Op::Or | Op::Xor => arith(op, wide(ty), a, b),
        Op::Lt | Op::Gt | Op::Le | Op::Ge | Op::Eq | Op::Ne => arith(op, wide(ty), a, b),
    }
}

/// An operator on two constants, both of which are evaluated (C11 6.6p6).
pub(crate) fn computed(op: Op, ty: Ty, a: Constant, b: Constant) -> Constant
    ensures exact { result ≡ constant.both (λ m n. constant.of_result (arith_of op ty m n)) a b }
    ensures small { IsSmall result }
{
    match (a, b) {
        (Constant::NoForm, _) | (_, Constant::NoForm) => Constant::NoForm,
        (Constant::Traps, _) | (_, Constant::Traps) => Constant::Traps,
        (Constant::Value(m), Constant::Value(n)) => match arith_at(op, ty, m, n) {
            Ok(value) => Constant::Value(value),
            Err(_) => Constant::Traps,
        },
    }
}
