ghost use Rattle.std.specs.Prelude.{◌≡◌, ◌<◌, ◌^◌, ◌↔◌, IsTrue, IfOk, pos, neg_ℤ, ◌<ℤ◌, ◌≤ℤ◌};
ghost use Rattle.srmt_base.specs.Types.{width_of, kept_width_of, can_hold, IsPromoted};
ghost use Rattle.srmt_base.specs.Arith.{arith_of, reduced, divided, remaining, shifted_left, shifted_right};

use crate::op::Op;
use crate::trap::Trap;
use crate::ty::{KEPT, Ty, keep};

/// What an operator gives at a type (C11 6.5.5 to 6.5.12), or the trap that stops it.
pub fn arith(op: Op, ty: Ty, a: u64, b: u64) -> Result<u64, Trap>
    requires { IsPromoted ty }
    ensures exact { result ≡ arith_of op ty a b }
    ensures small { IfOk result (λ value. value < 2 ^ kept_width_of ty) }
{
    match op {
        Op::Add => reduce(ty, ty.read(a) + ty.read(b)),
        Op::Sub => reduce(ty, ty.read(a) - ty.read(b)),
        Op::Mul => multiply(ty, a, b),
        Op::Div => divide(ty, ty.read(a), ty.read(b)),
        Op::Rem => remain(ty, ty.read(a), ty.read(b)),
        Op::Shl => shift_left(ty, ty.read(a), b % KEPT),
        Op::Shr => shift_right(ty, ty.read(a), b % KEPT),
        Op::And => Ok((a % KEPT) & (b % KEPT)),
        Op::Or => Ok((a % KEPT) | (b % KEPT)),
        Op::Xor => Ok((a % KEPT) ^ (b % KEPT)),
        Op::Lt => Ok(u64::from(ty.read(a) < ty.read(b))),
        Op::Gt => Ok(u64::from(ty.read(a) > ty.read(b))),
        Op::Le => Ok(u64::from(ty.read(a) <= ty.read(b))),
        Op::Ge => Ok(u64::from(ty.read(a) >= ty.read(b))),
        Op::Eq => Ok(u64::from(ty.read(a) == ty.read(b))),
        Op::Ne => Ok(u64::from(ty.read(a) != ty.read(b))),
    }
}

/// Whether a type at which arithmetic is made can represent a value.
fn can_hold(ty: Ty, value: i64) -> bool
    requires { IsPromoted ty }
    ensures { result ≡ can_hold ty value }
{
    if ty.is_signed() {
        -(1 << 31) <= value && value < 1 << 31
    } else {
        0 <= value && value < 1 << 32
    }
}

fn reduce(ty: Ty, value: i64) -> Result<u64, Trap>
    requires { IsPromoted ty }
    ensures exact { result ≡ reduced ty value }
    ensures small { IfOk result (λ value. value < 2 ^ kept_width_of ty) }
{
    if ty.is_signed() && !can_hold(ty, value) {
        Err(Trap::Overflow)
    } else {
        Ok(keep(value))
    }
}

fn multiply(ty: Ty, a: u64, b: u64) -> Result<u64, Trap>
    requires { IsPromoted ty }
    ensures exact { result ≡ arith_of Op.Mul ty a b }
    ensures small { IfOk result (λ value. value < 2 ^ kept_width_of ty) }
{
    if ty.is_signed() {
        reduce(ty, ty.read(a) * ty.read(b))
    } else {
        Ok((a % KEPT) * (b % KEPT) % KEPT)
    }
}

fn divide(ty: Ty, x: i64, y: i64) -> Result<u64, Trap>
    requires promoted { IsPromoted ty }
    requires least { neg_ℤ (pos (2 ^ 31)) ≤ℤ x }
    ensures exact { result ≡ divided ty x y }
    ensures small { IfOk result (λ value. value < 2 ^ kept_width_of ty) }
{
    if y == 0 {
        Err(Trap::DivideByZero)
    } else {
        reduce(ty, x / y)
    }
}

fn remain(ty: Ty, x: i64, y: i64) -> Result<u64, Trap>
    requires promoted { IsPromoted ty }
    requires least { neg_ℤ (pos (2 ^ 31)) ≤ℤ x }
    ensures exact { result ≡ remaining ty x y }
    ensures small { IfOk result (λ value. value < 2 ^ kept_width_of ty) }
{
    if y == 0 {
        Err(Trap::DivideByZero)
    } else if can_hold(ty, x / y) {
        Ok(keep(x % y))
    } else {
        Err(Trap::Overflow)
    }
}

/// Whether a count is below the width.
fn can_shift(ty: Ty, count: u64) -> bool
    ensures { IsTrue result ↔ (count < width_of ty) }
{
    count < u64::from(ty.width())
}

fn shift_left(ty: Ty, x: i64, count: u64) -> Result<u64, Trap>
    requires promoted { IsPromoted ty }
    requires below { x <ℤ pos (2 ^ 32) }
    ensures exact { result ≡ shifted_left ty x count }
    ensures small { IfOk result (λ value. value < 2 ^ kept_width_of ty) }
{
    if !can_shift(ty, count) {
        Err(Trap::ShiftRange)
    } else if x < 0 {
        Err(Trap::Overflow)
    } else {
        reduce(ty, x * (1 << count))
    }
}

fn shift_right(ty: Ty, x: i64, count: u64) -> Result<u64, Trap>
    ensures exact { result ≡ shifted_right ty x count }
    ensures small { IfOk result (λ value. value < 2 ^ kept_width_of ty) }
{
    if can_shift(ty, count) {
        Ok(keep(x >> count))
    } else {
        Err(Trap::ShiftRange)
    }
}
