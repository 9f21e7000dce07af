ghost use Rattle.std.specs.Prelude.{◌≡◌};
ghost use Rattle.srmt_base.specs.Types.{IsPromoted};
ghost use Rattle.srmt_base.specs.Arith.{arith_of};

use srmt_base::{Op, Trap, Ty, arith};

/// An operator at `int` or at `unsigned int`, with a call for each, so that the compiler makes code
/// for that operator at that type alone.
macro_rules! at {
    ($op:ident, $ty:ident, $a:ident, $b:ident) => {
        match $ty {
            Ty::Int => arith(Op::$op, Ty::Int, $a, $b),
            Ty::UInt => arith(Op::$op, Ty::UInt, $a, $b),
            _ => arith(Op::$op, $ty, $a, $b),
        }
    };
}

/// What an operator gives at a type, the same as `arith`: the usual operators are told apart here,
/// once.
#[inline(always)]
pub(crate) fn apply(op: Op, ty: Ty, a: u64, b: u64) -> Result<u64, Trap>
    requires { IsPromoted ty }
    ensures { result ≡ arith_of op ty a b }
{
    match op {
        Op::Add => at!(Add, ty, a, b),
        Op::Sub => at!(Sub, ty, a, b),
        Op::Mul => at!(Mul, ty, a, b),
        Op::And => arith(Op::And, ty, a, b),
        Op::Or => arith(Op::Or, ty, a, b),
        Op::Xor => arith(Op::Xor, ty, a, b),
        Op::Lt => at!(Lt, ty, a, b),
        Op::Gt => at!(Gt, ty, a, b),
        Op::Le => at!(Le, ty, a, b),
        Op::Ge => at!(Ge, ty, a, b),
        Op::Eq => at!(Eq, ty, a, b),
        Op::Ne => at!(Ne, ty, a, b),
        _ => arith(op, ty, a, b),
    }
}
