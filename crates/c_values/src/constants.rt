ghost use Rattle.std.specs.Prelude.{◌≡◌, bit_xor};
ghost use Rattle.srmt_base.specs.Types.{IsPromoted};
ghost use Rattle.srmt_base.specs.Arith.{arith_of};
ghost use Rattle.srmt_base.specs.Convert.{convert_of};
ghost use Rattle.c_typed.specs.Constants as constant;
ghost use Rattle.srmt_base.specs.declared.op.Op.TheVariants as Op;
ghost use Rattle.c_typed.specs.declared.constant.Constant.TheVariants.{Value as Known};

use c_typed::Constant;
use srmt_base::{Op, Trap, Ty, arith, convert};

/// What a computation gives: one that traps has no value.
fn of_result(computed: Result<u64, Trap>) -> Constant
    ensures { result ≡ constant.of_result computed }
{
    match computed {
        Ok(value) => Constant::Value(value),
        Err(_) => Constant::Traps,
    }
}

/// An operator on two constants of a promoted type, both of which are evaluated (C11 6.6p6).
pub fn computed(op: Op, ty: Ty, a: Constant, b: Constant) -> Constant
    requires { IsPromoted ty }
    ensures { result ≡ constant.both (λ m n. constant.of_result (arith_of op ty m n)) a b }
{
    match (a, b) {
        (Constant::NoForm, _) => Constant::NoForm,
        (Constant::Traps, Constant::NoForm) => Constant::NoForm,
        (Constant::Traps, Constant::Traps) => Constant::Traps,
        (Constant::Traps, Constant::Value(_)) => Constant::Traps,
        (Constant::Value(_), Constant::NoForm) => Constant::NoForm,
        (Constant::Value(_), Constant::Traps) => Constant::Traps,
        (Constant::Value(m), Constant::Value(n)) => of_result(arith(op, ty, m, n)),
    }
}

/// `-` of a constant of a promoted type.
pub fn minus(ty: Ty, of: Constant) -> Constant
    requires { IsPromoted ty }
    ensures { result ≡ constant.mapped (λ n. constant.of_result (arith_of Op.Sub ty 0 n)) of }
{
    match of {
        Constant::NoForm => Constant::NoForm,
        Constant::Traps => Constant::Traps,
        Constant::Value(n) => of_result(arith(Op::Sub, ty, 0, n)),
    }
}

/// `~` of a constant.
pub fn complement(of: Constant) -> Constant
    ensures { result ≡ constant.mapped (λ n. Known (bit_xor n 4294967295)) of }
{
    match of {
        Constant::NoForm => Constant::NoForm,
        Constant::Traps => Constant::Traps,
        Constant::Value(n) => Constant::Value(n ^ 4_294_967_295),
    }
}

/// `!` of a constant.
pub fn opposite(of: Constant) -> Constant
    ensures { result ≡ constant.opposite of }
{
    match of {
        Constant::NoForm => Constant::NoForm,
        Constant::Traps => Constant::Traps,
        Constant::Value(n) => {
            if n == 0 {
                Constant::Value(1)
            } else {
                Constant::Value(0)
            }
        }
    }
}

/// Whether a constant is other than 0, as 1 or 0.
pub fn as_test(of: Constant) -> Constant
    ensures { result ≡ constant.as_test of }
{
    match of {
        Constant::NoForm => Constant::NoForm,
        Constant::Traps => Constant::Traps,
        Constant::Value(n) => {
            if n == 0 {
                Constant::Value(0)
            } else {
                Constant::Value(1)
            }
        }
    }
}

/// The second constant where the first is not 0, else the third; both have the form of one.
pub fn chosen(test: Constant, first: Constant, second: Constant) -> Constant
    ensures { result ≡ constant.chosen test first second }
{
    match (test, first, second) {
        (_, Constant::NoForm, _) => Constant::NoForm,
        (_, _, Constant::NoForm) => Constant::NoForm,
        (Constant::NoForm, _, _) => Constant::NoForm,
        (Constant::Traps, _, _) => Constant::Traps,
        (Constant::Value(n), _, _) => { if n == 0 { second } else { first } }
    }
}

/// A constant of one integer type converted to another (C11 6.3.1).
pub fn converted(from: Ty, to: Ty, of: Constant) -> Constant
    ensures { result ≡ constant.mapped (λ n. Known (convert_of from to n)) of }
{
    match of {
        Constant::NoForm => Constant::NoForm,
        Constant::Traps => Constant::Traps,
        Constant::Value(n) => Constant::Value(convert(from, to, n)),
    }
}

/// Whether a constant is 0.
pub fn is_zero(of: Constant) -> bool
    ensures { result ≡ constant.is_zero of }
{
    match of {
        Constant::NoForm => false,
        Constant::Traps => false,
        Constant::Value(n) => n == 0,
    }
}
