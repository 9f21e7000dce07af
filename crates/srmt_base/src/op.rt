ghost use Rattle.std.specs.Prelude.{◌≡◌, ◌<◌, ◌↔◌, IsSome, IfSome};
ghost use Rattle.srmt_base.specs.Arith.{op_code, is_comparison};

use crate::codes::in_order;

/// A binary operator on integers (C11 6.5.5 to 6.5.12), in the order of its code, from 0.
#[derive(Clone, Copy, Debug, PartialEq, Eq)]
pub enum Op {
    Add,
    Sub,
    Mul,
    Div,
    Rem,
    Shl,
    Shr,
    And,
    Or,
    Xor,
    Lt,
    Gt,
    Le,
    Ge,
    Eq,
    Ne,
}

/// The operators in the order of their codes.
const OPERATORS: [Op; 16] = [
    Op::Add,
    Op::Sub,
    Op::Mul,
    Op::Div,
    Op::Rem,
    Op::Shl,
    Op::Shr,
    Op::And,
    Op::Or,
    Op::Xor,
    Op::Lt,
    Op::Gt,
    Op::Le,
    Op::Ge,
    Op::Eq,
    Op::Ne,
];

const _: () = in_order!(OPERATORS; 0 1 2 3 4 5 6 7 8 9 10 11 12 13 14 15);

impl Op {
    /// The code, 0 to 15.
    pub fn code(self) -> u8
        ensures { result ≡ op_code self }
    {
        self as u8
    }

    /// The operator of a code, or `None` where the code is above 15.
    pub fn of_code(code: u8) -> Option<Self>
        ensures a_code { IsSome result ↔ (code < 16) }
        ensures same { IfSome result (λ op. op_code op ≡ code) }
    {
        OPERATORS.get(usize::from(code)).copied()
    }

    /// Whether the operator compares, and does not compute.
    pub fn is_comparison(self) -> bool
        ensures { result ≡ is_comparison self }
    {
        matches!(self, Op::Lt | Op::Gt | Op::Le | Op::Ge | Op::Eq | Op::Ne)
    }
}
