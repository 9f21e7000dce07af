ghost use Rattle.std.specs.Prelude.{◌≡◌};
ghost use Rattle.c_tree.specs.Operators as operators;

use srmt_base::Op;

/// An operator between two operands (C11 6.5.5 to 6.5.14).
#[derive(Clone, Copy, Debug, PartialEq, Eq)]
pub enum BinaryOp {
    /// An operator on values, both of which are evaluated.
    Arithmetic(Op),
    /// `&&` (C11 6.5.13).
    And,
    /// `||` (C11 6.5.14).
    Or,
}

/// An operator before its operand (C11 6.5.3.1, 6.5.3.2, 6.5.3.3).
#[derive(Clone, Copy, Debug, PartialEq, Eq)]
pub enum PrefixOp {
    /// `++`
    Increment,
    /// `--`
    Decrement,
    /// `&`
    AddressOf,
    /// `*`
    Indirection,
    /// `+`
    Plus,
    /// `-`
    Minus,
    /// `~`
    Complement,
    /// `!`
    Not,
}

/// An operator behind its operand (C11 6.5.2.4).
#[derive(Clone, Copy, Debug, PartialEq, Eq)]
pub enum PostfixOp {
    /// `++`
    Increment,
    /// `--`
    Decrement,
}

/// An operator of a compound assignment (C11 6.5.16.2).
#[derive(Clone, Copy, Debug, PartialEq, Eq)]
pub enum CompoundOp {
    /// `*=`
    Mul,
    /// `/=`
    Div,
    /// `%=`
    Rem,
    /// `+=`
    Add,
    /// `-=`
    Sub,
    /// `<<=`
    Shl,
    /// `>>=`
    Shr,
    /// `&=`
    And,
    /// `^=`
    Xor,
    /// `|=`
    Or,
}

impl CompoundOp {
    /// The operator between the left side's value and the right side's.
    pub fn op(self) -> Op
        ensures { result ≡ operators.op_of self }
    {
        match self {
            CompoundOp::Mul => Op::Mul,
            CompoundOp::Div => Op::Div,
            CompoundOp::Rem => Op::Rem,
            CompoundOp::Add => Op::Add,
            CompoundOp::Sub => Op::Sub,
            CompoundOp::Shl => Op::Shl,
            CompoundOp::Shr => Op::Shr,
            CompoundOp::And => Op::And,
            CompoundOp::Xor => Op::Xor,
            CompoundOp::Or => Op::Or,
        }
    }
}
