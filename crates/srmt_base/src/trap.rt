ghost use Rattle.std.specs.Prelude.{◌≡◌, ◌≤◌, ◌↔◌, IsSome, IfSome};
ghost use Rattle.srmt_base.specs.Trap.{trap_code, is_budget};

/// Why a program was stopped: undefined behaviour by name, or a budget used up. In the order of
/// its code, from 1.
#[derive(Clone, Copy, Debug, PartialEq, Eq)]
pub enum Trap {
    /// A signed result that its type does not hold (C11 6.5p5).
    Overflow = 1,
    /// A divisor of 0 (C11 6.5.5p5).
    DivideByZero,
    /// A shift by the width or more (C11 6.5.7p3).
    ShiftRange,
    /// An access or a sum through a null pointer (C11 6.5.3.2p4).
    NullPointer,
    /// An access past an object's end, or a pointer that left the offsets that a pointer can hold.
    OutsideObject,
    /// An access to an object whose lifetime has ended (C11 6.2.4p2).
    DeadObject,
    /// A write to a string literal or a `const` object (C11 6.4.5p7, 6.7.3p6).
    ReadOnly,
    /// A comparison or a difference of pointers into two objects (C11 6.5.6p9, 6.5.8p5).
    OtherObject,
    /// A call of a value that is no function of the type (C11 6.5.2.2p9).
    NotAFunction,
    /// The budget of turns is used up.
    Turns,
    /// The budget of live activations is used up.
    Depth,
    /// The budget of live cells, or the numbers of objects, are used up.
    Store,
}

impl Trap {
    /// The code of the trap, 1 to 12.
    pub fn code(self) -> u8
        ensures { result ≡ trap_code self }
    {
        self as u8
    }

    /// The trap of a code, or `None` where the code is not 1 to 12.
    pub fn of_code(code: u64) -> Option<Self>
        ensures a_code { IsSome result ↔ ((1 ≤ code) × (code ≤ 12)) }
        ensures same { IfSome result (λ trap. trap_code trap ≡ code) }
    {
        match code {
            1 => Some(Trap::Overflow),
            2 => Some(Trap::DivideByZero),
            3 => Some(Trap::ShiftRange),
            4 => Some(Trap::NullPointer),
            5 => Some(Trap::OutsideObject),
            6 => Some(Trap::DeadObject),
            7 => Some(Trap::ReadOnly),
            8 => Some(Trap::OtherObject),
            9 => Some(Trap::NotAFunction),
            10 => Some(Trap::Turns),
            11 => Some(Trap::Depth),
            12 => Some(Trap::Store),
            _ => None,
        }
    }

    /// Whether a budget is used up, and no behaviour was undefined.
    pub fn is_budget(self) -> bool
        ensures { result ≡ is_budget self }
    {
        matches!(self, Trap::Turns | Trap::Depth | Trap::Store)
    }
}

/// How a run of a source ends.
#[derive(Clone, Copy, Debug, PartialEq, Eq)]
pub enum SourceEnd {
    /// By `exit` or by leaving `main`: the status modulo 256.
    Exit(u8),
    /// By a trap, at a line of the source. Line n of the binary file is 2,000,000 + n.
    Trap(Trap, u32),
}
