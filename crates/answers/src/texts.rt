ghost use Rattle.std.specs.Prelude.{◌≡◌};
ghost use Rattle.answers.specs.Texts.{trap_name, kind_name};

use srmt_base::{Kind, Trap};

/// The name of a trap, as a line has it.
pub fn trap_name(trap: Trap) -> &'static str
    ensures { result.now ≡ trap_name trap }
{
    match trap {
        Trap::Overflow => "Overflow",
        Trap::DivideByZero => "DivideByZero",
        Trap::ShiftRange => "ShiftRange",
        Trap::NullPointer => "NullPointer",
        Trap::OutsideObject => "OutsideObject",
        Trap::DeadObject => "DeadObject",
        Trap::ReadOnly => "ReadOnly",
        Trap::OtherObject => "OtherObject",
        Trap::NotAFunction => "NotAFunction",
        Trap::Turns => "Turns",
        Trap::Depth => "Depth",
        Trap::Store => "Store",
    }
}

/// The name of a kind of words, as a line has it.
pub fn kind_name(kind: Kind) -> &'static str
    ensures { result.now ≡ kind_name kind }
{
    match kind {
        Kind::Check => "check",
        Kind::Value => "value",
        Kind::Trap => "trap",
        Kind::Callback => "callback",
        Kind::Ack => "ack",
        Kind::Exit => "exit",
    }
}
