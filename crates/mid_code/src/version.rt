ghost use Rattle.std.specs.Prelude.{◌≡◌, length, slice_get};
ghost use Rattle.mid_code.specs.Versions.{operands_list};

use crate::mid::Mid;
use crate::registers::Registers;
use sqlite_items::Items;
use srmt_base::{RequestKind, Site};

/// The registers whose values an exchange compares, in order.
#[derive(Clone, Copy, Debug, PartialEq, Eq)]
pub enum Operands {
    /// No register. A value of 0 stands for it.
    Nothing,
    /// One.
    One(u16),
    /// Two.
    Two(u16, u16),
    /// The arguments of a direct call, up to 16. Where there are none, a value of 0 stands for them.
    Passed(Registers),
    /// The function value of an indirect call, and then its arguments.
    Called { callee: u16, args: Registers },
}

/// An instruction of a version of a function. A place is one of the version. A site is that of the
/// middle instruction, or of a wrapper.
#[derive(Clone, Copy, Debug, PartialEq, Eq)]
pub enum VersionOp {
    /// Both threads perform the instruction.
    Copied(Mid),
    /// The leading thread reads a shared cell, and sends the address and what it read.
    SharedLoad {
        site: Site,
        target: u16,
        pointer: u16,
    },
    /// The leading thread writes a shared cell, and sends the address and the value.
    SharedStore {
        site: Site,
        pointer: u16,
        source: u16,
    },
    /// The leading thread begins a shared object, and sends its address.
    SharedOpen {
        site: Site,
        target: u16,
        cells: u16,
    },
    /// The leading thread ends the newest shared object of the activation, and sends its address.
    SharedClose {
        site: Site,
    },
    /// The leading thread sends a word to be compared for each operand.
    Ask {
        site: Site,
        operands: Operands,
    },
    /// The leading thread takes an acknowledgement for each operand, and compares them all.
    Await {
        site: Site,
        operands: Operands,
    },
    /// The leading thread makes the request, sends what is answered, and writes it to the target.
    Act {
        site: Site,
        request: RequestKind,
        /// The register for the answer.
        target: Option<u16>,
        /// The function of a direct call, or the one that was called back.
        function: Option<u16>,
        operands: Operands,
    },
    /// Either thread enters the protected function whose number the register holds, to go on at
    /// the place afterwards, or goes on here where it is one of the binary file.
    Enter {
        callee: u16,
        ty: u16,
        target: u16,
        place: u32,
        args: Registers,
    },
    /// The binary file calls a function of the main file.
    Callback {
        function: u16,
    },
    /// The trailing thread takes a word, and compares it with its own operand.
    Check {
        site: Site,
        source: u16,
    },
    /// The trailing thread takes a word, and compares it with a value of 0.
    CheckZero {
        site: Site,
    },
    /// The trailing thread takes the word of a stored value, and compares it, or ends with the trap
    /// that stands in its place.
    CheckStored {
        site: Site,
        source: u16,
    },
    /// The trailing thread sends an acknowledgement for each operand.
    Ack {
        site: Site,
        operands: Operands,
    },
    /// The trailing thread takes the answer of a request, and writes it to the target.
    Take {
        site: Site,
        target: Option<u16>,
    },
    /// The same of a request whose answer is no value.
    TakeDone {
        site: Site,
    },
    /// The trailing thread takes the address of a shared object that begins, and compares it.
    CheckOpen {
        site: Site,
        target: u16,
        cells: u16,
    },
    /// The trailing thread takes the address of a shared object that ends, and compares it.
    CheckClose {
        site: Site,
    },
    /// The trailing thread ends, with the register modulo 256 as its status.
    End {
        source: u16,
    },
}

/// An instruction of a version, with the line of its middle instruction.
#[derive(Clone, Copy, Debug, PartialEq, Eq)]
pub struct VersionLine {
    pub line: u32,
    pub op: VersionOp,
}

/// A function as one of the threads runs it.
#[derive(Debug, Drop)]
pub struct Version {
    pub code: Items<VersionLine>,
}

impl Operands {
    /// How many there are, up to 17.
    pub fn len(&self) -> usize
        ensures { result ≡ length (operands_list self.now) }
    {
        match self {
            Operands::Nothing => 0,
            Operands::One(_) => 1,
            Operands::Two(_, _) => 2,
            Operands::Passed(args) => args.len(),
            Operands::Called { args, .. } => args.len() + 1,
        }
    }

    /// The register at an index, or `None` past the last.
    pub fn get(&self, index: usize) -> Option<u16>
        ensures { result ≡ slice_get (operands_list self.now) index }
    {
        match self {
            Operands::Nothing => None,
            Operands::One(first) => [*first].get(index).copied(),
            Operands::Two(first, second) => [*first, *second].get(index).copied(),
            Operands::Passed(args) => args.get(index),
            Operands::Called { callee, args } => {
                if index == 0 {
                    Some(*callee)
                } else {
                    args.get(index - 1)
                }
            }
        }
    }
}
