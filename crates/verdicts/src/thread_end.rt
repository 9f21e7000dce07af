use srmt_base::{Trap, Word};

/// How one side has ended.
#[derive(Clone, Copy, Debug, PartialEq, Eq)]
pub enum ThreadEnd {
    /// By `exit` or by leaving `main`: the status modulo 256.
    Exit(u8),
    /// By a trap, at a line of the source. Line n of the binary file is 2,000,000 + n.
    Trap(Trap, u32),
    /// The trailing side took the first word where it had the second.
    Mismatch(Word, Word),
    /// The leading side took the first acknowledgement where it had the second.
    Echo(Word, Word),
    /// A word was to be taken, and the other side has ended.
    PeerEnded,
    /// An event could not be written.
    WriteFault,
}
