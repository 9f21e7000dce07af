ghost use Rattle.std.specs.Prelude.{◌≡◌, ◌+◌, ◌-◌, ◌^◌, min, length, IsOk};

use crate::{Failed, Sink};

/// Counts bytes, up to 2^64 - 1, and keeps none.
#[derive(Clone, Debug, PartialEq, Eq, Hash, Default, Drop)]
pub struct SureSink {
    /// How many bytes were pushed.
    pub bytes: u64,
}

impl SureSink {
    pub fn new() -> SureSink
        ensures { result ≡ record { bytes = 0 } }
    {
        SureSink { bytes: 0 }
    }
}

/// It never fails, and tells no bytes.
impl Sink for SureSink {
    ghost use Rattle.std.specs.Prelude.{None};

    ghost bytes = { λ _. None };

    ghost faults = { λ _. 0 };

    fn push(&mut self, piece: &[u8]) -> Result<(), Failed>
        ensures succeeds { IsOk result }
        ensures counts { self.new.bytes ≡ min (self.old.bytes + length piece.now) (2 ^ 64 - 1) }
    {
        self.bytes = self.bytes.saturating_add(piece.len() as u64);
        Ok(())
    }
}
