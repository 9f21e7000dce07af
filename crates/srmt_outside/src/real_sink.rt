ghost use Rattle.std.specs.Prelude.{◌≡◌, ◌^◌, ◌<◌, ◌≤◌, if◌then◌else◌, is_ok};
ghost use Rattle.srmt_outside.specs.Count.{next_count};

use crate::{Failed, Sink};
use std::io::Write;
use std::marker::Model;

/// Writes to a handle of the runtime, as standard error.
///
/// Clauses see it as its count of faults.
#[derive(Drop)]
pub struct RealSink<W> {
    writer: W,
    faults: u64,
}

impl<W> Model for RealSink<W> {
    ghost use Rattle.std.specs.Prelude.{ℕ, ◌^◌, ◌<◌};

    ghost Value = { ℕ };

    ghost view = { λ s. s.faults };

    ghost invariant = { λ s. s.faults < 2 ^ 64 };
}

impl<W: Write> RealSink<W> {
    pub fn new(writer: W) -> RealSink<W>
        ensures { result ≡ 0 }
    {
        RealSink { writer, faults: 0 }
    }
}

/// It tells no bytes.
impl<W: Write> Sink for RealSink<W> {
    ghost use Rattle.std.specs.Prelude.{None};

    ghost bytes = { λ _. None };

    ghost faults = { λ s. s };

    // `write_all` takes a write of no byte as an error, and tries again where a signal came
    // between.
    fn push(&mut self, piece: &[u8]) -> Result<(), Failed>
        ensures count { self.new ≡ (if is_ok result then self.old else next_count self.old) }
        ensures never_falls { self.old ≤ self.new }
        ensures count_fits { self.new < 2 ^ 64 }
    {
        if self.writer.write_all(piece).is_err() {
            self.faults = self.faults.saturating_add(1);
            return Err(Failed);
        }
        Ok(())
    }
}
