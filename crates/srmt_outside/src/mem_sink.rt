ghost use Rattle.std.specs.Prelude.{◌≡◌, ◌+◌, ◌-◌, ◌^◌, ◌<◌, ◌≤◌, ◌↔◌, ◌⊎◌, [], ◌++◌, length, take, IfOk, OnOk, OnErr, IsErr, Contains};
ghost use Rattle.srmt_outside.specs.Count.{next_count};
ghost use Rattle.srmt_outside.specs.Told.{AppendsPrefix};

use crate::{Failed, Sink};
use std::alloc::{AllocError, Global};
use std::marker::Model;

/// Keeps the bytes in memory, up to a number that is fixed when it is made.
#[derive(Debug, Drop)]
pub struct MemSink {
    /// The numbers of the calls that are to fail, from 1 over all calls of the trait. Such a call
    /// keeps no byte.
    pub fails: Vec<u64>,
    kept: Vec<u8>,
    room: u32,
    calls: u64,
    faults: u64,
}

impl Model for MemSink {
    ghost use Rattle.std.specs.Prelude.{◌^◌, ◌<◌, ◌≤◌, vec_len, vec_capacity};
    ghost use Rattle.srmt_outside.specs.MemSink.{Collected};

    ghost Value = { Collected };

    ghost view = { λ s. record {
      bytes = s.kept.items;
      room = s.room;
      calls = s.calls;
      faults = s.faults;
      fails = s.fails.items;
    } };

    ghost invariant = { λ s. (vec_len s.kept ≤ s.room) × (s.room ≤ vec_capacity s.kept)
        × (s.faults < 2 ^ 64) };
}

impl MemSink {
    /// Takes the memory of `n` bytes first. A push past them keeps the bytes that fit, and is a
    /// fault.
    pub fn with_room(alloc: Global, n: u32) -> Result<MemSink, AllocError>
        ensures { IfOk result (λ sink. sink
            ≡ record { bytes = []; room = n; calls = 0; faults = 0; fails = [] }) }
    {
        Ok(MemSink {
            fails: Vec::new(alloc),
            kept: Vec::with_capacity(alloc, n as usize)?,
            room: n,
            calls: 0,
            faults: 0,
        })
    }

    /// The bytes so far.
    pub fn bytes(&self) -> &[u8]
        ensures { result.now ≡ self.now.bytes }
    {
        self.kept.as_slice()
    }
}

impl Sink for MemSink {
    ghost use Rattle.std.specs.Prelude.{Some};

    ghost bytes = { λ s. Some s.bytes };

    ghost faults = { λ s. s.faults };

    fn push(&mut self, piece: &[u8]) -> Result<(), Failed>
        ensures fails { IsErr result ↔ (Contains self.old.fails (next_count self.old.calls)
            ⊎ (self.old.room < length self.old.bytes + length piece.now)) }
        ensures ok { OnOk result (self.new ≡ record self.old {
          bytes = self.old.bytes ++ piece.now;
          calls = next_count self.old.calls;
        }) }
        ensures err { OnErr result (self.new ≡ record self.old {
          bytes = self.new.bytes;
          calls = next_count self.old.calls;
          faults = next_count self.old.faults;
        }) }

        // What a call that fails keeps of the piece: nothing where it was to fail, else what fits.
        ensures planned { Contains self.old.fails (next_count self.old.calls)
            → self.new.bytes ≡ self.old.bytes }
        ensures past_room { OnErr result (¬ Contains self.old.fails (next_count self.old.calls)
            → self.new.bytes
            ≡ self.old.bytes ++ take (self.old.room - length self.old.bytes) piece.now) }
        ensures prefix { OnErr result (AppendsPrefix (Some self.old.bytes) (Some self.new.bytes) piece.now) }
        ensures never_falls { self.old.faults ≤ self.new.faults }
        ensures count_fits { self.new.faults < 2 ^ 64 }
    {
        self.calls = self.calls.saturating_add(1);
        if self.fails.contains(&self.calls) {
            self.faults = self.faults.saturating_add(1);
            return Err(Failed);
        }
        let room = self.room as usize - self.kept.len();
        let fits = piece.len().min(room);
        self.kept.extend_from_slice(&piece[..fits]).unwrap();
        if fits < piece.len() {
            self.faults = self.faults.saturating_add(1);
            return Err(Failed);
        }
        Ok(())
    }
}
