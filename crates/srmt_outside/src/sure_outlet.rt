ghost use Rattle.std.specs.Prelude.{◌≡◌, IsOk};
ghost use Rattle.srmt_outside.specs.SureOutlet.{counts_with};

use crate::{Failed, Outlet};
use srmt_base::Event;

/// Counts the events of each kind, up to 2^64 - 1 of each, and keeps none.
#[derive(Clone, Debug, PartialEq, Eq, Hash, Default, Drop)]
pub struct SureOutlet {
    /// How many bytes were written.
    pub bytes: u64,
    /// How many reads of ports there were.
    pub port_reads: u64,
    /// How many writes of ports there were.
    pub port_writes: u64,
    /// How many ends there were.
    pub exits: u64,
}

impl SureOutlet {
    pub fn new() -> SureOutlet
        ensures { result ≡ record { bytes = 0; port_reads = 0; port_writes = 0; exits = 0 } }
    {
        SureOutlet {
            bytes: 0,
            port_reads: 0,
            port_writes: 0,
            exits: 0,
        }
    }
}

/// It never fails, and tells no list.
impl Outlet for SureOutlet {
    ghost use Rattle.std.specs.Prelude.{None};

    ghost events = { λ _. None };

    ghost faults = { λ _. 0 };

    fn event(&mut self, event: Event) -> Result<(), Failed>
        ensures succeeds { IsOk result }
        ensures counts { self.new ≡ counts_with self.old event }
    {
        match event {
            Event::Byte(_) => self.bytes = self.bytes.saturating_add(1),
            Event::PortRead(..) => self.port_reads = self.port_reads.saturating_add(1),
            Event::PortWrite(..) => self.port_writes = self.port_writes.saturating_add(1),
            Event::Exit(_) => self.exits = self.exits.saturating_add(1),
        }
        Ok(())
    }
}
