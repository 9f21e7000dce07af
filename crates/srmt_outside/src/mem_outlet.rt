ghost use Rattle.std.specs.Prelude.{◌≡◌, ◌^◌, ◌<◌, ◌≤◌, ◌↔◌, ◌⊎◌, [], ◌∷◌, ◌++◌, length, IfOk, OnOk, OnErr, IsErr, Contains};
ghost use Rattle.srmt_outside.specs.Count.{next_count};

use crate::{Failed, Outlet};
use srmt_base::Event;
use std::alloc::{AllocError, Global};
use std::marker::Model;

/// Keeps each event in memory, up to a number that is fixed when it is made.
#[derive(Debug, Drop)]
pub struct MemOutlet {
    /// The numbers of the calls that are to fail, from 1 over all calls of the trait.
    pub fails: Vec<u64>,
    list: Vec<Event>,
    room: u32,
    calls: u64,
    faults: u64,
}

impl Model for MemOutlet {
    ghost use Rattle.std.specs.Prelude.{◌≤◌, vec_capacity};
    ghost use Rattle.srmt_outside.specs.MemOutlet.{Recorded};

    ghost Value = { Recorded };

    ghost view = { λ o. record {
      events = o.list.items;
      room = o.room;
      calls = o.calls;
      faults = o.faults;
      fails = o.fails.items;
    } };

    ghost invariant = { λ o. o.room ≤ vec_capacity o.list };
}

impl MemOutlet {
    /// Takes the memory of `n` events first. An event past them is a fault.
    pub fn with_room(alloc: Global, n: u32) -> Result<MemOutlet, AllocError>
        ensures { IfOk result (λ outlet. outlet
            ≡ record { events = []; room = n; calls = 0; faults = 0; fails = [] }) }
    {
        Ok(MemOutlet {
            fails: Vec::new(alloc),
            list: Vec::with_capacity(alloc, n as usize)?,
            room: n,
            calls: 0,
            faults: 0,
        })
    }

    /// The events so far, in order.
    pub fn events(&self) -> &[Event]
        ensures { result.now ≡ self.now.events }
    {
        self.list.as_slice()
    }
}

impl Outlet for MemOutlet {
    ghost use Rattle.std.specs.Prelude.{Some};

    ghost events = { λ o. Some o.events };

    ghost faults = { λ o. o.faults };

    fn event(&mut self, event: Event) -> Result<(), Failed>
        ensures fails { IsErr result ↔ (Contains self.old.fails (next_count self.old.calls)
            ⊎ (self.old.room ≤ length self.old.events)) }
        ensures ok { OnOk result (self.new ≡ record self.old {
          events = self.old.events ++ event ∷ [];
          calls = next_count self.old.calls;
        }) }
        ensures err { OnErr result (self.new ≡ record self.old {
          calls = next_count self.old.calls;
          faults = next_count self.old.faults;
        }) }
        ensures never_falls { self.old.faults ≤ self.new.faults }
        ensures count_fits { self.new.faults < 2 ^ 64 }
    {
        self.calls = self.calls.saturating_add(1);
        if self.fails.contains(&self.calls) || self.list.len() >= self.room as usize {
            self.faults = self.faults.saturating_add(1);
            return Err(Failed);
        }
        self.list.push_reserved(event);
        Ok(())
    }
}
