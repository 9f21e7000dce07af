ghost use Rattle.std.specs.Prelude.{◌≡◌, ℕ, ◌^◌, ◌<◌, ◌≤◌, List, [], ◌∷◌, Option, OnOk, OnErr};
ghost use Rattle.srmt_base.specs.declared.event.Event.{Event};
ghost use Rattle.srmt_outside.specs.Count.{next_count, Rose};
ghost use Rattle.srmt_outside.specs.Told.{Appends};

use crate::Failed;
use srmt_base::Event;

/// Where the events of a run go.
pub trait Outlet {
    // The events so far, where they are told.
    ghost events: { Self → Option (List Event) };

    // How many calls have failed, up to 2^64 - 1.
    ghost faults: { Self → ℕ };

    /// Writes one event.
    fn event(&mut self, event: Event) -> Result<(), Failed>
        ensures appends { OnOk result (Appends (events self.old) (events self.new) (event ∷ [])) }
        ensures keeps { OnErr result (events self.new ≡ events self.old) }
        ensures stands { OnOk result (faults self.new ≡ faults self.old) }
        ensures counted { OnErr result (faults self.new ≡ next_count (faults self.old)) }
        ensures rose { OnErr result (Rose (faults self.old) (faults self.new)) }
        ensures never_falls { faults self.old ≤ faults self.new }
        ensures count_fits { faults self.new < 2 ^ 64 };
}
