ghost use Rattle.std.specs.Prelude.{◌≡◌, ℕ, ◌^◌, ◌<◌, ◌≤◌, List, Option, OnOk, OnErr};
ghost use Rattle.srmt_outside.specs.Count.{next_count, Rose};
ghost use Rattle.srmt_outside.specs.Told.{Appends, AppendsPrefix};

use crate::Failed;

/// Where the notes of a program go.
pub trait Sink {
    // The bytes so far, where they are told.
    ghost bytes: { Self → Option (List ℕ) };

    // How many calls have failed, up to 2^64 - 1.
    ghost faults: { Self → ℕ };

    /// Writes a piece. A call that fails may have written a first part of it.
    fn push(&mut self, piece: &[u8]) -> Result<(), Failed>
        ensures appends { OnOk result (Appends (bytes self.old) (bytes self.new) piece.now) }
        ensures prefix { OnErr result (AppendsPrefix (bytes self.old) (bytes self.new) piece.now) }
        ensures stands { OnOk result (faults self.new ≡ faults self.old) }
        ensures counted { OnErr result (faults self.new ≡ next_count (faults self.old)) }
        ensures rose { OnErr result (Rose (faults self.old) (faults self.new)) }
        ensures never_falls { faults self.old ≤ faults self.new }
        ensures count_fits { faults self.new < 2 ^ 64 };
}
