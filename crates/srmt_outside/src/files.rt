ghost use Rattle.std.specs.Prelude.{◌≡◌, ℕ, ◌^◌, ◌<◌, ◌≤◌, List, ◌++◌, length, Option, OnOk, OnErr, IfSome, IsErrOf};
ghost use Rattle.srmt_outside.specs.Count.{Rose};
ghost use Rattle.srmt_outside.specs.Files.{Asks, GrowsWithin, faults_after};

use crate::FileFault;
use std::alloc::Global;

/// The files that a run reads, by name.
pub trait Files {
    // The bytes of a file, by its name, where they are told.
    ghost contents: { Self → List ℕ → Option (List ℕ) };

    // The names of all calls so far, where they are told.
    ghost asked: { Self → Option (List (List ℕ)) };

    // How many calls have failed, up to 2^64 - 1.
    ghost faults: { Self → ℕ };

    /// Adds the bytes of a file to `into`. `limit` is the largest number of bytes that it may have.
    fn read(
        &mut self,
        alloc: Global,
        name: &str,
        into: &mut Vec<u8>,
        limit: u64,
    ) -> Result<(), FileFault>
        ensures bytes { OnOk result (IfSome (contents self.old name.now)
            (λ bytes. into.new.items ≡ into.old.items ++ bytes)) }
        ensures within { OnOk result (GrowsWithin into.old.items into.new.items limit) }
        ensures err { OnErr result (into.new.items ≡ into.old.items) }

        // A file that is told is too long exactly where it has more bytes than the limit, unless
        // the call failed or memory was out.
        ensures too_long { IsErrOf result FileFault.TooLong
            → IfSome (contents self.old name.now) (λ bytes. limit < length bytes) }

        // A call that fails raises the count by one, and every other leaves it.
        ensures count { faults self.new ≡ faults_after (faults self.old) result }
        ensures rose { IsErrOf result FileFault.Failed → Rose (faults self.old) (faults self.new) }
        ensures never_falls { faults self.old ≤ faults self.new }
        ensures count_fits { faults self.new < 2 ^ 64 }

        // What reading leaves.
        ensures unchanged { contents self.new ≡ contents self.old }
        ensures asks { Asks result (asked self.old) (asked self.new) name.now };
}
