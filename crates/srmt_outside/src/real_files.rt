ghost use Rattle.std.specs.Prelude.{◌≡◌, ◌^◌, ◌<◌, ◌≤◌, ◌≢◌, OnOk, OnErr};
ghost use Rattle.srmt_outside.specs.Files.{GrowsWithin, faults_after};

use crate::{FileFault, Files};
use std::alloc::Global;
use std::io::{ErrorKind, Read};
use std::marker::Model;
use std::{fs, rt};

/// The files of the system.
///
/// Clauses see it as its count of faults.
#[derive(Drop)]
pub struct RealFiles<R> {
    rt: R,
    faults: u64,
}

impl<R> Model for RealFiles<R> {
    ghost use Rattle.std.specs.Prelude.{ℕ, ◌^◌, ◌<◌};

    ghost Value = { ℕ };

    ghost view = { λ f. f.faults };

    ghost invariant = { λ f. f.faults < 2 ^ 64 };
}

impl<R: rt::Files> RealFiles<R> {
    pub fn new(rt: R) -> RealFiles<R>
        ensures { result ≡ 0 }
    {
        RealFiles { rt, faults: 0 }
    }
}

impl<R: rt::Files> Files for RealFiles<R> {
    ghost use Rattle.std.specs.Prelude.{None};

    ghost contents = { λ _ _. None };

    ghost asked = { λ _. None };

    ghost faults = { λ f. f };

    fn read(
        &mut self,
        _alloc: Global,
        name: &str,
        into: &mut Vec<u8>,
        limit: u64,
    ) -> Result<(), FileFault>
        ensures within { OnOk result (GrowsWithin into.old.items into.new.items limit) }
        ensures err { OnErr result (into.new.items ≡ into.old.items) }
        ensures count { self.new ≡ faults_after self.old result }
        ensures never_falls { self.old ≤ self.new }
        ensures count_fits { self.new < 2 ^ 64 }
    {
        let answer = read(&self.rt, name, into, limit);
        if answer == Err(FileFault::Failed) {
            self.faults = self.faults.saturating_add(1);
        }
        answer
    }
}

// Reads until a read gives no byte, or until one byte more than the limit came. A read that a
// signal cut short is tried again.
fn read<R: rt::Files>(rt: &R, name: &str, into: &mut Vec<u8>, limit: u64) -> Result<(), FileFault>
    ensures within { OnOk result (GrowsWithin into.old.items into.new.items limit) }
    ensures err { OnErr result (into.new.items ≡ into.old.items) }
{
    let Ok(file) = fs::open(rt, name) else {
        return Err(FileFault::Failed);
    };
    let start = into.len();
    let answer = match file.take(limit.saturating_add(1)).read_to_end(into) {
        Ok(count) if count as u64 <= limit => return Ok(()),
        Ok(_) => FileFault::TooLong,
        Err(error) if error.kind() == ErrorKind::OutOfMemory => FileFault::Memory,
        Err(_) => FileFault::Failed,
    };
    into.truncate(start);
    Err(answer)
}
