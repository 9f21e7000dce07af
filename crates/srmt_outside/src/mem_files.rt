ghost use Rattle.std.specs.Prelude.{◌≡◌, ◌^◌, ◌<◌, ◌≤◌, ◌⊎◌, [], ◌++◌, length, OnOk, OnErr, IsErrOf, IsNone, IsSomeAnd, Contains};
ghost use Rattle.srmt_outside.specs.Count.{next_count};
ghost use Rattle.srmt_outside.specs.MemFiles.{after_read};
ghost use Rattle.srmt_outside.specs.Shelf.{empty, file_of, shelf_of, with_file};

use crate::shelf::{copy, find, give};
use crate::{FileFault, Files};
use std::alloc::{AllocError, Global};
use std::collections::BTreeMap;
use std::marker::Model;

/// Files in memory. A read of a name that it does not hold fails.
#[derive(Debug, Drop)]
pub struct MemFiles {
    /// The numbers of the calls that are to fail, from 1 over all calls of the trait.
    pub fails: Vec<u64>,
    held: BTreeMap<String, Vec<u8>>,
    names: Vec<String>,
    calls: u64,
    faults: u64,
}

impl Model for MemFiles {
    ghost use Rattle.srmt_outside.specs.MemFiles.{Stored, stored_code};

    ghost Value = { Stored };

    ghost coded = { stored_code };

    ghost use Rattle.srmt_outside.specs.Shelf.{shelf_of, names_of};

    ghost view = { λ f. record {
      files = shelf_of f.held;
      asked = names_of f.names.items;
      calls = f.calls;
      faults = f.faults;
      fails = f.fails.items;
    } };

    ghost use Rattle.std.specs.Prelude.{◌^◌, ◌<◌};

    ghost invariant = { λ f. f.faults < 2 ^ 64 };
}

impl MemFiles {
    /// Holds no name yet, and takes no memory.
    pub fn new(alloc: Global) -> MemFiles
        ensures { result ≡ record { files = empty; asked = []; calls = 0; faults = 0; fails = [] } }
    {
        MemFiles {
            fails: Vec::new(alloc),
            held: BTreeMap::new(alloc),
            names: Vec::new(alloc),
            calls: 0,
            faults: 0,
        }
    }

    /// Gives a name these bytes, in place of those that it had. It is no call of the trait.
    pub fn give(&mut self, alloc: Global, name: &str, bytes: &[u8]) -> Result<(), AllocError>
        ensures ok { OnOk result (self.new
            ≡ record self.old { files = with_file self.old.files name.now bytes.now }) }
        ensures err { OnErr result (self.new ≡ self.old) }
    {
        give(&mut self.held, alloc, name, bytes)
    }
}

impl Files for MemFiles {
    ghost use Rattle.std.specs.Prelude.{Some};
    ghost use Rattle.srmt_outside.specs.Shelf.{file_of};

    ghost contents = { λ f name. file_of f.files name };

    ghost asked = { λ f. Some f.asked };

    ghost faults = { λ f. f.faults };

    fn read(
        &mut self,
        alloc: Global,
        name: &str,
        into: &mut Vec<u8>,
        limit: u64,
    ) -> Result<(), FileFault>
        ensures ok { OnOk result (IsSomeAnd (file_of self.old.files name.now)
            (λ bytes. (length bytes ≤ limit) × (into.new.items ≡ into.old.items ++ bytes))) }
        ensures err { OnErr result (into.new.items ≡ into.old.items) }

        // A call whose number is to fail fails, also where the file is too long.
        ensures failed { IsErrOf result FileFault.Failed
            → Contains self.old.fails (next_count self.old.calls)
            ⊎ IsNone (file_of self.old.files name.now) }
        ensures planned { Contains self.old.fails (next_count self.old.calls)
            → IsErrOf result FileFault.Failed ⊎ IsErrOf result FileFault.Memory }
        ensures too_long { IsErrOf result FileFault.TooLong
            → IsSomeAnd (file_of self.old.files name.now) (λ bytes. limit < length bytes) }

        ensures leaves { self.new ≡ after_read self.old name.now result }
        ensures never_falls { self.old.faults ≤ self.new.faults }
        ensures count_fits { self.new.faults < 2 ^ 64 }
    {
        self.calls = self.calls.saturating_add(1);
        let asked = String::from_str(alloc, name)?;
        self.names.reserve(1)?;
        let answer = read_held(&self.held, &self.fails, self.calls, name, into, limit);
        match answer {
            Err(FileFault::Memory) => return answer,
            Err(FileFault::Failed) => self.faults = self.faults.saturating_add(1),
            _ => {}
        }
        self.names.push_reserved(asked);
        answer
    }
}

// The answer of the call of this number.
fn read_held(
    held: &BTreeMap<String, Vec<u8>>,
    fails: &[u64],
    call: u64,
    name: &str,
    into: &mut Vec<u8>,
    limit: u64,
) -> Result<(), FileFault>
    ensures ok { OnOk result (IsSomeAnd (file_of (shelf_of held.now) name.now)
        (λ bytes. (length bytes ≤ limit) × (into.new.items ≡ into.old.items ++ bytes))) }
    ensures err { OnErr result (into.new.items ≡ into.old.items) }
    ensures failed { IsErrOf result FileFault.Failed
        → Contains fails.now call ⊎ IsNone (file_of (shelf_of held.now) name.now) }
    ensures planned { Contains fails.now call → IsErrOf result FileFault.Failed }
    ensures too_long { IsErrOf result FileFault.TooLong
        → IsSomeAnd (file_of (shelf_of held.now) name.now) (λ bytes. limit < length bytes) }
{
    if fails.contains(&call) {
        return Err(FileFault::Failed);
    }
    match find(held, name) {
        Some(bytes) => copy(bytes, into, limit),
        None => Err(FileFault::Failed),
    }
}
