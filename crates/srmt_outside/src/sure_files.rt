ghost use Rattle.std.specs.Prelude.{◌≡◌, ◌<◌, ◌≤◌, ◌≢◌, ◌↔◌, [], ◌++◌, length, OnOk, OnErr, IsErrOf};
ghost use Rattle.srmt_outside.specs.Shelf.{empty, with_file};
ghost use Rattle.srmt_outside.specs.SureFiles.{after_read, bytes_of};

use crate::shelf::{copy, find, give};
use crate::{FileFault, Files};
use std::alloc::{AllocError, Global};
use std::collections::BTreeMap;
use std::marker::Model;

/// Files in memory that never fail. A name that it does not hold reads as no bytes.
#[derive(Debug, Drop)]
pub struct SureFiles {
    held: BTreeMap<String, Vec<u8>>,
    names: Vec<String>,
}

impl Model for SureFiles {
    ghost use Rattle.srmt_outside.specs.SureFiles.{Given, given_code};

    ghost Value = { Given };

    ghost coded = { given_code };

    ghost use Rattle.srmt_outside.specs.Shelf.{shelf_of, names_of};

    ghost view = { λ f. record { files = shelf_of f.held; asked = names_of f.names.items } };
}

impl SureFiles {
    /// Holds no name yet, and takes no memory.
    pub fn new(alloc: Global) -> SureFiles
        ensures { result ≡ record { files = empty; asked = [] } }
    {
        SureFiles {
            held: BTreeMap::new(alloc),
            names: Vec::new(alloc),
        }
    }

    /// Gives a name these bytes, in place of those that it had. It is no call of the trait.
    pub fn give(&mut self, alloc: Global, name: &str, bytes: &[u8]) -> Result<(), AllocError>
        ensures ok { OnOk result (self.new
            ≡ record self.old { files = with_file self.old.files name.now bytes.now }) }
        ensures err { OnErr result (self.new ≡ self.old) }
    {
        give(&mut self.held, alloc, name, bytes)
    }
}

impl Files for SureFiles {
    ghost use Rattle.std.specs.Prelude.{Some};
    ghost use Rattle.srmt_outside.specs.SureFiles.{bytes_of};

    ghost contents = { λ f name. Some (bytes_of f.files name) };

    ghost asked = { λ f. Some f.asked };

    ghost faults = { λ _. 0 };

    fn read(
        &mut self,
        alloc: Global,
        name: &str,
        into: &mut Vec<u8>,
        limit: u64,
    ) -> Result<(), FileFault>
        ensures ok { OnOk result (into.new.items ≡ into.old.items ++ bytes_of self.old.files name.now) }
        ensures within { OnOk result (length (bytes_of self.old.files name.now) ≤ limit) }
        ensures err { OnErr result (into.new.items ≡ into.old.items) }
        ensures too_long { IsErrOf result FileFault.TooLong
            → limit < length (bytes_of self.old.files name.now) }
        ensures sure { result ≢ Err FileFault.Failed }
        ensures leaves { self.new ≡ after_read self.old name.now result }
    {
        let asked = String::from_str(alloc, name)?;
        self.names.reserve(1)?;
        let bytes = find(&self.held, name).unwrap_or(&[]);
        let answer = copy(bytes, into, limit);
        if answer != Err(FileFault::Memory) {
            self.names.push_reserved(asked);
        }
        answer
    }
}
