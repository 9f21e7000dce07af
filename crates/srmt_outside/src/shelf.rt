ghost use Rattle.std.specs.Prelude.{◌≡◌, ◌<◌, ◌≤◌, ◌≢◌, ◌++◌, ◌↔◌, length, OnOk, OnErr, IsErrOf, option_map};
ghost use Rattle.srmt_outside.specs.Shelf.{shelf_of, file_of, with_file};

use crate::FileFault;
use std::alloc::{AllocError, Global};
use std::collections::BTreeMap;

/// Gives a name these bytes.
pub(crate) fn give(
    files: &mut BTreeMap<String, Vec<u8>>,
    alloc: Global,
    name: &str,
    bytes: &[u8],
) -> Result<(), AllocError>
    ensures ok { OnOk result (shelf_of files.new ≡ with_file (shelf_of files.old) name.now bytes.now) }
    ensures err { OnErr result (shelf_of files.new ≡ shelf_of files.old) }
{
    let name = String::from_str(alloc, name)?;
    let bytes = Vec::from_slice(alloc, bytes)?;
    files.insert(name, bytes)?;
    Ok(())
}

/// The bytes of a name, if it has any.
pub(crate) fn find<'a>(files: &'a BTreeMap<String, Vec<u8>>, name: &str) -> Option<&'a [u8]>
    ensures { option_map (λ bytes. bytes.now) result ≡ file_of (shelf_of files.now) name.now }
{
    match files.get(name) {
        Some(bytes) => Some(bytes.as_slice()),
        None => None,
    }
}

/// Adds bytes to `into` if there are no more than `limit`.
pub(crate) fn copy(bytes: &[u8], into: &mut Vec<u8>, limit: u64) -> Result<(), FileFault>
    ensures ok { OnOk result (into.new.items ≡ into.old.items ++ bytes.now) }
    ensures within { OnOk result (length bytes.now ≤ limit) }
    ensures too_long { IsErrOf result FileFault.TooLong ↔ (limit < length bytes.now) }
    ensures sure { result ≢ Err FileFault.Failed }
    ensures err { OnErr result (into.new.items ≡ into.old.items) }
{
    if bytes.len() as u64 > limit {
        return Err(FileFault::TooLong);
    }
    into.extend_from_slice(bytes)?;
    Ok(())
}
