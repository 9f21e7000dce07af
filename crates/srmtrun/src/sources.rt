ghost use Rattle.std.specs.Prelude.{◌≡◌, ◌<◌, ◌≤◌, [], ◌∷◌, length, option_map, option_copied, IfOk, IfSome, IsErrOf};
ghost use Rattle.srmt_outside.specs.Count.{Rose};
ghost use Rattle.srmt_outside.specs.Files.{Asks as AsksFile};
ghost use Rattle.srmtrun.specs.Reading.{command_of};
ghost use Rattle.srmtrun.specs.Reads.{file_named, files_named, files_of, Reads, IsRead, IsReadIfGiven, IsInput, AreRead};

use crate::words::Command;
use srmt_outside::{FileFault, Files};
use std::alloc::Global;

/// The largest source, in bytes.
pub(crate) const SOURCE_LIMIT: u64 = 1_048_576;

/// The largest input, in bytes.
const INPUT_LIMIT: u64 = 16_777_216;

/// The bytes of the files of a command.
#[derive(Drop)]
pub(crate) struct Sources {
    pub(crate) main: Vec<u8>,
    pub(crate) binary: Option<Vec<u8>>,
    pub(crate) input: Vec<u8>,
}

/// The bytes of the files of a command.
pub(crate) fn load_sources<F: Files>(
    alloc: Global,
    command: Command<'_>,
    files: &mut F,
) -> Result<Sources, FileFault>
    ensures ok { IfOk result (λ sources. AreRead (F.contents files.old) (command_of command.entry)
        sources.main.items (option_map (λ bytes. bytes.items) sources.binary)) }
    ensures input { IfOk result (λ sources.
        IsInput (F.contents files.old) (command_of command.entry).input sources.input.items) }
    ensures asks { Reads (F.contents files.old) (F.asked files.old) (F.asked files.new)
        (files_of (command_of command.entry)) result }
    ensures failed { IsErrOf result FileFault.Failed
        → Rose (F.faults files.old) (F.faults files.new) }
    ensures never_falls { F.faults files.old ≤ F.faults files.new }
    ensures contents { F.contents files.new ≡ F.contents files.old }
{
    let main = load(alloc, command.program, SOURCE_LIMIT, files)?;
    let binary = load_binary(alloc, command.binary, files)?;
    let input = load_input(alloc, command.input, files)?;
    Ok(Sources {
        main,
        binary,
        input,
    })
}

/// The bytes of the binary file, where it is given.
fn load_binary<F: Files>(
    alloc: Global,
    name: Option<&str>,
    files: &mut F,
) -> Result<Option<Vec<u8>>, FileFault>
    ensures ok { IfOk result (λ found. IsReadIfGiven (F.contents files.old) 1048576
        (option_copied name.entry) (option_map (λ bytes. bytes.items) found)) }
    ensures asks { Reads (F.contents files.old) (F.asked files.old) (F.asked files.new)
        (files_named 1048576 (option_copied name.entry)) result }
    ensures failed { IsErrOf result FileFault.Failed
        → Rose (F.faults files.old) (F.faults files.new) }
    ensures never_falls { F.faults files.old ≤ F.faults files.new }
    ensures contents { F.contents files.new ≡ F.contents files.old }
{
    match name {
        Some(name) => match load(alloc, name, SOURCE_LIMIT, files) {
            Ok(bytes) => Ok(Some(bytes)),
            Err(fault) => Err(fault),
        },
        None => Ok(None),
    }
}

/// The bytes of the input. Where it is not given there are none.
fn load_input<F: Files>(
    alloc: Global,
    name: Option<&str>,
    files: &mut F,
) -> Result<Vec<u8>, FileFault>
    ensures ok { IfOk result (λ input. IsInput (F.contents files.old) (option_copied name.entry) input.items) }
    ensures asks { Reads (F.contents files.old) (F.asked files.old) (F.asked files.new)
        (files_named 16777216 (option_copied name.entry)) result }
    ensures failed { IsErrOf result FileFault.Failed
        → Rose (F.faults files.old) (F.faults files.new) }
    ensures never_falls { F.faults files.old ≤ F.faults files.new }
    ensures contents { F.contents files.new ≡ F.contents files.old }
{
    match name {
        Some(name) => load(alloc, name, INPUT_LIMIT, files),
        None => Ok(Vec::new(alloc)),
    }
}

/// The bytes of a file.
pub(crate) fn load<F: Files>(
    alloc: Global,
    name: &str,
    limit: u64,
    files: &mut F,
) -> Result<Vec<u8>, FileFault>
    ensures ok { IfOk result (λ found. IsRead (F.contents files.old) (file_named limit name.now) found.items) }
    ensures asks { Reads (F.contents files.old) (F.asked files.old) (F.asked files.new)
        (file_named limit name.now ∷ []) result }
    ensures failed { IsErrOf result FileFault.Failed
        → Rose (F.faults files.old) (F.faults files.new) }
    ensures never_falls { F.faults files.old ≤ F.faults files.new }
    ensures contents { F.contents files.new ≡ F.contents files.old }
{
    read(alloc, name, limit, files)
}

/// The same, fact by fact.
fn read<F: Files>(
    alloc: Global,
    name: &str,
    limit: u64,
    files: &mut F,
) -> Result<Vec<u8>, FileFault>
    ensures told { IfOk result
        (λ found. IfSome (F.contents files.old name.now) (λ told. told ≡ found.items)) }
    ensures within { IfOk result (λ found. length found.items ≤ limit) }
    ensures too_long { IsErrOf result FileFault.TooLong
        → IfSome (F.contents files.old name.now) (λ told. limit < length told) }
    ensures failed { IsErrOf result FileFault.Failed
        → Rose (F.faults files.old) (F.faults files.new) }
    ensures never_falls { F.faults files.old ≤ F.faults files.new }
    ensures contents { F.contents files.new ≡ F.contents files.old }
    ensures asks { AsksFile result (F.asked files.old) (F.asked files.new) name.now }
{
    let mut found = Vec::new(alloc);
    files.read(alloc, name, &mut found, limit)?;
    Ok(found)
}
