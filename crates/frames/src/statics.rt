ghost use Rattle.std.specs.Prelude.{◌≡◌, ℕ, ◌+◌, ◌^◌, ◌<◌, ◌≤◌, ◌++◌, ◌∷◌, [], length, IfOk, All};
ghost use Rattle.srmt_base.specs.Objects.{live_cells};
ghost use Rattle.srmt_base.specs.Memory.{first_number as first_of};
ghost use Rattle.srmt_base.specs.Statics.{static_cells, started_objects};
ghost use Rattle.frames.specs.Statics.{IsSound, with_static};

use cell_store::Store;
use srmt_base::{Part, Static};
use std::alloc::{AllocError, Global};

/// A part of memory as it is at the start: its static objects, numbered in their order, with their
/// contents.
pub fn begin_statics(
    alloc: Global,
    statics: &[Static],
    cells: u32,
    part: Part,
) -> Result<Store, AllocError>
    requires few { cells ≤ 1048576 }
    requires room { static_cells statics.now ≤ cells }
    requires sound { All IsSound statics.now }
    ensures { IfOk result (λ store. store ≡ started_objects part statics.now cells) }
{
    let first = first_number(part);
    let mut store = Store::start(alloc, cells, first)?;
    for (before, object) in statics.iter().enumerate() {
        begin_static(&mut store, first + before as u32, object);
    }
    Ok(store)
}

/// The first number of an object of a part.
fn first_number(part: Part) -> u32
    ensures is { result ≡ first_of part }
    ensures some { 1 ≤ result }
    ensures small { result < 2 ^ 28 }
{
    match part {
        Part::Protected => 1,
        Part::Binary => 134_217_728,
    }
}

/// Begins a static object behind all others, with its contents.
fn begin_static(store: &mut Store, number: u32, object: &Static)
    requires number { number ≡ store.old.fresh }
    requires some { 1 ≤ number }
    requires others { All (λ other. other.number < number) store.old.live }
    requires sound { IsSound object.now }
    requires room { live_cells store.old + object.now.cells ≤ store.old.budget }
    ensures { store.new ≡ with_static store.old number object.now (length object.now.values) }
{
    let Ok(()) = store.add(number, object.cells, object.read_only) else {
        unreachable!();
    };
    let start = u64::from(number) * 65536;
    for (offset, value) in object.values.as_slice().iter().enumerate() {
        let Ok(()) = store.set_up(start + offset as u64, *value) else {
            unreachable!();
        };
    }
}
