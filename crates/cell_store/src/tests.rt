ghost use Rattle.std.specs.Prelude.{◌≡◌, ℕ, ◌+◌, ◌<◌, ◌≤◌, length, IfOk};

use crate::{PlainStore, Steps, Store};
use srmt_base::Trap;
use std::alloc::{AllocError, Global};
use std::marker::Brand;
use std::process::Abort;
use std::sync::ledger::{Blank, Ledger};
use std::test::Fail;

/// A call of a store. An access names the object and the offset of its pointer.
#[derive(Clone, Copy)]
enum Call {
    Add(u32, u16, bool),
    Load(u32, u16),
    Put(u32, u16, u32),
    SetUp(u32, u16, u32),
    End(u32),
}

use Call::{Add, End, Load, Put, SetUp};

/// Calls of a store of 10 cells and of the numbers from 5 on, each with its answer: the value of a
/// `Load`, 1 or 0 for the answer of an `End`, and otherwise 0.
const CALLS: [(Call, Result<u64, Trap>); 44] = [
    // Nothing lives yet, and no number below 5 ever will.
    (Load(0, 0), Err(Trap::NullPointer)),
    (Load(0, 7), Err(Trap::NullPointer)),
    (Put(0, 0, 1), Err(Trap::NullPointer)),
    (Load(5, 0), Err(Trap::DeadObject)),
    (Add(4, 1, false), Err(Trap::Store)),
    // An object of zeros, up to its length.
    (Add(5, 3, false), Ok(0)),
    (Load(5, 2), Ok(0)),
    (Load(5, 3), Err(Trap::OutsideObject)),
    (Put(5, 2, 77), Ok(0)),
    (Load(5, 2), Ok(77)),
    (Put(5, 3, 1), Err(Trap::OutsideObject)),
    (Add(5, 1, false), Err(Trap::Store)),
    // A string literal: `char *s = "a"; s[0] = 98;`.
    (Add(7, 2, true), Ok(0)),
    (SetUp(7, 0, 97), Ok(0)),
    (Put(7, 0, 98), Err(Trap::ReadOnly)),
    (Load(7, 0), Ok(97)),
    (Put(7, 2, 1), Err(Trap::OutsideObject)),
    (SetUp(7, 2, 1), Err(Trap::OutsideObject)),
    // A number below the newest, though it was never used.
    (Add(6, 1, false), Err(Trap::Store)),
    // The budget, one past it and exactly.
    (Add(8, 6, false), Err(Trap::Store)),
    (Add(8, 5, false), Ok(0)),
    (Put(8, 4, 4_294_967_295), Ok(0)),
    (Add(9, 1, false), Err(Trap::Store)),
    // The end of an object that is not the newest.
    (End(6), Ok(0)),
    (End(7), Ok(1)),
    (Load(7, 0), Err(Trap::DeadObject)),
    (Put(7, 0, 1), Err(Trap::DeadObject)),
    (Load(5, 2), Ok(77)),
    (Load(8, 4), Ok(4_294_967_295)),
    (Load(8, 5), Err(Trap::OutsideObject)),
    (End(7), Ok(0)),
    (Add(7, 1, false), Err(Trap::Store)),
    // A new object is of zeros, wherever its cells are.
    (Add(9, 2, false), Ok(0)),
    (Load(9, 1), Ok(0)),
    // The end of the newest, and of all.
    (End(9), Ok(1)),
    (Load(8, 4), Ok(4_294_967_295)),
    (End(5), Ok(1)),
    (Load(8, 4), Ok(4_294_967_295)),
    (End(8), Ok(1)),
    (Load(8, 4), Err(Trap::DeadObject)),
    // The greatest number, over the whole budget.
    (Add(4_294_967_295, 10, false), Ok(0)),
    (Load(4_294_967_295, 9), Ok(0)),
    (Load(4_294_967_294, 9), Err(Trap::DeadObject)),
    (Add(4_294_967_295, 1, false), Err(Trap::Store)),
];

fn pointer(object: u32, offset: u16) -> u64 {
    u64::from(object) * 65536 + u64::from(offset)
}

fn answer(store: &mut Store, call: Call) -> Result<u64, Trap> {
    match call {
        Add(number, cells, read_only) => {
            store.add(number, cells.max(1), read_only)?;
            Ok(0)
        }
        Load(object, offset) => store.load(pointer(object, offset)),
        Put(object, offset, value) => {
            store.put(pointer(object, offset), u64::from(value))?;
            Ok(0)
        }
        SetUp(object, offset, value) => {
            store.set_up(pointer(object, offset), u64::from(value))?;
            Ok(0)
        }
        End(number) => Ok(u64::from(store.end(number))),
    }
}

fn plain_answer(
    store: &mut PlainStore,
    alloc: Global,
    call: Call,
) -> Result<Result<u64, Trap>, AllocError> {
    let answer = match call {
        Add(number, cells, read_only) => store.add(alloc, number, cells, read_only)?.map(|()| 0),
        Load(object, offset) => store.load(pointer(object, offset)),
        Put(object, offset, value) => {
            store
                .put(pointer(object, offset), u64::from(value))
                .map(|()| 0)
        }
        SetUp(object, offset, value) => {
            store
                .set_up(pointer(object, offset), u64::from(value))
                .map(|()| 0)
        }
        End(number) => Ok(u64::from(store.end(number))),
    };
    Ok(answer)
}

/// A value that may move to another thread.
fn movable<T: Send>(value: T) -> T {
    value
}

#[test]
fn both_stores_answer_as_the_list_does(rt: HostRuntime) -> Result<(), Fail> {
    let mut store = movable(Store::start(rt.alloc(), 10, 5)?);
    let mut plain = PlainStore::start(rt.alloc(), 10, 5);
    for (call, expected) in CALLS {
        assert_eq!(rt; answer(&mut store, call), expected);
        assert_eq!(rt; plain_answer(&mut plain, rt.alloc(), call)?, expected);
    }
    assert_eq!(rt; store.load(u64::MAX), Err(Trap::DeadObject));
    Ok(())
}

/// A store of 1,000 objects of one cell.
fn thousand(alloc: Global) -> Result<Store, Fail>
    ensures { IfOk result (λ store. length store.live ≡ 1000) }
{
    let mut store = Store::start(alloc, 1_000, 1)?;
    for place in 0..1_000 {
        store.add(place + 1, 1, false)?;
    }
    Ok(store)
}

/// Among 1,000 objects ten comparisons suffice.
fn find_in_thousand<L: Ledger>(store: &Store, number: u32, steps: &mut Steps<L>) -> Option<u32>
    requires { length store.now.live ≡ 1000 }
    ensures { steps.new ≤ steps.old + 10 }
{
    store.find(number, steps)
}

/// Finds each of them.
fn find_each<L: Ledger, A: Abort>(rt: &A, store: &Store, blank: Blank)
    requires live { length store.now.live ≡ 1000 }
    requires name { blank.name ≡ L.name }
    requires parts { blank.parts ≡ L.parts }
    requires some { 0 < blank.parts }
{
    let mut steps = Steps::<L>::new(blank);
    for place in 0..1_000 {
        assert_eq!(rt; find_in_thousand(store, place + 1, &mut steps), Some(place));
    }
    assert_eq!(rt; find_in_thousand(store, 1_001, &mut steps), None);
}

#[test]
fn a_thousand_objects_are_found_in_ten_steps(rt: HostRuntime) -> Result<(), Fail> {
    let store = thousand(rt.alloc())?;
    find_each::<Brand, HostRuntime>(&rt, &store, Blank::new(1));
    Ok(())
}
