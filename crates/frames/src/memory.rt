ghost use Rattle.std.specs.Prelude.{◌≡◌, ◌≢◌, ℕ, ◌^◌, ◌<◌, ◌≤◌, length, Ok, Err, IfOk, IfErr, OnOk, OnErr};
ghost use Rattle.srmt_base.specs.declared.trap.Trap.{Trap as AnyTrap};
ghost use Rattle.srmt_base.specs.Memory.{read_of, write_of, last_number as last_of, begin_in as begun_in, begin_of, finish_of, next_number, objects_of};
ghost use Rattle.mid_code.specs.Fits.{IsValue};

use cell_store::Store;
use srmt_base::{Part, Trap};
use std::marker::Model;
use std::mem;

/// The first number of an object of the binary part.
const BINARY: u32 = 134_217_728;

/// The memory of a program: the objects of both parts.
#[derive(Debug, Drop)]
pub struct Memory {
    protected: Store,
    binary: Store,
}

impl Model for Memory {
    ghost use Rattle.srmt_base.specs.Memory.{Memory};

    ghost Value = { Memory };

    ghost view = { λ s. record { protected = s.protected; binary = s.binary } };
}

impl Memory {
    /// The memory of these objects.
    pub fn new(protected: Store, binary: Store) -> Self
        ensures { result ≡ record { protected = protected; binary = binary } }
    {
        Memory { protected, binary }
    }

    /// The value of a cell.
    #[inline(always)]
    pub fn load(&self, pointer: u64) -> Result<u64, Trap>
        ensures value { result ≡ read_of self.now pointer }
        ensures small { IfOk result IsValue }
    {
        if pointer / 65536 < u64::from(BINARY) {
            self.protected.load(pointer)
        } else {
            self.binary.load(pointer)
        }
    }

    /// Writes a cell.
    #[inline(always)]
    pub fn put(&mut self, pointer: u64, value: u64) -> Result<(), Trap>
        requires { IsValue value }
        ensures ok { OnOk result (write_of self.old pointer value ≡ Ok self.new) }
        ensures trap { IfErr result (λ trap. write_of self.old pointer value ≡ Err trap) }
        ensures err { OnErr result (self.new ≡ self.old) }
    {
        if pointer / 65536 < u64::from(BINARY) {
            self.protected.put(pointer, value)
        } else {
            self.binary.put(pointer, value)
        }
    }

    /// Whether a write to a cell would be made, or the trap that it would give.
    pub fn may_put(&self, pointer: u64) -> Result<(), Trap>
        ensures trap { IfErr result (λ trap. (value : ℕ) → write_of self.now pointer value ≡ Err trap) }
        ensures ok { OnOk result ((value : ℕ) → (trap : AnyTrap) → write_of self.now pointer value ≢ Err trap) }
    {
        if pointer / 65536 < u64::from(BINARY) {
            self.protected.may_put(pointer)
        } else {
            self.binary.may_put(pointer)
        }
    }

    /// Begins an object of zeros in a part, and gives its number.
    pub fn begin(&mut self, part: Part, cells: u16) -> Result<u32, Trap>
        requires { 1 ≤ cells }
        ensures ok { OnOk result (begin_of part self.old cells ≡ Ok self.new) }
        ensures number { IfOk result (λ number. number ≡ next_number part self.old) }
        ensures bounded { IfOk result (λ number. number < 2 ^ 28) }
        ensures trap { IfErr result (λ trap. begin_of part self.old cells ≡ Err trap) }
        ensures err { OnErr result (self.new ≡ self.old) }

        // Each object has a cell, and each part at most 1,048,576.
        ensures few { OnOk result (length (objects_of part self.old).live < 1048576) }
    {
        match part {
            Part::Protected => begin_in(&mut self.protected, part, cells),
            Part::Binary => begin_in(&mut self.binary, part, cells),
        }
    }

    /// Exchanges the objects of both parts for others.
    pub fn exchange(&mut self, protected: &mut Store, binary: &mut Store)
        ensures memory { self.new ≡ record { protected = protected.old; binary = binary.old } }
        ensures protected { protected.new ≡ self.old.protected }
        ensures binary { binary.new ≡ self.old.binary }
    {
        mem::swap(&mut self.protected, protected);
        mem::swap(&mut self.binary, binary);
    }

    /// Ends the object of a number.
    pub fn end(&mut self, number: u32)
        ensures { self.new ≡ finish_of self.old number }
    {
        if number < BINARY {
            self.protected.end(number);
        } else {
            self.binary.end(number);
        }
    }
}

/// The last number of an object of a part.
fn last_number(part: Part) -> u64
    ensures { result ≡ last_of part }
{
    match part {
        Part::Protected => u64::from(BINARY) - 1,
        Part::Binary => 2 * u64::from(BINARY) - 1,
    }
}

/// Begins an object of zeros in a part by itself, and gives its number.
fn begin_in(store: &mut Store, part: Part, cells: u16) -> Result<u32, Trap>
    requires { 1 ≤ cells }
    ensures ok { OnOk result (begun_in part store.old cells ≡ Ok store.new) }
    ensures number { IfOk result (λ number. number ≡ store.old.fresh) }
    ensures bounded { IfOk result (λ number. number < 2 ^ 28) }
    ensures trap { IfErr result (λ trap. begun_in part store.old cells ≡ Err trap) }
    ensures err { OnErr result (store.new ≡ store.old) }
    ensures few { OnOk result (length store.old.live < 1048576) }
{
    let _budget = store.budget();
    let fresh = store.fresh();
    if last_number(part) < fresh {
        return Err(Trap::Store);
    }
    let number = fresh as u32;
    store.add(number, cells, false)?;
    Ok(number)
}
