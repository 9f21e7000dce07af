ghost use Rattle.std.specs.Prelude.{◌≡◌, ℕ, ◌+◌, ◌-◌, ◌*◌, ◌^◌, ◌<◌, ◌≤◌, is_some, length, slice_get, All, IsFalse, IfSome, IfOk, IfErr, OnOk, OnErr};
ghost use Rattle.srmt_base.specs.Objects.{start_of, live_at, is_live, add_of, load_of, put_of, written, set_up_of, end_of};

use crate::Steps;
use crate::table::{Row, close_up, newest_or_place, place, reach, take_out};
use srmt_base::Trap;
use std::alloc::{AllocError, Global};
use std::marker::Model;
use std::sync::ledger::Ledger;

/// One part of a program's memory.
#[derive(Debug, Drop)]
pub struct Store {
    budget: u32,
    fresh: u64,
    rows: Vec<Row>,
    cells: Vec<u64>,
}

impl Model for Store {
    ghost use Rattle.srmt_base.specs.Objects.{Objects};
    ghost use Rattle.std.specs.Prelude.{map, vec_capacity};
    ghost use Rattle.cell_store.specs.Flat.{object_in, IsFlat};

    ghost Value = { Objects };

    ghost view = { λ s. record { budget = s.budget; fresh = s.fresh; live = map (object_in s.cells.items) s.rows.items } };

    ghost invariant = { λ s. IsFlat s.budget s.fresh s.rows.items s.cells.items (vec_capacity s.rows) (vec_capacity s.cells) };
}

impl Store {
    /// A store with no object, for a number of cells and for the numbers from `first` on. It takes
    /// the memory of all cells and of as many objects: 20 bytes a cell.
    pub fn start(alloc: Global, cells: u32, first: u32) -> Result<Self, AllocError>
        requires { cells ≤ 1048576 }
        ensures { IfOk result (λ store. store ≡ start_of cells first) }
    {
        Ok(Store {
            budget: cells,
            fresh: u64::from(first),
            rows: Vec::with_capacity(alloc, cells as usize)?,
            cells: Vec::with_capacity(alloc, cells as usize)?,
        })
    }

    /// How many cells may live.
    pub fn budget(&self) -> u32
        ensures budget { result ≡ self.now.budget }
        ensures bounded { result ≤ 1048576 }

        // Each object has a cell.
        ensures few { length self.now.live ≤ self.now.budget }

        // Each cell holds a number of 44 bits.
        ensures small { All (λ object. All (λ cell. cell < 2 ^ 44) object.cells) self.now.live }
    {
        self.budget
    }

    /// The least number that a new object may have.
    pub fn fresh(&self) -> u64
        ensures { result ≡ self.now.fresh }
    {
        self.fresh
    }

    /// Begins an object of zeros behind all others. The answer is `Store` exactly where the number is
    /// below `first` or not above each number added before, or where more cells than the store was
    /// started with would live.
    pub fn add(&mut self, number: u32, cells: u16, read_only: bool) -> Result<(), Trap>
        requires { 1 ≤ cells }
        ensures ok { OnOk result (add_of self.old number cells read_only ≡ Ok self.new) }
        ensures trap { IfErr result (λ trap. add_of self.old number cells read_only ≡ Err trap) }
        ensures err { OnErr result (self.new ≡ self.old) }

        // Each object has a cell.
        ensures few { OnOk result (length self.new.live ≤ self.new.budget) }
    {
        let used = self.cells.len();
        let room = self.budget as usize - used;
        if u64::from(number) < self.fresh || room < cells as usize {
            return Err(Trap::Store);
        }
        let row = Row {
            number,
            start: used as u32,
            cells,
            read_only,
        };
        let Ok(()) = self.rows.push(row) else {
            unreachable!();
        };
        let Ok(()) = self.cells.resize(used + cells as usize, 0) else {
            unreachable!();
        };
        self.fresh = u64::from(number) + 1;
        Ok(())
    }

    /// The value of a cell.
    pub fn load(&self, pointer: u64) -> Result<u64, Trap>
        ensures value { result ≡ load_of self.now pointer }
        ensures small { IfOk result (λ value. value < 2 ^ 44) }
    {
        let at = reach(&self.rows, pointer, false)?;
        Ok(self.cells[at])
    }

    /// Writes a cell.
    pub fn put(&mut self, pointer: u64, value: u64) -> Result<(), Trap>
        requires { value < 2 ^ 44 }
        ensures ok { OnOk result (put_of self.old pointer value ≡ Ok self.new) }
        ensures trap { IfErr result (λ trap. put_of self.old pointer value ≡ Err trap) }
        ensures err { OnErr result (self.new ≡ self.old) }
    {
        let at = reach(&self.rows, pointer, true)?;
        self.cells[at] = value;
        Ok(())
    }

    /// Whether a write to a cell would be made, or the trap that it would give.
    pub fn may_put(&self, pointer: u64) -> Result<(), Trap>
        ensures ok { OnOk result ((value : ℕ) → put_of self.now pointer value ≡ Ok (written self.now pointer value)) }
        ensures trap { IfErr result (λ trap. (value : ℕ) → put_of self.now pointer value ≡ Err trap) }
    {
        let _at = reach(&self.rows, pointer, true)?;
        Ok(())
    }

    /// Gives a cell its starting value, also in an object that may only be read.
    pub fn set_up(&mut self, pointer: u64, value: u64) -> Result<(), Trap>
        requires { value < 2 ^ 44 }
        ensures ok { OnOk result (set_up_of self.old pointer value ≡ Ok self.new) }
        ensures trap { IfErr result (λ trap. set_up_of self.old pointer value ≡ Err trap) }
        ensures err { OnErr result (self.new ≡ self.old) }
    {
        let at = reach(&self.rows, pointer, false)?;
        self.cells[at] = value;
        Ok(())
    }

    /// Ends a live object, and answers whether there was one. What is behind it closes up.
    pub fn end(&mut self, number: u32) -> bool
        ensures live { result ≡ is_live self.old number }
        ensures ended { self.new ≡ end_of self.old number }
        ensures unchanged { IsFalse result → self.new ≡ self.old }
        ensures one { length self.old.live ≤ length self.new.live + 1 }
    {
        let Some(at) = newest_or_place(&self.rows, u64::from(number)) else {
            return false;
        };
        let row = take_out(&mut self.rows, at);
        close_up(&mut self.cells, row.start as usize, row.cells as usize);
        true
    }

    /// The place of a live object among the live ones in order of number, from 0. A step is one
    /// comparison of the number with that of a live object.
    pub fn find<L: Ledger>(&self, number: u32, steps: &mut Steps<L>) -> Option<u32>
        ensures live { is_some result ≡ is_live self.now number }
        ensures found { IfSome result (λ place. slice_get self.now.live place ≡ live_at self.now number) }
        ensures counted { steps.old ≤ steps.new }
        ensures cost { 2 ^ (steps.new - steps.old) ≤ 2 * length self.now.live + 1 }
    {
        let at = place(&self.rows, u64::from(number), steps)?;
        Some(at as u32)
    }
}
