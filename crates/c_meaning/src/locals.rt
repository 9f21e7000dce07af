ghost use Rattle.std.specs.Prelude.{◌≡◌, ◌<◌, ◌≤◌, All, length, replicate, slice_index, slice_set, IfOk};
ghost use Rattle.mid_code.specs.Fits.{IsValue};

use std::alloc::{AllocError, Global};
use std::marker::Model;

/// The locals of a function, by number: the value of one in a register, the address of one in memory.
#[derive(Drop)]
pub(crate) struct Locals {
    items: Vec<u64>,
}

impl Model for Locals {
    ghost use Rattle.std.specs.Prelude.{ℕ, List, All};
    ghost use Rattle.mid_code.specs.Fits.{IsValue};

    ghost Value = { List ℕ };

    ghost view = { λ s. s.items.items };

    ghost invariant = { λ s. All IsValue s.items.items };
}

impl Locals {
    /// Those of these values.
    pub(crate) fn of(items: Vec<u64>) -> Self
        requires { All IsValue items.items }
        ensures { result ≡ items.items }
    {
        Locals { items }
    }

    /// So many, all of them 0.
    pub(crate) fn zeros(alloc: Global, count: usize) -> Result<Self, AllocError>
        ensures { IfOk result (λ locals. locals ≡ replicate count 0) }
    {
        Ok(Locals {
            items: vec![in alloc; 0; count]?,
        })
    }

    /// How many there are.
    pub(crate) fn len(&self) -> usize
        ensures { result ≡ length self.now }
    {
        self.items.len()
    }

    /// A local; 0 where it is not there.
    pub(crate) fn get(&self, number: usize) -> u64
        ensures value { result ≡ slice_index self.now number }
        ensures small { IsValue result }
    {
        self.items.get(number).copied().unwrap_or(0)
    }

    /// A local takes a value, if it is there.
    pub(crate) fn set(&mut self, number: usize, value: u64)
        requires { IsValue value }
        ensures { self.new ≡ slice_set self.old number value }
    {
        if let Some(local) = self.items.get_mut(number) {
            *local = value;
        }
    }
}
