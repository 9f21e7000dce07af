ghost use Rattle.std.specs.Prelude.{◌≡◌, ◌∷◌, [], drop, OnOk, IfOk};
ghost use Rattle.mid_code.specs.Fits.{IsValue};
ghost use Rattle.c_meaning.specs.Pending.{top_of, below, last_values};

use crate::locals::Locals;
use std::alloc::{AllocError, Global};
use std::marker::Model;

/// The stack of the values of operands, the last first.
#[derive(Drop)]
pub(crate) struct Values {
    items: Vec<u64>,
}

impl Model for Values {
    ghost use Rattle.std.specs.Prelude.{ℕ, List, reverse, All};
    ghost use Rattle.mid_code.specs.Fits.{IsValue};

    ghost Value = { List ℕ };

    ghost view = { λ s. reverse s.items.items };

    ghost invariant = { λ s. All IsValue s.items.items };
}

impl Values {
    /// No value.
    pub(crate) fn new(alloc: Global) -> Self
        ensures { result ≡ [] }
    {
        Values {
            items: Vec::new(alloc),
        }
    }

    /// A value comes first.
    pub(crate) fn push(&mut self, value: u64) -> Result<(), AllocError>
        requires { IsValue value }
        ensures { OnOk result (self.new ≡ value ∷ self.old) }
    {
        self.items.push(value)?;
        Ok(())
    }

    /// The first value is taken; it is 0 where there is none.
    pub(crate) fn take(&mut self) -> u64
        ensures value { result ≡ top_of self.old }
        ensures small { IsValue result }
        ensures rest { self.new ≡ below self.old }
    {
        self.items.pop().unwrap_or(0)
    }

    /// The first value, which stays.
    pub(crate) fn top(&self) -> u64
        ensures value { result ≡ top_of self.now }
        ensures small { IsValue result }
    {
        self.items.last().copied().unwrap_or(0)
    }

    /// So many values are taken, in the order in which they were put there.
    pub(crate) fn take_last(&mut self, count: usize) -> Result<Locals, AllocError>
        ensures values { IfOk result (λ values. values ≡ last_values count self.old) }
        ensures rest { OnOk result (self.new ≡ drop count self.old) }
    {
        let at = self.items.len().saturating_sub(count);
        let taken = self.items.split_off(at)?;
        Ok(Locals::of(taken))
    }
}
