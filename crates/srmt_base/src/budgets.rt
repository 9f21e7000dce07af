ghost use Rattle.std.specs.Prelude.{◌≡◌, ◌<◌, ◌-◌, ◌^◌};
ghost use Rattle.srmt_base.specs.Budgets.{after_turn, after_entry, after_leave, budget_of, with_budget, full_budgets};

use crate::limits::Limits;
use crate::part::Part;
use crate::trap::Trap;

/// What is left to the functions of one part.
#[derive(Clone, Copy, Debug, PartialEq, Eq)]
pub struct Budget {
    /// Turns: activations, and arrivals at the top of a loop.
    pub turns: u64,
    /// How many more activations may live.
    pub depth: u32,
}

/// What is left to both parts.
#[derive(Clone, Copy, Debug, PartialEq, Eq)]
pub struct Budgets {
    pub protected: Budget,
    pub binary: Budget,
}

impl Budget {
    /// After a turn, or `Turns` where none is left.
    pub fn count_turn(self) -> Result<Self, Trap>
        ensures { result ≡ after_turn self }
    {
        if self.turns == 0 {
            return Err(Trap::Turns);
        }
        Ok(Budget {
            turns: self.turns - 1,
            depth: self.depth,
        })
    }

    /// After the entry of a function, or `Depth`, or else `Turns`, where none is left.
    pub fn enter(self) -> Result<Self, Trap>
        ensures { result ≡ after_entry self }
    {
        if self.depth == 0 {
            Err(Trap::Depth)
        } else if self.turns == 0 {
            Err(Trap::Turns)
        } else {
            Ok(Budget {
                turns: self.turns - 1,
                depth: self.depth - 1,
            })
        }
    }

    /// After a function was left.
    pub fn leave(self) -> Self
        requires room { self.depth < 2 ^ 32 - 1 }
        ensures { result ≡ after_leave self }
    {
        Budget {
            turns: self.turns,
            depth: self.depth + 1,
        }
    }
}

impl Budgets {
    /// All that the limits allow.
    pub fn full(limits: Limits) -> Self
        ensures { result ≡ full_budgets limits }
    {
        let full = Budget {
            turns: limits.turns,
            depth: limits.depth,
        };
        Budgets {
            protected: full,
            binary: full,
        }
    }

    /// What is left to a part.
    pub fn of(self, part: Part) -> Budget
        ensures { result ≡ budget_of part self }
    {
        match part {
            Part::Protected => self.protected,
            Part::Binary => self.binary,
        }
    }

    /// The same with another budget of a part.
    pub fn with(self, part: Part, budget: Budget) -> Self
        ensures { result ≡ with_budget part budget self }
    {
        match part {
            Part::Protected => Budgets {
                protected: budget,
                binary: self.binary,
            },
            Part::Binary => Budgets {
                protected: self.protected,
                binary: budget,
            },
        }
    }
}
