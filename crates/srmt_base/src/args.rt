ghost use Rattle.std.specs.Prelude.{◌≡◌, ℕ, ◌≤◌, length, slice_index};

/// Up to 16 arguments of a call.
#[derive(Clone, Copy, Debug, PartialEq, Eq)]
pub struct Args {
    /// How many there are, at most 16.
    pub count: u8,
    /// The arguments, and 0 past them.
    pub values: [u64; 16],
    pub ghost room: { length values ≡ 16 },
    pub ghost within: { count ≤ 16 },
    pub ghost rest: { (k : ℕ) → count ≤ k → slice_index values k ≡ 0 },
}

impl Args {
    ghost use Rattle.std.specs.Prelude.{◌≡◌, ◌+◌, ◌<◌, ◌↔◌, [], ◌∷◌, ◌++◌, IsTrue, length, slice_get};
    ghost use Rattle.srmt_base.specs.Args.{args_list};

    /// No arguments.
    pub fn new() -> Self
        ensures { args_list result ≡ [] }
    {
        Args {
            count: 0,
            values: [0; 16],
        }
    }

    pub fn len(&self) -> usize
        ensures { result ≡ length (args_list self.now) }
    {
        usize::from(self.count)
    }

    pub fn is_empty(&self) -> bool
        ensures { IsTrue result ↔ (args_list self.now ≡ []) }
    {
        self.count == 0
    }

    pub fn is_full(&self) -> bool
        ensures { IsTrue result ↔ (length (args_list self.now) ≡ 16) }
    {
        self.count == 16
    }

    /// The arguments in their order.
    pub fn as_slice(&self) -> &[u64]
        ensures { result.now ≡ args_list self.now }
    {
        &self.values[..usize::from(self.count)]
    }

    /// The argument at an index, or `None` past the last.
    pub fn get(&self, index: usize) -> Option<u64>
        ensures { result ≡ slice_get (args_list self.now) index }
    {
        self.as_slice().get(index).copied()
    }

    /// Appends an argument.
    pub fn push(&mut self, value: u64)
        requires { length (args_list self.old) < 16 }
        ensures { args_list self.new ≡ args_list self.old ++ value ∷ [] }
    {
        self.values[usize::from(self.count)] = value;
        self.count += 1;
    }
}
