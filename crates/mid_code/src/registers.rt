ghost use Rattle.std.specs.Prelude.{◌≡◌, ℕ, ◌≤◌, length, slice_index};

/// The registers that a call passes: up to 16 numbers of registers.
#[derive(Clone, Copy, Debug, PartialEq, Eq)]
pub struct Registers {
    /// How many there are, at most 16.
    pub count: u8,
    /// Their numbers, and 0 past them.
    pub numbers: [u16; 16],
    pub ghost room: { length numbers ≡ 16 },
    pub ghost within: { count ≤ 16 },
    pub ghost rest: { (k : ℕ) → count ≤ k → slice_index numbers k ≡ 0 },
}

impl Registers {
    ghost use Rattle.std.specs.Prelude.{◌≡◌, ◌+◌, ◌<◌, ◌↔◌, [], ◌∷◌, ◌++◌, IsTrue, length, slice_get};
    ghost use Rattle.mid_code.specs.Registers.{registers_list};

    /// No registers.
    pub fn new() -> Self
        ensures { registers_list result ≡ [] }
    {
        Registers {
            count: 0,
            numbers: [0; 16],
        }
    }

    pub fn len(&self) -> usize
        ensures { result ≡ length (registers_list self.now) }
    {
        usize::from(self.count)
    }

    pub fn is_empty(&self) -> bool
        ensures { IsTrue result ↔ (registers_list self.now ≡ []) }
    {
        self.count == 0
    }

    pub fn is_full(&self) -> bool
        ensures { IsTrue result ↔ (length (registers_list self.now) ≡ 16) }
    {
        self.count == 16
    }

    /// The numbers in their order.
    pub fn as_slice(&self) -> &[u16]
        ensures { result.now ≡ registers_list self.now }
    {
        &self.numbers[..usize::from(self.count)]
    }

    /// The register at an index, or `None` past the last.
    pub fn get(&self, index: usize) -> Option<u16>
        ensures { result ≡ slice_get (registers_list self.now) index }
    {
        self.as_slice().get(index).copied()
    }

    /// Appends a register.
    pub fn push(&mut self, number: u16)
        requires { length (registers_list self.old) < 16 }
        ensures { registers_list self.new ≡ registers_list self.old ++ number ∷ [] }
    {
        self.numbers[usize::from(self.count)] = number;
        self.count += 1;
    }
}
