use srmt_base::Side;

/// What an upset replaces.
#[derive(Clone, Copy, Debug, PartialEq, Eq)]
pub enum Target {
    /// A register of a live activation: the activation's depth, 1 to 2,000, which is 1 for `main`, and the register's
    /// number, 0 to 1,023.
    Register(u32, u16),
    /// A cell of an object that is the side's own, by its pointer, which is below 2^44.
    Cell(u64),
}

/// A value that takes the place of another, in one side and just before one of its steps.
#[derive(Clone, Copy, Debug, PartialEq, Eq)]
pub struct Upset {
    pub side: Side,
    /// The step of the side before which it strikes, 1 to 2^63 - 1; the first step is 1.
    pub step: u64,
    pub target: Target,
    /// The new value, below 2^44.
    pub value: u64,
}
