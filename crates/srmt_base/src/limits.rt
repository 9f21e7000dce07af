/// The budgets of a run. Protected and binary functions have separate ones of equal size.
#[derive(Clone, Copy, Debug, PartialEq, Eq)]
pub struct Limits {
    /// Turns: activations, and arrivals at the top of a loop. 1 to 10^12.
    pub turns: u64,
    /// Live activations. 1 to 1,000.
    pub depth: u32,
    /// Cells of live static and placed objects. At most 1,048,576.
    pub cells: u32,
}
