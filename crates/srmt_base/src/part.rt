/// The two parts of a program. Each has its own functions, objects and budgets.
#[derive(Clone, Copy, Debug, PartialEq, Eq)]
pub enum Part {
    /// What the main file defines.
    Protected,
    /// What the binary file defines.
    Binary,
}
