/// One of the two threads that run a program.
#[derive(Clone, Copy, Debug, PartialEq, Eq)]
pub enum Side {
    /// The leading thread, which alone performs each access to the outside.
    Lead,
    /// The trailing thread, which repeats the computation and compares.
    Trail,
}
