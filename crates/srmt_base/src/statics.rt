use sqlite_items::Items;

/// An object of static storage duration (C11 6.2.4p3) with its contents before `main` is called.
#[derive(Debug, Drop)]
pub struct Static {
    /// How many cells it has, from 1.
    pub cells: u16,
    /// Whether it is a string literal or `const`.
    pub read_only: bool,
    /// The contents of its first cells, the last of them not 0. All further cells hold 0.
    pub values: Items<u64>,
}
