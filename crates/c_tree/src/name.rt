use sqlite_items::Items;

/// An identifier where it is declared (C11 6.4.2.1).
#[derive(Debug, Drop)]
pub struct Name {
    pub line: u32,
    /// Its bytes, at least one.
    pub bytes: Items<u8>,
}
