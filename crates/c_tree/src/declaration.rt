use crate::expression::{Declarator, Expr};
use crate::specifier::Specifier;
use sqlite_items::{Boxed, Items};

/// A declaration (C11 6.7).
#[derive(Drop)]
pub struct Declaration {
    /// The line of its first specifier.
    pub line: u32,
    /// At least one.
    pub specifiers: Items<Specifier>,
    /// At least one.
    pub items: Items<Item>,
}

/// What a declaration declares, with its initializer (C11 6.7).
#[derive(Drop)]
pub struct Item {
    pub declarator: Declarator,
    pub initializer: Option<Initializer>,
}

/// An initializer (C11 6.7.9).
#[derive(Drop)]
pub enum Initializer {
    Value(Boxed<Expr>),
    /// The line of the `{`, and at least one initializer.
    List(u32, Items<Initializer>),
}
