use crate::declaration::Declaration;
use crate::expression::Declarator;
use crate::specifier::Specifier;
use crate::statement::Block;
use sqlite_items::{Boxed, Items};

/// A translation unit (C11 6.9).
#[derive(Drop)]
pub struct Unit {
    pub externals: Items<External>,
}

/// An external declaration (C11 6.9).
#[derive(Drop)]
pub enum External {
    Function(Boxed<FunctionDefinition>),
    Declaration(Boxed<Declaration>),
}

/// The definition of a function (C11 6.9.1).
#[derive(Drop)]
pub struct FunctionDefinition {
    /// The line of its first specifier.
    pub line: u32,
    /// At least one.
    pub specifiers: Items<Specifier>,
    pub declarator: Declarator,
    pub body: Block,
}
