//! The lines of the grammar that lead back to expressions and declarators, which two functions read.

ghost use Rattle.std.specs.Prelude.{◌≡◌};

use crate::fault::Fault;
use crate::start::{Naming, Start};
use c_lexer::Token;
use c_tree::{Declarator, Expr};
use sqlite_items::Boxed;
use std::alloc::Global;

/// The lines of the grammar, with the two functions that they lead back to.
#[derive(Drop)]
pub struct Grammar<'s, E, D> {
    pub alloc: Global,
    pub src: &'s [u8],
    /// How often the two functions may still lead back to themselves.
    pub depth: usize,
    pub expr: E,
    pub declarator: D,
}

impl<'s, E, D> Grammar<'s, E, D>
where
    E: Fn(Start, &[Token]) -> Result<(Boxed<Expr>, &[Token]), Fault>,
    D: Fn(Naming, &[Token]) -> Result<(Declarator, &[Token]), Fault>,
{
    pub fn new(
        alloc: Global,
        src: &'s [u8],
        depth: usize,
        expr: E,
        declarator: D,
    ) -> Grammar<'s, E, D>
        ensures src { result.src.now ≡ src.entry.now }
        ensures depth { result.depth ≡ depth }
        ensures expr { result.expr ≡ expr }
        ensures declarator { result.declarator ≡ declarator }
    {
        Grammar {
            alloc,
            src,
            depth,
            expr,
            declarator,
        }
    }
}
