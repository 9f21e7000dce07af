ghost use Rattle.std.specs.Prelude.{◌≡◌, [], ◌∷◌, OnOk, OnErr};
ghost use Rattle.c_scopes.specs.Scopes.{found_in, meaning_of, with_meaning, innermost, outer_scopes};

use crate::scopes::Scopes;
use std::alloc::{AllocError, Global};
use std::marker::Model;

/// What a name means, and in how many scopes its declaration stands.
#[derive(Clone, Copy)]
struct Located<M: Copy> {
    meaning: M,
    depth: usize,
}

/// The scopes at a place of a program (C11 6.2.1), the innermost first: what a name means there, and whether it is
/// declared in the innermost one.
#[derive(Drop)]
pub struct Blocks<M: Copy> {
    scopes: Scopes<Located<M>>,
    depth: usize,
}

impl<M: Copy> Model for Blocks<M> {
    ghost use Rattle.std.specs.Prelude.{ℕ, List};

    ghost Value = { List (List (List ℕ × M)) };

    ghost use Rattle.c_scopes.specs.Depths.{meanings_in, AreLocated};

    ghost view = { λ b. meanings_in b.scopes };

    ghost invariant = { λ b. AreLocated b.depth b.scopes };
}

impl<M: Copy> Blocks<M> {
    /// No scope.
    pub fn new(alloc: Global) -> Self
        ensures { result ≡ [] }
    {
        Blocks {
            scopes: Scopes::new(alloc),
            depth: 0,
        }
    }

    /// What a name means, if it is declared.
    pub fn lookup(&self, name: &[u8]) -> Option<M>
        ensures { result ≡ meaning_of name.now self.now }
    {
        match self.scopes.lookup(name) {
            None => None,
            Some(found) => Some(found.meaning),
        }
    }

    /// What a name means by a declaration in the innermost scope, if it has one there.
    pub fn lookup_here(&self, name: &[u8]) -> Option<M>
        ensures { result ≡ found_in name.now (innermost self.now) }
    {
        match self.scopes.lookup(name) {
            None => None,
            Some(found) => {
                if found.depth == self.depth {
                    Some(found.meaning)
                } else {
                    None
                }
            }
        }
    }

    /// Begins a scope.
    pub fn open(&mut self) -> Result<(), AllocError>
        ensures opened { OnOk result (self.new ≡ [] ∷ self.old) }
        ensures kept { OnErr result (self.new ≡ self.old) }
    {
        self.scopes.open()?;
        self.depth += 1;
        Ok(())
    }

    /// Declares a name in the innermost scope, if there is one.
    pub fn declare(&mut self, alloc: Global, name: &[u8], meaning: M) -> Result<(), AllocError>
        ensures declared { OnOk result (self.new ≡ with_meaning name.now meaning self.old) }
        ensures kept { OnErr result (self.new ≡ self.old) }
    {
        let depth = self.depth;
        self.scopes.declare(alloc, name, Located { meaning, depth })
    }

    /// Ends the innermost scope: its names mean what they meant before it.
    pub fn close(&mut self)
        ensures { self.new ≡ outer_scopes self.old }
    {
        self.scopes.close();
        self.depth = self.depth.saturating_sub(1);
    }
}
