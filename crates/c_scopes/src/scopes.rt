ghost use Rattle.std.specs.Prelude.{◌≡◌, ◌<◌, ◌^◌, length, true, false, [], ◌∷◌, slice_index_or, IfOk, OnOk, OnErr};
ghost use Rattle.c_scopes.specs.Scopes.{meaning_of, with_meaning, innermost, outer_scopes, ShrinksBy};
ghost use Rattle.c_scopes.specs.Log.{names_of, IsNamed};
ghost use Rattle.indexmap.specs.IndexMap.{index_map_len};

use indexmap::IndexMap;
use std::alloc::{AllocError, Global};
use std::marker::Model;

/// A declaration: the number of its name, what that means by it, and what it meant before.
#[derive(Clone, Copy)]
struct Change<M: Copy> {
    name: usize,
    meaning: M,
    before: Option<M>,
}

/// An entry of the log.
#[derive(Clone, Copy)]
enum Entry<M: Copy> {
    /// A scope begins.
    Begin,
    /// A name is declared in the innermost scope.
    Declared(Change<M>),
}

/// The scopes at a place of a program, and what each name means there.
#[derive(Drop)]
pub(crate) struct Scopes<M: Copy> {
    /// What each name means now.
    names: IndexMap<Vec<u8>, Option<M>>,
    log: Vec<Entry<M>>,
}

impl<M: Copy> Model for Scopes<M> {
    ghost use Rattle.std.specs.Prelude.{ℕ, List};

    ghost Value = { List (List (List ℕ × M)) };

    ghost use Rattle.c_scopes.specs.Log.{names_of, meanings_of, scopes_of, LeadsBack};

    ghost view = { λ s. scopes_of (names_of s.names.entries) s.log.items };

    ghost invariant = { λ s. LeadsBack (names_of s.names.entries) (meanings_of s.names.entries) s.log.items };
}

impl<M: Copy> Scopes<M> {
    /// No scope.
    pub fn new(alloc: Global) -> Self
        ensures { result ≡ [] }
    {
        Scopes {
            names: IndexMap::new(alloc),
            log: Vec::new(alloc),
        }
    }

    /// What a name means, if it is declared.
    pub fn lookup(&self, name: &[u8]) -> Option<M>
        ensures { result ≡ meaning_of name.now self.now }
    {
        let meaning = self.names.get(name)?;
        *meaning
    }

    /// Begins a scope.
    pub fn open(&mut self) -> Result<(), AllocError>
        ensures opened { OnOk result (self.new ≡ [] ∷ self.old) }
        ensures few { OnOk result (length self.new < 2 ^ 63) }
        ensures kept { OnErr result (self.new ≡ self.old) }
    {
        self.log.push(Entry::Begin)?;
        Ok(())
    }

    /// The number of a name, which is added where it is new.
    fn number(
        names: &mut IndexMap<Vec<u8>, Option<M>>,
        alloc: Global,
        name: &[u8],
    ) -> Result<usize, AllocError>
        ensures within { IfOk result (λ n. n < index_map_len names.new) }
        ensures found { IfOk result (λ n. slice_index_or (names_of names.new.entries) n [] ≡ name.now) }
        ensures grown { OnOk result (IsNamed names.old.entries names.new.entries name.now) }
        ensures kept { OnErr result (names.new.entries ≡ names.old.entries) }
    {
        if let Some(number) = names.get_index_of(name) {
            return Ok(number);
        }
        let key = name.to_vec(alloc)?;
        let number = names.len();
        names.insert(key, None)?;
        Ok(number)
    }

    /// Declares a name in the innermost scope, if there is one.
    pub fn declare(&mut self, alloc: Global, name: &[u8], meaning: M) -> Result<(), AllocError>
        ensures declared { OnOk result (self.new ≡ with_meaning name.now meaning self.old) }
        ensures kept { OnErr result (self.new ≡ self.old) }
    {
        if self.log.as_slice().is_empty() {
            return Ok(());
        }
        let name = Self::number(&mut self.names, alloc, name)?;
        let before = self.names[name];
        self.log.push(Entry::Declared(Change {
            name,
            meaning,
            before,
        }))?;
        self.names[name] = Some(meaning);
        Ok(())
    }

    /// Takes the newest declaration of the innermost scope back, or ends the scope where it has none.
    fn undo(&mut self) -> bool
        ensures undone { result ≡ true → ShrinksBy self.old self.new }
        ensures ended { result ≡ false → (innermost self.old ≡ []) × (self.new ≡ outer_scopes self.old) }
    {
        match self.log.pop() {
            None => false,
            Some(Entry::Begin) => false,
            Some(Entry::Declared(change)) => {
                self.names[change.name] = change.before;
                true
            }
        }
    }

    /// Ends the innermost scope: its names mean what they meant before it.
    pub fn close(&mut self)
        ensures { self.new ≡ outer_scopes self.old }
    {
        while self.undo() {}
    }
}
