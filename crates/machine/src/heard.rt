ghost use Rattle.std.specs.Prelude.{◌≡◌, ◌<◌, [], ◌∷◌, ◌++◌, length};

use srmt_base::{Kind, Site, Word, pack};
use std::marker::Model;

/// The acknowledgements that a side has taken so far where it awaits them: at most 17, one for the
/// function and 16 for the arguments of a call.
#[derive(Debug, Drop)]
pub struct Heard {
    row: [Word; 17],
    count: u8,
}

impl Model for Heard {
    ghost use Rattle.std.specs.Prelude.{ℕ, ◌≤◌, List, take};

    ghost Value = { List ℕ };

    ghost view = { λ h. take h.count h.row };

    ghost invariant = { λ h. h.count ≤ 17 };
}

impl Heard {
    pub fn new() -> Self
        ensures { result ≡ [] }
    {
        let blank = pack(Kind::Ack, Site(0), 0);
        Heard {
            row: [blank; 17],
            count: 0,
        }
    }

    /// All of them, in order.
    pub fn as_slice(&self) -> &[Word]
        ensures { result.now ≡ self.now }
    {
        &self.row[..usize::from(self.count)]
    }

    pub fn push(&mut self, word: Word)
        requires { length self.old < 17 }
        ensures { self.new ≡ self.old ++ word ∷ [] }
    {
        self.row[usize::from(self.count)] = word;
        self.count += 1;
    }

    pub fn clear(&mut self)
        ensures { self.new ≡ [] }
    {
        self.count = 0;
    }
}
