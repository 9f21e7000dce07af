ghost use Rattle.std.specs.Prelude.{◌≡◌, ℕ, ◌^◌, ◌<◌, All};
ghost use Rattle.word_stream.specs.Exchange.{operands_of, exchange};

use crate::request::{Request, Response};
use srmt_base::{Kind, Site, Word, pack};
use std::marker::Model;

/// How many words an exchange has at most: with 16 arguments each way, and the called function.
const ROOM: usize = 40;

/// The words of one exchange.
#[derive(Debug, Drop)]
pub struct Out {
    row: [Word; ROOM],
    count: usize,
}

impl Model for Out {
    ghost use Rattle.std.specs.Prelude.{ℕ, ◌≤◌, List, take};

    ghost Value = { List ℕ };

    ghost view = { λ o. take o.count o.row };

    ghost invariant = { λ o. o.count ≤ 40 };
}

impl Out {
    ghost use Rattle.std.specs.Prelude.{◌≡◌, ◌<◌, [], ◌∷◌, ◌++◌, length};

    /// No words.
    pub fn new() -> Self
        ensures { result ≡ [] }
    {
        Out {
            row: [pack(Kind::Check, Site(0), 0); ROOM],
            count: 0,
        }
    }

    /// The words, in order.
    pub fn words(&self) -> &[Word]
        ensures { result.now ≡ self.now }
    {
        &self.row[..self.count]
    }

    fn clear(&mut self)
        ensures { self.new ≡ [] }
    {
        self.count = 0;
    }

    fn push(&mut self, word: Word)
        requires { length self.old < 40 }
        ensures { self.new ≡ self.old ++ word ∷ [] }
    {
        self.row[self.count] = word;
        self.count += 1;
    }
}

/// Writes all words of a request and its response, in order, in place of what `out` held.
pub fn words_of(request: &Request, response: &Response, out: &mut Out)
    requires { All (λ v. v < 2 ^ 44) (operands_of request.now) }
    ensures { out.new ≡ exchange request.now response.now }
{
    out.clear();
    match *request {
        Request::Put { site, value } | Request::Exit { site, value } => {
            out.push(pack(Kind::Check, site, value));
        }
    }
    match *response {
        Response::Done => {}
    }
}
