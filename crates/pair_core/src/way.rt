ghost use Rattle.std.specs.Prelude.{◌≡◌, ◌+◌, ◌≤◌, ◌⊎◌, true, [], drop, length, IfOk};
ghost use Rattle.pair_core.specs.Duo.{put_on};
ghost use Rattle.pair_core.specs.Turns.{offered, room_left};

use machine::Taken;
use srmt_base::Word;
use std::alloc::{AllocError, Global};
use std::collections::VecDeque;
use std::marker::Model;

/// The words on the way in one direction, at most `ROOM`.
#[derive(Drop)]
pub struct Way<const ROOM: usize> {
    words: VecDeque<Word>,
}

impl<const ROOM: usize> Model for Way<ROOM> {
    ghost use Rattle.std.specs.Prelude.{ℕ, ◌≤◌, List, length};
    ghost use Rattle.std.specs.VecDeque.{deque_capacity};

    ghost Value = { List ℕ };

    ghost view = { λ w. w.words.items };

    ghost invariant = { λ w. (length w.words.items ≤ ROOM) × (ROOM ≤ deque_capacity w.words) };
}

impl<const ROOM: usize> Way<ROOM> {
    /// Takes the memory of all its places.
    pub fn new(alloc: Global) -> Result<Self, AllocError>
        ensures { IfOk result (λ way. way ≡ []) }
    {
        Ok(Way {
            words: VecDeque::with_capacity(alloc, ROOM)?,
        })
    }

    /// What is to be taken next, by whether the side that sends has ended.
    pub fn offer(&self, over: bool) -> Taken
        ensures { result ≡ offered over self.now }
    {
        match self.words.front() {
            Some(word) => Taken::Word(*word),
            None if over => Taken::Closed,
            None => Taken::NotYet,
        }
    }

    /// For how many words, up to 18, there are places, by whether the side that takes has ended.
    pub fn spare(&self, over: bool) -> u8
        ensures left { result ≡ room_left over ROOM self.now }
        ensures fits { length self.now ≤ ROOM }
    {
        let left = (ROOM - self.words.len()).min(18) as u8;
        if over { 18 } else { left }
    }

    /// Lets the first word go.
    pub fn pass(&mut self)
        ensures { self.new ≡ drop 1 self.old }
    {
        let _word = self.words.pop_front();
    }

    /// Puts words behind the others, or drops them where the side that takes has ended.
    pub fn put(&mut self, over: bool, sent: &[Word])
        requires { (over ≡ true) ⊎ (length self.old + length sent.now ≤ ROOM) }
        ensures { self.new ≡ put_on over self.old sent.now }
    {
        if over {
            return;
        }
        for word in sent {
            self.words.push_back_reserved(*word);
        }
    }
}
