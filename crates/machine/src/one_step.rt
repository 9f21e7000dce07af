ghost use Rattle.std.specs.Prelude.{◌≡◌, ℕ, ◌+◌, ◌-◌, ◌^◌, ◌<◌, ◌≤◌, ◌↔◌, false, true, [], ◌∷◌, length, IsTrue};
ghost use Rattle.machine.specs.declared.link_call.Taken.{Taken};
ghost use Rattle.machine.specs.declared.link_call.LastCall.TheVariants.{Room, Take};

use crate::link::Link;
use crate::link_call::{LastCall, Taken};
use srmt_base::{Kind, Site, Word, pack};

/// The link of one step, in memory: what it may give, and room for the 18 words that a step sends
/// at most.
#[derive(Debug, Drop)]
pub struct OneStep {
    give: Taken,
    began: u8,
    spare: u8,
    gone: bool,
    dropped: u64,
    was_taken: bool,
    asks: u64,
    last: LastCall,
    row: [Word; 18],
    count: u8,
    pub ghost places: { length row ≡ 18 },
    pub ghost small: { began ≤ 18 },
    ghost untouched: { asks ≡ 0 → was_taken ≡ false },
    // Each word that was sent took one of the places that it began with.
    pub ghost used: { spare + count ≡ began },
    // Where `take` was the only question, its answer is what the link may give.
    pub ghost first_answer: { (answer : Taken) → asks ≡ 1 → last ≡ Take answer → answer ≡ give },
    // `room` is refused where so many places are not left and the other side is not gone, and else granted.
    pub ghost refused_small: { (words : ℕ) → last ≡ Room words false → spare < words },
    pub ghost refused_here: { (words : ℕ) → last ≡ Room words false → gone ≡ false },
    pub ghost granted: { (words : ℕ) → last ≡ Room words true → gone ≡ false → words ≤ began },
}

impl OneStep {
    ghost use Rattle.machine.specs.OneStep.{sent_of, last_of, shown_of, unasked, next_answer};

    /// A link that may give this, and has room for 0 to 18 words.
    pub fn new(give: Taken, spare: u8, gone: bool) -> Self
        requires { spare ≤ 18 }
        ensures shows { shown_of result ≡ unasked give spare gone }
        ensures answer { next_answer result ≡ give }
    {
        let blank = pack(Kind::Check, Site(0), 0);
        OneStep {
            give,
            began: spare,
            spare,
            gone,
            dropped: 0,
            was_taken: false,
            asks: 0,
            last: LastCall::Nothing,
            row: [blank; 18],
            count: 0,
        }
    }

    /// The words that were sent, in order.
    pub fn sent(&self) -> &[Word]
        ensures { result.now ≡ sent_of self.now }
    {
        &self.row[..usize::from(self.count)]
    }

    /// The latest call of `room` or `take`, with its answer.
    pub fn last(&self) -> LastCall
        ensures { result ≡ last_of self.now }
    {
        let last = &self.last;
        *last
    }

    // What the next `take` answers: a word is given once, and what is no word again.
    fn answer(&self) -> Taken
        ensures { result ≡ next_answer self.now }
    {
        if self.was_taken && self.give != Taken::Closed {
            Taken::NotYet
        } else {
            self.give
        }
    }
}

impl Link for OneStep {
    ghost use Rattle.machine.specs.OneStep.{spare_of, gone_of, shown_of, next_answer, later_answer};
    ghost use Rattle.machine.specs.Link.{HasRoom, SentBelow, IsAsked, IsSent};

    ghost shows = { shown_of };

    fn room(&mut self, words: u8) -> bool
        ensures refused { (result ≡ false)
            ↔ ((spare_of self.old < words) × (gone_of self.old ≡ false)) }
        ensures room { IsTrue result → HasRoom words (shown_of self.new) }
        ensures asked { IsAsked (Room words result) (shown_of self.old) (shown_of self.new) }
        ensures spare { spare_of self.new ≡ spare_of self.old }
        ensures gone { gone_of self.new ≡ gone_of self.old }
        ensures answer { next_answer self.new ≡ next_answer self.old }
    {
        let granted = self.gone || words <= self.spare;
        self.asks = self.asks.saturating_add(1);
        self.last = LastCall::Room(words, granted);
        granted
    }

    fn send(&mut self, word: Word)
        requires room { HasRoom 1 (shown_of self.old) }
        requires countable { SentBelow (2 ^ 63 - 1) (shown_of self.old) }
        ensures sent { IsSent (word ∷ []) (shown_of self.old) (shown_of self.new) }
        ensures left { gone_of self.old ≡ false → spare_of self.new + 1 ≡ spare_of self.old }
        ensures answer { next_answer self.new ≡ next_answer self.old }
    {
        if self.gone {
            self.dropped += 1;
            return;
        }
        self.row[usize::from(self.count)] = word;
        self.count += 1;
        self.spare -= 1;
    }

    fn take(&mut self) -> Taken
        ensures answer { result ≡ next_answer self.old }
        ensures later { next_answer self.new ≡ later_answer result }
        ensures asked { IsAsked (Take result) (shown_of self.old) (shown_of self.new) }
        ensures spare { spare_of self.new ≡ spare_of self.old }
        ensures gone { gone_of self.new ≡ gone_of self.old }
    {
        let answer = self.answer();
        self.was_taken = true;
        self.asks = self.asks.saturating_add(1);
        let told = &answer;
        self.last = LastCall::Take(*told);
        answer
    }
}
