ghost use Rattle.std.specs.Prelude.{◌≡◌, ℕ, ◌+◌, ◌-◌, ◌^◌, ◌<◌, ◌≤◌, ◌⊎◌, ◌↔◌, false, true, [], ◌∷◌, ◌++◌, length, IsTrue};
ghost use Rattle.batch_queue.specs.Views.{free_places, published_all, closed_now, saw_head, HeadGrows, IsEmpty, released_all, gone_now, saw_tail, TailGrows};
ghost use Rattle.batch_queue.specs.Ends.{sending, taking};
ghost use Rattle.machine.specs.Origin.{word_taken};
ghost use Rattle.machine.specs.declared.link_call.Taken.TheVariants.{NotYet, Closed};
ghost use Rattle.machine.specs.declared.link_call.LastCall.TheVariants.{Room, Take};
ghost use Rattle.srmt_outside.specs.Count.{next_count};
ghost use Rattle.acks.specs.Steps.{MustLookToTake, MustLookForRoom, given, sent_with};

use crate::side_done::SideDone;
use batch_queue::{Receiver, Sender};
use machine::{LastCall, Link, Taken};
use srmt_base::Word;

/// One side's end: it sends through a queue of `OUT` places, and takes from one of `BACK` places.
#[derive(Drop)]
pub struct SideEnds<
    const OUT: usize,
    const OUT_BATCH: usize,
    const BACK: usize,
    const BACK_BATCH: usize,
> {
    pub(crate) sender: Sender<OUT, OUT_BATCH>,
    pub(crate) receiver: Receiver<BACK, BACK_BATCH>,
    pub(crate) asks: u64,
    pub(crate) last: LastCall,
    ghost open: { ((sending sender).closed ≡ false) × ((taking receiver).gone ≡ false) },
    // Words are dropped only where the other side is known to be gone.
    pub ghost dropped_late: { (sending sender).known_gone ≡ false → (sending sender).dropped ≡ [] },
    // Where `take` has just answered Closed, all is taken and the other side is known to have closed.
    pub ghost closed_last: { last ≡ Take Closed
        → IsEmpty (taking receiver) × ((taking receiver).known_closed ≡ true) },
}

impl<const OUT: usize, const OUT_BATCH: usize, const BACK: usize, const BACK_BATCH: usize> SideEnds<
    OUT,
    OUT_BATCH,
    BACK,
    BACK_BATCH,
> {
    ghost use Rattle.acks.specs.Ends.{sends, takes, made_of, asks_of, last_of, done_sends, done_takes, done_made};

    /// Publishes all that was sent, says that no word follows, and that none is taken any more.
    pub fn close(self) -> SideDone<OUT, OUT_BATCH, BACK, BACK_BATCH>
        ensures sender { done_sends result ≡ closed_now (sends self.entry) }
        ensures receiver { done_takes result ≡ gone_now (takes self.entry) }
        ensures made { done_made result ≡ made_of self.entry }
        ensures closed { last_of self.entry ≡ Take Closed
            → IsEmpty (done_takes result) × ((done_takes result).knew_closed ≡ true) }
    {
        let SideEnds {
            mut sender,
            mut receiver,
            ..
        } = self;
        sender.close();
        receiver.close();
        SideDone { sender, receiver }
    }

    // What `take` answers by what is known, without a look.
    fn take_known(&mut self) -> Taken
        ensures sender { sends self.new ≡ sends self.old }
        ensures receiver { takes self.new ≡ given BACK_BATCH result (takes self.old) }
        ensures not_yet { (result ≡ NotYet) ↔ MustLookToTake (takes self.old) }
        ensures closed { (result ≡ Closed)
            ↔ (IsEmpty (takes self.old) × ((takes self.old).known_closed ≡ true)) }
        ensures made { made_of self.new ≡ made_of self.old }
        ensures asks { asks_of self.new ≡ asks_of self.old }
    {
        match self.receiver.try_take() {
            Some(word) => Taken::Word(word),
            None if self.receiver.knows_closed() => Taken::Closed,
            None => Taken::NotYet,
        }
    }

    // What `take` answers: after a look at the tail where nothing is known.
    fn answer(&mut self) -> Taken
        ensures quiet { ¬ MustLookToTake (takes self.old)
            → (sends self.new ≡ sends self.old)
            × (takes self.new ≡ given BACK_BATCH result (takes self.old)) }
        ensures looked { MustLookToTake (takes self.old)
            → (sends self.new ≡ published_all (sends self.old))
            × (let now = takes self.new in takes self.new ≡ given BACK_BATCH result
            (saw_tail (released_all (takes self.old)) now.known_published now.known_closed)) }
        ensures found { let now = takes self.new in
            TailGrows (takes self.old) now.known_published now.known_closed }
        ensures not_yet { result ≡ NotYet → MustLookToTake (takes self.new)
            × ((takes self.new).looks ≡ (takes self.old).looks + 1)
            × ((sends self.new).published ≡ length (sends self.new).sent) }
        ensures closed { (result ≡ Closed) ↔ ((word_taken result ≡ [])
            × ((takes self.new).known_closed ≡ true) × IsEmpty (takes self.new)) }
        ensures made { made_of self.new ≡ made_of self.old }
        ensures asks { asks_of self.new ≡ asks_of self.old }
    {
        let known = self.take_known();
        if known != Taken::NotYet {
            return known;
        }
        self.look_to_take();
        self.take_known()
    }

    // Publishes and releases all that is its own, as before each look at the other side.
    fn settle(&mut self)
        ensures sender { sends self.new ≡ published_all (sends self.old) }
        ensures receiver { takes self.new ≡ released_all (takes self.old) }
        ensures made { made_of self.new ≡ made_of self.old }
        ensures asks { asks_of self.new ≡ asks_of self.old }
    {
        self.sender.publish();
        self.receiver.release();
    }

    // Publishes and releases all that is its own, and looks at the tail.
    fn look_to_take(&mut self)
        ensures sender { sends self.new ≡ published_all (sends self.old) }
        ensures looked { let now = takes self.new in
            now ≡ saw_tail (released_all (takes self.old)) now.known_published now.known_closed }
        ensures found { let now = takes self.new in
            TailGrows (takes self.old) now.known_published now.known_closed }
        ensures made { made_of self.new ≡ made_of self.old }
        ensures asks { asks_of self.new ≡ asks_of self.old }
    {
        self.settle();
        self.receiver.reload();
    }

    // Publishes and releases all that is its own, and looks at the head.
    fn look_for_room(&mut self)
        ensures receiver { takes self.new ≡ released_all (takes self.old) }
        ensures looked { let now = sends self.new in
            now ≡ saw_head (published_all (sends self.old)) now.known_released now.known_gone }
        ensures found { let now = sends self.new in
            HeadGrows (published_all (sends self.old)) now.known_released now.known_gone }
        ensures made { made_of self.new ≡ made_of self.old }
        ensures asks { asks_of self.new ≡ asks_of self.old }
    {
        self.settle();
        self.sender.reload();
    }

    // Whether so many words fit by what is known, or the other side is known to be gone.
    fn has_room(&self, words: u8) -> bool
        ensures { IsTrue result
            ↔ (words ≤ free_places OUT (sends self.now)) ⊎ ((sends self.now).known_gone ≡ true) }
    {
        self.sender.knows_gone() || u64::from(words) <= self.sender.known_free()
    }
}

impl<const OUT: usize, const OUT_BATCH: usize, const BACK: usize, const BACK_BATCH: usize> Link
    for SideEnds<OUT, OUT_BATCH, BACK, BACK_BATCH> {
    ghost use Rattle.machine.specs.Link.{HasRoom, SentBelow, IsAsked, IsSent};
    ghost use Rattle.acks.specs.Ends.{sends, takes, shown_of};

    ghost shows = { shown_of };

    fn room(&mut self, words: u8) -> bool
        // Where it need not look, it publishes and releases nothing.
        ensures quiet { ¬ MustLookForRoom OUT words (sends self.old)
            → (sends self.new ≡ sends self.old) × (takes self.new ≡ takes self.old) }
        // Where it must, all that is its own is published and released before one look at the head.
        ensures looked { MustLookForRoom OUT words (sends self.old)
            → (let now = sends self.new in
            now ≡ saw_head (published_all (sends self.old)) now.known_released now.known_gone)
            × (takes self.new ≡ released_all (takes self.old)) }
        ensures found { let now = sends self.new in
            HeadGrows (published_all (sends self.old)) now.known_released now.known_gone }
        ensures refused { result ≡ false → MustLookForRoom OUT words (sends self.new)
            × ((sends self.new).looks ≡ (sends self.old).looks + 1)
            × ((sends self.new).published ≡ length (sends self.new).sent) }
        ensures granted { IsTrue result
            ↔ ((words ≤ free_places OUT (sends self.new)) ⊎ ((sends self.new).known_gone ≡ true)) }
        ensures room { IsTrue result → HasRoom words (shown_of self.new) }
        ensures asked { IsAsked (Room words result) (shown_of self.old) (shown_of self.new) }
    {
        if !self.has_room(words) {
            self.look_for_room();
        }
        let granted = self.has_room(words);
        self.asks = self.asks.saturating_add(1);
        self.last = LastCall::Room(words, granted);
        granted
    }

    fn send(&mut self, word: Word)
        requires room { HasRoom 1 (shown_of self.old) }
        requires countable { SentBelow (2 ^ 63 - 1) (shown_of self.old) }
        // There is no look.
        ensures sender { sends self.new
            ≡ sent_with OUT_BATCH (sends self.old).known_gone word (sends self.old) }
        ensures receiver { takes self.new ≡ takes self.old }
        ensures sent { IsSent (word ∷ []) (shown_of self.old) (shown_of self.new) }
    {
        if self.sender.knows_gone() {
            self.sender.discard(word);
        } else {
            self.sender.try_push(word);
        }
    }

    fn take(&mut self) -> Taken
        // Where it need not look, it releases only as taking a word does, and publishes nothing.
        ensures quiet { ¬ MustLookToTake (takes self.old)
            → (sends self.new ≡ sends self.old)
            × (takes self.new ≡ given BACK_BATCH result (takes self.old)) }
        // Where it must, all that is its own is published and released before one look at the tail.
        ensures looked { MustLookToTake (takes self.old)
            → (sends self.new ≡ published_all (sends self.old))
            × (let now = takes self.new in takes self.new ≡ given BACK_BATCH result
            (saw_tail (released_all (takes self.old)) now.known_published now.known_closed)) }
        ensures found { let now = takes self.new in
            TailGrows (takes self.old) now.known_published now.known_closed }
        ensures not_yet { result ≡ NotYet → MustLookToTake (takes self.new)
            × ((takes self.new).looks ≡ (takes self.old).looks + 1)
            × ((sends self.new).published ≡ length (sends self.new).sent) }
        ensures closed { (result ≡ Closed) ↔ ((word_taken result ≡ [])
            × ((takes self.new).known_closed ≡ true) × IsEmpty (takes self.new)) }
        ensures asked { IsAsked (Take result) (shown_of self.old) (shown_of self.new) }
    {
        let answer = self.answer();
        self.asks = self.asks.saturating_add(1);
        let told = &answer;
        self.last = LastCall::Take(*told);
        answer
    }
}
