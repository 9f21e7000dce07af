ghost use Rattle.std.specs.Prelude.{◌≡◌, ◌+◌, ◌-◌, ◌^◌, ◌<◌, ◌≤◌, ◌↔◌, true, false, [], length};
ghost use Rattle.std.specs.Arc.{arc_value};

use crate::rule::{
    DropWord, HEAD, LoadHead, RING, Rule, StoreLastTail, StoreSlot, StoreTail, TAIL,
};
use crate::view::View;
use atomic_table::{Seat, Table};
use srmt_base::Word;
use std::alloc::Global;
use std::sync::Arc;

/// What a push did.
#[derive(Clone, Copy, Debug, PartialEq, Eq)]
pub enum Pushed {
    /// The word is in the ring.
    Pushed,
    /// No place is free, by what is known.
    Full,
}

/// The end that sends. Its numbers are those of its seat's view.
#[derive(Drop)]
pub struct Sender<const CAP: usize, const BATCH: usize> {
    pub(crate) table: Arc<Table<(), View, usize, Rule, Global>, Global>,
    pub(crate) seat: Seat<(), View>,
    pub(crate) sent: u64,
    pub(crate) published: u64,
    pub(crate) released: u64,
    pub(crate) gone: bool,
    pub(crate) dropped: u64,
    ghost sizes: { (1 ≤ BATCH) × (BATCH ≤ CAP) × (CAP ≤ 65536) },
    ghost at_table: { (seat.table_id ≡ (arc_value table).shared.table_id)
        × ((arc_value table).shared.key ≡ CAP)
        × ((arc_value table).shared.table_id.words ≡ CAP + 2) },
    ghost seated: { (seat.me.0.is_sender ≡ true) × (seat.me.1 ≡ []) },
    ghost counted: { (sent ≡ length seat.me.0.sends.sent)
        × (published ≡ seat.me.0.sends.published)
        × (released ≡ seat.me.0.sends.known_released)
        × (gone ≡ seat.me.0.sends.known_gone)
        × (dropped ≡ length seat.me.0.sends.dropped) },
    ghost in_order: { (released ≤ published) × (published ≤ sent) × (sent ≤ released + CAP) },
    ghost countable: { sent < 2 ^ 63 },
}

impl<const CAP: usize, const BATCH: usize> Sender<CAP, BATCH> {
    ghost use Rattle.srmt_base.specs.Word.{IsWord};
    ghost use Rattle.batch_queue.specs.Views.{free_places, IsFull, pushed, published_all, published_at, closed_now, saw_head, HeadGrows, discarded};
    ghost use Rattle.batch_queue.specs.Ends.{sending, sends_to};

    /// Puts a word into the ring, and publishes once `BATCH` words are not published. It does not
    /// look at the receiver: where the ring is full by what is known, it says so.
    pub fn try_push(&mut self, word: Word) -> Pushed
        requires still_open { (sending self.old).closed ≡ false }
        requires countable { length (sending self.old).sent < 2 ^ 63 - 1 }
        ensures full { (result ≡ Pushed.Full) ↔ IsFull CAP (sending self.old) }
        ensures refused { result ≡ Pushed.Full → sending self.new ≡ sending self.old }
        ensures sent { result ≡ Pushed.Pushed
            → sending self.new ≡ published_at BATCH (pushed (sending self.old) word) }
        ensures queue { sends_to self.new ≡ sends_to self.old }
    {
        if self.known_free() == 0 {
            return Pushed::Full;
        }
        self.store_slot(word.bits());
        if self.sent - self.published >= BATCH as u64 {
            self.publish();
        }
        Pushed::Pushed
    }

    /// Lets the receiver read all that was pushed.
    pub fn publish(&mut self)
        requires { (sending self.old).closed ≡ false }
        ensures published { sending self.new ≡ published_all (sending self.old) }
        ensures queue { sends_to self.new ≡ sends_to self.old }
    {
        self.table
            .shared
            .store::<StoreTail>(&mut self.seat, TAIL, 2 * self.sent);
        self.published = self.sent;
    }

    /// Loads the head once, and keeps what it found. All is published before, so that the two ends
    /// never wait for each other.
    pub fn reload(&mut self)
        requires { (sending self.old).published ≡ length (sending self.old).sent }
        ensures looked { let now = sending self.new in
            now ≡ saw_head (sending self.old) now.known_released now.known_gone }
        ensures found { let now = sending self.new in
            HeadGrows (sending self.old) now.known_released now.known_gone }
        ensures queue { sends_to self.new ≡ sends_to self.old }
    {
        self.look();
    }

    /// Whether the receiver is known to be gone.
    pub fn knows_gone(&self) -> bool
        ensures { result ≡ (sending self.now).known_gone }
    {
        self.gone
    }

    /// How many words fit by what is known: 0 to `CAP`.
    pub fn known_free(&self) -> u64
        ensures exact { result ≡ free_places CAP (sending self.now) }
        ensures within { result ≤ CAP }
    {
        self.released + CAP as u64 - self.sent
    }

    /// Drops a word that nobody will take, and counts it: for a caller that goes on as if it sent.
    pub fn discard(&mut self, word: Word)
        requires gone { (sending self.old).known_gone ≡ true }
        requires still_open { (sending self.old).closed ≡ false }
        requires countable { length (sending self.old).dropped < 2 ^ 63 - 1 }
        ensures dropped { sending self.new ≡ discarded (sending self.old) word }
        ensures queue { sends_to self.new ≡ sends_to self.old }
    {
        // The tail stays as it is, whichever word it is compared with and replaced by.
        let bits = word.bits();
        self.table
            .shared
            .compare_exchange::<DropWord>(&mut self.seat, TAIL, bits, bits);
        self.dropped += 1;
    }

    /// How many words were dropped.
    pub fn dropped(&self) -> u64
        ensures { result ≡ length (sending self.now).dropped }
    {
        self.dropped
    }

    /// Publishes all that was pushed, with the closed bit. Nothing is pushed afterwards.
    pub fn close(&mut self)
        requires { (sending self.old).closed ≡ false }
        ensures closed { sending self.new ≡ closed_now (sending self.old) }
        ensures queue { sends_to self.new ≡ sends_to self.old }
    {
        self.table
            .shared
            .store::<StoreLastTail>(&mut self.seat, TAIL, 2 * self.sent + 1);
        self.published = self.sent;
    }

    // Loads the head, whatever is published.
    fn look(&mut self)
        ensures looked { let now = sending self.new in
            now ≡ saw_head (sending self.old) now.known_released now.known_gone }
        ensures found { let now = sending self.new in
            HeadGrows (sending self.old) now.known_released now.known_gone }
        ensures queue { sends_to self.new ≡ sends_to self.old }
    {
        let head = self.table.shared.load::<LoadHead>(&mut self.seat, HEAD);
        self.released = head / 2;
        self.gone = head % 2 == 1;
    }

    // Stores the bits of a word in the next place of the ring.
    fn store_slot(&mut self, bits: u64)
        requires still_open { (sending self.old).closed ≡ false }
        requires a_word { IsWord bits }
        requires room { 0 < free_places CAP (sending self.old) }
        requires countable { length (sending self.old).sent < 2 ^ 63 - 1 }
        ensures stored { sending self.new ≡ pushed (sending self.old) bits }
        ensures queue { sends_to self.new ≡ sends_to self.old }
    {
        let slot = (self.sent % CAP as u64) as usize;
        self.table
            .shared
            .store::<StoreSlot>(&mut self.seat, RING + slot, bits);
        self.sent += 1;
    }
}
