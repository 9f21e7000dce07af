ghost use Rattle.std.specs.Prelude.{◌≡◌, ◌+◌, ◌^◌, ◌<◌, ◌≤◌, ◌↔◌, true, false, [], length, IsNone, IfNone, IfSome};
ghost use Rattle.std.specs.Arc.{arc_value};

use crate::rule::{HEAD, LoadSlot, LoadTail, RING, Rule, StoreHead, StoreLastHead, TAIL};
use crate::view::View;
use atomic_table::{Seat, Table};
use srmt_base::Word;
use std::alloc::Global;
use std::sync::Arc;

/// The end that receives. Its numbers are those of its seat's view.
#[derive(Drop)]
pub struct Receiver<const CAP: usize, const BATCH: usize> {
    pub(crate) table: Arc<Table<(), View, usize, Rule, Global>, Global>,
    pub(crate) seat: Seat<(), View>,
    pub(crate) received: u64,
    pub(crate) released: u64,
    pub(crate) published: u64,
    pub(crate) closed: bool,
    ghost sizes: { (1 ≤ BATCH) × (BATCH ≤ CAP) × (CAP ≤ 65536) },
    ghost at_table: { (seat.table_id ≡ (arc_value table).shared.table_id)
        × ((arc_value table).shared.key ≡ CAP)
        × ((arc_value table).shared.table_id.words ≡ CAP + 2) },
    ghost seated: { (seat.me.0.is_receiver ≡ true) × (seat.me.1 ≡ []) },
    ghost counted: { (received ≡ length seat.me.0.takes.received)
        × (released ≡ seat.me.0.takes.released)
        × (published ≡ seat.me.0.takes.known_published)
        × (closed ≡ seat.me.0.takes.known_closed) },
    ghost in_order: { (released ≤ received) × (received ≤ published) × (published < 2 ^ 63) },
}

impl<const CAP: usize, const BATCH: usize> Receiver<CAP, BATCH> {
    ghost use Rattle.srmt_base.specs.Word.{IsWord};
    ghost use Rattle.batch_queue.specs.Views.{IsEmpty, took, released_all, released_at, gone_now, saw_tail, TailGrows};
    ghost use Rattle.batch_queue.specs.Ends.{taking, takes_from};

    /// Takes the next word that is known to be published, and releases once `BATCH` places are not
    /// released. It does not look at the sender: where no word is known, it says so.
    pub fn try_take(&mut self) -> Option<Word>
        requires { (taking self.old).gone ≡ false }
        ensures empty { IsNone result ↔ IsEmpty (taking self.old) }
        ensures none { IfNone result (taking self.new ≡ taking self.old) }
        ensures taken { IfSome result
            (λ word. taking self.new ≡ released_at BATCH (took (taking self.old) word)) }
        ensures queue { takes_from self.new ≡ takes_from self.old }
    {
        if self.received == self.published {
            return None;
        }
        let bits = self.load_slot();
        if self.received - self.released >= BATCH as u64 {
            self.release();
        }
        Word::of_bits(bits)
    }

    /// Lets the sender write all places that were taken from.
    pub fn release(&mut self)
        requires { (taking self.old).gone ≡ false }
        ensures released { taking self.new ≡ released_all (taking self.old) }
        ensures queue { takes_from self.new ≡ takes_from self.old }
    {
        self.table
            .shared
            .store::<StoreHead>(&mut self.seat, HEAD, 2 * self.received);
        self.released = self.received;
    }

    /// Loads the tail once, and keeps what it found. All is released before, so that the two ends
    /// never wait for each other.
    pub fn reload(&mut self)
        requires { (taking self.old).released ≡ length (taking self.old).received }
        ensures looked { let now = taking self.new in
            now ≡ saw_tail (taking self.old) now.known_published now.known_closed }
        ensures found { let now = taking self.new in
            TailGrows (taking self.old) now.known_published now.known_closed }
        ensures queue { takes_from self.new ≡ takes_from self.old }
    {
        self.look();
    }

    /// Whether the sender is known to have closed.
    pub fn knows_closed(&self) -> bool
        ensures { result ≡ (taking self.now).known_closed }
    {
        self.closed
    }

    /// Releases all places, with the gone bit. Nothing is taken afterwards.
    pub fn close(&mut self)
        requires { (taking self.old).gone ≡ false }
        ensures gone { taking self.new ≡ gone_now (taking self.old) }
        ensures queue { takes_from self.new ≡ takes_from self.old }
    {
        self.table
            .shared
            .store::<StoreLastHead>(&mut self.seat, HEAD, 2 * self.received + 1);
        self.released = self.received;
    }

    // Loads the tail, whatever is released.
    fn look(&mut self)
        ensures looked { let now = taking self.new in
            now ≡ saw_tail (taking self.old) now.known_published now.known_closed }
        ensures found { let now = taking self.new in
            TailGrows (taking self.old) now.known_published now.known_closed }
        ensures queue { takes_from self.new ≡ takes_from self.old }
    {
        let tail = self.table.shared.load::<LoadTail>(&mut self.seat, TAIL);
        self.published = tail / 2;
        self.closed = tail % 2 == 1;
    }

    // Loads the bits of the word in the next place of the ring.
    fn load_slot(&mut self) -> u64
        requires { ¬ IsEmpty (taking self.old) }
        ensures loaded { taking self.new ≡ took (taking self.old) result }
        ensures a_word { IsWord result }
        ensures queue { takes_from self.new ≡ takes_from self.old }
    {
        let slot = (self.received % CAP as u64) as usize;
        let bits = self
            .table
            .shared
            .load::<LoadSlot>(&mut self.seat, RING + slot);
        self.received += 1;
        bits
    }
}
