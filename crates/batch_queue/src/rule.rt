//! The rule that every atomic step keeps, and what each step tells.
use crate::view::View;
use atomic_table::{Join, Play, Split, TableRule};

/// The word that the sender writes: twice the published count, and the closed bit.
pub const TAIL: usize = 0;

/// The word that the receiver writes: twice the released count, and the gone bit.
pub const HEAD: usize = 1;

/// The first word of the ring.
pub const RING: usize = 2;

/// The key of the table is the capacity.
pub struct Rule;

impl TableRule<(), View, usize> for Rule {
    ghost use Rattle.batch_queue.specs.Rule.{Ruled, both_ends};

    ghost holds = { Ruled };

    ghost first = { λ _. both_ends };
}

pub struct StoreSlot;

impl Play<(), View> for StoreSlot {
    ghost use Rattle.batch_queue.specs.Plays.{stored_slot};

    ghost then = { stored_slot };
}

pub struct StoreTail;

impl Play<(), View> for StoreTail {
    ghost use Rattle.batch_queue.specs.Plays.{stored_tail};

    ghost then = { stored_tail };
}

pub struct StoreLastTail;

impl Play<(), View> for StoreLastTail {
    ghost use Rattle.batch_queue.specs.Plays.{stored_last_tail};

    ghost then = { stored_last_tail };
}

pub struct LoadHead;

impl Play<(), View> for LoadHead {
    ghost use Rattle.batch_queue.specs.Plays.{loaded_head};

    ghost then = { loaded_head };
}

pub struct DropWord;

impl Play<(), View> for DropWord {
    ghost use Rattle.batch_queue.specs.Plays.{dropped_word};

    ghost then = { dropped_word };
}

pub struct LoadSlot;

impl Play<(), View> for LoadSlot {
    ghost use Rattle.batch_queue.specs.Plays.{loaded_slot};

    ghost then = { loaded_slot };
}

pub struct StoreHead;

impl Play<(), View> for StoreHead {
    ghost use Rattle.batch_queue.specs.Plays.{stored_head};

    ghost then = { stored_head };
}

pub struct StoreLastHead;

impl Play<(), View> for StoreLastHead {
    ghost use Rattle.batch_queue.specs.Plays.{stored_last_head};

    ghost then = { stored_last_head };
}

pub struct LoadTail;

impl Play<(), View> for LoadTail {
    ghost use Rattle.batch_queue.specs.Plays.{loaded_tail};

    ghost then = { loaded_tail };
}

pub struct Settle;

impl Play<(), View> for Settle {
    ghost use Rattle.batch_queue.specs.Plays.{settled};

    ghost then = { settled };
}

/// The first seat becomes the sender's, the new one the receiver's.
pub struct Part;

impl Split<View> for Part {
    ghost use Rattle.batch_queue.specs.Plays.{sender_part, receiver_part};

    ghost left = { sender_part };

    ghost right = { receiver_part };
}

/// The sender's seat takes in what the receiver's knows.
pub struct Rejoin;

impl Join<View> for Rejoin {
    ghost use Rattle.batch_queue.specs.Plays.{joined, spent_part};

    ghost both = { joined };

    ghost spent = { spent_part };
}
