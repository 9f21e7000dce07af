//! What the two ends know. No value of these types is made: they stand in contracts and proofs.
use std::collections::LinkedList;

/// What the sender knows.
pub struct SendView {
    /// The words that went into the ring, in order.
    pub sent: LinkedList<u64>,
    /// The words that were dropped, since the receiver was known to be gone.
    pub dropped: LinkedList<u64>,
    /// How many words the receiver may read, as last stored in the tail.
    pub published: u64,
    /// How many places the receiver had released, as last loaded from the head.
    pub known_released: u64,
    /// `close` was called.
    pub closed: bool,
    /// The head, as last loaded, had the gone bit.
    pub known_gone: bool,
    /// What `known_gone` was at `close`.
    pub knew_gone: bool,
    /// How often the head was loaded.
    pub looks: u64,
}

/// What the receiver knows.
pub struct TakeView {
    /// The words that came out of the ring, in order.
    pub received: LinkedList<u64>,
    /// How many places the sender may write again, as last stored in the head.
    pub released: u64,
    /// How many words the sender had published, as last loaded from the tail.
    pub known_published: u64,
    /// `close` was called.
    pub gone: bool,
    /// The tail, as last loaded, had the closed bit.
    pub known_closed: bool,
    /// What `known_closed` was at `close`.
    pub knew_closed: bool,
    /// How often the tail was loaded.
    pub looks: u64,
}

/// What a seat at the queue's table knows: both parts until the ends part and once they are joined
/// again, and one of them in between.
pub struct View {
    pub sends: SendView,
    pub takes: TakeView,
    /// `sends` is the sender's part.
    pub is_sender: bool,
    /// `takes` is the receiver's part.
    pub is_receiver: bool,
}
