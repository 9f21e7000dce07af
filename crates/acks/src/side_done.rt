ghost use Rattle.std.specs.Prelude.{◌≡◌, length};

use batch_queue::{Receiver, Sender};

/// What is left of an end that was closed: it keeps both halves until the two sides are rejoined.
#[derive(Drop)]
pub struct SideDone<
    const OUT: usize,
    const OUT_BATCH: usize,
    const BACK: usize,
    const BACK_BATCH: usize,
> {
    pub(crate) sender: Sender<OUT, OUT_BATCH>,
    pub(crate) receiver: Receiver<BACK, BACK_BATCH>,
}

impl<const OUT: usize, const OUT_BATCH: usize, const BACK: usize, const BACK_BATCH: usize> SideDone<
    OUT,
    OUT_BATCH,
    BACK,
    BACK_BATCH,
> {
    ghost use Rattle.acks.specs.Ends.{done_sends};

    /// How many words were dropped, since the other side was gone.
    pub fn dropped(&self) -> u64
        ensures { result ≡ length (done_sends self.now).dropped }
    {
        self.sender.dropped()
    }
}
