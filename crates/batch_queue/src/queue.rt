ghost use Rattle.std.specs.Prelude.{◌≡◌, ◌≤◌, length, IfOk};
ghost use Rattle.batch_queue.specs.Views.{new_sender, new_receiver, Agree};
ghost use Rattle.batch_queue.specs.Ends.{sending, taking, sends_to, takes_from};

use crate::receiver::Receiver;
use crate::rule::{Part, Rejoin, Settle, TAIL};
use crate::sender::Sender;
use atomic_table::Table;
use std::alloc::{AllocError, Global};
use std::sync::Arc;

/// A queue of `CAP` places, whose ends publish and release in batches of `BATCH`. The only error is
/// want of memory, and no other call of the crate takes any.
pub fn new<const CAP: usize, const BATCH: usize>(
    alloc: Global,
) -> Result<(Sender<CAP, BATCH>, Receiver<CAP, BATCH>), AllocError>
    requires { (1 ≤ BATCH) × (BATCH ≤ CAP) × (CAP ≤ 65536) }
    ensures sender { IfOk result (λ ends. sending ends.0 ≡ new_sender) }
    ensures receiver { IfOk result (λ ends. taking ends.1 ≡ new_receiver) }
    ensures queue { IfOk result (λ ends. takes_from ends.1 ≡ sends_to ends.0) }
{
    let words = Vec::from_elem(alloc, 0, CAP + 2)?;
    let (table, mut seat) = Table::of_words(alloc, words.as_slice(), &CAP)?;
    let other = table.shared.split_seat::<Part>(&mut seat);
    let table = Arc::new(alloc, table)?;
    let receiver = Receiver {
        table: Arc::try_clone(&table)?,
        seat: other,
        received: 0,
        released: 0,
        published: 0,
        closed: false,
    };
    let sender = Sender {
        table,
        seat,
        sent: 0,
        published: 0,
        released: 0,
        gone: false,
        dropped: 0,
    };
    Ok((sender, receiver))
}

/// How many words were sent and how many received, told by the two ends of one queue, whose lists
/// then are known to fit. Dropped words count in neither.
pub fn rejoin<const CAP: usize, const BATCH: usize>(
    sender: Sender<CAP, BATCH>,
    receiver: Receiver<CAP, BATCH>,
) -> (u64, u64)
    requires { takes_from receiver ≡ sends_to sender }
    ensures sent { result.0 ≡ length (sending sender.entry).sent }
    ensures received { result.1 ≡ length (taking receiver.entry).received }
    ensures agree { Agree (sending sender.entry) (taking receiver.entry) }
{
    let counts = (sender.sent, receiver.received);
    let Sender {
        table,
        mut seat,
        ..
    } = sender;
    table.shared.join_seat::<Rejoin>(&mut seat, receiver.seat);
    table.shared.load::<Settle>(&mut seat, TAIL);
    counts
}
