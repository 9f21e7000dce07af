ghost use Rattle.std.specs.Prelude.{◌≡◌, ◌+◌, ◌^◌, ◌<◌, ◌≤◌, false, length};
ghost use Rattle.batch_queue.specs.Views.{new_sender, new_receiver};
ghost use Rattle.batch_queue.specs.Ends.{sending, taking};

use batch_queue::{Pushed, Receiver, Sender, new};
use srmt_base::{Kind, Site, Word, pack};
use std::alloc::{AllocError, Global};
use std::sync::Wait;
use std::thread;
use std::thread::Threads;

/// Whether so many words came in order through a queue of `CAP` places and batches of `BATCH`.
pub fn run<const CAP: usize, const BATCH: usize, R: Threads + Wait + Sync>(
    rt: &R,
    alloc: Global,
    count: u64,
) -> Result<bool, AllocError>
    requires sizes { (1 ≤ BATCH) × (BATCH ≤ CAP) × (CAP ≤ 65536) }
    requires small { count < 2 ^ 32 }
{
    let (sender, receiver) = new::<CAP, BATCH>(alloc)?;
    let (_, in_order) = thread::join(
        rt,
        move ||
            requires { (sending sender ≡ new_sender) × (count < 2 ^ 32) }
        { send(rt, sender, count) },
        move ||
            requires { taking receiver ≡ new_receiver }
        { receive(rt, receiver, count) },
    );
    Ok(in_order)
}

fn send<const CAP: usize, const BATCH: usize, R: Wait>(
    rt: &R,
    mut sender: Sender<CAP, BATCH>,
    count: u64,
)
    requires new { sending sender ≡ new_sender }
    requires small { count < 2 ^ 32 }
{
    for value in 0..count {
        push(rt, &mut sender, pack(Kind::Value, Site(1), value), value);
    }
    sender.close();
}

// Pushes the word of this position, and looks at the receiver only where the ring is full.
fn push<const CAP: usize, const BATCH: usize, R: Wait>(
    rt: &R,
    sender: &mut Sender<CAP, BATCH>,
    word: Word,
    position: u64,
)
    requires still_open { (sending sender.old).closed ≡ false }
    requires small { (length (sending sender.old).sent ≤ position) × (position < 2 ^ 32) }
    ensures still_open { (sending sender.new).closed ≡ false }
    ensures grown { length (sending sender.new).sent ≤ position + 1 }
{
    if sender.try_push(word) == Pushed::Pushed {
        return;
    }
    for _ in rt.forever() {
        sender.publish();
        sender.reload();
        if sender.try_push(word) == Pushed::Pushed {
            return;
        }
    }
    unreachable!()
}

fn receive<const CAP: usize, const BATCH: usize, R: Wait>(
    rt: &R,
    mut receiver: Receiver<CAP, BATCH>,
    count: u64,
) -> bool
    requires { taking receiver ≡ new_receiver }
{
    let mut in_order = true;
    for value in 0..count {
        in_order &= take(rt, &mut receiver).value() == value;
    }
    receiver.close();
    in_order
}

// Takes a word, and looks at the sender only where none is known.
fn take<const CAP: usize, const BATCH: usize, R: Wait>(
    rt: &R,
    receiver: &mut Receiver<CAP, BATCH>,
) -> Word
    requires { (taking receiver.old).gone ≡ false }
    ensures { (taking receiver.new).gone ≡ false }
{
    if let Some(word) = receiver.try_take() {
        return word;
    }
    for _ in rt.forever() {
        receiver.release();
        receiver.reload();
        if let Some(word) = receiver.try_take() {
            return word;
        }
    }
    unreachable!()
}
