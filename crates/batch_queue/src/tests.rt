ghost use Rattle.std.specs.Prelude.{◌≡◌, ◌+◌, ◌*◌, ◌^◌, ◌<◌, ◌≤◌, false, length};
ghost use Rattle.batch_queue.specs.declared.sender.Pushed.TheVariants.{Full};
ghost use Rattle.batch_queue.specs.Views.{new_sender, new_receiver};
ghost use Rattle.batch_queue.specs.Ends.{sending, taking, sends_to, takes_from};

use crate::{Pushed, Receiver, Sender, new, rejoin};
use srmt_base::{Kind, Site, Word, pack};
use std::process::Abort;
use std::sync::Wait;
use std::test::Fail;
use std::thread;

fn word(value: u64) -> Word
    requires { value < 2 ^ 44 }
{
    pack(Kind::Value, Site(1), value)
}

// Pushes the word of a number that is no less than what was pushed before.
fn push<const CAP: usize, const BATCH: usize>(sender: &mut Sender<CAP, BATCH>, value: u64) -> Pushed
    requires still_open { (sending sender.old).closed ≡ false }
    requires small { (length (sending sender.old).sent ≤ value) × (value < 2 ^ 44) }
    ensures still_open { (sending sender.new).closed ≡ false }
    ensures grown { length (sending sender.new).sent ≤ value + 1 }
    ensures refused { result ≡ Full → length (sending sender.new).sent ≤ value }
    ensures queue { sends_to sender.new ≡ sends_to sender.old }
{
    sender.try_push(word(value))
}

// Whether all words from `start` to below `end` went in.
fn push_range<const CAP: usize, const BATCH: usize>(
    sender: &mut Sender<CAP, BATCH>,
    start: u64,
    end: u64,
) -> bool
    requires still_open { (sending sender.old).closed ≡ false }
    requires small { (length (sending sender.old).sent ≤ start) × (start ≤ end) × (end < 2 ^ 44) }
    ensures still_open { (sending sender.new).closed ≡ false }
    ensures grown { length (sending sender.new).sent ≤ end }
    ensures queue { sends_to sender.new ≡ sends_to sender.old }
{
    for value in start..end {
        if push(sender, value) == Pushed::Full {
            return false;
        }
    }
    true
}

// Takes a word, after a look at the tail where there is none.
fn take<const CAP: usize, const BATCH: usize>(receiver: &mut Receiver<CAP, BATCH>) -> Option<Word>
    requires { (taking receiver.old).gone ≡ false }
    ensures still_there { (taking receiver.new).gone ≡ false }
    ensures queue { takes_from receiver.new ≡ takes_from receiver.old }
{
    if let Some(word) = receiver.try_take() {
        return Some(word);
    }
    receiver.release();
    receiver.reload();
    receiver.try_take()
}

// Whether the words from `start` to below `end` come out, in order.
fn take_range<const CAP: usize, const BATCH: usize>(
    receiver: &mut Receiver<CAP, BATCH>,
    start: u64,
    end: u64,
) -> bool
    requires still_there { (taking receiver.old).gone ≡ false }
    requires small { end < 2 ^ 44 }
    ensures still_there { (taking receiver.new).gone ≡ false }
    ensures queue { takes_from receiver.new ≡ takes_from receiver.old }
{
    for value in start..end {
        if take(receiver) != Some(word(value)) {
            return false;
        }
    }
    true
}

// The ninth push finds no place, until the receiver has released one and the sender has looked.
fn fills_up<const BATCH: usize>(
    rt: &impl Abort,
    mut sender: Sender<8, BATCH>,
    mut receiver: Receiver<8, BATCH>,
)
    requires sender { sending sender ≡ new_sender }
    requires receiver { taking receiver ≡ new_receiver }
{
    assert!(rt; sender.known_free() == 8);
    assert!(rt; push_range(&mut sender, 0, 8));
    assert_eq!(rt; push(&mut sender, 8), Pushed::Full);
    assert!(rt; take_range(&mut receiver, 0, 1));
    receiver.release();
    assert_eq!(rt; push(&mut sender, 8), Pushed::Full);
    sender.publish();
    sender.reload();
    assert_eq!(rt; sender.known_free(), 1);
    assert_eq!(rt; push(&mut sender, 8), Pushed::Pushed);
    assert_eq!(rt; push(&mut sender, 9), Pushed::Full);
}

#[test]
fn a_full_ring_refuses(rt: HostRuntime) -> Result<(), Fail> {
    let (sender, receiver) = new::<8, 4>(rt.alloc())?;
    fills_up(&rt, sender, receiver);
    let (sender, receiver) = new::<8, 1>(rt.alloc())?;
    fills_up(&rt, sender, receiver);
    Ok(())
}

#[test]
fn a_part_batch_waits_for_publish(rt: HostRuntime) -> Result<(), Fail> {
    let (mut sender, mut receiver) = new::<8, 4>(rt.alloc())?;
    assert!(rt; push_range(&mut sender, 0, 3));
    assert_eq!(rt; take(&mut receiver), None);
    sender.publish();
    assert!(rt; take_range(&mut receiver, 0, 3));
    assert_eq!(rt; take(&mut receiver), None);
    Ok(())
}

// Sends and takes 8 words so often.
fn rounds<const CAP: usize, const BATCH: usize>(
    sender: &mut Sender<CAP, BATCH>,
    receiver: &mut Receiver<CAP, BATCH>,
    count: u64,
) -> bool
    requires sender { sending sender.old ≡ new_sender }
    requires receiver { taking receiver.old ≡ new_receiver }
    requires small { count < 2 ^ 32 }
    ensures still_open { (sending sender.new).closed ≡ false }
    ensures grown { length (sending sender.new).sent ≤ 8 * count }
    ensures still_there { (taking receiver.new).gone ≡ false }
    ensures same_sender { sends_to sender.new ≡ sends_to sender.old }
    ensures same_receiver { takes_from receiver.new ≡ takes_from receiver.old }
{
    for round in 0..count {
        let start = 8 * round;
        if !push_range(sender, start, start + 8) || !take_range(receiver, start, start + 8) {
            return false;
        }
        receiver.release();
        sender.publish();
        sender.reload();
    }
    true
}

#[test]
fn the_last_part_batch_goes_through(rt: HostRuntime) -> Result<(), Fail> {
    let (mut sender, mut receiver) = new::<8, 4>(rt.alloc())?;
    assert!(rt; rounds(&mut sender, &mut receiver, 12_500));
    assert!(rt; push_range(&mut sender, 100_000, 100_003));
    assert_eq!(rt; take(&mut receiver), None);
    sender.publish();
    assert!(rt; take_range(&mut receiver, 100_000, 100_003));
    sender.close();
    receiver.close();
    assert_eq!(rt; rejoin(sender, receiver), (100_003, 100_003));
    Ok(())
}

#[test]
fn words_for_a_receiver_that_has_gone_are_dropped(rt: HostRuntime) -> Result<(), Fail> {
    let (mut sender, mut receiver) = new::<8, 4>(rt.alloc())?;
    assert_eq!(rt; sender.try_push(word(0)), Pushed::Pushed);
    receiver.close();
    assert!(rt; !sender.knows_gone());
    sender.publish();
    sender.reload();
    assert!(rt; sender.knows_gone());
    sender.discard(word(1));
    sender.discard(word(2));
    assert_eq!(rt; sender.dropped(), 2);
    sender.close();
    assert_eq!(rt; rejoin(sender, receiver), (1, 0));
    Ok(())
}

fn push_waiting<const CAP: usize, const BATCH: usize, R: Wait>(
    rt: &R,
    sender: &mut Sender<CAP, BATCH>,
    value: u64,
)
    requires still_open { (sending sender.old).closed ≡ false }
    requires small { (length (sending sender.old).sent ≤ value) × (value < 2 ^ 44) }
    ensures still_open { (sending sender.new).closed ≡ false }
    ensures grown { length (sending sender.new).sent ≤ value + 1 }
    ensures queue { sends_to sender.new ≡ sends_to sender.old }
{
    for _ in rt.forever() {
        if push(sender, value) == Pushed::Pushed {
            return;
        }
        sender.publish();
        sender.reload();
        thread::yield_now();
    }
    unreachable!()
}

fn take_waiting<const CAP: usize, const BATCH: usize, R: Wait>(
    rt: &R,
    receiver: &mut Receiver<CAP, BATCH>,
) -> Option<Word>
    requires { (taking receiver.old).gone ≡ false }
    ensures still_there { (taking receiver.new).gone ≡ false }
    ensures queue { takes_from receiver.new ≡ takes_from receiver.old }
{
    for _ in rt.forever() {
        let closed = receiver.knows_closed();
        let word = take(receiver);
        if word.is_some() || closed {
            return word;
        }
        thread::yield_now();
    }
    unreachable!()
}

// The sender's thread: all words below `count`, and the closed bit.
fn send<R: Wait>(rt: &R, mut sender: Sender<64, 16>, count: u64) -> Sender<64, 16>
    requires sender { sending sender ≡ new_sender }
    requires small { count < 2 ^ 44 }
    ensures { sends_to result ≡ sends_to sender }
{
    for value in 0..count {
        push_waiting(rt, &mut sender, value);
    }
    sender.close();
    sender
}

// The receiver's thread: it also says whether the words below `count` came in order, and then none.
fn receive<R: Wait>(rt: &R, mut receiver: Receiver<64, 16>, count: u64) -> (Receiver<64, 16>, bool)
    requires receiver { taking receiver ≡ new_receiver }
    requires small { count < 2 ^ 44 }
    ensures { takes_from result.0 ≡ takes_from receiver }
{
    let mut in_order = true;
    for value in 0..count {
        in_order &= take_waiting(rt, &mut receiver) == Some(word(value));
    }
    in_order &= take_waiting(rt, &mut receiver).is_none();
    receiver.close();
    (receiver, in_order)
}

fn may_move<T: Send>(_end: &T) {}

// Each end may move to another thread, whatever its sizes.
fn ends_may_move<const CAP: usize, const BATCH: usize>(
    sender: &Sender<CAP, BATCH>,
    receiver: &Receiver<CAP, BATCH>,
) {
    may_move(sender);
    may_move(receiver);
}

#[test]
fn two_threads_hand_over_a_million_words(rt: HostRuntime) -> Result<(), Fail> {
    let (sender, receiver) = new::<64, 16>(rt.alloc())?;
    ends_may_move(&sender, &receiver);
    let (sender, (receiver, in_order)) = thread::join(
        &rt,
        move ||
            requires { sending sender ≡ new_sender }
            ensures { sends_to result ≡ sends_to sender }
        { send(&rt, sender, 1_000_000) },
        move ||
            requires { taking receiver ≡ new_receiver }
            ensures { takes_from result.0 ≡ takes_from receiver }
        { receive(&rt, receiver, 1_000_000) },
    );
    assert!(rt; in_order);
    assert_eq!(rt; rejoin(sender, receiver), (1_000_000, 1_000_000));
    Ok(())
}
