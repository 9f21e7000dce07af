ghost use Rattle.std.specs.Prelude.{◌≡◌, ◌+◌, ◌^◌, ◌<◌};
ghost use Rattle.machine.specs.Link.{SentBelow};
ghost use Rattle.acks.specs.Ends.{IsNew, made_of, done_made};

use crate::{LeadDone, LeadEnds, TrailDone, TrailEnds, ends, rejoin_ends};
use machine::{Link, Taken};
use srmt_base::{Kind, Site, Word, pack};
use std::process::Abort;
use std::sync::Wait;
use std::test::Fail;
use std::thread;

fn word(value: u64) -> Word
    requires { value < 2 ^ 44 }
{
    pack(Kind::Value, Site(1), value)
}

fn may_move<T: Send>(_end: &T) {}

#[test]
fn a_part_batch_goes_through_before_a_look(rt: HostRuntime) -> Result<(), Fail> {
    let (mut lead, mut trail) = ends(rt.alloc())?;
    may_move(&lead);
    may_move(&trail);
    assert!(rt; lead.room(18));
    lead.send(word(7));
    assert_eq!(rt; trail.take(), Taken::NotYet);
    assert_eq!(rt; lead.take(), Taken::NotYet);
    assert_eq!(rt; trail.take(), Taken::Word(word(7)));
    assert!(rt; trail.room(1));
    trail.send(word(8));
    let trail = trail.close();
    assert_eq!(rt; lead.take(), Taken::Word(word(8)));
    assert_eq!(rt; lead.take(), Taken::Closed);
    let lead = lead.close();
    assert_eq!(rt; lead.dropped(), 0);
    assert_eq!(rt; rejoin_ends(lead, trail), (1, 1, 1, 1));
    Ok(())
}

// Whether so many words went off, each after a question for room.
fn send_many<L: Link>(link: &mut L, count: u64) -> bool
    requires small { count < 2 ^ 44 }
    requires none { SentBelow 1 (L.shows link.old) }
    ensures { (L.shows link.new).made ≡ (L.shows link.old).made }
{
    for value in 0..count {
        if !link.room(1) {
            return false;
        }
        link.send(word(value));
    }
    true
}

#[test]
fn words_for_a_side_that_has_gone_are_dropped(rt: HostRuntime) -> Result<(), Fail> {
    let (mut lead, trail) = ends(rt.alloc())?;
    let trail = trail.close();
    assert!(rt; send_many(&mut lead, 5000));
    let lead = lead.close();
    assert_eq!(rt; lead.dropped(), 904);
    assert_eq!(rt; rejoin_ends(lead, trail), (4096, 0, 0, 0));
    Ok(())
}

fn send_waiting<L: Link, R: Wait>(rt: &R, link: &mut L, value: u64)
    requires few { SentBelow (value + 1) (L.shows link.old) }
    requires small { value < 2 ^ 44 }
    ensures grown { SentBelow (value + 2) (L.shows link.new) }
    ensures made { (L.shows link.new).made ≡ (L.shows link.old).made }
{
    for _ in rt.forever() {
        if link.room(18) {
            link.send(word(value));
            return;
        }
        thread::yield_now();
    }
    unreachable!()
}

fn take_waiting<L: Link, R: Wait>(rt: &R, link: &mut L) -> Taken
    ensures sent { (L.shows link.new).sent ≡ (L.shows link.old).sent }
    ensures dropped { (L.shows link.new).dropped ≡ (L.shows link.old).dropped }
    ensures made { (L.shows link.new).made ≡ (L.shows link.old).made }
{
    for _ in rt.forever() {
        let taken = link.take();
        if taken != Taken::NotYet {
            return taken;
        }
        thread::yield_now();
    }
    unreachable!()
}

// The leading thread sends the words below `count`, and waits for an acknowledgement of them all.
fn lead_side<R: Wait>(rt: &R, mut lead: LeadEnds, count: u64) -> (LeadDone, bool)
    requires small { count < 2 ^ 44 }
    requires new { IsNew lead }
    ensures { done_made result.0 ≡ made_of lead }
{
    for value in 0..count {
        send_waiting(rt, &mut lead, value);
    }
    let told = take_waiting(rt, &mut lead) == Taken::Word(word(count));
    (lead.close(), told)
}

// The trailing thread takes them, says whether they came in order and none after them.
fn trail_side<R: Wait>(rt: &R, mut trail: TrailEnds, count: u64) -> (TrailDone, bool)
    requires small { count < 2 ^ 44 }
    requires new { IsNew trail }
    ensures { done_made result.0 ≡ made_of trail }
{
    let mut in_order = true;
    for value in 0..count {
        in_order &= take_waiting(rt, &mut trail) == Taken::Word(word(value));
    }
    send_waiting(rt, &mut trail, count);
    in_order &= take_waiting(rt, &mut trail) == Taken::Closed;
    (trail.close(), in_order)
}

#[test]
fn two_threads_hand_over(rt: HostRuntime) -> Result<(), Fail> {
    let (lead, trail) = ends(rt.alloc())?;
    let ((lead, told), (trail, in_order)) = thread::join(
        &rt,
        move ||
            requires { IsNew lead }
            ensures { done_made result.0 ≡ made_of lead }
        { lead_side(&rt, lead, 100_003) },
        move ||
            requires { IsNew trail }
            ensures { done_made result.0 ≡ made_of trail }
        { trail_side(&rt, trail, 100_003) },
    );
    assert!(rt; told && in_order);
    assert_eq!(rt; rejoin_ends(lead, trail), (100_003, 100_003, 1, 1));
    Ok(())
}
