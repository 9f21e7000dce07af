ghost use Rattle.std.specs.Prelude.{◌≡◌, length, IfOk};
ghost use Rattle.batch_queue.specs.Views.{Agree};
ghost use Rattle.machine.specs.Origin.{turned};
ghost use Rattle.acks.specs.Ends.{IsNew, made_of, done_made, done_sends, done_takes};

use crate::side_done::SideDone;
use crate::side_ends::SideEnds;
use batch_queue::{new, rejoin};
use machine::LastCall;
use std::alloc::{AllocError, Global};

/// The end of the leading side: it sends words, through 4,096 places in batches of 64, and takes
/// acknowledgements.
pub type LeadEnds = SideEnds<4096, 64, 256, 32>;

/// The end of the trailing side: it takes words, and sends acknowledgements through 256 places in
/// batches of 32.
pub type TrailEnds = SideEnds<256, 32, 4096, 64>;

/// What is left of the leading end.
pub type LeadDone = SideDone<4096, 64, 256, 32>;

/// What is left of the trailing end.
pub type TrailDone = SideDone<256, 32, 4096, 64>;

/// Two new ends, one for each side. The only error is want of memory, and no other call of the
/// crate takes any.
pub fn ends(alloc: Global) -> Result<(LeadEnds, TrailEnds), AllocError>
    ensures lead { IfOk result (λ ends. IsNew ends.0) }
    ensures trail { IfOk result (λ ends. IsNew ends.1) }
    ensures one_pair { IfOk result (λ ends. made_of ends.1 ≡ turned (made_of ends.0)) }
{
    let (words, words_end) = new::<4096, 64>(alloc)?;
    let (acks, acks_end) = new::<256, 32>(alloc)?;
    let lead = SideEnds {
        sender: words,
        receiver: acks_end,
        asks: 0,
        last: LastCall::Nothing,
    };
    let trail = SideEnds {
        sender: acks,
        receiver: words_end,
        asks: 0,
        last: LastCall::Nothing,
    };
    Ok((lead, trail))
}

/// How many words were sent and taken, and then how many acknowledgements, told by the two closed
/// ends of one pair, whose lists then are known to fit. Dropped words count in none.
pub fn rejoin_ends(lead: LeadDone, trail: TrailDone) -> (u64, u64, u64, u64)
    requires { done_made trail ≡ turned (done_made lead) }
    ensures words_sent { result.0 ≡ length (done_sends lead).sent }
    ensures words_taken { result.1 ≡ length (done_takes trail).received }
    ensures acks_sent { result.2 ≡ length (done_sends trail).sent }
    ensures acks_taken { result.3 ≡ length (done_takes lead).received }
    ensures words_agree { Agree (done_sends lead) (done_takes trail) }
    ensures acks_agree { Agree (done_sends trail) (done_takes lead) }
{
    let (words_sent, words_taken) = rejoin(lead.sender, trail.receiver);
    let (acks_sent, acks_taken) = rejoin(trail.sender, lead.receiver);
    (words_sent, words_taken, acks_sent, acks_taken)
}
