ghost use Rattle.std.specs.Prelude.{◌^◌, ◌<◌, true, false, [], length};
ghost use Rattle.srmt_base.specs.declared.side.Side.TheVariants.{Trail};
ghost use Rattle.srmt_base.specs.declared.word.Kind.TheVariants.{Check};
ghost use Rattle.srmt_base.specs.Word.{word_of};
ghost use Rattle.world.specs.World.{WorldState};
ghost use Rattle.machine.specs.Side.{Got};
ghost use Rattle.machine.specs.Steps.{holds, quiet};
ghost use Rattle.machine.specs.Trailing.{checks};
ghost use Rattle.machine.specs.Link.{SentBelow, IsLater};
ghost use Rattle.machine.specs.Tried.{Comes, Tries, TriesBy};
ghost use Rattle.machine.specs.Fits.{FitsAfter, HoldsSmall, IsNear, SideFits};

use crate::link::Link;
use crate::link_call::Taken;
use crate::machine::Machine;
use crate::stepped::Stepped;
use crate::steps::{perform_copied, send_operands};
use mid_code::{Pair, VersionOp};
use srmt_base::{Kind, Side, Site, Word, pack};
use verdicts::ThreadEnd;

// Compares a word with the side's own.
fn compare(m: &mut Machine, own: Word, word: Word) -> Stepped
    requires { IsNear m.old }
    ensures { Comes result m.new (checks (Got word) own m.old) }
{
    if word != own {
        return Stepped::MadeLast(ThreadEnd::Mismatch(word, own));
    }
    m.pass();
    Stepped::Made
}

// Takes the next word, if one is there, and compares it with the side's own.
fn check_word<L: Link>(m: &mut Machine, site: Site, source: u16, link: &mut L) -> Stepped
    requires register { source < length m.old.at.machine.top.registers }
    requires small { HoldsSmall m.old }
    requires near { IsNear m.old }
    ensures tries { (w : WorldState) → TriesBy true false
        (λ meet. quiet w (checks meet (word_of Check site.0 (holds m.old source)) m.old))
        m.old w result m.new w [] (L.shows link.old) (L.shows link.new) }
    ensures later { IsLater (L.shows link.old) (L.shows link.new) }
{
    let own = pack(Kind::Check, site, m.register(source));
    match link.take() {
        Taken::NotYet => Stepped::NotYet,
        Taken::Closed => Stepped::MadeLast(ThreadEnd::PeerEnded),
        Taken::Word(word) => {
            // The name is for the proof, which cites what the call answers.
            let stepped = compare(m, own, word);
            stepped
        }
    }
}

/// Tries the next step of the trailing side. A step whose instruction takes a word asks the link
/// once for it, one that may send asks once for room, before anything else, and any other asks
/// nothing. The machine was started with `Side::Trail` and has not ended.
pub fn trail_step<L: Link>(pair: &Pair, m: &mut Machine, link: &mut L) -> Stepped
    requires fits { SideFits Trail pair.now m.old }
    requires countable { SentBelow (2 ^ 62) (L.shows link.old) }

    // The world is the leading side's, and stays as it is.
    ensures step { (w : WorldState)
        → Tries Trail pair.now m.old w result m.new w [] (L.shows link.old) (L.shows link.new) }
    ensures fits { FitsAfter result Trail pair.now m.new }
    ensures later { IsLater (L.shows link.old) (L.shows link.new) }
{
    // The call is for the proof: a pair is one of a program of the first form.
    let _pair = pair.classed();
    let Some(line) = m.next_line(pair, Side::Trail) else {
        unreachable!()
    };
    match &line.op {
        VersionOp::Copied(mid) => {
            let stepped = perform_copied(pair, m, *mid, line.line);
            stepped
        }
        VersionOp::Check { site, source } => {
            let stepped = check_word(m, *site, *source, link);
            stepped
        }
        VersionOp::Ack { site, operands } => {
            let stepped = send_operands(m, Kind::Ack, *site, operands, link);
            stepped
        }
        VersionOp::End { source } => {
            Stepped::MadeLast(ThreadEnd::Exit((m.register(*source) % 256) as u8))
        }
        VersionOp::SharedLoad { .. }
        | VersionOp::SharedStore { .. }
        | VersionOp::SharedOpen { .. }
        | VersionOp::SharedClose { .. }
        | VersionOp::Ask { .. }
        | VersionOp::Await { .. }
        | VersionOp::Act { .. }
        | VersionOp::Enter { .. }
        | VersionOp::Callback { .. }
        | VersionOp::CheckZero { .. }
        | VersionOp::CheckStored { .. }
        | VersionOp::Take { .. }
        | VersionOp::TakeDone { .. }
        | VersionOp::CheckOpen { .. }
        | VersionOp::CheckClose { .. } => unreachable!(),
    }
}
