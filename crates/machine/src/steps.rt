ghost use Rattle.std.specs.Prelude.{◌≡◌, ℕ, ◌^◌, ◌<◌, true, false, [], length, map};
ghost use Rattle.srmt_base.specs.Word.{word_of};
ghost use Rattle.mid_code.specs.Machine.{local_of, act};
ghost use Rattle.mid_code.specs.Versions.{operands_list};
ghost use Rattle.world.specs.World.{WorldState};
ghost use Rattle.frames.specs.Acts.{IsReady};
ghost use Rattle.machine.specs.Faults.{faults_after};
ghost use Rattle.machine.specs.Steps.{operands, wanted, performed, sends};
ghost use Rattle.machine.specs.Fits.{CanSpell, IsNear, IsAlone};
ghost use Rattle.machine.specs.Link.{HasRoom, SentBelow, IsSent, IsLater};
ghost use Rattle.machine.specs.Tried.{Comes, TriesBy};

use crate::link::Link;
use crate::machine::Machine;
use crate::stepped::Stepped;
use frames::{Did, perform};
use mid_code::{Mid, MidLine, Operands, Pair};
use srmt_base::{Kind, Site, pack};
use verdicts::ThreadEnd;

/// For how many words a step that may send wants room.
pub(crate) const STEP_ROOM: u8 = 18;

/// Performs an instruction that both sides perform, at a line of the source.
pub(crate) fn perform_copied(pair: &Pair, m: &mut Machine, mid: Mid, line: u32) -> Stepped
    requires ready { IsReady pair.now.program m.old.at.machine.top mid }
    requires alone { IsAlone (act pair.now.program mid line (local_of pair.now.program m.old.at.machine)) }
    ensures comes { Comes result m.new (performed (wanted pair.now mid line m.old) m.old) }
    ensures no_fault { (faults : ℕ) → faults_after result faults ≡ faults }
{
    let program = pair.classed().program();
    match perform(&mut m.frames, program, &MidLine { line, mid }) {
        Did::Went => {
            m.heard.clear();
            Stepped::Made
        }
        Did::Trapped(trap, line) => Stepped::MadeLast(ThreadEnd::Trap(trap, line)),
        Did::Called { .. } | Did::Left(_) | Did::Wants(_) => unreachable!(),
    }
}

// Sends a word of this kind for each operand, for which there is room.
fn send_each<L: Link>(m: &Machine, kind: Kind, site: Site, args: &Operands, link: &mut L)
    requires spelled { CanSpell m.now (operands_list args.now) }
    requires room { HasRoom 18 (L.shows link.old) }
    requires countable { SentBelow (2 ^ 62) (L.shows link.old) }
    ensures { IsSent (map (word_of kind site.0) (operands m.now (operands_list args.now)))
        (L.shows link.old) (L.shows link.new) }
{
    for i in 0..args.len() {
        let value = m.operand(args, i);
        link.send(pack(kind, site, value));
    }
}

/// Sends a word of this kind for each operand, once there is room for a step.
pub(crate) fn send_operands<L: Link>(
    m: &mut Machine,
    kind: Kind,
    site: Site,
    args: &Operands,
    link: &mut L,
) -> Stepped
    requires spelled { CanSpell m.old (operands_list args.now) }
    requires near { IsNear m.old }
    requires countable { SentBelow (2 ^ 62) (L.shows link.old) }
    ensures tries { (w : WorldState) → TriesBy false true
        (λ meet. sends w m.old (map (word_of kind site.0) (operands m.old (operands_list args.now))))
        m.old w result m.new w [] (L.shows link.old) (L.shows link.new) }
    ensures later { IsLater (L.shows link.old) (L.shows link.new) }
{
    if !link.room(STEP_ROOM) {
        return Stepped::NotYet;
    }
    send_each(m, kind, site, args, link);
    m.pass();
    Stepped::Made
}
