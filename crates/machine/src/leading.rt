ghost use Rattle.std.specs.Prelude.{◌≡◌, ◌≢◌, ◌^◌, ◌<◌, true, false, List, [], length, IsTrue, IfNone, IfSome};
ghost use Rattle.srmt_base.specs.declared.event.Event.{Event};
ghost use Rattle.srmt_base.specs.declared.side.Side.TheVariants.{Lead};
ghost use Rattle.srmt_outside.specs.Told.{Appends};
ghost use Rattle.mid_code.specs.Versions.{operands_list};
ghost use Rattle.word_stream.specs.Exchange.{ack_words};
ghost use Rattle.world.specs.World.{WorldState, is_live, ask};
ghost use Rattle.machine.specs.Side.{Got, Went, Ended};
ghost use Rattle.machine.specs.Steps.{operands, passed_on, quiet};
ghost use Rattle.machine.specs.Leading.{acts, answered, awaits, compared};
ghost use Rattle.machine.specs.Link.{SentBelow, IsLater};
ghost use Rattle.machine.specs.Tried.{Comes, Tries, TriesBy};
ghost use Rattle.machine.specs.Faults.{faults_after};
ghost use Rattle.machine.specs.Fits.{AreRegisters, CanSpell, FitsAfter, HoldsSmall, IsNear, LivesAfter, SideFits};

use crate::link::Link;
use crate::link_call::Taken;
use crate::machine::Machine;
use crate::stepped::Stepped;
use crate::steps::{STEP_ROOM, perform_copied, send_operands};
use mid_code::{Operands, Pair, VersionOp};
use srmt_base::{Kind, Side, Site, Word, pack};
use srmt_outside::Outlet;
use verdicts::ThreadEnd;
use word_stream::{Request, Response, request_of};
use world::World;

// The first acknowledgement that differs from the side's own, as it ends the side.
fn first_difference(m: &Machine, site: Site, args: &Operands, words: &[Word]) -> Option<ThreadEnd>
    requires registers { AreRegisters m.now (operands_list args.now) }
    requires small { HoldsSmall m.now }
    requires as_many { length words.now ≡ length (operands_list args.now) }
    ensures none { IfNone result (compared words.now
        (ack_words site.0 (operands m.now (operands_list args.now))) m.now ≡ Went (passed_on m.now)) }
    ensures some { IfSome result (λ end. compared words.now
        (ack_words site.0 (operands m.now (operands_list args.now))) m.now ≡ Ended end) }
{
    for (i, word) in words.iter().enumerate() {
        let own = pack(Kind::Ack, site, m.operand(args, i));
        if *word != own {
            return Some(ThreadEnd::Echo(*word, own));
        }
    }
    None
}

// Takes an acknowledgement, and compares all of them where it is the last.
fn hear(m: &mut Machine, site: Site, args: &Operands, word: Word) -> Stepped
    requires spelled { CanSpell m.old (operands_list args.now) }
    requires more { length m.old.heard < length (operands_list args.now) }
    requires near { IsNear m.old }
    ensures { Comes result m.new
        (awaits (Got word) (ack_words site.0 (operands m.old (operands_list args.now))) m.old) }
{
    m.heard.push(word);
    if m.heard.as_slice().len() < args.len() {
        return Stepped::Made;
    }
    if let Some(end) = first_difference(m, site, args, m.heard.as_slice()) {
        return Stepped::MadeLast(end);
    }
    m.pass();
    Stepped::Made
}

// Takes the next acknowledgement, if one is there.
fn await_acks<L: Link>(m: &mut Machine, site: Site, args: &Operands, link: &mut L) -> Stepped
    requires spelled { CanSpell m.old (operands_list args.now) }
    requires more { length m.old.heard < length (operands_list args.now) }
    requires near { IsNear m.old }
    ensures tries { (w : WorldState) → TriesBy true false
        (λ meet. quiet w (awaits meet (ack_words site.0 (operands m.old (operands_list args.now))) m.old))
        m.old w result m.new w [] (L.shows link.old) (L.shows link.new) }
    ensures later { IsLater (L.shows link.old) (L.shows link.new) }
{
    match link.take() {
        Taken::NotYet => Stepped::NotYet,
        Taken::Closed => Stepped::MadeLast(ThreadEnd::PeerEnded),
        Taken::Word(word) => {
            // The name is for the proof, which cites what the call answers.
            let stepped = hear(m, site, args, word);
            stepped
        }
    }
}

// Goes on after the world has answered.
fn resume(m: &mut Machine, request: Request, _response: Response) -> Stepped
    requires { IsNear m.old }
    ensures comes { Comes result m.new (answered request _response m.old) }
    ensures no_fault { result ≢ Stepped.MadeLast ThreadEnd.WriteFault }
{
    match request {
        Request::Put { .. } => {
            m.pass();
            Stepped::Made
        }
        Request::Exit { value, .. } => Stepped::MadeLast(ThreadEnd::Exit((value % 256) as u8)),
    }
}

// Asks the world once there is room for a step, and goes on by its answer. No response has a word
// to be sent yet.
fn act_on<O: Outlet, L: Link>(
    pair: &Pair,
    m: &mut Machine,
    w: &mut World,
    outlet: &mut O,
    link: &mut L,
    request: Request,
) -> Stepped
    requires live { IsTrue (is_live w.old) }
    requires near { IsNear m.old }
    ensures tries { (events : List Event) × TriesBy false true
        (λ meet. acts meet request (ask w.old request) m.old w.old)
        m.old w.old result m.new w.new events (L.shows link.old) (L.shows link.new)
        × Appends (O.events outlet.old) (O.events outlet.new) events }
    ensures faults { O.faults outlet.new ≡ faults_after result (O.faults outlet.old) }
    ensures later { IsLater (L.shows link.old) (L.shows link.new) }
{
    if !link.room(STEP_ROOM) {
        return Stepped::NotYet;
    }
    match w.ask(pair, &request, outlet) {
        Err(_) => Stepped::MadeLast(ThreadEnd::WriteFault),
        Ok(response) => {
            let stepped = resume(m, request, response);
            stepped
        }
    }
}

/// Tries the next step of the leading side. A step whose instruction takes an acknowledgement asks
/// the link once for it, one that may send asks once for room, before anything else, and any other
/// asks nothing. The machine was started with `Side::Lead` and has not ended.
pub fn lead_step<O: Outlet, L: Link>(
    pair: &Pair,
    m: &mut Machine,
    w: &mut World,
    outlet: &mut O,
    link: &mut L,
) -> Stepped
    requires fits { SideFits Lead pair.now m.old }
    requires live { IsTrue (is_live w.old) }
    requires countable { SentBelow (2 ^ 62) (L.shows link.old) }
    ensures step { (events : List Event)
        × Tries Lead pair.now m.old w.old result m.new w.new events (L.shows link.old) (L.shows link.new)
        × Appends (O.events outlet.old) (O.events outlet.new) events }
    ensures fits { FitsAfter result Lead pair.now m.new }
    ensures live { LivesAfter result w.new }

    // It ends by an event that failed exactly where the outlet has counted a fault.
    ensures faults { O.faults outlet.new ≡ faults_after result (O.faults outlet.old) }
    ensures later { IsLater (L.shows link.old) (L.shows link.new) }
{
    // The call is for the proof: a pair is one of a program of the first form.
    let _pair = pair.classed();
    let Some(line) = m.next_line(pair, Side::Lead) else {
        unreachable!()
    };
    match &line.op {
        VersionOp::Copied(mid) => {
            let stepped = perform_copied(pair, m, *mid, line.line);
            stepped
        }
        VersionOp::Ask { site, operands } => {
            let stepped = send_operands(m, Kind::Check, *site, operands, link);
            stepped
        }
        VersionOp::Await { site, operands } => {
            let stepped = await_acks(m, *site, operands, link);
            stepped
        }
        VersionOp::Act {
            site,
            request,
            operands,
            ..
        } => {
            let value = m.operand(operands, 0);
            let Some(request) = request_of(*request, *site, value) else {
                unreachable!()
            };
            let stepped = act_on(pair, m, w, outlet, link, request);
            stepped
        }
        VersionOp::SharedLoad { .. }
        | VersionOp::SharedStore { .. }
        | VersionOp::SharedOpen { .. }
        | VersionOp::SharedClose { .. }
        | VersionOp::Enter { .. }
        | VersionOp::Callback { .. }
        | VersionOp::Check { .. }
        | VersionOp::CheckZero { .. }
        | VersionOp::CheckStored { .. }
        | VersionOp::Ack { .. }
        | VersionOp::Take { .. }
        | VersionOp::TakeDone { .. }
        | VersionOp::CheckOpen { .. }
        | VersionOp::CheckClose { .. }
        | VersionOp::End { .. } => unreachable!(),
    }
}
