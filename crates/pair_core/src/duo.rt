ghost use Rattle.std.specs.Prelude.{◌≡◌, ℕ, ◌+◌, ◌^◌, ◌≤◌, ◌⊎◌, true, [], List, Option, length, IfOk};
ghost use Rattle.srmt_base.specs.declared.event.Event.{Event};
ghost use Rattle.srmt_base.specs.declared.side.Side.TheVariants.{Lead, Trail};
ghost use Rattle.mid_code.specs.Start.{FitLimits};
ghost use Rattle.srmt_outside.specs.Told.{Appends};
ghost use Rattle.world.specs.World.{setting_of};
ghost use Rattle.machine.specs.OneStep.{last_of, sent_of};
ghost use Rattle.machine.specs.Upset.{no_upsets};
ghost use Rattle.pair_core.specs.Duo.{opening_duo, put_on};
ghost use Rattle.pair_core.specs.Faults.{has_failed, CountsFaults};
ghost use Rattle.pair_core.specs.Turns.{end_of_step, has_waited, left_by, CountsOn, DuoFits, IsCountable, MoreTurns, Turns, TurnsOn};

use crate::way::Way;
use machine::{
    LastCall, Machine, OneStep, Stepped, Taken, ThreadEnd, lead_step, run_copied, trail_step,
};
use mid_code::Pair;
use srmt_base::{Limits, Side};
use srmt_outside::Outlet;
use std::alloc::{AllocError, Global};
use std::marker::Model;
use verdicts::{Ran, verdict_of};
use world::World;

/// Both sides of a pair in one thread, with the world and all words on the way.
#[derive(Drop)]
pub struct Duo {
    lead: Machine,
    lead_over: Option<ThreadEnd>,
    trail: Machine,
    trail_over: Option<ThreadEnd>,
    world: World,
    words: Way<4096>,
    acks: Way<64>,
    lead_steps: u64,
    trail_steps: u64,
    words_sent: u64,
    acks_sent: u64,
}

impl Model for Duo {
    ghost use Rattle.pair_core.specs.Duo.{DuoState};

    ghost Value = { DuoState };

    ghost use Rattle.pair_core.specs.View.{duo_of};

    ghost view = { duo_of };
}

// The end that a step came to, if it came to one.
fn end_of(stepped: &Stepped) -> Option<ThreadEnd>
    ensures { result ≡ end_of_step stepped.now }
{
    match stepped {
        Stepped::MadeLast(end) => Some(*end),
        Stepped::Made | Stepped::NotYet => None,
    }
}

// Whether a step waits.
fn waits(stepped: &Stepped) -> bool
    ensures { result ≡ has_waited stepped.now }
{
    matches!(stepped, Stepped::NotYet)
}

// Takes from one way what a step has taken, and puts on the other what it has sent. Gives how many
// words that are.
fn carry<const COMING: usize, const GOING: usize>(
    link: &OneStep,
    over: bool,
    coming: &mut Way<COMING>,
    going: &mut Way<GOING>,
) -> u64
    requires { (over ≡ true) ⊎ (length going.old + length (sent_of link.now) ≤ GOING) }
    ensures coming { coming.new ≡ left_by (last_of link.now) coming.old }
    ensures going { going.new ≡ put_on over going.old (sent_of link.now) }
    ensures count { result ≡ length (sent_of link.now) }
    ensures few { result ≤ 18 }
{
    if let LastCall::Take(Taken::Word(_)) = link.last() {
        coming.pass();
    }
    going.put(over, link.sent());
    link.sent().len() as u64
}

impl Duo {
    /// Both sides at their beginning. Nothing after it takes memory.
    pub fn start(
        alloc: Global,
        pair: &Pair,
        input: Vec<u8>,
        limits: Limits,
    ) -> Result<Duo, AllocError>
        requires { FitLimits pair.now.program limits }
        ensures opening { IfOk result (λ duo. duo ≡ opening_duo (setting_of pair.now input.items limits)) }
        ensures fits { IfOk result (DuoFits pair.now) }
    {
        Ok(Duo {
            lead: Machine::start(alloc, pair, Side::Lead, limits)?,
            lead_over: None,
            trail: Machine::start(alloc, pair, Side::Trail, limits)?,
            trail_over: None,
            world: World::start(alloc, pair, input, limits)?,
            words: Way::new(alloc)?,
            acks: Way::new(alloc)?,
            lead_steps: 0,
            trail_steps: 0,
            words_sent: 0,
            acks_sent: 0,
        })
    }

    // One event of the leading side.
    fn lead_turn<O: Outlet>(&mut self, pair: &Pair, outlet: &mut O) -> Stepped
        requires fits { DuoFits pair.now self.old }
        requires countable { IsCountable self.old }
        ensures turn { (fails : Option ℕ) × (events : List Event)
            × Turns pair.now no_upsets Lead fails self.old self.new result events
            × Appends (O.events outlet.old) (O.events outlet.new) events }
        ensures fits { DuoFits pair.now self.new }
        ensures counts { CountsOn self.old self.new }
        ensures faults { CountsFaults self.old.lead self.new.lead (O.faults outlet.old) (O.faults outlet.new) }
    {
        if let Some(end) = &self.lead_over {
            return Stepped::MadeLast(*end);
        }
        let over = self.trail_over.is_some();
        let mut link = OneStep::new(self.acks.offer(over), self.words.spare(over), false);
        let stepped = lead_step(pair, &mut self.lead, &mut self.world, outlet, &mut link);
        if waits(&stepped) {
            return Stepped::NotYet;
        }
        let sent = carry(&link, over, &mut self.acks, &mut self.words);
        self.words_sent += sent;
        self.lead_steps += 1;
        self.lead_over = end_of(&stepped);
        stepped
    }

    // One event of the trailing side.
    fn trail_turn(&mut self, pair: &Pair) -> Stepped
        requires fits { DuoFits pair.now self.old }
        requires countable { IsCountable self.old }
        ensures turn { (fails : Option ℕ) × Turns pair.now no_upsets Trail fails self.old self.new result [] }
        ensures fits { DuoFits pair.now self.new }
        ensures counts { CountsOn self.old self.new }
        ensures same { self.new.lead ≡ self.old.lead }
    {
        if let Some(end) = &self.trail_over {
            return Stepped::MadeLast(*end);
        }
        let over = self.lead_over.is_some();
        let mut link = OneStep::new(self.words.offer(over), self.acks.spare(over), false);
        let stepped = trail_step(pair, &mut self.trail, &mut link);
        if waits(&stepped) {
            return Stepped::NotYet;
        }
        let sent = carry(&link, over, &mut self.words, &mut self.acks);
        self.acks_sent += sent;
        self.trail_steps += 1;
        self.trail_over = end_of(&stepped);
        stepped
    }

    /// One event of a side: its next step, if that is possible. A side that has ended answers its
    /// end again, and changes nothing.
    pub fn act<O: Outlet>(&mut self, pair: &Pair, outlet: &mut O, side: Side) -> Stepped
        requires fits { DuoFits pair.now self.old }
        requires countable { IsCountable self.old }
        ensures turn { (fails : Option ℕ) × (events : List Event)
            × Turns pair.now no_upsets side fails self.old self.new result events
            × Appends (O.events outlet.old) (O.events outlet.new) events }
        ensures fits { DuoFits pair.now self.new }
        ensures counts { CountsOn self.old self.new }

        // The leading side ends by an event that failed exactly where the outlet has counted a fault.
        ensures faults { CountsFaults self.old.lead self.new.lead (O.faults outlet.old) (O.faults outlet.new) }
    {
        match side {
            Side::Lead => {
                let stepped = self.lead_turn(pair, outlet);
                stepped
            }
            Side::Trail => {
                let stepped = self.trail_turn(pair);
                stepped
            }
        }
    }

    /// One event of a side, and the copied instructions behind it, in one run. It answers as the
    /// event.
    pub fn run<O: Outlet>(&mut self, pair: &Pair, outlet: &mut O, side: Side) -> Stepped
        requires fits { DuoFits pair.now self.old }
        requires countable { IsCountable self.old }
        ensures turns { (events : List Event) × TurnsOn pair.now no_upsets side self.old self.new result events
            × Appends (O.events outlet.old) (O.events outlet.new) events }
        ensures fits { DuoFits pair.now self.new }
        ensures faults { CountsFaults self.old.lead self.new.lead (O.faults outlet.old) (O.faults outlet.new) }
    {
        let stepped = self.act(pair, outlet, side);
        self.more(pair, side);
        stepped
    }

    // The copied instructions at which a side stands.
    fn more(&mut self, pair: &Pair, side: Side)
        requires fits { DuoFits pair.now self.old }
        requires lead { self.old.lead_steps ≤ 2 ^ 62 }
        requires trail { self.old.trail_steps ≤ 2 ^ 62 }
        ensures more { (count : ℕ) × MoreTurns pair.now no_upsets side count self.old self.new }
        ensures fits { DuoFits pair.now self.new }
        ensures failed { has_failed self.new.lead ≡ has_failed self.old.lead }
    {
        match side {
            Side::Lead => self.lead_more(pair),
            Side::Trail => self.trail_more(pair),
        }
    }

    // The copied instructions at which the leading side stands.
    fn lead_more(&mut self, pair: &Pair)
        requires fits { DuoFits pair.now self.old }
        requires countable { self.old.lead_steps ≤ 2 ^ 62 }
        ensures more { (count : ℕ) × MoreTurns pair.now no_upsets Lead count self.old self.new }
        ensures fits { DuoFits pair.now self.new }
        ensures failed { has_failed self.new.lead ≡ has_failed self.old.lead }
    {
        if self.lead_over.is_some() {
            return;
        }
        let steps = run_copied(pair, &mut self.lead, Side::Lead);
        self.lead_steps += u64::from(steps);
    }

    // The copied instructions at which the trailing side stands.
    fn trail_more(&mut self, pair: &Pair)
        requires fits { DuoFits pair.now self.old }
        requires countable { self.old.trail_steps ≤ 2 ^ 62 }
        ensures more { (count : ℕ) × MoreTurns pair.now no_upsets Trail count self.old self.new }
        ensures fits { DuoFits pair.now self.new }
        ensures same { self.new.lead ≡ self.old.lead }
    {
        if self.trail_over.is_some() {
            return;
        }
        let steps = run_copied(pair, &mut self.trail, Side::Trail);
        self.trail_steps += u64::from(steps);
    }
}

impl Duo {
    ghost use Rattle.std.specs.Prelude.{MatchOption};
    ghost use Rattle.pair_core.specs.InTurn.{BothOver, IsRan};

    /// The answer of the run, where both sides have ended.
    pub fn ran(&self) -> Option<Ran>
        ensures { MatchOption result (BothOver self.now → ⊥) (IsRan self.now) }
    {
        let Some(lead) = &self.lead_over else {
            return None;
        };
        let Some(trail) = &self.trail_over else {
            return None;
        };
        Some(Ran {
            verdict: verdict_of(*lead, *trail),
            lead_steps: self.lead_steps,
            trail_steps: self.trail_steps,
            words: self.words_sent,
            acks: self.acks_sent,
            applied: false,
        })
    }
}
