ghost use Rattle.std.specs.Prelude.{◌≡◌, ℕ, List};
ghost use Rattle.srmt_base.specs.declared.event.Event.{Event};
ghost use Rattle.srmt_base.specs.declared.limits.Limits.{Limits};
ghost use Rattle.srmt_outside.specs.Told.{Appends};
ghost use Rattle.world.specs.World.{setting_of};
ghost use Rattle.machine.specs.declared.stepped.Stepped.{Stepped};
ghost use Rattle.machine.specs.Upset.{no_upsets};
ghost use Rattle.pair_core.specs.Duo.{opening_duo};
ghost use Rattle.pair_core.specs.Faults.{CountsFaults, faults_told};
ghost use Rattle.pair_core.specs.Answer.{IsAnswer, FollowsIdeal};
ghost use Rattle.pair_core.specs.Turns.{DuoFits, IsCountable, TurnsOn};
ghost use Rattle.pair_core.specs.InTurn.{next_turn, IsOpening};

use crate::duo::Duo;
use machine::Stepped;
use mid_code::Pair;
use srmt_base::Side;
use srmt_outside::Outlet;
use verdicts::Ran;

/// Runs both sides in one thread to their end: the leading side until it waits or ends, then the
/// trailing side, and so on. The Duo is as `start` gave it. Takes no memory.
pub fn alternate<O: Outlet>(duo: &mut Duo, pair: &Pair, outlet: &mut O) -> Ran
    requires { IsOpening pair.now duo.old }
    ensures answer { (input : List ℕ) (limits : Limits) → let setting = setting_of pair.now input limits in
        duo.old ≡ opening_duo setting
        → (events : List Event) × Appends (O.events outlet.old) (O.events outlet.new) events
        × IsAnswer setting no_upsets events result × FollowsIdeal setting events result }

    // The verdict is a fault of the outlet exactly where the outlet has counted one.
    ensures faults { O.faults outlet.new ≡ faults_told result.verdict (O.faults outlet.old) }
{
    let _classed = pair.classed();
    let mut side = Side::Lead;
    loop {
        if let Some(ran) = duo.ran() {
            return ran;
        }
        side = turn(duo, pair, outlet, side);
    }
}

// One event of this side with the copied instructions behind it, and whose turn is next.
fn turn<O: Outlet>(duo: &mut Duo, pair: &Pair, outlet: &mut O, side: Side) -> Side
    requires fits { DuoFits pair.now duo.old }
    requires countable { IsCountable duo.old }
    ensures turns { (stepped : Stepped) × (events : List Event)
        × TurnsOn pair.now no_upsets side duo.old duo.new stepped events
        × Appends (O.events outlet.old) (O.events outlet.new) events × (result ≡ next_turn stepped side) }
    ensures fits { DuoFits pair.now duo.new }
    ensures faults { CountsFaults duo.old.lead duo.new.lead (O.faults outlet.old) (O.faults outlet.new) }
{
    let stepped = duo.run(pair, outlet, side);
    match (&stepped, side) {
        (Stepped::Made, _) => side,
        (_, Side::Lead) => Side::Trail,
        (_, Side::Trail) => Side::Lead,
    }
}
