ghost use Rattle.std.specs.Prelude.{List, ℕ, ◌≢◌};
ghost use Rattle.srmt_base.specs.declared.event.Event.{Event};
ghost use Rattle.srmt_base.specs.declared.trap.SourceEnd.{SourceEnd};
ghost use Rattle.mid_code.specs.Pairs.{HasSites};
ghost use Rattle.world.specs.World.{Setting};
ghost use Rattle.world.specs.Ideal.{IsIdeal};
ghost use Rattle.verdicts.specs.declared.thread_end.ThreadEnd.TheVariants.{WriteFault};
ghost use Rattle.machine.specs.Side.{Ended};
ghost use Rattle.machine.specs.Upset.{no_upsets};
ghost use Rattle.pair_core.specs.Fit.{IsPrefix};
ghost use Rattle.pair_core.specs.Duo.{Entry, scheduled};
ghost use Rattle.pair_core.specs.Turns.{IsCountable};
ghost use Rattle.pair_core.specs.Laws.{IdealWords, IdealEvents, Sound, NoneFails, OverSchedules};

/// A law: whatever the order of the two sides' steps, and wherever the outlet fails, the state is
/// a fit, what was sent and written comes first in the ideal run, no side finds a difference, two
/// sides that have ended have ended as the ideal run unless an event failed, and else one can go.
/// The counts stay below 2^62. The leading side ends by an event that failed only where one did, and
/// the trailing side never.
pub fn over_every_schedule()
    ensures sound { OverSchedules (λ setting run. Sound setting no_upsets run.duo run.events) }
    ensures bounded { OverSchedules (λ setting run. IsCountable run.duo) }
    ensures no_fault { (setting : Setting) (entries : List Entry) → NoneFails entries
        → (scheduled setting no_upsets entries).duo.lead ≢ Ended WriteFault }
    ensures trail_no_fault { OverSchedules (λ setting run. run.duo.trail ≢ Ended WriteFault) }
    ensures all_words { (setting : Setting) (words whole : List ℕ) (events : List Event) (end : SourceEnd)
        → HasSites setting.program → IdealWords setting words → IsIdeal setting whole events end
        → IsPrefix words whole }
    ensures all_events { (setting : Setting) (events whole : List Event) (words : List ℕ) (end : SourceEnd)
        → HasSites setting.program → IdealEvents setting events → IsIdeal setting words whole end
        → IsPrefix events whole }
{}
