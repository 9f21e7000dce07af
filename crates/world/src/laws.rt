ghost use Rattle.std.specs.Prelude.{ℕ, List};
ghost use Rattle.srmt_base.specs.declared.event.Event.{Event};
ghost use Rattle.srmt_base.specs.declared.trap.SourceEnd.{SourceEnd};
ghost use Rattle.mid_code.specs.Meaning.{Middle};
ghost use Rattle.mid_code.specs.Pairs.{HasSites};
ghost use Rattle.world.specs.World.{Setting};
ghost use Rattle.world.specs.Ideal.{IsIdeal};

/// A law: the ideal run of a program of a pair gives the events and the end that the program means,
/// and no others.
pub fn ideal_is_middle()
    ensures sound { (setting : Setting) → HasSites setting.program
        → (words : List ℕ) (events : List Event) (end : SourceEnd)
        → IsIdeal setting words events end
        → Middle setting.program.program setting.input setting.limits events end }
    ensures whole { (setting : Setting) → HasSites setting.program
        → (events : List Event) (end : SourceEnd)
        → Middle setting.program.program setting.input setting.limits events end
        → (words : List ℕ) × IsIdeal setting words events end }
{}
