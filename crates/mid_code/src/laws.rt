ghost use Rattle.std.specs.Prelude.{ℕ, List};
ghost use Rattle.srmt_base.specs.declared.limits.Limits.{Limits};
ghost use Rattle.mid_code.specs.declared.program.MidProgram.{MidProgram};
ghost use Rattle.mid_code.specs.Start.{FitLimits};
ghost use Rattle.mid_code.specs.Valid.{IsValid};
ghost use Rattle.mid_code.specs.Laws.{CanRun, EntersMain, HasOneMeaning, IsNeverStuck, IsShort, StaysSmall, StepsNear, HasExactBudgets, DecidesKeeping};

/// A law: a run begins with the entry of `main`, as any function is entered.
pub fn main_is_entered()
    ensures { (program : MidProgram) (limits : Limits) → IsValid program → FitLimits program limits → EntersMain program limits }
{}

/// A law: the events and the end of a program are determined by its input and limits.
pub fn is_determined()
    ensures { (program : MidProgram) (input : List ℕ) (limits : Limits) → HasOneMeaning program input limits }
{}

/// A law: a valid program always has a next step, until it ends.
pub fn is_never_stuck()
    ensures { (program : MidProgram) (input : List ℕ) (limits : Limits) → CanRun program input limits → IsNeverStuck program input limits }
{}

/// A law: each step of a valid program makes less what bounds its further steps, that of an
/// activation that runs alone, and that of a whole run.
pub fn steps_near_the_end()
    ensures { (program : MidProgram) → IsValid program → StepsNear program }
{}

/// A law: a run of a valid program ends, after fewer than 2^62 steps and with fewer than 2^62
/// events.
pub fn is_bounded()
    ensures { (program : MidProgram) (input : List ℕ) (limits : Limits) → CanRun program input limits → IsShort program input limits }
{}

/// A law: in every state of a run of a valid program each register and each cell is below 2^44.
pub fn values_stay_small()
    ensures { (program : MidProgram) (input : List ℕ) (limits : Limits) → CanRun program input limits → StaysSmall program input limits }
{}

/// A law: a budget trap comes exactly where one more unit would pass the limit: a turn, a live
/// activation, the cells of an object or its number.
pub fn budgets_are_exact()
    ensures { (program : MidProgram) (input : List ℕ) (limits : Limits) → CanRun program input limits → HasExactBudgets program input limits }
{}

/// A law: whether a run of a valid program keeps addresses is decided by a run over the definition:
/// at each moment the next instruction takes an address from memory only where one was put.
pub fn keeping_is_decided()
    ensures { (program : MidProgram) (input : List ℕ) (limits : Limits) → CanRun program input limits → DecidesKeeping program input limits }
{}
