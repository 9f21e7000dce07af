//! Laws of the meaning of a source: each function does nothing, and its contract is proved.

ghost use Rattle.c_typed.specs.Typed.{Value};
ghost use Rattle.c_typed.specs.Statements.{Program};
ghost use Rattle.source_meaning.specs.Places.{Setting};
ghost use Rattle.source_meaning.specs.Expressions.{value_of};
ghost use Rattle.source_meaning.specs.Quiet.{IsQuiet, OnlyComputes};
ghost use Rattle.source_meaning.specs.World.{World};
ghost use Rattle.source_meaning.specs.BudgetLaws.{BoundIsNoLimit, TakesTurn, TakesEntry, TakesCells};
ghost use Rattle.srmt_base.specs.declared.part.Part.{Part};
ghost use Rattle.srmt_base.specs.declared.limits.Limits.{Limits};
ghost use Rattle.std.specs.Prelude.{ℕ, List};
ghost use Rattle.source_meaning.specs.EventLaws.{HasFewEvents};
ghost use Rattle.source_meaning.specs.Values.{GivesValue, CallsGiveValues, StartsWithValues};

/// An expression without calls, writes and volatile reads gives no event and leaves the world, or
/// traps without a further event.
pub fn quiet_expressions_only_compute()
    ensures { (s : Setting) (e : Value) → IsQuiet e → OnlyComputes (value_of s e) }
{}

/// The number on which calls and loops recur is no limit of its own: with any two numbers that are
/// at least the turns left to both parts a call comes to the same.
pub fn bound_is_no_limit()
    ensures { (program : Program) → BoundIsNoLimit program }
{}

/// A budget trap comes exactly where one unit more would pass the limit, at each place where a unit
/// is taken: at the top of a loop, at the entry of a function, where a local's object begins.
pub fn budgets_are_exact()
    ensures turns { (part : Part) (line : ℕ) (w : World) → TakesTurn part line w }
    ensures activations { (part : Part) (line : ℕ) (w : World) → TakesEntry part line w }
    ensures cells { (s : Setting) (n : ℕ) (w : World) → TakesCells s n w }
{}

/// Every value that is stored or passed is a number of 44 bits, where the constants of the program
/// and what its names stand for are: a run starts with such, an expression and a call give such,
/// and what they store are such.
pub fn values_stay_small()
    ensures start { (program : Program) (input : List ℕ) (limits : Limits) → StartsWithValues program input limits }
    ensures expressions { (s : Setting) (e : Value) → GivesValue s e }
    ensures calls { (program : Program) → CallsGiveValues program }
{}

/// A run has fewer than 2^62 events, where each function gives at most 1,048,576 with one round of
/// each of its loops, and the turns fit.
pub fn events_are_few()
    ensures { (program : Program) (input : List ℕ) (limits : Limits) → HasFewEvents program input limits }
{}
