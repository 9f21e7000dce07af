//! The law: the function does nothing, and its contract is proved.

ghost use Rattle.std.specs.Prelude.{◌≡◌, ℕ, ◌≤◌, Option, Some};
ghost use Rattle.c_typed.specs.Statements.{Function, Program};
ghost use Rattle.source_meaning.specs.Places.{function_at};
ghost use Rattle.source_meaning.specs.EventLaws.{events_of_items};
ghost use Rattle.typing_rules.specs.SourceUnits.{Unit as SourceUnit};
ghost use Rattle.typing_rules.specs.TypingUnits.{Types};
ghost use Rattle.event_laws.specs.TokensOf.{HaveShort};

/// Where the bodies of a program's functions have at most so many tokens in the source, the body
/// of each typed function gives at most so many events, those of the functions that it calls left
/// out and one round of each loop counted.
pub fn typed_functions_are_short()
    ensures { (bound : ℕ) (main : SourceUnit) (binary : Option SourceUnit) (program : Program) → HaveShort bound main binary
        → Types main binary program
        → (number : ℕ) (f : Function) → function_at program number ≡ Some f → events_of_items f.body ≤ bound }
{}
