//! The law: the function does nothing, and its contract is proved.

ghost use Rattle.std.specs.Prelude.{Option};
ghost use Rattle.c_typed.specs.Statements.{Program};
ghost use Rattle.source_meaning.specs.Sound.{CanRun};
ghost use Rattle.typing_rules.specs.SourceUnits.{Unit as SourceUnit};
ghost use Rattle.typing_rules.specs.TypingUnits.{Types};
ghost use Rattle.typing_laws.specs.HasItems.{HaveItems};
ghost use Rattle.running_laws.specs.HasNumbers.{HaveNumbers};

/// Every typed program can run: each operator has operands of the types that it asks for, each
/// object has its cells, and constants and names are numbers of 44 bits, where its trees have an
/// item in each list in braces that initializes an array without a length, as the grammar asks
/// (C11 6.7.9p1), and number and character constants of 32 bits.
pub fn typed_programs_can_run()
    ensures { (main : SourceUnit) (binary : Option SourceUnit) (program : Program) → HaveItems main binary → HaveNumbers main binary
        → Types main binary program → CanRun program }
{}
