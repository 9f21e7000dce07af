//! The law: the function does nothing, and its contract is proved.

ghost use Rattle.std.specs.Prelude.{Option};
ghost use Rattle.c_typed.specs.Statements.{Program};
ghost use Rattle.typing_rules.specs.SourceUnits.{Unit as SourceUnit};
ghost use Rattle.typing_rules.specs.TypingUnits.{Types};
ghost use Rattle.typing_laws.specs.LanguagePrograms.{HasTypesOfLanguage};
ghost use Rattle.typing_laws.specs.HasItems.{HaveItems};

/// Every expression, place, local, static object and function of a typed program has a type of
/// the language, where each list in braces that initializes an array without a length has an
/// item, as the grammar asks (C11 6.7.9p1).
pub fn programs_have_types()
    ensures { (main : SourceUnit) (binary : Option SourceUnit) (program : Program) → HaveItems main binary
        → Types main binary program → HasTypesOfLanguage program }
{}
