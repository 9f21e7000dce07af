//! Laws of typing: each function does nothing, and its contract is proved.

ghost use Rattle.std.specs.Prelude.{◌≡◌, Ok, Err, Option, ◌↔◌};
ghost use Rattle.c_types.specs.Types.{Qualified};
ghost use Rattle.c_typed.specs.Statements.{Program};
ghost use Rattle.typing_rules.specs.SourceUnits.{Unit as SourceUnit};
ghost use Rattle.typing_rules.specs.Source.{Expr, TypeName};
ghost use Rattle.typing_rules.specs.Known.{Known};
ghost use Rattle.typing_rules.specs.Terms.{Term};
ghost use Rattle.typing_rules.specs.Ordered.{term_of, type_named};
ghost use Rattle.typing_rules.specs.OrderedUnits.{checked};
ghost use Rattle.typing_rules.specs.TypingUnits.{Types};
ghost use Rattle.typing_rules.specs.Laws.{ContentsFit, FunctionsFit};
ghost use Rattle.typing_rules.specs.LanguageTypes.{IsOfLanguage};
ghost use Rattle.typing_rules.specs.LanguageTerms.{KnowsTypes, TermHas};
ghost use Rattle.typing_rules.specs.declared.refusal.TypeRefusal.{TypeRefusal as Refusal};

/// The ordered function answers a program exactly where the relation has it.
pub fn typing_is_exact()
    ensures { (main : SourceUnit) (binary : Option SourceUnit) (program : Program) → (checked main binary ≡ Ok program) ↔ Types main binary program }
{}

/// The trees of one or two files have at most one typing.
pub fn one_typing()
    ensures { (main : SourceUnit) (binary : Option SourceUnit) (a b : Program) → Types main binary a → Types main binary b → a ≡ b }
{}

/// What the ordered function refuses has no typing.
pub fn refused_has_no_typing()
    ensures { (main : SourceUnit) (binary : Option SourceUnit) (refusal : Refusal) (program : Program) → checked main binary ≡ Err refusal → Types main binary program → ⊥ }
{}

/// What each static object of a typed program starts with fits its cells.
pub fn contents_fit()
    ensures { (main : SourceUnit) (binary : Option SourceUnit) (program : Program) → Types main binary program → ContentsFit program }
{}

/// Each function of a typed program has the type of a function, with as many parameters as it has.
pub fn functions_fit()
    ensures { (main : SourceUnit) (binary : Option SourceUnit) (program : Program) → Types main binary program → FunctionsFit program }
{}

/// Where what is known has types of the language, so has each node of a typed expression.
pub fn expressions_have_types()
    ensures { (e : Expr) (term : Term) (before after : Known) → KnowsTypes before → term_of e before ≡ Ok (term, after) → TermHas term }
{}

/// What expressions leave known has types of the language, as what was known before.
pub fn expressions_keep_types()
    ensures { (e : Expr) (term : Term) (before after : Known) → KnowsTypes before → term_of e before ≡ Ok (term, after) → KnowsTypes after }
{}

/// A type that a cast or `sizeof` names is one of the language.
pub fn named_types_are_of_language()
    ensures { (t : TypeName) (type : Qualified) (before after : Known) → KnowsTypes before → type_named t before ≡ Ok (type, after) → IsOfLanguage type.type }
{}
