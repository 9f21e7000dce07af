//! The laws: each function does nothing, and its contract is proved.

ghost use Rattle.std.specs.Prelude.{◌≡◌, ℕ, ◌≤◌, ◌<◌, ◌^◌, List, length, Option, Some};
ghost use Rattle.srmt_base.specs.declared.limits.Limits.{Limits};
ghost use Rattle.c_lexer.specs.declared.token.Token.{Token};
ghost use Rattle.c_lexer.specs.Tokens.{Lexes};
ghost use Rattle.c_parser.specs.Units.{Derives};
ghost use Rattle.c_tree.specs.declared.unit.Unit.{Unit as TreeUnit};
ghost use Rattle.c_typed.specs.Statements.{Function, Program};
ghost use Rattle.source_meaning.specs.Calls.{setting_of, calls};
ghost use Rattle.source_meaning.specs.EventLaws.{HasShortFunctions};
ghost use Rattle.source_meaning.specs.Expressions.{value_of};
ghost use Rattle.source_meaning.specs.Places.{function_at};
ghost use Rattle.source_meaning.specs.Sound.{CanRun};
ghost use Rattle.source_meaning.specs.Start.{means, started};
ghost use Rattle.source_meaning.specs.Values.{IsValue, AreValues, HoldsValues, Makes};
ghost use Rattle.typing_rules.specs.SourceViews.{unit_view};
ghost use Rattle.typing_laws.specs.HasItems.{HasItems};
ghost use Rattle.typing_laws.specs.LanguagePrograms.{HasTypesOfLanguage, IfThere};
ghost use Rattle.running_laws.specs.HasNumbers.{HasNumbers};
ghost use Rattle.event_laws.specs.TokensOf.{AreShort};
ghost use Rattle.parsed_laws.specs.EachExpression.{EachInItems};
ghost use Rattle.parsed_laws.specs.Parsed.{AreBytes, TypesBytes};

/// A tree that the grammar derives has an item in each list in braces that initializes an array
/// without a length, whatever its lines become.
pub fn parsed_units_have_items()
    ensures { (shift : ℕ → ℕ) (tokens : List Token) (src : List ℕ) (unit : TreeUnit) → Derives tokens src unit → HasItems (unit_view shift unit) }
{}

/// Every expression, place, local, static object and function of a typed program of the bytes of one
/// or two files has a type of the language.
pub fn parsed_programs_have_types()
    ensures { (main : List ℕ) (binary : Option (List ℕ)) (program : Program) → TypesBytes main binary program → HasTypesOfLanguage program }
{}

/// The number and character constants of a tree that the grammar derives from the tokens of bytes
/// have 32 bits, whatever its lines become.
pub fn parsed_units_have_numbers()
    ensures { (shift : ℕ → ℕ) (tokens : List Token) (src : List ℕ) (unit : TreeUnit) → AreBytes src → Lexes src tokens → Derives tokens src unit
        → HasNumbers (unit_view shift unit) }
{}

/// Every typed program of the bytes of one or two files can run.
pub fn parsed_programs_can_run()
    ensures { (main : List ℕ) (binary : Option (List ℕ)) (program : Program) → AreBytes main → IfThere AreBytes binary → TypesBytes main binary program
        → CanRun program }
{}

/// The functions of a tree that the grammar derives from the tokens of a source have no more tokens
/// in their bodies than the source has bytes, whatever its lines become.
pub fn parsed_units_are_short()
    ensures { (shift : ℕ → ℕ) (tokens : List Token) (src : List ℕ) (unit : TreeUnit) → Lexes src tokens → Derives tokens src unit
        → AreShort (length src) (unit_view shift unit) }
{}

/// Of files of at most 1,048,576 bytes each function gives at most so many events with one round of
/// each of its loops, and each run has fewer than 2^62, where the turns fit.
pub fn parsed_programs_have_few_events()
    ensures short { (main : List ℕ) (binary : Option (List ℕ)) (program : Program) → length main ≤ 1048576 → IfThere (λ b. length b ≤ 1048576) binary
        → TypesBytes main binary program → HasShortFunctions program }
    ensures few { (main : List ℕ) (binary : Option (List ℕ)) (program : Program) → length main ≤ 1048576 → IfThere (λ b. length b ≤ 1048576) binary
        → TypesBytes main binary program → (input : List ℕ) (limits : Limits) → limits.turns ≤ 10 ^ 12 → length (means program input limits).events < 2 ^ 62 }
{}

/// Every value that a typed program of the bytes of one or two files stores or passes is a number of
/// 44 bits: its runs start with such, where their input is of such, each expression in the body of
/// one of its functions gives such, each call that is passed such gives such, and all of these store
/// such.
pub fn parsed_programs_give_values()
    ensures start { (main : List ℕ) (binary : Option (List ℕ)) (program : Program) → AreBytes main → IfThere AreBytes binary
        → TypesBytes main binary program → (input : List ℕ) (limits : Limits) → AreValues input → HoldsValues (started program input limits) }
    ensures expressions { (main : List ℕ) (binary : Option (List ℕ)) (program : Program) → AreBytes main → IfThere AreBytes binary
        → TypesBytes main binary program → (most number : ℕ) (f : Function) → function_at program number ≡ Some f
        → EachInItems (λ e. Makes IsValue (value_of (setting_of program number f (calls program most)) e)) f.body }
    ensures calls { (main : List ℕ) (binary : Option (List ℕ)) (program : Program) → AreBytes main → IfThere AreBytes binary
        → TypesBytes main binary program → (most line number : ℕ) (arguments : List ℕ) → AreValues arguments
        → Makes IsValue (calls program most line number arguments) }
{}
