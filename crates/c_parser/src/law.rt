//! Laws of the grammar.

ghost use Rattle.std.specs.Prelude.{◌≡◌, ℕ, ◌++◌, List, [], ◌∷◌, None, map, codes};
ghost use Rattle.c_lexer.specs.declared.token.Token.{Token};
ghost use Rattle.c_tree.specs.declared.unit.Unit.{Unit as TheUnit};
ghost use Rattle.c_parser.specs.LevelTokens.{operators_in, levels_behind, operators_since, read_all};
ghost use Rattle.c_parser.specs.Nesting.{at_start, first_too_deep};
ghost use Rattle.c_parser.specs.Refusals.{BeginsUnit, Refuses, grammar_words, left_out_marks};
ghost use Rattle.c_expr.specs.Codes.{punct};
ghost use Rattle.c_expr.specs.Spellings.{AreSpelled};
ghost use Rattle.c_parser.specs.Units.{Derives};
ghost use Rattle.c_parser.specs.declared.refusal.ParseRefusal.{ParseRefusal};

/// Some tokens are at most one unit.
pub fn one_unit()
    ensures { (tokens : List Token) (src : List ℕ) (a b : TheUnit) → Derives tokens src a → Derives tokens src b → a ≡ b }
{}

/// Some tokens are refused for at most one reason, at one place.
pub fn one_refusal()
    ensures { (tokens : List Token) (src : List ℕ) (a b : ParseRefusal) → Refuses tokens src a → Refuses tokens src b → a ≡ b }
{}

/// Tokens that are refused are no unit whose tokens are all nested deeply enough at most.
pub fn refusal_excludes_unit()
    ensures { (tokens : List Token) (src : List ℕ) (refusal : ParseRefusal) (unit : TheUnit) → Refuses tokens src refusal → first_too_deep tokens ≡ None → Derives tokens src unit → ⊥ }
{}

/// The tokens in front of a refused one can be continued to a unit.
pub fn refused_front_begins_unit()
    ensures { (tokens : List Token) (src : List ℕ) (refusal : ParseRefusal) → Refuses tokens src refusal → (front rest : List Token) × (tokens ≡ front ++ rest) × BeginsUnit front src }
{}

/// The keywords that the grammar has and the punctuators that it has not are spelled so (C11 6.4.1, 6.4.6).
pub fn words_of_the_grammar()
    ensures words { AreSpelled grammar_words (codes "static extern const volatile void _Bool char short int signed unsigned sizeof if else while do for return break continue") }
    ensures marks { AreSpelled (map punct left_out_marks) (codes ". -> ...") }
{}

/// The operators of each open level are those that were read at it since its start or its last `,`, `;`, `{` or
/// `}`.
pub fn operators_of_levels()
    ensures { (tokens : List Token) → operators_in (levels_behind at_start tokens) ≡ map operators_since (read_all ([] ∷ []) tokens) }
{}
