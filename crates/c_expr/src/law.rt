//! Laws of the grammar of expressions, and of the numbers of its tokens.

ghost use Rattle.std.specs.Prelude.{◌≡◌, ℕ, List, [], ◌∷◌, ◌++◌, codes};
ghost use Rattle.c_lexer.specs.declared.token.Token.{Token};
ghost use Rattle.c_tree.specs.declared.expression.Expr.{Expr};
ghost use Rattle.c_expr.specs.Grammar.{DerivesExpression};
ghost use Rattle.c_expr.specs.Codes as kind;
ghost use Rattle.c_expr.specs.Codes.{kinds};
ghost use Rattle.c_expr.specs.Spellings.{AreSpelled};

/// Some tokens are at most one expression.
pub fn one_expression()
    ensures { (tokens : List Token) (src : List ℕ) (a b : Expr) → DerivesExpression tokens src a → DerivesExpression tokens src b → a ≡ b }
{}

/// Each kind of token that the grammar and its tables name by number is spelled so (C11 6.4.1, 6.4.6).
#[tactic(auto, unfolding(crate::specs::Codes::binary_operators))]
pub fn spellings()
    ensures brackets { AreSpelled (kind.open_bracket ∷ kind.close_bracket ∷ kind.open_paren ∷ kind.close_paren ∷ kind.open_brace ∷ kind.close_brace ∷ []) (codes "[ ] ( ) { }") }
    ensures marks { AreSpelled (kind.star ∷ kind.question ∷ kind.colon ∷ kind.semicolon ∷ kind.equals ∷ kind.comma ∷ []) (codes "* ? : ; = ,") }
    ensures jumps { AreSpelled (kind.break_word ∷ kind.continue_word ∷ kind.return_word ∷ []) (codes "break continue return") }
    ensures branches { AreSpelled (kind.do_word ∷ kind.else_word ∷ kind.for_word ∷ kind.if_word ∷ kind.while_word ∷ []) (codes "do else for if while") }
    ensures sizeof { AreSpelled (kind.sizeof_word ∷ []) (codes "sizeof") }
    ensures prefix { AreSpelled (kinds kind.step_operators ++ kinds kind.unary_operators) (codes "++ -- & * + - ~ !") }
    ensures postfix { AreSpelled (kinds kind.postfix_operators) (codes "++ --") }
    ensures multiplicative { AreSpelled (kinds (kind.binary_operators 0)) (codes "* / %") }
    ensures additive { AreSpelled (kinds (kind.binary_operators 1)) (codes "+ -") }
    ensures shift { AreSpelled (kinds (kind.binary_operators 2)) (codes "<< >>") }
    ensures relational { AreSpelled (kinds (kind.binary_operators 3)) (codes "< > <= >=") }
    ensures equality { AreSpelled (kinds (kind.binary_operators 4)) (codes "== !=") }
    ensures bits { AreSpelled (kinds (kind.binary_operators 5) ++ kinds (kind.binary_operators 6) ++ kinds (kind.binary_operators 7)) (codes "& ^ |") }
    ensures logical { AreSpelled (kinds (kind.binary_operators 8) ++ kinds (kind.binary_operators 9)) (codes "&& ||") }
    ensures assignment { AreSpelled (kinds kind.assignment_operators) (codes "= *= /= %= += -= <<= >>= &= ^= |=") }
    ensures specifiers { AreSpelled (kinds kind.specifier_words) (codes "static extern const volatile void _Bool char short int signed unsigned") }
    ensures qualifiers { AreSpelled (kinds kind.qualifiers) (codes "const volatile") }
{}
