//! What the definition of tokens and faults says of every source.

ghost use Rattle.std.specs.Prelude.{◌≡◌, ◌↔◌, List, ◌⊎◌, Some};
ghost use Rattle.c_lexer.specs.Tokens.{Bytes, Lexes, Refuses, Means, decoded};
ghost use Rattle.c_lexer.specs.declared.token.Token.{Token};
ghost use Rattle.c_lexer.specs.declared.token.LexRefusal.{LexRefusal};

/// Each source has either one list of tokens or one fault. The bytes of a text are those that its body means.
pub fn one_reading()
    ensures tokens { (source : Bytes) (list other : List Token) → Lexes source list → Lexes source other → list ≡ other }
    ensures fault { (source : Bytes) (fault other : LexRefusal) → Refuses source fault → Refuses source other → fault ≡ other }
    ensures apart { (source : Bytes) (list : List Token) (fault : LexRefusal) → Lexes source list → Refuses source fault → ⊥ }
    ensures some { (source : Bytes) → ((list : List Token) × Lexes source list) ⊎ ((fault : LexRefusal) × Refuses source fault) }
    ensures decoding { (body bytes : Bytes) → (decoded body ≡ Some bytes) ↔ Means body bytes }
{}
