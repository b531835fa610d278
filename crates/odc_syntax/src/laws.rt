//! Laws of tokens, as contracts of calls that do nothing.

ghost use Rattle.std.specs.Prelude.{◌≡◌, ℕ, List, [], ◌∷◌, codes};
ghost use Rattle.odc_text.specs.declared.place.FileId.{FileId};
ghost use Rattle.odc_text.specs.declared.place.Place.{Place};
ghost use Rattle.odc_syntax.specs.declared.token.Token.{Token};
ghost use Rattle.odc_syntax.specs.lexical.Lexes.{Lexes, IsStuck};
ghost use Rattle.odc_syntax.specs.lexical.Value.{integer_value, rune_value, text_value};

/// A text has at most one list of tokens, and one end.
pub fn tokens_are_determined()
    ensures { (file : FileId) (text : List ℕ) (ts us : List Token) (d e : Place)
        → Lexes file text ts d → Lexes file text us e → (ts ≡ us) × (d ≡ e) }
{}

/// A text that no piece goes on with has no list of tokens.
pub fn stuck_texts_have_no_tokens()
    ensures { (file : FileId) (text : List ℕ) (at : Place) (ts : List Token) (end : Place)
        → IsStuck file text at → Lexes file text ts end → ⊥ }
{}

/// A text gets stuck at one place at most.
pub fn stuck_places_are_determined()
    ensures { (file : FileId) (text : List ℕ) (a b : Place)
        → IsStuck file text a → IsStuck file text b → a ≡ b }
{}

/// What some integers stand for.
pub fn integer_samples()
    ensures decimal { integer_value (codes "1_000") ≡ 1000 }
    ensures zero { integer_value (codes "0") ≡ 0 }
    ensures binary { integer_value (codes "0b_101") ≡ 5 }
    ensures octal { integer_value (codes "0o17_") ≡ 15 }
    ensures hexadecimal { integer_value (codes "0x_fF") ≡ 255 }
{}

/// What some runes stand for: `'a'`, `'\e'`, `'\''`, `'é'`, `'\u00e9'` and `'\xff'`.
pub fn rune_samples()
    ensures plain { rune_value (39 ∷ 97 ∷ 39 ∷ []) ≡ 97 }
    ensures escape { rune_value (39 ∷ 92 ∷ 101 ∷ 39 ∷ []) ≡ 27 }
    ensures quote { rune_value (39 ∷ 92 ∷ 39 ∷ 39 ∷ []) ≡ 39 }
    ensures wide { rune_value (39 ∷ 195 ∷ 169 ∷ 39 ∷ []) ≡ 233 }
    ensures code { rune_value (39 ∷ 92 ∷ 117 ∷ 48 ∷ 48 ∷ 101 ∷ 57 ∷ 39 ∷ []) ≡ 233 }
    ensures byte { rune_value (39 ∷ 92 ∷ 120 ∷ 102 ∷ 102 ∷ 39 ∷ []) ≡ 255 }
{}

/// What some strings stand for: `"a\x80\u00e9\n"`, `""`, and `a\n` in backquotes.
pub fn text_samples()
    ensures escapes { text_value (34 ∷ 97 ∷ 92 ∷ 120 ∷ 56 ∷ 48 ∷ 92 ∷ 117 ∷ 48 ∷ 48 ∷ 101 ∷ 57 ∷ 92 ∷ 110 ∷ 34 ∷ [])
        ≡ 97 ∷ 128 ∷ 195 ∷ 169 ∷ 10 ∷ [] }
    ensures empty { text_value (34 ∷ 34 ∷ []) ≡ [] }
    ensures raw { text_value (96 ∷ 97 ∷ 92 ∷ 110 ∷ 96 ∷ []) ≡ 97 ∷ 92 ∷ 110 ∷ [] }
{}
