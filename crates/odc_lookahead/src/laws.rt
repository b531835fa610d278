//! Worked cases of the grammar, as contracts of calls that do nothing. A name is any token of that kind.

ghost use Rattle.std.specs.Prelude.{◌≡◌, ℕ, [], ◌∷◌};
ghost use Rattle.odc_syntax.specs.declared.grammar.Mode.TheVariants.{Free};
ghost use Rattle.odc_syntax.specs.declared.token.Token.{Token};
ghost use Rattle.odc_syntax.specs.declared.token.TokenKind.TheVariants as kind;
ghost use Rattle.odc_syntax.specs.Tree.{Expr};
ghost use Rattle.odc_syntax.specs.Grammar.{expression};
ghost use Rattle.odc_syntax.specs.Derives.{Derives, DerivesBefore};
ghost use Rattle.odc_lookahead.specs.Worked.{Compared, compared, Subtracted, minus, named};

/// `a < b < c` is no expression; `a < b` is one before the rest.
pub fn comparisons_do_not_chain()
    ensures front { (a x b y c : Token) → Compared a x b y c
        → DerivesBefore (expression Free 2 (compared a x b)) (y ∷ c ∷ []) (a ∷ x ∷ b ∷ y ∷ c ∷ []) }
    ensures whole { (a x b y c : Token) → Compared a x b y c
        → (n : ℕ) (e : Expr) → Derives (expression Free n e) (a ∷ x ∷ b ∷ y ∷ c ∷ []) → ⊥ }
{}

/// `a - b - c` is `(a - b) - c`, and no other tree.
pub fn differences_group_to_the_left()
    ensures is { (a x b y c : Token) → Subtracted a x b y c
        → Derives (expression Free 3 (minus (minus (named a) x b) y c)) (a ∷ x ∷ b ∷ y ∷ c ∷ []) }
    ensures only { (a x b y c : Token) → Subtracted a x b y c
        → (n : ℕ) (e : Expr) → Derives (expression Free n e) (a ∷ x ∷ b ∷ y ∷ c ∷ []) → e ≡ minus (minus (named a) x b) y c }
{}
