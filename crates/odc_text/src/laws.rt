//! The laws of kept runs, as contracts of calls that do nothing. They are stated where addresses and
//! procedures are numbers; the lemmas that prove them hold however these are written.

ghost use Rattle.std.specs.Prelude.{◌≡◌, ℕ, ◌+◌, ◌*◌, ◌≤◌};
ghost use Rattle.odc_text.specs.Run.{Entry, Run};
ghost use Rattle.odc_text.specs.Follow.{Keeps, Follows};
ghost use Rattle.odc_text.specs.Steps.{After, stood, IsOver};

/// What two passes keep one after the other, both together keep: their factors on cost are
/// multiplied, and their constants added.
pub fn kept_runs_compose()
    ensures { (k c l d : ℕ) (f g : Entry ℕ ℕ → Entry ℕ ℕ) (p q r : Run ℕ ℕ)
        → Keeps k c f p q → Keeps l d g q r → Keeps (l * k) (l * c + d) (λ e. g (f e)) p r }
{}

/// A run that is kept is followed.
pub fn kept_runs_follow()
    ensures { (k c : ℕ) (f : Entry ℕ ℕ → Entry ℕ ℕ) (p q : Run ℕ ℕ) → Keeps k c f p q → Follows f p q }
{}

/// A run by steps that is over stays as it is at every greater bound.
pub fn ended_runs_stay()
    ensures { (step : ℕ → After ℕ) (n m c : ℕ)
        → n ≤ m → IsOver (stood step n c).end → stood step m c ≡ stood step n c }
{}
