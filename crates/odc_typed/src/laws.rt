//! What takes a turn in the source run, as contracts of calls that do nothing.

ghost use Rattle.std.specs.Prelude.{◌≡◌, ℕ, suc, ◌+◌, Bool, true, List, slice_get};
ghost use Rattle.odc_text.specs.Run.{going};
ghost use Rattle.odc_typed.specs.Tree.{Proc};
ghost use Rattle.odc_typed.specs.Bytes.{Value};
ghost use Rattle.odc_typed.specs.Source.{State, Act, Flow, ok, stop, then_by, after, enter, calls_of, turns_while};

/// Where no turn is left, a call is never begun: the run goes on past its bound.
pub fn call_waits_for_a_turn()
    ensures { (ps : List Proc) (n f : ℕ) (vs : List Value) (base : ℕ) (s : State) → s.left ≡ 0 → calls_of ps n f vs base s ≡ stop going s }
{}

/// A call that is begun takes a turn, at a cost of one.
pub fn call_takes_a_turn()
    ensures { (ps : List Proc) (n f left : ℕ) (vs : List Value) (base : ℕ) (s : State) → s.left ≡ suc left → calls_of ps (suc n) f vs base s ≡ enter n (calls_of ps n) (slice_get ps f) vs base (record s { left = left; cost = s.cost + 1 }) }
{}

/// Where the condition of a loop was found true and no turn is left, its turn is never begun.
pub fn loop_waits_for_a_turn()
    ensures { (n : ℕ) (test : Act Bool) (body : Act Flow) (s t : State) → test s ≡ ok true t → t.left ≡ 0 → turns_while n test body s ≡ stop going t }
{}

/// Where the condition of a loop was found true, its turn that is begun takes one, at a cost of one.
pub fn loop_takes_a_turn()
    ensures { (n left : ℕ) (test : Act Bool) (body : Act Flow) (s t : State) → test s ≡ ok true t → t.left ≡ suc left → turns_while (suc n) test body s ≡ then_by (body (record t { left = left; cost = t.cost + 1 })) (λ flow. after flow (turns_while n test body)) }
{}
