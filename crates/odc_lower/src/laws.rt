//! The laws of the step to mid code, as contracts of calls that do nothing.

ghost use Rattle.std.specs.Prelude.{◌≡◌, ◌+◌, ◌*◌, length};
ghost use Rattle.odc_core.specs.Tree.{Proc, Whole};
ghost use Rattle.odc_core.specs.Well.{IsWell};
ghost use Rattle.odc_mid.specs.Tree.{Whole as MidWhole};
ghost use Rattle.odc_lower.specs.Size.{stmts_size};
ghost use Rattle.odc_lower.specs.Code.{procedure_code};
ghost use Rattle.odc_lower.specs.Lowered.{IsLowered, IsKept};

/// A program of mid code in which each procedure of a well program becomes one, in order, and which has
/// its addresses, store and main, keeps its core run on every input of bytes, however it was made.
pub fn mid_code_keeps()
    ensures { (p : Whole) (q : MidWhole) → IsWell p → IsLowered p q → IsKept p q }
{}

/// How many steps a procedure becomes: two for each parameter, those of its statements by kind, and two at
/// its end.
pub fn steps_are_counted()
    ensures { (p : Proc) → length (procedure_code p) ≡ 2 * p.parameters + stmts_size p.body + 2 }
{}
