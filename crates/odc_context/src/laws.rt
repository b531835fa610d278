//! The law of the step to core code, as the contract of a call that does nothing.

ghost use Rattle.odc_typed.specs.Tree.{Whole};
ghost use Rattle.odc_typed.specs.Well.{IsWell};
ghost use Rattle.odc_context.specs.Code.{crossed_program};
ghost use Rattle.odc_context.specs.Kept.{IsKept};

/// The core run of what a well program becomes keeps the source run, however the core program was made.
pub fn core_code_keeps()
    ensures { (p : Whole) → IsWell p → IsKept p (crossed_program p) }
{}
