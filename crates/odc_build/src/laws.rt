//! What the passes need together, as contracts of calls that do nothing: for each program of mid code that
//! a typed program becomes through core code, however it was made.

ghost use Rattle.std.specs.Prelude.{◌≡◌, List, ◌+◌, ◌*◌, ◌≤◌, length};
ghost use Rattle.odc_typed.specs.Tree.{Proc, Whole};
ghost use Rattle.odc_typed.specs.Frame.{variables};
ghost use Rattle.odc_typed.specs.Nodes.{stmts_nodes, all_nodes};
ghost use Rattle.odc_typed.specs.Well.{Signature, IsWell, IsWellProc};
ghost use Rattle.odc_context.specs.Code.{stmts_depth, body_code, crossed, crossed_program};
ghost use Rattle.odc_lower.specs.Lowered.{lowered, IsLowered};
ghost use Rattle.odc_lower.specs.Size.{stmts_nodes as core_nodes};
ghost use Rattle.odc_mid.specs.Tree.{Whole as MidWhole};
ghost use Rattle.rv_emit.specs.Code.{procs_size, variables_end};
ghost use Rattle.rv_emit.specs.Layout.{AllHaveSlots, factor};
ghost use Rattle.odc_build.specs.Counts.{proc_count};
ghost use Rattle.odc_build.specs.Kept.{step_cost};

/// A node becomes at most 1,240 instructions, and a procedure has at most 126 more.
pub fn instructions_are_bounded()
    ensures { (p : Whole) (q : MidWhole) → IsWell p → IsLowered (crossed_program p) q → procs_size q.procedures ≤ 1240 * all_nodes p.procedures + 126 * length p.procedures }
{}

/// The frame of the source, which the core procedure takes over, has room for own variables and for a slot
/// of eight bytes for each temporary.
pub fn temporaries_have_slots()
    ensures { (p : Whole) (q : MidWhole) → IsLowered (crossed_program p) q → AllHaveSlots q.procedures }
{}

/// A step takes at most 32 instructions, and 14 for each parameter of the procedure that has most.
pub fn steps_are_bounded()
    ensures { (p : Whole) (q : MidWhole) → IsWell p → IsLowered (crossed_program p) q → factor q ≤ step_cost p }
{}

/// A node becomes at most 248 nodes of core code, and a procedure has at most 15 more: a fifth of the
/// instructions.
pub fn core_nodes_are_bounded()
    ensures { (ss : List Signature) (p : Proc) → IsWellProc ss p → 5 * core_nodes (body_code p) ≤ 1240 * stmts_nodes p.body + 77 }
{}

/// How many nodes of core code a procedure becomes: those of its statements and expressions by kind, and six
/// more where it has a result.
pub fn core_nodes_are_counted()
    ensures { (p : Proc) → core_nodes (body_code p) ≡ proc_count p }
{}

/// Own variables, and those of the source, lie in the first bytes of a frame: 16 for each and for each value
/// that waits, and 128 for printing.
pub fn variables_are_bounded()
    ensures { (p : Proc) → variables_end (crossed p).variables ≤ 128 + 16 * (variables p + stmts_depth p.body) }
{}

/// A procedure has a temporary for each parameter, and at most four more than values wait.
pub fn temporaries_are_bounded()
    ensures { (p : Proc) → (lowered (crossed p)).temporaries ≤ length p.parameters + stmts_depth p.body + 4 }
{}
