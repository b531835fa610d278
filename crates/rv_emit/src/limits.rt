//! Whether a program can be emitted: its temporaries have room in their frames, and its text lies below
//! the store.

ghost use Rattle.std.specs.Prelude.{◌≡◌, ℕ, ◌+◌, ◌*◌, ◌/◌, ◌^◌, ◌<◌, ◌≤◌, ◌↔◌, IsTrue, IsFalse, MatchOption};
ghost use Rattle.odc_mid.specs.View.{proc, program};
ghost use Rattle.rv_emit.specs.Code.{step_size as size_of_step, proc_size as size_of_proc, procs_size as size_of_procs, variables_end as end_of_variables};
ghost use Rattle.rv_emit.specs.Layout.{HasSlots, AllHaveSlots, IsShort};

use crate::sizes::step_size;
use odc_core::tree::Variable;
use odc_mid::tree::{MidProcedure, MidProgram, MidStep};

/// Where the last variable of a frame ends.
fn variables_end(variables: &[Variable]) -> u64
    ensures end { result ≡ end_of_variables variables.now }
    ensures small { result < 2 ^ 33 }
{
    let mut end: u64 = 0;
    for v in variables {
        end = end.max(u64::from(v.offset) + u64::from(v.size));
    }
    end
}

/// Where the slots of so many temporaries end, behind variables that end here.
fn slots_end(end: u64, temporaries: u32) -> u64
    requires { end < 2 ^ 33 }
    ensures { result ≡ (end + 7) / 8 * 8 + 8 + 8 * temporaries + 8 }
{
    (end + 7) / 8 * 8 + 8 + 8 * u64::from(temporaries) + 8
}

/// Whether the temporaries of a procedure have slots in its frame, behind its variables.
fn has_slots(q: &MidProcedure) -> bool
    ensures { IsTrue result ↔ HasSlots (proc q.now) }
{
    slots_end(variables_end(&q.variables), q.temporaries) <= u64::from(q.frame)
}

/// Whether the temporaries of each procedure have slots in its frame, behind its variables.
pub fn have_slots(p: &MidProgram) -> bool
    ensures { IsTrue result ↔ AllHaveSlots (program p.now).procedures }
{
    for q in &p.procedures {
        if !has_slots(q) {
            return false;
        }
    }
    true
}

/// Whether a step has less than 2 ^ 28 arguments.
fn has_few_arguments(step: &MidStep) -> bool
    ensures few { IsTrue result → size_of_step step.now < 2 ^ 32 }
    ensures many { IsFalse result → 2 ^ 31 ≤ size_of_step step.now }
{
    match step {
        MidStep::Call { arguments, .. } => arguments.len() < 0x1000_0000,
        MidStep::CallValue { arguments, .. } => arguments.len() < 0x1000_0000,
        _ => true,
    }
}

/// What is left of a room for so many instructions behind those of a procedure, if they have room.
fn left_of(room: u64, q: &MidProcedure) -> Option<u64>
    requires { room < 2 ^ 31 }
    ensures { MatchOption result (room < size_of_proc (proc q.now)) (λ left. left + size_of_proc (proc q.now) ≡ room) }
{
    if room < 17 {
        return None;
    }
    let mut left = room - 17;
    for step in &q.steps {
        if !has_few_arguments(step) {
            return None;
        }
        let size = step_size(step);
        if left < size {
            return None;
        }
        left -= size;
    }
    Some(left)
}

/// Whether the text of a program lies below the store.
pub fn is_short(p: &MidProgram) -> bool
    ensures { IsTrue result ↔ IsShort (program p.now) }
{
    let mut room = 0x13ff_bff6;
    for q in &p.procedures {
        match left_of(room, q) {
            Some(left) => room = left,
            None => return false,
        }
    }
    true
}
