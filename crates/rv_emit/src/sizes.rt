//! How many instructions each step has, where its code begins in its block, and where each block begins.

ghost use Rattle.std.specs.Prelude.{◌≡◌, ℕ, ◌+◌, ◌*◌, ◌^◌, ◌<◌, ◌≤◌, length, map, IfOk};
ghost use Rattle.odc_mid.specs.View.{proc};
ghost use Rattle.rv_emit.specs.Tables.{IsTable};
ghost use Rattle.rv_emit.specs.Code.{compare_code, start_size, named_size as size_of_named, value_size as size_of_value, system_size as size_of_system, step_size as size_of_step, steps_size as size_of_steps, proc_size as size_of_proc};
ghost use Rattle.rv_emit.specs.Blocks.{bare, block, size_of_all, entry_in};

use crate::unlinked::Block;
use odc_core::tree::Comparison;
use odc_mid::tree::{MidProcedure, MidStep, Named, SystemCall};
use std::alloc::{AllocError, Global};

/// The instructions that put an address into a register.
fn named_size(of: Named) -> u64
    ensures { result ≡ size_of_named of }
{
    match of {
        Named::Variable(_) => 5,
        Named::Stored(_) | Named::Procedure(_) => 4,
    }
}

/// The instructions of a comparison with its operands and its answer.
fn compare_size(op: Comparison) -> u64
    ensures { result ≡ 12 + (length (compare_code op) + 6) }
{
    match op {
        Comparison::Equal | Comparison::Different => 20,
        Comparison::Less | Comparison::Below => 19,
    }
}

/// The instructions of a call by a word.
fn value_size(arguments: &[u32], marked: bool) -> u64
    requires { size_of_value arguments.now marked < 2 ^ 32 }
    ensures { result ≡ size_of_value arguments.now marked }
{
    let passing = 26 + 8 * arguments.len() as u64;
    if marked && arguments.len() == 6 {
        passing + 36
    } else {
        passing
    }
}

/// The instructions of a call of the system.
fn system_size(call: SystemCall) -> u64
    ensures { result ≡ size_of_system call }
{
    match call {
        SystemCall::Read { .. } => 21,
        SystemCall::Write { .. } => 15,
        SystemCall::Exit { .. } => 8,
    }
}

/// The instructions of a step.
pub fn step_size(step: &MidStep) -> u64
    requires { size_of_step step.now < 2 ^ 32 }
    ensures { result ≡ size_of_step step.now }
{
    match step {
        MidStep::Const { .. } => 16,
        MidStep::Address { of, .. } => named_size(*of) + 6,
        MidStep::Move { .. } => 12,
        MidStep::Unary { .. } => 14,
        MidStep::Binary { .. } => 19,
        MidStep::Compare { op, .. } => compare_size(*op),
        MidStep::Load { .. } | MidStep::Store { .. } => 13,
        MidStep::Jump { .. } => 7,
        MidStep::Branch { .. } => 14,
        MidStep::Call { arguments, .. } => 24 + 8 * arguments.len() as u64,
        MidStep::CallValue {
            arguments,
            marked,
            ..
        } => value_size(arguments, *marked),
        MidStep::Return { .. } | MidStep::Check { .. } => 13,
        MidStep::System { call } => system_size(*call),
    }
}

/// The instructions of all steps.
pub fn steps_size(steps: &[MidStep]) -> u64
    requires { size_of_steps steps.now < 2 ^ 32 }
    ensures { result ≡ size_of_steps steps.now }
{
    let mut total = 0;
    for step in steps {
        total += step_size(step);
    }
    total
}

/// The instructions of a procedure.
pub fn proc_size(p: &MidProcedure) -> u64
    requires { size_of_proc (proc p.now) < 2 ^ 32 }
    ensures { result ≡ size_of_proc (proc p.now) }
{
    17 + steps_size(&p.steps)
}

/// The offset of the code of each step in its block.
pub fn places_of(alloc: Global, q: &MidProcedure) -> Result<Vec<u64>, AllocError>
    requires low { 4 * size_of_proc (proc q.now) < 2 ^ 31 }
    ensures { IfOk result (λ places. IsTable places.items (length q.now.steps.items) (bare (proc q.now)).place) }
{
    let mut places = Vec::with_capacity(alloc, q.steps.len())?;
    let mut next = 68;
    for step in &q.steps {
        places.push(next)?;
        next += 4 * step_size(step);
    }
    Ok(places)
}

/// The address of the first instruction of each block.
pub fn entries_of(alloc: Global, list: &[Block]) -> Result<Vec<u64>, AllocError>
    requires { 4 * (start_size + size_of_all (map block list.now)) ≤ 0x4fff_0000 }
    ensures { IfOk result (λ entries. IsTable entries.items (length list.now) (entry_in (map block list.now))) }
{
    let mut entries = Vec::with_capacity(alloc, list.len())?;
    let mut next = 0x10028;
    for b in list {
        entries.push(next)?;
        next += 4 * b.code.len() as u64;
    }
    Ok(entries)
}
