//! The code of a step, whichever it is.

ghost use Rattle.std.specs.Prelude.{◌≡◌, ℕ, ◌+◌, ◌*◌, ◌^◌, ◌<◌, ◌≤◌, ◌++◌, pos, [], ◌∷◌, length, OnOk, IfOk};
ghost use Rattle.rv_table.specs.declared.inst.Inst.TheVariants.{Add, Addi, Ecall};
ghost use Rattle.odc_mid.specs.View.{proc};
ghost use Rattle.odc_mid.specs.declared.tree.SystemCall.TheVariants.{Read, Write, Exit};
ghost use Rattle.rv_emit.specs.Code.{descriptor_number as number_of_descriptor, store_slot as slot_stored, named_code, number_code, enter_size, system_code, step_code, step_sites, steps_code, step_size as size_of_step, proc_size as size_of_proc};
ghost use Rattle.rv_emit.specs.Blocks.{bare, bare_code};
ghost use Rattle.rv_emit.specs.Layout.{AreSystemSlots, IsPlaced, CanEmit, AllCanEmit};
ghost use Rattle.rv_emit.specs.Tables.{IsTable};

use crate::block::{
    emit_binary_step, emit_branch, emit_check, emit_compare_step, emit_const, emit_load, emit_move,
    emit_store, emit_unary_step,
};
use crate::emit::{
    emit_call, emit_enter, emit_jump, emit_marked_call, emit_number, emit_plain_call, emit_return,
    emit_service, load_slot, store_slot,
};
use crate::sizes::{places_of, step_size};
use odc_core::tree::Descriptor;
use odc_mid::tree::{MidProcedure, MidStep, Named, SystemCall};
use rv_table::inst::Inst;
use std::alloc::{AllocError, Global};

/// Appends the instructions of a read.
fn emit_read(
    code: &mut Vec<Inst>,
    frame: u64,
    to: u32,
    address: u32,
    size: u32,
) -> Result<(), AllocError>
    requires { (frame ≤ 2 ^ 24) × ((8 * (to + 1) ≤ frame) × ((8 * (address + 1) ≤ frame) × (8 * (size + 1) ≤ frame))) }
    ensures { OnOk result (code.new.items ≡ code.old.items ++ system_code frame (Read to address size)) }
{
    load_slot(code, frame, 11, address)?;
    load_slot(code, frame, 12, size)?;
    emit_service(code, 0, 63)?;
    store_slot(code, frame, 10, to)
}

/// Appends the call of the system that writes to a descriptor.
fn emit_descriptor(code: &mut Vec<Inst>, descriptor: Descriptor) -> Result<(), AllocError>
    ensures { OnOk result (code.new.items ≡ code.old.items ++ (Addi 10 0 (pos (number_of_descriptor descriptor)) ∷ Addi 17 0 (pos 64) ∷ Ecall ∷ [])) }
{
    match descriptor {
        Descriptor::Out => emit_service(code, 1, 64),
        Descriptor::Err => emit_service(code, 2, 64),
    }
}

/// Appends the instructions of a write.
fn emit_write(
    code: &mut Vec<Inst>,
    frame: u64,
    descriptor: Descriptor,
    address: u32,
    size: u32,
) -> Result<(), AllocError>
    requires { (frame ≤ 2 ^ 24) × ((8 * (address + 1) ≤ frame) × (8 * (size + 1) ≤ frame)) }
    ensures { OnOk result (code.new.items ≡ code.old.items ++ system_code frame (Write descriptor address size)) }
{
    load_slot(code, frame, 11, address)?;
    load_slot(code, frame, 12, size)?;
    emit_descriptor(code, descriptor)
}

/// Appends the instructions of an exit.
fn emit_exit(code: &mut Vec<Inst>, frame: u64, status: u32) -> Result<(), AllocError>
    requires { (frame ≤ 2 ^ 24) × (8 * (status + 1) ≤ frame) }
    ensures { OnOk result (code.new.items ≡ code.old.items ++ system_code frame (Exit status)) }
{
    load_slot(code, frame, 10, status)?;
    code.push(Inst::Addi {
        rd: 17,
        rs1: 0,
        imm: 93,
    })?;
    code.push(Inst::Ecall)?;
    Ok(())
}

/// Appends the instructions of a call of the system.
fn emit_system(code: &mut Vec<Inst>, frame: u64, call: SystemCall) -> Result<(), AllocError>
    requires { (frame ≤ 2 ^ 24) × AreSystemSlots frame call }
    ensures { OnOk result (code.new.items ≡ code.old.items ++ system_code frame call) }
{
    match call {
        SystemCall::Read { to, address, size } => emit_read(code, frame, to, address, size),
        SystemCall::Write {
            descriptor,
            address,
            size,
        } => emit_write(code, frame, descriptor, address, size),
        SystemCall::Exit { code: status } => emit_exit(code, frame, status),
    }
}

/// Appends the instructions that put an address into `t1`, or that have a hole for it.
fn emit_named(code: &mut Vec<Inst>, q: &MidProcedure, of: Named) -> Result<(), AllocError>
    requires placed { IsPlaced (bare (proc q.now)) of }
    ensures { OnOk result (code.new.items ≡ code.old.items ++ named_code (bare (proc q.now)) of) }
{
    match of {
        Named::Variable(x) => emit_offset(code, u64::from(q.variables[x as usize].offset)),
        Named::Stored(_) => emit_number(code, 6, 0),
        Named::Procedure(_) => emit_number(code, 6, 0),
    }
}

/// Appends the instructions that put an address in the frame into `t1`.
fn emit_offset(code: &mut Vec<Inst>, offset: u64) -> Result<(), AllocError>
    requires { offset < 2 ^ 31 }
    ensures { OnOk result (code.new.items ≡ code.old.items ++ (number_code 6 offset ++ (Add 6 6 2 ∷ []))) }
{
    emit_number(code, 6, offset)?;
    code.push(Inst::Add {
        rd: 6,
        rs1: 6,
        rs2: 2,
    })?;
    Ok(())
}

/// Appends the instructions of an address.
fn emit_address(
    code: &mut Vec<Inst>,
    q: &MidProcedure,
    to: u32,
    of: Named,
) -> Result<(), AllocError>
    requires placed { IsPlaced (bare (proc q.now)) of }
    requires slot { (q.now.frame ≤ 2 ^ 24) × (8 * (to + 1) ≤ q.now.frame) }
    ensures { OnOk result (code.new.items ≡ code.old.items ++ (named_code (bare (proc q.now)) of ++ slot_stored q.now.frame 6 to)) }
{
    let frame = u64::from(q.frame);
    emit_named(code, q, of)?;
    store_slot(code, frame, 6, to)
}

/// Appends the instructions of a step that begins at an offset in its block. `places` are the offsets of
/// all steps; a check has this site in the block.
pub fn emit_step(
    code: &mut Vec<Inst>,
    q: &MidProcedure,
    places: &[u64],
    at: u64,
    site: u64,
    step: &MidStep,
) -> Result<(), AllocError>
    requires can { CanEmit (bare (proc q.now)) (length q.now.steps.items) step.now }
    requires frame { q.now.frame ≤ 2 ^ 24 }
    requires places { IsTable places.now (length q.now.steps.items) (bare (proc q.now)).place }
    requires at { at + 4 * size_of_step step.now < 2 ^ 31 }
    requires site { site < 2 ^ 31 }
    ensures { OnOk result (code.new.items ≡ code.old.items ++ step_code (bare (proc q.now)) at site step.now) }
{
    let frame = u64::from(q.frame);
    match step {
        MidStep::Const { to, word } => emit_const(code, frame, *to, *word),
        MidStep::Address { to, of } => emit_address(code, q, *to, *of),
        MidStep::Move { to, from } => emit_move(code, frame, *to, *from),
        MidStep::Unary { to, op, operand } => emit_unary_step(code, frame, *to, *op, *operand),
        MidStep::Binary {
            to,
            op,
            left,
            right,
        } => emit_binary_step(code, frame, *to, *op, *left, *right),
        MidStep::Compare {
            to,
            op,
            left,
            right,
        } => emit_compare_step(code, frame, *to, *op, *left, *right),
        MidStep::Load { to, width, address } => emit_load(code, frame, *to, *width, *address),
        MidStep::Store {
            width,
            address,
            value,
        } => emit_store(code, frame, *width, *address, *value),
        MidStep::Jump { label } => emit_jump(code, at, places[*label as usize]),
        MidStep::Branch { condition, label } => {
            emit_branch(code, frame, *condition, at, places[*label as usize])
        }
        MidStep::Call {
            to,
            procedure: _,
            arguments,
        } => emit_call(code, frame, *to, arguments),
        MidStep::CallValue {
            to,
            target,
            arguments,
            marked,
        } => {
            if *marked {
                emit_marked_call(code, frame, *to, *target, arguments)
            } else {
                emit_plain_call(code, frame, *to, *target, arguments)
            }
        }
        MidStep::Return { value } => emit_return(code, frame, *value),
        MidStep::Check {
            condition,
            check,
            at: _,
        } => emit_check(code, frame, *condition, *check, site),
        MidStep::System { call } => emit_system(code, frame, *call),
    }
}

/// How many sites a step has.
fn site_count(step: &MidStep) -> u64
    ensures { result ≡ length (step_sites step.now) }
{
    match step {
        MidStep::Check { .. } => 1,
        _ => 0,
    }
}

/// Appends the instructions of all steps of a procedure. They begin behind its entry, and their sites
/// behind that of its stack check.
fn emit_steps(code: &mut Vec<Inst>, q: &MidProcedure, places: &[u64]) -> Result<(), AllocError>
    requires can { AllCanEmit (bare (proc q.now)) (length q.now.steps.items) q.now.steps.items }
    requires frame { q.now.frame ≤ 2 ^ 24 }
    requires places { IsTable places.now (length q.now.steps.items) (bare (proc q.now)).place }
    requires low { 4 * size_of_proc (proc q.now) < 2 ^ 31 }
    ensures { OnOk result (code.new.items ≡ code.old.items ++ steps_code (bare (proc q.now)) (4 * enter_size) 1 q.now.steps.items) }
{
    let mut at = 68;
    let mut site = 1;
    for step in &q.steps {
        emit_step(code, q, places, at, site, step)?;
        at += 4 * step_size(step);
        site += site_count(step);
    }
    Ok(())
}

/// The code of a procedure: its entry, and its steps. Holes hold 0 or the block's own number of a site.
pub fn emit_proc(alloc: Global, q: &MidProcedure) -> Result<Vec<Inst>, AllocError>
    requires can { AllCanEmit (bare (proc q.now)) (length q.now.steps.items) q.now.steps.items }
    requires frame { q.now.frame ≤ 2 ^ 24 }
    requires low { 4 * size_of_proc (proc q.now) < 2 ^ 31 }
    ensures { IfOk result (λ code. code.items ≡ bare_code (proc q.now)) }
{
    let places = places_of(alloc, q)?;
    let mut code = Vec::new(alloc);
    emit_enter(&mut code, u64::from(q.frame), 0)?;
    emit_steps(&mut code, q, &places)?;
    Ok(code)
}
