//! The block of a procedure: the code of each step.

ghost use Rattle.std.specs.Prelude.{◌≡◌, ℕ, ◌+◌, ◌*◌, ◌^◌, ◌<◌, ◌≤◌, pos, [], ◌∷◌, ◌++◌, OnOk};
ghost use Rattle.rv_table.specs.declared.inst.Inst.TheVariants.{Beq, Bne};
ghost use Rattle.rv_emit.specs.Code.{number_code, word_code, load_slot as slot_loaded, store_slot as slot_stored, unary_code, binary_code, compare_code, load_code, store_code, jump_code, break_code, system_code};

use crate::emit::{
    emit_binary, emit_break, emit_compare, emit_jump, emit_loaded, emit_unary, emit_word,
    load_slot, store_inst, store_slot,
};
use odc_core::tree::{BinaryOp, Comparison, Descriptor, UnaryOp, Width};
use odc_text::check::Check;
use rv_table::inst::Inst;
use std::alloc::AllocError;

/// Appends the instructions of a constant.
pub fn emit_const(code: &mut Vec<Inst>, frame: u64, to: u32, word: u64) -> Result<(), AllocError>
    requires { (frame ≤ 2 ^ 24) × ((8 * (to + 1) ≤ frame)) }
    ensures { OnOk result (code.new.items ≡ code.old.items ++ (word_code 6 word ++ slot_stored frame 6 to)) }
{
    emit_word(code, 6, word)?;
    store_slot(code, frame, 6, to)
}

/// Appends the instructions of a move.
pub fn emit_move(code: &mut Vec<Inst>, frame: u64, to: u32, from: u32) -> Result<(), AllocError>
    requires { (frame ≤ 2 ^ 24) × ((8 * (to + 1) ≤ frame) × (8 * (from + 1) ≤ frame)) }
    ensures { OnOk result (code.new.items ≡ code.old.items ++ (slot_loaded frame 6 from ++ slot_stored frame 6 to)) }
{
    load_slot(code, frame, 6, from)?;
    store_slot(code, frame, 6, to)
}

/// Appends the instructions of an operation on one word.
pub fn emit_unary_step(
    code: &mut Vec<Inst>,
    frame: u64,
    to: u32,
    op: UnaryOp,
    operand: u32,
) -> Result<(), AllocError>
    requires { (frame ≤ 2 ^ 24) × ((8 * (to + 1) ≤ frame) × (8 * (operand + 1) ≤ frame)) }
    ensures { OnOk result (code.new.items ≡ code.old.items ++ (slot_loaded frame 6 operand ++ (unary_code op ++ slot_stored frame 6 to))) }
{
    load_slot(code, frame, 6, operand)?;
    emit_unary(code, op)?;
    store_slot(code, frame, 6, to)
}

/// Appends the instructions of an operation on two words.
pub fn emit_binary_step(
    code: &mut Vec<Inst>,
    frame: u64,
    to: u32,
    op: BinaryOp,
    left: u32,
    right: u32,
) -> Result<(), AllocError>
    requires { (frame ≤ 2 ^ 24) × ((8 * (to + 1) ≤ frame) × ((8 * (left + 1) ≤ frame) × (8 * (right + 1) ≤ frame))) }
    ensures { OnOk result (code.new.items ≡ code.old.items ++ (slot_loaded frame 6 left ++ (slot_loaded frame 7 right ++ (binary_code op ∷ slot_stored frame 6 to)))) }
{
    load_slot(code, frame, 6, left)?;
    load_slot(code, frame, 7, right)?;
    emit_binary(code, op)?;
    store_slot(code, frame, 6, to)
}

/// Appends the instructions of a comparison.
pub fn emit_compare_step(
    code: &mut Vec<Inst>,
    frame: u64,
    to: u32,
    op: Comparison,
    left: u32,
    right: u32,
) -> Result<(), AllocError>
    requires { (frame ≤ 2 ^ 24) × ((8 * (to + 1) ≤ frame) × ((8 * (left + 1) ≤ frame) × (8 * (right + 1) ≤ frame))) }
    ensures { OnOk result (code.new.items ≡ code.old.items ++ (slot_loaded frame 6 left ++ (slot_loaded frame 7 right ++ (compare_code op ++ slot_stored frame 6 to)))) }
{
    load_slot(code, frame, 6, left)?;
    load_slot(code, frame, 7, right)?;
    emit_compare(code, op)?;
    store_slot(code, frame, 6, to)
}

/// Appends the instructions of a load.
pub fn emit_load(
    code: &mut Vec<Inst>,
    frame: u64,
    to: u32,
    width: Width,
    address: u32,
) -> Result<(), AllocError>
    requires { (frame ≤ 2 ^ 24) × ((8 * (to + 1) ≤ frame) × (8 * (address + 1) ≤ frame)) }
    ensures { OnOk result (code.new.items ≡ code.old.items ++ (slot_loaded frame 6 address ++ (load_code width ∷ slot_stored frame 6 to))) }
{
    load_slot(code, frame, 6, address)?;
    emit_loaded(code, width)?;
    store_slot(code, frame, 6, to)
}

/// Appends the instructions of a store.
pub fn emit_store(
    code: &mut Vec<Inst>,
    frame: u64,
    width: Width,
    address: u32,
    value: u32,
) -> Result<(), AllocError>
    requires { (frame ≤ 2 ^ 24) × ((8 * (address + 1) ≤ frame) × (8 * (value + 1) ≤ frame)) }
    ensures { OnOk result (code.new.items ≡ code.old.items ++ (slot_loaded frame 6 address ++ (slot_loaded frame 7 value ++ (store_code width ∷ [])))) }
{
    load_slot(code, frame, 6, address)?;
    load_slot(code, frame, 7, value)?;
    code.push(store_inst(width))?;
    Ok(())
}

/// Appends the instructions of a branch to an address.
pub fn emit_branch(
    code: &mut Vec<Inst>,
    frame: u64,
    condition: u32,
    at: u64,
    to: u64,
) -> Result<(), AllocError>
    requires slot { (frame ≤ 2 ^ 24) × (8 * (condition + 1) ≤ frame) }
    requires places { (at + 28 < 2 ^ 31) × (to < 2 ^ 31) }
    ensures { OnOk result (code.new.items ≡ code.old.items ++ (slot_loaded frame 6 condition ++ (Beq 6 0 (pos 32) ∷ jump_code (at + 28) to))) }
{
    load_slot(code, frame, 6, condition)?;
    code.push(Inst::Beq {
        rs1: 6,
        rs2: 0,
        offset: 32,
    })?;
    emit_jump(code, at + 28, to)
}

/// Appends the instructions of a check with its site.
pub fn emit_check(
    code: &mut Vec<Inst>,
    frame: u64,
    condition: u32,
    check: Check,
    site: u64,
) -> Result<(), AllocError>
    requires { (frame ≤ 2 ^ 24) × ((8 * (condition + 1) ≤ frame) × (site < 2 ^ 31)) }
    ensures { OnOk result (code.new.items ≡ code.old.items ++ (slot_loaded frame 6 condition ++ (Bne 6 0 (pos 28) ∷ break_code check site))) }
{
    load_slot(code, frame, 6, condition)?;
    code.push(Inst::Bne {
        rs1: 6,
        rs2: 0,
        offset: 28,
    })?;
    emit_break(code, check, site)
}
