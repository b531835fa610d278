//! The instructions of each step.

ghost use Rattle.std.specs.Prelude.{true, false, ◌≡◌, ℕ, ◌+◌, ◌-◌, ◌*◌, ◌^◌, ◌<◌, ◌≤◌, pos, negsuc, [], ◌∷◌, ◌++◌, length, OnOk, IfOk};
ghost use Rattle.rv_table.specs.declared.inst.Inst.TheVariants.{Add, Addi, Bgeu, Ecall, Jalr, Ld, Sd, Sub, Slli, Srai};
ghost use Rattle.odc_core.specs.declared.tree.UnaryOp.TheVariants.{Complement};
ghost use Rattle.rv_emit.specs.Layout.{AreSlots};
ghost use Rattle.rv_emit.specs.Code.{number_code, chunk_code, word_code, slot, load_slot as slot_loaded, store_slot as slot_stored, unary_code, binary_code, compare_code, load_code, store_code, distance as distance_between, way_code, jump_code, guard_code, arguments_code, pass_code, registers_code, value_code, return_code, break_code, descriptor_number as number_of_descriptor, enter_code, start_code};

use odc_core::tree::{BinaryOp, Comparison, Descriptor, UnaryOp, Width};
use odc_text::check::Check;
use rv_table::inst::Inst;
use std::alloc::AllocError;

/// The registers of the code, by the names of the calling convention.
const RA: u8 = 1;

const SP: u8 = 2;

const FIRST: u8 = 6;

const SECOND: u8 = 7;

const S0: u8 = 8;

const A0: u8 = 10;

const A1: u8 = 11;

const A7: u8 = 17;

/// The lowest address of the stack.
const STACK_LOW: u64 = 0x7800_0000;

/// A number of 31 bits as an immediate.
fn immediate(n: u64) -> i32
    requires { n < 2 ^ 31 }
    ensures { result ≡ pos n }
{
    n as i32
}

/// Appends an instruction that adds an immediate to a register.
fn add_immediate(code: &mut Vec<Inst>, rd: u8, rs1: u8, n: u64) -> Result<(), AllocError>
    requires { n < 2 ^ 31 }
    ensures { OnOk result (code.new.items ≡ code.old.items ++ Addi rd rs1 (pos n) ∷ []) }
{
    let imm = immediate(n);
    code.push(Inst::Addi { rd, rs1, imm })?;
    Ok(())
}

/// Appends the instructions that put a number of 31 bits into a register.
pub fn emit_number(code: &mut Vec<Inst>, rd: u8, value: u64) -> Result<(), AllocError>
    requires { value < 2 ^ 31 }
    ensures { OnOk result (code.new.items ≡ code.old.items ++ number_code rd value) }
{
    let imm = immediate(value / 4096);
    code.push(Inst::Lui { rd, imm })?;
    add_immediate(code, rd, rd, value % 4096 / 2)?;
    add_immediate(code, rd, rd, value % 4096 / 2)?;
    add_immediate(code, rd, rd, value % 2)?;
    Ok(())
}

/// Appends the instructions that put eleven more bits below those of a register.
fn emit_chunk(code: &mut Vec<Inst>, rd: u8, bits: u64) -> Result<(), AllocError>
    requires { bits < 2 ^ 11 }
    ensures { OnOk result (code.new.items ≡ code.old.items ++ chunk_code rd bits) }
{
    code.push(Inst::Slli {
        rd,
        rs1: rd,
        amount: 11,
    })?;
    add_immediate(code, rd, rd, bits)?;
    Ok(())
}

/// Appends the instructions that put a word into a register.
pub fn emit_word(code: &mut Vec<Inst>, rd: u8, word: u64) -> Result<(), AllocError>
    ensures { OnOk result (code.new.items ≡ code.old.items ++ word_code rd word) }
{
    emit_number(code, rd, word / 0x2_0000_0000)?;
    emit_chunk(code, rd, word / 0x40_0000 % 2048)?;
    emit_chunk(code, rd, word / 2048 % 2048)?;
    emit_chunk(code, rd, word % 2048)?;
    Ok(())
}

/// Appends the instructions that put a temporary into a register.
pub fn load_slot(code: &mut Vec<Inst>, frame: u64, rd: u8, t: u32) -> Result<(), AllocError>
    requires { (frame ≤ 2 ^ 24) × (8 * (t + 1) ≤ frame) }
    ensures { OnOk result (code.new.items ≡ code.old.items ++ slot_loaded frame rd t) }
{
    emit_number(code, rd, frame - 8 * (u64::from(t) + 1))?;
    code.push(Inst::Add {
        rd,
        rs1: rd,
        rs2: SP,
    })?;
    code.push(Inst::Ld {
        rd,
        rs1: rd,
        imm: 0,
    })?;
    Ok(())
}

/// Appends the instructions that put a register into a temporary.
pub fn store_slot(code: &mut Vec<Inst>, frame: u64, rs: u8, t: u32) -> Result<(), AllocError>
    requires { (frame ≤ 2 ^ 24) × (8 * (t + 1) ≤ frame) }
    ensures { OnOk result (code.new.items ≡ code.old.items ++ slot_stored frame rs t) }
{
    emit_number(code, SECOND, frame - 8 * (u64::from(t) + 1))?;
    code.push(Inst::Add {
        rd: SECOND,
        rs1: SECOND,
        rs2: SP,
    })?;
    code.push(Inst::Sd {
        rs1: SECOND,
        rs2: rs,
        imm: 0,
    })?;
    Ok(())
}

/// Appends the instructions of an operation on the word in `t1`.
pub fn emit_unary(code: &mut Vec<Inst>, op: UnaryOp) -> Result<(), AllocError>
    ensures { OnOk result (code.new.items ≡ code.old.items ++ unary_code op) }
{
    match op {
        UnaryOp::Complement => emit_complement(code),
        UnaryOp::SignByte => emit_sign(code, 56),
        UnaryOp::SignHalf => emit_sign(code, 48),
        UnaryOp::SignWord => emit_sign(code, 32),
    }
}

/// Appends the instructions that turn over each bit of `t1`: what is left of the greatest word.
fn emit_complement(code: &mut Vec<Inst>) -> Result<(), AllocError>
    ensures { OnOk result (code.new.items ≡ code.old.items ++ unary_code Complement) }
{
    code.push(Inst::Addi {
        rd: SECOND,
        rs1: 0,
        imm: -1,
    })?;
    code.push(Inst::Sub {
        rd: FIRST,
        rs1: SECOND,
        rs2: FIRST,
    })?;
    Ok(())
}

/// Appends the instructions that carry on the sign of the lowest bits of `t1`, all but so many.
fn emit_sign(code: &mut Vec<Inst>, amount: u8) -> Result<(), AllocError>
    ensures { OnOk result (code.new.items ≡ code.old.items ++ (Slli 6 6 amount ∷ Srai 6 6 amount ∷ [])) }
{
    code.push(Inst::Slli {
        rd: FIRST,
        rs1: FIRST,
        amount,
    })?;
    code.push(Inst::Srai {
        rd: FIRST,
        rs1: FIRST,
        amount,
    })?;
    Ok(())
}

/// The operation on `t1` and `t2`.
pub fn binary_inst(op: BinaryOp) -> Inst
    ensures { result ≡ binary_code op }
{
    let (rd, rs1, rs2) = (FIRST, FIRST, SECOND);
    match op {
        BinaryOp::Add => Inst::Add { rd, rs1, rs2 },
        BinaryOp::Subtract => Inst::Sub { rd, rs1, rs2 },
        BinaryOp::Multiply => Inst::Mul { rd, rs1, rs2 },
        BinaryOp::Divide => Inst::Div { rd, rs1, rs2 },
        BinaryOp::DivideUnsigned => Inst::Divu { rd, rs1, rs2 },
        BinaryOp::Remainder => Inst::Rem { rd, rs1, rs2 },
        BinaryOp::RemainderUnsigned => Inst::Remu { rd, rs1, rs2 },
        BinaryOp::And => Inst::And { rd, rs1, rs2 },
        BinaryOp::Or => Inst::Or { rd, rs1, rs2 },
        BinaryOp::Xor => Inst::Xor { rd, rs1, rs2 },
        BinaryOp::ShiftLeft => Inst::Sll { rd, rs1, rs2 },
        BinaryOp::ShiftRight => Inst::Srl { rd, rs1, rs2 },
        BinaryOp::ShiftRightSigned => Inst::Sra { rd, rs1, rs2 },
    }
}

/// Appends the difference of `t1` and `t2`, and what tells of it.
fn emit_difference(code: &mut Vec<Inst>, test: Inst) -> Result<(), AllocError>
    ensures { OnOk result (code.new.items ≡ code.old.items ++ (Sub 6 6 7 ∷ test ∷ [])) }
{
    code.push(Inst::Sub {
        rd: FIRST,
        rs1: FIRST,
        rs2: SECOND,
    })?;
    code.push(test)?;
    Ok(())
}

/// Appends one instruction.
fn emit_one(code: &mut Vec<Inst>, inst: Inst) -> Result<(), AllocError>
    ensures { OnOk result (code.new.items ≡ code.old.items ++ inst ∷ []) }
{
    code.push(inst)?;
    Ok(())
}

/// Appends the instructions of a comparison of `t1` and `t2`.
pub fn emit_compare(code: &mut Vec<Inst>, op: Comparison) -> Result<(), AllocError>
    ensures { OnOk result (code.new.items ≡ code.old.items ++ compare_code op) }
{
    let (rd, rs1, rs2) = (FIRST, FIRST, SECOND);
    match op {
        Comparison::Equal => emit_difference(code, Inst::Sltiu { rd, rs1, imm: 1 }),
        Comparison::Different => emit_difference(
            code,
            Inst::Sltu {
                rd,
                rs1: 0,
                rs2: FIRST,
            },
        ),
        Comparison::Less => emit_one(code, Inst::Slt { rd, rs1, rs2 }),
        Comparison::Below => emit_one(code, Inst::Sltu { rd, rs1, rs2 }),
    }
}

/// The load from the address in `t1`.
pub fn load_inst(width: Width) -> Inst
    ensures { result ≡ load_code width }
{
    let (rd, rs1, imm) = (FIRST, FIRST, 0);
    match width {
        Width::Byte => Inst::Lbu { rd, rs1, imm },
        Width::Half => Inst::Lhu { rd, rs1, imm },
        Width::Word => Inst::Lwu { rd, rs1, imm },
        Width::Double => Inst::Ld { rd, rs1, imm },
    }
}

/// The store of `t2` to the address in `t1`.
pub fn store_inst(width: Width) -> Inst
    ensures { result ≡ store_code width }
{
    let (rs1, rs2, imm) = (FIRST, SECOND, 0);
    match width {
        Width::Byte => Inst::Sb { rs1, rs2, imm },
        Width::Half => Inst::Sh { rs1, rs2, imm },
        Width::Word => Inst::Sw { rs1, rs2, imm },
        Width::Double => Inst::Sd { rs1, rs2, imm },
    }
}

/// How far it is from one address to another, up or down.
fn distance(from: u64, to: u64) -> u64
    ensures { result ≡ distance_between from to }
{
    if to < from { from - to } else { to - from }
}

/// The instruction that goes this far from the address in `t1`.
fn way_inst(from: u64, to: u64) -> Inst
    ensures { result ≡ way_code from to }
{
    let (rd, rs1, rs2) = (FIRST, FIRST, SECOND);
    if to < from {
        Inst::Sub { rd, rs1, rs2 }
    } else {
        Inst::Add { rd, rs1, rs2 }
    }
}

/// Appends a jump that begins at one address and goes to another.
pub fn emit_jump(code: &mut Vec<Inst>, from: u64, to: u64) -> Result<(), AllocError>
    requires { (from < 2 ^ 31) × (to < 2 ^ 31) }
    ensures { OnOk result (code.new.items ≡ code.old.items ++ jump_code from to) }
{
    code.push(Inst::Auipc { rd: FIRST, imm: 0 })?;
    emit_number(code, SECOND, distance(from, to))?;
    code.push(way_inst(from, to))?;
    code.push(Inst::Jalr {
        rd: 0,
        rs1: FIRST,
        imm: 0,
    })?;
    Ok(())
}

/// Appends the instructions that put the place of so many arguments into `s0`.
fn emit_guard(code: &mut Vec<Inst>, count: u64) -> Result<(), AllocError>
    requires { 8 * count < 2 ^ 31 }
    ensures { OnOk result (code.new.items ≡ code.old.items ++ guard_code count) }
{
    emit_number(code, FIRST, 8 * count)?;
    code.push(Inst::Sub {
        rd: FIRST,
        rs1: SP,
        rs2: FIRST,
    })?;
    emit_number(code, SECOND, STACK_LOW)?;
    emit_choice(code)
}

/// Appends the instructions that put `sp` into `s0`, or the end of the stack where `t1` is below `t2`.
fn emit_choice(code: &mut Vec<Inst>) -> Result<(), AllocError>
    ensures { OnOk result (code.new.items ≡ code.old.items ++ (Addi 8 2 (pos 0) ∷ Bgeu 6 7 (pos 12) ∷ Addi 8 0 (pos 1) ∷ Slli 8 8 31 ∷ [])) }
{
    code.push(Inst::Addi {
        rd: S0,
        rs1: SP,
        imm: 0,
    })?;
    code.push(Inst::Bgeu {
        rs1: FIRST,
        rs2: SECOND,
        offset: 12,
    })?;
    code.push(Inst::Addi {
        rd: S0,
        rs1: 0,
        imm: 1,
    })?;
    code.push(Inst::Slli {
        rd: S0,
        rs1: S0,
        amount: 31,
    })?;
    Ok(())
}

/// Appends the instructions that put one argument below the last one.
fn emit_argument(code: &mut Vec<Inst>, frame: u64, t: u32) -> Result<(), AllocError>
    requires { (frame ≤ 2 ^ 24) × (8 * (t + 1) ≤ frame) }
    ensures { OnOk result (code.new.items ≡ code.old.items ++ (slot_loaded frame 6 t ++ (Addi 8 8 (negsuc 7) ∷ Sd 8 6 (pos 0) ∷ []))) }
{
    load_slot(code, frame, FIRST, t)?;
    code.push(Inst::Addi {
        rd: S0,
        rs1: S0,
        imm: -8,
    })?;
    code.push(Inst::Sd {
        rs1: S0,
        rs2: FIRST,
        imm: 0,
    })?;
    Ok(())
}

/// Appends the instructions that give up the frame and go back with a temporary in `a0`.
pub fn emit_return(code: &mut Vec<Inst>, frame: u64, value: u32) -> Result<(), AllocError>
    requires { (frame ≤ 2 ^ 24) × (8 * (value + 1) ≤ frame) }
    ensures { OnOk result (code.new.items ≡ code.old.items ++ return_code frame value) }
{
    load_slot(code, frame, A0, value)?;
    emit_leave(code, frame)
}

/// Appends the instructions that take the return address, give up the frame and go back.
fn emit_leave(code: &mut Vec<Inst>, frame: u64) -> Result<(), AllocError>
    requires { frame ≤ 2 ^ 24 }
    ensures { OnOk result (code.new.items ≡ code.old.items ++ (Ld 1 2 (pos 0) ∷ (number_code 6 frame ++ (Add 2 2 6 ∷ Jalr 0 1 (pos 0) ∷ [])))) }
{
    code.push(Inst::Ld {
        rd: RA,
        rs1: SP,
        imm: 0,
    })?;
    emit_number(code, FIRST, frame)?;
    code.push(Inst::Add {
        rd: SP,
        rs1: SP,
        rs2: FIRST,
    })?;
    code.push(Inst::Jalr {
        rd: 0,
        rs1: RA,
        imm: 0,
    })?;
    Ok(())
}

/// Appends the instructions that stop at a site by a check.
pub fn emit_break(code: &mut Vec<Inst>, check: Check, site: u64) -> Result<(), AllocError>
    requires { site < 2 ^ 31 }
    ensures { OnOk result (code.new.items ≡ code.old.items ++ break_code check site) }
{
    add_immediate(code, A0, 0, u64::from(check.number()))?;
    emit_number(code, A1, site)?;
    code.push(Inst::Ebreak)?;
    Ok(())
}

/// Appends the stack check, and the instructions that take the frame and keep the return address.
pub fn emit_enter(code: &mut Vec<Inst>, frame: u64, site: u64) -> Result<(), AllocError>
    requires { (frame ≤ 2 ^ 24) × (site < 2 ^ 31) }
    ensures { OnOk result (code.new.items ≡ code.old.items ++ enter_code frame site) }
{
    emit_number(code, FIRST, STACK_LOW + frame)?;
    code.push(Inst::Bgeu {
        rs1: SP,
        rs2: FIRST,
        offset: 28,
    })?;
    emit_break(code, Check::Stack, site)?;
    emit_number(code, FIRST, frame)?;
    code.push(Inst::Sub {
        rd: SP,
        rs1: SP,
        rs2: FIRST,
    })?;
    code.push(Inst::Sd {
        rs1: SP,
        rs2: RA,
        imm: 0,
    })?;
    Ok(())
}

/// Appends the instructions of the program's start: the stack, a call of `main`, and the exit.
pub fn emit_start(code: &mut Vec<Inst>, entry: u64) -> Result<(), AllocError>
    requires { entry < 2 ^ 31 }
    ensures { OnOk result (code.new.items ≡ code.old.items ++ start_code entry) }
{
    add_immediate(code, SP, 0, 1)?;
    code.push(Inst::Slli {
        rd: SP,
        rs1: SP,
        amount: 31,
    })?;
    emit_number(code, FIRST, entry)?;
    code.push(Inst::Jalr {
        rd: RA,
        rs1: FIRST,
        imm: 0,
    })?;
    add_immediate(code, A0, 0, 0)?;
    add_immediate(code, A7, 0, 93)?;
    code.push(Inst::Ecall)?;
    Ok(())
}

/// Appends the instructions that put all arguments below the low end of the frame, one below the other.
fn emit_arguments(code: &mut Vec<Inst>, frame: u64, arguments: &[u32]) -> Result<(), AllocError>
    requires { (frame ≤ 2 ^ 24) × AreSlots frame arguments.now }
    ensures { OnOk result (code.new.items ≡ code.old.items ++ arguments_code frame arguments.now) }
{
    for t in arguments {
        emit_argument(code, frame, *t)?;
    }
    Ok(())
}

/// Appends the instructions that pass the arguments of a call.
pub fn emit_pass(code: &mut Vec<Inst>, frame: u64, arguments: &[u32]) -> Result<(), AllocError>
    requires slots { (frame ≤ 2 ^ 24) × AreSlots frame arguments.now }
    requires few { 8 * length arguments.now < 2 ^ 31 }
    ensures { OnOk result (code.new.items ≡ code.old.items ++ pass_code frame arguments.now) }
{
    emit_guard(code, arguments.len() as u64)?;
    emit_arguments(code, frame, arguments)
}

/// Appends the instructions that jump by a register, keep where they came from, and store the answer.
fn emit_link(code: &mut Vec<Inst>, rs1: u8, frame: u64, to: u32) -> Result<(), AllocError>
    requires { (frame ≤ 2 ^ 24) × (8 * (to + 1) ≤ frame) }
    ensures { OnOk result (code.new.items ≡ code.old.items ++ (Jalr 1 rs1 (pos 0) ∷ slot_stored frame 10 to)) }
{
    code.push(Inst::Jalr {
        rd: RA,
        rs1,
        imm: 0,
    })?;
    store_slot(code, frame, A0, to)
}

/// Appends the instructions that put the six arguments of an allocator call into registers; of any other
/// number they put none.
fn emit_registers(code: &mut Vec<Inst>, frame: u64, arguments: &[u32]) -> Result<(), AllocError>
    requires { (frame ≤ 2 ^ 24) × AreSlots frame arguments.now }
    ensures { OnOk result (code.new.items ≡ code.old.items ++ registers_code frame arguments.now) }
{
    match arguments {
        [a, b, c, d, e, f] => {
            load_slot(code, frame, 10, *a)?;
            load_slot(code, frame, 11, *b)?;
            load_slot(code, frame, 12, *c)?;
            load_slot(code, frame, 13, *d)?;
            load_slot(code, frame, 14, *e)?;
            load_slot(code, frame, 15, *f)
        }
        _ => Ok(()),
    }
}

/// Appends the instructions of a service of the system by its number, with the first argument.
pub fn emit_service(code: &mut Vec<Inst>, first: u64, number: u64) -> Result<(), AllocError>
    requires { (first < 2 ^ 31) × (number < 2 ^ 31) }
    ensures { OnOk result (code.new.items ≡ code.old.items ++ (Addi 10 0 (pos first) ∷ Addi 17 0 (pos number) ∷ Ecall ∷ [])) }
{
    add_immediate(code, A0, 0, first)?;
    add_immediate(code, A7, 0, number)?;
    code.push(Inst::Ecall)?;
    Ok(())
}

/// Appends the instructions of a call of a procedure, with a hole for its entry.
pub fn emit_call(
    code: &mut Vec<Inst>,
    frame: u64,
    to: u32,
    arguments: &[u32],
) -> Result<(), AllocError>
    requires slots { (frame ≤ 2 ^ 24) × ((8 * (to + 1) ≤ frame) × AreSlots frame arguments.now) }
    requires few { 8 * length arguments.now < 2 ^ 31 }
    ensures { OnOk result (code.new.items ≡ code.old.items ++ (pass_code frame arguments.now ++ (number_code 6 0 ++ (Jalr 1 6 (pos 0) ∷ slot_stored frame 10 to)))) }
{
    emit_pass(code, frame, arguments)?;
    emit_number(code, FIRST, 0)?;
    emit_link(code, FIRST, frame, to)
}

/// Appends the instructions of a call by the word in a temporary.
pub fn emit_plain_call(
    code: &mut Vec<Inst>,
    frame: u64,
    to: u32,
    target: u32,
    arguments: &[u32],
) -> Result<(), AllocError>
    requires slots { (frame ≤ 2 ^ 24) × ((8 * (to + 1) ≤ frame) × ((8 * (target + 1) ≤ frame) × AreSlots frame arguments.now)) }
    requires few { 8 * length arguments.now < 2 ^ 31 }
    ensures { OnOk result (code.new.items ≡ code.old.items ++ value_code frame to target arguments.now false) }
{
    load_slot(code, frame, 9, target)?;
    emit_pass(code, frame, arguments)?;
    emit_link(code, 9, frame, to)
}

/// Appends the instructions of a call of an allocator by the word in a temporary.
pub fn emit_marked_call(
    code: &mut Vec<Inst>,
    frame: u64,
    to: u32,
    target: u32,
    arguments: &[u32],
) -> Result<(), AllocError>
    requires slots { (frame ≤ 2 ^ 24) × ((8 * (to + 1) ≤ frame) × ((8 * (target + 1) ≤ frame) × AreSlots frame arguments.now)) }
    requires few { 8 * length arguments.now < 2 ^ 31 }
    ensures { OnOk result (code.new.items ≡ code.old.items ++ value_code frame to target arguments.now true) }
{
    load_slot(code, frame, 5, target)?;
    emit_registers(code, frame, arguments)?;
    emit_pass(code, frame, arguments)?;
    emit_link(code, 5, frame, to)
}

/// Appends the operation on `t1` and `t2`.
pub fn emit_binary(code: &mut Vec<Inst>, op: BinaryOp) -> Result<(), AllocError>
    ensures { OnOk result (code.new.items ≡ code.old.items ++ binary_code op ∷ []) }
{
    code.push(binary_inst(op))?;
    Ok(())
}

/// Appends the load from the address in `t1`.
pub fn emit_loaded(code: &mut Vec<Inst>, width: Width) -> Result<(), AllocError>
    ensures { OnOk result (code.new.items ≡ code.old.items ++ load_code width ∷ []) }
{
    code.push(load_inst(width))?;
    Ok(())
}
