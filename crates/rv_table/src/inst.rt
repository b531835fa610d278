//! The instructions of RV64IM: one variant for each row of the table.
//!
//! Source: the RISC-V unprivileged manual, chapters RV32I, RV64I and "M".

/// An instruction with its operands.
///
/// - `rd`, `rs1`, `rs2` are register numbers, from 0 to 31. Register 0 reads as 0, and a write to it is lost.
/// - `imm` is the sign-extended immediate: 12 bits, or the signed 20 upper bits for `Lui` and `Auipc`.
/// - `offset` is the signed distance in bytes from this instruction to the target, always even: 13 bits for a branch, 21 bits for `Jal`.
/// - `amount` is a shift amount: below 64, or below 32 for a form on 32 bits.
///
/// Addresses and arithmetic wrap at 2^64. A load or a store is at `rs1` + `imm`.
/// Division by 0 gives all ones as the quotient and the dividend as the remainder; the least value divided by -1 gives itself, remainder 0.
#[derive(Clone, Copy)]
pub enum Inst {
    /// `rd` = `imm` times 2^12.
    Lui { rd: u8, imm: i32 },
    /// `rd` = the address of this instruction + `imm` times 2^12.
    Auipc { rd: u8, imm: i32 },
    /// `rd` = the address of the next instruction; goes to this address + `offset`.
    Jal { rd: u8, offset: i32 },
    /// `rd` = the address of the next instruction; goes to `rs1` + `imm` with bit 0 cleared.
    Jalr { rd: u8, rs1: u8, imm: i32 },
    /// Loads a byte, sign-extended.
    Lb { rd: u8, rs1: u8, imm: i32 },
    /// Loads 2 bytes, sign-extended.
    Lh { rd: u8, rs1: u8, imm: i32 },
    /// Loads 4 bytes, sign-extended.
    Lw { rd: u8, rs1: u8, imm: i32 },
    /// Loads 8 bytes.
    Ld { rd: u8, rs1: u8, imm: i32 },
    /// Loads a byte, zero-extended.
    Lbu { rd: u8, rs1: u8, imm: i32 },
    /// Loads 2 bytes, zero-extended.
    Lhu { rd: u8, rs1: u8, imm: i32 },
    /// Loads 4 bytes, zero-extended.
    Lwu { rd: u8, rs1: u8, imm: i32 },
    /// `rd` = `rs1` + `imm`.
    Addi { rd: u8, rs1: u8, imm: i32 },
    /// `rd` = 1 where `rs1` < `imm` as signed numbers, else 0.
    Slti { rd: u8, rs1: u8, imm: i32 },
    /// `rd` = 1 where `rs1` < `imm` as unsigned numbers, else 0.
    Sltiu { rd: u8, rs1: u8, imm: i32 },
    /// `rd` = `rs1` ^ `imm`.
    Xori { rd: u8, rs1: u8, imm: i32 },
    /// `rd` = `rs1` | `imm`.
    Ori { rd: u8, rs1: u8, imm: i32 },
    /// `rd` = `rs1` & `imm`.
    Andi { rd: u8, rs1: u8, imm: i32 },
    /// `rd` = the low 32 bits of `rs1` + `imm`, sign-extended.
    Addiw { rd: u8, rs1: u8, imm: i32 },
    /// Orders memory accesses: does nothing here. Its three fields are kept.
    Fence { rd: u8, rs1: u8, imm: i32 },
    /// Branches where `rs1` = `rs2`.
    Beq { rs1: u8, rs2: u8, offset: i32 },
    /// Branches where `rs1` and `rs2` differ.
    Bne { rs1: u8, rs2: u8, offset: i32 },
    /// Branches where `rs1` < `rs2` as signed numbers.
    Blt { rs1: u8, rs2: u8, offset: i32 },
    /// Branches where `rs1` >= `rs2` as signed numbers.
    Bge { rs1: u8, rs2: u8, offset: i32 },
    /// Branches where `rs1` < `rs2` as unsigned numbers.
    Bltu { rs1: u8, rs2: u8, offset: i32 },
    /// Branches where `rs1` >= `rs2` as unsigned numbers.
    Bgeu { rs1: u8, rs2: u8, offset: i32 },
    /// Stores the low byte of `rs2`.
    Sb { rs1: u8, rs2: u8, imm: i32 },
    /// Stores the low 2 bytes of `rs2`.
    Sh { rs1: u8, rs2: u8, imm: i32 },
    /// Stores the low 4 bytes of `rs2`.
    Sw { rs1: u8, rs2: u8, imm: i32 },
    /// Stores the 8 bytes of `rs2`.
    Sd { rs1: u8, rs2: u8, imm: i32 },
    /// `rd` = `rs1` shifted left by `amount`.
    Slli { rd: u8, rs1: u8, amount: u8 },
    /// `rd` = `rs1` shifted right by `amount`, zeros in.
    Srli { rd: u8, rs1: u8, amount: u8 },
    /// `rd` = `rs1` shifted right by `amount`, copies of the sign in.
    Srai { rd: u8, rs1: u8, amount: u8 },
    /// `rd` = the low 32 bits of `rs1` shifted left by `amount`, sign-extended.
    Slliw { rd: u8, rs1: u8, amount: u8 },
    /// `rd` = the low 32 bits of `rs1` shifted right by `amount`, zeros in, sign-extended.
    Srliw { rd: u8, rs1: u8, amount: u8 },
    /// `rd` = the low 32 bits of `rs1` shifted right by `amount`, copies of their sign in, sign-extended.
    Sraiw { rd: u8, rs1: u8, amount: u8 },
    /// `rd` = `rs1` + `rs2`.
    Add { rd: u8, rs1: u8, rs2: u8 },
    /// `rd` = `rs1` shifted left by the low 6 bits of `rs2`.
    Sll { rd: u8, rs1: u8, rs2: u8 },
    /// `rd` = 1 where `rs1` < `rs2` as signed numbers, else 0.
    Slt { rd: u8, rs1: u8, rs2: u8 },
    /// `rd` = 1 where `rs1` < `rs2` as unsigned numbers, else 0.
    Sltu { rd: u8, rs1: u8, rs2: u8 },
    /// `rd` = `rs1` ^ `rs2`.
    Xor { rd: u8, rs1: u8, rs2: u8 },
    /// `rd` = `rs1` shifted right by the low 6 bits of `rs2`, zeros in.
    Srl { rd: u8, rs1: u8, rs2: u8 },
    /// `rd` = `rs1` | `rs2`.
    Or { rd: u8, rs1: u8, rs2: u8 },
    /// `rd` = `rs1` & `rs2`.
    And { rd: u8, rs1: u8, rs2: u8 },
    /// `rd` = `rs1` - `rs2`.
    Sub { rd: u8, rs1: u8, rs2: u8 },
    /// `rd` = `rs1` shifted right by the low 6 bits of `rs2`, copies of the sign in.
    Sra { rd: u8, rs1: u8, rs2: u8 },
    /// `rd` = the low 64 bits of `rs1` * `rs2`.
    Mul { rd: u8, rs1: u8, rs2: u8 },
    /// `rd` = the high 64 bits of the product of two signed numbers.
    Mulh { rd: u8, rs1: u8, rs2: u8 },
    /// `rd` = the high 64 bits of the product of signed `rs1` and unsigned `rs2`.
    Mulhsu { rd: u8, rs1: u8, rs2: u8 },
    /// `rd` = the high 64 bits of the product of two unsigned numbers.
    Mulhu { rd: u8, rs1: u8, rs2: u8 },
    /// `rd` = the signed quotient, cut toward zero.
    Div { rd: u8, rs1: u8, rs2: u8 },
    /// `rd` = the unsigned quotient.
    Divu { rd: u8, rs1: u8, rs2: u8 },
    /// `rd` = the remainder of `Div`, with the sign of the dividend.
    Rem { rd: u8, rs1: u8, rs2: u8 },
    /// `rd` = the unsigned remainder.
    Remu { rd: u8, rs1: u8, rs2: u8 },
    /// `Add` on 32 bits, sign-extended.
    Addw { rd: u8, rs1: u8, rs2: u8 },
    /// `Sub` on 32 bits, sign-extended.
    Subw { rd: u8, rs1: u8, rs2: u8 },
    /// `Sll` on 32 bits, by the low 5 bits of `rs2`, sign-extended.
    Sllw { rd: u8, rs1: u8, rs2: u8 },
    /// `Srl` on 32 bits, by the low 5 bits of `rs2`, sign-extended.
    Srlw { rd: u8, rs1: u8, rs2: u8 },
    /// `Sra` on 32 bits, by the low 5 bits of `rs2`, sign-extended.
    Sraw { rd: u8, rs1: u8, rs2: u8 },
    /// `Mul` on 32 bits, sign-extended.
    Mulw { rd: u8, rs1: u8, rs2: u8 },
    /// `Div` on 32 bits, sign-extended.
    Divw { rd: u8, rs1: u8, rs2: u8 },
    /// `Divu` on 32 bits, sign-extended.
    Divuw { rd: u8, rs1: u8, rs2: u8 },
    /// `Rem` on 32 bits, sign-extended.
    Remw { rd: u8, rs1: u8, rs2: u8 },
    /// `Remu` on 32 bits, sign-extended.
    Remuw { rd: u8, rs1: u8, rs2: u8 },
    /// Asks the system around the machine for a service.
    Ecall,
    /// Stops at a check.
    Ebreak,
}
