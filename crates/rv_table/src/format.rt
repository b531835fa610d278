//! A word from its fields, one function for each format.

ghost use Rattle.std.specs.Prelude.{◌≡◌, ◌^◌, ◌<◌};
ghost use Rattle.rv_table.specs.Fields.{bits, signed, joined, store_bits, branch_bits, jump_bits, FitsBits, FitsEven};

use crate::bits::Bits;

fn join(opcode: u32, rd: u8, funct3: u32, rs1: u8, rs2: u8, funct7: u32) -> u32
    requires fixed { (opcode < 2 ^ 7) × (funct3 < 2 ^ 3) × (funct7 < 2 ^ 7) }
    requires registers { (rd < 2 ^ 5) × (rs1 < 2 ^ 5) × (rs2 < 2 ^ 5) }
    ensures { result ≡ joined opcode rd funct3 rs1 rs2 funct7 }
{
    let low = Bits::<6, 0>::place(opcode) + Bits::<11, 7>::place(u32::from(rd));
    let middle = Bits::<14, 12>::place(funct3) + Bits::<19, 15>::place(u32::from(rs1));
    let high = Bits::<24, 20>::place(u32::from(rs2)) + Bits::<31, 25>::place(funct7);
    low + middle + high
}

/// Format R, and shifts by five bits, whose amount stands in the place of `rs2`.
pub fn register(opcode: u32, funct3: u32, funct7: u32, rd: u8, rs1: u8, rs2: u8) -> u32
    requires fixed { (opcode < 2 ^ 7) × (funct3 < 2 ^ 3) × (funct7 < 2 ^ 7) }
    requires operands { (rd < 2 ^ 5) × (rs1 < 2 ^ 5) × (rs2 < 2 ^ 5) }
    ensures opcode { bits 6 0 result ≡ opcode }
    ensures funct3 { bits 14 12 result ≡ funct3 }
    ensures funct7 { bits 31 25 result ≡ funct7 }
    ensures rd { bits 11 7 result ≡ rd }
    ensures rs1 { bits 19 15 result ≡ rs1 }
    ensures rs2 { bits 24 20 result ≡ rs2 }
{
    join(opcode, rd, funct3, rs1, rs2, funct7)
}

/// Shifts by six bits, under the upper six bits of the word.
pub fn shift(opcode: u32, funct3: u32, upper_six: u32, rd: u8, rs1: u8, amount: u8) -> u32
    requires fixed { (opcode < 2 ^ 7) × (funct3 < 2 ^ 3) × (upper_six < 2 ^ 6) }
    requires operands { (rd < 2 ^ 5) × (rs1 < 2 ^ 5) × (amount < 2 ^ 6) }
    ensures opcode { bits 6 0 result ≡ opcode }
    ensures funct3 { bits 14 12 result ≡ funct3 }
    ensures upper_six { bits 31 26 result ≡ upper_six }
    ensures rd { bits 11 7 result ≡ rd }
    ensures rs1 { bits 19 15 result ≡ rs1 }
    ensures amount { bits 25 20 result ≡ amount }
{
    let funct7 = upper_six * 2 + u32::from(amount / 0x20);
    join(opcode, rd, funct3, rs1, amount % 0x20, funct7)
}

/// Format I.
pub fn immediate(opcode: u32, funct3: u32, rd: u8, rs1: u8, imm: i32) -> u32
    requires fixed { (opcode < 2 ^ 7) × (funct3 < 2 ^ 3) }
    requires operands { (rd < 2 ^ 5) × (rs1 < 2 ^ 5) × FitsBits 12 imm }
    ensures opcode { bits 6 0 result ≡ opcode }
    ensures funct3 { bits 14 12 result ≡ funct3 }
    ensures rd { bits 11 7 result ≡ rd }
    ensures rs1 { bits 19 15 result ≡ rs1 }
    ensures imm { signed 12 (bits 31 20 result) ≡ imm }
{
    let raw = if imm < 0 {
        (imm + 0x1000) as u32
    } else {
        imm as u32
    };
    join(opcode, rd, funct3, rs1, (raw % 0x20) as u8, raw / 0x20)
}

/// Format S.
pub fn store(opcode: u32, funct3: u32, rs1: u8, rs2: u8, imm: i32) -> u32
    requires fixed { (opcode < 2 ^ 7) × (funct3 < 2 ^ 3) }
    requires operands { (rs1 < 2 ^ 5) × (rs2 < 2 ^ 5) × FitsBits 12 imm }
    ensures opcode { bits 6 0 result ≡ opcode }
    ensures funct3 { bits 14 12 result ≡ funct3 }
    ensures rs1 { bits 19 15 result ≡ rs1 }
    ensures rs2 { bits 24 20 result ≡ rs2 }
    ensures imm { signed 12 (store_bits result) ≡ imm }
{
    let raw = if imm < 0 {
        (imm + 0x1000) as u32
    } else {
        imm as u32
    };
    join(opcode, (raw % 0x20) as u8, funct3, rs1, rs2, raw / 0x20)
}

/// Format B.
pub fn branch(opcode: u32, funct3: u32, rs1: u8, rs2: u8, offset: i32) -> u32
    requires fixed { (opcode < 2 ^ 7) × (funct3 < 2 ^ 3) }
    requires operands { (rs1 < 2 ^ 5) × (rs2 < 2 ^ 5) × FitsEven 13 offset }
    ensures opcode { bits 6 0 result ≡ opcode }
    ensures funct3 { bits 14 12 result ≡ funct3 }
    ensures rs1 { bits 19 15 result ≡ rs1 }
    ensures rs2 { bits 24 20 result ≡ rs2 }
    ensures offset { signed 13 (branch_bits result) ≡ offset }
{
    let raw = if offset < 0 {
        (offset + 0x2000) as u32
    } else {
        offset as u32
    };
    let low = raw % 0x20 + raw / 0x800 % 2;
    join(
        opcode,
        low as u8,
        funct3,
        rs1,
        rs2,
        raw / 0x1000 * 0x40 + raw / 0x20 % 0x40,
    )
}

/// Format U.
pub fn upper(opcode: u32, rd: u8, imm: i32) -> u32
    requires fixed { opcode < 2 ^ 7 }
    requires operands { (rd < 2 ^ 5) × FitsBits 20 imm }
    ensures opcode { bits 6 0 result ≡ opcode }
    ensures rd { bits 11 7 result ≡ rd }
    ensures imm { signed 20 (bits 31 12 result) ≡ imm }
{
    let raw = if imm < 0 {
        (imm + 0x100000) as u32
    } else {
        imm as u32
    };
    let low = Bits::<6, 0>::place(opcode) + Bits::<11, 7>::place(u32::from(rd));
    low + Bits::<31, 12>::place(raw)
}

/// Format J.
pub fn jump(opcode: u32, rd: u8, offset: i32) -> u32
    requires fixed { opcode < 2 ^ 7 }
    requires operands { (rd < 2 ^ 5) × FitsEven 21 offset }
    ensures opcode { bits 6 0 result ≡ opcode }
    ensures rd { bits 11 7 result ≡ rd }
    ensures offset { signed 21 (jump_bits result) ≡ offset }
{
    let raw = if offset < 0 {
        (offset + 0x200000) as u32
    } else {
        offset as u32
    };
    let low = Bits::<6, 0>::place(opcode) + Bits::<11, 7>::place(u32::from(rd));
    let middle = Bits::<19, 12>::place(raw / 0x1000 % 0x100)
        + Bits::<20, 20>::place(raw / 0x800 % 2);
    let high = Bits::<30, 21>::place(raw / 2 % 0x400) + Bits::<31, 31>::place(raw / 0x100000);
    low + middle + high
}
