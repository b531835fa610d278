//! The operands of a word.

ghost use Rattle.std.specs.Prelude.{◌≡◌, ◌<◌};
ghost use Rattle.rv_table.specs.Fields.{bits, signed, store_bits, branch_bits, jump_bits, FitsBits, FitsEven};

use crate::bits::Bits;

/// The register that is written.
pub fn rd(word: u32) -> u8
    ensures value { result ≡ bits 11 7 word }
    ensures fits { result < 32 }
{
    Bits::<11, 7>::read(word) as u8
}

/// The first register that is read.
pub fn rs1(word: u32) -> u8
    ensures value { result ≡ bits 19 15 word }
    ensures fits { result < 32 }
{
    Bits::<19, 15>::read(word) as u8
}

/// The second register that is read, or a shift amount of five bits.
pub fn rs2(word: u32) -> u8
    ensures value { result ≡ bits 24 20 word }
    ensures fits { result < 32 }
{
    Bits::<24, 20>::read(word) as u8
}

/// A shift amount of six bits.
pub fn amount(word: u32) -> u8
    ensures value { result ≡ bits 25 20 word }
    ensures fits { result < 64 }
{
    Bits::<25, 20>::read(word) as u8
}

/// The immediate of the format I.
pub fn imm(word: u32) -> i32
    ensures value { result ≡ signed 12 (bits 31 20 word) }
    ensures fits { FitsBits 12 result }
{
    let raw = Bits::<31, 20>::read(word);
    if raw < 0x800 {
        raw as i32
    } else {
        raw as i32 - 0x1000
    }
}

/// The upper 20 bits of the format U, as a signed number.
pub fn upper_imm(word: u32) -> i32
    ensures value { result ≡ signed 20 (bits 31 12 word) }
    ensures fits { FitsBits 20 result }
{
    let raw = Bits::<31, 12>::read(word);
    if raw < 0x80000 {
        raw as i32
    } else {
        raw as i32 - 0x100000
    }
}

/// The immediate of the format S.
pub fn store_imm(word: u32) -> i32
    ensures value { result ≡ signed 12 (store_bits word) }
    ensures fits { FitsBits 12 result }
{
    let raw = Bits::<31, 25>::read(word) * 0x20 + Bits::<11, 7>::read(word);
    if raw < 0x800 {
        raw as i32
    } else {
        raw as i32 - 0x1000
    }
}

/// The offset of the format B.
pub fn branch_offset(word: u32) -> i32
    ensures value { result ≡ signed 13 (branch_bits word) }
    ensures fits { FitsEven 13 result }
{
    let high = Bits::<31, 31>::read(word) * 0x1000 + Bits::<7, 7>::read(word) * 0x800;
    let low = Bits::<30, 25>::read(word) * 0x20 + Bits::<11, 8>::read(word) * 2;
    let raw = high + low;
    if raw < 0x1000 {
        raw as i32
    } else {
        raw as i32 - 0x2000
    }
}

/// The offset of the format J.
pub fn jump_offset(word: u32) -> i32
    ensures value { result ≡ signed 21 (jump_bits word) }
    ensures fits { FitsEven 21 result }
{
    let high = Bits::<31, 31>::read(word) * 0x100000 + Bits::<19, 12>::read(word) * 0x1000;
    let low = Bits::<20, 20>::read(word) * 0x800 + Bits::<30, 21>::read(word) * 2;
    let raw = high + low;
    if raw < 0x100000 {
        raw as i32
    } else {
        raw as i32 - 0x200000
    }
}
