//! Words and instructions.

// The words are those of another assembler (LLVM's), one row or more of each format.
ghost use Rattle.rv_table.specs.Table.{Fits};

use rv_table::inst::Inst;
use rv_table::{decode, encode};
use std::process::Abort;

// The instruction has this word, and the word means an instruction of this word.
fn same(rt: &impl Abort, inst: Inst, word: u32)
    requires { Fits inst }
{
    assert_eq!(rt; encode(inst), word);
    let back = decode(word).map(|inst| encode(inst));
    assert_eq!(rt; back, Some(word));
}

#[test]
fn words_of_rows_1(rt: HostRuntime) {
    same(
        &rt,
        Inst::Lui {
            rd: 10,
            imm: -524288,
        },
        0x80000537,
    );
    same(
        &rt,
        Inst::Auipc {
            rd: 17,
            imm: 524287,
        },
        0x7ffff897,
    );
    same(
        &rt,
        Inst::Jal {
            rd: 24,
            offset: -1048576,
        },
        0x80000c6f,
    );
    same(
        &rt,
        Inst::Jal {
            rd: 24,
            offset: 699050,
        },
        0x2abaac6f,
    );
    same(
        &rt,
        Inst::Jalr {
            rd: 31,
            rs1: 17,
            imm: -1366,
        },
        0xaaa88fe7,
    );
    same(
        &rt,
        Inst::Lb {
            rd: 6,
            rs1: 28,
            imm: -2048,
        },
        0x800e0303,
    );
    same(
        &rt,
        Inst::Lh {
            rd: 13,
            rs1: 7,
            imm: 2047,
        },
        0x7ff39683,
    );
    same(
        &rt,
        Inst::Lw {
            rd: 20,
            rs1: 18,
            imm: -1,
        },
        0xfff92a03,
    );
    same(
        &rt,
        Inst::Ld {
            rd: 27,
            rs1: 29,
            imm: 1365,
        },
        0x555ebd83,
    );
    same(
        &rt,
        Inst::Lbu {
            rd: 2,
            rs1: 8,
            imm: -1366,
        },
        0xaaa44103,
    );
    same(
        &rt,
        Inst::Lhu {
            rd: 9,
            rs1: 19,
            imm: -2048,
        },
        0x8009d483,
    );
    same(
        &rt,
        Inst::Lwu {
            rd: 16,
            rs1: 30,
            imm: 2047,
        },
        0x7fff6803,
    );
    same(
        &rt,
        Inst::Addi {
            rd: 23,
            rs1: 9,
            imm: -1,
        },
        0xfff48b93,
    );
    same(
        &rt,
        Inst::Slti {
            rd: 30,
            rs1: 20,
            imm: 1365,
        },
        0x555a2f13,
    );
    same(
        &rt,
        Inst::Sltiu {
            rd: 5,
            rs1: 31,
            imm: -1366,
        },
        0xaaafb293,
    );
    same(
        &rt,
        Inst::Xori {
            rd: 12,
            rs1: 10,
            imm: -2048,
        },
        0x80054613,
    );
    same(
        &rt,
        Inst::Ori {
            rd: 19,
            rs1: 21,
            imm: 2047,
        },
        0x7ffae993,
    );
}

#[test]
fn words_of_rows_2(rt: HostRuntime) {
    same(
        &rt,
        Inst::Andi {
            rd: 26,
            rs1: 0,
            imm: -1,
        },
        0xfff07d13,
    );
    same(
        &rt,
        Inst::Addiw {
            rd: 1,
            rs1: 11,
            imm: 1365,
        },
        0x5555809b,
    );
    same(
        &rt,
        Inst::Fence {
            rd: 0,
            rs1: 0,
            imm: 0x33,
        },
        0x0330000f,
    );
    same(
        &rt,
        Inst::Beq {
            rs1: 15,
            rs2: 1,
            offset: -2,
        },
        0xfe178fe3,
    );
    same(
        &rt,
        Inst::Bne {
            rs1: 22,
            rs2: 12,
            offset: 2730,
        },
        0x2acb15e3,
    );
    same(
        &rt,
        Inst::Blt {
            rs1: 29,
            rs2: 23,
            offset: -1366,
        },
        0xab7ec5e3,
    );
    same(
        &rt,
        Inst::Bge {
            rs1: 4,
            rs2: 2,
            offset: 2046,
        },
        0x7e225f63,
    );
    same(
        &rt,
        Inst::Bltu {
            rs1: 11,
            rs2: 13,
            offset: -4096,
        },
        0x80d5e063,
    );
    same(
        &rt,
        Inst::Bgeu {
            rs1: 18,
            rs2: 24,
            offset: 4094,
        },
        0x7f897fe3,
    );
    same(
        &rt,
        Inst::Sb {
            rs1: 25,
            rs2: 3,
            imm: 1365,
        },
        0x543c8aa3,
    );
    same(
        &rt,
        Inst::Sh {
            rs1: 0,
            rs2: 14,
            imm: -1366,
        },
        0xaae01523,
    );
    same(
        &rt,
        Inst::Sw {
            rs1: 7,
            rs2: 25,
            imm: -2048,
        },
        0x8193a023,
    );
    same(
        &rt,
        Inst::Sd {
            rs1: 14,
            rs2: 4,
            imm: 2047,
        },
        0x7e473fa3,
    );
    same(
        &rt,
        Inst::Slli {
            rd: 21,
            rs1: 15,
            amount: 63,
        },
        0x03f79a93,
    );
    same(
        &rt,
        Inst::Srli {
            rd: 28,
            rs1: 26,
            amount: 62,
        },
        0x03ed5e13,
    );
    same(
        &rt,
        Inst::Srai {
            rd: 3,
            rs1: 5,
            amount: 61,
        },
        0x43d2d193,
    );
    same(
        &rt,
        Inst::Slliw {
            rd: 10,
            rs1: 16,
            amount: 31,
        },
        0x01f8151b,
    );
}

#[test]
fn words_of_rows_3(rt: HostRuntime) {
    same(
        &rt,
        Inst::Srliw {
            rd: 17,
            rs1: 27,
            amount: 30,
        },
        0x01edd89b,
    );
    same(
        &rt,
        Inst::Sraiw {
            rd: 24,
            rs1: 6,
            amount: 29,
        },
        0x41d35c1b,
    );
    same(
        &rt,
        Inst::Add {
            rd: 31,
            rs1: 17,
            rs2: 19,
        },
        0x01388fb3,
    );
    same(
        &rt,
        Inst::Sll {
            rd: 6,
            rs1: 28,
            rs2: 0,
        },
        0x000e1333,
    );
    same(
        &rt,
        Inst::Slt {
            rd: 13,
            rs1: 7,
            rs2: 13,
        },
        0x00d3a6b3,
    );
    same(
        &rt,
        Inst::Sltu {
            rd: 20,
            rs1: 18,
            rs2: 26,
        },
        0x01a93a33,
    );
    same(
        &rt,
        Inst::Xor {
            rd: 27,
            rs1: 29,
            rs2: 7,
        },
        0x007ecdb3,
    );
    same(
        &rt,
        Inst::Srl {
            rd: 2,
            rs1: 8,
            rs2: 20,
        },
        0x01445133,
    );
    same(
        &rt,
        Inst::Or {
            rd: 9,
            rs1: 19,
            rs2: 1,
        },
        0x0019e4b3,
    );
    same(
        &rt,
        Inst::And {
            rd: 16,
            rs1: 30,
            rs2: 14,
        },
        0x00ef7833,
    );
    same(
        &rt,
        Inst::Sub {
            rd: 23,
            rs1: 9,
            rs2: 27,
        },
        0x41b48bb3,
    );
    same(
        &rt,
        Inst::Sra {
            rd: 30,
            rs1: 20,
            rs2: 8,
        },
        0x408a5f33,
    );
    same(
        &rt,
        Inst::Mul {
            rd: 5,
            rs1: 31,
            rs2: 21,
        },
        0x035f82b3,
    );
    same(
        &rt,
        Inst::Mulh {
            rd: 12,
            rs1: 10,
            rs2: 2,
        },
        0x02251633,
    );
    same(
        &rt,
        Inst::Mulhsu {
            rd: 19,
            rs1: 21,
            rs2: 15,
        },
        0x02faa9b3,
    );
    same(
        &rt,
        Inst::Mulhu {
            rd: 26,
            rs1: 0,
            rs2: 28,
        },
        0x03c03d33,
    );
    same(
        &rt,
        Inst::Div {
            rd: 1,
            rs1: 11,
            rs2: 9,
        },
        0x0295c0b3,
    );
}

#[test]
fn words_of_rows_4(rt: HostRuntime) {
    same(
        &rt,
        Inst::Divu {
            rd: 8,
            rs1: 22,
            rs2: 22,
        },
        0x036b5433,
    );
    same(
        &rt,
        Inst::Rem {
            rd: 15,
            rs1: 1,
            rs2: 3,
        },
        0x0230e7b3,
    );
    same(
        &rt,
        Inst::Remu {
            rd: 22,
            rs1: 12,
            rs2: 16,
        },
        0x03067b33,
    );
    same(
        &rt,
        Inst::Addw {
            rd: 29,
            rs1: 23,
            rs2: 29,
        },
        0x01db8ebb,
    );
    same(
        &rt,
        Inst::Subw {
            rd: 4,
            rs1: 2,
            rs2: 10,
        },
        0x40a1023b,
    );
    same(
        &rt,
        Inst::Sllw {
            rd: 11,
            rs1: 13,
            rs2: 23,
        },
        0x017695bb,
    );
    same(
        &rt,
        Inst::Srlw {
            rd: 18,
            rs1: 24,
            rs2: 4,
        },
        0x004c593b,
    );
    same(
        &rt,
        Inst::Sraw {
            rd: 25,
            rs1: 3,
            rs2: 17,
        },
        0x4111dcbb,
    );
    same(
        &rt,
        Inst::Mulw {
            rd: 0,
            rs1: 14,
            rs2: 30,
        },
        0x03e7003b,
    );
    same(
        &rt,
        Inst::Divw {
            rd: 7,
            rs1: 25,
            rs2: 11,
        },
        0x02bcc3bb,
    );
    same(
        &rt,
        Inst::Divuw {
            rd: 14,
            rs1: 4,
            rs2: 24,
        },
        0x0382573b,
    );
    same(
        &rt,
        Inst::Remw {
            rd: 21,
            rs1: 15,
            rs2: 5,
        },
        0x0257eabb,
    );
    same(
        &rt,
        Inst::Remuw {
            rd: 28,
            rs1: 26,
            rs2: 18,
        },
        0x032d7e3b,
    );
    same(
        &rt,
        Inst::Addi {
            rd: 10,
            rs1: 0,
            imm: 42,
        },
        0x02a00513,
    );
    same(&rt, Inst::Ecall, 0x00000073);
    same(&rt, Inst::Ebreak, 0x00100073);
}

#[test]
fn fence_keeps_its_fields(rt: HostRuntime) {
    assert!(rt;
        matches!(
            decode(0x0000000f),
            Some(Inst::Fence {
                rd: 0,
                rs1: 0,
                imm: 0
            })
        )
    );
    assert!(rt;
        matches!(
            decode(0xfff7878f),
            Some(Inst::Fence {
                rd: 15,
                rs1: 15,
                imm: -1
            })
        )
    );
}

#[test]
fn words_in_no_row(rt: HostRuntime) {
    // fence.i, 0, all ones, a compressed word, mulh of 32 bits, slli with bit 25 of srai, ecall with rd, sret.
    for word in [
        0x0000100f,
        0,
        0xffff_ffff,
        0x0000_4501,
        0x0200103b,
        0x40001013,
        0x000000f3,
        0x10200073,
    ] {
        assert!(rt; decode(word).is_none(), "{word:08x}");
    }
}

#[test]
fn operands_of_a_word(rt: HostRuntime) {
    assert!(rt;
        matches!(
            decode(0x02a00513),
            Some(Inst::Addi {
                rd: 10,
                rs1: 0,
                imm: 42
            })
        )
    );
}
