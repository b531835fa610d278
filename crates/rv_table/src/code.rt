//! The table in code, and the two readings of it: from a word, and to a word.

ghost use Rattle.std.specs.Prelude.{◌≡◌, ℕ, ◌^◌, ◌<◌, ◌++◌, ◌↔◌, Some, IfSome, IsSome, IsTrue};
ghost use Rattle.rv_table.specs.Table.{Row, matches, read, decoded, IsRow, IsInTable, Fits, lookup, rows, funct3_rows, shift_rows, shift_word_rows, register_rows, register_word_rows, fixed_rows};

use crate::bits::Bits;
use crate::format;
use crate::inst::Inst;
use crate::operand::{amount, branch_offset, imm, jump_offset, rd, rs1, rs2, store_imm, upper_imm};

// Each group is one format. The columns are the opcode, funct3, then funct7 (for `shift` the upper
// six bits). Hands all of it to the macro of cases that is named.
macro_rules! rows {
    ($cases:ident!($($argument:tt)*)) => {
        $cases! {
            $($argument)*;
            upper {
                Lui 0b0110111,
                Auipc 0b0010111,
            }
            jump {
                Jal 0b1101111,
            }
            immediate {
                Jalr 0b1100111 0b000,
                Lb 0b0000011 0b000,
                Lh 0b0000011 0b001,
                Lw 0b0000011 0b010,
                Ld 0b0000011 0b011,
                Lbu 0b0000011 0b100,
                Lhu 0b0000011 0b101,
                Lwu 0b0000011 0b110,
                Addi 0b0010011 0b000,
                Slti 0b0010011 0b010,
                Sltiu 0b0010011 0b011,
                Xori 0b0010011 0b100,
                Ori 0b0010011 0b110,
                Andi 0b0010011 0b111,
                Addiw 0b0011011 0b000,
                Fence 0b0001111 0b000,
            }
            branch {
                Beq 0b1100011 0b000,
                Bne 0b1100011 0b001,
                Blt 0b1100011 0b100,
                Bge 0b1100011 0b101,
                Bltu 0b1100011 0b110,
                Bgeu 0b1100011 0b111,
            }
            store {
                Sb 0b0100011 0b000,
                Sh 0b0100011 0b001,
                Sw 0b0100011 0b010,
                Sd 0b0100011 0b011,
            }
            shift {
                Slli 0b0010011 0b001 0b000000,
                Srli 0b0010011 0b101 0b000000,
                Srai 0b0010011 0b101 0b010000,
            }
            shift_word {
                Slliw 0b0011011 0b001 0b0000000,
                Srliw 0b0011011 0b101 0b0000000,
                Sraiw 0b0011011 0b101 0b0100000,
            }
            register {
                Add 0b0110011 0b000 0b0000000,
                Sll 0b0110011 0b001 0b0000000,
                Slt 0b0110011 0b010 0b0000000,
                Sltu 0b0110011 0b011 0b0000000,
                Xor 0b0110011 0b100 0b0000000,
                Srl 0b0110011 0b101 0b0000000,
                Or 0b0110011 0b110 0b0000000,
                And 0b0110011 0b111 0b0000000,
                Sub 0b0110011 0b000 0b0100000,
                Sra 0b0110011 0b101 0b0100000,
                Mul 0b0110011 0b000 0b0000001,
                Mulh 0b0110011 0b001 0b0000001,
                Mulhsu 0b0110011 0b010 0b0000001,
                Mulhu 0b0110011 0b011 0b0000001,
                Div 0b0110011 0b100 0b0000001,
                Divu 0b0110011 0b101 0b0000001,
                Rem 0b0110011 0b110 0b0000001,
                Remu 0b0110011 0b111 0b0000001,
            }
            register_word {
                Addw 0b0111011 0b000 0b0000000,
                Subw 0b0111011 0b000 0b0100000,
                Sllw 0b0111011 0b001 0b0000000,
                Srlw 0b0111011 0b101 0b0000000,
                Sraw 0b0111011 0b101 0b0100000,
                Mulw 0b0111011 0b000 0b0000001,
                Divw 0b0111011 0b100 0b0000001,
                Divuw 0b0111011 0b101 0b0000001,
                Remw 0b0111011 0b110 0b0000001,
                Remuw 0b0111011 0b111 0b0000001,
            }
            fixed {
                Ecall 0x00000073,
                Ebreak 0x00100073,
            }
        }
    };
}

// The arms of one step of `decode`, for a group or a few of them. Each step ends in the next one.
macro_rules! decode_cases {
    (
        opcode $word:ident $opcode:ident;
        upper { $($upper:ident $upper_op:literal,)* }
        jump { $($jump:ident $jump_op:literal,)* }
        immediate { $($_immediate:tt)* }
        branch { $($_branch:tt)* }
        store { $($_store:tt)* }
        shift { $($_shift:tt)* }
        shift_word { $($_shift_word:tt)* }
        register { $($_register:tt)* }
        register_word { $($_register_word:tt)* }
        fixed { $($_fixed:tt)* }
    ) => {
        match $opcode {
            $($upper_op => Some(Inst::$upper { rd: rd($word), imm: upper_imm($word) }),)*
            $($jump_op => Some(Inst::$jump { rd: rd($word), offset: jump_offset($word) }),)*
            _ => decode_funct3($word),
        }
    };
    (
        funct3 $word:ident $opcode:ident $funct3:ident;
        upper { $($_upper:tt)* }
        jump { $($_jump:tt)* }
        immediate { $($immediate:ident $immediate_op:literal $immediate_3:literal,)* }
        branch { $($branch:ident $branch_op:literal $branch_3:literal,)* }
        store { $($store:ident $store_op:literal $store_3:literal,)* }
        shift { $($_shift:tt)* }
        shift_word { $($_shift_word:tt)* }
        register { $($_register:tt)* }
        register_word { $($_register_word:tt)* }
        fixed { $($_fixed:tt)* }
    ) => {
        match ($opcode, $funct3) {
            $(($immediate_op, $immediate_3) => Some(Inst::$immediate { rd: rd($word), rs1: rs1($word), imm: imm($word) }),)*
            $(($branch_op, $branch_3) => Some(Inst::$branch { rs1: rs1($word), rs2: rs2($word), offset: branch_offset($word) }),)*
            $(($store_op, $store_3) => Some(Inst::$store { rs1: rs1($word), rs2: rs2($word), imm: store_imm($word) }),)*
            _ => decode_shift($word),
        }
    };
    (
        shift $word:ident $opcode:ident $funct3:ident $upper_six:ident;
        upper { $($_upper:tt)* }
        jump { $($_jump:tt)* }
        immediate { $($_immediate:tt)* }
        branch { $($_branch:tt)* }
        store { $($_store:tt)* }
        shift { $($shift:ident $shift_op:literal $shift_3:literal $shift_6:literal,)* }
        shift_word { $($_shift_word:tt)* }
        register { $($_register:tt)* }
        register_word { $($_register_word:tt)* }
        fixed { $($_fixed:tt)* }
    ) => {
        match ($opcode, $funct3, $upper_six) {
            $(($shift_op, $shift_3, $shift_6) => Some(Inst::$shift { rd: rd($word), rs1: rs1($word), amount: amount($word) }),)*
            _ => decode_shift_word($word),
        }
    };
    (
        shift_word $word:ident $opcode:ident $funct3:ident $funct7:ident;
        upper { $($_upper:tt)* }
        jump { $($_jump:tt)* }
        immediate { $($_immediate:tt)* }
        branch { $($_branch:tt)* }
        store { $($_store:tt)* }
        shift { $($_shift:tt)* }
        shift_word { $($shift_word:ident $shift_word_op:literal $shift_word_3:literal $shift_word_7:literal,)* }
        register { $($_register:tt)* }
        register_word { $($_register_word:tt)* }
        fixed { $($_fixed:tt)* }
    ) => {
        match ($opcode, $funct3, $funct7) {
            $(($shift_word_op, $shift_word_3, $shift_word_7) => Some(Inst::$shift_word { rd: rd($word), rs1: rs1($word), amount: rs2($word) }),)*
            _ => decode_register($word),
        }
    };
    (
        register $word:ident $opcode:ident $funct3:ident $funct7:ident;
        upper { $($_upper:tt)* }
        jump { $($_jump:tt)* }
        immediate { $($_immediate:tt)* }
        branch { $($_branch:tt)* }
        store { $($_store:tt)* }
        shift { $($_shift:tt)* }
        shift_word { $($_shift_word:tt)* }
        register { $($register:ident $register_op:literal $register_3:literal $register_7:literal,)* }
        register_word { $($_register_word:tt)* }
        fixed { $($_fixed:tt)* }
    ) => {
        match ($opcode, $funct3, $funct7) {
            $(($register_op, $register_3, $register_7) => Some(Inst::$register { rd: rd($word), rs1: rs1($word), rs2: rs2($word) }),)*
            _ => decode_register_word($word),
        }
    };
    (
        register_word $word:ident $opcode:ident $funct3:ident $funct7:ident;
        upper { $($_upper:tt)* }
        jump { $($_jump:tt)* }
        immediate { $($_immediate:tt)* }
        branch { $($_branch:tt)* }
        store { $($_store:tt)* }
        shift { $($_shift:tt)* }
        shift_word { $($_shift_word:tt)* }
        register { $($_register:tt)* }
        register_word { $($register_word:ident $register_word_op:literal $register_word_3:literal $register_word_7:literal,)* }
        fixed { $($_fixed:tt)* }
    ) => {
        match ($opcode, $funct3, $funct7) {
            $(($register_word_op, $register_word_3, $register_word_7) => Some(Inst::$register_word { rd: rd($word), rs1: rs1($word), rs2: rs2($word) }),)*
            _ => decode_fixed($word),
        }
    };
    (
        fixed $word:ident;
        upper { $($_upper:tt)* }
        jump { $($_jump:tt)* }
        immediate { $($_immediate:tt)* }
        branch { $($_branch:tt)* }
        store { $($_store:tt)* }
        shift { $($_shift:tt)* }
        shift_word { $($_shift_word:tt)* }
        register { $($_register:tt)* }
        register_word { $($_register_word:tt)* }
        fixed { $($fixed:ident $fixed_word:literal,)* }
    ) => {
        match $word {
            $($fixed_word => Some(Inst::$fixed),)*
            _ => None,
        }
    };
}

// One arm for each instruction.
macro_rules! encode_cases {
    (
        $inst:ident;
        upper { $($upper:ident $upper_op:literal,)* }
        jump { $($jump:ident $jump_op:literal,)* }
        immediate { $($immediate:ident $immediate_op:literal $immediate_3:literal,)* }
        branch { $($branch:ident $branch_op:literal $branch_3:literal,)* }
        store { $($store:ident $store_op:literal $store_3:literal,)* }
        shift { $($shift:ident $shift_op:literal $shift_3:literal $shift_6:literal,)* }
        shift_word { $($shift_word:ident $shift_word_op:literal $shift_word_3:literal $shift_word_7:literal,)* }
        register { $($register:ident $register_op:literal $register_3:literal $register_7:literal,)* }
        register_word { $($register_word:ident $register_word_op:literal $register_word_3:literal $register_word_7:literal,)* }
        fixed { $($fixed:ident $fixed_word:literal,)* }
    ) => {
        match $inst {
            $(Inst::$upper { rd, imm } => format::upper($upper_op, rd, imm),)*
            $(Inst::$jump { rd, offset } => format::jump($jump_op, rd, offset),)*
            $(Inst::$immediate { rd, rs1, imm } => format::immediate($immediate_op, $immediate_3, rd, rs1, imm),)*
            $(Inst::$branch { rs1, rs2, offset } => format::branch($branch_op, $branch_3, rs1, rs2, offset),)*
            $(Inst::$store { rs1, rs2, imm } => format::store($store_op, $store_3, rs1, rs2, imm),)*
            $(Inst::$shift { rd, rs1, amount } => format::shift($shift_op, $shift_3, $shift_6, rd, rs1, amount),)*
            $(Inst::$shift_word { rd, rs1, amount } => format::register($shift_word_op, $shift_word_3, $shift_word_7, rd, rs1, amount),)*
            $(Inst::$register { rd, rs1, rs2 } => format::register($register_op, $register_3, $register_7, rd, rs1, rs2),)*
            $(Inst::$register_word { rd, rs1, rs2 } => format::register($register_word_op, $register_word_3, $register_word_7, rd, rs1, rs2),)*
            $(Inst::$fixed => $fixed_word,)*
        }
    };
}

/// The instruction that a word means: `None` exactly where the word is in no row of the table. No
/// word is in two rows.
pub fn decode(word: u32) -> Option<Inst>
    ensures row { result ≡ decoded word }
    ensures each_row { (r : Row) → IsRow r → IsTrue (matches r word) → result ≡ Some (read r word) }
    ensures some { IsSome result ↔ IsInTable word }
    ensures fits { IfSome result (λ i. Fits i) }
{
    decode_opcode(word)
}

/// The word of an instruction whose operands fit their fields.
///
/// `decode` gives the instruction back, and no other word means it.
#[tactic(auto, unfolding(crate::specs::Table::decoded))]
pub fn encode(inst: Inst) -> u32
    requires { Fits inst }
    ensures back { decoded result ≡ Some inst }
    ensures only { (word : ℕ) → word < 2 ^ 32 → decoded word ≡ Some inst → word ≡ result }
{
    coded(inst)
}

fn coded(inst: Inst) -> u32
    requires { Fits inst }
    ensures { lookup rows result ≡ Some inst }
{
    rows!(encode_cases!(inst))
}

#[tactic(auto, unfolding(crate::specs::Table::decoded))]
fn decode_opcode(word: u32) -> Option<Inst>
    ensures row { result ≡ decoded word }
    ensures fits { IfSome result (λ i. Fits i) }
{
    let opcode = Bits::<6, 0>::read(word);
    rows!(decode_cases!(opcode word opcode))
}

fn decode_funct3(word: u32) -> Option<Inst>
    ensures row { result ≡ lookup (funct3_rows ++ (shift_rows ++ (shift_word_rows ++ (register_rows ++ (register_word_rows ++ fixed_rows))))) word }
    ensures fits { IfSome result (λ i. Fits i) }
{
    let opcode = Bits::<6, 0>::read(word);
    let funct3 = Bits::<14, 12>::read(word);
    rows!(decode_cases!(funct3 word opcode funct3))
}

fn decode_shift(word: u32) -> Option<Inst>
    ensures row { result ≡ lookup (shift_rows ++ (shift_word_rows ++ (register_rows ++ (register_word_rows ++ fixed_rows)))) word }
    ensures fits { IfSome result (λ i. Fits i) }
{
    let opcode = Bits::<6, 0>::read(word);
    let funct3 = Bits::<14, 12>::read(word);
    let upper_six = Bits::<31, 26>::read(word);
    rows!(decode_cases!(shift word opcode funct3 upper_six))
}

fn decode_shift_word(word: u32) -> Option<Inst>
    ensures row { result ≡ lookup (shift_word_rows ++ (register_rows ++ (register_word_rows ++ fixed_rows))) word }
    ensures fits { IfSome result (λ i. Fits i) }
{
    let opcode = Bits::<6, 0>::read(word);
    let funct3 = Bits::<14, 12>::read(word);
    let funct7 = Bits::<31, 25>::read(word);
    rows!(decode_cases!(shift_word word opcode funct3 funct7))
}

fn decode_register(word: u32) -> Option<Inst>
    ensures row { result ≡ lookup (register_rows ++ (register_word_rows ++ fixed_rows)) word }
    ensures fits { IfSome result (λ i. Fits i) }
{
    let opcode = Bits::<6, 0>::read(word);
    let funct3 = Bits::<14, 12>::read(word);
    let funct7 = Bits::<31, 25>::read(word);
    rows!(decode_cases!(register word opcode funct3 funct7))
}

fn decode_register_word(word: u32) -> Option<Inst>
    ensures row { result ≡ lookup (register_word_rows ++ fixed_rows) word }
    ensures fits { IfSome result (λ i. Fits i) }
{
    let opcode = Bits::<6, 0>::read(word);
    let funct3 = Bits::<14, 12>::read(word);
    let funct7 = Bits::<31, 25>::read(word);
    rows!(decode_cases!(register_word word opcode funct3 funct7))
}

fn decode_fixed(word: u32) -> Option<Inst>
    ensures row { result ≡ lookup fixed_rows word }
    ensures fits { IfSome result (λ i. Fits i) }
{
    rows!(decode_cases!(fixed word))
}
