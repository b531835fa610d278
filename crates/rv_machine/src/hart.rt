//! The registers, the program counter and memory, and what one instruction does to them.

ghost use Rattle.std.specs.Prelude.{◌≡◌, ℕ, ◌%◌, ◌<◌, ◌≤◌, IfSome, option_map, replicate};
ghost use Rattle.rv_table.specs.Table.{Fits};
ghost use Rattle.rv_table.specs.State.{State, register, address_from, effect_of, put, put_loaded, kept, branched, linked, applied, executed, fetched, load_size, load_value, store_bytes, loaded, stored};
ghost use Rattle.rv_machine.specs.Hart.{WritesRegister, StaysUnlessNext, GoesOn, Advances};

mod system;

use crate::arithmetic::{
    added_32, extended_8, extended_16, extended_32, flag, high_product, high_product_mixed,
    high_product_unsigned, low, minus, multiplied, multiplied_32, plus, quotient, quotient_32,
    quotient_unsigned, quotient_unsigned_32, remainder, remainder_32, remainder_unsigned,
    remainder_unsigned_32, shifted_left, shifted_left_32, shifted_right, shifted_right_32,
    shifted_signed, shifted_signed_32, signed_below, subtracted_32, upper, word,
};
use crate::memory::Memory;
use crate::registers::Registers;
use rv_table::decode;
use rv_table::effect::{Access, Effect, Event, LoadKind, StoreKind};
use rv_table::inst::Inst;
use std::marker::Model;

/// What executes instructions: registers, program counter and memory.
#[derive(Drop)]
pub struct Hart {
    registers: Registers,
    pc: u64,
    memory: Memory,
}

impl Model for Hart {
    ghost use Rattle.rv_table.specs.State.{State};

    ghost Value = { State };

    ghost view = { λ h. record { registers = h.registers; pc = h.pc; areas = h.memory } };
}

impl Hart {
    /// All registers are 0.
    pub fn new(memory: Memory, pc: u64) -> Hart
        ensures { result ≡ record { registers = replicate 32 0; pc = pc; areas = memory } }
    {
        Hart {
            registers: Registers::new(),
            pc,
            memory,
        }
    }

    pub fn pc(&self) -> u64
        ensures { result ≡ self.now.pc }
    {
        self.pc
    }

    /// The value of a register.
    pub fn read(&self, number: u8) -> u64
        requires { number < 32 }
        ensures { result ≡ register self.now number }
    {
        self.registers.read(number)
    }

    // The register's value and an immediate, added.
    fn sum(&self, number: u8, immediate: i32) -> u64
        requires { number < 32 }
        ensures { result ≡ address_from (register self.now number) immediate }
    {
        plus(self.read(number), word(immediate))
    }

    // The register's low bits as a shift amount.
    fn amount_64(&self, number: u8) -> u8
        requires { number < 32 }
        ensures value { result ≡ register self.now number % 64 }
        ensures bound { result < 64 }
    {
        (self.read(number) % 64) as u8
    }

    fn amount_32(&self, number: u8) -> u8
        requires { number < 32 }
        ensures value { result ≡ register self.now number % 32 }
        ensures bound { result < 32 }
    {
        (self.read(number) % 32) as u8
    }

    // What the instruction does here.
    #[inline(always)]
    fn effect(&self, inst: Inst) -> Effect
        requires { Fits inst }
        ensures value { result ≡ effect_of inst self.now }
        ensures fits { WritesRegister result }
    {
        let pc = self.pc;
        match inst {
            Inst::Lui { rd, imm } => Effect::Put {
                rd,
                value: upper(imm),
            },
            Inst::Auipc { rd, imm } => Effect::Put {
                rd,
                value: plus(pc, upper(imm)),
            },
            Inst::Jal { rd, offset } => Effect::Link {
                rd,
                target: plus(pc, word(offset)),
            },
            Inst::Jalr { rd, rs1, imm } => Effect::Link {
                rd,
                target: self.sum(rs1, imm) / 2 * 2,
            },
            Inst::Lb { rd, rs1, imm } => Effect::Load {
                rd,
                address: self.sum(rs1, imm),
                kind: LoadKind::SignedByte,
            },
            Inst::Lh { rd, rs1, imm } => Effect::Load {
                rd,
                address: self.sum(rs1, imm),
                kind: LoadKind::SignedHalf,
            },
            Inst::Lw { rd, rs1, imm } => Effect::Load {
                rd,
                address: self.sum(rs1, imm),
                kind: LoadKind::SignedWord,
            },
            Inst::Ld { rd, rs1, imm } => Effect::Load {
                rd,
                address: self.sum(rs1, imm),
                kind: LoadKind::Double,
            },
            Inst::Lbu { rd, rs1, imm } => Effect::Load {
                rd,
                address: self.sum(rs1, imm),
                kind: LoadKind::UnsignedByte,
            },
            Inst::Lhu { rd, rs1, imm } => Effect::Load {
                rd,
                address: self.sum(rs1, imm),
                kind: LoadKind::UnsignedHalf,
            },
            Inst::Lwu { rd, rs1, imm } => Effect::Load {
                rd,
                address: self.sum(rs1, imm),
                kind: LoadKind::UnsignedWord,
            },
            Inst::Addi { rd, rs1, imm } => Effect::Put {
                rd,
                value: self.sum(rs1, imm),
            },
            Inst::Slti { rd, rs1, imm } => Effect::Put {
                rd,
                value: flag(signed_below(self.read(rs1), word(imm))),
            },
            Inst::Sltiu { rd, rs1, imm } => Effect::Put {
                rd,
                value: flag(self.read(rs1) < word(imm)),
            },
            Inst::Xori { rd, rs1, imm } => Effect::Put {
                rd,
                value: self.read(rs1) ^ word(imm),
            },
            Inst::Ori { rd, rs1, imm } => Effect::Put {
                rd,
                value: self.read(rs1) | word(imm),
            },
            Inst::Andi { rd, rs1, imm } => Effect::Put {
                rd,
                value: self.read(rs1) & word(imm),
            },
            Inst::Addiw { rd, rs1, imm } => Effect::Put {
                rd,
                value: extended_32(low(self.sum(rs1, imm))),
            },
            Inst::Fence { .. } => Effect::Pass,
            Inst::Beq { rs1, rs2, offset } => Effect::Branch {
                taken: self.read(rs1) == self.read(rs2),
                target: plus(pc, word(offset)),
            },
            Inst::Bne { rs1, rs2, offset } => Effect::Branch {
                taken: self.read(rs1) != self.read(rs2),
                target: plus(pc, word(offset)),
            },
            Inst::Blt { rs1, rs2, offset } => Effect::Branch {
                taken: signed_below(self.read(rs1), self.read(rs2)),
                target: plus(pc, word(offset)),
            },
            Inst::Bge { rs1, rs2, offset } => Effect::Branch {
                taken: !signed_below(self.read(rs1), self.read(rs2)),
                target: plus(pc, word(offset)),
            },
            Inst::Bltu { rs1, rs2, offset } => Effect::Branch {
                taken: self.read(rs1) < self.read(rs2),
                target: plus(pc, word(offset)),
            },
            Inst::Bgeu { rs1, rs2, offset } => Effect::Branch {
                taken: self.read(rs1) >= self.read(rs2),
                target: plus(pc, word(offset)),
            },
            Inst::Sb { rs1, rs2, imm } => Effect::Store {
                address: self.sum(rs1, imm),
                kind: StoreKind::Byte,
                value: self.read(rs2),
            },
            Inst::Sh { rs1, rs2, imm } => Effect::Store {
                address: self.sum(rs1, imm),
                kind: StoreKind::Half,
                value: self.read(rs2),
            },
            Inst::Sw { rs1, rs2, imm } => Effect::Store {
                address: self.sum(rs1, imm),
                kind: StoreKind::Word,
                value: self.read(rs2),
            },
            Inst::Sd { rs1, rs2, imm } => Effect::Store {
                address: self.sum(rs1, imm),
                kind: StoreKind::Double,
                value: self.read(rs2),
            },
            Inst::Slli { rd, rs1, amount } => Effect::Put {
                rd,
                value: shifted_left(self.read(rs1), amount),
            },
            Inst::Srli { rd, rs1, amount } => Effect::Put {
                rd,
                value: shifted_right(self.read(rs1), amount),
            },
            Inst::Srai { rd, rs1, amount } => Effect::Put {
                rd,
                value: shifted_signed(self.read(rs1), amount),
            },
            Inst::Slliw { rd, rs1, amount } => Effect::Put {
                rd,
                value: shifted_left_32(self.read(rs1), amount),
            },
            Inst::Srliw { rd, rs1, amount } => Effect::Put {
                rd,
                value: shifted_right_32(self.read(rs1), amount),
            },
            Inst::Sraiw { rd, rs1, amount } => Effect::Put {
                rd,
                value: shifted_signed_32(self.read(rs1), amount),
            },
            Inst::Add { rd, rs1, rs2 } => Effect::Put {
                rd,
                value: plus(self.read(rs1), self.read(rs2)),
            },
            Inst::Sll { rd, rs1, rs2 } => Effect::Put {
                rd,
                value: shifted_left(self.read(rs1), self.amount_64(rs2)),
            },
            Inst::Slt { rd, rs1, rs2 } => Effect::Put {
                rd,
                value: flag(signed_below(self.read(rs1), self.read(rs2))),
            },
            Inst::Sltu { rd, rs1, rs2 } => Effect::Put {
                rd,
                value: flag(self.read(rs1) < self.read(rs2)),
            },
            Inst::Xor { rd, rs1, rs2 } => Effect::Put {
                rd,
                value: self.read(rs1) ^ self.read(rs2),
            },
            Inst::Srl { rd, rs1, rs2 } => Effect::Put {
                rd,
                value: shifted_right(self.read(rs1), self.amount_64(rs2)),
            },
            Inst::Or { rd, rs1, rs2 } => Effect::Put {
                rd,
                value: self.read(rs1) | self.read(rs2),
            },
            Inst::And { rd, rs1, rs2 } => Effect::Put {
                rd,
                value: self.read(rs1) & self.read(rs2),
            },
            Inst::Sub { rd, rs1, rs2 } => Effect::Put {
                rd,
                value: minus(self.read(rs1), self.read(rs2)),
            },
            Inst::Sra { rd, rs1, rs2 } => Effect::Put {
                rd,
                value: shifted_signed(self.read(rs1), self.amount_64(rs2)),
            },
            Inst::Mul { rd, rs1, rs2 } => Effect::Put {
                rd,
                value: multiplied(self.read(rs1), self.read(rs2)),
            },
            Inst::Mulh { rd, rs1, rs2 } => Effect::Put {
                rd,
                value: high_product(self.read(rs1), self.read(rs2)),
            },
            Inst::Mulhsu { rd, rs1, rs2 } => Effect::Put {
                rd,
                value: high_product_mixed(self.read(rs1), self.read(rs2)),
            },
            Inst::Mulhu { rd, rs1, rs2 } => Effect::Put {
                rd,
                value: high_product_unsigned(self.read(rs1), self.read(rs2)),
            },
            Inst::Div { rd, rs1, rs2 } => Effect::Put {
                rd,
                value: quotient(self.read(rs1), self.read(rs2)),
            },
            Inst::Divu { rd, rs1, rs2 } => Effect::Put {
                rd,
                value: quotient_unsigned(self.read(rs1), self.read(rs2)),
            },
            Inst::Rem { rd, rs1, rs2 } => Effect::Put {
                rd,
                value: remainder(self.read(rs1), self.read(rs2)),
            },
            Inst::Remu { rd, rs1, rs2 } => Effect::Put {
                rd,
                value: remainder_unsigned(self.read(rs1), self.read(rs2)),
            },
            Inst::Addw { rd, rs1, rs2 } => Effect::Put {
                rd,
                value: added_32(self.read(rs1), self.read(rs2)),
            },
            Inst::Subw { rd, rs1, rs2 } => Effect::Put {
                rd,
                value: subtracted_32(self.read(rs1), self.read(rs2)),
            },
            Inst::Sllw { rd, rs1, rs2 } => Effect::Put {
                rd,
                value: shifted_left_32(self.read(rs1), self.amount_32(rs2)),
            },
            Inst::Srlw { rd, rs1, rs2 } => Effect::Put {
                rd,
                value: shifted_right_32(self.read(rs1), self.amount_32(rs2)),
            },
            Inst::Sraw { rd, rs1, rs2 } => Effect::Put {
                rd,
                value: shifted_signed_32(self.read(rs1), self.amount_32(rs2)),
            },
            Inst::Mulw { rd, rs1, rs2 } => Effect::Put {
                rd,
                value: multiplied_32(self.read(rs1), self.read(rs2)),
            },
            Inst::Divw { rd, rs1, rs2 } => Effect::Put {
                rd,
                value: quotient_32(self.read(rs1), self.read(rs2)),
            },
            Inst::Divuw { rd, rs1, rs2 } => Effect::Put {
                rd,
                value: quotient_unsigned_32(self.read(rs1), self.read(rs2)),
            },
            Inst::Remw { rd, rs1, rs2 } => Effect::Put {
                rd,
                value: remainder_32(self.read(rs1), self.read(rs2)),
            },
            Inst::Remuw { rd, rs1, rs2 } => Effect::Put {
                rd,
                value: remainder_unsigned_32(self.read(rs1), self.read(rs2)),
            },
            Inst::Ecall => Effect::Ask,
            Inst::Ebreak => Effect::Stop,
        }
    }

    #[inline(always)]
    fn put(&mut self, rd: u8, value: u64) -> Event
        requires { rd < 32 }
        ensures is { put self.old rd value ≡ (result, self.new) }
        ensures stays { StaysUnlessNext result self.old self.new }
    {
        self.registers.write(rd, value);
        self.pc = self.pc.wrapping_add(4);
        Event::Next
    }

    #[inline(always)]
    fn load(&mut self, address: u64, kind: LoadKind) -> Option<u64>
        ensures value { result ≡ option_map (load_value kind) (loaded self.old.areas Access.Read address (load_size kind)) }
        ensures same { self.new ≡ self.old }
    {
        let memory = &mut self.memory;
        Some(match kind {
            LoadKind::SignedByte => extended_8(memory.load_1(address)?),
            LoadKind::SignedHalf => extended_16(memory.load_2(address)?),
            LoadKind::SignedWord => extended_32(memory.load_4(address)?),
            LoadKind::Double => memory.load_8(address)?,
            LoadKind::UnsignedByte => u64::from(memory.load_1(address)?),
            LoadKind::UnsignedHalf => u64::from(memory.load_2(address)?),
            LoadKind::UnsignedWord => u64::from(memory.load_4(address)?),
        })
    }

    #[inline(always)]
    fn put_loaded(&mut self, rd: u8, address: u64, kind: LoadKind) -> Event
        requires { rd < 32 }
        ensures is { put_loaded self.old rd kind (loaded self.old.areas Access.Read address (load_size kind)) ≡ (result, self.new) }
        ensures stays { StaysUnlessNext result self.old self.new }
    {
        match self.load(address, kind) {
            Some(value) => self.put(rd, value),
            None => Event::Trap,
        }
    }

    #[inline(always)]
    fn keep(&mut self, address: u64, kind: StoreKind, value: u64) -> Event
        ensures is { kept self.old (stored self.old.areas address (store_bytes kind value)) ≡ (result, self.new) }
        ensures stays { StaysUnlessNext result self.old self.new }
    {
        if !self.memory.store(address, kind, value) {
            return Event::Trap;
        }
        self.pc = self.pc.wrapping_add(4);
        Event::Next
    }

    #[inline(always)]
    fn branch(&mut self, taken: bool, target: u64) -> Event
        ensures is { branched self.old taken target ≡ (result, self.new) }
        ensures stays { StaysUnlessNext result self.old self.new }
    {
        if !taken {
            self.pc = self.pc.wrapping_add(4);
            return Event::Next;
        }
        if target % 4 != 0 {
            return Event::Trap;
        }
        self.pc = target;
        Event::Next
    }

    #[inline(always)]
    fn link(&mut self, rd: u8, target: u64) -> Event
        requires { rd < 32 }
        ensures is { linked self.old rd target ≡ (result, self.new) }
        ensures stays { StaysUnlessNext result self.old self.new }
    {
        if target % 4 != 0 {
            return Event::Trap;
        }
        let next = self.pc.wrapping_add(4);
        self.registers.write(rd, next);
        self.pc = target;
        Event::Next
    }

    fn pass(&mut self) -> Event
        ensures is { applied Effect.Pass self.old ≡ (result, self.new) }
        ensures stays { StaysUnlessNext result self.old self.new }
    {
        self.pc = self.pc.wrapping_add(4);
        Event::Next
    }

    #[inline(always)]
    fn apply(&mut self, effect: Effect) -> Event
        requires { WritesRegister effect }
        ensures is { applied effect self.old ≡ (result, self.new) }
        ensures stays { StaysUnlessNext result self.old self.new }
    {
        match effect {
            Effect::Put { rd, value } => self.put(rd, value),
            Effect::Load { rd, address, kind } => self.put_loaded(rd, address, kind),
            Effect::Store {
                address,
                kind,
                value,
            } => self.keep(address, kind, value),
            Effect::Branch { taken, target } => self.branch(taken, target),
            Effect::Link { rd, target } => self.link(rd, target),
            Effect::Pass => self.pass(),
            Effect::Ask => Event::System,
            Effect::Stop => Event::Break,
        }
    }

    /// Carries out an instruction. Unless the event is Next, nothing is changed.
    #[tactic(auto, unfolding(rv_table::specs::State::executed))]
    #[inline(always)]
    pub fn execute(&mut self, inst: Inst) -> Event
        requires { Fits inst }
        ensures is { executed inst self.old ≡ (result, self.new) }
        ensures stays { StaysUnlessNext result self.old self.new }
    {
        let effect = self.effect(inst);
        self.apply(effect)
    }

    /// The instruction at the program counter.
    pub fn fetch(&self) -> Option<Inst>
        ensures is { result ≡ fetched self.now }
        ensures fits { IfSome result (λ i. Fits i) }
    {
        let word = self.memory.word(self.pc)?;
        decode(word)
    }

    // Carries out the instruction at the program counter, where it was decoded at load. Answers false,
    // with nothing changed, where it wasn't or isn't carried out.
    #[inline(always)]
    fn go_on(&mut self) -> bool
        ensures { GoesOn result self.old self.new }
    {
        let Some(inst) = self.memory.decoded(self.pc) else {
            return false;
        };
        matches!(self.execute(inst), Event::Next)
    }

    /// Carries out instructions that were decoded at load, but at most so many, up to the first that
    /// is an event. Answers how many.
    pub fn advance(&mut self, limit: u64) -> u64
        ensures is { Advances result self.old self.new }
        ensures most { result ≤ limit }
    {
        for done in 0..limit {
            if !self.go_on() {
                return done;
            }
        }
        limit
    }
}
