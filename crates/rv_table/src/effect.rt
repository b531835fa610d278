//! What an instruction does, as data: the answer of the definition's `effect_of`.

/// How memory is touched. A range allows each kind or doesn't.
#[derive(Clone, Copy)]
pub enum Access {
    Read,
    Write,
    Execute,
}

/// How a loaded value is made of its bytes, the lowest first: of 1, 2, 4 or 8 bytes, extended to 64
/// bits by copies of the sign bit or, under the name of an unsigned kind, by zeros.
#[derive(Clone, Copy)]
pub enum LoadKind {
    SignedByte,
    SignedHalf,
    SignedWord,
    Double,
    UnsignedByte,
    UnsignedHalf,
    UnsignedWord,
}

/// How many bytes of a value are stored: 1, 2, 4 or 8.
#[derive(Clone, Copy)]
pub enum StoreKind {
    Byte,
    Half,
    Word,
    Double,
}

/// What an instruction does to a machine whose registers and program counter are known.
#[derive(Clone, Copy)]
pub enum Effect {
    /// The register gets the value.
    Put {
        rd: u8,
        value: u64,
    },
    /// The register gets the value that is loaded.
    Load {
        rd: u8,
        address: u64,
        kind: LoadKind,
    },
    /// The low bytes of the value are stored.
    Store {
        address: u64,
        kind: StoreKind,
        value: u64,
    },
    /// Goes to the target where the branch is taken.
    Branch {
        taken: bool,
        target: u64,
    },
    /// Goes to the target; the register gets the address of the next instruction.
    Link {
        rd: u8,
        target: u64,
    },
    /// Nothing but going on.
    Pass,
    /// The system is asked for a service.
    Ask,
    /// The program stops at a check.
    Stop,
}

/// What a step of the machine came to.
#[derive(Clone, Copy)]
pub enum Event {
    /// The instruction was carried out.
    Next,
    /// ECALL: nothing was changed.
    System,
    /// EBREAK: nothing was changed.
    Break,
    /// The instruction, a call of an allocator, was carried out.
    AllocCall,
    /// There is no instruction here that can be carried out: nothing was changed.
    Trap,
}
