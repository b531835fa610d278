//! The steps of mid code. A temporary, a label, a procedure, an address and a variable are each named
//! by a number; a label is the position of its step.

use odc_core::tree::{BinaryOp, Comparison, Descriptor, UnaryOp, Variable, Width};
use odc_text::check::Check;
use odc_text::path::PathText;
use odc_text::place::Place;

/// What an `Address` step names.
#[derive(Clone, Copy)]
pub enum Named {
    /// A variable of the frame, by its position in `variables`.
    Variable(u32),
    /// A global or literal, by its position in `addresses`.
    Stored(u32),
    /// A procedure, by its position in `procedures`.
    Procedure(u32),
}

/// A call of the system.
#[derive(Clone, Copy)]
pub enum SystemCall {
    /// Input into so many bytes at an address, and the number of bytes that came into a temporary.
    Read {
        to: u32,
        address: u32,
        size: u32,
    },
    /// So many bytes at an address to a descriptor.
    Write {
        descriptor: Descriptor,
        address: u32,
        size: u32,
    },
    /// The program exits with the lowest eight bits.
    Exit {
        code: u32,
    },
}

/// A step.
#[derive(Drop)]
pub enum MidStep {
    Const {
        to: u32,
        word: u64,
    },
    Address {
        to: u32,
        of: Named,
    },
    Move {
        to: u32,
        from: u32,
    },
    Unary {
        to: u32,
        op: UnaryOp,
        operand: u32,
    },
    Binary {
        to: u32,
        op: BinaryOp,
        left: u32,
        right: u32,
    },
    Compare {
        to: u32,
        op: Comparison,
        left: u32,
        right: u32,
    },
    Load {
        to: u32,
        width: Width,
        address: u32,
    },
    Store {
        width: Width,
        address: u32,
        value: u32,
    },
    Jump {
        label: u32,
    },
    /// A jump where the word isn't 0.
    Branch {
        condition: u32,
        label: u32,
    },
    Call {
        to: u32,
        procedure: u32,
        arguments: Vec<u32>,
    },
    /// A call by a procedure's word, and whether it is a call of an allocator.
    CallValue {
        to: u32,
        target: u32,
        arguments: Vec<u32>,
        marked: bool,
    },
    Return {
        value: u32,
    },
    /// The program stops at this check and place where the word is 0.
    Check {
        condition: u32,
        check: Check,
        at: Place,
    },
    System {
        call: SystemCall,
    },
}

/// A procedure. Its parameters are handed in as its first temporaries; its place is its `proc` word.
#[derive(Drop)]
pub struct MidProcedure {
    pub name: String,
    pub at: Place,
    pub parameters: u32,
    pub variables: Vec<Variable>,
    pub frame: u32,
    pub temporaries: u32,
    pub steps: Vec<MidStep>,
}

/// A whole program, as a `CoreProgram` has its fields.
#[derive(Drop)]
pub struct MidProgram {
    pub procedures: Vec<MidProcedure>,
    pub addresses: Vec<u64>,
    pub store: Vec<u8>,
    pub store_size: u64,
    pub main: u32,
    pub paths: Vec<PathText>,
}
