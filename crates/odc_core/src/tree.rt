//! The tree of core code.

use odc_text::check::Check;
use odc_text::path::PathText;
use odc_text::place::Place;

/// How many bytes a load or store moves: 1, 2, 4 or 8. A load fills the word up with zeros.
#[derive(Clone, Copy)]
pub enum Width {
    Byte,
    Half,
    Word,
    Double,
}

/// An operation on one word.
#[derive(Clone, Copy)]
pub enum UnaryOp {
    /// Each bit turned over.
    Complement,
    /// The lowest byte, its sign carried on.
    SignByte,
    /// The lowest two bytes, their sign carried on.
    SignHalf,
    /// The lowest four bytes, their sign carried on.
    SignWord,
}

/// An operation on two words. Each is that of the instruction of this name: results wrap, a division by
/// zero gives what the instruction gives, and a shift takes the lowest six bits of its right operand.
#[derive(Clone, Copy)]
pub enum BinaryOp {
    Add,
    Subtract,
    Multiply,
    Divide,
    DivideUnsigned,
    Remainder,
    RemainderUnsigned,
    And,
    Or,
    Xor,
    ShiftLeft,
    ShiftRight,
    ShiftRightSigned,
}

/// A comparison of two words; it gives 1 or 0.
#[derive(Clone, Copy)]
pub enum Comparison {
    Equal,
    Different,
    /// As numbers with sign.
    Less,
    /// As numbers without sign.
    Below,
}

/// Where bytes are written to.
#[derive(Clone, Copy)]
pub enum Descriptor {
    Out,
    Err,
}

/// An expression; its value is a word.
#[cycle(exprs)]
#[derive(Drop)]
pub enum CoreExpr {
    Const(u64),
    /// The address of a variable of the frame, by its position in `variables`.
    Slot(u32),
    /// The address of a global or literal, by its position in `addresses`.
    Address(u32),
    /// The word by which a procedure is called, by its position in `procedures`.
    Procedure(u32),
    Load(Width, Box<CoreExpr>),
    Unary(UnaryOp, Box<CoreExpr>),
    Binary(BinaryOp, Box<CoreExpr>, Box<CoreExpr>),
    Compare(Comparison, Box<CoreExpr>, Box<CoreExpr>),
    /// A procedure by its position in `procedures`, with its arguments.
    Call(u32, Vec<CoreExpr>),
    /// A procedure by its word, with its arguments, and whether this is a call of an allocator.
    CallValue(Box<CoreExpr>, Vec<CoreExpr>, bool),
}

/// A statement.
#[cycle(stmts)]
#[derive(Drop)]
pub enum CoreStmt {
    Eval(CoreExpr),
    /// An address, and the word whose lowest bytes go there.
    Store(Width, CoreExpr, CoreExpr),
    /// So many bytes to an address from another one, as if through a copy.
    Copy(CoreExpr, CoreExpr, CoreExpr),
    /// So many zero bytes at an address.
    Zero(CoreExpr, CoreExpr),
    /// The first list where the word isn't 0, else the second.
    If(CoreExpr, Vec<CoreStmt>, Vec<CoreStmt>),
    /// The list again and again, until it is left.
    Loop(Vec<CoreStmt>),
    /// The loop around it is left, or one further out: 0 is the innermost.
    Leave(u32),
    Return(CoreExpr),
    /// The program stops at this check and place where the word is 0.
    Check(CoreExpr, Check, Place),
    /// Input into so many bytes at an address; the number of bytes that came goes to the third address.
    Read(CoreExpr, CoreExpr, CoreExpr),
    /// So many bytes at an address to a descriptor.
    Write(Descriptor, CoreExpr, CoreExpr),
    /// The program exits with the lowest eight bits.
    Exit(CoreExpr),
}

/// A variable of a frame: its bytes from the frame's low end on.
#[derive(Clone, Copy)]
pub struct Variable {
    pub offset: u32,
    pub size: u32,
}

/// A procedure. Its first variables are its parameters, eight bytes each; its place is its `proc` word.
/// It answers a word: 0 where its end is reached.
#[derive(Drop)]
pub struct CoreProcedure {
    pub name: String,
    pub at: Place,
    pub parameters: u32,
    pub variables: Vec<Variable>,
    pub frame: u32,
    pub body: Vec<CoreStmt>,
}

/// A whole program. `addresses` are those of globals and literals, `store` the first of the
/// `store_size` bytes from 0x5000_0000 on, the others being zero.
#[derive(Drop)]
pub struct CoreProgram {
    pub procedures: Vec<CoreProcedure>,
    pub addresses: Vec<u64>,
    pub store: Vec<u8>,
    pub store_size: u64,
    pub main: u32,
    pub paths: Vec<PathText>,
}
