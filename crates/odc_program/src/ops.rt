//! Operators, built-in procedures and constants of the typed tree.

use odc_types::TyId;

/// A prefix operator.
#[derive(Clone, Copy)]
pub enum UnaryOp {
    /// `+`
    Plus,
    /// `-`
    Negate,
    /// `!`
    Not,
    /// `~`
    Complement,
}

/// An operator between two operands.
#[derive(Clone, Copy)]
pub enum BinaryOp {
    /// `+`
    Add,
    /// `-`
    Subtract,
    /// `*`
    Multiply,
    /// `/`, truncated
    Divide,
    /// `%`, with the sign of the dividend
    Remainder,
    /// `%%`, with the sign of the divisor
    Modulo,
    /// `&`
    And,
    /// `&~`
    AndNot,
    /// `|`
    Or,
    /// `~`
    Xor,
    /// `<<`
    ShiftLeft,
    /// `>>`
    ShiftRight,
    /// `&&`
    AndAlso,
    /// `||`
    OrElse,
    /// `==`
    Equal,
    /// `!=`
    Unequal,
    /// `<`
    Less,
    /// `>`
    Greater,
    /// `<=`
    AtMost,
    /// `>=`
    AtLeast,
}

/// A built-in procedure, or one of `core:fmt` and `core:os`, whose calls give a value or do something at run time.
#[derive(Clone, Copy)]
pub enum Builtin {
    /// `fmt.print`
    Print,
    /// `fmt.println`
    Println,
    /// `os.read`
    Read,
    /// `os.write`
    Write,
    /// `os.exit`
    Exit,
    Len,
    Cap,
    RawData,
    Min,
    Max,
    Abs,
    Copy,
    Assert,
    Panic,
    Clear,
    Pop,
    OrderedRemove,
    UnorderedRemove,
    HeapRegion,
    TempRegion,
    ByteSlice,
    New,
    Make,
    Append,
    Reserve,
    Resize,
    Delete,
    Free,
    FreeAll,
}

/// A constant of a type.
#[derive(Clone, Copy)]
pub enum Constant {
    /// An integer, a rune or an enumerator.
    Int(i128),
    Bool(bool),
    /// A text, by the number of its literal and its length.
    Text(u32, u64),
    /// The zero value of a type that has nil.
    Nil,
}

/// A part of a value of several parts, as a variable or a result takes it: its type, the type that takes it, and the
/// variant that it becomes there, where that is a union.
#[derive(Clone, Copy)]
pub struct Taken {
    pub from: TyId,
    pub into: TyId,
    pub variant: Option<u32>,
}
