//! What the grammar tells apart of the places where expressions and types stand.

/// Where an expression stands.
#[derive(Clone, Copy)]
pub enum Mode {
    /// Where any may stand.
    Free,
    /// In the header of `if`, `for` or `switch`, outside brackets: it holds no literal with braces and
    /// no procedure.
    Header,
    /// At the start of a statement: it does not begin with `{`.
    Start,
}

/// Where a type stands.
#[derive(Clone, Copy)]
pub enum Use {
    /// Where nothing else could stand.
    Plain,
    /// In the type of a parameter, where `$` may stand.
    Parameter,
    /// Where an expression may stand, and the type is all of the operand.
    Operand,
    /// The same, and no literal of this type follows: it is the end of the operand, or the operand stands
    /// in a header.
    OperandEnd,
}

/// How tight a binary operator binds, the loosest first.
#[derive(Clone, Copy)]
pub enum Level {
    /// `||`
    Or,
    /// `&&`
    And,
    /// `==` and its like, of which only one stands between two sums.
    Comparison,
    /// `+` and its like.
    Sum,
    /// `*` and its like.
    Product,
}
