//! The typed tree.

use odc_text::path::PathText;
use odc_text::place::Place;

/// A constant value.
#[derive(Clone, Copy)]
pub enum Constant {
    /// Of type `int`.
    Int { value: i64 },
    /// Of type `bool`.
    Bool { value: bool },
}

/// A built-in procedure, or one of a library package without text.
#[derive(Clone, Copy)]
pub enum Builtin {
    /// `fmt.println`: the arguments, parted by one space, and a newline.
    Println,
}

/// An operation on two integers. A sum, difference or product wraps; a quotient is cut toward zero, and
/// a remainder has the sign of the dividend. A comparison gives a truth value.
#[derive(Clone, Copy)]
pub enum BinaryOp {
    Add,
    Subtract,
    Multiply,
    Divide,
    Remainder,
    Less,
    Equal,
}

/// An expression with its place.
#[cycle(exprs)]
#[derive(Drop)]
pub struct TExpr {
    pub at: Place,
    pub kind: ExprKind,
}

#[cycle(exprs)]
#[derive(Drop)]
pub enum ExprKind {
    /// A folded constant.
    Const(Constant),
    /// A variable of the procedure, by its position among its parameters, results and locals.
    Local(u32),
    /// Two operands, the left one first; the place is that of the operator.
    Binary(BinaryOp, Box<TExpr>, Box<TExpr>),
    /// A call of a procedure, by its position in `procedures`, with its arguments.
    Call(u32, Vec<TExpr>),
    /// A call of a built-in with its arguments.
    Builtin(Builtin, Vec<TExpr>),
}

/// A statement with its place.
#[cycle(stmts)]
#[derive(Drop)]
pub struct TStmt {
    pub at: Place,
    pub kind: StmtKind,
}

#[cycle(stmts)]
#[derive(Drop)]
pub enum StmtKind {
    /// A call as a statement.
    Eval(TExpr),
    /// A variable begins with a value.
    Declare(u32, TExpr),
    /// A place, and the value that it gets.
    Assign(TExpr, TExpr),
    /// A condition, and what is done where it is true.
    If(TExpr, Vec<TStmt>),
    /// A condition, and what is done as long as it is true.
    Loop(TExpr, Vec<TStmt>),
    /// The procedure ends with this value.
    Return(TExpr),
}

/// A variable of a procedure, with the place of its name.
#[derive(Clone, Copy)]
pub struct Local {
    pub at: Place,
}

/// A procedure; its place is its `proc` word. Its variables are the parameters, the results, of which
/// there is at most one today, and the locals in the order of the text.
#[derive(Drop)]
pub struct Procedure {
    pub name: String,
    pub at: Place,
    pub parameters: Vec<Local>,
    pub results: Vec<Local>,
    pub locals: Vec<Local>,
    pub body: Vec<TStmt>,
}

/// A whole program. `main` is a position in `procedures`, a file's number one in `paths`.
#[derive(Drop)]
pub struct Program {
    pub procedures: Vec<Procedure>,
    pub main: u32,
    pub paths: Vec<PathText>,
}
