//! The typed tree: what typing makes of a body. Its meaning stands in `specs/`, over clean trees that the models give.

use crate::ops::{BinaryOp, Builtin, Constant, Taken, UnaryOp};
use odc_text::place::Place;
use odc_types::TyId;
use std::marker::Model;

/// An expression, with its type.
#[cycle(exprs)]
#[derive(Drop)]
pub struct TExpr {
    pub ty: TyId,
    pub at: Place,
    pub kind: Box<TExprKind>,
}

/// What kind of expression it is. Variables, globals, needs, fields and variants go by their positions.
#[cycle(exprs)]
#[derive(Drop)]
pub enum TExprKind {
    Const(Constant),
    Local(u32),
    Global(u32),
    /// A procedure as a value, by the position of its need.
    ProcValue(u32),
    Context,
    Field(TExpr, u32),
    Deref(TExpr),
    Index(TExpr, TExpr),
    Cut(TExpr, Option<TExpr>, Option<TExpr>),
    /// A column of a `#soa` container.
    Column(TExpr, u32),
    /// A call by name: the need, and the arguments in the order in which they are evaluated. Where that is another
    /// than the order of the parameters, the list between has for each parameter which of them it takes.
    Call(u32, Vec<u32>, Vec<TExpr>),
    /// A call through a value; marked where it is an allocator call of a built-in.
    CallValue(bool, TExpr, Vec<TExpr>),
    /// A call of a built-in procedure, with its arguments likewise.
    Builtin(Builtin, Vec<u32>, Vec<TExpr>),
    /// `or_return`, with the variant that the last value becomes in the result, where that is a union.
    OrReturn(TExpr, Option<u32>),
    /// A value of parts, in the storage of a local where it has one of its own.
    Build(Option<u32>, Vec<BuildPart>),
    Unary(UnaryOp, TExpr),
    Binary(BinaryOp, TExpr, TExpr),
    Convert(TExpr),
    /// A value as a variant of a union; variants count from 1.
    Inject(u32, TExpr),
    Assert(u32, TExpr),
    Test(u32, TExpr),
    Address(TExpr),
    Location,
    /// A call of a helper of the procedure's own.
    Help(u32, Vec<TExpr>),
}

/// A part of a built value, at an offset, or, in a `#soa` array, at the index of an element.
#[cycle(exprs)]
#[derive(Drop)]
pub struct BuildPart {
    pub offset: u64,
    pub value: TExpr,
}

/// The right sides of a declaration, an assignment or a `return`.
#[derive(Drop)]
pub enum Rights {
    None,
    Each(Vec<TExpr>),
    /// One expression of several parts.
    Parted(Vec<Taken>, TExpr),
}

/// An item of a case.
#[derive(Drop)]
pub enum CaseItem {
    One(TExpr),
    /// From one value to another, the last one included where the flag says so.
    Span(TExpr, TExpr, bool),
}

/// What a `for .. in` runs over.
#[derive(Drop)]
pub enum Over {
    /// A range, its last value included where the flag says so.
    Range(TExpr, TExpr, bool),
    /// The elements of a container, themselves where the flag says so.
    Container(TExpr, bool),
}

/// A statement.
#[cycle(stmts)]
#[derive(Drop)]
pub struct TStmt {
    pub at: Place,
    pub kind: Box<TStmtKind>,
}

/// What kind of statement it is. Labels are numbers, unique in a procedure.
#[cycle(stmts)]
#[derive(Drop)]
pub enum TStmtKind {
    /// Locals, where they have names, and their values.
    Declare(Vec<Option<u32>>, Rights),
    /// Places, None for `_`, and their values.
    Assign(Vec<Option<TExpr>>, Rights),
    /// `a op= b`, which finds its place once.
    Change(BinaryOp, TExpr, TExpr),
    Eval(TExpr),
    Block(u32, Vec<TStmt>),
    If(Option<TStmt>, TExpr, Vec<TStmt>, Vec<TStmt>),
    /// Label, first statement, condition, statement behind each turn, and body.
    Loop(u32, Option<TStmt>, Option<TExpr>, Option<TStmt>, Vec<TStmt>),
    /// Label, what it runs over, the locals of its two names, and body.
    Range(u32, Over, Option<u32>, Option<u32>, Vec<TStmt>),
    Switch(u32, Option<TStmt>, Option<TExpr>, Vec<Case>),
    TypeSwitch(u32, TExpr, Vec<TypeCase>),
    Defer(TStmt),
    Return(Rights),
    Break(u32),
    Continue(u32),
    Fallthrough,
    /// In helpers alone: at most so many turns, none of which counts as one.
    Counted(u64, u32, TExpr, Vec<TStmt>),
}

/// A case of a `switch`; the default one has no items.
#[cycle(stmts)]
#[derive(Drop)]
pub struct Case {
    pub items: Option<Vec<CaseItem>>,
    pub body: Vec<TStmt>,
}

/// A case of a type switch: its variants, none for the default one, and the local of its name.
#[cycle(stmts)]
#[derive(Drop)]
pub struct TypeCase {
    pub variants: Option<Vec<u32>>,
    pub local: Option<u32>,
    pub body: Vec<TStmt>,
}

impl Model for TExpr {
    ghost use Rattle.odc_program.specs.Trees.Tree as tree;
    ghost use Rattle.odc_program.specs.Views.Codes.{coded_expr};

    ghost Value = { tree.Expr };

    ghost coded = { coded_expr };

    ghost use Rattle.odc_program.specs.Views.View.{expr_kind};
    ghost use Rattle.odc_program.specs.Views.Sizes.{expr_size};

    ghost view = { λ e. tree.expr e.ty.index e.at (expr_kind e.kind.value) };

    ghost size = { expr_size };

    ghost use Rattle.std.proofs.Common.{arith};
    ghost use Rattle.odc_program.specs.Views.Falls.{expr_kind_falls};

    ghost size_decreases = { λ e h. omega (arith, expr_kind_falls e.kind.value) };
}

impl Model for TStmt {
    ghost use Rattle.odc_program.specs.Trees.Tree as tree;
    ghost use Rattle.odc_program.specs.Views.Codes.{coded_stmt};

    ghost Value = { tree.Stmt };

    ghost coded = { coded_stmt };

    ghost use Rattle.odc_program.specs.Views.StmtView.{stmt_kind};
    ghost use Rattle.odc_program.specs.Views.Sizes.{stmt_size};

    ghost view = { λ e. tree.stmt e.at (stmt_kind e.kind.value) };

    ghost size = { stmt_size };

    ghost use Rattle.std.proofs.Common.{arith};
    ghost use Rattle.odc_program.specs.Views.StmtFalls.{stmt_kind_falls};

    ghost size_decreases = { λ e h. omega (arith, stmt_kind_falls e.kind.value) };
}
