//! Nodes of expressions.

ghost use Rattle.std.specs.Prelude.{◌≡◌, IfOk};
ghost use Rattle.odc_syntax.specs.Tree as tree;
ghost use Rattle.odc_syntax.specs.View.{args, expr_kind, maybe_expr};
ghost use Rattle.odc_syntax.specs.Grammar.{operated, opened, suffixed, type_operand};
ghost use Rattle.odc_syntax.specs.Grammar as g;

use odc_syntax::token::Token;
use odc_syntax::tree::{Arg, BinaryOp, Expr, ExprKind, Type, UnaryOp};
use odc_text::place::Place;
use odc_tree::node::expr_node;
use std::alloc::{AllocError, Global};

/// An expression of one token, or a node at its first token.
pub fn leaf(alloc: Global, at: Place, kind: ExprKind) -> Result<Expr, AllocError>
    ensures { IfOk result (λ e. e ≡ tree.expr at at (expr_kind kind)) }
{
    expr_node(alloc, at, at, kind)
}

/// An operator between two operands.
pub fn binary(alloc: Global, a: Expr, at: Place, op: BinaryOp, b: Expr) -> Result<Expr, AllocError>
    ensures { IfOk result (λ e. e ≡ operated a (record { at = at; op = op; right = b })) }
{
    let first = a.first;
    expr_node(alloc, first, at, ExprKind::Binary(op, a, b))
}

/// An operator before its operand.
pub fn unary(alloc: Global, at: Place, op: UnaryOp, e: Expr) -> Result<Expr, AllocError>
    ensures { IfOk result (λ u. u ≡ tree.expr at at (tree.unary op e)) }
{
    leaf(alloc, at, ExprKind::Unary(op, e))
}

/// A conversion by `cast`.
pub fn cast(alloc: Global, at: Place, ty: Type, e: Expr) -> Result<Expr, AllocError>
    ensures { IfOk result (λ u. u ≡ tree.expr at at (tree.cast ty e)) }
{
    leaf(alloc, at, ExprKind::Cast(ty, e))
}

/// An expression in parentheses that begin at `first`.
pub fn open(first: Place, e: Expr) -> Expr
    ensures { result ≡ opened first e }
{
    Expr {
        first,
        at: e.at,
        kind: e.kind,
    }
}

/// A literal of the type that is wanted.
pub fn literal(alloc: Global, at: Place, list: Vec<Arg>) -> Result<Expr, AllocError>
    ensures { IfOk result (λ e. e ≡ tree.expr at at (tree.literal tree.no_expr (args list.items))) }
{
    leaf(alloc, at, ExprKind::Literal(None, list))
}

/// A type as an operand.
pub fn type_tree(alloc: Global, ty: Type) -> Result<Expr, AllocError>
    ensures { IfOk result (λ u. u ≡ type_operand ty) }
{
    let at = ty.at;
    leaf(alloc, at, ExprKind::TypeTree(ty))
}

/// `e.name`, with the place of the `.`.
pub fn select(alloc: Global, e: Expr, at: Place, name: Token) -> Result<Expr, AllocError>
    ensures { IfOk result (λ u. u ≡ suffixed e (g.select at name)) }
{
    let first = e.first;
    expr_node(alloc, first, at, ExprKind::Select(e, name))
}

/// `e.(T)`, with the place of the `.`.
pub fn assert(alloc: Global, e: Expr, at: Place, ty: Type) -> Result<Expr, AllocError>
    ensures { IfOk result (λ u. u ≡ suffixed e (g.assert at ty)) }
{
    let first = e.first;
    expr_node(alloc, first, at, ExprKind::Assert(e, ty))
}

/// `e^`, with the place of the `^`.
pub fn deref(alloc: Global, e: Expr, at: Place) -> Result<Expr, AllocError>
    ensures { IfOk result (λ u. u ≡ suffixed e (g.deref at)) }
{
    let first = e.first;
    expr_node(alloc, first, at, ExprKind::Deref(e))
}

/// `e[index]`, with the place of the `[`.
pub fn element(alloc: Global, e: Expr, at: Place, index: Expr) -> Result<Expr, AllocError>
    ensures { IfOk result (λ u. u ≡ suffixed e (g.index at index)) }
{
    let first = e.first;
    expr_node(alloc, first, at, ExprKind::Index(e, index))
}

/// `e[low:high]`, with the place of the `[`.
pub fn cut(
    alloc: Global,
    e: Expr,
    at: Place,
    low: Option<Expr>,
    high: Option<Expr>,
) -> Result<Expr, AllocError>
    ensures { IfOk result (λ u. u ≡ suffixed e (g.cut at (maybe_expr low) (maybe_expr high))) }
{
    let first = e.first;
    expr_node(alloc, first, at, ExprKind::Cut(e, low, high))
}

/// `e(x, ..)`
pub fn call(alloc: Global, e: Expr, list: Vec<Arg>) -> Result<Expr, AllocError>
    ensures { IfOk result (λ u. u ≡ suffixed e (g.call (args list.items))) }
{
    let first = e.first;
    leaf(alloc, first, ExprKind::Call(e, list))
}

/// `e or_return`
pub fn or_return(alloc: Global, e: Expr) -> Result<Expr, AllocError>
    ensures { IfOk result (λ u. u ≡ suffixed e g.or_return) }
{
    let first = e.first;
    leaf(alloc, first, ExprKind::OrReturn(e))
}

/// `e{x, ..}`
pub fn literal_of(alloc: Global, e: Expr, list: Vec<Arg>) -> Result<Expr, AllocError>
    ensures { IfOk result (λ u. u ≡ suffixed e (g.literal (args list.items))) }
{
    let first = e.first;
    leaf(alloc, first, ExprKind::Literal(Some(e), list))
}
