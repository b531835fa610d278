//! Copies of expressions.

ghost use Rattle.std.specs.Prelude.{◌≡◌, IfOk};

use crate::node::expr_node;
use odc_program::tree::{BuildPart, TExpr, TExprKind};
use std::alloc::{AllocError, Global};

/// The same expression again.
#[cycle(copies)]
pub fn copy_expr(alloc: Global, e: &TExpr) -> Result<TExpr, AllocError>
    ensures { IfOk result (λ x. x ≡ e.now) }
{
    match &*e.kind {
        TExprKind::Const(c) => expr_node(alloc, e.ty, e.at, TExprKind::Const(*c)),
        TExprKind::Local(x) => expr_node(alloc, e.ty, e.at, TExprKind::Local(*x)),
        TExprKind::Global(g) => expr_node(alloc, e.ty, e.at, TExprKind::Global(*g)),
        TExprKind::ProcValue(need) => expr_node(alloc, e.ty, e.at, TExprKind::ProcValue(*need)),
        TExprKind::Context => expr_node(alloc, e.ty, e.at, TExprKind::Context),
        TExprKind::Field(base, n) => {
            let base = copy_expr(alloc, base)?;
            expr_node(alloc, e.ty, e.at, TExprKind::Field(base, *n))
        }
        TExprKind::Deref(base) => {
            let base = copy_expr(alloc, base)?;
            expr_node(alloc, e.ty, e.at, TExprKind::Deref(base))
        }
        TExprKind::Index(base, place) => {
            let base = copy_expr(alloc, base)?;
            let place = copy_expr(alloc, place)?;
            expr_node(alloc, e.ty, e.at, TExprKind::Index(base, place))
        }
        TExprKind::Cut(base, low, high) => {
            let base = copy_expr(alloc, base)?;
            let low = copy_optional(alloc, low)?;
            let high = copy_optional(alloc, high)?;
            expr_node(alloc, e.ty, e.at, TExprKind::Cut(base, low, high))
        }
        TExprKind::Column(base, n) => {
            let base = copy_expr(alloc, base)?;
            expr_node(alloc, e.ty, e.at, TExprKind::Column(base, *n))
        }
        TExprKind::Call(need, order, arguments) => {
            let arguments = copy_exprs(alloc, arguments.as_slice())?;
            let order = Vec::from_slice(alloc, order.as_slice())?;
            expr_node(alloc, e.ty, e.at, TExprKind::Call(*need, order, arguments))
        }
        TExprKind::CallValue(marked, callee, arguments) => {
            let callee = copy_expr(alloc, callee)?;
            let arguments = copy_exprs(alloc, arguments.as_slice())?;
            expr_node(
                alloc,
                e.ty,
                e.at,
                TExprKind::CallValue(*marked, callee, arguments),
            )
        }
        TExprKind::Builtin(which, order, arguments) => {
            let arguments = copy_exprs(alloc, arguments.as_slice())?;
            let order = Vec::from_slice(alloc, order.as_slice())?;
            expr_node(
                alloc,
                e.ty,
                e.at,
                TExprKind::Builtin(*which, order, arguments),
            )
        }
        TExprKind::OrReturn(inner, variant) => {
            let inner = copy_expr(alloc, inner)?;
            expr_node(alloc, e.ty, e.at, TExprKind::OrReturn(inner, *variant))
        }
        TExprKind::Build(home, parts) => {
            let parts = copy_parts(alloc, parts.as_slice())?;
            expr_node(alloc, e.ty, e.at, TExprKind::Build(*home, parts))
        }
        TExprKind::Unary(op, inner) => {
            let inner = copy_expr(alloc, inner)?;
            expr_node(alloc, e.ty, e.at, TExprKind::Unary(*op, inner))
        }
        TExprKind::Binary(op, left, right) => {
            let left = copy_expr(alloc, left)?;
            let right = copy_expr(alloc, right)?;
            expr_node(alloc, e.ty, e.at, TExprKind::Binary(*op, left, right))
        }
        TExprKind::Convert(inner) => {
            let inner = copy_expr(alloc, inner)?;
            expr_node(alloc, e.ty, e.at, TExprKind::Convert(inner))
        }
        TExprKind::Inject(variant, inner) => {
            let inner = copy_expr(alloc, inner)?;
            expr_node(alloc, e.ty, e.at, TExprKind::Inject(*variant, inner))
        }
        TExprKind::Assert(variant, inner) => {
            let inner = copy_expr(alloc, inner)?;
            expr_node(alloc, e.ty, e.at, TExprKind::Assert(*variant, inner))
        }
        TExprKind::Test(variant, inner) => {
            let inner = copy_expr(alloc, inner)?;
            expr_node(alloc, e.ty, e.at, TExprKind::Test(*variant, inner))
        }
        TExprKind::Address(inner) => {
            let inner = copy_expr(alloc, inner)?;
            expr_node(alloc, e.ty, e.at, TExprKind::Address(inner))
        }
        TExprKind::Location => expr_node(alloc, e.ty, e.at, TExprKind::Location),
        TExprKind::Help(h, arguments) => {
            let arguments = copy_exprs(alloc, arguments.as_slice())?;
            expr_node(alloc, e.ty, e.at, TExprKind::Help(*h, arguments))
        }
    }
}

/// The same expression again, where there is one.
#[cycle(copies)]
pub fn copy_optional(alloc: Global, e: &Option<TExpr>) -> Result<Option<TExpr>, AllocError>
    ensures { IfOk result (λ x. x ≡ e.now) }
{
    match e {
        None => Ok(None),
        Some(e) => {
            let copy = copy_expr(alloc, e)?;
            Ok(Some(copy))
        }
    }
}

/// The same expressions again.
#[cycle(copies)]
pub fn copy_exprs(alloc: Global, list: &[TExpr]) -> Result<Vec<TExpr>, AllocError>
    ensures { IfOk result (λ xs. xs.items ≡ list.now) }
{
    let mut copies = Vec::new(alloc);
    for e in list {
        let copy = copy_expr(alloc, e)?;
        copies.push(copy)?;
    }
    Ok(copies)
}

/// The same parts again.
#[cycle(copies)]
pub fn copy_parts(alloc: Global, list: &[BuildPart]) -> Result<Vec<BuildPart>, AllocError>
    ensures { IfOk result (λ xs. xs.items ≡ list.now) }
{
    let mut copies = Vec::new(alloc);
    for part in list {
        let value = copy_expr(alloc, &part.value)?;
        copies.push(BuildPart {
            offset: part.offset,
            value,
        })?;
    }
    Ok(copies)
}
