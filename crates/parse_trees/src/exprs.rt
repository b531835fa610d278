//! Expressions.

use crate::shown::{Shown, binary_sign, close, dash, name, named, open_expr, unary_sign, word};
use crate::stmts::stmts;
use crate::types::{signature, ty};
use odc_syntax::tree::{Arg, Expr, ExprKind};

/// An expression, with a space before it.
#[cycle(shows)]
pub(crate) fn expr(e: &Expr, out: &mut String) -> Shown {
    open_expr(kind_name(&e.kind), e.first, e.at, out)?;
    parts(&e.kind, out)?;
    close(out)
}

#[cycle(shows)]
fn parts(kind: &ExprKind, out: &mut String) -> Shown {
    match kind {
        ExprKind::Name(t) => name(*t, out),
        ExprKind::Int(t) => name(*t, out),
        ExprKind::Rune(t) => name(*t, out),
        ExprKind::Text(t) => name(*t, out),
        ExprKind::Dot(t) => name(*t, out),
        ExprKind::Context => Ok(()),
        ExprKind::Location => Ok(()),
        ExprKind::Select(of, t) => {
            expr(of, out)?;
            name(*t, out)
        }
        ExprKind::Assert(of, t) => {
            expr(of, out)?;
            ty(t, out)
        }
        ExprKind::Deref(of) => expr(of, out),
        ExprKind::OrReturn(of) => expr(of, out),
        ExprKind::Index(of, i) => {
            expr(of, out)?;
            expr(i, out)
        }
        ExprKind::Cut(of, low, high) => {
            expr(of, out)?;
            optional_expr(low, out)?;
            optional_expr(high, out)
        }
        ExprKind::Call(of, list) => {
            expr(of, out)?;
            args(list.as_slice(), out)
        }
        ExprKind::Literal(of, list) => {
            optional_expr(of, out)?;
            args(list.as_slice(), out)
        }
        ExprKind::Unary(op, of) => {
            word(unary_sign(*op), out)?;
            expr(of, out)
        }
        ExprKind::Binary(op, left, right) => {
            word(binary_sign(*op), out)?;
            expr(left, out)?;
            expr(right, out)
        }
        ExprKind::Cast(t, of) => {
            ty(t, out)?;
            expr(of, out)
        }
        ExprKind::TypeTree(t) => ty(t, out),
        ExprKind::ProcLit(s, body) => {
            signature(s, out)?;
            stmts(body.as_slice(), out)
        }
    }
}

fn kind_name(kind: &ExprKind) -> &'static str {
    match kind {
        ExprKind::Name(_) => "name",
        ExprKind::Int(_) => "int",
        ExprKind::Rune(_) => "rune",
        ExprKind::Text(_) => "text",
        ExprKind::Context => "context",
        ExprKind::Dot(_) => "dot",
        ExprKind::Select(_, _) => "select",
        ExprKind::Assert(_, _) => "assert",
        ExprKind::Deref(_) => "deref",
        ExprKind::Index(_, _) => "index",
        ExprKind::Cut(_, _, _) => "cut",
        ExprKind::Call(_, _) => "call",
        ExprKind::OrReturn(_) => "or_return",
        ExprKind::Literal(_, _) => "literal",
        ExprKind::Unary(_, _) => "unary",
        ExprKind::Binary(_, _, _) => "binary",
        ExprKind::Cast(_, _) => "cast",
        ExprKind::Location => "location",
        ExprKind::TypeTree(_) => "type",
        ExprKind::ProcLit(_, _) => "proc",
    }
}

/// An expression that may be left out.
#[cycle(shows)]
pub(crate) fn optional_expr(e: &Option<Expr>, out: &mut String) -> Shown {
    match e {
        Some(e) => expr(e, out),
        None => dash(out),
    }
}

/// Expressions in brackets, with a space before them.
#[cycle(shows)]
pub(crate) fn exprs(list: &[Expr], out: &mut String) -> Shown {
    word(" [", out)?;
    exprs_on(list, out)
}

/// The rest of such a list.
#[cycle(shows)]
fn exprs_on(list: &[Expr], out: &mut String) -> Shown {
    match list {
        [] => word(" ]", out),
        [x, rest @ ..] => {
            expr(x, out)?;
            exprs_on(rest, out)
        }
    }
}

/// Arguments in brackets: an expression each, behind its name and `=` where it has one.
#[cycle(shows)]
fn args(list: &[Arg], out: &mut String) -> Shown {
    word(" [", out)?;
    args_on(list, out)
}

/// The rest of such a list.
#[cycle(shows)]
fn args_on(list: &[Arg], out: &mut String) -> Shown {
    match list {
        [] => word(" ]", out),
        [x, rest @ ..] => {
            named(x.name, out)?;
            expr(&x.value, out)?;
            args_on(rest, out)
        }
    }
}
