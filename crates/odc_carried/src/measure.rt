//! How many values wait at once. There are as many depths as a `u32` has.

ghost use Rattle.std.specs.Prelude.{◌≡◌, IfOk};
ghost use Rattle.odc_program.specs.Views.View.{maybe, exprs};
ghost use Rattle.odc_program.specs.Views.StmtView.{rights, maybe_stmt, stmts};
ghost use Rattle.odc_carried.specs.Code as spec;
ghost use Rattle.odc_carried.specs.WayView.{shown_way};

use crate::around::deeper;
use crate::operands::{Way, way_of};
use crate::single::only;
use odc_program::tree::{Rights, TExpr, TExprKind, TStmt, TStmtKind};
use std::alloc::AllocError;

/// How many values wait for an operator whose operands have so many.
fn joined(way: Way, left: u32, right: u32) -> Result<u32, AllocError>
    ensures { IfOk result (λ n. n ≡ spec.depth_by (shown_way way) left right) }
{
    match way {
        Way::Nested => Ok(left),
        Way::Waiting | Way::Checking | Way::Both | Way::Either => {
            let behind = deeper(right, 1)?;
            Ok(left.max(behind.max(2)))
        }
    }
}

/// How many values wait at once while an expression is carried out.
#[cycle(depths)]
fn depth(e: &TExpr) -> Result<u32, AllocError>
    ensures { IfOk result (λ n. n ≡ spec.depth e.now) }
{
    match &*e.kind {
        TExprKind::Unary(_, inner) => depth(inner),
        TExprKind::Binary(op, left, right) => {
            let before = depth(left)?;
            let behind = depth(right)?;
            joined(way_of(*op, right), before, behind)
        }
        TExprKind::Call(_, _, arguments) => {
            let most = depth_of_each(arguments.as_slice())?;
            Ok(most.max(1))
        }
        _ => Ok(0),
    }
}

/// How many values wait at once while expressions are carried out, each of which goes on waiting.
#[cycle(depths)]
fn depth_of_each(es: &[TExpr]) -> Result<u32, AllocError>
    ensures { IfOk result (λ n. n ≡ spec.depths (exprs es.now)) }
{
    let mut most: u32 = 0;
    let mut i = es.len();
    while i > 0 {
        let here = depth(&es[i - 1])?;
        let behind = deeper(most, 1)?;
        most = here.max(behind);
        i -= 1;
    }
    Ok(most)
}

/// How many values wait at once while an expression that stands as a statement is carried out.
fn depth_of_eval(e: &TExpr) -> Result<u32, AllocError>
    ensures { IfOk result (λ n. n ≡ spec.eval_depth e.now) }
{
    match &*e.kind {
        TExprKind::Builtin(_, _, es) => depth_of_each(es.as_slice()),
        _ => depth(e),
    }
}

/// How many values wait at once while the value that stands alone is computed.
fn depth_of_only(values: &Rights) -> Result<u32, AllocError>
    ensures { IfOk result (λ n. n ≡ spec.rights_depth (rights values.now)) }
{
    match only(values) {
        Some(e) => depth(e),
        None => Ok(0),
    }
}

/// How many values wait at once while a condition is computed.
fn depth_of_condition(e: &Option<TExpr>) -> Result<u32, AllocError>
    ensures { IfOk result (λ n. n ≡ spec.condition_depth (maybe e.now)) }
{
    match e {
        None => Ok(0),
        Some(e) => depth(e),
    }
}

/// How many values wait at once while a statement is carried out.
#[cycle(stmt_depths)]
fn depth_in(s: &TStmt) -> Result<u32, AllocError>
    ensures { IfOk result (λ n. n ≡ spec.stmt_depth s.now) }
{
    match &*s.kind {
        TStmtKind::Declare(_, values) => depth_of_only(values),
        TStmtKind::Assign(_, values) => depth_of_only(values),
        TStmtKind::Eval(e) => depth_of_eval(e),
        TStmtKind::Block(_, body) => depth_in_all(body.as_slice()),
        TStmtKind::If(init, e, body, other) => {
            let first = depth_in_maybe(init)?;
            let condition = depth(e)?;
            let then = depth_in_all(body.as_slice())?;
            let otherwise = depth_in_all(other.as_slice())?;
            Ok(first.max(condition.max(then.max(otherwise))))
        }
        TStmtKind::Loop(_, init, e, post, body) => {
            let first = depth_in_maybe(init)?;
            let condition = depth_of_condition(e)?;
            let turn = depth_in_all(body.as_slice())?;
            let last = depth_in_maybe(post)?;
            Ok(first.max(condition.max(turn.max(last))))
        }
        TStmtKind::Return(values) => depth_of_only(values),
        _ => Ok(0),
    }
}

/// How many values wait at once while a statement is carried out where there is one.
#[cycle(stmt_depths)]
fn depth_in_maybe(s: &Option<TStmt>) -> Result<u32, AllocError>
    ensures { IfOk result (λ n. n ≡ spec.maybe_depth (maybe_stmt s.now)) }
{
    match s {
        None => Ok(0),
        Some(s) => depth_in(s),
    }
}

/// How many values wait at once while statements are carried out.
#[cycle(stmt_depths)]
pub fn depth_in_all(ss: &[TStmt]) -> Result<u32, AllocError>
    ensures { IfOk result (λ n. n ≡ spec.stmts_depth (stmts ss.now)) }
{
    let mut most: u32 = 0;
    let mut i = ss.len();
    while i > 0 {
        let here = depth_in(&ss[i - 1])?;
        most = here.max(most);
        i -= 1;
    }
    Ok(most)
}
