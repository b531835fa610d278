//! The code of statements.

ghost use Rattle.std.specs.Prelude.{◌≡◌, ◌≤◌, OnOk};
ghost use Rattle.odc_core.specs.Tree.{choose, answer, finish};
ghost use Rattle.odc_core.specs.View.{stmts as core_stmts};
ghost use Rattle.odc_typed.specs.View.{expr, stmt, stmts};
ghost use Rattle.odc_context.specs.Code.{join, one, held, put, waits, test_code, place_code, answer_code, expr_code, stmt_code, stmts_code, stmt_depth, stmts_depth};
ghost use Rattle.odc_context.specs.View.{own};

use crate::expression::emit_expr;
use crate::own::OwnVariables;
use crate::pieces::{push, push_choice, push_loop, push_set, value_at, word_in};
use odc_core::tree::{CoreExpr, CoreStmt};
use odc_typed::tree::{ExprKind, StmtKind, TExpr, TStmt};
use std::alloc::{AllocError, Global};

/// Appends: a variable gets the value that waits first.
fn push_taken(
    alloc: Global,
    code: &mut Vec<CoreStmt>,
    o: OwnVariables,
    x: u32,
) -> Result<(), AllocError>
    ensures { OnOk result (core_stmts code.new.items ≡ join (core_stmts code.old.items) (one (put x (waits (own o) 0)))) }
{
    let value = value_at(alloc, o, 0)?;
    push_set(code, x, value)
}

/// Appends: a place gets the value that waits first. In a well program the place is a variable.
fn push_place(
    alloc: Global,
    code: &mut Vec<CoreStmt>,
    o: OwnVariables,
    target: &TExpr,
) -> Result<(), AllocError>
    ensures { OnOk result (core_stmts code.new.items ≡ join (core_stmts code.old.items) (place_code (own o) (expr target.now))) }
{
    match &target.kind {
        ExprKind::Local(x) => push_taken(alloc, code, o, *x),
        _ => Ok(()),
    }
}

/// Appends: what is in a list is done where the value that waits first isn't zero.
fn push_if(
    alloc: Global,
    code: &mut Vec<CoreStmt>,
    o: OwnVariables,
    body: Vec<CoreStmt>,
) -> Result<(), AllocError>
    ensures { OnOk result (core_stmts code.new.items ≡ join (core_stmts code.old.items) (one (choose (waits (own o) 0) (core_stmts body.items) finish))) }
{
    let condition = value_at(alloc, o, 0)?;
    push_choice(code, condition, body, Vec::new(alloc))
}

/// Appends: the loop is left where the value that waits first is zero, and else a turn begins.
fn push_test(alloc: Global, code: &mut Vec<CoreStmt>, o: OwnVariables) -> Result<(), AllocError>
    ensures { OnOk result (core_stmts code.new.items ≡ join (core_stmts code.old.items) (test_code (own o))) }
{
    let mut left = Vec::new(alloc);
    push(&mut left, CoreStmt::Leave(0))?;
    let condition = value_at(alloc, o, 0)?;
    push_choice(code, condition, Vec::new(alloc), left)?;
    push(code, CoreStmt::Eval(CoreExpr::Const(0)))
}

/// Appends: the procedure answers its result.
pub fn push_result(
    alloc: Global,
    code: &mut Vec<CoreStmt>,
    o: OwnVariables,
) -> Result<(), AllocError>
    ensures { OnOk result (core_stmts code.new.items ≡ join (core_stmts code.old.items) (one (answer (held o.result)))) }
{
    let value = word_in(alloc, o.result)?;
    push(code, CoreStmt::Return(value))
}

/// Appends: the result is the value that waits first, and the procedure answers it.
fn push_answer(alloc: Global, code: &mut Vec<CoreStmt>, o: OwnVariables) -> Result<(), AllocError>
    ensures { OnOk result (core_stmts code.new.items ≡ join (core_stmts code.old.items) (answer_code (own o))) }
{
    push_taken(alloc, code, o, o.result)?;
    push_result(alloc, code, o)
}

/// Appends the code of a statement.
#[cycle(statements)]
fn emit_stmt(
    alloc: Global,
    s: &TStmt,
    code: &mut Vec<CoreStmt>,
    o: OwnVariables,
) -> Result<(), AllocError>
    requires { stmt_depth (stmt s.now) ≤ o.waiting }
    ensures { OnOk result (core_stmts code.new.items ≡ join (core_stmts code.old.items) (stmt_code (own o) (stmt s.now))) }
{
    match &s.kind {
        StmtKind::Eval(value) => emit_expr(alloc, value, code, o, 0),
        StmtKind::Declare(x, value) => {
            emit_expr(alloc, value, code, o, 0)?;
            push_taken(alloc, code, o, *x)
        }
        StmtKind::Assign(target, value) => {
            emit_expr(alloc, value, code, o, 0)?;
            push_place(alloc, code, o, target)
        }
        StmtKind::If(condition, body) => {
            emit_expr(alloc, condition, code, o, 0)?;
            let mut inner = Vec::new(alloc);
            emit_stmts(alloc, body, &mut inner, o)?;
            push_if(alloc, code, o, inner)
        }
        StmtKind::Loop(condition, body) => {
            let mut turn = Vec::new(alloc);
            emit_expr(alloc, condition, &mut turn, o, 0)?;
            push_test(alloc, &mut turn, o)?;
            emit_stmts(alloc, body, &mut turn, o)?;
            push_loop(code, turn)
        }
        StmtKind::Return(value) => {
            emit_expr(alloc, value, code, o, 0)?;
            push_answer(alloc, code, o)
        }
    }
}

/// Appends the code of statements.
#[cycle(statements)]
pub fn emit_stmts(
    alloc: Global,
    ss: &[TStmt],
    code: &mut Vec<CoreStmt>,
    o: OwnVariables,
) -> Result<(), AllocError>
    requires { stmts_depth (stmts ss.now) ≤ o.waiting }
    ensures { OnOk result (core_stmts code.new.items ≡ join (core_stmts code.old.items) (stmts_code (own o) (stmts ss.now))) }
{
    for s in ss {
        emit_stmt(alloc, s, code, o)?;
    }
    Ok(())
}
