//! The code of statements.

ghost use Rattle.std.specs.Prelude.{◌≡◌, Some, None, OnOk, IfOk};
ghost use Rattle.odc_program.specs.Views.View.{maybe, exprs};
ghost use Rattle.odc_program.specs.Views.StmtView.{lefts, rights, maybe_stmt, stmts};
ghost use Rattle.odc_program.specs.Trees.Tree.{Expr};
ghost use Rattle.odc_core.specs.Tree.{choose, repeat, answer, leave, finish};
ghost use Rattle.odc_core.specs.View.{expr as core_expr, stmts as core_stmts};
ghost use Rattle.odc_carried.specs.Carried.{count};
ghost use Rattle.odc_carried.specs.Code as spec;
ghost use Rattle.odc_carried.specs.Single as single;
ghost use Rattle.odc_carried.specs.View.{shown};

use crate::around::Around;
use crate::expression::{emit, emit_waiting};
use crate::line::push_line;
use crate::pieces::{push, push_choice, push_loop, push_set, word_in};
use crate::single::{named, only, target};
use crate::tables::counted;
use odc_core::tree::{CoreExpr, CoreStmt};
use odc_program::tree::{Rights, TExpr, TExprKind, TStmt, TStmtKind};
use std::alloc::{AllocError, Global};

/// Appends a printed line of the values of expressions.
fn emit_line(
    alloc: Global,
    es: &[TExpr],
    code: &mut Vec<CoreStmt>,
    o: &Around,
) -> Result<(), AllocError>
    ensures { OnOk result (core_stmts code.new.items ≡ spec.join (core_stmts code.old.items) (spec.join (spec.waits_all (shown o.now) 0 (exprs es.now)) (spec.line_code (shown o.now) 0 (count (exprs es.now))))) }
{
    emit_waiting(alloc, es, code, o, 0)?;
    let count = counted(es.len())?;
    push_line(alloc, code, o, 0, count)
}

/// Appends what runs before an expression has its value.
fn emit_before(
    alloc: Global,
    e: &TExpr,
    code: &mut Vec<CoreStmt>,
    o: &Around,
) -> Result<(), AllocError>
    ensures { OnOk result (core_stmts code.new.items ≡ spec.join (core_stmts code.old.items) (spec.before (shown o.now) 0 e.now)) }
{
    let _value = emit(alloc, e, code, o, 0)?;
    Ok(())
}

/// Appends an expression that stands as a statement: a printed line, or what runs before it has its value.
fn emit_eval(
    alloc: Global,
    e: &TExpr,
    code: &mut Vec<CoreStmt>,
    o: &Around,
) -> Result<(), AllocError>
    ensures { OnOk result (core_stmts code.new.items ≡ spec.join (core_stmts code.old.items) (spec.eval_code (shown o.now) e.now)) }
{
    match &*e.kind {
        TExprKind::Builtin(_, _, es) => emit_line(alloc, es.as_slice(), code, o),
        _ => emit_before(alloc, e, code, o),
    }
}

/// Appends: a variable gets the value of an expression.
fn emit_put(
    alloc: Global,
    e: &TExpr,
    code: &mut Vec<CoreStmt>,
    o: &Around,
    x: u32,
) -> Result<(), AllocError>
    ensures { OnOk result (core_stmts code.new.items ≡ spec.join (core_stmts code.old.items) (spec.put_code (shown o.now) x e.now)) }
{
    let value = emit(alloc, e, code, o, 0)?;
    push_set(code, x, value)
}

/// Appends: a variable gets the value that stands alone, where one does.
fn emit_only(
    alloc: Global,
    values: &Rights,
    code: &mut Vec<CoreStmt>,
    o: &Around,
    x: u32,
) -> Result<(), AllocError>
    ensures one { (e : Expr) → single.only (rights values.now) ≡ Some e → OnOk result (core_stmts code.new.items ≡ spec.join (core_stmts code.old.items) (spec.put_code (shown o.now) x e)) }
    ensures none { single.only (rights values.now) ≡ None → OnOk result (core_stmts code.new.items ≡ core_stmts code.old.items) }
{
    match only(values) {
        Some(e) => emit_put(alloc, e, code, o, x),
        None => Ok(()),
    }
}

/// Appends a declaration of one variable, with its value or zero.
fn emit_declare(
    alloc: Global,
    names: &[Option<u32>],
    values: &Rights,
    code: &mut Vec<CoreStmt>,
    o: &Around,
) -> Result<(), AllocError>
    ensures { OnOk result (core_stmts code.new.items ≡ spec.join (core_stmts code.old.items) (spec.declare_code (shown o.now) names.now (rights values.now))) }
{
    match named(names) {
        Some(x) => {
            match values {
                Rights::None => push_set(code, x, CoreExpr::Const(0)),
                _ => emit_only(alloc, values, code, o, x),
            }
        }
        None => Ok(()),
    }
}

/// Appends an assignment of one value to one variable.
fn emit_assign(
    alloc: Global,
    targets: &[Option<TExpr>],
    values: &Rights,
    code: &mut Vec<CoreStmt>,
    o: &Around,
) -> Result<(), AllocError>
    ensures { OnOk result (core_stmts code.new.items ≡ spec.join (core_stmts code.old.items) (spec.assign_code (shown o.now) (lefts targets.now) (rights values.now))) }
{
    match target(targets) {
        Some(x) => emit_only(alloc, values, code, o, x),
        None => Ok(()),
    }
}

/// The result as it stands, or 0 where there is none.
fn result(alloc: Global, o: &Around) -> Result<CoreExpr, AllocError>
    ensures { IfOk result (λ e. core_expr e ≡ spec.result_code (shown o.now) o.now.results) }
{
    if o.results == 0 {
        Ok(CoreExpr::Const(0))
    } else {
        word_in(alloc, o.result)
    }
}

/// Appends: the procedure answers its result.
pub fn push_answer(alloc: Global, code: &mut Vec<CoreStmt>, o: &Around) -> Result<(), AllocError>
    ensures { OnOk result (core_stmts code.new.items ≡ spec.join (core_stmts code.old.items) (spec.one (answer (spec.result_code (shown o.now) o.now.results)))) }
{
    let value = result(alloc, o)?;
    push(code, CoreStmt::Return(value))
}

/// Appends a `return`, with one value or the result as it stands.
fn emit_return(
    alloc: Global,
    values: &Rights,
    code: &mut Vec<CoreStmt>,
    o: &Around,
) -> Result<(), AllocError>
    ensures { OnOk result (core_stmts code.new.items ≡ spec.join (core_stmts code.old.items) (spec.return_code (shown o.now) (rights values.now))) }
{
    emit_only(alloc, values, code, o, o.result)?;
    push_answer(alloc, code, o)
}

/// Appends what runs before a condition, and gives it; one that isn't there holds.
fn emit_condition(
    alloc: Global,
    e: &Option<TExpr>,
    code: &mut Vec<CoreStmt>,
    o: &Around,
) -> Result<CoreExpr, AllocError>
    ensures code { OnOk result (core_stmts code.new.items ≡ spec.join (core_stmts code.old.items) (spec.condition_before (shown o.now) (maybe e.now))) }
    ensures value { IfOk result (λ v. core_expr v ≡ spec.condition_value (shown o.now) (maybe e.now)) }
{
    match e {
        None => Ok(CoreExpr::Const(1)),
        Some(e) => emit(alloc, e, code, o, 0),
    }
}

/// Appends: the loop is left where its condition is zero.
fn push_test(alloc: Global, code: &mut Vec<CoreStmt>, condition: CoreExpr) -> Result<(), AllocError>
    ensures { OnOk result (core_stmts code.new.items ≡ spec.join (core_stmts code.old.items) (spec.one (choose (core_expr condition) finish (spec.one (leave 0))))) }
{
    let mut left = Vec::new(alloc);
    push(&mut left, CoreStmt::Leave(0))?;
    push_choice(code, condition, Vec::new(alloc), left)
}

/// Appends a condition of a loop, which is left where it is false.
fn emit_test(
    alloc: Global,
    e: &Option<TExpr>,
    code: &mut Vec<CoreStmt>,
    o: &Around,
) -> Result<(), AllocError>
    ensures { OnOk result (core_stmts code.new.items ≡ spec.join (core_stmts code.old.items) (spec.turn_code (shown o.now) (maybe e.now) finish)) }
{
    let condition = emit_condition(alloc, e, code, o)?;
    push_test(alloc, code, condition)
}

/// Appends the code of a statement.
#[cycle(statements)]
fn emit_stmt(
    alloc: Global,
    s: &TStmt,
    code: &mut Vec<CoreStmt>,
    o: &Around,
) -> Result<(), AllocError>
    ensures { OnOk result (core_stmts code.new.items ≡ spec.join (core_stmts code.old.items) (spec.stmt_code (shown o.now) s.now)) }
{
    match &*s.kind {
        TStmtKind::Declare(names, values) => {
            emit_declare(alloc, names.as_slice(), values, code, o)
        }
        TStmtKind::Assign(targets, values) => {
            emit_assign(alloc, targets.as_slice(), values, code, o)
        }
        TStmtKind::Eval(e) => emit_eval(alloc, e, code, o),
        TStmtKind::Block(_, body) => emit_stmts(alloc, body.as_slice(), code, o),
        TStmtKind::If(init, e, body, other) => {
            emit_maybe(alloc, init, code, o)?;
            let condition = emit(alloc, e, code, o, 0)?;
            let mut first = Vec::new(alloc);
            emit_stmts(alloc, body.as_slice(), &mut first, o)?;
            let mut second = Vec::new(alloc);
            emit_stmts(alloc, other.as_slice(), &mut second, o)?;
            push_choice(code, condition, first, second)
        }
        TStmtKind::Loop(_, init, e, post, body) => {
            emit_maybe(alloc, init, code, o)?;
            let mut turn = Vec::new(alloc);
            emit_test(alloc, e, &mut turn, o)?;
            emit_stmts(alloc, body.as_slice(), &mut turn, o)?;
            emit_maybe(alloc, post, &mut turn, o)?;
            push_loop(code, turn)
        }
        TStmtKind::Return(values) => emit_return(alloc, values, code, o),
        _ => Ok(()),
    }
}

/// Appends the code of a statement where there is one.
#[cycle(statements)]
fn emit_maybe(
    alloc: Global,
    s: &Option<TStmt>,
    code: &mut Vec<CoreStmt>,
    o: &Around,
) -> Result<(), AllocError>
    ensures { OnOk result (core_stmts code.new.items ≡ spec.join (core_stmts code.old.items) (spec.maybe_code (shown o.now) (maybe_stmt s.now))) }
{
    match s {
        None => Ok(()),
        Some(s) => emit_stmt(alloc, s, code, o),
    }
}

/// Appends the code of statements.
#[cycle(statements)]
pub fn emit_stmts(
    alloc: Global,
    ss: &[TStmt],
    code: &mut Vec<CoreStmt>,
    o: &Around,
) -> Result<(), AllocError>
    ensures { OnOk result (core_stmts code.new.items ≡ spec.join (core_stmts code.old.items) (spec.stmts_code (shown o.now) (stmts ss.now))) }
{
    for s in ss {
        emit_stmt(alloc, s, code, o)?;
    }
    Ok(())
}
