//! The code of expressions: a value comes to wait at a depth, and those that wait below it stay.

ghost use Rattle.std.specs.Prelude.{◌≡◌, ◌+◌, ◌≤◌, OnOk, IfOk};
ghost use Rattle.odc_text.specs.declared.check.Check.TheVariants.{Division};
ghost use Rattle.odc_core.specs.Tree.{binary, compare, call, check, follow};
ghost use Rattle.odc_core.specs.View.{exprs as core_exprs, stmts as core_stmts};
ghost use Rattle.odc_typed.specs.View.{expr, exprs};
ghost use Rattle.odc_context.specs.Code.{join, one, waits, wait, all_waiting, constant_word, operation_code, builtin_code, expr_code, exprs_code, depth_of, depth_of_all};
ghost use Rattle.odc_context.specs.View.{own};

use crate::line::push_line;
use crate::own::OwnVariables;
use crate::pieces::{compared, operated, push, push_wait, value_at, word_in};
use odc_core::tree::{BinaryOp, Comparison, CoreExpr, CoreStmt};
use odc_text::check::Check;
use odc_text::place::Place;
use odc_typed::tree::{BinaryOp as Operation, Builtin, Constant, ExprKind, TExpr};
use std::alloc::{AllocError, Global};

/// The word of a constant.
fn word_of(constant: Constant) -> u64
    ensures { result ≡ constant_word constant }
{
    match constant {
        Constant::Int { value } => value.cast_unsigned(),
        Constant::Bool { value } => u64::from(value),
    }
}

/// Appends an operation on the two values that wait from a depth on.
fn push_operation(
    alloc: Global,
    code: &mut Vec<CoreStmt>,
    o: OwnVariables,
    d: u32,
    op: BinaryOp,
) -> Result<(), AllocError>
    requires { d + 1 ≤ o.waiting }
    ensures { OnOk result (core_stmts code.new.items ≡ join (core_stmts code.old.items) (one (wait (own o) d (binary op (waits (own o) d) (waits (own o) (d + 1)))))) }
{
    let left = value_at(alloc, o, d)?;
    let right = value_at(alloc, o, d + 1)?;
    let value = operated(alloc, op, left, right)?;
    push_wait(code, o, d, value)
}

/// Appends a comparison of the two values that wait from a depth on.
fn push_comparison(
    alloc: Global,
    code: &mut Vec<CoreStmt>,
    o: OwnVariables,
    d: u32,
    op: Comparison,
) -> Result<(), AllocError>
    requires { d + 1 ≤ o.waiting }
    ensures { OnOk result (core_stmts code.new.items ≡ join (core_stmts code.old.items) (one (wait (own o) d (compare op (waits (own o) d) (waits (own o) (d + 1)))))) }
{
    let left = value_at(alloc, o, d)?;
    let right = value_at(alloc, o, d + 1)?;
    let value = compared(alloc, op, left, right)?;
    push_wait(code, o, d, value)
}

/// Appends: the program stops where the value that waits at a depth is zero.
fn push_check(
    alloc: Global,
    code: &mut Vec<CoreStmt>,
    o: OwnVariables,
    d: u32,
    at: Place,
) -> Result<(), AllocError>
    requires { d ≤ o.waiting }
    ensures { OnOk result (core_stmts code.new.items ≡ join (core_stmts code.old.items) (one (check (waits (own o) d) Division at))) }
{
    let divisor = value_at(alloc, o, d)?;
    push(code, CoreStmt::Check(divisor, Check::Division, at))
}

/// Appends a division with its check.
fn push_division(
    alloc: Global,
    code: &mut Vec<CoreStmt>,
    o: OwnVariables,
    d: u32,
    at: Place,
    op: BinaryOp,
) -> Result<(), AllocError>
    requires { d + 1 ≤ o.waiting }
    ensures { OnOk result (core_stmts code.new.items ≡ join (core_stmts code.old.items) (follow (check (waits (own o) (d + 1)) Division at) (one (wait (own o) d (binary op (waits (own o) d) (waits (own o) (d + 1))))))) }
{
    push_check(alloc, code, o, d + 1, at)?;
    push_operation(alloc, code, o, d, op)
}

/// Appends an operation of the source on the two values that wait from a depth on.
fn emit_operation(
    alloc: Global,
    code: &mut Vec<CoreStmt>,
    o: OwnVariables,
    d: u32,
    at: Place,
    op: Operation,
) -> Result<(), AllocError>
    requires { d + 1 ≤ o.waiting }
    ensures { OnOk result (core_stmts code.new.items ≡ join (core_stmts code.old.items) (operation_code (own o) d at op)) }
{
    match op {
        Operation::Add => push_operation(alloc, code, o, d, BinaryOp::Add),
        Operation::Subtract => push_operation(alloc, code, o, d, BinaryOp::Subtract),
        Operation::Multiply => push_operation(alloc, code, o, d, BinaryOp::Multiply),
        Operation::Divide => push_division(alloc, code, o, d, at, BinaryOp::Divide),
        Operation::Remainder => push_division(alloc, code, o, d, at, BinaryOp::Remainder),
        Operation::Less => push_comparison(alloc, code, o, d, Comparison::Less),
        Operation::Equal => push_comparison(alloc, code, o, d, Comparison::Equal),
    }
}

/// So many values that wait from a depth on.
fn waiting_values(
    alloc: Global,
    o: OwnVariables,
    d: u32,
    count: u32,
) -> Result<Vec<CoreExpr>, AllocError>
    requires { d + count ≤ o.waiting }
    ensures { IfOk result (λ v. core_exprs v.items ≡ all_waiting (own o) d count) }
{
    let mut values = Vec::new(alloc);
    for i in 0..count {
        values.push(value_at(alloc, o, d + i)?)?;
    }
    Ok(values)
}

/// Appends the call of a procedure whose arguments wait from a depth on.
fn push_call(
    alloc: Global,
    code: &mut Vec<CoreStmt>,
    o: OwnVariables,
    d: u32,
    procedure: u32,
    count: u32,
) -> Result<(), AllocError>
    requires { d + count ≤ o.waiting }
    ensures { OnOk result (core_stmts code.new.items ≡ join (core_stmts code.old.items) (one (wait (own o) d (call procedure (all_waiting (own o) d count))))) }
{
    let arguments = waiting_values(alloc, o, d, count)?;
    push_wait(code, o, d, CoreExpr::Call(procedure, arguments))
}

/// Appends the call of a built-in whose arguments wait from a depth on.
fn push_builtin(
    alloc: Global,
    code: &mut Vec<CoreStmt>,
    o: OwnVariables,
    d: u32,
    which: Builtin,
    count: u32,
) -> Result<(), AllocError>
    requires { d + count ≤ o.waiting }
    ensures { OnOk result (core_stmts code.new.items ≡ join (core_stmts code.old.items) (builtin_code (own o) d which count)) }
{
    match which {
        Builtin::Println => push_line(alloc, code, o, d, count),
    }
}

/// Appends the code of an expression.
#[cycle(expressions)]
pub fn emit_expr(
    alloc: Global,
    e: &TExpr,
    code: &mut Vec<CoreStmt>,
    o: OwnVariables,
    d: u32,
) -> Result<(), AllocError>
    requires { d + depth_of (expr e.now) ≤ o.waiting }
    ensures { OnOk result (core_stmts code.new.items ≡ join (core_stmts code.old.items) (expr_code (own o) d (expr e.now))) }
{
    match &e.kind {
        ExprKind::Const(constant) => { push_wait(code, o, d, CoreExpr::Const(word_of(*constant))) }
        ExprKind::Local(x) => {
            let value = word_in(alloc, *x)?;
            push_wait(code, o, d, value)
        }
        ExprKind::Binary(op, left, right) => {
            emit_expr(alloc, left, code, o, d)?;
            emit_expr(alloc, right, code, o, d + 1)?;
            emit_operation(alloc, code, o, d, e.at, *op)
        }
        ExprKind::Call(procedure, arguments) => {
            emit_exprs(alloc, arguments, code, o, d)?;
            push_call(alloc, code, o, d, *procedure, arguments.len() as u32)
        }
        ExprKind::Builtin(which, arguments) => {
            emit_exprs(alloc, arguments, code, o, d)?;
            push_builtin(alloc, code, o, d, *which, arguments.len() as u32)
        }
    }
}

/// Appends the code of expressions, whose values come to wait one behind the other.
#[cycle(expressions)]
fn emit_exprs(
    alloc: Global,
    es: &[TExpr],
    code: &mut Vec<CoreStmt>,
    o: OwnVariables,
    d: u32,
) -> Result<(), AllocError>
    requires { d + depth_of_all (exprs es.now) ≤ o.waiting }
    ensures { OnOk result (core_stmts code.new.items ≡ join (core_stmts code.old.items) (exprs_code (own o) d (exprs es.now))) }
{
    for (i, e) in es.iter().enumerate() {
        emit_expr(alloc, e, code, o, d + i as u32)?;
    }
    Ok(())
}
