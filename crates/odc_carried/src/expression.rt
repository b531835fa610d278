//! The code of expressions: what runs first is appended, and what then gives the value is the answer.

ghost use Rattle.std.specs.Prelude.{◌≡◌, ◌+◌, OnOk, IfOk};
ghost use Rattle.odc_text.specs.declared.check.Check.TheVariants.{Division};
ghost use Rattle.odc_program.specs.Views.View.{exprs};
ghost use Rattle.odc_core.specs.declared.tree.Comparison.TheVariants.{Less};
ghost use Rattle.odc_core.specs.Tree.{const, compare, call, choose, check, finish, follow};
ghost use Rattle.odc_core.specs.View.{expr as core_expr, exprs as core_exprs, stmts as core_stmts};
ghost use Rattle.odc_carried.specs.Code as spec;
ghost use Rattle.odc_carried.specs.View.{shown};
ghost use Rattle.odc_carried.specs.WayView.{shown_way};

use crate::around::{Around, deeper};
use crate::operands::{Way, loud_until, way_of, word_of};
use crate::pieces::{compared, operated, push, push_choice, push_wait, value_at, word_in};
use odc_core::tree::{BinaryOp as CoreOp, Comparison, CoreExpr, CoreStmt};
use odc_program::ops::{BinaryOp, UnaryOp};
use odc_program::tree::{TExpr, TExprKind};
use odc_text::check::Check;
use odc_text::place::Place;
use std::alloc::{AllocError, Global};

/// The other truth value.
fn negated(alloc: Global, value: CoreExpr) -> Result<CoreExpr, AllocError>
    ensures { IfOk result (λ e. core_expr e ≡ spec.negated (core_expr value)) }
{
    compared(alloc, Comparison::Equal, value, CoreExpr::Const(0))
}

/// What a prefix operator makes of a value.
fn unary(alloc: Global, op: UnaryOp, value: CoreExpr) -> Result<CoreExpr, AllocError>
    ensures { IfOk result (λ e. core_expr e ≡ spec.unary_code op (core_expr value)) }
{
    match op {
        UnaryOp::Negate => operated(alloc, CoreOp::Subtract, CoreExpr::Const(0), value),
        UnaryOp::Not => negated(alloc, value),
        UnaryOp::Plus | UnaryOp::Complement => Ok(value),
    }
}

/// Whether one value isn't less than another one.
fn at_least(alloc: Global, left: CoreExpr, right: CoreExpr) -> Result<CoreExpr, AllocError>
    ensures { IfOk result (λ e. core_expr e ≡ spec.negated (compare Less (core_expr left) (core_expr right))) }
{
    let less = compared(alloc, Comparison::Less, left, right)?;
    negated(alloc, less)
}

/// What an operator makes of two values. One that isn't carried gives its left one.
fn binary(
    alloc: Global,
    op: BinaryOp,
    left: CoreExpr,
    right: CoreExpr,
) -> Result<CoreExpr, AllocError>
    ensures { IfOk result (λ e. core_expr e ≡ spec.binary_code op (core_expr left) (core_expr right)) }
{
    match op {
        BinaryOp::Add => operated(alloc, CoreOp::Add, left, right),
        BinaryOp::Subtract => operated(alloc, CoreOp::Subtract, left, right),
        BinaryOp::Multiply => operated(alloc, CoreOp::Multiply, left, right),
        BinaryOp::Divide => operated(alloc, CoreOp::Divide, left, right),
        BinaryOp::Remainder => operated(alloc, CoreOp::Remainder, left, right),
        BinaryOp::Equal => compared(alloc, Comparison::Equal, left, right),
        BinaryOp::Unequal => compared(alloc, Comparison::Different, left, right),
        BinaryOp::Less => compared(alloc, Comparison::Less, left, right),
        BinaryOp::Greater => compared(alloc, Comparison::Less, right, left),
        BinaryOp::AtMost => at_least(alloc, right, left),
        BinaryOp::AtLeast => at_least(alloc, left, right),
        BinaryOp::Modulo
        | BinaryOp::And
        | BinaryOp::AndNot
        | BinaryOp::Or
        | BinaryOp::Xor
        | BinaryOp::ShiftLeft
        | BinaryOp::ShiftRight
        | BinaryOp::AndAlso
        | BinaryOp::OrElse => Ok(left),
    }
}

/// Appends: the program stops where the value that waits at a depth is zero.
fn push_check(
    alloc: Global,
    code: &mut Vec<CoreStmt>,
    o: &Around,
    d: u32,
    at: Place,
) -> Result<(), AllocError>
    ensures { OnOk result (core_stmts code.new.items ≡ spec.join (core_stmts code.old.items) (spec.one (check (spec.waits (shown o.now) d) Division at))) }
{
    let divisor = value_at(alloc, o, d)?;
    push(code, CoreStmt::Check(divisor, Check::Division, at))
}

/// Appends: a value waits at a depth, and the program stops where it is zero.
fn push_divisor(
    alloc: Global,
    code: &mut Vec<CoreStmt>,
    o: &Around,
    d: u32,
    at: Place,
    divisor: CoreExpr,
) -> Result<(), AllocError>
    ensures { OnOk result (core_stmts code.new.items ≡ spec.join (core_stmts code.old.items) (follow (spec.wait (shown o.now) d (core_expr divisor)) (spec.one (check (spec.waits (shown o.now) d) Division at)))) }
{
    push_wait(code, o, d, divisor)?;
    push_check(alloc, code, o, d, at)
}

/// Appends: a value waits at a depth where a condition holds, after what runs before it, and 0 else.
fn push_both(
    alloc: Global,
    code: &mut Vec<CoreStmt>,
    o: &Around,
    d: u32,
    condition: CoreExpr,
    first: Vec<CoreStmt>,
) -> Result<(), AllocError>
    ensures { OnOk result (core_stmts code.new.items ≡ spec.join (core_stmts code.old.items) (spec.one (choose (core_expr condition) (core_stmts first.items) (spec.one (spec.wait (shown o.now) d (const 0)))))) }
{
    let mut second = Vec::new(alloc);
    push_wait(&mut second, o, d, CoreExpr::Const(0))?;
    push_choice(code, condition, first, second)
}

/// Appends: 1 waits at a depth where a condition holds, and else a value, after what runs before it.
fn push_either(
    alloc: Global,
    code: &mut Vec<CoreStmt>,
    o: &Around,
    d: u32,
    condition: CoreExpr,
    second: Vec<CoreStmt>,
) -> Result<(), AllocError>
    ensures { OnOk result (core_stmts code.new.items ≡ spec.join (core_stmts code.old.items) (spec.one (choose (core_expr condition) (spec.one (spec.wait (shown o.now) d (const 1))) (core_stmts second.items)))) }
{
    let mut first = Vec::new(alloc);
    push_wait(&mut first, o, d, CoreExpr::Const(1))?;
    push_choice(code, condition, first, second)
}

/// Appends: a procedure is called, and its result waits at a depth.
fn push_call(
    code: &mut Vec<CoreStmt>,
    o: &Around,
    d: u32,
    procedure: u32,
    arguments: Vec<CoreExpr>,
) -> Result<(), AllocError>
    ensures { OnOk result (core_stmts code.new.items ≡ spec.join (core_stmts code.old.items) (spec.one (spec.wait (shown o.now) d (call procedure (core_exprs arguments.items))))) }
{
    push_wait(code, o, d, CoreExpr::Call(procedure, arguments))
}

/// An operator, and its place.
#[derive(Clone, Copy)]
struct Operator {
    op: BinaryOp,
    at: Place,
}

/// Appends what runs before an expression has its value, and gives that value.
#[cycle(expressions)]
pub fn emit(
    alloc: Global,
    e: &TExpr,
    code: &mut Vec<CoreStmt>,
    o: &Around,
    d: u32,
) -> Result<CoreExpr, AllocError>
    ensures code { OnOk result (core_stmts code.new.items ≡ spec.join (core_stmts code.old.items) (spec.before (shown o.now) d e.now)) }
    ensures value { IfOk result (λ v. core_expr v ≡ spec.value (shown o.now) d e.now) }
{
    match &*e.kind {
        TExprKind::Const(constant) => Ok(CoreExpr::Const(word_of(*constant))),
        TExprKind::Local(x) => word_in(alloc, *x),
        TExprKind::Unary(op, inner) => {
            let value = emit(alloc, inner, code, o, d)?;
            unary(alloc, *op, value)
        }
        TExprKind::Binary(op, left, right) => {
            let value = emit(alloc, left, code, o, d)?;
            let operator = Operator { op: *op, at: e.at };
            emit_right(alloc, right, code, o, d, operator, value)
        }
        TExprKind::Call(need, _, arguments) => {
            let values = emit_arguments(alloc, arguments.as_slice(), code, o, d)?;
            push_call(code, o, d, o.needed(*need), values)?;
            value_at(alloc, o, d)
        }
        _ => value_at(alloc, o, d),
    }
}

/// The same for an operator whose left operand has its value.
#[cycle(expressions)]
fn emit_right(
    alloc: Global,
    right: &TExpr,
    code: &mut Vec<CoreStmt>,
    o: &Around,
    d: u32,
    operator: Operator,
    left: CoreExpr,
) -> Result<CoreExpr, AllocError>
    ensures code { OnOk result (core_stmts code.new.items ≡ spec.join (core_stmts code.old.items) (spec.before_by (shown o.now) d operator.at (spec.way operator.op right.now) finish (core_expr left) (spec.before (shown o.now) (d + 1) right.now) (spec.value (shown o.now) (d + 1) right.now))) }
    ensures value { IfOk result (λ v. core_expr v ≡ spec.value_by (shown o.now) d operator.op (spec.way operator.op right.now) (core_expr left) (spec.value (shown o.now) (d + 1) right.now)) }
{
    let inner = deeper(d, 1)?;
    match way_of(operator.op, right) {
        Way::Nested => {
            let value = emit(alloc, right, code, o, inner)?;
            binary(alloc, operator.op, left, value)
        }
        Way::Waiting => {
            push_wait(code, o, d, left)?;
            let value = emit(alloc, right, code, o, inner)?;
            let waiting = value_at(alloc, o, d)?;
            binary(alloc, operator.op, waiting, value)
        }
        Way::Checking => {
            push_wait(code, o, d, left)?;
            let value = emit(alloc, right, code, o, inner)?;
            push_divisor(alloc, code, o, inner, operator.at, value)?;
            let waiting = value_at(alloc, o, d)?;
            let divisor = value_at(alloc, o, inner)?;
            binary(alloc, operator.op, waiting, divisor)
        }
        Way::Both => {
            let mut first = Vec::new(alloc);
            let value = emit(alloc, right, &mut first, o, inner)?;
            push_wait(&mut first, o, d, value)?;
            push_both(alloc, code, o, d, left, first)?;
            value_at(alloc, o, d)
        }
        Way::Either => {
            let mut second = Vec::new(alloc);
            let value = emit(alloc, right, &mut second, o, inner)?;
            push_wait(&mut second, o, d, value)?;
            push_either(alloc, code, o, d, left, second)?;
            value_at(alloc, o, d)
        }
    }
}

/// Appends what runs before arguments have their values, and gives these. One waits where a loud one is behind it.
#[cycle(expressions)]
fn emit_arguments(
    alloc: Global,
    es: &[TExpr],
    code: &mut Vec<CoreStmt>,
    o: &Around,
    d: u32,
) -> Result<Vec<CoreExpr>, AllocError>
    ensures code { OnOk result (core_stmts code.new.items ≡ spec.join (core_stmts code.old.items) (spec.befores (shown o.now) d (exprs es.now))) }
    ensures values { IfOk result (λ vs. core_exprs vs.items ≡ spec.values (shown o.now) d (exprs es.now)) }
{
    let until = loud_until(es);
    let mut values = Vec::new(alloc);
    let mut depth = d;
    for (i, e) in es.iter().enumerate() {
        let value = emit(alloc, e, code, o, depth)?;
        if i + 1 < until {
            push_wait(code, o, depth, value)?;
            values.push(value_at(alloc, o, depth)?)?;
            depth = deeper(depth, 1)?;
        } else {
            values.push(value)?;
        }
    }
    Ok(values)
}

/// Appends: the values of expressions wait, one behind another, from a depth on.
pub fn emit_waiting(
    alloc: Global,
    es: &[TExpr],
    code: &mut Vec<CoreStmt>,
    o: &Around,
    d: u32,
) -> Result<(), AllocError>
    ensures { OnOk result (core_stmts code.new.items ≡ spec.join (core_stmts code.old.items) (spec.waits_all (shown o.now) d (exprs es.now))) }
{
    let mut depth = d;
    for e in es {
        let value = emit(alloc, e, code, o, depth)?;
        push_wait(code, o, depth, value)?;
        depth = deeper(depth, 1)?;
    }
    Ok(())
}
