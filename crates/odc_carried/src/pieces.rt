//! Pieces of core code.

ghost use Rattle.std.specs.Prelude.{◌≡◌, OnOk, IfOk};
ghost use Rattle.odc_core.specs.Tree.{binary, compare, choose, repeat};
ghost use Rattle.odc_core.specs.View.{expr as core_expr, stmt as core_stmt, stmts as core_stmts};
ghost use Rattle.odc_carried.specs.Code.{join, one, held, put, waits, wait};
ghost use Rattle.odc_carried.specs.View.{shown};

use crate::around::Around;
use odc_core::tree::{BinaryOp, Comparison, CoreExpr, CoreStmt, Width};
use std::alloc::{AllocError, Global};

/// An operation on two words.
pub fn operated(
    alloc: Global,
    op: BinaryOp,
    left: CoreExpr,
    right: CoreExpr,
) -> Result<CoreExpr, AllocError>
    ensures { IfOk result (λ e. core_expr e ≡ binary op (core_expr left) (core_expr right)) }
{
    let left = Box::new(alloc, left)?;
    let right = Box::new(alloc, right)?;
    Ok(CoreExpr::Binary(op, left, right))
}

/// A comparison of two words.
pub fn compared(
    alloc: Global,
    op: Comparison,
    left: CoreExpr,
    right: CoreExpr,
) -> Result<CoreExpr, AllocError>
    ensures { IfOk result (λ e. core_expr e ≡ compare op (core_expr left) (core_expr right)) }
{
    let left = Box::new(alloc, left)?;
    let right = Box::new(alloc, right)?;
    Ok(CoreExpr::Compare(op, left, right))
}

/// The word in a variable.
pub fn word_in(alloc: Global, x: u32) -> Result<CoreExpr, AllocError>
    ensures { IfOk result (λ e. core_expr e ≡ held x) }
{
    let place = Box::new(alloc, CoreExpr::Slot(x))?;
    Ok(CoreExpr::Load(Width::Double, place))
}

/// The value that waits at a depth.
pub fn value_at(alloc: Global, o: &Around, d: u32) -> Result<CoreExpr, AllocError>
    ensures { IfOk result (λ e. core_expr e ≡ waits (shown o.now) d) }
{
    let x = o.waiting_at(d)?;
    word_in(alloc, x)
}

/// Appends a statement.
pub fn push(code: &mut Vec<CoreStmt>, statement: CoreStmt) -> Result<(), AllocError>
    ensures { OnOk result (core_stmts code.new.items ≡ join (core_stmts code.old.items) (one (core_stmt statement))) }
{
    code.push(statement)?;
    Ok(())
}

/// Appends: a variable gets a word.
pub fn push_set(code: &mut Vec<CoreStmt>, x: u32, value: CoreExpr) -> Result<(), AllocError>
    ensures { OnOk result (core_stmts code.new.items ≡ join (core_stmts code.old.items) (one (put x (core_expr value)))) }
{
    push(
        code,
        CoreStmt::Store(Width::Double, CoreExpr::Slot(x), value),
    )
}

/// Appends: a value waits at a depth.
pub fn push_wait(
    code: &mut Vec<CoreStmt>,
    o: &Around,
    d: u32,
    value: CoreExpr,
) -> Result<(), AllocError>
    ensures { OnOk result (core_stmts code.new.items ≡ join (core_stmts code.old.items) (one (wait (shown o.now) d (core_expr value)))) }
{
    let x = o.waiting_at(d)?;
    push_set(code, x, value)
}

/// Appends a choice between two lists.
pub fn push_choice(
    code: &mut Vec<CoreStmt>,
    condition: CoreExpr,
    first: Vec<CoreStmt>,
    second: Vec<CoreStmt>,
) -> Result<(), AllocError>
    ensures { OnOk result (core_stmts code.new.items ≡ join (core_stmts code.old.items) (one (choose (core_expr condition) (core_stmts first.items) (core_stmts second.items)))) }
{
    push(code, CoreStmt::If(condition, first, second))
}

/// Appends a loop.
pub fn push_loop(code: &mut Vec<CoreStmt>, body: Vec<CoreStmt>) -> Result<(), AllocError>
    ensures { OnOk result (core_stmts code.new.items ≡ join (core_stmts code.old.items) (one (repeat (core_stmts body.items)))) }
{
    push(code, CoreStmt::Loop(body))
}
