//! The steps of statements.

ghost use Rattle.std.specs.Prelude.{◌≡◌, ◌+◌, ◌*◌, ◌^◌, ◌<◌, [], ◌∷◌, ◌++◌, length, map, get_or, OnOk, IfOk};
ghost use Rattle.odc_core.specs.Tree.{copy, zero_bytes, store, read, write};
ghost use Rattle.odc_core.specs.View.{expr, stmt, stmts};
ghost use Rattle.odc_lower.specs.Plain.{plain};
ghost use Rattle.odc_lower.specs.Size.{expr_nodes, stmt_nodes, stmts_nodes};
ghost use Rattle.odc_lower.specs.Code.{expr_code, stmt_code, stmts_code};

use crate::bytes::{push_copy, push_zero};
use crate::expression::{emit_expr, push};
use crate::size::size_of_all;
use odc_core::tree::{CoreExpr, CoreStmt, Descriptor, Width};
use odc_mid::tree::{MidStep, SystemCall};
use std::alloc::{AllocError, Global};

/// The position behind the steps so far.
pub fn position(steps: &[MidStep]) -> u32
    requires { length steps.now < 2 ^ 32 }
    ensures { result ≡ length steps.now }
{
    steps.len() as u32
}

/// The position behind a loop by its depth. In a well program each loop that is left is there.
fn exit_of(exits: &[u32], depth: u32) -> u32
    ensures { result ≡ get_or exits.now depth 0 }
{
    if (depth as usize) < exits.len() {
        exits[depth as usize]
    } else {
        0
    }
}

/// The positions behind the loops around the body of one.
fn inside(alloc: Global, exit: u32, exits: &[u32]) -> Result<Vec<u32>, AllocError>
    ensures { IfOk result (λ v. v.items ≡ exit ∷ exits.now) }
{
    let mut all = vec![in alloc; exit]?;
    all.extend_from_slice(exits)?;
    Ok(all)
}

/// Appends the steps of two operands.
fn emit_two(
    alloc: Global,
    steps: &mut Vec<MidStep>,
    d: u32,
    a: &CoreExpr,
    b: &CoreExpr,
) -> Result<(), AllocError>
    requires { d + expr_nodes (expr a.now) + expr_nodes (expr b.now) + 6 < 2 ^ 32 }
    ensures { OnOk result (map plain steps.new.items ≡ map plain steps.old.items ++ (expr_code d (expr a.now) ++ expr_code (d + 1) (expr b.now))) }
{
    emit_expr(alloc, steps, d, a)?;
    emit_expr(alloc, steps, d + 1, b)
}

/// Appends the steps of three operands.
fn emit_three(
    alloc: Global,
    steps: &mut Vec<MidStep>,
    d: u32,
    a: &CoreExpr,
    b: &CoreExpr,
    c: &CoreExpr,
) -> Result<(), AllocError>
    requires { d + expr_nodes (expr a.now) + expr_nodes (expr b.now) + expr_nodes (expr c.now) + 6 < 2 ^ 32 }
    ensures { OnOk result (map plain steps.new.items ≡ map plain steps.old.items ++ (expr_code d (expr a.now) ++ (expr_code (d + 1) (expr b.now) ++ expr_code (d + 2) (expr c.now)))) }
{
    emit_two(alloc, steps, d, a, b)?;
    emit_expr(alloc, steps, d + 2, c)
}

/// Appends the steps of a store.
fn emit_store(
    alloc: Global,
    steps: &mut Vec<MidStep>,
    d: u32,
    width: Width,
    to: &CoreExpr,
    value: &CoreExpr,
) -> Result<(), AllocError>
    requires { d + expr_nodes (expr to.now) + expr_nodes (expr value.now) + 6 < 2 ^ 32 }
    ensures { OnOk result (map plain steps.new.items ≡ map plain steps.old.items ++ stmt_code d [] 0 (store width (expr to.now) (expr value.now))) }
{
    emit_two(alloc, steps, d, to, value)?;
    push(
        steps,
        MidStep::Store {
            width,
            address: d,
            value: d + 1,
        },
    )
}

/// Appends the steps that move bytes.
fn emit_copy(
    alloc: Global,
    steps: &mut Vec<MidStep>,
    d: u32,
    to: &CoreExpr,
    from: &CoreExpr,
    size: &CoreExpr,
) -> Result<(), AllocError>
    requires temps { d + expr_nodes (expr to.now) + expr_nodes (expr from.now) + expr_nodes (expr size.now) + 6 < 2 ^ 32 }
    requires place { length steps.old.items + expr_nodes (expr to.now) + expr_nodes (expr from.now) + expr_nodes (expr size.now) + 45 < 2 ^ 32 }
    ensures { OnOk result (map plain steps.new.items ≡ map plain steps.old.items ++ stmt_code d [] (length steps.old.items) (copy (expr to.now) (expr from.now) (expr size.now))) }
{
    emit_three(alloc, steps, d, to, from, size)?;
    let p = position(steps);
    push_copy(alloc, steps, d, p)
}

/// Appends the steps that zero bytes.
fn emit_zero(
    alloc: Global,
    steps: &mut Vec<MidStep>,
    d: u32,
    to: &CoreExpr,
    size: &CoreExpr,
) -> Result<(), AllocError>
    requires temps { d + expr_nodes (expr to.now) + expr_nodes (expr size.now) + 6 < 2 ^ 32 }
    requires place { length steps.old.items + expr_nodes (expr to.now) + expr_nodes (expr size.now) + 17 < 2 ^ 32 }
    ensures { OnOk result (map plain steps.new.items ≡ map plain steps.old.items ++ stmt_code d [] (length steps.old.items) (zero_bytes (expr to.now) (expr size.now))) }
{
    emit_two(alloc, steps, d, to, size)?;
    let p = position(steps);
    push_zero(alloc, steps, d, p)
}

/// Appends the steps of a read.
fn emit_read(
    alloc: Global,
    steps: &mut Vec<MidStep>,
    d: u32,
    to: &CoreExpr,
    size: &CoreExpr,
    taken: &CoreExpr,
) -> Result<(), AllocError>
    requires { d + expr_nodes (expr to.now) + expr_nodes (expr size.now) + expr_nodes (expr taken.now) + 6 < 2 ^ 32 }
    ensures { OnOk result (map plain steps.new.items ≡ map plain steps.old.items ++ stmt_code d [] 0 (read (expr to.now) (expr size.now) (expr taken.now))) }
{
    emit_three(alloc, steps, d, to, size, taken)?;
    push(
        steps,
        MidStep::System {
            call: SystemCall::Read {
                to: d + 3,
                address: d,
                size: d + 1,
            },
        },
    )?;
    push(
        steps,
        MidStep::Store {
            width: Width::Double,
            address: d + 2,
            value: d + 3,
        },
    )
}

/// Appends the steps of a write.
fn emit_write(
    alloc: Global,
    steps: &mut Vec<MidStep>,
    d: u32,
    descriptor: Descriptor,
    from: &CoreExpr,
    size: &CoreExpr,
) -> Result<(), AllocError>
    requires { d + expr_nodes (expr from.now) + expr_nodes (expr size.now) + 6 < 2 ^ 32 }
    ensures { OnOk result (map plain steps.new.items ≡ map plain steps.old.items ++ stmt_code d [] 0 (write descriptor (expr from.now) (expr size.now))) }
{
    emit_two(alloc, steps, d, from, size)?;
    push(
        steps,
        MidStep::System {
            call: SystemCall::Write {
                descriptor,
                address: d,
                size: d + 1,
            },
        },
    )
}

/// Appends the steps of a statement; `exits` are the positions behind the loops around it, the
/// innermost first.
#[cycle(statements)]
fn emit_stmt(
    alloc: Global,
    steps: &mut Vec<MidStep>,
    d: u32,
    exits: &[u32],
    s: &CoreStmt,
) -> Result<(), AllocError>
    requires nodes { stmt_nodes (stmt s.now) < 2 ^ 24 }
    requires temps { d + stmt_nodes (stmt s.now) + 6 < 2 ^ 32 }
    requires place { length steps.old.items + 45 * stmt_nodes (stmt s.now) < 2 ^ 32 }
    ensures { OnOk result (map plain steps.new.items ≡ map plain steps.old.items ++ stmt_code d exits.now (length steps.old.items) (stmt s.now)) }
{
    match s {
        CoreStmt::Eval(value) => emit_expr(alloc, steps, d, value),
        CoreStmt::Store(width, to, value) => emit_store(alloc, steps, d, *width, to, value),
        CoreStmt::Copy(to, from, size) => emit_copy(alloc, steps, d, to, from, size),
        CoreStmt::Zero(to, size) => emit_zero(alloc, steps, d, to, size),
        CoreStmt::If(condition, first, second) => {
            emit_expr(alloc, steps, d, condition)?;
            let begin = position(steps) + 1 + size_of_all(second) + 1;
            push(
                steps,
                MidStep::Branch {
                    condition: d,
                    label: begin,
                },
            )?;
            emit_stmts(alloc, steps, d, exits, second)?;
            let end = begin + size_of_all(first);
            push(steps, MidStep::Jump { label: end })?;
            emit_stmts(alloc, steps, d, exits, first)
        }
        CoreStmt::Loop(body) => {
            let begin = position(steps) + 1;
            let within = inside(alloc, begin + size_of_all(body) + 1, exits)?;
            push(steps, MidStep::Jump { label: begin })?;
            emit_stmts(alloc, steps, d, &within, body)?;
            push(steps, MidStep::Jump { label: begin })
        }
        CoreStmt::Leave(depth) => push(
            steps,
            MidStep::Jump {
                label: exit_of(exits, *depth),
            },
        ),
        CoreStmt::Return(value) => {
            emit_expr(alloc, steps, d, value)?;
            push(steps, MidStep::Return { value: d })
        }
        CoreStmt::Check(condition, check, at) => {
            emit_expr(alloc, steps, d, condition)?;
            push(
                steps,
                MidStep::Check {
                    condition: d,
                    check: *check,
                    at: *at,
                },
            )
        }
        CoreStmt::Read(to, size, taken) => emit_read(alloc, steps, d, to, size, taken),
        CoreStmt::Write(descriptor, from, size) => {
            emit_write(alloc, steps, d, *descriptor, from, size)
        }
        CoreStmt::Exit(code) => {
            emit_expr(alloc, steps, d, code)?;
            push(
                steps,
                MidStep::System {
                    call: SystemCall::Exit { code: d },
                },
            )
        }
    }
}

/// Appends the steps of statements.
#[cycle(statements)]
pub fn emit_stmts(
    alloc: Global,
    steps: &mut Vec<MidStep>,
    d: u32,
    exits: &[u32],
    ss: &[CoreStmt],
) -> Result<(), AllocError>
    requires nodes { stmts_nodes (stmts ss.now) < 2 ^ 24 }
    requires temps { d + stmts_nodes (stmts ss.now) + 6 < 2 ^ 32 }
    requires place { length steps.old.items + 45 * stmts_nodes (stmts ss.now) < 2 ^ 32 }
    ensures { OnOk result (map plain steps.new.items ≡ map plain steps.old.items ++ stmts_code d exits.now (length steps.old.items) (stmts ss.now)) }
{
    for s in ss {
        emit_stmt(alloc, steps, d, exits, s)?;
    }
    Ok(())
}
