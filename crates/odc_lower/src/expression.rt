//! The steps of expressions.

ghost use Rattle.std.specs.Prelude.{◌≡◌, ◌+◌, ◌^◌, ◌<◌, [], ◌∷◌, ◌++◌, map, OnOk, IfOk};
ghost use Rattle.odc_core.specs.View.{expr, exprs};
ghost use Rattle.odc_lower.specs.Plain.{plain, call_step, call_value_step};
ghost use Rattle.odc_lower.specs.Size.{expr_nodes, exprs_nodes};
ghost use Rattle.odc_lower.specs.Code.{temps_from, expr_code, exprs_code};

use odc_core::tree::CoreExpr;
use odc_mid::tree::{MidStep, Named};
use std::alloc::{AllocError, Global};

/// Appends a step.
pub fn push(steps: &mut Vec<MidStep>, step: MidStep) -> Result<(), AllocError>
    ensures { OnOk result (map plain steps.new.items ≡ map plain steps.old.items ++ (plain step ∷ [])) }
{
    steps.push(step)?;
    Ok(())
}

/// So many temporaries from one on.
fn consecutive(alloc: Global, first: u32, count: u32) -> Result<Vec<u32>, AllocError>
    requires { first + count < 2 ^ 32 }
    ensures { IfOk result (λ v. v.items ≡ temps_from first count) }
{
    let mut temps = Vec::new(alloc);
    for i in 0..count {
        temps.push(first + i)?;
    }
    Ok(temps)
}

/// Appends the call of a procedure whose arguments lie from `d` on.
fn push_call(
    alloc: Global,
    steps: &mut Vec<MidStep>,
    d: u32,
    procedure: u32,
    count: u32,
) -> Result<(), AllocError>
    requires { d + count < 2 ^ 32 }
    ensures { OnOk result (map plain steps.new.items ≡ map plain steps.old.items ++ (call_step d procedure (temps_from d count) ∷ [])) }
{
    let arguments = consecutive(alloc, d, count)?;
    push(
        steps,
        MidStep::Call {
            to: d,
            procedure,
            arguments,
        },
    )
}

/// Appends the call of the procedure whose word is in `d`, and whose arguments lie behind it.
fn push_call_value(
    alloc: Global,
    steps: &mut Vec<MidStep>,
    d: u32,
    count: u32,
    marked: bool,
) -> Result<(), AllocError>
    requires { d + 1 + count < 2 ^ 32 }
    ensures { OnOk result (map plain steps.new.items ≡ map plain steps.old.items ++ (call_value_step d d (temps_from (d + 1) count) marked ∷ [])) }
{
    let arguments = consecutive(alloc, d + 1, count)?;
    push(
        steps,
        MidStep::CallValue {
            to: d,
            target: d,
            arguments,
            marked,
        },
    )
}

/// Appends the steps that put the word of an expression into the temporary `d`.
#[cycle(expressions)]
pub fn emit_expr(
    alloc: Global,
    steps: &mut Vec<MidStep>,
    d: u32,
    e: &CoreExpr,
) -> Result<(), AllocError>
    requires { d + expr_nodes (expr e.now) < 2 ^ 32 }
    ensures { OnOk result (map plain steps.new.items ≡ map plain steps.old.items ++ expr_code d (expr e.now)) }
{
    match e {
        CoreExpr::Const(word) => push(steps, MidStep::Const { to: d, word: *word }),
        CoreExpr::Slot(x) => push(
            steps,
            MidStep::Address {
                to: d,
                of: Named::Variable(*x),
            },
        ),
        CoreExpr::Address(n) => push(
            steps,
            MidStep::Address {
                to: d,
                of: Named::Stored(*n),
            },
        ),
        CoreExpr::Procedure(f) => push(
            steps,
            MidStep::Address {
                to: d,
                of: Named::Procedure(*f),
            },
        ),
        CoreExpr::Load(width, at) => {
            emit_expr(alloc, steps, d, at)?;
            push(
                steps,
                MidStep::Load {
                    to: d,
                    width: *width,
                    address: d,
                },
            )
        }
        CoreExpr::Unary(op, operand) => {
            emit_expr(alloc, steps, d, operand)?;
            push(
                steps,
                MidStep::Unary {
                    to: d,
                    op: *op,
                    operand: d,
                },
            )
        }
        CoreExpr::Binary(op, left, right) => {
            emit_expr(alloc, steps, d, left)?;
            emit_expr(alloc, steps, d + 1, right)?;
            push(
                steps,
                MidStep::Binary {
                    to: d,
                    op: *op,
                    left: d,
                    right: d + 1,
                },
            )
        }
        CoreExpr::Compare(op, left, right) => {
            emit_expr(alloc, steps, d, left)?;
            emit_expr(alloc, steps, d + 1, right)?;
            push(
                steps,
                MidStep::Compare {
                    to: d,
                    op: *op,
                    left: d,
                    right: d + 1,
                },
            )
        }
        CoreExpr::Call(f, arguments) => {
            emit_exprs(alloc, steps, d, arguments)?;
            push_call(alloc, steps, d, *f, arguments.len() as u32)
        }
        CoreExpr::CallValue(target, arguments, marked) => {
            emit_expr(alloc, steps, d, target)?;
            emit_exprs(alloc, steps, d + 1, arguments)?;
            push_call_value(alloc, steps, d, arguments.len() as u32, *marked)
        }
    }
}

/// Appends the steps that put the words of expressions into the temporaries from `d` on.
#[cycle(expressions)]
fn emit_exprs(
    alloc: Global,
    steps: &mut Vec<MidStep>,
    d: u32,
    es: &[CoreExpr],
) -> Result<(), AllocError>
    requires { d + exprs_nodes (exprs es.now) < 2 ^ 32 }
    ensures { OnOk result (map plain steps.new.items ≡ map plain steps.old.items ++ exprs_code d (exprs es.now)) }
{
    for (i, e) in es.iter().enumerate() {
        emit_expr(alloc, steps, d + i as u32, e)?;
    }
    Ok(())
}
