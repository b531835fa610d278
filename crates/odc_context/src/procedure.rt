//! The core code of a procedure.

ghost use Rattle.std.specs.Prelude.{◌≡◌, ◌^◌, ◌≤◌, OnOk, IfOk};
ghost use Rattle.odc_core.specs.View.{proc as core_proc, stmts as core_stmts};
ghost use Rattle.odc_typed.specs.Frame.{variables, frame};
ghost use Rattle.odc_typed.specs.View.{proc, stmts};
ghost use Rattle.odc_context.specs.Code.{join, stmts_code, stmts_depth, begin_code, end_code, own_of, variables_of, crossed};
ghost use Rattle.odc_context.specs.View.{own};

use crate::measure::{depth_in_all, room_in_all};
use crate::own::OwnVariables;
use crate::pieces::push_set;
use crate::statement::{emit_stmts, push_result};
use odc_core::tree::{CoreExpr, CoreProcedure, CoreStmt, Variable};
use odc_typed::tree::{Local, Procedure};
use std::alloc::{AllocError, Global};

/// How many variables a procedure has.
fn variables_in(p: &Procedure) -> u32
    requires { frame (proc p.now) ≤ 2 ^ 24 }
    ensures { result ≡ variables (proc p.now) }
{
    (p.parameters.len() + p.results.len() + p.locals.len()) as u32
}

/// A procedure's own variables.
fn own_variables(p: &Procedure) -> OwnVariables
    requires { frame (proc p.now) ≤ 2 ^ 24 }
    ensures { own result ≡ own_of (proc p.now) }
{
    OwnVariables {
        first: variables_in(p),
        result: p.parameters.len() as u32,
        waiting: depth_in_all(&p.body),
    }
}

/// The size of a procedure's frame: 256 bytes, 136 for each variable, and what the nodes of its body
/// add, rounded up.
fn frame_size(p: &Procedure) -> u32
    requires { frame (proc p.now) ≤ 2 ^ 24 }
    ensures { result ≡ frame (proc p.now) }
{
    let size = 256 + 136 * variables_in(p) + room_in_all(&p.body);
    (size + 15) / 16 * 16
}

/// Where the variables of a frame lie: one word behind another, those of printing below them.
fn laid_variables(alloc: Global, o: OwnVariables) -> Result<Vec<Variable>, AllocError>
    ensures { IfOk result (λ v. v.items ≡ variables_of (own o)) }
{
    let mut all = Vec::new(alloc);
    for x in 0..o.first + o.waiting {
        all.push(Variable {
            offset: 128 + 16 * x,
            size: 8,
        })?;
    }
    all.push(Variable {
        offset: 16,
        size: 32,
    })?;
    all.push(Variable {
        offset: 64,
        size: 8,
    })?;
    all.push(Variable {
        offset: 80,
        size: 8,
    })?;
    Ok(all)
}

/// Appends: a result begins with zero.
fn push_begin(
    code: &mut Vec<CoreStmt>,
    o: OwnVariables,
    results: &[Local],
) -> Result<(), AllocError>
    ensures { OnOk result (core_stmts code.new.items ≡ join (core_stmts code.old.items) (begin_code (own o) results.now)) }
{
    match results {
        [] => Ok(()),
        [_, ..] => push_set(code, o.result, CoreExpr::Const(0)),
    }
}

/// Appends: a result is answered as it stands.
fn push_end(
    alloc: Global,
    code: &mut Vec<CoreStmt>,
    o: OwnVariables,
    results: &[Local],
) -> Result<(), AllocError>
    ensures { OnOk result (core_stmts code.new.items ≡ join (core_stmts code.old.items) (end_code (own o) results.now)) }
{
    match results {
        [] => Ok(()),
        [_, ..] => push_result(alloc, code, o),
    }
}

/// The code of a procedure's body.
fn body_code(alloc: Global, p: &Procedure, o: OwnVariables) -> Result<Vec<CoreStmt>, AllocError>
    requires { stmts_depth (stmts p.now.body.items) ≤ o.waiting }
    ensures { IfOk result (λ code. core_stmts code.items ≡ join (begin_code (own o) p.now.results.items) (join (stmts_code (own o) (stmts p.now.body.items)) (end_code (own o) p.now.results.items))) }
{
    let mut code = Vec::new(alloc);
    push_begin(&mut code, o, &p.results)?;
    emit_stmts(alloc, &p.body, &mut code, o)?;
    push_end(alloc, &mut code, o, &p.results)?;
    Ok(code)
}

/// What a procedure becomes.
pub fn cross_procedure(alloc: Global, p: &Procedure) -> Result<CoreProcedure, AllocError>
    requires { frame (proc p.now) ≤ 2 ^ 24 }
    ensures { IfOk result (λ q. core_proc q ≡ crossed (proc p.now)) }
{
    let o = own_variables(p);
    let name = String::from_str(alloc, p.name.as_str())?;
    let variables = laid_variables(alloc, o)?;
    let body = body_code(alloc, p, o)?;
    Ok(CoreProcedure {
        name,
        at: p.at,
        parameters: o.result,
        variables,
        frame: frame_size(p),
        body,
    })
}
