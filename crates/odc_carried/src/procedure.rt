//! The core code of a procedure.

ghost use Rattle.std.specs.Prelude.{◌≡◌, ◌++◌, [], IfOk, OnOk};
ghost use Rattle.odc_program.specs.Views.Instances.{procedure};
ghost use Rattle.odc_program.specs.Views.StmtView.{stmts};
ghost use Rattle.odc_core.specs.View.{proc as core_proc, stmts as core_stmts};
ghost use Rattle.odc_core.specs.Tree.{answer};
ghost use Rattle.odc_carried.specs.Code as spec;
ghost use Rattle.odc_carried.specs.TableView.{typed, head_in};
ghost use Rattle.odc_carried.specs.View.{shown};

use crate::around::Around;
use crate::measure::depth_in_all;
use crate::pieces::push_set;
use crate::statement::{emit_stmts, push_answer};
use crate::tables::{counted, narrow, needed, own_begin, push_variables};
use odc_core::tree::{CoreExpr, CoreProcedure, CoreStmt, Variable};
use odc_program::program::{Procedure, TypeRow};
use odc_program::tree::TStmt;
use std::alloc::{AllocError, Global};

/// The variables of a procedure: parameters, results and locals.
fn variables(alloc: Global, types: &[TypeRow], p: &Procedure) -> Result<Vec<Variable>, AllocError>
    ensures { IfOk result (λ v. v.items ≡ spec.locals_of (typed types.now) (head_in [] p.now)) }
{
    let mut all = Vec::new(alloc);
    push_variables(types, &p.params, &mut all)?;
    push_variables(types, &p.results, &mut all)?;
    push_variables(types, &p.locals, &mut all)?;
    Ok(all)
}

/// What surrounds the code of a procedure.
fn around(
    alloc: Global,
    types: &[TypeRow],
    procedures: &[Procedure],
    p: &Procedure,
) -> Result<Around, AllocError>
    ensures { IfOk result (λ o. shown o ≡ spec.around (typed types.now) (head_in procedures.now p.now) (procedure p.now).body) }
{
    let first = variables(alloc, types, p)?;
    if first.len() >= 0xffff_0000 {
        return Err(AllocError);
    }
    let low = own_begin(&first)?;
    let waiting = depth_in_all(&p.body)?;
    let result = counted(p.params.len())?;
    let results = counted(p.results.len())?;
    let needs = needed(alloc, procedures, &p.needs)?;
    Ok(Around {
        first,
        low,
        waiting,
        result,
        results,
        needs,
    })
}

/// Appends the variables in which values wait.
fn push_waits(all: &mut Vec<Variable>, low: u32, waiting: u32) -> Result<(), AllocError>
    ensures { OnOk result (all.new.items ≡ all.old.items ++ spec.waits_from low 0 waiting) }
{
    for d in 0..waiting {
        let offset = narrow(u64::from(low) + (80 + 16 * u64::from(d)))?;
        all.push(Variable { offset, size: 8 })?;
    }
    Ok(())
}

/// Where the variables of a frame lie: the compiler's own behind the procedure's.
fn laid(alloc: Global, o: &Around) -> Result<Vec<Variable>, AllocError>
    ensures { IfOk result (λ v. v.items ≡ spec.variables_of (shown o.now)) }
{
    let mut all = Vec::from_slice(alloc, o.first.as_slice())?;
    let pointer = narrow(u64::from(o.low) + 48)?;
    let number = narrow(u64::from(o.low) + 64)?;
    all.push(Variable {
        offset: o.low,
        size: 32,
    })?;
    all.push(Variable {
        offset: pointer,
        size: 8,
    })?;
    all.push(Variable {
        offset: number,
        size: 8,
    })?;
    push_waits(&mut all, o.low, o.waiting)?;
    Ok(all)
}

/// Appends: a result begins with zero.
fn push_begin(code: &mut Vec<CoreStmt>, o: &Around) -> Result<(), AllocError>
    ensures { OnOk result (core_stmts code.new.items ≡ spec.join (core_stmts code.old.items) (spec.begin_code (shown o.now) o.now.results)) }
{
    if o.results == 0 {
        Ok(())
    } else {
        push_set(code, o.result, CoreExpr::Const(0))
    }
}

/// The code of a procedure's body.
fn body_code(alloc: Global, body: &[TStmt], o: &Around) -> Result<Vec<CoreStmt>, AllocError>
    ensures { IfOk result (λ code. core_stmts code.items ≡ spec.join (spec.begin_code (shown o.now) o.now.results) (spec.join (spec.stmts_code (shown o.now) (stmts body.now)) (spec.one (answer (spec.result_code (shown o.now) o.now.results))))) }
{
    let mut code = Vec::new(alloc);
    push_begin(&mut code, o)?;
    emit_stmts(alloc, body, &mut code, o)?;
    push_answer(alloc, &mut code, o)?;
    Ok(code)
}

/// What a procedure becomes.
pub fn cross_procedure(
    alloc: Global,
    types: &[TypeRow],
    procedures: &[Procedure],
    p: &Procedure,
) -> Result<CoreProcedure, AllocError>
    ensures { IfOk result (λ q. core_proc q ≡ spec.crossed (typed types.now) (head_in procedures.now p.now) (procedure p.now).body) }
{
    let o = around(alloc, types, procedures, p)?;
    let name = String::from_str(alloc, p.name.as_str())?;
    let variables = laid(alloc, &o)?;
    let frame = narrow(p.frame)?;
    let body = body_code(alloc, &p.body, &o)?;
    Ok(CoreProcedure {
        name,
        at: p.at,
        parameters: o.result,
        variables,
        frame,
        body,
    })
}
