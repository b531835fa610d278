//! How many nodes a procedure has, and how large its frame is.

ghost use Rattle.std.specs.Prelude.{◌≡◌, ◌+◌, ◌≤◌, ◌^◌, ◌++◌, map, SomeIff};
ghost use Rattle.odc_limits.specs.Sized.{capped, table};
ghost use Rattle.odc_limits.specs.Weighed.{listed};
ghost use Rattle.odc_program.specs.Trees.Program.{Head};
ghost use Rattle.odc_program.specs.States.State.{Env};
ghost use Rattle.odc_program.specs.Typing.Frames.{nodes_of, variable_bytes, frame_of};
ghost use Rattle.odc_program.specs.Views.Instances.{local, procedure};
ghost use Rattle.odc_program.specs.Views.ProgramView.{ty};
ghost use Rattle.odc_program.specs.Views.StmtView.{stmts};

use crate::sizes::rounded_size;
use crate::weigh_expr::Scale;
use crate::weigh_stmt::weigh_stmts;
use odc_program::program::{Local, Procedure, TypeRow};
use odc_program::tree::TStmt;

/// No frame is larger.
pub const FRAME_LIMIT: u64 = 1 << 24;

/// The variables of a procedure: its parameters, its results, and its other ones.
#[derive(Clone, Copy)]
pub struct Variables<'a> {
    pub params: &'a [Local],
    pub results: &'a [Local],
    pub locals: &'a [Local],
}

impl<'a> Variables<'a> {
    /// The variables of this procedure.
    pub fn of(p: &'a Procedure) -> Variables<'a>
        ensures { listed result ≡ (procedure p.now).parameters ++ (procedure p.now).results ++ (procedure p.now).locals }
    {
        Variables {
            params: p.params.as_slice(),
            results: p.results.as_slice(),
            locals: p.locals.as_slice(),
        }
    }
}

/// The bytes of variables in a frame: 128 for each, and its value in whole words.
fn variables_size(rows: &[TypeRow], list: &[Local]) -> u64
    ensures { result ≡ capped (variable_bytes (table rows.now) (map local list.now)) }
{
    let mut total: u64 = 0;
    for l in list {
        let size = rounded_size(rows, l.ty).saturating_add(128);
        total = total.saturating_add(size);
    }
    total
}

/// How many nodes a procedure has: its expressions, statements and variables.
pub fn nodes(variables: &Variables<'_>, body: &[TStmt]) -> u64
    ensures { (p : Head) → p.locals ≡ listed variables.now → result ≡ capped (nodes_of p (stmts body.now)) }
{
    let scale = Scale { unit: 1, rows: &[] };
    let params = variables.params.len() as u64;
    let results = variables.results.len() as u64;
    let locals = variables.locals.len() as u64;
    params
        .saturating_add(results)
        .saturating_add(locals)
        .saturating_add(weigh_stmts(&scale, body))
}

/// The size of a procedure's frame. None where it is past the limit.
pub fn frame(rows: &[TypeRow], variables: &Variables<'_>, body: &[TStmt]) -> Option<u64>
    ensures { (env : Env) (p : Head) → env.tables.types ≡ map ty rows.now → p.locals ≡ listed variables.now → SomeIff result (frame_of env p (stmts body.now) ≤ 2 ^ 24) (frame_of env p (stmts body.now)) }
{
    let scale = Scale { unit: 128, rows };
    let size = variables_size(rows, variables.params)
        .saturating_add(variables_size(rows, variables.results))
        .saturating_add(variables_size(rows, variables.locals))
        .saturating_add(weigh_stmts(&scale, body))
        .saturating_add(256);
    if size > FRAME_LIMIT {
        None
    } else {
        Some(size + (16 - size % 16) % 16)
    }
}
