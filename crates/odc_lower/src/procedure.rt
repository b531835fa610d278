//! The steps of a procedure.

ghost use Rattle.std.specs.Prelude.{◌≡◌, ◌++◌, map, OnOk, IfOk};
ghost use Rattle.odc_core.specs.View.{proc};
ghost use Rattle.odc_mid.specs.View.{proc as mid_proc};
ghost use Rattle.odc_lower.specs.Plain.{plain, plain_proc};
ghost use Rattle.odc_lower.specs.Size.{IsCountable};
ghost use Rattle.odc_lower.specs.Code.{parameters_code, procedure_code};
ghost use Rattle.odc_lower.specs.Lowered.{lowered};

use crate::expression::push;
use crate::size::needs_of_all;
use crate::statement::emit_stmts;
use odc_core::tree::{CoreProcedure, Width};
use odc_mid::tree::{MidProcedure, MidStep, Named};
use std::alloc::{AllocError, Global};

/// Appends the steps that put the parameters, which are handed in as the first temporaries, into
/// their variables; `d` is their number, and the temporary behind them.
fn emit_parameters(steps: &mut Vec<MidStep>, d: u32) -> Result<(), AllocError>
    ensures { OnOk result (map plain steps.new.items ≡ map plain steps.old.items ++ parameters_code d 0 d) }
{
    for i in 0..d {
        push(
            steps,
            MidStep::Address {
                to: d,
                of: Named::Variable(i),
            },
        )?;
        push(
            steps,
            MidStep::Store {
                width: Width::Double,
                address: d,
                value: i,
            },
        )?;
    }
    Ok(())
}

/// The steps of a procedure.
fn steps_of(alloc: Global, p: &CoreProcedure) -> Result<Vec<MidStep>, AllocError>
    requires { IsCountable (proc p.now) }
    ensures { IfOk result (λ steps. map plain steps.items ≡ procedure_code (proc p.now)) }
{
    let d = p.parameters;
    let mut steps = Vec::new(alloc);
    emit_parameters(&mut steps, d)?;
    let exits: [u32; 0] = [];
    emit_stmts(alloc, &mut steps, d, &exits, &p.body)?;
    push(&mut steps, MidStep::Const { to: d, word: 0 })?;
    push(&mut steps, MidStep::Return { value: d })?;
    Ok(steps)
}

/// What a procedure becomes.
pub fn lower_procedure(alloc: Global, p: &CoreProcedure) -> Result<MidProcedure, AllocError>
    requires { IsCountable (proc p.now) }
    ensures { IfOk result (λ q. plain_proc (mid_proc q) ≡ lowered (proc p.now)) }
{
    let name = String::from_str(alloc, p.name.as_str())?;
    let variables = Vec::from_slice(alloc, &p.variables)?;
    let temporaries = p.parameters + needs_of_all(&p.body).max(1);
    let steps = steps_of(alloc, p)?;
    Ok(MidProcedure {
        name,
        at: p.at,
        parameters: p.parameters,
        variables,
        frame: p.frame,
        temporaries,
        steps,
    })
}
