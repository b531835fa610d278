//! The holes of a block, and its calls of allocators.

ghost use Rattle.std.specs.Prelude.{◌≡◌, ℕ, ◌+◌, ◌*◌, ◌^◌, ◌<◌, ◌≤◌, ◌++◌, length, OnOk, IfOk};
ghost use Rattle.odc_mid.specs.declared.tree.MidStep.TheVariants.{Address};
ghost use Rattle.odc_mid.specs.View.{proc};
ghost use Rattle.rv_emit.specs.Code.{enter_size, step_size as size_of_step, proc_size as size_of_proc};
ghost use Rattle.rv_emit.specs.Blocks.{site_hole as hole_of_site, procedure_hole as hole_of_procedure, address_hole as hole_of_address, step_holes, proc_holes, step_marks, steps_marks};

use crate::sizes::step_size;
use crate::unlinked::{Hole, HoleKind};
use odc_mid::tree::{MidProcedure, MidStep, Named};
use odc_text::check::Check;
use odc_text::place::Place;
use std::alloc::{AllocError, Global};

/// A hole for the number of a check's site.
fn site_hole(at: u64, check: Check, source: Place) -> Hole
    requires { at < 2 ^ 32 }
    ensures { result ≡ hole_of_site at check source }
{
    let kind = HoleKind::Site {
        line: source.line,
        column: source.column,
        check,
    };
    Hole {
        at: at as u32,
        kind,
        own: source.file.number,
    }
}

/// A hole for the entry of a procedure.
fn procedure_hole(at: u64, procedure: u32) -> Hole
    requires { at < 2 ^ 32 }
    ensures { result ≡ hole_of_procedure at procedure }
{
    Hole {
        at: at as u32,
        kind: HoleKind::Procedure,
        own: procedure,
    }
}

/// A hole for the address of a global or a literal.
fn address_hole(at: u64, stored: u32) -> Hole
    requires { at < 2 ^ 32 }
    ensures { result ≡ hole_of_address at stored }
{
    Hole {
        at: at as u32,
        kind: HoleKind::Address,
        own: stored,
    }
}

/// Appends the hole of an address, if it has one.
fn push_named_hole(holes: &mut Vec<Hole>, at: u64, to: u32, of: Named) -> Result<(), AllocError>
    requires { at < 2 ^ 32 }
    ensures { OnOk result (holes.new.items ≡ holes.old.items ++ step_holes at (Address to of)) }
{
    match of {
        Named::Variable(_) => {}
        Named::Stored(n) => holes.push(address_hole(at, n))?,
        Named::Procedure(f) => holes.push(procedure_hole(at, f))?,
    }
    Ok(())
}

/// Appends the hole of a step whose code begins at a position of its block, if it has one.
fn push_step_hole(holes: &mut Vec<Hole>, at: u64, step: &MidStep) -> Result<(), AllocError>
    requires { at + size_of_step step.now < 2 ^ 32 }
    ensures { OnOk result (holes.new.items ≡ holes.old.items ++ step_holes at step.now) }
{
    match step {
        MidStep::Address { to, of } => push_named_hole(holes, at, *to, *of),
        MidStep::Call {
            procedure,
            arguments,
            ..
        } => {
            let there = at + (13 + 8 * arguments.len() as u64);
            holes.push(procedure_hole(there, *procedure))?;
            Ok(())
        }
        MidStep::Check {
            check,
            at: source,
            ..
        } => {
            holes.push(site_hole(at + 8, *check, *source))?;
            Ok(())
        }
        _ => Ok(()),
    }
}

/// The holes of a procedure's block: that of its stack check, and those of its steps.
pub fn holes_of(alloc: Global, q: &MidProcedure) -> Result<Vec<Hole>, AllocError>
    requires { 4 * size_of_proc (proc q.now) < 2 ^ 31 }
    ensures { IfOk result (λ holes. holes.items ≡ proc_holes (proc q.now)) }
{
    let mut holes = Vec::new(alloc);
    holes.push(site_hole(6, Check::Stack, q.at))?;
    let mut next = 17;
    for step in &q.steps {
        push_step_hole(&mut holes, next, step)?;
        next += step_size(step);
    }
    Ok(holes)
}

/// Appends the position of the jump of a step whose code begins at a position, if it calls an allocator.
fn push_step_mark(calls: &mut Vec<u32>, at: u64, step: &MidStep) -> Result<(), AllocError>
    requires { at + size_of_step step.now < 2 ^ 32 }
    ensures { OnOk result (calls.new.items ≡ calls.old.items ++ step_marks at step.now) }
{
    match step {
        MidStep::CallValue { marked, .. } => {
            if *marked {
                calls.push((at + (step_size(step) - 7)) as u32)?;
            }
            Ok(())
        }
        _ => Ok(()),
    }
}

/// The positions of the allocator calls of a procedure's block.
pub fn marks_of(alloc: Global, q: &MidProcedure) -> Result<Vec<u32>, AllocError>
    requires { 4 * size_of_proc (proc q.now) < 2 ^ 31 }
    ensures { IfOk result (λ calls. calls.items ≡ steps_marks enter_size q.now.steps.items) }
{
    let mut calls = Vec::new(alloc);
    let mut next = 17;
    for step in &q.steps {
        push_step_mark(&mut calls, next, step)?;
        next += step_size(step);
    }
    Ok(calls)
}
