//! The step from core code to mid code.

ghost use Rattle.std.specs.Prelude.{◌≡◌, map, IfOk};
ghost use Rattle.odc_core.specs.View.{proc, program};
ghost use Rattle.odc_core.specs.Well.{IsWell};
ghost use Rattle.odc_mid.specs.View.{proc as mid_proc, program as mid_program};
ghost use Rattle.odc_mid.specs.Well.{IsWell as IsWellMid};
ghost use Rattle.odc_lower.specs.Plain.{plain_proc};
ghost use Rattle.odc_lower.specs.Size.{AreCountable};
ghost use Rattle.odc_lower.specs.Lowered.{lowered, IsLowered, IsKept};

use crate::procedure::lower_procedure;
use odc_core::tree::{CoreProcedure, CoreProgram};
use odc_mid::tree::{MidProcedure, MidProgram};
use odc_text::path::PathText;
use std::alloc::{AllocError, Global};

/// What procedures become.
fn lower_procedures(
    alloc: Global,
    procedures: &[CoreProcedure],
) -> Result<Vec<MidProcedure>, AllocError>
    requires { AreCountable (map proc procedures.now) }
    ensures { IfOk result (λ qs. map plain_proc (map mid_proc qs.items) ≡ map lowered (map proc procedures.now)) }
{
    let mut all = Vec::new(alloc);
    for p in procedures {
        all.push(lower_procedure(alloc, p)?)?;
    }
    Ok(all)
}

/// The same paths.
fn copied_paths(alloc: Global, paths: &[PathText]) -> Result<Vec<PathText>, AllocError>
    ensures { IfOk result (λ copies. copies.items ≡ paths.now) }
{
    let mut copies = Vec::new(alloc);
    for path in paths {
        copies.push(PathText::copied(alloc, path.as_str())?)?;
    }
    Ok(copies)
}

/// What a program becomes: a procedure for each, in order, and all else as it was. On every input of
/// bytes the mid run keeps the core run, within twelve steps for each unit of its cost and two more.
pub fn lower(alloc: Global, p: &CoreProgram) -> Result<MidProgram, AllocError>
    requires well { IsWell (program p.now) }
    requires countable { AreCountable (program p.now).procedures }
    ensures carried { IfOk result (λ q. IsLowered (program p.now) (mid_program q)) }
    ensures paths { IfOk result (λ q. q.paths.items ≡ p.now.paths.items) }
    ensures well { IfOk result (λ q. IsWellMid (mid_program q)) }
    ensures kept { IfOk result (λ q. IsKept (program p.now) (mid_program q)) }
{
    let procedures = lower_procedures(alloc, &p.procedures)?;
    let addresses = Vec::from_slice(alloc, &p.addresses)?;
    let store = Vec::from_slice(alloc, &p.store)?;
    let paths = copied_paths(alloc, &p.paths)?;
    Ok(MidProgram {
        procedures,
        addresses,
        store,
        store_size: p.store_size,
        main: p.main,
        paths,
    })
}
