//! The step from the typed program to core code.

ghost use Rattle.std.specs.Prelude.{◌≡◌, map, IfOk};
ghost use Rattle.odc_typed.specs.View.{proc, program};
ghost use Rattle.odc_typed.specs.Frame.{FramesFit};
ghost use Rattle.odc_typed.specs.Well.{IsWell};
ghost use Rattle.odc_core.specs.View.{proc as core_proc, program as core_program};
ghost use Rattle.odc_core.specs.Well.{IsWell as IsWellCore};
ghost use Rattle.odc_context.specs.Code.{crossed, crossed_program};
ghost use Rattle.odc_context.specs.Kept.{IsKept};

use crate::procedure::cross_procedure;
use odc_core::tree::{CoreProcedure, CoreProgram};
use odc_text::path::PathText;
use odc_typed::tree::{Procedure, Program};
use std::alloc::{AllocError, Global};

/// What procedures become.
fn cross_procedures(
    alloc: Global,
    procedures: &[Procedure],
) -> Result<Vec<CoreProcedure>, AllocError>
    requires { FramesFit (map proc procedures.now) }
    ensures { IfOk result (λ qs. map core_proc qs.items ≡ map crossed (map proc procedures.now)) }
{
    let mut all = Vec::new(alloc);
    for p in procedures {
        all.push(cross_procedure(alloc, p)?)?;
    }
    Ok(all)
}

/// The same paths.
fn copied_paths(alloc: Global, paths: &[PathText]) -> Result<Vec<PathText>, AllocError>
    ensures { IfOk result (λ copies. copies.items ≡ paths.now) }
{
    let mut copies = Vec::new(alloc);
    for path in paths {
        copies.push(PathText::copied(alloc, path.as_str())?)?;
    }
    Ok(copies)
}

/// What a program becomes: a procedure for each, in order, with nothing in the store. On every input the
/// core run keeps the source run, at a cost of at most a hundred times its own. It fails only where
/// memory is short.
pub fn pass_context(alloc: Global, p: &Program) -> Result<CoreProgram, AllocError>
    requires well { IsWell (program p.now) }
    requires frames { FramesFit (program p.now).procedures }
    ensures crossed { IfOk result (λ q. core_program q ≡ crossed_program (program p.now)) }
    ensures paths { IfOk result (λ q. q.paths.items ≡ p.now.paths.items) }
    ensures well { IfOk result (λ q. IsWellCore (core_program q)) }
    ensures kept { IfOk result (λ q. IsKept (program p.now) (core_program q)) }
{
    let procedures = cross_procedures(alloc, &p.procedures)?;
    let paths = copied_paths(alloc, &p.paths)?;
    Ok(CoreProgram {
        procedures,
        addresses: Vec::new(alloc),
        store: Vec::new(alloc),
        store_size: 0,
        main: p.main,
        paths,
    })
}
