//! The step from the typed program to core code.

ghost use Rattle.std.specs.Prelude.{◌≡◌, map, IfOk};
ghost use Rattle.odc_program.specs.Views.Instances.{procedure};
ghost use Rattle.odc_program.specs.Views.ProgramView.{program, head};
ghost use Rattle.odc_core.specs.View.{proc as core_proc, program as core_program};
ghost use Rattle.odc_core.specs.Well.{IsWell};
ghost use Rattle.odc_carried.specs.Code.{crossed_all, crossed_program};
ghost use Rattle.odc_carried.specs.Crossing.{CanCross};
ghost use Rattle.odc_carried.specs.Promised.{IsKept};
ghost use Rattle.odc_carried.specs.TableView.{typed};

use crate::procedure::cross_procedure;
use odc_core::tree::{CoreProcedure, CoreProgram};
use odc_program::program::{Procedure, Program, TypeRow};
use odc_text::path::PathText;
use std::alloc::{AllocError, Global};

/// What procedures become.
fn cross_procedures(
    alloc: Global,
    types: &[TypeRow],
    procedures: &[Procedure],
) -> Result<Vec<CoreProcedure>, AllocError>
    ensures { IfOk result (λ qs. map core_proc qs.items ≡ crossed_all (typed types.now) (map (head (map procedure procedures.now)) (map procedure procedures.now)) (map (λ q. q.body) (map procedure procedures.now))) }
{
    let mut all = Vec::new(alloc);
    for p in procedures {
        all.push(cross_procedure(alloc, types, procedures, p)?)?;
    }
    Ok(all)
}

/// The same paths.
fn copied_paths(alloc: Global, paths: &[PathText]) -> Result<Vec<PathText>, AllocError>
    ensures { IfOk result (λ copies. copies.items ≡ paths.now) }
{
    let mut copies = Vec::new(alloc);
    for path in paths {
        copies.push(PathText::copied(alloc, path.as_str())?)?;
    }
    Ok(copies)
}

/// The core code of a carried program: a procedure for each, in order, with nothing in the store. Of a program that can
/// cross it is well, and its run keeps the source run. It fails where memory is short, and where a number of the code, as a
/// position in a frame, is none of a `u32`.
pub fn cross(alloc: Global, p: &Program) -> Result<CoreProgram, AllocError>
    ensures exact { IfOk result (λ q. core_program q ≡ crossed_program (program p.now)) }
    ensures paths { IfOk result (λ q. q.paths.items ≡ p.now.paths.items) }
    ensures well { CanCross (program p.now) → IfOk result (λ q. IsWell (core_program q)) }
    ensures kept { CanCross (program p.now) → IfOk result (λ q. IsKept (program p.now) (core_program q)) }
{
    let procedures = cross_procedures(alloc, &p.types, &p.procedures)?;
    let paths = copied_paths(alloc, &p.paths)?;
    Ok(CoreProgram {
        procedures,
        addresses: Vec::new(alloc),
        store: Vec::new(alloc),
        store_size: 0,
        main: p.main,
        paths,
    })
}
