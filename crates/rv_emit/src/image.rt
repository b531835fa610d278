//! The image of a program: its text, and what the machine is told of it.

ghost use Rattle.std.specs.Prelude.{◌≡◌, ℕ, ◌*◌, ◌^◌, ◌<◌, ◌≤◌, length, IfOk};
ghost use Rattle.odc_mid.specs.View.{proc, program};
ghost use Rattle.odc_mid.specs.Well.{IsWell};
ghost use Rattle.rv_emit.specs.Code.{entry_of, code_of as instructions_of, sites_of as sites_told, calls_of as calls_told, proc_size};
ghost use Rattle.rv_emit.specs.Blocks.{block as block_seen, blocks, bare, block_of, blocks_of};
ghost use Rattle.rv_emit.specs.Layout.{AllCanEmit, AllHaveSlots, IsShort, image_of};
ghost use Rattle.rv_emit.specs.Encoded.{IsEncoded};
ghost use Rattle.rv_emit.specs.Emitted.{IsEmitted, IsKept};

use crate::holes::{holes_of, marks_of};
use crate::link::link;
use crate::loaded::Image;
use crate::step::emit_proc;
use crate::unlinked::{Block, Blocks};
use odc_mid::tree::{MidProcedure, MidProgram};
use std::alloc::{AllocError, Global};

/// The block of a procedure.
fn emit_block(alloc: Global, q: &MidProcedure) -> Result<Block, AllocError>
    requires can { AllCanEmit (bare (proc q.now)) (length q.now.steps.items) q.now.steps.items }
    requires frame { q.now.frame ≤ 2 ^ 24 }
    requires low { 4 * proc_size (proc q.now) < 2 ^ 31 }
    ensures { IfOk result (λ b. block_seen b ≡ block_of (proc q.now)) }
{
    let name = String::from_str(alloc, &q.name)?;
    let code = emit_proc(alloc, q)?;
    let holes = holes_of(alloc, q)?;
    let calls = marks_of(alloc, q)?;
    Ok(Block {
        name,
        code,
        holes,
        calls,
    })
}

/// The blocks of a program, one for each procedure, in order. A block with its holes filled is the code of
/// its procedure wherever it stands. Fails only where memory is out.
pub fn emit(alloc: Global, p: &MidProgram) -> Result<Blocks, AllocError>
    requires well { IsWell (program p.now) }
    requires slots { AllHaveSlots (program p.now).procedures }
    requires short { IsShort (program p.now) }
    ensures { IfOk result (λ b. blocks b ≡ blocks_of (program p.now)) }
{
    let mut list = Vec::with_capacity(alloc, p.procedures.len())?;
    for q in &p.procedures {
        list.push(emit_block(alloc, q)?)?;
    }
    let addresses = Vec::from_slice(alloc, &p.addresses)?;
    Ok(Blocks {
        list,
        addresses,
        main: p.main,
    })
}

/// The image of a program: a block for each procedure, in order, behind the start. On every input of
/// bytes the machine's run of it keeps the mid run. Fails only where memory is out.
pub fn image(alloc: Global, p: &MidProgram) -> Result<Image, AllocError>
    requires well { IsWell (program p.now) }
    requires slots { AllHaveSlots (program p.now).procedures }
    requires short { IsShort (program p.now) }
    ensures text { IfOk result (λ i. IsEncoded i.text.items (instructions_of (program p.now))) }
    ensures sites { IfOk result (λ i. i.sites.items ≡ sites_told (program p.now)) }
    ensures calls { IfOk result (λ i. i.calls.items ≡ calls_told (program p.now)) }
    ensures blocks { IfOk result (λ i. IsEmitted (program p.now) (entry_of (program p.now)) i.text.items i.sites.items i.calls.items) }
    ensures kept { IfOk result (λ i. IsKept (entry_of (program p.now)) (program p.now) (image_of (program p.now) i.text.items)) }
{
    let b = emit(alloc, p)?;
    link(alloc, &b)
}
