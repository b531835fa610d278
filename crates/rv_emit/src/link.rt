//! The link step: blocks one behind the other, with their holes filled.

ghost use Rattle.std.specs.Prelude.{◌≡◌, ℕ, ◌+◌, ◌*◌, ◌^◌, ◌<◌, ◌≤◌, [], ◌∷◌, ◌++◌, length, map, OnOk, IfOk};
ghost use Rattle.rv_emit.specs.Code.{text_start, start_size, number_code};
ghost use Rattle.rv_emit.specs.Encoded.{IsEncoded};
ghost use Rattle.rv_emit.specs.Blocks.{block as block_seen, blocks, hole_register, hole_value, hole_sites, holes_sites, filled, size_of_all, entry_in, all_code, all_sites, all_calls, addresses_of, linked_code, IsNamedIn, IsBlock, CanLink};
ghost use Rattle.rv_emit.specs.Tables.{IsTable};

use crate::emit::{emit_number, emit_start};
use crate::encoded::encoded;
use crate::loaded::{Image, Site};
use crate::sizes::entries_of;
use crate::unlinked::{Block, Blocks, Hole, HoleKind};
use odc_text::check::Check;
use odc_text::place::{FileId, Place};
use rv_table::inst::Inst;
use std::alloc::{AllocError, Global};

/// Appends the number of the next site, and the site.
fn fill_site(
    code: &mut Vec<Inst>,
    sites: &mut Vec<Site>,
    check: Check,
    source: Place,
) -> Result<(), AllocError>
    requires { length sites.old.items < 2 ^ 31 }
    ensures code { OnOk result (code.new.items ≡ code.old.items ++ number_code 11 (length sites.old.items)) }
    ensures sites { OnOk result (sites.new.items ≡ sites.old.items ++ (check, source) ∷ []) }
{
    emit_number(code, 11, sites.len() as u64)?;
    sites.push((check, source))?;
    Ok(())
}

/// Appends what fills a hole, and its site, if it has one.
fn fill_hole(
    code: &mut Vec<Inst>,
    sites: &mut Vec<Site>,
    b: &Blocks,
    entries: &[u64],
    hole: Hole,
) -> Result<(), AllocError>
    requires can { CanLink (blocks b.now) }
    requires entries { IsTable entries.now (length b.now.list.items) (entry_in (blocks b.now).list) }
    requires named { IsNamedIn (length b.now.list.items) (length b.now.addresses.items) hole }
    requires few { length sites.old.items < 2 ^ 31 }
    ensures code { OnOk result (code.new.items ≡ code.old.items ++ number_code (hole_register hole.kind) (hole_value (entry_in (blocks b.now).list) b.now.addresses.items (length sites.old.items) hole)) }
    ensures sites { OnOk result (sites.new.items ≡ sites.old.items ++ hole_sites hole) }
{
    match hole.kind {
        HoleKind::Procedure => emit_number(code, 6, entries[hole.own as usize]),
        HoleKind::Address => emit_number(code, 6, b.addresses[hole.own as usize]),
        HoleKind::Site {
            line,
            column,
            check,
        } => {
            let file = FileId { number: hole.own };
            fill_site(code, sites, check, Place { file, line, column })
        }
    }
}

/// Appends the code of a block with its holes filled, and its sites.
fn fill_block(
    code: &mut Vec<Inst>,
    sites: &mut Vec<Site>,
    b: &Blocks,
    entries: &[u64],
    block: &Block,
) -> Result<(), AllocError>
    requires can { CanLink (blocks b.now) }
    requires entries { IsTable entries.now (length b.now.list.items) (entry_in (blocks b.now).list) }
    requires block { IsBlock (length b.now.list.items) (length b.now.addresses.items) (block_seen block.now) }
    requires few { length sites.old.items + length (holes_sites block.now.holes.items) < 2 ^ 31 }
    ensures code { OnOk result (code.new.items ≡ code.old.items ++ filled (entry_in (blocks b.now).list) b.now.addresses.items 0 (length sites.old.items) block.now.holes.items block.now.code.items) }
    ensures sites { OnOk result (sites.new.items ≡ sites.old.items ++ holes_sites block.now.holes.items) }
{
    let mut next = 0;
    for hole in &block.holes {
        let at = hole.at as usize;
        code.extend_from_slice(&block.code[next..at])?;
        fill_hole(code, sites, b, entries, *hole)?;
        next = at + 4;
    }
    code.extend_from_slice(&block.code[next..])?;
    Ok(())
}

/// Appends the code of all blocks, and their sites.
fn fill_blocks(
    code: &mut Vec<Inst>,
    sites: &mut Vec<Site>,
    b: &Blocks,
    entries: &[u64],
) -> Result<(), AllocError>
    requires can { CanLink (blocks b.now) }
    requires entries { IsTable entries.now (length b.now.list.items) (entry_in (blocks b.now).list) }
    requires none { length sites.old.items ≡ 0 }
    ensures code { OnOk result (code.new.items ≡ code.old.items ++ all_code (entry_in (blocks b.now).list) b.now.addresses.items 0 (blocks b.now).list) }
    ensures sites { OnOk result (sites.new.items ≡ sites.old.items ++ all_sites (blocks b.now).list) }
{
    for block in &b.list {
        fill_block(code, sites, b, entries, block)?;
    }
    Ok(())
}

/// Appends the addresses of the allocator calls of a block that begins at an address.
fn push_calls(calls: &mut Vec<u64>, at: u64, marks: &[u32]) -> Result<(), AllocError>
    requires { at < 2 ^ 32 }
    ensures { OnOk result (calls.new.items ≡ calls.old.items ++ addresses_of at marks.now) }
{
    for mark in marks {
        calls.push(at + 4 * u64::from(*mark))?;
    }
    Ok(())
}

/// The addresses of the instructions that call an allocator.
fn calls_of(alloc: Global, list: &[Block]) -> Result<Vec<u64>, AllocError>
    requires { 4 * (start_size + size_of_all (map block_seen list.now)) ≤ 0x4fff_0000 }
    ensures { IfOk result (λ calls. calls.items ≡ all_calls (text_start + 4 * start_size) (map block_seen list.now)) }
{
    let mut calls = Vec::new(alloc);
    let mut next = 0x10028;
    for block in list {
        push_calls(&mut calls, next, &block.calls)?;
        next += 4 * block.code.len() as u64;
    }
    Ok(calls)
}

/// The image of blocks: the start, which calls the block `main`, and then each block, in the order of the
/// list, with its holes filled. Sites are numbered in the order of their holes. Fails only where memory is
/// out.
pub fn link(alloc: Global, b: &Blocks) -> Result<Image, AllocError>
    requires can { CanLink (blocks b.now) }
    ensures text { IfOk result (λ i. IsEncoded i.text.items (linked_code (blocks b.now))) }
    ensures sites { IfOk result (λ i. i.sites.items ≡ all_sites (blocks b.now).list) }
    ensures calls { IfOk result (λ i. i.calls.items ≡ all_calls (text_start + 4 * start_size) (blocks b.now).list) }
{
    let entries = entries_of(alloc, &b.list)?;
    let mut code = Vec::new(alloc);
    let mut sites = Vec::new(alloc);
    emit_start(&mut code, entries[b.main as usize])?;
    fill_blocks(&mut code, &mut sites, b, &entries)?;
    let text = encoded(alloc, &code)?;
    let calls = calls_of(alloc, &b.list)?;
    Ok(Image { text, sites, calls })
}
