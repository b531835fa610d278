//! The link step: from blocks to an image.

ghost use Rattle.std.specs.Prelude.{◌≡◌, ◌+◌, ◌*◌, ◌≤◌, ◌<◌, ◌^◌, length, map, IfOk, All};
ghost use Rattle.rv_sites.specs.Sections.{IsShortName, IsAddress, IsListing};
ghost use Rattle.rv_sites.specs.Listed.{listed};
ghost use Rattle.rv_emit.specs.Code.{text_start, start_size};
ghost use Rattle.rv_emit.specs.Encoded.{IsEncoded};
ghost use Rattle.rv_emit.specs.Blocks.{block as block_seen, blocks, size_of_all, all_sites, all_calls, linked_code, CanLink};
ghost use Rattle.rv_link.specs.Linked.{names_from, first_block, AreShortNames, HasSmallNumbers, CanList};

use rv_emit::link::link as link_blocks;
use rv_emit::unlinked::{Block, Blocks};
use rv_sites::image::Image;
use rv_sites::layout::TEXT_START;
use rv_sites::sites::{ByteString, ProcedureName, Site, Sites};
use std::alloc::{AllocError, Global};

/// The globals and literals: their first bytes, the others being zero, and how many there are.
#[derive(Drop)]
pub struct Store {
    pub bytes: Vec<u8>,
    pub size: u64,
}

/// The procedures of blocks that stand one behind the other, behind the start.
fn names_of(alloc: Global, list: &[Block]) -> Result<Vec<ProcedureName>, AllocError>
    requires short { 4 * (start_size + size_of_all (map block_seen list.now)) ≤ 0x4fff_0000 }
    requires names { AreShortNames (map block_seen list.now) }
    ensures are { IfOk result (λ names. names.items ≡ names_from first_block (map block_seen list.now)) }
    ensures short { IfOk result (λ names. All IsShortName names.items) }
{
    let mut names = Vec::new(alloc);
    let mut next = TEXT_START + 40;
    for block in list {
        let name = ByteString::copied(alloc, block.name.as_bytes())?;
        names.push(ProcedureName { entry: next, name })?;
        next += 4 * block.code.len() as u64;
    }
    Ok(names)
}

/// The line and the column of a site have 32 bits.
fn has_small_numbers(site: Site)
    ensures { HasSmallNumbers site }
{
    let _ = site;
}

/// The same of each site. Does nothing: the clause is what is read.
fn have_small_numbers(sites: &[Site])
    ensures { All HasSmallNumbers sites.now }
{
    for site in sites {
        has_small_numbers(*site);
    }
}

/// Each address has 64 bits. Does nothing: the clause is what is read.
fn addresses_are_small(calls: &[u64])
    ensures { All IsAddress calls.now }
{
    for call in calls {
        let _ = *call;
    }
}

/// The image of blocks: the start, which calls the block `main`, and then each block, in the order of the list,
/// with its holes filled. The files of sites are named by these paths. Fails only where memory is out.
pub fn link(
    alloc: Global,
    b: &Blocks,
    paths: Vec<ByteString>,
    store: Store,
) -> Result<Image, AllocError>
    requires can { CanLink (blocks b.now) }
    requires lists { CanList (blocks b.now) paths.items }
    ensures text { IfOk result (λ i. IsEncoded i.text.items (linked_code (blocks b.now))) }
    ensures entry { IfOk result (λ i. i.entry ≡ text_start) }
    ensures store { IfOk result (λ i. i.store.items ≡ store.bytes.items) }
    ensures store_size { IfOk result (λ i. i.store_size ≡ store.size) }
    ensures paths { IfOk result (λ i. i.sites.paths.items ≡ paths.items) }
    ensures checks { IfOk result (λ i. i.sites.checks.items ≡ all_sites (blocks b.now).list) }
    ensures names { IfOk result (λ i. i.sites.names.items ≡ names_from first_block (blocks b.now).list) }
    ensures calls { IfOk result (λ i. i.sites.calls.items ≡ all_calls first_block (blocks b.now).list) }

    // Its lists can be written.
    ensures listing { IfOk result (λ i. IsListing (listed i.sites)) }
{
    let names = names_of(alloc, &b.list)?;
    let linked = link_blocks(alloc, b)?;
    have_small_numbers(&linked.sites);
    addresses_are_small(&linked.calls);
    let sites = Sites {
        paths,
        checks: linked.sites,
        names,
        calls: linked.calls,
    };
    Ok(Image {
        text: linked.text,
        store: store.bytes,
        store_size: store.size,
        entry: TEXT_START,
        sites,
    })
}
