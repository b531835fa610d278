//! Copies of what the two sections list.

ghost use Rattle.std.specs.Prelude.{◌≡◌, ℕ, ◌*◌, ◌≤◌, true, false, ◌&&◌, ◌++◌, length, drop, IfOk, MatchOption};
ghost use Rattle.rv_sites.specs.Numbers.{number64};
ghost use Rattle.rv_sites.specs.Sections.{have, entries, beyond, has_text, text_at, past_text as rest_of_text, has_name, name_at, past_name as rest_of_name, has_site, site_at, listing, is_sites_section as sites_fill, is_calls_section as calls_fill};
ghost use Rattle.rv_sites.specs.Listed.{listed};

use crate::number::{u32_of, u64_of};
use crate::section::check::{behind, is_calls_section, is_sites_section, site_of};
use crate::section::view::SitesView;
use crate::sites::{ByteString, ProcedureName, Site, Sites};
use std::alloc::{AllocError, Global};

/// The text at the beginning, and what stands behind it.
fn split_text(bytes: &[u8]) -> (&[u8], &[u8])
    requires { has_text bytes.now ≡ true }
    ensures text { result.0.now ≡ text_at bytes.now }
    ensures rest { result.1.now ≡ rest_of_text bytes.now }
{
    let size = u32_of(bytes) as usize;
    behind(bytes, 4).split_at(size)
}

/// Appends copies of so many texts, and gives what stands behind them.
fn copy_paths<'a>(
    paths: &mut Vec<ByteString>,
    alloc: Global,
    count: u32,
    bytes: &'a [u8],
) -> Result<&'a [u8], AllocError>
    requires { have has_text rest_of_text count bytes.now ≡ true }
    ensures paths { IfOk result (λ _. paths.new.items ≡ paths.old.items ++ entries text_at rest_of_text count bytes.now) }
    ensures rest { IfOk result (λ rest. rest.now ≡ beyond rest_of_text count bytes.now) }
{
    let mut rest = bytes;
    let mut left = count;
    while left > 0 {
        let (text, after) = split_text(rest);
        paths.push(ByteString::copied(alloc, text)?)?;
        rest = after;
        left -= 1;
    }
    Ok(rest)
}

/// Appends copies of so many entries with their names, and gives what stands behind them.
fn copy_names<'a>(
    names: &mut Vec<ProcedureName>,
    alloc: Global,
    count: u32,
    bytes: &'a [u8],
) -> Result<&'a [u8], AllocError>
    requires { have has_name rest_of_name count bytes.now ≡ true }
    ensures names { IfOk result (λ _. names.new.items ≡ names.old.items ++ entries name_at rest_of_name count bytes.now) }
    ensures rest { IfOk result (λ rest. rest.now ≡ beyond rest_of_name count bytes.now) }
{
    let mut rest = bytes;
    let mut left = count;
    while left > 0 {
        let entry = u64_of(rest);
        let (text, after) = split_text(behind(rest, 8));
        let name = ByteString::copied(alloc, text)?;
        names.push(ProcedureName { entry, name })?;
        rest = after;
        left -= 1;
    }
    Ok(rest)
}

/// The sites that stand at the beginning, so many.
fn copied_sites(
    alloc: Global,
    paths: u32,
    count: u32,
    bytes: &[u8],
) -> Result<Vec<Site>, AllocError>
    requires size { 16 * count ≤ length bytes.now }
    requires sites { have (has_site paths) (drop 16) count bytes.now ≡ true }
    ensures { IfOk result (λ sites. sites.items ≡ entries site_at (drop 16) count bytes.now) }
{
    let mut sites = Vec::new(alloc);
    let mut rest = bytes;
    let mut left = count;
    while left > 0 {
        let Some(site) = site_of(paths, rest) else {
            unreachable!();
        };
        sites.push(site)?;
        rest = behind(rest, 16);
        left -= 1;
    }
    Ok(sites)
}

/// The addresses that stand at the beginning, so many.
fn copied_calls(alloc: Global, count: u32, bytes: &[u8]) -> Result<Vec<u64>, AllocError>
    requires { 8 * count ≤ length bytes.now }
    ensures { IfOk result (λ calls. calls.items ≡ entries number64 (drop 8) count bytes.now) }
{
    let mut calls = Vec::new(alloc);
    let mut rest = bytes;
    let mut left = count;
    while left > 0 {
        calls.push(u64_of(rest))?;
        rest = behind(rest, 8);
        left -= 1;
    }
    Ok(calls)
}

impl<'a> SitesView<'a> {
    /// The lists in the bytes of two sections, or nothing where the bytes aren't those of sections.
    pub fn new(sites: &'a [u8], calls: &'a [u8]) -> Option<SitesView<'a>>
        ensures { MatchOption result ((sites_fill sites.now && calls_fill calls.now) ≡ false) (λ v. (v.sites.now ≡ sites.now) × (v.calls.now ≡ calls.now)) }
    {
        if is_sites_section(sites) && is_calls_section(calls) {
            Some(SitesView { sites, calls })
        } else {
            None
        }
    }

    /// A copy of the lists. Fails only where memory is out.
    #[tactic(auto, unfolding(crate::specs::Sections::listing))]
    pub fn to_sites(&self, alloc: Global) -> Result<Sites, AllocError>
        ensures { IfOk result (λ s. listed s ≡ listing self.now.sites.now self.now.calls.now) }
    {
        let mut paths = Vec::new(alloc);
        let count = u32_of(self.sites);
        let rest = copy_paths(&mut paths, alloc, count, behind(self.sites, 4))?;
        let checks = copied_sites(alloc, count, u32_of(rest), behind(rest, 4))?;
        let mut names = Vec::new(alloc);
        let rest = copy_names(&mut names, alloc, u32_of(self.calls), behind(self.calls, 4))?;
        let calls = copied_calls(alloc, u32_of(rest), behind(rest, 4))?;
        Ok(Sites {
            paths,
            checks,
            names,
            calls,
        })
    }
}
