//! The section headers: the sites of checks, and the calls of allocators.

ghost use Rattle.std.specs.Prelude.{◌≡◌, ◌+◌, ◌≤◌, ◌<◌, ◌&&◌, true, false, length, MatchOption, MatchResult, None, Some};
ghost use Rattle.elf_file.specs.Fields as field;
ghost use Rattle.elf_file.specs.Rules.{section_stands, section_bytes, have_names, is_named, first_named, first_below, named, content, rule_9, sites_name, calls_name};
ghost use Rattle.elf_file.specs.Stands.{HasSectionHeader, HaveSectionHeaders};

use crate::field::{half, long, stands, word};
use crate::read::BadImage;
use rv_sites::section::check::behind;
use rv_sites::section::view::SitesView;

/// The bytes of a section that isn't there: two empty lists.
const EMPTY: [u8; 8] = [0; 8];

/// The offset of a section header.
fn section_header(bytes: &[u8], k: u16) -> usize
    requires { HasSectionHeader bytes.now k }
    ensures { result ≡ field.section_header bytes.now k }
{
    long(bytes, 40) as usize + 64 * usize::from(k)
}

/// The bytes of a section, if they lie inside the file.
fn bytes_of(bytes: &[u8], k: u16) -> Option<&[u8]>
    requires { HasSectionHeader bytes.now k }
    ensures { MatchOption result (section_stands bytes.now k ≡ false) (λ part. (section_stands bytes.now k ≡ true) × (part.now ≡ section_bytes bytes.now k)) }
{
    let at = section_header(bytes, k);
    let offset = long(bytes, at + 24);
    let size = long(bytes, at + 32);
    if !stands(bytes, offset, size) {
        return None;
    }
    let start = offset as usize;
    Some(&bytes[start..start + size as usize])
}

/// Whether the section has a name, which is given with its ending zero.
fn has_name(bytes: &[u8], names: &[u8], name: &[u8], k: u16) -> bool
    requires header { HasSectionHeader bytes.now k }
    requires names { names.now ≡ section_bytes bytes.now (field.names_index bytes.now) }
    requires name { 0 < length name.now }
    ensures { result ≡ is_named bytes.now name.now k }
{
    let at = word(bytes, section_header(bytes, k)) as usize;
    if at > names.len() {
        return false;
    }
    behind(names, at).starts_with(name)
}

/// The number of the first section with a name.
fn first_with(bytes: &[u8], names: &[u8], name: &[u8]) -> Option<u16>
    requires headers { HaveSectionHeaders bytes.now }
    requires names { names.now ≡ section_bytes bytes.now (field.names_index bytes.now) }
    requires name { 0 < length name.now }
    ensures { MatchOption result (first_below (named bytes.now name.now) (field.section_header_count bytes.now) ≡ None) (λ k. (first_below (named bytes.now name.now) (field.section_header_count bytes.now) ≡ Some k) × (k < field.section_header_count bytes.now)) }
{
    for k in 0..half(bytes, 60) {
        if has_name(bytes, names, name, k) {
            return Some(k);
        }
    }
    None
}

/// The number of the first section with a name, where sections have names.
fn find(bytes: &[u8], name: &[u8]) -> Option<u16>
    requires headers { HaveSectionHeaders bytes.now }
    requires name { 0 < length name.now }
    ensures { MatchOption result (first_named bytes.now name.now ≡ None) (λ k. (first_named bytes.now name.now ≡ Some k) × (k < field.section_header_count bytes.now)) }
{
    let index = half(bytes, 62);
    if index >= half(bytes, 60) {
        return None;
    }
    match bytes_of(bytes, index) {
        Some(names) => first_with(bytes, names, name),
        None => None,
    }
}

/// The bytes of the first section with a name, which may be missing. Nothing where they don't lie inside the
/// file.
fn content_of<'a>(bytes: &'a [u8], name: &[u8]) -> Option<&'a [u8]>
    requires headers { HaveSectionHeaders bytes.now }
    requires name { 0 < length name.now }
    ensures { MatchOption result (content bytes.now name.now ≡ None) (λ part. content bytes.now name.now ≡ Some part.now) }
{
    match find(bytes, name) {
        Some(k) => bytes_of(bytes, k),
        None => Some(&EMPTY),
    }
}

/// The lists of a file.
pub fn read_sites(bytes: &[u8]) -> Result<SitesView<'_>, BadImage>
    requires { 64 ≤ length bytes.now }
    ensures { MatchResult result (λ v. (rule_9 bytes.now ≡ None) × ((content bytes.now sites_name ≡ Some v.sites.now) × (content bytes.now calls_name ≡ Some v.calls.now))) (λ e. rule_9 bytes.now ≡ Some e) }
{
    let broken = BadImage {
        rule: 9,
        offset: 40,
    };
    if !stands(bytes, long(bytes, 40), 64 * u64::from(half(bytes, 60))) {
        return Err(broken);
    }
    let Some(sites) = content_of(bytes, b".odin.sites\0") else {
        return Err(broken);
    };
    let Some(calls) = content_of(bytes, b".odin.calls\0") else {
        return Err(broken);
    };
    match SitesView::new(sites, calls) {
        Some(view) => Ok(view),
        None => Err(broken),
    }
}
