//! What the two sections must be.

ghost use Rattle.std.specs.Prelude.{◌≡◌, ◌↔◌, ℕ, ◌*◌, ◌≤◌, ◌&&◌, true, false, length, drop, IfOk, IfSome, MatchOption, is_some};
ghost use Rattle.rv_sites.specs.Numbers.{number32, number64};
ghost use Rattle.rv_sites.specs.Sections.{have, entries, beyond, has_text, text_at, past_text as rest_of_text, has_name, name_at, past_name as rest_of_name, is_check, check_numbered, has_site, site_at, is_filled as filled, is_sites_section as sites_fill, is_calls_section as calls_fill};

use crate::number::{u32_of, u64_of};
use crate::sites::Site;
use odc_text::check::Check;
use odc_text::place::{FileId, Place};

/// The bytes behind the first ones.
pub fn behind(bytes: &[u8], size: usize) -> &[u8]
    requires { size ≤ length bytes.now }
    ensures { result.now ≡ drop size bytes.now }
{
    &bytes[size..]
}

/// What stands behind the text at the beginning, if one stands there.
fn past_text(bytes: &[u8]) -> Option<&[u8]>
    ensures { MatchOption result (has_text bytes.now ≡ false) (λ rest. (has_text bytes.now ≡ true) × (rest.now ≡ rest_of_text bytes.now)) }
{
    if bytes.len() < 4 {
        return None;
    }
    let size = u32_of(bytes) as usize;
    let rest = &bytes[4..];
    if rest.len() < size {
        return None;
    }
    Some(&rest[size..])
}

/// What stands behind so many texts, if they stand there.
fn past_texts(count: u32, bytes: &[u8]) -> Option<&[u8]>
    ensures { MatchOption result (have has_text rest_of_text count bytes.now ≡ false) (λ rest. (have has_text rest_of_text count bytes.now ≡ true) × (rest.now ≡ beyond rest_of_text count bytes.now)) }
{
    let mut rest = bytes;
    let mut left = count;
    while left > 0 {
        rest = past_text(rest)?;
        left -= 1;
    }
    Some(rest)
}

/// What stands behind the entry and name at the beginning, if they stand there.
fn past_name(bytes: &[u8]) -> Option<&[u8]>
    ensures { MatchOption result (has_name bytes.now ≡ false) (λ rest. (has_name bytes.now ≡ true) × (rest.now ≡ rest_of_name bytes.now)) }
{
    if bytes.len() < 8 {
        return None;
    }
    past_text(behind(bytes, 8))
}

/// What stands behind so many entries and names, if they stand there.
fn past_names(count: u32, bytes: &[u8]) -> Option<&[u8]>
    ensures { MatchOption result (have has_name rest_of_name count bytes.now ≡ false) (λ rest. (have has_name rest_of_name count bytes.now ≡ true) × (rest.now ≡ beyond rest_of_name count bytes.now)) }
{
    let mut rest = bytes;
    let mut left = count;
    while left > 0 {
        rest = past_name(rest)?;
        left -= 1;
    }
    Some(rest)
}

/// The check with this number.
fn check_of(number: u32) -> Option<Check>
    ensures { MatchOption result (is_check number ≡ false) (λ check. (is_check number ≡ true) × (check ≡ check_numbered number)) }
{
    match number {
        1 => Some(Check::Index),
        2 => Some(Check::Slice),
        3 => Some(Check::Division),
        4 => Some(Check::Assertion),
        5 => Some(Check::Nil),
        6 => Some(Check::Stack),
        7 => Some(Check::Assert),
        8 => Some(Check::Panic),
        9 => Some(Check::Length),
        _ => None,
    }
}

/// The site at the beginning, if its file is one of so many.
pub fn site_of(paths: u32, bytes: &[u8]) -> Option<Site>
    requires { 16 ≤ length bytes.now }
    ensures { MatchOption result (has_site paths bytes.now ≡ false) (λ site. (has_site paths bytes.now ≡ true) × (site ≡ site_at bytes.now)) }
{
    let number = u32_of(bytes);
    let line = u32_of(behind(bytes, 4));
    let column = u32_of(behind(bytes, 8));
    let check = check_of(u32_of(behind(bytes, 12)))?;
    if number >= paths {
        return None;
    }
    let file = FileId { number };
    Some((check, Place { file, line, column }))
}

/// Whether so many sites stand at the beginning.
fn have_sites(paths: u32, count: u32, bytes: &[u8]) -> bool
    requires { 16 * count ≤ length bytes.now }
    ensures { result ≡ have (has_site paths) (drop 16) count bytes.now }
{
    let mut rest = bytes;
    let mut left = count;
    while left > 0 {
        let Some(_) = site_of(paths, rest) else {
            return false;
        };
        rest = behind(rest, 16);
        left -= 1;
    }
    true
}

/// Whether a number, and so many entries of this size, fill the bytes.
fn is_filled(size: u64, bytes: &[u8]) -> bool
    requires { size ≤ 16 }
    ensures { result ≡ filled size bytes.now }
{
    bytes.len() >= 4 && (bytes.len() - 4) as u64 == size * u64::from(u32_of(bytes))
}

/// Whether the bytes are those of `.odin.sites`.
pub fn is_sites_section(bytes: &[u8]) -> bool
    ensures { result ≡ sites_fill bytes.now }
{
    if bytes.len() < 4 {
        return false;
    }
    let paths = u32_of(bytes);
    let Some(rest) = past_texts(paths, behind(bytes, 4)) else {
        return false;
    };
    if !is_filled(16, rest) {
        return false;
    }
    have_sites(paths, u32_of(rest), behind(rest, 4))
}

/// Whether the bytes are those of `.odin.calls`.
pub fn is_calls_section(bytes: &[u8]) -> bool
    ensures { result ≡ calls_fill bytes.now }
{
    if bytes.len() < 4 {
        return false;
    }
    match past_names(u32_of(bytes), behind(bytes, 4)) {
        Some(rest) => is_filled(8, rest),
        None => false,
    }
}
