//! The image in the bytes of a file.

ghost use Rattle.std.specs.Prelude.{◌≡◌, ◌+◌, ◌*◌, ◌≤◌, length, map, true, false, MatchResult, IfOk, All, None, Some};
ghost use Rattle.elf_file.specs.Fields as field;
ghost use Rattle.rv_sites.specs.Seen.{range_seen, BytesFit};
ghost use Rattle.elf_file.specs.Seen.{image_seen};
ghost use Rattle.elf_file.specs.Stands.{HaveProgramHeaders};
ghost use Rattle.elf_file.specs.Rules.{Denotes, or_else, ranges as ranges_of, refused, rule_7, rule_8 as eighth_rule, rule_9, unless, rule_1 as first_rule, rule_2 as second_rule, rule_3 as third_rule, rule_4 as fourth_rule, rule_5 as fifth_rule, rule_6 as sixth_rule};

use crate::field::{half, long, stands};
use crate::program::{is_executed, read_ranges};
use crate::section::read_sites;
use rv_sites::image::{ImageView, Range};
use thiserror::Error;

/// A file that denotes no image: the number of the first rule that isn't met, and the offset in the file of
/// what breaks it.
#[derive(Clone, Copy, Debug, Drop, Error)]
#[error("rule {rule} at {offset}")]
pub struct BadImage {
    pub rule: u8,
    pub offset: u64,
}

pub fn require(met: bool, rule: u8, offset: u64) -> Result<(), BadImage>
    ensures { MatchResult result (λ _. unless met rule offset ≡ None) (λ e. unless met rule offset ≡ Some e) }
{
    if met {
        Ok(())
    } else {
        Err(BadImage { rule, offset })
    }
}

/// The file has a header, and begins with the magic bytes.
fn rule_1(bytes: &[u8]) -> Result<(), BadImage>
    ensures { MatchResult result (λ _. (first_rule bytes.now ≡ None) × (64 ≤ length bytes.now)) (λ e. first_rule bytes.now ≡ Some e) }
{
    require(bytes.len() >= 64, 1, bytes.len() as u64)?;
    require(bytes[0] == 0x7f, 1, 0)?;
    require(bytes[1] == b'E', 1, 1)?;
    require(bytes[2] == b'L', 1, 2)?;
    require(bytes[3] == b'F', 1, 3)
}

/// Class, order of bytes, and version.
fn rule_2(bytes: &[u8]) -> Result<(), BadImage>
    requires { 64 ≤ length bytes.now }
    ensures { MatchResult result (λ _. second_rule bytes.now ≡ None) (λ e. second_rule bytes.now ≡ Some e) }
{
    require(bytes[4] == 2, 2, 4)?;
    require(bytes[5] == 1, 2, 5)?;
    require(bytes[6] == 1, 2, 6)
}

/// The type of the file.
fn rule_3(bytes: &[u8]) -> Result<(), BadImage>
    requires { 64 ≤ length bytes.now }
    ensures { MatchResult result (λ _. third_rule bytes.now ≡ None) (λ e. third_rule bytes.now ≡ Some e) }
{
    require(half(bytes, 16) == 2, 3, 16)
}

/// The machine.
fn rule_4(bytes: &[u8]) -> Result<(), BadImage>
    requires { 64 ≤ length bytes.now }
    ensures { MatchResult result (λ _. fourth_rule bytes.now ≡ None) (λ e. fourth_rule bytes.now ≡ Some e) }
{
    require(half(bytes, 18) == 243, 4, 18)
}

/// The sizes of the headers, and how many there are.
fn rule_5(bytes: &[u8]) -> Result<(), BadImage>
    requires { 64 ≤ length bytes.now }
    ensures { MatchResult result (λ _. (fifth_rule bytes.now ≡ None) × (field.program_header_count bytes.now ≤ 16)) (λ e. fifth_rule bytes.now ≡ Some e) }
{
    require(half(bytes, 52) == 64, 5, 52)?;
    require(half(bytes, 54) == 56, 5, 54)?;
    let count = half(bytes, 56);
    require(1 <= count && count <= 16, 5, 56)
}

/// The program headers lie inside the file.
fn rule_6(bytes: &[u8]) -> Result<(), BadImage>
    requires { 64 ≤ length bytes.now }
    ensures { MatchResult result (λ _. (sixth_rule bytes.now ≡ None) × (field.program_headers bytes.now + 56 * field.program_header_count bytes.now ≤ length bytes.now)) (λ e. sixth_rule bytes.now ≡ Some e) }
{
    require(
        stands(bytes, long(bytes, 32), 56 * u64::from(half(bytes, 56))),
        6,
        32,
    )
}

/// The entry, which is executed.
fn rule_8(bytes: &[u8], list: &[Range]) -> Result<(), BadImage>
    requires header { 64 ≤ length bytes.now }
    requires list { map range_seen list.now ≡ ranges_of bytes.now }
    ensures { MatchResult result (λ _. eighth_rule bytes.now ≡ None) (λ e. eighth_rule bytes.now ≡ Some e) }
{
    let entry = long(bytes, 24);
    require(entry % 4 == 0 && is_executed(entry, list), 8, 24)
}

/// The rules on the header.
fn read_header(bytes: &[u8]) -> Result<(), BadImage>
    ensures met { MatchResult result (λ _. HaveProgramHeaders bytes.now) (λ e. refused bytes.now ≡ Some e) }
    ensures next { MatchResult result (λ _. refused bytes.now ≡ or_else (rule_7 bytes.now) (or_else (eighth_rule bytes.now) (rule_9 bytes.now))) (λ e. refused bytes.now ≡ Some e) }
{
    rule_1(bytes)?;
    rule_2(bytes)?;
    rule_3(bytes)?;
    rule_4(bytes)?;
    rule_5(bytes)?;
    rule_6(bytes)
}

/// The image in the bytes of a file: the one that they denote where all nine rules are met, and else the
/// first rule that isn't. No range has more bytes in the file than in memory. Takes no memory, and copies nothing.
pub fn read_elf(bytes: &[u8]) -> Result<ImageView<'_>, BadImage>
    ensures exact { MatchResult result (λ v. (refused bytes.now ≡ None) × Denotes bytes.now (image_seen v)) (λ e. refused bytes.now ≡ Some e) }
    ensures fit { IfOk result (λ v. All BytesFit v.ranges.items) }
{
    read_header(bytes)?;
    let ranges = read_ranges(bytes)?;
    rule_8(bytes, &ranges)?;
    let sites = read_sites(bytes)?;
    let entry = long(bytes, 24);
    Ok(ImageView {
        ranges,
        entry,
        sites,
    })
}
