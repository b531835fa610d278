//! The program headers: the ranges of memory.

ghost use Rattle.std.specs.Prelude.{◌≡◌, ◌+◌, ◌*◌, ◌≤◌, ◌<◌, ◌^◌, ◌&&◌, nat_le, true, false, not, length, map, MatchResult, IfOk, All, None, Some};
ghost use Rattle.std.specs.List.{list_all, list_any};
ghost use Rattle.elf_file.specs.Fields as field;
ghost use Rattle.elf_file.specs.Rules.{is_load, has_flag as flag_is_set, range_at, is_apart as apart, fits as header_fits, is_executed as executed, ranges, ranges_below, rule_7};
ghost use Rattle.rv_sites.specs.Seen.{range_seen, BytesFit};
ghost use Rattle.elf_file.specs.Stands.{HasProgramHeader, HaveProgramHeaders};

use crate::field::{half, long, stands, word};
use crate::read::BadImage;
use arrayvec::ArrayVec;
use rv_sites::image::{RANGES, Range};
use rv_sites::section::check::behind;

/// A range has no address below this one.
const LOWEST: u64 = 0x1000;

/// No range ends above this address.
const HIGHEST: u64 = 0x8000_0000;

fn has_flag(flag: u32, flags: u32) -> bool
    ensures { result ≡ flag_is_set flag flags }
{
    flags & flag != 0
}

/// Whether so many addresses from the first one on end at another address, or before.
fn end_by(start: u64, size: u64, end: u64) -> bool
    ensures { result ≡ nat_le (start + size) end }
{
    size <= end && start <= end - size
}

/// Whether these addresses and the range have no byte in common.
fn is_apart(start: u64, size: u64, other: &Range) -> bool
    ensures { result ≡ apart start size (range_seen other.now) }
{
    size == 0
        || other.size == 0
        || end_by(start, size, other.start)
        || end_by(other.start, other.size, start)
}

/// Whether these addresses have no byte in common with any of the ranges.
fn is_apart_from(start: u64, size: u64, others: &[Range]) -> bool
    ensures { result ≡ list_all (apart start size) (map range_seen others.now) }
{
    for other in others {
        if !is_apart(start, size, other) {
            return false;
        }
    }
    true
}

/// The offset of a program header.
fn program_header(bytes: &[u8], k: u16) -> usize
    requires { HasProgramHeader bytes.now k }
    ensures { result ≡ field.program_header bytes.now k }
{
    long(bytes, 32) as usize + 56 * usize::from(k)
}

/// Whether the header loads a range.
fn loads(bytes: &[u8], k: u16) -> bool
    requires { HasProgramHeader bytes.now k }
    ensures { result ≡ is_load bytes.now k }
{
    word(bytes, program_header(bytes, k)) == 1
}

/// Whether the range of a header fits behind the earlier ones.
fn fits(bytes: &[u8], k: u16, earlier: &[Range]) -> bool
    requires header { HasProgramHeader bytes.now k }
    requires earlier { map range_seen earlier.now ≡ ranges_below bytes.now k }
    ensures { result ≡ header_fits bytes.now k }
{
    let at = program_header(bytes, k);
    let offset = long(bytes, at + 8);
    let start = long(bytes, at + 16);
    let given = long(bytes, at + 32);
    let size = long(bytes, at + 40);
    given <= size
        && stands(bytes, offset, given)
        && LOWEST <= start
        && end_by(start, size, HIGHEST)
        && is_apart_from(start, size, earlier)
}

/// The range of a header.
fn range_of(bytes: &[u8], k: u16) -> Range<'_>
    requires header { HasProgramHeader bytes.now k }
    requires inside { field.program_offset bytes.now k + field.file_size bytes.now k ≤ length bytes.now }
    requires given { field.file_size bytes.now k ≤ field.memory_size bytes.now k }
    ensures is { range_seen result ≡ range_at bytes.now k }
    ensures fit { BytesFit result }
{
    let at = program_header(bytes, k);
    let flags = word(bytes, at + 4);
    let offset = long(bytes, at + 8) as usize;
    let size = long(bytes, at + 32) as usize;
    Range {
        start: long(bytes, at + 16),
        size: long(bytes, at + 40),
        readable: has_flag(4, flags),
        writable: has_flag(2, flags),
        executable: has_flag(1, flags),
        bytes: &bytes[offset..offset + size],
    }
}

/// The ranges of the program headers.
pub fn read_ranges(bytes: &[u8]) -> Result<ArrayVec<Range<'_>, RANGES>, BadImage>
    requires { HaveProgramHeaders bytes.now }
    ensures exact { MatchResult result (λ v. (rule_7 bytes.now ≡ None) × (map range_seen v.items ≡ ranges bytes.now)) (λ e. rule_7 bytes.now ≡ Some e) }
    ensures fit { IfOk result (λ v. All BytesFit v.items) }
{
    let mut list = ArrayVec::new();
    for k in 0..half(bytes, 56) {
        if loads(bytes, k) {
            if !fits(bytes, k, &list) {
                let offset = program_header(bytes, k) as u64;
                return Err(BadImage { rule: 7, offset });
            }
            list.push(range_of(bytes, k));
        }
    }
    Ok(list)
}

/// Whether the address is one of a range that may be executed.
pub fn is_executed(address: u64, list: &[Range]) -> bool
    ensures { result ≡ list_any (executed address) (map range_seen list.now) }
{
    for range in list {
        if range.executable && range.start <= address && address - range.start < range.size {
            return true;
        }
    }
    false
}
