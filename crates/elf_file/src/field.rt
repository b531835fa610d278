//! The fields of a file, by their offsets.

ghost use Rattle.std.specs.Prelude.{◌≡◌, ◌+◌, ◌≤◌, nat_le, length};
ghost use Rattle.elf_file.specs.Fields.{half as half_at, word as word_at, long as long_at};

use rv_sites::number::{u16_of, u32_of, u64_of};
use rv_sites::section::check::behind;

/// The number of two bytes at an offset.
#[tactic(auto, unfolding(crate::specs::Fields::half))]
pub fn half(bytes: &[u8], at: usize) -> u16
    requires { at + 2 ≤ length bytes.now }
    ensures { result ≡ half_at bytes.now at }
{
    u16_of(behind(bytes, at))
}

/// The number of four bytes at an offset.
#[tactic(auto, unfolding(crate::specs::Fields::word))]
pub fn word(bytes: &[u8], at: usize) -> u32
    requires { at + 4 ≤ length bytes.now }
    ensures { result ≡ word_at bytes.now at }
{
    u32_of(behind(bytes, at))
}

/// The number of eight bytes at an offset.
#[tactic(auto, unfolding(crate::specs::Fields::long))]
pub fn long(bytes: &[u8], at: usize) -> u64
    requires { at + 8 ≤ length bytes.now }
    ensures { result ≡ long_at bytes.now at }
{
    u64_of(behind(bytes, at))
}

/// Whether so many bytes from an offset on lie inside the file.
pub fn stands(bytes: &[u8], offset: u64, size: u64) -> bool
    ensures { result ≡ nat_le (offset + size) (length bytes.now) }
{
    let length = bytes.len() as u64;
    size <= length && offset <= length - size
}
