//! What is written to a file, and what is seen of one.

use crate::section::view::SitesView;
use crate::sites::Sites;
use arrayvec::ArrayVec;

/// An executable that is to be written. The text begins at 0x10000 and the store, of the globals and the
/// literals, at 0x5000_0000; bytes of the store that aren't given are zero.
#[derive(Drop)]
pub struct Image {
    pub text: Vec<u8>,
    pub store: Vec<u8>,
    pub store_size: u64,
    /// The address of the first instruction.
    pub entry: u64,
    pub sites: Sites,
}

/// A range of memory. Its first bytes stand in the file, the rest up to its size is zero.
#[derive(Clone, Copy)]
pub struct Range<'a> {
    /// The first address.
    pub start: u64,
    /// The number of bytes, at least that of `bytes`.
    pub size: u64,
    pub readable: bool,
    pub writable: bool,
    pub executable: bool,
    pub bytes: &'a [u8],
}

impl Default for Range<'_> {
    fn default() -> Self {
        Range {
            start: 0,
            size: 0,
            readable: false,
            writable: false,
            executable: false,
            bytes: &[],
        }
    }
}

/// The most ranges that an executable has.
pub const RANGES: usize = 16;

/// An executable as it is seen in the bytes of its file. Nothing of it is copied.
#[derive(Drop)]
pub struct ImageView<'a> {
    pub ranges: ArrayVec<Range<'a>, RANGES>,
    /// The address of the first instruction.
    pub entry: u64,
    pub sites: SitesView<'a>,
}
