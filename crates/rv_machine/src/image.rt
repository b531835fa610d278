//! What is loaded: ranges of memory, an entry, and the lists of sites and calls.

use odc_text::check::Check;
use odc_text::place::Place;

/// A range of memory. Its first bytes are given, the rest up to its size is 0.
#[derive(Drop)]
pub struct Range {
    /// The first address.
    pub start: u64,
    /// The number of bytes, at least that of `bytes`.
    pub size: u64,
    pub readable: bool,
    pub writable: bool,
    pub executable: bool,
    pub bytes: Vec<u8>,
}

/// A check and where it stands in the source.
pub type Site = (Check, Place);

/// A program for the machine. It owns all that it holds; loading copies what a run needs.
#[derive(Drop)]
pub struct ImageView {
    pub ranges: Vec<Range>,
    /// The address of the first instruction.
    pub entry: u64,
    /// The sites at which EBREAK may stop, by their numbers.
    pub sites: Vec<Site>,
    /// The addresses of the instructions that call an allocator.
    pub calls: Vec<u64>,
}
