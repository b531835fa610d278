//! What the machine loads: the text, the sites of its checks, and its calls of allocators.

use odc_text::check::Check;
use odc_text::place::Place;

/// A check and where it stands in the source.
pub type Site = (Check, Place);

/// What the machine loads beside the store. The text begins at 0x10000, and its first instruction is
/// the first of the program.
#[derive(Drop)]
pub struct Image {
    pub text: Vec<u8>,
    /// The sites of the checks, by their numbers.
    pub sites: Vec<Site>,
    /// The addresses of the instructions that call an allocator.
    pub calls: Vec<u64>,
}
