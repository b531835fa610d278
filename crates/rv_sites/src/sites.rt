//! The lists of an executable: paths of the source, sites of checks, names of procedures, and calls of
//! allocators.

ghost use Rattle.std.specs.Prelude.{◌≡◌, IfOk};

use odc_text::check::Check;
use odc_text::place::Place;
use std::alloc::{AllocError, Global};
use std::marker::Model;

/// A check and where it stands in the source.
pub type Site = (Check, Place);

/// A text whose bytes may be any, as those of a file that somebody else wrote. Contracts see its bytes.
#[derive(Drop)]
pub struct ByteString {
    bytes: Vec<u8>,
}

impl Model for ByteString {
    ghost use Rattle.std.specs.Prelude.{ℕ, List};

    ghost Value = { List ℕ };

    ghost view = { λ t. t.bytes.items };
}

impl ByteString {
    /// The text with these bytes.
    pub fn new(bytes: Vec<u8>) -> Self
        ensures { result ≡ bytes.items }
    {
        ByteString { bytes }
    }

    /// A text with bytes that are copied.
    pub fn copied(alloc: Global, bytes: &[u8]) -> Result<Self, AllocError>
        ensures { IfOk result (λ t. t ≡ bytes.now) }
    {
        let bytes = Vec::from_slice(alloc, bytes)?;
        Ok(ByteString { bytes })
    }

    /// The bytes of the text.
    pub fn as_bytes(&self) -> &[u8]
        ensures { result.now ≡ self.now }
    {
        &self.bytes
    }
}

/// A procedure: the address of its first instruction, and its name.
#[derive(Drop)]
pub struct ProcedureName {
    pub entry: u64,
    pub name: ByteString,
}

/// The lists of an executable.
#[derive(Drop)]
pub struct Sites {
    /// The paths of the source's files, by their numbers.
    pub paths: Vec<ByteString>,
    /// The sites at which a check may stop, by their numbers.
    pub checks: Vec<Site>,
    /// The procedures. The first entry for an address is the one that counts.
    pub names: Vec<ProcedureName>,
    /// The addresses of the instructions that call an allocator.
    pub calls: Vec<u64>,
}
