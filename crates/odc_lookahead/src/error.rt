//! Why tokens are not read.

use odc_text::code::Fault;

/// Why a tree is not read.
#[derive(Clone, Copy)]
pub enum ParseError {
    /// The tokens have none.
    Fault(Fault),
    /// Memory ran out.
    Memory,
}
