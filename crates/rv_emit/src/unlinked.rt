//! Blocks: the code of procedures before their places are known. Where an instruction tells an entry, an
//! address or a site, a block has a hole, which the link step fills. A block may stand anywhere.

use odc_text::check::Check;
use rv_table::inst::Inst;

/// What a hole is filled with.
#[derive(Clone, Copy)]
pub enum HoleKind {
    /// The address of a procedure's first instruction.
    Procedure,
    /// The address of a global or a literal.
    Address,
    /// The number of the site of a check, which stands at this line and column of a file.
    Site {
        line: u32,
        column: u32,
        check: Check,
    },
}

/// Four instructions that put a number into a register, and that wait for this number.
#[derive(Clone, Copy)]
pub struct Hole {
    /// The position of the first of them in the block.
    pub at: u32,
    pub kind: HoleKind,
    /// The procedure by its position in the list, the address by its position in `addresses`, or the
    /// site's file by its number.
    pub own: u32,
}

/// The code of one procedure. Its holes stand in the order of their positions.
#[derive(Drop)]
pub struct Block {
    pub name: String,
    pub code: Vec<Inst>,
    pub holes: Vec<Hole>,
    /// The positions of the instructions that call an allocator.
    pub calls: Vec<u32>,
}

/// The blocks of a program, in the order of its procedures.
#[derive(Drop)]
pub struct Blocks {
    pub list: Vec<Block>,
    /// The addresses of the globals and literals.
    pub addresses: Vec<u64>,
    /// The position in the list of the procedure that is called first.
    pub main: u32,
}
