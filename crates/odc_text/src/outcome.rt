//! How a source run stands, and the calls of allocators that it logs.

use crate::check::Check;
use crate::place::Place;

/// How a run of the source stands after a bounded number of turns.
#[derive(Clone, Copy)]
pub enum Outcome {
    /// It has ended with this exit code.
    Exited { code: u8 },
    /// It has stopped at a check, at this place.
    Checked { check: Check, at: Place },
    /// It has left what the definition promises, at this place.
    Strayed { at: Place },
    /// It hasn't ended within the bound.
    Going,
}

/// A call of an allocator procedure, as the machine makes it: addresses are numbers.
#[derive(Clone, Copy)]
pub struct CallEvent {
    /// The address of the procedure.
    pub procedure: u64,
    /// The allocator's data.
    pub given: u64,
    pub mode: i64,
    /// The size that is asked for, in bytes.
    pub size: i64,
    pub align: i64,
    /// The address of the old memory.
    pub old: u64,
    /// The size of the old memory, in bytes.
    pub old_size: i64,
}
