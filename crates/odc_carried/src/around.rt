//! What surrounds the code of a procedure.

ghost use Rattle.std.specs.Prelude.{◌≡◌, ◌+◌, ◌^◌, ◌<◌, IfOk, length, get_or};

use odc_core::tree::Variable;
use std::alloc::AllocError;

/// A procedure's variables, where those of the compiler's own begin, how many values wait at once, the position of its
/// first result and how many it has, and the procedures that it calls or names.
#[derive(Drop)]
pub struct Around {
    pub first: Vec<Variable>,
    pub low: u32,
    pub waiting: u32,
    pub result: u32,
    pub results: u32,
    pub needs: Vec<u32>,
    ghost counted: { length first.items + 3 < 2 ^ 32 },
}

impl Around {
    /// The position of the buffer.
    pub fn buffer(&self) -> u32
        ensures { result ≡ length self.now.first.items + 0 }
    {
        self.first.len() as u32
    }

    /// The position of the address of the buffer's first byte in use.
    pub fn pointer(&self) -> u32
        ensures { result ≡ length self.now.first.items + 1 }
    {
        self.first.len() as u32 + 1
    }

    /// The position of the number that is printed.
    pub fn number(&self) -> u32
        ensures { result ≡ length self.now.first.items + 2 }
    {
        self.first.len() as u32 + 2
    }

    /// The position of the variable in which the value waits at a depth. There are as many positions as a `u32` has.
    pub fn waiting_at(&self, depth: u32) -> Result<u32, AllocError>
        ensures { IfOk result (λ x. x ≡ length self.now.first.items + (3 + depth)) }
    {
        match (self.first.len() as u32 + 3).checked_add(depth) {
            Some(position) => Ok(position),
            None => Err(AllocError),
        }
    }

    /// The position of the procedure that a need names.
    pub fn needed(&self, need: u32) -> u32
        ensures { result ≡ get_or self.now.needs.items need 0 }
    {
        match self.needs.get(need as usize) {
            Some(procedure) => *procedure,
            None => 0,
        }
    }
}

/// The depth so far behind another one. There are as many as a `u32` has.
pub fn deeper(depth: u32, by: u32) -> Result<u32, AllocError>
    ensures { IfOk result (λ d. d ≡ depth + by) }
{
    match depth.checked_add(by) {
        Some(next) => Ok(next),
        None => Err(AllocError),
    }
}
