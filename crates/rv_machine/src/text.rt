//! Text that is decoded once, at load, where it may not be written.

ghost use Rattle.std.specs.Prelude.{◌≡◌, ◌*◌, ◌^◌, ◌<◌, IfOk, IfSome};
ghost use Rattle.rv_table.specs.State.{jumps_by_x5};
ghost use Rattle.rv_machine.specs.Text.{IsFixedAt, IsEntry, AreFixed};

use crate::memory::{Region, find};
use rv_table::decode;
use rv_table::effect::Access;
use rv_table::inst::Inst;
use std::alloc::{AllocError, Global};

/// The instruction jumps by the register that holds the procedure of a call.
pub fn jumps_by_x5(inst: Inst) -> bool
    ensures { result ≡ jumps_by_x5 inst }
{
    match inst {
        Inst::Jalr { rs1, .. } => rs1 == 5,
        _ => false,
    }
}

// The instruction at the address, where it stays what it is and is no jump by x5.
fn fixed_at(regions: &[Region], address: u64) -> Option<Inst>
    ensures { IfSome result (λ inst. IsFixedAt regions.now address inst) }
{
    let i = find(regions, Access::Execute, address, 4)?;
    let region = &regions[i];
    if region.allows(Access::Write) {
        return None;
    }
    let inst = decode(region.load_4(address))?;
    if jumps_by_x5(inst) { None } else { Some(inst) }
}

/// The instructions of words one after another, from an address on. There is none at a word that
/// isn't one, that may be written, or that is a jump by x5, which may be an event.
#[derive(Drop)]
pub struct Text {
    start: u64,
    entries: Vec<Option<Inst>>,
}

impl Text {
    /// Decodes so many words from the address on.
    pub fn decode(
        alloc: Global,
        regions: &[Region],
        start: u64,
        count: usize,
    ) -> Result<Text, AllocError>
        requires { 4 * count < 2 ^ 64 }
        ensures { IfOk result (λ text. AreFixed regions.now text.start text.entries.items) }
    {
        let mut entries = Vec::with_capacity(alloc, count)?;
        for i in 0..count {
            let Some(address) = start.checked_add(4 * i as u64) else {
                break;
            };
            entries.push(fixed_at(regions, address))?;
        }
        Ok(Text { start, entries })
    }

    /// The instruction at the address, where there is one.
    pub fn at(&self, address: u64) -> Option<Inst>
        ensures { IfSome result (λ inst. IsEntry self.now.start self.now.entries.items address inst) }
    {
        if address < self.start || (address - self.start) % 4 != 0 {
            return None;
        }
        *self.entries.get(((address - self.start) / 4) as usize)?
    }
}
