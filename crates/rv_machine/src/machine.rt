//! The machine: an image loaded into memory, and its steps.

ghost use Rattle.std.specs.Prelude.{◌≡◌, ℕ, ◌↔◌, Bool, ◌&&◌, All, IfOk, IsTrue};
ghost use Rattle.rv_table.specs.State.{stepped, listed};
ghost use Rattle.rv_machine.specs.Image.{image_of, BytesFit};
ghost use Rattle.rv_machine.specs.Machine.{Loaded, loaded_from, Stays, CallOf};

use crate::hart::Hart;
use crate::image::{ImageView, Site};
use crate::memory::Memory;
use crate::text::jumps_by_x5;

mod run;
#[cfg(test)]
mod tests;

use rv_table::effect::Event;
use std::alloc::{AllocError, Global};
use std::marker::Model;

/// A machine of the instructions RV64IM, with the memory of one program.
#[derive(Drop)]
pub struct Machine {
    hart: Hart,
    sites: Vec<Site>,
    calls: Vec<u64>,
    trace: bool,
}

impl Model for Machine {
    ghost use Rattle.rv_machine.specs.Machine.{Loaded};

    ghost Value = { Loaded };

    ghost view = { λ m. record { state = m.hart; sites = m.sites.items; calls = m.calls.items } };
}

// The event of a listed call.
fn called(event: Event) -> Event
    ensures { CallOf event result }
{
    match event {
        Event::Next => Event::AllocCall,
        other => other,
    }
}

impl Machine {
    /// Takes all memory of a run, and puts the bytes of the image there. The registers are 0, and the
    /// first instruction is the one at the entry.
    ///
    /// `trace` asks for a line for each call of an allocator. It is kept, and no line is written yet.
    pub fn load(alloc: Global, view: &ImageView, trace: bool) -> Result<Machine, AllocError>
        requires { All BytesFit view.now.ranges.items }
        ensures { IfOk result (λ m. m ≡ loaded_from (image_of view.now)) }
    {
        let memory = Memory::load(alloc, &view.ranges)?;
        let sites = Vec::from_slice(alloc, &view.sites)?;
        let calls = Vec::from_slice(alloc, &view.calls)?;
        Ok(Machine {
            hart: Hart::new(memory, view.entry),
            sites,
            calls,
            trace,
        })
    }

    // The instruction at the program counter is listed as a call of an allocator.
    fn is_call_here(&self) -> bool
        ensures { result ≡ listed self.now.calls self.now.state.pc }
    {
        let pc = self.hart.pc();
        self.calls.iter().any(|call| *call == pc)
    }

    /// Carries out one instruction, where the event is Next or AllocCall; else nothing is changed.
    #[tactic(auto, unfolding(rv_table::specs::State::stepped))]
    pub fn step(&mut self) -> Event
        ensures event { stepped self.old.calls self.old.state ≡ (result, self.new.state) }
        ensures stays { Stays result self.old.state self.new.state }
        ensures lists { self.new ≡ record self.old { state = self.new.state } }
    {
        let Some(inst) = self.hart.fetch() else {
            return Event::Trap;
        };
        let is_call = jumps_by_x5(inst) && self.is_call_here();
        let event = self.hart.execute(inst);
        if is_call { called(event) } else { event }
    }
}
