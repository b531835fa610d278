//! The registers.

ghost use Rattle.std.specs.Prelude.{◌≡◌, ℕ, ◌<◌, List, replicate, slice_index};
ghost use Rattle.rv_table.specs.State.{with_register};

use std::marker::Model;

/// The 32 registers. The first is always 0.
#[derive(Drop)]
pub struct Registers {
    values: [u64; 32],
}

impl Model for Registers {
    ghost use Rattle.std.specs.Prelude.{ℕ, List};

    ghost Value = { List ℕ };

    ghost view = { λ r. r.values };
}

impl Registers {
    pub fn new() -> Registers
        ensures { result ≡ replicate 32 0 }
    {
        Registers { values: [0; 32] }
    }

    pub fn read(&self, number: u8) -> u64
        requires { number < 32 }
        ensures { result ≡ slice_index self.now number }
    {
        self.values[usize::from(number)]
    }

    /// Writes a register. A write to register 0 is lost.
    pub fn write(&mut self, number: u8, value: u64)
        requires { number < 32 }
        ensures { self.new ≡ with_register self.old number value }
    {
        if number != 0 {
            self.values[usize::from(number)] = value;
        }
    }
}
