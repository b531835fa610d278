//! Bit fields of a 32-bit word.

ghost use Rattle.std.specs.Prelude.{◌≡◌, ◌+◌, ◌-◌, ◌*◌, ◌^◌, ◌<◌, ◌≤◌};
ghost use Rattle.rv_table.specs.Fields.{bits};

/// The bits `HI` down to `LO` of a word.
pub struct Bits<const HI: u32, const LO: u32>;

impl<const HI: u32, const LO: u32> Bits<HI, LO> {
    /// The field's value in `word`.
    pub fn read(word: u32) -> u32
        requires ordered { LO ≤ HI }
        requires inside { HI < 32 }
        ensures { result ≡ bits HI LO word }
    {
        (word >> LO) & (u32::MAX >> (31 - (HI - LO)))
    }

    /// The word whose field is `value` and whose other bits are 0.
    pub fn place(value: u32) -> u32
        requires ordered { LO ≤ HI }
        requires inside { HI < 32 }
        requires fits { value < 2 ^ (HI - LO + 1) }
        ensures { result ≡ value * 2 ^ LO }
    {
        value << LO
    }
}
