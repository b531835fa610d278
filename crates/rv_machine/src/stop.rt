//! How a run ended.

use odc_text::check::Check;
use odc_text::place::Place;

/// How a run ended.
#[derive(Clone, Copy)]
pub enum Stop {
    /// The program exited with this code.
    Exited { code: u8 },
    /// It stopped at a check, whose site is listed with this place.
    Checked { check: Check, at: Place },
    /// The instruction at this address can't be carried out.
    Trapped { pc: u64 },
    /// As many instructions as allowed were carried out.
    StepsOut,
    /// The input failed.
    ReadFault,
    /// An output failed.
    WriteFault,
}
