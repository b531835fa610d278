//! The bytes of a list of instructions.

ghost use Rattle.std.specs.Prelude.{IfOk};
ghost use Rattle.rv_emit.specs.Encoded.{AllFit, IsEncoded};

use rv_table::encode;
use rv_table::inst::Inst;
use std::alloc::{AllocError, Global};

/// The words of the instructions, each with its lowest byte first.
pub fn encoded(alloc: Global, code: &[Inst]) -> Result<Vec<u8>, AllocError>
    requires { AllFit code.now }
    ensures { IfOk result (λ text. IsEncoded text.items code.now) }
{
    let mut text = Vec::new(alloc);
    for inst in code {
        text.extend_from_slice(&encode(*inst).to_le_bytes())?;
    }
    Ok(text)
}
