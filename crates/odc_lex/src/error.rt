//! Why a text has no tokens.

ghost use Rattle.std.specs.Prelude.{◌≡◌};
ghost use Rattle.odc_lex.specs.declared.error.LexError.TheVariants.{Memory};

use odc_text::code::Fault;
use std::alloc::AllocError;

/// Why `lex` gives no tokens.
#[derive(Clone, Copy)]
pub enum LexError {
    /// The text has none.
    Fault(Fault),
    /// Memory ran out.
    Memory,
}

impl From<AllocError> for LexError {
    ghost from_gives = { λ _ e. e ≡ Memory };

    fn from(_error: AllocError) -> LexError {
        LexError::Memory
    }
}
