//! Why a part of the grammar is not read.

ghost use Rattle.std.specs.Prelude.{◌≡◌};
ghost use Rattle.odc_lookahead.specs.declared.stop.Stop.TheVariants.{Memory};

use std::alloc::AllocError;

/// Why a part is not read. A place is how many tokens are left behind it.
#[derive(Clone, Copy)]
pub enum Stop {
    /// Nothing goes on with the token before which so many are left.
    Syntax(usize),
    /// Nothing goes on with the token behind which so many are left, but for what is too deep.
    Deep(usize),
    /// Memory ran out.
    Memory,
}

impl From<AllocError> for Stop {
    ghost from_gives = { λ _ e. e ≡ Memory };

    fn from(_error: AllocError) -> Stop {
        Stop::Memory
    }
}
