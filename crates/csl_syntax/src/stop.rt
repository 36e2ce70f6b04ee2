// Why a token doesn't go on.
use crate::fault::FormulaWhat;
use std::alloc::AllocError;

/// A fault of the token, or want of memory.
#[derive(Clone, Copy)]
pub enum Stop {
    Fails(FormulaWhat),
    Memory,
}

impl From<AllocError> for Stop {
    ghost use Rattle.std.specs.Prelude.{◌≡◌};
    ghost use Rattle.csl_syntax.specs.declared.stop.Stop.TheVariants.{Memory};

    ghost from_gives = { λ _ stop. stop ≡ Memory };

    fn from(_: AllocError) -> Self {
        Stop::Memory
    }
}
