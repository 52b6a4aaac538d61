// Why a rule wasn't read.
ghost use Rattle.std.specs.Prelude.{◌≡◌};
ghost use Rattle.c_loops.specs.declared.halt.Halt.TheVariants.{Unexpected as HaltUnexpected, NoMemory};

use c_tokens::Unexpected;
use std::alloc::{AllocError, AllocFailed};

/// Why a rule wasn't read.
#[derive(Clone, Copy, Debug, PartialEq, Eq)]
pub enum Halt {
    /// The next token doesn't fit.
    Unexpected,
    NoMemory,
}

impl From<Unexpected> for Halt {
    ghost from_gives = { λ _ e. e ≡ HaltUnexpected };

    fn from(_: Unexpected) -> Halt {
        Halt::Unexpected
    }
}

impl From<AllocError> for Halt {
    ghost from_gives = { λ _ e. e ≡ NoMemory };

    fn from(_: AllocError) -> Halt {
        Halt::NoMemory
    }
}
