//! Why arguments can't be split into options.

ghost use Rattle.std.specs.Prelude.{◌≡◌};

use std::alloc::AllocError;
use thiserror::Error;

/// Why an argument is refused, or has no value.
#[derive(Debug, Drop, Error)]
pub enum LexFault {
    /// An option needs a value, and no argument is left.
    #[error("missing argument")]
    MissingValue,
    /// The option has an attached value that nobody took.
    #[error("unexpected argument")]
    UnexpectedValue,
    #[error("out of memory")]
    Memory,
}

impl From<AllocError> for LexFault {
    ghost use Rattle.hack_lexopt.specs.declared.fault.LexFault.TheVariants.{Memory};

    ghost from_gives = { λ _ e. e ≡ Memory };

    fn from(_e: AllocError) -> LexFault {
        LexFault::Memory
    }
}
