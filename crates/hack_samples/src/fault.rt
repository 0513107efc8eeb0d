//! Why there is no sample.

ghost use Rattle.std.specs.Prelude.{◌≡◌};

use std::alloc::{AllocError, AllocFailed};
use thiserror::Error;

/// Why there is no sample.
#[derive(Debug, Drop, PartialEq, Eq, Error)]
pub enum SampleFault {
    #[error("out of memory")]
    Memory,
    /// The search has asked as many questions as it may.
    #[error("too many questions")]
    TooManyQuestions,
}

impl From<AllocError> for SampleFault {
    ghost use Rattle.hack_samples.specs.declared.fault.SampleFault.TheVariants.{Memory};

    ghost from_gives = { λ _ e. e ≡ Memory };

    fn from(_e: AllocError) -> SampleFault {
        SampleFault::Memory
    }
}

impl<T: Drop> From<AllocFailed<T>> for SampleFault {
    ghost use Rattle.hack_samples.specs.declared.fault.SampleFault.TheVariants.{Memory};

    ghost from_gives = { λ _ e. e ≡ Memory };

    fn from(_e: AllocFailed<T>) -> SampleFault {
        SampleFault::Memory
    }
}
