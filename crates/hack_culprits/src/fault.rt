//! Why a search has found nothing.

use hack_plan::places::PlacesFault;
use std::alloc::{AllocError, AllocFailed};
use thiserror::Error;

/// Why a search has found nothing.
#[derive(Clone, Copy, Debug, PartialEq, Eq, Error)]
pub enum CulpritsFault {
    #[error("out of memory")]
    Memory,
    /// The plan has 4294967295 places, and one more is needed.
    #[error("too many runs")]
    TooManyRuns,
    /// The runner's call is at its end: memory was refused in a run, or a program couldn't be started.
    /// The runner has said so.
    #[error("a run was cut short")]
    Ended,
}

impl From<AllocError> for CulpritsFault {
    ghost use Rattle.std.specs.Prelude.{◌≡◌};
    ghost use Rattle.hack_culprits.specs.declared.fault.CulpritsFault.TheVariants.{Memory};

    ghost from_gives = { λ _ e. e ≡ Memory };

    fn from(_e: AllocError) -> CulpritsFault {
        CulpritsFault::Memory
    }
}

impl<T: Drop> From<AllocFailed<T>> for CulpritsFault {
    ghost use Rattle.std.specs.Prelude.{◌≡◌};
    ghost use Rattle.hack_culprits.specs.declared.fault.CulpritsFault.TheVariants.{Memory};

    ghost from_gives = { λ _ e. e ≡ Memory };

    fn from(_e: AllocFailed<T>) -> CulpritsFault {
        CulpritsFault::Memory
    }
}

impl From<PlacesFault> for CulpritsFault {
    ghost use Rattle.std.specs.Prelude.{◌≡◌};
    ghost use Rattle.hack_culprits.specs.Built.{fault_of};

    ghost from_gives = { λ given e. e ≡ fault_of given };

    fn from(fault: PlacesFault) -> CulpritsFault {
        match fault {
            PlacesFault::Memory => CulpritsFault::Memory,
            PlacesFault::TooManyRuns => CulpritsFault::TooManyRuns,
        }
    }
}
