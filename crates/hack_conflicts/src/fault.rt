//! Why a search has found nothing, or ends before it is done.

ghost use Rattle.std.specs.Prelude.{◌≡◌};

use std::alloc::{AllocError, AllocFailed};
use thiserror::Error;

/// Why a search has found nothing.
#[derive(Debug, Drop, PartialEq, Eq, Error)]
pub enum SearchFault {
    #[error("out of memory")]
    Memory,
    /// The last build was broken. The builder knows why.
    #[error("a build was broken")]
    Broken,
}

impl From<AllocError> for SearchFault {
    ghost use Rattle.hack_conflicts.specs.declared.fault.SearchFault.TheVariants.{Memory};

    ghost from_gives = { λ _ e. e ≡ Memory };

    fn from(_e: AllocError) -> SearchFault {
        SearchFault::Memory
    }
}

impl<T: Drop> From<AllocFailed<T>> for SearchFault {
    ghost use Rattle.hack_conflicts.specs.declared.fault.SearchFault.TheVariants.{Memory};

    ghost from_gives = { λ _ e. e ≡ Memory };

    fn from(_e: AllocFailed<T>) -> SearchFault {
        SearchFault::Memory
    }
}

/// Why a search ends before it is done.
#[derive(Clone, Copy, Debug, PartialEq, Eq)]
pub(crate) enum End {
    Memory,
    /// The last build was broken.
    Broken,
    /// All runs that are allowed were tried, and one more is needed.
    Spent,
}

impl From<AllocError> for End {
    ghost use Rattle.hack_conflicts.specs.declared.fault.End.TheVariants.{Memory};

    ghost from_gives = { λ _ e. e ≡ Memory };

    fn from(_e: AllocError) -> End {
        End::Memory
    }
}

impl<T: Drop> From<AllocFailed<T>> for End {
    ghost use Rattle.hack_conflicts.specs.declared.fault.End.TheVariants.{Memory};

    ghost from_gives = { λ _ e. e ≡ Memory };

    fn from(_e: AllocFailed<T>) -> End {
        End::Memory
    }
}
