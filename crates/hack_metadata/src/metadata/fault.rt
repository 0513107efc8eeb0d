//! Why metadata can't be read.

use std::alloc::{AllocError, AllocFailed};
use thiserror::Error;

/// Why the output of `cargo metadata` can't be read.
#[derive(Debug, PartialEq, Eq, Drop, Error)]
pub enum MetadataFault {
    #[error("out of memory")]
    Memory,
    /// The first field that is missing or has the wrong type.
    #[error("failed to parse `{0}` field from metadata")]
    Field(&'static str),
    /// The text is no JSON object.
    #[error("the output is no JSON object")]
    Json,
}

impl From<AllocError> for MetadataFault {
    ghost use Rattle.std.specs.Prelude.{◌≡◌};
    ghost use Rattle.hack_metadata.specs.declared.metadata.fault.MetadataFault.TheVariants.{Memory};

    ghost from_gives = { λ _ e. e ≡ Memory };

    fn from(_: AllocError) -> MetadataFault {
        MetadataFault::Memory
    }
}

impl<T: Drop> From<AllocFailed<T>> for MetadataFault {
    ghost use Rattle.std.specs.Prelude.{◌≡◌};
    ghost use Rattle.hack_metadata.specs.declared.metadata.fault.MetadataFault.TheVariants.{Memory};

    ghost from_gives = { λ _ e. e ≡ Memory };

    fn from(_: AllocFailed<T>) -> MetadataFault {
        MetadataFault::Memory
    }
}
