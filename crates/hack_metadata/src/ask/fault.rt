//! Why asking cargo for the metadata of a workspace failed.

use hack_files::fs::FsFault;
use hack_process::process::ProcessFault;
use std::alloc::{AllocError, AllocFailed};
use thiserror::Error;

/// Why the metadata of a workspace can't be read from cargo.
#[derive(Debug, Drop, Error)]
pub enum AskFault {
    #[error("out of memory")]
    Memory,
    /// The dependencies for the host are wanted, and cargo reported no host.
    #[error("unable to determine host")]
    NoHost,
    /// A command failed.
    #[error("{0}")]
    Process(ProcessFault),
    /// The lockfile can't be read, or written back.
    #[error("{0}")]
    Files(FsFault),
    /// The output of this command is no JSON object. The command is shown as a user reads it.
    #[error("failed to parse output from {0}")]
    Output(String),
    /// The first field of the answer that is missing or has the wrong type.
    #[error("failed to parse `{0}` field from metadata")]
    Field(&'static str),
}

impl From<AllocError> for AskFault {
    ghost use Rattle.std.specs.Prelude.{◌≡◌};
    ghost use Rattle.hack_metadata.specs.declared.ask.fault.AskFault.TheVariants.{Memory};

    ghost from_gives = { λ _ e. e ≡ Memory };

    fn from(_: AllocError) -> AskFault {
        AskFault::Memory
    }
}

impl<T: Drop> From<AllocFailed<T>> for AskFault {
    ghost use Rattle.std.specs.Prelude.{◌≡◌};
    ghost use Rattle.hack_metadata.specs.declared.ask.fault.AskFault.TheVariants.{Memory};

    ghost from_gives = { λ _ e. e ≡ Memory };

    fn from(_: AllocFailed<T>) -> AskFault {
        AskFault::Memory
    }
}
