//! Why what a call needs can't be loaded.

use hack_files::fs::FsFault;
use hack_manifest::manifest::ManifestFault;
use hack_metadata::metadata::{AskFault, MetadataFault};
use hack_process::process::ProcessFault;
use std::alloc::{AllocError, AllocFailed};
use thiserror::Error;

/// Why what a call needs can't be loaded.
#[derive(Debug, Drop, Error)]
pub enum ContextFault {
    #[error("out of memory")]
    Memory,
    /// Cargo can't be asked for the metadata of the workspace, or its answer can't be read.
    #[error("{0}")]
    Asked(AskFault),
    /// A manifest can't be read from its file.
    #[error("{0}")]
    Files(FsFault),
    /// A manifest is no TOML document, or a field of it is missing or has the wrong type.
    #[error("{0}")]
    Manifest(ManifestFault),
    /// `cargo locate-project` failed.
    #[error("{0}")]
    Process(ProcessFault),
    /// Features of dependencies are asked for, and cargo is too old to report which dependencies
    /// are normal ones.
    #[error("--include-deps-features requires Cargo 1.41 or later")]
    OldCargo,
    /// Features of dependencies are asked for, and the node of a member is missing.
    #[error("{0}")]
    Metadata(MetadataFault),
    /// The output of `cargo locate-project` is no JSON object. It has the command's text.
    #[error("failed to parse output from {0}")]
    NotJson(String),
    /// The output of `cargo locate-project` has no text at `root`.
    #[error("failed to parse `root` field from locate-project")]
    Root,
}

impl From<AllocError> for ContextFault {
    ghost use Rattle.std.specs.Prelude.{◌≡◌};
    ghost use Rattle.hack_load.specs.declared.fault.ContextFault.TheVariants.{Memory};

    ghost from_gives = { λ _ e. e ≡ Memory };

    fn from(_: AllocError) -> ContextFault {
        ContextFault::Memory
    }
}

impl<T: Drop> From<AllocFailed<T>> for ContextFault {
    ghost use Rattle.std.specs.Prelude.{◌≡◌};
    ghost use Rattle.hack_load.specs.declared.fault.ContextFault.TheVariants.{Memory};

    ghost from_gives = { λ _ e. e ≡ Memory };

    fn from(_: AllocFailed<T>) -> ContextFault {
        ContextFault::Memory
    }
}
