//! Why manifests couldn't be edited.

ghost use Rattle.std.specs.Prelude.{◌≡◌};
ghost use Rattle.hack_prepare.specs.Internal.{IsEditFault, IsOfFile};

use hack_edits::manifest::EditFault;
use hack_files::fs::FsFault;
use std::alloc::{AllocError, AllocFailed, Global};
use thiserror::Error;

/// Why manifests couldn't be edited. An error of a manifest has its path.
#[derive(Debug, Drop, PartialEq, Eq, Error)]
pub enum PrepareFault {
    #[error("out of memory")]
    Memory,
    /// The package in the folder of the workspace is private, and `--no-private` would remove it.
    #[error("--no-private is not supported yet with workspace with private root crate")]
    PrivateRoot,
    /// A file can't be read or written.
    #[error("{0}")]
    Files(FsFault),
    /// A manifest isn't a TOML document.
    #[error("failed to parse manifest `{0}` as toml")]
    Toml(String),
    /// An inline table at `target` or under it holds development dependencies.
    #[error("unsupported form of manifest `{0}`")]
    InlineTarget(String),
    /// The workspace is an inline table, or has no place for crates to exclude.
    #[error("unsupported form of manifest `{0}`")]
    WorkspaceForm(String),
    /// The path of a private crate has control characters.
    #[error("unsupported form of manifest `{0}`")]
    PathText(String),
    /// No place is found for a change, or the new text isn't read as the tree that should be left.
    #[error("failed to edit manifest `{0}`")]
    ReadBack(String),
}

impl From<AllocError> for PrepareFault {
    ghost use Rattle.std.specs.Prelude.{◌≡◌};
    ghost use Rattle.hack_prepare.specs.declared.fault.PrepareFault.TheVariants.{Memory};

    ghost from_gives = { λ _ e. e ≡ Memory };

    fn from(_: AllocError) -> PrepareFault {
        PrepareFault::Memory
    }
}

impl<T: Drop> From<AllocFailed<T>> for PrepareFault {
    ghost use Rattle.std.specs.Prelude.{◌≡◌};
    ghost use Rattle.hack_prepare.specs.declared.fault.PrepareFault.TheVariants.{Memory};

    ghost from_gives = { λ _ e. e ≡ Memory };

    fn from(_: AllocFailed<T>) -> PrepareFault {
        PrepareFault::Memory
    }
}

/// Returns the error of an edit of the manifest at this path.
pub(crate) fn of_edit(alloc: Global, fault: EditFault, path: &str) -> PrepareFault
    ensures { IsEditFault path.now fault result }
{
    let path = match String::from_str(alloc, path) {
        Ok(path) => path,
        Err(_) => return PrepareFault::Memory,
    };
    match fault {
        EditFault::Toml => PrepareFault::Toml(path),
        EditFault::InlineTarget => PrepareFault::InlineTarget(path),
        EditFault::WorkspaceForm => PrepareFault::WorkspaceForm(path),
        EditFault::PathText => PrepareFault::PathText(path),
        EditFault::ReadBack => PrepareFault::ReadBack(path),
        EditFault::Memory => PrepareFault::Memory,
    }
}

/// Returns the error of a file as one of the edits.
pub(crate) fn of_file(fault: FsFault) -> PrepareFault
    ensures { IsOfFile fault result }
{
    match fault {
        FsFault::Memory => PrepareFault::Memory,
        fault => PrepareFault::Files(fault),
    }
}
