//! Why a manifest couldn't be edited.

ghost use Rattle.std.specs.Prelude.{◌≡◌};

use std::alloc::AllocError;
use thiserror::Error;

/// Why a manifest couldn't be edited. The caller knows its path.
#[derive(Debug, PartialEq, Eq, Drop, Error)]
pub enum EditFault {
    /// The text isn't a TOML document.
    #[error("failed to parse manifest as toml")]
    Toml,
    /// An inline table at `target` or under it holds development dependencies.
    #[error("unsupported form of manifest")]
    InlineTarget,
    /// The workspace is an inline table, or has no place for crates to exclude.
    #[error("unsupported form of manifest")]
    WorkspaceForm,
    /// The path of a private crate has control characters, which a text in quotes can't have.
    #[error("unsupported form of manifest")]
    PathText,
    /// No place is found for a change, or the new text isn't read as the tree that should be left.
    #[error("failed to edit manifest")]
    ReadBack,
    #[error("out of memory")]
    Memory,
}

impl From<AllocError> for EditFault {
    ghost use Rattle.hack_edits.specs.declared.fault.EditFault.TheVariants.{Memory};

    ghost from_gives = { λ _ e. e ≡ Memory };

    fn from(_e: AllocError) -> EditFault {
        EditFault::Memory
    }
}
