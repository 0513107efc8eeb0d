//! A file that is kept, with what is said of it when it is written back.

ghost use Rattle.std.specs.Prelude.{◌≡◌, IfOk, string_bytes};
ghost use Rattle.hack_files.specs.BackTexts.{restoring_text, unwritten_text};

use std::alloc::{AllocError, Global};

/// A path and the bytes that it held. The texts are made in advance, since writing back takes no
/// memory.
#[derive(Debug, Drop)]
pub(crate) struct Saved {
    pub(crate) path: String,
    pub(crate) bytes: Vec<u8>,
    /// What is printed before the write, in verbose mode.
    pub(crate) restoring: String,
    /// What is printed where the write fails.
    pub(crate) failed: String,
    ghost restores: { string_bytes restoring ≡ restoring_text (string_bytes path) },
    ghost fails: { string_bytes failed ≡ unwritten_text (string_bytes path) },
}

impl Saved {
    /// A file that held these bytes.
    pub(crate) fn new(alloc: Global, path: &str, bytes: &[u8]) -> Result<Saved, AllocError>
        ensures path { IfOk result (λ saved. string_bytes saved.path ≡ path.now) }
        ensures bytes { IfOk result (λ saved. saved.bytes.items ≡ bytes.now) }
    {
        Ok(Saved {
            path: String::from_str(alloc, path)?,
            bytes: bytes.to_vec(alloc)?,
            restoring: format!(in alloc; "restoring {path}")?,
            failed: format!(in alloc; "failed to write to file `{path}`")?,
        })
    }
}
