//! The notices on edits.

ghost use Rattle.std.specs.Prelude.{OnOk};
ghost use Rattle.hack_base.specs.Notes.{AddsNotes};
ghost use Rattle.hack_prepare.specs.EditNotes.{dev_note, private_note};

use hack_base::notice::{Notice, NoticeKind, tell};
use std::alloc::{AllocError, Global};

/// Adds the notice that development dependencies are removed from a manifest, if `told` is true.
pub(crate) fn tell_dev(
    alloc: Global,
    told: bool,
    path: &str,
    notices: &mut Vec<Notice>,
) -> Result<(), AllocError>
    ensures { OnOk result (AddsNotes notices.old notices.new (dev_note told path.now)) }
{
    let text = format!(in alloc; "removing dev-dependencies from {path}")?;
    tell(notices, told, NoticeKind::Info, text)
}

/// Adds the notice that private crates are removed from a manifest, if `told` is true.
pub(crate) fn tell_private(
    alloc: Global,
    told: bool,
    path: &str,
    notices: &mut Vec<Notice>,
) -> Result<(), AllocError>
    ensures { OnOk result (AddsNotes notices.old notices.new (private_note told path.now)) }
{
    let text = format!(in alloc; "removing private crates from {path}")?;
    tell(notices, told, NoticeKind::Info, text)
}
