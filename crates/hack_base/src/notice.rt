//! What a call has to report to the user. A call returns its notices, and its caller prints them,
//! so that a call that ends with an error reports nothing else.

ghost use Rattle.std.specs.Prelude.{◌≡◌, OnErr, OnOk, string_bytes};
ghost use Rattle.hack_base.specs.Notes.{AddsNotes, note_if};

use std::alloc::AllocError;

/// How a notice is printed, and whether it counts as a warning.
#[derive(Clone, Copy, Debug, PartialEq, Eq)]
pub enum NoticeKind {
    /// Printed after `info: `.
    Info,
    /// Printed after `warning: `, and sets the warning flag.
    Warn,
    /// Printed after `warning: `, and leaves the warning flag as it is.
    QuietWarn,
}

/// A line for the user.
#[derive(Debug, PartialEq, Eq, Drop)]
pub struct Notice {
    pub kind: NoticeKind,
    /// The line without the word of its kind and without a line feed.
    pub text: String,
}

/// Appends a notice, where it is to be reported.
pub fn tell(
    notices: &mut Vec<Notice>,
    told: bool,
    kind: NoticeKind,
    text: String,
) -> Result<(), AllocError>
    ensures told { OnOk result (AddsNotes notices.old notices.new
        (note_if told kind (string_bytes text))) }
    ensures kept { OnErr result (notices.new.items ≡ notices.old.items) }
{
    if told {
        notices.push(Notice { kind, text })?;
    }
    Ok(())
}
