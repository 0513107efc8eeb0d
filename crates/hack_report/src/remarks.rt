//! Lines on what a search found.

ghost use Rattle.std.specs.Prelude.{◌≡◌, ◌||◌, OnOk, map, string_bytes};
ghost use Rattle.std.specs.Io.KnownBytes.{Appends};
ghost use Rattle.std.specs.List.{list_any};
ghost use Rattle.hack_base.specs.Streams.{WritesAll, stream_of};
ghost use Rattle.hack_base.specs.Writes.{AppendsFront, CountsErrors};
ghost use Rattle.hack_report.specs.Remarks.{AddsRemarks, is_error_remark, is_warning_remark};
ghost use Rattle.hack_report.specs.Remarks.{of_error, of_warning, one_remark, remark_line};
ghost use Rattle.hack_report.specs.Remarks.{remark_lines, remark_of};

use crate::noted::Noted;
use hack_base::writes::Sink;
use hack_term::term::{Coloring, Term};
use std::alloc::AllocError;
use std::io;

/// How a line begins.
#[derive(Clone, Copy, Debug, PartialEq, Eq)]
pub enum RemarkKind {
    Info,
    Warning,
    Error,
}

/// A line on what was found.
#[derive(Drop)]
pub struct Remark {
    pub kind: RemarkKind,
    pub text: String,
}

impl Remark {
    /// Writes the line, which notes an error or a warning even if the write fails.
    fn tell<E: Sink>(&self, term: &mut Term, err: &mut E) -> io::Result<()>
        ensures error { term.new.error ≡ (term.old.error || of_error self.now.kind) }
        ensures warn { term.new.warn ≡ (term.old.warn || of_warning self.now.kind) }
        ensures coloring { term.new.coloring ≡ term.old.coloring }
        ensures line { OnOk result (Appends (E.contents err.old) (E.contents err.new)
            (remark_line term.old.coloring (remark_of self.now))) }
        ensures front { AppendsFront (E.contents err.old) (E.contents err.new)
            (remark_line term.old.coloring (remark_of self.now)) }
        ensures counted { CountsErrors (E.failed err.old) (E.failed err.new) result }
    {
        let text = self.text.as_str();
        match self.kind {
            RemarkKind::Info => term.info(text, err),
            RemarkKind::Warning => term.warn(text, err),
            RemarkKind::Error => term.error(text, err),
        }
    }
}

/// Adds a line that begins so.
pub(crate) fn add(
    remarks: &mut Vec<Remark>,
    kind: RemarkKind,
    text: String,
) -> Result<(), AllocError>
    ensures { OnOk result (AddsRemarks remarks.old remarks.new
        (one_remark kind (string_bytes text))) }
{
    remarks.push(Remark { kind, text })?;
    Ok(())
}

/// Writes these lines, in order, coloured so, and returns what they noted. An error of writing one is
/// ignored.
pub(crate) fn tell_remarks<E: Sink>(remarks: &[Remark], coloring: Coloring, err: &mut E) -> Noted
    ensures fails { result.fails ≡ list_any is_error_remark (map remark_of remarks.now) }
    ensures warns { result.warns ≡ list_any is_warning_remark (map remark_of remarks.now) }
    ensures shown { WritesAll (remark_lines coloring (map remark_of remarks.now))
        (stream_of E.Sink err.old) (stream_of E.Sink err.new) }
{
    let mut term = Term::new(coloring, false);
    for remark in remarks {
        let _ = remark.tell(&mut term, err);
    }
    Noted::by(&term)
}
