//! Why a file couldn't be read or written, for the user.

ghost use Rattle.std.specs.Prelude.{◌≡◌, true};
ghost use Rattle.hack_base.specs.Cuts.{front_of};
ghost use Rattle.hack_base.specs.Streams.{WritesText, stream_of};
ghost use Rattle.hack_files.specs.Faults.{file_text, of_device};
ghost use Rattle.hack_files.specs.WriteBacks.{SaysReason};
ghost use Rattle.hack_term.specs.Lines.{error_line};

use crate::fs::{Files, FsFault};
use hack_base::writes::Sink;
use hack_term::term::Term;
use std::alloc::Global;

/// Whether the device failed, so that the files may say why.
pub fn is_of_device(fault: &FsFault) -> bool
    ensures { result ≡ of_device fault.now }
{
    match fault {
        FsFault::Read(_) | FsFault::Write(_) => true,
        FsFault::NotText(_) | FsFault::Memory => false,
    }
}

/// Prints why the last call of these files that failed did so, in the words of the system, as far as
/// these are one line. One for which memory is refused, or that can't be written, is left out.
pub fn tell_reason<F: Files, E: Sink>(alloc: Global, files: &F, term: &Term, err: &mut E)
    ensures { SaysReason term.now.coloring
        (stream_of E.Sink err.old) (stream_of E.Sink err.new) }
{
    if let Some(reason) = files.reason()
        && let Ok(text) = format!(in alloc; "{reason}")
    {
        let _ = term.info(first_line(text.as_str()), err);
    }
}

/// The text up to its first line feed.
fn first_line(text: &str) -> &str
    ensures { result.now ≡ front_of 10 text.now }
{
    match text.split_once('\n') {
        Some((front, _)) => front,
        None => text,
    }
}

/// Reports the error of a file. Its line needs no memory.
pub fn tell_fault<E: Sink>(fault: &FsFault, term: &mut Term, err: &mut E)
    ensures noted { term.new ≡ record term.old { error = true } }
    ensures shown { WritesText (error_line term.old.coloring (file_text fault.now))
        (stream_of E.Sink err.old) (stream_of E.Sink err.new) }
{
    let (before, name, after) = fault.parts();
    let _ = term.error_of(before, name, after, err);
}
