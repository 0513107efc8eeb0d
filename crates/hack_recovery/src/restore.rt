//! Restores what an interrupted call left edited, and reports it.

ghost use Rattle.std.specs.Prelude.{◌≡◌, ◌≢◌, ◌↔◌, IsTrue, Ok, option_and_then};
ghost use Rattle.std.specs.Prelude.{option_map, string_bytes, true};
ghost use Rattle.hack_base.specs.Names.{names_of};
ghost use Rattle.hack_base.specs.Streams.{stream_of};
ghost use Rattle.hack_journal.specs.Journal.{edit_of, edits_of};
ghost use Rattle.hack_journal.specs.Rows.{spot_of};
ghost use Rattle.hack_journal.specs.Strangers.{first_stranger};
ghost use Rattle.hack_recovery.specs.Restoring.{IsBroughtBack, IsToldAs, Restores};
ghost use Rattle.hack_recovery.specs.Telling.{SaysError, SaysFileRestored, SaysRestored};
ghost use Rattle.hack_recovery.specs.Telling.{SaysStranger, SaysWhy, Tells};
ghost use Rattle.hack_files.specs.View.{files_view};

use crate::fault::CallFault;
use hack_base::paths::under;
use hack_base::writes::Sink;
use hack_files::fs::{Files, JournalFiles};
use hack_files::reason::{is_of_device, tell_reason};
use hack_journal::journal::Entry;
use hack_journal::place::JournalPlace;
use hack_journal::recover::{RecoverFault, recover};
use hack_journal::rows::{Row, row_at};
use hack_journal::strangers::first_stranger;
use hack_term::term::Term;
use std::alloc::Global;

/// What somebody has to know who puts back by hand what a journal tells.
const ROW: &str =
    "a journal goes on in files that are named as it is, with `~1`, `~2` and so on behind that, which are to be removed with it";

/// Restores what an interrupted call left edited, and reports it. Returns whether it is back; if it
/// can't be restored, an error was reported. `dir` is the current folder, from which paths are
/// shown.
pub(crate) fn restore<F: JournalFiles, E: Sink>(
    alloc: Global,
    dir: &str,
    place: &JournalPlace,
    files: &mut F,
    term: &mut Term,
    err: &mut E,
) -> Result<bool, CallFault>
    ensures { Restores F.Files (spot_of place.now) dir.now
        (files_view F.Files files.old) (files_view F.Files files.new) term.old term.new
        (stream_of E.Sink err.old) (stream_of E.Sink err.new) result }
{
    match row_at(alloc, files, place) {
        Ok(row) => match stranger_in(&row) {
            Some(entry) => {
                let (journal, path) = (place.journal.as_str(), entry.path.as_str());
                tell_stranger(alloc, journal, path, term, err)
            }
            None => bring_back(alloc, dir, place, files, term, err),
        },
        Err(fault) => {
            tell_why(alloc, &fault, files, term, err);
            tell_fault(alloc, fault, term, err)
        }
    }
}

/// The first entry of a journal, if one is there, that no call makes.
fn stranger_in(row: &Option<Row>) -> Option<&Entry>
    ensures { option_map (λ entry. edit_of entry.now) result
        ≡ option_and_then (λ row. first_stranger (edits_of row.entries.items)) row.now }
{
    match row {
        Some(row) => first_stranger(&row.entries),
        None => None,
    }
}

/// Reports that the journal names a stranger.
fn tell_stranger<E: Sink>(
    alloc: Global,
    journal: &str,
    path: &str,
    term: &mut Term,
    err: &mut E,
) -> Result<bool, CallFault>
    ensures told { Tells term.old term.new result }
    ensures never { result ≢ Ok true }
    ensures said { SaysStranger term.old.coloring journal.now path.now result
        (stream_of E.Sink err.old) (stream_of E.Sink err.new) }
{
    let text = format!(in alloc;
        "`{journal}` tells of `{path}`, which no call edits; put back by hand what it tells, and remove it"
    )?;
    let _ = term.info(ROW, err);
    let _ = term.error(&text, err);
    Ok(false)
}

/// Restores what the journal keeps, and reports it.
fn bring_back<F: JournalFiles, E: Sink>(
    alloc: Global,
    dir: &str,
    place: &JournalPlace,
    files: &mut F,
    term: &mut Term,
    err: &mut E,
) -> Result<bool, CallFault>
    ensures came { IsBroughtBack F.Files (spot_of place.now) dir.now term.old.coloring
        (files_view F.Files files.old) (files_view F.Files files.new)
        (stream_of E.Sink err.old) (stream_of E.Sink err.new) result }
    ensures told { Tells term.old term.new result }
{
    match recover(alloc, files, place) {
        Ok(paths) => {
            tell_all(dir, &paths, term, err);
            Ok(true)
        }
        Err(fault) => {
            tell_why(alloc, &fault, files, term, err);
            tell_fault(alloc, fault, term, err)
        }
    }
}

/// Reports each file that was restored.
fn tell_all<E: Sink>(dir: &str, paths: &[String], term: &Term, err: &mut E)
    ensures { SaysRestored term.now.coloring dir.now (names_of paths.now)
        (stream_of E.Sink err.old) (stream_of E.Sink err.new) }
{
    for path in paths {
        tell_restored(dir, path.as_str(), term, err);
    }
}

/// Reports that a file was restored, by its path from the current folder.
pub(crate) fn tell_restored<E: Sink>(dir: &str, path: &str, term: &Term, err: &mut E)
    ensures { SaysFileRestored term.now.coloring dir.now path.now
        (stream_of E.Sink err.old) (stream_of E.Sink err.new) }
{
    let after = "` after an interrupted call";
    let _ = term.info_of("restored `", under(path, dir), after, err);
}

/// Reports why files can't be restored.
fn tell_fault<E: Sink>(
    alloc: Global,
    fault: RecoverFault,
    term: &mut Term,
    err: &mut E,
) -> Result<bool, CallFault>
    ensures told { Tells term.old term.new result }
    ensures told_as { IsToldAs fault result }
    ensures said { SaysError term.old.coloring fault result
        (stream_of E.Sink err.old) (stream_of E.Sink err.new) }
{
    if is_memory(&fault) {
        return Err(CallFault::Memory);
    }
    let text = format!(in alloc; "{fault}")?;
    let _ = term.error(&text, err);
    Ok(false)
}

/// Says before the error of a journal how to put back by hand what it tells, or why a file couldn't
/// be read or written.
fn tell_why<F: Files, E: Sink>(
    alloc: Global,
    fault: &RecoverFault,
    files: &F,
    term: &Term,
    err: &mut E,
)
    ensures { SaysWhy term.now.coloring fault.now
        (stream_of E.Sink err.old) (stream_of E.Sink err.new) }
{
    match fault {
        RecoverFault::NotJournal(_) | RecoverFault::Changed { .. } => {
            let _ = term.info(ROW, err);
        }
        RecoverFault::Files(fault) if is_of_device(fault) => tell_reason(alloc, files, term, err),
        RecoverFault::Files(_) | RecoverFault::Memory => {}
    }
}

fn is_memory(fault: &RecoverFault) -> bool
    ensures { IsTrue result ↔ (fault.now ≡ RecoverFault.Memory) }
{
    match fault {
        RecoverFault::Memory => true,
        _ => false,
    }
}
