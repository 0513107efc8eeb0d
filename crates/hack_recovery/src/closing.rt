//! The end of a call with a journal: what stays of it is told, and the lockfile's copy goes where
//! nothing needs it any more.

ghost use Rattle.std.specs.Prelude.{[], string_bytes};
ghost use Rattle.hack_base.specs.Streams.{stream_of};
ghost use Rattle.hack_files.specs.Files.{KeepsAll, KeepsOthers, Makes, MakesOrNot, removes};
ghost use Rattle.hack_files.specs.View.{files_view};
ghost use Rattle.hack_places.specs.PlacesView.{places_view};
ghost use Rattle.hack_recovery.specs.CallCourses.{IsCopyEnded, IsCopyToldIf, IsJournalClosed};
ghost use Rattle.hack_recovery.specs.Telling.{SaysUnkept, Warns};
ghost use Rattle.hack_recovery.specs.Texts.{stay_text};

use hack_base::writes::Sink;
use hack_files::fs::{Files, JournalFiles};
use hack_places::places::Places;
use hack_term::term::Term;

/// Warns where a journal stays, or may; where none does, the lockfile's copy is removed. Where a
/// write of a lockfile was refused, the copy stays, and is warned of.
#[tactic(auto, using(hack_files::proofs::FilesLemmas::trace_steps))]
pub(crate) fn close<F: JournalFiles, E: Sink>(
    places: &Places,
    unwritten: bool,
    files: &mut F,
    term: &mut Term,
    err: &mut E,
)
    ensures told { IsJournalClosed F.Files (places_view places.now) unwritten
        (files_view F.Files files.old) (files_view F.Files files.new) term.old term.new
        (stream_of E.Sink err.old) (stream_of E.Sink err.new) }
    ensures others { F.tells → KeepsOthers (string_bytes places.now.copy)
        (F.bytes_at files.old) (F.bytes_at files.new) }
    ensures made { F.whole → MakesOrNot (removes (string_bytes places.now.copy))
        (F.trace files.old) (F.trace files.new) (F.bytes_at files.old) (F.bytes_at files.new) }
{
    let journal = places.place.journal.as_str();
    let copy = places.copy.as_str();
    match files.exists(journal) {
        Ok(false) => return end_copy(unwritten, copy, files, term, err),
        Ok(true) => {
            let how = "` stays: the next call brings back what it tells";
            tell_stay(journal, how, term, err);
        }
        Err(_) => {
            let how = "` may stay: then the next call brings back what it tells";
            tell_stay(journal, how, term, err);
        }
    }
    tell_copy(unwritten, copy, files, term, err);
}

/// Removes the lockfile's copy, unless a write of a lockfile was refused. One that stays is warned
/// of.
fn end_copy<F: JournalFiles, E: Sink>(
    unwritten: bool,
    copy: &str,
    files: &mut F,
    term: &mut Term,
    err: &mut E,
)
    ensures told { IsCopyEnded F.Files unwritten copy.now
        (files_view F.Files files.old) (files_view F.Files files.new) term.old term.new
        (stream_of E.Sink err.old) (stream_of E.Sink err.new) }
    ensures others { F.tells → KeepsOthers copy.now
        (F.bytes_at files.old) (F.bytes_at files.new) }
    ensures made { F.whole → MakesOrNot (removes copy.now)
        (F.trace files.old) (F.trace files.new) (F.bytes_at files.old) (F.bytes_at files.new) }
{
    if unwritten {
        return tell_copy(unwritten, copy, files, term, err);
    }
    match files.remove(copy) {
        Ok(()) => {}
        Err(_) => tell_stay(copy, "` stays: the next call removes it", term, err),
    }
}

/// Says that an edit was refused for the journal, where it refused something: it can't keep what
/// the edit replaces.
pub(crate) fn tell_unkept<E: Sink>(journal: &str, missed: bool, term: &Term, err: &mut E)
    ensures { SaysUnkept missed term.now.coloring journal.now
        (stream_of E.Sink err.old) (stream_of E.Sink err.new) }
{
    if !missed {
        return;
    }
    let before = "an edit was refused, since what it replaces can't be kept in `";
    let _ = term.info_of(before, journal, "`", err);
}

/// Warns of a copy of the lockfile, if there is one, where a write of a lockfile was refused.
#[tactic(auto, using(hack_files::proofs::FilesLemmas::trace_steps))]
fn tell_copy<F: Files, E: Sink>(
    unwritten: bool,
    copy: &str,
    files: &mut F,
    term: &mut Term,
    err: &mut E,
)
    ensures told { IsCopyToldIf F.Files unwritten copy.now
        (files_view F.Files files.old) (files_view F.Files files.new) term.old term.new
        (stream_of E.Sink err.old) (stream_of E.Sink err.new) }
    ensures same { F.tells → KeepsAll (F.bytes_at files.old) (F.bytes_at files.new) }
    ensures untraced { F.whole → Makes [] (F.trace files.old) (F.trace files.new)
        (F.bytes_at files.old) (F.bytes_at files.new) }
{
    if !unwritten {
        return;
    }
    match files.exists(copy) {
        Ok(false) => {}
        Ok(true) => {
            let how = "` stays: it has what the lockfile held, and the next call removes it";
            tell_stay(copy, how, term, err)
        }
        Err(_) => {
            let how =
                "` may stay: then it has what the lockfile held, and the next call removes it";
            tell_stay(copy, how, term, err)
        }
    }
}

/// Warns of a file that stays, or may.
fn tell_stay<E: Sink>(path: &str, how: &str, term: &mut Term, err: &mut E)
    ensures { Warns (stay_text path.now how.now) term.old term.new
        (stream_of E.Sink err.old) (stream_of E.Sink err.new) }
{
    let _ = term.warn_of("`", path, how, err);
}
