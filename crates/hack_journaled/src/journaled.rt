//! A whole call over files with a journal: wherever it ends, nothing is lost.

ghost use Rattle.std.specs.Prelude.{◌≡◌, ◌⊎◌, ◌+◌, ◌-◌, ◌^◌, ℕ, None, false, min, IfSome, length};
ghost use Rattle.std.specs.Prelude.{string_bytes, true};
ghost use Rattle.hack_base.specs.Names.{names_of};
ghost use Rattle.hack_base.specs.Counters.{GrowsBy};
ghost use Rattle.hack_files.specs.Files.{KeepsAll, KeepsAllBut};
ghost use Rattle.hack_files.specs.View.{files_view};
ghost use Rattle.hack_journal.specs.FailedCalls.{CannotEnd};
ghost use Rattle.hack_journal.specs.FileCalls.{spot_in};
ghost use Rattle.hack_journal.specs.LockfilesApart.{KeepsLockfiles, KeepsOtherFiles};
ghost use Rattle.hack_journal.specs.Refusing.{AreJust, HoldsByKind, IsRefused, IsRefusedOrUnkept};
ghost use Rattle.hack_journal.specs.Refusing.{NotesRefusals};
ghost use Rattle.hack_journal.specs.Rows.{KeepsBeside, RemovesOwn, spot_of};
ghost use Rattle.hack_journal.specs.SafeFiles.{AreBack, Stays, StaysSafe, without};
ghost use Rattle.hack_journaled.specs.Journals.{BetweenBoth, IsAccounted, files_seen, world_seen};
ghost use Rattle.hack_journaled.specs.Journals.{IsWhyItStays, OnlyEndFailed, SaysCallOver};
ghost use Rattle.hack_journaled.specs.Journals.{contents_seen};
ghost use Rattle.hack_run.specs.CallChanges.{IsChangeTrace};
ghost use Rattle.hack_run.specs.CallTrace.{IsCallTrace};
ghost use Rattle.hack_run.specs.Lanes.{IsLaneCall};
ghost use Rattle.hack_run.specs.Readings.{IsEarlyReadingOrRefusal};
ghost use Rattle.hack_run.specs.TemporaryEdits.{BringsBack, RestoresEdits};
ghost use Rattle.hack_run.specs.Refusals.{AreRefused, ReportsRefusal};
ghost use Rattle.hack_run.specs.Shown.{looks_of, scene_on};
ghost use Rattle.hack_run.specs.Standing.{EditsStand};
ghost use Rattle.hack_run.specs.Worlds.{IsSameHost, IsStatus, host_view};

use hack_base::writes::Sink;
use hack_files::fs::{Files, JournalFiles};
use hack_journal::apart::Apart;
use hack_journal::journaled::Journaled;
use hack_journal::place::JournalPlace;
use hack_journal::unkept::Unkept;
use hack_run::host::Host;
use hack_run::reading::Reading;
use hack_run::run::run;
use hack_starts::starts::Starts;

/// Performs a call as [`run`] does, and returns its exit status, the files, the lockfiles, how many
/// of their calls failed, `unkept`, and whether a write of a lockfile was refused. Each change of the
/// files is first noted in a journal at this place, where no file may be yet; at the end the journal
/// is removed, unless some file isn't restored. A change that can't be noted is refused, and `unkept`
/// is told of it: so it is where memory is refused for that. Lockfiles, which cargo changes too, are
/// those of `lockfiles`.
pub fn run_journaled<F: JournalFiles, L: Files, U: Unkept, C: Starts, O: Sink, E: Sink>(
    words: &[String],
    reading: Option<Reading>,
    files: F,
    lockfiles: L,
    place: JournalPlace,
    unkept: U,
    host: &mut Host<'_, C, O, E>,
) -> (u8, F, L, u64, U, bool)
    requires { IfSome reading (IsEarlyReadingOrRefusal host.old.env.now (names_of words.now)) }
    ensures host { IsSameHost host.old host.new }
    ensures status { IsStatus host.old.env.now.deny_warnings
        (host_view C.Caller O.Sink host.new) result.0 }

    // The clauses `refused`, `done` and `made` promise what those of `run` do; and where no error
    // was reported each path holds what it held, unless the command line asks for edits that stay.
    ensures refused { AreRefused host.old.env.now (names_of words.now)
        → ReportsRefusal C.tells host.old.env.now
        (host_view C.Caller O.Sink host.old) (host_view C.Caller O.Sink host.new) }
    ensures done { host.new.term.now.error ≡ false → C.tells
        → IsCallTrace true (F.tells × L.tells) (names_of words.now) host.old.env.now
        (world_seen (string_bytes place.journal) (files_view F.Files files)
        (files_view L.Files lockfiles) 0 (host_view C.Caller O.Sink host.old))
        (world_seen (string_bytes place.journal) (files_view F.Files result.1)
        (files_view L.Files result.2) result.3 (host_view C.Caller O.Sink host.new)) }

    // Then files that show their changes show just those that `run` promises, in order among
    // lockfiles and among all others; what the journal's own files were changed by is left out.
    ensures traced { host.new.term.now.error ≡ false → C.tells → F.tells → F.whole → L.whole
        → IsChangeTrace (F.tells × L.tells) (names_of words.now) host.old.env.now
        (world_seen (string_bytes place.journal) (files_view F.Files files)
        (files_view L.Files lockfiles) 0 (host_view C.Caller O.Sink host.old))
        (world_seen (string_bytes place.journal) (files_view F.Files result.1)
        (files_view L.Files result.2) result.3 (host_view C.Caller O.Sink host.new)) }

    // And each manifest that the arguments have edited held its edit once, every other path what it
    // held.
    ensures stood { host.new.term.now.error ≡ false → EditsStand
        (BetweenBoth F.Files L.Files (string_bytes place.journal) files result.1 lockfiles result.2)
        (F.tells × L.tells) C.tells (names_of words.now) host.old.env.now
        (contents_seen (string_bytes place.journal) (F.bytes_at files) (L.bytes_at lockfiles))
        (C.calls host.old.caller.now) }
    ensures made { C.tells
        → IsCallTrace false (F.tells × L.tells) (names_of words.now) host.old.env.now
        (world_seen (string_bytes place.journal) (files_view F.Files files)
        (files_view L.Files lockfiles) 0 (host_view C.Caller O.Sink host.old))
        (world_seen (string_bytes place.journal) (files_view F.Files result.1)
        (files_view L.Files result.2) result.3 (host_view C.Caller O.Sink host.new)) }
    ensures clean { host.new.term.now.error ≡ false
        → RestoresEdits host.old.env.now (names_of words.now) → F.tells → L.tells → KeepsAll
        (contents_seen (string_bytes place.journal) (F.bytes_at files) (L.bytes_at lockfiles))
        (contents_seen (string_bytes place.journal) (F.bytes_at result.1) (L.bytes_at result.2)) }

    // Where no error was reported, runs of a plan were performed side by side, by the rules of lanes;
    // whatever comes of the call, nothing else was started, and none is left.
    ensures lanes { host.new.term.now.error ≡ false → IsLaneCall C.did C.course C.tells C.calls
        true (F.tells × L.tells) (names_of words.now) host.old.env.now
        (contents_seen (string_bytes place.journal) (F.bytes_at files) (L.bytes_at lockfiles))
        host.old.caller.now host.new.caller.now }
    ensures in_lanes { IsLaneCall C.did C.course C.tells C.calls false (F.tells × L.tells)
        (names_of words.now) host.old.env.now
        (contents_seen (string_bytes place.journal) (F.bytes_at files) (L.bytes_at lockfiles))
        host.old.caller.now host.new.caller.now }

    // The files are restored, lockfiles too: unless the command line asks for edits that stay, each
    // path holds what it held, except for at most as many paths as calls of the files failed. Where
    // no error was reported, at most one call failed, and that left the journal there.
    ensures back { RestoresEdits host.old.env.now (names_of words.now) → F.tells → L.tells
        → BringsBack
        (files_seen (string_bytes place.journal) (files_view F.Files files)
        (files_view L.Files lockfiles) 0)
        (files_seen (string_bytes place.journal) (files_view F.Files result.1)
        (files_view L.Files result.2) result.3) }
    ensures few { host.new.term.now.error ≡ false
        → OnlyEndFailed F.Files (spot_of place) (F.bytes_at files) (F.bytes_at result.1) result.3 }

    // And these are paths whose writes were refused: a lockfile's by `lockfiles`, any other's by
    // `files`, or it couldn't be kept. A failed read leaves no path changed.
    ensures spoilt { RestoresEdits host.old.env.now (names_of words.now) → KeepsAllBut
        (λ paths. AreJust (HoldsByKind (IsRefusedOrUnkept F.Files U.Unkept) (IsRefused L.Files))
        paths 0 result.3)
        (F.tells × L.tells)
        (contents_seen (string_bytes place.journal) (F.bytes_at files) (L.bytes_at lockfiles))
        (contents_seen (string_bytes place.journal) (F.bytes_at result.1) (L.bytes_at result.2)) }

    // The number of failed calls is no greater than what `files`, `lockfiles` and `unkept` count, and
    // no less than what the last two do.
    ensures number { IsAccounted (F.failed files) (F.failed result.1)
        (L.failed lockfiles) (L.failed result.2)
        (U.told unkept) (U.told result.4) result.3 }

    // It is known whether a write of a lockfile was refused.
    ensures unwritten { NotesRefusals L.Files lockfiles result.2 false result.5 }

    // The journal is removed: where none existed before, edits don't stay and no call failed, none
    // exists at the end.
    ensures gone { RestoresEdits host.old.env.now (names_of words.now)
        → F.tells → F.whole → L.tells → result.3 ≡ 0
        → F.bytes_at files (string_bytes place.journal) ≡ None
        → F.bytes_at result.1 (string_bytes place.journal) ≡ None }

    // So it is where each path but lockfiles holds what it held, unless a look of the end fails, at
    // the journal or at a path that it keeps, or a file of the journal can't be removed.
    ensures ended { F.tells → F.whole → KeepsOtherFiles
        (without (string_bytes place.journal) (F.bytes_at files))
        (without (string_bytes place.journal) (F.bytes_at result.1))
        → F.bytes_at files (string_bytes place.journal) ≡ None
        → (F.bytes_at result.1 (string_bytes place.journal) ≡ None)
        ⊎ IsWhyItStays F.Files (spot_of place) (F.bytes_at files) (F.bytes_at result.1) }

    // What each single call of the files and of the lockfiles keeps is kept by all of them. Through
    // `lockfiles` no other file is changed, and through `files` no lockfile.
    ensures stays { F.stays files result.1 × L.stays lockfiles result.2 }
    ensures others { L.tells
        → KeepsOtherFiles (L.bytes_at lockfiles) (L.bytes_at result.2) }
    ensures apart { F.tells → KeepsLockfiles
        (without (string_bytes place.journal) (F.bytes_at files))
        (without (string_bytes place.journal) (F.bytes_at result.1)) }

    // And just what `run` says is said, over files that show just the changes of these, also where an
    // error was reported.
    ensures shown { C.tells → SaysCallOver ⟦<Apart<Journaled<F, U>, L> as Files>⟧
        (files_seen (string_bytes place.journal) (files_view F.Files files)
        (files_view L.Files lockfiles) 0)
        (files_seen (string_bytes place.journal) (files_view F.Files result.1)
        (files_view L.Files result.2) result.3)
        C.tells (names_of words.now) host.old.env.now
        (looks_of host.old.term.now) (looks_of host.new.term.now)
        (scene_on C.Caller O.Sink E.Sink host.old) (scene_on C.Caller O.Sink E.Sink host.new) }

    // After each front of its changes each path holds what it held at first, or the journal has it:
    // wherever the call is interrupted, `recover` restores everything.
    ensures safe { F.tells → F.whole → F.bytes_at files (string_bytes place.journal) ≡ None
        → StaysSafe (spot_of place) (F.bytes_at files)
        (F.trace files) (F.trace result.1) (F.bytes_at files) (F.bytes_at result.1) }
{
    let mut files = Apart::new(Journaled::new(host.alloc, files, place, unkept), lockfiles);
    let status = run(words, reading, &mut files, host);
    let known = files.failures();
    let failed = end_journal(&mut files.files, known);
    let unwritten = files.is_unwritten;
    let (below, unkept) = files.files.into_inner();
    (status, below, files.lockfiles, failed, unkept, unwritten)
}

/// Removes the journal where all files are restored, and returns the number of failed calls, with
/// an error of that counted. What the journal still has to keep is left to the next call.
fn end_journal<F: JournalFiles, U: Unkept>(files: &mut Journaled<F, U>, failed: u64) -> u64
    ensures handed { F.stays files.old.files files.new.files }
    ensures place { spot_in files.new ≡ spot_in files.old }
    ensures failed { (result ≡ failed) ⊎ ((result ≡ min (failed + 1) (2 ^ 64 - 1))
        × CannotEnd F.Files files.old.notes files.old.files files.new.files) }
    ensures counted { (k : ℕ) × GrowsBy k (F.failed files.old.files) (F.failed files.new.files)
        × GrowsBy k failed result }
    ensures unkept { files.new.unkept ≡ files.old.unkept }
    ensures others { F.tells → KeepsBeside files.old.notes.journal
        (length files.old.notes.entries + 1)
        (F.bytes_at files.old.files) (F.bytes_at files.new.files) }
    ensures only { F.whole → RemovesOwn files.old.notes.journal (F.trace files.old.files)
        (F.trace files.new.files) (F.bytes_at files.old.files) (F.bytes_at files.new.files) }
    ensures stays { F.tells → F.whole → Stays (spot_in files.old)
        files.old.notes.entries files.new.notes.entries
        (F.trace files.old.files) (F.trace files.new.files)
        (F.bytes_at files.old.files) (F.bytes_at files.new.files) }
    ensures gone { result ≡ 0 → F.tells
        → AreBack files.old.notes.entries (F.bytes_at files.old.files)
        → F.bytes_at files.new.files files.old.notes.journal ≡ None }
    ensures ended { F.tells → AreBack files.old.notes.entries (F.bytes_at files.old.files)
        → (F.bytes_at files.new.files files.old.notes.journal ≡ None)
        ⊎ CannotEnd F.Files files.old.notes files.old.files files.new.files }
{
    match files.finish() {
        Ok(_) => failed,
        Err(_) => failed.saturating_add(1),
    }
}
