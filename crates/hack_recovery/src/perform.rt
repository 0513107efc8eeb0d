//! A whole call: what an interrupted one left is restored first, and what this one edits is kept in
//! a journal meanwhile, under the eyes of a guard.

ghost use Rattle.std.specs.Prelude.{◌≡◌, ◌↔◌, ℕ, IfSome, IsTrue, Ok, false, not, string_bytes};
ghost use Rattle.std.specs.Prelude.{true};
ghost use Rattle.hack_base.specs.Names.{names_of};
ghost use Rattle.hack_base.specs.Streams.{Stream, stream_of};
ghost use Rattle.hack_journal.specs.Rows.{spot_of};
ghost use Rattle.hack_journaled.specs.Journals.{contents_seen};
ghost use Rattle.hack_words.specs.Edits.{is_restore};
ghost use Rattle.hack_recovery.specs.CallCourses.{Continues, IsCallCourse, RunsOverJournal};
ghost use Rattle.hack_recovery.specs.CallCourses.{CopiesAndRuns, IsJournaledCall, IsLockedCourse};
ghost use Rattle.hack_recovery.specs.CallCourses.{PerformsUnjournaled};
ghost use Rattle.hack_recovery.specs.GuardEvents.{GuardsView};
ghost use Rattle.hack_recovery.specs.LaneCalls.{AreItsPlaces, AsksToRestore, HostInLanes};
ghost use Rattle.hack_recovery.specs.LockEvents.{LocksView};
ghost use Rattle.hack_places.specs.PlacesView.{places_view};
ghost use Rattle.hack_recovery.specs.Restoring.{TakesBack};
ghost use Rattle.hack_recovery.specs.Scenes.{Refuses, scene_beside, scene_of, scene_with};
ghost use Rattle.hack_recovery.specs.Telling.{SaysStanding, SaysUnrestored};
ghost use Rattle.hack_run.specs.Lanes.{IsLaneCall};
ghost use Rattle.hack_run.specs.Readings.{IsEarlyReading};
ghost use Rattle.hack_files.specs.View.{FilesView, files_view};
ghost use Rattle.hack_run.specs.Worlds.{IsSameHost, IsStatus, host_view};

use crate::admit::{Standing, Way, admit};
use crate::begin::{Begun, Halt, begin};
use crate::closing::{close, tell_unkept};
use crate::fault::CallFault;
use crate::guards::Guards;
use crate::keepers::Keepers;
use crate::lockfile::{keep_copy, settle};
use crate::locks::Locks;
use crate::restore::restore;
use crate::tell::{tell_standing, tell_unrestored, tell_watch};
use crate::unjournaled::unjournaled;
use crate::unseen::blindly;
use hack_base::writes::Sink;
use hack_files::fs::{Files, JournalFiles};
use hack_journal::apart::Apart;
use hack_journal::journaled::Journaled;
use hack_journal::unkept::Unkept;
use hack_journaled::journaled::run_journaled;
use hack_places::places::Places;
use hack_process::process::Caller;
use hack_run::host::Host;
use hack_starts::starts::Starts;
use hack_term::term::Term;
use hack_words::cli::Edits;

/// Performs a call as `run` does, and returns its exit status, the files, the lockfiles and
/// `unkept`. Unless it only prints, it first restores what an interrupted call left edited, where
/// no other call is running; with `--restore` that is all. Where it edits manifests and restores
/// them itself, it keeps a journal of its edits, under a lock of its workspace's folder, and a
/// guard restores them where it ends early. `files` and `lockfiles` are the same file system;
/// `unkept` is told of what the journal refuses on its own, which a `u64` counts.
pub fn perform<
    F: JournalFiles,
    L: Files,
    U: Unkept,
    K: Locks,
    G: Guards,
    C: Starts,
    O: Sink,
    E: Sink,
>(
    words: &[String],
    files: F,
    lockfiles: L,
    unkept: U,
    keepers: &mut Keepers<K, G>,
    host: &mut Host<'_, C, O, E>,
) -> (u8, F, L, U)
    ensures host { IsSameHost host.old host.new }
    ensures status { IsStatus host.old.env.now.deny_warnings
        (host_view C.Caller O.Sink host.new) result.0 }
    ensures goes { IsCallCourse F.Files L.Files U.Unkept
        ⟦<Apart<Journaled<F, U>, L> as Files>⟧ C.tells K.tells G.tells
        (K.real keepers.old.locks) (names_of words.now) host.old.env.now
        (scene_of F.Files L.Files U.Unkept C.Caller O.Sink E.Sink files lockfiles unkept
        (K.shown keepers.old.locks) (G.shown keepers.old.guards) host.old)
        (scene_of F.Files L.Files U.Unkept C.Caller O.Sink E.Sink result.1 result.2 result.3
        (K.shown keepers.new.locks) (G.shown keepers.new.guards) host.new) }

    // Commands were started by the rules of lanes alone, and none that was started is left; or the
    // call isn't performed, and nothing was started.
    ensures in_lanes { HostInLanes F.Files L.Files C.did C.Caller
        (AsksToRestore host.old.env.now (names_of words.now))
        (AreItsPlaces F.tells K.tells (K.real keepers.old.locks) (names_of words.now)
        host.old.env.now (files_view F.Files files)) (names_of words.now)
        files lockfiles host.old host.new }
{
    let mut files = files;
    let begun = match begin(host.alloc, words, host.env, &mut files, &keepers.locks) {
        Ok(begun) => begun,
        Err(Halt::Memory) => {
            let status = report(CallFault::Memory, host);
            return (status, files, lockfiles, unkept);
        }
        Err(Halt::Prints(reading)) => {
            let status = unjournaled(words, reading, &mut files, host);
            return (status, files, lockfiles, unkept);
        }
        Err(Halt::Unseen { asked, path }) => {
            let status = blindly(words, asked, path.as_str(), &mut files, host);
            return (status, files, lockfiles, unkept);
        }
    };
    match admit(
        host.alloc,
        begun.edits,
        begun.places.place.folder.as_str(),
        begun.is_left,
        &mut keepers.locks,
    ) {
        Ok(Way::Plain(standing)) => {
            let status = plainly(words, begun, standing, &mut files, host);
            (status, files, lockfiles, unkept)
        }
        Ok(Way::Guarded) => guarded(words, begun, files, lockfiles, unkept, keepers, host),
        Err(fault) => (report(fault, host), files, lockfiles, unkept),
    }
}

/// Reports why the call isn't performed, and returns its exit status.
fn report<C: Caller, O: Sink, E: Sink>(fault: CallFault, host: &mut Host<'_, C, O, E>) -> u8
    ensures host { IsSameHost host.old host.new }
    ensures status { IsStatus host.old.env.now.deny_warnings
        (host_view C.Caller O.Sink host.new) result }
    ensures view { host_view C.Caller O.Sink host.new
        ≡ record (host_view C.Caller O.Sink host.old) { term = host.new.term.now } }
    ensures noted { host.new.term.now ≡ record host.old.term.now { error = true } }
    ensures refuses { (files lockfiles : FilesView) (unkept : ℕ)
        (locks : LocksView) (guards : GuardsView) → Refuses fault
        (scene_beside C.Caller O.Sink E.Sink files lockfiles unkept locks guards host.old)
        (scene_beside C.Caller O.Sink E.Sink files lockfiles unkept locks guards host.new) }
    ensures still { (host.new.caller.now ≡ host.old.caller.now)
        × (host.new.out.now ≡ host.old.out.now) }
{
    let _ = host.term.error(fault.text(), host.err);
    host.status()
}

/// Performs a call without a journal, after it is said whose edits may stand. Where it is to
/// restore, there is nothing that it may, which is said.
fn plainly<F: Files, C: Starts, O: Sink, E: Sink>(
    words: &[String],
    begun: Begun,
    standing: Standing,
    files: &mut F,
    host: &mut Host<'_, C, O, E>,
) -> u8
    requires { IfSome begun.reading (IsEarlyReading host.old.env.now (names_of words.now)) }
    ensures host { IsSameHost host.old host.new }
    ensures status { IsStatus host.old.env.now.deny_warnings
        (host_view C.Caller O.Sink host.new) result }
    ensures restores { is_restore begun.edits ≡ true
        → (files.new ≡ files.old) × (host_view C.Caller O.Sink host.new
        ≡ record (host_view C.Caller O.Sink host.old) { term = host.new.term.now }) }
    ensures said { is_restore begun.edits ≡ true
        → SaysUnrestored host.old.env.now.by_guard begun.is_left
        host.old.term.now host.new.term.now
        (stream_of E.Sink host.old.err.now) (stream_of E.Sink host.new.err.now) }
    ensures runs { is_restore begun.edits ≡ false → (term : Term) × (err : Stream)
        × SaysStanding standing host.old.term.now term (stream_of E.Sink host.old.err.now) err
        × ((lockfiles : FilesView) (unkept : ℕ) (locks : LocksView) (guards : GuardsView)
        → PerformsUnjournaled F.Files C.tells (names_of words.now) host.old.env.now
        (scene_with (files_view F.Files files.old) term err
        (scene_beside C.Caller O.Sink E.Sink (files_view F.Files files.old) lockfiles unkept
        locks guards host.old))
        (scene_beside C.Caller O.Sink E.Sink (files_view F.Files files.new) lockfiles unkept
        locks guards host.new)) }
    ensures still { is_restore begun.edits ≡ true
        → (host.new.caller.now ≡ host.old.caller.now) × (host.new.out.now ≡ host.old.out.now) }
    ensures in_lanes { is_restore begun.edits ≡ false → IsLaneCall C.did C.course C.tells C.calls
        (not host.new.term.now.error) F.tells (names_of words.now) host.old.env.now
        (F.bytes_at files.old) host.old.caller.now host.new.caller.now }
{
    if begun.edits == Edits::Restore {
        tell_unrestored(host.env.by_guard, begun.is_left, host.term, host.err);
        return host.status();
    }
    tell_standing(standing, host.term, host.err);
    unjournaled(words, begun.reading, files, host)
}

/// Performs a call under its own lock.
fn guarded<F: JournalFiles, L: Files, U: Unkept, K: Locks, G: Guards, C: Starts, O: Sink, E: Sink>(
    words: &[String],
    begun: Begun,
    files: F,
    lockfiles: L,
    unkept: U,
    keepers: &mut Keepers<K, G>,
    host: &mut Host<'_, C, O, E>,
) -> (u8, F, L, U)
    requires reading { IfSome begun.reading
        (IsEarlyReading host.old.env.now (names_of words.now)) }
    requires place { spot_of begun.place ≡ spot_of begun.places.place }
    ensures host { IsSameHost host.old host.new }
    ensures status { IsStatus host.old.env.now.deny_warnings
        (host_view C.Caller O.Sink host.new) result.0 }
    ensures goes { IsLockedCourse F.Files L.Files U.Unkept
        ⟦<Apart<Journaled<F, U>, L> as Files>⟧ C.tells K.tells G.tells
        (names_of words.now) host.old.env.now begun.edits (places_view begun.places)
        (scene_of F.Files L.Files U.Unkept C.Caller O.Sink E.Sink files lockfiles unkept
        (K.shown keepers.old.locks) (G.shown keepers.old.guards) host.old)
        (scene_of F.Files L.Files U.Unkept C.Caller O.Sink E.Sink result.1 result.2 result.3
        (K.shown keepers.new.locks) (G.shown keepers.new.guards) host.new) }
    ensures in_lanes { HostInLanes F.Files L.Files C.did C.Caller
        (begun.edits ≡ Edits.Restore) (λ places. places ≡ places_view begun.places)
        (names_of words.now) files lockfiles host.old host.new }
{
    let mut files = files;
    let mut lockfiles = lockfiles;
    match take_back(&begun.places, &mut files, &mut lockfiles, host) {
        Ok(is_back) => {
            if !is_back {
                return (host.status(), files, lockfiles, unkept);
            }
            go_on(words, begun, files, lockfiles, unkept, keepers, host)
        }
        Err(fault) => (report(fault, host), files, lockfiles, unkept),
    }
}

/// Restores all that an interrupted call left. Returns whether it is back; if not, an error was
/// reported.
fn take_back<F: JournalFiles, L: Files, C: Caller, O: Sink, E: Sink>(
    places: &Places,
    files: &mut F,
    lockfiles: &mut L,
    host: &mut Host<'_, C, O, E>,
) -> Result<bool, CallFault>
    ensures host { IsSameHost host.old host.new }
    ensures stopped { result ≡ Ok false → host.new.term.now.error ≡ true }
    ensures goes { (unkept : ℕ) (locks : LocksView) (guards : GuardsView)
        → TakesBack F.Files L.Files host.old.env.now (places_view places.now)
        (scene_beside C.Caller O.Sink E.Sink (files_view F.Files files.old)
        (files_view L.Files lockfiles.old) unkept locks guards host.old)
        (scene_beside C.Caller O.Sink E.Sink (files_view F.Files files.new)
        (files_view L.Files lockfiles.new) unkept locks guards host.new) result }
    ensures still { (host.new.caller.now ≡ host.old.caller.now)
        × (host.new.out.now ≡ host.old.out.now) }
{
    let dir = host.env.current_dir.as_str();
    let journal = restore(host.alloc, dir, &places.place, files, host.term, host.err);
    if !is_done(&journal) {
        return journal;
    }
    let older = restore(host.alloc, dir, &places.older, files, host.term, host.err);
    if !is_done(&older) {
        return older;
    }
    settle(places, files, lockfiles, host)
}

fn is_done(came: &Result<bool, CallFault>) -> bool
    ensures { IsTrue result ↔ (came.now ≡ Ok true) }
{
    match came {
        Ok(done) => *done,
        Err(_) => false,
    }
}

/// Performs a call under its own lock, where nothing of an interrupted call is left.
fn go_on<F: JournalFiles, L: Files, U: Unkept, K: Locks, G: Guards, C: Starts, O: Sink, E: Sink>(
    words: &[String],
    begun: Begun,
    files: F,
    lockfiles: L,
    unkept: U,
    keepers: &mut Keepers<K, G>,
    host: &mut Host<'_, C, O, E>,
) -> (u8, F, L, U)
    requires reading { IfSome begun.reading
        (IsEarlyReading host.old.env.now (names_of words.now)) }
    requires place { spot_of begun.place ≡ spot_of begun.places.place }
    ensures host { IsSameHost host.old host.new }
    ensures status { IsStatus host.old.env.now.deny_warnings
        (host_view C.Caller O.Sink host.new) result.0 }
    ensures goes { Continues F.Files L.Files U.Unkept
        ⟦<Apart<Journaled<F, U>, L> as Files>⟧ C.tells K.tells G.tells
        (names_of words.now) host.old.env.now begun.edits (places_view begun.places)
        (scene_of F.Files L.Files U.Unkept C.Caller O.Sink E.Sink files lockfiles unkept
        (K.shown keepers.old.locks) (G.shown keepers.old.guards) host.old)
        (scene_of F.Files L.Files U.Unkept C.Caller O.Sink E.Sink result.1 result.2 result.3
        (K.shown keepers.new.locks) (G.shown keepers.new.guards) host.new) }
    ensures in_lanes { HostInLanes F.Files L.Files C.did C.Caller
        (begun.edits ≡ Edits.Restore) (λ places. places ≡ places_view begun.places)
        (names_of words.now) files lockfiles host.old host.new }
{
    let mut files = files;
    match begun.edits {
        Edits::None => {
            keepers.locks.release();
            let status = unjournaled(words, begun.reading, &mut files, host);
            (status, files, lockfiles, unkept)
        }
        Edits::Permanent => {
            let status = unjournaled(words, begun.reading, &mut files, host);
            (status, files, lockfiles, unkept)
        }
        Edits::Temporary => {
            let guards = &mut keepers.guards;
            journaled(words, begun, files, lockfiles, unkept, guards, host)
        }
        Edits::Restore => {
            let status = host.status();
            (status, files, lockfiles, unkept)
        }
    }
}

/// Performs a call with a journal, under the eyes of a guard.
fn journaled<F: JournalFiles, L: Files, U: Unkept, G: Guards, C: Starts, O: Sink, E: Sink>(
    words: &[String],
    begun: Begun,
    files: F,
    lockfiles: L,
    unkept: U,
    guards: &mut G,
    host: &mut Host<'_, C, O, E>,
) -> (u8, F, L, U)
    requires reading { IfSome begun.reading
        (IsEarlyReading host.old.env.now (names_of words.now)) }
    requires place { spot_of begun.place ≡ spot_of begun.places.place }
    ensures host { IsSameHost host.old host.new }
    ensures status { IsStatus host.old.env.now.deny_warnings
        (host_view C.Caller O.Sink host.new) result.0 }
    ensures goes { (locks : LocksView) → IsJournaledCall F.Files L.Files U.Unkept
        ⟦<Apart<Journaled<F, U>, L> as Files>⟧ C.tells G.tells
        (names_of words.now) host.old.env.now (places_view begun.places)
        (scene_of F.Files L.Files U.Unkept C.Caller O.Sink E.Sink files lockfiles unkept locks
        (G.shown guards.old) host.old)
        (scene_of F.Files L.Files U.Unkept C.Caller O.Sink E.Sink result.1 result.2 result.3 locks
        (G.shown guards.new) host.new) }
    ensures in_lanes { HostInLanes F.Files L.Files C.did C.Caller
        (begun.edits ≡ Edits.Restore) (λ places. places ≡ places_view begun.places)
        (names_of words.now) files lockfiles host.old host.new }
{
    match guards.start(host.alloc, begun.places.place.folder.as_str()) {
        Ok(watches) => {
            tell_watch(watches, host.term, host.err);
            let ended = copied(words, begun, files, lockfiles, unkept, host);
            guards.leave(ended.0);
            ended
        }
        Err(fault) => (
            report(CallFault::from(fault), host),
            files,
            lockfiles,
            unkept,
        ),
    }
}

/// Performs a call with a journal, after the lockfile was copied.
fn copied<F: JournalFiles, L: Files, U: Unkept, C: Starts, O: Sink, E: Sink>(
    words: &[String],
    begun: Begun,
    files: F,
    lockfiles: L,
    unkept: U,
    host: &mut Host<'_, C, O, E>,
) -> (u8, F, L, U)
    requires reading { IfSome begun.reading
        (IsEarlyReading host.old.env.now (names_of words.now)) }
    requires place { spot_of begun.place ≡ spot_of begun.places.place }
    ensures host { IsSameHost host.old host.new }
    ensures status { IsStatus host.old.env.now.deny_warnings
        (host_view C.Caller O.Sink host.new) result.0 }
    ensures goes { (locks : LocksView) (guards : GuardsView) → CopiesAndRuns
        F.Files L.Files U.Unkept ⟦<Apart<Journaled<F, U>, L> as Files>⟧ C.tells
        (names_of words.now) host.old.env.now (places_view begun.places)
        (scene_of F.Files L.Files U.Unkept C.Caller O.Sink E.Sink files lockfiles unkept
        locks guards host.old)
        (scene_of F.Files L.Files U.Unkept C.Caller O.Sink E.Sink result.1 result.2 result.3
        locks guards host.new) }
    ensures in_lanes { HostInLanes F.Files L.Files C.did C.Caller
        (begun.edits ≡ Edits.Restore) (λ places. places ≡ places_view begun.places)
        (names_of words.now) files lockfiles host.old host.new }
{
    let mut files = files;
    let mut lockfiles = lockfiles;
    match keep_copy(
        host.alloc,
        &begun.places,
        &mut files,
        &mut lockfiles,
        host.term,
        host.err,
    ) {
        Ok(true) => over_journal(words, begun, files, lockfiles, unkept, host),
        Ok(false) => (host.status(), files, lockfiles, unkept),
        Err(fault) => (report(fault, host), files, lockfiles, unkept),
    }
}

/// Performs a call over a journal, and closes it.
#[tactic(auto, using(hack_run::proofs::ReadingLemmas::some_or_refusal))]
fn over_journal<F: JournalFiles, L: Files, U: Unkept, C: Starts, O: Sink, E: Sink>(
    words: &[String],
    begun: Begun,
    files: F,
    lockfiles: L,
    unkept: U,
    host: &mut Host<'_, C, O, E>,
) -> (u8, F, L, U)
    requires reading { IfSome begun.reading
        (IsEarlyReading host.old.env.now (names_of words.now)) }
    requires place { spot_of begun.place ≡ spot_of begun.places.place }
    ensures host { IsSameHost host.old host.new }
    ensures status { IsStatus host.old.env.now.deny_warnings
        (host_view C.Caller O.Sink host.new) result.0 }
    ensures goes { (locks : LocksView) (guards : GuardsView) → RunsOverJournal
        F.Files L.Files U.Unkept ⟦<Apart<Journaled<F, U>, L> as Files>⟧ C.tells
        (names_of words.now) host.old.env.now (places_view begun.places)
        (scene_of F.Files L.Files U.Unkept C.Caller O.Sink E.Sink files lockfiles unkept
        locks guards host.old)
        (scene_of F.Files L.Files U.Unkept C.Caller O.Sink E.Sink result.1 result.2 result.3
        locks guards host.new) }
    ensures in_lanes { IsLaneCall C.did C.course C.tells C.calls (not host.new.term.now.error)
        (F.tells × L.tells) (names_of words.now) host.old.env.now
        (contents_seen (string_bytes begun.place.journal) (F.bytes_at files) (L.bytes_at lockfiles))
        host.old.caller.now host.new.caller.now }
{
    let Begun {
        places,
        place,
        reading,
        ..
    } = begun;
    let noted = unkept.count();
    let (_, files, lockfiles, _, unkept, unwritten) = run_journaled(
        words, reading, files, lockfiles, place, unkept, host,
    );
    let mut files = files;
    let missed = noted != unkept.count();
    tell_unkept(places.place.journal.as_str(), missed, host.term, host.err);
    close(&places, unwritten, &mut files, host.term, host.err);
    (host.status(), files, lockfiles, unkept)
}
