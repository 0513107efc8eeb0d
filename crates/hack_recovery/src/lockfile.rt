//! The copy of the lockfile that is kept while manifests are edited, since cargo rewrites the
//! lockfile meanwhile.
//!
//! A guard acts at once, so it gives the lockfile back what the copy has. Any later call can't tell
//! cargo's change from a person's, so it leaves the lockfile as it is.

ghost use Rattle.std.specs.Prelude.{◌≡◌, ◌≢◌, ◌⊎◌, [], None, Ok, Some, false};
ghost use Rattle.std.specs.Prelude.{string_bytes, true};
ghost use Rattle.std.specs.Option.{option_or};
ghost use Rattle.hack_base.specs.Streams.{stream_of};
ghost use Rattle.hack_base.specs.Counters.{GrowsBy};
ghost use Rattle.hack_base.specs.Names.{Name};
ghost use Rattle.hack_files.specs.Files.{CountsFailedCall, KeepsAll, KeepsOthers, Makes};
ghost use Rattle.hack_files.specs.Files.{MakesOrNot, puts, removes};
ghost use Rattle.hack_journal.specs.FailedCalls.{FailsUnseenAt};
ghost use Rattle.hack_journal.specs.Refusing.{IsRefused};
ghost use Rattle.hack_places.specs.FileLooks.{Unchanged};
ghost use Rattle.hack_places.specs.Folders.{leaves_out};
ghost use Rattle.hack_places.specs.PlacesView.{places_view};
ghost use Rattle.hack_recovery.specs.Restoring.{EndsCopying, copy_of};
ghost use Rattle.hack_recovery.specs.Scenes.{OneMayFail};
ghost use Rattle.hack_recovery.specs.Telling.{SaysFailed, SaysIfNotDone, SaysOfLockfile};
ghost use Rattle.hack_recovery.specs.Telling.{SaysSettling, Tells};
ghost use Rattle.hack_files.specs.View.{files_view};
ghost use Rattle.hack_run.specs.Worlds.{IsSameHost, host_view};

use crate::fault::CallFault;
use crate::restore::tell_restored;
use hack_base::paths::under;
use hack_base::writes::Sink;
use hack_files::fs::{FileFault, Files, JournalFiles};
use hack_files::reason::tell_reason;
use hack_journal::contents::look;
use hack_journal::entries::same;
use hack_places::look::LookFault;
use hack_places::places::Places;
use hack_places::workspace::leaves_out;
use hack_process::process::Caller;
use hack_run::host::Host;
use hack_term::term::Term;
use std::alloc::Global;

/// Copies the lockfile, if there is one, unless the workspace leaves out the call's package.
/// Returns whether that is done; if not, an error was reported.
#[tactic(auto, using(crate::proofs::CountLemmas::counts))]
pub(crate) fn keep_copy<F: Files, L: Files, E: Sink>(
    alloc: Global,
    places: &Places,
    files: &mut F,
    lockfiles: &mut L,
    term: &mut Term,
    err: &mut E,
) -> Result<bool, CallFault>
    ensures told { Tells term.old term.new result }
    ensures copied { result ≡ Ok true → F.tells → L.tells
        → F.bytes_at files.new (string_bytes places.now.copy)
        ≡ copy_of F.Files L.Files (places_view places.now)
        (F.bytes_at files.old) (L.bytes_at lockfiles.old) }
    ensures ends { EndsCopying F.Files L.Files (places_view places.now) term.old.coloring
        (F.failed files.old) (F.failed files.new)
        (L.failed lockfiles.old) (L.failed lockfiles.new) result
        (stream_of E.Sink err.old) (stream_of E.Sink err.new) }
    ensures others { F.tells → KeepsOthers (string_bytes places.now.copy)
        (F.bytes_at files.old) (F.bytes_at files.new) }
    ensures made { F.whole → Makes [] (F.trace files.old) (F.trace files.new)
        (F.bytes_at files.old) (F.bytes_at files.new)
        ⊎ ((bytes : Name) × (F.tells → leaves_out (F.bytes_at files.old)
        (string_bytes places.now.found) (string_bytes places.now.pkg_dir) ≡ false)
        × (L.tells → L.bytes_at lockfiles.old
        (string_bytes places.now.lockfile) ≡ Some bytes)
        × MakesOrNot (puts (string_bytes places.now.copy) bytes)
        (F.trace files.old) (F.trace files.new) (F.bytes_at files.old) (F.bytes_at files.new)) }
    ensures undone { result ≢ Ok true → Unchanged F.tells F.whole
        (files_view F.Files files.old) (files_view F.Files files.new)
        ⊎ IsRefused F.Files (string_bytes places.now.copy) }
    ensures same { L.tells → KeepsAll (L.bytes_at lockfiles.old) (L.bytes_at lockfiles.new) }
    ensures untraced { L.whole → Makes [] (L.trace lockfiles.old) (L.trace lockfiles.new)
        (L.bytes_at lockfiles.old) (L.bytes_at lockfiles.new) }
{
    match leaves_out(alloc, places.found.as_str(), places.pkg_dir.as_str(), files) {
        Ok(true) => Ok(true),
        Ok(false) => copy_lockfile(alloc, places, files, lockfiles, term, err),
        Err(LookFault::Memory) => Err(CallFault::Memory),
        Err(LookFault::Device(path)) => {
            tell_failed(alloc, path.as_str(), files, term, err);
            Ok(false)
        }
    }
}

/// Copies the lockfile, if there is one.
#[tactic(auto, using(crate::proofs::CountLemmas::counts))]
fn copy_lockfile<F: Files, L: Files, E: Sink>(
    alloc: Global,
    places: &Places,
    files: &mut F,
    lockfiles: &mut L,
    term: &mut Term,
    err: &mut E,
) -> Result<bool, CallFault>
    ensures told { Tells term.old term.new result }
    ensures copied { result ≡ Ok true → F.tells → L.tells
        → F.bytes_at files.new (string_bytes places.now.copy)
        ≡ option_or (L.bytes_at lockfiles.old (string_bytes places.now.lockfile))
        (F.bytes_at files.old (string_bytes places.now.copy)) }
    ensures ends { EndsCopying F.Files L.Files (places_view places.now) term.old.coloring
        (F.failed files.old) (F.failed files.new)
        (L.failed lockfiles.old) (L.failed lockfiles.new) result
        (stream_of E.Sink err.old) (stream_of E.Sink err.new) }
    ensures others { F.tells → KeepsOthers (string_bytes places.now.copy)
        (F.bytes_at files.old) (F.bytes_at files.new) }
    ensures made { F.whole → Makes [] (F.trace files.old) (F.trace files.new)
        (F.bytes_at files.old) (F.bytes_at files.new)
        ⊎ ((bytes : Name) × (L.tells → L.bytes_at lockfiles.old
        (string_bytes places.now.lockfile) ≡ Some bytes)
        × MakesOrNot (puts (string_bytes places.now.copy) bytes)
        (F.trace files.old) (F.trace files.new) (F.bytes_at files.old) (F.bytes_at files.new)) }
    ensures undone { result ≢ Ok true → Unchanged F.tells F.whole
        (files_view F.Files files.old) (files_view F.Files files.new)
        ⊎ IsRefused F.Files (string_bytes places.now.copy) }
    ensures same { L.tells → KeepsAll (L.bytes_at lockfiles.old) (L.bytes_at lockfiles.new) }
    ensures untraced { L.whole → Makes [] (L.trace lockfiles.old) (L.trace lockfiles.new)
        (L.bytes_at lockfiles.old) (L.bytes_at lockfiles.new) }
{
    let lockfile = places.lockfile.as_str();
    let copy = places.copy.as_str();
    match look(alloc, lockfiles, lockfile) {
        Ok(None) => Ok(true),
        Ok(Some(bytes)) => match files.write(copy, &bytes) {
            Ok(()) => Ok(true),
            Err(fault) => tell_fault(alloc, copy, fault, files, term, err),
        },
        Err(fault) => tell_fault(alloc, lockfile, fault, lockfiles, term, err),
    }
}

/// Gives the lockfile back what its copy has, where the guard calls, and removes the copy. Returns
/// whether that is done; if not, an error was reported.
#[tactic(auto, using(crate::proofs::CountLemmas::counts))]
pub(crate) fn settle<F: JournalFiles, L: Files, C: Caller, O: Sink, E: Sink>(
    places: &Places,
    files: &mut F,
    lockfiles: &mut L,
    host: &mut Host<'_, C, O, E>,
) -> Result<bool, CallFault>
    ensures host { IsSameHost host.old host.new }
    ensures view { host_view C.Caller O.Sink host.new
        ≡ record (host_view C.Caller O.Sink host.old) { term = host.new.term.now } }
    ensures told { Tells host.old.term.now host.new.term.now result }

    // The copy is gone, no other file is changed, and the guard gives the lockfile what it has.
    ensures gone { result ≡ Ok true → F.tells
        → F.bytes_at files.new (string_bytes places.now.copy) ≡ None }
    ensures counted { result ≡ Ok true → GrowsBy 0 (F.failed files.old) (F.failed files.new) }
    ensures lockfiles_counted { result ≡ Ok true
        → GrowsBy 0 (L.failed lockfiles.old) (L.failed lockfiles.new) }
    ensures others { F.tells → KeepsOthers (string_bytes places.now.copy)
        (F.bytes_at files.old) (F.bytes_at files.new) }
    ensures made { F.whole → MakesOrNot (removes (string_bytes places.now.copy))
        (F.trace files.old) (F.trace files.new) (F.bytes_at files.old) (F.bytes_at files.new) }
    ensures given { result ≡ Ok true → host.old.env.now.by_guard ≡ true → F.tells → L.tells
        → (bytes : Name) → F.bytes_at files.old (string_bytes places.now.copy) ≡ Some bytes
        → L.bytes_at lockfiles.new (string_bytes places.now.lockfile) ≡ Some bytes }

    // Whatever comes of it, at most one call of the files failed, and one of the lockfiles; and the
    // guard leaves the copy, or the lockfile has what it had.
    ensures failed { OneMayFail (F.failed files.old) (F.failed files.new) }
    ensures lockfiles_failed { OneMayFail (L.failed lockfiles.old) (L.failed lockfiles.new) }
    ensures kept { host.old.env.now.by_guard ≡ true → F.tells → L.tells
        → (bytes : Name) → F.bytes_at files.old (string_bytes places.now.copy) ≡ Some bytes
        → (F.bytes_at files.new (string_bytes places.now.copy) ≡ Some bytes)
        ⊎ (L.bytes_at lockfiles.new (string_bytes places.now.lockfile) ≡ Some bytes) }

    // The lockfile holds what it held, or what the copy has, unless its own write was refused.
    ensures only { L.tells → (L.bytes_at lockfiles.new (string_bytes places.now.lockfile)
        ≡ L.bytes_at lockfiles.old (string_bytes places.now.lockfile))
        ⊎ ((F.tells → L.bytes_at lockfiles.new (string_bytes places.now.lockfile)
        ≡ F.bytes_at files.old (string_bytes places.now.copy))
        ⊎ IsRefused L.Files (string_bytes places.now.lockfile)) }

    // Nobody else changes it, and nobody where there is no copy.
    ensures left { host.old.env.now.by_guard ≡ false → L.tells
        → KeepsAll (L.bytes_at lockfiles.old) (L.bytes_at lockfiles.new) }
    ensures none { F.tells → F.bytes_at files.old (string_bytes places.now.copy) ≡ None
        → L.tells → KeepsAll (L.bytes_at lockfiles.old) (L.bytes_at lockfiles.new) }
    ensures apart { L.tells → KeepsOthers (string_bytes places.now.lockfile)
        (L.bytes_at lockfiles.old) (L.bytes_at lockfiles.new) }
    ensures untraced { host.old.env.now.by_guard ≡ false → L.whole
        → Makes [] (L.trace lockfiles.old) (L.trace lockfiles.new)
        (L.bytes_at lockfiles.old) (L.bytes_at lockfiles.new) }
    ensures wrote { L.whole → Makes [] (L.trace lockfiles.old) (L.trace lockfiles.new)
        (L.bytes_at lockfiles.old) (L.bytes_at lockfiles.new)
        ⊎ ((bytes : Name) × (F.tells → F.bytes_at files.old (string_bytes places.now.copy)
        ≡ Some bytes) × MakesOrNot (puts (string_bytes places.now.lockfile) bytes)
        (L.trace lockfiles.old) (L.trace lockfiles.new)
        (L.bytes_at lockfiles.old) (L.bytes_at lockfiles.new)) }
    ensures said { SaysSettling F.Files L.Files (places_view places.now) host.old.env.now.by_guard
        (string_bytes host.old.env.now.current_dir) host.old.term.now.coloring
        (files_view F.Files files.old) (files_view F.Files files.new)
        (files_view L.Files lockfiles.old) (files_view L.Files lockfiles.new) result
        (stream_of E.Sink host.old.err.now) (stream_of E.Sink host.new.err.now) }
    ensures still { (host.new.caller.now ≡ host.old.caller.now)
        × (host.new.out.now ≡ host.old.out.now) }
{
    let bytes = match look(host.alloc, files, places.copy.as_str()) {
        Ok(None) => return Ok(true),
        Ok(Some(bytes)) => bytes,
        Err(fault) => return tell_fault(
            host.alloc,
            places.copy.as_str(),
            fault,
            files,
            host.term,
            host.err,
        ),
    };
    let is_settled = if host.env.by_guard {
        give_back(&bytes, places, lockfiles, host)?
    } else {
        leave(&bytes, places, lockfiles, host)?
    };
    if !is_settled {
        return Ok(false);
    }
    drop_copy(host.alloc, places, files, host.term, host.err)
}

/// Gives the lockfile these bytes, and reports it, unless it holds them: then it is written all the
/// same, since a write on the disk removes what an interrupted one left beside it.
#[tactic(auto, using(crate::proofs::CountLemmas::counts))]
fn give_back<L: Files, C: Caller, O: Sink, E: Sink>(
    bytes: &[u8],
    places: &Places,
    lockfiles: &mut L,
    host: &mut Host<'_, C, O, E>,
) -> Result<bool, CallFault>
    ensures host { IsSameHost host.old host.new }
    ensures view { host_view C.Caller O.Sink host.new
        ≡ record (host_view C.Caller O.Sink host.old) { term = host.new.term.now } }
    ensures told { Tells host.old.term.now host.new.term.now result }
    ensures given { result ≡ Ok true → L.tells
        → L.bytes_at lockfiles.new (string_bytes places.now.lockfile) ≡ Some bytes.now }
    ensures only { L.tells → (L.bytes_at lockfiles.new (string_bytes places.now.lockfile)
        ≡ L.bytes_at lockfiles.old (string_bytes places.now.lockfile))
        ⊎ ((L.bytes_at lockfiles.new (string_bytes places.now.lockfile) ≡ Some bytes.now)
        ⊎ IsRefused L.Files (string_bytes places.now.lockfile)) }
    ensures counted { result ≡ Ok true
        → GrowsBy 0 (L.failed lockfiles.old) (L.failed lockfiles.new) }
    ensures failed { OneMayFail (L.failed lockfiles.old) (L.failed lockfiles.new) }
    ensures apart { L.tells → KeepsOthers (string_bytes places.now.lockfile)
        (L.bytes_at lockfiles.old) (L.bytes_at lockfiles.new) }
    ensures wrote { L.whole → MakesOrNot (puts (string_bytes places.now.lockfile) bytes.now)
        (L.trace lockfiles.old) (L.trace lockfiles.new)
        (L.bytes_at lockfiles.old) (L.bytes_at lockfiles.new) }
    ensures said { SaysOfLockfile L.Files true host.old.term.now.coloring
        (string_bytes host.old.env.now.current_dir) (string_bytes places.now.lockfile) bytes.now
        (files_view L.Files lockfiles.old) (files_view L.Files lockfiles.new) result
        (stream_of E.Sink host.old.err.now) (stream_of E.Sink host.new.err.now) }
    ensures still { (host.new.caller.now ≡ host.old.caller.now)
        × (host.new.out.now ≡ host.old.out.now) }
{
    let path = places.lockfile.as_str();
    let is_back = match holds(host.alloc, path, bytes, lockfiles) {
        Ok(is_back) => is_back,
        Err(fault) => return tell_fault(host.alloc, path, fault, lockfiles, host.term, host.err),
    };
    match lockfiles.write(path, bytes) {
        Ok(()) if is_back => Ok(true),
        Ok(()) => {
            tell_restored(host.env.current_dir.as_str(), path, host.term, host.err);
            Ok(true)
        }
        Err(fault) => tell_fault(host.alloc, path, fault, lockfiles, host.term, host.err),
    }
}

/// Leaves the lockfile as it is, and reports that where it doesn't hold these bytes.
fn leave<L: Files, C: Caller, O: Sink, E: Sink>(
    bytes: &[u8],
    places: &Places,
    lockfiles: &mut L,
    host: &mut Host<'_, C, O, E>,
) -> Result<bool, CallFault>
    ensures host { IsSameHost host.old host.new }
    ensures view { host_view C.Caller O.Sink host.new
        ≡ record (host_view C.Caller O.Sink host.old) { term = host.new.term.now } }
    ensures told { Tells host.old.term.now host.new.term.now result }
    ensures counted { result ≡ Ok true
        → GrowsBy 0 (L.failed lockfiles.old) (L.failed lockfiles.new) }
    ensures failed { OneMayFail (L.failed lockfiles.old) (L.failed lockfiles.new) }
    ensures same { L.tells → KeepsAll (L.bytes_at lockfiles.old) (L.bytes_at lockfiles.new) }
    ensures untraced { L.whole → Makes [] (L.trace lockfiles.old) (L.trace lockfiles.new)
        (L.bytes_at lockfiles.old) (L.bytes_at lockfiles.new) }
    ensures said { SaysOfLockfile L.Files false host.old.term.now.coloring
        (string_bytes host.old.env.now.current_dir) (string_bytes places.now.lockfile) bytes.now
        (files_view L.Files lockfiles.old) (files_view L.Files lockfiles.new) result
        (stream_of E.Sink host.old.err.now) (stream_of E.Sink host.new.err.now) }
    ensures still { (host.new.caller.now ≡ host.old.caller.now)
        × (host.new.out.now ≡ host.old.out.now) }
{
    let path = places.lockfile.as_str();
    match holds(host.alloc, path, bytes, lockfiles) {
        Ok(true) => Ok(true),
        Ok(false) => {
            let path = under(path, host.env.current_dir.as_str());
            let after = "` as it is: in the interrupted call cargo may have changed it";
            let _ = host.term.info_of("left `", path, after, host.err);
            Ok(true)
        }
        Err(fault) => tell_fault(host.alloc, path, fault, lockfiles, host.term, host.err),
    }
}

/// Whether a path holds these bytes.
fn holds<F: Files>(
    alloc: Global,
    path: &str,
    bytes: &[u8],
    files: &mut F,
) -> Result<bool, FileFault>
    ensures held { result ≡ Ok true → F.tells → F.bytes_at files.new path.now ≡ Some bytes.now }
    ensures holds { result ≡ Ok true → F.tells → F.bytes_at files.old path.now ≡ Some bytes.now }
    ensures other { result ≡ Ok false → F.tells
        → F.bytes_at files.old path.now ≢ Some bytes.now }
    ensures counted { CountsFailedCall (F.failed files.old) (F.failed files.new) result }
    ensures unseen { FailsUnseenAt F.Files path.now files.old files.new result }
    ensures same { F.tells → KeepsAll (F.bytes_at files.old) (F.bytes_at files.new) }
    ensures untraced { F.whole → Makes [] (F.trace files.old) (F.trace files.new)
        (F.bytes_at files.old) (F.bytes_at files.new) }
{
    let held = look(alloc, files, path)?;
    Ok(same(held.as_deref(), Some(bytes)))
}

/// Removes the copy. Returns whether that is done; if not, an error was reported.
fn drop_copy<F: JournalFiles, E: Sink>(
    alloc: Global,
    places: &Places,
    files: &mut F,
    term: &mut Term,
    err: &mut E,
) -> Result<bool, CallFault>
    ensures told { Tells term.old term.new result }
    ensures gone { result ≡ Ok true → F.tells
        → F.bytes_at files.new (string_bytes places.now.copy) ≡ None }
    ensures counted { result ≡ Ok true → GrowsBy 0 (F.failed files.old) (F.failed files.new) }
    ensures failed { OneMayFail (F.failed files.old) (F.failed files.new) }
    ensures others { F.tells → KeepsOthers (string_bytes places.now.copy)
        (F.bytes_at files.old) (F.bytes_at files.new) }
    ensures made { F.whole → MakesOrNot (removes (string_bytes places.now.copy))
        (F.trace files.old) (F.trace files.new) (F.bytes_at files.old) (F.bytes_at files.new) }
    ensures said { SaysIfNotDone (GrowsBy 1 (F.failed files.old) (F.failed files.new)
        × IsRefused F.Files (string_bytes places.now.copy))
        term.old.coloring (string_bytes places.now.copy) result
        (stream_of E.Sink err.old) (stream_of E.Sink err.new) }
{
    let copy = places.copy.as_str();
    match files.remove(copy) {
        Ok(()) => Ok(true),
        Err(fault) => tell_fault(alloc, copy, fault, files, term, err),
    }
}

/// Reports that one of these files can't be read or written, and why.
fn tell_fault<F: Files, E: Sink>(
    alloc: Global,
    path: &str,
    fault: FileFault,
    files: &F,
    term: &mut Term,
    err: &mut E,
) -> Result<bool, CallFault>
    ensures told { Tells term.old term.new result }
    ensures never { result ≢ Ok true }
    ensures said { SaysFailed term.old.coloring path.now result
        (stream_of E.Sink err.old) (stream_of E.Sink err.new) }
{
    match fault {
        FileFault::Memory => Err(CallFault::Memory),
        FileFault::Device => {
            tell_failed(alloc, path, files, term, err);
            Ok(false)
        }
    }
}

/// Reports why these files failed, and at which path.
fn tell_failed<F: Files, E: Sink>(
    alloc: Global,
    path: &str,
    files: &F,
    term: &mut Term,
    err: &mut E,
)
    ensures noted { term.new ≡ record term.old { error = true } }
    ensures said { SaysFailed term.old.coloring path.now (Ok false)
        (stream_of E.Sink err.old) (stream_of E.Sink err.new) }
{
    tell_reason(alloc, files, term, err);
    let _ = term.error_of("failed to read or write file `", path, "`", err);
}
