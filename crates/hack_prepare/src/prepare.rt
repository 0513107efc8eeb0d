//! What is done to the files of a workspace before the runs of a call, and undone at its end.

ghost use Rattle.std.specs.Prelude.{◌≡◌, ◌<◌, ◌↔◌, ◌⊎◌, ◌||◌, IfErr, IfOk, IfSome, OnOk, IsTrue};
ghost use Rattle.std.specs.Prelude.{OnErr, List, false, map, option_map, true};
ghost use Rattle.hack_files.specs.Files.{Change, Contents, Grows, Makes};
ghost use Rattle.hack_base.specs.Counters.{GrowsBy};
ghost use Rattle.hack_files.specs.Restore.{AreSafe, Brings, ComesBackBut, Tried, is_kept};
ghost use Rattle.hack_files.specs.Restore.{paths, registered_files};
ghost use Rattle.hack_load.specs.ContextView.{context_view};
ghost use Rattle.hack_base.specs.Names.{Name};
ghost use Rattle.hack_base.specs.Notes.{note_of};
ghost use Rattle.hack_base.specs.Streams.{stream_of};
ghost use Rattle.hack_files.specs.WriteBacks.{SaysBack};
ghost use Rattle.hack_prepare.specs.FailedCalls.{FailsOnlySo, FailsOnlySoIn, IsAbsent};
ghost use Rattle.hack_prepare.specs.FailureCounts.{CountsCalls, WriteFails};
ghost use Rattle.hack_prepare.specs.Faults.{AtWrite, IsEditsFault};
ghost use Rattle.hack_prepare.specs.Paths.{IsEdited, IsLookedAt, IsReadRoot, IsTouched};
ghost use Rattle.hack_prepare.specs.Prepared.{HasPrivateRoot, HoldTexts, IsPartlyPrepared};
ghost use Rattle.hack_prepare.specs.Prepared.{IsPrepared, KeepsUnedited};
ghost use Rattle.hack_prepare.specs.PreparedView.{HasPrivateRootIn, IsPartlyPreparedIn, wanted_in};
ghost use Rattle.hack_prepare.specs.PreparedView.{HoldTextsIn, IsPreparedIn, IsTouchedIn, edits_in};
ghost use Rattle.hack_prepare.specs.PreparedView.{IsPrepareFault, KeepsUneditedIn, BeginWritesIn};
ghost use Rattle.hack_prepare.specs.PreparedView.{AreWritesIn, notes_in, wanted_view};
ghost use Rattle.hack_prepare.specs.Internal.{members_view, IsStep};
ghost use Rattle.hack_prepare.specs.EditSteps.{KeepsHeld, KeepsInOrder, KeepsOnly};
ghost use Rattle.hack_prepare.specs.EditNotes.{notes};
ghost use Rattle.hack_prepare.specs.Writes.{AreWrites, BeginWrites, MakesSome};

use crate::fault::PrepareFault;
use crate::lockfile::keep_lockfile;
use crate::members::edit_members;
use crate::root::{Members, edit_root};
use crate::wanted::{Member, Wanted, members_of};
use hack_base::notice::Notice;
use hack_base::paths::join;
use hack_base::writes::Sink;
use hack_files::fs::Files;
use hack_files::restore::Manager;
use hack_load::context::Context;
use hack_term::term::Term;
use hack_words::cli::Args;
use std::alloc::Global;

/// Edits the manifests of the workspace as the arguments of the call ask: `--no-dev-deps` and
/// `--remove-dev-deps` remove development dependencies, `--no-private` removes private members. The
/// manager keeps what a file holds before it is written, and also the lockfile, which cargo may
/// change; it restores them, unless the edits are to stay. With `--verbose` each edit has a notice.
#[tactic(auto, using(crate::proofs::StepLemmas::keeps_none, crate::proofs::FailedLemmas::call_steps))]
pub fn prepare<F: Files>(
    alloc: Global,
    cx: &Context,
    files: &mut F,
    manager: &mut Manager,
) -> Result<Vec<Notice>, PrepareFault>
    ensures stays { F.stays files.old files.new }
    ensures grows { Grows (F.failed files.old) (F.failed files.new) }
    ensures counted { CountsCalls (F.failed files.old) (F.failed files.new) result }
    ensures needs { manager.new.needs_restore ≡ manager.old.needs_restore }
    ensures unkept { manager.old.needs_restore ≡ false
        → registered_files manager.new ≡ registered_files manager.old }

    // Whatever comes of it, what the manager keeps restores all that was written.
    ensures safe { F.tells → manager.old.needs_restore ≡ true → (start : Contents)
        → HoldTextsIn (context_view cx.now) start
        → AreSafe (registered_files manager.old) start (F.bytes_at files.old)
        → AreSafe (registered_files manager.new) start (F.bytes_at files.new) }

    // Whatever was kept before: each file that is kept since has what its path held at the start,
    // and every path that isn't kept holds what it held then.
    ensures keeps { F.tells → manager.old.needs_restore ≡ true → (start : Contents)
        → HoldTextsIn (context_view cx.now) start
        → ((path : Name) → is_kept (registered_files manager.old) path ≡ false
        → F.bytes_at files.old path ≡ start path)
        → KeepsHeld (registered_files manager.old) (registered_files manager.new) start
        (F.bytes_at files.new) }

    // No more paths are kept than those that are edited and the lockfile, and none if no edit is
    // asked for.
    ensures kept { KeepsOnly (IsTouchedIn (context_view cx.now)) manager.old manager.new }

    // Each manifest that is edited holds its edit, and every other path what it held.
    ensures prepared { OnOk result (F.tells
        → HoldTextsIn (context_view cx.now) (F.bytes_at files.old)
        → IsPreparedIn (context_view cx.now) (F.bytes_at files.old) (F.bytes_at files.new)) }

    // After an error too, such a manifest holds its edit or what it held, unless its own write was
    // refused, the one call that failed.
    ensures edited { F.tells → HoldTextsIn (context_view cx.now) (F.bytes_at files.old)
        → IsPartlyPreparedIn (context_view cx.now)
        (WriteFails (F.refuses files.old files.new) (F.failed files.old) (F.failed files.new))
        (F.bytes_at files.old) (F.bytes_at files.new) }

    // Where one can't be written, this holds of all others.
    ensures spared { IfErr result (AtWrite (λ path. F.tells
        → HoldTextsIn (context_view cx.now) (F.bytes_at files.old)
        → IsPartlyPreparedIn (context_view cx.now) (λ other. other ≡ path)
        (F.bytes_at files.old) (F.bytes_at files.new))) }

    // And every path that isn't edited holds what it held, whatever the manifests hold.
    ensures others { F.tells → KeepsUneditedIn (context_view cx.now)
        (F.bytes_at files.old) (F.bytes_at files.new) }
    ensures lockfile { OnOk result (F.tells → manager.old.needs_restore ≡ true
        → edits_in (context_view cx.now) ≡ true
        → IfSome (F.bytes_at files.new (wanted_in (context_view cx.now)).lockfile) (λ _.
        is_kept (registered_files manager.new) (wanted_in (context_view cx.now)).lockfile ≡ true)) }

    // Each manifest that is edited is written once: those of members in order, and then the root's.
    // In this order they are kept, where files are to be restored, and the lockfile behind them.
    ensures traced { OnOk result (F.whole → MakesSome (λ made.
        AreWritesIn (context_view cx.now) F.tells (F.bytes_at files.old) made
        × (manager.old.needs_restore ≡ true
        → KeepsInOrder (wanted_in (context_view cx.now)).lockfile made
        (paths (registered_files manager.old)) (paths (registered_files manager.new))))
        (F.trace files.old) (F.trace files.new) (F.bytes_at files.old) (F.bytes_at files.new)) }

    // After an error the first of these writes were made: perhaps none, or all.
    ensures refused { OnErr result (F.whole → MakesSome
        (BeginWritesIn (context_view cx.now) F.tells (F.bytes_at files.old))
        (F.trace files.old) (F.trace files.new) (F.bytes_at files.old) (F.bytes_at files.new)) }
    ensures never { OnOk result (¬ HasPrivateRootIn (context_view cx.now)) }
    ensures told { IfOk result (λ notices.
        map note_of notices.items ≡ notes_in (context_view cx.now)) }

    // Each error has its cause.
    ensures err { IfErr result
        (IsPrepareFault (context_view cx.now) F.tells (F.bytes_at files.old)) }

    // No call fails but that of the path which the error names: a path that isn't seen, or a write
    // that is refused. Only the manifest in the folder of the workspace may be absent. Where the
    // error is that memory was refused, it is a path that is looked at, or one that is edited.
    ensures calls { FailsOnlySoIn F.Files (context_view cx.now) files.old files.new result }
{
    let args = cx.args();
    let drops_dev = drops_dev(args);
    if !is_asked(drops_dev, args.no_private) {
        return Ok(Vec::new(alloc));
    }
    let folder = cx.workspace_root();
    let root = join(alloc, folder, "Cargo.toml")?;
    let lockfile = join(alloc, folder, "Cargo.lock")?;
    let members = members_of(alloc, cx)?;
    let wanted = Wanted {
        drops_dev,
        no_private: args.no_private,
        verbose: args.verbose,
        folder,
        root: root.as_str(),
        lockfile: lockfile.as_str(),
    };
    edit(alloc, &wanted, members.as_slice(), files, manager)
}

/// Returns whether development dependencies are to be removed.
fn drops_dev(args: &Args) -> bool
    ensures { result ≡ (args.now.no_dev_deps || args.now.remove_dev_deps) }
{
    args.no_dev_deps || args.remove_dev_deps
}

/// Returns whether manifests are edited at all.
fn is_asked(drops_dev: bool, no_private: bool) -> bool
    ensures { result ≡ (drops_dev || no_private) }
{
    drops_dev || no_private
}

/// Edits the manifests of a workspace, and keeps its lockfile.
fn edit<F: Files>(
    alloc: Global,
    wanted: &Wanted<'_>,
    members: &[Member<'_>],
    files: &mut F,
    manager: &mut Manager,
) -> Result<Vec<Notice>, PrepareFault>
    ensures stays { F.stays files.old files.new }
    ensures counted { CountsCalls (F.failed files.old) (F.failed files.new) result }
    ensures calls { FailsOnlySo F.Files (IsAbsent F.tells (F.bytes_at files.old)
        (IsReadRoot (wanted_view wanted.now) (members_view members.now)))
        (IsLookedAt (wanted_view wanted.now) (members_view members.now))
        (IsEdited (wanted_view wanted.now) (members_view members.now))
        files.old files.new result }
    ensures step { IsStep F.tells (λ start. HoldTexts start (members_view members.now))
        (IsTouched (wanted_view wanted.now) (members_view members.now))
        manager.old manager.new (F.bytes_at files.old) (F.bytes_at files.new) }

    // Each manifest that is edited holds its edit, and every other path what it held.
    ensures prepared { OnOk result (F.tells
        → HoldTexts (F.bytes_at files.old) (members_view members.now)
        → IsPrepared (wanted_view wanted.now) (members_view members.now)
        (F.bytes_at files.old) (F.bytes_at files.new)) }
    ensures edited { F.tells → HoldTexts (F.bytes_at files.old) (members_view members.now)
        → IsPartlyPrepared (wanted_view wanted.now) (members_view members.now)
        (WriteFails (F.refuses files.old files.new) (F.failed files.old) (F.failed files.new))
        (F.bytes_at files.old) (F.bytes_at files.new) }
    ensures spared { IfErr result (AtWrite (λ path. F.tells
        → HoldTexts (F.bytes_at files.old) (members_view members.now)
        → IsPartlyPrepared (wanted_view wanted.now) (members_view members.now)
        (λ other. other ≡ path) (F.bytes_at files.old) (F.bytes_at files.new))) }
    ensures others { F.tells
        → KeepsUnedited (wanted_view wanted.now) (members_view members.now)
        (F.bytes_at files.old) (F.bytes_at files.new) }
    ensures lockfile { OnOk result (F.tells → manager.old.needs_restore ≡ true
        → IfSome (F.bytes_at files.new (wanted_view wanted.now).lockfile) (λ _.
        is_kept (registered_files manager.new) (wanted_view wanted.now).lockfile ≡ true)) }
    ensures traced { OnOk result (F.whole → MakesSome (λ made. AreWrites F.tells
        (wanted_view wanted.now) (members_view members.now) (F.bytes_at files.old) made
        × (manager.old.needs_restore ≡ true → KeepsInOrder (wanted_view wanted.now).lockfile made
        (paths (registered_files manager.old)) (paths (registered_files manager.new))))
        (F.trace files.old) (F.trace files.new) (F.bytes_at files.old) (F.bytes_at files.new)) }
    ensures refused { OnErr result (F.whole → MakesSome (BeginWrites F.tells
        (wanted_view wanted.now) (members_view members.now) (F.bytes_at files.old))
        (F.trace files.old) (F.trace files.new) (F.bytes_at files.old) (F.bytes_at files.new)) }
    ensures never { OnOk result
        (¬ HasPrivateRoot (wanted_view wanted.now) (members_view members.now)) }
    ensures told { IfOk result (λ notices. map note_of notices.items
        ≡ notes (wanted_view wanted.now) (members_view members.now)) }
    ensures err { IfErr result (IsEditsFault (wanted_view wanted.now) (members_view members.now)
        F.tells (F.bytes_at files.old)) }
{
    let mut notices = Vec::new(alloc);
    let gone = edit_members(alloc, wanted, members, files, manager, &mut notices)?;
    let workspace = Members {
        all: members,
        gone: gone.as_slice(),
    };
    edit_root(alloc, wanted, &workspace, files, manager, &mut notices)?;
    keep_lockfile(alloc, wanted.lockfile, files, manager)?;
    Ok(notices)
}

/// Restores the files that were kept, and returns how many of them couldn't be written. What is
/// said of that says nothing of the path that is `reported` otherwise.
pub fn finish<F: Files, W: Sink>(
    manager: Manager,
    reported: Option<&str>,
    files: &mut F,
    term: &mut Term,
    err: &mut W,
) -> u64
    ensures stays { F.stays files.old files.new }
    ensures counted { GrowsBy result (F.failed files.old) (F.failed files.new) }
    ensures restored { F.tells → Brings (registered_files manager)
        (F.bytes_at files.old) (F.bytes_at files.new) result }
    ensures refused { ComesBackBut (F.refuses files.old files.new) F.tells
        (registered_files manager) (F.bytes_at files.old) (F.bytes_at files.new) result }
    ensures tried { F.whole → (made : List Change) × Tried (registered_files manager) made result
        × Makes made (F.trace files.old) (F.trace files.new)
        (F.bytes_at files.old) (F.bytes_at files.new) }
    ensures noted { IsTrue term.new.error ↔ (IsTrue term.old.error ⊎ (0 < result)) }
    ensures term { term.new ≡ record term.old { error = term.new.error } }
    ensures shown { SaysBack F.Files files.old files.new term.old.coloring term.old.verbose
        (option_map (λ text. text.now) reported.entry) (registered_files manager) result
        (stream_of W.Sink err.old) (stream_of W.Sink err.new) }
    ensures quiet { term.old.verbose ≡ false → result ≡ 0 → err.new ≡ err.old }
{
    manager.restore_all(reported, files, term, err)
}
