//! The stages of a call after its command line is parsed: loading, edits of manifests, the plan,
//! and its runs or their list.

ghost use Rattle.std.specs.Prelude.{◌≡◌, ◌⊎◌, IfErr, IfOk, IfSome, IsOk, OnErr, OnOk, false, map};
ghost use Rattle.std.specs.Prelude.{string_bytes, MatchBool, option_map, true};
ghost use Rattle.hack_base.specs.Counters.{GrowsBy};
ghost use Rattle.hack_base.specs.Streams.{WritesAll, stream_of};
ghost use Rattle.hack_files.specs.Restore.{AreSafe, is_kept, registered_files};
ghost use Rattle.hack_load.specs.Answers.{IsLoaded};
ghost use Rattle.hack_load.specs.ContextOf.{IsContextCause, IsContextFrom, warnings_of};
ghost use Rattle.hack_load.specs.ContextView.{context_view};
ghost use Rattle.hack_load.specs.CargoQuestions.{told_version};
ghost use Rattle.hack_prepare.specs.EditSteps.{KeepsOnly};
ghost use Rattle.hack_prepare.specs.FailureCounts.{WriteFails};
ghost use Rattle.hack_prepare.specs.PreparedView.{AreWritesIn, HoldTextsIn, IsPartlyPreparedIn};
ghost use Rattle.hack_prepare.specs.PreparedView.{IsPrepareFault, IsPreparedIn, IsTouchedIn};
ghost use Rattle.hack_prepare.specs.PreparedView.{KeepsUneditedIn, edits_in, notes_in, wanted_in};
ghost use Rattle.hack_prepare.specs.FailedCalls.{IsOfFailedCallIn};
ghost use Rattle.hack_prepare.specs.Writes.{MakesSome};
ghost use Rattle.hack_files.specs.FailedCalls.{NoneFailed};
ghost use Rattle.hack_files.specs.WriteBacks.{SaysReason};
ghost use Rattle.hack_files.specs.Files.{Grows, KeepsAllBut};
ghost use Rattle.hack_run.specs.CallChanges.{LoadsAndChanges};
ghost use Rattle.hack_run.specs.CallTrace.{AfterLoading, LoadsAndPerforms};
ghost use Rattle.hack_run.specs.Errors.{ends_at_file};
ghost use Rattle.hack_run.specs.Internal.{EditsAndPerforms, FollowsAndLeaves, MayPerformItsPlan};
ghost use Rattle.hack_run.specs.Internal.{EditsDone, FollowsEdits, KeepsAsMade, PerformsItsPlan};
ghost use Rattle.hack_run.specs.Lanes.{FollowsInLanes, LoadsInLanes, MayRunInLanes, RunsInLanes};
ghost use Rattle.hack_run.specs.LastingEdits.{LeavesAtMost};
ghost use Rattle.hack_run.specs.Shown.{KeepsLooks, SaysAfterLoading, SaysItsPlan, SaysLoaded};
ghost use Rattle.hack_run.specs.Shown.{SaysLooks};
ghost use Rattle.hack_run.specs.Shown.{BeginsEdits, SaysNotes, has_edited, looks_of, scene_on, unwritten_in};
ghost use Rattle.hack_run.specs.Standing.{Between, LoadsAndEdits};
ghost use Rattle.hack_run.specs.TemporaryEdits.{BringsBack, IsClean};
ghost use Rattle.hack_term.specs.Lines.{info_line};
ghost use Rattle.hack_drive.specs.Answered.{IsAnswered};
ghost use Rattle.hack_drive.specs.Warnings.{after_notes};
ghost use Rattle.hack_files.specs.View.{files_view};
ghost use Rattle.hack_run.specs.Worlds.{IsSameHost, world_of};

use crate::ask::stable_for;
use crate::execute::execute;
use crate::fault::RunFault;
use crate::host::Host;
use crate::print_list::print_list;
use hack_base::writes::Sink;
use hack_drive::notices::tell_all;
use hack_files::fs::{Files, FsFault};
use hack_files::reason::tell_reason;
use hack_files::restore::Manager;
use hack_load::context::{Answers, Context, ContextFault};
use hack_planner::looks::long_looks;
use hack_planner::stable::Stable;
use hack_prepare::manifest::{PrepareFault, finish, prepare};
use hack_starts::starts::Starts;
use hack_term::term::Term;
use hack_words::cli::Args;
use std::alloc::{AllocError, Global};

/// Performs a call with these arguments. Whatever comes of it, edited files are restored at the
/// end, unless the arguments ask for edits that stay.
pub(crate) fn perform<F: Files, C: Starts, O: Sink, E: Sink>(
    args: Args,
    files: &mut F,
    host: &mut Host<'_, C, O, E>,
) -> Result<(), RunFault>
    ensures host { IsSameHost host.old host.new }
    ensures stays { F.stays files.old files.new }
    ensures done { OnOk result (host.new.term.now.error ≡ false → C.tells
        → LoadsAndPerforms true F.tells args host.old.env.now host.old.term.now.warn
        (world_of F.Files C.Caller O.Sink files.old host.old)
        (world_of F.Files C.Caller O.Sink files.new host.new)) }
    ensures traced { OnOk result (host.new.term.now.error ≡ false → C.tells → F.whole
        → LoadsAndChanges F.tells args host.old.env.now host.old.term.now.warn
        (world_of F.Files C.Caller O.Sink files.old host.old)
        (world_of F.Files C.Caller O.Sink files.new host.new)) }
    ensures stood { OnOk result (LoadsAndEdits (Between F.Files files.old files.new) F.tells C.tells
        args host.old.env.now (F.bytes_at files.old) (C.calls host.old.caller.now)) }
    ensures made { C.tells
        → LoadsAndPerforms false F.tells args host.old.env.now host.old.term.now.warn
        (world_of F.Files C.Caller O.Sink files.old host.old)
        (world_of F.Files C.Caller O.Sink files.new host.new) }
    ensures back { args.remove_dev_deps ≡ false → F.tells
        → BringsBack (files_view F.Files files.old) (files_view F.Files files.new) }
    ensures spoilt { args.remove_dev_deps ≡ false → KeepsAllBut (F.refuses files.old files.new)
        F.tells (F.bytes_at files.old) (F.bytes_at files.new) }
    ensures lasting { LeavesAtMost (F.refuses files.old files.new) F.tells C.tells args
        host.old.env.now (C.calls host.old.caller.now)
        (F.bytes_at files.old) (F.bytes_at files.new) }
    ensures clean { OnOk result (host.new.term.now.error ≡ false
        → IsClean (args.remove_dev_deps ≡ false) F.tells
        (files_view F.Files files.old) (files_view F.Files files.new)) }
    ensures lanes { OnOk result (LoadsInLanes C.did C.course C.tells C.calls true F.tells args
        host.old.env.now (F.bytes_at files.old) host.old.caller.now host.new.caller.now) }
    ensures in_lanes { LoadsInLanes C.did C.course C.tells C.calls false F.tells args
        host.old.env.now (F.bytes_at files.old) host.old.caller.now host.new.caller.now }
    ensures shown { C.tells → SaysLoaded F.Files files.old files.new result
        C.tells args host.old.env.now
        (looks_of host.old.term.now) (looks_of host.new.term.now)
        (scene_on C.Caller O.Sink E.Sink host.old) (scene_on C.Caller O.Sink E.Sink host.new) }
    ensures looks { KeepsLooks host.old.term.now host.new.term.now }
{
    let mut manager = Manager::new(host.alloc, !args.remove_dev_deps);
    let answers = Answers::ask(
        host.alloc,
        &args,
        host.env,
        host.caller,
        files,
        &mut manager,
    );
    let came = follow(args, answers, files, &mut manager, host);
    tell_reason_of(host.alloc, &came, files, host.term, host.err);
    finish(manager, unwritten(&came), files, host.term, host.err);
    came
}

/// The path whose write failed, where that ended the call: the error tells of it.
fn unwritten(came: &Result<(), RunFault>) -> Option<&str>
    ensures { option_map (λ text. text.now) result ≡ unwritten_in came.now }
{
    match came {
        Err(RunFault::Manifests(PrepareFault::Files(FsFault::Write(path)))) => Some(path.as_str()),
        _ => None,
    }
}

/// Says why a file couldn't be read or written, where that ended the call.
fn tell_reason_of<F: Files, E: Sink>(
    alloc: Global,
    came: &Result<(), RunFault>,
    files: &F,
    term: &Term,
    err: &mut E,
)
    ensures { MatchBool (ends_at_file came.now)
        (SaysReason term.now.coloring (stream_of E.Sink err.old) (stream_of E.Sink err.new))
        (stream_of E.Sink err.new ≡ stream_of E.Sink err.old) }
{
    match came {
        Err(fault) if fault.is_of_file() => tell_reason(alloc, files, term, err),
        _ => {}
    }
}

/// Performs a call, given the answers to its questions.
fn follow<F: Files, C: Starts, O: Sink, E: Sink>(
    args: Args,
    answers: Answers,
    files: &mut F,
    manager: &mut Manager,
    host: &mut Host<'_, C, O, E>,
) -> Result<(), RunFault>
    ensures host { IsSameHost host.old host.new }
    ensures stays { F.stays files.old files.new }
    ensures done { OnOk result (host.new.term.now.error ≡ false → C.tells
        → AfterLoading true (F.tells
        × IfOk answers.loaded (IsLoaded F.tells (F.bytes_at files.old) host.old.env.now))
        args answers (string_bytes host.old.env.now.rustup) host.old.term.now.warn
        (world_of F.Files C.Caller O.Sink files.old host.old)
        (world_of F.Files C.Caller O.Sink files.new host.new)) }
    ensures traced { OnOk result (host.new.term.now.error ≡ false → C.tells → F.whole
        → EditsAndPerforms F.tells args answers (string_bytes host.old.env.now.rustup)
        manager.old manager.new
        (world_of F.Files C.Caller O.Sink files.old host.old)
        (world_of F.Files C.Caller O.Sink files.new host.new)) }
    ensures stood { OnOk result (FollowsEdits F.tells args answers host.old.env.now
        (F.bytes_at files.old) (F.bytes_at files.new)) }
    ensures lasting { FollowsAndLeaves (F.refuses files.old files.new) F.tells args answers
        host.old.env.now (F.bytes_at files.old) (F.bytes_at files.new) }
    ensures made { C.tells → AfterLoading false F.tells args answers
        (string_bytes host.old.env.now.rustup) host.old.term.now.warn
        (world_of F.Files C.Caller O.Sink files.old host.old)
        (world_of F.Files C.Caller O.Sink files.new host.new) }
    ensures lanes { OnOk result (FollowsInLanes C.did C.course C.tells C.calls true args answers
        (string_bytes host.old.env.now.rustup) host.old.caller.now host.new.caller.now) }
    ensures in_lanes { FollowsInLanes C.did C.course C.tells C.calls false args answers
        (string_bytes host.old.env.now.rustup) host.old.caller.now host.new.caller.now }
    ensures shown { C.tells → SaysAfterLoading F.Files files.old files.new result C.tells
        args answers (string_bytes host.old.env.now.rustup)
        (looks_of host.old.term.now) (looks_of host.new.term.now)
        (scene_on C.Caller O.Sink E.Sink host.old) (scene_on C.Caller O.Sink E.Sink host.new) }
    ensures looks { KeepsLooks host.old.term.now host.new.term.now }
    ensures edits { has_edited result ≡ true → EditsDone F.Files args answers host.old.env.now
        manager.old manager.new files.old files.new }
    ensures unkept { manager.old.needs_restore ≡ false
        → registered_files manager.new ≡ registered_files manager.old }
    ensures grows { Grows (F.failed files.old) (F.failed files.new) }
    ensures counted { OnOk result (IsOk answers.loaded
        × GrowsBy 0 (F.failed files.old) (F.failed files.new)) }
    ensures safe { F.tells
        → IfOk answers.loaded (IsLoaded F.tells (F.bytes_at files.old) host.old.env.now)
        → manager.old.needs_restore ≡ true
        → AreSafe (registered_files manager.old) (F.bytes_at files.old) (F.bytes_at files.old)
        → AreSafe (registered_files manager.new) (F.bytes_at files.old) (F.bytes_at files.new) }
{
    let cx = context(host.alloc, args, answers, host.term, host.err)?;
    edit(host.alloc, &cx, host.term, files, manager, host.err)?;
    let stable = stable_for(host.alloc, cx.args(), host.env, host.term, host.caller)?;
    run_plan(&cx, stable, host)
}

/// Makes the context of what is loaded, and prints its notices.
fn context<E: Sink>(
    alloc: Global,
    args: Args,
    answers: Answers,
    term: &mut Term,
    err: &mut E,
) -> Result<Context, RunFault>
    ensures ok { IfOk result (λ cx. IsContextFrom args answers (context_view cx)) }
    ensures told { OnOk result (term.new
        ≡ after_notes term.old (warnings_of (told_version answers.cargo_version))) }
    ensures shown { OnOk result (SaysNotes term.old.coloring
        (warnings_of (told_version answers.cargo_version))
        (stream_of E.Sink err.old) (stream_of E.Sink err.new)) }
    ensures untold { OnErr result ((term.new ≡ term.old) × (err.new ≡ err.old)) }
    ensures error { IfErr result (λ e. (fault : ContextFault) × (e ≡ RunFault.Context fault)
        × ((fault ≡ ContextFault.Memory) ⊎ IsContextCause args answers fault)) }
{
    match Context::new(alloc, args, answers) {
        Ok(answer) => {
            let (cx, notices) = answer;
            tell_all(notices.as_slice(), term, err);
            Ok(cx)
        }
        Err(fault) => Err(RunFault::Context(fault)),
    }
}

/// Edits manifests as the arguments ask.
fn edit<F: Files, E: Sink>(
    alloc: Global,
    cx: &Context,
    term: &mut Term,
    files: &mut F,
    manager: &mut Manager,
    err: &mut E,
) -> Result<(), RunFault>
    ensures stays { F.stays files.old files.new }
    ensures grows { Grows (F.failed files.old) (F.failed files.new) }
    ensures error { IfErr result (λ e. (fault : PrepareFault) × (e ≡ RunFault.Manifests fault)
        × IsPrepareFault (context_view cx.now) F.tells (F.bytes_at files.old) fault
        × IsOfFailedCallIn F.Files (context_view cx.now) files.old files.new fault) }
    ensures none { OnOk result (NoneFailed F.Files files.old files.new) }
    ensures told { OnOk result (term.new
        ≡ after_notes term.old (notes_in (context_view cx.now))) }
    ensures shown { OnOk result (SaysNotes term.old.coloring (notes_in (context_view cx.now))
        (stream_of E.Sink err.old) (stream_of E.Sink err.new)) }
    ensures untold { OnErr result ((term.new ≡ term.old) × (err.new ≡ err.old)) }
    ensures counted { OnOk result (GrowsBy 0 (F.failed files.old) (F.failed files.new)) }
    ensures prepared { OnOk result (F.tells
        → HoldTextsIn (context_view cx.now) (F.bytes_at files.old)
        → IsPreparedIn (context_view cx.now) (F.bytes_at files.old) (F.bytes_at files.new)) }
    ensures edited { F.tells → HoldTextsIn (context_view cx.now) (F.bytes_at files.old)
        → IsPartlyPreparedIn (context_view cx.now)
        (WriteFails (F.refuses files.old files.new) (F.failed files.old) (F.failed files.new))
        (F.bytes_at files.old) (F.bytes_at files.new) }
    ensures others { F.tells → KeepsUneditedIn (context_view cx.now)
        (F.bytes_at files.old) (F.bytes_at files.new) }
    ensures traced { OnOk result (F.whole → MakesSome (λ made.
        AreWritesIn (context_view cx.now) F.tells (F.bytes_at files.old) made
        × KeepsAsMade (context_view cx.now) made manager.old manager.new)
        (F.trace files.old) (F.trace files.new) (F.bytes_at files.old) (F.bytes_at files.new)) }
    ensures begun { OnErr result (BeginsEdits F.Files (context_view cx.now) files.old files.new) }
    ensures kept { OnOk result
        (KeepsOnly (IsTouchedIn (context_view cx.now)) manager.old manager.new) }
    ensures lockfile { OnOk result (F.tells → manager.old.needs_restore ≡ true
        → edits_in (context_view cx.now) ≡ true
        → IfSome (F.bytes_at files.new (wanted_in (context_view cx.now)).lockfile) (λ _.
        is_kept (registered_files manager.new) (wanted_in (context_view cx.now)).lockfile ≡ true)) }
    ensures unkept { manager.old.needs_restore ≡ false
        → registered_files manager.new ≡ registered_files manager.old }
    ensures safe { F.tells → HoldTextsIn (context_view cx.now) (F.bytes_at files.old)
        → manager.old.needs_restore ≡ true
        → AreSafe (registered_files manager.old) (F.bytes_at files.old) (F.bytes_at files.old)
        → AreSafe (registered_files manager.new) (F.bytes_at files.old) (F.bytes_at files.new) }
{
    match prepare(alloc, cx, files, manager) {
        Ok(notices) => {
            tell_all(notices.as_slice(), term, err);
            Ok(())
        }
        Err(fault) => Err(RunFault::Manifests(fault)),
    }
}

/// Lists the plan or performs it.
fn run_plan<C: Starts, O: Sink, E: Sink>(
    cx: &Context,
    stable: Stable,
    host: &mut Host<'_, C, O, E>,
) -> Result<(), RunFault>
    requires { IsAnswered (context_view cx.now).args stable }
    ensures host { IsSameHost host.old host.new }
    ensures done { OnOk result (PerformsItsPlan C.Caller O.Sink
        (context_view cx.now).args.print_command_list
        (context_view cx.now) stable host.old host.new) }
    ensures made { MayPerformItsPlan C.Caller O.Sink
        (context_view cx.now).args.print_command_list
        (context_view cx.now) stable host.old host.new }
    ensures listed { (context_view cx.now).args.print_command_list ≡ true
        → C.course host.old.caller.now host.new.caller.now }
    ensures lanes { (context_view cx.now).args.print_command_list ≡ false → MayRunInLanes C.did
        (context_view cx.now) stable (string_bytes host.old.env.now.rustup)
        host.old.caller.now host.new.caller.now }
    ensures ran { OnOk result (((context_view cx.now).args.print_command_list ≡ true)
        ⊎ RunsInLanes C.did (context_view cx.now) stable
        (string_bytes host.old.env.now.rustup) host.old.caller.now host.new.caller.now) }
    ensures shown { C.tells → SaysItsPlan result C.tells (context_view cx.now) stable
        (string_bytes host.old.env.now.rustup)
        (looks_of host.old.term.now) (looks_of host.new.term.now)
        (scene_on C.Caller O.Sink E.Sink host.old) (scene_on C.Caller O.Sink E.Sink host.new) }
    ensures looks { KeepsLooks host.old.term.now host.new.term.now }
{
    tell_looks(host.alloc, cx, host.term, host.err)?;
    if cx.args().print_command_list {
        return print_list(cx, stable, host);
    }
    execute(cx, stable, host)
}

/// Says beforehand which looks for samples will take long. A search for conflicts looks for none.
fn tell_looks<E: Sink>(
    alloc: Global,
    cx: &Context,
    term: &Term,
    err: &mut E,
) -> Result<(), AllocError>
    ensures shown { OnOk result (SaysLooks (context_view cx.now) term.now.coloring
        (stream_of E.Sink err.old) (stream_of E.Sink err.new)) }
    ensures refused { OnErr result (err.new ≡ err.old) }
{
    if cx.args().find_conflicts {
        return Ok(());
    }
    let looks = long_looks(alloc, cx)?;
    tell_infos(looks.as_slice(), term, err);
    Ok(())
}

/// Prints these texts.
fn tell_infos<E: Sink>(texts: &[String], term: &Term, err: &mut E)
    ensures { WritesAll (map (info_line term.now.coloring) (map string_bytes texts.now))
        (stream_of E.Sink err.old) (stream_of E.Sink err.new) }
{
    for text in texts {
        let _ = term.info(text.as_str(), err);
    }
}
