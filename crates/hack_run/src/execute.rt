//! The runs of a plan or of a search, and the report on them.

ghost use Rattle.std.specs.Prelude.{◌≡◌, ◌⊎◌, ◌||◌, ◌∷◌, [], Bool, Contains, IfErr, IfOk, IsOk};
ghost use Rattle.std.specs.Prelude.{MatchBool};
ghost use Rattle.std.specs.Prelude.{None, OnErr, OnOk, Some, codes, false, string_bytes, true};
ghost use Rattle.hack_base.specs.Names.{names_of};
ghost use Rattle.hack_base.specs.Streams.{WritesAll, stream_of};
ghost use Rattle.hack_load.specs.ContextView.{context_view};
ghost use Rattle.hack_msrv.specs.Searches.{AreUnbroken};
ghost use Rattle.hack_run.specs.CallTrace.{PerformsOne};
ghost use Rattle.hack_run.specs.Conclusions.{SaysSearch, version_conclusion};
ghost use Rattle.hack_run.specs.Internal.{MayPerformItsPlan, PerformsAtMostOne, PerformsItsPlan};
ghost use Rattle.hack_run.specs.Internal.{HandsSteps, ReportsFound};
ghost use Rattle.hack_run.specs.Lanes.{MayRunInLanes, RunsInLanes, RunsOne, is_configured_dir};
ghost use Rattle.hack_run.specs.Lanes.{is_target_dir, is_target_option, lanes_for};
ghost use Rattle.hack_run.specs.Lanes.{names_target_dir, target_folder as target};
ghost use Rattle.hack_drive.specs.Answered.{IsAnswered};
ghost use Rattle.hack_run.specs.Shown.{HasNoPlan, KeepsLooks, SaysNoPlan, SaysRuns};
ghost use Rattle.hack_run.specs.Shown.{looks_of, scene_at, scene_on};
ghost use Rattle.hack_run.specs.Worlds.{IsSameHost, host_of};
ghost use Rattle.hack_term.specs.Lines.{error_line};

use crate::conflict_search::hunt_in_lanes;
use crate::fault::RunFault;
use crate::host::Host;
use crate::tell::{cut_off, fail};
use hack_base::writes::Sink;
use hack_drive::drive::{drive_context, search_context};
use hack_lanes::lanes::Lanes;
use hack_lanes::turns::Turns;
use hack_lanes::window::Window;
use hack_load::context::Context;
use hack_msrv::found::Found;
use hack_plan::plan::Plan;
use hack_planner::fault::PlanFault;
use hack_planner::stable::Stable;
use hack_process::process::ProcessFault;
use hack_report::findings::tell_found;
use hack_report::noted::Noted;
use hack_report::report::report_all;
use hack_session::session::{Session, Starter};
use hack_side::serial::Serial;
use hack_side::side::Side;
use hack_starts::starts::Starts;
use hack_term::term::{LogGroup, Term};
use hack_words::cli::Args;
use std::alloc::{AllocError, Global};

/// Performs the chosen piece of a context's plan, and reports the runs that failed; or searches for
/// the least versions or for conflicts, and reports these.
pub(crate) fn execute<C: Starts, O: Sink, E: Sink>(
    cx: &Context,
    stable: Stable,
    host: &mut Host<'_, C, O, E>,
) -> Result<(), RunFault>
    requires { IsAnswered (context_view cx.now).args stable }
    ensures host { IsSameHost host.old host.new }
    ensures done { OnOk result (PerformsItsPlan C.Caller O.Sink false
        (context_view cx.now) stable host.old host.new) }
    ensures made { MayPerformItsPlan C.Caller O.Sink false
        (context_view cx.now) stable host.old host.new }

    // Commands were started, told and ended by the rules of lanes, and none that was started is left.
    ensures lanes { MayRunInLanes C.did (context_view cx.now) stable
        (string_bytes host.old.env.now.rustup) host.old.caller.now host.new.caller.now }
    ensures ran { OnOk result (RunsInLanes C.did (context_view cx.now) stable
        (string_bytes host.old.env.now.rustup) host.old.caller.now host.new.caller.now) }

    // The notices of the plan were said, then just what its steps say, and then the report, or what a
    // search found.
    ensures shown { C.tells → SaysNoPlan result false (context_view cx.now) stable
        (string_bytes host.old.env.now.rustup)
        (looks_of host.old.term.now) (looks_of host.new.term.now)
        (scene_on C.Caller O.Sink E.Sink host.old) (scene_on C.Caller O.Sink E.Sink host.new)
        ⊎ SaysRuns result C.tells (context_view cx.now) stable
        (string_bytes host.old.env.now.rustup)
        (looks_of host.old.term.now) (looks_of host.new.term.now)
        (scene_on C.Caller O.Sink E.Sink host.old) (scene_on C.Caller O.Sink E.Sink host.new) }
    ensures looks { KeepsLooks host.old.term.now host.new.term.now }
{
    let mut fault = None;
    let session = match hand_to_starter(cx, stable, &mut fault, host) {
        Ok(session) => session,
        Err(fault) => return Err(RunFault::Plan(fault)),
    };
    // Where a step stopped the session, no run is to be reported: its error is that of the call.
    match fault {
        Some(fault) => return Err(RunFault::Process(fault)),
        None => {}
    }
    match session {
        Some(session) => {
            report_all(host.alloc, cx, &session, host.term, host.err)?;
            Ok(())
        }
        // A search said already what it found.
        None => Ok(()),
    }
}

/// Hands the plan to a starter, and returns its session; none after a search, whose conclusion is
/// said already. The error that stopped it goes to `fault`, unless it was reported.
fn hand_to_starter<C: Starts, O: Sink, E: Sink>(
    cx: &Context,
    stable: Stable,
    fault: &mut Option<ProcessFault>,
    host: &mut Host<'_, C, O, E>,
) -> Result<Option<Session>, PlanFault>
    requires answered { IsAnswered (context_view cx.now).args stable }
    requires fresh { fault.old ≡ None }
    ensures host { IsSameHost host.old host.new }
    ensures done { OnOk result (fault.new ≡ None → PerformsItsPlan C.Caller O.Sink false
        (context_view cx.now) stable host.old host.new) }
    ensures made { MayPerformItsPlan C.Caller O.Sink false
        (context_view cx.now) stable host.old host.new }
    ensures lanes { MayRunInLanes C.did (context_view cx.now) stable
        (string_bytes host.old.env.now.rustup) host.old.caller.now host.new.caller.now }
    ensures ran { OnOk result (RunsInLanes C.did (context_view cx.now) stable
        (string_bytes host.old.env.now.rustup) host.old.caller.now host.new.caller.now) }
    ensures shown { C.tells → IfOk result (λ session. HandsSteps C.tells
        (context_view cx.now) stable
        (string_bytes host.old.env.now.rustup) fault.new host.new.term.now.error
        (looks_of host.old.term.now) session
        (scene_on C.Caller O.Sink E.Sink host.old) (scene_on C.Caller O.Sink E.Sink host.new)) }
    ensures unplanned { C.tells → IfErr result (HasNoPlan false (context_view cx.now) stable
        (string_bytes host.old.env.now.rustup)
        (looks_of host.old.term.now) (looks_of host.new.term.now)
        (scene_on C.Caller O.Sink E.Sink host.old) (scene_on C.Caller O.Sink E.Sink host.new)) }
    ensures looks { KeepsLooks host.old.term.now host.new.term.now }
{
    let rustup = host.env.rustup.as_str();
    let folder = target_folder(host.alloc, cx)?;
    let mut window = Window::new(host.alloc, width(cx.args()), folder);
    let mut lanes = Lanes {
        starts: host.caller,
        window: &mut window,
    };
    let session = hand_out(
        host.alloc,
        cx,
        rustup,
        stable,
        &mut lanes,
        host.term,
        host.out,
        host.err,
        fault,
        &mut host.fails,
    )?;
    window.clear(host.alloc, host.caller);
    Ok(session)
}

/// Hands the plan to a starter whose programs are called in lanes, or has it search.
fn hand_out<L: Turns, O: Sink, E: Sink>(
    alloc: Global,
    cx: &Context,
    rustup: &str,
    stable: Stable,
    lanes: &mut L,
    term: &mut Term,
    out: &mut O,
    err: &mut E,
    fault: &mut Option<ProcessFault>,
    fails: &mut bool,
) -> Result<Option<Session>, PlanFault>
    requires answered { IsAnswered (context_view cx.now).args stable }
    requires fresh { fault.old ≡ None }
    ensures done { OnOk result (fault.new ≡ None → term.new.error ≡ false → L.tells
        → PerformsOne true false (context_view cx.now) stable rustup.now term.old.warn
        (host_of L.Caller O.Sink lanes.old out.old term.old fails.old)
        (host_of L.Caller O.Sink lanes.new out.new term.new fails.new)) }
    ensures made { L.tells → PerformsAtMostOne false (context_view cx.now) stable rustup.now
        (host_of L.Caller O.Sink lanes.old out.old term.old fails.old)
        (host_of L.Caller O.Sink lanes.new out.new term.new fails.new) }
    ensures lanes { OnOk result (RunsOne L.did (context_view cx.now) stable rustup.now
        (L.scene lanes.old) (L.scene lanes.new)) }
    ensures stays { L.stays lanes.old lanes.new }
    ensures refused { OnErr result (lanes.new ≡ lanes.old) }
    ensures shown { IfOk result (λ session. HandsSteps L.tells (context_view cx.now) stable
        rustup.now fault.new term.new.error (looks_of term.old) session
        (scene_at (L.calls lanes.old) O.Sink E.Sink out.old err.old)
        (scene_at (L.calls lanes.new) O.Sink E.Sink out.new err.new)) }
    ensures unplanned { IfErr result (HasNoPlan false (context_view cx.now) stable
        rustup.now (looks_of term.old) (looks_of term.new)
        (scene_at (L.calls lanes.old) O.Sink E.Sink out.old err.old)
        (scene_at (L.calls lanes.new) O.Sink E.Sink out.new err.new)) }
    ensures looks { KeepsLooks term.old term.new }
{
    if cx.args().find_conflicts {
        hunt_in_lanes(alloc, cx, rustup, lanes, term, out, err, fault, fails)?;
        return Ok(None);
    }
    if cx.args().find_rust_version {
        search_in_lanes(
            alloc, cx, rustup, stable, lanes, term, out, err, fault, fails,
        )?;
        return Ok(None);
    }
    let session = drive_in_lanes(alloc, cx, rustup, stable, lanes, term, out, err, fault)?;
    Ok(Some(session))
}

/// Hands the plan to a starter whose programs are called in lanes.
fn drive_in_lanes<L: Turns, O: Sink, E: Sink>(
    alloc: Global,
    cx: &Context,
    rustup: &str,
    stable: Stable,
    lanes: &mut L,
    term: &mut Term,
    out: &mut O,
    err: &mut E,
    fault: &mut Option<ProcessFault>,
) -> Result<Session, PlanFault>
    requires answered { IsAnswered (context_view cx.now).args stable }
    requires apart { (context_view cx.now).args.find_conflicts ≡ false }
    requires piece { (context_view cx.now).args.find_rust_version ≡ false }
    requires fresh { fault.old ≡ None }
    ensures done { OnOk result (fault.new ≡ None → term.new.error ≡ false → L.tells
        → (fails : Bool) → PerformsOne true false (context_view cx.now) stable rustup.now
        term.old.warn (host_of L.Caller O.Sink lanes.old out.old term.old fails)
        (host_of L.Caller O.Sink lanes.new out.new term.new fails)) }
    ensures made { L.tells → (fails : Bool) → PerformsAtMostOne false (context_view cx.now) stable
        rustup.now (host_of L.Caller O.Sink lanes.old out.old term.old fails)
        (host_of L.Caller O.Sink lanes.new out.new term.new fails) }
    ensures lanes { OnOk result (RunsOne L.did (context_view cx.now) stable rustup.now
        (L.scene lanes.old) (L.scene lanes.new)) }
    ensures stays { L.stays lanes.old lanes.new }
    ensures refused { OnErr result (lanes.new ≡ lanes.old) }
    ensures shown { IfOk result (λ session. HandsSteps L.tells (context_view cx.now) stable
        rustup.now fault.new term.new.error (looks_of term.old) (Some session)
        (scene_at (L.calls lanes.old) O.Sink E.Sink out.old err.old)
        (scene_at (L.calls lanes.new) O.Sink E.Sink out.new err.new)) }
    ensures unplanned { IfErr result (HasNoPlan false (context_view cx.now) stable
        rustup.now (looks_of term.old) (looks_of term.new)
        (scene_at (L.calls lanes.old) O.Sink E.Sink out.old err.old)
        (scene_at (L.calls lanes.new) O.Sink E.Sink out.new err.new)) }
    ensures looks { KeepsLooks term.old term.new }
{
    let (log_group, keep_going) = manner(cx.args());
    let mut starter = Starter::new(alloc, lanes, term, out, err, fault);
    starter.set_manner(log_group, keep_going);
    let mut side = Side {
        starter,
        piece: cx.args().partition,
    };
    let session = drive_context(alloc, cx, rustup, stable, &mut side)?;
    Ok(session)
}

/// Has a starter whose programs are called in lanes, one after another, search for the least versions,
/// and reports what was found.
fn search_in_lanes<L: Turns, O: Sink, E: Sink>(
    alloc: Global,
    cx: &Context,
    rustup: &str,
    stable: Stable,
    lanes: &mut L,
    term: &mut Term,
    out: &mut O,
    err: &mut E,
    fault: &mut Option<ProcessFault>,
    fails: &mut bool,
) -> Result<(), PlanFault>
    requires answered { IsAnswered (context_view cx.now).args stable }
    requires apart { (context_view cx.now).args.find_conflicts ≡ false }
    requires search { (context_view cx.now).args.find_rust_version ≡ true }
    requires fresh { fault.old ≡ None }
    ensures done { OnOk result (fault.new ≡ None → term.new.error ≡ false → L.tells
        → PerformsOne true false (context_view cx.now) stable rustup.now term.old.warn
        (host_of L.Caller O.Sink lanes.old out.old term.old fails.old)
        (host_of L.Caller O.Sink lanes.new out.new term.new fails.new)) }
    ensures made { L.tells → PerformsAtMostOne false (context_view cx.now) stable rustup.now
        (host_of L.Caller O.Sink lanes.old out.old term.old fails.old)
        (host_of L.Caller O.Sink lanes.new out.new term.new fails.new) }
    ensures lanes { OnOk result (RunsOne L.did (context_view cx.now) stable rustup.now
        (L.scene lanes.old) (L.scene lanes.new)) }
    ensures stays { L.stays lanes.old lanes.new }
    ensures refused { OnErr result (lanes.new ≡ lanes.old) }
    ensures shown { OnOk result (HandsSteps L.tells (context_view cx.now) stable rustup.now
        fault.new term.new.error (looks_of term.old) None
        (scene_at (L.calls lanes.old) O.Sink E.Sink out.old err.old)
        (scene_at (L.calls lanes.new) O.Sink E.Sink out.new err.new)) }
    ensures unplanned { IfErr result (HasNoPlan false (context_view cx.now) stable
        rustup.now (looks_of term.old) (looks_of term.new)
        (scene_at (L.calls lanes.old) O.Sink E.Sink out.old err.old)
        (scene_at (L.calls lanes.new) O.Sink E.Sink out.new err.new)) }
    ensures looks { KeepsLooks term.old term.new }
{
    let (log_group, _) = manner(cx.args());
    let mut starter = Starter::new(alloc, lanes, term, out, err, fault);
    starter.set_manner(log_group, false);
    let mut serial = Serial { starter };
    let (plan, found) = search_context(alloc, cx, rustup, stable, &mut serial)?;
    let refused = serial.starter.refused > 0;
    settle(alloc, cx, &plan, &found, refused, fault, fails, term, err);
    Ok(())
}

/// Reports what a search found, also where it was broken off, and keeps whether a greatest version
/// fails. Where it was broken off, `fault` says why. Else a run that failed is no error of the call.
/// Where memory was refused for a step, which is told already, nothing is reported.
fn settle<E: Sink>(
    alloc: Global,
    cx: &Context,
    plan: &Plan,
    found: &[Found],
    refused: bool,
    fault: &mut Option<ProcessFault>,
    fails: &mut bool,
    term: &mut Term,
    err: &mut E,
)
    ensures error { term.new.error ≡ false → term.old.error ≡ false }
    ensures ends { fault.new ≡ None → term.new.error ≡ false → (refused ≡ false)
        × (((fault.old ≡ None) × Contains found.now Found.Broken)
        ⊎ ReportsFound (context_view cx.now) plan.now found.now
        fails.old fails.new term.old.warn term.new.warn) }
    ensures shown { SaysSearch refused
        (version_conclusion (context_view cx.now) plan.now found.now) term.old.coloring
        fault.old term.old.error fault.new term.new.error
        (stream_of E.Sink err.old) (stream_of E.Sink err.new) }
    ensures looks { KeepsLooks term.old term.new }
{
    if refused {
        return cut_off(fault, term);
    }
    forgive(found, fault);
    keep(
        tell_found(alloc, cx, plan, found, term.coloring, err),
        fails,
        term,
        err,
    );
}

/// Takes back the error of a run that failed: a call has none, unless a search was broken off.
fn forgive(found: &[Found], fault: &mut Option<ProcessFault>)
    ensures { ((fault.new ≡ fault.old) × Contains found.now Found.Broken)
        ⊎ ((fault.new ≡ None) × AreUnbroken found.now) }
{
    if !is_broken(found) {
        *fault = None;
    }
}

/// Keeps what the lines on a search noted, or says that memory was refused for them.
pub(crate) fn keep<E: Sink>(
    told: Result<Noted, AllocError>,
    fails: &mut bool,
    term: &mut Term,
    err: &mut E,
)
    ensures error { term.new.error ≡ false → term.old.error ≡ false }
    ensures kept { term.new.error ≡ false
        → IfOk told (λ noted. (fails.new ≡ (fails.old || noted.fails))
        × (term.new.warn ≡ (term.old.warn || noted.warns))) }
    ensures told { term.new.error ≡ false → IsOk told }
    ensures shown { OnOk told ((term.new.error ≡ term.old.error) × (err.new ≡ err.old)) }
    ensures starved { OnErr told ((term.new.error ≡ true)
        × WritesAll (error_line term.old.coloring (codes "out of memory") ∷ [])
        (stream_of E.Sink err.old) (stream_of E.Sink err.new)) }
    ensures looks { KeepsLooks term.old term.new }
{
    match told {
        Ok(noted) => {
            *fails |= noted.fails;
            term.warn |= noted.warns;
        }
        Err(AllocError) => fail("out of memory", term, err),
    }
}

/// Whether a search was broken off.
fn is_broken(found: &[Found]) -> bool
    ensures { MatchBool result (Contains found.now Found.Broken) (AreUnbroken found.now) }
{
    found.iter().any(|one| one.is_broken())
}

/// How many runs go side by side. A folder that an argument names would be that of all lanes.
fn width(args: &Args) -> usize
    ensures { result ≡ lanes_for args.now }
{
    if names_target_dir(&args.leading_args) {
        return 1;
    }
    args.parallel.unwrap_or(1)
}

/// Whether arguments of cargo name the folder that it builds into.
fn names_target_dir(words: &[String]) -> bool
    ensures { result ≡ names_target_dir (names_of words.now) }
{
    for word in words {
        if is_target_dir(word.as_str()) {
            return true;
        }
    }
    false
}

/// Whether a word names that folder, or the next word does.
fn is_target_dir(word: &str) -> bool
    ensures { result ≡ is_target_dir word.now }
{
    is_target_option(word) || is_configured_dir(word)
}

/// Whether a word is the option for that folder.
fn is_target_option(word: &str) -> bool
    ensures { result ≡ is_target_option word.now }
{
    word == "--target-dir" || word.starts_with("--target-dir=")
}

/// Whether a word is a value of `--config` that names that folder, by itself or behind the option.
fn is_configured_dir(word: &str) -> bool
    ensures { result ≡ is_configured_dir word.now }
{
    word.starts_with("build.target-dir") || word.starts_with("--config=build.target-dir")
}

/// The folder that cargo builds into.
fn target_folder(alloc: Global, cx: &Context) -> Result<String, AllocError>
    ensures { IfOk result (λ folder. string_bytes folder ≡ target (context_view cx.now)) }
{
    match &cx.metadata().target_directory {
        Some(folder) => String::from_str(alloc, folder.as_str()),
        None => {
            let root = cx.workspace_root();
            format!(in alloc; "{root}/target")
        }
    }
}

/// How a starter prints, and whether it goes on after a failed run.
pub(crate) fn manner(args: &Args) -> (LogGroup, bool)
    ensures { result ≡ (args.now.log_group, args.now.keep_going) }
{
    (args.log_group, args.keep_going)
}
