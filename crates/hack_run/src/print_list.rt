//! The command list of a plan.

ghost use Rattle.std.specs.Prelude.{◌≡◌, ◌<◌, ◌⊎◌, IfErr, IfOk, List, None, Ok, OnErr, OnOk, false};
ghost use Rattle.std.specs.Prelude.{All, string_bytes, true};
ghost use Rattle.std.specs.Io.KnownBytes.{append_known};
ghost use Rattle.hack_base.specs.Notes.{Note};
ghost use Rattle.hack_load.specs.ContextView.{context_view};
ghost use Rattle.hack_run.specs.CallTrace.{PerformsOne};
ghost use Rattle.hack_plan.specs.View.{PlanView};
ghost use Rattle.hack_planner.specs.CallPlan.{IsCauseOf, IsPlanOf};
ghost use Rattle.hack_run.specs.Internal.{EndsList, HandsOver, HandsOverAtMostOne, ListsOver};
ghost use Rattle.hack_run.specs.Internal.{ListsSteps, MayPerformItsPlan, PerformsAtMostOne};
ghost use Rattle.hack_run.specs.Internal.{PerformsItsPlan, host_writing};
ghost use Rattle.hack_session.specs.Internal.{IsWrittenStep};
ghost use Rattle.hack_run.specs.InternalExtensions.{Extends, MissesForACause};
ghost use Rattle.hack_drive.specs.Answered.{IsAnswered};
ghost use Rattle.hack_run.specs.Shown.{HasNoPlan, KeepsLooks, SaysList, SaysNoPlan, SaysStarved};
ghost use Rattle.hack_run.specs.Shown.{looks_of, scene_on};
ghost use Rattle.hack_run.specs.Worlds.{IsSameHost, host_view};

use crate::fault::RunFault;
use crate::gathered::{gather_on, room, write_last};
use crate::host::Host;
use hack_base::writes::Sink;
use hack_drive::drive::{Teller, drive_context};
use hack_load::context::Context;
use hack_planner::fault::PlanFault;
use hack_planner::stable::Stable;
use hack_process::process::{Caller, ProcessFault};
use hack_session::session::{Lines, Lister, Starter};
use hack_term::term::LogGroup;
use std::alloc::Global;
use std::io;

/// What came of listing.
#[derive(Drop)]
struct Listed {
    /// Whether memory was refused, or why there is no plan.
    refused: Result<bool, PlanFault>,
    /// Why a toolchain or a lockfile couldn't be made.
    fault: Option<ProcessFault>,
    /// How many lines were not written.
    failed: u64,
    /// Whether memory ran out for one of them.
    short: bool,
}

/// Writes the commands of the chosen piece of a context's plan. Toolchains are still installed, and
/// lockfiles still made.
pub(crate) fn print_list<C: Caller, O: Sink, E: Sink>(
    cx: &Context,
    stable: Stable,
    host: &mut Host<'_, C, O, E>,
) -> Result<(), RunFault>
    requires { IsAnswered (context_view cx.now).args stable }
    ensures host { IsSameHost host.old host.new }
    ensures done { OnOk result (PerformsItsPlan C.Caller O.Sink true
        (context_view cx.now) stable host.old host.new) }
    ensures made { MayPerformItsPlan C.Caller O.Sink true
        (context_view cx.now) stable host.old host.new }
    ensures course { C.course host.old.caller.now host.new.caller.now }
    ensures shown { C.tells → SaysNoPlan result true (context_view cx.now) stable
        (string_bytes host.old.env.now.rustup)
        (looks_of host.old.term.now) (looks_of host.new.term.now)
        (scene_on C.Caller O.Sink E.Sink host.old) (scene_on C.Caller O.Sink E.Sink host.new)
        ⊎ SaysStarved result (looks_of host.old.term.now) (looks_of host.new.term.now)
        (scene_on C.Caller O.Sink E.Sink host.old) (scene_on C.Caller O.Sink E.Sink host.new)
        ⊎ SaysList result C.tells (context_view cx.now) stable
        (string_bytes host.old.env.now.rustup)
        (looks_of host.old.term.now) (looks_of host.new.term.now)
        (scene_on C.Caller O.Sink E.Sink host.old) (scene_on C.Caller O.Sink E.Sink host.new) }
    ensures looks { KeepsLooks host.old.term.now host.new.term.now }
{
    let mut gathered = room(host.alloc)?;
    let came = hand_to_lister(cx, stable, &mut gathered, host);
    let flushed = write_last(host.out, &mut gathered);
    end_of_list(came, flushed)
}

/// Hands the plan to a lister whose lines are gathered for the host's output.
fn hand_to_lister<C: Caller, O: Sink, E: Sink>(
    cx: &Context,
    stable: Stable,
    gathered: &mut Vec<u8>,
    host: &mut Host<'_, C, O, E>,
) -> Listed
    requires { IsAnswered (context_view cx.now).args stable }
    ensures host { IsSameHost host.old host.new }
    ensures done { result.refused ≡ Ok false → result.fault ≡ None → result.failed ≡ 0
        → host.new.term.now.error ≡ false → C.tells
        → PerformsOne true true (context_view cx.now) stable
        (string_bytes host.old.env.now.rustup) host.old.term.now.warn
        (host_writing gathered.old.items (host_view C.Caller O.Sink host.old))
        (host_writing gathered.new.items (host_view C.Caller O.Sink host.new)) }
    ensures made { C.tells → PerformsAtMostOne true (context_view cx.now) stable
        (string_bytes host.old.env.now.rustup)
        (host_writing gathered.old.items (host_view C.Caller O.Sink host.old))
        (host_writing gathered.new.items (host_view C.Caller O.Sink host.new)) }
    ensures course { C.course host.old.caller.now host.new.caller.now }
    ensures grown { Extends (O.contents host.old.out.now) (O.contents host.new.out.now) }
    ensures missed { MissesForACause (O.failed host.old.out.now) (O.failed host.new.out.now)
        false result.short 0 result.failed }
    ensures shown { IfOk result.refused (λ _. ListsSteps
        ((result.refused ≡ Ok false) × (result.failed ≡ 0)) C.tells (context_view cx.now) stable
        (string_bytes host.old.env.now.rustup) result.fault host.new.term.now.error
        (looks_of host.old.term.now)
        (append_known (O.contents host.old.out.now) gathered.old.items)
        (append_known (O.contents host.new.out.now) gathered.new.items)
        (scene_on C.Caller O.Sink E.Sink host.old) (scene_on C.Caller O.Sink E.Sink host.new)) }
    ensures idle { OnErr result.refused (gathered.new.items ≡ gathered.old.items) }
    ensures unplanned { IfErr result.refused (HasNoPlan true (context_view cx.now) stable
        (string_bytes host.old.env.now.rustup)
        (looks_of host.old.term.now) (looks_of host.new.term.now)
        (scene_on C.Caller O.Sink E.Sink host.old) (scene_on C.Caller O.Sink E.Sink host.new)) }
    ensures looks { KeepsLooks host.old.term.now host.new.term.now }
{
    let rustup = host.env.rustup.as_str();
    let mut nothing = io::sink();
    let mut fault = None;
    let mut starter = Starter::new(
        host.alloc,
        host.caller,
        host.term,
        &mut nothing,
        host.err,
        &mut fault,
    );
    starter.set_manner(LogGroup::None, cx.args().keep_going);
    let mut line = String::new(host.alloc);
    let mut lines = gather_on(host.out, gathered, &mut line);
    let refused = list_over(host.alloc, cx, rustup, stable, &mut lines, &mut starter);
    Listed {
        refused,
        fault,
        failed: lines.failed,
        short: lines.short,
    }
}

/// Lists the plan on `out`, with a runner for the steps that aren't listed. Returns whether memory
/// was refused.
fn list_over<'a, W: Lines, R: Teller>(
    alloc: Global,
    cx: &Context,
    rustup: &str,
    stable: Stable,
    out: &'a mut W,
    runner: &'a mut R,
) -> Result<bool, PlanFault>
    requires { IsAnswered (context_view cx.now).args stable }
    ensures done { result ≡ Ok false → W.failed out.old ≡ 0 → W.failed out.new ≡ 0
        → ListsOver W.whole (W.contents out.old) (W.contents out.new) R.told R.ran
        (context_view cx.now) stable rustup.now runner.old runner.new }
    ensures stays { W.stays out.old out.new }
    ensures made { HandsOverAtMostOne W.whole (W.contents out.old) (W.contents out.new)
        R.told R.ran (context_view cx.now) stable rustup.now runner.old runner.new }
    ensures over { OnOk result ((over : HandsOver W.whole (W.contents out.old)
        (W.contents out.new) R.told R.ran (context_view cx.now) stable rustup.now
        runner.old runner.new) × (result ≡ Ok false → W.failed out.old ≡ 0 → W.failed out.new ≡ 0
        → All IsWrittenStep over.course.handed)) }
    ensures idle { OnErr result (out.new ≡ out.old) }
    ensures refused { IfErr result (λ e. (runner.new ≡ runner.old)
        ⊎ ((e ≡ PlanFault.Memory) × (plan : PlanView) × (notes : List Note)
        × IsPlanOf (context_view cx.now).args.subcommand stable (context_view cx.now) rustup.now
        plan notes × R.told notes runner.old runner.new)) }
    ensures err { IfErr result (λ e. (e ≡ PlanFault.Memory)
        ⊎ IsCauseOf (context_view cx.now).args.subcommand stable (context_view cx.now) e) }
{
    let mut lister = Lister {
        alloc,
        out,
        runner,
        refused: 0,
    };
    let _session = drive_context(alloc, cx, rustup, stable, &mut lister)?;
    Ok(lister.refused > 0)
}

/// Returns how the list ends; `flushed` is whether its last lines were written.
fn end_of_list(listed: Listed, flushed: bool) -> Result<(), RunFault>
    ensures ok { OnOk result ((listed.refused ≡ Ok false) × (listed.fault ≡ None)
        × (listed.failed ≡ 0) × (flushed ≡ true)) }
    ensures comes { EndsList listed.short
        ((listed.short ≡ false) × ((0 < listed.failed) ⊎ (flushed ≡ false)))
        listed.refused listed.fault result }
{
    let Listed {
        refused,
        fault,
        failed,
        short,
    } = listed;
    let refused = match refused {
        Ok(refused) => refused,
        Err(fault) => return Err(RunFault::Plan(fault)),
    };
    if refused || short {
        return Err(RunFault::Memory);
    }
    if let Some(fault) = fault {
        return Err(RunFault::Process(fault));
    }
    if failed > 0 || !flushed {
        return Err(RunFault::Unlisted);
    }
    Ok(())
}
