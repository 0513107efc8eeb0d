//! The search for conflicts of a call: for each package the least sets of features that fail.

ghost use Rattle.std.specs.Prelude.{◌≡◌, ◌⊎◌, Err, IfErr, List, None, Ok, OnErr, OnOk, false, true};
ghost use Rattle.hack_base.specs.Streams.{stream_of};
ghost use Rattle.hack_culprits.specs.declared.fault.CulpritsFault.TheVariants.{Ended};
ghost use Rattle.hack_hunt.specs.Hunts.{came_of};
ghost use Rattle.hack_hunt.specs.declared.hunt.Hunted.{Hunted as FoundSets};
ghost use Rattle.hack_load.specs.ContextView.{context_view};
ghost use Rattle.hack_planner.specs.declared.stable.Stable.{Stable};
ghost use Rattle.hack_run.specs.CallTrace.{PerformsOne};
ghost use Rattle.hack_run.specs.Conclusions.{SaysSearch, hunt_conclusion, reason_text};
ghost use Rattle.hack_run.specs.Internal.{HandsSteps, PerformsAtMostOne, Reports};
ghost use Rattle.hack_run.specs.Lanes.{RunsOne};
ghost use Rattle.hack_run.specs.Shown.{HasNoPlan, KeepsLooks, looks_of, scene_at};
ghost use Rattle.hack_run.specs.Worlds.{host_of};

use crate::execute::{keep, manner};
use crate::tell::{cut_off, fail};
use hack_base::writes::Sink;
use hack_culprits::fault::CulpritsFault;
use hack_drive::drive::{Hunt, hunt_context};
use hack_lanes::turns::Turns;
use hack_load::context::Context;
use hack_planner::fault::PlanFault;
use hack_process::process::ProcessFault;
use hack_report::conflict_lines::tell_hunted;
use hack_session::session::Starter;
use hack_side::serial::Serial;
use hack_term::term::Term;
use std::alloc::Global;

/// Has a starter whose programs are called in lanes, one after another, search for conflicts, and
/// reports what was found, unless the search was broken off. Where a set fails, `fails` keeps that.
pub(crate) fn hunt_in_lanes<L: Turns, O: Sink, E: Sink>(
    alloc: Global,
    cx: &Context,
    rustup: &str,
    lanes: &mut L,
    term: &mut Term,
    out: &mut O,
    err: &mut E,
    fault: &mut Option<ProcessFault>,
    fails: &mut bool,
) -> Result<(), PlanFault>
    requires search { (context_view cx.now).args.find_conflicts ≡ true }
    requires fresh { fault.old ≡ None }
    ensures done { OnOk result (fault.new ≡ None → term.new.error ≡ false → L.tells
        → (stable : Stable)
        → PerformsOne true false (context_view cx.now) stable rustup.now term.old.warn
        (host_of L.Caller O.Sink lanes.old out.old term.old fails.old)
        (host_of L.Caller O.Sink lanes.new out.new term.new fails.new)) }
    ensures made { L.tells → (stable : Stable)
        → PerformsAtMostOne false (context_view cx.now) stable rustup.now
        (host_of L.Caller O.Sink lanes.old out.old term.old fails.old)
        (host_of L.Caller O.Sink lanes.new out.new term.new fails.new) }
    ensures lanes { OnOk result ((stable : Stable)
        → RunsOne L.did (context_view cx.now) stable rustup.now
        (L.scene lanes.old) (L.scene lanes.new)) }
    ensures stays { L.stays lanes.old lanes.new }
    ensures refused { OnErr result (lanes.new ≡ lanes.old) }
    ensures shown { OnOk result ((stable : Stable)
        → HandsSteps L.tells (context_view cx.now) stable rustup.now
        fault.new term.new.error (looks_of term.old) None
        (scene_at (L.calls lanes.old) O.Sink E.Sink out.old err.old)
        (scene_at (L.calls lanes.new) O.Sink E.Sink out.new err.new)) }
    ensures unplanned { IfErr result (λ e. (stable : Stable)
        → HasNoPlan false (context_view cx.now) stable rustup.now
        (looks_of term.old) (looks_of term.new)
        (scene_at (L.calls lanes.old) O.Sink E.Sink out.old err.old)
        (scene_at (L.calls lanes.new) O.Sink E.Sink out.new err.new) e) }
    ensures looks { KeepsLooks term.old term.new }
{
    let (log_group, _) = manner(cx.args());
    let mut starter = Starter::new(alloc, lanes, term, out, err, fault);
    starter.set_manner(log_group, false);
    let mut serial = Serial { starter };
    let hunt = hunt_context(alloc, cx, rustup, &mut serial)?;
    let refused = serial.starter.refused > 0;
    settle(alloc, cx, &hunt, refused, fault, fails, term, err);
    Ok(())
}

/// Reports what a search found, and keeps whether a set fails. Where the search was broken off,
/// `fault` says why, or memory was refused, which is told already. Else a run that failed is no error
/// of the call.
fn settle<E: Sink>(
    alloc: Global,
    cx: &Context,
    hunt: &Hunt,
    refused: bool,
    fault: &mut Option<ProcessFault>,
    fails: &mut bool,
    term: &mut Term,
    err: &mut E,
)
    ensures error { term.new.error ≡ false → term.old.error ≡ false }
    ensures ends { fault.new ≡ None → term.new.error ≡ false → (refused ≡ false)
        × (((fault.old ≡ None) × (came_of hunt.now.found ≡ Err Ended))
        ⊎ ((found : List FoundSets) × (came_of hunt.now.found ≡ Ok found)
        × Reports found fails.old fails.new term.old.warn term.new.warn)) }
    ensures shown { SaysSearch refused
        (hunt_conclusion (context_view cx.now).args.verbose hunt.now.plan (came_of hunt.now.found))
        term.old.coloring fault.old term.old.error fault.new term.new.error
        (stream_of E.Sink err.old) (stream_of E.Sink err.new) }
    ensures looks { KeepsLooks term.old term.new }
{
    if refused {
        return cut_off(fault, term);
    }
    match &hunt.found {
        Ok(found) => {
            *fault = None;
            let found = found.as_slice();
            let verbose = cx.args().verbose;
            let told = tell_hunted(alloc, verbose, &hunt.plan, found, term.coloring, err);
            keep(told, fails, term, err)
        }
        Err(CulpritsFault::Ended) => {}
        Err(why) => {
            *fault = None;
            fail(reason_of(*why), term, err)
        }
    }
}

/// Why a search was cut short, where no run has said so.
fn reason_of(fault: CulpritsFault) -> &'static str
    ensures { result.now ≡ reason_text fault }
{
    match fault {
        CulpritsFault::TooManyRuns => "too many runs",
        CulpritsFault::Memory | CulpritsFault::Ended => "out of memory",
    }
}
