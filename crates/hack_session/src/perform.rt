//! The steps of a plan, performed by commands.

ghost use Rattle.std.specs.Prelude.{◌≡◌, ◌<◌, ◌^◌, IfOk, IsSomeAnd, None, length};
ghost use Rattle.std.specs.Prelude.{option_map, slice_get, string_bytes};
ghost use Rattle.hack_process.specs.Commands.{command_of};
ghost use Rattle.hack_plan.specs.Commands.{clean_command, command_of_entry, name_in};
ghost use Rattle.hack_plan.specs.Commands.{chosen_package_at};
ghost use Rattle.hack_session.specs.Histories.{IsStepOf};
ghost use Rattle.hack_session.specs.StepCalls.{number_at};
ghost use Rattle.hack_session.specs.StepEffects.{DoesTask, DoesTasks, EnsuresToolchain, Performed};
ghost use Rattle.hack_session.specs.StepEffects.{Runs, Skips, cleaning_task, lockfile_tasks};
ghost use Rattle.hack_session.specs.StepEffects.{own_task, scene_of};
ghost use Rattle.hack_session.specs.StepOutput.{IsSameScreen, Streams, manner_on, streams_of};
ghost use Rattle.hack_session.specs.Statuses.{place_status, shown_total, told_name as name_told};

use crate::calls::{call, call_in_group};
use crate::rustup::install_toolchain;
use crate::screen::{Screen, Status};
use crate::step::Step;
use hack_base::writes::Sink;
use hack_plan::parts::Preparation;
use hack_plan::plan::{Plan, PlannedCommand, toolchain};
use hack_process::process::{Caller, ProcessBuilder, ProcessFault};
use hack_versions::version::Version;
use std::alloc::{AllocError, Global};

/// Performs a step. `ProcessFault::Memory` means that memory was refused, which cut the step short.
pub(crate) fn perform<C: Caller, O: Sink, E: Sink>(
    alloc: Global,
    plan: &Plan,
    step: Step,
    caller: &mut C,
    screen: &mut Screen<'_, O, E>,
) -> Result<(), ProcessFault>
    requires { IsStepOf plan.now step }
    ensures does { Performed C.tells (manner_on screen.old) plan.now step result
        (scene_of C.Caller O.Sink E.Sink caller.old screen.old)
        (scene_of C.Caller O.Sink E.Sink caller.new screen.new) }
    ensures screen { IsSameScreen screen.old screen.new }
    ensures course { C.course caller.old caller.new }
{
    match step {
        Step::Prepare(Preparation::Toolchain(version)) => {
            install(alloc, caller, screen, plan, number(plan, version))
        }
        Step::Prepare(Preparation::Lockfile(version)) => {
            generate_lockfile(alloc, caller, plan, number(plan, version))
        }
        Step::Prepare(Preparation::Clean(_)) => clean_all(alloc, caller, screen, plan),
        Step::Skip(place) => skip(alloc, screen, plan, place),
        Step::Run(place) => run(alloc, caller, screen, plan, place),
    }
}

/// The number of a version; none where it has none.
fn number(plan: &Plan, version: usize) -> Option<Version>
    ensures { result ≡ number_at (slice_get plan.now.versions version) }
{
    match plan.versions().get(version) {
        Some(version) => version.version,
        None => None,
    }
}

/// Makes sure that a version's toolchain is installed, where the version has a number.
fn install<C: Caller, O: Sink, E: Sink>(
    alloc: Global,
    caller: &mut C,
    screen: &mut Screen<'_, O, E>,
    plan: &Plan,
    number: Option<Version>,
) -> Result<(), ProcessFault>
    ensures does { EnsuresToolchain C.tells (manner_on screen.old) plan.now number result
        (scene_of C.Caller O.Sink E.Sink caller.old screen.old)
        (scene_of C.Caller O.Sink E.Sink caller.new screen.new) }
    ensures screen { IsSameScreen screen.old screen.new }
    ensures course { C.course caller.old caller.new }
{
    match number {
        Some(number) => {
            let name = toolchain(alloc, number)?;
            install_toolchain(
                alloc,
                caller,
                screen,
                plan.rustup(),
                name.as_str(),
                plan.targets(),
                true,
                plan.dir(),
            )
        }
        None => Ok(()),
    }
}

/// Makes a version's lockfile, where the version has a number.
fn generate_lockfile<C: Caller>(
    alloc: Global,
    caller: &mut C,
    plan: &Plan,
    number: Option<Version>,
) -> Result<(), ProcessFault>
    ensures does { (streams : Streams) → DoesTasks C.tells (lockfile_tasks plan.now number) result
        (record { calls = C.calls caller.old; streams = streams })
        (record { calls = C.calls caller.new; streams = streams }) }
    ensures course { C.course caller.old caller.new }
{
    match number {
        Some(number) => {
            let command = plan.lockfile(alloc, number)?;
            call(alloc, caller, &command, false, plan.dir())
        }
        None => Ok(()),
    }
}

/// Removes what was built before.
fn clean_all<C: Caller, O: Sink, E: Sink>(
    alloc: Global,
    caller: &mut C,
    screen: &mut Screen<'_, O, E>,
    plan: &Plan,
) -> Result<(), ProcessFault>
    ensures does { DoesTask C.tells (cleaning_task (manner_on screen.old) plan.now.call.dir
        (clean_command plan.now.call None)) result
        (scene_of C.Caller O.Sink E.Sink caller.old screen.old)
        (scene_of C.Caller O.Sink E.Sink caller.new screen.new) }
    ensures screen { IsSameScreen screen.old screen.new }
    ensures course { C.course caller.old caller.new }
{
    let command = plan.cleaning(alloc)?;
    clean(alloc, caller, screen, &command, plan.dir())
}

/// Runs a cleaning.
fn clean<C: Caller, O: Sink, E: Sink>(
    alloc: Global,
    caller: &mut C,
    screen: &mut Screen<'_, O, E>,
    command: &ProcessBuilder<'_>,
    dir: &str,
) -> Result<(), ProcessFault>
    ensures does { DoesTask C.tells (cleaning_task (manner_on screen.old) dir.now
        (command_of command.now)) result
        (scene_of C.Caller O.Sink E.Sink caller.old screen.old)
        (scene_of C.Caller O.Sink E.Sink caller.new screen.new) }
    ensures screen { IsSameScreen screen.old screen.new }
    ensures course { C.course caller.old caller.new }
{
    screen.tell_cleaning(alloc, command, dir)?;
    call(alloc, caller, command, true, dir)
}

/// Prints that a place is skipped.
fn skip<O: Sink, E: Sink>(
    alloc: Global,
    screen: &mut Screen<'_, O, E>,
    plan: &Plan,
    place: usize,
) -> Result<(), ProcessFault>
    requires { place < length plan.now.entries }
    ensures says { IsSomeAnd (slice_get plan.now.entries place) (λ q.
        Skips (manner_on screen.old) plan.now place q result
        (streams_of O.Sink E.Sink screen.old) (streams_of O.Sink E.Sink screen.new)) }
    ensures screen { IsSameScreen screen.old screen.new }
{
    screen.space(place);
    let run = plan.run(alloc, place)?;
    let text = status(alloc, "skipping", screen.term.verbose, plan, place, &run)?;
    let guard = screen.open(&text);
    screen.close(guard);
    Ok(())
}

/// Runs a place: its cleaning where runs are cleaned, and its own command.
fn run<C: Caller, O: Sink, E: Sink>(
    alloc: Global,
    caller: &mut C,
    screen: &mut Screen<'_, O, E>,
    plan: &Plan,
    place: usize,
) -> Result<(), ProcessFault>
    requires { place < length plan.now.entries }
    ensures does { IsSomeAnd (slice_get plan.now.entries place) (λ q.
        Runs C.tells (manner_on screen.old) plan.now place q result
        (scene_of C.Caller O.Sink E.Sink caller.old screen.old)
        (scene_of C.Caller O.Sink E.Sink caller.new screen.new)) }
    ensures screen { IsSameScreen screen.old screen.new }
    ensures course { C.course caller.old caller.new }
{
    screen.space(place);
    let run = plan.run(alloc, place)?;
    if !plan.cleans_per_run() {
        return run_own(alloc, caller, screen, place, plan, &run);
    }
    let cleaning = plan.run_cleaning(alloc, place)?;
    match clean(alloc, caller, screen, &cleaning, plan.dir()) {
        Ok(()) => run_own(alloc, caller, screen, place, plan, &run),
        Err(fault) => Err(fault),
    }
}

/// Prints a place's status, and runs its own command.
fn run_own<C: Caller, O: Sink, E: Sink>(
    alloc: Global,
    caller: &mut C,
    screen: &mut Screen<'_, O, E>,
    place: usize,
    plan: &Plan,
    run: &PlannedCommand<'_>,
) -> Result<(), ProcessFault>
    requires place { place < length plan.now.entries }
    requires name { option_map (λ name. name.now) run.now.name
        ≡ name_in (chosen_package_at plan.now.packages run.now.entry.package) }
    requires command { command_of run.now.command ≡ command_of_entry plan.now run.now.entry }
    ensures does { DoesTask C.tells (own_task (manner_on screen.old) plan.now place
        run.now.entry) result
        (scene_of C.Caller O.Sink E.Sink caller.old screen.old)
        (scene_of C.Caller O.Sink E.Sink caller.new screen.new) }
    ensures screen { IsSameScreen screen.old screen.new }
    ensures course { C.course caller.old caller.new }
{
    let text = status(alloc, "running", screen.term.verbose, plan, place, run)?;
    call_in_group(alloc, caller, screen, &run.command, &text, plan.dir())
}

/// The status of a place.
fn status(
    alloc: Global,
    verb: &str,
    verbose: bool,
    plan: &Plan,
    place: usize,
    run: &PlannedCommand<'_>,
) -> Result<String, AllocError>
    requires place { place < length plan.now.entries }
    requires name { option_map (λ name. name.now) run.now.name
        ≡ name_in (chosen_package_at plan.now.packages run.now.entry.package) }
    requires command { command_of run.now.command ≡ command_of_entry plan.now run.now.entry }
    ensures { IfOk result (λ text. string_bytes text
        ≡ place_status verb.now verbose plan.now place run.now.entry) }
{
    let total = total_of(plan);
    let command = run.command.text(alloc, false, verbose, plan.dir())?;
    let status = Status {
        verb,
        command: command.as_str(),
        name: told_name(verbose, run.name),
        number: place + 1,
        total,
    };
    format!(in alloc; "{status}")
}

/// The number of all places; none where places are added while the plan is run.
fn total_of(plan: &Plan) -> Option<usize>
    ensures value { result ≡ shown_total plan.now }
    ensures short { length plan.now.entries < 2 ^ 32 }
{
    let total = plan.len();
    if plan.grows() {
        return None;
    }
    Some(total)
}

/// Returns the package's name to show: none under `--verbose`, where commands are shown in full.
fn told_name(verbose: bool, name: Option<&str>) -> Option<&str>
    ensures { option_map (λ name. name.now) result
        ≡ name_told verbose (option_map (λ name. name.now) name.entry) }
{
    if verbose { None } else { name }
}
