//! Toolchains that rustup adds.

ghost use Rattle.std.specs.Prelude.{◌≡◌, [], IfOk, false, map, string_bytes, true};
ghost use Rattle.hack_process.specs.Commands.{command_of};
ghost use Rattle.hack_session.specs.StepEffects.{DoesTask, TriesFirst, adding_task, scene_of};
ghost use Rattle.hack_session.specs.StepEffects.{task_of};
ghost use Rattle.hack_session.specs.StepOutput.{IsSameScreen, manner_on};
ghost use Rattle.hack_session.specs.Toolchains.{addition_of, toolchain_name, trial_of};

use crate::calls::{call, call_in_group, is_memory};
use crate::screen::{Screen, running};
use hack_base::writes::Sink;
use hack_process::process::{Caller, ProcessBuilder, ProcessFault};
use std::alloc::{AllocError, Global};

/// Makes sure that rustup has a toolchain with these targets. Where there are none, it is tried,
/// and added if that fails; where there are some, it is added at once. One leading `+` of its name
/// is dropped. Without `print_output` nothing is printed, and what rustup writes is dropped.
pub fn install_toolchain<C: Caller, O: Sink, E: Sink>(
    alloc: Global,
    caller: &mut C,
    screen: &mut Screen<'_, O, E>,
    rustup: &str,
    toolchain: &str,
    target: &[String],
    print_output: bool,
    dir: &str,
) -> Result<(), ProcessFault>
    ensures does { TriesFirst C.tells (map string_bytes target.now)
        (task_of [] true dir.now (trial_of rustup.now (toolchain_name toolchain.now)))
        (adding_task print_output (manner_on screen.old) dir.now (addition_of rustup.now
        (toolchain_name toolchain.now) (map string_bytes target.now))) result
        (scene_of C.Caller O.Sink E.Sink caller.old screen.old)
        (scene_of C.Caller O.Sink E.Sink caller.new screen.new) }
    ensures quiet { print_output ≡ false → screen.new ≡ screen.old }
    ensures screen { IsSameScreen screen.old screen.new }
    ensures course { C.course caller.old caller.new }
{
    let commands = commands(alloc, rustup, without_plus(toolchain), target)?;
    if !target.is_empty() {
        return add_toolchain(alloc, caller, screen, &commands.add, print_output, dir);
    }
    try_toolchain(alloc, caller, screen, &commands, print_output, dir)
}

/// The commands on a toolchain.
#[derive(Drop)]
struct ToolchainCommands {
    /// It fails where the toolchain isn't installed.
    trial: ProcessBuilder<'static>,
    /// It adds the toolchain.
    add: ProcessBuilder<'static>,
}

/// Makes the commands that try and add a toolchain with these targets.
fn commands(
    alloc: Global,
    rustup: &str,
    toolchain: &str,
    target: &[String],
) -> Result<ToolchainCommands, AllocError>
    ensures trial { IfOk result (λ commands. command_of commands.trial
        ≡ trial_of rustup.now toolchain.now) }
    ensures add { IfOk result (λ commands. command_of commands.add
        ≡ addition_of rustup.now toolchain.now (map string_bytes target.now)) }
{
    let trial = trial(alloc, rustup, toolchain)?;
    let add = addition(alloc, rustup, toolchain, target)?;
    Ok(ToolchainCommands { trial, add })
}

/// Tries a toolchain with one command, and adds it with another if that fails.
fn try_toolchain<C: Caller, O: Sink, E: Sink>(
    alloc: Global,
    caller: &mut C,
    screen: &mut Screen<'_, O, E>,
    commands: &ToolchainCommands,
    print_output: bool,
    dir: &str,
) -> Result<(), ProcessFault>
    ensures does { TriesFirst C.tells []
        (task_of [] true dir.now (command_of commands.now.trial))
        (adding_task print_output (manner_on screen.old) dir.now (command_of commands.now.add))
        result (scene_of C.Caller O.Sink E.Sink caller.old screen.old)
        (scene_of C.Caller O.Sink E.Sink caller.new screen.new) }
    ensures quiet { print_output ≡ false → screen.new ≡ screen.old }
    ensures screen { IsSameScreen screen.old screen.new }
    ensures course { C.course caller.old caller.new }
{
    match call(alloc, caller, &commands.trial, false, dir) {
        Ok(()) => Ok(()),
        Err(fault) => {
            if is_memory(&fault) {
                return Err(fault);
            }
            add_toolchain(alloc, caller, screen, &commands.add, print_output, dir)
        }
    }
}

/// Adds a toolchain.
fn add_toolchain<C: Caller, O: Sink, E: Sink>(
    alloc: Global,
    caller: &mut C,
    screen: &mut Screen<'_, O, E>,
    add: &ProcessBuilder<'_>,
    print_output: bool,
    dir: &str,
) -> Result<(), ProcessFault>
    ensures does { DoesTask C.tells
        (adding_task print_output (manner_on screen.old) dir.now (command_of add.now)) result
        (scene_of C.Caller O.Sink E.Sink caller.old screen.old)
        (scene_of C.Caller O.Sink E.Sink caller.new screen.new) }
    ensures quiet { print_output ≡ false → screen.new ≡ screen.old }
    ensures screen { IsSameScreen screen.old screen.new }
    ensures course { C.course caller.old caller.new }
{
    if !print_output {
        return call(alloc, caller, add, false, dir);
    }
    let text = running(alloc, add, screen.term.verbose, dir)?;
    call_in_group(alloc, caller, screen, add, &text, dir)
}

/// The name without one leading `+`.
fn without_plus(toolchain: &str) -> &str
    ensures { result.now ≡ toolchain_name toolchain.now }
{
    toolchain.strip_prefix('+').unwrap_or(toolchain)
}

/// Makes the command that fails where a toolchain isn't installed.
fn trial(
    alloc: Global,
    rustup: &str,
    toolchain: &str,
) -> Result<ProcessBuilder<'static>, AllocError>
    ensures { IfOk result (λ command. command_of command
        ≡ trial_of rustup.now toolchain.now) }
{
    let mut command = ProcessBuilder::new(alloc, rustup)?;
    command.args(&["run", toolchain, "cargo", "--version"])?;
    Ok(command)
}

/// Makes the command that adds a toolchain.
fn addition(
    alloc: Global,
    rustup: &str,
    toolchain: &str,
    target: &[String],
) -> Result<ProcessBuilder<'static>, AllocError>
    ensures { IfOk result (λ command. command_of command
        ≡ addition_of rustup.now toolchain.now (map string_bytes target.now)) }
{
    let mut command = ProcessBuilder::new(alloc, rustup)?;
    command.args(&["toolchain", "add", toolchain, "--no-self-update"])?;
    if target.is_empty() {
        return Ok(command);
    }
    let targets = target.join(alloc, ",")?;
    command.args(&["--target", targets.as_str()])?;
    Ok(command)
}
