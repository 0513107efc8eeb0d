//! Commands that are run through a caller, and what the caller was asked.

ghost use Rattle.std.specs.Prelude.{◌≡◌, true, false, not};
ghost use Rattle.hack_process.specs.CommandTexts.{text_of};
ghost use Rattle.hack_process.specs.Commands.{asked_of, command_of};
ghost use Rattle.hack_session.specs.StepEffects.{ComesTo, DoesTask, is_memory as is_want};
ghost use Rattle.hack_session.specs.StepEffects.{scene_of, task_of};
ghost use Rattle.hack_session.specs.StepOutput.{IsSameScreen, group_said, manner_on};

use crate::screen::Screen;
use hack_base::writes::Sink;
use hack_process::process::{Caller, ProcessBuilder, ProcessFault};
use std::alloc::Global;

/// Runs a command with the standard streams of this process. Without `print_output` what it writes
/// is dropped.
pub(crate) fn call<C: Caller>(
    alloc: Global,
    caller: &mut C,
    command: &ProcessBuilder<'_>,
    print_output: bool,
    dir: &str,
) -> Result<(), ProcessFault>
    ensures comes { ComesTo C.tells (asked_of (not print_output) (command_of command.now))
        (text_of true dir.now (command_of command.now)) result
        (C.calls caller.old) (C.calls caller.new) }
    ensures course { C.course caller.old caller.new }
{
    if print_output {
        return command.run(alloc, caller, dir);
    }
    match command.run_with_output(alloc, caller, dir) {
        Ok(_) => Ok(()),
        Err(fault) => Err(fault),
    }
}

/// Runs a command within a log group that begins with a text.
pub(crate) fn call_in_group<C: Caller, O: Sink, E: Sink>(
    alloc: Global,
    caller: &mut C,
    screen: &mut Screen<'_, O, E>,
    command: &ProcessBuilder<'_>,
    text: &str,
    dir: &str,
) -> Result<(), ProcessFault>
    ensures does { DoesTask C.tells (task_of (group_said (manner_on screen.old) text.now) false
        dir.now (command_of command.now)) result
        (scene_of C.Caller O.Sink E.Sink caller.old screen.old)
        (scene_of C.Caller O.Sink E.Sink caller.new screen.new) }
    ensures screen { IsSameScreen screen.old screen.new }
    ensures course { C.course caller.old caller.new }
{
    let guard = screen.open(text);
    let came = call(alloc, caller, command, true, dir);
    screen.close(guard);
    came
}

/// Returns whether a command failed because memory was refused.
pub(crate) fn is_memory(fault: &ProcessFault) -> bool
    ensures { result ≡ is_want fault.now }
{
    matches!(fault, ProcessFault::Memory)
}
