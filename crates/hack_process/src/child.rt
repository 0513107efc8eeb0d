//! Runs the programs of the system. No contract says what these do; tests check it.

ghost use Rattle.std.specs.Prelude.{◌≡◌, [], IfOk, false};
ghost use Rattle.std.specs.Process.{exit_code, exit_signal};
ghost use Rattle.hack_process.specs.Calls.{WroteNothing, answer_of};
ghost use Rattle.hack_base.specs.Names.{names_of};
ghost use Rattle.hack_process.specs.InternalEnds.{IsEndOf};
ghost use Rattle.hack_process.specs.SystemCommands.{Orders};

use crate::caller::{Called, Caller, End};
use std::alloc::{AllocError, Global};
use std::io;
use std::io::ErrorKind;
use std::os::unix::prelude::ExitStatusExt;
use std::process::{Command, ExitStatus, Processes};

/// Runs the programs of the system: each call starts one, without a shell, in the current folder,
/// and waits for its end. Where the output is captured, the input is empty. A name without a slash
/// is looked for in the folders of `PATH`.
#[derive(Drop)]
pub struct Child<R: Processes + Drop> {
    rt: R,
}

impl<R: Processes + Drop> Child<R> {
    /// A caller that starts programs by this handle of the runtime.
    pub fn new(rt: R) -> Self
        ensures { result.rt ≡ rt }
    {
        Child { rt }
    }

    /// Starts the program once, and waits for its end.
    fn start(&self, command: &mut Command, alloc: Global, capture: bool) -> io::Result<Called>
        ensures { capture ≡ false → IfOk result (λ called. WroteNothing (answer_of called)) }
    {
        if capture {
            let output = command.output(&self.rt)?;
            return Ok(Called {
                end: end_of(output.status),
                stdout: output.stdout,
                stderr: output.stderr,
            });
        }
        let status = command.status(&self.rt)?;
        Ok(Called::silent(alloc, end_of(status)))
    }
}

impl<R: Processes + Drop> Caller for Child<R> {
    ghost tells = { ⊥ };

    ghost calls = { λ _. [] };

    ghost course = { λ _ _. Unit {0} };

    ghost course_none = { λ _. tt };

    ghost course_more = { λ _ _ _ _ _. tt };

    fn call(
        &mut self,
        alloc: Global,
        program: &str,
        words: &[String],
        capture: bool,
    ) -> Result<Called, AllocError> {
        let mut command = system_command(alloc, program, words)?;
        match self.start(&mut command, alloc, capture) {
            Ok(called) => Ok(called),
            Err(e) if e.kind() == ErrorKind::OutOfMemory => Err(AllocError),
            Err(_) => Ok(Called::silent(alloc, End::NeverStarted)),
        }
    }
}

/// The command that a `Child` starts: the program with just these arguments, in the environment and
/// the folder of this process.
pub fn system_command(alloc: Global, program: &str, words: &[String]) -> Result<Command, AllocError>
    ensures { IfOk result (Orders program.now (names_of words.now)) }
{
    let mut command = Command::new(alloc, program)?;
    for word in words {
        command.arg(word.as_str())?;
    }
    Ok(command)
}

/// How a program ended, from the status that the system reports.
fn end_of(status: ExitStatus) -> End
    ensures { IsEndOf (exit_code status) (exit_signal status) result }
{
    if let Some(code) = status.code() {
        return End::Status(code);
    }
    match status.signal() {
        Some(signal) => End::Signal(signal),
        None => End::NeverStarted,
    }
}
