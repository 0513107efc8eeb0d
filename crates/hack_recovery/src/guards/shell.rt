//! Guards by the shell of the system. No contract says what it does; tests check it.

ghost use Rattle.std.specs.Prelude.{◌≡◌, [], None, false};

use crate::guards::Guards;
use std::alloc::{AllocError, Global};
use std::io::{ErrorKind, Write};
use std::process::{Child, Command, OpenProcess, Processes, Stdio};
use std::{env, io, rt};

/// What the shell does. Interrupts reach the whole group of a terminal, so it ignores them, as its
/// children then do. It waits for a line; where its input ends without one, this call has ended. It
/// runs the program twice, since the lock of a process that has just ended may still be seen.
const SCRIPT: &str =
    r#"trap '' INT TERM HUP QUIT; read -r line || { "$0" hack --restore; exec "$0" hack --restore; }"#;

/// Guards that are shells of the system: each holds the other end of a pipe, which closes when this
/// process ends, and then runs this very program to restore.
#[derive(Drop)]
pub struct ShellGuards<R: Processes + rt::Files + AllocGlobal + Drop> {
    rt: R,
    guard: Option<Child<R::Started>>,
}

impl<R: Processes + rt::Files + AllocGlobal + Drop> ShellGuards<R> {
    /// Guards by this handle of the runtime, of which none is started.
    pub fn new(rt: R) -> Self
        ensures rt { result.rt ≡ rt }
        ensures guard { result.guard ≡ None }
    {
        ShellGuards { rt, guard: None }
    }

    fn spawn(&self, alloc: Global, folder: &str) -> io::Result<Child<R::Started>> {
        let program = env::current_exe(&self.rt)?;
        let mut command = Command::new(alloc, "sh")?;
        command.arg("-c")?;
        command.arg(SCRIPT)?;
        command.arg(program.as_str())?;
        command.env("CARGO_HACK_GUARD", "1")?;
        if !folder.is_empty() {
            command.current_dir(folder)?;
        }
        command.stdin(Stdio::piped());
        command.stdout(Stdio::null());
        command.spawn(&self.rt)
    }
}

impl<R: Processes + rt::Files + AllocGlobal + Drop> Guards for ShellGuards<R> {
    ghost tells = { ⊥ };

    ghost shown = { λ _. record { starts = []; is_watching = false; status = None } };

    fn start(&mut self, alloc: Global, folder: &str) -> Result<bool, AllocError> {
        match self.spawn(alloc, folder) {
            Ok(guard) => {
                self.guard = Some(guard);
                Ok(true)
            }
            Err(e) if e.kind() == ErrorKind::OutOfMemory => Err(AllocError),
            Err(_) => Ok(false),
        }
    }

    fn leave(&mut self, status: u8) {
        if let Some(mut guard) = self.guard.take() {
            if let Some(input) = &mut guard.stdin {
                let _ = write!(input, "{status}\n");
            }
            let _ = guard.wait();
        }
    }
}
