//! A child that runs, with the files that take what it writes.

ghost use Rattle.std.specs.Process.{exit_code, exit_signal};
ghost use Rattle.hack_process.specs.InternalEnds.{IsEndOf};

use crate::captures::copy_whole;
use hack_process::process::End;
use std::alloc::Global;
use std::fs::File;
use std::io;
use std::io::Write;
use std::os::unix::prelude::ExitStatusExt;
use std::process::{Child, Command, ExitStatus, OpenProcess, Processes, Stdio};

/// Ends a process and all below it. Each is stopped first, so that it starts nothing more while its
/// children are ended. A kernel may be built without the files `children`.
const SCRIPT: &str =
    r#"end() { kill -STOP "$1"; for child in $(cat "/proc/$1/task/"*/children || pgrep -P "$1"); do end "$child"; done; kill -KILL "$1"; }; end "$1""#;

/// A child that was started for a place.
#[derive(Drop)]
pub struct Running<P: OpenProcess> {
    pub place: usize,
    pub child: Child<P>,
    pub output: File,
    /// What it wrote to its standard error, unless that is in `output` too.
    pub errors: Option<File>,
}

impl<P: OpenProcess> Running<P> {
    /// Whether the child has ended. Where nobody can tell, it has not.
    pub fn has_ended(&mut self) -> bool {
        matches!(self.child.try_wait(), Ok(Some(_)))
    }

    /// Waits for the child, and returns how it ended.
    pub fn wait(&mut self) -> End {
        match self.child.wait() {
            Ok(status) => end_of(status),
            Err(_) => End::NeverStarted,
        }
    }

    /// Writes all that the child wrote, and returns whether standard output took its part. What
    /// standard error doesn't take is let go.
    pub fn show<O: Write, E: Write>(&self, out: &mut O, err: &mut E) -> bool {
        let shown = copy_whole(&self.output, out);
        if let Some(errors) = &self.errors {
            let _ = copy_whole(errors, err);
        }
        shown.is_ok()
    }

    /// Ends the child with all that it started, unless it has ended, and waits for it. What a child
    /// started that has ended already goes on: nobody knows it any more.
    pub fn end<R: Processes>(&mut self, rt: &R, alloc: Global) {
        // The number of a child that was waited for may be another's.
        if let Ok(None) = self.child.try_wait() {
            let _ = end_tree(rt, alloc, self.child.id());
        }
        if self.child.kill().is_ok() {
            let _ = self.child.wait();
        }
    }
}

/// Ends a child that was not waited for, and all that it started, by a shell.
fn end_tree<R: Processes>(rt: &R, alloc: Global, process: u32) -> io::Result<()> {
    let process = format!(in alloc; "{process}")?;
    let mut command = Command::new(alloc, "sh")?;
    command.arg("-c")?;
    command.arg(SCRIPT)?;
    command.arg("sh")?;
    command.arg(process.as_str())?;
    command.stdin(Stdio::null());
    command.stdout(Stdio::null());
    command.stderr(Stdio::null());
    command.status(rt)?;
    Ok(())
}

/// How a program ended, from the status that the system reports.
fn end_of(status: ExitStatus) -> End
    ensures { IsEndOf (exit_code status) (exit_signal status) result }
{
    if let Some(code) = status.code() {
        return End::Status(code);
    }
    match status.signal() {
        Some(signal) => End::Signal(signal),
        None => End::NeverStarted,
    }
}
