//! Why a command failed.

ghost use Rattle.std.specs.Prelude.{◌≡◌, [], Some, string_bytes};
ghost use Rattle.hack_process.specs.Faults.{IsCapturedText, ShowsNothing, ReportsAnswer};
ghost use Rattle.hack_process.specs.Faults.{failure_text, fault_text, output_text};
ghost use Rattle.hack_process.specs.Calls.{WroteNothing, answer_of};

use crate::caller::{Called, End};
use std::alloc::{AllocError, AllocFailed, Global};
use std::error::Error;
use std::fmt;

/// Why a command failed. A `String` in it is the command's long text.
#[derive(Debug, Drop)]
pub enum ProcessFault {
    Memory,
    /// The command's program has no name.
    EmptyProgram,
    /// The command could not be started.
    NeverExecuted(String),
    /// The command was started, and didn't end with status 0.
    Failed(Failure),
    /// What the command wrote to its output is not UTF-8.
    NotText(String),
}

/// A command that was started and didn't end with status 0.
#[derive(Debug, Drop)]
pub struct Failure {
    /// The command's long text.
    pub command: String,
    pub end: End,
    /// What was captured of its output; empty where that is not UTF-8, or white space alone.
    pub stdout: String,
    /// What was captured of its error stream; empty in the same cases.
    pub stderr: String,
}

impl Failure {
    pub(crate) fn new(alloc: Global, command: String, called: Called) -> Failure
        ensures command { result.command ≡ command }
        ensures tells { ReportsAnswer result (answer_of called) }
        ensures bare { WroteNothing (answer_of called) → ShowsNothing (ProcessFault.Failed result) }
    {
        Failure {
            command,
            end: called.end,
            stdout: shown_text(alloc, called.stdout),
            stderr: shown_text(alloc, called.stderr),
        }
    }
}

/// Returns the bytes as a text, or an empty one where they are not UTF-8, or white space alone.
fn shown_text(alloc: Global, bytes: Vec<u8>) -> String
    ensures shown { IsCapturedText bytes.items (string_bytes result) }
    ensures none { bytes.items ≡ [] → string_bytes result ≡ [] }
{
    match String::from_utf8(bytes) {
        Ok(text) => {
            if text.trim_start().is_empty() {
                return String::new(alloc);
            }
            text
        }
        Err(_) => String::new(alloc),
    }
}

impl fmt::Display for Failure {
    ghost output = { λ failure. Some (failure_text failure) };

    fn fmt<W: fmt::Write>(&self, f: &mut fmt::Formatter<W>) -> fmt::Result {
        let command = &self.command;
        let end = self.end;
        let stdout = Output {
            name: "stdout",
            text: self.stdout.as_str(),
        };
        let stderr = Output {
            name: "stderr",
            text: self.stderr.as_str(),
        };
        write!(
            f,
            "process didn't exit successfully: {command} ({end}){stdout}{stderr}"
        )
    }
}

/// What a command wrote to a stream, after a line with the stream's name. Where it wrote nothing,
/// nothing is shown.
#[derive(Drop)]
struct Output<'a> {
    name: &'a str,
    text: &'a str,
}

impl fmt::Display for Output<'_> {
    ghost output = { λ output. Some (output_text output.name.now output.text.now) };

    fn fmt<W: fmt::Write>(&self, f: &mut fmt::Formatter<W>) -> fmt::Result {
        let name = self.name;
        let text = self.text;
        if text.is_empty() {
            return Ok(());
        }
        write!(f, "\n--- {name}\n{text}")
    }
}

impl fmt::Display for ProcessFault {
    ghost output = { λ fault. Some (fault_text fault) };

    fn fmt<W: fmt::Write>(&self, f: &mut fmt::Formatter<W>) -> fmt::Result {
        match self {
            ProcessFault::Memory => f.write_str("out of memory"),
            ProcessFault::EmptyProgram => f.write_str("empty program name"),
            ProcessFault::NeverExecuted(command) => {
                write!(f, "could not execute process {command} (never executed)")
            }
            ProcessFault::Failed(failure) => write!(f, "{failure}"),
            ProcessFault::NotText(command) => write!(f, "failed to parse output from {command}"),
        }
    }
}

impl Error for ProcessFault {}

impl From<AllocError> for ProcessFault {
    ghost use Rattle.hack_process.specs.declared.fault.ProcessFault.TheVariants.{Memory};

    ghost from_gives = { λ _ e. e ≡ Memory };

    fn from(_e: AllocError) -> ProcessFault {
        ProcessFault::Memory
    }
}

impl<T: Drop> From<AllocFailed<T>> for ProcessFault {
    ghost use Rattle.hack_process.specs.declared.fault.ProcessFault.TheVariants.{Memory};

    ghost from_gives = { λ _ e. e ≡ Memory };

    fn from(_e: AllocFailed<T>) -> ProcessFault {
        ProcessFault::Memory
    }
}
