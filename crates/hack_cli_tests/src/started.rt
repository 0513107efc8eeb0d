//! What the system is asked to start for a call: one program, with exactly these arguments.
//! `started: FAULT PROGRAM|WORDS` calls a program twice with a system that fails so, the second
//! time with its output captured: how each call ended, and how often the system was asked for this
//! program with these arguments, and for something else.

use crate::asks::{halves, list, on};
use hack_holds::Wrong;
use hack_process::process::{Caller, Child, End};
use std::alloc::{AllocError, Allocator, Global};
use std::cell::Cell;
use std::io;
use std::io::ErrorKind;
use std::process::{Command, Processes, Stdio, SystemProcess};

/// A system that starts nothing. It counts how often it was asked to start the program with these
/// arguments in the folder of this process, and how often to start something else.
#[derive(Drop)]
struct Counting<'a> {
    program: &'a str,
    words: &'a [String],
    fault: ErrorKind,
    right: Cell<u64>,
    wrong: Cell<u64>,
}

impl Counting<'_> {
    fn is_right<B: Allocator + Clone>(&self, command: &Command<B>) -> bool {
        let mut left = self.words;
        for word in command.get_args() {
            match left {
                [first, rest @ ..] if first.as_str() == word => left = rest,
                _ => return false,
            }
        }
        left.is_empty()
            && command.get_program() == self.program
            && command.get_current_dir().is_none()
            && !command.get_env_clear()
    }
}

impl Processes for Counting<'_> {
    type Started = SystemProcess;

    fn spawn<B: Allocator + Clone>(
        &self,
        command: &Command<B>,
        _stdin: &Stdio,
        _stdout: &Stdio,
        _stderr: &Stdio,
    ) -> io::Result<std::process::Child<SystemProcess>> {
        let count = if self.is_right(command) {
            &self.right
        } else {
            &self.wrong
        };
        count.set(count.get().saturating_add(1));
        Err(io::Error::from(self.fault))
    }
}

/// How a call of the program with its arguments ended.
fn ended(alloc: Global, system: &Counting<'_>, capture: bool) -> &'static str {
    let mut child = Child::new(system);
    match child.call(alloc, system.program, system.words, capture) {
        Ok(called) if called.end == End::NeverStarted => "never started",
        Ok(_) => "ended",
        Err(AllocError) => "out of memory",
    }
}

fn fault_of(name: &str) -> ErrorKind {
    match name {
        "unfound" => ErrorKind::NotFound,
        "denied" => ErrorKind::PermissionDenied,
        "invalid" => ErrorKind::InvalidInput,
        _ => ErrorKind::OutOfMemory,
    }
}

pub fn started(alloc: Global, text: &str) -> Result<String, AllocError> {
    let (fault, text) = halves(text, " ");
    let (program, words) = halves(text, "|");
    let words = list(alloc, words)?;
    let system = Counting {
        program,
        words: &words,
        fault: fault_of(fault),
        right: Cell::new(0),
        wrong: Cell::new(0),
    };
    let first = ended(alloc, &system, false);
    let second = ended(alloc, &system, true);
    let (right, wrong) = (system.right.get(), system.wrong.get());
    format!(in alloc; "{first}, {second}, {right} right, {wrong} wrong")
}

#[test]
fn one_program_is_started_for_each_call(rt: HostRuntime) -> Result<(), Wrong> {
    on(
        rt.alloc(),
        "
            > started: unfound cargo|check|a b||last
            | never started, never started, 2 right, 0 wrong
            > started: denied /bin/cargo
            | never started, never started, 2 right, 0 wrong
            > started: invalid |x
            | never started, never started, 2 right, 0 wrong
            > started: memory cargo|check
            | out of memory, out of memory, 2 right, 0 wrong
        ",
    )
}
