//! Runs programs. Code works with any `Caller`: the system, or one in memory that returns the
//! answers that a test gave it.

ghost use Rattle.std.specs.Prelude.{◌≡◌, ◌↔◌, [], List, IfOk, IsTrue, OnErr, Some, false};
ghost use Rattle.hack_process.specs.Calls.{Call, AddsCall, MayAdd, WroteNothing, answer_of};
ghost use Rattle.hack_process.specs.Calls.{asked_call, IsSuccess};
ghost use Rattle.hack_process.specs.Faults.{end_text};

use std::alloc::{AllocError, Global};
use std::fmt;

/// How a program ended.
#[derive(Clone, Copy, Debug, PartialEq, Eq)]
pub enum End {
    /// It ended with this status.
    Status(i32),
    /// It was ended by this signal.
    Signal(i32),
    /// It could not be started, or it isn't known how it ended.
    NeverStarted,
}

impl End {
    /// Returns whether the program ended with status 0.
    pub fn is_success(self) -> bool
        ensures { IsTrue result ↔ IsSuccess self }
    {
        self == End::Status(0)
    }
}

/// Shows a status or a signal by its number.
impl fmt::Display for End {
    ghost output = { λ how. Some (end_text how) };

    fn fmt<W: fmt::Write>(&self, f: &mut fmt::Formatter<W>) -> fmt::Result {
        match self {
            End::Status(code) => write!(f, "exit status: {code}"),
            End::Signal(number) => write!(f, "signal: {number}"),
            End::NeverStarted => f.write_str("never executed"),
        }
    }
}

/// How a program ended, and what it wrote, where that was captured.
#[derive(Drop)]
pub struct Called {
    pub end: End,
    pub stdout: Vec<u8>,
    pub stderr: Vec<u8>,
}

impl Called {
    /// The answer of a program that ended in this way, with no captured output.
    pub fn silent(alloc: Global, end: End) -> Called
        ensures { answer_of result ≡ record { end = end; stdout = []; stderr = [] } }
    {
        Called {
            end,
            stdout: Vec::new(alloc),
            stderr: Vec::new(alloc),
        }
    }
}

/// Runs programs.
pub trait Caller {
    /// Whether the type says which calls were made, by `calls`.
    ghost tells: { Type 0 };

    /// The calls so far, each with its answer, in order. It means something only where `tells`
    /// holds.
    ghost calls: { Self → List Call };

    /// A relation of the caller before and after any calls, such as rules that it keeps in how it
    /// runs programs.
    ghost course: { Self → Self → Type 0 };

    /// Without a call the relation holds of each caller and itself.
    ghost course_none: { (a : Self) → course a a };

    /// The relations of some calls and of more calls after them give that of all.
    ghost course_more: { (a b c : Self) → course a b → course b c → course a c };

    /// Runs a program with these arguments to its end, and returns how it ended. With `capture` its
    /// input is empty, and what it writes is in the answer. Without, it uses the input and output
    /// of this process, and the answer has no output. Where memory is refused, the program may
    /// have run.
    fn call(
        &mut self,
        alloc: Global,
        program: &str,
        words: &[String],
        capture: bool,
    ) -> Result<Called, AllocError>
        ensures told { IfOk result (λ called. tells → AddsCall
            (asked_call program.now words.now capture)
            (answer_of called) (calls self.old) (calls self.new)) }
        ensures refused { OnErr result (tells → MayAdd (asked_call program.now words.now capture)
            (calls self.old) (calls self.new)) }
        ensures silent { capture ≡ false →
            IfOk result (λ called. WroteNothing (answer_of called)) }
        ensures course { course self.old self.new };
}
