//! A caller in memory, for tests: it returns the answers that a test gave it, and keeps the calls.

ghost use Rattle.std.specs.Prelude.{◌≡◌, ◌++◌, ◌∷◌, [], IfOk, OnOk, OnErr, Some, false, map};
ghost use Rattle.std.specs.Prelude.{string_bytes};
ghost use Rattle.hack_process.specs.Calls.{AddsCall, MayAdd, WroteNothing, answer_of, asked_call};
ghost use Rattle.hack_process.specs.Fake.{answer_to, made_call, heard, spaced_line_of, made_by};
ghost use Rattle.hack_process.specs.Fake.{otherwise_of, replies_of, seen_answer};

use crate::caller::{Called, Caller, End};
use crate::process::Spaced;
use hack_base::copies::copies;
use std::alloc::{AllocError, Global};
use std::fmt;

/// The answer to the calls of a line.
#[derive(Drop)]
struct Reply {
    line: String,
    end: End,
    stdout: Vec<u8>,
    stderr: Vec<u8>,
}

/// A call that was made, with its answer. It is shown as the program and its arguments, each after
/// a space.
#[derive(Drop)]
pub struct Made {
    pub program: String,
    pub words: Vec<String>,
    pub capture: bool,
    pub end: End,
    pub stdout: Vec<u8>,
    pub stderr: Vec<u8>,
}

/// A caller that runs nothing: it answers each call by its line, and keeps the calls. A line is the
/// program and its arguments, each after a space.
#[derive(Drop)]
pub struct FakeCaller {
    otherwise: End,
    replies: Vec<Reply>,
    made: Vec<Made>,
}

impl FakeCaller {
    /// A caller that answers each call with this end, and without output.
    pub fn new(alloc: Global, otherwise: End) -> Self
        ensures otherwise { otherwise_of result ≡ otherwise }
        ensures replies { replies_of result ≡ [] }
        ensures made { made_by result ≡ [] }
    {
        FakeCaller {
            otherwise,
            replies: Vec::new(alloc),
            made: Vec::new(alloc),
        }
    }

    /// Sets the answer to calls of this line. Where the line has an answer already, that one stays.
    pub fn answer(
        &mut self,
        line: &str,
        end: End,
        stdout: &[u8],
        stderr: &[u8],
    ) -> Result<(), AllocError>
        ensures ok { OnOk result (replies_of self.new ≡ replies_of self.old ++ record {
          line = line.now;
          answer = record { end = end; stdout = stdout.now; stderr = stderr.now };
        } ∷ []) }
        ensures err { OnErr result (replies_of self.new ≡ replies_of self.old) }
        ensures same { otherwise_of self.new ≡ otherwise_of self.old }
        ensures made { made_by self.new ≡ made_by self.old }
    {
        let alloc = *self.replies.allocator();
        let reply = Reply {
            line: String::from_str(alloc, line)?,
            end,
            stdout: stdout.to_vec(alloc)?,
            stderr: stderr.to_vec(alloc)?,
        };
        self.replies.push(reply)?;
        Ok(())
    }

    /// The calls so far, in order.
    pub fn made(&self) -> &[Made]
        ensures { map made_call result.now ≡ made_by self.now }
    {
        &self.made
    }

    /// The answer to a call of this line.
    fn reply(&self, alloc: Global, line: &str, capture: bool) -> Result<Called, AllocError>
        ensures { IfOk result (λ called.
            answer_of called ≡ seen_answer capture (answer_to line.now self.now)) }
    {
        for reply in &self.replies {
            if reply.line.as_str() == line {
                return reply.as_called(alloc, capture);
            }
        }
        Ok(Called::silent(alloc, self.otherwise))
    }
}

impl Reply {
    fn as_called(&self, alloc: Global, capture: bool) -> Result<Called, AllocError>
        ensures { IfOk result (λ called. answer_of called ≡ seen_answer capture (heard self.now)) }
    {
        if !capture {
            return Ok(Called::silent(alloc, self.end));
        }
        Ok(Called {
            end: self.end,
            stdout: self.stdout.to_vec(alloc)?,
            stderr: self.stderr.to_vec(alloc)?,
        })
    }
}

impl Made {
    fn new(
        alloc: Global,
        program: &str,
        words: &[String],
        capture: bool,
        called: &Called,
    ) -> Result<Made, AllocError>
        ensures { IfOk result (λ made. made_call made ≡ record {
          asked = asked_call program.now words.now capture;
          answer = answer_of called.now;
        }) }
    {
        Ok(Made {
            program: String::from_str(alloc, program)?,
            words: copies(alloc, words)?,
            capture,
            end: called.end,
            stdout: called.stdout.to_vec(alloc)?,
            stderr: called.stderr.to_vec(alloc)?,
        })
    }
}

impl fmt::Display for Made {
    ghost output = { λ made.
        Some (spaced_line_of (string_bytes made.program) (map string_bytes made.words.items)) };

    fn fmt<W: fmt::Write>(&self, f: &mut fmt::Formatter<W>) -> fmt::Result {
        let line = Words {
            program: self.program.as_str(),
            words: &self.words,
        };
        write!(f, "{line}")
    }
}

/// A program and its arguments, each after a space.
#[derive(Drop)]
struct Words<'a> {
    program: &'a str,
    words: &'a [String],
}

impl fmt::Display for Words<'_> {
    ghost output = { λ line. Some (spaced_line_of line.program.now (map string_bytes line.words.now)) };

    fn fmt<W: fmt::Write>(&self, f: &mut fmt::Formatter<W>) -> fmt::Result {
        let program = self.program;
        let words = Spaced(self.words);
        write!(f, "{program}{words}")
    }
}

impl Caller for FakeCaller {
    ghost tells = { Unit {0} };

    ghost calls = { λ caller. made_by caller };

    ghost course = { λ _ _. Unit {0} };

    ghost course_none = { λ _. tt };

    ghost course_more = { λ _ _ _ _ _. tt };

    fn call(
        &mut self,
        alloc: Global,
        program: &str,
        words: &[String],
        capture: bool,
    ) -> Result<Called, AllocError>
        ensures told { IfOk result (λ called. AddsCall (asked_call program.now words.now capture)
            (answer_of called) (made_by self.old) (made_by self.new)) }
        ensures refused { OnErr result (MayAdd (asked_call program.now words.now capture)
            (made_by self.old) (made_by self.new)) }
        ensures silent { capture ≡ false → IfOk result (λ called. WroteNothing (answer_of called)) }
        ensures course { Unit {0} }
        ensures answered { IfOk result (λ called. answer_of called ≡ seen_answer capture
            (answer_to (spaced_line_of program.now (map string_bytes words.now)) self.old)) }
        ensures same { otherwise_of self.new ≡ otherwise_of self.old }
        ensures replies { replies_of self.new ≡ replies_of self.old }
    {
        let line = Words { program, words };
        let line = format!(in alloc; "{line}")?;
        let called = self.reply(alloc, line.as_str(), capture)?;
        let made = Made::new(alloc, program, words, capture, &called)?;
        self.made.push(made)?;
        Ok(called)
    }
}
