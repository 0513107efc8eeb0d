//! Commands as questions to one builder, with a caller in memory. Arguments are separated by bars.
//!
//! `command: PROGRAM` begins a command; `own word: WORD`, `own words: WORDS`, `leading: WORD`,
//! `names: NAMES`, `empty name`, `passed` (the passed arguments of the rows),
//! `nothing passed` and `stripped` change it. The answer is the short text. `texts` asks, in the
//! folder `/w`, for the text that is neither long nor verbose, the long one and the verbose one,
//! `listed` for the line of a list in the folder `m`, `words` for the arguments, and `program`.
//!
//! `caller: END` begins a caller that ends each call so, `reply: END|OUT|ERR|LINE` lets it answer a
//! line. `run`, `output` and `read` call the command in the folder `/w`: the answer, and a line for
//! each call that was made, which ends with `captured` where the output was. With `: END|OUT|ERR` a
//! separate caller is used, which answers the command of the rows so and ends any other call as
//! never started. `words of the call` asks for the arguments of the caller's first call. In outputs
//! `\n` and `\r` end lines, and `\f` is the byte 0xFF, which is not UTF-8.

use crate::asks::{halves, list, parts, push_line};
use hack_holds::{Ask, Wrong, hold};
use hack_process::process::{Called, Caller, End, FakeCaller, Made, ProcessBuilder};
use std::alloc::{AllocError, Global};

/// The command that the tables of answers call, as a line.
const LINE: &str = "/bin/cargo check --manifest-path /w/m/Cargo.toml";

#[derive(Drop)]
struct Commands<'a> {
    passed: &'a [String],
    trailing: &'a [String],
    builder: ProcessBuilder<'a>,
    caller: FakeCaller,
}

impl Ask for Commands<'_> {
    fn answer(&mut self, alloc: Global, question: &str) -> Result<String, AllocError> {
        let (kind, text) = parts(question);
        match kind {
            "texts" => self.texts(alloc),
            "listed" => self.builder.listed("m").to_string(alloc),
            "words" => self.words(alloc),
            "program" => String::from_str(alloc, self.builder.program()),
            "caller" => self.begin(alloc, text),
            "reply" => self.reply(alloc, text),
            "words of the call" => self.made_words(alloc),
            "run" | "output" | "read" => self.call(alloc, kind, text),
            _ => self.change(alloc, kind, text),
        }
    }
}

impl Commands<'_> {
    fn texts(&self, alloc: Global) -> Result<String, AllocError> {
        let short = self.builder.text(alloc, false, false, "/w")?;
        let long = self.builder.text(alloc, true, false, "/w")?;
        let verbose = self.builder.text(alloc, false, true, "/w")?;
        format!(in alloc; "{short}\n{long}\n{verbose}")
    }

    fn words(&self, alloc: Global) -> Result<String, AllocError> {
        self.builder.words(alloc)?.join(alloc, "|")
    }

    fn made_words(&self, alloc: Global) -> Result<String, AllocError> {
        match self.caller.made().first() {
            Some(made) => made.words.join(alloc, "|"),
            None => String::from_str(alloc, "no call"),
        }
    }

    fn change(&mut self, alloc: Global, kind: &str, text: &str) -> Result<String, AllocError> {
        match kind {
            "command" => self.builder = ProcessBuilder::new(alloc, text)?,
            "own word" => self.builder.arg(text)?,
            "own words" => self.builder.args(&list(alloc, text)?)?,
            "leading" => self.builder.leading_arg(text)?,
            "names" => self.builder.append_features(&list(alloc, text)?)?,
            "empty name" => self.builder.append_features(&[""])?,
            "passed" => self.builder.pass_words(self.passed, self.trailing),
            "nothing passed" => self.builder.pass_words(&[], &[]),
            "stripped" => self.builder.strip_program_path = true,
            _ => return String::from_str(alloc, "no such question"),
        }
        self.builder.to_string(alloc)
    }

    fn begin(&mut self, alloc: Global, text: &str) -> Result<String, AllocError> {
        self.caller = FakeCaller::new(alloc, end_of(text));
        String::from_str(alloc, "ok")
    }

    fn reply(&mut self, alloc: Global, text: &str) -> Result<String, AllocError> {
        let (end, text) = halves(text, "|");
        let (out, text) = halves(text, "|");
        let (err, line) = halves(text, "|");
        let line = if line.is_empty() { LINE } else { line };
        let out = bytes_of(alloc, out)?;
        let err = bytes_of(alloc, err)?;
        self.caller.answer(line, end_of(end), &out, &err)?;
        String::from_str(alloc, "ok")
    }

    fn call(&mut self, alloc: Global, kind: &str, text: &str) -> Result<String, AllocError> {
        if !text.is_empty() {
            let _ = self.begin(alloc, "never started")?;
            let _ = self.reply(alloc, text)?;
        }
        let before = self.caller.made().len();
        let mut told = match kind {
            "run" => self.ran(alloc)?,
            "output" => self.output(alloc)?,
            _ => self.read(alloc)?,
        };
        push_made(alloc, &mut told, self.caller.made(), before)?;
        Ok(told)
    }

    fn ran(&mut self, alloc: Global) -> Result<String, AllocError> {
        match self.builder.run(alloc, &mut self.caller, "/w") {
            Ok(()) => String::from_str(alloc, "ok"),
            Err(fault) => fault.to_string(alloc),
        }
    }

    fn output(&mut self, alloc: Global) -> Result<String, AllocError> {
        match self.builder.run_with_output(alloc, &mut self.caller, "/w") {
            Ok(called) => outputs(alloc, &called),
            Err(fault) => fault.to_string(alloc),
        }
    }

    fn read(&mut self, alloc: Global) -> Result<String, AllocError> {
        match self.builder.read(alloc, &mut self.caller, "/w") {
            Ok(text) => format!(in alloc; "{text:?}"),
            Err(fault) => fault.to_string(alloc),
        }
    }
}

fn outputs(alloc: Global, called: &Called) -> Result<String, AllocError> {
    let output = String::from_utf8_lossy(alloc, &called.stdout)?;
    let errors = String::from_utf8_lossy(alloc, &called.stderr)?;
    format!(in alloc; "{output:?} {errors:?}")
}

/// A line for each call after the first ones.
fn push_made(
    alloc: Global,
    text: &mut String,
    calls: &[Made],
    before: usize,
) -> Result<(), AllocError> {
    for made in calls.iter().skip(before) {
        push_line(text, made.to_string(alloc)?.as_str())?;
        text.push_str(if made.capture { " captured" } else { "" })?;
    }
    Ok(())
}

fn end_of(text: &str) -> End {
    let (kind, number) = halves(text, " ");
    match (kind, number.parse::<i32>()) {
        ("status", Ok(number)) => End::Status(number),
        ("signal", Ok(number)) => End::Signal(number),
        _ => End::NeverStarted,
    }
}

fn bytes_of(alloc: Global, text: &str) -> Result<Vec<u8>, AllocError> {
    let mut bytes = Vec::new(alloc);
    let mut is_escape = false;
    for byte in text.as_bytes() {
        match *byte {
            b'\\' => is_escape = true,
            byte => {
                bytes.push(letter(byte, is_escape))?;
                is_escape = false;
            }
        }
    }
    Ok(bytes)
}

fn letter(byte: u8, is_escape: bool) -> u8 {
    match byte {
        b'n' if is_escape => b'\n',
        b'r' if is_escape => b'\r',
        b'f' if is_escape => 0xff,
        byte => byte,
    }
}

/// Checks rows on a command without passed or trailing arguments.
pub fn on_own(alloc: Global, rows: &str) -> Result<(), Wrong> {
    on(alloc, "", "", rows)
}

/// Checks rows on a command with these passed and trailing arguments.
pub fn on(alloc: Global, passed: &str, trailing: &str, rows: &str) -> Result<(), Wrong> {
    let passed = list(alloc, passed)?;
    let trailing = list(alloc, trailing)?;
    let mut commands = Commands {
        passed: &passed,
        trailing: &trailing,
        builder: ProcessBuilder::new(alloc, "c")?,
        caller: FakeCaller::new(alloc, End::NeverStarted),
    };
    hold(alloc, &mut commands, rows)
}
