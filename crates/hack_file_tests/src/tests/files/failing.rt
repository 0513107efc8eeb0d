//! Files and writers with one failing call.
//!
//! `calls N` makes seven calls to new files of which call N fails, and shows their answers and how
//! many failed. `writes N` makes three writes to a new writer of which write N fails, and flushes:
//! it shows what is written, and which of them fail. The other questions are about files that the
//! test makes; `failures below` are those of the files in memory beneath them.

use crate::tests::files::answer_over;
use crate::tests::text::{number, number_of};
use hack_files::fs::{FailingFiles, FailingWriter, Files, JournalFiles, MemoryFiles};
use hack_holds::{Ask, Wrong, hold};
use std::alloc::{AllocError, Global};
use std::io::Write;

/// Files in memory of which the call with this number fails.
fn failing_files(alloc: Global, call: u64) -> FailingFiles<MemoryFiles> {
    FailingFiles::new(MemoryFiles::new(alloc), call)
}

#[derive(Drop)]
struct Failing {
    files: FailingFiles<MemoryFiles>,
}

impl Ask for Failing {
    fn answer(&mut self, alloc: Global, question: &str) -> Result<String, AllocError> {
        match question.split_once(' ') {
            Some(("calls", call)) => calls(alloc, &mut failing_files(alloc, number_of(call))),
            Some(("writes", call)) => writes(alloc, number_of(call)),
            Some(("failures", "below")) => number(alloc, self.files.inner().failures()),
            _ => answer_over(alloc, &mut self.files, "", question),
        }
    }
}

static CALLS: [&str; 7] = [
    "write a 1",
    "read a",
    "exists a",
    "write a 2",
    "remove a",
    "write a 3",
    "read a",
];

fn calls<F: JournalFiles>(alloc: Global, files: &mut F) -> Result<String, AllocError> {
    let mut found = String::new(alloc);
    for call in &CALLS {
        found.push_str(answer_over(alloc, files, "", call)?.as_str())?;
        found.push(' ')?;
    }
    found.push_str(number(alloc, files.failures())?.as_str())?;
    Ok(found)
}

fn writes(alloc: Global, failing: u64) -> Result<String, AllocError> {
    let mut writer = FailingWriter::new(Vec::new(alloc), failing);
    let mut failed = String::new(alloc);
    push_failed(&mut failed, &mut writer)?;
    let mut text = String::from_utf8_lossy(alloc, writer.inner().as_slice())?;
    text.push_str(failed.as_str())?;
    Ok(text)
}

fn push_failed<W: Write>(text: &mut String, writer: &mut W) -> Result<(), AllocError> {
    for letter in ["a", "b", "c"] {
        if writer.write_all(letter.as_bytes()).is_err() {
            text.push_str(", not ")?;
            text.push_str(letter)?;
        }
    }
    if writer.flush().is_err() {
        text.push_str(", not flushed")?;
    }
    Ok(())
}

/// Checks rows on files of which one call fails.
fn on(alloc: Global, call: u64, rows: &str) -> Result<(), Wrong> {
    let files = failing_files(alloc, call);
    hold(alloc, &mut Failing { files }, rows)
}

#[test]
fn each_call_fails_in_turn(rt: HostRuntime) -> Result<(), Wrong> {
    on(
        rt.alloc(),
        0,
        "
            > calls 0
            | ok '1' true ok ok ok '3' 0
            > calls 1
            | device '' true ok ok ok '3' 1
            > calls 2
            | ok device true ok ok ok '3' 1
            > calls 3
            | ok '1' device ok ok ok '3' 1
            > calls 4
            | ok '1' true device ok ok '3' 1
            > calls 5
            | ok '1' true ok device ok '3' 1
            > calls 6
            | ok '1' true ok ok device '' 1
            > calls 7
            | ok '1' true ok ok ok device 1
            > calls 8
            | ok '1' true ok ok ok '3' 0
        ",
    )
}

#[test]
fn a_failure_below_is_counted_too(rt: HostRuntime) -> Result<(), Wrong> {
    on(
        rt.alloc(),
        2,
        "
            > read a
            | device
            > exists a
            | device
            > failures
            | 2
            > failures below
            | 1
        ",
    )
}

#[test]
fn each_write_fails_in_turn(rt: HostRuntime) -> Result<(), Wrong> {
    on(
        rt.alloc(),
        0,
        "
            > writes 0
            | abc
            > writes 1
            | bc, not a
            > writes 2
            | ac, not b
            > writes 3
            | ab, not c
            > writes 4
            | abc
        ",
    )
}
