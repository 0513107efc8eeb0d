//! Files by questions, which are the same for all kinds of files.
//!
//! `read PATH`, `write PATH TEXT`, `exists PATH` and `failures` are the methods of `Files`,
//! `overwrite PATH TEXT` and `remove PATH` those of `JournalFiles`. `bytes PATH`, `text PATH` and
//! `put PATH TEXT` read and write with errors that have the path, and `fault PATH` asks whether such
//! an error of reading is the one of this path. `held PATH ..` shows the contents at the paths, each
//! after its name, and `-` where nothing can be read.

mod disk;
mod failing;
mod faults;
pub mod memory;
mod restore;
mod short;

use crate::tests::text::{number, plain, push_plain, push_quoted, quoted};
use hack_files::fs::{FileFault, Files, JournalFiles};
use hack_holds::{Ask, Wrong, hold};
use std::alloc::{AllocError, Global};

/// The files to which the questions are put.
#[derive(Drop)]
struct Asked<F: JournalFiles + Drop> {
    files: F,
}

impl<F: JournalFiles + Drop> Ask for Asked<F> {
    fn answer(&mut self, alloc: Global, question: &str) -> Result<String, AllocError> {
        answer_over(alloc, &mut self.files, "", question)
    }
}

/// Checks rows on files.
fn hold_over<F: JournalFiles + Drop>(alloc: Global, files: F, rows: &str) -> Result<(), Wrong> {
    let mut asked = Asked { files };
    hold(alloc, &mut asked, rows)
}

/// The path of a name in a folder.
fn path_of(alloc: Global, folder: &str, name: &str) -> Result<String, AllocError> {
    let mut path = String::from_str(alloc, folder)?;
    push_plain(&mut path, name)?;
    Ok(path)
}

/// Answers a question about files in a folder, which may be written over and removed.
pub fn answer_over<F: JournalFiles>(
    alloc: Global,
    files: &mut F,
    folder: &str,
    question: &str,
) -> Result<String, AllocError> {
    let (kind, rest) = question.split_once(' ').unwrap_or((question, ""));
    let (name, shown) = rest.split_once(' ').unwrap_or((rest, ""));
    let path = path_of(alloc, folder, name)?;
    match kind {
        "overwrite" => {
            let text = plain(alloc, shown)?;
            done(alloc, files.overwrite(path.as_str(), text.as_bytes()))
        }
        "remove" => done(alloc, files.remove(path.as_str())),
        _ => answer(alloc, files, folder, question),
    }
}

/// Answers a question about files in a folder.
pub fn answer<F: Files>(
    alloc: Global,
    files: &mut F,
    folder: &str,
    question: &str,
) -> Result<String, AllocError> {
    let (kind, rest) = question.split_once(' ').unwrap_or((question, ""));
    let (name, text) = rest.split_once(' ').unwrap_or((rest, ""));
    let path = path_of(alloc, folder, name)?;
    let path = path.as_str();
    match kind {
        "read" => read(alloc, files, path),
        "write" => write(alloc, files, path, text),
        "exists" => truth(alloc, files.exists(path)),
        "failures" => number(alloc, files.failures()),
        "held" => held(alloc, files, rest),
        "bytes" => faults::bytes(alloc, files, path),
        "text" => faults::text(alloc, files, path),
        "put" => faults::put(alloc, files, path, text),
        "fault" => faults::names(alloc, files, path),
        _ => String::from_str(alloc, "no such question"),
    }
}

fn read<F: Files>(alloc: Global, files: &mut F, path: &str) -> Result<String, AllocError> {
    match files.read(alloc, path) {
        Ok(bytes) => quoted(alloc, bytes.as_slice()),
        Err(fault) => String::from_str(alloc, name_of(fault)),
    }
}

fn write<F: Files>(
    alloc: Global,
    files: &mut F,
    path: &str,
    shown: &str,
) -> Result<String, AllocError> {
    let text = plain(alloc, shown)?;
    done(alloc, files.write(path, text.as_bytes()))
}

fn name_of(fault: FileFault) -> &'static str {
    match fault {
        FileFault::Memory => "memory",
        FileFault::Device => "device",
    }
}

fn done(alloc: Global, outcome: Result<(), FileFault>) -> Result<String, AllocError> {
    let text = match outcome {
        Ok(()) => "ok",
        Err(fault) => name_of(fault),
    };
    String::from_str(alloc, text)
}

/// `true`, `false` or the error.
pub fn truth(alloc: Global, outcome: Result<bool, FileFault>) -> Result<String, AllocError> {
    let text = match outcome {
        Ok(true) => "true",
        Ok(false) => "false",
        Err(fault) => name_of(fault),
    };
    String::from_str(alloc, text)
}

/// The contents at the paths.
pub fn held<F: Files>(alloc: Global, files: &mut F, paths: &str) -> Result<String, AllocError> {
    let mut text = String::new(alloc);
    for path in paths.split(' ') {
        push_held(&mut text, alloc, files, path)?;
    }
    let _ = text.pop();
    Ok(text)
}

fn push_held<F: Files>(
    text: &mut String,
    alloc: Global,
    files: &mut F,
    path: &str,
) -> Result<(), AllocError> {
    text.push_str(path)?;
    text.push(' ')?;
    match files.read(alloc, path) {
        Ok(bytes) => push_quoted(text, alloc, bytes.as_slice())?,
        Err(_) => text.push('-')?,
    }
    text.push(' ')
}

/// Calls with the answers of any files that are empty at first. Two of the calls fail.
static CALLS: &str = r"
    > exists a
    | false
    > read a
    | device
    > write a one
    | ok
    > read a
    | 'one'
    > exists a
    | true
    > write b two\n
    | ok
    > write a
    | ok
    > read a
    | ''
    > exists a
    | true
    > write a longer than before
    | ok
    > read a
    | 'longer than before'
    > overwrite a shorter
    | ok
    > read a
    | 'shorter'
    > overwrite a longer than that
    | ok
    > read a
    | 'longer than that'
    > remove a
    | ok
    > read a
    | device
    > exists a
    | false
    > remove a
    | ok
    > overwrite e new
    | ok
    > read e
    | 'new'
    > write c\nd x
    | ok
    > read c\nd
    | 'x'
    > read b
    | 'two\n'
    > failures
    | 2
";
