//! Files that are restored: `a`, `b` and `c` hold `edited`, and a manager keeps `old a` and so on.
//!
//! A question restores all files. Its answer is how many failed, as the manager and as the files
//! count them, whether an error was reported, the lines that were printed, and what the files hold
//! then.
//!
//! - `quiet N` and `colored N`: call N of the files fails.
//! - `line N`: call 1 of the files and line N of the output fail. The output isn't shown.
//! - `needed` and `needless`: `a` is kept only where files are to be restored, and `b` always.
//! - `last N`: first only the last file is restored, of which call N fails. The answer begins with
//!   the error and with what the files hold after it; then `new` is written to `c`.
//! - `empty`: nothing is kept, and only the last file is restored before all of them. The answer
//!   begins with the error and ends with the number of changes to the files.

use crate::tests::files::faults::text_of;
use crate::tests::files::held;
use crate::tests::text::number_of;
use hack_files::fs::{FailingFiles, FailingWriter, Files, FsFault, MemoryFiles};
use hack_files::restore::Manager;
use hack_holds::{Ask, Wrong, hold};
use hack_term::term::{Coloring, Term};
use std::alloc::{AllocError, Global};

static PATHS: [&str; 3] = ["a", "b", "c"];

/// The files, and where messages on them are printed.
#[derive(Drop)]
struct Given {
    files: FailingFiles<MemoryFiles>,
    term: Term,
    err: FailingWriter<Vec<u8>>,
    /// Whether the answer shows what is printed.
    is_shown: bool,
}

/// Files that hold `edited` at each path. If memory runs out they hold less, and no row passes.
fn edited(alloc: Global, call: u64, line: u64, term: Term) -> Given {
    let mut files = MemoryFiles::new(alloc);
    for path in &PATHS {
        let _ = files.write(path, b"edited");
    }
    Given {
        files: FailingFiles::new(files, call),
        term,
        err: FailingWriter::new(Vec::new(alloc), line),
        is_shown: line == 0,
    }
}

fn quiet(alloc: Global, call: u64) -> Given {
    edited(alloc, call, 0, Term::new(Coloring::Never, false))
}

/// A manager that keeps all three files.
fn manager(alloc: Global) -> Manager {
    let mut manager = Manager::new(alloc, true);
    let _ = manager.register(alloc, "a", b"old a");
    let _ = manager.register(alloc, "b", b"old b");
    let _ = manager.register(alloc, "c", b"old c");
    manager
}

fn told(alloc: Global, given: &Given) -> Result<String, AllocError> {
    if given.is_shown {
        return String::from_utf8_lossy(alloc, given.err.inner().as_slice());
    }
    Ok(String::new(alloc))
}

/// Restores all files that the manager keeps, where this path is reported otherwise.
fn restored(
    alloc: Global,
    manager: Manager,
    reported: Option<&str>,
    given: &mut Given,
) -> Result<String, AllocError> {
    let count = manager.restore_all(reported, &mut given.files, &mut given.term, &mut given.err);
    let failures = given.files.failures();
    let error = given.term.error;
    let told = told(alloc, given)?;
    let held = held(alloc, &mut given.files, "a b c")?;
    format!(in alloc; "{count} {failures} {error}\n{told}{held}")
}

fn all(alloc: Global, mut given: Given) -> Result<String, AllocError> {
    restored(alloc, manager(alloc), None, &mut given)
}

/// The same where the caller reports that `b` can't be written.
fn reported(alloc: Global, mut given: Given) -> Result<String, AllocError> {
    restored(alloc, manager(alloc), Some("b"), &mut given)
}

fn always(alloc: Global, is_needed: bool) -> Result<String, AllocError> {
    let mut manager = Manager::new(alloc, is_needed);
    let _ = manager.register(alloc, "a", b"old a");
    let _ = manager.register_always(alloc, "b", b"old b");
    restored(alloc, manager, None, &mut quiet(alloc, 0))
}

fn fault_of(alloc: Global, outcome: Result<(), FsFault>) -> Result<String, AllocError> {
    match outcome {
        Ok(()) => String::from_str(alloc, "none"),
        Err(fault) => text_of(alloc, &fault),
    }
}

fn last(alloc: Global, call: u64) -> Result<String, AllocError> {
    let mut given = quiet(alloc, call);
    let mut manager = manager(alloc);
    let outcome = manager.restore_last(&mut given.files);
    let then = held(alloc, &mut given.files, "a b c");
    let _ = given.files.write("c", b"new");
    let restored = restored(alloc, manager, None, &mut given)?;
    let fault = fault_of(alloc, outcome)?;
    let then = then?;
    format!(in alloc; "{fault}\n{then}\n{restored}")
}

fn empty(alloc: Global) -> Result<String, AllocError> {
    let mut given = edited(alloc, 0, 0, Term::new(Coloring::Never, true));
    let mut manager = Manager::new(alloc, true);
    let outcome = manager.restore_last(&mut given.files);
    let restored = restored(alloc, manager, None, &mut given)?;
    let fault = fault_of(alloc, outcome)?;
    let changes = given.files.inner().steps().len();
    format!(in alloc; "{fault}\n{restored}\n{changes}")
}

#[derive(Drop)]
struct Restoring {}

impl Ask for Restoring {
    fn answer(&mut self, alloc: Global, question: &str) -> Result<String, AllocError> {
        let (kind, number) = question.split_once(' ').unwrap_or((question, ""));
        let number = number_of(number);
        let loud = Term::new(Coloring::Never, true);
        let colored = Term::new(Coloring::Always, true);
        match kind {
            "quiet" => all(alloc, quiet(alloc, number)),
            "reported" => reported(alloc, quiet(alloc, number)),
            "colored" => all(alloc, edited(alloc, number, 0, colored)),
            "line" => all(alloc, edited(alloc, 1, number, loud)),
            "needed" => always(alloc, true),
            "needless" => always(alloc, false),
            "last" => last(alloc, number),
            "empty" => empty(alloc),
            _ => String::from_str(alloc, "no such question"),
        }
    }
}

// The fourth call is the one that reads `a` afterwards.
#[test]
fn one_failing_write_at_each_place(rt: HostRuntime) -> Result<(), Wrong> {
    hold(
        rt.alloc(),
        &mut Restoring {},
        "
            > quiet 0
            | 0 0 false
            | a 'old a' b 'old b' c 'old c'
            > quiet 1
            | 1 1 true
            | error: failed to write to file `a`
            | a '' b 'old b' c 'old c'
            > quiet 2
            | 1 1 true
            | error: failed to write to file `b`
            | a 'old a' b '' c 'old c'
            > quiet 3
            | 1 1 true
            | error: failed to write to file `c`
            | a 'old a' b 'old b' c ''
            > quiet 4
            | 0 0 false
            | a - b 'old b' c 'old c'
        ",
    )
}

#[test]
fn what_the_caller_reports_is_not_told_again(rt: HostRuntime) -> Result<(), Wrong> {
    hold(
        rt.alloc(),
        &mut Restoring {},
        "
            > reported 1
            | 1 1 true
            | error: failed to write to file `a`
            | a '' b 'old b' c 'old c'
            > reported 2
            | 1 1 true
            | a 'old a' b '' c 'old c'
        ",
    )
}

#[test]
fn each_write_is_told_where_that_is_wanted(rt: HostRuntime) -> Result<(), Wrong> {
    hold(
        rt.alloc(),
        &mut Restoring {},
        "
            > colored 2
            | 1 1 true
            | \x1b[0m\x1b[1minfo\x1b[0m\x1b[1m:\x1b[0m restoring a
            | \x1b[0m\x1b[1minfo\x1b[0m\x1b[1m:\x1b[0m restoring b
            | \x1b[0m\x1b[1m\x1b[31merror\x1b[0m\x1b[1m:\x1b[0m failed to write to file `b`
            | \x1b[0m\x1b[1minfo\x1b[0m\x1b[1m:\x1b[0m restoring c
            | a 'old a' b '' c 'old c'
        ",
    )
}

#[test]
fn a_line_that_fails_holds_nothing_up(rt: HostRuntime) -> Result<(), Wrong> {
    hold(
        rt.alloc(),
        &mut Restoring {},
        "
            > line 1
            | 1 1 true
            | a '' b 'old b' c 'old c'
            > line 2
            | 1 1 true
            | a '' b 'old b' c 'old c'
            > line 3
            | 1 1 true
            | a '' b 'old b' c 'old c'
            > line 4
            | 1 1 true
            | a '' b 'old b' c 'old c'
            > line 5
            | 1 1 true
            | a '' b 'old b' c 'old c'
            > line 6
            | 1 1 true
            | a '' b 'old b' c 'old c'
            > line 7
            | 1 1 true
            | a '' b 'old b' c 'old c'
        ",
    )
}

#[test]
fn nothing_is_kept_where_nothing_is_to_come_back(rt: HostRuntime) -> Result<(), Wrong> {
    hold(
        rt.alloc(),
        &mut Restoring {},
        "
            > needless
            | 0 0 false
            | a 'edited' b 'old b' c 'edited'
            > needed
            | 0 0 false
            | a 'old a' b 'old b' c 'edited'
        ",
    )
}

#[test]
fn the_last_file_leaves_the_list(rt: HostRuntime) -> Result<(), Wrong> {
    hold(
        rt.alloc(),
        &mut Restoring {},
        "
            > last 0
            | none
            | a 'edited' b 'edited' c 'old c'
            | 0 0 false
            | a 'old a' b 'old b' c 'new'
            > last 1
            | failed to write to file `c`
            | a 'edited' b 'edited' c ''
            | 0 1 false
            | a 'old a' b 'old b' c 'new'
        ",
    )
}

#[test]
fn an_empty_list_restores_nothing(rt: HostRuntime) -> Result<(), Wrong> {
    hold(
        rt.alloc(),
        &mut Restoring {},
        "
            > empty
            | none
            | 0 0 false
            | a 'edited' b 'edited' c 'edited'
            | 3
        ",
    )
}
