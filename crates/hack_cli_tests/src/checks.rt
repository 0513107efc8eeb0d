//! Checks of rows find those that are wrong, and refuse lines that aren't part of one. `table:
//! LINES` asks what the check of a table prints, followed by what it counts, or its error. `rows:
//! LINES` asks what is reported where each row's question is answered with itself. A `$` ends a
//! line.

use crate::asks::on;
use hack_holds::{Ask, Wrong, hold};
use hack_tables::{Counts, check};
use std::alloc::{AllocError, Global};

pub fn told_of(alloc: Global, text: &str) -> Result<String, AllocError> {
    told(alloc, lines_of(alloc, text)?.as_str())
}

/// What the check of a table prints and counts.
fn told(alloc: Global, table: &str) -> Result<String, AllocError> {
    let mut out = Vec::new(alloc);
    let end = counted(alloc, table, &mut out)?;
    let mut text = String::from_utf8_lossy(alloc, out.as_slice())?;
    text.push_str(end.as_str())?;
    Ok(text)
}

fn counted(alloc: Global, table: &str, out: &mut Vec<u8>) -> Result<String, AllocError> {
    match check(alloc, table, out) {
        Ok(Counts { rows, wrong }) => format!(in alloc; "{wrong} of {rows} are wrong"),
        Err(fault) => fault.to_string(alloc),
    }
}

/// Checks the rows of a table, where `want` says how many there are.
pub fn checked(alloc: Global, table: &str, want: &str) -> Result<(), Wrong> {
    let found = told(alloc, table)?;
    if found.as_str() == want {
        return Ok(());
    }
    Err(Wrong::Row(found))
}

fn lines_of(alloc: Global, text: &str) -> Result<String, AllocError> {
    let mut lines = String::new(alloc);
    for letter in text.chars() {
        lines.push(if letter == '$' { '\n' } else { letter })?;
    }
    Ok(lines)
}

/// Answers each question with itself.
#[derive(Drop)]
struct Echo {}

impl Ask for Echo {
    fn answer(&mut self, alloc: Global, question: &str) -> Result<String, AllocError> {
        String::from_str(alloc, question)
    }
}

pub fn held(alloc: Global, text: &str) -> Result<String, AllocError> {
    match hold(alloc, &mut Echo {}, lines_of(alloc, text)?.as_str()) {
        Ok(()) => String::from_str(alloc, "they hold"),
        Err(Wrong::Row(text)) => Ok(text),
        Err(Wrong::Memory) => Err(AllocError),
    }
}

#[test]
fn a_wrong_row_is_found(rt: HostRuntime) -> Result<(), Wrong> {
    on(
        rt.alloc(),
        r"
            > table: [stem] A rule.$> /bin/cargo$| cargo$
            | 0 of 1 are wrong

            > table: [stem] A rule.$> /bin/cargo$| rustup$> a.b$| a$
            | line 2: [stem] /bin/cargo
            | found:
            | cargo
            | wanted:
            | rustup
            | 1 of 2 are wrong

            > table: # A note.$$[words] A rule.$> hack check$| list
            | line 4: [words] hack check
            | found:
            | args
            | wanted:
            | list
            | 1 of 1 are wrong

            > table: [join] A rule.$> a\sb \0$| a\sb/$|$
            | line 2: [join] a\sb \0
            | found:
            | a b/
            | wanted:
            | a b/
            |
            | 1 of 1 are wrong

            > table:
            | 0 of 0 are wrong
        ",
    )
}

#[test]
fn what_is_no_table_is_refused(rt: HostRuntime) -> Result<(), Wrong> {
    on(
        rt.alloc(),
        "
            > table: > a$| a$
            | line 1 is no line of a table here
            > table: [stem] A rule.$| a$
            | line 2 is no line of a table here
            > table: @ color x$
            | line 1 is no line of a table here
            > table: [stem A rule.$
            | line 1 is no line of a table here
            > table: $[stem] A rule.$words$
            | line 3 is no line of a table here
            > table: $[stems] A rule.$> a$| a$
            | line 2 names no kind of rows
        ",
    )
}

#[test]
fn rows_that_do_not_hold_are_refused(rt: HostRuntime) -> Result<(), Wrong> {
    on(
        rt.alloc(),
        "
            > rows: # A note.$$> a$| a$   > b c$  | b c
            | they hold

            # Another answer, one line too many, one too few and none at all; the first is reported.
            > rows: > a$| a$> b$| c$> d$| e
            | > b
            | found:
            | b
            | wanted:
            | c
            > rows: > a$| a$|
            | > a
            | found:
            | a
            | wanted:
            | a
            |
            > rows: > a$> b$| b
            | > a
            | found:
            | a
            | wanted:
            > rows: > a$| a$> b
            | > b
            | found:
            | b
            | wanted:

            # No question, a line that isn't part of a row, and no row.
            > rows: | a$> a$| a
            | no line of a row: a
            > rows: > a$| a$a
            | no line of a row: a
            > rows:
            | no line of a row:\x20
            > rows: # A note.
            | no line of a row: # A note.
        ",
    )
}
