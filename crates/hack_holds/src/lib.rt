//! Tests as text: rows of questions, each with its expected answer.
//!
//! A row is a line `> question`, and the lines of its answer, each after `| `. Spaces before a line
//! don't count, and lines that are empty or begin with `#` are left out. A test is then one call,
//! and its rows add nothing to be proved.
#![tactic(auto)]

use std::alloc::{AllocError, AllocFailed, Global};
use std::fmt;
use std::fmt::{Debug, Formatter, Write};

/// What answers the rows: a public call whose result is shown as text, or a value that is called
/// repeatedly.
pub trait Ask {
    /// The answer to a question. Line feeds separate the lines of an answer; the last line has
    /// none.
    fn answer(&mut self, alloc: Global, question: &str) -> Result<String, AllocError>;
}

/// Why rows fail.
#[derive(Drop)]
pub enum Wrong {
    Memory,
    /// A row has another answer, there is no row, or a line isn't part of a row; this is the
    /// message.
    Row(String),
}

impl From<AllocError> for Wrong {
    fn from(_e: AllocError) -> Wrong {
        Wrong::Memory
    }
}

impl<T: Drop> From<AllocFailed<T>> for Wrong {
    fn from(_e: AllocFailed<T>) -> Wrong {
        Wrong::Memory
    }
}

// The runner prints this of a test that ends with an error.
impl Debug for Wrong {
    fn fmt<W: Write>(&self, f: &mut Formatter<W>) -> fmt::Result {
        match self {
            Wrong::Memory => f.write_str("out of memory"),
            Wrong::Row(text) => f.write_str(text.as_str()),
        }
    }
}

/// The text after a line's mark and one space.
fn after<'a>(line: &'a str, mark: &str) -> Option<&'a str> {
    let rest = line.strip_prefix(mark)?;
    Some(rest.strip_prefix(" ").unwrap_or(rest))
}

/// The row that is being read.
#[derive(Drop)]
struct Row {
    alloc: Global,
    question: String,
    /// The answer to the question.
    found: String,
    /// The expected answer, each line with a line feed before it.
    wanted: String,
    /// How many rows were started.
    count: u64,
}

impl Row {
    /// Ends the previous row, and asks the question of the next.
    fn ask<A: Ask>(&mut self, asked: &mut A, question: &str) -> Result<(), Wrong> {
        self.end()?;
        self.found = asked.answer(self.alloc, question)?;
        self.question = String::from_str(self.alloc, question)?;
        self.wanted.clear();
        self.count = self.count.saturating_add(1);
        Ok(())
    }

    /// One more line of the expected answer.
    fn want(&mut self, line: &str) -> Result<(), Wrong> {
        if self.count == 0 {
            return Err(no_row(self.alloc, line));
        }
        self.wanted.push_str("\n")?;
        self.wanted.push_str(line)?;
        Ok(())
    }

    /// Compares the answer of the row with the expected one.
    fn end(&self) -> Result<(), Wrong> {
        let wanted = self.wanted.as_str();
        if self.count == 0 || wanted.strip_prefix("\n") == Some(self.found.as_str()) {
            return Ok(());
        }
        Err(unlike(
            self.alloc,
            self.question.as_str(),
            self.found.as_str(),
            wanted,
        ))
    }

    /// Reads a line.
    fn take<A: Ask>(&mut self, asked: &mut A, line: &str) -> Result<(), Wrong> {
        if let Some(question) = after(line, ">") {
            self.ask(asked, question)
        } else if let Some(wanted) = after(line, "|") {
            self.want(wanted)
        } else if line.is_empty() || line.starts_with("#") {
            Ok(())
        } else {
            Err(no_row(self.alloc, line))
        }
    }
}

fn unlike(alloc: Global, question: &str, found: &str, wanted: &str) -> Wrong {
    told(format!(in alloc; "> {question}\nfound:\n{found}\nwanted:{wanted}"))
}

fn no_row(alloc: Global, line: &str) -> Wrong {
    told(format!(in alloc; "no line of a row: {line}"))
}

fn told(text: Result<String, AllocError>) -> Wrong {
    match text {
        Ok(text) => Wrong::Row(text),
        Err(_) => Wrong::Memory,
    }
}

/// Asks the questions of all rows in turn.
///
/// # Errors
///
/// The first row whose answer is not the expected one, with both; a line that isn't part of a row;
/// no row at all; or out of memory.
pub fn hold<A: Ask>(alloc: Global, asked: &mut A, rows: &str) -> Result<(), Wrong> {
    let mut row = Row {
        alloc,
        question: String::new(alloc),
        found: String::new(alloc),
        wanted: String::new(alloc),
        count: 0,
    };
    for line in rows.lines() {
        row.take(asked, line.trim_start())?;
    }
    if row.count == 0 {
        return Err(no_row(alloc, rows));
    }
    row.end()
}
