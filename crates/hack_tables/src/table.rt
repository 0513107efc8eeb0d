//! The form of a table, and the check of its rows.
//!
//! A line `[kind] A sentence.` begins a group of rows for one kind of question; the sentence is the
//! rule that they show. A line `@ name value` is a setting for the rows of the group. A row is a
//! line `> question`, whose arguments are separated by spaces, followed by the lines of its answer,
//! each after `| `. In both `\s` is a space, `\n` a line feed, `\r` a carriage return, `\t` a tab,
//! `\0` nothing and `\\` a backslash. Empty lines and those that begin with `#` are ignored.

use crate::answers::answer;
use std::alloc::{AllocError, Global};
use std::io;
use std::io::Write;
use thiserror::Error;

/// Why a table can't be checked.
#[derive(Debug, Drop, Error)]
pub enum Fault {
    /// The line, from 1, isn't one of a table, or isn't allowed at its place.
    #[error("line {0} is no line of a table here")]
    Line(u64),
    /// The group at this line, from 1, has an unknown kind.
    #[error("line {0} names no kind of rows")]
    Kind(u64),
    #[error("failed to write")]
    Write,
    #[error("out of memory")]
    Memory,
}

impl From<AllocError> for Fault {
    fn from(_e: AllocError) -> Fault {
        Fault::Memory
    }
}

/// How many rows there were, and how many of them failed.
#[derive(Clone, Copy, Debug, PartialEq, Eq)]
pub struct Counts {
    pub rows: u64,
    pub wrong: u64,
}

/// The settings for the rows of a group.
#[derive(Drop)]
pub(crate) struct Group {
    pub(crate) kind: String,
    /// Names with their values, which may be empty.
    settings: Vec<(String, String)>,
    line: u64,
}

impl Group {
    fn set(&mut self, name: String, value: String) -> Result<(), AllocError> {
        self.settings.push((name, value))?;
        Ok(())
    }

    /// The value of a setting, if it is given.
    pub(crate) fn setting(&self, name: &str) -> Option<&str> {
        for (known, value) in self.settings.as_slice() {
            if known.as_str() == name {
                return Some(value.as_str());
            }
        }
        None
    }

    pub(crate) fn has(&self, name: &str) -> bool {
        self.setting(name).is_some()
    }
}

/// A row: its question as it is written, and the text of the expected answer.
#[derive(Drop)]
struct Row {
    question: String,
    want: String,
    line: u64,
}

/// A text with each backslash and the character after it replaced by what they mean.
fn unescaped(alloc: Global, text: &str) -> Result<String, AllocError> {
    let mut made = String::new(alloc);
    let mut escaped = false;
    for c in text.chars() {
        if !escaped {
            match c {
                '\\' => escaped = true,
                c => made.push(c)?,
            }
            continue;
        }
        escaped = false;
        match c {
            's' => made.push(' ')?,
            'n' => made.push('\n')?,
            't' => made.push('\t')?,
            'r' => made.push('\r')?,
            '0' => {}
            c => made.push(c)?,
        }
    }
    Ok(made)
}

/// The arguments of a question.
pub(crate) fn words_of(alloc: Global, question: &str) -> Result<Vec<String>, AllocError> {
    let mut words = Vec::new(alloc);
    if question.is_empty() {
        return Ok(words);
    }
    for word in question.split(' ') {
        words.push(unescaped(alloc, word)?)?;
    }
    Ok(words)
}

/// A table during its check: the group and the row whose lines are being read, and the counts.
#[derive(Drop)]
struct Reading {
    alloc: Global,
    group: Option<Group>,
    row: Option<Row>,
    counts: Counts,
}

impl Reading {
    /// Asks the question of the row that was read last, and reports it if its answer is another
    /// one.
    fn judge<W: Write>(&mut self, out: &mut W) -> Result<(), Fault> {
        let row = match self.row.take() {
            Some(row) => row,
            None => return Ok(()),
        };
        let group = match &self.group {
            Some(group) => group,
            None => return Err(Fault::Line(row.line)),
        };
        let words = words_of(self.alloc, row.question.as_str())?;
        let found = match answer(self.alloc, group, &words)? {
            Some(found) => found,
            None => return Err(Fault::Kind(group.line)),
        };
        self.counts.rows = self.counts.rows.saturating_add(1);
        if found.as_str() == row.want.as_str() {
            return Ok(());
        }
        self.counts.wrong = self.counts.wrong.saturating_add(1);
        tell(out, group, &row, found.as_str()).map_err(|_| Fault::Write)
    }

    /// Begins a group.
    fn begin(&mut self, head: &str, line: u64) -> Result<(), Fault> {
        let kind = match head.split_once(']') {
            Some((kind, _)) => String::from_str(self.alloc, kind)?,
            None => return Err(Fault::Line(line)),
        };
        self.group = Some(Group {
            kind,
            settings: Vec::new(self.alloc),
            line,
        });
        Ok(())
    }

    /// Reads a setting.
    fn set(&mut self, text: &str, line: u64) -> Result<(), Fault> {
        let (name, value) = text.split_once(' ').unwrap_or((text, ""));
        let name = String::from_str(self.alloc, name)?;
        let value = unescaped(self.alloc, value)?;
        match &mut self.group {
            Some(group) => Ok(group.set(name, value)?),
            None => Err(Fault::Line(line)),
        }
    }

    /// Begins a row.
    fn ask(&mut self, question: &str, line: u64) -> Result<(), Fault> {
        self.row = Some(Row {
            question: String::from_str(self.alloc, question)?,
            want: String::new(self.alloc),
            line,
        });
        Ok(())
    }

    /// Reads a line of an answer.
    fn want(&mut self, text: &str, line: u64, is_first: bool) -> Result<(), Fault> {
        let text = unescaped(self.alloc, text)?;
        match &mut self.row {
            Some(row) => {
                if !is_first {
                    row.want.push_str("\n")?;
                }
                row.want.push_str(text.as_str())?;
            }
            None => return Err(Fault::Line(line)),
        }
        Ok(())
    }
}

/// Reports a row whose answer is another one.
fn tell<W: Write>(out: &mut W, group: &Group, row: &Row, found: &str) -> io::Result<()> {
    let line = row.line;
    let kind = group.kind.as_str();
    let question = row.question.as_str();
    let want = row.want.as_str();
    writeln!(
        out,
        "line {line}: [{kind}] {question}\nfound:\n{found}\nwanted:\n{want}"
    )
}

/// The text after a line's mark and one space.
fn behind<'a>(line: &'a str, mark: &str) -> Option<&'a str> {
    let rest = line.strip_prefix(mark)?;
    Some(rest.strip_prefix(" ").unwrap_or(rest))
}

/// Checks the rows of a table, and reports each that fails to `out`: its line, its question, the
/// answer that was found and the expected one.
pub fn check<W: Write>(alloc: Global, text: &str, out: &mut W) -> Result<Counts, Fault> {
    let mut reading = Reading {
        alloc,
        group: None,
        row: None,
        counts: Counts { rows: 0, wrong: 0 },
    };
    let mut number: u64 = 0;
    let mut answered = false;
    for line in text.split('\n') {
        number = number.saturating_add(1);
        if let Some(text) = behind(line, "|") {
            reading.want(text, number, !answered)?;
            answered = true;
            continue;
        }
        reading.judge(out)?;
        answered = false;
        if let Some(head) = line.strip_prefix("[") {
            reading.begin(head, number)?;
        } else if let Some(text) = behind(line, "@") {
            reading.set(text, number)?;
        } else if let Some(question) = behind(line, ">") {
            reading.ask(question, number)?;
        } else if !line.is_empty() && !line.starts_with("#") {
            return Err(Fault::Line(number));
        }
    }
    reading.judge(out)?;
    Ok(reading.counts)
}
