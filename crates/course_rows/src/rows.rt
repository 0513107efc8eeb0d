//! The rows, and their check.

use crate::course::Course;
use crate::driver::events;
use std::alloc::{AllocError, Global};
use std::io;

/// How many rows hold, and how many lines are wrong.
#[derive(Clone, Copy)]
pub struct Counts {
    pub held: u64,
    pub wrong: u64,
}

/// Checks the rows of a text, and prints each that differs. Empty lines and those that begin with
/// `#` or `[` are ignored.
pub fn check<R: Print>(rt: &R, alloc: Global, text: &str) -> io::Result<Counts> {
    let mut counts = Counts { held: 0, wrong: 0 };
    let mut course = None;
    for line in text.lines() {
        if let Some(question) = line.strip_prefix("> ") {
            course = Some(question);
        } else if let Some(wanted) = line.strip_prefix("| ") {
            let holds = judge(rt, alloc, course.unwrap_or(""), wanted)?;
            counts = counted(counts, holds);
            course = None;
        } else if !is_remark(line) {
            println!(rt; "no line of rows: {line}")?;
            counts = counted(counts, false);
        }
    }
    Ok(counts)
}

fn counted(counts: Counts, holds: bool) -> Counts {
    let Counts { held, wrong } = counts;
    if holds {
        return Counts {
            held: held.saturating_add(1),
            wrong,
        };
    }
    Counts {
        held,
        wrong: wrong.saturating_add(1),
    }
}

fn is_remark(line: &str) -> bool {
    line.is_empty() || line.starts_with("#") || line.starts_with("[")
}

/// Whether what happens in a course is what is wanted.
fn judge<R: Print>(rt: &R, alloc: Global, course: &str, wanted: &str) -> io::Result<bool> {
    let found = found(alloc, course)?;
    let found = found.as_str().trim();
    if found == wanted {
        return Ok(true);
    }
    println!(rt; "> {course}\nfound:  {found}\nwanted: {wanted}")?;
    Ok(false)
}

fn found(alloc: Global, course: &str) -> Result<String, AllocError> {
    match Course::parse(alloc, course)? {
        Some(course) => events(alloc, &course),
        None => String::from_str(alloc, "no course"),
    }
}
