//! Questions that need no state: a kind, and after `: ` the question itself. The modules that
//! answer them describe their kinds.

use crate::{checks, faults, lexopt, options, started, uses, versions};
use hack_holds::{Ask, Wrong, hold};
use std::alloc::{AllocError, Global};

#[derive(Drop)]
struct Asked {}

impl Ask for Asked {
    fn answer(&mut self, alloc: Global, question: &str) -> Result<String, AllocError> {
        let (kind, text) = parts(question);
        match kind {
            "rows" => checks::held(alloc, text),
            "table" => checks::told_of(alloc, text),
            "fault" => faults::fault(alloc, text),
            "parser" => lexopt::parser(alloc, text),
            "help" => options::help_text(alloc, text),
            "all by name" => options::all_by_name(alloc),
            "long" => options::by_name(alloc, text),
            "letter" => options::by_letter(alloc, text),
            "row" => options::row(alloc, text),
            "means" => options::means(alloc, text),
            "same" => options::same(alloc, text),
            "started" => started::started(alloc, text),
            "behavior" => uses::behavior(alloc, text),
            "flag" => uses::flag(alloc, text),
            "features" => uses::features(alloc, text),
            "order" => versions::order(alloc, text),
            "stripped" => versions::stripped(alloc, text),
            "range" => versions::range(alloc, text),
            "steps" => versions::steps(alloc, text),
            "groups" => versions::groups(alloc, text),
            _ => String::from_str(alloc, "no such question"),
        }
    }
}

/// Checks rows of the kinds above.
pub fn on(alloc: Global, rows: &str) -> Result<(), Wrong> {
    hold(alloc, &mut Asked {}, rows)
}

/// The text before a mark and after it; the whole text and an empty one where there is no mark.
pub fn halves<'a>(text: &'a str, mark: &str) -> (&'a str, &'a str) {
    text.split_once(mark).unwrap_or((text, ""))
}

/// The kind of a question, and the text after it.
pub fn parts(question: &str) -> (&str, &str) {
    let (kind, text) = halves(question, ":");
    (kind, text.strip_prefix(" ").unwrap_or(text))
}

/// The arguments between bars; none for an empty text.
pub fn list(alloc: Global, text: &str) -> Result<Vec<String>, AllocError> {
    let mut words = Vec::new(alloc);
    if text.is_empty() {
        return Ok(words);
    }
    for word in text.split('|') {
        words.push(String::from_str(alloc, word)?)?;
    }
    Ok(words)
}

/// Appends a line to the lines of a text, of which the first isn't empty.
pub fn push_line(text: &mut String, line: &str) -> Result<(), AllocError> {
    if !text.is_empty() {
        text.push_str("\n")?;
    }
    text.push_str(line)
}
