//! Questions on lists of commands. A list is made from arguments, and from the text after `<`, or
//! else from the map of the rows. In an argument `_` is a space.
//!
//! - `list WORDS`: `ok` or the error, and then what is written.
//! - `read 2 KIND`: the same where the reader gives two braces and then fails with this kind;
//!   `write 34 KIND`: where the writer has room for 34 bytes, of which it takes five at a time;
//!   `line 34 KIND`: a line at a time. The kind `any` is each but out of memory and interrupts.
//! - `counted 34 KIND`: how often a reader that gives no more than the map, and a writer with room
//!   for 34 bytes, are counted to fail with this kind; `counted read KIND`: where the reader fails.
//! - `interrupted reader` and `interrupted writer`: where every other call is interrupted; `full
//!   writer`: where nothing is taken; `flush KIND`: where all is, but `flush` fails.
//! - `torn`: where the input is no UTF-8; `nested 200`: where it is this many nested arrays.
//! - `chain 300`: how many lines there are for a chain of this many features; `pages`: whether the
//!   list of 900 independent features is right.
//! - `call WORDS`: the status of a call of the program, whether its error was printed, and what it
//!   writes; `lost KIND`: without arguments; `tell 3`: for a wrong depth, with room for three bytes
//!   of the error.
//! - `fault read KIND` and `fault write KIND`: the `ListFault` for such an error.
//! - `command plain`: the command of a run of the features `a`, `b` and `c`, of which the first and
//!   the last are chosen.

use crate::tests::given::{features, word_at, words};
use crate::tests::shown::told;
use crate::tests::streams::{Broken, OTHER_KINDS, Page, Source, Takes, kind_of};
use hack_holds::{Ask, Wrong, hold};
use hack_plan::runs::Run;
use hack_powerset_list::{
    Counted, CountedReader, Ending, ListFault, call_powerset_list, command, powerset_list,
};
use std::alloc::{AllocError, Global};
use std::env::Args;
use std::io;
use std::io::ErrorKind;

/// Appends bytes to the text.
fn push_bytes(text: &mut String, alloc: Global, bytes: &[u8]) -> Result<(), AllocError> {
    let more = String::from_utf8_lossy(alloc, bytes)?;
    text.push_str(more.as_str())
}

/// `ok` or the error, and a line feed.
fn ending(alloc: Global, listed: Result<(), ListFault>) -> Result<String, AllocError> {
    match listed {
        Ok(()) => String::from_str(alloc, "ok\n"),
        Err(fault) => format!(in alloc; "{fault}\n"),
    }
}

/// The arguments, in which `_` is a space.
fn spaced(alloc: Global, text: &str) -> Result<Vec<String>, AllocError> {
    let mut words = Vec::new(alloc);
    for word in text.split_whitespace() {
        words.push(word.replace(alloc, '_', " ")?)?;
    }
    Ok(words)
}

/// The list for these arguments and bytes.
fn list(alloc: Global, given: &str, input: &[u8]) -> Result<String, AllocError> {
    let words = spaced(alloc, given)?;
    let mut input = input;
    let mut out = Vec::new(alloc);
    let listed = powerset_list(alloc, words.as_slice(), &mut input, &mut out);
    let mut text = ending(alloc, listed)?;
    push_bytes(&mut text, alloc, out.as_slice())?;
    Ok(text)
}

/// The list that is read from the source.
fn read(alloc: Global, mut source: Source<'_>) -> Result<String, AllocError> {
    let mut out = Vec::new(alloc);
    let listed = powerset_list(alloc, &[], &mut source, &mut out);
    let mut text = ending(alloc, listed)?;
    push_bytes(&mut text, alloc, out.as_slice())?;
    Ok(text)
}

/// The list of a map that is written to the page.
fn written(alloc: Global, map: &str, mut page: Page) -> Result<String, AllocError> {
    let mut input = map.as_bytes();
    let listed = powerset_list(alloc, &[], &mut input, &mut page);
    let mut text = ending(alloc, listed)?;
    push_bytes(&mut text, alloc, page.bytes.as_slice())?;
    Ok(text)
}

/// The answer for a reader or a writer that fails with this kind.
fn by_kind(
    alloc: Global,
    map: &str,
    question: &str,
    fault: ErrorKind,
) -> Result<String, AllocError> {
    let number = word_at(question, 1).parse::<usize>().unwrap_or(0);
    let mut page = Page::new(alloc, number, fault);
    match word_at(question, 0) {
        "read" => {
            let braces = "{{{{".get(..number).unwrap_or("");
            read(alloc, Source::new(braces.as_bytes(), Some(fault)))
        }
        "line" => {
            page.takes = Takes::Line;
            written(alloc, map, page)
        }
        _ => written(alloc, map, page),
    }
}

/// How a list ends, and how often a stream was counted to fail.
fn counted(
    alloc: Global,
    listed: Result<(), ListFault>,
    failed: u64,
) -> Result<String, AllocError> {
    let text = ending(alloc, listed)?;
    format!(in alloc; "{text}{failed}")
}

fn counted_reads(alloc: Global, fault: ErrorKind) -> Result<String, AllocError> {
    let mut broken = Broken { fault };
    let mut input = CountedReader {
        stream: &mut broken,
        failed: 0,
    };
    let mut out = Vec::new(alloc);
    let listed = powerset_list(alloc, &[], &mut input, &mut out);
    counted(alloc, listed, input.failed)
}

fn counted_writes(
    alloc: Global,
    map: &str,
    room: usize,
    fault: ErrorKind,
) -> Result<String, AllocError> {
    let mut input = map.as_bytes();
    let mut page = Page::new(alloc, room, fault);
    let mut out = Counted {
        stream: &mut page,
        failed: 0,
    };
    let listed = powerset_list(alloc, &[], &mut input, &mut out);
    counted(alloc, listed, out.failed)
}

fn counted_on(
    alloc: Global,
    map: &str,
    word: &str,
    fault: ErrorKind,
) -> Result<String, AllocError> {
    match word {
        "read" => counted_reads(alloc, fault),
        _ => counted_writes(alloc, map, word.parse::<usize>().unwrap_or(0), fault),
    }
}

/// The answer that is the same for each of the other kinds.
fn by_any_kind(alloc: Global, map: &str, question: &str) -> Result<String, AllocError> {
    let text = by_kind(alloc, map, question, ErrorKind::Other)?;
    for kind in &OTHER_KINDS {
        let next = by_kind(alloc, map, question, *kind)?;
        if next.as_str() != text.as_str() {
            return format!(in alloc; "by one kind:\n{text}\nby another:\n{next}");
        }
    }
    Ok(text)
}

fn interrupted(alloc: Global, map: &str, stream: &str) -> Result<String, AllocError> {
    let mut source = Source::new(map.as_bytes(), None);
    source.is_interrupted = true;
    let mut page = Page::new(alloc, 1_000, ErrorKind::Other);
    page.is_interrupted = true;
    match stream {
        "reader" => read(alloc, source),
        _ => written(alloc, map, page),
    }
}

fn full(alloc: Global, map: &str) -> Result<String, AllocError> {
    let mut page = Page::new(alloc, 1_000, ErrorKind::Other);
    page.takes = Takes::Bytes(0);
    written(alloc, map, page)
}

fn flush(alloc: Global, map: &str, fault: ErrorKind) -> Result<String, AllocError> {
    let mut page = Page::new(alloc, 1_000, ErrorKind::Other);
    page.flush = Some(fault);
    written(alloc, map, page)
}

fn push_repeated(text: &mut String, part: &str, times: usize) -> Result<(), AllocError> {
    for _ in 0..times {
        text.push_str(part)?;
    }
    Ok(())
}

fn nested(alloc: Global, depth: usize) -> Result<String, AllocError> {
    let mut input = String::new(alloc);
    push_repeated(&mut input, "[", depth)?;
    push_repeated(&mut input, "]", depth)?;
    list(alloc, "", input.as_bytes())
}

/// A map of features `f0` to below `f{n}`, each of which enables the one before it.
fn chain_text(alloc: Global, n: usize) -> Result<String, AllocError> {
    let mut text = String::from_str(alloc, r#"{"f0":[]"#)?;
    for i in 1..n {
        let before = i.saturating_sub(1);
        text.push_str(format!(in alloc; ",\"f{i}\":[\"f{before}\"]")?.as_str())?;
    }
    text.push_str("}")?;
    Ok(text)
}

/// How many lines there are for a chain, without the one of `ok`.
fn chain(alloc: Global, n: usize) -> Result<String, AllocError> {
    let input = chain_text(alloc, n)?;
    let text = list(alloc, "", input.as_bytes())?;
    text.lines().skip(1).count().to_string(alloc)
}

/// Whether the list of `f100` to `f999`, each alone, is longer than a page and right.
fn pages(alloc: Global) -> Result<String, AllocError> {
    let mut input = String::from_str(alloc, "{")?;
    let mut want = String::from_str(alloc, "ok\ncargo check --no-default-features\n")?;
    for i in 100..1_000 {
        input.push_str(if i == 100 { "" } else { "," })?;
        input.push_str(format!(in alloc; "\"f{i}\":[]")?.as_str())?;
        want.push_str("cargo check --no-default-features --features ")?;
        want.push_str(format!(in alloc; "f{i}\n")?.as_str())?;
    }
    input.push_str("}")?;
    let text = list(alloc, "--depth 1", input.as_bytes())?;
    told(alloc, want.len() > 32_800 && text.as_str() == want.as_str())
}

/// How a call ended, and what it wrote.
fn ended(alloc: Global, ending: Ending, out: &[u8], err: &[u8]) -> Result<String, AllocError> {
    let status = ending.status;
    let told = ending.told;
    let mut text = format!(in alloc; "{status} {told}\n")?;
    push_bytes(&mut text, alloc, out)?;
    text.push_str("err:\n")?;
    push_bytes(&mut text, alloc, err)?;
    Ok(text)
}

fn called(alloc: Global, arguments: io::Result<Args>, input: &str) -> Result<String, AllocError> {
    let mut input = input.as_bytes();
    let mut out = Vec::new(alloc);
    let mut err = Vec::new(alloc);
    let ending = call_powerset_list(alloc, arguments, &mut input, &mut out, &mut err);
    ended(alloc, ending, out.as_slice(), err.as_slice())
}

fn call(alloc: Global, given: &str, input: &str) -> Result<String, AllocError> {
    let arguments = words(alloc, given)?;
    called(alloc, Ok(arguments.into_iter()), input)
}

/// A call for a wrong depth whose error message has only this much room.
fn tell(alloc: Global, map: &str, room: usize) -> Result<String, AllocError> {
    let arguments = words(alloc, "powerset-list --depth x")?;
    let mut input = map.as_bytes();
    let mut out = Vec::new(alloc);
    let mut err = Page::new(alloc, room, ErrorKind::BrokenPipe);
    let arguments = Ok(arguments.into_iter());
    let ending = call_powerset_list(alloc, arguments, &mut input, &mut out, &mut err);
    ended(alloc, ending, out.as_slice(), err.bytes.as_slice())
}

fn fault(alloc: Global, stream: &str, kind: ErrorKind) -> Result<String, AllocError> {
    let error = io::Error::from(kind);
    let other = if stream == "read" {
        ListFault::Read
    } else {
        ListFault::Write
    };
    ListFault::of_error(&error, other).to_string(alloc)
}

fn run_of(name: &str) -> Run {
    match name {
        "plain" => Run::Plain,
        "all" => Run::AllFeatures,
        "none" => Run::NoDefaultFeatures,
        _ => Run::Features,
    }
}

fn command_text(alloc: Global, run: Run) -> Result<String, AllocError> {
    let passed = words(alloc, "check")?;
    let features = features(alloc, "a b c")?;
    let command = command(alloc, passed.as_slice(), features.as_slice(), run, &[0, 2])?;
    command.listed("").to_string(alloc)
}

/// The answer to a question on a long list, or on one of its parts.
fn of_parts(alloc: Global, map: &str, question: &str) -> Result<String, AllocError> {
    let word = word_at(question, 1);
    let number = word.parse::<usize>().unwrap_or(0);
    match word_at(question, 0) {
        "torn" => list(alloc, "", b"{\"a\xff\":[]}"),
        "nested" => nested(alloc, number),
        "chain" => chain(alloc, number),
        "pages" => pages(alloc),
        "lost" => called(alloc, Err(io::Error::from(kind_of(word))), map),
        "tell" => tell(alloc, map, number),
        "fault" => fault(alloc, word, kind_of(word_at(question, 2))),
        "command" => command_text(alloc, run_of(word)),
        _ => String::from_str(alloc, "no such question"),
    }
}

/// The answer to a question on streams.
fn of_streams(alloc: Global, map: &str, question: &str) -> Result<String, AllocError> {
    let word = word_at(question, 1);
    match word_at(question, 0) {
        "read" | "write" | "line" => match word_at(question, 2) {
            "any" => by_any_kind(alloc, map, question),
            kind => by_kind(alloc, map, question, kind_of(kind)),
        },
        "counted" => counted_on(alloc, map, word, kind_of(word_at(question, 2))),
        "interrupted" => interrupted(alloc, map, word),
        "full" => full(alloc, map),
        "flush" => flush(alloc, map, kind_of(word)),
        _ => of_parts(alloc, map, question),
    }
}

/// What is given, and the input after `<`: the map, where a question has none.
fn given_and_input<'x>(rest: &'x str, map: &'x str) -> (&'x str, &'x str) {
    match rest.split_once('<') {
        Some(parts) => parts,
        None => (rest, map),
    }
}

/// A map for which lists are requested.
#[derive(Drop)]
struct Lists<'a> {
    map: &'a str,
}

impl Ask for Lists<'_> {
    fn answer(&mut self, alloc: Global, question: &str) -> Result<String, AllocError> {
        let (kind, rest) = question.split_once(' ').unwrap_or((question, ""));
        let (given, input) = given_and_input(rest, self.map);
        match kind {
            "list" => list(alloc, given, input.as_bytes()),
            "call" => call(alloc, given, input),
            _ => of_streams(alloc, self.map, question),
        }
    }
}

/// Checks rows on a map, in which each name in `shared` stands for the text after it there.
pub fn on_sharing(
    alloc: Global,
    map: &str,
    shared: &[(&str, &str)],
    rows: &str,
) -> Result<(), Wrong> {
    let mut rows = String::from_str(alloc, rows)?;
    for (name, lines) in shared {
        rows = rows.as_str().replace(alloc, name, lines)?;
    }
    on(alloc, map, rows.as_str())
}

/// Checks rows on a map.
pub fn on(alloc: Global, map: &str, rows: &str) -> Result<(), Wrong> {
    hold(alloc, &mut Lists { map }, rows)
}
