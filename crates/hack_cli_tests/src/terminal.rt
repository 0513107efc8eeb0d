//! Lines for the user, as questions to one terminal. `info TEXT`, `warn TEXT` and `error TEXT`, and
//! as notices `note-info TEXT`, `note-warn TEXT` and `note-quiet TEXT`, write a line to a new page:
//! how that ended, how often the page was written to, what the terminal has recorded so far, and
//! the page. `each TEXT` lets the terminal record nothing, and then does the first three in turn,
//! each with a page of its own. `group none TEXT` and `group github TEXT` print the line of a group
//! on two pages, and end the group: how the line ended, how the end did where the group was open,
//! and the pages. How a page fails is given after ` / `. With `broken at 0..=5` a line is written
//! to six pages in turn, one for each of these places, and the answer has a line for each. `status
//! FLAGS` records `error`, `warning`, both or nothing, and asks for the status, where `denied`
//! denies warnings.

use crate::asks::{halves, push_line};
use crate::page::{Page, name_of};
use hack_holds::{Ask, Wrong, hold};
use hack_term::term::{Coloring, LogGroup, LogGroupGuard, Notice, NoticeKind, Term};
use std::alloc::{AllocError, Global};

#[derive(Drop)]
struct Terminal {
    term: Term,
}

impl Ask for Terminal {
    fn answer(&mut self, alloc: Global, question: &str) -> Result<String, AllocError> {
        let (call, pages) = halves(question, " / ");
        let (kind, text) = halves(call, " ");
        match kind {
            "status" => self.status(alloc, text),
            "each" => self.each(alloc, text, pages),
            "group" => self.group(alloc, text, pages),
            _ => self.lines(alloc, kind, text, pages),
        }
    }
}

impl Terminal {
    fn status(&mut self, alloc: Global, flags: &str) -> Result<String, AllocError> {
        self.term.error = flags.contains("error");
        self.term.warn = flags.contains("warning");
        self.term.status(flags.contains("denied")).to_string(alloc)
    }

    fn line(
        &mut self,
        alloc: Global,
        kind: &str,
        text: &str,
        how: &str,
    ) -> Result<String, AllocError> {
        let mut page = Page::new(alloc, how);
        let notice = Notice {
            kind: kind_of(kind),
            text: String::from_str(alloc, text)?,
        };
        let end = name_of(match kind {
            "info" => self.term.info(text, &mut page),
            "warn" => self.term.warn(text, &mut page),
            "error" => self.term.error(text, &mut page),
            _ => self.term.notice(&notice, &mut page),
        });
        let noted = self.noted();
        let text = page.text(alloc)?;
        format!(in alloc; "{end}, {} writes, {noted}: '{text}'", page.writes)
    }

    /// What writing a message, a warning and an error did, where nothing had been recorded.
    fn each(&mut self, alloc: Global, text: &str, how: &str) -> Result<String, AllocError> {
        self.term.error = false;
        self.term.warn = false;
        let mut told = String::new(alloc);
        for kind in ["info", "warn", "error"] {
            push_line(&mut told, self.line(alloc, kind, text, how)?.as_str())?;
        }
        Ok(told)
    }

    /// What writing a line did: on one page, or on a page for each of several places.
    fn lines(
        &mut self,
        alloc: Global,
        kind: &str,
        text: &str,
        pages: &str,
    ) -> Result<String, AllocError> {
        let (page, last) = halves(pages, "..=");
        let (how, first) = halves(page, " at ");
        let (Ok(first), Ok(last)) = (first.parse::<u64>(), last.parse::<u64>()) else {
            return self.line(alloc, kind, text, pages);
        };
        let mut told = String::new(alloc);
        for place in first..=last {
            let page = format!(in alloc; "{how} at {place}")?;
            push_line(&mut told, self.line(alloc, kind, text, &page)?.as_str())?;
        }
        Ok(told)
    }

    fn noted(&self) -> &'static str {
        match (self.term.error, self.term.warn) {
            (false, false) => "nothing noted",
            (false, true) => "warning noted",
            (true, false) => "error noted",
            (true, true) => "both noted",
        }
    }

    fn group(&mut self, alloc: Global, text: &str, pages: &str) -> Result<String, AllocError> {
        let (group, text) = halves(text, " ");
        let (out, err) = halves(pages, " / ");
        let mut out = Page::new(alloc, out);
        let mut err = Page::new(alloc, err);
        let (guard, written) = group_of(group).print(&self.term, text, &mut out, &mut err);
        let ended = ended(guard, &mut out);
        let written = name_of(written);
        let out = out.text(alloc)?;
        let text = err.text(alloc)?;
        format!(in alloc;
            "{written}, {ended}, out '{out}', err '{text}' in {} writes",
            err.writes
        )
    }
}

/// How the end of a group ended.
fn ended(guard: Option<LogGroupGuard>, out: &mut Page) -> &'static str {
    match guard {
        Some(guard) => name_of(guard.end(out)),
        None => "not open",
    }
}

fn group_of(name: &str) -> LogGroup {
    match name {
        "github" => LogGroup::GithubActions,
        _ => LogGroup::None,
    }
}

fn kind_of(kind: &str) -> NoticeKind {
    match kind {
        "note-warn" => NoticeKind::Warn,
        "note-quiet" => NoticeKind::QuietWarn,
        _ => NoticeKind::Info,
    }
}

/// Checks rows on a terminal that never colours.
pub fn on_plain(alloc: Global, rows: &str) -> Result<(), Wrong> {
    on(alloc, Term::new(Coloring::Never, false), rows)
}

/// Checks rows on a terminal.
pub fn on(alloc: Global, term: Term, rows: &str) -> Result<(), Wrong> {
    hold(alloc, &mut Terminal { term }, rows)
}
