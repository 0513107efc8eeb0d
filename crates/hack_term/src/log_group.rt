//! Groups of lines in a log, which can be folded.

ghost use Rattle.std.specs.Prelude.{◌≡◌, ◌↔◌, ◌⊎◌, IsTrue, IfOk, IfErr, MatchResult, OnOk};
ghost use Rattle.std.specs.Prelude.{IsSome, Some, None as Nothing};
ghost use Rattle.std.specs.Io.KnownBytes.{Appends};
ghost use Rattle.hack_base.specs.Writes.{AppendsFront, CountsErrors};
ghost use Rattle.hack_term.specs.Groups.{group_name, RefusesGroup, log_group_of};
ghost use Rattle.hack_term.specs.Groups.{opening_line, message_line, closing_line, on_screen};

use crate::term::Term;
use hack_base::writes::{Sink, write_front, write_line};
use std::alloc::{AllocError, Global};
use std::io;
use thiserror::Error;

/// Why a kind of log groups can't be read.
#[derive(Debug, Drop, Error)]
pub enum LogGroupFault {
    /// The text isn't the name of one.
    #[error("argument for --log-group must be none or github-actions, but found `{0}`")]
    Name(String),
    #[error("out of memory")]
    Memory,
}

impl From<AllocError> for LogGroupFault {
    ghost use Rattle.hack_term.specs.declared.log_group.LogGroupFault.TheVariants.{Memory};

    ghost from_gives = { λ _ e. e ≡ Memory };

    fn from(_e: AllocError) -> LogGroupFault {
        LogGroupFault::Memory
    }
}

/// How the lines of one command are grouped.
#[derive(Clone, Copy, Debug, PartialEq, Eq)]
pub enum LogGroup {
    /// Not at all.
    None,
    /// Between `::group::` and `::endgroup::`, which the runners of GitHub Actions fold.
    GithubActions,
}

/// An open group of lines. It has no `Drop`, so it must be ended.
pub struct LogGroupGuard {
    _open: (),
}

impl LogGroup {
    /// Reads `none` or `github-actions`.
    pub fn parse(alloc: Global, text: &str) -> Result<LogGroup, LogGroupFault>
        ensures group { IfOk result (λ group. text.now ≡ group_name group) }
        ensures refused { IfErr result (RefusesGroup text.now) }
        ensures value { MatchResult result (λ group. log_group_of text.now ≡ Some group)
            (λ e. (e ≡ LogGroupFault.Memory) ⊎ (log_group_of text.now ≡ Nothing)) }
    {
        match text {
            "none" => Ok(LogGroup::None),
            "github-actions" => Ok(LogGroup::GithubActions),
            _ => Err(LogGroupFault::Name(String::from_str(alloc, text)?)),
        }
    }

    /// The kind of groups for a process, which may run under GitHub Actions.
    pub fn auto(github_actions: bool) -> LogGroup
        ensures { (result ≡ LogGroup.GithubActions) ↔ IsTrue github_actions }
    {
        if github_actions {
            LogGroup::GithubActions
        } else {
            LogGroup::None
        }
    }

    /// Opens a group with the text on `out`, or writes an info line with it on `err`. The group
    /// counts as open even where that write fails, so the error is returned beside the guard.
    pub fn print<O: Sink, E: Sink>(
        self,
        term: &Term,
        text: &str,
        out: &mut O,
        err: &mut E,
    ) -> (Option<LogGroupGuard>, io::Result<()>)
        ensures guard { IsSome result.0 ↔ (self ≡ LogGroup.GithubActions) }
        ensures line { OnOk result.1
            (Appends (O.contents out.old) (O.contents out.new) (opening_line self text.now)
            × Appends (E.contents err.old) (E.contents err.new)
            (message_line self term.now.coloring text.now)) }
        ensures out { AppendsFront (O.contents out.old) (O.contents out.new)
            (opening_line self text.now) }
        ensures err { AppendsFront (E.contents err.old) (E.contents err.new)
            (message_line self term.now.coloring text.now) }
        ensures counted { CountsErrors (on_screen self (O.failed out.old) (E.failed err.old))
            (on_screen self (O.failed out.new) (E.failed err.new)) result.1 }
        ensures out_kept { self ≡ LogGroup.None → out.new ≡ out.old }
        ensures err_kept { self ≡ LogGroup.GithubActions → err.new ≡ err.old }
    {
        match self {
            LogGroup::None => (None, term.info(text, err)),
            LogGroup::GithubActions => {
                let written = write_line("::group::", text, out);
                (Some(LogGroupGuard { _open: () }), written)
            }
        }
    }
}

impl LogGroupGuard {
    /// Writes the line that ends the group.
    pub fn end<O: Sink>(self, out: &mut O) -> io::Result<()>
        ensures line { OnOk result (Appends (O.contents out.old) (O.contents out.new)
            closing_line) }
        ensures front { AppendsFront (O.contents out.old) (O.contents out.new) closing_line }
        ensures counted { CountsErrors (O.failed out.old) (O.failed out.new) result }
    {
        let LogGroupGuard { _open: () } = self;
        write_front("::endgroup::\n", out)
    }
}
