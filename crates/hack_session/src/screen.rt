//! The lines that are printed while steps are performed. An error of writing them is ignored.

ghost use Rattle.std.specs.Prelude.{◌≡◌, ◌↔◌, IfOk, IsSome, OnErr, OnOk, Some, option_map};
ghost use Rattle.std.specs.Prelude.{string_bytes};
ghost use Rattle.hack_process.specs.CommandTexts.{text_of};
ghost use Rattle.hack_process.specs.Commands.{command_of};
ghost use Rattle.hack_session.specs.StepOutput.{IsSameScreen, SaysOn, cleaning_said, opening_said};
ghost use Rattle.hack_session.specs.StepOutput.{Says, end_said, manner_on, space_said, streams_of};
ghost use Rattle.hack_session.specs.Statuses.{of_text, on_text, running_text, status_text};

use hack_base::writes::{Sink, write_front};
use hack_process::process::ProcessBuilder;
use hack_term::term::{LogGroup, LogGroupGuard, Term};
use std::alloc::{AllocError, Global};
use std::fmt;

/// Where the lines of steps go.
#[derive(Drop)]
pub struct Screen<'a, O: Sink, E: Sink> {
    pub term: &'a Term,
    /// Where the lines of log groups go.
    pub out: &'a mut O,
    /// Where all other lines go.
    pub err: &'a mut E,
    pub log_group: LogGroup,
}

impl<O: Sink, E: Sink> Screen<'_, O, E> {
    /// Writes the empty line before each place but the first, where lines aren't grouped.
    pub(crate) fn space(&mut self, place: usize)
        ensures says { SaysOn O.Sink E.Sink (space_said self.old.log_group place)
            self.old self.new }
        ensures screen { IsSameScreen self.old self.new }
    {
        if place > 0 && self.log_group == LogGroup::None {
            let _ = write_front("\n", self.err);
        }
    }

    /// Opens a group with a text, or writes the text on a line of its own.
    pub(crate) fn open(&mut self, text: &str) -> Option<LogGroupGuard>
        ensures guard { IsSome result ↔ (self.old.log_group ≡ LogGroup.GithubActions) }
        ensures says { Says (opening_said (manner_on self.old) text.now)
            (streams_of O.Sink E.Sink self.old) (streams_of O.Sink E.Sink self.new) }
        ensures screen { IsSameScreen self.old self.new }
    {
        let (guard, _told) = self.log_group.print(self.term, text, self.out, self.err);
        guard
    }

    /// Ends a group.
    pub(crate) fn close(&mut self, guard: Option<LogGroupGuard>)
        requires { IsSome guard ↔ (self.now.log_group ≡ LogGroup.GithubActions) }
        ensures says { SaysOn O.Sink E.Sink (end_said self.old.log_group) self.old self.new }
        ensures screen { IsSameScreen self.old self.new }
    {
        if let Some(guard) = guard {
            let _ = guard.end(self.out);
        }
    }

    /// Prints the cleaning that is to be run, if `--verbose` is given.
    pub(crate) fn tell_cleaning(
        &mut self,
        alloc: Global,
        command: &ProcessBuilder<'_>,
        dir: &str,
    ) -> Result<(), AllocError>
        ensures ok { OnOk result (SaysOn O.Sink E.Sink
            (cleaning_said (manner_on self.old) dir.now (command_of command.now))
            self.old self.new) }
        ensures err { OnErr result (self.new ≡ self.old) }
        ensures screen { IsSameScreen self.old self.new }
    {
        if self.term.verbose {
            let text = running(alloc, command, true, dir)?;
            let _ = self.term.info(&text, self.err);
        }
        Ok(())
    }
}

/// Returns the line on a command that is run outside the plan's places.
pub(crate) fn running(
    alloc: Global,
    command: &ProcessBuilder<'_>,
    verbose: bool,
    dir: &str,
) -> Result<String, AllocError>
    ensures { IfOk result (λ text. string_bytes text
        ≡ running_text (text_of verbose dir.now (command_of command.now))) }
{
    let text = command.text(alloc, false, verbose, dir)?;
    format!(in alloc; "running {text}")
}

/// The status of a place: what is done there, its command, its package and its number.
#[derive(Drop)]
pub struct Status<'a> {
    /// `running` or `skipping`.
    pub verb: &'a str,
    /// The command as it is shown.
    pub command: &'a str,
    /// The package's name, where it is shown.
    pub name: Option<&'a str>,
    /// The place, from 1.
    pub number: usize,
    /// The number of all places, where it is shown.
    pub total: Option<usize>,
}

impl fmt::Display for Status<'_> {
    ghost output = { λ s. Some (status_text s.verb.now s.command.now
        (option_map (λ name. name.now) s.name) s.number s.total) };

    fn fmt<W: fmt::Write>(&self, f: &mut fmt::Formatter<W>) -> fmt::Result {
        let verb = self.verb;
        let command = self.command;
        let name = OnName(self.name);
        let number = self.number;
        let of = OfTotal(self.total);
        write!(f, "{verb} {command}{name} ({number}{of})")
    }
}

/// The number of all places, where it is shown.
#[derive(Drop)]
struct OfTotal(Option<usize>);

impl fmt::Display for OfTotal {
    ghost output = { λ s. Some (of_text s.0) };

    fn fmt<W: fmt::Write>(&self, f: &mut fmt::Formatter<W>) -> fmt::Result {
        match self.0 {
            Some(total) => write!(f, "/{total}"),
            None => Ok(()),
        }
    }
}

/// The package that a command is run on, where it is shown.
#[derive(Drop)]
struct OnName<'a>(Option<&'a str>);

impl fmt::Display for OnName<'_> {
    ghost output = { λ s. Some (on_text (option_map (λ name. name.now) s.0)) };

    fn fmt<W: fmt::Write>(&self, f: &mut fmt::Formatter<W>) -> fmt::Result {
        match self.0 {
            Some(name) => write!(f, " on {name}"),
            None => Ok(()),
        }
    }
}
