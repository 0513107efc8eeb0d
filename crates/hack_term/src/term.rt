//! Lines for the user, and what they mean for the exit status. A line is written to a given writer,
//! and needs no memory. The result is Ok where the whole line was written, and else the error of
//! the write, which a caller may ignore; then a prefix of the line was written. A writer that
//! counts its failures shows that an error comes only with one: where it never fails, lines are
//! written.

ghost use Rattle.std.specs.Prelude.{◌≡◌, ◌++◌, IfSome, IfNone, OnOk, true, false, string_bytes};
ghost use Rattle.std.specs.Io.KnownBytes.{Appends};
ghost use Rattle.hack_base.specs.Writes.{AppendsFront, CountsErrors, line};
ghost use Rattle.hack_term.specs.Lines.{coloring_name, warning_label as label_of_warnings};
ghost use Rattle.hack_term.specs.Lines.{IsNoColoring, error_label as label_of_errors, warning_line};
ghost use Rattle.hack_term.specs.Lines.{coloring_of, info_line, error_line, notice_line};
ghost use Rattle.hack_term.specs.Lines.{info_label as label_of_info, after_notice, IsExitStatus};

pub use crate::log_group::{LogGroup, LogGroupFault, LogGroupGuard};
pub use hack_base::notice::{Notice, NoticeKind};
use hack_base::writes::{Sink, write_front, write_line};
use std::io;

/// Whether the word that begins a line is coloured.
#[derive(Clone, Copy, Debug, PartialEq, Eq)]
pub enum Coloring {
    /// Lines aren't coloured. On a terminal that shows colours the program takes `Always` instead.
    Auto,
    Always,
    Never,
}

impl Coloring {
    /// Reads `auto`, `always` or `never`.
    pub fn parse(text: &str) -> Option<Coloring>
        ensures some { IfSome result (λ coloring. text.now ≡ coloring_name coloring) }
        ensures none { IfNone result (IsNoColoring text.now) }
        ensures value { result ≡ coloring_of text.now }
    {
        match text {
            "auto" => Some(Coloring::Auto),
            "always" => Some(Coloring::Always),
            "never" => Some(Coloring::Never),
            _ => None,
        }
    }
}

fn info_label(coloring: Coloring) -> &'static str
    ensures { result.now ≡ label_of_info coloring }
{
    match coloring {
        Coloring::Always => "\x1b[0m\x1b[1minfo\x1b[0m\x1b[1m:\x1b[0m ",
        Coloring::Auto | Coloring::Never => "info: ",
    }
}

fn warning_label(coloring: Coloring) -> &'static str
    ensures { result.now ≡ label_of_warnings coloring }
{
    match coloring {
        Coloring::Always => "\x1b[0m\x1b[1m\x1b[33mwarning\x1b[0m\x1b[1m:\x1b[0m ",
        Coloring::Auto | Coloring::Never => "warning: ",
    }
}

fn error_label(coloring: Coloring) -> &'static str
    ensures { result.now ≡ label_of_errors coloring }
{
    match coloring {
        Coloring::Always => "\x1b[0m\x1b[1m\x1b[31merror\x1b[0m\x1b[1m:\x1b[0m ",
        Coloring::Auto | Coloring::Never => "error: ",
    }
}

/// Writes a line of three parts behind its label.
fn write_parts<W: Sink>(
    label: &str,
    before: &str,
    name: &str,
    after: &str,
    out: &mut W,
) -> io::Result<()>
    ensures all { OnOk result (Appends (W.contents out.old) (W.contents out.new)
        (line label.now (before.now ++ (name.now ++ after.now)))) }
    ensures front { AppendsFront (W.contents out.old) (W.contents out.new)
        (line label.now (before.now ++ (name.now ++ after.now))) }
    ensures counted { CountsErrors (W.failed out.old) (W.failed out.new) result }
{
    write_front(label, out)?;
    write_front(before, out)?;
    write_line(name, after, out)
}

/// How lines are printed, and what was printed so far.
#[derive(Debug, PartialEq, Eq, Drop)]
pub struct Term {
    pub coloring: Coloring,
    pub verbose: bool,
    /// An error was reported.
    pub error: bool,
    /// A warning was reported that counts.
    pub warn: bool,
}

impl Term {
    /// A terminal on which nothing was reported yet.
    pub fn new(coloring: Coloring, verbose: bool) -> Term
        ensures { result ≡
            record { coloring = coloring; verbose = verbose; error = false; warn = false } }
    {
        Term {
            coloring,
            verbose,
            error: false,
            warn: false,
        }
    }

    /// Writes a line that begins with `info: `.
    pub fn info<W: Sink>(&self, text: &str, out: &mut W) -> io::Result<()>
        ensures line { OnOk result (Appends (W.contents out.old) (W.contents out.new)
            (info_line self.now.coloring text.now)) }
        ensures front { AppendsFront (W.contents out.old) (W.contents out.new)
            (info_line self.now.coloring text.now) }
        ensures counted { CountsErrors (W.failed out.old) (W.failed out.new) result }
    {
        write_line(info_label(self.coloring), text, out)
    }

    /// Writes a line that begins with `warning: `. The warning is recorded even if the write fails.
    pub fn warn<W: Sink>(&mut self, text: &str, out: &mut W) -> io::Result<()>
        ensures noted { self.new ≡ record self.old { warn = true } }
        ensures line { OnOk result (Appends (W.contents out.old) (W.contents out.new)
            (warning_line self.old.coloring text.now)) }
        ensures front { AppendsFront (W.contents out.old) (W.contents out.new)
            (warning_line self.old.coloring text.now) }
        ensures counted { CountsErrors (W.failed out.old) (W.failed out.new) result }
    {
        self.warn = true;
        write_line(warning_label(self.coloring), text, out)
    }

    /// Writes a line that begins with `error: `. The error is recorded even if the write fails.
    pub fn error<W: Sink>(&mut self, text: &str, out: &mut W) -> io::Result<()>
        ensures noted { self.new ≡ record self.old { error = true } }
        ensures line { OnOk result (Appends (W.contents out.old) (W.contents out.new)
            (error_line self.old.coloring text.now)) }
        ensures front { AppendsFront (W.contents out.old) (W.contents out.new)
            (error_line self.old.coloring text.now) }
        ensures counted { CountsErrors (W.failed out.old) (W.failed out.new) result }
    {
        self.error = true;
        write_line(error_label(self.coloring), text, out)
    }

    /// Writes an info line that names something between two parts of its text, which so is never put
    /// together: it needs no memory.
    pub fn info_of<W: Sink>(
        &self,
        before: &str,
        name: &str,
        after: &str,
        out: &mut W,
    ) -> io::Result<()>
        ensures line { OnOk result (Appends (W.contents out.old) (W.contents out.new)
            (info_line self.now.coloring (before.now ++ (name.now ++ after.now)))) }
        ensures front { AppendsFront (W.contents out.old) (W.contents out.new)
            (info_line self.now.coloring (before.now ++ (name.now ++ after.now))) }
        ensures counted { CountsErrors (W.failed out.old) (W.failed out.new) result }
    {
        write_parts(info_label(self.coloring), before, name, after, out)
    }

    /// Writes a warning likewise. It is recorded even if the write fails.
    pub fn warn_of<W: Sink>(
        &mut self,
        before: &str,
        name: &str,
        after: &str,
        out: &mut W,
    ) -> io::Result<()>
        ensures noted { self.new ≡ record self.old { warn = true } }
        ensures line { OnOk result (Appends (W.contents out.old) (W.contents out.new)
            (warning_line self.old.coloring (before.now ++ (name.now ++ after.now)))) }
        ensures front { AppendsFront (W.contents out.old) (W.contents out.new)
            (warning_line self.old.coloring (before.now ++ (name.now ++ after.now))) }
        ensures counted { CountsErrors (W.failed out.old) (W.failed out.new) result }
    {
        self.warn = true;
        write_parts(warning_label(self.coloring), before, name, after, out)
    }

    /// Writes the line of an error likewise. It is recorded even if the write fails.
    pub fn error_of<W: Sink>(
        &mut self,
        before: &str,
        name: &str,
        after: &str,
        out: &mut W,
    ) -> io::Result<()>
        ensures noted { self.new ≡ record self.old { error = true } }
        ensures line { OnOk result (Appends (W.contents out.old) (W.contents out.new)
            (error_line self.old.coloring (before.now ++ (name.now ++ after.now)))) }
        ensures front { AppendsFront (W.contents out.old) (W.contents out.new)
            (error_line self.old.coloring (before.now ++ (name.now ++ after.now))) }
        ensures counted { CountsErrors (W.failed out.old) (W.failed out.new) result }
    {
        self.error = true;
        write_parts(error_label(self.coloring), before, name, after, out)
    }

    /// Writes a notice as its kind requires.
    pub fn notice<W: Sink>(&mut self, notice: &Notice, out: &mut W) -> io::Result<()>
        ensures noted { self.new ≡ after_notice self.old notice.now.kind }
        ensures line { OnOk result (Appends (W.contents out.old) (W.contents out.new)
            (notice_line self.old.coloring notice.now.kind (string_bytes notice.now.text))) }
        ensures front { AppendsFront (W.contents out.old) (W.contents out.new)
            (notice_line self.old.coloring notice.now.kind (string_bytes notice.now.text)) }
        ensures counted { CountsErrors (W.failed out.old) (W.failed out.new) result }
    {
        let text = notice.text.as_str();
        match notice.kind {
            NoticeKind::Info => self.info(text, out),
            NoticeKind::Warn => self.warn(text, out),
            NoticeKind::QuietWarn => write_line(warning_label(self.coloring), text, out),
        }
    }

    /// The exit status: 1 after an error, or after a warning where warnings are denied; else 0.
    pub fn status(&self, deny_warnings: bool) -> u8
        ensures { IsExitStatus deny_warnings self.now result }
    {
        if self.error || (self.warn && deny_warnings) {
            1
        } else {
            0
        }
    }
}
