//! A command of cargo: its arguments, and how it is shown and run.

ghost use Rattle.std.specs.Prelude.{◌≡◌, ◌≢◌, ◌++◌, ◌∷◌, [], ◌||◌, IfOk, IfErr, OnOk, OnErr, Some};
ghost use Rattle.std.specs.Prelude.{None, map, true, false, string_bytes};
ghost use Rattle.std.specs.Str.{IsUtf8};
ghost use Rattle.hack_base.specs.Names.{optional_text};
ghost use Rattle.hack_process.specs.Calls.{AddsCall, IsSuccess, answer_of};
ghost use Rattle.hack_process.specs.CommandTexts.{text_of, listed_of, words_of, each_spaced};
ghost use Rattle.hack_process.specs.CommandTexts.{shown_words, shown_features, shown_trailing};
ghost use Rattle.hack_process.specs.CommandTexts.{shown_program, with_names, words_behind};
ghost use Rattle.hack_process.specs.OwnWords.{shown_own};
ghost use Rattle.hack_process.specs.Internal.{awaits_path};
ghost use Rattle.hack_process.specs.Commands.{asked_of, command_of, line_text};
ghost use Rattle.hack_process.specs.Faults.{GotAnswer, IsFault, IsReadFault, ShowsNothing};
ghost use Rattle.hack_process.specs.Faults.{without_line_ends};

pub use crate::caller::{Called, Caller, End};
pub use crate::child::{Child, system_command};
pub use crate::fake::{FakeCaller, Made};
pub use crate::fault::{Failure, ProcessFault};
use crate::words::{longer, push_features, push_trailing, push_words, without_ends};
use hack_base::copies::{copies, copy_of};
use hack_base::paths::{stem, under};
use std::alloc::{AllocError, Global};
use std::convert::AsStr;
use std::fmt;

/// Collects the parts of a command. They come in this order: the program, the leading arguments,
/// the passed ones, the builder's own ones, `--features` with the features, and `--` with the
/// trailing arguments. Those that the user wrote for the command are passed and trailing.
#[derive(Drop)]
pub struct ProcessBuilder<'a> {
    program: String,
    leading: Vec<String>,
    passed: &'a [String],
    own: Vec<String>,
    /// The names joined by `,`, as one argument, since cargo before 1.38 takes `--features` only
    /// once.
    features: Option<String>,
    trailing: &'a [String],
    /// Whether the program is shown without its folder and its ending in each text.
    pub strip_program_path: bool,
}

impl<'a> ProcessBuilder<'a> {
    /// A command of the program alone.
    pub fn new(alloc: Global, program: &str) -> Result<ProcessBuilder<'a>, AllocError>
        ensures { IfOk result (λ builder. command_of builder ≡ record {
          program = program.now;
          strip_program_path = false;
          leading = [];
          passed = [];
          own = [];
          features = None;
          trailing = [];
        }) }
    {
        Ok(ProcessBuilder {
            program: String::from_str(alloc, program)?,
            leading: Vec::new(alloc),
            passed: &[],
            own: Vec::new(alloc),
            features: None,
            trailing: &[],
            strip_program_path: false,
        })
    }

    /// Adds one of the builder's own arguments.
    pub fn arg(&mut self, word: &str) -> Result<(), AllocError>
        ensures ok { OnOk result (command_of self.new ≡ record (command_of self.old)
            { own = (command_of self.old).own ++ word.now ∷ [] }) }
        ensures err { OnErr result (command_of self.new ≡ command_of self.old) }
    {
        let word = String::from_str(*self.own.allocator(), word)?;
        self.own.push(word)?;
        Ok(())
    }

    /// Adds own arguments, or none of them where memory is refused.
    pub fn args<T: AsStr>(&mut self, words: &[T]) -> Result<(), AllocError>
        ensures ok { OnOk result (command_of self.new ≡ record (command_of self.old)
            { own = (command_of self.old).own ++ map T.text words.now }) }
        ensures err { OnErr result (command_of self.new ≡ command_of self.old) }
    {
        let mut own = copies(*self.own.allocator(), words)?;
        self.own.append(&mut own)
    }

    /// Adds a leading argument: one that comes after the program and other leading ones, and before
    /// all others.
    pub fn leading_arg(&mut self, word: &str) -> Result<(), AllocError>
        ensures ok { OnOk result (command_of self.new ≡ record (command_of self.old)
            { leading = (command_of self.old).leading ++ word.now ∷ [] }) }
        ensures err { OnErr result (command_of self.new ≡ command_of self.old) }
    {
        let word = String::from_str(*self.leading.allocator(), word)?;
        self.leading.push(word)?;
        Ok(())
    }

    /// Sets the arguments that the user wrote for the command, in place of those set before: the
    /// passed ones, and the trailing ones, which followed `--`.
    pub fn pass_words(&mut self, passed: &'a [String], trailing: &'a [String])
        ensures { command_of self.new ≡ record (command_of self.old)
            { passed = map string_bytes passed.now; trailing = map string_bytes trailing.now } }
    {
        self.passed = passed;
        self.trailing = trailing;
    }

    /// Appends names to the features, or none of them where memory is refused. An empty name is
    /// appended like any other.
    pub fn append_features<T: AsStr>(&mut self, names: &[T]) -> Result<(), AllocError>
        ensures ok { OnOk result (command_of self.new ≡ record (command_of self.old)
            { features = with_names (command_of self.old).features (map T.text names.now) }) }
        ensures err { OnErr result (command_of self.new ≡ command_of self.old) }
    {
        let alloc = *self.own.allocator();
        let mut features = copy_of(self.features.as_ref())?;
        for name in names {
            features = Some(longer(alloc, features, name.as_str())?);
        }
        self.features = features;
        Ok(())
    }

    /// The program, as it was given.
    pub fn program(&self) -> &str
        ensures { result.now ≡ (command_of self.now).program }
    {
        self.program.as_str()
    }

    /// Returns the arguments that the program is given, in order.
    pub fn words(&self, alloc: Global) -> Result<Vec<&str>, AllocError>
        ensures { IfOk result (λ words. map (λ word. word.now) words.items
            ≡ words_behind (command_of self.now)) }
    {
        let mut words = Vec::new(alloc);
        push_words(&mut words, &self.leading)?;
        push_words(&mut words, self.passed)?;
        push_words(&mut words, &self.own)?;
        push_features(&mut words, &self.features)?;
        push_trailing(&mut words, self.trailing)?;
        Ok(words)
    }

    /// Returns the command as a user reads it, in backquotes. Only a long or a verbose text shows
    /// the program's whole path, unless `strip_program_path` is set, and the own `--manifest-path`,
    /// relative to `dir` where it is inside.
    pub fn text(
        &self,
        alloc: Global,
        long: bool,
        verbose: bool,
        dir: &str,
    ) -> Result<String, AllocError>
        ensures { IfOk result (λ text. string_bytes text
            ≡ text_of (long || verbose) dir.now (command_of self.now)) }
    {
        let line = self.line(long || verbose, dir);
        format!(in alloc; "`{line}`")
    }

    /// Returns the command as a list of commands shows it: the verbose text, without the program's
    /// folder and without the backquotes. Showing it takes no memory.
    pub fn listed<'b>(&'b self, dir: &'b str) -> Line<'b>
        ensures { line_text result ≡ listed_of dir.now (command_of self.now) }
    {
        Line {
            program: stem(&self.program),
            builder: self,
            full: true,
            dir,
        }
    }

    /// Runs the command once, with the input and output of this process. `dir` is the current
    /// folder, for the long text in an error.
    pub fn run<C: Caller>(
        &self,
        alloc: Global,
        caller: &mut C,
        dir: &str,
    ) -> Result<(), ProcessFault>
        ensures ok { OnOk result (C.tells → GotAnswer (λ answer. IsSuccess answer.end)
            (asked_of false (command_of self.now)) (C.calls caller.old) (C.calls caller.new)) }
        ensures named { OnOk result ((command_of self.now).program ≢ []) }
        ensures err { IfErr result (IsFault C.tells (asked_of false (command_of self.now))
            (text_of true dir.now (command_of self.now))
            (C.calls caller.old) (C.calls caller.new)) }
        ensures bare { IfErr result ShowsNothing }
        ensures course { C.course caller.old caller.new }
    {
        let _called = self.call_once(alloc, caller, false, dir)?;
        Ok(())
    }

    /// Runs the command once, with an empty input, and returns what it wrote.
    pub fn run_with_output<C: Caller>(
        &self,
        alloc: Global,
        caller: &mut C,
        dir: &str,
    ) -> Result<Called, ProcessFault>
        ensures success { IfOk result (λ called. IsSuccess called.end) }
        ensures ok { IfOk result (λ called. C.tells → AddsCall (asked_of true (command_of self.now))
            (answer_of called) (C.calls caller.old) (C.calls caller.new)) }
        ensures named { OnOk result ((command_of self.now).program ≢ []) }
        ensures err { IfErr result (IsFault C.tells (asked_of true (command_of self.now))
            (text_of true dir.now (command_of self.now))
            (C.calls caller.old) (C.calls caller.new)) }
        ensures course { C.course caller.old caller.new }
    {
        self.call_once(alloc, caller, true, dir)
    }

    /// Runs the command once, with an empty input, and returns the text that it wrote to its
    /// output, without line feeds and carriage returns at the end.
    pub fn read<C: Caller>(
        &self,
        alloc: Global,
        caller: &mut C,
        dir: &str,
    ) -> Result<String, ProcessFault>
        ensures ok { IfOk result (λ text. C.tells → GotAnswer (λ answer. IsSuccess answer.end
            × IsUtf8 answer.stdout × (string_bytes text ≡ without_line_ends answer.stdout))
            (asked_of true (command_of self.now)) (C.calls caller.old) (C.calls caller.new)) }
        ensures named { OnOk result ((command_of self.now).program ≢ []) }
        ensures err { IfErr result (IsReadFault C.tells (asked_of true (command_of self.now))
            (text_of true dir.now (command_of self.now))
            (C.calls caller.old) (C.calls caller.new)) }
        ensures course { C.course caller.old caller.new }
    {
        let called = self.call_once(alloc, caller, true, dir)?;
        match String::from_utf8(called.stdout) {
            Ok(text) => Ok(without_ends(text)),
            Err(_) => Err(ProcessFault::NotText(self.text(alloc, true, false, dir)?)),
        }
    }

    /// Calls the command once, and returns its answer where it ended with status 0.
    fn call_once<C: Caller>(
        &self,
        alloc: Global,
        caller: &mut C,
        capture: bool,
        dir: &str,
    ) -> Result<Called, ProcessFault>
        ensures success { IfOk result (λ called. IsSuccess called.end) }
        ensures ok { IfOk result (λ called. C.tells
            → AddsCall (asked_of capture (command_of self.now))
            (answer_of called) (C.calls caller.old) (C.calls caller.new)) }
        ensures named { OnOk result ((command_of self.now).program ≢ []) }
        ensures err { IfErr result (IsFault C.tells (asked_of capture (command_of self.now))
            (text_of true dir.now (command_of self.now))
            (C.calls caller.old) (C.calls caller.new)) }
        ensures bare { capture ≡ false → IfErr result ShowsNothing }
        ensures course { C.course caller.old caller.new }
    {
        let program = self.program();
        if program.is_empty() {
            return Err(ProcessFault::EmptyProgram);
        }
        let words = copies(alloc, &self.words(alloc)?)?;
        let called = caller.call(alloc, program, &words, capture)?;
        if called.end.is_success() {
            return Ok(called);
        }
        let command = self.text(alloc, true, false, dir)?;
        if called.end == End::NeverStarted {
            return Err(ProcessFault::NeverExecuted(command));
        }
        Err(ProcessFault::Failed(Failure::new(alloc, command, called)))
    }

    /// Returns what a text shows between its backquotes. `full` says whether it is long or verbose.
    fn line<'b>(&'b self, full: bool, dir: &'b str) -> Line<'b>
        ensures { line_text result ≡ words_of (shown_program full (command_of self.now)) full
            dir.now (command_of self.now) }
    {
        Line {
            program: self.shown_program(full),
            builder: self,
            full,
            dir,
        }
    }

    fn shown_program(&self, full: bool) -> &str
        ensures { result.now ≡ shown_program full (command_of self.now) }
    {
        if full && !self.strip_program_path {
            self.program.as_str()
        } else {
            stem(&self.program)
        }
    }
}

/// Shows the short text.
impl fmt::Display for ProcessBuilder<'_> {
    ghost output = { λ builder. Some (text_of false [] (command_of builder)) };

    fn fmt<W: fmt::Write>(&self, f: &mut fmt::Formatter<W>) -> fmt::Result {
        let line = self.line(false, "");
        write!(f, "`{line}`")
    }
}

/// A command on one line, without backquotes and without a line feed.
#[derive(Drop)]
pub struct Line<'b> {
    program: &'b str,
    builder: &'b ProcessBuilder<'b>,
    full: bool,
    dir: &'b str,
}

impl fmt::Display for Line<'_> {
    ghost output = { λ line. Some (line_text line) };

    fn fmt<W: fmt::Write>(&self, f: &mut fmt::Formatter<W>) -> fmt::Result {
        let program = self.program;
        let leading = Spaced(&self.builder.leading);
        let passed = Spaced(self.builder.passed);
        let own = OwnWords {
            words: &self.builder.own,
            full: self.full,
            dir: self.dir,
        };
        let features = Features(&self.builder.features);
        let trailing = Trailing(self.builder.trailing);
        write!(f, "{program}{leading}{passed}{own}{features}{trailing}")
    }
}

/// Arguments, each after a space.
#[derive(Drop)]
pub struct Spaced<'b>(pub &'b [String]);

impl fmt::Display for Spaced<'_> {
    ghost output = { λ words. Some (each_spaced (map string_bytes words.0.now)) };

    fn fmt<W: fmt::Write>(&self, f: &mut fmt::Formatter<W>) -> fmt::Result {
        for word in self.0 {
            f.write_str(" ")?;
            f.write_str(word.as_str())?;
        }
        Ok(())
    }
}

/// The builder's own arguments, each after a space. `--manifest-path` and its value are shown only
/// where the text is full.
#[derive(Drop)]
struct OwnWords<'b> {
    words: &'b [String],
    full: bool,
    dir: &'b str,
}

impl fmt::Display for OwnWords<'_> {
    ghost output = { λ own. Some (each_spaced
        (shown_words own.full own.dir.now (map string_bytes own.words.now))) };

    fn fmt<W: fmt::Write>(&self, f: &mut fmt::Formatter<W>) -> fmt::Result {
        // Whether the argument before was `--manifest-path`, whose value follows.
        let mut awaits_path = false;
        for word in self.words {
            let own = OwnWord {
                word: word.as_str(),
                is_path: awaits_path,
                full: self.full,
                dir: self.dir,
            };
            write!(f, "{own}")?;
            awaits_path = own.awaits_path();
        }
        // `--manifest-path` was the last argument, without a value.
        if awaits_path {
            write!(f, " {MANIFEST_PATH}")?;
        }
        Ok(())
    }
}

const MANIFEST_PATH: &str = "--manifest-path";

/// One of the builder's own arguments.
#[derive(Drop)]
struct OwnWord<'b> {
    word: &'b str,
    /// Whether it is the value of the `--manifest-path` before it.
    is_path: bool,
    full: bool,
    dir: &'b str,
}

impl OwnWord<'_> {
    /// Returns whether this is `--manifest-path` itself, which is shown together with its value.
    fn awaits_path(&self) -> bool
        ensures { result ≡ awaits_path self.now.is_path self.now.word.now }
    {
        !self.is_path && self.word == MANIFEST_PATH
    }
}

impl fmt::Display for OwnWord<'_> {
    ghost output = { λ own. Some (shown_own own.is_path own.full own.dir.now own.word.now) };

    fn fmt<W: fmt::Write>(&self, f: &mut fmt::Formatter<W>) -> fmt::Result {
        let word = self.word;
        if self.awaits_path() {
            return Ok(());
        }
        if !self.is_path {
            f.write_str(" ")?;
            return f.write_str(word);
        }
        if !self.full {
            return Ok(());
        }
        let path = under(word, self.dir);
        write!(f, " {MANIFEST_PATH} {path}")
    }
}

/// `--features` and the features, where there are any.
#[derive(Drop)]
struct Features<'b>(&'b Option<String>);

impl fmt::Display for Features<'_> {
    ghost output = { λ features. Some (shown_features (optional_text features.0.now)) };

    fn fmt<W: fmt::Write>(&self, f: &mut fmt::Formatter<W>) -> fmt::Result {
        match self.0 {
            Some(names) => write!(f, " --features {names}"),
            None => Ok(()),
        }
    }
}

/// `--` and the trailing arguments, where there are any.
#[derive(Drop)]
pub struct Trailing<'b>(pub &'b [String]);

impl fmt::Display for Trailing<'_> {
    ghost output = { λ words. Some (shown_trailing (map string_bytes words.0.now)) };

    fn fmt<W: fmt::Write>(&self, f: &mut fmt::Formatter<W>) -> fmt::Result {
        if self.0.is_empty() {
            return Ok(());
        }
        let words = Spaced(self.0);
        write!(f, " --{words}")
    }
}
