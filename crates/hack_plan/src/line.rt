//! A run of a plan, in parts that are borrowed from the plan: its line in a list of commands, which
//! costs what its bytes cost, and its command.

ghost use Rattle.std.specs.Prelude.{◌≡◌, ◌++◌, List, Some, None, IfOk, map, option_map};
ghost use Rattle.std.specs.Prelude.{string_bytes, true};
ghost use Rattle.std.specs.List.{flat_map};
ghost use Rattle.std.specs.Fmt.{WritesOnOk};
ghost use Rattle.hack_base.specs.Names.{Name, names_behind};
ghost use Rattle.hack_features.specs.Feature.{groups_of};
ghost use Rattle.hack_plan.specs.Runs.{run_of};
ghost use Rattle.hack_process.specs.Commands.{command_of, manifest_words};
ghost use Rattle.hack_process.specs.CommandTexts.{each_spaced, shown_features, shown_words};
ghost use Rattle.hack_process.specs.CommandTexts.{with_names};
ghost use Rattle.hack_plan.specs.View.{call_view, plan_package_view};
ghost use Rattle.hack_plan.specs.Commands.{rustup_run_words, candidate_names_at, run_command};
ghost use Rattle.hack_plan.specs.Commands.{run_names, run_words, target_pair, whole_command};
ghost use Rattle.hack_plan.specs.Lines.{command_in, listed_text, line_names, own_in};
ghost use Rattle.hack_plan.specs.Internal.{folder_behind, before_name, joined_names, takes_option};
ghost use Rattle.hack_plan.specs.Lines.{shown_manifest, shown_target};

use crate::commands::{
    names_of, push_all, push_manifest, push_names, push_run, push_targets, run_word,
};
use crate::parts::{CommandParts, PlanPackage};
use crate::runs::Run;
use hack_base::copies::text_in;
use hack_base::paths::{stem, under};
use hack_features::Feature;
use hack_process::process::{ProcessBuilder, Spaced, Trailing};
use hack_versions::version::Version;
use std::alloc::{AllocError, Global};
use std::fmt;

/// A run. It is shown as the line of its command in a list of commands.
#[derive(Drop)]
pub struct RunLine<'a> {
    words: &'a CommandParts,
    version: Option<Version>,
    slot: usize,
    manifest_path: Option<&'a str>,
    /// The features of `--features`.
    features: &'a [String],
    candidates: &'a [Feature],
    run: Run,
    /// The positions of the set's candidates, where the run is one of a set.
    positions: Vec<usize>,
}

impl<'a> RunLine<'a> {
    /// The run for all packages.
    pub(crate) fn whole(
        alloc: Global,
        words: &'a CommandParts,
        version: Option<Version>,
        slot: usize,
    ) -> RunLine<'a>
        ensures words { result.words.now ≡ words.now }
        ensures command { command_in result
            ≡ whole_command (call_view words.now) version slot }
    {
        RunLine {
            words,
            version,
            slot,
            manifest_path: None,
            features: words.features.as_slice(),
            candidates: &[],
            run: Run::Plain,
            positions: Vec::new(alloc),
        }
    }

    /// A package's run; where it is the run of a set, `positions` are those of the set's
    /// candidates.
    pub(crate) fn of_package(
        words: &'a CommandParts,
        version: Option<Version>,
        slot: usize,
        member: &'a PlanPackage,
        run: Run,
        positions: Vec<usize>,
    ) -> RunLine<'a>
        ensures words { result.words.now ≡ words.now }
        ensures command { command_in result
            ≡ run_command (call_view words.now) version slot (plan_package_view member.now)
            (run_of run positions.items) }
    {
        RunLine {
            words,
            version,
            slot,
            manifest_path: text_in(&member.manifest_path),
            features: member.features.as_slice(),
            candidates: member.candidates.as_slice(),
            run,
            positions,
        }
    }

    /// The command of the run.
    pub(crate) fn command(&self, alloc: Global) -> Result<ProcessBuilder<'a>, AllocError>
        ensures { IfOk result (λ command. command_of command ≡ command_in self.now) }
    {
        let own = self.own_words(alloc)?;
        let names = self.names(alloc)?;
        self.words
            .command(alloc, self.version, own.as_slice(), names.as_slice())
    }

    /// The arguments of the run's own.
    fn own_words(&self, alloc: Global) -> Result<Vec<&'a str>, AllocError>
        ensures { IfOk result (λ own. names_behind own.items ≡ own_in self.now) }
    {
        let targets = self.words.targets_in(self.version, self.slot);
        let mut own = Vec::with_capacity(alloc, 2 * targets.len() + 3)?;
        push_targets(&mut own, targets)?;
        push_manifest(&mut own, self.manifest_path)?;
        push_run(&mut own, self.run)?;
        Ok(own)
    }

    /// The names of the run's features: those of `--features`, and after them those of its set.
    fn names(&self, alloc: Global) -> Result<Vec<&'a str>, AllocError>
        ensures { IfOk result (λ names. names_behind names.items ≡ line_names self.now) }
    {
        let set = self.set();
        let mut names = Vec::with_capacity(alloc, self.features.len() + set.len())?;
        push_all(&mut names, self.features)?;
        push_names(&mut names, self.candidates, set)?;
        Ok(names)
    }

    /// The positions of the candidates that the run enables by name.
    fn set(&self) -> &[usize]
        ensures { (candidates : List (List Name)) → candidate_names_at candidates result.now
            ≡ run_names candidates (run_of self.now.run self.now.positions.items) }
    {
        match self.run {
            Run::Features => self.positions.as_slice(),
            Run::Plain | Run::AllFeatures | Run::NoDefaultFeatures => &[],
        }
    }
}

impl fmt::Display for RunLine<'_> {
    ghost output = { λ line. Some (listed_text line) };

    fn fmt<W: fmt::Write>(&self, f: &mut fmt::Formatter<W>) -> fmt::Result {
        let words = self.words;
        let program = stem(words.program_of(self.version));
        let leading = Leading(self.version);
        let passed = Spaced(words.passed.as_slice());
        let own = Own {
            targets: words.targets_in(self.version, self.slot),
            manifest_path: self.manifest_path,
            run: self.run,
            dir: words.dir.as_str(),
        };
        let names = Names {
            features: self.features,
            candidates: self.candidates,
            set: self.set(),
        };
        let trailing = Trailing(words.trailing.as_slice());
        write!(f, "{program}{leading}{passed}{own}{names}{trailing}")
    }
}

/// The arguments that make rustup run the cargo of a version.
#[derive(Drop)]
struct Leading(Option<Version>);

impl fmt::Display for Leading {
    ghost output = { λ leading. Some (each_spaced (rustup_run_words leading.0)) };

    fn fmt<W: fmt::Write>(&self, f: &mut fmt::Formatter<W>) -> fmt::Result {
        match self.0 {
            Some(version) => {
                let minor = version.minor;
                write!(f, " run 1.{minor} cargo")
            }
            None => Ok(()),
        }
    }
}

/// The arguments of a run's own. The path of `--manifest-path` is shown relative to the folder
/// where it is inside.
#[derive(Drop)]
struct Own<'b> {
    targets: &'b [String],
    manifest_path: Option<&'b str>,
    run: Run,
    dir: &'b str,
}

impl fmt::Display for Own<'_> {
    ghost use Rattle.std.specs.Prelude.{[]};

    ghost output = { λ own. Some (each_spaced (shown_words true own.dir.now
        (flat_map target_pair (map string_bytes own.targets.now)
        ++ manifest_words (option_map (λ path. path.now) own.manifest_path)
        ++ run_words (run_of own.run [])))) };

    fn fmt<W: fmt::Write>(&self, f: &mut fmt::Formatter<W>) -> fmt::Result {
        let targets = Targets(self.targets);
        let manifest = Manifest {
            path: self.manifest_path,
            dir: folder_behind(self.targets, self.dir),
        };
        let run = RunWord(self.run);
        write!(f, "{targets}{manifest}{run}")
    }
}

/// Each target after its option.
#[derive(Drop)]
struct Targets<'b>(&'b [String]);

impl fmt::Display for Targets<'_> {
    ghost output = { λ targets. Some (flat_map shown_target (map string_bytes targets.0.now)) };

    fn fmt<W: fmt::Write>(&self, f: &mut fmt::Formatter<W>) -> fmt::Result {
        for target in self.0 {
            f.write_str(" --target ")?;
            f.write_str(target.as_str())?;
        }
        Ok(())
    }
}

/// The folder to which the path of `--manifest-path` is shown relative. Where the last target is
/// itself `--manifest-path`, what comes next is taken for its value, so the path is shown as it is.
fn folder_behind<'b>(targets: &[String], dir: &'b str) -> &'b str
    ensures { result.now ≡ folder_behind (map string_bytes targets.now) dir.now }
{
    if takes_option(targets) { "" } else { dir }
}

/// Whether the last target is itself `--manifest-path`.
fn takes_option(targets: &[String]) -> bool
    ensures { result ≡ takes_option (map string_bytes targets.now) }
{
    match targets.last() {
        Some(target) => target.as_str() == "--manifest-path",
        None => false,
    }
}

/// A manifest's path after its option, relative to a folder where it is inside.
#[derive(Drop)]
struct Manifest<'b> {
    path: Option<&'b str>,
    dir: &'b str,
}

impl fmt::Display for Manifest<'_> {
    ghost output = { λ manifest. Some (each_spaced (shown_manifest manifest.dir.now
        (option_map (λ path. path.now) manifest.path))) };

    fn fmt<W: fmt::Write>(&self, f: &mut fmt::Formatter<W>) -> fmt::Result {
        match self.path {
            Some(path) => {
                let path = under(path, self.dir);
                write!(f, " --manifest-path {path}")
            }
            None => Ok(()),
        }
    }
}

/// The argument that says which features a run has.
#[derive(Drop)]
struct RunWord(Run);

impl fmt::Display for RunWord {
    ghost use Rattle.std.specs.Prelude.{[]};

    ghost output = { λ word. Some (each_spaced (run_words (run_of word.0 []))) };

    fn fmt<W: fmt::Write>(&self, f: &mut fmt::Formatter<W>) -> fmt::Result {
        match run_word(self.0) {
            Some(word) => write!(f, " {word}"),
            None => Ok(()),
        }
    }
}

/// `--features` and names joined by `,`, where there are any: the features, and after them those of
/// the candidates at the positions of a set.
#[derive(Drop)]
struct Names<'b> {
    features: &'b [String],
    candidates: &'b [Feature],
    set: &'b [usize],
}

impl fmt::Display for Names<'_> {
    ghost output = { λ s. Some (shown_features (with_names None (map string_bytes s.features.now
        ++ candidate_names_at (groups_of s.candidates.now) s.set.now))) };

    fn fmt<W: fmt::Write>(&self, f: &mut fmt::Formatter<W>) -> fmt::Result {
        put_names(f, true, self.features)?;
        let mut is_first = self.features.is_empty();
        for position in self.set {
            let names = names_of(self.candidates, *position);
            put_names(f, is_first, names)?;
            is_first &= names.is_empty();
        }
        Ok(())
    }
}

/// Writes names of a joined list; `is_first` says whether none has been written before.
#[inline(always)]
fn put_names<W: fmt::Write>(
    f: &mut fmt::Formatter<W>,
    is_first: bool,
    names: &[String],
) -> fmt::Result
    ensures { WritesOnOk W.write_str_gives f.old result
        (joined_names is_first (map string_bytes names.now)) f.new }
{
    let mut is_first = is_first;
    for name in names {
        put_name(f, is_first, name.as_str())?;
        is_first = false;
    }
    Ok(())
}

/// Writes a name of a joined list. What comes before it is written as a constant, which costs less
/// than a text.
#[inline(always)]
fn put_name<W: fmt::Write>(f: &mut fmt::Formatter<W>, is_first: bool, name: &str) -> fmt::Result
    ensures { WritesOnOk W.write_str_gives f.old result (before_name is_first ++ name.now) f.new }
{
    if is_first {
        f.write_str(" --features ")?;
    } else {
        f.write_str(",")?;
    }
    f.write_str(name)
}
