//! The commands of a plan.

ghost use Rattle.std.specs.Prelude.{◌≡◌, ◌++◌, ◌∷◌, [], Some, None, map, option_map, IfOk, OnOk};
ghost use Rattle.std.specs.Prelude.{List, ℕ, length, take, drop, string_bytes, slice_get};
ghost use Rattle.std.specs.List.{cons_option, flat_map, slice_index_or};
ghost use Rattle.hack_base.specs.Names.{names_behind};
ghost use Rattle.hack_features.specs.Feature.{groups_of};
ghost use Rattle.hack_plan.specs.Runs.{run_of};
ghost use Rattle.hack_process.specs.Commands.{command_of, manifest_words, plain_command};
ghost use Rattle.hack_plan.specs.View.{call_view, plan_package_view};
ghost use Rattle.hack_plan.specs.Commands.{toolchain_of, program_of, rustup_run_words, targets_in};
ghost use Rattle.hack_plan.specs.Commands.{target_pair, run_words, candidate_names_at};
ghost use Rattle.hack_plan.specs.Commands.{call_command, HasCollected, cleaned_words};
ghost use Rattle.hack_plan.specs.Commands.{clean_command, lockfile_command, slot_target, slots_in};
ghost use Rattle.hack_plan.specs.Inputs.{is_split};

use crate::parts::{CommandParts, PlanPackage};
use crate::runs::Run;
use hack_base::copies::text_in;
use hack_features::Feature;
use hack_process::process::ProcessBuilder;
use hack_versions::version::Version;
use std::alloc::{AllocError, Global};
use std::slice;

/// The toolchain of a version, as rustup names it.
pub fn toolchain(alloc: Global, version: Version) -> Result<String, AllocError>
    ensures { IfOk result (λ text. string_bytes text ≡ toolchain_of version) }
{
    let minor = version.minor;
    format!(in alloc; "1.{minor}")
}

/// The arguments that make rustup run the cargo of a version.
fn leading(alloc: Global, version: Option<Version>) -> Result<Vec<String>, AllocError>
    ensures { IfOk result (λ words. map string_bytes words.items ≡ rustup_run_words version) }
{
    let Some(version) = version else {
        return Ok(Vec::new(alloc));
    };
    let mut words = Vec::with_capacity(alloc, 3)?;
    words.push(String::from_str(alloc, "run")?)?;
    words.push(toolchain(alloc, version)?)?;
    words.push(String::from_str(alloc, "cargo")?)?;
    Ok(words)
}

impl CommandParts {
    /// The program of a version's commands.
    pub(crate) fn program_of(&self, version: Option<Version>) -> &str
        ensures { result.now ≡ program_of (call_view self.now) version }
    {
        match version {
            None => self.cargo.as_str(),
            Some(_) => self.rustup.as_str(),
        }
    }

    /// The command of cargo for a version, without further arguments.
    fn program<'a>(
        &self,
        alloc: Global,
        version: Option<Version>,
    ) -> Result<ProcessBuilder<'a>, AllocError>
        ensures { IfOk result (λ command. command_of command
            ≡ plain_command (program_of (call_view self.now) version)
            (rustup_run_words version) []) }
    {
        let words = leading(alloc, version)?;
        let mut command = ProcessBuilder::new(alloc, self.program_of(version))?;
        for word in &words {
            command.leading_arg(word.as_str())?;
        }
        Ok(command)
    }

    /// A command with the arguments that the call passes on, these of its own, and these names of
    /// features.
    pub(crate) fn command(
        &self,
        alloc: Global,
        version: Option<Version>,
        own: &[&str],
        names: &[&str],
    ) -> Result<ProcessBuilder<'_>, AllocError>
        ensures { IfOk result (λ command. command_of command
            ≡ call_command (call_view self.now) version (names_behind own.now)
            (names_behind names.now)) }
    {
        let mut command = self.program(alloc, version)?;
        command.pass_words(self.passed.as_slice(), self.trailing.as_slice());
        command.args(own)?;
        command.append_features(names)?;
        Ok(command)
    }

    /// Whether each target is a separate slot.
    fn is_split(&self, version: Option<Version>) -> bool
        ensures { result ≡ is_split (length (call_view self.now).targets)
            (call_view self.now).cargo_minor version }
    {
        let minor = match version {
            None => self.cargo_minor,
            Some(version) => version.minor,
        };
        !self.targets.is_empty() && minor < 64
    }

    /// How many slots a version has: one for each target where cargo takes one at a time.
    pub(crate) fn slots(&self, version: Option<Version>) -> usize
        ensures { result ≡ slots_in (call_view self.now) version }
    {
        if self.is_split(version) {
            self.targets.len()
        } else {
            1
        }
    }

    /// The target of a slot that has one of its own.
    pub(crate) fn slot_target(&self, version: Option<Version>, slot: usize) -> Option<&str>
        ensures { option_map (λ target. target.now) result
            ≡ slot_target (call_view self.now) version slot }
    {
        if !self.is_split(version) {
            return None;
        }
        text_at(self.targets.as_slice(), slot)
    }

    /// The targets of a slot.
    pub(crate) fn targets_in(&self, version: Option<Version>, slot: usize) -> &[String]
        ensures { map string_bytes result.now ≡ targets_in (call_view self.now) version slot }
    {
        if !self.is_split(version) {
            return self.targets.as_slice();
        }
        one_at(self.targets.as_slice(), slot)
    }

    /// The command that removes the artifacts of a package, or all artifacts.
    pub fn cleaning(
        &self,
        alloc: Global,
        member: Option<&PlanPackage>,
    ) -> Result<ProcessBuilder<'_>, AllocError>
        ensures { IfOk result (λ command. command_of command
            ≡ clean_command (call_view self.now)
            (option_map (λ k. plan_package_view k.now) member.entry)) }
    {
        let mut command = self.program(alloc, None)?;
        command.arg("clean")?;
        if self.locked {
            command.arg("--locked")?;
        }
        add_cleaned(&mut command, member)?;
        Ok(command)
    }

    /// The command that regenerates the lockfile with the cargo of a version.
    pub fn lockfile(
        &self,
        alloc: Global,
        version: Version,
    ) -> Result<ProcessBuilder<'_>, AllocError>
        ensures { IfOk result (HasCollected (lockfile_command (call_view self.now) version)) }
    {
        let mut command = self.program(alloc, Some(version))?;
        command.arg("generate-lockfile")?;
        let mut manifest = Vec::new(alloc);
        push_manifest(&mut manifest, text_in(&self.current_manifest))?;
        command.args(manifest.as_slice())?;
        Ok(command)
    }
}

/// The text at an index, if there is one.
fn text_at(texts: &[String], place: usize) -> Option<&str>
    ensures { option_map (λ text. text.now) result
        ≡ slice_get (map string_bytes texts.now) place }
{
    match texts.get(place) {
        Some(text) => Some(text.as_str()),
        None => None,
    }
}

/// The text at an index as a list, if there is one.
fn one_at(texts: &[String], place: usize) -> &[String]
    ensures { map string_bytes result.now ≡ take 1 (drop place (map string_bytes texts.now)) }
{
    match texts.get(place) {
        Some(text) => slice::from_ref(text),
        None => &[],
    }
}

/// Adds an argument.
fn push_word<'a>(words: &mut Vec<&'a str>, word: &'a str) -> Result<(), AllocError>
    ensures { OnOk result (names_behind words.new.items
        ≡ names_behind words.old.items ++ word.now ∷ []) }
{
    words.push(word)?;
    Ok(())
}

/// Adds an option and its value.
fn push_pair<'a>(
    words: &mut Vec<&'a str>,
    option: &'a str,
    value: &'a str,
) -> Result<(), AllocError>
    ensures { OnOk result (names_behind words.new.items
        ≡ names_behind words.old.items ++ option.now ∷ value.now ∷ []) }
{
    push_word(words, option)?;
    push_word(words, value)
}

/// Adds each target after its option.
pub(crate) fn push_targets<'a>(
    words: &mut Vec<&'a str>,
    targets: &'a [String],
) -> Result<(), AllocError>
    ensures { OnOk result (names_behind words.new.items
        ≡ names_behind words.old.items ++ flat_map target_pair (map string_bytes targets.now)) }
{
    for target in targets {
        push_pair(words, "--target", target.as_str())?;
    }
    Ok(())
}

/// Adds a manifest's path after its option.
pub(crate) fn push_manifest<'a>(
    words: &mut Vec<&'a str>,
    path: Option<&'a str>,
) -> Result<(), AllocError>
    ensures { OnOk result (names_behind words.new.items
        ≡ names_behind words.old.items
        ++ manifest_words (option_map (λ path. path.now) path.entry)) }
{
    match path {
        Some(path) => push_pair(words, "--manifest-path", path),
        None => Ok(()),
    }
}

/// The argument that says which features a run has.
pub(crate) fn run_word(run: Run) -> Option<&'static str>
    ensures { (positions : List ℕ) → cons_option (option_map (λ word. word.now) result) []
        ≡ run_words (run_of run positions) }
{
    match run {
        Run::Plain => None,
        Run::AllFeatures => Some("--all-features"),
        Run::NoDefaultFeatures | Run::Features => Some("--no-default-features"),
    }
}

/// Adds the argument that says which features a run has.
pub(crate) fn push_run(words: &mut Vec<&str>, run: Run) -> Result<(), AllocError>
    ensures { (positions : List ℕ) → OnOk result (names_behind words.new.items
        ≡ names_behind words.old.items ++ run_words (run_of run positions)) }
{
    match run_word(run) {
        Some(word) => push_word(words, word),
        None => Ok(()),
    }
}

/// The names of the features of the candidate at an index.
pub(crate) fn names_of(candidates: &[Feature], place: usize) -> &[String]
    ensures { map string_bytes result.now ≡ slice_index_or (groups_of candidates.now) place [] }
{
    match candidates.get(place) {
        Some(feature) => feature.as_group(),
        None => &[],
    }
}

/// Appends names.
pub(crate) fn push_all<'a>(names: &mut Vec<&'a str>, more: &'a [String]) -> Result<(), AllocError>
    ensures { OnOk result (names_behind names.new.items
        ≡ names_behind names.old.items ++ map string_bytes more.now) }
{
    for name in more {
        names.push(name.as_str())?;
    }
    Ok(())
}

/// Appends the names of the candidates at the positions.
pub(crate) fn push_names<'a>(
    names: &mut Vec<&'a str>,
    candidates: &'a [Feature],
    positions: &[usize],
) -> Result<(), AllocError>
    ensures { OnOk result (names_behind names.new.items ≡ names_behind names.old.items
        ++ candidate_names_at (groups_of candidates.now) positions.now) }
{
    for position in positions {
        push_all(names, names_of(candidates, *position))?;
    }
    Ok(())
}

/// Adds the package whose artifacts are removed, if it is a single one.
fn add_cleaned(
    command: &mut ProcessBuilder<'_>,
    member: Option<&PlanPackage>,
) -> Result<(), AllocError>
    ensures { OnOk result (command_of command.new ≡ record (command_of command.old) {
      own = (command_of command.old).own
          ++ cleaned_words (option_map (λ k. plan_package_view k.now) member.entry);
    }) }
{
    match member {
        Some(member) => {
            command.arg("--package")?;
            command.arg(member.name.as_str())
        }
        None => Ok(()),
    }
}
