//! The parsed arguments of a call.

ghost use Rattle.std.specs.Prelude.{◌≡◌, ◌++◌, ◌||◌, IfErr, IfOk, OnOk, codes, map, string_bytes};
ghost use Rattle.std.specs.List.{repeat};
ghost use Rattle.hack_base.specs.Names.{names_of};
ghost use Rattle.hack_base.specs.Notes.{note_of};
ghost use Rattle.hack_rules.specs.PassedWords.{leading_of};
ghost use Rattle.hack_rules.specs.Uses.{is_given, views};
ghost use Rattle.hack_rules.specs.AskedFields.{verbose_words};
ghost use Rattle.hack_rules.specs.ListsView.{AreListsOf};
ghost use Rattle.hack_rules.specs.Rules.{counts};
ghost use Rattle.hack_words.specs.CommandLine.{ComesTo};
ghost use Rattle.hack_words.specs.Edits.{edits_asked};
ghost use Rattle.hack_words.specs.ParseAnswers.{AnswersCommandLine, BreakNoRule, Refuses};
ghost use Rattle.hack_words.specs.ParseAnswers.{around_of};

use crate::cli::edits::Edits;
use crate::cli::env::Env;
use crate::cli::parse::{Parsed, Surroundings, read_words};
use hack_base::copies::{copy_of, push_copies};
use hack_base::notice::Notice;
use hack_features::Feature;
use hack_options::Opt;
use hack_partition::partition::Partition;
use hack_rules::early::Early;
use hack_rules::fault::CliFault;
use hack_rules::late::Late;
use hack_rules::listed::Lists;
use hack_rules::named;
use hack_rules::uses::{Use, WorkspaceBehavior, count, given, subcommand, value, values};
use hack_term::term::{Coloring, LogGroup};
use hack_versions::rustup::Rustup;
use hack_versions::version::VersionRange;
use std::alloc::{AllocError, Global};

/// The parsed arguments of a call.
#[derive(Drop)]
pub struct Args {
    /// Arguments for cargo, in order: the subcommand, options that `cargo hack` doesn't know, and
    /// those that both know.
    pub leading_args: Vec<String>,
    /// The arguments after the first `--`.
    pub trailing_args: Vec<String>,
    pub subcommand: Option<String>,
    pub manifest_path: Option<String>,
    pub no_manifest_path: bool,
    pub locked: bool,
    /// Specifications of the packages to run on.
    pub package: Vec<String>,
    /// Specifications of packages to leave out.
    pub exclude: Vec<String>,
    pub workspace: bool,
    pub each_feature: bool,
    pub feature_powerset: bool,
    pub no_dev_deps: bool,
    pub remove_dev_deps: bool,
    /// What an interrupted call left edited is brought back, and nothing else is done.
    pub restore: bool,
    /// Each package's rules are these and those of its manifest.
    pub package_rules: bool,
    pub no_private: bool,
    /// Private packages are skipped; `--no-private` implies it.
    pub ignore_private: bool,
    pub ignore_unknown_features: bool,
    pub clean_per_run: bool,
    pub clean_per_version: bool,
    pub keep_going: bool,
    pub partition: Option<Partition>,
    pub print_command_list: bool,
    /// `--version-range`, or the packages' own versions for `--rust-version`.
    pub version_range: Option<VersionRange>,
    /// At least 1.
    pub version_step: u16,
    /// In place of all versions of the range a few are tried, to find the least on which all runs
    /// pass.
    pub find_rust_version: bool,
    /// In place of all sets of a powerset a few are run, to find those that fail though no part of them
    /// does.
    pub find_conflicts: bool,
    /// How many runs such a search may have: at least 1, `None` as many as it takes.
    pub most_runs: Option<usize>,
    pub log_group: LogGroup,
    pub workspace_behavior: WorkspaceBehavior,
    pub coloring: Coloring,
    /// None where the option isn't given; empty means all of them.
    pub optional_deps: Option<Vec<String>>,
    pub include_features: Vec<Feature>,
    pub include_deps_features: bool,
    /// The features that are in no set: those of `--exclude-features`, and those of
    /// `--features`, which every run has anyway.
    pub exclude_features: Vec<String>,
    /// The run with no features is left out; other options imply it too.
    pub exclude_no_default_features: bool,
    /// The run with all features is left out; other options imply it too.
    pub exclude_all_features: bool,
    /// The largest number of candidates in one set; a group counts as one.
    pub depth: Option<usize>,
    /// How many candidates a pattern has at most that the sample of a powerset shows: in place of
    /// all listed sets a few that show each such pattern. `None`: all listed sets.
    pub strength: Option<usize>,
    /// How many runs go side by side: from 1 to 256, `None` as 1.
    pub parallel: Option<usize>,
    pub group_features: Vec<Feature>,
    pub mutually_exclusive_features: Vec<Feature>,
    /// Packages, each with an exclusion group that is lifted for it.
    pub allow_together: Vec<(String, Feature)>,
    pub at_least_one_of: Vec<Feature>,
    /// Features that are enabled in each run.
    pub features: Vec<String>,
    /// Sorted by bytes, without duplicates.
    pub target: Vec<String>,
    pub no_default_features: bool,
    pub verbose: bool,
}

impl Args {
    /// What the arguments after the program's name ask for, with the notices on them; or the error
    /// of the first rule that they break. `rustup` matters where a range of versions is given.
    pub fn parse(
        alloc: Global,
        words: &[String],
        env: &Env,
        rustup: Rustup,
    ) -> Result<(Parsed, Vec<Notice>), CliFault>
        ensures ok { IfOk result (λ answer.
            AnswersCommandLine (around_of env.now rustup)
            (ComesTo (around_of env.now rustup) (names_of words.now)) answer.0
            (map note_of answer.1.items)) }
        ensures never { IfOk result (λ _.
            BreakNoRule (around_of env.now rustup) (names_of words.now)) }
        ensures err { IfErr result (Refuses
            (ComesTo (around_of env.now rustup) (names_of words.now))) }
    {
        let around = Surroundings {
            env,
            rustup: &rustup,
        };
        read_words(alloc, around, words)
    }

    /// What these arguments do to manifests.
    pub fn edits(&self) -> Edits
        ensures { result ≡ edits_asked self.now }
    {
        if self.restore {
            Edits::Restore
        } else if self.remove_dev_deps {
            Edits::Permanent
        } else if self.no_dev_deps || self.no_private {
            Edits::Temporary
        } else {
            Edits::None
        }
    }
}

/// The argument that passes `-v` on to cargo: one `v` less than was given.
fn verbose_word(alloc: Global, times: usize) -> Result<String, AllocError>
    ensures { IfOk result (λ word. string_bytes word ≡ codes "-" ++ repeat times (codes "v")) }
{
    let mut word = String::from_str(alloc, "-")?;
    for _ in 0..times {
        word.push_str("v")?;
    }
    Ok(word)
}

/// Passes `-v` on to cargo, once less than it was given.
fn pass_verbose(alloc: Global, leading: &mut Vec<String>, said: usize) -> Result<(), AllocError>
    ensures { OnOk result (names_of leading.new.items
        ≡ names_of leading.old.items ++ verbose_words said) }
{
    if said > 1 {
        leading.push(verbose_word(alloc, said - 1)?)?;
    }
    Ok(())
}

/// Whether the run with no features is left out.
fn leaves_no_default(lists: &Lists, uses: &[Use]) -> bool
    requires { AreListsOf (views uses.now) lists.now }
    ensures { result ≡ (is_given Opt.ExcludeNoDefaultFeatures (views uses.now)
        || is_given Opt.AtLeastOneOf (views uses.now)
        || counts Opt.IncludeFeatures (views uses.now)) }
{
    given(Opt::ExcludeNoDefaultFeatures, uses)
        || given(Opt::AtLeastOneOf, uses)
        || !lists.include_features.is_empty()
}

/// Whether the run with all features is left out: it would have features that are excluded, or that
/// exclude each other.
fn leaves_all(lists: &Lists, uses: &[Use]) -> bool
    requires { AreListsOf (views uses.now) lists.now }
    ensures { result ≡ (is_given Opt.ExcludeAllFeatures (views uses.now)
        || counts Opt.IncludeFeatures (views uses.now)
        || counts Opt.ExcludeFeatures (views uses.now)
        || is_given Opt.MutuallyExclusiveFeatures (views uses.now)) }
{
    given(Opt::ExcludeAllFeatures, uses)
        || !lists.include_features.is_empty()
        || !lists.exclude_features.is_empty()
        || given(Opt::MutuallyExclusiveFeatures, uses)
}

fn ignores_private(uses: &[Use]) -> bool
    ensures { result ≡ (is_given Opt.IgnorePrivate (views uses.now)
        || is_given Opt.NoPrivate (views uses.now)) }
{
    given(Opt::IgnorePrivate, uses) || given(Opt::NoPrivate, uses)
}

/// What a parsed call is besides its uses of options.
#[derive(Drop)]
pub struct Call {
    pub behavior: WorkspaceBehavior,
    /// The arguments passed on to cargo, without the counted `-v`.
    pub passed: Vec<String>,
    /// The arguments after the first `--`.
    pub trailing: Vec<String>,
}

/// A call that keeps the rules, with what the rules read.
#[derive(Drop)]
pub struct Read {
    pub call: Call,
    pub early: Early,
    pub late: Late,
}

impl Args {
    ghost use Rattle.hack_words.specs.ArgsView.{HasFlags, HasTexts};
    ghost use Rattle.hack_words.specs.Internal.{Carries};

    /// The arguments, from the uses of options and from what the rules read.
    pub(crate) fn of(alloc: Global, read: Read, uses: &[Use]) -> Result<Args, AllocError>
        requires passed { names_of read.call.passed.items
            ≡ leading_of read.call.behavior (views uses.now) }
        requires listed { AreListsOf (views uses.now) read.early.lists }
        ensures flags { IfOk result (HasFlags (views uses.now)) }
        ensures texts { IfOk result (HasTexts read.call.behavior (views uses.now)) }
        ensures carries { IfOk result (Carries read) }
    {
        let Read { call, early, late } = read;
        let Call {
            behavior: workspace_behavior,
            passed: mut leading_args,
            trailing: trailing_args,
        } = call;
        let Early {
            coloring,
            depth,
            lists,
        } = early;
        let said = count(Opt::Verbose, uses);
        pass_verbose(alloc, &mut leading_args, said)?;
        let exclude_no_default_features = leaves_no_default(&lists, uses);
        let exclude_all_features = leaves_all(&lists, uses);
        let Lists {
            features,
            include_features: includes,
            exclude_features: mut excludes,
            optional_deps,
            group_features,
            mutually_exclusive_features,
        } = lists;
        push_copies(&mut excludes, features.as_slice())?;
        Ok(Args {
            leading_args,
            trailing_args,
            subcommand: copy_of(subcommand(uses))?,
            manifest_path: copy_of(value(Opt::ManifestPath, uses))?,
            no_manifest_path: given(Opt::NoManifestPath, uses),
            locked: given(Opt::Locked, uses),
            package: values(alloc, Opt::Package, uses)?,
            exclude: values(alloc, Opt::Exclude, uses)?,
            workspace: given(Opt::Workspace, uses),
            each_feature: given(Opt::EachFeature, uses),
            feature_powerset: given(Opt::FeaturePowerset, uses),
            no_dev_deps: given(Opt::NoDevDeps, uses),
            remove_dev_deps: given(Opt::RemoveDevDeps, uses),
            restore: given(Opt::Restore, uses),
            package_rules: given(Opt::PackageRules, uses),
            find_rust_version: given(Opt::FindRustVersion, uses),
            find_conflicts: given(Opt::FindConflicts, uses),
            most_runs: late.most_runs,
            no_private: given(Opt::NoPrivate, uses),
            ignore_private: ignores_private(uses),
            ignore_unknown_features: given(Opt::IgnoreUnknownFeatures, uses),
            clean_per_run: given(Opt::CleanPerRun, uses),
            clean_per_version: given(Opt::CleanPerVersion, uses),
            keep_going: given(Opt::KeepGoing, uses),
            partition: late.partition,
            print_command_list: given(Opt::PrintCommandList, uses),
            version_range: late.versions.range,
            version_step: late.versions.step,
            log_group: late.log_group,
            workspace_behavior,
            coloring,
            optional_deps,
            include_features: named::normals(alloc, includes.as_slice())?,
            include_deps_features: given(Opt::IncludeDepsFeatures, uses),
            exclude_features: excludes,
            exclude_no_default_features,
            exclude_all_features,
            depth,
            strength: late.strength,
            parallel: late.parallel,
            group_features,
            mutually_exclusive_features,
            allow_together: late.lifts,
            at_least_one_of: named::groups(alloc, Opt::AtLeastOneOf, uses)?,
            features,
            target: named::targets(alloc, uses)?,
            no_default_features: given(Opt::NoDefaultFeatures, uses),
            verbose: given(Opt::Verbose, uses),
        })
    }
}
