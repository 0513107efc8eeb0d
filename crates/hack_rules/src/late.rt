//! The rules that are checked after the one on a missing subcommand: on ranges of versions, log
//! groups, pieces of a plan, lifted groups, the strength of a sample, `--restore`,
//! `--package-rules`, runs side by side, and the searches for the least version and for conflicts.

ghost use Rattle.std.specs.Prelude.{◌≡◌, ◌&&◌, [], ◌∷◌, false, IfOk, IfSome};
ghost use Rattle.std.specs.Prelude.{option_map, option_and_then, nat_lt};
ghost use Rattle.std.specs.List.{list_all, list_any};
ghost use Rattle.std.specs.Option.{is_none, option_map_or, unwrap_or};
ghost use Rattle.std.specs.Result.{result_err, result_ok};
ghost use Rattle.hack_base.specs.Names.{names_of};
ghost use Rattle.hack_base.specs.Numbers.{number_of};
ghost use Rattle.hack_term.specs.Groups.{log_group_of};
ghost use Rattle.hack_partition.specs.Partitions.{piece_of, kind_of};
ghost use Rattle.hack_versions.specs.Readings.{range_of};
ghost use Rattle.hack_features.specs.Feature.{groups_of};
ghost use Rattle.hack_rules.specs.Uses.{view, views, is_given};
ghost use Rattle.hack_rules.specs.Values.{from_value};
ghost use Rattle.hack_rules.specs.AskedFields.{range_asked, log_group_asked};
ghost use Rattle.hack_rules.specs.AskedFields.{is_old_asked, is_message_format as message_format};
ghost use Rattle.hack_rules.specs.CliFaults.{Checks, Clash, LogGroup as WrongLogGroup, OldRustup, Range};
ghost use Rattle.hack_rules.specs.CliFaults.{Partition as WrongPiece, PartitionKind as WrongKind};
ghost use Rattle.hack_rules.specs.LateView.{IsLate};
ghost use Rattle.hack_rules.specs.Rules.{fault_if, first_of, has_beside, needs as needs_rule};
ghost use Rattle.hack_rules.specs.Internal.{number_up_to};
ghost use Rattle.hack_rules.specs.LateRules.{number_within, unless_counted};
ghost use Rattle.hack_rules.specs.LateRules.{parallel_rules, range_rules, rules_after};
ghost use Rattle.hack_rules.specs.LateRules.{conflict_search_rules, version_search_rules};
ghost use Rattle.hack_rules.specs.Behavior.{is_cargo};
ghost use Rattle.hack_rules.specs.LateRules.{is_beside_restore as beside_restore, restore_rule};

use crate::checks::{clash, needs};
use crate::early::{is_each, needs_powerset};
use crate::fault::{Beside, CliFault};
use crate::uses::{OwnedFlag, Use, WorkspaceBehavior, given, value};
use crate::{named, values};
use hack_features::Feature;
use hack_options::Opt;
use hack_partition::partition::{Partition, PartitionKind};
use hack_term::term::LogGroup;
use hack_versions::version::VersionRange;
use std::alloc::Global;

/// The first minor version of rustup that can run what a range asks for.
const LEAST_RUSTUP: u32 = 23;

/// How many runs go side by side at most.
const MOST_PARALLEL: usize = 256;

/// Refuses the option where rustup is known to be too old for it.
fn new_rustup(option: Opt, rustup: Option<u32>, uses: &[Use]) -> Result<(), CliFault>
    ensures { Checks result (option_and_then (λ minor.
        fault_if (is_given option (views uses.now) && nat_lt minor 23) (OldRustup option)) rustup) }
{
    if let Some(minor) = rustup
        && given(option, uses)
        && minor < LEAST_RUSTUP
    {
        return Err(CliFault::OldRustup { option });
    }
    Ok(())
}

/// Whether a range of versions is given.
pub fn is_ranged(uses: &[Use]) -> bool
    ensures { result ≡ has_beside Beside.VersionRange (views uses.now) }
{
    given(Opt::VersionRange, uses) || given(Opt::RustVersion, uses)
}

/// What the options on versions ask for.
#[derive(Clone, Copy)]
pub struct Versions {
    pub range: Option<VersionRange>,
    /// The range has the form `1.60..1.70` instead of `1.60..=1.70`.
    pub is_old: bool,
    pub step: u16,
}

/// The given range, and whether it has the old form.
fn said_range(alloc: Global, uses: &[Use]) -> Result<Option<(VersionRange, bool)>, CliFault>
    ensures rule { Checks result (from_value Opt.VersionRange
        (λ text. option_map Range (result_err (range_of text))) (views uses.now)) }
    ensures range { IfOk result (λ said. option_map (λ read. read.0) said
        ≡ from_value Opt.VersionRange (λ text. result_ok (range_of text)) (views uses.now)) }
    ensures old { IfOk result (λ said.
        option_map_or (λ read. read.1) said false ≡ is_old_asked (views uses.now)) }
{
    match value(Opt::VersionRange, uses) {
        Some(text) => Ok(Some(VersionRange::parse(alloc, text.as_str())?)),
        None => Ok(None),
    }
}

/// The step between versions.
fn step(alloc: Global, uses: &[Use]) -> Result<u16, CliFault>
    ensures rule { Checks result (from_value Opt.VersionStep
        (unless_counted Opt.VersionStep (number_of 16)) (views uses.now)) }
    ensures value { IfOk result (λ step.
        step ≡ unwrap_or (from_value Opt.VersionStep (number_of 16) (views uses.now)) 1) }
{
    match value(Opt::VersionStep, uses) {
        Some(text) => values::step(alloc, text.as_str()),
        None => Ok(1),
    }
}

/// The rules on versions.
fn check_versions(alloc: Global, rustup: Option<u32>, uses: &[Use]) -> Result<Versions, CliFault>
    ensures rules { Checks result (first_of (range_rules rustup (views uses.now))) }
    ensures range { IfOk result (λ versions. versions.range ≡ range_asked (views uses.now)) }
    ensures old { IfOk result (λ versions. versions.is_old ≡ is_old_asked (views uses.now)) }
    ensures step { IfOk result (λ versions. versions.step
        ≡ unwrap_or (from_value Opt.VersionStep (number_of 16) (views uses.now)) 1) }
{
    clash(Opt::VersionRange, Opt::RustVersion, uses)?;
    new_rustup(Opt::VersionRange, rustup, uses)?;
    new_rustup(Opt::RustVersion, rustup, uses)?;
    let said = said_range(alloc, uses)?;
    let there = is_ranged(uses);
    let option = Opt::VersionStep;
    needs(given(option, uses), option, Beside::VersionRange, there)?;
    let option = Opt::CleanPerVersion;
    needs(given(option, uses), option, Beside::VersionRange, there)?;
    let step = step(alloc, uses)?;
    let (range, is_old) = match said {
        Some((range, is_old)) => (Some(range), is_old),
        None => (None, false),
    };
    let range = if given(Opt::RustVersion, uses) {
        Some(VersionRange::msrv())
    } else {
        range
    };
    Ok(Versions {
        range,
        is_old,
        step,
    })
}

fn is_message_format(one: &Use) -> bool
    ensures { result ≡ message_format (view one.now) }
{
    match one {
        Use::Unknown {
            flag: OwnedFlag::Long(name),
            ..
        } => name.as_str() == "message-format",
        _ => false,
    }
}

/// Whether cargo's messages are formatted: then lines of `cargo hack` would be in the way.
#[tactic(auto, using(hack_base::proofs::Chains::mapped))]
fn formats_messages(uses: &[Use]) -> bool
    ensures { result ≡ list_any message_format (views uses.now) }
{
    uses.iter().any(|one| is_message_format(one))
}

/// How the lines of a run are grouped.
fn log_group(alloc: Global, github_actions: bool, uses: &[Use]) -> Result<LogGroup, CliFault>
    ensures rule { Checks result (from_value Opt.LogGroup
        (λ text. fault_if (is_none (log_group_of text)) (WrongLogGroup text)) (views uses.now)) }
    ensures value { IfOk result (λ group. group ≡ log_group_asked github_actions (views uses.now)) }
{
    let group = match value(Opt::LogGroup, uses) {
        Some(text) => LogGroup::parse(alloc, text.as_str())?,
        None => LogGroup::auto(github_actions && !formats_messages(uses)),
    };
    if given(Opt::PrintCommandList, uses) {
        return Ok(LogGroup::None);
    }
    Ok(group)
}

/// The piece of the plan, and how places are assigned to pieces.
fn partition(alloc: Global, uses: &[Use]) -> Result<Option<Partition>, CliFault>
    ensures rules { Checks result (first_of (from_value Opt.Partition
        (λ text. fault_if (is_none (piece_of text)) (WrongPiece text)) (views uses.now)
        ∷ needs_rule Opt.PartitionKind Beside.Partition (views uses.now)
        ∷ from_value Opt.PartitionKind
        (λ text. fault_if (is_none (kind_of text)) (WrongKind text)) (views uses.now)
        ∷ [])) }
    ensures piece { IfOk result (λ partition.
        option_map (λ p. (p.piece, p.count)) partition
        ≡ from_value Opt.Partition piece_of (views uses.now)) }
    ensures kind { IfOk result (λ partition. IfSome partition (λ p.
        p.kind ≡ unwrap_or (from_value Opt.PartitionKind kind_of (views uses.now))
        PartitionKind.Block)) }
{
    let piece = match value(Opt::Partition, uses) {
        Some(text) => Some(Partition::parse(alloc, text.as_str())?),
        None => None,
    };
    let option = Opt::PartitionKind;
    let there = given(Opt::Partition, uses);
    needs(given(option, uses), option, Beside::Partition, there)?;
    let kind = match value(Opt::PartitionKind, uses) {
        Some(text) => PartitionKind::parse(alloc, text.as_str())?,
        None => PartitionKind::Block,
    };
    match piece {
        Some(piece) => Ok(Some(piece.with_kind(kind))),
        None => Ok(None),
    }
}

/// What an option counts, where it is given: a number that isn't 0, and not greater than `most`,
/// where that is given.
fn counted(
    alloc: Global,
    option: Opt,
    most: Option<usize>,
    uses: &[Use],
) -> Result<Option<usize>, CliFault>
    ensures rule { Checks result (from_value option
        (unless_counted option (number_up_to most)) (views uses.now)) }
    ensures value { IfOk result (λ n.
        n ≡ from_value option (number_up_to most) (views uses.now)) }
{
    match value(option, uses) {
        Some(text) => Ok(Some(values::counted(alloc, option, most, text.as_str())?)),
        None => Ok(None),
    }
}

/// Whether this is a use of `--restore`, or of an option that may stand beside it.
fn is_beside_restore(one: &Use) -> bool
    ensures { result ≡ beside_restore (view one.now) }
{
    one.is_of(Opt::Restore) || one.is_of(Opt::Verbose) || one.is_of(Opt::Color)
}

/// Whether all uses are of these options.
#[tactic(auto, using(hack_base::proofs::Chains::mapped))]
fn are_beside_restore(uses: &[Use]) -> bool
    ensures { result ≡ list_all beside_restore (views uses.now) }
{
    uses.iter().all(|one| is_beside_restore(one))
}

/// Refuses other arguments beside `--restore`.
fn restore_alone(
    behavior: WorkspaceBehavior,
    trailing: &[String],
    uses: &[Use],
) -> Result<(), CliFault>
    ensures { Checks result
        (restore_rule behavior (names_of trailing.now) (views uses.now)) }
{
    let is_alone = behavior == WorkspaceBehavior::Default
        && are_beside_restore(uses)
        && trailing.is_empty();
    if given(Opt::Restore, uses) && !is_alone {
        return Err(CliFault::RestoreAlone);
    }
    Ok(())
}

/// The rules on runs side by side.
fn parallel(alloc: Global, uses: &[Use]) -> Result<Option<usize>, CliFault>
    ensures rules { Checks result (first_of (parallel_rules (views uses.now))) }
    ensures value { IfOk result (λ width.
        width ≡ from_value Opt.Parallel (number_within 256) (views uses.now)) }
{
    let width = counted(alloc, Opt::Parallel, Some(MOST_PARALLEL), uses)?;
    clash(Opt::Parallel, Opt::PrintCommandList, uses)?;
    clash(Opt::Parallel, Opt::CleanPerRun, uses)?;
    Ok(width)
}

/// Refuses the option where Cargo handles workspaces.
fn apart_from_cargo(behavior: WorkspaceBehavior, option: Opt, uses: &[Use]) -> Result<(), CliFault>
    ensures { Checks result (fault_if (is_cargo behavior && is_given option (views uses.now))
        (Clash option Opt.WorkspaceBehavior)) }
{
    if behavior == WorkspaceBehavior::Cargo && given(option, uses) {
        return Err(CliFault::Clash {
            option,
            other: Opt::WorkspaceBehavior,
        });
    }
    Ok(())
}

/// The rules on a search for the least version.
fn version_search(behavior: WorkspaceBehavior, uses: &[Use]) -> Result<(), CliFault>
    ensures { Checks result (first_of (version_search_rules behavior (views uses.now))) }
{
    let option = Opt::FindRustVersion;
    needs(
        given(option, uses),
        option,
        Beside::VersionRange,
        is_ranged(uses),
    )?;
    clash(option, Opt::Partition, uses)?;
    clash(option, Opt::PrintCommandList, uses)?;
    clash(option, Opt::KeepGoing, uses)?;
    apart_from_cargo(behavior, option, uses)?;
    clash(option, Opt::FindConflicts, uses)?;
    clash(option, Opt::RustVersion, uses)?;
    clash(option, Opt::Parallel, uses)
}

/// The rules on a search for conflicts, and how many runs it may have.
fn conflict_search(alloc: Global, uses: &[Use]) -> Result<Option<usize>, CliFault>
    ensures rules { Checks result (first_of (conflict_search_rules (views uses.now))) }
    ensures value { IfOk result (λ most.
        most ≡ from_value Opt.MostRuns (number_of 64) (views uses.now)) }
{
    let option = Opt::FindConflicts;
    needs_powerset(option, uses)?;
    clash(option, Opt::Depth, uses)?;
    clash(option, Opt::Strength, uses)?;
    clash(option, Opt::Partition, uses)?;
    clash(option, Opt::PrintCommandList, uses)?;
    clash(option, Opt::VersionRange, uses)?;
    clash(option, Opt::RustVersion, uses)?;
    clash(option, Opt::Parallel, uses)?;
    let option = Opt::MostRuns;
    let there = given(Opt::FindConflicts, uses);
    needs(given(option, uses), option, Beside::FindConflicts, there)?;
    counted(alloc, option, None, uses)
}

/// What these rules read while they check.
#[derive(Drop)]
pub struct Late {
    pub versions: Versions,
    pub log_group: LogGroup,
    pub partition: Option<Partition>,
    /// Packages, and for each an exclusion group that is lifted for it.
    pub lifts: Vec<(String, Feature)>,
    pub strength: Option<usize>,
    /// From 1 to 256.
    pub parallel: Option<usize>,
    /// At least 1.
    pub most_runs: Option<usize>,
}

/// Checks the rules after the one on a missing subcommand, and returns what they read. `rustup` is
/// its minor version, where known, `exclusive` has the groups of exclusive features, and `trailing`
/// the arguments after `--`.
pub fn check(
    alloc: Global,
    rustup: Option<u32>,
    github_actions: bool,
    exclusive: &[Feature],
    behavior: WorkspaceBehavior,
    trailing: &[String],
    uses: &[Use],
) -> Result<Late, CliFault>
    ensures rules { Checks result (first_of (rules_after rustup (groups_of exclusive.now)
        behavior (names_of trailing.now) (views uses.now))) }
    ensures late { IfOk result (IsLate github_actions (views uses.now)) }
{
    let versions = check_versions(alloc, rustup, uses)?;
    let log_group = log_group(alloc, github_actions, uses)?;
    let partition = partition(alloc, uses)?;
    let option = Opt::AllowTogether;
    let there = given(Opt::MutuallyExclusiveFeatures, uses);
    needs(
        given(option, uses),
        option,
        Beside::MutuallyExclusive,
        there,
    )?;
    let lifts = named::lifts(alloc, exclusive, uses)?;
    needs_powerset(Opt::Strength, uses)?;
    let strength = counted(alloc, Opt::Strength, None, uses)?;
    restore_alone(behavior, trailing, uses)?;
    let option = Opt::PackageRules;
    needs(
        given(option, uses),
        option,
        Beside::EachOrPowerset,
        is_each(uses),
    )?;
    let parallel = parallel(alloc, uses)?;
    version_search(behavior, uses)?;
    let most_runs = conflict_search(alloc, uses)?;
    Ok(Late {
        versions,
        log_group,
        partition,
        lifts,
        strength,
        parallel,
        most_runs,
    })
}
