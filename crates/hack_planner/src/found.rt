//! What comes of the candidates of a package: its sets, their runs, and with a strength a row for each
//! run. The rules that choose among the sets are made once, and everything is asked of these.

ghost use Rattle.std.specs.Prelude.{◌≡◌, ◌⊎◌, ◌==◌, [], IfErr, IfOk, None, false, true};
ghost use Rattle.std.specs.Prelude.{IfSome, IsSome, length};
ghost use Rattle.std.specs.List.{AllZip};
ghost use Rattle.std.specs.Option.{option_map_or};
ghost use Rattle.hack_features.specs.Feature.{groups_of, candidates_of};
ghost use Rattle.hack_sets.specs.Forest.{sets_in};
ghost use Rattle.hack_features.specs.Rules.{Choice, AreCovers};
ghost use Rattle.hack_features.specs.Samples.{IsSample, CoversPatterns, IsLean};
ghost use Rattle.hack_features.specs.View.{choice_of as rules_choice, size_of, questions_asked};
ghost use Rattle.hack_metadata.specs.RecordViews.{package_view};
ghost use Rattle.hack_plan.specs.Inputs.{AreVersionsOf};
ghost use Rattle.hack_plan.specs.Runs.{run_of};
ghost use Rattle.hack_plan.specs.RunsView.{runs_in};
ghost use Rattle.hack_samples.specs.Sets.{rows_of};
ghost use Rattle.hack_planner.specs.Candidates.{candidates as are_candidates};
ghost use Rattle.hack_planner.specs.Internal.{IsGivenUp, IsRefused};
ghost use Rattle.hack_planner.specs.InternalKinds.{AreMade, IsMadeOf};
ghost use Rattle.hack_planner.specs.InternalLeastPlaces.{HasRunsAtLeast, IsOver};
ghost use Rattle.hack_planner.specs.Kinds.{AreRunSettings, AreSetsBy, IsRowOf, options_of};
ghost use Rattle.hack_planner.specs.Kinds.{choice_among, package_choice};
ghost use Rattle.hack_planner.specs.KindsView.{IsRunsFault};
ghost use Rattle.hack_planner.specs.PackageRules.{rules_in};

use crate::candidates::has_no_feature;
use crate::fault::RunsFault;
use crate::least_places::{Limit, too_many};
use crate::package_rules::PackageRules;
use hack_features::{Feature, FeatureSets, Rules, SampleFault};
use hack_load::features::Features;
use hack_metadata::metadata::Package;
use hack_plan::runs::{Run, RunOptions, Runs};
use hack_samples::Allowed;
use std::alloc::{AllocError, Global};

/// What comes of a package's candidates: its runs, before the candidates are put to them.
#[derive(Drop)]
pub(crate) struct Found {
    pub runs: Runs,
    /// Whether the runs are a single plain one.
    pub is_plain: bool,
    /// As in `PackageRuns`.
    pub settings: Vec<Vec<bool>>,
}

/// What comes of the candidates of a package; or how many runs it has at least, if there is a limit
/// and they pass it. Then no set is listed.
pub(crate) fn found_among(
    alloc: Global,
    asked: &PackageRules,
    pkg: &Package,
    features: &Features,
    candidates: &[Feature],
    limit: Option<Limit<'_>>,
) -> Result<Result<Found, usize>, RunsFault>
    requires candidates { groups_of candidates.now ≡ are_candidates (rules_in asked.now) features.now }
    requires versions { IfSome limit (λ l. AreVersionsOf l.input.now l.versions.now) }
    ensures made { IfOk result (λ listed. IfOk listed (λ found. AreMade (rules_in asked.now) features.now
        (package_choice (rules_in asked.now) (package_view pkg.now) features.now)
        (length (are_candidates (rules_in asked.now) features.now)) (runs_in found.runs) found.is_plain
        (rows_of found.settings.items))) }
    ensures over { IfOk result (λ listed. IfErr listed (λ least.
        HasRunsAtLeast (rules_in asked.now) (package_view pkg.now) features.now least
        × IsOver limit.entry least)) }
    ensures err { IfErr result (λ e. (e ≡ RunsFault.Memory)
        ⊎ IsRunsFault (rules_in asked.now) (package_view pkg.now) features.now e) }
{
    if !asked.feature_powerset && asked.strength.is_none() {
        return Ok(Ok(each_alone(alloc, asked, features, candidates.len())?));
    }
    let all = all_of(alloc, candidates)?;
    let mut rules = rules_of(alloc, asked, pkg, all.as_slice())?;
    match too_many(alloc, asked, &mut rules, limit)? {
        Some(least) => Ok(Err(least)),
        None => Ok(Ok(by_rules(alloc, asked, features, &mut rules)?)),
    }
}

/// References to all features.
pub fn all_of<'a>(alloc: Global, features: &'a [Feature]) -> Result<Vec<&'a Feature>, AllocError>
    ensures { IfOk result (λ all. candidates_of all.items ≡ groups_of features.now) }
{
    let mut all = Vec::with_capacity(alloc, features.len())?;
    for feature in features {
        all.push(feature)?;
    }
    Ok(all)
}

/// The rules by which sets of these candidates of the package are chosen.
pub fn rules_of<'a>(
    alloc: Global,
    asked: &'a PackageRules,
    pkg: &'a Package,
    all: &'a [&'a Feature],
) -> Result<Rules<'a>, AllocError>
    ensures choice { IfOk result (λ rules. rules_choice rules
        ≡ choice_among (rules_in asked.now) (package_view pkg.now) (candidates_of all.now)) }
    ensures size { IfOk result (λ rules. size_of rules ≡ length all.now) }
    ensures fresh { IfOk result (λ rules. questions_asked rules ≡ 0) }
{
    Rules::new(
        alloc,
        all,
        asked.depth,
        asked.at_least_one_of.as_slice(),
        asked.exclusive.as_slice(),
        &pkg.features,
        &[],
    )
}

/// How many questions are asked at most for the sample of a package: more than any sample in the
/// tests needs, and so few that they take only seconds.
const MOST_QUESTIONS: u64 = 20_000_000;

/// A sample of the sets of the rules, which nobody asked before. If it needs too many questions, the
/// error says how many these rules were asked.
fn sample_of(alloc: Global, rules: &mut Rules, strength: usize) -> Result<FeatureSets, RunsFault>
    requires { questions_asked rules.old ≡ 0 }
    ensures sample { IfOk result (λ sets. IsSample (rules_choice rules.old) (size_of rules.old)
        (sets_in sets)) }
    ensures covers { IfOk result (λ sets. CoversPatterns (rules_choice rules.old)
        (size_of rules.old) strength (sets_in sets)) }
    ensures lean { IfOk result (λ sets. IsLean (rules_choice rules.old) strength (sets_in sets)) }
    ensures given_up { IfErr result (IsGivenUp (questions_asked rules.new)) }
    ensures same_choice { rules_choice rules.new ≡ rules_choice rules.old }
{
    match rules.sample(alloc, strength, MOST_QUESTIONS) {
        Ok(sets) => Ok(sets),
        Err(SampleFault::Memory) => Err(RunsFault::Memory),
        Err(SampleFault::TooManyQuestions) => Err(RunsFault::TooManyQuestions(rules.tally())),
    }
}

/// The sets that a package's rules, which nobody asked before, give it: those of a powerset, all
/// that are listed or with a strength a sample of them; else each candidate alone.
fn sets_of(alloc: Global, asked: &PackageRules, rules: &mut Rules) -> Result<FeatureSets, RunsFault>
    requires { IsSome asked.now.strength → questions_asked rules.old ≡ 0 }
    ensures sets { IfOk result (λ sets. AreSetsBy asked.now.feature_powerset asked.now.strength
        (rules_choice rules.old) (size_of rules.old) (sets_in sets)) }
    ensures covers { asked.now.feature_powerset ≡ true → asked.now.strength ≡ None
        → IfOk result (λ sets. AreCovers (rules_choice rules.old) (size_of rules.old)
        (sets_in sets)) }
    ensures err { IfErr result (λ e. (e ≡ RunsFault.Memory)
        ⊎ IsRefused (rules_in asked.now) (questions_asked rules.new) e) }
    ensures same_choice { rules_choice rules.new ≡ rules_choice rules.old }
{
    if !asked.feature_powerset {
        return Ok(FeatureSets::singles(alloc, rules.positions())?);
    }
    match asked.strength {
        Some(strength) => sample_of(alloc, rules, strength),
        None => {
            let found = rules.listed(alloc)?;
            Ok(found.sets)
        }
    }
}

/// Whether `--optional-deps` is given without names.
fn takes_all(asked: &PackageRules) -> bool
    ensures { result
        ≡ option_map_or (λ names. length names.items == 0) asked.now.optional_deps false }
{
    match &asked.optional_deps {
        None => false,
        Some(names) => names.is_empty(),
    }
}

/// The options that decide, together with its sets, which runs a package has.
pub fn options(asked: &PackageRules, features: &Features) -> RunOptions
    ensures { result ≡ options_of (rules_in asked.now) features.now }
{
    RunOptions {
        powerset: asked.feature_powerset,
        depth: asked.depth,
        normal: features.normal().len(),
        optional: features.optional_deps().len(),
        all_optional_deps: takes_all(asked),
        included: !has_no_feature(&asked.include_features),
        exclude_all_features: asked.exclude_all_features,
        exclude_no_default_features: asked.exclude_no_default_features,
    }
}

/// The runs of these sets, and whether they are a single plain one.
fn runs_of_sets(
    alloc: Global,
    asked: &PackageRules,
    features: &Features,
    sets: FeatureSets,
) -> Result<(Runs, bool), AllocError>
    ensures { IfOk result (λ made.
        IsMadeOf (rules_in asked.now) features.now (sets_in sets) (runs_in made.0) made.1) }
{
    if !asked.each_feature && !asked.feature_powerset {
        return Ok((Runs::plain(alloc)?, true));
    }
    let options = options(asked, features);
    if options.is_plain(sets.len()) {
        return Ok((Runs::plain(alloc)?, true));
    }
    Ok((Runs::new(alloc, options, sets)?, false))
}

/// Returns a row that says which candidates are on in a run. A plain run counts as one with the
/// empty set.
fn settings_in(
    alloc: Global,
    rules: &Rules,
    run: Run,
    positions: &[usize],
) -> Result<Vec<bool>, AllocError>
    ensures { IfOk result (λ row. IsRowOf (rules_choice rules.now)
        (run_of run positions.now) row.items) }
{
    match run {
        Run::AllFeatures => rules.settings_of_all(alloc),
        Run::Features => rules.settings(alloc, positions),
        Run::Plain => rules.settings(alloc, &[]),
        Run::NoDefaultFeatures => rules.settings(alloc, &[]),
    }
}

/// For each of the runs a row that says which candidates are on in it.
fn rows_of_runs(alloc: Global, rules: &Rules, runs: &Runs) -> Result<Vec<Vec<bool>>, AllocError>
    ensures { IfOk result (λ rows. AllZip (IsRowOf (rules_choice rules.now))
        (runs_in runs.now) (rows_of rows.items)) }
{
    let mut rows = Vec::new(alloc);
    let mut positions = Vec::new(alloc);
    for rank in 0..runs.len() {
        let run = runs.run(rank, &mut positions)?;
        let row = settings_in(alloc, rules, run, positions.as_slice())?;
        rows.push(row)?;
    }
    Ok(rows)
}

/// With a strength, for each of the runs a row that says which candidates are on in it; else
/// nothing.
fn run_settings(
    alloc: Global,
    asked: &PackageRules,
    rules: &Rules,
    runs: &Runs,
) -> Result<Vec<Vec<bool>>, AllocError>
    ensures { IfOk result (λ rows. AreRunSettings asked.now.strength (rules_choice rules.now)
        (runs_in runs.now) (rows_of rows.items)) }
{
    if asked.strength.is_none() {
        return Ok(Vec::new(alloc));
    }
    rows_of_runs(alloc, rules, runs)
}

/// The runs of each of so many candidates alone, among which no rule chooses.
fn each_alone(
    alloc: Global,
    asked: &PackageRules,
    features: &Features,
    candidates: usize,
) -> Result<Found, AllocError>
    requires each { asked.now.feature_powerset ≡ false }
    requires all { asked.now.strength ≡ None }
    ensures { (choice : Choice) → IfOk result (λ found. AreMade (rules_in asked.now) features.now choice
        candidates (runs_in found.runs) found.is_plain (rows_of found.settings.items)) }
{
    let sets = FeatureSets::singles(alloc, candidates)?;
    let (runs, is_plain) = runs_of_sets(alloc, asked, features, sets)?;
    Ok(Found {
        runs,
        is_plain,
        settings: Vec::new(alloc),
    })
}

/// What comes of a package's rules, which nobody asked before if a sample is asked for: its sets and
/// their rows are both theirs. If a sample needs too many questions, the error says how many these rules were asked.
fn by_rules(
    alloc: Global,
    asked: &PackageRules,
    features: &Features,
    rules: &mut Rules,
) -> Result<Found, RunsFault>
    requires { IsSome asked.now.strength → questions_asked rules.old ≡ 0 }
    ensures made { IfOk result (λ found. AreMade (rules_in asked.now) features.now (rules_choice rules.old)
        (size_of rules.old) (runs_in found.runs) found.is_plain (rows_of found.settings.items)) }
    ensures err { IfErr result (λ e. (e ≡ RunsFault.Memory)
        ⊎ IsRefused (rules_in asked.now) (questions_asked rules.new) e) }
    ensures same_choice { rules_choice rules.new ≡ rules_choice rules.old }
{
    let sets = sets_of(alloc, asked, rules)?;
    let (runs, is_plain) = runs_of_sets(alloc, asked, features, sets)?;
    let settings = run_settings(alloc, asked, rules, &runs)?;
    Ok(Found {
        runs,
        is_plain,
        settings,
    })
}
