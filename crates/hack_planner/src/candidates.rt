//! The candidates of a package, and the notices about names that it doesn't have.

ghost use Rattle.std.specs.Prelude.{◌≡◌, ◌==◌, ◌++◌, ◌∷◌, [], ◌&&◌, ◌||◌, IfOk, OnOk, true, false};
ghost use Rattle.std.specs.Prelude.{filter, map, not, option_map, length, string_bytes};
ghost use Rattle.std.specs.Prelude.{if◌then◌else◌};
ghost use Rattle.std.specs.List.{list_all, list_any};
ghost use Rattle.hack_base.specs.Names.{names_of};
ghost use Rattle.hack_features.specs.Feature.{group_of, groups_of};
ghost use Rattle.hack_base.specs.Notes.{note_of};
ghost use Rattle.hack_planner.specs.Candidates.{contains_name as name_in, is_taken as taken_by};
ghost use Rattle.hack_planner.specs.Candidates.{one_has as one_names, names_asked as asked_names};
ghost use Rattle.hack_planner.specs.Candidates.{stays as stays_for, group_notes as notes_on_groups};
ghost use Rattle.hack_planner.specs.Candidates.{is_asked as asked_by, is_known as known_to};
ghost use Rattle.hack_planner.specs.Candidates.{applies as applied_to, candidates as candidates_of};
ghost use Rattle.hack_planner.specs.Candidates.{is_found as found_in, candidate_notes};
ghost use Rattle.hack_planner.specs.Candidates.{feature_notes as notes_on_features};
ghost use Rattle.hack_planner.specs.Candidates.{dependency_notes as notes_on_dependencies};
ghost use Rattle.hack_planner.specs.PackageRules.{call_rules, rules_in};

use crate::notes::{dependency_text, feature_text, group_text};
use crate::package_rules::PackageRules;
use hack_base::copies::copies;
use hack_base::notice::{Notice, NoticeKind, tell};
use hack_features::Feature;
use hack_load::features::Features;
use hack_metadata::metadata::Package;
use hack_words::cli::Args;
use std::alloc::{AllocError, Global};

/// Whether one of `names` is `name`.
#[tactic(auto, using(hack_base::proofs::Chains::mapped))]
pub(crate) fn has_name(names: &[String], name: &str) -> bool
    ensures { result ≡ name_in (names_of names.now) name.now }
{
    names.iter().any(|own| name == own.as_str())
}

/// Whether one of the features, or groups, has the name.
#[tactic(auto, using(hack_base::proofs::Chains::mapped))]
pub(crate) fn one_has(features: &[Feature], name: &str) -> bool
    ensures { result ≡ one_names (groups_of features.now) name.now }
{
    features
        .iter()
        .any(|feature| has_name(feature.as_group(), name))
}

/// Whether one of the names is one of the others.
#[tactic(auto, using(hack_base::proofs::Chains::mapped))]
fn shares_name(others: &[String], names: &[String]) -> bool
    ensures { result ≡ list_any (name_in (names_of others.now)) (names_of names.now) }
{
    names.iter().any(|name| has_name(others, name.as_str()))
}

/// Whether the name is excluded or in a group, so that it is no candidate by itself.
fn is_taken(asked: &PackageRules, name: &str) -> bool
    ensures { result ≡ taken_by (rules_in asked.now) name.now }
{
    has_name(&asked.exclude_features, name) || one_has(&asked.group_features, name)
}

/// Whether the feature stays a candidate by itself.
#[tactic(auto, using(hack_base::proofs::Chains::mapped))]
fn stays(asked: &PackageRules, feature: &Feature) -> bool
    ensures { result ≡ stays_for (rules_in asked.now) (group_of feature.now) }
{
    feature
        .as_group()
        .iter()
        .all(|name| !is_taken(asked, name.as_str()))
}

/// Whether `--optional-deps` asks for the optional dependency: it has its name, or no names at all.
fn is_asked(asked: &PackageRules, feature: &Feature) -> bool
    ensures { result ≡ asked_by (rules_in asked.now) (group_of feature.now) }
{
    match &asked.optional_deps {
        None => false,
        Some(names) => names.is_empty() || shares_name(names, feature.as_group()),
    }
}

/// Whether a feature or an optional dependency of the package has the name.
fn is_known(features: &Features, name: &str) -> bool
    ensures { result ≡ known_to features.now name.now }
{
    one_has(features.normal(), name) || one_has(features.optional_deps(), name)
}

/// Whether a feature or an optional dependency of the package has each of the names.
#[tactic(auto, using(hack_base::proofs::Chains::mapped))]
fn are_known(features: &Features, names: &[String]) -> bool
    ensures { result ≡ list_all (known_to features.now)
        (names_of names.now) }
{
    names.iter().all(|name| is_known(features, name.as_str()))
}

/// Whether the group is applied to the package. It isn't if it has an unknown name and
/// `--ignore-unknown-features` is given.
fn applies(ignores_unknown: bool, features: &Features, group: &Feature) -> bool
    ensures { result ≡ (not ignores_unknown || list_all (known_to features.now)
        (group_of group.now)) }
{
    !ignores_unknown || are_known(features, group.as_group())
}

/// A copy of the feature.
pub(crate) fn copy_feature(alloc: Global, feature: &Feature) -> Result<Feature, AllocError>
    ensures { IfOk result (λ copy. group_of copy ≡ group_of feature.now) }
{
    match feature {
        Feature::Normal { name } => Ok(Feature::Normal {
            name: name.clone()?,
        }),
        Feature::Group { name, list } => Ok(Feature::Group {
            name: name.clone()?,
            list: copies(alloc, list)?,
        }),
        Feature::Path { name, _slash } => Ok(Feature::Path {
            name: name.clone()?,
            _slash: *_slash,
        }),
    }
}

/// Adds a copy of the feature to the others, if `taken` is true.
pub(crate) fn add_if(
    alloc: Global,
    found: &mut Vec<Feature>,
    feature: &Feature,
    taken: bool,
) -> Result<(), AllocError>
    ensures { OnOk result (groups_of found.new.items
        ≡ groups_of found.old.items ++ (if taken then group_of feature.now ∷ [] else [])) }
{
    if taken {
        found.push(copy_feature(alloc, feature)?)?;
    }
    Ok(())
}

/// Whether the feature is wanted and stays a candidate by itself.
fn stays_if(asked: &PackageRules, feature: &Feature, wanted: bool) -> bool
    ensures { result ≡ (wanted && stays_for (rules_in asked.now) (group_of feature.now)) }
{
    wanted && stays(asked, feature)
}

/// Whether the optional dependency is asked for, and stays a candidate by itself.
fn is_offered(asked: &PackageRules, feature: &Feature) -> bool
    ensures { result ≡ (asked_by (rules_in asked.now) (group_of feature.now)
        && stays_for (rules_in asked.now) (group_of feature.now)) }
{
    is_asked(asked, feature) && stays(asked, feature)
}

/// The features that stay candidates by themselves; none if `wanted` is false.
fn staying_features(
    alloc: Global,
    asked: &PackageRules,
    features: &[Feature],
    wanted: bool,
) -> Result<Vec<Feature>, AllocError>
    ensures { IfOk result (λ found. groups_of found.items
        ≡ filter (λ names. wanted && stays_for (rules_in asked.now) names) (groups_of features.now)) }
{
    let mut found = Vec::new(alloc);
    for feature in features {
        let taken = stays_if(asked, feature, wanted);
        add_if(alloc, &mut found, feature, taken)?;
    }
    Ok(found)
}

/// The optional dependencies that are asked for and stay candidates by themselves.
fn asked_dependencies(
    alloc: Global,
    asked: &PackageRules,
    features: &[Feature],
) -> Result<Vec<Feature>, AllocError>
    ensures { IfOk result (λ found. groups_of found.items
        ≡ filter (λ names. asked_by (rules_in asked.now) names
        && stays_for (rules_in asked.now) names) (groups_of features.now)) }
{
    let mut found = Vec::new(alloc);
    for feature in features {
        let taken = is_offered(asked, feature);
        add_if(alloc, &mut found, feature, taken)?;
    }
    Ok(found)
}

/// The groups that are applied to the package.
fn applied_groups(
    alloc: Global,
    asked: &PackageRules,
    features: &Features,
) -> Result<Vec<Feature>, AllocError>
    ensures { IfOk result (λ found. groups_of found.items
        ≡ filter (applied_to (rules_in asked.now) features.now)
        (groups_of asked.now.group_features.items)) }
{
    let mut found = Vec::new(alloc);
    for group in &asked.group_features {
        let taken = applies(asked.ignore_unknown_features, features, group);
        add_if(alloc, &mut found, group, taken)?;
    }
    Ok(found)
}

/// Whether there is no feature.
pub(crate) fn has_no_feature(features: &[Feature]) -> bool
    ensures { result ≡ (length (groups_of features.now) == 0) }
{
    features.is_empty()
}

/// The candidates of a package: what its sets are made of.
pub fn candidates(
    alloc: Global,
    asked: &PackageRules,
    features: &Features,
) -> Result<Vec<Feature>, AllocError>
    ensures { IfOk result (λ found. groups_of found.items
        ≡ candidates_of (rules_in asked.now) features.now) }
{
    if !has_no_feature(&asked.include_features) {
        return staying_features(alloc, asked, &asked.include_features, true);
    }
    let mut found = staying_features(alloc, asked, features.normal(), true)?;
    let mut optional = asked_dependencies(alloc, asked, features.optional_deps())?;
    let wanted = asked.include_deps_features;
    let mut of_deps = staying_features(alloc, asked, features.deps_features(), wanted)?;
    let mut groups = applied_groups(alloc, asked, features)?;
    found.append(&mut optional)?;
    found.append(&mut of_deps)?;
    found.append(&mut groups)?;
    Ok(found)
}

/// Whether the package has the name in one of its lists of features.
pub(crate) fn is_found(features: &Features, name: &str) -> bool
    ensures { result ≡ found_in features.now name.now }
{
    is_known(features, name) || one_has(features.deps_features(), name)
}

/// Whether the package has each of the names.
pub(crate) fn are_found(features: &Features, names: &[String]) -> bool
    ensures { result ≡ list_all (found_in features.now) (names_of names.now) }
{
    match names {
        [] => true,
        [name, rest @ ..] => is_found(features, name.as_str()) && are_found(features, rest),
    }
}

/// The names of `--optional-deps`; none if its list is one empty name.
fn names_asked(args: &Args) -> &[String]
    ensures { names_of result.now ≡ asked_names
        (option_map (λ list. names_of list.items) args.now.optional_deps) }
{
    match &args.optional_deps {
        None => &[],
        Some(names) => without_empty(names),
    }
}

/// The names; none if there is only one and it is empty.
fn without_empty(names: &[String]) -> &[String]
    ensures { names_of result.now ≡ asked_names (Some (names_of names.now)) }
{
    match names {
        [only] if only.as_str().is_empty() => &[],
        _ => names,
    }
}

/// A package whose features notices are about.
#[derive(Clone, Copy)]
struct About<'a> {
    args: &'a Args,
    /// Its rules.
    asked: &'a PackageRules,
    pkg: &'a Package,
    features: &'a Features,
}

impl About<'_> {
    /// A warning for each excluded name that the package doesn't have.
    fn feature_notes(&self, alloc: Global) -> Result<Vec<Notice>, AllocError>
        ensures { IfOk result (λ notices. map note_of notices.items ≡ notes_on_features
            (call_rules self.now.args.now (string_bytes self.now.pkg.now.name)) (string_bytes self.now.pkg.now.name) self.now.features.now) }
    {
        let mut notices = Vec::new(alloc);
        for name in &self.args.exclude_features {
            let text = feature_text(alloc, name.as_str(), self.pkg.name.as_str())?;
            let told = !is_found(self.features, name.as_str());
            tell(&mut notices, told, NoticeKind::Warn, text)?;
        }
        Ok(notices)
    }

    /// A warning for each optional dependency that is asked for and that the package doesn't have.
    fn dependency_notes(&self, alloc: Global) -> Result<Vec<Notice>, AllocError>
        ensures { IfOk result (λ notices. map note_of notices.items ≡ notes_on_dependencies
            (call_rules self.now.args.now (string_bytes self.now.pkg.now.name)) (string_bytes self.now.pkg.now.name) self.now.features.now) }
    {
        let mut notices = Vec::new(alloc);
        for name in names_asked(self.args) {
            let text = dependency_text(alloc, name.as_str(), self.pkg.name.as_str())?;
            let told = !one_has(self.features.optional_deps(), name.as_str());
            tell(&mut notices, told, NoticeKind::Warn, text)?;
        }
        Ok(notices)
    }

    /// A notice for each group that isn't applied to the package.
    fn group_notes(&self, alloc: Global) -> Result<Vec<Notice>, AllocError>
        ensures { IfOk result (λ notices. map note_of notices.items ≡ notes_on_groups
            (rules_in self.now.asked.now) (string_bytes self.now.pkg.now.name) self.now.features.now) }
    {
        let mut notices = Vec::new(alloc);
        for group in &self.asked.group_features {
            let text = group_text(alloc, group.as_group(), self.pkg.name.as_str())?;
            let told = !applies(self.asked.ignore_unknown_features, self.features, group);
            tell(&mut notices, told, NoticeKind::Info, text)?;
        }
        Ok(notices)
    }
}

/// The notices about the features of a package with these rules. `single` says whether no other package is left:
/// only then are names reported that the package doesn't have.
pub(crate) fn notes_on(
    alloc: Global,
    args: &Args,
    asked: &PackageRules,
    pkg: &Package,
    features: &Features,
    single: bool,
) -> Result<Vec<Notice>, AllocError>
    ensures { IfOk result (λ notices. map note_of notices.items
        ≡ candidate_notes single (call_rules args.now (string_bytes pkg.now.name))
        (rules_in asked.now) (string_bytes pkg.now.name) features.now) }
{
    if !args.each_feature && !args.feature_powerset {
        return Ok(Vec::new(alloc));
    }
    if !has_no_feature(&args.include_features) {
        return Ok(Vec::new(alloc));
    }
    let about = About {
        args,
        asked,
        pkg,
        features,
    };
    let mut groups = about.group_notes(alloc)?;
    if !single {
        return Ok(groups);
    }
    let mut notices = about.feature_notes(alloc)?;
    let mut dependencies = about.dependency_notes(alloc)?;
    notices.append(&mut dependencies)?;
    notices.append(&mut groups)?;
    Ok(notices)
}
