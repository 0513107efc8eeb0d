//! The tables of rules in manifests: the notices on the names that they have, and their faults.

ghost use Rattle.std.specs.Prelude.{◌≡◌, ◌⊎◌, ◌==◌, ◌∷◌, [], IfErr, IfOk, None, Ok, OnOk, false, true};
ghost use Rattle.std.specs.Prelude.{filter, flat_map, fold, map, not, option_copied};
ghost use Rattle.std.specs.List.{find, list_all, list_any};
ghost use Rattle.std.specs.Option.{option_map_or};
ghost use Rattle.hack_base.specs.Names.{names_of};
ghost use Rattle.hack_base.specs.Notes.{note_of, warning_note};
ghost use Rattle.hack_features.specs.Feature.{groups_of};
ghost use Rattle.hack_load.specs.ContextView.{context_view};
ghost use Rattle.hack_load.specs.Contexts.{features_at, package_at};
ghost use Rattle.hack_metadata.specs.RecordViews.{package_view, place_at, rules_reading, rules_view};
ghost use Rattle.hack_planner.specs.Calls.{grouped_at, have_no_rule as no_rule_in, member_may_have};
ghost use Rattle.hack_planner.specs.Calls.{own_fault_at, package_notes, table_fault};
ghost use Rattle.hack_planner.specs.Calls.{workspace_notes as notes_on_workspace};
ghost use Rattle.hack_planner.specs.Internal.{SaysFault};
ghost use Rattle.hack_planner.specs.PackageRules.{rules_in};
ghost use Rattle.hack_planner.specs.RulesFor.{each_once, excluded_by as excluded_in_rules, first_excluded};
ghost use Rattle.hack_planner.specs.RulesFor.{first_of_excluded as first_of_all, first_there};
ghost use Rattle.hack_planner.specs.RulesFor.{has_no_rule as rule_missing};
ghost use Rattle.hack_planner.specs.RulesFor.{is_excluded as excludes, kept_once, names_of_table};
ghost use Rattle.hack_planner.specs.RulesFor.{may_have, own_fault, table_notes as notes_on_table};
ghost use Rattle.hack_planner.specs.Texts.{no_rules_text, table_text as unknown_name};
ghost use Rattle.hack_planner.specs.Texts.{workspace_text as unheard_name};

use crate::candidates::{has_name, has_no_feature, is_found, notes_on};
use crate::fault::PlanFault;
use crate::notes::{table_text, workspace_text};
use crate::package_rules::{PackageRules, has_names};
use hack_base::notice::{Notice, NoticeKind, tell};
use hack_features::Feature;
use hack_load::context::Context;
use hack_load::features::Features;
use hack_metadata::metadata::{Package, PackageId, RulesTable};
use hack_words::cli::Args;
use std::alloc::{AllocError, Global};

/// The notices on the features of a package with these rules, and on those that its own table has.
pub fn notes_of(
    alloc: Global,
    args: &Args,
    asked: &PackageRules,
    pkg: &Package,
    features: &Features,
    single: bool,
) -> Result<Vec<Notice>, AllocError>
    ensures { IfOk result (λ notices. map note_of notices.items ≡ package_notes args.now single
        (rules_in asked.now) (package_view pkg.now) features.now) }
{
    let mut notices = notes_on(alloc, args, asked, pkg, features, single)?;
    let mut on_table = table_notes(alloc, args, pkg, features)?;
    notices.append(&mut on_table)?;
    Ok(notices)
}

/// Under `--package-rules` a warning for each name of the package's own table that it doesn't have.
fn table_notes(
    alloc: Global,
    args: &Args,
    pkg: &Package,
    features: &Features,
) -> Result<Vec<Notice>, AllocError>
    ensures { IfOk result (λ notices. map note_of notices.items
        ≡ notes_on_table args.now (package_view pkg.now) features.now) }
{
    match &pkg.rules {
        Ok(table) if args.package_rules => {
            let names = table_names(alloc, table)?;
            let loaded = args.include_deps_features;
            unknown_notes(alloc, &names, pkg.name.as_str(), features, loaded)
        }
        _ => Ok(Vec::new(alloc)),
    }
}

/// A warning for each of these names that the package doesn't have. `loaded` says whether the features
/// of its dependencies are known.
fn unknown_notes(
    alloc: Global,
    names: &[String],
    pkg: &str,
    features: &Features,
    loaded: bool,
) -> Result<Vec<Notice>, AllocError>
    ensures { IfOk result (λ notices. map note_of notices.items
        ≡ map (λ x. warning_note (unknown_name pkg.now x))
        (filter (λ x. not (may_have loaded features.now x)) (names_of names.now))) }
{
    let mut notices = Vec::new(alloc);
    for name in names {
        let text = table_text(alloc, name.as_str(), pkg)?;
        let told = !is_had(features, name.as_str(), loaded);
        tell(&mut notices, told, NoticeKind::Warn, text)?;
    }
    Ok(notices)
}

/// Whether the package may have the name: it is found, or that of a dependency's feature, and these
/// aren't loaded.
fn is_had(features: &Features, name: &str, loaded: bool) -> bool
    ensures { result ≡ may_have loaded features.now name.now }
{
    is_found(features, name) || (!loaded && has_slash(name.as_bytes()))
}

fn has_slash(bytes: &[u8]) -> bool
    ensures { result ≡ list_any (λ c. c == 47) bytes.now }
{
    match bytes {
        [] => false,
        [first, rest @ ..] => *first == b'/' || has_slash(rest),
    }
}

/// The names that a table has, in the order of its keys, each once.
fn table_names(alloc: Global, table: &RulesTable) -> Result<Vec<String>, AllocError>
    ensures { IfOk result (λ names. names_of names.items
        ≡ each_once (names_of_table (rules_view table.now))) }
{
    let mut names = Vec::new(alloc);
    add_names(&mut names, &table.exclude_features)?;
    add_groups(&mut names, &table.mutually_exclusive_features)?;
    add_groups(&mut names, &table.at_least_one_of)?;
    add_groups(&mut names, &table.group_features)?;
    if let Some(asked) = &table.optional_deps {
        add_names(&mut names, asked)?;
    }
    Ok(names)
}

/// Adds those of the names of groups that aren't there yet.
fn add_groups(names: &mut Vec<String>, groups: &[Feature]) -> Result<(), AllocError>
    ensures { OnOk result (names_of names.new.items ≡ fold kept_once
        (names_of names.old.items) (flat_map (λ group. group) (groups_of groups.now))) }
{
    match groups {
        [] => Ok(()),
        [group, rest @ ..] => {
            add_names(names, group.as_group())?;
            add_groups(names, rest)
        }
    }
}

/// Adds those of the names that aren't there yet.
fn add_names(names: &mut Vec<String>, more: &[String]) -> Result<(), AllocError>
    ensures { OnOk result (names_of names.new.items
        ≡ fold kept_once (names_of names.old.items) (names_of more.now)) }
{
    match more {
        [] => Ok(()),
        [name, rest @ ..] => {
            if !has_name(names, name.as_str()) {
                names.push(name.clone()?)?;
            }
            add_names(names, rest)
        }
    }
}

/// What is said where no table has a rule.
const NO_RULES: &str =
    "--package-rules found no rule: neither [workspace.metadata.cargo-hack] nor [package.metadata.cargo-hack] of a member has one";

/// Under `--package-rules` a warning where neither the workspace's table nor that of a member has a
/// rule, else one for each name of the workspace's that no member has.
pub(crate) fn workspace_notes(alloc: Global, cx: &Context) -> Result<Vec<Notice>, AllocError>
    ensures { IfOk result (λ notices. map note_of notices.items
        ≡ notes_on_workspace (context_view cx.now)) }
{
    if !cx.args().package_rules {
        return Ok(Vec::new(alloc));
    }
    if have_no_rule(cx) {
        return no_rules_note(alloc);
    }
    match &cx.metadata().rules {
        Ok(table) => {
            let names = table_names(alloc, table)?;
            unheard_notes(alloc, cx, &names)
        }
        Err(_) => Ok(Vec::new(alloc)),
    }
}

/// The warning that no table has a rule.
fn no_rules_note(alloc: Global) -> Result<Vec<Notice>, AllocError>
    ensures { IfOk result (λ notices. map note_of notices.items
        ≡ warning_note no_rules_text ∷ []) }
{
    let mut notices = Vec::new(alloc);
    let text = String::from_str(alloc, NO_RULES)?;
    tell(&mut notices, true, NoticeKind::Warn, text)?;
    Ok(notices)
}

/// A warning for each of these names that no member has.
fn unheard_notes(alloc: Global, cx: &Context, names: &[String]) -> Result<Vec<Notice>, AllocError>
    ensures { IfOk result (λ notices. map note_of notices.items
        ≡ map (λ x. warning_note (unheard_name x))
        (filter (λ x. not (member_may_have (context_view cx.now) x)) (names_of names.now))) }
{
    let mut notices = Vec::new(alloc);
    for name in names {
        let text = workspace_text(alloc, name.as_str())?;
        let told = !one_may_have(cx, cx.workspace_members(), name.as_str());
        tell(&mut notices, told, NoticeKind::Warn, text)?;
    }
    Ok(notices)
}

/// Whether one of these members may have the name.
#[tactic(auto, using(hack_base::proofs::Chains::mapped))]
fn one_may_have(cx: &Context, ids: &[PackageId], name: &str) -> bool
    ensures { result ≡ list_any (λ id. option_map_or
        (λ f. may_have (context_view cx.now).args.include_deps_features f name.now)
        (features_at (context_view cx.now) id) false) (map place_at ids.now) }
{
    ids.iter().any(|id| may_have_at(cx, *id, name))
}

/// Whether a package is a member that may have the name.
fn may_have_at(cx: &Context, id: PackageId, name: &str) -> bool
    ensures { result ≡ option_map_or
        (λ f. may_have (context_view cx.now).args.include_deps_features f name.now)
        (features_at (context_view cx.now) id.index) false }
{
    match features_of(cx, id) {
        Some(features) => is_had(features, name, cx.args().include_deps_features),
        None => false,
    }
}

/// Whether neither the workspace's table nor that of a member has a rule.
fn have_no_rule(cx: &Context) -> bool
    ensures { result ≡ no_rule_in (context_view cx.now) }
{
    has_no_rule(&cx.metadata().rules) && none_has_rule(cx, cx.workspace_members())
}

/// Whether no table of these packages has a rule.
#[tactic(auto, using(hack_base::proofs::Chains::mapped))]
fn none_has_rule(cx: &Context, ids: &[PackageId]) -> bool
    ensures { result ≡ list_all (λ id. option_map_or (λ p. rule_missing p.rules)
        (package_at (context_view cx.now) id) true) (map place_at ids.now) }
{
    ids.iter().all(|id| has_no_rule_at(cx, *id))
}

/// Whether a package's table has no rule.
fn has_no_rule_at(cx: &Context, id: PackageId) -> bool
    ensures { result ≡ option_map_or (λ p. rule_missing p.rules)
        (package_at (context_view cx.now) id.index) true }
{
    match cx.metadata().find(id) {
        Some(pkg) => has_no_rule(&pkg.rules),
        None => true,
    }
}

/// Whether a table has no rule. One that has a fault doesn't count as such.
fn has_no_rule(rules: &Result<RulesTable, String>) -> bool
    ensures { result ≡ rule_missing (rules_reading rules.now) }
{
    match rules {
        Ok(table) => is_without_rule(table),
        Err(_) => false,
    }
}

/// Whether the table is as one that isn't there.
fn is_without_rule(table: &RulesTable) -> bool
    ensures { result ≡ rule_missing (Ok (rules_view table.now)) }
{
    let names = has_names(&table.exclude_features)
        || !has_no_feature(&table.mutually_exclusive_features)
        || !has_no_feature(&table.at_least_one_of)
        || !has_no_feature(&table.group_features);
    let limits = table.depth.is_some() || table.strength.is_some();
    let flags = table.exclude_no_default_features || table.exclude_all_features;
    !(names || table.optional_deps.is_some() || flags || limits)
}

/// Refuses the call where a table has a fault: under `--package-rules` the workspace's, or that of
/// one of these packages, or where such a package has an excluded feature in a group, or excludes all
/// that are to be included.
pub(crate) fn check_tables(alloc: Global, cx: &Context, ids: &[PackageId]) -> Result<(), PlanFault>
    ensures ok { OnOk result (table_fault (context_view cx.now) (map place_at ids.now) ≡ None) }
    ensures err { IfErr result (λ e. (e ≡ PlanFault.Memory)
        ⊎ SaysFault (table_fault (context_view cx.now) (map place_at ids.now)) e) }
{
    if !cx.args().package_rules {
        return Ok(());
    }
    if let Err(field) = &cx.metadata().rules {
        return Err(PlanFault::WorkspaceRules(field.clone()?));
    }
    check_packages(alloc, cx, ids)
}

/// Refuses the first of these packages whose rules have a fault.
fn check_packages(alloc: Global, cx: &Context, ids: &[PackageId]) -> Result<(), PlanFault>
    ensures ok { OnOk result (first_there
        (map (own_fault_at (context_view cx.now)) (map place_at ids.now)) ≡ None) }
    ensures err { IfErr result (λ e. (e ≡ PlanFault.Memory) ⊎ SaysFault (first_there
        (map (own_fault_at (context_view cx.now)) (map place_at ids.now))) e) }
{
    match ids {
        [] => Ok(()),
        [id, rest @ ..] => {
            check_rules(alloc, cx, *id)?;
            check_packages(alloc, cx, rest)
        }
    }
}

/// Refuses a package whose own table has a fault, or whose rules exclude so.
fn check_rules(alloc: Global, cx: &Context, id: PackageId) -> Result<(), PlanFault>
    ensures ok { OnOk result (own_fault_at (context_view cx.now) id.index ≡ None) }
    ensures err { IfErr result (λ e. (e ≡ PlanFault.Memory)
        ⊎ SaysFault (own_fault_at (context_view cx.now) id.index) e) }
{
    let Some(pkg) = cx.metadata().find(id) else {
        return Ok(());
    };
    check_own(alloc, pkg)?;
    match features_of(cx, id) {
        Some(features) => check_groups(alloc, cx, pkg, features),
        None => Ok(()),
    }
}

/// Refuses a package whose own table has a fault.
fn check_own(alloc: Global, pkg: &Package) -> Result<(), PlanFault>
    ensures ok { OnOk result (own_fault (package_view pkg.now) ≡ None) }
    ensures err { IfErr result (λ e. (e ≡ PlanFault.Memory)
        ⊎ SaysFault (own_fault (package_view pkg.now)) e) }
{
    match &pkg.rules {
        Ok(_) => Ok(()),
        Err(field) => Err(PlanFault::PackageRules {
            field: field.clone()?,
            name: String::from_str(alloc, pkg.name.as_str())?,
        }),
    }
}

/// Refuses a package of which a group has an excluded feature, or all features to include are excluded.
fn check_groups(
    alloc: Global,
    cx: &Context,
    pkg: &Package,
    features: &Features,
) -> Result<(), PlanFault>
    ensures ok { OnOk result (grouped_at (context_view cx.now) (package_view pkg.now) features.now
        ≡ None) }
    ensures err { IfErr result (λ e. (e ≡ PlanFault.Memory) ⊎ SaysFault
        (grouped_at (context_view cx.now) (package_view pkg.now) features.now) e) }
{
    let rules = PackageRules::of(alloc, cx, pkg, features)?;
    match excluded_by(&cx.args().features, &rules) {
        Some(feature) => Err(PlanFault::ExcludedInGroup {
            feature: String::from_str(alloc, feature)?,
            name: String::from_str(alloc, pkg.name.as_str())?,
        }),
        None => Ok(()),
    }
}

/// The first excluded name of a group, else of the features to include, where each of them is excluded.
/// `given` are on in each run.
fn excluded_by<'a>(given: &[String], rules: &'a PackageRules) -> Option<&'a str>
    ensures { option_copied result ≡ excluded_in_rules (names_of given.now) (rules_in rules.now) }
{
    let excluded = &rules.exclude_features;
    match excluded_in_groups(given, excluded, &rules.group_features) {
        Some(name) => Some(name),
        None => first_of_excluded(given, excluded, &rules.include_features),
    }
}

/// The first name of these groups, where each is excluded.
fn first_of_excluded<'a>(
    given: &[String],
    excluded: &[String],
    groups: &'a [Feature],
) -> Option<&'a str>
    ensures { option_copied result
        ≡ first_of_all (names_of given.now) (names_of excluded.now) (groups_of groups.now) }
{
    if !are_excluded(given, excluded, groups) {
        return None;
    }
    excluded_in_groups(given, excluded, groups)
}

/// Whether each name of the groups is excluded.
#[tactic(auto, using(hack_base::proofs::Chains::mapped))]
fn are_excluded(given: &[String], excluded: &[String], groups: &[Feature]) -> bool
    ensures { result ≡ list_all (list_all (excludes (names_of given.now) (names_of excluded.now)))
        (groups_of groups.now) }
{
    groups
        .iter()
        .all(|group| all_excluded(given, excluded, group.as_group()))
}

/// Whether each of the names is excluded.
#[tactic(auto, using(hack_base::proofs::Chains::mapped))]
fn all_excluded(given: &[String], excluded: &[String], names: &[String]) -> bool
    ensures { result ≡ list_all (excludes (names_of given.now) (names_of excluded.now))
        (names_of names.now) }
{
    names
        .iter()
        .all(|name| is_excluded(given, excluded, name.as_str()))
}

/// The features of a package, where it is a member of the workspace.
fn features_of(cx: &Context, id: PackageId) -> Option<&Features>
    ensures { option_copied result ≡ features_at (context_view cx.now) id.index }
{
    if cx.workspace_members().contains(&id) {
        Some(cx.pkg_features(id))
    } else {
        None
    }
}

/// The first name of the groups that is excluded.
fn excluded_in_groups<'a>(
    given: &[String],
    excluded: &[String],
    groups: &'a [Feature],
) -> Option<&'a str>
    ensures { option_copied result
        ≡ first_excluded (names_of given.now) (names_of excluded.now) (groups_of groups.now) }
{
    for group in groups {
        if let Some(name) = excluded_in(given, excluded, group.as_group()) {
            return Some(name);
        }
    }
    None
}

/// The first of the names that is excluded.
fn excluded_in<'a>(given: &[String], excluded: &[String], names: &'a [String]) -> Option<&'a str>
    ensures { option_copied result
        ≡ find (excludes (names_of given.now) (names_of excluded.now)) (names_of names.now) }
{
    for name in names {
        if is_excluded(given, excluded, name.as_str()) {
            return Some(name.as_str());
        }
    }
    None
}

/// Whether the name is excluded. Those of `--features` stand among the excluded ones too, since each
/// run has them and no set does.
fn is_excluded(given: &[String], excluded: &[String], name: &str) -> bool
    ensures { result ≡ excludes (names_of given.now) (names_of excluded.now) name.now }
{
    has_name(excluded, name) && !has_name(given, name)
}
