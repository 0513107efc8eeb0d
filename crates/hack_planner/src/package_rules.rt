//! The rules of a package: what the call asks of its runs, and under `--package-rules` the tables
//! `[package.metadata.cargo-hack]` and `[workspace.metadata.cargo-hack]` too.

ghost use Rattle.std.specs.Prelude.{◌≡◌, ◌&&◌, ◌||◌, ◌++◌, IfOk, OnOk, Some, false, filter, not};
ghost use Rattle.std.specs.Prelude.{option_map, string_bytes};
ghost use Rattle.std.specs.List.{list_all};
ghost use Rattle.std.specs.Str.{bytes_eq};
ghost use Rattle.hack_base.specs.Names.{names_of};
ghost use Rattle.hack_features.specs.Feature.{group_of, groups_of};
ghost use Rattle.hack_load.specs.ContextView.{context_view};
ghost use Rattle.hack_load.specs.declared.features.Features.{Features as Loaded};
ghost use Rattle.hack_metadata.specs.MetadataView.{metadata_view};
ghost use Rattle.hack_metadata.specs.RecordViews.{package_view, rules_reading, rules_view};
ghost use Rattle.hack_rules.specs.CliLists.{same_names};
ghost use Rattle.hack_planner.specs.Calls.{rules_at};
ghost use Rattle.hack_planner.specs.Candidates.{is_found};
ghost use Rattle.hack_planner.specs.PackageRules.{call_rules, is_lifted as lifted_for, rules_in};
ghost use Rattle.hack_planner.specs.RulesFor.{and_own, and_workspace, asked_by_either, has_some};
ghost use Rattle.hack_planner.specs.RulesFor.{strength_of, with_groups, with_names, with_table};

use crate::candidates::{add_if, are_found, copy_feature, has_no_feature};
use hack_base::copies::{copies, push_copies};
use hack_features::Feature;
use hack_load::context::Context;
use hack_load::features::Features;
use hack_metadata::metadata::{Metadata, Package, RulesTable};
use hack_words::cli::Args;
use std::alloc::{AllocError, Global};

/// The rules by which the runs of a package are chosen. Fields that `Args` has too mean the same.
#[derive(Drop)]
pub struct PackageRules {
    pub each_feature: bool,
    pub feature_powerset: bool,
    pub include_features: Vec<Feature>,
    pub include_deps_features: bool,
    pub ignore_unknown_features: bool,
    pub exclude_features: Vec<String>,
    pub group_features: Vec<Feature>,
    pub optional_deps: Option<Vec<String>>,
    /// The exclusion groups that aren't lifted for the package.
    pub exclusive: Vec<Feature>,
    pub at_least_one_of: Vec<Feature>,
    pub exclude_no_default_features: bool,
    pub exclude_all_features: bool,
    pub depth: Option<usize>,
    pub strength: Option<usize>,
}

impl PackageRules {
    /// What the call asks of a package.
    pub fn of_call(alloc: Global, args: &Args, pkg: &Package) -> Result<PackageRules, AllocError>
        ensures { IfOk result (λ rules.
            rules_in rules ≡ call_rules args.now (package_view pkg.now).name) }
    {
        Ok(PackageRules {
            each_feature: args.each_feature,
            feature_powerset: args.feature_powerset,
            include_features: feature_copies(alloc, &args.include_features)?,
            include_deps_features: args.include_deps_features,
            ignore_unknown_features: args.ignore_unknown_features,
            exclude_features: copies(alloc, &args.exclude_features)?,
            group_features: feature_copies(alloc, &args.group_features)?,
            optional_deps: optional_copies(alloc, args.optional_deps.as_deref())?,
            exclusive: held_groups(alloc, args, pkg.name.as_str())?,
            at_least_one_of: feature_copies(alloc, &args.at_least_one_of)?,
            exclude_no_default_features: args.exclude_no_default_features,
            exclude_all_features: args.exclude_all_features,
            depth: args.depth,
            strength: args.strength,
        })
    }

    /// The rules of a package of the call: under `--package-rules` also those of its own table and of
    /// the workspace's. A table with a fault says nothing; the plan is refused for it.
    pub fn of(
        alloc: Global,
        cx: &Context,
        pkg: &Package,
        features: &Features,
    ) -> Result<PackageRules, AllocError>
        ensures rules { IfOk result (λ rules. rules_in rules
            ≡ rules_at (context_view cx.now) (package_view pkg.now) features.now) }

        // Without the option they are the call's.
        ensures plain { (context_view cx.now).args.package_rules ≡ false → IfOk result (λ rules.
            rules_in rules ≡ call_rules (context_view cx.now).args (package_view pkg.now).name) }
    {
        let args = cx.args();
        let mut rules = PackageRules::of_call(alloc, args, pkg)?;
        if args.package_rules {
            rules.add_own(alloc, pkg)?;
            rules.add_workspace(alloc, cx.metadata(), features)?;
        }
        Ok(rules)
    }

    /// The strength that the rules of a package of the call have.
    pub fn strength_at(cx: &Context, pkg: &Package) -> Option<usize>
        ensures { (features : Loaded) → result ≡ (rules_at (context_view cx.now)
            (package_view pkg.now) features).strength }
    {
        let args = cx.args();
        if !args.package_rules || !args.feature_powerset {
            return args.strength;
        }
        let own = args.strength.or(strength_in(&pkg.rules));
        own.or(strength_in(&cx.metadata().rules))
    }

    /// Adds the rules of the package's own table.
    fn add_own(&mut self, alloc: Global, pkg: &Package) -> Result<(), AllocError>
        ensures { OnOk result (rules_in self.new
            ≡ and_own (package_view pkg.now).rules (rules_in self.old)) }
    {
        match &pkg.rules {
            Ok(table) => self.add(alloc, table, &table.group_features),
            Err(_) => Ok(()),
        }
    }

    /// Adds the rules of the workspace's table, of whose groups those that the package knows.
    fn add_workspace(
        &mut self,
        alloc: Global,
        metadata: &Metadata,
        features: &Features,
    ) -> Result<(), AllocError>
        ensures { OnOk result (rules_in self.new ≡ and_workspace features.now
            (metadata_view metadata.now).rules (rules_in self.old)) }
    {
        match &metadata.rules {
            Ok(table) => {
                let groups = known_groups(alloc, features, &table.group_features)?;
                self.add(alloc, table, &groups)
            }
            Err(_) => Ok(()),
        }
    }

    /// Adds the rules of a table, of whose groups of features just these.
    fn add(
        &mut self,
        alloc: Global,
        table: &RulesTable,
        groups: &[Feature],
    ) -> Result<(), AllocError>
        ensures { OnOk result (rules_in self.new ≡ with_table
            (record (rules_view table.now) { group_features = groups_of groups.now })
            (rules_in self.old)) }
    {
        self.add_names(alloc, table)?;
        if self.feature_powerset {
            self.add_groups(alloc, table, groups)?;
        }
        Ok(())
    }

    /// Adds what counts of a table in any case.
    fn add_names(&mut self, alloc: Global, table: &RulesTable) -> Result<(), AllocError>
        ensures { OnOk result (rules_in self.new
            ≡ with_names (rules_view table.now) (rules_in self.old)) }
    {
        push_copies(&mut self.exclude_features, &table.exclude_features)?;
        let optional = self.optional_deps.take();
        self.optional_deps = either_asked(alloc, optional, table.optional_deps.as_deref())?;
        self.exclude_no_default_features |= table.exclude_no_default_features;
        self.exclude_all_features |= leaves_all(table);
        Ok(())
    }

    /// Adds what counts of a table under a powerset.
    fn add_groups(
        &mut self,
        alloc: Global,
        table: &RulesTable,
        groups: &[Feature],
    ) -> Result<(), AllocError>
        ensures { OnOk result (rules_in self.new ≡ with_groups
            (record (rules_view table.now) { group_features = groups_of groups.now })
            (rules_in self.old)) }
    {
        push_features(alloc, &mut self.group_features, groups)?;
        push_features(
            alloc,
            &mut self.exclusive,
            &table.mutually_exclusive_features,
        )?;
        push_features(alloc, &mut self.at_least_one_of, &table.at_least_one_of)?;
        self.exclude_no_default_features |= !has_no_feature(&table.at_least_one_of);
        self.exclude_all_features |= !has_no_feature(&table.mutually_exclusive_features);
        self.depth = self.depth.or(table.depth);
        self.strength = self.strength.or(table.strength);
        Ok(())
    }
}

/// Whether what counts of a table in any case leaves out the run with all features.
fn leaves_all(table: &RulesTable) -> bool
    ensures { result ≡ ((rules_view table.now).exclude_all_features
        || has_some (rules_view table.now).exclude_features) }
{
    table.exclude_all_features || has_names(&table.exclude_features)
}

/// Whether there is a name.
pub(crate) fn has_names(names: &[String]) -> bool
    ensures { result ≡ has_some (names_of names.now) }
{
    !names.is_empty()
}

/// The strength of a table; none where it has a fault.
fn strength_in(rules: &Result<RulesTable, String>) -> Option<usize>
    ensures { result ≡ strength_of (rules_reading rules.now) }
{
    match rules {
        Ok(table) => table.strength,
        Err(_) => None,
    }
}

/// Adds copies of features.
fn push_features(
    alloc: Global,
    features: &mut Vec<Feature>,
    more: &[Feature],
) -> Result<(), AllocError>
    ensures { OnOk result (groups_of features.new.items
        ≡ groups_of features.old.items ++ groups_of more.now) }
{
    let mut copies = feature_copies(alloc, more)?;
    features.append(&mut copies)?;
    Ok(())
}

/// The optional dependencies that one or the other asks for; an empty list asks for all.
fn either_asked(
    alloc: Global,
    names: Option<Vec<String>>,
    more: Option<&[String]>,
) -> Result<Option<Vec<String>>, AllocError>
    ensures { IfOk result (λ made. option_map (λ names. names_of names.items) made
        ≡ asked_by_either (option_map (λ names. names_of names.items) names)
        (option_map (λ names. names_of names.now) more.entry)) }
{
    match (names, more) {
        (None, None) => Ok(None),
        (Some(names), None) => Ok(Some(names)),
        (None, Some(more)) => Ok(Some(copies(alloc, more)?)),
        (Some(names), Some(more)) => Ok(Some(both_asked(alloc, names, more)?)),
    }
}

/// The names of both lists; none, which asks for all, where one of them has none.
fn both_asked(alloc: Global, names: Vec<String>, more: &[String]) -> Result<Vec<String>, AllocError>
    ensures { IfOk result (λ made. Some (names_of made.items)
        ≡ asked_by_either (Some (names_of names.items)) (Some (names_of more.now))) }
{
    if names.is_empty() || more.is_empty() {
        return Ok(Vec::new(alloc));
    }
    let mut both = names;
    push_copies(&mut both, more)?;
    Ok(both)
}

/// The groups of which the package has each name.
fn known_groups(
    alloc: Global,
    features: &Features,
    groups: &[Feature],
) -> Result<Vec<Feature>, AllocError>
    ensures { IfOk result (λ known. groups_of known.items
        ≡ filter (list_all (is_found features.now)) (groups_of groups.now)) }
{
    let mut known = Vec::new(alloc);
    for group in groups {
        add_if(
            alloc,
            &mut known,
            group,
            are_found(features, group.as_group()),
        )?;
    }
    Ok(known)
}

fn feature_copies(alloc: Global, features: &[Feature]) -> Result<Vec<Feature>, AllocError>
    ensures { IfOk result (λ made. groups_of made.items ≡ groups_of features.now) }
{
    let mut made = Vec::with_capacity(alloc, features.len())?;
    for feature in features {
        made.push(copy_feature(alloc, feature)?)?;
    }
    Ok(made)
}

fn optional_copies(
    alloc: Global,
    names: Option<&[String]>,
) -> Result<Option<Vec<String>>, AllocError>
    ensures { IfOk result (λ made. option_map (λ names. names_of names.items) made
        ≡ option_map names_of (option_map (λ names. names.now) names.entry)) }
{
    match names {
        Some(names) => Ok(Some(copies(alloc, names)?)),
        None => Ok(None),
    }
}

/// The exclusion groups that aren't lifted for the package of this name.
fn held_groups(alloc: Global, args: &Args, name: &str) -> Result<Vec<Feature>, AllocError>
    ensures { IfOk result (λ held. groups_of held.items
        ≡ filter (λ group. not (lifted_for args.now name.now group))
        (groups_of args.now.mutually_exclusive_features.items)) }
{
    let mut held = Vec::new(alloc);
    for group in &args.mutually_exclusive_features {
        add_if(alloc, &mut held, group, !is_lifted(args, name, group))?;
    }
    Ok(held)
}

/// Whether the group is lifted for the package of that name.
#[tactic(auto, using(hack_base::proofs::Chains::mapped))]
fn is_lifted(args: &Args, name: &str, group: &Feature) -> bool
    ensures { result ≡ lifted_for args.now name.now (group_of group.now) }
{
    args.allow_together
        .iter()
        .any(|lift| lifts(lift, name, group))
}

/// Whether the lift is for the package of that name and for this group.
fn lifts(lift: &(String, Feature), name: &str, group: &Feature) -> bool
    ensures { result ≡ (bytes_eq (string_bytes lift.now.0) name.now
        && same_names (group_of lift.now.1) (group_of group.now)) }
{
    lift.0.as_str() == name && have_same_names(&lift.1, group)
}

/// Whether the groups have the same names in the same order.
fn have_same_names(group: &Feature, other: &Feature) -> bool
    ensures { result ≡ same_names (group_of group.now) (group_of other.now) }
{
    group.as_group() == other.as_group()
}
