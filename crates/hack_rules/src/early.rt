//! The rules that are checked before the one on a missing subcommand. They are checked in order,
//! and the first that is broken gives the error.

ghost use Rattle.std.specs.Prelude.{◌≡◌, ◌&&◌, ◌||◌, List, [], ◌∷◌, not, map, IfOk};
ghost use Rattle.std.specs.Prelude.{bytes_eq, codes, nat_eq, option_and_then, option_map};
ghost use Rattle.std.specs.List.{find, flat_map, list_any, starts_with};
ghost use Rattle.std.specs.Option.{is_none, option_map_or, unwrap_or};
ghost use Rattle.hack_features.specs.Feature.{groups_of};
ghost use Rattle.hack_base.specs.Lists.{is_list};
ghost use Rattle.hack_base.specs.Names.{names_of, optional_text_ref};
ghost use Rattle.hack_base.specs.Numbers.{number_of};
ghost use Rattle.hack_term.specs.Lines.{coloring_of};
ghost use Rattle.hack_rules.specs.Behavior.{is_cargo};
ghost use Rattle.hack_rules.specs.PassedWords.{leading_of};
ghost use Rattle.hack_rules.specs.Uses.{Use as Seen, views, is_given, subcommand_of};
ghost use Rattle.hack_rules.specs.Values.{from_value, value_given, values_given};
ghost use Rattle.hack_rules.specs.AskedFields.{coloring_asked};
ghost use Rattle.hack_rules.specs.CliFaults.{Checks, Clash, ClashWord, Color, Excluded, Needs};
ghost use Rattle.hack_rules.specs.CliFaults.{Number, Single, TermColor};
ghost use Rattle.hack_rules.specs.CliLists.{names_given};
ghost use Rattle.hack_rules.specs.ListsView.{AreListsOf};
ghost use Rattle.hack_rules.specs.Rules.{clash as clash_rule, counts, fault_if, first_of};
ghost use Rattle.hack_rules.specs.Rules.{has_beside, is_among, needs as needs_rule};
ghost use Rattle.hack_rules.specs.EarlyRules.{is_in_group, early_rules, together_rules};
ghost use Rattle.hack_rules.specs.EarlyRules.{subcommand_rule, without_dev_deps as dev_deps_option};
ghost use Rattle.hack_rules.specs.EarlyRules.{selects_targets, option_naming as naming_option};

use crate::checks::{clash, has, needs};
use crate::fault::{Beside, CliFault};
use crate::listed::Lists;
use crate::uses::{Use, WorkspaceBehavior, given, subcommand, value};
use crate::values;
use hack_base::lists::has_separator;
use hack_features::Feature;
use hack_options::Opt;
use hack_term::term::Coloring;
use std::alloc::Global;

#[tactic(auto, using(hack_base::proofs::Chains::mapped))]
fn group_has(groups: &[Feature], name: &str) -> bool
    ensures { result ≡ is_in_group (groups_of groups.now) name.now }
{
    groups.iter().any(|group| has(group.as_group(), name))
}

/// The colouring of the command line, else that of the environment.
fn coloring(term_color: Option<&String>, uses: &[Use]) -> Result<Coloring, CliFault>
    ensures rule { Checks result (option_map_or
        (λ said. fault_if (is_none (coloring_of said)) (Color said))
        (value_given Opt.Color (views uses.now))
        (option_and_then (λ found. fault_if (is_none (coloring_of found)) (TermColor found))
        (optional_text_ref term_color.entry))) }
    ensures value { IfOk result (λ coloring. coloring
        ≡ coloring_asked (optional_text_ref term_color.entry)
        (views uses.now)) }
{
    if let Some(said) = value(Opt::Color, uses) {
        return match Coloring::parse(said.as_str()) {
            Some(coloring) => Ok(coloring),
            None => Err(CliFault::Color {
                found: said.clone()?,
            }),
        };
    }
    let Some(found) = term_color else {
        return Ok(Coloring::Auto);
    };
    match Coloring::parse(found.as_str()) {
        Some(coloring) => Ok(coloring),
        None => Err(CliFault::TermColor {
            found: found.clone()?,
        }),
    }
}

/// `--ignore-unknown-features` needs a list of features.
fn beside_lists(lists: &Lists, uses: &[Use]) -> Result<(), CliFault>
    requires { AreListsOf (views uses.now) lists.now }
    ensures { Checks result (needs_rule Opt.IgnoreUnknownFeatures Beside.FeatureLists
        (views uses.now)) }
{
    let there = !lists.features.is_empty()
        || !lists.include_features.is_empty()
        || given(Opt::GroupFeatures, uses);
    let option = Opt::IgnoreUnknownFeatures;
    needs(given(option, uses), option, Beside::FeatureLists, there)
}

/// Whether `--each-feature` or `--feature-powerset` is given.
pub(crate) fn is_each(uses: &[Use]) -> bool
    ensures { result ≡ has_beside Beside.EachOrPowerset (views uses.now) }
{
    given(Opt::EachFeature, uses) || given(Opt::FeaturePowerset, uses)
}

/// Refuses the option where neither `--each-feature` nor `--feature-powerset` is given.
fn needs_each(there: bool, option: Opt, uses: &[Use]) -> Result<(), CliFault>
    ensures { Checks result (fault_if
        (there && not (has_beside Beside.EachOrPowerset (views uses.now)))
        (Needs option Beside.EachOrPowerset)) }
{
    needs(there, option, Beside::EachOrPowerset, is_each(uses))
}

/// Options that need `--each-feature` or `--feature-powerset`.
fn beside_each(lists: &Lists, uses: &[Use]) -> Result<(), CliFault>
    requires { AreListsOf (views uses.now) lists.now }
    ensures { Checks result (first_of (map
        (λ option. needs_rule option Beside.EachOrPowerset (views uses.now))
        (Opt.OptionalDeps ∷ Opt.ExcludeFeatures ∷ Opt.ExcludeNoDefaultFeatures
        ∷ Opt.ExcludeAllFeatures ∷ Opt.IncludeFeatures ∷ Opt.IncludeDepsFeatures ∷ []))) }
{
    needs_each(given(Opt::OptionalDeps, uses), Opt::OptionalDeps, uses)?;
    let excludes = !lists.exclude_features.is_empty();
    needs_each(excludes, Opt::ExcludeFeatures, uses)?;
    let option = Opt::ExcludeNoDefaultFeatures;
    needs_each(given(option, uses), option, uses)?;
    let option = Opt::ExcludeAllFeatures;
    needs_each(given(option, uses), option, uses)?;
    let includes = !lists.include_features.is_empty();
    needs_each(includes, Opt::IncludeFeatures, uses)?;
    let option = Opt::IncludeDepsFeatures;
    needs_each(given(option, uses), option, uses)
}

/// Refuses the option where `--feature-powerset` isn't given.
pub(crate) fn needs_powerset(option: Opt, uses: &[Use]) -> Result<(), CliFault>
    ensures { Checks result (fault_if
        (is_given option (views uses.now) && not (is_given Opt.FeaturePowerset (views uses.now)))
        (Needs option Beside.Powerset)) }
{
    let there = given(Opt::FeaturePowerset, uses);
    needs(given(option, uses), option, Beside::Powerset, there)
}

/// The depth, where one is given.
fn depth(alloc: Global, uses: &[Use]) -> Result<Option<usize>, CliFault>
    ensures rule { Checks result (from_value Opt.Depth
        (λ text. fault_if (is_none (number_of 64 text)) (Number text)) (views uses.now)) }
    ensures value { IfOk result (λ depth.
        depth ≡ from_value Opt.Depth (number_of 64) (views uses.now)) }
{
    match value(Opt::Depth, uses) {
        Some(text) => Ok(Some(values::depth(alloc, text.as_str())?)),
        None => Ok(None),
    }
}

/// Refuses a use of the option that has a single name.
fn lists_two(option: Opt, uses: &[Use]) -> Result<(), CliFault>
    ensures { Checks result (fault_if
        (list_any (λ text. not (is_list text)) (values_given option (views uses.now)))
        (Single option)) }
{
    for one in uses {
        if let Some(value) = one.value_of(option)
            && !has_separator(value.as_str())
        {
            return Err(CliFault::Single { option });
        }
    }
    Ok(())
}

/// The option that leaves dev-dependencies out, if one is given.
fn without_dev_deps(uses: &[Use]) -> Option<Opt>
    ensures { result ≡ dev_deps_option (views uses.now) }
{
    if given(Opt::RemoveDevDeps, uses) {
        Some(Opt::RemoveDevDeps)
    } else if given(Opt::NoDevDeps, uses) {
        Some(Opt::NoDevDeps)
    } else {
        None
    }
}

/// Subcommands that exclude some options, and `install`, which is refused.
fn beside_subcommand(uses: &[Use]) -> Result<(), CliFault>
    ensures { Checks result (option_and_then (subcommand_rule (views uses.now))
        (subcommand_of (views uses.now))) }
{
    let Some(word) = subcommand(uses) else {
        return Ok(());
    };
    if word.as_str() == "test" || word.as_str() == "bench" {
        if let Some(option) = without_dev_deps(uses) {
            return Err(CliFault::BesideSubcommand {
                option,
                subcommand: word.clone()?,
            });
        }
    } else if word.as_str() == "install" {
        return Err(CliFault::Install);
    }
    Ok(())
}

/// Refuses the option where Cargo handles workspaces.
fn beside_cargo(behavior: WorkspaceBehavior, option: Opt, uses: &[Use]) -> Result<(), CliFault>
    ensures { Checks result (fault_if (is_cargo behavior && is_given option (views uses.now))
        (Clash Opt.WorkspaceBehavior option)) }
{
    if behavior == WorkspaceBehavior::Cargo && given(option, uses) {
        return Err(CliFault::Clash {
            option: Opt::WorkspaceBehavior,
            other: option,
        });
    }
    Ok(())
}

fn is_target_flag(word: &str) -> bool
    ensures { result ≡ list_any (bytes_eq word.now) (codes "--example" ∷ codes "--examples"
        ∷ codes "--test" ∷ codes "--tests" ∷ codes "--bench" ∷ codes "--benches"
        ∷ codes "--all-targets" ∷ []) }
{
    word == "--example"
        || word == "--examples"
        || word == "--test"
        || word == "--tests"
        || word == "--bench"
        || word == "--benches"
        || word == "--all-targets"
}

fn is_target_name(word: &str) -> bool
    ensures { result ≡ list_any (starts_with nat_eq word.now)
        (codes "--example=" ∷ codes "--test=" ∷ codes "--bench=" ∷ []) }
{
    word.starts_with("--example=") || word.starts_with("--test=") || word.starts_with("--bench=")
}

/// The first argument for cargo that selects targets which need dev-dependencies.
fn target_choice(leading: &[String]) -> Option<&String>
    ensures { optional_text_ref result
        ≡ find selects_targets (names_of leading.now) }
{
    for word in leading {
        if is_target_flag(word.as_str()) || is_target_name(word.as_str()) {
            return Some(word);
        }
    }
    None
}

/// Dev-dependencies can't be left out beside an argument that selects targets which need them.
fn beside_targets(leading: &[String], uses: &[Use]) -> Result<(), CliFault>
    ensures { Checks result (option_and_then
        (λ word. option_map (λ option. ClashWord option word) (dev_deps_option (views uses.now)))
        (find selects_targets (names_of leading.now))) }
{
    let Some(word) = target_choice(leading) else {
        return Ok(());
    };
    if let Some(option) = without_dev_deps(uses) {
        return Err(CliFault::ClashWord {
            option,
            word: word.clone()?,
        });
    }
    Ok(())
}

/// Refuses the option beside a list of features to include.
fn beside_includes(lists: &Lists, option: Opt, uses: &[Use]) -> Result<(), CliFault>
    requires { AreListsOf (views uses.now) lists.now }
    ensures { Checks result (fault_if
        (counts Opt.IncludeFeatures (views uses.now) && is_given option (views uses.now))
        (Clash Opt.IncludeFeatures option)) }
{
    if !lists.include_features.is_empty() && given(option, uses) {
        return Err(CliFault::Clash {
            option: Opt::IncludeFeatures,
            other: option,
        });
    }
    Ok(())
}

/// Pairs of options that exclude each other.
fn check_pairs(uses: &[Use]) -> Result<(), CliFault>
    ensures { Checks result (first_of (
        clash_rule Opt.NoDevDeps Opt.RemoveDevDeps (views uses.now)
        ∷ clash_rule Opt.EachFeature Opt.FeaturePowerset (views uses.now)
        ∷ flat_map (λ option.
        clash_rule option Opt.EachFeature (views uses.now)
        ∷ clash_rule option Opt.FeaturePowerset (views uses.now) ∷ [])
        (Opt.AllFeatures ∷ Opt.NoDefaultFeatures ∷ []))) }
{
    clash(Opt::NoDevDeps, Opt::RemoveDevDeps, uses)?;
    clash(Opt::EachFeature, Opt::FeaturePowerset, uses)?;
    clash(Opt::AllFeatures, Opt::EachFeature, uses)?;
    clash(Opt::AllFeatures, Opt::FeaturePowerset, uses)?;
    clash(Opt::NoDefaultFeatures, Opt::EachFeature, uses)?;
    clash(Opt::NoDefaultFeatures, Opt::FeaturePowerset, uses)
}

/// Whether the name is one of the optional dependencies, where these are named.
fn optional_has(names: Option<&Vec<String>>, name: &str) -> bool
    ensures { result ≡ is_among (unwrap_or (option_map
        (λ names. names_of names.now.items) names.entry) []) name.now }
{
    match names {
        Some(names) => has(names.as_slice(), name),
        None => false,
    }
}

/// The first option that names the feature.
fn naming(lists: &Lists, name: &str) -> Option<Opt>
    ensures { (us : List Seen) → AreListsOf us lists.now → result ≡ naming_option us name.now }
{
    if has(lists.features.as_slice(), name) {
        Some(Opt::Features)
    } else if optional_has(lists.optional_deps.as_ref(), name) {
        Some(Opt::OptionalDeps)
    } else if group_has(lists.group_features.as_slice(), name) {
        Some(Opt::GroupFeatures)
    } else if group_has(lists.mutually_exclusive_features.as_slice(), name) {
        Some(Opt::MutuallyExclusiveFeatures)
    } else if has(lists.include_features.as_slice(), name) {
        Some(Opt::IncludeFeatures)
    } else {
        None
    }
}

/// Refuses an option that names a feature which is excluded.
fn check_excluded(lists: &Lists) -> Result<(), CliFault>
    ensures { (us : List Seen) → AreListsOf us lists.now → Checks result (first_of
        (map (λ name. option_map (Excluded name) (naming_option us name))
        (names_given Opt.ExcludeFeatures us))) }
{
    for name in lists.exclude_features.as_slice() {
        if let Some(option) = naming(lists, name.as_str()) {
            return Err(CliFault::Excluded {
                feature: name.clone()?,
                option,
            });
        }
    }
    Ok(())
}

/// Rules on groups, and on options that exclude each other. `leading` has the arguments that are
/// passed on to cargo.
fn check_together(
    behavior: WorkspaceBehavior,
    lists: &Lists,
    leading: &[String],
    uses: &[Use],
) -> Result<(), CliFault>
    requires leading { names_of leading.now ≡ leading_of behavior (views uses.now) }
    requires lists { AreListsOf (views uses.now) lists.now }
    ensures { Checks result (first_of (together_rules behavior (views uses.now))) }
{
    lists_two(Opt::GroupFeatures, uses)?;
    lists_two(Opt::MutuallyExclusiveFeatures, uses)?;
    lists_two(Opt::AtLeastOneOf, uses)?;
    beside_subcommand(uses)?;
    beside_cargo(behavior, Opt::EachFeature, uses)?;
    beside_cargo(behavior, Opt::FeaturePowerset, uses)?;
    beside_targets(leading, uses)?;
    beside_includes(lists, Opt::OptionalDeps, uses)?;
    beside_includes(lists, Opt::IncludeDepsFeatures, uses)?;
    check_pairs(uses)?;
    check_excluded(lists)
}

/// What these rules read while they check.
#[derive(Drop)]
pub struct Early {
    pub coloring: Coloring,
    pub depth: Option<usize>,
    pub lists: Lists,
}

/// Rules on colour, on options that need lists or runs by features, and on the depth. Returns what
/// they read, with these lists.
fn check_lists(
    alloc: Global,
    term_color: Option<&String>,
    lists: Lists,
    uses: &[Use],
) -> Result<Early, CliFault>
    requires { AreListsOf (views uses.now) lists }
    ensures rules { Checks result (first_of
        (early_rules (optional_text_ref term_color.entry) (views uses.now))) }
    ensures coloring { IfOk result (λ early. early.coloring
        ≡ coloring_asked (optional_text_ref term_color.entry)
        (views uses.now)) }
    ensures depth { IfOk result (λ early.
        early.depth ≡ from_value Opt.Depth (number_of 64) (views uses.now)) }
    ensures lists { IfOk result (λ early. early.lists ≡ lists) }
{
    let coloring = coloring(term_color, uses)?;
    beside_lists(&lists, uses)?;
    beside_each(&lists, uses)?;
    needs_powerset(Opt::Depth, uses)?;
    needs_powerset(Opt::GroupFeatures, uses)?;
    needs_powerset(Opt::MutuallyExclusiveFeatures, uses)?;
    needs_powerset(Opt::AtLeastOneOf, uses)?;
    let depth = depth(alloc, uses)?;
    Ok(Early {
        coloring,
        depth,
        lists,
    })
}

/// Checks the rules before the one on a missing subcommand, and returns what they read.
pub fn check(
    alloc: Global,
    behavior: WorkspaceBehavior,
    term_color: Option<&String>,
    leading: &[String],
    uses: &[Use],
) -> Result<Early, CliFault>
    requires { names_of leading.now ≡ leading_of behavior (views uses.now) }
    ensures rules { Checks result (first_of
        (first_of (early_rules (optional_text_ref term_color.entry) (views uses.now))
        ∷ first_of (together_rules behavior (views uses.now)) ∷ [])) }
    ensures coloring { IfOk result (λ early. early.coloring
        ≡ coloring_asked (optional_text_ref term_color.entry)
        (views uses.now)) }
    ensures depth { IfOk result (λ early.
        early.depth ≡ from_value Opt.Depth (number_of 64) (views uses.now)) }
    ensures lists { IfOk result (λ early. AreListsOf (views uses.now) early.lists) }
{
    let lists = Lists::of(alloc, uses)?;
    let early = check_lists(alloc, term_color, lists, uses)?;
    check_together(behavior, &early.lists, leading, uses)?;
    Ok(early)
}
