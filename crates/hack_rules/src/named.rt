//! The lists that the uses of options give.

ghost use Rattle.std.specs.Prelude.{◌≡◌, ◌↔◌, ℕ, List, [], not, Contains, IfOk, Some, map};
ghost use Rattle.std.specs.Prelude.{string_bytes};
ghost use Rattle.std.specs.Cmp.Lexicographic.{slice_cmp};
ghost use Rattle.std.specs.List.Sorted.{IsStrictlySortedBy};
ghost use Rattle.std.specs.Ordering.{nat_cmp};
ghost use Rattle.std.specs.List.{AllZip, filter_map, find, list_any};
ghost use Rattle.std.specs.Option.{is_none, option_map, option_map_or};
ghost use Rattle.hack_base.specs.Names.{names_of, optional_text_ref};
ghost use Rattle.hack_rules.specs.Uses.{views};
ghost use Rattle.hack_rules.specs.Values.{values_given};
ghost use Rattle.hack_rules.specs.CliFaults.{Checks, LiftForm, LiftGroup};
ghost use Rattle.hack_rules.specs.CliLists.{names_given, optional_given, lift_of};
ghost use Rattle.hack_rules.specs.CliLists.{lifts_one_of, same_names};
ghost use Rattle.hack_rules.specs.LateRules.{lift_rule};
ghost use Rattle.hack_rules.specs.Internal.{put_all, AreReadAs};
ghost use Rattle.hack_features.specs.Feature.{IsGroup, IsNormal, group_of};
ghost use Rattle.hack_base.specs.Lists.{group_names, without_quotes};
ghost use Rattle.hack_rules.specs.CliGroups.{AreGroupsOf, AreLifts};

use crate::fault::CliFault;
use crate::uses::{Use, given, value, values};
use hack_base::lists::{has_separator, split_group, split_names, unquoted};
use hack_features::Feature;
use hack_options::Opt;
use std::alloc::{AllocError, Global};
use std::collections::BTreeSet;

/// The names in all lists of an option, in order.
pub fn names(alloc: Global, option: Opt, uses: &[Use]) -> Result<Vec<String>, AllocError>
    ensures { IfOk result (λ names. map string_bytes names.items
        ≡ names_given option (views uses.now)) }
{
    let mut names = Vec::new(alloc);
    let texts = values(alloc, option, uses)?;
    for text in &texts {
        names.append(&mut split_names(alloc, text.as_str())?)?;
    }
    Ok(names)
}

/// The names of a value that may be left out.
fn names_or_empty(alloc: Global, text: Option<&String>) -> Result<Vec<String>, AllocError>
    ensures { IfOk result (λ names. map string_bytes names.items
        ≡ option_map_or (λ text. group_names (without_quotes text))
        (optional_text_ref text.entry) []) }
{
    match text {
        Some(text) => split_group(alloc, unquoted(text.as_str())),
        None => Ok(Vec::new(alloc)),
    }
}

/// The names of `--optional-deps`, where it is given. Empty names count, and without a value there
/// are none.
pub fn optional_names(alloc: Global, uses: &[Use]) -> Result<Option<Vec<String>>, AllocError>
    ensures { IfOk result (λ names. option_map (λ list. map string_bytes list.items) names
        ≡ optional_given (views uses.now)) }
{
    if !given(Opt::OptionalDeps, uses) {
        return Ok(None);
    }
    let names = names_or_empty(alloc, value(Opt::OptionalDeps, uses))?;
    Ok(Some(names))
}

/// The group of names in one text.
fn group(alloc: Global, text: &str) -> Result<Feature, AllocError>
    ensures { IfOk result (IsGroup (group_names text.now)) }
{
    let names = split_group(alloc, text)?;
    Feature::group(alloc, names)
}

/// The groups of an option, one for each use.
pub fn groups(alloc: Global, option: Opt, uses: &[Use]) -> Result<Vec<Feature>, AllocError>
    ensures { IfOk result (λ groups.
        AreGroupsOf (values_given option (views uses.now)) groups.items) }
{
    let mut groups = Vec::new(alloc);
    let texts = values(alloc, option, uses)?;
    for text in &texts {
        groups.push(group(alloc, text.as_str())?)?;
    }
    Ok(groups)
}

/// A feature for each name.
pub fn normals(alloc: Global, names: &[String]) -> Result<Vec<Feature>, AllocError>
    ensures { IfOk result (λ features. AllZip IsNormal (names_of names.now) features.items) }
{
    let mut features = Vec::new(alloc);
    for name in names {
        features.push(Feature::normal(alloc, name.as_str())?)?;
    }
    Ok(features)
}

/// The set of these texts.
fn set_of(alloc: Global, texts: Vec<String>) -> Result<BTreeSet<String>, AllocError>
    ensures { IfOk result (λ set. set.keys ≡ put_all [] texts.items) }
{
    let mut set = BTreeSet::new(alloc);
    for text in texts {
        set.insert(text)?;
    }
    Ok(set)
}

/// The texts of a set, in order.
fn in_order(alloc: Global, set: BTreeSet<String>) -> Result<Vec<String>, AllocError>
    ensures keys { IfOk result (λ texts. texts.items ≡ set.keys) }
    ensures rising { IfOk result (λ texts.
        IsStrictlySortedBy (slice_cmp nat_cmp) (map string_bytes texts.items)) }
{
    let mut texts = Vec::new(alloc);
    for text in set {
        texts.push(text)?;
    }
    Ok(texts)
}

/// The values of `--target`, sorted by their bytes, each once.
pub fn targets(alloc: Global, uses: &[Use]) -> Result<Vec<String>, AllocError>
    ensures rising { IfOk result (λ targets.
        IsStrictlySortedBy (slice_cmp nat_cmp) (map string_bytes targets.items)) }
    ensures same { IfOk result (λ targets. (text : List ℕ)
        → Contains (map string_bytes targets.items) text
        ↔ Contains (values_given Opt.Target (views uses.now)) text) }
{
    let texts = values(alloc, Opt::Target, uses)?;
    let set = set_of(alloc, texts)?;
    in_order(alloc, set)
}

/// A value of `--allow-together`, split into its package and its list of features.
fn cut_lift(text: &str) -> Option<(&str, &str)>
    ensures { option_map (λ parts. record
        { owner = parts.0.now; group = group_names parts.1.now }) result ≡ lift_of text.now }
{
    let (owner, features) = text.split_once('=')?;
    if owner.is_empty() || !has_separator(features) {
        return None;
    }
    Some((owner, features))
}

/// Packages, each with the group that a value lifts for it. Each value must have the form of
/// `--allow-together`.
fn lifts_of(alloc: Global, texts: &[String]) -> Result<Vec<(String, Feature)>, CliFault>
    ensures lifts { IfOk result (λ lifts.
        AreLifts (filter_map lift_of (map string_bytes texts.now)) lifts.items) }
    ensures each { IfOk result (λ lifts. AreReadAs texts.now lifts.items) }
    ensures checks { Checks result (option_map LiftForm
        (find (λ text. is_none (lift_of text)) (map string_bytes texts.now))) }
{
    let mut lifts = Vec::new(alloc);
    for text in texts {
        let Some((owner, features)) = cut_lift(text.as_str()) else {
            return Err(CliFault::LiftForm {
                found: text.clone()?,
            });
        };
        let owner = String::from_str(alloc, owner)?;
        let features = group(alloc, features)?;
        lifts.push((owner, features))?;
    }
    Ok(lifts)
}

/// Whether the group has exactly these names, in this order.
fn is_named(group: &Feature, names: &[String]) -> bool
    ensures { result ≡ same_names (names_of names.now) (group_of group.now) }
{
    names == group.as_group()
}

/// Whether one group has exactly these names, in this order.
#[tactic(auto, using(hack_base::proofs::Chains::mapped))]
fn has_names(groups: &[Feature], names: &[String]) -> bool
    ensures { result ≡ list_any (same_names (names_of names.now)) (map group_of groups.now) }
{
    groups.iter().any(|group| is_named(group, names))
}

/// Each value must lift one of the groups. `lifts` is what the values were read as.
fn check_groups(
    groups: &[Feature],
    texts: &[String],
    lifts: &[(String, Feature)],
) -> Result<(), CliFault>
    requires { AreReadAs texts.now lifts.now }
    ensures { Checks result (option_map LiftGroup
        (find (λ text. not (lifts_one_of (map group_of groups.now) text))
        (map string_bytes texts.now))) }
{
    for (text, (_, group)) in texts.iter().zip(lifts) {
        if !has_names(groups, group.as_group()) {
            return Err(CliFault::LiftGroup {
                found: text.clone()?,
            });
        }
    }
    Ok(())
}

/// Packages, each with an exclusion group that is lifted for it. A value of a wrong form is
/// reported before one whose names are those of no group.
pub fn lifts(
    alloc: Global,
    exclusive: &[Feature],
    uses: &[Use],
) -> Result<Vec<(String, Feature)>, CliFault>
    ensures lifts { IfOk result (λ lifts. AreLifts
        (filter_map lift_of (values_given Opt.AllowTogether (views uses.now))) lifts.items) }
    ensures checks { Checks result (lift_rule (map group_of exclusive.now)
        (values_given Opt.AllowTogether (views uses.now))) }
{
    let texts = values(alloc, Opt::AllowTogether, uses)?;
    let lifts = lifts_of(alloc, &texts)?;
    check_groups(exclusive, &texts, &lifts)?;
    Ok(lifts)
}
