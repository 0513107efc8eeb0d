//! The rules that a package's own manifest has: the table `cargo-hack` in its `metadata`. Others
//! keep their settings beside it, so where there is no such table there are no rules.

ghost use Rattle.std.specs.Prelude.{◌≡◌, IfOk, [], None, codes, false, length, nat_le, option_map};
ghost use Rattle.std.specs.Bool.{then_some};
ghost use Rattle.serde_json.specs.Find.{as_bool};
ghost use Rattle.serde_json.specs.View.{view, items_view, members_view};
ghost use Rattle.hack_base.specs.Names.{names_of, optional_text};
ghost use Rattle.hack_features.specs.Feature.{group_of, groups_of};
ghost use Rattle.hack_metadata.specs.FieldResults.{KeepsOtherFields};
ghost use Rattle.hack_metadata.specs.Internal.{ReturnsKey};
ghost use Rattle.hack_metadata.specs.RecordViews.{limits_view, rules_view, rules_reading};
ghost use Rattle.hack_metadata.specs.Records.{no_rules};
ghost use Rattle.hack_metadata.specs.RuleTables.{filled_names, groups_of_items, optional_from};
ghost use Rattle.hack_metadata.specs.RuleTables.{group_from, groups_from, is_rule_key, number_from};
ghost use Rattle.hack_metadata.specs.RuleTables.{key_in, other_key, read_table, rules_in, table_in};
ghost use Rattle.hack_metadata.specs.RuleTables.{names_from, read_known, read_limits, read_rules};

use crate::metadata::object::{Object, find, into_object, take};
use crate::metadata::package::{texts_from, texts_in};
use hack_features::Feature;
use serde_json::Value;
use std::alloc::{AllocError, AllocFailed, Global};

/// What a table `cargo-hack` in a manifest's metadata says of a package's rules.
#[derive(Drop)]
pub struct RulesTable {
    /// The features that are in no set.
    pub exclude_features: Vec<String>,
    /// Groups of features of which a set may reach each by one name at most.
    pub mutually_exclusive_features: Vec<Feature>,
    /// Groups of features: a set has to enable at least one of each, where the package has a
    /// feature that does.
    pub at_least_one_of: Vec<Feature>,
    /// Groups of features that are in a set together.
    pub group_features: Vec<Feature>,
    /// None where none is asked for; empty means all of them, as in `Args`.
    pub optional_deps: Option<Vec<String>>,
    /// The run with no features is left out.
    pub exclude_no_default_features: bool,
    /// The run with all features is left out.
    pub exclude_all_features: bool,
    /// The largest number of candidates in one set; a group counts as one.
    pub depth: Option<usize>,
    /// How many candidates a pattern has at most that a sample shows; at least 1.
    pub strength: Option<usize>,
}

impl RulesTable {
    /// Returns the rules of a manifest without a table.
    pub fn new(alloc: Global) -> RulesTable
        ensures { rules_view result ≡ no_rules }
    {
        RulesTable {
            exclude_features: Vec::new(alloc),
            mutually_exclusive_features: Vec::new(alloc),
            at_least_one_of: Vec::new(alloc),
            group_features: Vec::new(alloc),
            optional_deps: None,
            exclude_no_default_features: false,
            exclude_all_features: false,
            depth: None,
            strength: None,
        }
    }

    /// Reads what `cargo-hack` holds.
    fn from_value(alloc: Global, value: Value) -> Result<RulesTable, RulesFault>
        ensures { ReturnsKey rules_view result (read_table (view value)) }
    {
        match into_object(value) {
            Some(object) => RulesTable::from_object(alloc, object),
            None => Err(RulesFault::Key(String::from_str(alloc, "cargo-hack")?)),
        }
    }

    /// Reads a table. A key that isn't known is a fault, after those of the known keys.
    fn from_object(alloc: Global, object: Object) -> Result<RulesTable, RulesFault>
        ensures { ReturnsKey rules_view result (read_rules (members_view object.entries)) }
    {
        let other = other_key(alloc, &object)?;
        let table = RulesTable::from_known(alloc, object)?;
        match other {
            Some(key) => Err(RulesFault::Key(key)),
            None => Ok(table),
        }
    }

    /// Reads the known keys of a table.
    fn from_known(alloc: Global, mut object: Object) -> Result<RulesTable, RulesFault>
        ensures { ReturnsKey rules_view result (read_known (members_view object.entries)) }
    {
        let excluded = remove_names(alloc, &mut object, "exclude-features")?;
        let exclusive = remove_groups(alloc, &mut object, "mutually-exclusive-features")?;
        let needed = remove_groups(alloc, &mut object, "at-least-one-of")?;
        let grouped = remove_groups(alloc, &mut object, "group-features")?;
        let optional = remove_optional(alloc, &mut object, "optional-deps")?;
        match Limits::from_object(alloc, &object) {
            Ok(limits) => Ok(RulesTable {
                exclude_features: excluded,
                mutually_exclusive_features: exclusive,
                at_least_one_of: needed,
                group_features: grouped,
                optional_deps: optional,
                exclude_no_default_features: limits.no_default,
                exclude_all_features: limits.all_features,
                depth: limits.depth,
                strength: limits.strength,
            }),
            Err(fault) => Err(fault),
        }
    }
}

/// What a table says beside its lists.
#[derive(Clone, Copy)]
pub(crate) struct Limits {
    no_default: bool,
    all_features: bool,
    depth: Option<usize>,
    strength: Option<usize>,
}

impl Limits {
    /// Reads the keys that are no lists.
    fn from_object(alloc: Global, object: &Object) -> Result<Limits, RulesFault>
        ensures { ReturnsKey limits_view result (read_limits (members_view object.now.entries)) }
    {
        let no_default = flag_in(alloc, object, "exclude-no-default-features")?;
        let all_features = flag_in(alloc, object, "exclude-all-features")?;
        let depth = number_in(alloc, object, "depth", 0)?;
        let strength = number_in(alloc, object, "strength", 1)?;
        Ok(Limits {
            no_default,
            all_features,
            depth,
            strength,
        })
    }
}

/// Why a table can't be read.
#[derive(Drop)]
pub(crate) enum RulesFault {
    /// Memory was refused.
    Memory,
    /// What this key holds is wrong, or the key isn't known.
    Key(String),
}

impl From<AllocError> for RulesFault {
    ghost use Rattle.std.specs.Prelude.{◌≡◌};
    ghost use Rattle.hack_metadata.specs.declared.metadata.rules.RulesFault.TheVariants.{Memory};

    ghost from_gives = { λ _ e. e ≡ Memory };

    fn from(_: AllocError) -> RulesFault {
        RulesFault::Memory
    }
}

impl<T: Drop> From<AllocFailed<T>> for RulesFault {
    ghost use Rattle.std.specs.Prelude.{◌≡◌};
    ghost use Rattle.hack_metadata.specs.declared.metadata.rules.RulesFault.TheVariants.{Memory};

    ghost from_gives = { λ _ e. e ≡ Memory };

    fn from(_: AllocFailed<T>) -> RulesFault {
        RulesFault::Memory
    }
}

/// Takes out the rules of a package, or of a workspace: the key where its table is wrong.
pub(crate) fn remove_rules(
    alloc: Global,
    object: &mut Object,
) -> Result<Result<RulesTable, String>, AllocError>
    ensures value { IfOk result (λ rules. rules_in (members_view object.old.entries)
        ≡ rules_reading rules) }
    ensures others { KeepsOtherFields (codes "metadata") (members_view object.old.entries)
        (members_view object.new.entries) }
{
    let Some(value) = remove_table(object) else {
        return Ok(Ok(RulesTable::new(alloc)));
    };
    match RulesTable::from_value(alloc, value) {
        Ok(table) => Ok(Ok(table)),
        Err(RulesFault::Key(key)) => Ok(Err(key)),
        Err(RulesFault::Memory) => Err(AllocError),
    }
}

/// Takes out what `cargo-hack` holds in `metadata`.
fn remove_table(object: &mut Object) -> Option<Value>
    ensures value { option_map view result ≡ table_in (members_view object.old.entries) }
    ensures others { KeepsOtherFields (codes "metadata") (members_view object.old.entries)
        (members_view object.new.entries) }
{
    match take(object, "metadata") {
        Some(Value::Object(mut settings)) => take(&mut settings, "cargo-hack"),
        _ => None,
    }
}

/// Returns the first key that isn't known.
fn other_key(alloc: Global, object: &Object) -> Result<Option<String>, AllocError>
    ensures { IfOk result (λ key. optional_text key
        ≡ other_key (members_view object.now.entries)) }
{
    for key in object.keys() {
        if !is_known(key.as_str()) {
            return Ok(Some(key.clone()?));
        }
    }
    Ok(None)
}

/// Whether a key is known.
fn is_known(key: &str) -> bool
    ensures { result ≡ is_rule_key key.now }
{
    match key {
        "exclude-features" => true,
        "mutually-exclusive-features" => true,
        "at-least-one-of" => true,
        "group-features" => true,
        "optional-deps" => true,
        "exclude-no-default-features" => true,
        "exclude-all-features" => true,
        "depth" => true,
        "strength" => true,
        _ => false,
    }
}

/// Takes out a list of names. Empty where the key isn't there.
fn remove_names(alloc: Global, object: &mut Object, key: &str) -> Result<Vec<String>, RulesFault>
    ensures value { ReturnsKey (λ names. names_of names.items) result
        (key_in names_from [] key.now (members_view object.old.entries)) }
    ensures others { KeepsOtherFields key.now (members_view object.old.entries)
        (members_view object.new.entries) }
{
    let Some(value) = take(object, key) else {
        return Ok(Vec::new(alloc));
    };
    match texts_in(alloc, value)? {
        Some(names) => Ok(names),
        None => Err(RulesFault::Key(String::from_str(alloc, key)?)),
    }
}

/// Takes out a list of groups. Empty where the key isn't there.
fn remove_groups(alloc: Global, object: &mut Object, key: &str) -> Result<Vec<Feature>, RulesFault>
    ensures value { ReturnsKey (λ groups. groups_of groups.items) result
        (key_in groups_from [] key.now (members_view object.old.entries)) }
    ensures others { KeepsOtherFields key.now (members_view object.old.entries)
        (members_view object.new.entries) }
{
    let Some(value) = take(object, key) else {
        return Ok(Vec::new(alloc));
    };
    match groups_in(alloc, value)? {
        Some(groups) => Ok(groups),
        None => Err(RulesFault::Key(String::from_str(alloc, key)?)),
    }
}

/// Returns the groups of an array. None where the value is anything else, or an element is no
/// group.
fn groups_in(alloc: Global, value: Value) -> Result<Option<Vec<Feature>>, AllocError>
    ensures { IfOk result (λ found. option_map (λ groups. groups_of groups.items) found
        ≡ groups_from (view value)) }
{
    match value {
        Value::Array(list) => groups_from(alloc, list),
        _ => Ok(None),
    }
}

/// Returns the groups of a list. None where an element is no group.
fn groups_from(alloc: Global, list: Vec<Value>) -> Result<Option<Vec<Feature>>, AllocError>
    ensures { IfOk result (λ found. option_map (λ groups. groups_of groups.items) found
        ≡ groups_of_items (items_view list.items)) }
{
    let mut groups = Vec::new(alloc);
    for value in list {
        match group_in(alloc, value)? {
            Some(group) => groups.push(group)?,
            None => return Ok(None),
        }
    }
    Ok(Some(groups))
}

/// Returns the group that a list of at least two names is. None where the value is anything else.
fn group_in(alloc: Global, value: Value) -> Result<Option<Feature>, AllocError>
    ensures { IfOk result (λ found. option_map group_of found ≡ group_from (view value)) }
{
    match texts_in(alloc, value)? {
        Some(names) => group_of_two(alloc, names),
        None => Ok(None),
    }
}

/// Returns the group of the names. None where there are fewer than two.
fn group_of_two(alloc: Global, names: Vec<String>) -> Result<Option<Feature>, AllocError>
    ensures { IfOk result (λ found. option_map group_of found
        ≡ then_some (nat_le 2 (length (names_of names.items))) (names_of names.items)) }
{
    if names.len() < 2 {
        return Ok(None);
    }
    Ok(Some(Feature::group(alloc, names)?))
}

/// Takes out which optional dependencies are features. None where the key isn't there.
fn remove_optional(
    alloc: Global,
    object: &mut Object,
    key: &str,
) -> Result<Option<Vec<String>>, RulesFault>
    ensures value { ReturnsKey (option_map (λ names. names_of names.items)) result
        (key_in optional_from None key.now (members_view object.old.entries)) }
    ensures others { KeepsOtherFields key.now (members_view object.old.entries)
        (members_view object.new.entries) }
{
    let Some(value) = take(object, key) else {
        return Ok(None);
    };
    match optional_in(alloc, value)? {
        Some(optional) => Ok(optional),
        None => Err(RulesFault::Key(String::from_str(alloc, key)?)),
    }
}

/// Returns which optional dependencies a value means: `true` all of them, an empty list none.
/// None where the value is anything else.
fn optional_in(alloc: Global, value: Value) -> Result<Option<Option<Vec<String>>>, AllocError>
    ensures { IfOk result (λ found. option_map (option_map (λ names. names_of names.items)) found
        ≡ optional_from (view value)) }
{
    match value {
        Value::Bool(true) => Ok(Some(Some(Vec::new(alloc)))),
        Value::Bool(false) => Ok(Some(None)),
        Value::Array(list) => Ok(texts_from(alloc, list)?.map(filled)),
        _ => Ok(None),
    }
}

/// Returns the names, where there are any.
fn filled(names: Vec<String>) -> Option<Vec<String>>
    ensures { option_map (λ names. names_of names.items) result
        ≡ filled_names (names_of names.items) }
{
    if names.is_empty() {
        return None;
    }
    Some(names)
}

/// Returns a boolean. False where the key isn't there.
fn flag_in(alloc: Global, object: &Object, key: &str) -> Result<bool, RulesFault>
    ensures { ReturnsKey (λ flag. flag) result
        (key_in as_bool false key.now (members_view object.now.entries)) }
{
    let Some(value) = find(object, key) else {
        return Ok(false);
    };
    match value.as_bool() {
        Some(flag) => Ok(flag),
        None => Err(RulesFault::Key(String::from_str(alloc, key)?)),
    }
}

/// Returns a number that isn't below the least one. None where the key isn't there.
fn number_in(
    alloc: Global,
    object: &Object,
    key: &str,
    least: usize,
) -> Result<Option<usize>, RulesFault>
    ensures { ReturnsKey (λ number. number) result
        (key_in (number_from least) None key.now (members_view object.now.entries)) }
{
    let Some(value) = find(object, key) else {
        return Ok(None);
    };
    match value.as_u64() {
        Some(number) if number as usize >= least => Ok(Some(number as usize)),
        _ => Err(RulesFault::Key(String::from_str(alloc, key)?)),
    }
}
