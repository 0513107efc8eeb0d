//! What the tables of a manifest's tree hold.

ghost use Rattle.std.specs.Prelude.{◌≡◌, is_some, option_map, option_and_then};
ghost use Rattle.std.specs.List.{list_any};
ghost use Rattle.toml.specs.Data.{get_member};
ghost use Rattle.toml.specs.View.{view, table_view, array_view};
ghost use Rattle.hack_manifest.specs.Manifest.{features_key, table_at, list_of_items};
ghost use Rattle.hack_edits.specs.KeyPaths.{dev_key};
ghost use Rattle.hack_edits.specs.Lookup.{some_table, lists, depends, has_target_dev};
ghost use Rattle.hack_edits.specs.Lookup.{has_dev_under, has_dev, is_dev_only, is_dropped_text};
ghost use Rattle.hack_edits.specs.Lookup.{item_goes, items_in};

use hack_manifest::lookup::{find_table, value_at};
use toml::value::Array;
use toml::{Table, Value};

/// The key of a table of development dependencies.
pub const DEV: &str = "dev-dependencies";

/// The key of the table that has, for each platform, tables of dependencies.
pub const TARGET: &str = "target";

/// The key of the table of features.
pub const FEATURES: &str = "features";

const NORMAL: &str = "dependencies";

const BUILD: &str = "build-dependencies";

/// Whether there are development dependencies, at the top or under some `target.X`.
pub fn holds_dev(table: &Table) -> bool
    ensures { result ≡ has_dev (table_view table.now) }
{
    holds(table, DEV) || targets_hold_dev(table)
}

/// Whether there are development dependencies under some `target.X`.
pub fn targets_hold_dev(table: &Table) -> bool
    ensures { result ≡ has_target_dev (table_view table.now) }
{
    match find_table(table, TARGET) {
        Some(targets) => target_holds_dev(targets),
        None => false,
    }
}

/// Whether some `target.X` has development dependencies.
fn target_holds_dev(targets: &Table) -> bool
    ensures { result ≡ some_table (λ t. is_some (get_member dev_key t))
        (table_view targets.now) }
{
    'targets: for (_, value) in targets.iter() {
        if let Some(table) = value.as_table() {
            if holds(table, DEV) {
                return true;
            }
        }
    }
    false
}

/// Whether that `target.X` has development dependencies.
pub fn target_has_dev(table: &Table, name: &str) -> bool
    ensures { result ≡ has_dev_under name.now (table_view table.now) }
{
    match find_table(table, TARGET) {
        Some(targets) => match find_table(targets, name) {
            Some(found) => holds(found, DEV),
            None => false,
        },
        None => false,
    }
}

/// The value of a feature.
pub fn feature_value<'a>(table: &'a Table, name: &str) -> Option<&'a Value>
    ensures { option_map (λ v. view v.now) result
        ≡ option_and_then (get_member name.now) (table_at features_key (table_view table.now)) }
{
    match find_table(table, FEATURES) {
        Some(features) => value_at(features, name),
        None => None,
    }
}

/// Returns whether texts are removed from the array of that feature.
pub fn feature_loses(old: &Table, name: &str) -> bool
    ensures { result ≡ list_any (item_goes (table_view old.now)) (items_in
        (option_and_then (get_member name.now) (table_at features_key (table_view old.now)))) }
{
    match feature_value(old, name) {
        Some(value) => match value {
            Value::Array(array) => any_goes(old, array),
            _ => false,
        },
        None => false,
    }
}

/// Returns whether texts are removed from an array.
fn any_goes(old: &Table, array: &Array) -> bool
    ensures { result ≡ list_any (item_goes (table_view old.now)) (list_of_items (array_view array.now)) }
{
    'items: for value in array {
        if value_goes(old, value) {
            return true;
        }
    }
    false
}

/// Returns whether an array's item is a text that is removed.
pub fn value_goes(old: &Table, value: &Value) -> bool
    ensures { result ≡ item_goes (table_view old.now) (view value.now) }
{
    match value {
        Value::String(text) => text_goes(old, text.as_str()),
        _ => false,
    }
}

/// Returns whether a feature's text is removed with the development dependencies.
fn text_goes(old: &Table, text: &str) -> bool
    ensures { result ≡ is_dropped_text (table_view old.now) text.now }
{
    match text.split_once('/') {
        Some((name, _)) => is_dev_alone(old, name),
        None => false,
    }
}

/// Whether the name is that of a dependency for development alone.
fn is_dev_alone(table: &Table, name: &str) -> bool
    ensures { result ≡ is_dev_only name.now (table_view table.now) }
{
    is_listed(table, DEV, name)
        && !(is_listed(table, NORMAL, name) || is_listed(table, BUILD, name))
}

/// Whether the table of that name, at the top or under some `target.X`, has the key.
fn is_listed(table: &Table, section: &str, key: &str) -> bool
    ensures { result ≡ depends section.now key.now (table_view table.now) }
{
    if section_lists(table, section, key) {
        return true;
    }
    match find_table(table, TARGET) {
        Some(targets) => target_lists(targets, section, key),
        None => false,
    }
}

/// Whether some `target.X` lists the key in the table of that name.
fn target_lists(targets: &Table, section: &str, key: &str) -> bool
    ensures { result ≡ some_table (lists section.now key.now) (table_view targets.now) }
{
    'targets: for (_, value) in targets.iter() {
        if let Some(table) = value.as_table() {
            if section_lists(table, section, key) {
                return true;
            }
        }
    }
    false
}

/// Whether the table of that name has the key.
fn section_lists(table: &Table, section: &str, key: &str) -> bool
    ensures { result ≡ lists section.now key.now (table_view table.now) }
{
    match find_table(table, section) {
        Some(found) => holds(found, key),
        None => false,
    }
}

/// Whether a table has a key.
fn holds(table: &Table, key: &str) -> bool
    ensures { result ≡ is_some (get_member key.now (table_view table.now)) }
{
    value_at(table, key).is_some()
}
