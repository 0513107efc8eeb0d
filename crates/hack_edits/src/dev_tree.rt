//! What stays of a manifest's tree without its development dependencies, and whether a text is read
//! as that.

ghost use Rattle.std.specs.Prelude.{◌≡◌, Some, IfOk, option_map, option_and_then};
ghost use Rattle.toml.specs.Data.{no_members, table};
ghost use Rattle.toml.specs.Parse.{parse_document};
ghost use Rattle.toml.specs.View.{view, items_of, table_view, array_view};
ghost use Rattle.hack_manifest.specs.Manifest.{list_of_items};
ghost use Rattle.hack_edits.specs.DevTree.{items_left, without_texts, unless_empty, tidied_tree};
ghost use Rattle.hack_edits.specs.DevTree.{reads_as_left};
ghost use Rattle.hack_edits.specs.InternalTreeEquality.{same};
ghost use Rattle.hack_edits.specs.KeyPaths.{dev_key};
ghost use Rattle.hack_edits.specs.Tables.{remove_member, put_each, in_table, in_array};

use crate::lookup::{DEV, FEATURES, TARGET, holds_dev, value_goes};
use crate::same::same_table;
use crate::tables::{put_at, put_back, tree_of, without};
use std::alloc::{AllocError, Global};
use toml::value::Array;
use toml::{Table, Value};

/// Whether a text is read as what stays of the tree of another.
pub fn reads_as(alloc: Global, old: Table, new: &str) -> Result<bool, AllocError>
    ensures { IfOk result (λ b. b ≡ reads_as_left (table_view old) (parse_document new.now)) }
{
    match tree_of(alloc, new)? {
        Some(tree) => is_rest(alloc, old, tree),
        None => Ok(false),
    }
}

/// Whether a tree is what stays of the old one.
fn is_rest(alloc: Global, old: Table, new: Table) -> Result<bool, AllocError>
    ensures { IfOk result (λ b. b ≡ reads_as_left (table_view old) (Some (table_view new))) }
{
    if holds_dev(&new) {
        return Ok(false);
    }
    let thinned = drop_texts(alloc, old)?;
    let expected = tidy(alloc, thinned)?;
    let found = tidy(alloc, new)?;
    Ok(same_table(&expected, &found))
}

/// Returns a tree without the features' texts that are removed. Which these are is looked up in the
/// tree without its features, which says the same.
fn drop_texts(alloc: Global, old: Table) -> Result<Table, AllocError>
    ensures { IfOk result (λ t. table_view t ≡ without_texts (table_view old)) }
{
    let mut top = old;
    let features = top.remove(FEATURES);
    let kept = strip_features(alloc, &top, features)?;
    put_back(alloc, &mut top, FEATURES, kept)?;
    Ok(top)
}

/// What stays at `features`.
fn strip_features(
    alloc: Global,
    old: &Table,
    features: Option<Value>,
) -> Result<Option<Value>, AllocError>
    ensures { IfOk result (λ o. option_map view o ≡ option_and_then (λ d. Some (in_table (put_each
        (λ v. Some (in_array (items_left (table_view old.now)) v)) no_members) d))
        (option_map view features)) }
{
    let Some(value) = features else {
        return Ok(None);
    };
    match value {
        Value::Table(table) => {
            let kept = strip_arrays(alloc, old, table)?;
            Ok(Some(Value::Table(kept)))
        }
        other => Ok(Some(other)),
    }
}

/// What stays of the features.
fn strip_arrays(alloc: Global, old: &Table, features: Table) -> Result<Table, AllocError>
    ensures { IfOk result (λ kept. table_view kept
        ≡ put_each (λ d. Some (in_array (items_left (table_view old.now)) d)) no_members
        (table_view features)) }
{
    let mut kept = Table::new(alloc);
    'features: for (name, value) in features {
        let array = strip_array(alloc, old, value)?;
        put_at(&mut kept, name, array)?;
    }
    Ok(kept)
}

fn strip_array(alloc: Global, old: &Table, value: Value) -> Result<Value, AllocError>
    ensures { IfOk result (λ v. view v
        ≡ in_array (items_left (table_view old.now)) (view value)) }
{
    match value {
        Value::Array(items) => {
            let kept = kept_items(alloc, old, items)?;
            Ok(Value::Array(kept))
        }
        other => Ok(other),
    }
}

/// Returns what stays of an array: all items but the texts that are removed.
fn kept_items(alloc: Global, old: &Table, items: Array) -> Result<Array, AllocError>
    ensures { IfOk result (λ v. array_view v
        ≡ items_of (items_left (table_view old.now) (list_of_items (array_view items)))) }
{
    let mut kept = Array::new(alloc);
    for item in items {
        if !value_goes(old, &item) {
            kept.push(item)?;
        }
    }
    Ok(kept)
}

/// Returns a tree without development dependencies, and without empty tables at and under `target`.
fn tidy(alloc: Global, table: Table) -> Result<Table, AllocError>
    ensures { IfOk result (λ t. table_view t ≡ tidied_tree (table_view table)) }
{
    let mut top = without(table, DEV);
    let target = top.remove(TARGET);
    let kept = strip_target(alloc, target)?;
    put_back(alloc, &mut top, TARGET, kept)?;
    Ok(top)
}

/// What stays at `target`.
fn strip_target(alloc: Global, target: Option<Value>) -> Result<Option<Value>, AllocError>
    ensures { IfOk result (λ o. option_map view o ≡ option_and_then (λ d. unless_empty (in_table
        (put_each (λ v. unless_empty (in_table (remove_member dev_key) v)) no_members) d))
        (option_map view target)) }
{
    let Some(value) = target else {
        return Ok(None);
    };
    match value {
        Value::Table(targets) => {
            let kept = strip_targets(alloc, targets)?;
            Ok(filled(Value::Table(kept)))
        }
        other => Ok(filled(other)),
    }
}

/// What stays of `target`.
fn strip_targets(alloc: Global, targets: Table) -> Result<Table, AllocError>
    ensures { IfOk result (λ kept. table_view kept
        ≡ put_each (λ d. unless_empty (in_table (remove_member dev_key) d)) no_members
        (table_view targets)) }
{
    let mut kept = Table::new(alloc);
    'targets: for (name, value) in targets {
        put_back(alloc, &mut kept, &name, filled(strip(value)))?;
    }
    Ok(kept)
}

/// What stays of `target.X`.
fn strip(value: Value) -> Value
    ensures { view result ≡ in_table (remove_member dev_key) (view value) }
{
    match value {
        Value::Table(table) => Value::Table(without(table, DEV)),
        other => other,
    }
}

/// A value, unless it is an empty table.
fn filled(value: Value) -> Option<Value>
    ensures { option_map view result ≡ unless_empty (view value) }
{
    if is_empty(&value) { None } else { Some(value) }
}

fn is_empty(value: &Value) -> bool
    ensures { result ≡ same (view value.now) (table no_members) }
{
    match value {
        Value::Table(table) => table.is_empty(),
        _ => false,
    }
}
