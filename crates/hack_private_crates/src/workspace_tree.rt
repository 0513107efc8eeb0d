//! The tree of a manifest whose workspace is without private crates, and whether a text is read as
//! that.

ghost use Rattle.std.specs.Prelude.{◌≡◌, ◌++◌, map, IfOk, Some, option_and_then, option_map};
ghost use Rattle.toml.specs.Data.{string};
ghost use Rattle.toml.specs.View.{view, items_of, table_view, array_view};
ghost use Rattle.hack_manifest.specs.Manifest.{list_of_items};
ghost use Rattle.hack_private_crates.specs.Exclude.{is_read_as};
ghost use Rattle.hack_edits.specs.Lookup.{items_in};
ghost use Rattle.hack_base.specs.PathTexts.{parent_of};
ghost use Rattle.hack_base.specs.Names.{names_behind};
ghost use Rattle.hack_private_crates.specs.Members.{members_left};
ghost use Rattle.hack_edits.specs.KeyPaths.{members_key};
ghost use Rattle.hack_edits.specs.Tables.{with_changed, in_table, in_array};
ghost use Rattle.hack_private_crates.specs.WorkspaceTree.{with_exclude, workspace_left, tree_left};

use crate::exclude::has_paths;
use crate::members::{MEMBERS, Private, chosen, value_led, value_unled};
use hack_base::paths::parent;
use hack_edits::same::same_table;
use hack_edits::tables::{put_at, put_back, tree_of};
use std::alloc::{AllocError, Global};
use toml::value::Array;
use toml::{Table, Value};

/// The key of the table of a workspace.
pub const WORKSPACE: &str = "workspace";

/// The key of the array of folders that are no members of a workspace.
pub const EXCLUDE: &str = "exclude";

/// Whether a text is read as the tree that is expected.
pub fn reads_as_expected(
    alloc: Global,
    private: &Private<'_>,
    old: Table,
    new: &str,
) -> Result<bool, AllocError>
    ensures { IfOk result (λ b. b ≡ is_read_as (tree_left private.now.root.now
        (names_behind private.now.paths.now) (table_view old)) new.now) }
{
    match tree_of(alloc, new)? {
        Some(tree) => {
            let expected = expected_tree(alloc, private, old)?;
            Ok(same_table(&expected, &tree))
        }
        None => Ok(false),
    }
}

/// The tree that is expected.
fn expected_tree(alloc: Global, private: &Private<'_>, table: Table) -> Result<Table, AllocError>
    ensures { IfOk result (λ t. table_view t
        ≡ tree_left private.now.root.now (names_behind private.now.paths.now) (table_view table)) }
{
    let mut top = table;
    let workspace = top.remove(WORKSPACE);
    let expected = expected_value(alloc, private, workspace)?;
    put_back(alloc, &mut top, WORKSPACE, expected)?;
    Ok(top)
}

/// What is expected at `workspace`.
fn expected_value(
    alloc: Global,
    private: &Private<'_>,
    value: Option<Value>,
) -> Result<Option<Value>, AllocError>
    ensures { IfOk result (λ o. option_map view o ≡ option_and_then
        (λ d. Some (in_table (workspace_left private.now.root.now
        (names_behind private.now.paths.now)) d)) (option_map view value)) }
{
    let Some(value) = value else {
        return Ok(None);
    };
    match value {
        Value::Table(workspace) => {
            let left = expected_workspace(alloc, private, workspace)?;
            Ok(Some(Value::Table(left)))
        }
        other => Ok(Some(other)),
    }
}

/// The workspace that is expected.
fn expected_workspace(
    alloc: Global,
    private: &Private<'_>,
    workspace: Table,
) -> Result<Table, AllocError>
    ensures { IfOk result (λ t. table_view t
        ≡ workspace_left private.now.root.now
        (names_behind private.now.paths.now) (table_view workspace)) }
{
    let choice = chosen(alloc, private, &workspace)?;
    let kept = keep_members(alloc, private, workspace)?;
    put_exclude(alloc, choice.paths.as_slice(), kept)
}

/// A workspace with the members that stay.
fn keep_members(alloc: Global, private: &Private<'_>, workspace: Table) -> Result<Table, AllocError>
    ensures { IfOk result (λ t. table_view t ≡ with_changed members_key
        (λ d. Some (in_array (members_left private.now.root.now
        (names_behind private.now.paths.now)) d)) (table_view workspace)) }
{
    let mut all = workspace;
    let members = all.remove(MEMBERS);
    let kept = members_of(alloc, private, members)?;
    put_back(alloc, &mut all, MEMBERS, kept)?;
    Ok(all)
}

/// What stays at `members`.
fn members_of(
    alloc: Global,
    private: &Private<'_>,
    value: Option<Value>,
) -> Result<Option<Value>, AllocError>
    ensures { IfOk result (λ o. option_map view o ≡ option_and_then
        (λ d. Some (in_array (members_left private.now.root.now
        (names_behind private.now.paths.now)) d)) (option_map view value)) }
{
    match value {
        Some(Value::Array(items)) => {
            let kept = kept_members(alloc, private, items)?;
            Ok(Some(Value::Array(kept)))
        }
        other => Ok(other),
    }
}

/// The members that stay.
fn kept_members(alloc: Global, private: &Private<'_>, items: Array) -> Result<Array, AllocError>
    ensures { IfOk result (λ v. array_view v ≡ items_of (members_left private.now.root.now
        (names_behind private.now.paths.now) (list_of_items (array_view items)))) }
{
    let mut left = Vec::from_slice(alloc, private.paths)?;
    let mut kept = Array::new(alloc);
    for item in items {
        let led = value_led(alloc, private.root, &item, left.as_slice())?;
        left = value_unled(alloc, private.root, &item, left.as_slice())?;
        if !led {
            kept.push(item)?;
        }
    }
    Ok(kept)
}

/// A workspace with the folders of paths to exclude.
fn put_exclude(alloc: Global, paths: &[&str], workspace: Table) -> Result<Table, AllocError>
    ensures { IfOk result (λ t. table_view t
        ≡ with_exclude (map parent_of (names_behind paths.now)) (table_view workspace)) }
{
    if !has_paths(paths) {
        return Ok(workspace);
    }
    let mut all = workspace;
    let old = all.remove(EXCLUDE);
    let items = push_folders(alloc, into_items(alloc, old), paths)?;
    let key = String::from_str(alloc, EXCLUDE)?;
    put_at(&mut all, key, Value::Array(items))?;
    Ok(all)
}

/// The items of a value that is an array, else none.
fn into_items(alloc: Global, value: Option<Value>) -> Array
    ensures { list_of_items (array_view result) ≡ items_in (option_map view value) }
{
    match value {
        Some(found) => match found {
            Value::Array(items) => items,
            _ => Array::new(alloc),
        },
        None => Array::new(alloc),
    }
}

/// Appends the folders of paths to items.
fn push_folders(alloc: Global, items: Array, paths: &[&str]) -> Result<Array, AllocError>
    ensures { IfOk result (λ a. list_of_items (array_view a) ≡ list_of_items (array_view items)
        ++ map string (map parent_of (names_behind paths.now))) }
{
    let mut all = items;
    for path in paths {
        let folder = String::from_str(alloc, parent(path))?;
        all.push(Value::String(folder))?;
    }
    Ok(all)
}
