//! Which members of a workspace are private crates, and which private crates no member's text leads
//! to.

ghost use Rattle.std.specs.Prelude.{◌≡◌, false, not, codes, filter, fold, IfOk, OnOk, string_bytes};
ghost use Rattle.std.specs.List.{list_any};
ghost use Rattle.hack_base.specs.Names.{Name, names_behind};
ghost use Rattle.std.specs.BTreeSet.{insert_key};
ghost use Rattle.std.specs.Cmp.Lexicographic.{slice_cmp};
ghost use Rattle.std.specs.Ordering.{nat_cmp};
ghost use Rattle.toml.specs.Data.{get_member};
ghost use Rattle.hack_base.specs.PathTexts.{join_of, normal_of};
ghost use Rattle.hack_manifest.specs.Manifest.{list_of_items};
ghost use Rattle.toml.specs.View.{view, table_view, array_view};
ghost use Rattle.hack_edits.specs.KeyPaths.{members_key};
ghost use Rattle.hack_private_crates.specs.Members.{in_order, leads, item_led, unled_by};
ghost use Rattle.hack_edits.specs.Lookup.{items_in};

use hack_base::paths::{join, normal};
use hack_manifest::lookup::value_at;
use std::alloc::{AllocError, Global};
use std::collections::BTreeSet;
use toml::value::Array;
use toml::{Table, Value};

/// The key of the array of a workspace's members.
pub const MEMBERS: &str = "members";

/// The paths in byte order, each once.
pub fn in_order<'a>(alloc: Global, paths: &[&'a str]) -> Result<Vec<&'a str>, AllocError>
    ensures { IfOk result (λ all. names_behind all.items ≡ in_order (names_behind paths.now)) }
{
    let mut all = Vec::new(alloc);
    for path in sorted_set(alloc, paths)? {
        all.push(path)?;
    }
    Ok(all)
}

/// The paths as a set.
fn sorted_set<'a>(alloc: Global, paths: &[&'a str]) -> Result<BTreeSet<&'a str>, AllocError>
    ensures { IfOk result (λ set. names_behind set.keys ≡ in_order (names_behind paths.now)) }
{
    let mut set = BTreeSet::new(alloc);
    for path in paths {
        put_sorted(&mut set, *path)?;
    }
    Ok(set)
}

/// Puts a path into a set.
fn put_sorted<'a>(set: &mut BTreeSet<&'a str>, path: &'a str) -> Result<(), AllocError>
    ensures { OnOk result
        (names_behind set.new.keys ≡ insert_key (slice_cmp nat_cmp)
        (names_behind set.old.keys) path.now) }
{
    set.insert(path)?;
    Ok(())
}

/// The private crates of a workspace.
#[derive(Drop)]
pub struct Private<'a> {
    /// The folder of the workspace.
    pub root: &'a str,
    /// The paths of their manifests.
    pub paths: &'a [&'a str],
}

/// Which members are removed, and which paths have to be excluded.
#[derive(Drop)]
pub struct Choice<'a> {
    /// Which items of the array are removed.
    pub goes: Vec<bool>,
    /// Whether some are.
    pub some: bool,
    /// The paths to which no item leads.
    pub paths: Vec<&'a str>,
}

/// Returns which members of a workspace are removed, and which paths have to be excluded.
pub fn chosen<'a>(
    alloc: Global,
    private: &Private<'a>,
    workspace: &Table,
) -> Result<Choice<'a>, AllocError>
    ensures some { IfOk result (λ c. c.some
        ≡ list_any (item_led private.now.root.now (names_behind private.now.paths.now))
        (items_in (get_member members_key (table_view workspace.now)))) }
    ensures paths { IfOk result (λ c. names_behind c.paths.items
        ≡ fold (unled_by private.now.root.now) (names_behind private.now.paths.now)
        (items_in (get_member members_key (table_view workspace.now)))) }
{
    match value_at(workspace, MEMBERS) {
        Some(value) => match value {
            Value::Array(items) => choose(alloc, private, items),
            _ => no_choice(alloc, private.paths),
        },
        None => no_choice(alloc, private.paths),
    }
}

/// Returns the same for the items of the members.
fn choose<'a>(alloc: Global, private: &Private<'a>, items: &Array) -> Result<Choice<'a>, AllocError>
    ensures some { IfOk result (λ c. c.some ≡ list_any (item_led private.now.root.now
        (names_behind private.now.paths.now)) (list_of_items (array_view items.now))) }
    ensures paths { IfOk result (λ c. names_behind c.paths.items ≡ fold
        (unled_by private.now.root.now)
        (names_behind private.now.paths.now) (list_of_items (array_view items.now))) }
{
    let mut goes = Vec::new(alloc);
    let mut some = false;
    let mut left = Vec::from_slice(alloc, private.paths)?;
    'items: for item in items {
        let led = value_led(alloc, private.root, item, left.as_slice())?;
        goes.push(led)?;
        some |= led;
        left = value_unled(alloc, private.root, item, left.as_slice())?;
    }
    Ok(Choice {
        goes,
        some,
        paths: left,
    })
}

/// Returns the choice where there are no members: none is removed, and no path is led to.
fn no_choice<'a>(alloc: Global, paths: &[&'a str]) -> Result<Choice<'a>, AllocError>
    ensures some { IfOk result (λ c. c.some ≡ false) }
    ensures paths { IfOk result (λ c. names_behind c.paths.items ≡ names_behind paths.now) }
{
    let left = Vec::from_slice(alloc, paths)?;
    Ok(Choice {
        goes: Vec::new(alloc),
        some: false,
        paths: left,
    })
}

/// Whether an item is a text that leads to some path.
pub fn value_led(
    alloc: Global,
    root: &str,
    item: &Value,
    paths: &[&str],
) -> Result<bool, AllocError>
    ensures { IfOk result (λ b. b ≡ item_led root.now (names_behind paths.now) (view item.now)) }
{
    match item {
        Value::String(member) => leads_to_any(alloc, root, member.as_str(), paths),
        _ => Ok(false),
    }
}

/// The paths to which an item doesn't lead.
pub fn value_unled<'a>(
    alloc: Global,
    root: &str,
    item: &Value,
    paths: &[&'a str],
) -> Result<Vec<&'a str>, AllocError>
    ensures { IfOk result (λ left. names_behind left.items
        ≡ unled_by root.now (names_behind paths.now) (view item.now)) }
{
    match item.as_str() {
        Some(member) => not_led(alloc, root, member, paths),
        None => Vec::from_slice(alloc, paths),
    }
}

/// Whether a member's text leads to some path.
fn leads_to_any(alloc: Global, root: &str, member: &str, paths: &[&str]) -> Result<bool, AllocError>
    ensures { IfOk result (λ b. b ≡ list_any (leads root.now member.now) (names_behind paths.now)) }
{
    if paths.is_empty() {
        return Ok(false);
    }
    let manifest = manifest_of(alloc, root, member)?;
    for path in paths {
        if leads_to(alloc, manifest.as_str(), path)? {
            return Ok(true);
        }
    }
    Ok(false)
}

/// The paths to which a member's text doesn't lead.
fn not_led<'a>(
    alloc: Global,
    root: &str,
    member: &str,
    paths: &[&'a str],
) -> Result<Vec<&'a str>, AllocError>
    ensures { IfOk result (λ left. names_behind left.items
        ≡ filter (λ path. not (leads root.now member.now path)) (names_behind paths.now)) }
{
    let mut left = Vec::new(alloc);
    if paths.is_empty() {
        return Ok(left);
    }
    let manifest = manifest_of(alloc, root, member)?;
    for path in paths {
        if !leads_to(alloc, manifest.as_str(), path)? {
            left.push(*path)?;
        }
    }
    Ok(left)
}

/// The manifest that a member's text leads to, as a path without detours.
fn manifest_of(alloc: Global, root: &str, member: &str) -> Result<String, AllocError>
    ensures { IfOk result (λ s. string_bytes s
        ≡ normal_of (join_of (join_of root.now member.now) (codes "Cargo.toml"))) }
{
    let folder = join(alloc, root, member)?;
    let manifest = join(alloc, folder.as_str(), "Cargo.toml")?;
    let found = normal(alloc, manifest.as_str())?;
    Ok(found)
}

/// Returns whether a manifest to which a member's text leads is the one at a path.
fn leads_to(alloc: Global, manifest: &str, path: &str) -> Result<bool, AllocError>
    ensures { IfOk result (λ b. (root member : Name)
        → manifest.now ≡ normal_of (join_of (join_of root member) (codes "Cargo.toml"))
        → b ≡ leads root member path.now) }
{
    let wanted = normal(alloc, path)?;
    Ok(manifest == wanted.as_str())
}
