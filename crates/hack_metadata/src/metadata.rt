//! What `cargo metadata` reports of a workspace: its records, read from JSON.

ghost use Rattle.std.specs.Prelude.{◌≡◌, ◌<◌, ◌==◌, ◌++◌, ◌∷◌, [], ℕ, true};
ghost use Rattle.std.specs.Prelude.{IfOk, OnOk, Some, codes, if◌then◌else◌, length, map, slice_get};
ghost use Rattle.std.specs.Prelude.{option_copied, option_map};
ghost use Rattle.std.specs.BTreeSet.{contains};
ghost use Rattle.std.specs.Ordering.{nat_cmp};
ghost use Rattle.serde_json.specs.View.{view, items_view, members_view};
ghost use Rattle.hack_metadata.specs.Fields.{read_all, nullable_in};
ghost use Rattle.hack_base.specs.FieldReadings.{◌>>=◌ as ◌≫=◌};
ghost use Rattle.hack_metadata.specs.FieldResults.{KeepsOtherFields, ReturnsField};
ghost use Rattle.hack_metadata.specs.MetadataReading.{read_metadata, read_behind, read_member};
ghost use Rattle.hack_metadata.specs.MetadataReading.{workspace_members_in, read_resolve};
ghost use Rattle.hack_metadata.specs.MetadataReading.{place_of, distinct};
ghost use Rattle.hack_metadata.specs.KnownIds.{are_known};
ghost use Rattle.hack_metadata.specs.Internal.{Bounds, place_in};
ghost use Rattle.hack_metadata.specs.Records.{node_at};
ghost use Rattle.hack_metadata.specs.RecordViews.{package_view, node_view, nodes_view, place_at};

pub(crate) mod fault;
pub(crate) mod object;
pub(crate) mod package;
pub(crate) mod resolve;
pub(crate) mod rules;

pub use crate::ask::fault::AskFault;
pub use crate::metadata::fault::MetadataFault;
use crate::metadata::object::take_text;
pub use crate::metadata::object::{Object, ObjectExt, object_of};
pub use crate::metadata::package::{Dependency, OptionalDeps, Package};
use crate::metadata::resolve::known_package;
pub use crate::metadata::resolve::{DepKindInfo, Node, NodeDep, PackageId, Resolve};
pub use crate::metadata::rules::RulesTable;
use crate::metadata::rules::remove_rules;
use serde_json::Value;
use std::alloc::{AllocError, Global};
use std::collections::{BTreeMap, BTreeSet};

/// What cargo reports of a workspace.
#[derive(Drop)]
pub struct Metadata {
    /// The minor version of the cargo that reported it.
    pub cargo_version: u32,
    /// The packages of the workspace, and those that they depend on where these were asked for.
    pub packages: Vec<Package>,
    /// The members of the workspace, each once.
    pub workspace_members: Vec<PackageId>,
    /// What each package depends on.
    pub resolve: Resolve,
    /// The absolute path of the folder of the workspace.
    pub workspace_root: String,
    /// The absolute path of the folder that cargo builds into, where cargo says it.
    pub target_directory: Option<String>,
    /// The rules of the workspace, or the key of its table that is wrong.
    pub rules: Result<RulesTable, String>,
    // Each id is that of a package.
    ghost known: { are_known (length packages.items) (map place_at workspace_members.items)
        (nodes_view resolve.nodes) ≡ true },
}

impl Metadata {
    ghost use Rattle.hack_metadata.specs.MetadataView.{metadata_view};

    /// Reads the object that `cargo metadata` prints; `cargo_version` is the minor version of that
    /// cargo, since some fields came with a later one. A member that is named again counts once, at
    /// its first place.
    pub fn from_obj(
        alloc: Global,
        mut object: Object,
        cargo_version: u32,
    ) -> Result<Metadata, MetadataFault>
        ensures { ReturnsField metadata_view result
            (read_metadata cargo_version (members_view object.entries)) }
    {
        let list = object.remove_array("packages")?;
        let packages = Package::all_from(alloc, list, cargo_version)?;
        let ids = places_of(alloc, packages.as_slice())?;
        Metadata::with_packages(alloc, object, packages, &ids, cargo_version)
    }

    /// Returns the metadata with these packages. The other fields are read here, after them.
    fn with_packages(
        alloc: Global,
        mut object: Object,
        packages: Vec<Package>,
        ids: &BTreeMap<String, PackageId>,
        cargo_version: u32,
    ) -> Result<Metadata, MetadataFault>
        requires { Bounds (place_in ids.now) (length packages.items) }
        ensures { ReturnsField metadata_view result (read_behind cargo_version
            (map package_view packages.items) (place_in ids.now) (members_view object.entries)) }
    {
        let workspace_members = remove_members(alloc, &mut object, ids)?;
        let resolve = remove_resolve(alloc, &mut object, ids, cargo_version)?;
        let workspace_root = object.remove_string("workspace_root")?;
        let target_directory = take_text(&mut object, "target_directory");
        let rules = remove_rules(alloc, &mut object)?;
        Ok(Metadata {
            cargo_version,
            packages,
            workspace_members,
            resolve,
            workspace_root,
            target_directory,
            rules,
        })
    }

    /// Returns the package that an id means. The id has to come from these metadata.
    pub fn get(&self, id: PackageId) -> &Package
        requires { id.index < length self.now.packages.items }
        ensures { slice_get self.now.packages.items id.index ≡ Some result.now }
    {
        &self.packages[id.index]
    }

    /// Returns the package at the index of an id. None where there are fewer packages.
    pub fn find(&self, id: PackageId) -> Option<&Package>
        ensures { option_copied result ≡ slice_get self.now.packages.items id.index }
    {
        self.packages.get(id.index)
    }

    /// Returns the node of a package in the graph of dependencies, if there is one.
    pub fn node(&self, id: PackageId) -> Option<&Node>
        ensures { option_map (λ node. node_view node.now) result
            ≡ node_at (nodes_view self.now.resolve.nodes) id.index }
    {
        self.resolve.nodes.get(&id)
    }
}

/// Returns which package each id means: of several packages with one id the last.
fn places_of(alloc: Global, packages: &[Package]) -> Result<BTreeMap<String, PackageId>, AllocError>
    ensures { IfOk result (λ ids. place_in ids
        ≡ place_of (map package_view packages.now)) }
{
    let mut ids = BTreeMap::new(alloc);
    for (index, package) in packages.iter().enumerate() {
        ids.insert(package.id.clone()?, PackageId { index })?;
    }
    Ok(ids)
}

/// Takes the graph of dependencies out.
fn remove_resolve(
    alloc: Global,
    object: &mut Object,
    ids: &BTreeMap<String, PackageId>,
    cargo_version: u32,
) -> Result<Resolve, MetadataFault>
    ensures value { ReturnsField (λ r. nodes_view r.nodes) result
        (nullable_in (codes "resolve") (members_view object.old.entries)
        ≫= read_resolve (place_in ids.now) cargo_version) }
    ensures others { KeepsOtherFields (codes "resolve") (members_view object.old.entries)
        (members_view object.new.entries) }
{
    let value = object.remove_nullable("resolve")?;
    Resolve::from_value(alloc, value, ids, cargo_version)
}

/// Takes the members of the workspace out, each once.
fn remove_members(
    alloc: Global,
    object: &mut Object,
    ids: &BTreeMap<String, PackageId>,
) -> Result<Vec<PackageId>, MetadataFault>
    ensures value { ReturnsField (λ members. map place_at members.items) result
        (workspace_members_in (place_in ids.now) (members_view object.old.entries)) }
    ensures others { KeepsOtherFields (codes "workspace_members") (members_view object.old.entries)
        (members_view object.new.entries) }
{
    let list = object.remove_array("workspace_members")?;
    let members = members_from(alloc, list, ids)?;
    Ok(distinct(alloc, members.as_slice())?)
}

/// Reads the members of the workspace, in the order of the list, with all repeats.
fn members_from(
    alloc: Global,
    list: Vec<Value>,
    ids: &BTreeMap<String, PackageId>,
) -> Result<Vec<PackageId>, MetadataFault>
    ensures { ReturnsField (λ members. map place_at members.items) result
        (read_all (read_member (place_in ids.now)) (items_view list.items)) }
{
    let mut members = Vec::new(alloc);
    for value in list {
        members.push(member_of(value, ids)?)?;
    }
    Ok(members)
}

/// Reads the member that an element names.
fn member_of(value: Value, ids: &BTreeMap<String, PackageId>) -> Result<PackageId, MetadataFault>
    ensures { ReturnsField place_at result (read_member (place_in ids.now) (view value)) }
{
    match value {
        Value::String(id) => known_package(ids, id.as_str(), "workspace_members"),
        _ => Err(MetadataFault::Field("workspace_members")),
    }
}

/// Returns the ids, each once, at its first place.
fn distinct(alloc: Global, ids: &[PackageId]) -> Result<Vec<PackageId>, AllocError>
    ensures { IfOk result (λ kept. map place_at kept.items ≡ distinct ◌==◌ (map place_at ids.now)) }
{
    let mut seen = BTreeSet::new(alloc);
    let mut kept = Vec::new(alloc);
    for id in ids {
        keep(&mut kept, &mut seen, *id)?;
    }
    Ok(kept)
}

/// Adds an id after the others, unless it was seen before.
fn keep(
    kept: &mut Vec<PackageId>,
    seen: &mut BTreeSet<usize>,
    id: PackageId,
) -> Result<(), AllocError>
    ensures kept { OnOk result (map place_at kept.new.items
        ≡ (if contains nat_cmp seen.old id.index then map place_at kept.old.items
        else map place_at kept.old.items ++ id.index ∷ [])) }
    ensures seen { OnOk result ((y : ℕ) → contains nat_cmp seen.new y
        ≡ (if id.index == y then true else contains nat_cmp seen.old y)) }
{
    if !seen.insert(id.index)? {
        return Ok(());
    }
    kept.push(id)?;
    Ok(())
}
