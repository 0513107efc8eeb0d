//! The ids of packages, and the graph of dependencies as cargo resolved it.

ghost use Rattle.std.specs.Prelude.{◌≡◌, ◌<◌, ◌↔◌, [], Ok, codes, map, fold, option_map};
ghost use Rattle.std.specs.declared.cmp.Ordering.{Ordering};
ghost use Rattle.std.specs.declared.cmp.Ordering.TheVariants.{Less, Equal, Greater};
ghost use Rattle.std.specs.Option.{ok_or};
ghost use Rattle.hack_metadata.specs.RecordViews.{place_bytes, place_at, kind_view, node_dep_view};
ghost use Rattle.hack_metadata.specs.RecordViews.{node_view, nodes_view};
ghost use Rattle.serde_json.specs.View.{view, items_view, members_view};
ghost use Rattle.hack_metadata.specs.Fields.{read_all, array_in};
ghost use Rattle.hack_base.specs.FieldReadings.{◌>>=◌ as ◌≫=◌};
ghost use Rattle.hack_metadata.specs.FieldResults.{ReturnsField};
ghost use Rattle.hack_metadata.specs.MetadataReading.{read_from, read_kind, read_node_dep};
ghost use Rattle.hack_metadata.specs.MetadataReading.{read_node, with_nodes, read_resolve};
ghost use Rattle.hack_metadata.specs.Internal.{place_in};

use crate::metadata::fault::MetadataFault;
use crate::metadata::object::{Object, ObjectExt, element, remove_text};
use serde_json::Value;
use std::alloc::Global;
use std::cmp::Ordering;
use std::collections::BTreeMap;
use std::hash::{Hash, Hasher};

/// The id of a package: its index among the packages of the metadata. It is of use only with the
/// metadata that it comes from.
#[derive(Clone, Copy, PartialEq, Eq, PartialOrd, Ord, Hash)]
pub struct PackageId {
    pub(crate) index: usize,
}

impl PackageId {
    /// Compares two ids as `cmp` does: by the order of the packages in the metadata.
    pub fn compare(self, other: PackageId) -> Ordering
        ensures before { (result ≡ Ordering.Less) ↔ (self.index < other.index) }
        ensures equal { (result ≡ Ordering.Equal) ↔ (self ≡ other) }
        ensures behind { (result ≡ Ordering.Greater) ↔ (other.index < self.index) }
    {
        self.cmp(&other)
    }

    /// Gives the id to a hasher, as `hash` does: its index alone, so equal ids hash equally.
    pub fn feed<H: Hasher>(self, state: &mut H)
        ensures { state.new ≡ fold H.write state.old (place_bytes self.index) }
    {
        self.hash(state);
    }
}

/// Returns the package with this id as a text. Where there is none, the error names the field.
pub(crate) fn known_package(
    ids: &BTreeMap<String, PackageId>,
    id: &str,
    field: &'static str,
) -> Result<PackageId, MetadataFault>
    ensures { ReturnsField place_at result (ok_or (place_in ids.now id.now) field.now) }
{
    match ids.get(id) {
        Some(id) => Ok(*id),
        None => Err(MetadataFault::Field(field)),
    }
}

/// How a package depends on another one.
#[derive(Drop)]
pub struct DepKindInfo {
    /// None for a normal dependency, else `build` or `dev`.
    pub kind: Option<String>,
    /// The target that the dependency is for. None where it is for all.
    pub target: Option<String>,
}

impl DepKindInfo {
    fn from_value(value: Value) -> Result<DepKindInfo, MetadataFault>
        ensures { ReturnsField kind_view result (read_kind (view value)) }
    {
        let mut map = element(value, "dep_kinds")?;
        let kind = remove_text(&mut map, "kind")?;
        let target = remove_text(&mut map, "target")?;
        Ok(DepKindInfo { kind, target })
    }

    fn all_from(alloc: Global, list: Vec<Value>) -> Result<Vec<DepKindInfo>, MetadataFault>
        ensures { ReturnsField (λ found. map kind_view found.items) result
            (read_all read_kind (items_view list.items)) }
    {
        let mut found = Vec::new(alloc);
        for value in list {
            found.push(DepKindInfo::from_value(value)?)?;
        }
        Ok(found)
    }
}

/// Takes out the kinds of a dependency, which cargo reports from 1.41 on.
fn remove_kinds(
    alloc: Global,
    object: &mut Object,
    cargo_version: u32,
) -> Result<Vec<DepKindInfo>, MetadataFault>
    ensures { ReturnsField (λ found. map kind_view found.items) result
        (read_from 41 cargo_version []
        (array_in (codes "dep_kinds") (members_view object.old.entries) ≫= read_all read_kind)) }
{
    if cargo_version < 41 {
        return Ok(Vec::new(alloc));
    }
    DepKindInfo::all_from(alloc, object.remove_array("dep_kinds")?)
}

/// A dependency of a node.
#[derive(Drop)]
pub struct NodeDep {
    /// The package that is depended on.
    pub pkg: PackageId,
    /// How it is depended on. Empty below cargo 1.41.
    pub dep_kinds: Vec<DepKindInfo>,
}

impl NodeDep {
    fn from_value(
        alloc: Global,
        value: Value,
        ids: &BTreeMap<String, PackageId>,
        cargo_version: u32,
    ) -> Result<NodeDep, MetadataFault>
        ensures { ReturnsField node_dep_view result
            (read_node_dep (place_in ids.now) cargo_version (view value)) }
    {
        let mut map = element(value, "deps")?;
        let id = map.remove_string("pkg")?;
        let pkg = known_package(ids, id.as_str(), "pkg")?;
        let dep_kinds = remove_kinds(alloc, &mut map, cargo_version)?;
        Ok(NodeDep { pkg, dep_kinds })
    }

    fn all_from(
        alloc: Global,
        list: Vec<Value>,
        ids: &BTreeMap<String, PackageId>,
        cargo_version: u32,
    ) -> Result<Vec<NodeDep>, MetadataFault>
        ensures { ReturnsField (λ found. map node_dep_view found.items) result
            (read_all (read_node_dep (place_in ids.now) cargo_version) (items_view list.items)) }
    {
        let mut found = Vec::new(alloc);
        for value in list {
            found.push(NodeDep::from_value(alloc, value, ids, cargo_version)?)?;
        }
        Ok(found)
    }
}

/// Takes out the dependencies of a node, which cargo reports from 1.30 on.
fn remove_deps(
    alloc: Global,
    object: &mut Object,
    ids: &BTreeMap<String, PackageId>,
    cargo_version: u32,
) -> Result<Vec<NodeDep>, MetadataFault>
    ensures { ReturnsField (λ found. map node_dep_view found.items) result
        (read_from 30 cargo_version [] (array_in (codes "deps") (members_view object.old.entries)
        ≫= read_all (read_node_dep (place_in ids.now) cargo_version))) }
{
    if cargo_version < 30 {
        return Ok(Vec::new(alloc));
    }
    NodeDep::all_from(alloc, object.remove_array("deps")?, ids, cargo_version)
}

/// What a package depends on, as it was resolved.
#[derive(Drop)]
pub struct Node {
    /// Empty below cargo 1.30.
    pub deps: Vec<NodeDep>,
}

impl Node {
    /// Reads a node and its package, which is looked up after the node's dependencies.
    fn from_value(
        alloc: Global,
        value: Value,
        ids: &BTreeMap<String, PackageId>,
        cargo_version: u32,
    ) -> Result<(PackageId, Node), MetadataFault>
        ensures { ReturnsField (λ n. (n.0.index, node_view n.1)) result
            (read_node (place_in ids.now) cargo_version (view value)) }
    {
        let mut map = element(value, "nodes")?;
        let id = map.remove_string("id")?;
        let deps = remove_deps(alloc, &mut map, ids, cargo_version)?;
        let package = known_package(ids, id.as_str(), "id")?;
        Ok((package, Node { deps }))
    }
}

/// The graph of dependencies of a workspace.
#[derive(Drop)]
pub struct Resolve {
    /// The nodes by their packages. Empty where cargo was asked without dependencies.
    pub nodes: BTreeMap<PackageId, Node>,
}

impl Resolve {
    /// Reads what `resolve` holds: no nodes where it is null.
    pub(crate) fn from_value(
        alloc: Global,
        value: Option<Value>,
        ids: &BTreeMap<String, PackageId>,
        cargo_version: u32,
    ) -> Result<Resolve, MetadataFault>
        ensures { ReturnsField (λ r. nodes_view r.nodes) result
            (read_resolve (place_in ids.now) cargo_version (option_map view value)) }
    {
        let Some(value) = value else {
            return Ok(Resolve {
                nodes: BTreeMap::new(alloc),
            });
        };
        let mut map = element(value, "resolve")?;
        let list = map.remove_array("nodes")?;
        let nodes = nodes_from(alloc, list, ids, cargo_version)?;
        Ok(Resolve { nodes })
    }
}

/// Reads the nodes of a list. Of two nodes of one package the last one is kept.
fn nodes_from(
    alloc: Global,
    list: Vec<Value>,
    ids: &BTreeMap<String, PackageId>,
    cargo_version: u32,
) -> Result<BTreeMap<PackageId, Node>, MetadataFault>
    ensures { ReturnsField nodes_view result
        (read_all (read_node (place_in ids.now) cargo_version) (items_view list.items)
        ≫= λ nodes. Ok (with_nodes [] nodes)) }
{
    let mut nodes = BTreeMap::new(alloc);
    for value in list {
        let (package, node) = Node::from_value(alloc, value, ids, cargo_version)?;
        nodes.insert(package, node)?;
    }
    Ok(nodes)
}
