//! The features of a package that sets are made of: its own, its optional dependencies, and those
//! of its dependencies. <https://doc.rust-lang.org/cargo/reference/features.html>

ghost use Rattle.std.specs.Prelude.{◌≡◌, ◌↔◌, map, Contains, IfErr, IfOk, IsTrue, OnOk};
ghost use Rattle.std.specs.Prelude.{◌++◌, codes, option_copied, unwrap_or};
ghost use Rattle.std.specs.List.{AllZip, list_any};
ghost use Rattle.hack_features.specs.Feature.{IsNormal, IsPath};
ghost use Rattle.std.specs.Map.{keys_of};
ghost use Rattle.std.specs.Str.{bytes_eq};
ghost use Rattle.hack_routes.specs.FeatureMap.{feature_map};
ghost use Rattle.hack_base.specs.Names.{names_of};
ghost use Rattle.hack_load.specs.Candidates.{MissesNode, optional_names, node_paths, deps_paths};
ghost use Rattle.hack_load.specs.Candidates.{is_named, is_normal, paths_to, paths_in, paths_at};
ghost use Rattle.hack_load.specs.Candidates.{is_implicit, name_among_dependencies, dependencies_at};
ghost use Rattle.hack_load.specs.Internal.{AddsPaths};
ghost use Rattle.hack_load.specs.Features.{AreCandidates, IsNodeRefusal, IsRising, texts_of};
ghost use Rattle.hack_load.specs.Features.{candidate_names_in};
ghost use Rattle.hack_metadata.specs.RecordViews.{dependency_view, kind_view, node_dep_view};
ghost use Rattle.hack_metadata.specs.RecordViews.{node_view, package_view};
ghost use Rattle.hack_metadata.specs.MetadataView.{metadata_view};

use hack_features::feature::Feature;
use hack_manifest::manifest::Manifest;
use hack_metadata::metadata::{
    DepKindInfo, Dependency, Metadata, MetadataFault, Node, NodeDep, Package, PackageId,
};
use std::alloc::{AllocError, Global};
use std::collections::BTreeMap;

/// The features of a package.
#[derive(Drop)]
pub struct Features {
    normal: Vec<Feature>,
    optional_deps: Vec<Feature>,
    deps_features: Vec<Feature>,
}

impl Features {
    /// Collects the features of a package, whose manifest is given. Those of its dependencies are
    /// included where `include_deps_features` is true. Then its node must be there, or else the
    /// error names `nodes`.
    pub fn new(
        alloc: Global,
        metadata: &Metadata,
        manifest: &Manifest,
        id: PackageId,
        include_deps_features: bool,
    ) -> Result<Features, MetadataFault>
        ensures ok { IfOk result (AreCandidates (metadata_view metadata.now)
            (feature_map manifest.now.features) id.index include_deps_features) }
        ensures err { IfErr result
            (IsNodeRefusal (metadata_view metadata.now) id.index include_deps_features) }
        ensures never { OnOk result
            (¬ MissesNode (metadata_view metadata.now) id.index include_deps_features) }

        // The features of the manifest come in the order of their bytes.
        ensures rising { IfOk result (λ features. IsRising (texts_of features.normal.items)) }
    {
        let dependencies = dependencies_of(metadata, id);
        let normal = normals(alloc, &manifest.features)?;
        let optional_deps = optionals(alloc, &manifest.features, dependencies)?;
        let deps_features = paths(alloc, metadata, id, include_deps_features)?;
        Ok(Features {
            normal,
            optional_deps,
            deps_features,
        })
    }

    /// The features of the manifest, in the order of their bytes.
    pub fn normal(&self) -> &[Feature]
        ensures { result.now ≡ self.now.normal.items }
    {
        self.normal.as_slice()
    }

    /// The optional dependencies that are features by themselves, in their order.
    pub fn optional_deps(&self) -> &[Feature]
        ensures { result.now ≡ self.now.optional_deps.items }
    {
        self.optional_deps.as_slice()
    }

    /// The features of the dependencies.
    pub fn deps_features(&self) -> &[Feature]
        ensures { result.now ≡ self.now.deps_features.items }
    {
        self.deps_features.as_slice()
    }

    /// Returns whether one of these features has the name.
    pub fn contains(&self, name: &str) -> bool
        ensures { IsTrue result ↔ Contains (candidate_names_in self.now) name.now }
    {
        if has_name(self.normal(), name) || has_name(self.optional_deps(), name) {
            return true;
        }
        has_name(self.deps_features(), name)
    }
}

/// Returns whether one of the features has the name.
#[tactic(auto, using(hack_base::proofs::Chains::mapped))]
fn has_name(features: &[Feature], name: &str) -> bool
    ensures { result ≡ list_any (bytes_eq name.now) (texts_of features.now) }
{
    features.iter().any(|feature| name == feature.name())
}

/// Returns the dependencies of a package.
fn dependencies_of(metadata: &Metadata, id: PackageId) -> &[Dependency]
    ensures { map dependency_view result.now
        ≡ dependencies_at (map package_view metadata.now.packages.items) id.index }
{
    match metadata.find(id) {
        Some(package) => package.dependencies.as_slice(),
        None => &[],
    }
}

/// Makes a feature for each key of a map.
fn normals(
    alloc: Global,
    features: &BTreeMap<String, Vec<String>>,
) -> Result<Vec<Feature>, AllocError>
    ensures are { IfOk result (λ found.
        AllZip IsNormal (keys_of (feature_map features.now)) found.items) }
    ensures rising { IfOk result (λ found. IsRising (texts_of found.items)) }
{
    let mut found = Vec::new(alloc);
    for name in features.keys() {
        found.push(Feature::normal(alloc, name.as_str())?)?;
    }
    Ok(found)
}

/// Collects the optional dependencies that are features by themselves.
fn optionals(
    alloc: Global,
    features: &BTreeMap<String, Vec<String>>,
    dependencies: &[Dependency],
) -> Result<Vec<Feature>, AllocError>
    ensures { IfOk result (λ found. AllZip IsNormal (optional_names (feature_map features.now)
        (map dependency_view dependencies.now)) found.items) }
{
    let mut found = Vec::new(alloc);
    for dependency in dependencies {
        if let Some(name) = dependency.as_feature() {
            if is_implicit(features, name) && !has_name(found.as_slice(), name) {
                found.push(Feature::normal(alloc, name)?)?;
            }
        }
    }
    Ok(found)
}

/// Returns whether a dependency is a feature by itself: no feature of the map has its name, and no
/// value names it by `dep:`.
fn is_implicit(features: &BTreeMap<String, Vec<String>>, dep: &str) -> bool
    ensures { result ≡ is_implicit (feature_map features.now) dep.now }
{
    !features.contains_key(dep) && !is_named(features, dep)
}

/// Returns whether a value of the map names the dependency by `dep:`.
fn is_named(features: &BTreeMap<String, Vec<String>>, dep: &str) -> bool
    ensures { result ≡ is_named (feature_map features.now) dep.now }
{
    for values in features.values() {
        if one_names(values.as_slice(), dep) {
            return true;
        }
    }
    false
}

/// Returns whether one of the values names the dependency by `dep:`.
#[tactic(auto, using(hack_base::proofs::Chains::mapped))]
fn one_names(values: &[String], dep: &str) -> bool
    ensures { result ≡ list_any (bytes_eq (codes "dep:" ++ dep.now))
        (names_of values.now) }
{
    values.iter().any(|value| names_dep(value.as_str(), dep))
}

/// Returns whether the value names the dependency by `dep:`.
fn names_dep(value: &str, dep: &str) -> bool
    ensures { result ≡ bytes_eq (codes "dep:" ++ dep.now) value.now }
{
    match value.strip_prefix("dep:") {
        Some(name) => dep == name,
        None => false,
    }
}

/// Collects the features of the dependencies of a package, where they are asked for.
fn paths(
    alloc: Global,
    metadata: &Metadata,
    id: PackageId,
    asked: bool,
) -> Result<Vec<Feature>, MetadataFault>
    ensures ok { IfOk result (λ found.
        AllZip (λ p f. IsPath p.0 p.1 f)
        (paths_at (metadata_view metadata.now) id.index asked) found.items) }
    ensures err { IfErr result (IsNodeRefusal (metadata_view metadata.now) id.index asked) }
    ensures never { OnOk result (¬ MissesNode (metadata_view metadata.now) id.index asked) }
{
    if !asked {
        return Ok(Vec::new(alloc));
    }
    match metadata.node(id) {
        Some(node) => Ok(deps_paths(alloc, metadata, dependencies_of(metadata, id), node)?),
        None => Err(MetadataFault::Field("nodes")),
    }
}

/// Collects the features of the dependencies of a node.
fn deps_paths(
    alloc: Global,
    metadata: &Metadata,
    dependencies: &[Dependency],
    node: &Node,
) -> Result<Vec<Feature>, AllocError>
    ensures { IfOk result (λ found. AllZip (λ path f. IsPath path.0 path.1 f)
        (deps_paths (map package_view metadata.now.packages.items)
        (map dependency_view dependencies.now) (node_view node.now)) found.items) }
{
    let mut found = Vec::new(alloc);
    for dep in &node.deps {
        add_node_paths(alloc, &mut found, metadata, dependencies, dep)?;
    }
    Ok(found)
}

/// Adds the features of a dependency of a node, where it is a normal one.
fn add_node_paths(
    alloc: Global,
    found: &mut Vec<Feature>,
    metadata: &Metadata,
    dependencies: &[Dependency],
    dep: &NodeDep,
) -> Result<(), AllocError>
    ensures { OnOk result (AddsPaths (node_paths (map package_view metadata.now.packages.items)
        (map dependency_view dependencies.now) (node_dep_view dep.now))
        found.old.items found.new.items) }
{
    if !one_is_normal(dep.dep_kinds.as_slice()) {
        return Ok(());
    }
    match metadata.find(dep.pkg) {
        Some(package) => add_package_paths(alloc, found, dependencies, package),
        None => Ok(()),
    }
}

/// Adds the features of a package, where one of the dependencies names it.
fn add_package_paths(
    alloc: Global,
    found: &mut Vec<Feature>,
    dependencies: &[Dependency],
    pkg: &Package,
) -> Result<(), AllocError>
    ensures { OnOk result (AddsPaths (paths_in (map dependency_view dependencies.now)
        (package_view pkg.now)) found.old.items found.new.items) }
{
    match known_as(dependencies, pkg.name.as_str()) {
        Some(dep) => add_paths(alloc, found, dep, &pkg.features),
        None => Ok(()),
    }
}

/// Adds the features of a dependency, each as `dep/feature`.
fn add_paths(
    alloc: Global,
    found: &mut Vec<Feature>,
    dep: &str,
    features: &BTreeMap<String, Vec<String>>,
) -> Result<(), AllocError>
    ensures { OnOk result (AddsPaths (paths_to dep.now (feature_map features.now))
        found.old.items found.new.items) }
{
    for feature in features.keys() {
        found.push(Feature::path(alloc, dep, feature.as_str())?)?;
    }
    Ok(())
}

/// Returns whether one of the kinds is that of a normal dependency, for every target.
#[tactic(auto, using(hack_base::proofs::Chains::mapped))]
fn one_is_normal(kinds: &[DepKindInfo]) -> bool
    ensures { result ≡ list_any is_normal (map kind_view kinds.now) }
{
    kinds.iter().any(|kind| is_normal(kind))
}

/// Returns whether the kind is that of a normal dependency, for every target.
fn is_normal(kind: &DepKindInfo) -> bool
    ensures { result ≡ is_normal (kind_view kind.now) }
{
    kind.kind.is_none() && kind.target.is_none()
}

/// Returns the name that the dependencies use for a package: the rename of the first one with the
/// package's name, or else that name.
fn known_as<'a>(dependencies: &'a [Dependency], name: &str) -> Option<&'a str>
    ensures { option_copied result ≡ name_among_dependencies
        (map dependency_view dependencies.now) name.now }
{
    for dependency in dependencies {
        if dependency.name.as_str() == name {
            return Some(name_in_manifest(dependency));
        }
    }
    None
}

/// Returns the name that the manifest gives a dependency.
fn name_in_manifest(dependency: &Dependency) -> &str
    ensures { result.now ≡ (let d = dependency_view dependency.now in unwrap_or d.rename d.name) }
{
    match &dependency.rename {
        Some(rename) => rename.as_str(),
        None => dependency.name.as_str(),
    }
}
