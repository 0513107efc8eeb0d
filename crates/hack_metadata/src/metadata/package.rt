//! Packages and the dependencies that their manifests name.

ghost use Rattle.std.specs.Prelude.{◌≡◌, map, codes, IfOk, option_map, option_and_then};
ghost use Rattle.std.specs.Prelude.{true, None, option_copied};
ghost use Rattle.std.specs.Option.{ok_or};
ghost use Rattle.serde_json.specs.Find.{as_array};
ghost use Rattle.serde_json.specs.View.{view, items_view, members_view};
ghost use Rattle.hack_base.specs.Names.{names_of, optional_text};
ghost use Rattle.hack_routes.specs.FeatureMap.{feature_map};
ghost use Rattle.hack_metadata.specs.Fields.{read_all, object_in, nullable_in};
ghost use Rattle.hack_metadata.specs.Fields.{optional_text_in, texts_of_items};
ghost use Rattle.hack_base.specs.FieldReadings.{◌>>=◌ as ◌≫=◌};
ghost use Rattle.hack_metadata.specs.FieldResults.{KeepsOtherFields, ReturnsField};
ghost use Rattle.hack_metadata.specs.MetadataReading.{read_dependency, read_package, read_from};
ghost use Rattle.hack_metadata.specs.MetadataReading.{features_of, has_items, may_publish};
ghost use Rattle.hack_metadata.specs.RecordViews.{dependency_view, package_view};
ghost use Rattle.hack_metadata.specs.Optional.{feature_of, optional_in};
ghost use Rattle.hack_metadata.specs.Internal.{TakesOptional};
ghost use Rattle.hack_metadata.specs.OptionalLeft.{names_left};
ghost use Rattle.std.specs.Iterator.{YieldsFirstRef, item_count};

use crate::metadata::fault::MetadataFault;
use crate::metadata::object::{Object, ObjectExt, element, remove_bool, remove_text};
use crate::metadata::rules::{RulesTable, remove_rules};
use serde_json::Value;
use std::alloc::{AllocError, Global};
use std::collections::BTreeMap;

/// A dependency as a manifest names it.
#[derive(Drop)]
pub struct Dependency {
    /// The name of the package.
    pub name: String,
    /// Whether it is optional, and so a feature.
    pub optional: bool,
    /// The name that the manifest gives it in place of its own. None where it keeps its own.
    pub rename: Option<String>,
}

impl Dependency {
    fn from_value(value: Value) -> Result<Dependency, MetadataFault>
        ensures { ReturnsField dependency_view result (read_dependency (view value)) }
    {
        let mut map = element(value, "dependencies")?;
        let name = map.remove_string("name")?;
        let optional = remove_bool(&mut map, "optional")?;
        let rename = remove_text(&mut map, "rename")?;
        Ok(Dependency {
            name,
            optional,
            rename,
        })
    }

    /// Returns the name of the feature that the dependency is. None where it isn't optional.
    pub fn as_feature(&self) -> Option<&str>
        ensures { option_copied result ≡ feature_of (dependency_view self.now) }
    {
        if !self.optional {
            return None;
        }
        match &self.rename {
            Some(rename) => Some(rename.as_str()),
            None => Some(self.name.as_str()),
        }
    }

    fn all_from(alloc: Global, list: Vec<Value>) -> Result<Vec<Dependency>, MetadataFault>
        ensures { ReturnsField (λ found. map dependency_view found.items) result
            (read_all read_dependency (items_view list.items)) }
    {
        let mut found = Vec::new(alloc);
        for value in list {
            found.push(Dependency::from_value(value)?)?;
        }
        Ok(found)
    }
}

/// A package of a workspace, or one that it depends on.
#[derive(Drop)]
pub struct Package {
    /// The text by which cargo identifies the package.
    pub id: String,
    pub name: String,
    pub version: String,
    /// All dependencies that the manifest names, of each kind.
    pub dependencies: Vec<Dependency>,
    /// The features, each with the values that it enables.
    pub features: BTreeMap<String, Vec<String>>,
    /// The absolute path of the manifest.
    pub manifest_path: String,
    /// Whether the package may be published to some registry. True below cargo 1.39.
    pub publish: bool,
    /// The package's own version, its `rust-version`. None below cargo 1.58.
    pub rust_version: Option<String>,
    /// The rules of the package, or the key of its table that is wrong.
    pub rules: Result<RulesTable, String>,
}

impl Package {
    fn from_value(alloc: Global, value: Value, cargo_version: u32) -> Result<Package, MetadataFault>
        ensures { ReturnsField package_view result (read_package cargo_version (view value)) }
    {
        let mut map = element(value, "packages")?;
        let id = map.remove_string("id")?;
        let name = map.remove_string("name")?;
        let version = map.remove_string("version")?;
        let dependencies = Dependency::all_from(alloc, map.remove_array("dependencies")?)?;
        let features = remove_features(alloc, &mut map)?;
        let manifest_path = map.remove_string("manifest_path")?;
        let publish = remove_publish(&mut map, cargo_version)?;
        let rust_version = remove_rust_version(&mut map, cargo_version)?;
        let rules = remove_rules(alloc, &mut map)?;
        Ok(Package {
            id,
            name,
            version,
            dependencies,
            features,
            manifest_path,
            publish,
            rust_version,
            rules,
        })
    }

    /// Returns the names of the optional dependencies, in the order of the dependencies. A name
    /// that several of them have comes once for each.
    pub fn optional_deps(&self) -> OptionalDeps<'_>
        ensures { names_left result ≡ optional_in (package_view self.now).dependencies }
    {
        OptionalDeps {
            left: self.dependencies.as_slice(),
        }
    }

    pub(crate) fn all_from(
        alloc: Global,
        list: Vec<Value>,
        cargo_version: u32,
    ) -> Result<Vec<Package>, MetadataFault>
        ensures { ReturnsField (λ found. map package_view found.items) result
            (read_all (read_package cargo_version) (items_view list.items)) }
    {
        let mut found = Vec::new(alloc);
        for value in list {
            found.push(Package::from_value(alloc, value, cargo_version)?)?;
        }
        Ok(found)
    }
}

/// The names of a package's optional dependencies, in the order of the dependencies.
#[derive(Drop)]
pub struct OptionalDeps<'a> {
    left: &'a [Dependency],
}

impl<'a> Iterator for OptionalDeps<'a> {
    type Item = &'a str;

    ghost next_gives = { YieldsFirstRef names_left };

    ghost remaining = { item_count names_left };

    fn next(&mut self) -> Option<&'a str> {
        let (name, left) = first_optional(self.left);
        self.left = left;
        name
    }
}

/// Returns the first name of an optional dependency, and the dependencies after it.
fn first_optional(list: &[Dependency]) -> (Option<&str>, &[Dependency])
    ensures { TakesOptional list.now result.0 result.1.now }
{
    let mut left = list;
    while let [first, rest @ ..] = left {
        left = rest;
        if let Some(name) = first.as_feature() {
            return (Some(name), left);
        }
    }
    (None, left)
}

/// Takes the features out: an object of arrays of texts.
fn remove_features(
    alloc: Global,
    object: &mut Object,
) -> Result<BTreeMap<String, Vec<String>>, MetadataFault>
    ensures value { ReturnsField feature_map result
        (object_in (codes "features") (members_view object.old.entries)
        ≫= λ fs. ok_or (features_of fs) (codes "features")) }
    ensures others { KeepsOtherFields (codes "features") (members_view object.old.entries)
        (members_view object.new.entries) }
{
    let features = object.remove_object("features")?;
    features_from(alloc, features)?.ok_or(MetadataFault::Field("features"))
}

/// Returns the features of an object. None where a name has anything but an array of texts.
fn features_from(
    alloc: Global,
    object: Object,
) -> Result<Option<BTreeMap<String, Vec<String>>>, AllocError>
    ensures { IfOk result (λ found. option_map feature_map found
        ≡ features_of (members_view object.entries)) }
{
    let mut features = BTreeMap::new(alloc);
    for (name, value) in object {
        let Some(texts) = texts_in(alloc, value)? else {
            return Ok(None);
        };
        features.insert(name, texts)?;
    }
    Ok(Some(features))
}

/// Returns the texts of an array. None where the value is anything else, or an element is no text.
pub(crate) fn texts_in(alloc: Global, value: Value) -> Result<Option<Vec<String>>, AllocError>
    ensures { IfOk result (λ found. option_map (λ texts. names_of texts.items) found
        ≡ option_and_then texts_of_items (as_array (view value))) }
{
    match value {
        Value::Array(list) => texts_from(alloc, list),
        _ => Ok(None),
    }
}

/// Returns the texts of a list. None where an element is no text.
pub(crate) fn texts_from(alloc: Global, list: Vec<Value>) -> Result<Option<Vec<String>>, AllocError>
    ensures { IfOk result (λ found. option_map (λ texts. names_of texts.items) found
        ≡ texts_of_items (items_view list.items)) }
{
    let mut texts = Vec::new(alloc);
    for value in list {
        match value {
            Value::String(text) => texts.push(text)?,
            _ => return Ok(None),
        }
    }
    Ok(Some(texts))
}

/// Takes out whether the package may be published. Cargo reports it from 1.39 on: null where no
/// registry is named, and an empty list where the package may not be published at all.
fn remove_publish(object: &mut Object, cargo_version: u32) -> Result<bool, MetadataFault>
    ensures value { ReturnsField (λ b. b) result
        (read_from 39 cargo_version true
        (nullable_in (codes "publish") (members_view object.old.entries) ≫= may_publish)) }
    ensures others { KeepsOtherFields (codes "publish") (members_view object.old.entries)
        (members_view object.new.entries) }
{
    if cargo_version < 39 {
        return Ok(true);
    }
    match object.remove_nullable("publish")? {
        None => Ok(true),
        Some(value) => names_registries(value).ok_or(MetadataFault::Field("publish")),
    }
}

/// Returns whether there is an item.
fn has_items(list: &[Value]) -> bool
    ensures { result ≡ has_items (items_view list.now) }
{
    !list.is_empty()
}

/// Returns whether a list has items. None where the value is no list.
fn names_registries(value: Value) -> Option<bool>
    ensures { result ≡ option_map has_items (as_array (view value)) }
{
    match value {
        Value::Array(registries) => Some(has_items(registries.as_slice())),
        _ => None,
    }
}

/// Takes out the own version. Cargo reports it from 1.58 on.
fn remove_rust_version(
    object: &mut Object,
    cargo_version: u32,
) -> Result<Option<String>, MetadataFault>
    ensures value { ReturnsField optional_text result
        (read_from 58 cargo_version None
        (optional_text_in (codes "rust_version") (members_view object.old.entries))) }
    ensures others { KeepsOtherFields (codes "rust_version") (members_view object.old.entries)
        (members_view object.new.entries) }
{
    if cargo_version < 58 {
        return Ok(None);
    }
    remove_text(object, "rust_version")
}
