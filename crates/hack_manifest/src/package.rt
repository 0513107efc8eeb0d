//! What a manifest says about its package.

ghost use Rattle.std.specs.Prelude.{codes, option_map};
ghost use Rattle.toml.specs.Data.{get_member};
ghost use Rattle.toml.specs.View.{table_view};
ghost use Rattle.hack_base.specs.Names.{optional_text};
ghost use Rattle.hack_manifest.specs.Manifest.{package_in, read_below, publish_from};
ghost use Rattle.hack_manifest.specs.Manifest.{rust_version_from};
ghost use Rattle.hack_manifest.specs.ManifestResults.{ReturnsReading};

use crate::fault::ReadFault;
use crate::lookup::{find_table, has_values, value_at};
use std::alloc::Global;
use toml::{Table, Value};

/// What a manifest says about its package. A field is `None` for versions of cargo whose metadata
/// contain it.
#[derive(Drop)]
pub struct ManifestPackage {
    /// Whether it may be published, below cargo 1.39.
    pub publish: Option<bool>,
    /// Its own `rust-version`, if it has one, below cargo 1.58.
    pub rust_version: Option<Option<String>>,
}

/// The table `package`, which must not be inline.
pub fn package_table(tree: &Table, inline: bool) -> Result<&Table, ReadFault>
    ensures { ReturnsReading (λ t. table_view t.now) result (package_in inline
        (table_view tree.now)) }
{
    if inline {
        return Err(ReadFault::Field("package"));
    }
    match find_table(tree, "package") {
        Some(table) => Ok(table),
        None => Err(ReadFault::Field("package")),
    }
}

/// Whether the package may be published: without the field it may, with an empty list it may not.
pub fn publish(table: &Table, cargo_version: u32) -> Result<Option<bool>, ReadFault>
    ensures { ReturnsReading (λ o. o) result (read_below 39 cargo_version
        (publish_from (get_member (codes "publish") (table_view table.now)))) }
{
    if cargo_version >= 39 {
        return Ok(None);
    }
    match value_at(table, "publish") {
        None => Ok(Some(true)),
        Some(Value::Boolean(publish)) => Ok(Some(*publish)),
        Some(Value::Array(registries)) => Ok(Some(has_values(registries))),
        Some(_) => Err(ReadFault::Field("publish")),
    }
}

/// The `rust-version` of the package, if it has one.
pub fn rust_version(
    alloc: Global,
    table: &Table,
    cargo_version: u32,
) -> Result<Option<Option<String>>, ReadFault>
    ensures { ReturnsReading (option_map optional_text) result (read_below 58 cargo_version
        (rust_version_from (get_member (codes "rust-version") (table_view table.now)))) }
{
    if cargo_version >= 58 {
        return Ok(None);
    }
    match value_at(table, "rust-version") {
        None => Ok(Some(None)),
        Some(Value::String(version)) => Ok(Some(Some(String::from_str(alloc, version.as_str())?))),
        Some(_) => Err(ReadFault::Field("rust-version")),
    }
}
