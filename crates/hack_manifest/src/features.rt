//! The feature map of a manifest.

ghost use Rattle.std.specs.Prelude.{◌≡◌, IfOk, OnOk, option_map};
ghost use Rattle.std.specs.BTreeMap.{insert_entry};
ghost use Rattle.toml.specs.Data.{get_member};
ghost use Rattle.toml.specs.View.{table_view, array_view};
ghost use Rattle.hack_base.specs.Names.{names_of};
ghost use Rattle.hack_routes.specs.FeatureMap.{feature_map};
ghost use Rattle.hack_manifest.specs.Manifest.{texts_in, feature_map_in, features_from};
ghost use Rattle.hack_manifest.specs.Manifest.{features_key};
ghost use Rattle.hack_manifest.specs.Internal.{by_bytes};
ghost use Rattle.hack_manifest.specs.ManifestResults.{ReturnsReading};

use crate::fault::ReadFault;
use crate::lookup::value_at;
use std::alloc::{AllocError, Global};
use std::collections::BTreeMap;
use toml::value::Array;
use toml::{Table, Value};

/// The strings of an array, in order. Other values are ignored.
fn texts_of(alloc: Global, array: &Array) -> Result<Vec<String>, AllocError>
    ensures { IfOk result (λ texts. names_of texts.items ≡ texts_in (array_view array.now)) }
{
    let mut texts = Vec::new(alloc);
    for value in array {
        if let Value::String(text) = value {
            texts.push(text.clone()?)?;
        }
    }
    Ok(texts)
}

/// Inserts a feature with the strings of an array into a map.
fn put(
    alloc: Global,
    map: &mut BTreeMap<String, Vec<String>>,
    name: &str,
    array: &Array,
) -> Result<(), AllocError>
    ensures { OnOk result (feature_map map.new
        ≡ insert_entry by_bytes (feature_map map.old) name.now (texts_in (array_view array.now))) }
{
    let texts = texts_of(alloc, array)?;
    map.insert(String::from_str(alloc, name)?, texts)?;
    Ok(())
}

/// The feature map that a table holds; none where a value is no array.
fn map_of(alloc: Global, table: &Table) -> Result<Option<BTreeMap<String, Vec<String>>>, AllocError>
    ensures { IfOk result (λ found. feature_map_in (table_view table.now)
        ≡ option_map feature_map found) }
{
    let mut map = BTreeMap::new(alloc);
    'features: for (name, value) in table.iter() {
        let Some(array) = value.as_array() else {
            return Ok(None);
        };
        put(alloc, &mut map, name.as_str(), array)?;
    }
    Ok(Some(map))
}

/// The features of a manifest: empty without `features`, which must be a table that isn't inline.
pub fn features_of(
    alloc: Global,
    tree: &Table,
    inline: bool,
) -> Result<BTreeMap<String, Vec<String>>, ReadFault>
    ensures { ReturnsReading feature_map result
        (features_from inline (get_member features_key (table_view tree.now))) }
{
    let Some(value) = value_at(tree, "features") else {
        return Ok(BTreeMap::new(alloc));
    };
    if inline {
        return Err(ReadFault::Field("features"));
    }
    let Some(table) = value.as_table() else {
        return Err(ReadFault::Field("features"));
    };
    match map_of(alloc, table)? {
        Some(map) => Ok(map),
        None => Err(ReadFault::Field("features")),
    }
}
