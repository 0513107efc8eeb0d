//! Reads a feature map from the bytes of a reader.

ghost use Rattle.std.specs.Prelude.{◌≡◌, [], ◌∷◌, map, IfOk, MatchOption, option_map};
ghost use Rattle.serde_json.specs.View.{view};
ghost use Rattle.hack_base.specs.Names.{names_of};
ghost use Rattle.hack_features.specs.Feature.{groups_of, candidates_of, name_of};
ghost use Rattle.hack_routes.specs.FeatureMap.{feature_map};
ghost use Rattle.hack_powerset_list.specs.Input.{values_in, IsMapText, IsNoMapText, keys_of};

use hack_features::Feature;
use serde_json::Value;
use std::alloc::{AllocError, Global};
use std::collections::BTreeMap;

/// The texts of an array; None if the value is no array of texts.
fn texts_of(alloc: Global, value: Value) -> Result<Option<Vec<String>>, AllocError>
    ensures { IfOk result (λ found. values_in (view value)
        ≡ option_map (λ texts. names_of texts.items) found) }
{
    let Value::Array(items) = value else {
        return Ok(None);
    };
    let mut texts = Vec::new(alloc);
    for item in items {
        match item {
            Value::String(text) => texts.push(text)?,
            _ => return Ok(None),
        }
    }
    Ok(Some(texts))
}

/// The feature map whose JSON the bytes are; None if they are no such JSON.
pub fn map_of(
    alloc: Global,
    bytes: &[u8],
) -> Result<Option<BTreeMap<String, Vec<String>>>, AllocError>
    ensures { IfOk result (λ found. MatchOption found (IsNoMapText bytes.now)
        (λ m. IsMapText bytes.now (feature_map m))) }
{
    let value = match Value::from_slice(alloc, bytes) {
        Ok(value) => value,
        Err(error) if error.is_memory() => return Err(AllocError),
        Err(_) => return Ok(None),
    };
    let Value::Object(members) = value else {
        return Ok(None);
    };
    let mut map = BTreeMap::new(alloc);
    for (key, value) in members {
        let Some(texts) = texts_of(alloc, value)? else {
            return Ok(None);
        };
        map.insert(key, texts)?;
    }
    Ok(Some(map))
}

/// A feature of its own for each key of the map, in the order of the keys.
pub fn features_of(
    alloc: Global,
    found: &BTreeMap<String, Vec<String>>,
) -> Result<Vec<Feature>, AllocError>
    ensures names { IfOk result (λ features. map name_of features.items
        ≡ keys_of (feature_map found.now)) }
    ensures groups { IfOk result (λ features. groups_of features.items
        ≡ map (λ name. name ∷ []) (keys_of (feature_map found.now))) }
{
    let mut features = Vec::new(alloc);
    for name in found.keys() {
        features.push(Feature::normal(alloc, name.as_str())?)?;
    }
    Ok(features)
}

/// References to all features.
pub fn all_of<'a>(alloc: Global, features: &'a [Feature]) -> Result<Vec<&'a Feature>, AllocError>
    ensures { IfOk result (λ all. candidates_of all.items ≡ groups_of features.now) }
{
    let mut all = Vec::with_capacity(alloc, features.len())?;
    for feature in features {
        all.push(feature)?;
    }
    Ok(all)
}
