//! Packages: which specifications match them.

use crate::answers::{Found, word, yes};
use crate::table::Group;
use hack_metadata::cargo::match_pkg_spec;
use hack_metadata::metadata::{Package, RulesTable};
use std::alloc::{AllocError, Global};
use std::collections::BTreeMap;

/// `specs`: whether the specification matches the group's package, or why that isn't known.
pub(crate) fn answer(alloc: Global, group: &Group, words: &[String]) -> Found {
    if group.kind.as_str() != "specs" {
        return Ok(None);
    }
    let package = package_of(alloc, group)?;
    match match_pkg_spec(&package, word(words, 0)) {
        Ok(matches) => Ok(Some(yes(alloc, matches)?)),
        Err(fault) => Ok(Some(format!(in alloc; "{fault}")?)),
    }
}

/// The package that the group's settings `name`, `version` and `id` describe.
fn package_of(alloc: Global, group: &Group) -> Result<Package, AllocError> {
    Ok(Package {
        id: String::from_str(alloc, group.setting("id").unwrap_or(""))?,
        name: String::from_str(alloc, group.setting("name").unwrap_or(""))?,
        version: String::from_str(alloc, group.setting("version").unwrap_or(""))?,
        dependencies: Vec::new(alloc),
        features: BTreeMap::new(alloc),
        manifest_path: String::new(alloc),
        publish: true,
        rust_version: None,
        rules: Ok(RulesTable::new(alloc)),
    })
}
