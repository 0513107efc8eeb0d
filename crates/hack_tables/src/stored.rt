//! What a real cargo reported about a workspace, read as records.

use crate::answers::{Found, joined, or_none, word, yes};
use crate::table::Group;
use hack_metadata::metadata::{Metadata, MetadataFault, Node, Package, PackageId, object_of};
use std::alloc::{AllocError, Global};

/// `metadata`: what the stored answer `json`, which a cargo of the minor version `minor` gave, says
/// about the workspace, or about the package that the second argument names.
pub(crate) fn answer(alloc: Global, group: &Group, words: &[String]) -> Found {
    if group.kind.as_str() != "metadata" {
        return Ok(None);
    }
    let text = match read(alloc, group) {
        Ok(metadata) => told(alloc, &metadata, word(words, 0), word(words, 1))?,
        Err(fault) => format!(in alloc; "{fault}")?,
    };
    Ok(Some(text))
}

fn read(alloc: Global, group: &Group) -> Result<Metadata, MetadataFault> {
    let minor = match group.setting("minor").unwrap_or("").parse::<u32>() {
        Ok(minor) => minor,
        Err(_) => 0,
    };
    let object = object_of(alloc, group.setting("json").unwrap_or(""))?;
    Metadata::from_obj(alloc, object, minor)
}

fn told(alloc: Global, metadata: &Metadata, what: &str, name: &str) -> Result<String, AllocError> {
    match what {
        "root" => String::from_str(alloc, metadata.workspace_root.as_str()),
        "members" => names(alloc, metadata, metadata.workspace_members.as_slice()),
        _ => match named(metadata, name) {
            Some(id) => told_of(alloc, metadata, id, what),
            None => String::from_str(alloc, "no such member"),
        },
    }
}

/// The first member with this name.
fn named(metadata: &Metadata, name: &str) -> Option<PackageId> {
    for id in &metadata.workspace_members {
        if let Some(package) = metadata.find(*id) {
            if package.name.as_str() == name {
                return Some(*id);
            }
        }
    }
    None
}

fn told_of(
    alloc: Global,
    metadata: &Metadata,
    id: PackageId,
    what: &str,
) -> Result<String, AllocError> {
    if what == "dependencies" {
        return match metadata.node(id) {
            Some(node) => dependencies(alloc, metadata, node),
            None => String::from_str(alloc, "no node"),
        };
    }
    match metadata.find(id) {
        Some(package) => field(alloc, package, what),
        None => String::from_str(alloc, "no such package"),
    }
}

fn field(alloc: Global, package: &Package, what: &str) -> Result<String, AllocError> {
    match what {
        "version" => String::from_str(alloc, package.version.as_str()),
        "manifest" => String::from_str(alloc, package.manifest_path.as_str()),
        "public" => yes(alloc, package.publish),
        "rust-version" => or_none(alloc, package.rust_version.as_deref()),
        "features" => features(alloc, package),
        "optional" => optional(alloc, package),
        _ => String::from_str(alloc, "no such field"),
    }
}

/// Each feature with its values.
fn features(alloc: Global, package: &Package) -> Result<String, AllocError> {
    let mut parts = Vec::new(alloc);
    for (name, values) in package.features.iter() {
        let values = values.join(alloc, ",")?;
        parts.push(format!(in alloc; "{name}={values}")?)?;
    }
    joined(alloc, parts.as_slice())
}

fn optional(alloc: Global, package: &Package) -> Result<String, AllocError> {
    let mut parts = Vec::new(alloc);
    for name in package.optional_deps() {
        parts.push(String::from_str(alloc, name)?)?;
    }
    joined(alloc, parts.as_slice())
}

fn names(alloc: Global, metadata: &Metadata, ids: &[PackageId]) -> Result<String, AllocError> {
    let mut parts = Vec::new(alloc);
    for id in ids {
        if let Some(package) = metadata.find(*id) {
            parts.push(String::from_str(alloc, package.name.as_str())?)?;
        }
    }
    joined(alloc, parts.as_slice())
}

/// The dependencies of a node, each with its kinds.
fn dependencies(alloc: Global, metadata: &Metadata, node: &Node) -> Result<String, AllocError> {
    let mut parts = Vec::new(alloc);
    for dep in &node.deps {
        let name = match metadata.find(dep.pkg) {
            Some(package) => package.name.as_str(),
            None => "unknown",
        };
        for kind in &dep.dep_kinds {
            let kind = kind.kind.as_deref().unwrap_or("normal");
            parts.push(format!(in alloc; "{name}:{kind}")?)?;
        }
    }
    joined(alloc, parts.as_slice())
}
