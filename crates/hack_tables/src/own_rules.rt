//! The rules that a manifest's metadata has.

use crate::answers::{Found, joined, word};
use crate::table::Group;
use hack_features::Feature;
use hack_metadata::metadata::{Metadata, MetadataFault, RulesTable, object_of};
use std::alloc::{AllocError, Global};

/// `rules`: what the rules of the first argument, `package` or `workspace`, are where the second is
/// what its `metadata` holds; without a second argument there is no such field. The other one of
/// the two excludes the feature `other`.
pub(crate) fn answer(alloc: Global, group: &Group, words: &[String]) -> Found {
    if group.kind.as_str() != "rules" {
        return Ok(None);
    }
    let text = match read(alloc, word(words, 0), word(words, 1)) {
        Ok(metadata) => told(alloc, &metadata, word(words, 0))?,
        Err(fault) => format!(in alloc; "{fault}")?,
    };
    Ok(Some(text))
}

static OTHER: &str = r#","metadata":{"cargo-hack":{"exclude-features":["other"]}}"#;

fn read(alloc: Global, place: &str, value: &str) -> Result<Metadata, MetadataFault> {
    let mut field = String::new(alloc);
    if !value.is_empty() {
        field.push_str(",\"metadata\":")?;
        field.push_str(value)?;
    }
    let text = if place == "package" {
        whole(alloc, field.as_str(), OTHER)?
    } else {
        whole(alloc, OTHER, field.as_str())?
    };
    let object = object_of(alloc, text.as_str())?;
    Metadata::from_obj(alloc, object, 38)
}

/// The metadata of a workspace with one package: more fields of the package, and of the workspace.
fn whole(alloc: Global, own: &str, more: &str) -> Result<String, AllocError> {
    let mut text = String::from_str(alloc, r#"{"packages":[{"id":"a","name":"p","#)?;
    text.push_str(r#""version":"1.0.0","dependencies":[],"features":{},"manifest_path":"m""#)?;
    text.push_str(own)?;
    text.push_str(r#"}],"workspace_members":["a"],"resolve":null,"workspace_root":"/w""#)?;
    text.push_str(more)?;
    text.push_str("}")?;
    Ok(text)
}

fn told(alloc: Global, metadata: &Metadata, place: &str) -> Result<String, AllocError> {
    let rules = match metadata.packages.first() {
        Some(package) if place == "package" => &package.rules,
        _ => &metadata.rules,
    };
    match rules {
        Ok(table) => shown(alloc, table),
        Err(key) => format!(in alloc; "wrong: {key}"),
    }
}

/// The parts of a table that aren't empty.
fn shown(alloc: Global, table: &RulesTable) -> Result<String, AllocError> {
    let mut parts = Vec::new(alloc);
    push_names(
        alloc,
        &mut parts,
        "without",
        table.exclude_features.as_slice(),
    )?;
    push_groups(
        alloc,
        &mut parts,
        "exclusive",
        table.mutually_exclusive_features.as_slice(),
    )?;
    push_groups(
        alloc,
        &mut parts,
        "one of",
        table.at_least_one_of.as_slice(),
    )?;
    push_groups(alloc, &mut parts, "group", table.group_features.as_slice())?;
    if let Some(names) = &table.optional_deps {
        push_optional(alloc, &mut parts, names.as_slice())?;
    }
    push_flags(alloc, &mut parts, table)?;
    push_number(alloc, &mut parts, "depth", table.depth)?;
    push_number(alloc, &mut parts, "strength", table.strength)?;
    joined(alloc, parts.as_slice())
}

fn push_names(
    alloc: Global,
    parts: &mut Vec<String>,
    what: &str,
    names: &[String],
) -> Result<(), AllocError> {
    if !names.is_empty() {
        let names = names.join(alloc, ",")?;
        parts.push(format!(in alloc; "{what} {names}")?)?;
    }
    Ok(())
}

fn push_groups(
    alloc: Global,
    parts: &mut Vec<String>,
    what: &str,
    groups: &[Feature],
) -> Result<(), AllocError> {
    for group in groups {
        push_names(alloc, parts, what, group.as_group())?;
    }
    Ok(())
}

fn push_optional(
    alloc: Global,
    parts: &mut Vec<String>,
    names: &[String],
) -> Result<(), AllocError> {
    if names.is_empty() {
        parts.push(String::from_str(alloc, "all optional")?)?;
    }
    push_names(alloc, parts, "optional", names)
}

fn push_flags(
    alloc: Global,
    parts: &mut Vec<String>,
    table: &RulesTable,
) -> Result<(), AllocError> {
    if table.exclude_no_default_features {
        parts.push(String::from_str(alloc, "not without default")?)?;
    }
    if table.exclude_all_features {
        parts.push(String::from_str(alloc, "not with all")?)?;
    }
    Ok(())
}

fn push_number(
    alloc: Global,
    parts: &mut Vec<String>,
    what: &str,
    number: Option<usize>,
) -> Result<(), AllocError> {
    if let Some(number) = number {
        parts.push(format!(in alloc; "{what} {number}")?)?;
    }
    Ok(())
}
