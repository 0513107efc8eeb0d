//! Workspaces from short texts.
//!
//! A workspace is a text: its members, separated by `;`. A member is its name (followed by `!`
//! where it is private), its own version or `-`, and its features, each with what it enables after
//! a colon; after a `/` come its dependencies, each with its new name after a colon if it has one.
//! They are optional, except those after a `-`. After a `#` comes its table of rules, as JSON, and
//! after `##`, at the end of the whole, the workspace's.

use std::alloc::{AllocError, Global};

/// A member: its name, whether it is private, its own version, features, dependencies and table.
#[derive(Clone, Copy)]
struct Member<'a> {
    name: &'a str,
    private: bool,
    own: &'a str,
    features: &'a str,
    dependencies: &'a str,
    table: &'a str,
}

fn member_of(text: &str) -> Member<'_> {
    let (text, table) = text.split_once(" # ").unwrap_or((text, ""));
    let (head, dependencies) = text.split_once(" / ").unwrap_or((text, ""));
    let (name, rest) = head.trim().split_once(' ').unwrap_or((head.trim(), "-"));
    let (own, features) = rest.split_once(' ').unwrap_or((rest, ""));
    Member {
        name: name.strip_suffix("!").unwrap_or(name),
        private: name.ends_with("!"),
        own,
        features,
        dependencies,
        table,
    }
}

/// Appends the parts to the text.
pub fn push_all(text: &mut String, parts: &[&str]) -> Result<(), AllocError> {
    for part in parts {
        text.push_str(part)?;
    }
    Ok(())
}

/// Appends a comma before all but the first.
fn push_comma(text: &mut String, place: usize) -> Result<(), AllocError> {
    if place == 0 {
        Ok(())
    } else {
        text.push_str(",")
    }
}

/// Appends the values of a feature to the text, in quotes.
fn push_quoted(text: &mut String, values: &str) -> Result<(), AllocError> {
    for (place, value) in values.split(',').enumerate() {
        push_comma(text, place)?;
        push_all(text, &["\"", value, "\""])?;
    }
    Ok(())
}

/// Appends a feature to the text: its name, the text after it, and its values in brackets.
fn push_feature(text: &mut String, feature: &str, behind: &str) -> Result<(), AllocError> {
    let (name, values) = feature.split_once(':').unwrap_or((feature, ""));
    push_all(text, &[name, behind, "["])?;
    if !values.is_empty() {
        push_quoted(text, values)?;
    }
    text.push_str("]")
}

/// Appends the features to the text, as JSON.
fn push_features(text: &mut String, features: &str) -> Result<(), AllocError> {
    for (place, feature) in features.split_whitespace().enumerate() {
        push_comma(text, place)?;
        text.push_str("\"")?;
        push_feature(text, feature, "\":")?;
    }
    Ok(())
}

fn push_dependency(text: &mut String, dependency: &str) -> Result<(), AllocError> {
    let (name, rename) = dependency.split_once(':').unwrap_or((dependency, "-"));
    let optional = if name.starts_with("-") {
        "false"
    } else {
        "true"
    };
    let name = name.strip_prefix("-").unwrap_or(name);
    push_all(text, &["{\"name\":\"", name, "\",\"optional\":", optional])?;
    text.push_str(",\"rename\":")?;
    push_or_null(text, rename)?;
    text.push_str("}")
}

/// Appends the dependencies to the text, as JSON.
fn push_dependencies(text: &mut String, dependencies: &str) -> Result<(), AllocError> {
    for (place, dependency) in dependencies.split_whitespace().enumerate() {
        push_comma(text, place)?;
        push_dependency(text, dependency)?;
    }
    Ok(())
}

/// Appends a value in quotes to the text, or `null` where it is `-`.
fn push_or_null(text: &mut String, value: &str) -> Result<(), AllocError> {
    match value {
        "-" => text.push_str("null"),
        value => push_all(text, &["\"", value, "\""]),
    }
}

/// Appends what a manifest with this table of rules has as metadata to the text, as a field.
fn push_table(text: &mut String, table: &str) -> Result<(), AllocError> {
    if table.is_empty() {
        return Ok(());
    }
    push_all(text, &[",\"metadata\":{\"cargo-hack\":", table, "}"])
}

/// Appends a member to the text, as JSON.
fn push_package(text: &mut String, member: Member<'_>) -> Result<(), AllocError> {
    let publish = if member.private { "[]" } else { "null" };
    push_all(
        text,
        &["{\"id\":\"", member.name, "\",\"name\":\"", member.name],
    )?;
    text.push_str("\",\"version\":\"0.1.0\",\"dependencies\":[")?;
    push_dependencies(text, member.dependencies)?;
    text.push_str("],\"features\":{")?;
    push_features(text, member.features)?;
    push_all(text, &["},\"manifest_path\":\"/w/", member.name])?;
    push_all(text, &["/Cargo.toml\",\"publish\":", publish])?;
    text.push_str(",\"rust_version\":")?;
    push_or_null(text, member.own)?;
    push_table(text, member.table)?;
    text.push_str("}")
}

fn push_packages(text: &mut String, members: &str) -> Result<(), AllocError> {
    for (place, member) in members.split(';').enumerate() {
        push_comma(text, place)?;
        push_package(text, member_of(member))?;
    }
    Ok(())
}

fn push_ids(text: &mut String, members: &str) -> Result<(), AllocError> {
    for (place, member) in members.split(';').enumerate() {
        push_comma(text, place)?;
        push_all(text, &["\"", member_of(member).name, "\""])?;
    }
    Ok(())
}

/// The metadata of a workspace at `/w`, as cargo reports it: lists of its packages and of its
/// members, and the graph of dependencies.
pub fn whole_text(
    alloc: Global,
    packages: &str,
    members: &str,
    resolve: &str,
) -> Result<String, AllocError> {
    let mut text = String::from_str(alloc, "{\"packages\":")?;
    push_all(&mut text, &[packages, ",\"workspace_members\":", members])?;
    push_all(&mut text, &[",\"resolve\":", resolve])?;
    text.push_str(",\"workspace_root\":\"/w\"}")?;
    Ok(text)
}

fn list_of_packages(alloc: Global, members: &str, others: &str) -> Result<String, AllocError> {
    let mut text = String::from_str(alloc, "[")?;
    push_packages(&mut text, members)?;
    push_all(&mut text, &[others, "]"])?;
    Ok(text)
}

fn list_of_ids(alloc: Global, members: &str) -> Result<String, AllocError> {
    let mut text = String::from_str(alloc, "[")?;
    push_ids(&mut text, members)?;
    text.push_str("]")?;
    Ok(text)
}

/// The same of members, and of packages that aren't members, each after a comma.
pub fn metadata_text(
    alloc: Global,
    members: &str,
    others: &str,
    resolve: &str,
) -> Result<String, AllocError> {
    let packages = list_of_packages(alloc, members, others)?;
    let ids = list_of_ids(alloc, members)?;
    whole_text(alloc, packages.as_str(), ids.as_str(), resolve)
}

/// The members of a whole, and the workspace's table of rules.
pub fn members_and_table(whole: &str) -> (&str, &str) {
    whole.split_once(" ## ").unwrap_or((whole, ""))
}

/// No graph of dependencies, and behind it the workspace's table of rules, if it has one.
pub fn no_graph(alloc: Global, table: &str) -> Result<String, AllocError> {
    let mut text = String::from_str(alloc, "null")?;
    push_table(&mut text, table)?;
    Ok(text)
}

/// The text of a member's manifest.
pub fn manifest_text(alloc: Global, member: &str) -> Result<String, AllocError> {
    let mut text = String::from_str(alloc, "[package]\nname = \"p\"\n[features]\n")?;
    for feature in member_of(member).features.split_whitespace() {
        push_feature(&mut text, feature, " = ")?;
        text.push_str("\n")?;
    }
    Ok(text)
}
