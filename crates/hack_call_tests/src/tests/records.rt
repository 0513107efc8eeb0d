//! The records that are read of two packages. A question begins with the minor version of cargo and
//! what it reports of them: `members` and their ids, `same` and the members' ids where both
//! packages have the id `a`, `publish` and that of the first one, or `graph` and the graph. The
//! answer has that version, the workspace's folder and its members; then the packages, each with
//! its id, version and manifest, whether it may be published, its least Rust version, its features
//! with their values, and its optional dependencies; then the nodes with their dependencies.

use crate::tests::given::read;
use crate::tests::shown::name_of;
use crate::tests::workspace::{push_all, whole_text};
use hack_holds::{Ask, Wrong, hold};
use hack_metadata::metadata::{DepKindInfo, Metadata, Node, Package};
use std::alloc::{AllocError, Global};

static TWO: &str = r#"[
{"id":"a","name":"p","version":"1.2.3","manifest_path":"/w/p/Cargo.toml","publish":[],"rust_version":"1.60",
 "dependencies":[{"name":"log","optional":true,"rename":"l"},{"name":"serde","optional":false,"rename":null},
  {"name":"rand","optional":true,"rename":null}],
 "features":{"std":["log?/std","alloc"],"alloc":[]}},
{"id":"b","name":"q","version":"0.1.0","manifest_path":"/w/q/Cargo.toml","publish":null,"rust_version":null,
 "dependencies":[],"features":{}}]"#;

/// The two packages, where one of their keys is as the question says.
fn packages(alloc: Global, kind: &str, value: &str) -> Result<String, AllocError> {
    match kind {
        "same" => TWO.replace(alloc, "\"id\":\"b\"", "\"id\":\"a\""),
        "publish" => {
            let mut key = String::from_str(alloc, "\"publish\":")?;
            key.push_str(value)?;
            TWO.replace(alloc, "\"publish\":[]", key.as_str())
        }
        _ => String::from_str(alloc, TWO),
    }
}

fn text_of(alloc: Global, kind: &str, value: &str) -> Result<String, AllocError> {
    let packages = packages(alloc, kind, value)?;
    match kind {
        "publish" => whole_text(alloc, packages.as_str(), "[]", "null"),
        "graph" => whole_text(alloc, packages.as_str(), "[]", value),
        _ => whole_text(alloc, packages.as_str(), value, "null"),
    }
}

/// Appends the names of the members' packages to the text.
fn push_members(text: &mut String, metadata: &Metadata) -> Result<(), AllocError> {
    for id in &metadata.workspace_members {
        push_all(text, &[" ", name_of(metadata, *id)])?;
    }
    Ok(())
}

fn push_values(text: &mut String, values: &[String]) -> Result<(), AllocError> {
    for value in values {
        push_all(text, &[" ", value.as_str()])?;
    }
    Ok(())
}

/// Appends the features with their values to the text.
fn push_features(text: &mut String, package: &Package) -> Result<(), AllocError> {
    for (name, values) in &package.features {
        push_all(text, &[" ", name.as_str()])?;
        push_values(text, values.as_slice())?;
        text.push_str(";")?;
    }
    Ok(())
}

fn push_optional(text: &mut String, package: &Package) -> Result<(), AllocError> {
    for name in package.optional_deps() {
        push_all(text, &[" ", name, ","])?;
    }
    Ok(())
}

fn text_or<'a>(text: &'a Option<String>, otherwise: &'static str) -> &'a str {
    match text {
        Some(text) => text.as_str(),
        None => otherwise,
    }
}

fn push_package(text: &mut String, package: &Package) -> Result<(), AllocError> {
    let publish = if package.publish {
        ", public, "
    } else {
        ", private, "
    };
    push_all(
        text,
        &["\n", package.id.as_str(), " ", package.version.as_str()],
    )?;
    push_all(text, &[" at ", package.manifest_path.as_str(), publish])?;
    push_all(text, &[text_or(&package.rust_version, "none"), ":"])?;
    push_features(text, package)?;
    push_optional(text, package)
}

fn push_packages(text: &mut String, packages: &[Package]) -> Result<(), AllocError> {
    for package in packages {
        push_package(text, package)?;
    }
    Ok(())
}

fn push_kinds(text: &mut String, kinds: &[DepKindInfo]) -> Result<(), AllocError> {
    for kind in kinds {
        push_all(text, &[" ", text_or(&kind.kind, "normal")])?;
        push_all(text, &[" ", text_or(&kind.target, "all"), ";"])?;
    }
    Ok(())
}

fn push_node(text: &mut String, node: &Node) -> Result<(), AllocError> {
    text.push_str("\nnode:")?;
    for dep in &node.deps {
        push_kinds(text, dep.dep_kinds.as_slice())?;
    }
    Ok(())
}

fn push_nodes(text: &mut String, metadata: &Metadata) -> Result<(), AllocError> {
    for node in metadata.resolve.nodes.values() {
        push_node(text, node)?;
    }
    Ok(())
}

fn shown(alloc: Global, metadata: &Metadata) -> Result<String, AllocError> {
    let minor = metadata.cargo_version;
    let mut text = format!(in alloc; "1.{minor} in ")?;
    push_all(&mut text, &[metadata.workspace_root.as_str(), ":"])?;
    push_members(&mut text, metadata)?;
    push_packages(&mut text, metadata.packages.as_slice())?;
    push_nodes(&mut text, metadata)?;
    Ok(text)
}

#[derive(Clone, Copy)]
struct Records {}

impl Ask for Records {
    fn answer(&mut self, alloc: Global, question: &str) -> Result<String, AllocError> {
        let (minor, rest) = question.split_once(' ').unwrap_or((question, ""));
        let (kind, value) = rest.split_once(' ').unwrap_or((rest, ""));
        let text = text_of(alloc, kind, value)?;
        match read(alloc, text.as_str(), minor.parse::<u32>().unwrap_or(0)) {
            Ok(metadata) => shown(alloc, &metadata),
            Err(fault) => format!(in alloc; "{fault}"),
        }
    }
}

/// The two packages in answers, by the privacy and the version of the first.
static BOTH: [(&str, &str); 4] = [
    (
        "+ private, 1.60",
        "| a 1.2.3 at /w/p/Cargo.toml, private, 1.60: alloc; std log?/std alloc; l, rand,\n| b 0.1.0 at /w/q/Cargo.toml, public, none:",
    ),
    (
        "+ public, 1.60",
        "| a 1.2.3 at /w/p/Cargo.toml, public, 1.60: alloc; std log?/std alloc; l, rand,\n| b 0.1.0 at /w/q/Cargo.toml, public, none:",
    ),
    (
        "+ private, none",
        "| a 1.2.3 at /w/p/Cargo.toml, private, none: alloc; std log?/std alloc; l, rand,\n| b 0.1.0 at /w/q/Cargo.toml, public, none:",
    ),
    (
        "+ public, none",
        "| a 1.2.3 at /w/p/Cargo.toml, public, none: alloc; std log?/std alloc; l, rand,\n| b 0.1.0 at /w/q/Cargo.toml, public, none:",
    ),
];

/// Checks rows, in which both packages may be given by a line `+ PRIVACY, VERSION`.
fn on(alloc: Global, rows: &str) -> Result<(), Wrong> {
    let mut rows = String::from_str(alloc, rows)?;
    for (name, lines) in &BOTH {
        rows = rows.as_str().replace(alloc, name, lines)?;
    }
    hold(alloc, &mut Records {}, rows.as_str())
}

#[test]
fn a_package_as_it_is(rt: HostRuntime) -> Result<(), Wrong> {
    on(
        rt.alloc(),
        r#"
            > 90 members ["b","a"]
            | 1.90 in /w: q p
            + private, 1.60
        "#,
    )
}

#[test]
fn members_are_the_last_packages_and_stand_once(rt: HostRuntime) -> Result<(), Wrong> {
    on(
        rt.alloc(),
        r#"
            > 90 members ["a"]
            | 1.90 in /w: p
            + private, 1.60
            > 90 members ["b","a","b","b","a"]
            | 1.90 in /w: q p
            + private, 1.60
            > 90 members []
            | 1.90 in /w:
            + private, 1.60
            > 90 same ["a"]
            | 1.90 in /w: q
            | a 1.2.3 at /w/p/Cargo.toml, private, 1.60: alloc; std log?/std alloc; l, rand,
            | a 0.1.0 at /w/q/Cargo.toml, public, none:
        "#,
    )
}

#[test]
fn fields_that_came_with_a_later_cargo(rt: HostRuntime) -> Result<(), Wrong> {
    on(
        rt.alloc(),
        r#"
            > 38 publish []
            | 1.38 in /w:
            + public, none
            > 39 publish []
            | 1.39 in /w:
            + private, none
            > 57 publish []
            | 1.57 in /w:
            + private, none
            > 58 publish []
            | 1.58 in /w:
            + private, 1.60
            > 58 publish null
            | 1.58 in /w:
            + public, 1.60
            > 58 publish ["mine"]
            | 1.58 in /w:
            + public, 1.60
        "#,
    )
}

// A cargo 1.29 reports no dependencies of nodes.
#[test]
fn a_graph_of_dependencies(rt: HostRuntime) -> Result<(), Wrong> {
    on(
        rt.alloc(),
        r#"
            > 90 graph {"nodes":[{"id":"b","deps":[]},{"id":"a","deps":[{"pkg":"b","dep_kinds":[{"kind":null,"target":"cfg(unix)"},{"kind":"dev","target":null}]}]}]}
            | 1.90 in /w:
            + private, 1.60
            | node: normal cfg(unix); dev all;
            | node:
            > 29 graph {"nodes":[{"id":"b","deps":[]},{"id":"a","deps":[{"pkg":"b","dep_kinds":[{"kind":null,"target":"cfg(unix)"},{"kind":"dev","target":null}]}]}]}
            | 1.29 in /w:
            + public, none
            | node:
            | node:
        "#,
    )
}
