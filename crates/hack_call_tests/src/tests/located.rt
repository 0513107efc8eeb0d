//! The path that `cargo locate-project` prints, asked with `root` and what it wrote, and the
//! package whose manifest is there, asked with `at` and a path.

use crate::tests::given::{located, read};
use hack_holds::{Ask, Wrong, hold};
use hack_load::context::current_package;
use hack_metadata::metadata::Metadata;
use std::alloc::{AllocError, Global};

static WORKSPACE: &str = r#"{"packages":[
{"id":"a","name":"a","version":"0.1.0","dependencies":[],"features":{},"manifest_path":"/w/a/Cargo.toml","publish":null,"rust_version":null},
{"id":"b","name":"b","version":"0.1.0","dependencies":[],"features":{},"manifest_path":"/w/b/Cargo.toml","publish":null,"rust_version":null},
{"id":"c","name":"c","version":"0.1.0","dependencies":[],"features":{},"manifest_path":"/c/Cargo.toml","publish":null,"rust_version":null}],
"workspace_members":["b","a"],"resolve":null,"workspace_root":"/w"}"#;

/// The path in an answer, or the error.
fn root(alloc: Global, text: &str) -> Result<String, AllocError> {
    let located = located(alloc, String::from_str(alloc, text)?)?;
    match located.root(alloc) {
        Ok(root) => Ok(root),
        Err(fault) => format!(in alloc; "{fault}"),
    }
}

/// The name of the current package.
fn current<'a>(metadata: &'a Metadata, root: &str) -> &'a str {
    let Some(id) = current_package(metadata, root) else {
        return "none";
    };
    match metadata.find(id) {
        Some(package) => package.name.as_str(),
        None => "unknown",
    }
}

fn current_at(alloc: Global, path: &str) -> Result<String, AllocError> {
    match read(alloc, WORKSPACE, 90) {
        Ok(metadata) => String::from_str(alloc, current(&metadata, path)),
        Err(fault) => format!(in alloc; "{fault}"),
    }
}

#[derive(Clone, Copy)]
struct Places {}

impl Ask for Places {
    fn answer(&mut self, alloc: Global, question: &str) -> Result<String, AllocError> {
        match (question.strip_prefix("root"), question.strip_prefix("at ")) {
            (Some(text), _) => root(alloc, text.trim_start()),
            (_, Some(path)) => current_at(alloc, path),
            _ => String::from_str(alloc, "no such question"),
        }
    }
}

#[test]
fn roots(rt: HostRuntime) -> Result<(), Wrong> {
    hold(
        rt.alloc(),
        &mut Places {},
        r#"
            > root {"root":"/w/Cargo.toml"}
            | /w/Cargo.toml
            > root {}
            | failed to parse `root` field from locate-project
            > root {"root":1}
            | failed to parse `root` field from locate-project
            > root []
            | failed to parse output from `cargo locate-project`
            > root /w/Cargo.toml
            | failed to parse output from `cargo locate-project`
            > root
            | failed to parse output from `cargo locate-project`
        "#,
    )
}

#[test]
fn current_packages(rt: HostRuntime) -> Result<(), Wrong> {
    hold(
        rt.alloc(),
        &mut Places {},
        "
            > at /w/a/Cargo.toml
            | a
            > at /w/b/Cargo.toml
            | b
            > at /c/Cargo.toml
            | none
            > at /w/Cargo.toml
            | none
        ",
    )
}
