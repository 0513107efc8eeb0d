//! Workspaces without private crates.

use crate::tests::edits::{given, on};
use crate::tests::text::plain;
use hack_edits::manifest::EditFault;
use hack_holds::Wrong;
use hack_private_crates::laws::paths_in_order;
use hack_private_crates::private_crates::remove_private_crates;
use std::alloc::{AllocError, Global};

/// The text of a workspace without the crates at the paths.
pub fn without(alloc: Global, question: &str) -> Result<String, AllocError> {
    let (paths, text) = question.split_once(';').unwrap_or((question, ""));
    let paths = plain(alloc, paths)?;
    let text = plain(alloc, text.strip_prefix(" ").unwrap_or(text))?;
    let mut private = Vec::new(alloc);
    for path in paths.split(' ') {
        if !path.is_empty() {
            private.push(path)?;
        }
    }
    let outcome = remove_private_crates(alloc, text.as_str(), "/w", private.as_slice());
    given(alloc, outcome)
}

/// The text of an error.
pub fn fault(alloc: Global, name: &str) -> Result<String, AllocError> {
    let fault = match name {
        "Toml" => EditFault::Toml,
        "InlineTarget" => EditFault::InlineTarget,
        "WorkspaceForm" => EditFault::WorkspaceForm,
        "PathText" => EditFault::PathText,
        "ReadBack" => EditFault::ReadBack,
        _ => EditFault::Memory,
    };
    format!(in alloc; "{fault}")
}

#[test]
fn members_taken_out(rt: HostRuntime) -> Result<(), Wrong> {
    on(
        rt.alloc(),
        r#"
            > without /w/b/Cargo.toml; [workspace]\nmembers = ["a", "b"]\n
            | [workspace]\nmembers = ["a"]\n
            > without /w/a/Cargo.toml; [workspace]\nmembers = ["a", "b"]\n
            | [workspace]\nmembers = [ "b"]\n
            > without /w/b/Cargo.toml /w/a/Cargo.toml; [workspace]\nmembers = ["a", "b"]\n
            | [workspace]\nmembers = []\n
            > without /w/b/Cargo.toml; [workspace]\nmembers = ["./b", "b", "c"]\n
            | [workspace]\nmembers = [ "b", "c"]\n
            > without /v/c/Cargo.toml /w/b/Cargo.toml; [workspace]\r\nmembers = [\r\n  "a", # a\r\n  "x/../b/", # b\r\n  '/v/c',\r\n]\r\n
            | [workspace]\r\nmembers = [\r\n  "a",\r\n]\r\n
            > without /w/b/Cargo.toml; workspace.members = ["a", "b"] # m\n[package]\n
            | workspace.members = ["a"] # m\n[package]\n
        "#,
    )
}

#[test]
fn crates_excluded(rt: HostRuntime) -> Result<(), Wrong> {
    on(
        rt.alloc(),
        r#"
            > without /w/crates/p/Cargo.toml; [workspace]\nmembers = ["crates/*"]\n
            | [workspace]\nexclude = ["/w/crates/p"]\nmembers = ["crates/*"]\n
            > without /w/crates/p/Cargo.toml; [workspace]\nexclude = ["x"]\n
            | [workspace]\nexclude = ["x", "/w/crates/p"]\n
            > without /w/crates/p/Cargo.toml; [workspace]\nexclude = ["x" , # c\n]
            | [workspace]\nexclude = ["x", "/w/crates/p" , # c\n]
            > without /w/p/Cargo.toml; [workspace]\nexclude = [ # c ]\n]
            | [workspace]\nexclude = ["/w/p" # c ]\n]
            > without /w/q"\\/Cargo.toml; [workspace]\nexclude = [ ]
            | [workspace]\nexclude = ["/w/q\\"\\\\" ]
            > without /w/p/Cargo.toml; # c\n[workspace] # d
            | # c\n[workspace] # d\nexclude = ["/w/p"]\n
            > without /w/p/Cargo.toml; workspace.exclude = ['x']\n
            | workspace.exclude = ['x', "/w/p"]\n
        "#,
    )
}

#[test]
fn crates_in_byte_order(rt: HostRuntime) -> Result<(), Wrong> {
    paths_in_order();
    on(
        rt.alloc(),
        r#"
            > without /w/c/Cargo.toml /w/a/Cargo.toml /w/b/Cargo.toml /w/a-b/Cargo.toml /w/c/Cargo.toml; [workspace]\nmembers = ["b", "*"]\n
            | [workspace]\nexclude = ["/w/a-b", "/w/a", "/w/c"]\nmembers = [ "*"]\n
            > without /w/b/Cargo.toml /w/A/Cargo.toml; [workspace]\nexclude = []\n
            | [workspace]\nexclude = ["/w/A", "/w/b"]\n
            > without /w/b/Cargo.toml /w/a/Cargo.toml; [workspace]\nexclude = ["z"]\n
            | [workspace]\nexclude = ["z", "/w/a", "/w/b"]\n
        "#,
    )
}

#[test]
fn nothing_to_do(rt: HostRuntime) -> Result<(), Wrong> {
    on(
        rt.alloc(),
        r#"
            > without /w/crates/p/Cargo.toml; [package]\n
            | [package]\n
            > without /w/crates/p/Cargo.toml;
            |
            > without /w/crates/p/Cargo.toml; workspace = 1\n
            | workspace = 1\n

            # No crate.
            > without ; workspace = { members = ["a"] }\r\n# c
            | workspace = { members = ["a"] }\r\n# c
        "#,
    )
}

#[test]
fn refused_forms(rt: HostRuntime) -> Result<(), Wrong> {
    on(
        rt.alloc(),
        r#"
            > without /w/p/Cargo.toml; [x\n
            | refused: Toml
            > without /w/crates/p/Cargo.toml; workspace.members = ["crates/*"]\n
            | refused: WorkspaceForm
            > without /w/a/Cargo.toml; workspace = { members = ["a"] }\n
            | refused: WorkspaceForm
            > without /w/p/Cargo.toml; [workspace]\nexclude = 1\n
            | refused: WorkspaceForm
            > without /w/p/Cargo.toml; [workspace.package]\nname = "a"\n
            | refused: WorkspaceForm
            > without /w/a\n/Cargo.toml; [workspace]\n
            | refused: PathText
            > without /w/a\d/Cargo.toml; [workspace]\n
            | refused: PathText
            > without /w/p/Cargo.toml; [workspace]\nexclude = [1]\n
            | refused: ReadBack
        "#,
    )
}

#[test]
fn texts_of_faults(rt: HostRuntime) -> Result<(), Wrong> {
    on(
        rt.alloc(),
        "
            > fault Toml
            | failed to parse manifest as toml
            > fault InlineTarget
            | unsupported form of manifest
            > fault WorkspaceForm
            | unsupported form of manifest
            > fault PathText
            | unsupported form of manifest
            > fault ReadBack
            | failed to edit manifest
            > fault Memory
            | out of memory
        ",
    )
}
