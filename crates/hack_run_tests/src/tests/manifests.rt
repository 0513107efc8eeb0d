//! Manifests that are edited for a call: what is printed, and then what is written, in order.

use crate::tests::asked::on;
use crate::tests::worlds::{ROOT, VIRTUAL};
use hack_holds::Wrong;
use std::alloc::Global;

#[test]
fn development_dependencies(rt: HostRuntime) -> Result<(), Wrong> {
    on(
        rt.alloc(),
        ROOT,
        r#"
            > err changes: hack check --no-dev-deps
            + no-dev-deps told
            | info: running `cargo check` on p (1/1)
            + root edited
            + root as it was
            | status 0

            > err changes: hack check --no-dev-deps; fails 101 cargo check --manifest-path Cargo.toml
            + no-dev-deps told
            | info: running `cargo check` on p (1/1)
            | error: process didn't exit successfully: `cargo check --manifest-path Cargo.toml` (exit status: 101)
            + root edited
            + root as it was
            | status 1

            > err changes: hack --remove-dev-deps
            + root edited
            | status 0

            > err changes: hack check --no-dev-deps --partition 2/2 -v
            + no-dev-deps told
            | info: removing dev-dependencies from /w/Cargo.toml
            | info: skipping `cargo check --manifest-path Cargo.toml` (1/1)
            | info: restoring /w/Cargo.toml
            | info: restoring /w/Cargo.lock
            + root edited
            + root as it was
            | status 0
        "#,
    )
}

#[test]
fn private_members(rt: HostRuntime) -> Result<(), Wrong> {
    on(
        rt.alloc(),
        VIRTUAL,
        r#"
            > err changes: hack check --no-private --workspace
            + no-private told
            | info: skipped running on private package `q`
            | info: running `cargo check` on p (1/1)
            | /w/Cargo.toml:
            | [workspace]
            | members = ["p"]
            | /w/Cargo.toml:
            | [workspace]
            | members = ["p", "q"]
            | status 0

            > err changes: hack check --no-private --no-dev-deps --workspace
            | err
            | info: --no-dev-deps and --no-private modify real `Cargo.toml` while cargo-hack is running and restores it when finished
            | info: skipped running on private package `q`
            | info: running `cargo check` on p (1/1)
            | /w/p/Cargo.toml:
            | [package]
            | name = "p"
            | /w/Cargo.toml:
            | [workspace]
            | members = ["p"]
            | /w/p/Cargo.toml:
            | [package]
            | name = "p"
            | [dev-dependencies]
            | d = "1"
            | /w/Cargo.toml:
            | [workspace]
            | members = ["p", "q"]
            | status 0
        "#,
    )
}

#[test]
fn a_private_root(rt: HostRuntime) -> Result<(), Wrong> {
    on(
        rt.alloc(),
        ROOT,
        r#"
            > err changes: hack check --no-private; members p! /w/Cargo.toml
            + no-private told
            | error: --no-private is not supported yet with workspace with private root crate
            | status 1
        "#,
    )
}

/// No text names the private member, and there is no header after which its folder could be
/// excluded.
const UNPLACED: &str = r#"
    + p and a private q
    file: /w/Cargo.toml
    | workspace.members = ["*"]
"#;

/// No text names the private member, and the list of excluded folders has a value that is no
/// string.
const NUMBERED: &str = r#"
    + p and a private q
    file: /w/Cargo.toml
    | [workspace]
    | members = ["*"]
    | exclude = [1]
"#;

/// A member's development dependencies are in an inline table.
const INLINE: &str = r#"
    members p /w/p/Cargo.toml, q /w/q/Cargo.toml
    file: /w/Cargo.toml
    | [workspace]
    | members = ["p", "q"]
    file: /w/p/Cargo.toml
    | [package]
    | [dev-dependencies]
    file: /w/q/Cargo.toml
    | target = { x = { dev-dependencies = {} } }
    | [package]
"#;

/// Checks that private members stay in this workspace: the call ends with the error.
fn refused(alloc: Global, world: &str, error: &str) -> Result<(), Wrong> {
    let call = "> err changes: hack check --no-private --workspace\n+ no-private told";
    let rows = format!(in alloc; "{call}\n| error: {error}\n| status 1")?;
    on(alloc, world, rows.as_str())
}

#[test]
fn a_member_that_no_text_names(rt: HostRuntime) -> Result<(), Wrong> {
    refused(
        rt.alloc(),
        UNPLACED,
        "unsupported form of manifest `/w/Cargo.toml`",
    )
}

#[test]
fn an_excluded_folder_that_is_no_text(rt: HostRuntime) -> Result<(), Wrong> {
    refused(
        rt.alloc(),
        NUMBERED,
        "failed to edit manifest `/w/Cargo.toml`",
    )
}

#[test]
fn an_inline_table(rt: HostRuntime) -> Result<(), Wrong> {
    on(
        rt.alloc(),
        INLINE,
        r#"
            > err changes: hack check --no-dev-deps --workspace
            + no-dev-deps told
            | error: unsupported form of manifest `/w/q/Cargo.toml`
            | /w/p/Cargo.toml:
            | [package]
            | /w/p/Cargo.toml:
            | [package]
            | [dev-dependencies]
            | status 1
        "#,
    )
}
