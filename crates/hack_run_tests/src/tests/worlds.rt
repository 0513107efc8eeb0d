//! The worlds that several modules use. `world` says what a line means.

/// The package `p`, with a cargo 1.90 that is stable's.
pub const PLAIN: &str = r#"
    members p /w/Cargo.toml
    file: /w/Cargo.toml
    | [package]
    | name = "p"
    | [features]
    + features
"#;

/// A package with development dependencies at the root of its workspace, and a lockfile.
pub const ROOT: &str = r#"
    members p /w/Cargo.toml
    file: /w/Cargo.toml
    + root manifest
    file: /w/Cargo.lock
    | # lock
"#;

/// A workspace without a package at its root, with a private member.
pub const VIRTUAL: &str = r#"
    members p /w/p/Cargo.toml, q! /w/q/Cargo.toml
    file: /w/Cargo.toml
    | [workspace]
    | members = ["p", "q"]
    file: /w/p/Cargo.toml
    | [package]
    | name = "p"
    | [dev-dependencies]
    | d = "1"
    file: /w/q/Cargo.toml
    | [package]
    | name = "q"
    | publish = false
    | [dev-dependencies]
    | d = "1"
"#;
