//! Calls on files of which one call fails. `each broken call: ..` does the same again and again:
//! the first call of the files fails, then the second, and so on until none does. The answer has a
//! line for each: the errors that are printed, the paths whose contents differ from those at first,
//! and the status.

use crate::tests::asked::{called, on};
use crate::tests::world::{push_all, world_of};
use crate::tests::worlds::{ROOT, VIRTUAL};
use hack_holds::Wrong;
use std::alloc::{AllocError, Global};

/// What the call does where this call of the files fails, on one line.
fn failing_at(alloc: Global, world: &str, words: &str, place: u64) -> Result<String, AllocError> {
    let given = format!(in alloc; "broken call {place}")?;
    let world = world_of(alloc, given.as_str(), world)?;
    let told = called(alloc, world.as_str(), words, "errors left")?;
    let told = told.as_str().replace(alloc, "\n", ", ")?;
    format!(in alloc; "{place}: {told}")
}

pub fn failing(alloc: Global, world: &str, words: &str) -> Result<String, AllocError> {
    let mut text = String::new(alloc);
    for place in 1..100 {
        let told = failing_at(alloc, world, words, place)?;
        push_all(&mut text, &[told.as_str(), "\n"])?;
        if told.as_str().ends_with(": status 0") {
            break;
        }
    }
    let _ = text.pop();
    Ok(text)
}

// The manifest is read, edited and written, the lockfile is looked for and read, and both are
// written back. A write that fails leaves its file empty, and the next one goes on.
#[test]
fn a_package(rt: HostRuntime) -> Result<(), Wrong> {
    on(
        rt.alloc(),
        ROOT,
        r#"
            > each broken call: hack check --no-dev-deps
            | 1: error: failed to read from file `/w/Cargo.toml`, status 1
            | 2: error: failed to write to file `/w/Cargo.toml`, status 1
            | 3: error: failed to read from file `/w/Cargo.lock`, status 1
            | 4: error: failed to read from file `/w/Cargo.lock`, status 1
            | 5: error: failed to write to file `/w/Cargo.toml`, left /w/Cargo.toml, status 1
            | 6: error: failed to write to file `/w/Cargo.lock`, left /w/Cargo.lock, status 1
            | 7: status 0
        "#,
    )
}

// Both members are read, and the public one is written; the workspace's manifest, which belongs to
// no member, is read and written; the lockfile is looked for, and both are written back.
#[test]
fn a_workspace(rt: HostRuntime) -> Result<(), Wrong> {
    on(
        rt.alloc(),
        VIRTUAL,
        r#"
            > each broken call: hack check --no-private --no-dev-deps --workspace
            | 1: error: failed to read from file `/w/p/Cargo.toml`, status 1
            | 2: error: failed to read from file `/w/q/Cargo.toml`, status 1
            | 3: error: failed to write to file `/w/p/Cargo.toml`, status 1
            | 4: error: failed to read from file `/w/Cargo.toml`, status 1
            | 5: error: failed to write to file `/w/Cargo.toml`, status 1
            | 6: error: failed to read from file `/w/Cargo.lock`, status 1
            | 7: error: failed to write to file `/w/p/Cargo.toml`, left /w/p/Cargo.toml, status 1
            | 8: error: failed to write to file `/w/Cargo.toml`, left /w/Cargo.toml, status 1
            | 9: status 0
        "#,
    )
}
