//! Errors of lists and of whole calls of the program: readers and writers that fail with each kind
//! of error, and what is reported.

use crate::tests::lists::on_sharing;
use hack_holds::Wrong;
use std::alloc::Global;

const MAP: &str = r#"{"a":[],"b":["a"]}"#;

/// The list of this map, whole and as the first 100 bytes of it.
const ALL: &str = "| cargo check --no-default-features
| cargo check --no-default-features --features b
| cargo check --no-default-features --features a";

const CUT: &str = "| cargo check --no-default-features
| cargo check --no-default-features --features b
| cargo check --no-de";

/// Checks rows on the map, with these texts.
fn on_map(alloc: Global, rows: &str) -> Result<(), Wrong> {
    let shared = [("+ all lines", ALL), ("+ lines cut in the third", CUT)];
    on_sharing(alloc, MAP, &shared, rows)
}

#[test]
fn readers_that_fail(rt: HostRuntime) -> Result<(), Wrong> {
    on_map(
        rt.alloc(),
        r#"
            > read 0 memory
            | out of memory
            |
            > read 1 memory
            | out of memory
            |
            > read 2 memory
            | out of memory
            |
            > read 0 any
            | failed to read the features
            |
            > read 1 any
            | failed to read the features
            |
            > read 2 any
            | failed to read the features
            |
        "#,
    )
}

#[test]
fn failures_that_are_counted(rt: HostRuntime) -> Result<(), Wrong> {
    on_map(
        rt.alloc(),
        r#"
            > counted read other
            | failed to read the features
            | 1
            > counted read memory
            | out of memory
            | 1
            > counted 34 pipe
            | failed to write the command list
            | 1
            > counted 34 memory
            | out of memory
            | 1
            > counted 1000 other
            | ok
            | 0
        "#,
    )
}

#[test]
fn reader_that_is_interrupted(rt: HostRuntime) -> Result<(), Wrong> {
    on_map(
        rt.alloc(),
        r#"
            > interrupted reader
            | ok
            + all lines
            |
        "#,
    )
}

#[test]
fn writers_that_fail(rt: HostRuntime) -> Result<(), Wrong> {
    on_map(
        rt.alloc(),
        r#"
            > write 0 memory
            | out of memory
            |
            > write 1 memory
            | out of memory
            | c
            > write 33 memory
            | out of memory
            | cargo check --no-default-features
            > write 34 memory
            | out of memory
            | cargo check --no-default-features
            |
            > write 35 memory
            | out of memory
            | cargo check --no-default-features
            | c
            > write 100 memory
            | out of memory
            + lines cut in the third
            > write 127 memory
            | out of memory
            + all lines
            > write 0 any
            | failed to write the command list
            |
            > write 1 any
            | failed to write the command list
            | c
            > write 33 any
            | failed to write the command list
            | cargo check --no-default-features
            > write 34 any
            | failed to write the command list
            | cargo check --no-default-features
            |
            > write 35 any
            | failed to write the command list
            | cargo check --no-default-features
            | c
            > write 100 any
            | failed to write the command list
            + lines cut in the third
            > write 127 any
            | failed to write the command list
            + all lines
        "#,
    )
}

#[test]
fn writer_that_is_interrupted(rt: HostRuntime) -> Result<(), Wrong> {
    on_map(
        rt.alloc(),
        r#"
            > interrupted writer
            | ok
            + all lines
            |
        "#,
    )
}

#[test]
fn flush_that_fails(rt: HostRuntime) -> Result<(), Wrong> {
    on_map(
        rt.alloc(),
        r#"
            > flush full
            | failed to write the command list
            + all lines
            |
            > flush memory
            | out of memory
            + all lines
            |
        "#,
    )
}

#[test]
fn writer_that_takes_nothing(rt: HostRuntime) -> Result<(), Wrong> {
    on_map(
        rt.alloc(),
        r#"
            > full writer
            | failed to write the command list
            |
        "#,
    )
}

#[test]
fn faults_of_errors(rt: HostRuntime) -> Result<(), Wrong> {
    on_map(
        rt.alloc(),
        r#"
            > fault read memory
            | out of memory
            > fault write interrupted
            | failed to write the command list
            > fault write other
            | failed to write the command list
            > fault write end
            | failed to write the command list
        "#,
    )
}

#[test]
fn list_of_some_pages(rt: HostRuntime) -> Result<(), Wrong> {
    on_map(
        rt.alloc(),
        r#"
            > pages
            | true
        "#,
    )
}

#[test]
fn calls(rt: HostRuntime) -> Result<(), Wrong> {
    on_map(
        rt.alloc(),
        r#"
            > call powerset-list
            | 0 true
            + all lines
            | err:
            |
            > call
            | 0 true
            + all lines
            | err:
            |
            > call powerset-list --depth 0
            | 0 true
            | cargo check --no-default-features
            | err:
            |
            > call --depth --depth
            | 1 true
            | err:
            | error: usage: powerset-list [--depth N] [--at-least-one-of LIST]... [--mutually-exclusive-features LIST]...
            |
            > call powerset-list --depth x
            | 1 true
            | err:
            | error: invalid number `x`
            |
            > call powerset-list --at-least-one-of a
            | 1 true
            | err:
            | error: --at-least-one-of requires a list of two or more features separated by space or comma
            |
            > call powerset-list <[]
            | 1 true
            | err:
            | error: features must be an object of arrays of texts
            |
        "#,
    )
}

#[test]
fn calls_without_words(rt: HostRuntime) -> Result<(), Wrong> {
    on_map(
        rt.alloc(),
        r#"
            > lost data
            | 1 true
            | err:
            | error: the words must be UTF-8
            |
            > lost memory
            | 1 true
            | err:
            | error: out of memory
            |
        "#,
    )
}

/// An error stays an error where its line can't be printed.
#[test]
fn calls_that_cannot_tell(rt: HostRuntime) -> Result<(), Wrong> {
    on_map(
        rt.alloc(),
        r#"
            > tell 0
            | 1 false
            | err:
            |
            > tell 3
            | 1 false
            | err:
            | err
            > tell 10
            | 1 false
            | err:
            | error: inv
        "#,
    )
}

#[test]
fn commands_of_runs(rt: HostRuntime) -> Result<(), Wrong> {
    on_map(
        rt.alloc(),
        r#"
            > command plain
            | cargo check
            > command all
            | cargo check --all-features
            > command none
            | cargo check --no-default-features
            > command features
            | cargo check --no-default-features --features a,c
        "#,
    )
}
