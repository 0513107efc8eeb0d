//! The texts and the arguments of commands. `commands` describes the questions.

use crate::commands::{on, on_own};
use hack_holds::Wrong;

#[test]
fn the_words_stand_in_their_order(rt: HostRuntime) -> Result<(), Wrong> {
    on(
        rt.alloc(),
        "check|--tests",
        "-D|two words",
        "
            > command: /bin/cargo
            | `cargo`
            > words
            |
            > own word: --no-default-features
            | `cargo --no-default-features`
            > own words: --manifest-path|a/Cargo.toml
            | `cargo --no-default-features`
            > leading: +1.60
            | `cargo +1.60 --no-default-features`
            > passed
            | `cargo +1.60 check --tests --no-default-features -- -D two words`
            > names: a|b
            | `cargo +1.60 check --tests --no-default-features --features a,b -- -D two words`
            > program
            | /bin/cargo
            > words
            | +1.60|check|--tests|--no-default-features|--manifest-path|a/Cargo.toml|--features|a,b|--|-D|two words
            > nothing passed
            | `cargo +1.60 --no-default-features --features a,b`
            > words
            | +1.60|--no-default-features|--manifest-path|a/Cargo.toml|--features|a,b
        ",
    )
}

#[test]
fn short_and_long_texts(rt: HostRuntime) -> Result<(), Wrong> {
    on(
        rt.alloc(),
        "check",
        "-D|x",
        "
            > command: /usr/bin/cargo
            | `cargo`
            > passed
            | `cargo check -- -D x`
            > own word: --manifest-path
            | `cargo check --manifest-path -- -D x`
            > own words: m/Cargo.toml|--no-default-features
            | `cargo check --no-default-features -- -D x`
            > names: a|b
            | `cargo check --no-default-features --features a,b -- -D x`
            > texts
            | `cargo check --no-default-features --features a,b -- -D x`
            | `/usr/bin/cargo check --manifest-path m/Cargo.toml --no-default-features --features a,b -- -D x`
            | `/usr/bin/cargo check --manifest-path m/Cargo.toml --no-default-features --features a,b -- -D x`
            > listed
            | cargo check --manifest-path Cargo.toml --no-default-features --features a,b -- -D x
            > stripped
            | `cargo check --no-default-features --features a,b -- -D x`
            > texts
            | `cargo check --no-default-features --features a,b -- -D x`
            | `cargo check --manifest-path m/Cargo.toml --no-default-features --features a,b -- -D x`
            | `cargo check --manifest-path m/Cargo.toml --no-default-features --features a,b -- -D x`
            > listed
            | cargo check --manifest-path Cargo.toml --no-default-features --features a,b -- -D x
        ",
    )
}

#[test]
fn leading_words_come_first(rt: HostRuntime) -> Result<(), Wrong> {
    on(
        rt.alloc(),
        "check|-q",
        "",
        "
            > own words: --all-features
            | `c --all-features`
            > passed
            | `c check -q --all-features`
            > leading: run
            | `c run check -q --all-features`
            > leading: 1.60
            | `c run 1.60 check -q --all-features`
        ",
    )
}

#[test]
fn programs_without_a_name(rt: HostRuntime) -> Result<(), Wrong> {
    on_own(
        rt.alloc(),
        "
            > command: ..
            | `..`
            > command: /
            | `/`
            > command: a.b.c
            | `a.b`
            > command: .hidden
            | `.hidden`
            > command:
            | ``
        ",
    )
}

static MANIFEST_PATHS: &str = "
    > command: c
    | `c`
    > own words: --manifest-path
    | `c --manifest-path`
    > texts
    | `c --manifest-path`
    | `c --manifest-path`
    | `c --manifest-path`

    > command: c
    | `c`
    > own words: -a|--manifest-path
    | `c -a --manifest-path`
    > texts
    | `c -a --manifest-path`
    | `c -a --manifest-path`
    | `c -a --manifest-path`

    > command: c
    | `c`
    > own words: --manifest-path|/w/m|-b
    | `c -b`
    > texts
    | `c -b`
    | `c --manifest-path m -b`
    | `c --manifest-path m -b`

    > command: c
    | `c`
    > own words: --manifest-path|--manifest-path|--manifest-path
    | `c --manifest-path`
    > texts
    | `c --manifest-path`
    | `c --manifest-path --manifest-path --manifest-path`
    | `c --manifest-path --manifest-path --manifest-path`

    > command: c
    | `c`
    > own words: --manifest-path=/w/m
    | `c --manifest-path=/w/m`
    > texts
    | `c --manifest-path=/w/m`
    | `c --manifest-path=/w/m`
    | `c --manifest-path=/w/m`

    > command: c
    | `c`
    > own words: --manifest-path|/v/m
    | `c`
    > texts
    | `c`
    | `c --manifest-path /v/m`
    | `c --manifest-path /v/m`
";

#[test]
fn manifest_paths(rt: HostRuntime) -> Result<(), Wrong> {
    on_own(rt.alloc(), MANIFEST_PATHS)
}

#[test]
fn only_own_words_are_options(rt: HostRuntime) -> Result<(), Wrong> {
    on(
        rt.alloc(),
        "--manifest-path|m",
        "--manifest-path|m",
        "
            > passed
            | `c --manifest-path m -- --manifest-path m`
        ",
    )
}

#[test]
fn features_are_one_word(rt: HostRuntime) -> Result<(), Wrong> {
    on_own(
        rt.alloc(),
        "
            > empty name
            | `c --features `
            > names:
            | `c --features `
            > names: a
            | `c --features ,a`
            > names: b||c
            | `c --features ,a,b,,c`
        ",
    )
}

#[test]
fn no_names_are_no_features(rt: HostRuntime) -> Result<(), Wrong> {
    on_own(
        rt.alloc(),
        "
            > names:
            | `c`
            > names: a|b
            | `c --features a,b`
            > listed
            | c --features a,b
        ",
    )
}
