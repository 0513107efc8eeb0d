//! What can't be read or started: bytes that are not UTF-8, programs without a name, and files of
//! which a call fails.

use crate::tests::loading::{Show, within};
use hack_holds::Wrong;

#[test]
fn a_manifest_that_is_no_text(rt: HostRuntime) -> Result<(), Wrong> {
    within(
        rt.alloc(),
        Show::Context,
        r"
            + single
            /w/Cargo.toml = [package]\n# \x\n
        ",
        "
            > check
            + metadata asked
            | 0 of 0
            | file `/w/Cargo.toml` is not UTF-8 text
        ",
    )
}

#[test]
fn answers_that_are_no_text(rt: HostRuntime) -> Result<(), Wrong> {
    within(
        rt.alloc(),
        Show::Context,
        r#"
            + the package alone
        "#,
        r"
            > cargo -vV = release: 1.80.0 \x\n $ check
            + asked
            | 0 of 0
            | /w by `cargo` 1.0 (1.0) in /w
            | at p
            | p at /w/Cargo.toml, private: false, none, 10:
            | warning: unable to determine cargo version: failed to parse output from `cargo -vV`

            # That of stable counts as none.
            > rustup run stable cargo -vV = release: 1.80.0 \x\n $ check
            + asked
            | 0 of 0
            + p in cargo 1.70
            > cargo metadata --format-version=1 --no-deps = release: 1.80.0 \x\n $ check
            + metadata asked
            | 0 of 0
            | failed to parse output from `cargo metadata --format-version=1 --no-deps`
            > cargo locate-project = release: 1.80.0 \x\n $ check
            + asked
            | 0 of 0
            | failed to parse output from `cargo locate-project`
        ",
    )
}

#[test]
fn programs_without_a_name(rt: HostRuntime) -> Result<(), Wrong> {
    within(
        rt.alloc(),
        Show::Context,
        r#"
            CARGO = cargo
            + the package alone
        "#,
        "
            > CARGO = $ check
            | rustup run stable cargo -vV
            | 0 of 0
            | empty program name
            > CARGO_HACK_CARGO_SRC = $ check
            | rustup run stable cargo -vV
            | 0 of 0
            | empty program name

            # Stable is then as if it were not there.
            > CARGO_HACK_RUSTUP = $ check
            | cargo -vV
            | cargo metadata --format-version=1 --no-deps
            | cargo locate-project
            | 0 of 0
            + p in cargo 1.70
        ",
    )
}

// The lockfile is not UTF-8, and stable's cargo is newer.
#[test]
fn files_that_fail(rt: HostRuntime) -> Result<(), Wrong> {
    within(
        rt.alloc(),
        Show::Context,
        r#"
            cargo -vV = @own
            + stable 1.80
            cargo metadata --format-version=1 --no-deps = @single
            rustup run stable cargo metadata --format-version=1 --no-deps = @single
            cargo locate-project = {"root":"/w/Cargo.toml"}
            /w/Cargo.toml = [package]\n
            /w/Cargo.lock = \x
        "#,
        r"
            # Whether there is a lockfile, and what it holds.
            > failing = 1 $ check
            + metadata asked
            | 0 of 1, lockfile '\x'
            | failed to read from file `/w/Cargo.lock`
            > failing = 2 $ check
            + metadata asked
            | 0 of 1, lockfile '\x'
            | failed to read from file `/w/Cargo.lock`

            # A lockfile that can't be written back is as the failure left it.
            > failing = 3 $ check
            + stable's metadata asked
            | 0 of 1, lockfile ''
            | failed to write to file `/w/Cargo.lock`
            > failing = 4 $ check
            + stable's metadata asked
            | 0 of 1, lockfile '\x'
            | failed to read from file `/w/Cargo.toml`
            > failing = 0 $ check
            + stable's metadata asked
            | cargo locate-project
            | 0 of 0, lockfile '\x'
            + p by stable 1.80
        ",
    )
}
