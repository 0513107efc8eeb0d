//! The context of a call, in workspaces of several kinds and with several versions of cargo.

use crate::tests::loading::{Show, within};
use hack_holds::Wrong;

#[test]
fn workspaces(rt: HostRuntime) -> Result<(), Wrong> {
    within(
        rt.alloc(),
        Show::Context,
        r#"
            + rooted
        "#,
        r#"
            > cargo locate-project = {"root":"/w/Cargo.toml"} & /w/Cargo.toml = [package]\n[features]\na = []\n & /w/q/Cargo.toml = [package]\n $ check
            + asked
            | 0 of 0
            | /w by `cargo` 1.70 (1.70) in /w
            | at p
            | p at /w/Cargo.toml, private: false, 1.60, 28: a
            | q at /w/q/Cargo.toml, private: true, none, 10:
            > cargo locate-project = {"root":"/w/q/Cargo.toml"} & /w/Cargo.toml = [package]\n & /w/q/Cargo.toml = [package]\n[features]\na = []\n $ check
            + asked
            | 0 of 0
            | /w by `cargo` 1.70 (1.70) in /w
            | at q
            | p at /w/Cargo.toml, private: false, 1.60, 10:
            | q at /w/q/Cargo.toml, private: true, none, 28: a
        "#,
    )?;
    within(
        rt.alloc(),
        Show::Context,
        r#"
            + virtual
            cargo locate-project = {"root":"/w/Cargo.toml"}
            /w/a/Cargo.toml = [package]\n
            /w/b/Cargo.toml = [package]\n
        "#,
        "
            > check
            + asked
            | 0 of 0
            | /w by `cargo` 1.70 (1.70) in /w
            | at none
            | a at /w/a/Cargo.toml, private: false, none, 10:
            | b at /w/b/Cargo.toml, private: false, none, 10:
        ",
    )
}

#[test]
fn words_and_a_newer_stable(rt: HostRuntime) -> Result<(), Wrong> {
    within(
        rt.alloc(),
        Show::Context,
        r#"
            + single
            cargo metadata --format-version=1 --manifest-path m --no-deps = @single
            rustup run stable cargo metadata --format-version=1 --no-deps = @single
            cargo locate-project = {"root":"/w/Cargo.toml"}
            cargo locate-project --manifest-path m = {"root":"/w/Cargo.toml"}
            /w/Cargo.toml = [package]\n
        "#,
        r#"
            > check --verbose --manifest-path m
            | cargo -vV
            | rustup run stable cargo -vV
            | cargo metadata --format-version=1 --manifest-path m --no-deps
            | cargo locate-project --manifest-path m
            | 0 of 0
            | /w by `cargo` 1.70 (1.70) in /w
            | at p
            | p (/w) at /w/Cargo.toml, private: false, 1.60, 10:

            # Stable's cargo reports the metadata where it is newer, and the lockfile stays.
            > rustup run stable cargo -vV = release: 1.80.0\n & /w/Cargo.lock = locked $ check
            + stable's metadata asked
            | cargo locate-project
            | 0 of 0, lockfile 'locked'
            + p by stable 1.80
        "#,
    )
}

// A private package 1.50 by its manifest, which the metadata report as a public one of 1.60.
#[test]
fn minor_versions_of_cargo(rt: HostRuntime) -> Result<(), Wrong> {
    within(
        rt.alloc(),
        Show::Members,
        r#"
            cargo metadata --format-version=1 --no-deps = @single
            cargo locate-project = {"root":"/w/Cargo.toml"}
            /w/Cargo.toml = [package]\npublish = false\nrust-version = "1.50"\n
        "#,
        "
            > cargo -vV = release: 1.29.0 $ check
            + as the manifest says
            > cargo -vV = release: 1.30.0 $ check
            + as the manifest says
            > cargo -vV = release: 1.38.0 $ check
            + as the manifest says
            > cargo -vV = release: 1.39.0 $ check
            + public as reported
            > cargo -vV = release: 1.40.0 $ check
            + public as reported
            > cargo -vV = release: 1.41.0 $ check
            + public as reported
            > cargo -vV = release: 1.57.0-nightly $ check
            + public as reported
            > cargo -vV = release: 1.58.0 $ check
            + public and 1.60 as reported
            > cargo -vV = release: 1.63.0 $ check
            + public and 1.60 as reported
            > cargo -vV = release: 1.64.0 $ check
            + public and 1.60 as reported
            > cargo -vV = 1.64.0 $ check
            + as the manifest says
            | warning: unable to determine cargo version: unexpected output from `cargo -vV`: 1.64.0
            > cargo -vV = release: 1.x $ check
            + as the manifest says
            | warning: unable to determine cargo version: invalid number `x`
        ",
    )
}
