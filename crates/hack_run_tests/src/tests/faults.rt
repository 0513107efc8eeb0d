//! Errors of each stage after the command line.

use crate::tests::asked::on;
use crate::tests::worlds::PLAIN;
use hack_holds::Wrong;

#[test]
fn what_is_loaded(rt: HostRuntime) -> Result<(), Wrong> {
    on(
        rt.alloc(),
        PLAIN,
        r#"
            > hack check; fails 101 cargo metadata --format-version=1 --no-deps
            | cargo -vV
            | rustup run stable cargo -vV
            | cargo metadata --format-version=1 --no-deps
            | err
            | error: process didn't exit successfully: `cargo metadata --format-version=1 --no-deps` (exit status: 101)
            | status 1

            > hack check; writes cargo metadata --format-version=1 --no-deps = {}
            | cargo -vV
            | rustup run stable cargo -vV
            | cargo metadata --format-version=1 --no-deps
            | err
            | error: failed to parse `packages` field from metadata
            | status 1

            > hack check; fails 101 cargo locate-project
            | asked
            | err
            | error: process didn't exit successfully: `cargo locate-project` (exit status: 101)
            | status 1

            > hack check; writes cargo locate-project = {}
            | asked
            | err
            | error: failed to parse `root` field from locate-project
            | status 1

            > hack check; fails 1 cargo -vV; fails 1 rustup run stable cargo -vV
            | asked
            | cargo check --manifest-path Cargo.toml
            | err
            | warning: unable to determine cargo version: process didn't exit successfully: `cargo -vV` (exit status: 1)
            | info: running `cargo check` on p (1/1)
            | status 0

            > hack check; no cargo
            | rustup run stable cargo -vV
            | err
            | error: empty program name
            | status 1
        "#,
    )
}

#[test]
fn the_plan(rt: HostRuntime) -> Result<(), Wrong> {
    on(
        rt.alloc(),
        PLAIN,
        r#"
            > hack check --package x
            | asked
            | err
            | error: package ID specification `x` matched no packages
            | status 1

            > hack check --rust-version
            + asked after rustup
            | err
            | error: no rust-version field in selected Cargo.toml's is specified
            | status 1

            > hack check --version-range 1.61..=1.60
            + asked after rustup
            | err
            | error: specified version range `1.61..=1.60` is empty
            | status 1

            > hack check --rust-version; own "x.1"
            + asked after rustup
            | err
            | error: invalid number `x`
            | status 1

            > hack check --workspace --exclude y
            + y isn't a member
            | status 0
        "#,
    )
}

#[test]
fn a_missing_program(rt: HostRuntime) -> Result<(), Wrong> {
    on(
        rt.alloc(),
        PLAIN,
        r#"
            > hack check; missing cargo metadata --format-version=1 --no-deps
            | cargo -vV
            | rustup run stable cargo -vV
            | cargo metadata --format-version=1 --no-deps
            | err
            | info: no `cargo` is in the `PATH`
            | error: could not execute process `cargo metadata --format-version=1 --no-deps` (never executed)
            | status 1
            > hack check; chosen own; missing own metadata --format-version=1 --no-deps
            | own -vV
            | rustup run stable cargo -vV
            | own metadata --format-version=1 --no-deps
            | err
            | info: cargo is chosen by CARGO_HACK_CARGO_SRC or CARGO, and rustup by CARGO_HACK_RUSTUP
            | error: could not execute process `own metadata --format-version=1 --no-deps` (never executed)
            | status 1
        "#,
    )
}
