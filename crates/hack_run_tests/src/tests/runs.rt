//! Runs: their commands, their lines, what stops them, and the report.

use crate::tests::asked::on;
use crate::tests::worlds::{PLAIN, VIRTUAL};
use hack_holds::Wrong;

#[test]
fn a_failed_run(rt: HostRuntime) -> Result<(), Wrong> {
    on(
        rt.alloc(),
        PLAIN,
        r#"
            > hack check --each-feature --exclude-no-default-features --keep-going; features a b; fails 101 cargo check --manifest-path Cargo.toml --no-default-features --features a
            + three runs, of which a fails
            |
            | error: failed to run 1 commands
            |
            | failed commands:
            |     p:
            |         `cargo check --manifest-path Cargo.toml --no-default-features --features a`
            |
            | status 1

            > hack check --each-feature --exclude-no-default-features; features a b; fails 101 cargo check --manifest-path Cargo.toml --no-default-features --features a
            + two runs up to a
            | error: process didn't exit successfully: `cargo check --manifest-path Cargo.toml --no-default-features --features a` (exit status: 101)
            | status 1

            > hack check --each-feature --exclude-no-default-features --partition 3/3; features a b; fails 101 cargo check --manifest-path Cargo.toml --no-default-features --features a
            | asked
            | cargo check --manifest-path Cargo.toml --no-default-features --features b
            | err
            | info: skipping `cargo check --all-features` on p (1/3)
            |
            | info: skipping `cargo check --no-default-features --features a` on p (2/3)
            |
            | info: running `cargo check --no-default-features --features b` on p (3/3)
            | status 0
        "#,
    )
}

// With a strength the report is followed by what only failed runs have, first what most of them
// have, how many of them have it, and how many have nothing of the kind; where all failed, by
// nothing.
#[test]
fn what_failed_runs_have_in_common(rt: HostRuntime) -> Result<(), Wrong> {
    on(
        rt.alloc(),
        PLAIN,
        r#"
            > hack check --feature-powerset --strength 2 --keep-going; features a b; fails 101 cargo check --manifest-path Cargo.toml --no-default-features --features a,b
            | asked
            | cargo check --manifest-path Cargo.toml --no-default-features
            | cargo check --manifest-path Cargo.toml --no-default-features --features a,b
            | cargo check --manifest-path Cargo.toml --no-default-features --features a
            | cargo check --manifest-path Cargo.toml --no-default-features --features b
            | err
            | info: running `cargo check --no-default-features` on p (1/4)
            |
            | info: running `cargo check --no-default-features --features a,b` on p (2/4)
            | error: process didn't exit successfully: `cargo check --manifest-path Cargo.toml --no-default-features --features a,b` (exit status: 101)
            |
            | info: running `cargo check --no-default-features --features a` on p (3/4)
            |
            | info: running `cargo check --no-default-features --features b` on p (4/4)
            |
            | error: failed to run 1 commands
            |
            | failed commands:
            |     p:
            |         `cargo check --manifest-path Cargo.toml --no-default-features --features a,b`
            |
            | info: in p the one failed run has one of these, and no passed run does:
            | info:     a on, b on
            | status 1

            > err: hack check --feature-powerset --strength 2 --keep-going --mutually-exclusive-features a,b,c; features a b c; fails 101 cargo check --manifest-path Cargo.toml --no-default-features; fails 101 cargo check --manifest-path Cargo.toml --no-default-features --features c
            | err
            | info: running `cargo check --no-default-features` on p (1/4)
            | error: process didn't exit successfully: `cargo check --manifest-path Cargo.toml --no-default-features` (exit status: 101)
            |
            | info: running `cargo check --no-default-features --features c` on p (2/4)
            | error: process didn't exit successfully: `cargo check --manifest-path Cargo.toml --no-default-features --features c` (exit status: 101)
            |
            | info: running `cargo check --no-default-features --features a` on p (3/4)
            |
            | info: running `cargo check --no-default-features --features b` on p (4/4)
            |
            | error: failed to run 2 commands
            |
            | failed commands:
            |     p:
            |         `cargo check --manifest-path Cargo.toml --no-default-features`
            |         `cargo check --manifest-path Cargo.toml --no-default-features --features c`
            |
            | info: in p all 2 failed runs have one of these, and no passed run does:
            | info:     a off, b off
            | info:     c on
            | status 1

            > err: hack check --feature-powerset --strength 2 --keep-going --mutually-exclusive-features a,b,c --partition 1/2; features a b c; fails 101 cargo check --manifest-path Cargo.toml --no-default-features
            | err
            | info: running `cargo check --no-default-features` on p (1/4)
            | error: process didn't exit successfully: `cargo check --manifest-path Cargo.toml --no-default-features` (exit status: 101)
            |
            | info: running `cargo check --no-default-features --features c` on p (2/4)
            |
            | info: skipping `cargo check --no-default-features --features a` on p (3/4)
            |
            | info: skipping `cargo check --no-default-features --features b` on p (4/4)
            |
            | error: failed to run 1 commands
            |
            | failed commands:
            |     p:
            |         `cargo check --manifest-path Cargo.toml --no-default-features`
            |
            | info: in p the one failed run has one of these, and no passed run does, of this piece's runs alone:
            | info:     c off
            | status 1

            > err: hack check --feature-powerset --strength 2 --keep-going --mutually-exclusive-features a,b,c,d; features a b c d; fails 101 cargo check --manifest-path Cargo.toml --no-default-features; fails 101 cargo check --manifest-path Cargo.toml --no-default-features --features d
            | err
            | info: running `cargo check --no-default-features` on p (1/5)
            | error: process didn't exit successfully: `cargo check --manifest-path Cargo.toml --no-default-features` (exit status: 101)
            |
            | info: running `cargo check --no-default-features --features d` on p (2/5)
            | error: process didn't exit successfully: `cargo check --manifest-path Cargo.toml --no-default-features --features d` (exit status: 101)
            |
            | info: running `cargo check --no-default-features --features a` on p (3/5)
            |
            | info: running `cargo check --no-default-features --features b` on p (4/5)
            |
            | info: running `cargo check --no-default-features --features c` on p (5/5)
            |
            | error: failed to run 2 commands
            |
            | failed commands:
            |     p:
            |         `cargo check --manifest-path Cargo.toml --no-default-features`
            |         `cargo check --manifest-path Cargo.toml --no-default-features --features d`
            |
            | info: in p 1 of 2 failed runs has one of these, and no passed run does:
            | info:     d on
            | info: 1 failed run has no pattern of at most 2 features that no passed run has; try --strength 3
            | status 1

            > err: hack check --feature-powerset --strength 1 --keep-going --mutually-exclusive-features a,b,c; features a b c; fails 101 cargo check --manifest-path Cargo.toml --no-default-features
            | err
            | info: running `cargo check --no-default-features` on p (1/4)
            | error: process didn't exit successfully: `cargo check --manifest-path Cargo.toml --no-default-features` (exit status: 101)
            |
            | info: running `cargo check --no-default-features --features c` on p (2/4)
            |
            | info: running `cargo check --no-default-features --features a` on p (3/4)
            |
            | info: running `cargo check --no-default-features --features b` on p (4/4)
            |
            | error: failed to run 1 commands
            |
            | failed commands:
            |     p:
            |         `cargo check --manifest-path Cargo.toml --no-default-features`
            |
            | info: 1 failed run has no pattern of at most 1 feature that no passed run has; try --strength 2
            | status 1

            # No strength tells runs apart that have the same features of their sets on.
            > err: hack check --feature-powerset --strength 1 --keep-going; features a; optional d; fails 101 cargo check --manifest-path Cargo.toml --all-features
            | err
            | info: running `cargo check --all-features` on p (1/3)
            | error: process didn't exit successfully: `cargo check --manifest-path Cargo.toml --all-features` (exit status: 101)
            |
            | info: running `cargo check --no-default-features` on p (2/3)
            |
            | info: running `cargo check --no-default-features --features a` on p (3/3)
            |
            | error: failed to run 1 commands
            |
            | failed commands:
            |     p:
            |         `cargo check --manifest-path Cargo.toml --all-features`
            |
            | info: 1 failed run has the same features on as a passed run
            | status 1

            > hack check --feature-powerset --strength 2 --keep-going --exclude-no-default-features; features a; fails 101 cargo check --manifest-path Cargo.toml --no-default-features --features a
            | asked
            | cargo check --manifest-path Cargo.toml --no-default-features --features a
            | err
            | info: running `cargo check --no-default-features --features a` on p (1/1)
            | error: process didn't exit successfully: `cargo check --manifest-path Cargo.toml --no-default-features --features a` (exit status: 101)
            |
            | error: failed to run 1 commands
            |
            | failed commands:
            |     p:
            |         `cargo check --manifest-path Cargo.toml --no-default-features --features a`
            |
            | status 1
        "#,
    )
}

#[test]
fn pieces(rt: HostRuntime) -> Result<(), Wrong> {
    on(
        rt.alloc(),
        PLAIN,
        r#"
            > hack check --feature-powerset --depth 1 --optional-deps --partition 2/3; features a; optional d
            + second piece by blocks
            | status 0

            > hack check --feature-powerset --depth 1 --optional-deps --partition 2/3 --partition-kind turn; features a; optional d
            + second piece by turns
            | status 0

            > hack check --version-range 1.60..=1.61 --partition 2/2
            + asked after rustup
            + second of two versions
            | status 0
        "#,
    )
}

/// The cleaning comes before the status line and after the empty one; where it fails there is no
/// status line. A run of the whole workspace is on no package.
#[test]
fn cleanings(rt: HostRuntime) -> Result<(), Wrong> {
    on(
        rt.alloc(),
        PLAIN,
        r#"
            > hack check --each-feature --clean-per-run -v; features a
            | asked
            | cargo clean --package p
            | cargo check --manifest-path Cargo.toml --no-default-features
            | cargo clean --package p
            | cargo check --manifest-path Cargo.toml --no-default-features --features a
            | err
            | info: running `cargo clean --package p`
            | info: running `cargo check --manifest-path Cargo.toml --no-default-features` (1/2)
            |
            | info: running `cargo clean --package p`
            | info: running `cargo check --manifest-path Cargo.toml --no-default-features --features a` (2/2)
            | status 0

            > hack check --clean-per-run; fails 101 cargo clean --package p
            | asked
            | cargo clean --package p
            | err
            | error: process didn't exit successfully: `cargo clean --package p` (exit status: 101)
            | status 1

            > hack check --clean-per-run --keep-going; fails 101 cargo clean --package p
            | asked
            | cargo clean --package p
            | err
            | error: process didn't exit successfully: `cargo clean --package p` (exit status: 101)
            |
            | error: failed to run 1 commands
            |
            | failed commands:
            |     p:
            |         `cargo check --manifest-path Cargo.toml`
            |
            | status 1

            > hack check --workspace-behavior=cargo --keep-going; fails 101 cargo check
            | asked
            | cargo check
            | err
            | info: running `cargo check` (1/1)
            | error: process didn't exit successfully: `cargo check` (exit status: 101)
            |
            | error: failed to run 1 commands
            |
            | failed commands:
            |     :
            |         `cargo check`
            |
            | status 1
        "#,
    )
}

#[test]
fn toolchains(rt: HostRuntime) -> Result<(), Wrong> {
    on(
        rt.alloc(),
        PLAIN,
        r#"
            > hack check --version-range 1.60..=1.61; fails 1 rustup run 1.60 cargo --version; fails 1 rustup toolchain add 1.60 --no-self-update
            + toolchain 1.60 isn't added

            > hack check --version-range 1.60..=1.61 --keep-going; fails 1 rustup run 1.60 cargo --version; fails 1 rustup toolchain add 1.60 --no-self-update
            + toolchain 1.60 isn't added

            > hack check --version-range 1.60..=1.60; fails 1 rustup run 1.60 cargo --version
            + asked after rustup
            | rustup run 1.60 cargo --version
            | rustup toolchain add 1.60 --no-self-update
            | rustup run 1.60 cargo check --manifest-path Cargo.toml
            | err
            | info: running `rustup toolchain add 1.60 --no-self-update`
            | info: running `rustup run 1.60 cargo check` on p (1/1)
            | status 0

            > hack check --version-range 1.60..=1.60; on github; fails 1 rustup run 1.60 cargo --version
            + asked after rustup
            | rustup run 1.60 cargo --version
            | rustup toolchain add 1.60 --no-self-update
            | rustup run 1.60 cargo check --manifest-path Cargo.toml
            | out
            | ::group::running `rustup toolchain add 1.60 --no-self-update`
            | ::endgroup::
            | ::group::running `rustup run 1.60 cargo check` on p (1/1)
            | ::endgroup::
            | status 0

            > hack check --version-range 1.90..
            + asked after rustup
            | rustup run stable cargo --version
            + stable is 1.90

            > hack check --version-range 1.90..; fails 1 rustup run stable cargo --version
            + asked after rustup
            | rustup run stable cargo --version
            | rustup toolchain add stable --no-self-update
            + stable is 1.90

            > hack check --version-range 1.90..; fails 1 rustup run stable cargo --version; fails 1 rustup toolchain add stable --no-self-update
            + asked after rustup
            | rustup run stable cargo --version
            | rustup toolchain add stable --no-self-update
            | err
            | error: process didn't exit successfully: `rustup toolchain add stable --no-self-update` (exit status: 1)
            | status 1

            > hack check --rust-version; own "1.89"
            + asked after rustup
            | rustup run 1.89 cargo --version
            | rustup run 1.89 cargo check --manifest-path Cargo.toml
            | err
            | info: running `rustup run 1.89 cargo check` on p (1/1)
            | status 0

            > hack check --rust-version --clean-per-version; own "1.89"
            + asked after rustup
            | rustup run 1.89 cargo --version
            | cargo clean
            | rustup run 1.89 cargo check --manifest-path Cargo.toml
            | err
            | info: running `rustup run 1.89 cargo check` on p (1/1)
            | status 0
        "#,
    )
}

/// The greatest version is tried first, then the middle one of those left. What failed is no error,
/// unless it is on the greatest. No version below the package's own is tried.
#[test]
fn searches(rt: HostRuntime) -> Result<(), Wrong> {
    on(
        rt.alloc(),
        PLAIN,
        r#"
            > hack check --version-range 1.60..=1.63 --find-rust-version; fails 101 rustup run 1.60 cargo check --manifest-path Cargo.toml; fails 101 rustup run 1.61 cargo check --manifest-path Cargo.toml
            + asked after rustup
            | rustup run 1.63 cargo --version
            | rustup run 1.63 cargo check --manifest-path Cargo.toml
            | rustup run 1.61 cargo --version
            | rustup run 1.61 cargo check --manifest-path Cargo.toml
            | rustup run 1.62 cargo --version
            | rustup run 1.62 cargo check --manifest-path Cargo.toml
            | err
            |
            | info: running `rustup run 1.63 cargo check` on p (4/4)
            |
            | info: running `rustup run 1.61 cargo check` on p (2/4)
            |
            | info: running `rustup run 1.62 cargo check` on p (3/4)
            | info: p: 1.62 is the least version of 1.60..=1.63 on which all runs pass; on 1.61 this fails: `rustup run 1.61 cargo check`
            | status 0

            > err: hack check --version-range 1.60..=1.63 --find-rust-version; own "1.61"; fails 101 rustup run 1.61 cargo check --manifest-path Cargo.toml
            | err
            |
            | info: running `rustup run 1.63 cargo check` on p (3/3)
            |
            | info: running `rustup run 1.62 cargo check` on p (2/3)
            | info: running `rustup run 1.61 cargo check` on p (1/3)
            | info: p: 1.62 is the least version of 1.60..=1.63 on which all runs pass; on 1.61 this fails: `rustup run 1.61 cargo check`
            | warning: p: its rust-version is 1.61, but not all runs pass on 1.61
            | status 0

            > err: hack check --version-range 1.60..=1.62 --find-rust-version
            | err
            |
            | info: running `rustup run 1.62 cargo check` on p (3/3)
            |
            | info: running `rustup run 1.61 cargo check` on p (2/3)
            | info: running `rustup run 1.60 cargo check` on p (1/3)
            | info: p: all runs pass on each version that was tried, down to 1.60
            | status 0

            > err: hack check --version-range 1.60..=1.62 --find-rust-version; fails 101 rustup run 1.62 cargo check --manifest-path Cargo.toml
            | err
            |
            | info: running `rustup run 1.62 cargo check` on p (3/3)
            | error: p: on 1.62 this fails: `rustup run 1.62 cargo check`
            | status 1

            > err: hack check --version-range 1.60..=1.62 --find-rust-version; fails 1 rustup run 1.61 cargo --version; fails 1 rustup toolchain add 1.61 --no-self-update
            | err
            |
            | info: running `rustup run 1.62 cargo check` on p (3/3)
            | info: running `rustup toolchain add 1.61 --no-self-update`
            | error: process didn't exit successfully: `rustup toolchain add 1.61 --no-self-update` (exit status: 1)
            | status 1
        "#,
    )
}

/// What was found of packages before a search that is broken off is told, and then the error.
#[test]
fn searches_of_two_packages(rt: HostRuntime) -> Result<(), Wrong> {
    on(
        rt.alloc(),
        VIRTUAL,
        r#"
            > err: hack check --workspace --version-range 1.60..=1.63 --find-rust-version; fails 101 rustup run 1.61 cargo check --manifest-path p/Cargo.toml; fails 1 rustup run 1.60 cargo --version; fails 1 rustup toolchain add 1.60 --no-self-update
            | err
            |
            | info: running `rustup run 1.63 cargo check` on p (7/8)
            |
            | info: running `rustup run 1.61 cargo check` on p (3/8)
            |
            | info: running `rustup run 1.62 cargo check` on p (5/8)
            |
            | info: running `rustup run 1.63 cargo check` on q (8/8)
            |
            | info: running `rustup run 1.61 cargo check` on q (4/8)
            | info: running `rustup toolchain add 1.60 --no-self-update`
            | info: p: 1.62 is the least version of 1.60..=1.63 on which all runs pass; on 1.61 this fails: `rustup run 1.61 cargo check`
            | error: process didn't exit successfully: `rustup toolchain add 1.60 --no-self-update` (exit status: 1)
            | status 1

            > err: hack check --workspace --version-range 1.60..=1.61 --find-rust-version; fails 101 rustup run 1.61 cargo check --manifest-path p/Cargo.toml; missing rustup run 1.61 cargo check --manifest-path q/Cargo.toml
            | err
            |
            | info: running `rustup run 1.61 cargo check` on p (3/4)
            |
            | info: running `rustup run 1.61 cargo check` on q (4/4)
            | error: p: on 1.61 this fails: `rustup run 1.61 cargo check`
            | info: no `rustup` is in the `PATH`
            | error: could not execute process `rustup run 1.61 cargo check --manifest-path q/Cargo.toml` (never executed)
            | status 1
        "#,
    )
}
