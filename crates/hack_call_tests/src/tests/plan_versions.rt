//! The versions of a plan: what is done before the runs of each, and its places. A letter says what
//! is done, followed by the version's place.

use crate::tests::asked::{Show, on};
use hack_holds::Wrong;

#[test]
fn steps(rt: HostRuntime) -> Result<(), Wrong> {
    on(
        rt.alloc(),
        Show::Versions,
        "p1 1.60;p2 1.61.3",
        r#"
            > check --version-range ..=1.64 --version-step 2
            | 1.60 t0 0..1
            | 1.61 t1 1..2
            | 1.62 t2 2..4
            | 1.64 t3 4..6
            | : p1 p2 p1 p2 p1 p2
            > members p1 1.60;p2 1.61 $ check --version-range ..=1.64 --version-step 2
            | 1.60 t0 0..1
            | 1.61 t1 1..2
            | 1.62 t2 2..4
            | 1.64 t3 4..6
            | : p1 p2 p1 p2 p1 p2
            > check
            | none 0..2
            | : p1 p2
            > check --rust-version
            | 1.60 t0 0..1
            | 1.61 t1 1..2
            | : p1 p2

            # Up to the version of the toolchain `stable`.
            > check --version-range 1.65..
            | 1.65 t0 0..2
            | 1.66 t1 2..4
            | : p1 p2 p1 p2
            > check --version-range 1.59.2..=1.60
            | 1.60 t0 0..1
            | : p1
            | warning: --version-range always selects the latest patch release per minor release, not the specified patch release `2`
            | warning: skipping p2, rust-version (1.61) is not in specified range (1.59.2..=1.60)
        "#,
    )
}

#[test]
fn used_versions(rt: HostRuntime) -> Result<(), Wrong> {
    on(
        rt.alloc(),
        Show::Versions,
        "p 1.51 a b;q",
        r#"
            # A version that no package uses is missing, and one whose packages have no run has no
            # place.
            > check --version-range 1.49..=1.52
            | 1.51 t0 l0 0..1
            | 1.52 t1 1..2
            | : p p
            > check --workspace-behavior=cargo --version-range 1.49..=1.52
            | 1.51 t0 l0 0..1
            | 1.52 t1 1..2
            | : all all
            > check --workspace --version-range ..=1.52
            | 1.51 t0 l0 0..2
            | 1.52 t1 2..4
            | : p q p q
            > check --workspace --version-range 1.50..=1.51
            | 1.50 t0 l0 0..1
            | 1.51 t1 l1 1..3
            | : q p q
            > check --feature-powerset --depth 0 --at-least-one-of a,b --rust-version
            | 1.51 t0 l0 0..0
            | :
            > check --exclude p
            | none 0..0
            | :
            > check --exclude p --version-range 1.49..=1.52
            | :
            > check --workspace-behavior=cargo --exclude p
            | none 0..1
            | : all
            > check --workspace-behavior=cargo --exclude p --version-range 1.49..=1.52
            | :
        "#,
    )
}

/// No set is made for a package that no version of the range uses, so its many features refuse no call.
/// Notices on its features come nevertheless.
#[test]
fn unused_packages(rt: HostRuntime) -> Result<(), Wrong> {
    on(
        rt.alloc(),
        Show::Versions,
        "p 1.60 a;q 1.70 a b c d e f g h i j k l m n o p q r s t u v w x y z A B C D E F G H I J K L M N",
        "
            > check --workspace --version-range ..=1.61 --feature-powerset --strength 9
            | 1.60 t0 0..2
            | 1.61 t1 2..4
            | : p p p p
            | warning: skipping q, rust-version (1.70) is not in specified range (..=1.61)
            > check --workspace --version-range ..=1.60 --feature-powerset --group-features a,b --ignore-unknown-features
            | 1.60 t0 0..1
            | : p
            | info: skipped applying group `a,b` to p
            | warning: skipping q, rust-version (1.70) is not in specified range (..=1.60)
            > check --workspace --version-range ..=1.60 --feature-powerset --group-features a,zz --ignore-unknown-features
            | 1.60 t0 0..1
            | : p
            | info: skipped applying group `a,zz` to p
            | info: skipped applying group `a,zz` to q
            | warning: skipping q, rust-version (1.70) is not in specified range (..=1.60)
        ",
    )
}

#[test]
fn before_the_runs(rt: HostRuntime) -> Result<(), Wrong> {
    on(
        rt.alloc(),
        Show::Versions,
        "p",
        r#"
            > check --version-range 1.49..=1.52
            | 1.49 t0 l0 0..1
            | 1.50 t1 1..2
            | 1.51 t2 l2 2..3
            | 1.52 t3 3..4
            | : p p p p
            > check --version-range 1.49..=1.52 --locked
            | 1.49 t0 0..1
            | 1.50 t1 1..2
            | 1.51 t2 2..3
            | 1.52 t3 3..4
            | : p p p p
            > check --version-range 1.59..=1.60 --clean-per-version
            | 1.59 t0 l0 c0 0..1
            | 1.60 t1 c1 1..2
            | : p p
            > check --workspace-behavior=cargo --version-range 1.60..=1.61
            | 1.60 t0 0..1
            | 1.61 t1 1..2
            | : all all
        "#,
    )
}

#[test]
fn commands_before_the_runs(rt: HostRuntime) -> Result<(), Wrong> {
    on(
        rt.alloc(),
        Show::Commands,
        "p;q",
        r#"
            > check --version-range 1.49..=1.52
            | rustup run 1.49 cargo generate-lockfile --manifest-path p/Cargo.toml
            | cargo clean
            | cargo clean --package p
            | rustup run 1.49 cargo check --manifest-path p/Cargo.toml
            > check --version-range 1.49..=1.52 --no-manifest-path --locked -p q
            | rustup run 1.49 cargo generate-lockfile
            | cargo clean --locked
            | cargo clean --locked --package q
            | rustup run 1.49 cargo check --locked
            > check --workspace-behavior=cargo --each -- y
            | cargo clean
            | cargo clean
            | cargo check --each -- y
            > check -p q --each-feature
            | cargo clean
            | cargo clean --package q
            | cargo check --manifest-path q/Cargo.toml
        "#,
    )
}
