//! The runs of a plan: their number, their commands, the packages that they are on, and the
//! notices.

use crate::tests::asked::{Show, on};
use hack_holds::Wrong;

#[test]
fn targets(rt: HostRuntime) -> Result<(), Wrong> {
    on(
        rt.alloc(),
        Show::Runs,
        "p",
        "
            > cargo 60 $ check --target b --target a
            | 2
            | `cargo check --target a` on p
            | `cargo check --target b` on p
            > cargo unknown $ check --target b --target a
            | 2
            | `cargo check --target a` on p
            | `cargo check --target b` on p
            > cargo 63 $ check --target b --target a
            | 2
            | `cargo check --target a` on p
            | `cargo check --target b` on p
            > cargo 64 $ check --target b --target a
            | 1
            | `cargo check --target a --target b` on p
        ",
    )
}

#[test]
fn pieces(rt: HostRuntime) -> Result<(), Wrong> {
    on(
        rt.alloc(),
        Show::Runs,
        "p",
        "
            > check --version-range 1.63..=1.64 --target b --target a
            | 3
            | `rustup run 1.63 cargo check --target a` on p
            | `rustup run 1.63 cargo check --target b` on p
            | `rustup run 1.64 cargo check --target a --target b` on p
        ",
    )?;
    on(
        rt.alloc(),
        Show::Piece,
        "p",
        "
            > piece 1/2 $ check --version-range 1.63..=1.64 --target b --target a
            | 3: 0 1
            > piece 2/2 $ check --version-range 1.63..=1.64 --target b --target a
            | 3: 2
            > piece 1/1 $ check --version-range 1.63..=1.64 --target b --target a
            | 3: 0 1 2
            > piece 1/3 $ check --version-range 1.61..=1.64
            | 4: 0 1
            > piece 2/3 $ check --version-range 1.61..=1.64
            | 4: 2 3
            > piece 3/3 $ check --version-range 1.61..=1.64
            | 4:
            > piece 1/1 $ check --exclude p
            | 0:
        ",
    )
}

#[test]
fn packages(rt: HostRuntime) -> Result<(), Wrong> {
    on(
        rt.alloc(),
        Show::Runs,
        "p;q;r!",
        r#"
            > check
            | 1
            | `cargo check` on p
            > members p;q $ check --workspace --exclude z
            | 2
            | `cargo check` on p
            | `cargo check` on q
            | warning: excluded package(s) `z` not found in workspace `/w`
            > check --workspace --exclude z --exclude r
            | 2
            | `cargo check` on p
            | `cargo check` on q
            | warning: excluded package(s) `z` not found in workspace `/w`
            > check --workspace --ignore-private -- -D x
            | 2
            | `cargo check -- -D x` on p
            | `cargo check -- -D x` on q
            | info: skipped running on private package `r`
            > check --exclude p
            | 0

            # One run is for all packages, whether they have features or not.
            > check --workspace-behavior=cargo --workspace --version-range 1.63..=1.64 --target b --target a --features x
            | 3
            | `rustup run 1.63 cargo check --workspace --target a --features x` on all
            | `rustup run 1.63 cargo check --workspace --target b --features x` on all
            | `rustup run 1.64 cargo check --workspace --target a --target b --features x` on all
            > check --workspace-behavior=cargo -p q -p r --target b --target a
            | 1
            | `cargo check -p q -p r --target a --target b` on all
        "#,
    )
}

#[test]
fn features(rt: HostRuntime) -> Result<(), Wrong> {
    on(
        rt.alloc(),
        Show::Runs,
        "p - a b c default / o",
        r#"
            > check --each-feature
            | 6
            | `cargo check --all-features` on p
            | `cargo check --no-default-features` on p
            | `cargo check --no-default-features --features a` on p
            | `cargo check --no-default-features --features b` on p
            | `cargo check --no-default-features --features c` on p
            | `cargo check --no-default-features --features default` on p
            > check --each-feature --features a
            | 5
            | `cargo check --all-features --features a` on p
            | `cargo check --no-default-features --features a` on p
            | `cargo check --no-default-features --features a,b` on p
            | `cargo check --no-default-features --features a,c` on p
            | `cargo check --no-default-features --features a,default` on p
            > check --feature-powerset --include-features a,b
            | 3
            | `cargo check --no-default-features --features a,b` on p
            | `cargo check --no-default-features --features a` on p
            | `cargo check --no-default-features --features b` on p
        "#,
    )
}

#[test]
fn members_of_their_own(rt: HostRuntime) -> Result<(), Wrong> {
    on(
        rt.alloc(),
        Show::Runs,
        "p - a b;q",
        r#"
            # Without a set that has one of the names p has no run, and q, which has no features,
            # its own.
            > check --feature-powerset --depth 0 --at-least-one-of a,b --workspace
            | 1
            | `cargo check` on q
        "#,
    )?;
    on(
        rt.alloc(),
        Show::Runs,
        "p - a;q",
        r#"
            # Ordered by version, then slot, then package, then the package's own order.
            > check --workspace --each-feature --version-range 1.63..=1.64 --target s --target t
            | 9
            | `rustup run 1.63 cargo check --target s --no-default-features` on p
            | `rustup run 1.63 cargo check --target s --no-default-features --features a` on p
            | `rustup run 1.63 cargo check --target s` on q
            | `rustup run 1.63 cargo check --target t --no-default-features` on p
            | `rustup run 1.63 cargo check --target t --no-default-features --features a` on p
            | `rustup run 1.63 cargo check --target t` on q
            | `rustup run 1.64 cargo check --target s --target t --no-default-features` on p
            | `rustup run 1.64 cargo check --target s --target t --no-default-features --features a` on p
            | `rustup run 1.64 cargo check --target s --target t` on q
        "#,
    )?;
    on(
        rt.alloc(),
        Show::Runs,
        "p - async-std tokio;q - async-std tokio",
        r#"
            > check --feature-powerset --workspace --mutually-exclusive-features tokio,async-std --allow-together p=tokio,async-std
            | 7
            | `cargo check --no-default-features` on p
            | `cargo check --no-default-features --features async-std,tokio` on p
            | `cargo check --no-default-features --features async-std` on p
            | `cargo check --no-default-features --features tokio` on p
            | `cargo check --no-default-features` on q
            | `cargo check --no-default-features --features tokio` on q
            | `cargo check --no-default-features --features async-std` on q
            > check --feature-powerset --workspace --mutually-exclusive-features tokio,async-std --allow-together z=tokio,async-std
            | 6
            | `cargo check --no-default-features` on p
            | `cargo check --no-default-features --features tokio` on p
            | `cargo check --no-default-features --features async-std` on p
            | `cargo check --no-default-features` on q
            | `cargo check --no-default-features --features tokio` on q
            | `cargo check --no-default-features --features async-std` on q
            | warning: package `z` of --allow-together not found in workspace `/w`
        "#,
    )
}

#[test]
fn unknown_features(rt: HostRuntime) -> Result<(), Wrong> {
    on(
        rt.alloc(),
        Show::Runs,
        "p - a;q - b;r - a b",
        r#"
            > check --workspace --exclude r --ignore-unknown-features --features a,x
            | 2
            | `cargo check --features a` on p
            | `cargo check` on q
            | info: skipped applying unknown `x` feature to p
            | info: skipped applying unknown `a` feature to q
            | info: skipped applying unknown `x` feature to q

            # Reported once for each version and slot.
            > check --ignore-unknown-features --features x --version-range 1.63..=1.64 --target b --target a
            | 3
            | `rustup run 1.63 cargo check --target a` on p
            | `rustup run 1.63 cargo check --target b` on p
            | `rustup run 1.64 cargo check --target a --target b` on p
            | info: skipped applying unknown `x` feature to p
            | info: skipped applying unknown `x` feature to p
            | info: skipped applying unknown `x` feature to p

            # Reported once for all runs of the package, after the notices on packages, features and
            # ranges.
            > check --each-feature --exclude z -p q --exclude-features y --ignore-unknown-features --features x --version-range 1.65.1..=1.65
            | 2
            | `rustup run 1.65 cargo check --no-default-features` on q
            | `rustup run 1.65 cargo check --no-default-features --features b` on q
            | warning: excluded package(s) `z` not found in workspace `/w`
            | warning: specified feature `y` not found in package `q`
            | warning: specified feature `x` not found in package `q`
            | warning: --version-range always selects the latest patch release per minor release, not the specified patch release `1`
            | info: skipped applying unknown `x` feature to q

            # A run for all packages has all features, known ones or not.
            > check --workspace-behavior=cargo --workspace --ignore-unknown-features --features a,x
            | 1
            | `cargo check --workspace --features a,x` on all
        "#,
    )
}

#[test]
fn without_a_subcommand(rt: HostRuntime) -> Result<(), Wrong> {
    on(
        rt.alloc(),
        Show::Counts,
        "p;q",
        "
            > stable no toolchain $ --remove-dev-deps
            | 0 runs, 0 versions, 0 notices
            > stable no toolchain $ --remove-dev-deps --workspace --exclude z
            | 0 runs, 0 versions, 0 notices
            > stable no toolchain $ --remove-dev-deps -p y
            | 0 runs, 0 versions, 0 notices
        ",
    )
}
