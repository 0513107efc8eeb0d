//! Searches for conflicts: which sets are run in which order, and what is told of them.

use crate::tests::asked::on;
use crate::tests::worlds::{PLAIN, ROOT};
use hack_holds::Wrong;

/// First all features are on. A set that fails is made smaller: without any feature, then without its
/// front half and without its back half, and so on. `--keep-going` changes nothing.
#[test]
fn two_features_that_fail_together(rt: HostRuntime) -> Result<(), Wrong> {
    on(
        rt.alloc(),
        PLAIN,
        r#"
            > hack check --feature-powerset --find-conflicts; features a b; fails 101 cargo check --manifest-path Cargo.toml --no-default-features --features a,b
            + search for a,b
            | status 1

            > hack check --feature-powerset --find-conflicts --keep-going; features a b; fails 101 cargo check --manifest-path Cargo.toml --no-default-features --features a,b
            + search for a,b
            | status 1

            > err: hack check --feature-powerset --find-conflicts -v --no-manifest-path; features a b; fails 101 cargo check --no-default-features --features a,b
            | err
            | info: running `cargo check --no-default-features --features a,b` (1)
            |
            | info: running `cargo check --no-default-features` (2)
            |
            | info: running `cargo check --no-default-features --features b` (3)
            |
            | info: running `cargo check --no-default-features --features a` (4)
            | error: in p these features fail together, and no part of them that may be chosen fails:
            |     a,b
            | info: in p each other allowed set lies inside one of 2 sets that passed:
            |     a
            |     b
            | status 1

            > err out: hack check --feature-powerset --find-conflicts; features a b; on github; fails 101 cargo check --manifest-path Cargo.toml --no-default-features --features a,b
            | err
            | error: in p these features fail together, and no part of them that may be chosen fails:
            |     a,b
            | info: in p each other allowed set lies inside one of 2 sets that passed
            | out
            | ::group::running `cargo check --no-default-features --features a,b` on p (1)
            | ::endgroup::
            | ::group::running `cargo check --no-default-features` on p (2)
            | ::endgroup::
            | ::group::running `cargo check --no-default-features --features b` on p (3)
            | ::endgroup::
            | ::group::running `cargo check --no-default-features --features a` on p (4)
            | ::endgroup::
            | status 1

            # A command that can't be started ends the search, which then tells nothing.
            > calls err: hack check --feature-powerset --find-conflicts; features a b; fails 101 cargo check --manifest-path Cargo.toml --no-default-features --features a,b; missing cargo check --manifest-path Cargo.toml --no-default-features --features b
            | asked
            | cargo check --manifest-path Cargo.toml --no-default-features --features a,b
            | cargo check --manifest-path Cargo.toml --no-default-features
            | cargo check --manifest-path Cargo.toml --no-default-features --features b
            | err
            | info: running `cargo check --no-default-features --features a,b` on p (1)
            |
            | info: running `cargo check --no-default-features` on p (2)
            |
            | info: running `cargo check --no-default-features --features b` on p (3)
            | info: no `cargo` is in the `PATH`
            | error: could not execute process `cargo check --manifest-path Cargo.toml --no-default-features --features b` (never executed)
            | status 1
        "#,
    )
}

#[test]
fn all_pass_or_all_fail(rt: HostRuntime) -> Result<(), Wrong> {
    on(
        rt.alloc(),
        PLAIN,
        r#"
            > hack check --feature-powerset --find-conflicts; features a b c d e
            | asked
            | cargo check --manifest-path Cargo.toml --no-default-features --features a,b,c,d,e
            | err
            | info: running `cargo check --no-default-features --features a,b,c,d,e` on p (1)
            | info: in p each allowed set lies inside the one set that passed
            | status 0

            > count report: hack check --feature-powerset --find-conflicts -v; features a b
            | 1 runs
            | info: in p each allowed set lies inside the one set that passed:
            |     a,b
            | status 0

            # The package itself doesn't build.
            > hack check --feature-powerset --find-conflicts; features a b; fails 101 cargo check --manifest-path Cargo.toml --no-default-features --features a,b; fails 101 cargo check --manifest-path Cargo.toml --no-default-features
            | asked
            | cargo check --manifest-path Cargo.toml --no-default-features --features a,b
            | cargo check --manifest-path Cargo.toml --no-default-features
            | err
            | info: running `cargo check --no-default-features --features a,b` on p (1)
            |
            | info: running `cargo check --no-default-features` on p (2)
            | error: in p these features fail together, and no part of them that may be chosen fails:
            |     no feature at all
            | status 1

            # Without that run each feature by itself fails.
            > calls report: hack check --feature-powerset --find-conflicts --exclude-no-default-features --no-manifest-path; features a b; fails 101 cargo check --no-default-features --features a,b; fails 101 cargo check --no-default-features --features a; fails 101 cargo check --no-default-features --features b
            | asked
            | cargo check --no-default-features --features a,b
            | cargo check --no-default-features --features b
            | cargo check --no-default-features --features a
            | error: in p these features fail together, and no part of them that may be chosen fails:
            |     a
            |     b
            | status 1
        "#,
    )
}

#[test]
fn a_package_without_features(rt: HostRuntime) -> Result<(), Wrong> {
    on(
        rt.alloc(),
        PLAIN,
        r#"
            > hack check --feature-powerset --find-conflicts
            | asked
            | cargo check --manifest-path Cargo.toml
            | err
            | info: running `cargo check` on p (1)
            | info: in p each allowed set lies inside the one set that passed
            | status 0

            > report: hack check --feature-powerset --find-conflicts -v
            | info: in p each allowed set lies inside the one set that passed:
            |     the package as it is: it has no feature to choose
            | status 0

            > report: hack check --feature-powerset --find-conflicts --most-runs 1; fails 101 cargo check --manifest-path Cargo.toml
            | error: in p these features fail together, and no part of them that may be chosen fails:
            |     the package as it is: it has no feature to choose
            | status 1
        "#,
    )
}

/// The sets are those that the options allow, and all features are one where their run is there.
#[test]
fn sets_that_are_allowed(rt: HostRuntime) -> Result<(), Wrong> {
    on(
        rt.alloc(),
        PLAIN,
        r#"
            # Not with both of a and b.
            > calls report: hack check --feature-powerset --find-conflicts --mutually-exclusive-features a,b -v; features a b c; fails 101 cargo check --manifest-path Cargo.toml --no-default-features --features a,c
            | asked
            | cargo check --manifest-path Cargo.toml --no-default-features --features b,c
            | cargo check --manifest-path Cargo.toml --no-default-features --features a,c
            | cargo check --manifest-path Cargo.toml --no-default-features --features a
            | error: in p these features fail together, and no part of them that may be chosen fails:
            |     a,c
            | info: in p each other allowed set lies inside one of 2 sets that passed:
            |     a
            |     b,c
            | status 1

            # With a or b.
            > calls report: hack check --feature-powerset --find-conflicts --at-least-one-of a,b; features a b c; fails 101 cargo check --manifest-path Cargo.toml --no-default-features --features a,b,c; fails 101 cargo check --manifest-path Cargo.toml --no-default-features --features b,c
            | asked
            | cargo check --manifest-path Cargo.toml --no-default-features --features a,b,c
            | cargo check --manifest-path Cargo.toml --no-default-features --features b,c
            | cargo check --manifest-path Cargo.toml --no-default-features --features b
            | cargo check --manifest-path Cargo.toml --no-default-features --features a,c
            | cargo check --manifest-path Cargo.toml --no-default-features --features a,b
            | error: in p these features fail together, and no part of them that may be chosen fails:
            |     b,c
            | info: in p each other allowed set lies inside one of 2 sets that passed
            | status 1

            # A group is on as a whole, and c is excluded.
            > calls report: hack check --feature-powerset --find-conflicts --group-features a,b --exclude-features c; features a b c d; fails 101 cargo check --manifest-path Cargo.toml --no-default-features --features d,a,b
            | asked
            | cargo check --manifest-path Cargo.toml --no-default-features --features d,a,b
            | cargo check --manifest-path Cargo.toml --no-default-features
            | cargo check --manifest-path Cargo.toml --no-default-features --features a,b
            | cargo check --manifest-path Cargo.toml --no-default-features --features d
            | error: in p these features fail together, and no part of them that may be chosen fails:
            |     d,a,b
            | info: in p each other allowed set lies inside one of 2 sets that passed
            | status 1

            > calls report: hack check --feature-powerset --find-conflicts; features a; optional d; fails 101 cargo check --manifest-path Cargo.toml --all-features
            | asked
            | cargo check --manifest-path Cargo.toml --all-features
            | cargo check --manifest-path Cargo.toml --no-default-features
            | cargo check --manifest-path Cargo.toml --no-default-features --features a
            | error: in p these features fail together, and no part of them that may be chosen fails:
            |     all features
            | info: in p each other allowed set lies inside the one set that passed
            | status 1

            > calls report: hack check --feature-powerset --find-conflicts --exclude-all-features; features a; optional d; fails 101 cargo check --manifest-path Cargo.toml --all-features
            | asked
            | cargo check --manifest-path Cargo.toml --no-default-features --features a
            | info: in p each allowed set lies inside the one set that passed
            | status 0
        "#,
    )
}

/// Packages are searched one after another, for each target where each has runs of its own, and
/// `--most-runs` counts the runs of all.
#[test]
fn packages_targets_and_most_runs(rt: HostRuntime) -> Result<(), Wrong> {
    on(
        rt.alloc(),
        "
            members p /w/p/Cargo.toml, q /w/q/Cargo.toml
            file: /w/p/Cargo.toml
            | [package]
            | [features]
            + features
            file: /w/q/Cargo.toml
            | [package]
            | [features]
            + features
            features a
        ",
        r#"
            > hack check --workspace --feature-powerset --find-conflicts --most-runs 3; fails 101 cargo check --manifest-path q/Cargo.toml --no-default-features --features a
            | asked
            | cargo check --manifest-path p/Cargo.toml --no-default-features --features a
            | cargo check --manifest-path q/Cargo.toml --no-default-features --features a
            | cargo check --manifest-path q/Cargo.toml --no-default-features
            | err
            | info: running `cargo check --no-default-features --features a` on p (1)
            |
            | info: running `cargo check --no-default-features --features a` on q (2)
            |
            | info: running `cargo check --no-default-features` on q (3)
            | info: in p each allowed set lies inside the one set that passed
            | error: in q these features fail together, and no part of them that may be chosen fails:
            |     a
            | info: in q each other allowed set lies inside the one set that passed
            | status 1

            > count report: hack check --workspace --feature-powerset --find-conflicts --most-runs 2; fails 101 cargo check --manifest-path q/Cargo.toml --no-default-features --features a
            | 2 runs
            | info: in p each allowed set lies inside the one set that passed
            | error: in q these features fail together, and not all parts of them were tried:
            |     a
            | warning: in q the search isn't complete, since --most-runs ended it: other sets may fail
            | status 1

            > count report: hack check --workspace --feature-powerset --find-conflicts --most-runs 1
            | 1 runs
            | info: in p each allowed set lies inside the one set that passed
            | warning: in q the search isn't complete, since --most-runs ended it: other sets may fail
            | status 0

            > count report: hack check --workspace --feature-powerset --find-conflicts --most-runs 1; deny warnings
            | 1 runs
            | info: in p each allowed set lies inside the one set that passed
            | warning: in q the search isn't complete, since --most-runs ended it: other sets may fail
            | status 1

            > count report: hack check --workspace --feature-powerset --find-conflicts -v --most-runs 3; features a b; fails 101 cargo check --manifest-path p/Cargo.toml --no-default-features --features a,b
            | 3 runs
            | error: in p these features fail together, and not all parts of them were tried:
            |     a,b
            | info: in p 1 set passed so far:
            |     b
            | warning: in p the search isn't complete, since --most-runs ended it: other sets may fail
            | warning: in q the search isn't complete, since --most-runs ended it: other sets may fail
            | status 1

            # All targets at once, and each by itself with a cargo that is older.
            > calls report: hack check --workspace --feature-powerset --find-conflicts --target y --target x
            | asked
            | cargo check --target x --target y --manifest-path p/Cargo.toml --no-default-features --features a
            | cargo check --target x --target y --manifest-path q/Cargo.toml --no-default-features --features a
            | info: in p each allowed set lies inside the one set that passed
            | info: in q each allowed set lies inside the one set that passed
            | status 0

            > calls report: hack check --workspace --feature-powerset --find-conflicts --target y --target x; says cargo -vV = release: 1.63.0; says rustup run stable cargo -vV = release: 1.63.0; fails 101 cargo check --target y --manifest-path p/Cargo.toml --no-default-features --features a
            | asked
            | cargo check --target x --manifest-path p/Cargo.toml --no-default-features --features a
            | cargo check --target x --manifest-path q/Cargo.toml --no-default-features --features a
            | cargo check --target y --manifest-path p/Cargo.toml --no-default-features --features a
            | cargo check --target y --manifest-path p/Cargo.toml --no-default-features
            | cargo check --target y --manifest-path q/Cargo.toml --no-default-features --features a
            | info: in p for x each allowed set lies inside the one set that passed
            | info: in q for x each allowed set lies inside the one set that passed
            | error: in p for y these features fail together, and no part of them that may be chosen fails:
            |     a
            | info: in p for y each other allowed set lies inside the one set that passed
            | info: in q for y each allowed set lies inside the one set that passed
            | status 1
        "#,
    )
}

#[test]
fn manifests_come_back(rt: HostRuntime) -> Result<(), Wrong> {
    on(
        rt.alloc(),
        ROOT,
        r#"
            > err changes: hack check --no-dev-deps --feature-powerset --find-conflicts; features f; fails 101 cargo check --manifest-path Cargo.toml --no-default-features --features f
            + no-dev-deps told
            | info: running `cargo check --no-default-features --features f` on p (1)
            |
            | info: running `cargo check --no-default-features` on p (2)
            | error: in p these features fail together, and no part of them that may be chosen fails:
            |     f
            | info: in p each other allowed set lies inside the one set that passed
            + root edited
            + root as it was
            | status 1

            # Without a subcommand nothing is run.
            > err changes: hack --remove-dev-deps --feature-powerset --find-conflicts; features f
            + root edited
            | status 0
        "#,
    )
}

/// Of the million sets of twenty features few are run.
#[test]
fn two_of_twenty_features(rt: HostRuntime) -> Result<(), Wrong> {
    on(
        rt.alloc(),
        "
            + twenty features
            fails 101 cargo check --no-default-features --features a,b,c,d,e,f,g,h,i,j,k,l,m,n,o,p,q,r,s,t
            fails 101 cargo check --no-default-features --features c,d,e,f,g,h,i,j,k,l,m,n,o,p,q,r,s,t
            fails 101 cargo check --no-default-features --features c,f,g,h,i,j,k,l,m,n,o,p,q,r,s,t
            fails 101 cargo check --no-default-features --features c,k,l,m,n,o,p,q,r,s,t
            fails 101 cargo check --no-default-features --features c,p,q,r,s,t
            fails 101 cargo check --no-default-features --features c,q,r,s,t
            fails 101 cargo check --no-default-features --features c,q
        ",
        "
            > calls report: hack check --feature-powerset --find-conflicts --no-manifest-path
            | asked
            | cargo check --no-default-features --features a,b,c,d,e,f,g,h,i,j,k,l,m,n,o,p,q,r,s,t
            | cargo check --no-default-features
            | cargo check --no-default-features --features k,l,m,n,o,p,q,r,s,t
            | cargo check --no-default-features --features f,g,h,i,j,k,l,m,n,o,p,q,r,s,t
            | cargo check --no-default-features --features c,d,e,f,g,h,i,j,k,l,m,n,o,p,q,r,s,t
            | cargo check --no-default-features --features d,e,f,g,h,i,j,k,l,m,n,o,p,q,r,s,t
            | cargo check --no-default-features --features c,f,g,h,i,j,k,l,m,n,o,p,q,r,s,t
            | cargo check --no-default-features --features c,k,l,m,n,o,p,q,r,s,t
            | cargo check --no-default-features --features c
            | cargo check --no-default-features --features c,p,q,r,s,t
            | cargo check --no-default-features --features c,r,s,t
            | cargo check --no-default-features --features c,q,r,s,t
            | cargo check --no-default-features --features c,q
            | cargo check --no-default-features --features a,b,d,e,f,g,h,i,j,k,l,m,n,o,p,q,r,s,t
            | cargo check --no-default-features --features a,b,c,d,e,f,g,h,i,j,k,l,m,n,o,p,r,s,t
            | error: in p these features fail together, and no part of them that may be chosen fails:
            |     c,q
            | info: in p each other allowed set lies inside one of 2 sets that passed
            | status 1
        ",
    )
}

#[test]
fn three_pairs_of_twenty_features(rt: HostRuntime) -> Result<(), Wrong> {
    on(
        rt.alloc(),
        "
            + twenty features
            fails 101 cargo check --no-default-features --features a,b,c,d,e,f,g,h,i,j,k,l,m,n,o,p,q,r,s,t
            fails 101 cargo check --no-default-features --features c,d,e,f,g,h,i,j,k,l,m,n,o,p,q,r,s,t
            fails 101 cargo check --no-default-features --features d,e,f,g,h,i,j,k,l,m,n,o,p,q,r,s,t
            fails 101 cargo check --no-default-features --features e,f,g,h,i,j,k,l,m,n,o,p,q,r,s,t
            fails 101 cargo check --no-default-features --features e,f,h,i,j,k,l,m,n,o,p,q,r,s,t
            fails 101 cargo check --no-default-features --features e,f,k,l,m,n,o,p,q,r,s,t
            fails 101 cargo check --no-default-features --features e,f
            fails 101 cargo check --no-default-features --features a,b,c,d,f,g,h,i,j,k,l,m,n,o,p,q,r,s,t
            fails 101 cargo check --no-default-features --features c,d,f,g,h,i,j,k,l,m,n,o,p,q,r,s,t
            fails 101 cargo check --no-default-features --features c,d,k,l,m,n,o,p,q,r,s,t
            fails 101 cargo check --no-default-features --features c,d
            fails 101 cargo check --no-default-features --features a,b,d,f,g,h,i,j,k,l,m,n,o,p,q,r,s,t
            fails 101 cargo check --no-default-features --features a,b,f,g,h,i,j,k,l,m,n,o,p,q,r,s,t
            fails 101 cargo check --no-default-features --features a,b,k,l,m,n,o,p,q,r,s,t
            fails 101 cargo check --no-default-features --features a,b
        ",
        "
            > count report: hack check --feature-powerset --find-conflicts --no-manifest-path
            | 31 runs
            | error: in p these features fail together, and no part of them that may be chosen fails:
            |     a,b
            |     c,d
            |     e,f
            | info: in p each other allowed set lies inside one of 8 sets that passed
            | status 1
        ",
    )
}
