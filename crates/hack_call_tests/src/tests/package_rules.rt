//! Plans under `--package-rules`: the rules of a package's own table and of the workspace's, beside
//! those of the call. Each run is shown as its features: `A` is all of them, `N` none.

use crate::tests::asked::{Show, on};
use hack_holds::Wrong;

/// Names and groups of the package's own table. Without the option it says nothing.
#[test]
fn features_and_groups(rt: HostRuntime) -> Result<(), Wrong> {
    on(
        rt.alloc(),
        Show::Sets,
        "p - a b c / o",
        r#"
            > check --feature-powerset
            | 9 A N a b a,b c a,c b,c a,b,c

            > members p - a b c / o # {"exclude-features":["c"]} $ check --feature-powerset
            | 9 A N a b a,b c a,c b,c a,b,c
            > members p - a b c / o # {"exclude-features":["c"]} $ check --feature-powerset --package-rules
            | 4 N a,b a b
            > members p - a b c / o # {"exclude-features":["c"]} $ check --each-feature --package-rules
            | 3 N a b
            > members p - a b c / o # {"exclude-features":[]} $ check --each-feature --package-rules
            | 5 A N a b c

            > members p - a b c / o # {"mutually-exclusive-features":[["a","b"]]} $ check --feature-powerset --package-rules
            | 6 N b,c a b c a,c
            > members p - a b c / o # {"at-least-one-of":[["a","b"]]} $ check --feature-powerset --package-rules
            | 7 A a b a,b a,c b,c a,b,c
            > members p - a b c / o # {"group-features":[["a","b"]]} $ check --feature-powerset --package-rules
            | 5 A N c a,b c,a,b
            > members p - a b c / o # {"mutually-exclusive-features":[],"at-least-one-of":[],"group-features":[]} $ check --feature-powerset --package-rules
            | 9 A N a b a,b c a,c b,c a,b,c

            # Beside single features groups say nothing, and leave out no run.
            > members p - a b c / o # {"mutually-exclusive-features":[["a","b"]]} $ check --each-feature --package-rules
            | 5 A N a b c
            > members p - a b c / o # {"at-least-one-of":[["a","b"]]} $ check --each-feature --package-rules
            | 5 A N a b c
            > members p - a b c / o # {"group-features":[["a","b"]]} $ check --each-feature --package-rules
            | 5 A N a b c
        "#,
    )
}

#[test]
fn optional_dependencies(rt: HostRuntime) -> Result<(), Wrong> {
    on(
        rt.alloc(),
        Show::Sets,
        "p - a / o q",
        r#"
            > members p - a / o # {"optional-deps":true} $ check --feature-powerset --package-rules
            | 4 N a,o a o
            > members p - a / o # {"optional-deps":["o"]} $ check --feature-powerset --package-rules
            | 5 A N a o a,o
            > members p - a / o # {"optional-deps":false} $ check --feature-powerset --package-rules
            | 3 A N a
            > members p - a / o # {"optional-deps":[]} $ check --feature-powerset --package-rules
            | 3 A N a
            > members p - a / o # {"optional-deps":true,"depth":1} $ check --feature-powerset --package-rules
            | 4 A N a o
            > members p - a / o # {"optional-deps":true} $ check --each-feature --package-rules
            | 4 A N a o
            > members p - a / o # {"optional-deps":true} $ check --each-feature
            | 3 A N a

            # A list adds its names, and all of them are all, whoever asks.
            > members p - a / o q # {"optional-deps":["o"]} $ check --each-feature --package-rules --optional-deps q
            | 5 A N a o q
            > members p - a / o q # {"optional-deps":[]} $ check --each-feature --package-rules --optional-deps q
            | 4 A N a q
            > members p - a / o q # {"optional-deps":true} $ check --each-feature --package-rules --optional-deps q
            | 5 A N a o q
            > members p - a / o q # {"optional-deps":["o"]} $ check --each-feature --package-rules --optional-deps
            | 5 A N a o q
            > members p - a / o q # {"optional-deps":["o"]} ## {"optional-deps":["q"]} $ check --each-feature --package-rules
            | 5 A N a o q
            > members p - a / o q # {"optional-deps":["o"]} ## {"optional-deps":true} $ check --each-feature --package-rules
            | 5 A N a o q
            > members p - a / o q ## {"optional-deps":["q"]} $ check --each-feature --package-rules
            | 4 A N a q
        "#,
    )
}

#[test]
fn runs_with_all_features_and_with_none(rt: HostRuntime) -> Result<(), Wrong> {
    on(
        rt.alloc(),
        Show::Sets,
        "p - a / o",
        r#"
            > members p - a / o # {"exclude-no-default-features":true} $ check --feature-powerset --package-rules
            | 2 A a
            > members p - a / o # {"exclude-no-default-features":true} $ check --each-feature --package-rules
            | 2 A a
            > members p - a / o # {"exclude-no-default-features":false} $ check --each-feature --package-rules
            | 3 A N a
            > members p - a / o # {"exclude-all-features":true} $ check --feature-powerset --package-rules
            | 2 N a
            > members p - a / o # {"exclude-all-features":true} $ check --each-feature --package-rules
            | 2 N a
            > members p - a / o # {"exclude-all-features":false} $ check --each-feature --package-rules
            | 3 A N a
            > members p - a / o # {"exclude-all-features":true} ## {"exclude-no-default-features":true} $ check --each-feature --package-rules
            | 1 a
            > members p - a / o # {"exclude-no-default-features":true} $ check --each-feature --package-rules --exclude-all-features
            | 1 a
        "#,
    )
}

/// The call's count before the package's, and these before the workspace's.
#[test]
fn depth_and_strength(rt: HostRuntime) -> Result<(), Wrong> {
    on(
        rt.alloc(),
        Show::Sets,
        "p - a b c",
        r#"
            > members p - a b c # {"depth":1} $ check --feature-powerset --package-rules
            | 4 N a b c
            > members p - a b c # {"depth":0} $ check --feature-powerset --package-rules
            | 1 N
            > members p - a b c # {"depth":1} $ check --feature-powerset --package-rules --depth 2
            | 7 N b,c a b a,b c a,c
            > members p - a b c # {"depth":1} ## {"depth":2} $ check --feature-powerset --package-rules
            | 4 N a b c
            > members p - a b c ## {"depth":2} $ check --feature-powerset --package-rules
            | 7 N b,c a b a,b c a,c
            > members p - a b c / o # {"depth":0} $ check --each-feature --package-rules
            | 5 A N a b c

            # Each of two features is off in one set alone, and these two show each of them on, too.
            > members p - a b # {"strength":1} $ check --feature-powerset --package-rules
            | 3 N b a
            > members p - a b # {"strength":2} $ check --feature-powerset --package-rules
            | 4 N a,b a b
            > members p - a b # {"strength":1} $ check --feature-powerset --package-rules --strength 2
            | 4 N a,b a b
            > members p - a b # {"strength":2} ## {"strength":1} $ check --feature-powerset --package-rules
            | 4 N a,b a b
            > members p - a b ## {"strength":1} $ check --feature-powerset --package-rules
            | 3 N b a
            > members p - a b # {"strength":1} $ check --feature-powerset
            | 4 N a,b a b
            > members p - a b # {"strength":1} $ check --each-feature --package-rules
            | 4 A N a b
        "#,
    )
}

#[test]
fn both_tables(rt: HostRuntime) -> Result<(), Wrong> {
    on(
        rt.alloc(),
        Show::Sets,
        "p - a b c d",
        r#"
            > members p - a b c d # {"exclude-features":["a"]} ## {"exclude-features":["b"]} $ check --feature-powerset --package-rules --exclude-features c
            | 2 N d
            > members p - a b c d # {"group-features":[["a","b"]]} ## {"group-features":[["c","d"]]} $ check --feature-powerset --package-rules
            | 4 N a,b,c,d a,b c,d
            > members p - a b c # {"mutually-exclusive-features":[["a","b"]]} ## {"mutually-exclusive-features":[["b","c"]]} $ check --feature-powerset --package-rules
            | 5 N a,c a b c
            > members p - a b c # {"at-least-one-of":[["a","b"]]} ## {"at-least-one-of":[["b","c"]]} $ check --feature-powerset --package-rules
            | 5 a,b,c b a,b a,c b,c

            # A group of which the package lacks a name counts in its own table alone.
            > members p - a b # {"group-features":[["a","x"]]} $ check --feature-powerset --package-rules
            | 4 N b,a,x b a,x
            > members p - a b ## {"group-features":[["a","x"]]} $ check --feature-powerset --package-rules
            | 4 N a,b a b
            > members p - a b / o ## {"group-features":[["a","o"]]} $ check --feature-powerset --package-rules
            | 5 A N b a,o b,a,o

            # A group is lifted where the call has it.
            > members p - a b # {"mutually-exclusive-features":[["a","b"]]} $ check --feature-powerset --package-rules --mutually-exclusive-features a,b --allow-together p=a,b
            | 3 N b a
            > members p - a b ## {"mutually-exclusive-features":[["a","b"]]} $ check --feature-powerset --package-rules --mutually-exclusive-features a,b --allow-together p=a,b
            | 3 N b a
            > members p - a b $ check --feature-powerset --package-rules --mutually-exclusive-features a,b --allow-together p=a,b
            | 4 N a,b a b

            # Of features to include those that a table excludes are left out.
            > members p - a b c # {"exclude-features":["b"],"optional-deps":true} $ check --feature-powerset --package-rules --include-features a,b
            | 1 a
        "#,
    )
}

/// A warning for each name that the package's own table has and the package lacks, once each, in
/// the order of keys, behind the other notices on the package.
#[test]
fn names_not_found(rt: HostRuntime) -> Result<(), Wrong> {
    on(
        rt.alloc(),
        Show::Runs,
        "p - a",
        r#"
            > members p - a # {"optional-deps":["w","y"],"group-features":[["x","a"]],"at-least-one-of":[["v","x"]],"mutually-exclusive-features":[["u","a"]],"exclude-features":["y","x"]} $ check --each-feature --package-rules --exclude-features t
            | 2
            | `cargo check --no-default-features` on p
            | `cargo check --no-default-features --features a` on p
            | warning: specified feature `t` not found in package `p`
            | warning: feature `y` of [package.metadata.cargo-hack] not found in package `p`
            | warning: feature `x` of [package.metadata.cargo-hack] not found in package `p`
            | warning: feature `u` of [package.metadata.cargo-hack] not found in package `p`
            | warning: feature `v` of [package.metadata.cargo-hack] not found in package `p`
            | warning: feature `w` of [package.metadata.cargo-hack] not found in package `p`
            > members p - a # {"exclude-features":["x"]} $ check --each-feature
            | 2
            | `cargo check --no-default-features` on p
            | `cargo check --no-default-features --features a` on p

            # Of several packages, and for all versions of a range, once each; of the workspace's table before them those
            # that no member has.
            > members p - a b # {"exclude-features":["b","x"],"optional-deps":["y"]};q - a c # {"exclude-features":["c","b"]};r - d # {"exclude-features":["z"]} ## {"exclude-features":["a","z"]} $ check -p p -p q --each-feature --package-rules
            | 2
            | `cargo check --no-default-features` on p
            | `cargo check --no-default-features` on q
            | warning: feature `z` of [workspace.metadata.cargo-hack] not found in any member
            | warning: feature `x` of [package.metadata.cargo-hack] not found in package `p`
            | warning: feature `y` of [package.metadata.cargo-hack] not found in package `p`
            | warning: feature `b` of [package.metadata.cargo-hack] not found in package `q`
            > members p - a # {"exclude-features":["a","x"]} $ check --each-feature --package-rules --version-range 1.63..=1.64
            | 2
            | `rustup run 1.63 cargo check --no-default-features` on p
            | `rustup run 1.64 cargo check --no-default-features` on p
            | warning: feature `x` of [package.metadata.cargo-hack] not found in package `p`
        "#,
    )?;
    on(
        rt.alloc(),
        Show::EachOfSeveral,
        "p - a b",
        r#"
            > members p - a b # {"exclude-features":["b","x"]} $ check --each-feature --package-rules --exclude-features y
            | each 2 N a
            | warning: feature `x` of [package.metadata.cargo-hack] not found in package `p`
            > members p - a b # {"depth":1,"group-features":[["x","y"]]} $ check --feature-powerset --package-rules
            | powerset 4 N a b x,y
            | warning: feature `x` of [package.metadata.cargo-hack] not found in package `p`
            | warning: feature `y` of [package.metadata.cargo-hack] not found in package `p`
        "#,
    )
}

/// Tables that say nothing, as where none is there, are told, and no name of the workspace's table that a member has, or that
/// is a dependency's where these aren't loaded.
#[test]
fn tables_without_a_rule(rt: HostRuntime) -> Result<(), Wrong> {
    on(
        rt.alloc(),
        Show::Runs,
        "p - a",
        r#"
            > members p - a;q - b # {"exclude-features":[],"optional-deps":false,"exclude-all-features":false} ## {"at-least-one-of":[]} $ check -p p --each-feature --package-rules
            | 2
            | `cargo check --no-default-features` on p
            | `cargo check --no-default-features --features a` on p
            | warning: --package-rules found no rule: neither [workspace.metadata.cargo-hack] nor [package.metadata.cargo-hack] of a member has one
            > members p - a;q - b # {"depth":0} $ check -p p --each-feature --package-rules
            | 2
            | `cargo check --no-default-features` on p
            | `cargo check --no-default-features --features a` on p
            > members p - a;q - b ## {"exclude-features":["b","d/x","bb"]} $ check -p p --each-feature --package-rules
            | 2
            | `cargo check --no-default-features` on p
            | `cargo check --no-default-features --features a` on p
            | warning: feature `bb` of [workspace.metadata.cargo-hack] not found in any member
        "#,
    )
}

/// Each package runs by its own rules, and the pieces share them all out.
#[test]
fn packages_of_a_workspace(rt: HostRuntime) -> Result<(), Wrong> {
    on(
        rt.alloc(),
        Show::Runs,
        "p",
        r#"
            > members p - a b # {"mutually-exclusive-features":[["a","b"]]};q - a b $ check --feature-powerset --package-rules --workspace
            | 7
            | `cargo check --no-default-features` on p
            | `cargo check --no-default-features --features b` on p
            | `cargo check --no-default-features --features a` on p
            | `cargo check --no-default-features` on q
            | `cargo check --no-default-features --features a,b` on q
            | `cargo check --no-default-features --features a` on q
            | `cargo check --no-default-features --features b` on q
        "#,
    )?;
    on(
        rt.alloc(),
        Show::Piece,
        r#"p - a b # {"mutually-exclusive-features":[["a","b"]]}"#,
        r#"
            > piece 1/2 $ check --feature-powerset --package-rules
            | 3: 0 1
            > piece 2/2 $ check --feature-powerset --package-rules
            | 3: 2
        "#,
    )
}

/// A wrong table refuses the call, whether it would count or not.
#[test]
fn wrong_tables(rt: HostRuntime) -> Result<(), Wrong> {
    on(
        rt.alloc(),
        Show::Fault,
        "p - a",
        r#"
            > members p - a # {"exclude-features":"a"} $ check --feature-powerset --package-rules
            | failed to parse `exclude-features` field from [package.metadata.cargo-hack] of package `p`
            > members p - a # {"exclude-features":["a",1]} $ check --each-feature --package-rules
            | failed to parse `exclude-features` field from [package.metadata.cargo-hack] of package `p`
            > members p - a # {"mutually-exclusive-features":[["a","b"],["a"]]} $ check --feature-powerset --package-rules
            | failed to parse `mutually-exclusive-features` field from [package.metadata.cargo-hack] of package `p`
            > members p - a # {"mutually-exclusive-features":["a","b"]} $ check --each-feature --package-rules
            | failed to parse `mutually-exclusive-features` field from [package.metadata.cargo-hack] of package `p`
            > members p - a # {"at-least-one-of":[[]]} $ check --feature-powerset --package-rules
            | failed to parse `at-least-one-of` field from [package.metadata.cargo-hack] of package `p`
            > members p - a # {"group-features":{"a":"b"}} $ check --feature-powerset --package-rules
            | failed to parse `group-features` field from [package.metadata.cargo-hack] of package `p`
            > members p - a # {"optional-deps":"o"} $ check --feature-powerset --package-rules
            | failed to parse `optional-deps` field from [package.metadata.cargo-hack] of package `p`
            > members p - a # {"exclude-no-default-features":1} $ check --feature-powerset --package-rules
            | failed to parse `exclude-no-default-features` field from [package.metadata.cargo-hack] of package `p`
            > members p - a # {"exclude-all-features":"true"} $ check --feature-powerset --package-rules
            | failed to parse `exclude-all-features` field from [package.metadata.cargo-hack] of package `p`
            > members p - a # {"depth":"2"} $ check --feature-powerset --package-rules
            | failed to parse `depth` field from [package.metadata.cargo-hack] of package `p`
            > members p - a # {"depth":-1} $ check --each-feature --package-rules
            | failed to parse `depth` field from [package.metadata.cargo-hack] of package `p`
            > members p - a # {"depth":1.5} $ check --feature-powerset --package-rules
            | failed to parse `depth` field from [package.metadata.cargo-hack] of package `p`
            > members p - a # {"strength":0} $ check --feature-powerset --package-rules
            | failed to parse `strength` field from [package.metadata.cargo-hack] of package `p`
            > members p - a # {"strength":true} $ check --each-feature --package-rules
            | failed to parse `strength` field from [package.metadata.cargo-hack] of package `p`
            > members p - a # {"features":["a"]} $ check --feature-powerset --package-rules
            | failed to parse `features` field from [package.metadata.cargo-hack] of package `p`
            > members p - a # true $ check --feature-powerset --package-rules
            | failed to parse `cargo-hack` field from [package.metadata.cargo-hack] of package `p`
            > members p - a # [{"depth":2}] $ check --feature-powerset --package-rules
            | failed to parse `cargo-hack` field from [package.metadata.cargo-hack] of package `p`
            > members p - a # {} $ check --feature-powerset --package-rules
            | a plan
            > members p - a # {"depth":"2"} $ check --feature-powerset
            | a plan

            # Keys in their order, unknown ones last.
            > members p - a # {"features":1,"strength":0,"depth":"2","exclude-all-features":1} $ check --feature-powerset --package-rules
            | failed to parse `exclude-all-features` field from [package.metadata.cargo-hack] of package `p`
            > members p - a # {"features":1,"strength":0,"depth":"2"} $ check --feature-powerset --package-rules
            | failed to parse `depth` field from [package.metadata.cargo-hack] of package `p`
            > members p - a # {"features":1,"strength":0} $ check --feature-powerset --package-rules
            | failed to parse `strength` field from [package.metadata.cargo-hack] of package `p`
        "#,
    )
}

/// The workspace's table before those of chosen packages, which are looked at in order.
#[test]
fn which_table_is_refused(rt: HostRuntime) -> Result<(), Wrong> {
    on(
        rt.alloc(),
        Show::Fault,
        "p - a",
        r#"
            > members p - a # {"depth":"2"};q - a # {"strength":0} ## {"exclude-features":1} $ check --feature-powerset --package-rules --workspace
            | failed to parse `exclude-features` field from [workspace.metadata.cargo-hack]
            > members p - a # {"depth":"2"};q - a # {"strength":0} $ check --feature-powerset --package-rules --workspace
            | failed to parse `depth` field from [package.metadata.cargo-hack] of package `p`
            > members p - a;q - a # {"strength":0} $ check --feature-powerset --package-rules --workspace
            | failed to parse `strength` field from [package.metadata.cargo-hack] of package `q`
            > members p - a;q - a # {"strength":0} $ check --feature-powerset --package-rules
            | a plan
            > members p - a # {"depth":"2"};q - a $ check --feature-powerset --package-rules --workspace --exclude p
            | a plan
            > members p - a ## true $ check --each-feature --package-rules
            | failed to parse `cargo-hack` field from [workspace.metadata.cargo-hack]
            > members p - a ## {"x":1} $ check --each-feature
            | a plan

            # Behind the packages of the call, and before their versions.
            > members p 1.x a # {"depth":"2"} $ check --feature-powerset --package-rules -p y --version-range 1.60..=1.62
            | package ID specification `y` matched no packages
            > members p 1.x a # {"depth":"2"} $ check --feature-powerset --package-rules -p p --version-range 1.60..=1.62
            | failed to parse `depth` field from [package.metadata.cargo-hack] of package `p`
            > members p 1.x a # {"depth":2} $ check --feature-powerset --package-rules -p p --version-range 1.60..=1.62
            | invalid number `x`
        "#,
    )
}

/// A feature that is excluded and in a group refuses the call, whichever of the call and the tables
/// has the two lists. What doesn't count for the package doesn't.
#[test]
fn excluded_in_groups(rt: HostRuntime) -> Result<(), Wrong> {
    on(
        rt.alloc(),
        Show::Fault,
        "p - a",
        r#"
            > members p - a b # {"exclude-features":["b"],"group-features":[["a","b"]]} $ check --feature-powerset --package-rules
            | feature `b` of package `p` is excluded, and also in a group or in --include-features
            > members p - a b # {"group-features":[["a","b"]]} $ check --feature-powerset --package-rules --exclude-features a
            | feature `a` of package `p` is excluded, and also in a group or in --include-features
            > members p - a b # {"exclude-features":["a"]} $ check --feature-powerset --package-rules --group-features a,b
            | feature `a` of package `p` is excluded, and also in a group or in --include-features
            > members p - a b # {"exclude-features":["b"]} ## {"group-features":[["a","b"]]} $ check --feature-powerset --package-rules
            | feature `b` of package `p` is excluded, and also in a group or in --include-features
            > members p - a b # {"group-features":[["a","b"]]} ## {"exclude-features":["b"]} $ check --feature-powerset --package-rules
            | feature `b` of package `p` is excluded, and also in a group or in --include-features
            > members p - a b ## {"exclude-features":["a"],"group-features":[["a","b"]]} $ check --feature-powerset --package-rules
            | feature `a` of package `p` is excluded, and also in a group or in --include-features
            > members p - a b ## {"group-features":[["a","b"]]} $ check --feature-powerset --package-rules --skip b
            | feature `b` of package `p` is excluded, and also in a group or in --include-features
            > members p - a # {"exclude-features":["x"],"group-features":[["a","x"]]} $ check --feature-powerset --package-rules
            | feature `x` of package `p` is excluded, and also in a group or in --include-features

            # The first name of the first group: the call's groups, then those of the package, then the workspace's.
            > members p - a b c d # {"exclude-features":["d","c","b"],"group-features":[["a","c"],["b","d"]]} $ check --feature-powerset --package-rules
            | feature `c` of package `p` is excluded, and also in a group or in --include-features
            > members p - a b c d # {"exclude-features":["d","b"],"group-features":[["a","c"],["b","d"]]} $ check --feature-powerset --package-rules
            | feature `b` of package `p` is excluded, and also in a group or in --include-features
            > members p - a b c d # {"exclude-features":["a","d"],"group-features":[["a","b"]]} $ check --feature-powerset --package-rules --group-features c,d
            | feature `d` of package `p` is excluded, and also in a group or in --include-features
            > members p - a b c d # {"exclude-features":["a","d"],"group-features":[["c","d"]]} ## {"group-features":[["a","b"]]} $ check --feature-powerset --package-rules
            | feature `d` of package `p` is excluded, and also in a group or in --include-features

            # Package by package, behind a field of its own table, and behind the workspace's.
            > members p - a b # {"exclude-features":["a"],"group-features":[["a","b"]]};q - a # {"depth":"2"} $ check --feature-powerset --package-rules --workspace
            | feature `a` of package `p` is excluded, and also in a group or in --include-features
            > members p - a # {"depth":"2"};q - a b # {"exclude-features":["a"],"group-features":[["a","b"]]} $ check --feature-powerset --package-rules --workspace
            | failed to parse `depth` field from [package.metadata.cargo-hack] of package `p`
            > members p - a # {"depth":2};q - a b # {"exclude-features":["a"],"group-features":[["a","b"]]} $ check --feature-powerset --package-rules --workspace
            | feature `a` of package `q` is excluded, and also in a group or in --include-features
            > members p - a b # {"exclude-features":["a"],"group-features":[["a","b"]],"depth":"2"} $ check --feature-powerset --package-rules
            | failed to parse `depth` field from [package.metadata.cargo-hack] of package `p`
            > members p - a b # {"exclude-features":["a"],"group-features":[["a","b"]]} ## {"strength":0} $ check --feature-powerset --package-rules
            | failed to parse `strength` field from [workspace.metadata.cargo-hack]
            > members p 1.x a b # {"exclude-features":["a"],"group-features":[["a","b"]]} $ check --feature-powerset --package-rules --version-range 1.60..=1.62
            | feature `a` of package `p` is excluded, and also in a group or in --include-features

            > members p - a;q - a b # {"exclude-features":["a"],"group-features":[["a","b"]]} $ check --feature-powerset --package-rules -p p
            | a plan
            > members p - a b # {"exclude-features":["a"],"group-features":[["a","b"]]} $ check --feature-powerset
            | a plan
            > members p - a b # {"exclude-features":["a"],"group-features":[["a","b"]]} $ check --each-feature --package-rules
            | a plan
            > members p - a b ## {"exclude-features":["a"],"group-features":[["a","x"]]} $ check --feature-powerset --package-rules
            | a plan
            > members p - a b c # {"exclude-features":["c"],"group-features":[["a","b"]]} $ check --feature-powerset --package-rules
            | a plan

            # So it is where all features that are to be included are excluded.
            > members p - a b # {"exclude-features":["b","a"]} $ check --each-feature --package-rules --include-features a,b
            | feature `a` of package `p` is excluded, and also in a group or in --include-features
            > members p - a b ## {"exclude-features":["a"]} $ check --feature-powerset --package-rules --include-features a
            | feature `a` of package `p` is excluded, and also in a group or in --include-features
            > members p - a b # {"exclude-features":["a"]} $ check --feature-powerset --package-rules --include-features b,a
            | a plan
            > members p - a b # {"exclude-features":["a"]} $ check --feature-powerset --package-rules
            | a plan
            > members p - a b # {"exclude-features":["a"]} $ check --feature-powerset --package-rules --include-features a,b --features a
            | a plan

            # Features of every run are in no set either, and not excluded.
            > members p - a b # {"group-features":[["a","b"]]} $ check --feature-powerset --package-rules --features a
            | a plan
            > members p - a b $ check --feature-powerset --package-rules --features a --group-features a,b
            | a plan
        "#,
    )
}
