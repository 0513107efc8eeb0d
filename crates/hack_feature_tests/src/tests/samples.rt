//! Samples of sets of features, worked out by hand: which sets they have at strength 1, and at a
//! strength at which each listed set shows a pattern of its own.

use crate::tests::calls::on;
use hack_holds::Wrong;

#[test]
fn free_features(rt: HostRuntime) -> Result<(), Wrong> {
    on(
        rt.alloc(),
        " $ a b c",
        "
            > sample 3
            | [0] [1] [0,1] [2] [0,2] [1,2] [0,1,2]
        ",
    )
}

#[test]
fn a_feature_that_enables_another(rt: HostRuntime) -> Result<(), Wrong> {
    on(
        rt.alloc(),
        "a:;b: a $ a b",
        "
            > sample 1
            | [0] [1]
            > sample 2
            | [0] [1]
        ",
    )
}

#[test]
fn features_that_exclude_each_other(rt: HostRuntime) -> Result<(), Wrong> {
    on(
        rt.alloc(),
        "a:;b:;c: $ a b c",
        "
            > sample 3 apart=a,b,c
            | [0] [1] [2]
            > sample 1 apart=a,b,c
            | [0] [1] [2]
        ",
    )
}

#[test]
fn one_of_them_is_required(rt: HostRuntime) -> Result<(), Wrong> {
    on(
        rt.alloc(),
        "a:;b:;c: $ a b c",
        "
            > sample 3 some=a,b
            | [0] [1] [0,1] [0,2] [1,2] [0,1,2]
        ",
    )
}

#[test]
fn a_group_is_on_where_each_of_its_names_is(rt: HostRuntime) -> Result<(), Wrong> {
    on(
        rt.alloc(),
        "x: a;y: b;a:;b: $ [a|b] x y",
        "
            > sample 1 depth=1
            | [0] [1] [2]

            # x and y together turn the group on, so no two of the sets show the same of all three.
            > sample 3 depth=2
            | [0] [1] [0,1] [2] [0,2] [1,2]
        ",
    )
}

#[test]
fn features_that_enable_each_other(rt: HostRuntime) -> Result<(), Wrong> {
    on(
        rt.alloc(),
        "a: b;b: a $ a b",
        "
            > sample 2
            | [0]
        ",
    )
}
