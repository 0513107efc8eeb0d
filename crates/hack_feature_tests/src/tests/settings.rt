//! Which candidates are on in a set, and with all features, worked out by hand.

use crate::tests::calls::on;
use hack_holds::Wrong;

#[test]
fn what_a_set_enables_is_on(rt: HostRuntime) -> Result<(), Wrong> {
    on(
        rt.alloc(),
        "a:;b: a;c: b $ a b c",
        "
            > settings -
            | off off off
            > settings 0
            | on off off
            > settings 1
            | on on off
            > settings 2
            | on on on
            > settings_of_all
            | on on on
        ",
    )
}

#[test]
fn a_group_is_on_where_each_of_its_names_is(rt: HostRuntime) -> Result<(), Wrong> {
    on(
        rt.alloc(),
        "x: a;y: b;a:;b: $ [a|b] x y",
        "
            > settings 0
            | on off off
            > settings 1
            | off on off
            > settings 1,2
            | on on on
        ",
    )
}

#[test]
fn a_group_without_names_is_on(rt: HostRuntime) -> Result<(), Wrong> {
    on(
        rt.alloc(),
        "a: $ () a b",
        "
            > settings -
            | on off off
            > settings_of_all
            | on on off
        ",
    )
}

#[test]
fn a_dependency_is_no_feature(rt: HostRuntime) -> Result<(), Wrong> {
    on(
        rt.alloc(),
        "a: dep:d;d: dep:d $ a d",
        "
            > settings 0
            | on off
            > settings_of_all
            | on on
        ",
    )
}

#[test]
fn positions_past_the_last_candidate_add_nothing(rt: HostRuntime) -> Result<(), Wrong> {
    on(
        rt.alloc(),
        "a:;b: $ a b",
        "
            > settings 7
            | off off
            > settings 1,7
            | off on
        ",
    )
}

#[test]
fn all_features_are_the_keys_and_what_they_enable(rt: HostRuntime) -> Result<(), Wrong> {
    on(
        rt.alloc(),
        "a: b p/f $ a b c p>f q>f",
        "
            > settings_of_all
            | on on off on off
            > settings 0
            | on on off on off

            # A set can have on what no key enables.
            > settings 2,4
            | off off on off on
        ",
    )
}
