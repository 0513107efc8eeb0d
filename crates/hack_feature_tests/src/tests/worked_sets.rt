//! Worked sets of features: what is listed for small maps and rules, and which listed set covers
//! another.

use crate::tests::calls::on;
use hack_holds::Wrong;
use std::alloc::Global;

const FOUR: &str = "a:;b: a;c: b;d: a b $ a b c d";

const RUNTIMES: &str = "async-std:;tokio: $ async-std tokio";

/// Checks which sets are listed for an input under these rules.
fn lists(alloc: Global, input: &str, rules: &str, sets: &str) -> Result<(), Wrong> {
    let row = format!(in alloc; "> list {rules}\n| {sets}")?;
    on(alloc, input, row.as_str())
}

#[test]
fn what_another_feature_enables_is_left_out(rt: HostRuntime) -> Result<(), Wrong> {
    lists(rt.alloc(), FOUR, "", "[a] [b] [c] [d] [c,d]")
}

#[test]
fn at_least_one_of(rt: HostRuntime) -> Result<(), Wrong> {
    on(
        rt.alloc(),
        FOUR,
        "
            > list some=a
            | [a] [b] [c] [d] [c,d]
            > list some=c
            | [c] [c,d]
            > list some=a some=c
            | [c] [c,d]
            > list some=c,x
            | [c] [c,d]
            > list some=x,y
            | [a] [b] [c] [d] [c,d]
        ",
    )
}

#[test]
fn runtimes_that_exclude_each_other(rt: HostRuntime) -> Result<(), Wrong> {
    on(
        rt.alloc(),
        "tokio:;async-std:;a:;b: a $ a b tokio async-std",
        "
            > list apart=tokio,async-std
            | [a] [b] [tokio] [a,tokio] [b,tokio] [async-std] [a,async-std] [b,async-std]
            > list apart=tokio,a apart=tokio,async-std
            | [a] [b] [tokio] [async-std] [a,async-std] [b,async-std]
        ",
    )
}

#[test]
fn names_of_dependencies(rt: HostRuntime) -> Result<(), Wrong> {
    lists(
        rt.alloc(),
        "actual: alias;alias: dep:actual actual/feat;entry: alias;x:;y: $ actual alias entry x y",
        "apart=x,y",
        "[actual] [alias] [entry] [actual,entry] [x] [actual,x] [alias,x] [entry,x] [actual,entry,x] [y] [actual,y] [alias,y] [entry,y] [actual,entry,y]",
    )
}

#[test]
fn exclusion_of_what_is_enabled(rt: HostRuntime) -> Result<(), Wrong> {
    lists(
        rt.alloc(),
        "a:;b: a;c:;d: b $ a b c d",
        "apart=a,c",
        "[a] [b] [c] [d]",
    )
}

#[test]
fn features_of_dependencies_reach_their_groups(rt: HostRuntime) -> Result<(), Wrong> {
    on(
        rt.alloc(),
        "a: tokio/full;b: async-std?/alloc;tokio:;async-std: $ a b tokio async-std",
        "
            > list apart=tokio,async-std
            | [a] [b] [a,b] [tokio] [b,tokio] [async-std] [b,async-std]
            > cover 0,2 apart=tokio,async-std
            | none
        ",
    )
}

#[test]
fn cycles(rt: HostRuntime) -> Result<(), Wrong> {
    lists(rt.alloc(), "a: a $ a", "", "[a]")?;
    lists(rt.alloc(), "a: b;b: a $ a b", "", "[a] [b]")?;
    lists(rt.alloc(), "a: b;b: c;c: a $ a b c", "", "[a] [b] [c]")
}

#[test]
fn covering_sets_in_a_cycle_of_two(rt: HostRuntime) -> Result<(), Wrong> {
    on(
        rt.alloc(),
        "a: b;b: a $ a b",
        "
            > cover 0,1
            | [0]
            > cover -
            | none
        ",
    )
}

#[test]
fn covering_sets_in_a_cycle_of_three(rt: HostRuntime) -> Result<(), Wrong> {
    on(
        rt.alloc(),
        "a: b;b: c;c: a $ a b c",
        "
            > cover 0,1,2
            | [0]
            > cover 1,2
            | [1]
        ",
    )
}

#[test]
fn sets_that_are_too_deep_have_no_cover(rt: HostRuntime) -> Result<(), Wrong> {
    on(
        rt.alloc(),
        FOUR,
        "
            > cover 2,3 depth=1
            | none
            > cover 3 depth=1
            | [3]
        ",
    )
}

#[test]
fn sets_that_miss_a_required_group_have_no_cover(rt: HostRuntime) -> Result<(), Wrong> {
    on(
        rt.alloc(),
        FOUR,
        "
            > cover 0,1,3 some=c,x
            | none
            > cover 0,1,2 some=c,x
            | [2]
        ",
    )
}

#[test]
fn odd_names(rt: HostRuntime) -> Result<(), Wrong> {
    // The key and the candidate are empty names.
    lists(rt.alloc(), ": $ ", "", "[]")?;
    lists(
        rt.alloc(),
        "a: dep:x;b: dep:x $ a b",
        "apart=dep:x,y",
        "[a] [b]",
    )?;
    lists(rt.alloc(), "a: x y $ x y a", "", "[x] [y] [x,y] [a]")?;
    lists(rt.alloc(), "a: $ a a", "", "[a] [a] [a,a]")
}

#[test]
fn groups_as_candidates(rt: HostRuntime) -> Result<(), Wrong> {
    lists(
        rt.alloc(),
        "a:;b:;c:;default: $ c default [a|b]",
        "",
        "[c] [default] [c,default] [a,b] [c,a,b] [default,a,b] [c,default,a,b]",
    )?;
    lists(
        rt.alloc(),
        "a:;b: a;c: b;d: m;e: b d $ a c e [b|d]",
        "",
        "[a] [c] [e] [c,e] [b,d] [c,b,d]",
    )
}

#[test]
fn a_group_that_repeats_a_name_excludes_itself(rt: HostRuntime) -> Result<(), Wrong> {
    lists(rt.alloc(), "a:;b: $ [a|a] a b", "apart=a,b", "[a] [b]")
}

#[test]
fn lifted_groups(rt: HostRuntime) -> Result<(), Wrong> {
    on(
        rt.alloc(),
        RUNTIMES,
        "
            > list apart=tokio,async-std apart=async-std,tokio
            | [async-std] [tokio]
            > list lifted=tokio,async-std apart=async-std,tokio
            | [async-std] [tokio]
            > list apart=tokio,async-std lifted=async-std,tokio
            | [async-std] [tokio]
            > list lifted=tokio,async-std lifted=async-std,tokio
            | [async-std] [tokio] [async-std,tokio]
        ",
    )
}

#[test]
fn a_package_with_nothing_lifted(rt: HostRuntime) -> Result<(), Wrong> {
    lists(
        rt.alloc(),
        RUNTIMES,
        "apart=tokio,async-std",
        "[async-std] [tokio]",
    )
}

#[test]
fn a_package_with_its_group_lifted(rt: HostRuntime) -> Result<(), Wrong> {
    lists(
        rt.alloc(),
        RUNTIMES,
        "lifted=tokio,async-std",
        "[async-std] [tokio] [async-std,tokio]",
    )
}

#[test]
fn powerset_at_each_depth(rt: HostRuntime) -> Result<(), Wrong> {
    on(
        rt.alloc(),
        "",
        "
            > powerset
            | [] [1] [2] [1,2] [3] [1,3] [2,3] [1,2,3] [4] [1,4] [2,4] [1,2,4] [3,4] [1,3,4] [2,3,4] [1,2,3,4]
            > powerset depth=0
            | []
            > powerset depth=1
            | [] [1] [2] [3] [4]
            > powerset depth=2
            | [] [1] [2] [1,2] [3] [1,3] [2,3] [4] [1,4] [2,4] [3,4]
            > powerset depth=3
            | [] [1] [2] [1,2] [3] [1,3] [2,3] [1,2,3] [4] [1,4] [2,4] [1,2,4] [3,4] [1,3,4] [2,3,4]
            > powerset depth=4
            | [] [1] [2] [1,2] [3] [1,3] [2,3] [1,2,3] [4] [1,4] [2,4] [1,2,4] [3,4] [1,3,4] [2,3,4] [1,2,3,4]
        ",
    )
}

#[test]
fn order_of_sets(rt: HostRuntime) -> Result<(), Wrong> {
    on(
        rt.alloc(),
        "",
        "
            > order - 0 1 0,1 2 0,2 1,2 0,1,2 3
            | =<<<<<<<<
            | >=<<<<<<<
            | >>=<<<<<<
            | >>>=<<<<<
            | >>>>=<<<<
            | >>>>>=<<<
            | >>>>>>=<<
            | >>>>>>>=<
            | >>>>>>>>=
            > order 0,1,2,3,4 5
            | =<
            | >=
        ",
    )
}
