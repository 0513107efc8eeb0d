//! Questions on sets, and how many of them an enumeration asks: at most the number of candidates
//! times that of permitted sets.

use crate::tests::calls::on;
use crate::tests::given::numbered;
use hack_holds::Wrong;
use std::alloc::Global;

/// Checks a row on so many numbered features, of which each enables the one before in a chain.
fn on_numbered(alloc: Global, n: usize, is_chain: bool, row: &str) -> Result<(), Wrong> {
    let input = numbered(alloc, n, is_chain)?;
    on(alloc, input.as_str(), row)
}

#[test]
fn few_questions_on_four_features(rt: HostRuntime) -> Result<(), Wrong> {
    on(
        rt.alloc(),
        "a:;b: a;c: b;d: a b $ a b c d",
        "
            > count 24
            | 5 5 5 few true same true
            > count 24 some=c,x
            | 2 2 2 few true same true
        ",
    )
}

#[test]
fn few_questions_on_runtimes(rt: HostRuntime) -> Result<(), Wrong> {
    on(
        rt.alloc(),
        "a: tokio/full;b: async-std?/alloc;tokio:;async-std: $ a b tokio async-std",
        "
            > count 32 apart=tokio,async-std
            | 7 7 7 few true same true
        ",
    )
}

#[test]
fn few_questions_on_pairs_of_30(rt: HostRuntime) -> Result<(), Wrong> {
    on_numbered(
        rt.alloc(),
        30,
        false,
        "> count 13980 depth=2\n| 465 465 465 few true same true",
    )
}

#[test]
fn few_questions_on_a_chain_of_60(rt: HostRuntime) -> Result<(), Wrong> {
    on_numbered(
        rt.alloc(),
        60,
        true,
        "> count 3660\n| 60 60 60 few true same true",
    )
}

#[test]
fn few_questions_on_a_chain_of_300(rt: HostRuntime) -> Result<(), Wrong> {
    on_numbered(
        rt.alloc(),
        300,
        true,
        "> count 90300\n| 300 300 300 few true same true",
    )
}

#[test]
fn questions_on_depth_and_redundancy(rt: HostRuntime) -> Result<(), Wrong> {
    on(
        rt.alloc(),
        "a:;b: a;c: b;d: a b $ a b c d",
        "
            > ask 0 1 depth=2 some=c,x
            | false 1 false
            > ask 2 3 depth=2 some=c,x
            | true 1 true
            > ask - 3 depth=2 some=c,x
            | true 1 false
            > ask 0,1 2 depth=2 some=c,x
            | false 1 false
        ",
    )?;
    on(
        rt.alloc(),
        " $ f1 f2 f3",
        "
            > ask 0 2 depth=2
            | true 1 true
            > ask 0,1 2 depth=2
            | false 1 true
        ",
    )
}

#[test]
fn questions_on_exclusion(rt: HostRuntime) -> Result<(), Wrong> {
    on(
        rt.alloc(),
        "a:;b: a;c: b;d: a b $ a b c d",
        "
            > ask 2 3 apart=a,x
            | false 1 true
            > ask - 3 apart=a,x
            | true 1 true
        ",
    )
}
