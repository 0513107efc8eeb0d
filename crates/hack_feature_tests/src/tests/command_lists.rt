//! Command lists: from arguments and the bytes of a feature map to the bytes of the list, or the
//! first error.

use crate::tests::lists::{on, on_sharing};
use hack_holds::Wrong;
use std::alloc::Global;

const FOUR: &str = r#"{"a":[],"b":["a"],"c":["b"],"d":["a","b"]}"#;

/// Checks rows on this map; `+ first two of four` are the first lines of its list.
fn on_four(alloc: Global, rows: &str) -> Result<(), Wrong> {
    on_sharing(alloc, FOUR, &[("+ first two of four", FIRST_TWO)], rows)
}

const FIRST_TWO: &str = "| cargo check --no-default-features
| cargo check --no-default-features --features c,d";

#[test]
fn lists_of_small_maps(rt: HostRuntime) -> Result<(), Wrong> {
    on_four(
        rt.alloc(),
        r#"
            > list
            | ok
            + first two of four
            | cargo check --no-default-features --features a
            | cargo check --no-default-features --features b
            | cargo check --no-default-features --features c
            | cargo check --no-default-features --features d
            |
            > list --at-least-one-of c,x
            | ok
            | cargo check --no-default-features --features c,d
            | cargo check --no-default-features --features c
            |
            > list <{}
            | ok
            | cargo check
            |
            > list <{"a":["b"],"b":["a"]}
            | ok
            | cargo check --no-default-features
            | cargo check --no-default-features --features b
            | cargo check --no-default-features --features a
            |
            > list --depth 1
            | ok
            | cargo check --no-default-features
            | cargo check --no-default-features --features a
            | cargo check --no-default-features --features b
            | cargo check --no-default-features --features c
            | cargo check --no-default-features --features d
            |
            > list --depth 0 <{"a":[]}
            | ok
            | cargo check --no-default-features
            |
            > list --depth 0 --at-least-one-of a,b <{"a":[]}
            | ok
            |
            > list --depth 18446744073709551615 <{"a":[]}
            | ok
            | cargo check --no-default-features
            | cargo check --no-default-features --features a
            |
            > list --at-least-one-of x,y
            | ok
            | cargo check --no-default-features --features c,d
            | cargo check --no-default-features --features a
            | cargo check --no-default-features --features b
            | cargo check --no-default-features --features c
            | cargo check --no-default-features --features d
            |
            > list --at-least-one-of a,b <{}
            | ok
            | cargo check
            |
            > list --mutually-exclusive-features tokio,async-std <{"a":["tokio/full"],"b":["async-std?/alloc"],"tokio":[],"async-std":[]}
            | ok
            | cargo check --no-default-features
            | cargo check --no-default-features --features b,tokio
            | cargo check --no-default-features --features a
            | cargo check --no-default-features --features async-std
            | cargo check --no-default-features --features b
            | cargo check --no-default-features --features a,b
            | cargo check --no-default-features --features async-std,b
            | cargo check --no-default-features --features tokio
            |
        "#,
    )
}

#[test]
fn lists_of_hostile_maps(rt: HostRuntime) -> Result<(), Wrong> {
    on_four(
        rt.alloc(),
        r#"
            > list <{"a":["a"]}
            | ok
            | cargo check --no-default-features
            | cargo check --no-default-features --features a
            |
            > list <{"a":["b"],"b":["c"],"c":["a"]}
            | ok
            | cargo check --no-default-features
            | cargo check --no-default-features --features c
            | cargo check --no-default-features --features a
            | cargo check --no-default-features --features b
            |
            > list --mutually-exclusive-features dep:x,y <{"a":["dep:x"],"b":["dep:x"]}
            | ok
            | cargo check --no-default-features
            | cargo check --no-default-features --features b
            | cargo check --no-default-features --features a
            |
        "#,
    )?;
    // A feature without a name.
    on(
        rt.alloc(),
        "{\"\":[]}",
        "
            > list
            | ok
            | cargo check --no-default-features
            | cargo check --no-default-features --features\x20
            |
        ",
    )
}

/// Arguments are checked before the input.
static REFUSED: &str = "
    > list --at-least-one-of c
    | --at-least-one-of requires a list of two or more features separated by space or comma
    |
    > list --mutually-exclusive-features c
    | --mutually-exclusive-features requires a list of two or more features separated by space or comma
    |
    > list --at-least-one-of c --mutually-exclusive-features d
    | --mutually-exclusive-features requires a list of two or more features separated by space or comma
    |
    > list --at-least-one-of c,d --at-least-one-of e --depth 1
    | --at-least-one-of requires a list of two or more features separated by space or comma
    |
    > list --depth x
    | invalid number `x`
    |
    > list --at-least-one-of c --depth x
    | invalid number `x`
    |
    > list --depth 18446744073709551616
    | invalid number `18446744073709551616`
    |
    > list --depth=1
    | usage: powerset-list [--depth N] [--at-least-one-of LIST]... [--mutually-exclusive-features LIST]...
    |
    > list --depth
    | usage: powerset-list [--depth N] [--at-least-one-of LIST]... [--mutually-exclusive-features LIST]...
    |
    > list --depth 1 --depth 1
    | usage: powerset-list [--depth N] [--at-least-one-of LIST]... [--mutually-exclusive-features LIST]...
    |
    > list --depth x --depth 1
    | usage: powerset-list [--depth N] [--at-least-one-of LIST]... [--mutually-exclusive-features LIST]...
    |
    > list --depth x --at-least-one-of
    | usage: powerset-list [--depth N] [--at-least-one-of LIST]... [--mutually-exclusive-features LIST]...
    |
    > list --at-least-one c,d
    | usage: powerset-list [--depth N] [--at-least-one-of LIST]... [--mutually-exclusive-features LIST]...
    |
    > list a
    | usage: powerset-list [--depth N] [--at-least-one-of LIST]... [--mutually-exclusive-features LIST]...
    |
";

#[test]
fn refused_words(rt: HostRuntime) -> Result<(), Wrong> {
    on(rt.alloc(), FOUR, REFUSED)
}

#[test]
fn refused_words_before_input_at_fault(rt: HostRuntime) -> Result<(), Wrong> {
    on(rt.alloc(), "[]", REFUSED)
}

#[test]
fn refused_input(rt: HostRuntime) -> Result<(), Wrong> {
    on_four(
        rt.alloc(),
        r#"
            > list <[]
            | features must be an object of arrays of texts
            |
            > list <{"a":1}
            | features must be an object of arrays of texts
            |
            > list <{"a":[1.5]}
            | features must be an object of arrays of texts
            |
            > list <{"a":["b"],"c":"d"}
            | features must be an object of arrays of texts
            |
            > list <{"a":["b"]
            | features must be an object of arrays of texts
            |
            > list <{"a":["b"]} {}
            | features must be an object of arrays of texts
            |
            > list <null
            | features must be an object of arrays of texts
            |
            > list <
            | features must be an object of arrays of texts
            |

            # The name has a byte that is not UTF-8.
            > torn
            | features must be an object of arrays of texts
            |
        "#,
    )
}

#[test]
fn input_of_200_nested_arrays(rt: HostRuntime) -> Result<(), Wrong> {
    on_four(
        rt.alloc(),
        "> nested 200\n| features must be an object of arrays of texts\n|",
    )
}

#[test]
fn list_by_spaces(rt: HostRuntime) -> Result<(), Wrong> {
    on_four(
        rt.alloc(),
        r#"
            > list --at-least-one-of c_x
            | ok
            | cargo check --no-default-features --features c,d
            | cargo check --no-default-features --features c
            |
        "#,
    )
}

#[test]
fn chain_of_300(rt: HostRuntime) -> Result<(), Wrong> {
    on_four(rt.alloc(), "> chain 300\n| 301")
}

#[test]
fn reader_that_fails(rt: HostRuntime) -> Result<(), Wrong> {
    on_four(
        rt.alloc(),
        r#"
            > read 0 pipe
            | failed to read the features
            |
            > read 1 pipe
            | failed to read the features
            |
            > read 3 pipe
            | failed to read the features
            |
        "#,
    )
}

#[test]
fn writer_that_fails(rt: HostRuntime) -> Result<(), Wrong> {
    on_four(
        rt.alloc(),
        r#"
            > line 0 pipe
            | failed to write the command list
            |
            > line 34 pipe
            | failed to write the command list
            | cargo check --no-default-features
            |
            > line 83 pipe
            | failed to write the command list
            + first two of four
            |
            > line 130 pipe
            | failed to write the command list
            + first two of four
            | cargo check --no-default-features --features a
            |
        "#,
    )
}
