//! What `run`, `run_with_output` and `read` return with a caller in memory, and what it was asked.
//! `commands` describes the questions.

use crate::commands::{on, on_own};
use hack_holds::Wrong;

#[test]
fn a_command_that_ends_well(rt: HostRuntime) -> Result<(), Wrong> {
    on_own(
        rt.alloc(),
        r#"
            > command: /bin/cargo
            | `cargo`
            > own words: check|--manifest-path|/w/m/Cargo.toml
            | `cargo check`
            > run: status 0|out\n|err\n
            | ok
            | /bin/cargo check --manifest-path /w/m/Cargo.toml
            > output: status 0|out\n|err\n
            | "out\n" "err\n"
            | /bin/cargo check --manifest-path /w/m/Cargo.toml captured
            > read: status 0|a\r\n b\n\r\n\n|err\n
            | "a\r\n b"
            | /bin/cargo check --manifest-path /w/m/Cargo.toml captured
            > read: status 0|\n\r\n|
            | ""
            | /bin/cargo check --manifest-path /w/m/Cargo.toml captured
            > read: status 0||
            | ""
            | /bin/cargo check --manifest-path /w/m/Cargo.toml captured
            > read: status 0| a \n|
            | " a "
            | /bin/cargo check --manifest-path /w/m/Cargo.toml captured
            > run: status 0|\f|
            | ok
            | /bin/cargo check --manifest-path /w/m/Cargo.toml
        "#,
    )
}

#[test]
fn a_program_without_a_name_is_not_called(rt: HostRuntime) -> Result<(), Wrong> {
    on_own(
        rt.alloc(),
        "
            > caller: status 0
            | ok
            > command:
            | ``
            > own word: check
            | ` check`
            > run
            | empty program name
            > output
            | empty program name
            > read
            | empty program name
            > words of the call
            | no call
        ",
    )
}

#[test]
fn words_are_asked_in_order(rt: HostRuntime) -> Result<(), Wrong> {
    on(
        rt.alloc(),
        "check",
        "a b|",
        "
            > caller: status 0
            | ok
            > command: rustup
            | `rustup`
            > passed
            | `rustup check -- a b `
            > own words: run|1.60|cargo
            | `rustup check run 1.60 cargo -- a b `
            > names: x|y
            | `rustup check run 1.60 cargo --features x,y -- a b `
            > leading: +stable
            | `rustup +stable check run 1.60 cargo --features x,y -- a b `
            > run
            | ok
            | rustup +stable check run 1.60 cargo --features x,y -- a b\x20
            > read
            | \"\"
            | rustup +stable check run 1.60 cargo --features x,y -- a b  captured
            > words of the call
            | +stable|check|run|1.60|cargo|--features|x,y|--|a b|
        ",
    )
}

#[test]
fn answers_of_a_caller_in_memory(rt: HostRuntime) -> Result<(), Wrong> {
    on_own(
        rt.alloc(),
        r#"
            > caller: status 7
            | ok
            > reply: status 0|first||cargo -vV
            | ok
            > reply: status 1|second||cargo -vV
            | ok
            > reply: status 0|none||cargo
            | ok

            > command: cargo
            | `cargo`
            > own word: -vV
            | `cargo -vV`
            > read
            | "first"
            | cargo -vV captured

            > command: cargo
            | `cargo`
            > own word: -v
            | `cargo -v`
            > read
            | process didn't exit successfully: `cargo -v` (exit status: 7)
            | cargo -v captured

            > command: cargo
            | `cargo`
            > own word:
            | `cargo `
            > read
            | process didn't exit successfully: `cargo ` (exit status: 7)
            | cargo  captured
        "#,
    )
}

static FAILING: &str = r"
    > command: /bin/cargo
    | `cargo`
    > own words: check|--manifest-path|/w/m/Cargo.toml
    | `cargo check`
    > run: status 101|out\n|
    | process didn't exit successfully: `/bin/cargo check --manifest-path m/Cargo.toml` (exit status: 101)
    | /bin/cargo check --manifest-path /w/m/Cargo.toml
    > run: signal 9||
    | process didn't exit successfully: `/bin/cargo check --manifest-path m/Cargo.toml` (signal: 9)
    | /bin/cargo check --manifest-path /w/m/Cargo.toml
    > run: never started||
    | could not execute process `/bin/cargo check --manifest-path m/Cargo.toml` (never executed)
    | /bin/cargo check --manifest-path /w/m/Cargo.toml
    > read: never started|out|err
    | could not execute process `/bin/cargo check --manifest-path m/Cargo.toml` (never executed)
    | /bin/cargo check --manifest-path /w/m/Cargo.toml captured
    > output: status -1|out\n| err
    | process didn't exit successfully: `/bin/cargo check --manifest-path m/Cargo.toml` (exit status: -1)
    | --- stdout
    | out
    |
    | --- stderr
    |  err
    | /bin/cargo check --manifest-path /w/m/Cargo.toml captured
    > read: signal 11| \r\n|err
    | process didn't exit successfully: `/bin/cargo check --manifest-path m/Cargo.toml` (signal: 11)
    | --- stderr
    | err
    | /bin/cargo check --manifest-path /w/m/Cargo.toml captured
    > read: status 1|out|\f err
    | process didn't exit successfully: `/bin/cargo check --manifest-path m/Cargo.toml` (exit status: 1)
    | --- stdout
    | out
    | /bin/cargo check --manifest-path /w/m/Cargo.toml captured
    > read: status 0|a\f|err
    | failed to parse output from `/bin/cargo check --manifest-path m/Cargo.toml`
    | /bin/cargo check --manifest-path /w/m/Cargo.toml captured
";

#[test]
fn a_command_that_fails(rt: HostRuntime) -> Result<(), Wrong> {
    on_own(rt.alloc(), FAILING)
}
