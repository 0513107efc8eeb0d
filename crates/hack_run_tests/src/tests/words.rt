//! Command lines: what is printed, what is refused, their notices, and rustup's version.

use crate::tests::asked::on;
use crate::tests::worlds::PLAIN;
use hack_holds::Wrong;

#[test]
fn printed_or_refused(rt: HostRuntime) -> Result<(), Wrong> {
    on(
        rt.alloc(),
        PLAIN,
        r#"
            > hack --version
            | out
            | cargo-hack 0.6.46
            | status 0

            > hack --each-feature -V check --depth x
            | out
            | cargo-hack 0.6.46
            | status 0

            > hack
            + no subcommand

            > hack --each-feature
            + no subcommand

            > hack check --depth 1
            | err
            | error: --depth can only be used together with --feature-powerset
            | status 1

            > hack check --color x
            | err
            | error: argument for --color must be auto, always, or never, but found `x`
            | status 1

            > hack --list
            | cargo --list
            | status 0
        "#,
    )
}

#[test]
fn rustup(rt: HostRuntime) -> Result<(), Wrong> {
    on(
        rt.alloc(),
        PLAIN,
        r#"
            > hack --list; fails 101 cargo --list
            | cargo --list
            | err
            | error: process didn't exit successfully: `cargo --list` (exit status: 101)
            | status 1

            > hack check --version-range 1.60..=1.60; says rustup --version = rustup 1.22.1 (b01adbbc3 2020-07-08)
            | rustup --version
            | err
            | error: --version-range requires rustup 1.23 or later
            | status 1

            > hack check -- --version-range 1.60..=1.60; says rustup --version = rustup 1.22.1 (b01adbbc3 2020-07-08)
            | asked
            | cargo check --manifest-path Cargo.toml -- --version-range 1.60..=1.60
            | err
            | info: running `cargo check -- --version-range 1.60..=1.60` on p (1/1)
            | status 0

            > hack check --version-range 1.60..=1.60; fails 1 rustup --version
            + checked by 1.60
            | err
            | warning: unable to determine rustup version; assuming latest stable rustup: process didn't exit successfully: `rustup --version` (exit status: 1)
            | info: running `rustup run 1.60 cargo check` on p (1/1)
            | status 0

            > hack check --version-range 1.60..=1.60; says rustup --version = rustup 2.0.0
            + checked by 1.60
            | err
            | warning: unable to determine rustup version; assuming latest stable rustup: unexpected output from `rustup --version`: rustup 2.0.0
            | info: running `rustup run 1.60 cargo check` on p (1/1)
            | status 0

            > hack check --version-range 1.60..1.60
            + checked by 1.60
            | err
            | warning: using `..` for inclusive range is deprecated; consider using `1.60..=1.60`
            | info: running `rustup run 1.60 cargo check` on p (1/1)
            | status 0

            > hack check --version-range 1.60..1.60; deny warnings
            + checked by 1.60
            | err
            | warning: using `..` for inclusive range is deprecated; consider using `1.60..=1.60`
            | info: running `rustup run 1.60 cargo check` on p (1/1)
            | status 1

            > hack check; deny warnings
            | asked
            | cargo check --manifest-path Cargo.toml
            | err
            | info: running `cargo check` on p (1/1)
            | status 0
        "#,
    )
}

#[test]
fn lines(rt: HostRuntime) -> Result<(), Wrong> {
    on(
        rt.alloc(),
        PLAIN,
        "
            > hack check; colors always
            | asked
            | cargo check --manifest-path Cargo.toml
            | err
            | \x1b[0m\x1b[1minfo\x1b[0m\x1b[1m:\x1b[0m running `cargo check` on p (1/1)
            | status 0

            > hack check --color auto; colors always
            | asked
            | cargo check --color auto --manifest-path Cargo.toml
            | err
            | \x1b[0m\x1b[1minfo\x1b[0m\x1b[1m:\x1b[0m running `cargo check --color auto` on p (1/1)
            | status 0

            > hack check --color never; colors always
            | asked
            | cargo check --color never --manifest-path Cargo.toml
            | err
            | info: running `cargo check --color never` on p (1/1)
            | status 0

            > hack check --color always
            | asked
            | cargo check --color always --manifest-path Cargo.toml
            | err
            | \x1b[0m\x1b[1minfo\x1b[0m\x1b[1m:\x1b[0m running `cargo check --color always` on p (1/1)
            | status 0

            > hack check -v
            | asked
            | cargo check --manifest-path Cargo.toml
            | err
            | info: running `cargo check --manifest-path Cargo.toml` (1/1)
            | status 0

            > hack check; on github
            | asked
            | cargo check --manifest-path Cargo.toml
            | out
            | ::group::running `cargo check` on p (1/1)
            | ::endgroup::
            | status 0

            > hack check --log-group none; on github
            | asked
            | cargo check --manifest-path Cargo.toml
            | err
            | info: running `cargo check` on p (1/1)
            | status 0
        ",
    )
}
