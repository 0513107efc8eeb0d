//! Lists of commands.

use crate::tests::asked::on;
use crate::tests::worlds::PLAIN;
use hack_holds::Wrong;

#[test]
fn lists_of_commands(rt: HostRuntime) -> Result<(), Wrong> {
    on(
        rt.alloc(),
        PLAIN,
        r#"
            > hack check --feature-powerset --depth 1 --optional-deps --partition 2/3 --print-command-list --clean-per-run; features a; optional d
            | asked
            | out
            | cargo clean --package p
            | cargo check --manifest-path Cargo.toml --no-default-features --features a
            | cargo clean --package p
            | cargo check --manifest-path Cargo.toml --no-default-features --features d
            | status 0

            > hack check --feature-powerset --depth 1 --optional-deps --partition 2/3 --partition-kind turn --print-command-list --clean-per-run; features a; optional d
            | asked
            | out
            | cargo clean --package p
            | cargo check --manifest-path Cargo.toml --no-default-features
            | status 0

            > hack check --feature-powerset --no-manifest-path --print-command-list; features a; optional d
            | asked
            | out
            | cargo check --all-features
            | cargo check --no-default-features
            | cargo check --no-default-features --features a
            | status 0

            > hack check --version-range 1.60..=1.61 --print-command-list
            + asked after rustup
            | rustup run 1.60 cargo --version
            | rustup run 1.61 cargo --version
            | out
            | rustup run 1.60 cargo check --manifest-path Cargo.toml
            | rustup run 1.61 cargo check --manifest-path Cargo.toml
            | status 0

            > hack check --version-range 1.60..=1.61 --print-command-list --keep-going; fails 1 rustup run 1.61 cargo --version; fails 1 rustup toolchain add 1.61 --no-self-update
            + asked after rustup
            | rustup run 1.60 cargo --version
            | rustup run 1.61 cargo --version
            | rustup toolchain add 1.61 --no-self-update
            | err
            | info: running `rustup toolchain add 1.61 --no-self-update`
            | error: process didn't exit successfully: `rustup toolchain add 1.61 --no-self-update` (exit status: 1)
            | out
            | rustup run 1.60 cargo check --manifest-path Cargo.toml
            | status 1

            > hack check --print-command-list; on github
            | asked
            | out
            | cargo check --manifest-path Cargo.toml
            | status 0
        "#,
    )
}

#[test]
fn output_that_fails(rt: HostRuntime) -> Result<(), Wrong> {
    on(
        rt.alloc(),
        PLAIN,
        r#"
            > err: hack check --print-command-list; broken write 1
            | err
            | error: failed to write the command list
            | status 1

            > err: hack --version; broken write 1
            | err
            | error: failed to write to standard output
            | status 1
        "#,
    )
}

// What is listed is gathered, so the list fails at the first full page. Without `--keep-going` the
// next version's toolchain isn't asked for then.
#[test]
fn lists_that_go_on(rt: HostRuntime) -> Result<(), Wrong> {
    on(
        rt.alloc(),
        PLAIN,
        r#"
            > calls err: hack check --feature-powerset --version-range 1.60..=1.61 --print-command-list; features a b c d e f g h i j; broken write 1
            + asked after rustup
            | rustup run 1.60 cargo --version
            | err
            | error: failed to write the command list
            | status 1

            > calls err: hack check --feature-powerset --version-range 1.60..=1.61 --print-command-list --keep-going; features a b c d e f g h i j; broken write 1
            + asked after rustup
            | rustup run 1.60 cargo --version
            | rustup run 1.61 cargo --version
            | err
            | error: failed to write the command list
            | status 1
        "#,
    )
}
