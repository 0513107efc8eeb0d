//! Why there is no context: errors that end the questions, and answers that give none.

use crate::tests::loading::{Show, within};
use hack_holds::Wrong;

#[test]
fn faults_that_end_the_questions(rt: HostRuntime) -> Result<(), Wrong> {
    within(
        rt.alloc(),
        Show::Context,
        "cargo -vV = @own",
        r"
            # Cargo fails to report the metadata, or reports none.
            > check
            + metadata asked
            | 0 of 0
            | process didn't exit successfully: `cargo metadata --format-version=1 --no-deps` (exit status: 101)
            > cargo metadata --format-version=1 --no-deps = [] $ check
            + metadata asked
            | 0 of 0
            | failed to parse output from `cargo metadata --format-version=1 --no-deps`
            > cargo metadata --format-version=1 --no-deps = {} $ check
            + metadata asked
            | 0 of 0
            | failed to parse `packages` field from metadata

            # The host isn't known.
            > cargo -vV = release: 1.70.0 $ check --each-feature --include-deps-features
            | cargo -vV
            | rustup run stable cargo -vV
            | 0 of 0
            | unable to determine host

            # A manifest that is missing, or ill formed.
            > cargo metadata --format-version=1 --no-deps = @virtual & /w/a/Cargo.toml = [package]\n $ check
            + metadata asked
            | 0 of 1
            | failed to read from file `/w/b/Cargo.toml`
            > cargo metadata --format-version=1 --no-deps = @single & /w/Cargo.toml = package $ check
            + metadata asked
            | 0 of 0
            | failed to parse manifest `/w/Cargo.toml` as toml
            > cargo metadata --format-version=1 --no-deps = @single & /w/Cargo.toml = [package]\n[features]\na = 1\n $ check
            + metadata asked
            | 0 of 0
            | failed to parse `features` field from manifest `/w/Cargo.toml`

            # Cargo fails to locate the current package.
            > cargo metadata --format-version=1 --no-deps = @single & /w/Cargo.toml = [package]\n $ check
            + asked
            | 0 of 0
            | process didn't exit successfully: `cargo locate-project` (exit status: 101)
        ",
    )
}

#[test]
fn answers_that_make_no_context(rt: HostRuntime) -> Result<(), Wrong> {
    within(
        rt.alloc(),
        Show::Context,
        r#"
            cargo locate-project = {"root":"/w/Cargo.toml"}
            /w/Cargo.toml = [package]\n
        "#,
        r"
            > cargo -vV = release: 1.40.0\nhost: h & cargo metadata --format-version=1 --filter-platform h = @node $ check --each-feature --include-deps-features
            + host h asked
            | 0 of 0
            | --include-deps-features requires Cargo 1.41 or later
            > cargo -vV = release: 1.41.0\nhost: h & cargo metadata --format-version=1 --filter-platform h = @node $ check --each-feature --include-deps-features
            + host h asked
            | 0 of 0
            | /w by `cargo` 1.41 (1.41) in /w
            | at p
            | p at /w/Cargo.toml, private: false, none, 10:
            > cargo -vV = release: 1.41.0\nhost: h & cargo metadata --format-version=1 --filter-platform h = @single $ check --each-feature --include-deps-features
            + host h asked
            | 0 of 0
            | failed to parse `nodes` field from metadata
        ",
    )
}

#[test]
fn answers_that_tell_no_place(rt: HostRuntime) -> Result<(), Wrong> {
    within(
        rt.alloc(),
        Show::Context,
        r"
            cargo metadata --format-version=1 --no-deps = @single
            cargo metadata --format-version=1 --manifest-path m --no-deps = @single
            /w/Cargo.toml = [package]\n
        ",
        "
            > cargo -vV = @own & cargo locate-project = {} $ check
            + asked
            | 0 of 0
            | failed to parse `root` field from locate-project
            > cargo -vV = @own & cargo locate-project = /w/Cargo.toml $ check
            + asked
            | 0 of 0
            | failed to parse output from `cargo locate-project`

            # Cargo itself can't be asked for its version: this warns, and the next error counts.
            > cargo locate-project --manifest-path m = [] $ check --manifest-path m
            | cargo -vV
            | rustup run stable cargo -vV
            | cargo metadata --format-version=1 --manifest-path m --no-deps
            | cargo locate-project --manifest-path m
            | 0 of 0
            | failed to parse output from `cargo locate-project`
        ",
    )
}
