//! The question to cargo for the metadata: which program is asked what, which answer is used, and
//! what the lockfile holds afterwards. Stable's cargo is 1.80.

use crate::tests::loading::{Show, within};
use hack_holds::Wrong;

#[test]
fn stable_is_asked_over_a_lockfile_that_stays(rt: HostRuntime) -> Result<(), Wrong> {
    within(
        rt.alloc(),
        Show::Metadata,
        r"
            + stable 1.80
            cargo metadata --format-version=1 --no-deps --manifest-path p = @empty
        ",
        "
            > rustup run stable cargo metadata --format-version=1 --manifest-path p --no-deps = @empty & /w/Cargo.lock = locked $ check --manifest-path p
            | rustup run stable cargo -vV
            | cargo metadata --format-version=1 --no-deps --manifest-path p
            | rustup run stable cargo metadata --format-version=1 --manifest-path p --no-deps
            | 0 of 0, lockfile 'locked'
            | read as 1.80

            # Stable fails, and the first answer counts.
            > /w/Cargo.lock = locked $ check --manifest-path p
            | rustup run stable cargo -vV
            | cargo metadata --format-version=1 --no-deps --manifest-path p
            | rustup run stable cargo metadata --format-version=1 --manifest-path p --no-deps
            | 0 of 0, lockfile 'locked'
            | read as 1.70

            # No lockfile: it is made first, which fails here.
            > rustup run stable cargo metadata --format-version=1 --manifest-path p --no-deps = @empty $ check --manifest-path p
            | rustup run stable cargo -vV
            | cargo metadata --format-version=1 --no-deps --manifest-path p
            | cargo generate-lockfile --manifest-path p
            | 0 of 0
            | process didn't exit successfully: `cargo generate-lockfile --manifest-path p` (exit status: 101)

            # It is said to be made, and still isn't there.
            > cargo generate-lockfile --manifest-path p = $ check --manifest-path p
            | rustup run stable cargo -vV
            | cargo metadata --format-version=1 --no-deps --manifest-path p
            | cargo generate-lockfile --manifest-path p
            | 0 of 1
            | failed to read from file `/w/Cargo.lock`
        ",
    )
}

#[test]
fn targets_the_host_and_answers_that_are_none(rt: HostRuntime) -> Result<(), Wrong> {
    within(
        rt.alloc(),
        Show::Metadata,
        r"
            + stable 1.80
            cargo metadata --format-version=1 --manifest-path p --filter-platform h = @empty
            /w/Cargo.lock = locked
        ",
        r#"
            > check --manifest-path p --each-feature --include-deps-features
            | rustup run stable cargo -vV
            | 0 of 0, lockfile 'locked'
            | unable to determine host
            > host = h & cargo metadata --format-version=1 --no-deps --manifest-path p = @empty $ check --manifest-path p --each-feature --include-deps-features
            | rustup run stable cargo -vV
            | cargo metadata --format-version=1 --no-deps --manifest-path p
            | rustup run stable cargo metadata --format-version=1 --manifest-path p --filter-platform h
            | cargo metadata --format-version=1 --manifest-path p --filter-platform h
            | 0 of 0, lockfile 'locked'
            | read as 1.70
            > cargo metadata --format-version=1 --no-deps --manifest-path p = @empty & rustup run stable cargo metadata --format-version=1 --manifest-path p --filter-platform a --filter-platform b = @empty $ check --manifest-path p --each-feature --include-deps-features --target b --target a
            | rustup run stable cargo -vV
            | cargo metadata --format-version=1 --no-deps --manifest-path p
            | rustup run stable cargo metadata --format-version=1 --manifest-path p --filter-platform a --filter-platform b
            | 0 of 0, lockfile 'locked'
            | read as 1.80
            > cargo metadata --format-version=1 --no-deps --manifest-path p = { $ check --manifest-path p
            | rustup run stable cargo -vV
            | cargo metadata --format-version=1 --no-deps --manifest-path p
            | 0 of 0, lockfile 'locked'
            | failed to parse output from `cargo metadata --format-version=1 --no-deps`
            > cargo metadata --format-version=1 --no-deps --manifest-path p = @empty & rustup run stable cargo metadata --format-version=1 --manifest-path p --no-deps = [] $ check --manifest-path p --verbose
            | rustup run stable cargo -vV
            | cargo metadata --format-version=1 --no-deps --manifest-path p
            | rustup run stable cargo metadata --format-version=1 --manifest-path p --no-deps
            | 0 of 0, lockfile 'locked'
            | failed to parse output from `rustup run stable cargo metadata --format-version=1 --manifest-path p --no-deps`
            > cargo metadata --format-version=1 --no-deps --manifest-path p = {"packages":[]} $ check --manifest-path p
            | rustup run stable cargo -vV
            | cargo metadata --format-version=1 --no-deps --manifest-path p
            | 0 of 0, lockfile 'locked'
            | failed to parse `workspace_root` field from metadata
        "#,
    )
}
