//! Worked examples of versions, pieces and command lines, as rows in the form that
//! `docs/TESTING.md` describes: one for each reader of an answer or a value, and for each rule of
//! the command line.

use crate::checks::checked;
use hack_holds::Wrong;

const VERSIONS: &str = r"[version] Versions.
> 1
| missing minor version
> 1.2.3.4
| invalid number `3.4`
> +1.+60
| 1.60
[minor of rustup] The answer of rustup.
> rustup\s1.26.0\s(5af9b9484\s2023-04-05)
| 26
[release of cargo] The answer of cargo.
> cargo\s1.60.0\nrelease:\s1.60.0-nightly\n
| 1.60.0
";

#[test]
fn versions_and_answers(rt: HostRuntime) -> Result<(), Wrong> {
    checked(rt.alloc(), VERSIONS, "0 of 5 are wrong")
}

const RANGES: &str = r"[range] Ranges.
> 1.60..1.62
| 1.60..=1.62 deprecated
> 1.60
| 1.60..
> 1.60..=
| inclusive range `1.60..=` must have end expression; consider using `1.60..` or `1.60..=<end>`
[steps] Steps.
@ step 3
> 1.60..=1.66
| 1.60 1.63 1.66\s
> 1.66..=1.60
| specified version range `1.66..=1.60` is empty
[steps] The one step is the own version.
@ own 2.0
> own
| major version must be 1
[groups] Each package at its own version.
@ own 1.60\s2.0
> own
| major version must be 1
[groups] Packages from their own versions on.
@ step 2
@ own 1.60\s1.61
> ..=1.64
| 1.60 [0] 1.61 [1] 1.62 [0, 1] 1.64 [0, 1]\s
[lockfiles] The lockfile is made by the oldest cargo.
> 1.50 1.55
| yes yes\s
> 1.52 1.53
| yes no\s
> 1.60 1.61
| no no\s
> 1.49 1.50 1.51 1.52
| yes no yes no\s
[lockfiles] None is made where it is locked.
@ locked
> 1.49 1.50 1.51 1.52
| no no no no\s
";

#[test]
fn ranges_steps_and_lockfiles(rt: HostRuntime) -> Result<(), Wrong> {
    checked(rt.alloc(), RANGES, "0 of 13 are wrong")
}

const PIECES: &str = r"[piece] Pieces.
> +1/3
| 1/3 block
> 0/3
| bad or out-of-range partition: 0/3
> 4/3
| bad or out-of-range partition: 4/3
> 1/2/3
| bad or out-of-range partition: 1/2/3
> \0
| bad or out-of-range partition:\s
[places] Places of a block.
> 1/3 4
| 0 1\s
> 2/3 4
| 2 3\s
> 3/3 4
|
> 1/1 0
|
> 1/2 5
| 0 1 2\s
> 2/2 5
| 3 4\s
[places] Places dealt in turn.
@ turn
> 1/2 5
| 0 2 4\s
> 2/2 5
| 1 3\s
> 1/3 4
| 0 3\s
> 2/3 4
| 1\s
> 3/3 4
| 2\s
> 1/1 0
|
";

#[test]
fn pieces_and_their_places(rt: HostRuntime) -> Result<(), Wrong> {
    checked(rt.alloc(), PIECES, "0 of 17 are wrong")
}

const CUTS: &str = r"[words] Help is printed while no subcommand was met.
> hack -h check --color x
| short help
[words] The first word is hack.
> --all
| expected subcommand 'hack', found argument '--all'
[words] Workspace behavior is said once.
> hack --workspace-behavior=cargo --workspace-behavior=cargo
| The argument '--workspace-behavior' was provided more than once, but cannot be used multiple times
|
| USAGE:
|     cargo hack --workspace-behavior
|
| For more information try --help
|
[words] Words can be cut.
> hack check -p
| missing argument for option '-p'
> hack check --locked=yes
| unexpected argument for option '--locked': `yes`
> hack check --skip '
| argument for --skip must not be a lone quote sign
> hack check --workspace-behavior
| argument for --workspace-behavior must be cargo and in form of --workspace-behavior=cargo
> hack check --ignore-non-exist-features
| --ignore-non-exist-features was removed, use --ignore-unknown-features instead
> hack check --skip-no-default-features
| --skip-no-default-features was removed, use --exclude-no-default-features instead
> hack check --each-features
| Found argument '--each-features' which wasn't expected, or isn't valid in this context
|         Did you mean --each-feature?
|
| USAGE:
|     cargo hack check --each-feature
|
| For more information try --help
|
> hack check --depth 1 --depth 2
| The argument '--depth' was provided more than once, but cannot be used multiple times
|
| USAGE:
|     cargo hack check --depth <NUM>
|
| For more information try --help
|
";

#[test]
fn rules_of_cuts(rt: HostRuntime) -> Result<(), Wrong> {
    checked(rt.alloc(), CUTS, "0 of 11 are wrong")
}

const EARLY: &str = r"[words] Colours.
> hack check --color x
| argument for --color must be auto, always, or never, but found `x`
[words] Colours of the environment.
@ color x
> hack check
| CARGO_TERM_COLOR must be auto, always, or never, but found `x`
[words] What stands beside other options.
> hack check --ignore-unknown-features
| --ignore-unknown-features can only be used together with --features, --include-features, or --group-features
> hack check --optional-deps
| --optional-deps can only be used together with either --each-feature or --feature-powerset
> hack check --exclude-features a
| --exclude-features (--skip) can only be used together with either --each-feature or --feature-powerset
> hack check --exclude-no-default-features
| --exclude-no-default-features can only be used together with either --each-feature or --feature-powerset
> hack check --exclude-all-features
| --exclude-all-features can only be used together with either --each-feature or --feature-powerset
> hack check --include-features a
| --include-features can only be used together with either --each-feature or --feature-powerset
> hack check --include-deps-features
| --include-deps-features can only be used together with either --each-feature or --feature-powerset
> hack check --each-feature --depth 2
| --depth can only be used together with --feature-powerset
> hack check --feature-powerset --depth x
| invalid number `x`
> hack check --feature-powerset --group-features a
| --group-features requires a list of two or more features separated by space or comma
> hack check --feature-powerset --mutually-exclusive-features a
| --mutually-exclusive-features requires a list of two or more features separated by space or comma
> hack check --feature-powerset --at-least-one-of a
| --at-least-one-of requires a list of two or more features separated by space or comma
[words] What doesn't stand together.
> hack test --remove-dev-deps
| --remove-dev-deps may not be used together with test subcommand
> hack bench --no-dev-deps
| --no-dev-deps may not be used together with bench subcommand
> hack install
| cargo-hack may not be used together with install subcommand
> hack check --workspace-behavior=cargo --each-feature
| --workspace-behavior=cargo may not be used together with --each-feature
> hack check --workspace-behavior=cargo --feature-powerset
| --workspace-behavior=cargo may not be used together with --feature-powerset
> hack check --no-dev-deps --example
| --no-dev-deps may not be used together with --example
> hack check --remove-dev-deps --bench=b
| --remove-dev-deps may not be used together with --bench=b
> hack check --each-feature --include-features a --optional-deps
| --include-features may not be used together with --optional-deps
> hack check --each-feature --include-features a --include-deps-features
| --include-features may not be used together with --include-deps-features
> hack check --no-dev-deps --remove-dev-deps
| --no-dev-deps may not be used together with --remove-dev-deps
> hack check --each-feature --feature-powerset
| --each-feature may not be used together with --feature-powerset
> hack check --each-feature --all-features
| --all-features may not be used together with --each-feature
> hack check --feature-powerset --no-default-features
| --no-default-features may not be used together with --feature-powerset
> hack check --each-feature --skip a --features a
| feature `a` specified by both --exclude-features and --features
";

#[test]
fn rules_before_the_subcommand(rt: HostRuntime) -> Result<(), Wrong> {
    checked(rt.alloc(), EARLY, "0 of 28 are wrong")
}

const LATE: &str = r"[words] There is a subcommand, or a list is asked for.
> hack
| no subcommand or valid flag specified
|
| USAGE:
|     cargo hack [OPTIONS] [SUBCOMMAND]
|
| For more information try --help
> hack --list --version-step 0
| list
[words] Ranges.
> hack check --version-range 1.60.. --rust-version
| --version-range may not be used together with --rust-version
> hack check --version-range 1
| missing minor version
[words] Ranges need a new rustup.
@ rustup 22
> hack check --version-range 1.60..
| --version-range requires rustup 1.23 or later
> hack check --rust-version
| --rust-version requires rustup 1.23 or later
[words] What stands beside a range.
> hack check --version-step 2
| --version-step can only be used together with --version-range
> hack check --clean-per-version
| --clean-per-version can only be used together with --version-range
> hack check --version-range 1.60.. --version-step 65536
| invalid number `65536`
> hack check --version-range 1.60.. --version-step 0
| --version-step cannot be zero
[words] Log groups, pieces and lifted groups.
> hack check --log-group x
| argument for --log-group must be none or github-actions, but found `x`
> hack check --partition 0/3
| bad or out-of-range partition: 0/3
> hack check --partition-kind turn
| --partition-kind can only be used together with --partition
> hack check --partition 1/2 --partition-kind x
| argument for --partition-kind must be block or turn, but found `x`
> hack check --allow-together p=a,b
| --allow-together can only be used together with --mutually-exclusive-features
> hack check --feature-powerset --mutually-exclusive-features a,b --allow-together p
| --allow-together requires PACKAGE=FEATURES with two or more features, but found `p`
> hack check --feature-powerset --mutually-exclusive-features a,b --allow-together p=b,a
| --allow-together names no group of --mutually-exclusive-features: `p=b,a`
[words] The strength of a sample.
> hack check --each-feature --strength 2
| --strength can only be used together with --feature-powerset
> hack check --feature-powerset --strength x
| invalid number `x`
> hack check --feature-powerset --strength 0
| --strength cannot be zero
> hack check --feature-powerset --strength 2 --strength 3
| The argument '--strength' was provided more than once, but cannot be used multiple times
|
| USAGE:
|     cargo hack check --strength
|
| For more information try --help
|
[words] Edits are brought back, and nothing else is asked for.
> hack --restore
| args
> hack --restore -v --color never
| args
> hack --restore --list
| list
> hack check --restore
| --restore may not be used together with other arguments
> hack --restore -- check
| --restore may not be used together with other arguments
> hack --restore --foo
| --restore may not be used together with other arguments
> hack --restore --workspace-behavior=cargo
| --restore may not be used together with other arguments
> hack --restore --remove-dev-deps
| --restore may not be used together with other arguments
> hack --restore --strength 2
| --strength can only be used together with --feature-powerset
> hack --restore --restore
| The argument '--restore' was provided more than once, but cannot be used multiple times
|
| USAGE:
|     cargo hack --restore
|
| For more information try --help
|
[words] The rules of manifests stand beside sets of features.
> hack check --package-rules
| --package-rules can only be used together with either --each-feature or --feature-powerset
> hack --restore --package-rules
| --restore may not be used together with other arguments
> hack check --each-feature --package-rules
| args
[words] Runs side by side.
> hack check --parallel 4
| args
> hack check --parallel 0
| --parallel cannot be zero
> hack check --parallel 257
| invalid number `257`
> hack check --parallel 2 --print-command-list
| --parallel may not be used together with --print-command-list
> hack check --parallel 2 --clean-per-run
| --parallel may not be used together with --clean-per-run
> hack check --parallel 2 --parallel 3
| The argument '--parallel' was provided more than once, but cannot be used multiple times
|
| USAGE:
|     cargo hack check --parallel
|
| For more information try --help
|
[words] The least version.
> hack check --version-range 1.60..=1.70 --find-rust-version
| args
> hack check --find-rust-version
| --find-rust-version can only be used together with --version-range
> hack check --version-range 1.60.. --find-rust-version --keep-going
| --find-rust-version may not be used together with --keep-going
> hack check --version-range 1.60.. --feature-powerset --find-rust-version --find-conflicts
| --find-rust-version may not be used together with --find-conflicts
[words] Conflicts.
> hack check --feature-powerset --find-conflicts --most-runs 20 --keep-going
| args
> hack check --each-feature --find-conflicts
| --find-conflicts can only be used together with --feature-powerset
> hack check --feature-powerset --find-conflicts --depth 2
| --find-conflicts may not be used together with --depth
> hack check --feature-powerset --find-conflicts --parallel 2
| --find-conflicts may not be used together with --parallel
> hack check --feature-powerset --most-runs 20
| --most-runs can only be used together with --find-conflicts
> hack check --feature-powerset --find-conflicts --most-runs x
| invalid number `x`
> hack check --feature-powerset --find-conflicts --most-runs 0
| --most-runs cannot be zero
[words] Notices.
> hack check --each-feature --ignore-unknown-features --include-features a
| args
| quiet: --ignore-unknown-features for --include-features is not fully implemented and may not work as intended
> hack check --version-range 1.60..1.62
| args
| warn: using `..` for inclusive range is deprecated; consider using `1.60..=1.62`
";

#[test]
fn rules_behind_the_subcommand(rt: HostRuntime) -> Result<(), Wrong> {
    checked(rt.alloc(), LATE, "0 of 53 are wrong")
}
