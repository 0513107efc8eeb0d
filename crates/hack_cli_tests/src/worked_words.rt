//! Worked examples of command lines: the error, or the fields that they give. Those that break a
//! rule are in `worked_rows`.

use crate::checks::checked;
use hack_holds::Wrong;

const REFUSED: &str = "[fields] Words that are refused.
> hack test --no-dev-deps --remove-dev-deps
| --remove-dev-deps may not be used together with test subcommand
> hack check --color x --ignore-unknown-features
| argument for --color must be auto, always, or never, but found `x`
> hack check -n=3
| unexpected argument for option '-n': `3`
>
| expected subcommand 'hack'
> hack check --workspace --all
| The argument '--all' was provided more than once, but cannot be used multiple times
|
| USAGE:
|     cargo hack check --all\\s
|
| For more information try --help
|
> hack check --features '
| argument for --features must not be a lone quote sign
> hack --optional-deps check --each-feature
| no subcommand or valid flag specified
|
| USAGE:
|     cargo hack [OPTIONS] [SUBCOMMAND]
|
| For more information try --help
> hack check --optional-deps '
| argument for --optional-deps must not be a lone quote sign
> hack check --each-feature --include-features a --exclude-features a
| feature `a` specified by both --exclude-features and --include-features
";

#[test]
fn worked_examples_of_words_that_are_refused(rt: HostRuntime) -> Result<(), Wrong> {
    checked(rt.alloc(), REFUSED, "0 of 9 are wrong")
}

const PIECES_AND_LIFTS: &str = "[fields] Pieces.
> hack check --partition +1/3
| leading_args=check; subcommand=check; partition=1/3
> hack check --partition 4/3
| bad or out-of-range partition: 4/3
> hack check --partition 1/2/3
| bad or out-of-range partition: 1/2/3
> hack check --partition=
| bad or out-of-range partition:\\s
> hack check --partition 1/99999999999999999999
| bad or out-of-range partition: 1/99999999999999999999
> hack check --partition 1/2 --partition-kind turn
| leading_args=check; subcommand=check; partition=1/2; in turn
> hack check --partition 1/2 --partition-kind blocks
| argument for --partition-kind must be block or turn, but found `blocks`
[fields] Groups that are lifted for a package.
> hack check --feature-powerset --workspace --mutually-exclusive-features tokio,async-std --allow-together p=tokio,async-std
| leading_args=check; subcommand=check; mutually_exclusive_features=[tokio,async-std]; allow_together=p:[tokio,async-std]; workspace; feature_powerset; exclude_all_features
> hack check --feature-powerset --workspace --mutually-exclusive-features tokio,async-std --allow-together p=async-std,tokio
| --allow-together names no group of --mutually-exclusive-features: `p=async-std,tokio`
> hack check --feature-powerset --workspace --mutually-exclusive-features tokio,async-std --allow-together p
| --allow-together requires PACKAGE=FEATURES with two or more features, but found `p`
> hack check --feature-powerset --workspace --mutually-exclusive-features tokio,async-std --allow-together z=tokio,async-std
| leading_args=check; subcommand=check; mutually_exclusive_features=[tokio,async-std]; allow_together=z:[tokio,async-std]; workspace; feature_powerset; exclude_all_features
";

#[test]
fn worked_examples_of_pieces_and_lifts(rt: HostRuntime) -> Result<(), Wrong> {
    checked(rt.alloc(), PIECES_AND_LIFTS, "0 of 11 are wrong")
}

const ACCEPTED: &str = "[fields] Words that are accepted.
> hack check -j4 --foo=bar -nq -- x
| leading_args=check|-j4|--foo=bar|-n|-q; trailing_args=x; subcommand=check
> hack check -vh
| leading_args=check|-h; subcommand=check; verbose
> hack check --workspace-behavior=cargo --all -p x
| leading_args=check|--all|-p|x; subcommand=check; package=x; cargo; workspace
> hack check --target b --target a --target b
| leading_args=check; subcommand=check; target=a|b
> hack check -ab=c
| leading_args=check|-ab=c; subcommand=check
> hack  check
| leading_args=|check; subcommand=
> hack check --feature-powerset --depth 1 --optional-deps --partition 2/3
| leading_args=check; subcommand=check; optional_deps; depth=1; partition=2/3; feature_powerset
> hack check --version-range 1.63..=1.64 --target b --target a
| leading_args=check; subcommand=check; target=a|b; version_range=1.63..=1.64
";

#[test]
fn worked_examples_of_accepted_words(rt: HostRuntime) -> Result<(), Wrong> {
    checked(rt.alloc(), ACCEPTED, "0 of 8 are wrong")
}
