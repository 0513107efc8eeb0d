//! The help, word for word.

use std::alloc::{AllocError, Global};

/// What `-h` and `--help` print.
pub fn help_rows(alloc: Global) -> Result<String, AllocError> {
    let rows = HELP.replace(alloc, "+ head", HEAD)?;
    rows.as_str().replace(alloc, "+ tail", TAIL)
}

/// How both begin and end.
const HEAD: &str = "| cargo-hack
| Cargo subcommand to provide various options useful for testing and continuous integration.
|
| USAGE:
|     cargo hack [OPTIONS] [SUBCOMMAND]
|
| Use -h for short descriptions and --help for more details.
|
| OPTIONS:";

const TAIL: &str = "| Some common cargo commands are (see all commands with --list):
|     build       Compile the current package
|     check       Analyze the current package and report errors, but don't build object files
|     run         Run a binary or example of the local package
|     test        Run the tests
|";

const HELP: &str = "
> help: short
+ head
|     -p, --package <SPEC>...              Package(s) to check
|         --all                            Alias for --workspace
|         --workspace                      Perform command for all packages in the workspace
|         --exclude <SPEC>...              Exclude packages from the check
|         --manifest-path <PATH>           Path to Cargo.toml
|         --locked                         Require Cargo.lock is up to date
|     -F, --features <FEATURES>...         Space or comma separated list of features to activate
|         --each-feature                   Perform for each feature of the package
|         --feature-powerset               Perform for the feature powerset of the package
|         --optional-deps [DEPS]...        Use optional dependencies as features
|         --skip <FEATURES>...             Alias for --exclude-features
|         --exclude-features <FEATURES>... Space or comma separated list of features to exclude
|         --exclude-no-default-features    Exclude run of just --no-default-features flag
|         --exclude-all-features           Exclude run of just --all-features flag
|         --depth <NUM>                    Specify a max number of simultaneous feature flags of
|                                          --feature-powerset
|         --group-features <FEATURES>...   Space or comma separated list of features to group
|         --target <TRIPLE>                Build for specified target triple
|         --mutually-exclusive-features <FEATURES>... Space or comma separated list of features to not use
|                                          together
|         --allow-together <PKG=FEATURES>... Lift one group of --mutually-exclusive-features for one
|                                          package
|         --at-least-one-of <FEATURES>...  Space or comma separated list of features. Skips sets of
|                                          features that don't enable any of the features listed
|         --include-features <FEATURES>... Include only the specified features in the feature
|                                          combinations instead of package features
|         --no-dev-deps                    Perform without dev-dependencies
|         --remove-dev-deps                Equivalent to --no-dev-deps flag except for does not
|                                          restore the original `Cargo.toml` after performed
|         --no-private                     Perform without `publish = false` crates
|         --ignore-private                 Skip to perform on `publish = false` packages
|         --ignore-unknown-features        Skip passing --features flag to `cargo` if that feature
|                                          does not exist in the package
|         --rust-version                   Perform commands on `package.rust-version`
|         --version-range [START]..[=END]  Perform commands on a specified (inclusive) range of Rust
|                                          versions
|         --version-step <NUM>             Specify the version interval of --version-range (default
|                                          to `1`)
|         --clean-per-run                  Remove artifacts for that package before running the
|                                          command
|         --clean-per-version              Remove artifacts per Rust version
|         --keep-going                     Keep going on failure
|         --partition <M/N>                Partition runs and execute only its subset according to
|                                          M/N
|         --partition-kind <KIND>          Partitioning: block, turn
|         --log-group <KIND>               Log grouping: none, github-actions
|         --workspace-behavior=cargo       Use Cargo's workspace handling
|         --print-command-list             Print commands without run (Unstable)
|         --no-manifest-path               Do not pass --manifest-path option to cargo (Unstable)
|     -v, --verbose                        Use verbose output
|         --color <WHEN>                   Coloring: auto, always, never
|     -h, --help                           Prints help information
|     -V, --version                        Prints version information
|
+ tail
> help: long
+ head
|     -p, --package <SPEC>...
|             Package(s) to check.
|
|         --all
|             Alias for --workspace.
|
|         --workspace
|             Perform command for all packages in the workspace.
|
|         --exclude <SPEC>...
|             Exclude packages from the check.
|
|         --manifest-path <PATH>
|             Path to Cargo.toml.
|
|         --locked
|             Require Cargo.lock is up to date.
|
|     -F, --features <FEATURES>...
|             Space or comma separated list of features to activate.
|
|         --each-feature
|             Perform for each feature of the package.
|
|             This also includes runs with just --no-default-features flag, and default features.
|
|             When this flag is not used together with --exclude-features (--skip) and
|             --include-features and there are multiple features, this also includes runs with just
|             --all-features flag.
|
|         --feature-powerset
|             Perform for the feature powerset of the package.
|
|             This also includes runs with just --no-default-features flag, and default features.
|
|             When this flag is used together with --depth or namespaced features (-Z
|             namespaced-features) and not used together with --exclude-features (--skip) and
|             --include-features and there are multiple features, this also includes runs with just
|             --all-features flag.
|
|         --optional-deps [DEPS]...
|             Use optional dependencies as features.
|
|             If DEPS are not specified, all optional dependencies are considered as features.
|
|             This flag can only be used together with either --each-feature flag or
|             --feature-powerset flag.
|
|         --skip <FEATURES>...
|             Alias for --exclude-features.
|
|         --exclude-features <FEATURES>...
|             Space or comma separated list of features to exclude.
|
|             To exclude run of default feature, using value `--exclude-features default`.
|
|             To exclude run of just --no-default-features flag, using --exclude-no-default-features
|             flag.
|
|             To exclude run of just --all-features flag, using --exclude-all-features flag.
|
|             This flag can only be used together with either --each-feature flag or
|             --feature-powerset flag.
|
|         --exclude-no-default-features
|             Exclude run of just --no-default-features flag.
|
|             This flag can only be used together with either --each-feature flag or
|             --feature-powerset flag.
|
|         --exclude-all-features
|             Exclude run of just --all-features flag.
|
|             This flag can only be used together with either --each-feature flag or
|             --feature-powerset flag.
|
|         --depth <NUM>
|             Specify a max number of simultaneous feature flags of --feature-powerset.
|
|             If NUM is set to 1, --feature-powerset is equivalent to --each-feature.
|
|             This flag can only be used together with --feature-powerset flag.
|
|         --group-features <FEATURES>...
|             Space or comma separated list of features to group.
|
|             This treats the specified features as if it were a single feature.
|
|             To specify multiple groups, use this option multiple times: `--group-features a,b
|             --group-features c,d`
|
|             This flag can only be used together with --feature-powerset flag.
|
|         --target <TRIPLE>
|             Build for specified target triple.
|
|             Comma-separated lists of targets are not supported, but you can specify the whole
|             --target option multiple times to do multiple targets.
|
|             This is actually not a cargo-hack option, it is interpreted by Cargo itself.
|
|         --mutually-exclusive-features <FEATURES>...
|             Space or comma separated list of features to not use together.
|
|             To specify multiple groups, use this option multiple times:
|             `--mutually-exclusive-features a,b --mutually-exclusive-features c,d`
|
|             This flag can only be used together with --feature-powerset flag.
|
|         --allow-together <PKG=FEATURES>...
|             Lift one group of --mutually-exclusive-features for one package.
|
|             This flag can only be used together with --mutually-exclusive-features flag.
|
|         --at-least-one-of <FEATURES>...
|             Space or comma separated list of features. Skips sets of features that don't enable any
|             of the features listed.
|
|             To specify multiple groups, use this option multiple times: `--at-least-one-of a,b
|             --at-least-one-of c,d`
|
|             This flag can only be used together with --feature-powerset flag.
|
|         --include-features <FEATURES>...
|             Include only the specified features in the feature combinations instead of package
|             features.
|
|             This flag can only be used together with either --each-feature flag or
|             --feature-powerset flag.
|
|         --no-dev-deps
|             Perform without dev-dependencies.
|
|             Note that this flag removes dev-dependencies from real `Cargo.toml` while cargo-hack is
|             running and restores it when finished.
|
|         --remove-dev-deps
|             Equivalent to --no-dev-deps flag except for does not restore the original `Cargo.toml`
|             after performed.
|
|         --no-private
|             Perform without `publish = false` crates.
|
|         --ignore-private
|             Skip to perform on `publish = false` packages.
|
|         --ignore-unknown-features
|             Skip passing --features flag to `cargo` if that feature does not exist in the package.
|
|             This flag can be used with --features, --include-features, or --group-features.
|
|         --rust-version
|             Perform commands on `package.rust-version`.
|
|             This cannot be used with --version-range.
|
|         --version-range [START]..[=END]
|             Perform commands on a specified (inclusive) range of Rust versions.
|
|             If the upper bound of the range is omitted, the latest stable compiler is used as the
|             upper bound.
|
|             If the lower bound of the range is omitted, the value of the `rust-version` field in
|             `Cargo.toml` is used as the lower bound.
|
|             Note that ranges are always inclusive ranges.
|
|         --version-step <NUM>
|             Specify the version interval of --version-range (default to `1`).
|
|             This flag can only be used together with --version-range flag.
|
|         --clean-per-run
|             Remove artifacts for that package before running the command.
|
|             If used this flag with --workspace, --each-feature, or --feature-powerset, artifacts
|             will be removed before each run.
|
|             Note that dependencies artifacts will be preserved.
|
|         --clean-per-version
|             Remove artifacts per Rust version.
|
|             Note that dependencies artifacts will also be removed.
|
|             This flag can only be used together with --version-range flag.
|
|         --keep-going
|             Keep going on failure.
|
|         --partition <M/N>
|             Partition runs and execute only its subset according to M/N.
|
|         --partition-kind <KIND>
|             Partitioning: block, turn.
|
|             This flag can only be used together with --partition flag.
|
|         --log-group <KIND>
|             Log grouping: none, github-actions.
|
|             If this option is not used, the environment will be automatically detected.
|
|         --workspace-behavior=cargo
|             Use Cargo's workspace handling.
|
|             This is for use cases where cargo-hack's workspace handling does not work.
|
|             Note that this is incompatible with flags that require cargo-hack's workspace handling
|             to work properly (e.g., `--each-feature`, `--feature-powerset`, etc.).
|
|         --print-command-list
|             Print commands without run (Unstable).
|
|         --no-manifest-path
|             Do not pass --manifest-path option to cargo (Unstable).
|
|     -v, --verbose
|             Use verbose output.
|
|         --color <WHEN>
|             Coloring: auto, always, never.
|
|             This flag will be propagated to cargo.
|
|     -h, --help
|             Prints help information.
|
|     -V, --version
|             Prints version information.
|
+ tail
";
