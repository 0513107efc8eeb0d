//! The table of options. Each option has a row: how it is written and parsed, and what the help
//! says about it.

ghost use Rattle.std.specs.Prelude.{◌≡◌, IsSome, is_some, Some};
ghost use Rattle.hack_options.specs.Table.{entry, entry_of, flag as flag_entry, once as once_entry};
ghost use Rattle.hack_options.specs.Table.{many as many_entry};
ghost use Rattle.hack_options.specs.Texts.{is_told};

use crate::opt::Opt;

/// A row of the table: how an option is written and parsed, and what the help shows.
#[derive(Clone, Copy)]
pub struct Row {
    /// The letter after one dash.
    pub letter: Option<char>,
    /// The name after two dashes.
    pub name: &'static str,
    pub kind: Kind,
    /// Whether giving it twice is an error.
    pub once: bool,
    /// What the help shows after the name, such as `<PATH>`; empty where the option takes no value,
    /// or has it in its name, as in `--workspace-behavior=cargo`.
    pub value: &'static str,
    /// The texts of the help. Two options of Cargo, and those of ours that came later, have no row
    /// there.
    pub(crate) told: Option<HelpText>,
}

/// The texts of the help on an option.
#[derive(Clone, Copy)]
pub(crate) struct HelpText {
    /// What the option does, in a few words without a full stop.
    pub text: &'static str,
    /// What the long help adds.
    pub paragraphs: &'static [&'static str],
}

/// The value that an option takes.
#[derive(Clone, Copy, Debug, PartialEq, Eq)]
pub enum Kind {
    /// None.
    Flag,
    /// One value, attached or the next argument.
    Value,
    /// A list of names in one value.
    Names,
    /// The same, and the value may be left out.
    OptionalNames,
    /// None; it asks for the help unless a subcommand came before it.
    Help,
    /// None; it asks for the version unless a subcommand came before it.
    Version,
    /// `=cargo`, which is taken out before options are parsed: any form that remains is an error.
    Refused,
}

/// All options, in the order of the help; those that the help doesn't show come last.
pub const ALL: [Opt; 52] = [
    Opt::Package,
    Opt::All,
    Opt::Workspace,
    Opt::Exclude,
    Opt::ManifestPath,
    Opt::Locked,
    Opt::Features,
    Opt::EachFeature,
    Opt::FeaturePowerset,
    Opt::OptionalDeps,
    Opt::Skip,
    Opt::ExcludeFeatures,
    Opt::ExcludeNoDefaultFeatures,
    Opt::ExcludeAllFeatures,
    Opt::Depth,
    Opt::GroupFeatures,
    Opt::Target,
    Opt::MutuallyExclusiveFeatures,
    Opt::AllowTogether,
    Opt::AtLeastOneOf,
    Opt::IncludeFeatures,
    Opt::NoDevDeps,
    Opt::RemoveDevDeps,
    Opt::NoPrivate,
    Opt::IgnorePrivate,
    Opt::IgnoreUnknownFeatures,
    Opt::RustVersion,
    Opt::VersionRange,
    Opt::VersionStep,
    Opt::CleanPerRun,
    Opt::CleanPerVersion,
    Opt::KeepGoing,
    Opt::Partition,
    Opt::PartitionKind,
    Opt::LogGroup,
    Opt::WorkspaceBehavior,
    Opt::PrintCommandList,
    Opt::NoManifestPath,
    Opt::Verbose,
    Opt::Color,
    Opt::Help,
    Opt::Version,
    Opt::NoDefaultFeatures,
    Opt::AllFeatures,
    Opt::IncludeDepsFeatures,
    Opt::Strength,
    Opt::Restore,
    Opt::PackageRules,
    Opt::Parallel,
    Opt::FindRustVersion,
    Opt::FindConflicts,
    Opt::MostRuns,
];

impl Row {
    /// The row of an option. It is made of two parts in the same order, `syntax` and `help_text`: a
    /// single match with both takes twice as long to prove.
    pub(crate) fn of(option: Opt) -> Row
        ensures entry { entry result ≡ entry_of option }
        ensures told { is_some result.told ≡ is_told option }
    {
        Row {
            told: help_text(option),
            ..syntax(option)
        }
    }

    /// The same option, with a letter too.
    fn with_letter(self, letter: char) -> Row
        ensures { entry result ≡ record (entry self) { letter = Some letter } }
    {
        Row {
            letter: Some(letter),
            ..self
        }
    }
}

const WITH_FEATURE_SETS: &str =
    "This flag can only be used together with either --each-feature flag or --feature-powerset flag.";

const WITH_POWERSET: &str = "This flag can only be used together with --feature-powerset flag.";

const WITH_VERSION_RANGE: &str = "This flag can only be used together with --version-range flag.";

const ALSO_WITHOUT_DEFAULT: &str =
    "This also includes runs with just --no-default-features flag, and default features.";

/// How the option is written and parsed, and the value that the help shows.
fn syntax(option: Opt) -> Row
    ensures { entry result ≡ entry_of option }
{
    match option {
        Opt::Package => many("package", Kind::Value, "<SPEC>...").with_letter('p'),
        Opt::All => flag("all"),
        Opt::Workspace => flag("workspace"),
        Opt::Exclude => many("exclude", Kind::Value, "<SPEC>..."),
        Opt::ManifestPath => once("manifest-path", Kind::Value, "<PATH>").with_letter('m'),
        Opt::Locked => flag("locked"),
        Opt::Features => many("features", Kind::Names, "<FEATURES>...").with_letter('F'),
        Opt::EachFeature => flag("each-feature"),
        Opt::FeaturePowerset => flag("feature-powerset"),
        Opt::OptionalDeps => once("optional-deps", Kind::OptionalNames, "[DEPS]..."),
        Opt::Skip => many("skip", Kind::Names, "<FEATURES>..."),
        Opt::ExcludeFeatures => many("exclude-features", Kind::Names, "<FEATURES>..."),
        Opt::ExcludeNoDefaultFeatures => flag("exclude-no-default-features"),
        Opt::ExcludeAllFeatures => flag("exclude-all-features"),
        Opt::Depth => once("depth", Kind::Value, "<NUM>"),
        Opt::GroupFeatures => many("group-features", Kind::Value, "<FEATURES>..."),
        Opt::Target => many("target", Kind::Value, "<TRIPLE>"),
        Opt::MutuallyExclusiveFeatures => many(
            "mutually-exclusive-features",
            Kind::Value,
            "<FEATURES>...",
        ),
        Opt::AllowTogether => many("allow-together", Kind::Value, "<PKG=FEATURES>..."),
        Opt::AtLeastOneOf => many("at-least-one-of", Kind::Value, "<FEATURES>..."),
        Opt::IncludeFeatures => many("include-features", Kind::Names, "<FEATURES>..."),
        Opt::NoDevDeps => flag("no-dev-deps"),
        Opt::RemoveDevDeps => flag("remove-dev-deps"),
        Opt::NoPrivate => flag("no-private"),
        Opt::IgnorePrivate => flag("ignore-private"),
        Opt::IgnoreUnknownFeatures => flag("ignore-unknown-features"),
        Opt::RustVersion => flag("rust-version"),
        Opt::VersionRange => once("version-range", Kind::Value, "[START]..[=END]"),
        Opt::VersionStep => once("version-step", Kind::Value, "<NUM>"),
        Opt::CleanPerRun => flag("clean-per-run"),
        Opt::CleanPerVersion => flag("clean-per-version"),
        Opt::KeepGoing => flag("keep-going"),
        Opt::Partition => once("partition", Kind::Value, "<M/N>"),
        Opt::PartitionKind => once("partition-kind", Kind::Value, "<KIND>"),
        Opt::LogGroup => once("log-group", Kind::Value, "<KIND>"),
        Opt::WorkspaceBehavior => many("workspace-behavior", Kind::Refused, ""),
        Opt::PrintCommandList => flag("print-command-list"),
        Opt::NoManifestPath => flag("no-manifest-path"),
        Opt::Verbose => many("verbose", Kind::Flag, "").with_letter('v'),
        Opt::Color => once("color", Kind::Value, "<WHEN>"),
        Opt::Help => many("help", Kind::Help, "").with_letter('h'),
        Opt::Version => many("version", Kind::Version, "").with_letter('V'),
        Opt::NoDefaultFeatures => many("no-default-features", Kind::Flag, ""),
        Opt::AllFeatures => many("all-features", Kind::Flag, ""),
        Opt::IncludeDepsFeatures => flag("include-deps-features"),
        Opt::Strength => once("strength", Kind::Value, "<NUM>"),
        Opt::Restore => flag("restore"),
        Opt::PackageRules => flag("package-rules"),
        Opt::Parallel => once("parallel", Kind::Value, "<NUM>"),
        Opt::FindRustVersion => flag("find-rust-version"),
        Opt::FindConflicts => flag("find-conflicts"),
        Opt::MostRuns => once("most-runs", Kind::Value, "<NUM>"),
    }
}

/// The texts of the help on the option, where it has a row there.
fn help_text(option: Opt) -> Option<HelpText>
    ensures { is_some result ≡ is_told option }
{
    match option {
        Opt::Package => brief("Package(s) to check"),
        Opt::All => brief("Alias for --workspace"),
        Opt::Workspace => brief("Perform command for all packages in the workspace"),
        Opt::Exclude => brief("Exclude packages from the check"),
        Opt::ManifestPath => brief("Path to Cargo.toml"),
        Opt::Locked => brief("Require Cargo.lock is up to date"),
        Opt::Features => brief("Space or comma separated list of features to activate"),
        Opt::EachFeature => help_row(
            "Perform for each feature of the package",
            &[
                ALSO_WITHOUT_DEFAULT,
                "When this flag is not used together with --exclude-features (--skip) and --include-features and there are multiple features, this also includes runs with just --all-features flag.",
            ],
        ),
        Opt::FeaturePowerset => help_row(
            "Perform for the feature powerset of the package",
            &[
                ALSO_WITHOUT_DEFAULT,
                "When this flag is used together with --depth or namespaced features (-Z namespaced-features) and not used together with --exclude-features (--skip) and --include-features and there are multiple features, this also includes runs with just --all-features flag.",
            ],
        ),
        Opt::OptionalDeps => help_row(
            "Use optional dependencies as features",
            &[
                "If DEPS are not specified, all optional dependencies are considered as features.",
                WITH_FEATURE_SETS,
            ],
        ),
        Opt::Skip => brief("Alias for --exclude-features"),
        Opt::ExcludeFeatures => help_row(
            "Space or comma separated list of features to exclude",
            &[
                "To exclude run of default feature, using value `--exclude-features default`.",
                "To exclude run of just --no-default-features flag, using --exclude-no-default-features flag.",
                "To exclude run of just --all-features flag, using --exclude-all-features flag.",
                WITH_FEATURE_SETS,
            ],
        ),
        Opt::ExcludeNoDefaultFeatures => help_row(
            "Exclude run of just --no-default-features flag",
            &[WITH_FEATURE_SETS],
        ),
        Opt::ExcludeAllFeatures => help_row(
            "Exclude run of just --all-features flag",
            &[WITH_FEATURE_SETS],
        ),
        Opt::Depth => help_row(
            "Specify a max number of simultaneous feature flags of --feature-powerset",
            &[
                "If NUM is set to 1, --feature-powerset is equivalent to --each-feature.",
                WITH_POWERSET,
            ],
        ),
        Opt::GroupFeatures => help_row(
            "Space or comma separated list of features to group",
            &[
                "This treats the specified features as if it were a single feature.",
                "To specify multiple groups, use this option multiple times: `--group-features a,b --group-features c,d`",
                WITH_POWERSET,
            ],
        ),
        Opt::Target => help_row(
            "Build for specified target triple",
            &[
                "Comma-separated lists of targets are not supported, but you can specify the whole --target option multiple times to do multiple targets.",
                "This is actually not a cargo-hack option, it is interpreted by Cargo itself.",
            ],
        ),
        Opt::MutuallyExclusiveFeatures => help_row(
            "Space or comma separated list of features to not use together",
            &[
                "To specify multiple groups, use this option multiple times: `--mutually-exclusive-features a,b --mutually-exclusive-features c,d`",
                WITH_POWERSET,
            ],
        ),
        Opt::AllowTogether => help_row(
            "Lift one group of --mutually-exclusive-features for one package",
            &["This flag can only be used together with --mutually-exclusive-features flag."],
        ),
        Opt::AtLeastOneOf => help_row(
            "Space or comma separated list of features. Skips sets of features that don't enable any of the features listed",
            &[
                "To specify multiple groups, use this option multiple times: `--at-least-one-of a,b --at-least-one-of c,d`",
                WITH_POWERSET,
            ],
        ),
        Opt::IncludeFeatures => help_row(
            "Include only the specified features in the feature combinations instead of package features",
            &[WITH_FEATURE_SETS],
        ),
        Opt::NoDevDeps => help_row(
            "Perform without dev-dependencies",
            &[
                "Note that this flag removes dev-dependencies from real `Cargo.toml` while cargo-hack is running and restores it when finished.",
            ],
        ),
        Opt::RemoveDevDeps => brief(
            "Equivalent to --no-dev-deps flag except for does not restore the original `Cargo.toml` after performed",
        ),
        Opt::NoPrivate => brief("Perform without `publish = false` crates"),
        Opt::IgnorePrivate => brief("Skip to perform on `publish = false` packages"),
        Opt::IgnoreUnknownFeatures => help_row(
            "Skip passing --features flag to `cargo` if that feature does not exist in the package",
            &["This flag can be used with --features, --include-features, or --group-features."],
        ),
        Opt::RustVersion => help_row(
            "Perform commands on `package.rust-version`",
            &["This cannot be used with --version-range."],
        ),
        Opt::VersionRange => help_row(
            "Perform commands on a specified (inclusive) range of Rust versions",
            &[
                "If the upper bound of the range is omitted, the latest stable compiler is used as the upper bound.",
                "If the lower bound of the range is omitted, the value of the `rust-version` field in `Cargo.toml` is used as the lower bound.",
                "Note that ranges are always inclusive ranges.",
            ],
        ),
        Opt::VersionStep => help_row(
            "Specify the version interval of --version-range (default to `1`)",
            &[WITH_VERSION_RANGE],
        ),
        Opt::CleanPerRun => help_row(
            "Remove artifacts for that package before running the command",
            &[
                "If used this flag with --workspace, --each-feature, or --feature-powerset, artifacts will be removed before each run.",
                "Note that dependencies artifacts will be preserved.",
            ],
        ),
        Opt::CleanPerVersion => help_row(
            "Remove artifacts per Rust version",
            &[
                "Note that dependencies artifacts will also be removed.",
                WITH_VERSION_RANGE,
            ],
        ),
        Opt::KeepGoing => brief("Keep going on failure"),
        Opt::Partition => brief("Partition runs and execute only its subset according to M/N"),
        Opt::PartitionKind => help_row(
            "Partitioning: block, turn",
            &["This flag can only be used together with --partition flag."],
        ),
        Opt::LogGroup => help_row(
            "Log grouping: none, github-actions",
            &["If this option is not used, the environment will be automatically detected."],
        ),
        Opt::WorkspaceBehavior => help_row(
            "Use Cargo's workspace handling",
            &[
                "This is for use cases where cargo-hack's workspace handling does not work.",
                "Note that this is incompatible with flags that require cargo-hack's workspace handling to work properly (e.g., `--each-feature`, `--feature-powerset`, etc.).",
            ],
        ),
        Opt::PrintCommandList => brief("Print commands without run (Unstable)"),
        Opt::NoManifestPath => brief("Do not pass --manifest-path option to cargo (Unstable)"),
        Opt::Verbose => brief("Use verbose output"),
        Opt::Color => help_row(
            "Coloring: auto, always, never",
            &["This flag will be propagated to cargo."],
        ),
        Opt::Help => brief("Prints help information"),
        Opt::Version => brief("Prints version information"),
        Opt::NoDefaultFeatures | Opt::AllFeatures => None,
        Opt::IncludeDepsFeatures
        | Opt::Strength
        | Opt::Restore
        | Opt::PackageRules
        | Opt::Parallel
        | Opt::FindRustVersion
        | Opt::FindConflicts
        | Opt::MostRuns => None,
    }
}

/// An option that may be given once and takes no value.
fn flag(name: &'static str) -> Row
    ensures { entry result ≡ flag_entry name.now }
{
    once(name, Kind::Flag, "")
}

/// An option that may be given once, with the value that the help shows after its name.
fn once(name: &'static str, kind: Kind, value: &'static str) -> Row
    ensures { entry result ≡ once_entry name.now kind value.now }
{
    Row {
        letter: None,
        name,
        kind,
        once: true,
        value,
        told: None,
    }
}

/// An option that may be repeated, with the value that the help shows after its name.
fn many(name: &'static str, kind: Kind, value: &'static str) -> Row
    ensures { entry result ≡ many_entry name.now kind value.now }
{
    Row {
        once: false,
        ..once(name, kind, value)
    }
}

/// A help text of a few words.
fn brief(text: &'static str) -> Option<HelpText>
    ensures { IsSome result }
{
    help_row(text, &[])
}

/// A help text of a few words, with paragraphs in the long help.
fn help_row(text: &'static str, paragraphs: &'static [&'static str]) -> Option<HelpText>
    ensures { IsSome result }
{
    Some(HelpText { text, paragraphs })
}
