//! An option, its meaning if it is an alias, and its names.

ghost use Rattle.std.specs.Prelude.{◌≡◌, ◌↔◌, ◌&&◌, IsTrue, Some, is_some};
ghost use Rattle.hack_options.specs.Table.{entry, entry_of, meaning_of, is_same_option};
ghost use Rattle.hack_options.specs.Texts.{shown_option, shown_option_name as name_of};
ghost use Rattle.hack_options.specs.Texts.{aliased_option, has_usage as named_in_help, is_told};
ghost use Rattle.hack_options.specs.Texts.{shows_letter as letter_in_help};

use crate::messages::WithAlias;
use crate::table::Row;
use std::fmt;

/// An option of `cargo hack`. Aliases have a variant of their own, since the help has a row for
/// each.
#[derive(Clone, Copy, Debug, PartialEq, Eq)]
pub enum Opt {
    Package,
    /// Means `Workspace`.
    All,
    Workspace,
    Exclude,
    ManifestPath,
    Locked,
    Features,
    EachFeature,
    FeaturePowerset,
    OptionalDeps,
    /// Means `ExcludeFeatures`.
    Skip,
    ExcludeFeatures,
    ExcludeNoDefaultFeatures,
    ExcludeAllFeatures,
    Depth,
    GroupFeatures,
    Target,
    MutuallyExclusiveFeatures,
    AllowTogether,
    AtLeastOneOf,
    IncludeFeatures,
    NoDevDeps,
    RemoveDevDeps,
    NoPrivate,
    IgnorePrivate,
    IgnoreUnknownFeatures,
    RustVersion,
    VersionRange,
    VersionStep,
    CleanPerRun,
    CleanPerVersion,
    KeepGoing,
    Partition,
    PartitionKind,
    LogGroup,
    WorkspaceBehavior,
    PrintCommandList,
    NoManifestPath,
    Verbose,
    Color,
    Help,
    Version,
    NoDefaultFeatures,
    AllFeatures,
    IncludeDepsFeatures,
    Strength,
    Restore,
    PackageRules,
    Parallel,
    FindRustVersion,
    FindConflicts,
    MostRuns,
}

/// The option as messages name it. `--workspace-behavior` is shown with `cargo`, the only value
/// that it takes.
impl fmt::Display for Opt {
    ghost output = { λ o. Some (shown_option o) };

    fn fmt<W: fmt::Write>(&self, f: &mut fmt::Formatter<W>) -> fmt::Result {
        let name = self.shown_name();
        write!(f, "--{name}")
    }
}

impl Opt {
    /// The option's row in the table.
    pub fn row(self) -> Row
        ensures entry { entry result ≡ entry_of self }
        ensures told { is_some result.told ≡ is_told self }
    {
        Row::of(self)
    }

    /// The option that an alias means; any other option means itself.
    pub fn means(self) -> Opt
        ensures { result ≡ meaning_of self }
    {
        match self {
            Opt::All => Opt::Workspace,
            Opt::Skip => Opt::ExcludeFeatures,
            other => other,
        }
    }

    /// Whether both are the same option.
    pub fn is(self, other: Opt) -> bool
        ensures value { result ≡ is_same_option self other }
        ensures equal { IsTrue result ↔ (self ≡ other) }
    {
        self == other
    }

    /// The name that messages show.
    pub(crate) fn shown_name(self) -> &'static str
        ensures { result.now ≡ name_of self }
    {
        match self {
            Opt::WorkspaceBehavior => "workspace-behavior=cargo",
            option => option.row().name,
        }
    }

    /// The option for a message that names its alias too.
    pub fn with_alias(self) -> WithAlias
        ensures { aliased_option result ≡ self }
    {
        WithAlias { option: self }
    }

    /// Whether a row of the help has exactly this name: that of `--workspace-behavior` has its
    /// value too.
    pub(crate) fn has_usage(self) -> bool
        ensures { result ≡ named_in_help self }
    {
        match self {
            Opt::WorkspaceBehavior => false,
            option => option.row().told.is_some(),
        }
    }

    /// Whether the help shows the option's letter. `-m` is parsed as `--manifest-path`, though the
    /// help doesn't show it.
    pub(crate) fn shows_letter(self) -> bool
        ensures { result ≡ letter_in_help self }
    {
        match self {
            Opt::ManifestPath => false,
            _ => true,
        }
    }

    /// Whether a row of the help has exactly this name, and its letter too.
    pub(crate) fn has_letter_usage(self) -> bool
        ensures { result ≡ (named_in_help self && letter_in_help self) }
    {
        self.has_usage() && self.shows_letter()
    }
}
