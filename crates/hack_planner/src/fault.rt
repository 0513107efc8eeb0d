//! Why there is no plan, or why it isn't known which packages it is for.

ghost use Rattle.std.specs.Prelude.{◌≡◌};
ghost use Rattle.hack_planner.specs.InternalFaultConversions.{of_packages, of_version, of_range};
ghost use Rattle.hack_planner.specs.InternalFaultConversions.{of_places};

use hack_features::Tally;
use hack_plan::places::PlacesFault;
use hack_versions::rustup::RangeFault;
use hack_versions::version::VersionFault;
use std::alloc::{AllocError, AllocFailed};
use thiserror::Error;

/// Why there is no plan.
#[derive(Debug, Drop, Error)]
pub enum PlanFault {
    #[error("out of memory")]
    Memory,
    /// The version of the toolchain `stable` isn't available. It holds the error's text.
    #[error("{0}")]
    Stable(String),
    /// The packages aren't known.
    #[error("{0}")]
    Packages(PackagesFault),
    /// A field of a chosen package's table of rules is at fault: it is unknown, or its value has
    /// another form.
    #[error("failed to parse `{field}` field from [package.metadata.cargo-hack] of package `{name}`")]
    PackageRules { field: String, name: String },
    /// The same of the workspace's table.
    #[error("failed to parse `{0}` field from [workspace.metadata.cargo-hack]")]
    WorkspaceRules(String),
    /// A feature of a chosen package is excluded and grouped at once: `--package-rules` takes the
    /// lists of the call and of the tables together.
    #[error("feature `{feature}` of package `{name}` is excluded, and also in a group or in --include-features")]
    ExcludedInGroup { feature: String, name: String },
    /// The `rust-version` of a chosen package isn't a version.
    #[error("{0}")]
    Version(VersionFault),
    /// The range is refused, or a package under it.
    #[error("{0}")]
    Range(RangeFault),
    /// The sample of this package, which a strength asks for, needs too many questions: as many
    /// were asked as the tally says.
    #[error("the sample of package `{0}` needs too many questions; use --depth or fewer groups")]
    TooManyQuestions(String, Tally),
    /// There are more than 4294967295 places.
    #[error("too many runs")]
    TooManyRuns,
}

/// Why the runs of a package aren't known.
#[derive(Debug, Drop, PartialEq, Eq, Error)]
pub enum RunsFault {
    #[error("out of memory")]
    Memory,
    /// The sample of the package needs too many questions: as many were asked as the tally says.
    #[error("too many questions")]
    TooManyQuestions(Tally),
}

/// Why it isn't known which packages a call runs on.
#[derive(Debug, Drop, Error)]
pub enum PackagesFault {
    #[error("out of memory")]
    Memory,
    /// The specification of `--package` matches no member of the workspace.
    #[error("package ID specification `{0}` matched no packages")]
    Unmatched(String),
}

/// Converts the error that the packages aren't known.
pub(crate) fn of_packages(fault: PackagesFault) -> PlanFault
    ensures { result ≡ of_packages fault }
{
    match fault {
        PackagesFault::Memory => PlanFault::Memory,
        PackagesFault::Unmatched(spec) => PlanFault::Packages(PackagesFault::Unmatched(spec)),
    }
}

/// Converts the error of an own version that can't be read.
pub(crate) fn of_version(fault: VersionFault) -> PlanFault
    ensures { result ≡ of_version fault }
{
    match fault {
        VersionFault::MissingMinor => PlanFault::Version(VersionFault::MissingMinor),
        VersionFault::BadNumber(part) => PlanFault::Version(VersionFault::BadNumber(part)),
        VersionFault::OpenInclusive(start) => {
            PlanFault::Version(VersionFault::OpenInclusive(start))
        }
        VersionFault::Memory => PlanFault::Memory,
    }
}

/// Converts the error of a range that is refused.
pub(crate) fn of_range(fault: RangeFault) -> PlanFault
    ensures { result ≡ of_range fault }
{
    match fault {
        RangeFault::Major => PlanFault::Range(RangeFault::Major),
        RangeFault::NoRustVersion => PlanFault::Range(RangeFault::NoRustVersion),
        RangeFault::Empty(range) => PlanFault::Range(RangeFault::Empty(range)),
        RangeFault::NoField(name) => PlanFault::Range(RangeFault::NoField(name)),
        RangeFault::SingleMsrv => PlanFault::Range(RangeFault::SingleMsrv),
        RangeFault::Memory => PlanFault::Memory,
    }
}

/// Converts the error of too many places.
pub(crate) fn of_places(fault: PlacesFault) -> PlanFault
    ensures { result ≡ of_places fault }
{
    match fault {
        PlacesFault::TooManyRuns => PlanFault::TooManyRuns,
        PlacesFault::Memory => PlanFault::Memory,
    }
}

impl From<AllocError> for PlanFault {
    ghost use Rattle.std.specs.Prelude.{◌≡◌};
    ghost use Rattle.hack_planner.specs.declared.fault.PlanFault.TheVariants.{Memory};

    ghost from_gives = { λ _ e. e ≡ Memory };

    fn from(_: AllocError) -> PlanFault {
        PlanFault::Memory
    }
}

impl<T: Drop> From<AllocFailed<T>> for PlanFault {
    ghost use Rattle.std.specs.Prelude.{◌≡◌};
    ghost use Rattle.hack_planner.specs.declared.fault.PlanFault.TheVariants.{Memory};

    ghost from_gives = { λ _ e. e ≡ Memory };

    fn from(_: AllocFailed<T>) -> PlanFault {
        PlanFault::Memory
    }
}

impl From<AllocError> for RunsFault {
    ghost use Rattle.std.specs.Prelude.{◌≡◌};
    ghost use Rattle.hack_planner.specs.declared.fault.RunsFault.TheVariants.{Memory};

    ghost from_gives = { λ _ e. e ≡ Memory };

    fn from(_: AllocError) -> RunsFault {
        RunsFault::Memory
    }
}

impl<T: Drop> From<AllocFailed<T>> for RunsFault {
    ghost use Rattle.std.specs.Prelude.{◌≡◌};
    ghost use Rattle.hack_planner.specs.declared.fault.RunsFault.TheVariants.{Memory};

    ghost from_gives = { λ _ e. e ≡ Memory };

    fn from(_: AllocFailed<T>) -> RunsFault {
        RunsFault::Memory
    }
}

impl From<AllocError> for PackagesFault {
    ghost use Rattle.std.specs.Prelude.{◌≡◌};
    ghost use Rattle.hack_planner.specs.declared.fault.PackagesFault.TheVariants.{Memory};

    ghost from_gives = { λ _ e. e ≡ Memory };

    fn from(_: AllocError) -> PackagesFault {
        PackagesFault::Memory
    }
}

impl<T: Drop> From<AllocFailed<T>> for PackagesFault {
    ghost use Rattle.std.specs.Prelude.{◌≡◌};
    ghost use Rattle.hack_planner.specs.declared.fault.PackagesFault.TheVariants.{Memory};

    ghost from_gives = { λ _ e. e ≡ Memory };

    fn from(_: AllocFailed<T>) -> PackagesFault {
        PackagesFault::Memory
    }
}
