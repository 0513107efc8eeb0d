//! Why a command line is refused.

ghost use Rattle.std.specs.Prelude.{◌≡◌};
ghost use Rattle.hack_rules.specs.CliFaults.{told_of_cut, told_of_range, told_of_log_group};
ghost use Rattle.hack_rules.specs.CliFaults.{told_of_partition};
ghost use Rattle.hack_rules.specs.declared.fault.CliFault.TheVariants.{Memory};

use crate::uses::CutFault;
use hack_options::Opt;
use hack_partition::partition::PartitionFault;
use hack_term::term::LogGroupFault;
use hack_versions::version::VersionFault;
use std::alloc::{AllocError, AllocFailed};
use std::fmt;
use thiserror::Error;

/// What an option needs beside it.
#[derive(Clone, Copy, Debug, PartialEq, Eq)]
pub enum Beside {
    /// A list of features.
    FeatureLists,
    EachOrPowerset,
    Powerset,
    VersionRange,
    Partition,
    MutuallyExclusive,
    FindConflicts,
}

impl fmt::Display for Beside {
    fn fmt<W: fmt::Write>(&self, f: &mut fmt::Formatter<W>) -> fmt::Result {
        f.write_str(match self {
            Beside::FeatureLists => "--features, --include-features, or --group-features",
            Beside::EachOrPowerset => "either --each-feature or --feature-powerset",
            Beside::Powerset => "--feature-powerset",
            Beside::VersionRange => "--version-range",
            Beside::Partition => "--partition",
            Beside::MutuallyExclusive => "--mutually-exclusive-features",
            Beside::FindConflicts => "--find-conflicts",
        })
    }
}

/// Why a command line is refused.
#[derive(Debug, Drop, Error)]
pub enum CliFault {
    /// There is no argument.
    #[error("expected subcommand 'hack'")]
    NoWord,
    /// The first argument isn't `hack`.
    #[error("expected subcommand 'hack', found argument '{found}'")]
    NotHack { found: String },
    /// An argument can't be parsed into an option.
    #[error("{fault}")]
    Cut { fault: CutFault },
    #[error("argument for --color must be auto, always, or never, but found `{found}`")]
    Color { found: String },
    /// The same for the environment, where the command line gives no colouring.
    #[error("CARGO_TERM_COLOR must be auto, always, or never, but found `{found}`")]
    TermColor { found: String },
    /// The option needs others, and none of them is given.
    #[error("{name} can only be used together with {beside}", name = .option.with_alias())]
    Needs { option: Opt, beside: Beside },
    #[error("invalid number `{found}`")]
    Number { found: String },
    /// A group of features has no comma and no space.
    #[error("{option} requires a list of two or more features separated by space or comma")]
    Single { option: Opt },
    #[error("{option} may not be used together with {subcommand} subcommand")]
    BesideSubcommand { option: Opt, subcommand: String },
    #[error("cargo-hack may not be used together with install subcommand")]
    Install,
    #[error("{option} may not be used together with {other}")]
    Clash { option: Opt, other: Opt },
    /// The other argument is one that is passed on to cargo.
    #[error("{option} may not be used together with {word}")]
    ClashWord { option: Opt, word: String },
    /// The option names a feature that is excluded.
    #[error("feature `{feature}` specified by both --exclude-features and {option}")]
    Excluded { feature: String, option: Opt },
    #[error("no subcommand or valid flag specified\n\nUSAGE:\n    cargo hack [OPTIONS] [SUBCOMMAND]\n\nFor more information try --help")]
    NoSubcommand,
    #[error("{option} requires rustup 1.23 or later")]
    OldRustup { option: Opt },
    /// The text of `--version-range` is no range.
    #[error("{fault}")]
    Range { fault: VersionFault },
    #[error("{option} cannot be zero")]
    Zero { option: Opt },
    #[error("{fault}")]
    LogGroup { fault: LogGroupFault },
    /// The text of `--partition` is no piece, or that of `--partition-kind` no kind.
    #[error("{fault}")]
    Partition { fault: PartitionFault },
    #[error("--allow-together requires PACKAGE=FEATURES with two or more features, but found `{found}`")]
    LiftForm { found: String },
    #[error("--allow-together names no group of --mutually-exclusive-features: `{found}`")]
    LiftGroup { found: String },
    /// `--restore` has another argument beside it than `--verbose` and `--color`.
    #[error("--restore may not be used together with other arguments")]
    RestoreAlone,
    #[error("out of memory")]
    Memory,
}

impl From<AllocError> for CliFault {
    ghost from_gives = { λ _ e. e ≡ Memory };

    fn from(_e: AllocError) -> CliFault {
        CliFault::Memory
    }
}

impl<T: Drop> From<AllocFailed<T>> for CliFault {
    ghost from_gives = { λ _ e. e ≡ Memory };

    fn from(_e: AllocFailed<T>) -> CliFault {
        CliFault::Memory
    }
}

impl From<CutFault> for CliFault {
    ghost from_gives = { λ fault e. e ≡ told_of_cut fault };

    fn from(fault: CutFault) -> CliFault {
        match fault {
            CutFault::Memory => CliFault::Memory,
            _ => CliFault::Cut { fault },
        }
    }
}

impl From<VersionFault> for CliFault {
    ghost from_gives = { λ fault e. e ≡ told_of_range fault };

    fn from(fault: VersionFault) -> CliFault {
        match fault {
            VersionFault::Memory => CliFault::Memory,
            _ => CliFault::Range { fault },
        }
    }
}

impl From<LogGroupFault> for CliFault {
    ghost from_gives = { λ fault e. e ≡ told_of_log_group fault };

    fn from(fault: LogGroupFault) -> CliFault {
        match fault {
            LogGroupFault::Memory => CliFault::Memory,
            _ => CliFault::LogGroup { fault },
        }
    }
}

impl From<PartitionFault> for CliFault {
    ghost from_gives = { λ fault e. e ≡ told_of_partition fault };

    fn from(fault: PartitionFault) -> CliFault {
        match fault {
            PartitionFault::Memory => CliFault::Memory,
            _ => CliFault::Partition { fault },
        }
    }
}
