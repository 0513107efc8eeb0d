//! What a plan's commands are made from.

use crate::runs::Runs;
use hack_features::Feature;
use hack_versions::version::Version;

/// What all commands of a call have in common.
#[derive(Drop)]
pub struct CommandParts {
    /// The program to run as cargo, where no range of versions is given.
    pub cargo: String,
    /// The program to run as rustup, which runs the cargo of a version.
    pub rustup: String,
    /// The arguments passed on to cargo.
    pub passed: Vec<String>,
    /// The arguments after `--`.
    pub trailing: Vec<String>,
    /// The features of `--features`, for a run for all packages.
    pub features: Vec<String>,
    /// The targets without duplicates, in the order of their bytes.
    pub targets: Vec<String>,
    /// Cargo's own minor version, 0 where it isn't known.
    pub cargo_minor: u32,
    /// Whether `--locked` is given.
    pub locked: bool,
    /// Whether a package's artifacts are removed before each of its runs.
    pub clean_per_run: bool,
    /// Whether artifacts are removed before the runs of each version.
    pub clean_per_version: bool,
    /// Whether places are added while the plan is run, so that the number of all isn't shown.
    pub grows: bool,
    /// The path of the current package's manifest as a command is given it; none where there is no
    /// current package, or commands get no paths.
    pub current_manifest: Option<String>,
    /// The current folder; messages show paths relative to it.
    pub dir: String,
}

/// A chosen package.
#[derive(Drop)]
pub struct PlanPackage {
    pub name: String,
    /// The path of its manifest as a command is given it; none with `--no-manifest-path`.
    pub manifest_path: Option<String>,
    /// The features of `--features` that its runs get.
    pub features: Vec<String>,
    /// The candidates from which its sets are made.
    pub candidates: Vec<Feature>,
    pub runs: Runs,
    /// With a strength, for each run which candidates are on in it; else nothing.
    pub settings: Vec<Vec<bool>>,
}

/// What is done before the runs of a version. It holds the version's index in the plan's list of
/// versions.
#[derive(Clone, Copy, Debug, PartialEq, Eq)]
pub enum Preparation {
    /// The version's toolchain is installed if it is missing.
    Toolchain(usize),
    /// The lockfile is regenerated.
    Lockfile(usize),
    /// The artifacts of earlier versions are removed.
    Clean(usize),
}

/// A version, what is done before its runs, and its places: from the first up to the end, which is
/// the first of the next version. Without a range there is a single entry, without a version.
#[derive(Drop)]
pub struct PlanVersion {
    pub version: Option<Version>,
    pub preparations: Vec<Preparation>,
    pub first: usize,
    pub end: usize,
}
