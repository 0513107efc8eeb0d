//! Versions of Rust: the steps of a range, which package uses which version, and rustup's
//! toolchains.

pub use hack_session::rustup::install_toolchain;
pub use hack_versions::rustup::{
    AnswerFault, PackageVersion, RangeFault, Rustup, VersionGroup, VersionTextFault,
    group_by_version, lockfile_before, minor_version, needs_stable, told_release, version_range,
};
