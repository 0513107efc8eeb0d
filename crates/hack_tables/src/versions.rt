//! Versions and ranges of them, their steps, which package uses which version, and the answers of
//! cargo and rustup.

ghost use Rattle.std.specs.Prelude.{◌<◌};

use crate::answers::{Found, or_none, word, yes};
use crate::table::Group;
use hack_base::notice::Notice;
use hack_process::cargo;
use hack_versions::rustup::{
    PackageVersion, VersionGroup, group_by_version, lockfile_before, minor_version, version_range,
};
use hack_versions::version::{Version, VersionRange};
use std::alloc::{AllocError, Global};

/// `version`, `range`, `minor of rustup`, `release of cargo`: what the text is read as, or its
/// error; `host of cargo`. `steps`, `groups`, `how many groups`: of a range, where stable is 1.70
/// and each package has its own version or none. `lockfiles`: before which versions the lockfile is
/// generated.
pub(crate) fn answer(alloc: Global, group: &Group, words: &[String]) -> Found {
    let first = word(words, 0);
    let text = match group.kind.as_str() {
        "version" => match Version::parse(alloc, first) {
            Ok(version) => format!(in alloc; "{version}")?,
            Err(fault) => format!(in alloc; "{fault}")?,
        },
        "range" => range_text(alloc, first)?,
        "minor of rustup" => match minor_version(alloc, first) {
            Ok(minor) => format!(in alloc; "{minor}")?,
            Err(fault) => format!(in alloc; "{}", fault.of("`rustup --version`"))?,
        },
        "release of cargo" => match cargo::version(alloc, first) {
            Ok(version) => format!(in alloc; "{version}")?,
            Err(fault) => format!(in alloc; "{}", fault.of("`cargo -vV`"))?,
        },
        "host of cargo" => or_none(alloc, cargo::host(first))?,
        "steps" => steps_text(alloc, group, first)?,
        "groups" => groups_text(alloc, group, first, false)?,
        "how many groups" => groups_text(alloc, group, first, true)?,
        "lockfiles" => lockfiles_text(alloc, group, words)?,
        _ => return Ok(None),
    };
    Ok(Some(text))
}

/// The range, and whether it has the deprecated form.
fn range_text(alloc: Global, text: &str) -> Result<String, AllocError> {
    match VersionRange::parse(alloc, text) {
        Ok((range, true)) => format!(in alloc; "{range} deprecated"),
        Ok((range, false)) => format!(in alloc; "{range}"),
        Err(fault) => format!(in alloc; "{fault}"),
    }
}

fn at(minor: u32) -> Version {
    Version {
        major: 1,
        minor,
        patch: None,
    }
}

/// The version that a text is, if it is one.
fn version_of(alloc: Global, text: &str) -> Option<Version> {
    Version::parse(alloc, text).ok()
}

/// The packages' own versions, as the group gives them; an argument that is no version means none.
fn owns_of(alloc: Global, group: &Group) -> Result<Vec<Option<Version>>, AllocError> {
    let mut owns = Vec::new(alloc);
    for text in group.setting("own").unwrap_or("").split_whitespace() {
        owns.push(version_of(alloc, text))?;
    }
    Ok(owns)
}

/// The range that a text is; that of `--rust-version` for `own`.
fn range_of(alloc: Global, text: &str) -> Option<VersionRange> {
    match text {
        "own" => Some(VersionRange::msrv()),
        text => VersionRange::parse(alloc, text).ok().map(|read| read.0),
    }
}

fn step_of(group: &Group) -> u16
    ensures { 0 < result }
{
    let step: Option<u16> = group.setting("step").and_then(|step| step.parse().ok());
    match step {
        None | Some(0) => 1,
        Some(step) => step,
    }
}

/// The steps of a range followed by the notices, or the error.
fn steps_text(alloc: Global, group: &Group, text: &str) -> Result<String, AllocError> {
    let owns = owns_of(alloc, group)?;
    let range = match range_of(alloc, text) {
        Some(range) => range,
        None => return String::from_str(alloc, "no range"),
    };
    match version_range(alloc, range, step_of(group), &owns, Some(at(70))) {
        Ok((versions, notices)) => told(alloc, &versions, &notices),
        Err(fault) => format!(in alloc; "{fault}"),
    }
}

/// Versions, each followed by a space, and notices, each on a line.
fn told(alloc: Global, versions: &[Version], notices: &[Notice]) -> Result<String, AllocError> {
    let mut text = String::new(alloc);
    for version in versions {
        text.push_str(format!(in alloc; "{version} ")?.as_str())?;
    }
    for notice in notices {
        text.push_str("\n")?;
        text.push_str(notice.text.as_str())?;
    }
    Ok(text)
}

/// Packages p0, p1, .. with the group's own versions.
fn packages_of(alloc: Global, owns: &[Option<Version>]) -> Result<Vec<PackageVersion>, AllocError> {
    let mut packages = Vec::new(alloc);
    for (place, own) in owns.iter().enumerate() {
        packages.push(PackageVersion {
            name: format!(in alloc; "p{place}")?,
            rust_version: *own,
        })?;
    }
    Ok(packages)
}

/// Each version with its packages, then the notices; or only the number of versions; or the error.
fn groups_text(
    alloc: Global,
    group: &Group,
    text: &str,
    counts: bool,
) -> Result<String, AllocError> {
    let owns = owns_of(alloc, group)?;
    let range = match range_of(alloc, text) {
        Some(range) => range,
        None => return String::from_str(alloc, "no range"),
    };
    let steps = match version_range(alloc, range, step_of(group), &owns, Some(at(70))) {
        Ok((steps, _)) => steps,
        Err(fault) => return format!(in alloc; "{fault}"),
    };
    let packages = packages_of(alloc, &owns)?;
    match group_by_version(alloc, range, &steps, &packages) {
        Ok((groups, _)) if counts => {
            let count = groups.len();
            format!(in alloc; "{count}")
        }
        Ok((groups, notices)) => grouped(alloc, &groups, &notices),
        Err(fault) => format!(in alloc; "{fault}"),
    }
}

fn grouped(
    alloc: Global,
    groups: &[VersionGroup],
    notices: &[Notice],
) -> Result<String, AllocError> {
    let mut text = String::new(alloc);
    for group in groups {
        let version = group.version;
        let packages = &group.packages;
        text.push_str(format!(in alloc; "{version} {packages:?} ")?.as_str())?;
    }
    for notice in notices {
        text.push_str("\n")?;
        text.push_str(notice.text.as_str())?;
    }
    Ok(text)
}

/// For each version, whether the lockfile is generated before it.
fn lockfiles_text(alloc: Global, group: &Group, words: &[String]) -> Result<String, AllocError> {
    let mut versions = Vec::new(alloc);
    for text in words {
        if let Some(version) = version_of(alloc, text.as_str()) {
            versions.push(version)?;
        }
    }
    let mut text = String::new(alloc);
    for made in lockfile_before(alloc, &versions, group.has("locked"))? {
        text.push_str(yes(alloc, made)?.as_str())?;
        text.push_str(" ")?;
    }
    Ok(text)
}
