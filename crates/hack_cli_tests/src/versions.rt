//! Versions and ranges of them. `order: A B` asks how two versions compare, by `compare` and by
//! `<`; `stripped: VERSION` for the version without its patch number; `range: own` how the range of
//! `--rust-version` is printed, where it ends, and whether it needs the toolchain stable. `steps:
//! RANGE by STEP` asks for the steps and notices where stable is 1.70 and no package has a version
//! of its own, `steps: RANGE by STEP own VERSION` where a package and stable have this one.
//! `groups: RANGE` asks how many groups its steps have with a package that has no version, and
//! `groups: reversed RANGE` in the other order.

use crate::asks::{halves, on, push_line};
use hack_holds::Wrong;
use hack_term::term::{Notice, NoticeKind};
use hack_versions::rustup::{
    PackageVersion, RangeFault, VersionGroup, group_by_version, needs_stable, version_range,
};
use hack_versions::version::{MaybeVersion, Version, VersionRange};
use std::alloc::{AllocError, Global};
use std::cmp::Ordering;

/// The version that a text is, 0.0 where it is none.
fn version_of(alloc: Global, text: &str) -> Version {
    match Version::parse(alloc, text) {
        Ok(version) => version,
        Err(_) => Version {
            major: 0,
            minor: 0,
            patch: None,
        },
    }
}

pub fn order(alloc: Global, text: &str) -> Result<String, AllocError> {
    let (first, second) = halves(text, " ");
    let first = version_of(alloc, first);
    let second = version_of(alloc, second);
    let text = match first.compare(second) {
        Ordering::Less if first < second => "less, <",
        Ordering::Less => "less",
        Ordering::Equal => "equal",
        Ordering::Greater => "greater",
    };
    String::from_str(alloc, text)
}

pub fn stripped(alloc: Global, text: &str) -> Result<String, AllocError> {
    version_of(alloc, text).strip_patch().to_string(alloc)
}

/// The range that a text is, that of `--rust-version` where it is none.
fn range_of(alloc: Global, text: &str) -> VersionRange {
    match VersionRange::parse(alloc, text) {
        Ok((range, _)) if text != "own" => range,
        _ => VersionRange::msrv(),
    }
}

pub fn range(alloc: Global, text: &str) -> Result<String, AllocError> {
    let range = range_of(alloc, text);
    let end = match range.end_inclusive {
        MaybeVersion::Version(_) => "a version",
        MaybeVersion::Msrv => "own versions",
        MaybeVersion::Stable => "stable",
    };
    let needs = if needs_stable(range) {
        "needs"
    } else {
        "without"
    };
    format!(in alloc; "{range} to {end}, {needs} stable")
}

/// The steps and notices of a range.
type Steps = Result<(Vec<Version>, Vec<Notice>), RangeFault>;

fn steps_of(alloc: Global, range: VersionRange, step: u16, own: &str) -> Steps {
    if own.is_empty() {
        let stable = version_of(alloc, "1.70");
        return version_range(alloc, range, step, &[], Some(stable));
    }
    let own = version_of(alloc, own);
    version_range(alloc, range, step, &[Some(own)], Some(own))
}

pub fn steps(alloc: Global, text: &str) -> Result<String, AllocError> {
    let (text, own) = halves(text, " own ");
    let (text, step) = halves(text, " by ");
    let step = step.parse::<u16>().unwrap_or(u16::MAX);
    match steps_of(alloc, range_of(alloc, text), step, own) {
        Ok((steps, notices)) => steps_text(alloc, &steps, &notices),
        Err(fault) => fault.to_string(alloc),
    }
}

/// Versions, each on a line, followed by notices.
fn steps_text(alloc: Global, steps: &[Version], notices: &[Notice]) -> Result<String, AllocError> {
    let mut text = String::new(alloc);
    for step in steps {
        push_line(&mut text, step.to_string(alloc)?.as_str())?;
    }
    push_notices(&mut text, notices)?;
    Ok(text)
}

/// Appends a line for each notice.
fn push_notices(text: &mut String, notices: &[Notice]) -> Result<(), AllocError> {
    for notice in notices {
        let kind = match notice.kind {
            NoticeKind::Info => "\ninfo: ",
            NoticeKind::Warn => "\nwarning: ",
            NoticeKind::QuietWarn => "\nquiet warning: ",
        };
        text.push_str(kind)?;
        text.push_str(notice.text.as_str())?;
    }
    Ok(())
}

/// The groups of a range's steps, with a package that has no own version.
fn groups_of(alloc: Global, text: &str) -> Result<Vec<VersionGroup>, RangeFault> {
    let rising = text.strip_prefix("reversed ");
    let range = range_of(alloc, rising.unwrap_or(text));
    let (mut steps, _) = steps_of(alloc, range, 1, "")?;
    if rising.is_some() {
        steps.reverse();
    }
    let package = PackageVersion {
        name: String::from_str(alloc, "p")?,
        rust_version: None,
    };
    let (groups, _) = group_by_version(alloc, range, &steps, &[package])?;
    Ok(groups)
}

pub fn groups(alloc: Global, text: &str) -> Result<String, AllocError> {
    match groups_of(alloc, text) {
        Ok(groups) => groups.len().to_string(alloc),
        Err(fault) => fault.to_string(alloc),
    }
}

#[test]
fn an_absent_patch_is_the_first(rt: HostRuntime) -> Result<(), Wrong> {
    on(
        rt.alloc(),
        "
            > order: 1.60 1.60.0
            | less, <
            > order: 1.60.0 1.61
            | less, <
            > order: 1.61 2.0
            | less, <
            > stripped: 1.60.0
            | 1.60
        ",
    )
}

#[test]
fn the_range_of_rust_version_prints_as_two_dots(rt: HostRuntime) -> Result<(), Wrong> {
    on(
        rt.alloc(),
        "
            > range: own
            | .. to own versions, without stable
        ",
    )
}

#[test]
fn steps_of_ranges(rt: HostRuntime) -> Result<(), Wrong> {
    on(
        rt.alloc(),
        "
            # An own start has the major version 1.
            > steps: own by 1 own 2.0
            | major version must be 1

            # Patches that are given are noticed.
            > steps: 1.60.1..=1.62.0 by 1
            | 1.60
            | 1.61
            | 1.62
            | warning: --version-range always selects the latest patch release per minor release, not the specified patch release `1`
            | warning: --version-range always selects the latest patch release per minor release, not the specified patch release `0`

            # A step of 0 stays at the start.
            > steps: 1.60..=1.60 by 0
            | 1.60
            > steps: 1.60..=1.66 by 0
            | 1.60
        ",
    )
}

// If the time grew with the square of the steps, this would take seconds.
#[test]
fn many_steps_are_grouped(rt: HostRuntime) -> Result<(), Wrong> {
    on(
        rt.alloc(),
        "
            > groups: 1.1..=1.60000
            | 60000
            > groups: reversed 1.1..=1.60000
            | 60000
        ",
    )
}
