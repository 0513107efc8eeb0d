//! What is done before the runs of each version.

ghost use Rattle.std.specs.Prelude.{◌≡◌, IfOk, map, filter_map, slice_get, Some, IsTrue, ◌↔◌, true};
ghost use Rattle.hack_plan.specs.Prepared.{ArePrepared, preparations_of, span_of};
ghost use Rattle.hack_plan.specs.Internal.{AreFlags, version_at};

use crate::parts::{PlanVersion, Preparation};
use crate::places::Span;
use hack_versions::rustup::lockfile_before;
use hack_versions::version::Version;
use std::alloc::{AllocError, Global};

/// The versions of a plan, from their places. With `locked` the lockfile is never regenerated, and
/// with `clean` artifacts are removed before each version.
pub fn prepared(
    alloc: Global,
    spans: &[Span],
    locked: bool,
    clean: bool,
) -> Result<Vec<PlanVersion>, AllocError>
    ensures spans { IfOk result (λ versions. map span_of versions.items ≡ spans.now) }
    ensures each { IfOk result (λ versions. ArePrepared locked clean versions.items) }
{
    let flags = lockfile_flags(alloc, spans, locked)?;
    let mut versions = Vec::with_capacity(alloc, spans.len())?;
    for (place, span) in spans.iter().enumerate() {
        let remakes = is_set(flags.as_slice(), place);
        versions.push(version(alloc, *span, place, remakes, clean)?)?;
    }
    Ok(versions)
}

/// The version of a span, with what is done before its runs.
fn version(
    alloc: Global,
    span: Span,
    place: usize,
    remakes: bool,
    clean: bool,
) -> Result<PlanVersion, AllocError>
    ensures span { IfOk result (λ v. span_of v ≡ span) }
    ensures made { IfOk result (λ v.
        v.preparations.items ≡ preparations_of span.version place remakes clean) }
{
    Ok(PlanVersion {
        version: span.version,
        preparations: preparations(alloc, span.version, place, remakes, clean)?,
        first: span.first,
        end: span.end,
    })
}

/// Whether the flag at an index is set.
fn is_set(flags: &[bool], place: usize) -> bool
    ensures { IsTrue result ↔ (slice_get flags.now place ≡ Some true) }
{
    flags.get(place) == Some(&true)
}

/// Before which of the versions the lockfile is regenerated.
fn lockfile_flags(alloc: Global, spans: &[Span], locked: bool) -> Result<Vec<bool>, AllocError>
    ensures { IfOk result (λ flags. AreFlags locked (filter_map version_at spans.now) flags.items) }
{
    let versions = versions_of(alloc, spans)?;
    lockfile_before(alloc, versions.as_slice(), locked)
}

/// The versions of the spans that have one.
fn versions_of(alloc: Global, spans: &[Span]) -> Result<Vec<Version>, AllocError>
    ensures { IfOk result (λ versions. versions.items ≡ filter_map version_at spans.now) }
{
    spans.iter().filter_map(|span| span.version).collect(alloc)
}

/// What is done before the runs of a version.
fn preparations(
    alloc: Global,
    version: Option<Version>,
    place: usize,
    remakes: bool,
    clean: bool,
) -> Result<Vec<Preparation>, AllocError>
    ensures { IfOk result (λ found.
        found.items ≡ preparations_of version place remakes clean) }
{
    let mut found = Vec::new(alloc);
    if version.is_none() {
        return Ok(found);
    }
    found.push(Preparation::Toolchain(place))?;
    if remakes {
        found.push(Preparation::Lockfile(place))?;
    }
    if clean {
        found.push(Preparation::Clean(place))?;
    }
    Ok(found)
}
