//! Questions on plans of inputs. The words of an input are `range=..=1.64` (`own` is the range of
//! `--rust-version`; without the word there is none), `step=2`, `targets=2`, `minor=64` for cargo's
//! own minor version, else 60, `cargo` where one run is for all packages, `owns=1.60,-` for the own
//! version of each package, and `counts=3,4` for the number of runs of each. Without the last two
//! there is one package, which has no version of its own, and one run.
//!
//! - `plan`: the total, and a line for each version: its places, and slot, package and rank of each
//!   of its runs.
//! - `place 3`: the total, and the run at the place.
//! - `piece 1/3 2 of 4`: whether the piece has the place after the first two of four.

ghost use Rattle.std.specs.Prelude.{IfOk};
ghost use Rattle.hack_plan.specs.Inputs.{AreVersionsOf};

use crate::tests::given::{numbers, value, word_at};
use crate::tests::shown::told;
use hack_holds::{Ask, Wrong, hold};
use hack_partition::partition::{Partition, PartitionFault};
use hack_plan::places::Places;
use hack_plan::progress::Progress;
use hack_plan::versions::{PlanInput, Versions};
use hack_versions::rustup::{PackageVersion, RangeFault};
use hack_versions::version::{Version, VersionRange};
use std::alloc::{AllocError, Global};

fn range_of(alloc: Global, text: &str) -> Option<VersionRange> {
    match text {
        "" => None,
        "own" => Some(VersionRange::msrv()),
        text => VersionRange::parse(alloc, text).ok().map(|read| read.0),
    }
}

/// A package for each own version, where `-` is none. Each is called p.
fn packages_of(alloc: Global, owns: &str) -> Result<Vec<PackageVersion>, AllocError> {
    let mut packages = Vec::new(alloc);
    for own in owns.split(',') {
        if !own.is_empty() {
            let name = String::from_str(alloc, "p")?;
            let rust_version = Version::parse(alloc, own).ok();
            packages.push(PackageVersion { name, rust_version })?;
        }
    }
    Ok(packages)
}

pub fn input_of(alloc: Global, words: &str) -> Result<PlanInput, AllocError> {
    Ok(PlanInput {
        range: range_of(alloc, value(words, "range=", "")),
        step: value(words, "step=", "").parse::<u16>().unwrap_or(1),
        as_cargo: words.ends_with("cargo"),
        targets: value(words, "targets=", "").parse::<usize>().unwrap_or(0),
        cargo_minor: value(words, "minor=", "").parse::<u32>().unwrap_or(60),
        packages: packages_of(alloc, value(words, "owns=", "-"))?,
    })
}

/// The versions of an input, where stable is 1.64.
pub fn versions_of(alloc: Global, input: &PlanInput) -> Result<Versions, RangeFault>
    ensures { IfOk result (λ versions. AreVersionsOf input.now versions) }
{
    let stable = Version {
        major: 1,
        minor: 64,
        patch: None,
    };
    let (versions, _) = Versions::new(alloc, input, Some(stable))?;
    Ok(versions)
}

/// Appends the run at a place to the text; `?` where there is none.
fn push_place(text: &mut String, places: &Places, place: usize) -> Result<(), AllocError> {
    if place >= places.len() {
        return text.push_str(" ?");
    }
    let run = places.run(place);
    let slot = run.slot;
    let rank = run.rank;
    match run.package {
        Some(member) => write!(text, " {slot}/{member}/{rank}"),
        None => write!(text, " {slot}/-/{rank}"),
    }
}

/// Appends the places from the first to the end to the text.
fn push_places(
    text: &mut String,
    places: &Places,
    first: usize,
    end: usize,
) -> Result<(), AllocError> {
    write!(text, " {first}..{end}:")?;
    for place in first..end {
        push_place(text, places, place)?;
    }
    Ok(())
}

fn push_version(text: &mut String, version: Option<Version>) -> Result<(), AllocError> {
    match version {
        Some(version) => write!(text, "\n{version}"),
        None => text.push_str("\nnone"),
    }
}

fn push_plan(text: &mut String, places: &Places) -> Result<(), AllocError> {
    for span in places.versions() {
        push_version(text, span.version)?;
        push_places(text, places, span.first, span.end)?;
    }
    Ok(())
}

/// The total, and the plan or its run at a place.
fn shown(alloc: Global, places: &Places, place: Option<usize>) -> Result<String, AllocError> {
    let mut text = places.len().to_string(alloc)?;
    match place {
        Some(place) => push_place(&mut text, places, place)?,
        None => push_plan(&mut text, places)?,
    }
    Ok(text)
}

fn with_versions(
    alloc: Global,
    input: &PlanInput,
    versions: &Versions,
    words: &str,
    place: Option<usize>,
) -> Result<String, AllocError>
    requires { AreVersionsOf input.now versions.now }
{
    let counts = numbers(alloc, value(words, "counts=", "1"))?;
    if counts.len() != input.packages.len() {
        return String::from_str(alloc, "no counts");
    }
    match Places::new(alloc, input, versions, counts.as_slice()) {
        Ok(places) => shown(alloc, &places, place),
        Err(fault) => fault.to_string(alloc),
    }
}

fn plan(alloc: Global, words: &str, place: Option<usize>) -> Result<String, AllocError> {
    let input = input_of(alloc, words)?;
    match versions_of(alloc, &input) {
        Ok(versions) => with_versions(alloc, &input, &versions, words, place),
        Err(fault) => fault.to_string(alloc),
    }
}

/// Whether a piece has the place after the first `count` ones.
fn held(alloc: Global, piece: &str, count: u64, total: u64) -> Result<bool, PartitionFault> {
    let piece = Partition::parse(alloc, piece)?;
    let progress = Progress { total, count };
    Ok(count < total && progress.in_partition(&piece))
}

fn piece(alloc: Global, piece: &str, count: &str, total: &str) -> Result<String, AllocError> {
    let count = count.parse::<u64>().unwrap_or(0);
    let total = total.parse::<u64>().unwrap_or(0);
    match held(alloc, piece, count, total) {
        Ok(is_held) => told(alloc, is_held),
        Err(fault) => fault.to_string(alloc),
    }
}

#[derive(Drop)]
struct Plans {}

impl Ask for Plans {
    fn answer(&mut self, alloc: Global, question: &str) -> Result<String, AllocError> {
        let word = word_at(question, 1);
        match word_at(question, 0) {
            "plan" => plan(alloc, question, None),
            "place" => plan(alloc, question, word.parse::<usize>().ok()),
            "piece" => piece(alloc, word, word_at(question, 2), word_at(question, 4)),
            _ => String::from_str(alloc, "no such question"),
        }
    }
}

/// Checks rows on plans.
pub fn on_plans(alloc: Global, rows: &str) -> Result<(), Wrong> {
    hold(alloc, &mut Plans {}, rows)
}
