//! Plans as text: their runs, versions, commands and pieces.

use crate::tests::shown::push_notices;
use crate::tests::workspace::push_all;
use hack_base::notice::Notice;
use hack_partition::partition::{Partition, PartitionFault};
use hack_plan::parts::{PlanVersion, Preparation};
use hack_plan::plan::PlannedCommand;
use hack_plan::progress::Progress;
use hack_planner::plan::Plan;
use hack_process::process::ProcessBuilder;
use std::alloc::{AllocError, Global};

fn push_run(
    text: &mut String,
    alloc: Global,
    plan: &Plan,
    run: &PlannedCommand<'_>,
) -> Result<(), AllocError> {
    let command = run.command.text(alloc, false, false, plan.dir())?;
    let name = run.name.unwrap_or("all");
    push_all(text, &["\n", command.as_str(), " on ", name])
}

/// The number of runs, each in its short text with its package, and the notices.
pub fn runs(alloc: Global, plan: &Plan, notices: &[Notice]) -> Result<String, AllocError> {
    let total = plan.len();
    let mut text = format!(in alloc; "{total}")?;
    for place in 0..plan.len() {
        let run = plan.run(alloc, place)?;
        push_run(&mut text, alloc, plan, &run)?;
    }
    push_notices(&mut text, notices)?;
    Ok(text)
}

/// How many runs, versions and notices there are.
pub fn counts(alloc: Global, plan: &Plan, notices: &[Notice]) -> Result<String, AllocError> {
    let runs = plan.len();
    let versions = plan.versions().len();
    let notices = notices.len();
    format!(in alloc; "{runs} runs, {versions} versions, {notices} notices")
}

/// The number of runs, and the last one.
pub fn last(alloc: Global, plan: &Plan) -> Result<String, AllocError> {
    let total = plan.len();
    let mut text = format!(in alloc; "{total}")?;
    if 0 < plan.len() {
        let run = plan.run(alloc, plan.len() - 1)?;
        push_run(&mut text, alloc, plan, &run)?;
    }
    Ok(text)
}

/// The features of a run, taken from its short text: `A` is all of them, `N` none, `-` a plain run.
fn push_features(text: &mut String, command: &str) -> Result<(), AllocError> {
    let command = command.strip_suffix("`").unwrap_or("");
    let (own, names) = command.split_once(" --features ").unwrap_or((command, ""));
    let kind = match own {
        "`cargo check --all-features" => " A",
        "`cargo check --no-default-features" => if names.is_empty() { " N" } else { " " },
        _ => " -",
    };
    push_all(text, &[kind, names])
}

/// The number of runs, and the features of each.
pub fn sets(alloc: Global, plan: &Plan) -> Result<String, AllocError> {
    let total = plan.len();
    let mut text = format!(in alloc; "{total}")?;
    for place in 0..plan.len() {
        let run = plan.run(alloc, place)?;
        let command = run.command.text(alloc, false, false, plan.dir())?;
        push_features(&mut text, command.as_str())?;
    }
    Ok(text)
}

fn preparation(alloc: Global, preparation: &Preparation) -> Result<String, AllocError> {
    match preparation {
        Preparation::Toolchain(place) => format!(in alloc; " t{place}"),
        Preparation::Lockfile(place) => format!(in alloc; " l{place}"),
        Preparation::Clean(place) => format!(in alloc; " c{place}"),
    }
}

fn name(alloc: Global, version: &PlanVersion) -> Result<String, AllocError> {
    match version.version {
        Some(version) => format!(in alloc; "{version}"),
        None => String::from_str(alloc, "none"),
    }
}

/// Appends a version to the text, what is done before its runs, and its places up to the end.
fn push_version(text: &mut String, alloc: Global, version: &PlanVersion) -> Result<(), AllocError> {
    text.push_str(name(alloc, version)?.as_str())?;
    for each in &version.preparations {
        text.push_str(preparation(alloc, each)?.as_str())?;
    }
    let first = version.first;
    let end = version.end;
    text.push_str(format!(in alloc; " {first}..{end}\n")?.as_str())
}

/// The versions of a plan, one line for each, a line with the packages of its runs, and the
/// notices.
pub fn versions(alloc: Global, plan: &Plan, notices: &[Notice]) -> Result<String, AllocError> {
    let mut text = String::new(alloc);
    for version in plan.versions() {
        push_version(&mut text, alloc, version)?;
    }
    text.push_str(":")?;
    for place in 0..plan.len() {
        let run = plan.run(alloc, place)?;
        push_all(&mut text, &[" ", run.name.unwrap_or("all")])?;
    }
    push_notices(&mut text, notices)?;
    Ok(text)
}

fn push_listed(
    text: &mut String,
    alloc: Global,
    command: &ProcessBuilder<'_>,
    dir: &str,
) -> Result<(), AllocError> {
    let line = command.listed(dir);
    text.push_str(format!(in alloc; "{line}\n")?.as_str())
}

fn push_lockfile(text: &mut String, alloc: Global, plan: &Plan) -> Result<(), AllocError> {
    match plan.versions().first().and_then(|version| version.version) {
        Some(version) => {
            let lockfile = plan.lockfile(alloc, version)?;
            push_listed(text, alloc, &lockfile, plan.dir())
        }
        None => Ok(()),
    }
}

fn push_first(text: &mut String, alloc: Global, plan: &Plan) -> Result<(), AllocError> {
    if 0 < plan.len() {
        let clean = plan.run_cleaning(alloc, 0)?;
        push_listed(text, alloc, &clean, plan.dir())?;
        let run = plan.run(alloc, 0)?;
        push_listed(text, alloc, &run.command, plan.dir())?;
    }
    Ok(())
}

/// The command that generates the lockfile of the first version, the one that removes artifacts
/// before the runs of a version, the one before the first run, and this run, as a list shows them.
pub fn commands(alloc: Global, plan: &Plan) -> Result<String, AllocError> {
    let mut text = String::new(alloc);
    push_lockfile(&mut text, alloc, plan)?;
    let clean = plan.cleaning(alloc)?;
    push_listed(&mut text, alloc, &clean, plan.dir())?;
    push_first(&mut text, alloc, plan)?;
    let _ = text.pop();
    Ok(text)
}

/// The places that a piece has of this many runs.
fn held(alloc: Global, piece: &str, total: u64) -> Result<String, PartitionFault> {
    let piece = Partition::parse(alloc, piece)?;
    let mut places = format!(in alloc; "{total}:")?;
    for count in 0..total {
        let progress = Progress { total, count };
        if piece.holds(count, total) && progress.in_partition(&piece) {
            places.push_str(format!(in alloc; " {count}")?.as_str())?;
        }
    }
    Ok(places)
}

/// The number of runs, and the places that a piece has of them.
pub fn piece(alloc: Global, piece: &str, total: u64) -> Result<String, AllocError> {
    match held(alloc, piece, total) {
        Ok(places) => Ok(places),
        Err(fault) => format!(in alloc; "{fault}"),
    }
}
