//! The packages that a call runs on, and their runs, as text.

ghost use Rattle.std.specs.Prelude.{Contains};
ghost use Rattle.hack_load.specs.ContextView.{context_view};

use crate::tests::shown::{name_of, push_notices};
use crate::tests::workspace::push_all;
use hack_base::notice::Notice;
use hack_load::context::Context;
use hack_metadata::metadata::{Metadata, PackageId};
use hack_plan::runs::Run;
use hack_planner::determine::{determine_kind, determine_package_list};
use hack_planner::fault::RunsFault;
use hack_planner::kind::{Kind, PackageRuns};
use hack_planner::looks::long_looks;
use hack_planner::packages::PackageList;
use std::alloc::{AllocError, Global};

/// Appends the names of packages to the text, and `(single)` where one remains after exclusions.
fn push_names(
    text: &mut String,
    metadata: &Metadata,
    list: &PackageList,
) -> Result<(), AllocError> {
    for id in &list.ids {
        push_all(text, &[" ", name_of(metadata, *id)])?;
    }
    if list.is_single {
        text.push_str(" (single)")?;
    }
    Ok(())
}

fn listed(
    alloc: Global,
    metadata: &Metadata,
    list: &PackageList,
    notices: &[Notice],
) -> Result<String, AllocError> {
    let mut text = String::from_str(alloc, ":")?;
    push_names(&mut text, metadata, list)?;
    push_notices(&mut text, notices)?;
    Ok(text)
}

/// The texts on the packages whose samples are looked for long, or `none`.
pub fn looks(alloc: Global, cx: &Context) -> Result<String, AllocError> {
    let texts = long_looks(alloc, cx)?;
    if texts.is_empty() {
        return String::from_str(alloc, "none");
    }
    texts.join(alloc, "\n")
}

/// The packages that a call runs on, and the notices.
pub fn package_names(alloc: Global, cx: &Context) -> Result<String, AllocError> {
    match determine_package_list(alloc, cx) {
        Ok((list, notices)) => listed(alloc, cx.metadata(), &list, notices.as_slice()),
        Err(fault) => format!(in alloc; "{fault}"),
    }
}

fn kind_name(kind: &Kind) -> &'static str {
    match kind {
        Kind::Normal => "normal",
        Kind::Each { .. } => "each",
        Kind::Powerset { .. } => "powerset",
    }
}

/// Appends the features of a run to the text, separated by commas.
fn push_features(text: &mut String, kind: &Kind, positions: &[usize]) -> Result<(), AllocError> {
    let mut separator = " ";
    for p in positions {
        if let Some(feature) = kind.candidates().get(*p) {
            for name in feature.as_group() {
                text.push_str(separator)?;
                text.push_str(name.as_str())?;
                separator = ",";
            }
        }
    }
    Ok(())
}

fn push_run(
    text: &mut String,
    kind: &Kind,
    run: Run,
    positions: &[usize],
) -> Result<(), AllocError> {
    match run {
        Run::Plain => text.push_str(" -"),
        Run::AllFeatures => text.push_str(" A"),
        Run::NoDefaultFeatures => text.push_str(" N"),
        Run::Features => push_features(text, kind, positions),
    }
}

/// Appends the kind of the runs to the text, their number, and each of them.
fn push_runs(text: &mut String, alloc: Global, runs: &PackageRuns) -> Result<(), AllocError> {
    let count = runs.len();
    text.push_str(kind_name(&runs.kind))?;
    text.push_str(format!(in alloc; " {count}")?.as_str())?;
    let mut positions = Vec::new(alloc);
    for rank in 0..runs.kind.count() {
        let run = runs.kind.run(rank, &mut positions)?;
        push_run(text, &runs.kind, run, positions.as_slice())?;
    }
    Ok(())
}

/// Appends the runs of a member to the text, and the notices.
fn push_runs_of(
    text: &mut String,
    alloc: Global,
    cx: &Context,
    id: PackageId,
    single: bool,
) -> Result<(), AllocError>
    requires { Contains (context_view cx.now).metadata.workspace_members id.index }
{
    match determine_kind(alloc, cx, id, single) {
        Ok((runs, notices)) => {
            push_runs(text, alloc, &runs)?;
            push_notices(text, notices.as_slice())
        }
        Err(RunsFault::TooManyQuestions(_)) => text.push_str("too many questions"),
        Err(RunsFault::Memory) => Err(AllocError),
    }
}

/// The runs of each member, and the notices. `single` says whether it counts as the only package.
pub fn package_runs(alloc: Global, cx: &Context, single: bool) -> Result<String, AllocError> {
    let mut text = String::new(alloc);
    for id in cx.workspace_members() {
        push_runs_of(&mut text, alloc, cx, *id, single)?;
    }
    Ok(text)
}
