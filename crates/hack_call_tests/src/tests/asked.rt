//! Calls in workspaces as questions: the arguments after `hack`. Settings that differ from those of
//! the other rows come before ` $ `: `members` and these, `in` and the current package, `cargo` and
//! its minor version, `stable` and the error of asking for its version, or a `piece` of the plan.

use crate::tests::given::{Given, context_of, reason};
use crate::tests::packages::{looks, package_names, package_runs};
use crate::tests::plans::{commands, counts, last, piece, runs, sets, versions};
use hack_base::notice::Notice;
use hack_holds::{Ask, Wrong, hold};
use hack_load::context::Context;
use hack_planner::fault::PlanFault;
use hack_planner::plan::{Plan, plan_of};
use hack_planner::stable::Stable;
use hack_versions::version::Version;
use std::alloc::{AllocError, Global};

/// What is shown of a call.
#[derive(Clone, Copy)]
pub enum Show {
    /// The packages that it runs on, and the notices.
    Packages,
    /// The packages whose samples are looked for long.
    Looks,
    /// The runs of each member, as one of several packages, and the notices.
    EachOfSeveral,
    /// The same, as the only package.
    EachAlone,
    /// The number of runs, each in its short text with its package, and the notices.
    Runs,
    Counts,
    Last,
    Sets,
    Versions,
    Commands,
    /// The number of runs, and the places that the piece has of them.
    Piece,
    /// Only that there is a plan.
    Fault,
}

/// Calls on these members, unless a question names others.
#[derive(Clone, Copy)]
pub struct Asked<'a> {
    pub show: Show,
    pub members: &'a str,
}

/// The call of a question: in the package `p` and with cargo 1.90, unless it says otherwise.
fn given_of<'a>(members: &'a str, question: &'a str) -> Given<'a> {
    let (front, words) = question.split_once(" $ ").unwrap_or(("", question));
    let mut given = Given {
        members,
        current: "p",
        minor: Some(90),
        stable: None,
        piece: "",
        words,
    };
    let (kind, value) = front.split_once(' ').unwrap_or((front, ""));
    match kind {
        "members" => given.members = value,
        "in" => given.current = value,
        "cargo" => given.minor = value.parse::<u32>().ok(),
        "stable" => given.stable = Some(value),
        "piece" => given.piece = value,
        _ => {}
    }
    given
}

fn planned(
    alloc: Global,
    cx: &Context,
    stable: Option<&str>,
) -> Result<(Plan, Vec<Notice>), PlanFault> {
    let latest = Version {
        major: 1,
        minor: 66,
        patch: None,
    };
    match stable {
        None => plan_of(alloc, cx, "/bin/rustup", Stable::Known(latest)),
        Some(fault) => {
            let fault = String::from_str(alloc, fault)?;
            plan_of(alloc, cx, "/bin/rustup", Stable::Unknown(fault))
        }
    }
}

fn shown(
    alloc: Global,
    show: Show,
    given: Given<'_>,
    plan: &Plan,
    notices: &[Notice],
) -> Result<String, AllocError> {
    match show {
        Show::Runs => runs(alloc, plan, notices),
        Show::Counts => counts(alloc, plan, notices),
        Show::Last => last(alloc, plan),
        Show::Sets => sets(alloc, plan),
        Show::Versions => versions(alloc, plan, notices),
        Show::Commands => commands(alloc, plan),
        Show::Piece => piece(alloc, given.piece, plan.len() as u64),
        _ => String::from_str(alloc, "a plan"),
    }
}

fn answered(
    alloc: Global,
    show: Show,
    given: Given<'_>,
    cx: &Context,
) -> Result<String, AllocError> {
    match show {
        Show::Packages => return package_names(alloc, cx),
        Show::Looks => return looks(alloc, cx),
        Show::EachOfSeveral => return package_runs(alloc, cx, false),
        Show::EachAlone => return package_runs(alloc, cx, true),
        _ => {}
    }
    match planned(alloc, cx, given.stable) {
        Ok((plan, notices)) => shown(alloc, show, given, &plan, notices.as_slice()),
        Err(fault) => format!(in alloc; "{fault}"),
    }
}

impl Ask for Asked<'_> {
    fn answer(&mut self, alloc: Global, question: &str) -> Result<String, AllocError> {
        let given = given_of(self.members, question);
        match context_of(alloc, given) {
            Ok(cx) => answered(alloc, self.show, given, &cx),
            Err(why) => reason(why),
        }
    }
}

/// Checks rows on these members.
pub fn on(alloc: Global, show: Show, members: &str, rows: &str) -> Result<(), Wrong> {
    hold(alloc, &mut Asked { show, members }, rows)
}
