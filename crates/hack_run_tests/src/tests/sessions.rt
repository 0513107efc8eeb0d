//! Sessions: `session` drives the plan of the arguments by a starter, and `context` the whole
//! context, whose notices it prints. The answer is the error that stopped it, the report where runs
//! failed, the calls, both streams, and how many steps were cut short because memory ran out.

use crate::tests::asked::on;
use crate::tests::scene::{Scene, context_of, scene_of, unanswered};
use crate::tests::shown::push_sections;
use crate::tests::worlds::PLAIN;
use hack_drive::drive::{Teller, drive_context};
use hack_holds::Wrong;
use hack_load::context::Context;
use hack_planner::plan::{Plan, plan_of};
use hack_planner::stable::Stable;
use hack_process::process::ProcessFault;
use hack_session::session::{Session, Starter, drive_plan};
use hack_versions::version::Version;
use std::alloc::{AllocError, Global};

/// The version of the toolchain `stable`.
const STABLE: Version = Version {
    major: 1,
    minor: 90,
    patch: None,
};

/// The plan of a context.
pub fn planned(alloc: Global, cx: &Context) -> Result<Plan, Wrong> {
    match plan_of(alloc, cx, "rustup", Stable::Known(STABLE)) {
        Ok((plan, _)) => Ok(plan),
        Err(_) => Err(unanswered(alloc, "no plan")),
    }
}

/// Drives the plan of a context.
pub fn driven<R: Teller>(alloc: Global, cx: &Context, runner: &mut R) -> Result<Session, Wrong> {
    let plan = planned(alloc, cx)?;
    let args = cx.args();
    Ok(drive_plan(alloc, plan, args.partition, args.keep_going, runner)?)
}

/// Drives a context, and prints its notices.
fn driven_whole<R: Teller>(alloc: Global, cx: &Context, runner: &mut R) -> Result<Session, Wrong> {
    match drive_context(alloc, cx, "rustup", Stable::Known(STABLE), runner) {
        Ok(session) => Ok(session),
        Err(_) => Err(unanswered(alloc, "no plan")),
    }
}

/// The result of a session.
#[derive(Drop)]
struct Left {
    session: Session,
    fault: Option<ProcessFault>,
    refused: u64,
}

fn performed(
    alloc: Global,
    cx: &Context,
    scene: &mut Scene,
    is_whole: bool,
) -> Result<Left, Wrong> {
    let mut fault = None;
    let mut starter = Starter::new(
        alloc,
        &mut scene.caller,
        &mut scene.term,
        &mut scene.out,
        &mut scene.err,
        &mut fault,
    );
    starter.set_manner(cx.args().log_group, cx.args().keep_going);
    let session = if is_whole {
        driven_whole(alloc, cx, &mut starter)?
    } else {
        driven(alloc, cx, &mut starter)?
    };
    let refused = starter.refused;
    Ok(Left {
        session,
        fault,
        refused,
    })
}

/// Why it stopped.
fn push_fault(
    text: &mut String,
    alloc: Global,
    fault: &Option<ProcessFault>,
) -> Result<(), AllocError> {
    match fault {
        Some(fault) => text.push_str(format!(in alloc; "fault {fault}\n")?.as_str()),
        None => Ok(()),
    }
}

/// The report, where something failed.
fn push_report(text: &mut String, alloc: Global, session: &Session) -> Result<(), AllocError> {
    let report = session.report(alloc)?;
    if report.count == 0 {
        return Ok(());
    }
    text.push_str(format!(in alloc; "{report}")?.as_str())
}

fn left_text(alloc: Global, scene: &Scene, left: &Left) -> Result<String, AllocError> {
    let mut text = String::new(alloc);
    push_fault(&mut text, alloc, &left.fault)?;
    push_report(&mut text, alloc, &left.session)?;
    push_sections(&mut text, alloc, scene, "calls err out")?;
    let refused = left.refused;
    format!(in alloc; "{text}refused {refused}")
}

pub fn session(alloc: Global, world: &str, words: &str, is_whole: bool) -> Result<String, Wrong> {
    let mut scene = scene_of(alloc, world, words)?;
    let cx = context_of(alloc, &mut scene)?;
    let left = performed(alloc, &cx, &mut scene, is_whole)?;
    Ok(left_text(alloc, &scene, &left)?)
}

#[test]
fn pieces_of_a_session(rt: HostRuntime) -> Result<(), Wrong> {
    on(
        rt.alloc(),
        PLAIN,
        r#"
            > session: hack check --each-feature --partition 2/3; features a d
            + second piece by blocks
            | refused 0

            > session: hack check --each-feature --partition 2/3 --partition-kind turn; features a d
            + second piece by turns
            | refused 0

            > session: hack check --version-range 1.60..=1.61 --partition 2/2
            | asked
            + second of two versions
            | refused 0
        "#,
    )
}

#[test]
fn failures(rt: HostRuntime) -> Result<(), Wrong> {
    on(
        rt.alloc(),
        PLAIN,
        r#"
            > session: hack check --each-feature --exclude-no-default-features; features a b; fails 101 cargo check --manifest-path Cargo.toml --no-default-features --features a
            | fault process didn't exit successfully: `cargo check --manifest-path Cargo.toml --no-default-features --features a` (exit status: 101)
            + two runs up to a
            | refused 0

            > session: hack check --each-feature --exclude-no-default-features --keep-going; features a b; fails 101 cargo check --manifest-path Cargo.toml --no-default-features --features a
            + report of a
            + three runs, of which a fails
            | refused 0

            > session: hack check --version-range 1.60..=1.61 --keep-going; fails 101 rustup run 1.60 cargo --version; fails 101 rustup toolchain add 1.60 --no-self-update
            | fault process didn't exit successfully: `rustup toolchain add 1.60 --no-self-update` (exit status: 101)
            | asked
            | rustup run 1.60 cargo --version
            | rustup toolchain add 1.60 --no-self-update
            | err
            | info: running `rustup toolchain add 1.60 --no-self-update`
            | refused 0

            > session: hack check --version-range 1.50..=1.55 --keep-going; fails 101 rustup run 1.50 cargo generate-lockfile --manifest-path Cargo.toml
            | fault process didn't exit successfully: `rustup run 1.50 cargo generate-lockfile --manifest-path Cargo.toml` (exit status: 101)
            | asked
            | rustup run 1.50 cargo --version
            | rustup run 1.50 cargo generate-lockfile --manifest-path Cargo.toml
            | refused 0
        "#,
    )
}

#[test]
fn groups(rt: HostRuntime) -> Result<(), Wrong> {
    on(
        rt.alloc(),
        PLAIN,
        r#"
            > session: hack check --each-feature --exclude-no-default-features --partition 1/3 --clean-per-run; features a b; on github
            | asked
            | cargo clean --package p
            | cargo check --manifest-path Cargo.toml --all-features
            | out
            | ::group::running `cargo check --all-features` on p (1/3)
            | ::endgroup::
            | ::group::skipping `cargo check --no-default-features --features a` on p (2/3)
            | ::endgroup::
            | ::group::skipping `cargo check --no-default-features --features b` on p (3/3)
            | ::endgroup::
            | refused 0
        "#,
    )
}

// The notices of the plan come first.
#[test]
fn contexts(rt: HostRuntime) -> Result<(), Wrong> {
    on(
        rt.alloc(),
        PLAIN,
        r#"
            > context: hack check --workspace --exclude y
            + y isn't a member
            | refused 0

            > context: hack check --each-feature --exclude-no-default-features --keep-going; features a b; fails 101 cargo check --manifest-path Cargo.toml --no-default-features --features a
            + report of a
            + three runs, of which a fails
            | refused 0

            > context: hack check --package x
            | no plan
        "#,
    )
}
