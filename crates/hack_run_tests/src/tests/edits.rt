//! Manifests that are edited without a call: `edits` with arguments answers the notices and the
//! changes up to the edits, and after `back` the changes at the end, and how many of those failed.

use crate::tests::asked::on;
use crate::tests::scene::{Scene, context_of, scene_of};
use crate::tests::shown::push_changes;
use crate::tests::world::push_all;
use crate::tests::worlds::{ROOT, VIRTUAL};
use hack_files::restore::Manager;
use hack_holds::Wrong;
use hack_load::context::Context;
use hack_prepare::manifest::{PrepareFault, finish, prepare};
use hack_term::term::Notice;
use std::alloc::{AllocError, Global};

fn push_notices(text: &mut String, notices: &[Notice]) -> Result<(), AllocError> {
    for notice in notices {
        push_all(text, &[notice.text.as_str(), "\n"])?;
    }
    Ok(())
}

/// The notices, or the error.
fn push_told(
    text: &mut String,
    alloc: Global,
    told: Result<Vec<Notice>, PrepareFault>,
) -> Result<(), AllocError> {
    match told {
        Ok(notices) => push_notices(text, notices.as_slice()),
        Err(fault) => text.push_str(format!(in alloc; "{fault}\n")?.as_str()),
    }
}

fn edited(alloc: Global, cx: &Context, scene: &mut Scene) -> Result<String, AllocError> {
    let mut manager = Manager::new(alloc, !cx.args().remove_dev_deps);
    let told = prepare(alloc, cx, &mut scene.files, &mut manager);
    let before = scene.files.inner().steps().len();
    let failed = finish(
        manager,
        None,
        &mut scene.files,
        &mut scene.term,
        &mut scene.err,
    );
    let mut text = String::new(alloc);
    push_told(&mut text, alloc, told)?;
    let steps = scene.files.inner().steps();
    push_changes(&mut text, alloc, steps, scene.first, before)?;
    text.push_str("back\n")?;
    push_changes(&mut text, alloc, steps, before, steps.len())?;
    format!(in alloc; "{text}{failed} failed")
}

pub fn edits(alloc: Global, world: &str, words: &str) -> Result<String, Wrong> {
    let mut scene = scene_of(alloc, world, words)?;
    let cx = context_of(alloc, &mut scene)?;
    Ok(edited(alloc, &cx, &mut scene)?)
}

#[test]
fn rows(rt: HostRuntime) -> Result<(), Wrong> {
    on(
        rt.alloc(),
        ROOT,
        r#"
            > edits: hack check
            | back
            | 0 failed

            > edits: hack check --no-dev-deps -v
            | removing dev-dependencies from /w/Cargo.toml
            + root edited
            | back
            + root as it was
            | 0 failed

            > edits: hack --remove-dev-deps -v
            | removing dev-dependencies from /w/Cargo.toml
            + root edited
            | back
            | 0 failed

            > edits: hack check --no-private
            | back
            | /w/Cargo.lock:
            | # lock
            | 0 failed
        "#,
    )
}

#[test]
fn rows_of_a_workspace(rt: HostRuntime) -> Result<(), Wrong> {
    on(
        rt.alloc(),
        VIRTUAL,
        r#"
            > edits: hack check --no-private -v
            | removing private crates from /w/Cargo.toml
            | /w/Cargo.toml:
            | [workspace]
            | members = ["p"]
            | back
            | /w/Cargo.toml:
            | [workspace]
            | members = ["p", "q"]
            | 0 failed
        "#,
    )
}
