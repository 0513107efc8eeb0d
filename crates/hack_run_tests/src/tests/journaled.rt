//! Calls on files with a journal: `journal` with arguments answers the status, how many calls of
//! the files failed, how many writes couldn't be kept, the paths that the call changed, and after a
//! bar those of its lockfiles. A `-` precedes a path that was removed.

use crate::tests::asked::on;
use crate::tests::scene::scene_of;
use crate::tests::world::files_of;
use crate::tests::worlds::{ROOT, VIRTUAL};
use hack_files::fs::{FileChange, MemoryFiles};
use hack_holds::Wrong;
use hack_journal::place::JournalPlace;
use hack_journaled::journaled::run_journaled;
use std::alloc::{AllocError, Global};

/// The paths that were changed from an index on.
fn push_paths(text: &mut String, steps: &[FileChange], first: usize) -> Result<(), AllocError> {
    for (place, step) in steps.iter().enumerate() {
        if first <= place {
            text.push_str(if step.bytes.is_none() { " -" } else { " " })?;
            text.push_str(step.path.as_str())?;
        }
    }
    Ok(())
}

pub fn journaled(alloc: Global, world: &str, words: &str) -> Result<String, AllocError> {
    let mut scene = scene_of(alloc, world, words)?;
    let files = files_of(alloc, world)?;
    let lockfiles = files_of(alloc, world)?;
    let place = JournalPlace {
        folder: String::from_str(alloc, "/w")?,
        journal: String::from_str(alloc, "/w/journal")?,
    };
    let (words, _, mut host) = scene.parts(alloc);
    let (status, files, lockfiles, failed, unkept, _): (
        u8,
        MemoryFiles,
        MemoryFiles,
        u64,
        u64,
        bool,
    ) = run_journaled(words, None, files, lockfiles, place, 0u64, &mut host);
    let mut text = format!(in alloc; "status {status}, {failed} failed, {unkept} unkept")?;
    push_paths(&mut text, files.steps(), scene.first)?;
    text.push_str(" |")?;
    push_paths(&mut text, lockfiles.steps(), scene.first)?;
    Ok(text)
}

#[test]
fn journals(rt: HostRuntime) -> Result<(), Wrong> {
    on(
        rt.alloc(),
        ROOT,
        r#"
            > journal: hack check
            | status 0, 0 failed, 0 unkept |

            # The journal, the edit, its undoing, which the journal has already, and no journal: its
            # next file, which no edit wrote, is removed too.
            > journal: hack check --no-dev-deps
            | status 0, 0 failed, 0 unkept /w/journal /w/Cargo.toml /w/Cargo.toml -/w/journal~1 -/w/journal | /w/Cargo.lock
        "#,
    )
}

#[test]
fn journals_of_a_workspace(rt: HostRuntime) -> Result<(), Wrong> {
    on(
        rt.alloc(),
        VIRTUAL,
        r#"
            > journal: hack check --no-private --workspace
            | status 0, 0 failed, 0 unkept /w/journal /w/Cargo.toml /w/Cargo.toml -/w/journal~1 -/w/journal |
        "#,
    )
}

// However a call ends, the manifest is back and the journal is gone: a run that fails, a plan that
// is refused after the edit, a list that can't be written. Arguments that are refused change
// nothing.
#[test]
fn journaled_calls_that_fail(rt: HostRuntime) -> Result<(), Wrong> {
    on(
        rt.alloc(),
        ROOT,
        r#"
            > journal: hack check --no-dev-deps; fails 101 cargo check --manifest-path Cargo.toml
            | status 1, 0 failed, 0 unkept /w/journal /w/Cargo.toml /w/Cargo.toml -/w/journal~1 -/w/journal | /w/Cargo.lock

            > journal: hack check --each-feature --keep-going --no-dev-deps; fails 101 cargo check --manifest-path Cargo.toml --no-default-features
            | status 1, 0 failed, 0 unkept /w/journal /w/Cargo.toml /w/Cargo.toml -/w/journal~1 -/w/journal | /w/Cargo.lock

            > journal: hack check --no-dev-deps --version-range 1.60..=1.50
            | status 1, 0 failed, 0 unkept /w/journal /w/Cargo.toml /w/Cargo.toml -/w/journal~1 -/w/journal | /w/Cargo.lock

            > journal: hack check --no-dev-deps --print-command-list; broken write 1
            | status 1, 0 failed, 0 unkept /w/journal /w/Cargo.toml /w/Cargo.toml -/w/journal~1 -/w/journal | /w/Cargo.lock

            > journal: hack check --no-dev-deps --each-feature --feature-powerset
            | status 1, 0 failed, 0 unkept |
        "#,
    )
}
