//! Calls on files of which one call fails. A write that fails leaves its file empty.
//!
//! `edit FIRST..=LAST` edits the manifests of `a` and `c`, and restores both, again and again: the
//! call of the files with the first of these numbers fails, then the next, and so on. An
//! edit ends at its first failure. The answer has a line for each: the contents at the paths after
//! a recovery, and the paths that it restored, or its error.

use crate::tests::files::held;
use crate::tests::journal::{journaled, on, recovered, replayed};
use crate::tests::text::number_of;
use hack_files::fs::{FailingFiles, FileFault, Files, JournalFiles, MemoryFiles};
use hack_holds::Wrong;
use hack_journal::journaled::Journaled;
use std::alloc::{AllocError, Global};

/// What is left for each of the calls that fail.
pub fn left(alloc: Global, calls: &str) -> Result<String, AllocError> {
    let (first, last) = calls.split_once("..=").unwrap_or((calls, calls));
    let first = number_of(first);
    let mut text = left_by(alloc, first)?;
    for call in first.saturating_add(1)..=number_of(last) {
        text.push('\n')?;
        text.push_str(left_by(alloc, call)?.as_str())?;
    }
    Ok(text)
}

/// The contents at the paths after the recovery, and its result.
fn left_by(alloc: Global, call: u64) -> Result<String, AllocError> {
    let mut files = edited(alloc, call)?;
    let told = recovered(alloc, &mut files, "")?;
    let held = held(alloc, &mut files, "a/Cargo.toml c/Cargo.toml")?;
    format!(in alloc; "{call}: {held}, {told}")
}

/// The files that such an edit leaves.
fn edited(alloc: Global, call: u64) -> Result<MemoryFiles, AllocError> {
    let mut files = MemoryFiles::new(alloc);
    let _ = files.write("a/Cargo.toml", b"one");
    let _ = files.write("c/Cargo.toml", b"two");
    let mut files = journaled(alloc, FailingFiles::new(files, call), "")?;
    let _ = edit(&mut files);
    let (done, _) = files.into_inner();
    match replayed(alloc, done.inner().steps()) {
        Ok(files) => Ok(files),
        Err(_) => Ok(MemoryFiles::new(alloc)),
    }
}

fn edit<F: JournalFiles>(files: &mut Journaled<F, u64>) -> Result<bool, FileFault> {
    files.write("a/Cargo.toml", b"x")?;
    files.write("c/Cargo.toml", b"new")?;
    files.write("a/Cargo.toml", b"one")?;
    files.write("c/Cargo.toml", b"two")?;
    files.finish()
}

// The files of the journal are written by calls 4 and 9, and looked for by 3 and 8, the manifests are
// written by 5, 10, 11 and 12. Where one of these leaves its file empty, a user has to look at it. On
// a disk that writes whole files they are like all others. The journal is removed by 18 to 20.
#[test]
fn each_call_fails_in_turn(rt: HostRuntime) -> Result<(), Wrong> {
    on(
        rt.alloc(),
        &[
            "
            > edit 0..=21
            | 0: a/Cargo.toml 'one' c/Cargo.toml 'two', nothing
            | 1: a/Cargo.toml 'one' c/Cargo.toml 'two', nothing
            | 2: a/Cargo.toml 'one' c/Cargo.toml 'two', nothing
            | 3: a/Cargo.toml 'one' c/Cargo.toml 'two', nothing
            | 4: a/Cargo.toml 'one' c/Cargo.toml 'two', `j` is not a whole journal of edited files; put back by hand what it tells, and remove it
            | 5: a/Cargo.toml '' c/Cargo.toml 'two', `a/Cargo.toml` was changed after an interrupted call had edited it; put back by hand what `j` tells, and remove `j`
            | 6: a/Cargo.toml 'one' c/Cargo.toml 'two', a/Cargo.toml
            | 7: a/Cargo.toml 'one' c/Cargo.toml 'two', a/Cargo.toml
            | 8: a/Cargo.toml 'one' c/Cargo.toml 'two', a/Cargo.toml
            | 9: a/Cargo.toml 'x' c/Cargo.toml 'two', `j` is not a whole journal of edited files; put back by hand what it tells, and remove it
            | 10: a/Cargo.toml 'x' c/Cargo.toml '', `c/Cargo.toml` was changed after an interrupted call had edited it; put back by hand what `j` tells, and remove `j`
            | 11: a/Cargo.toml '' c/Cargo.toml 'new', `a/Cargo.toml` was changed after an interrupted call had edited it; put back by hand what `j` tells, and remove `j`
            | 12: a/Cargo.toml 'one' c/Cargo.toml '', `c/Cargo.toml` was changed after an interrupted call had edited it; put back by hand what `j` tells, and remove `j`
            | 13: a/Cargo.toml 'one' c/Cargo.toml 'two', nothing
            | 14: a/Cargo.toml 'one' c/Cargo.toml 'two', nothing
            | 15: a/Cargo.toml 'one' c/Cargo.toml 'two', nothing
            | 16: a/Cargo.toml 'one' c/Cargo.toml 'two', nothing
            | 17: a/Cargo.toml 'one' c/Cargo.toml 'two', nothing
            | 18: a/Cargo.toml 'one' c/Cargo.toml 'two', nothing
            | 19: a/Cargo.toml 'one' c/Cargo.toml 'two', nothing
            | 20: a/Cargo.toml 'one' c/Cargo.toml 'two', nothing
            | 21: a/Cargo.toml 'one' c/Cargo.toml 'two', nothing
        ",
        ],
    )
}
