//! Calls over files with a journal, and lockfiles of which one is copied meanwhile: `performed` with
//! arguments answers the messages, the text of a copy that stays, and the status. A `broken call` is one
//! of the lockfiles, a `broken look` one of the other files; `lock theirs` and `lock unknown` say who has
//! the lock, `guard missing` that none can be started.

use crate::tests::asked::on;
use crate::tests::scene::scene_of;
use crate::tests::world::{files_of, given, number};
use crate::tests::worlds::ROOT;
use hack_files::fs::{FailingFiles, Files};
use hack_holds::Wrong;
use hack_recovery::guards::FakeGuards;
use hack_recovery::keepers::Keepers;
use hack_recovery::locks::{FakeLocks, Holder};
use hack_recovery::perform::perform;
use std::alloc::{AllocError, Global};

/// The path of the copy of `/w/Cargo.lock`.
const COPY: &str = "/w/.cargo-hack-journal~lock";

fn holder_in(world: &str) -> Holder {
    match given(world, "lock") {
        "theirs" => Holder::Theirs,
        "unknown" => Holder::Unknown,
        _ => Holder::Ours,
    }
}

fn copy_in<F: Files>(alloc: Global, files: &mut F) -> Result<String, AllocError> {
    match files.read(alloc, COPY) {
        Ok(bytes) => {
            let text = std::str::from_utf8(&bytes).unwrap_or("not UTF-8");
            format!(in alloc; "copy: {text}")
        }
        Err(_) => String::from_str(alloc, "no copy\n"),
    }
}

pub fn performed(alloc: Global, world: &str, words: &str) -> Result<String, AllocError> {
    let mut scene = scene_of(alloc, world, words)?;
    let files = FailingFiles::new(files_of(alloc, world)?, number(world, "broken look"));
    let lockfiles = FailingFiles::new(files_of(alloc, world)?, number(world, "broken call"));
    let locks = FakeLocks::new(alloc, holder_in(world));
    let guards = FakeGuards::new(alloc, given(world, "guard") != "missing");
    let mut keepers = Keepers::new(locks, guards);
    let (words, _, mut host) = scene.parts(alloc);
    let (status, mut files, _, _) = perform(words, files, lockfiles, 0u64, &mut keepers, &mut host);
    let copy = copy_in(alloc, &mut files)?;
    let err = std::str::from_utf8(&scene.err).unwrap_or("not UTF-8");
    format!(in alloc; "{err}{copy}status {status}")
}

// The lockfile is looked for and read, to be copied and once more by the call, and then written back.
// Where that is refused, the copy is all that has what it held; a read that fails leaves it as it was.
#[test]
fn lockfiles_that_fail(rt: HostRuntime) -> Result<(), Wrong> {
    on(
        rt.alloc(),
        ROOT,
        r#"
            > performed: hack check --no-dev-deps
            | info: --no-dev-deps modifies real `Cargo.toml` while cargo-hack is running and restores it when finished
            | info: running `cargo check` on p (1/1)
            | no copy
            | status 0

            > performed: hack check --no-dev-deps; broken call 4
            | info: --no-dev-deps modifies real `Cargo.toml` while cargo-hack is running and restores it when finished
            | error: failed to read from file `/w/Cargo.lock`
            | no copy
            | status 1

            > performed: hack check --no-dev-deps; broken call 5
            | info: --no-dev-deps modifies real `Cargo.toml` while cargo-hack is running and restores it when finished
            | info: running `cargo check` on p (1/1)
            | error: failed to write to file `/w/Cargo.lock`
            | warning: `/w/.cargo-hack-journal~lock` stays: it has what the lockfile held, and the next call removes it
            | copy: # lock
            | status 1
        "#,
    )
}

// What a call says beside what `run` says: of the lock, of what an interrupted call left, and of the guard.
#[test]
fn own_lines(rt: HostRuntime) -> Result<(), Wrong> {
    on(
        rt.alloc(),
        ROOT,
        r#"
            > performed: hack check --no-dev-deps; lock theirs
            | error: another call is editing the manifests of this workspace
            | no copy
            | status 1

            > performed: hack --restore
            | info: nothing is left to restore
            | no copy
            | status 0

            > performed: hack --restore; lock theirs; file: /w/.cargo-hack-journal; | edited files; | end
            | error: another call is editing the manifests of this workspace, and restores them
            | no copy
            | status 1

            > performed: hack --restore; lock unknown; file: /w/.cargo-hack-journal; | edited files; | end
            | error: there is a journal of edited manifests, and the folder of the workspace can't be locked
            | no copy
            | status 1

            > performed: hack check; lock theirs; file: /w/.cargo-hack-journal; | edited files; | end
            | info: another call is editing the manifests of this workspace: this one sees its edits
            | info: running `cargo check` on p (1/1)
            | no copy
            | status 0

            > performed: hack check; lock unknown; file: /w/.cargo-hack-journal; | edited files; | end
            | warning: edits of an interrupted call may stand: the folder of the workspace can't be locked
            | info: running `cargo check` on p (1/1)
            | no copy
            | status 0

            > performed: hack --restore; file: /w/.cargo-hack-journal; | torn
            | info: a journal goes on in files that are named as it is, with `~1`, `~2` and so on behind that, which are to be removed with it
            | error: `/w/.cargo-hack-journal` is not a whole journal of edited files; put back by hand what it tells, and remove it
            | no copy
            | status 1

            > performed: hack --version; file: /w/.cargo-hack-journal; | torn
            | no copy
            | status 0

            > performed: hack --version; broken look 1
            | no copy
            | status 0

            > performed: hack --list; broken look 1; file: /w/.cargo-hack-journal; | torn
            | no copy
            | status 0

            > performed: hack --restore; file: /w/.cargo-hack-journal; | edited files; | path src/lib.rs; | held; |  a; | wrote; |  b; | end
            | info: a journal goes on in files that are named as it is, with `~1`, `~2` and so on behind that, which are to be removed with it
            | error: `/w/.cargo-hack-journal` tells of `/w/src/lib.rs`, which no call edits; put back by hand what it tells, and remove it
            | no copy
            | status 1

            > performed: hack --restore; file: /w/p/Cargo.toml; | b; file: /w/.cargo-hack-journal; | edited files; | path p/Cargo.toml; | held; |  a; |  ; | wrote; |  b; |  ; | end
            | info: restored `p/Cargo.toml` after an interrupted call
            | no copy
            | status 0

            > performed: hack --restore; file: /w/p/Cargo.toml; | c; file: /w/.cargo-hack-journal; | edited files; | path p/Cargo.toml; | held; |  a; |  ; | wrote; |  b; |  ; | end
            | info: a journal goes on in files that are named as it is, with `~1`, `~2` and so on behind that, which are to be removed with it
            | error: `/w/p/Cargo.toml` was changed after an interrupted call had edited it; put back by hand what `/w/.cargo-hack-journal` tells, and remove `/w/.cargo-hack-journal`
            | no copy
            | status 1

            > performed: hack --restore; file: /w/.cargo-hack-journal~lock; | # older
            | info: left `Cargo.lock` as it is: in the interrupted call cargo may have changed it
            | no copy
            | status 0

            > performed: hack check --no-dev-deps; guard missing
            | info: no guard could be started: where this call is interrupted, the next one restores the manifests
            | info: --no-dev-deps modifies real `Cargo.toml` while cargo-hack is running and restores it when finished
            | info: running `cargo check` on p (1/1)
            | no copy
            | status 0
        "#,
    )
}

// The lines on what can't be looked at before a call, and on what stays behind it.
#[test]
fn files_that_fail(rt: HostRuntime) -> Result<(), Wrong> {
    on(
        rt.alloc(),
        ROOT,
        r#"
            > performed: hack check; broken look 1
            | warning: failed to read from file `/w/Cargo.toml`: edits of an interrupted call may stand
            | info: running `cargo check` on p (1/1)
            | no copy
            | status 0

            > performed: hack check --no-dev-deps; broken look 1
            | error: failed to read from file `/w/Cargo.toml`
            | no copy
            | status 1

            > performed: hack check --no-dev-deps; broken look 3
            | error: failed to read from file `/w/Cargo.toml`
            | no copy
            | status 1

            > performed: hack check --no-dev-deps; broken look 18
            | error: failed to read or write file `/w/.cargo-hack-journal~lock`
            | no copy
            | status 1

            > performed: hack check --no-dev-deps; broken look 19
            | error: failed to read or write file `/w/Cargo.toml`
            | no copy
            | status 1

            > performed: hack check --no-dev-deps; broken call 2
            | error: failed to read or write file `/w/Cargo.lock`
            | no copy
            | status 1

            > performed: hack check --no-dev-deps; broken look 26
            | info: --no-dev-deps modifies real `Cargo.toml` while cargo-hack is running and restores it when finished
            | error: failed to write to file `/w/Cargo.toml`
            | info: an edit was refused, since what it replaces can't be kept in `/w/.cargo-hack-journal`
            | no copy
            | status 1

            > performed: hack check --no-dev-deps; broken look 28; broken call 5
            | info: --no-dev-deps modifies real `Cargo.toml` while cargo-hack is running and restores it when finished
            | info: running `cargo check` on p (1/1)
            | error: failed to write to file `/w/Cargo.toml`
            | error: failed to write to file `/w/Cargo.lock`
            | warning: `/w/.cargo-hack-journal` stays: the next call brings back what it tells
            | warning: `/w/.cargo-hack-journal~lock` stays: it has what the lockfile held, and the next call removes it
            | copy: # lock
            | status 1

            > performed: hack check --no-dev-deps; broken look 34
            | info: --no-dev-deps modifies real `Cargo.toml` while cargo-hack is running and restores it when finished
            | info: running `cargo check` on p (1/1)
            | warning: `/w/.cargo-hack-journal` may stay: then the next call brings back what it tells
            | copy: # lock
            | status 0

            > performed: hack check --no-dev-deps; broken look 35
            | info: --no-dev-deps modifies real `Cargo.toml` while cargo-hack is running and restores it when finished
            | info: running `cargo check` on p (1/1)
            | warning: `/w/.cargo-hack-journal~lock` stays: the next call removes it
            | copy: # lock
            | status 0

            > performed: hack check --no-dev-deps; broken look 35; broken call 5
            | info: --no-dev-deps modifies real `Cargo.toml` while cargo-hack is running and restores it when finished
            | info: running `cargo check` on p (1/1)
            | error: failed to write to file `/w/Cargo.lock`
            | warning: `/w/.cargo-hack-journal~lock` may stay: then it has what the lockfile held, and the next call removes it
            | copy: # lock
            | status 1
        "#,
    )
}
