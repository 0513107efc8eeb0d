//! A call that edits a manifest and a lockfile, of which the journal keeps only the manifest.

use crate::tests::journal::on;
use hack_holds::Wrong;

/// A manifest and a lockfile, both edited.
static EDITED: &str = "
    > below: write w/Cargo.toml one
    | ok
    > lockfiles: write w/Cargo.lock locked
    | ok
    > begin
    | ok
    > apart: write w/Cargo.toml uno
    | ok
    > apart: write w/Cargo.lock other
    | ok
";

#[test]
fn lockfiles_pass_the_journal_by(rt: HostRuntime) -> Result<(), Wrong> {
    on(
        rt.alloc(),
        &[
            EDITED,
            r"
                > apart: held w/Cargo.toml w/Cargo.lock j
                | w/Cargo.toml 'uno' w/Cargo.lock 'other' j -
                > apart: failures
                | 1
                > finish
                | false
                > end
                | ok
                > below: held w/Cargo.toml w/Cargo.lock
                | w/Cargo.toml 'uno' w/Cargo.lock -
                > below: held j
                | j 'edited files\npath w/Cargo.toml\nheld\n one\nwrote\n uno\nend\n'
            ",
        ],
    )
}

#[test]
fn no_journal_is_left_once_both_are_back(rt: HostRuntime) -> Result<(), Wrong> {
    on(
        rt.alloc(),
        &[
            EDITED,
            "
                > apart: write w/Cargo.toml one
                | ok
                > apart: write w/Cargo.lock locked
                | ok
                > finish
                | true
                > apart: exists w/Cargo.lock
                | true
                > apart: failures
                | 0
                > end
                | ok
                > below: held w/Cargo.toml w/Cargo.lock j
                | w/Cargo.toml 'one' w/Cargo.lock - j -
            ",
        ],
    )
}
