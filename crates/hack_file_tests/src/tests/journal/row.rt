//! The row of files that a journal is, and the paths in its text.

use crate::tests::journal::on;
use hack_holds::Wrong;

/// Three manifests are edited, one of them outside the folder of the journal.
static EDITED: &str = "
    > below: write /w/Cargo.toml one
    | ok
    > below: write /w/a/Cargo.toml two
    | ok
    > below: write /outside/Cargo.toml three
    | ok
    > begin /w
    | ok
    > write /w/Cargo.toml uno
    | ok
    > write /w/a/Cargo.toml dos
    | ok
    > write /outside/Cargo.toml tres
    | ok
    > finish
    | false
    > end
    | ok
";

#[test]
fn each_edit_adds_a_file(rt: HostRuntime) -> Result<(), Wrong> {
    on(
        rt.alloc(),
        &[
            EDITED,
            r#"
                > below: held /w/j
                | /w/j 'edited files\npath Cargo.toml\nheld\n one\nwrote\n uno\nend\n'
                > below: held /w/j~1
                | /w/j~1 'edited files\npath a/Cargo.toml\nheld\n two\nwrote\n dos\nend\n'
                > below: held /w/j~2
                | /w/j~2 'edited files\npath ../outside/Cargo.toml\nheld\n three\nwrote\n tres\nend\n'
                > below: held /w/j~3
                | /w/j~3 -
                > below: changes
                | 9
                > below: row /w
                | Some(Row { entries: [Entry { path: "/w/Cargo.toml", held: Some([111, 110, 101]), wrote: Some([117, 110, 111]) }, Entry { path: "/w/a/Cargo.toml", held: Some([116, 119, 111]), wrote: Some([100, 111, 115]) }, Entry { path: "/outside/Cargo.toml", held: Some([116, 104, 114, 101, 101]), wrote: Some([116, 114, 101, 115]) }], count: 3 })
                > below: recover /w
                | /w/Cargo.toml /w/a/Cargo.toml /outside/Cargo.toml
                > below: held /w/Cargo.toml /w/a/Cargo.toml /outside/Cargo.toml /w/j /w/j~1 /w/j~2
                | /w/Cargo.toml 'one' /w/a/Cargo.toml 'two' /outside/Cargo.toml 'three' /w/j - /w/j~1 - /w/j~2 -
            "#,
        ],
    )
}

// A call that is interrupted while it removes the journal leaves its first files.
#[test]
fn the_last_file_is_removed_first(rt: HostRuntime) -> Result<(), Wrong> {
    on(
        rt.alloc(),
        &[
            "
                > below: write a/Cargo.toml one
                | ok
                > below: write b/Cargo.toml two
                | ok
                > begin
                | ok
                > write a/Cargo.toml new
                | ok
                > write b/Cargo.toml new
                | ok
                > write a/Cargo.toml one
                | ok
                > write b/Cargo.toml two
                | ok
                > finish
                | true
                > end
                | ok
                > below: changes
                | 11
                > cut 9
                | ok
                > front: exists j~1
                | true
                > cut 10
                | ok
                > front: exists j~1
                | false
                > front: exists j
                | true
                > front: recover
                | nothing
                > front: exists j
                | false
            ",
        ],
    )
}

// What is there already would become part of the row. Nothing is changed.
#[test]
fn a_file_behind_the_row_is_refused(rt: HostRuntime) -> Result<(), Wrong> {
    on(
        rt.alloc(),
        &[
            "
                > below: write j~2 old
                | ok
                > below: write a/Cargo.toml one
                | ok
                > below: write b/Cargo.toml two
                | ok
                > begin
                | ok
                > write a/Cargo.toml new
                | ok
                > write b/Cargo.toml new
                | device
                > failures
                | 1
                > end
                | ok
                > below: changes
                | 5
                > below: held a/Cargo.toml b/Cargo.toml j~1 j~2
                | a/Cargo.toml 'new' b/Cargo.toml 'two' j~1 - j~2 'old'
            ",
        ],
    )
}

// So is a path that the journal can't tell from its folder.
#[test]
fn a_path_with_detours_is_refused(rt: HostRuntime) -> Result<(), Wrong> {
    on(
        rt.alloc(),
        &[
            "
                > below: write /w/./Cargo.toml one
                | ok
                > below: write a/Cargo.toml two
                | ok
                > begin /w
                | ok
                > write /w/./Cargo.toml new
                | device
                > write a/Cargo.toml new
                | device
                > end
                | ok
                > below: changes
                | 2
            ",
        ],
    )
}

// The paths are read from the folder that the journal is found in.
#[test]
fn a_folder_that_was_moved_is_recovered(rt: HostRuntime) -> Result<(), Wrong> {
    on(
        rt.alloc(),
        &[
            r"
                > below: write /v/Cargo.toml uno
                | ok
                > below: write /v/j edited files\npath Cargo.toml\nheld\n one\nwrote\n uno\nend\n
                | ok
                > below: recover /v
                | /v/Cargo.toml
                > below: held /v/Cargo.toml /v/j
                | /v/Cargo.toml 'one' /v/j -
            ",
        ],
    )
}

// An older version wrote all entries to one file, with absolute paths.
#[test]
fn an_old_journal_is_a_row_of_one_file(rt: HostRuntime) -> Result<(), Wrong> {
    on(
        rt.alloc(),
        &[
            r#"
                > below: row /w
                | None
                > below: write /w/Cargo.toml uno
                | ok
                > below: write /w/a/Cargo.toml two
                | ok
                > below: write /w/j edited files\npath /w/Cargo.toml\nheld\n one\nwrote\n uno\npath /w/a/Cargo.toml\nheld\n two\nwrote\n dos\nend\n
                | ok
                > below: row /w
                | Some(Row { entries: [Entry { path: "/w/Cargo.toml", held: Some([111, 110, 101]), wrote: Some([117, 110, 111]) }, Entry { path: "/w/a/Cargo.toml", held: Some([116, 119, 111]), wrote: Some([100, 111, 115]) }], count: 1 })
                > below: recover /w
                | /w/Cargo.toml
                > below: held /w/Cargo.toml /w/a/Cargo.toml /w/j
                | /w/Cargo.toml 'one' /w/a/Cargo.toml 'two' /w/j -
            "#,
        ],
    )
}

// A file of the row that isn't whole, and an entry for a path that begins like the journal's.
#[test]
fn a_row_that_no_call_writes_is_refused(rt: HostRuntime) -> Result<(), Wrong> {
    on(
        rt.alloc(),
        &[
            r"
                > below: write a new
                | ok
                > below: write j edited files\npath a\nheld nothing\nwrote\n new\nend\n
                | ok
                > below: write j~1 edited files\n
                | ok
                > below: recover
                | `j` is not a whole journal of edited files; put back by hand what it tells, and remove it
                > below: write j~1 edited files\npath j~5\nheld nothing\nwrote\n new\nend\n
                | ok
                > below: recover
                | `j` is not a whole journal of edited files; put back by hand what it tells, and remove it
                > below: remove j~1
                | ok
                > below: recover
                | a
                > below: held a j
                | a - j -
            ",
        ],
    )
}
