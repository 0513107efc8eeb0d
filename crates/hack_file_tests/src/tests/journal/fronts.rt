//! A call that ends after each of its changes.

use crate::tests::journal::on;
use hack_holds::Wrong;
use hack_journal::laws::names_no_stranger;

/// Edits three manifests, one of them twice, and restores all. A file of the journal is written
/// before each edit, and the last changes are the removal of the journal, from the last file on: the
/// one that was not written yet is removed too.
static EDITED: &str = r"
    > below: write a/Cargo.toml one\n\ntwo\n
    | ok
    > below: write b/Cargo.toml
    | ok
    > below: write c/Cargo.toml tre
    | ok
    > begin
    | ok
    > write a/Cargo.toml one\n
    | ok
    > write b/Cargo.toml \n x
    | ok
    > write a/Cargo.toml uno
    | ok
    > write c/Cargo.toml new
    | ok
    > write a/Cargo.toml one\n\ntwo\n
    | ok
    > write c/Cargo.toml tre
    | ok
    > write b/Cargo.toml
    | ok
    > finish
    | true
    > end
    | ok
    > below: changes
    | 19
";

#[test]
fn each_front_comes_back(rt: HostRuntime) -> Result<(), Wrong> {
    on(
        rt.alloc(),
        &[
            EDITED,
            r"
                > front 3
                | nothing
                | a/Cargo.toml 'one\n\ntwo\n' b/Cargo.toml '' c/Cargo.toml 'tre' j - j~1 -
                > front 4
                | nothing
                | a/Cargo.toml 'one\n\ntwo\n' b/Cargo.toml '' c/Cargo.toml 'tre' j - j~1 -
                > front 5
                | a/Cargo.toml
                | a/Cargo.toml 'one\n\ntwo\n' b/Cargo.toml '' c/Cargo.toml 'tre' j - j~1 -
                > front 6
                | a/Cargo.toml
                | a/Cargo.toml 'one\n\ntwo\n' b/Cargo.toml '' c/Cargo.toml 'tre' j - j~1 -
                > front 7
                | a/Cargo.toml b/Cargo.toml
                | a/Cargo.toml 'one\n\ntwo\n' b/Cargo.toml '' c/Cargo.toml 'tre' j - j~1 -
                > front 8
                | a/Cargo.toml b/Cargo.toml
                | a/Cargo.toml 'one\n\ntwo\n' b/Cargo.toml '' c/Cargo.toml 'tre' j - j~1 -
                > front 9
                | a/Cargo.toml b/Cargo.toml
                | a/Cargo.toml 'one\n\ntwo\n' b/Cargo.toml '' c/Cargo.toml 'tre' j - j~1 -
                > front 10
                | a/Cargo.toml b/Cargo.toml
                | a/Cargo.toml 'one\n\ntwo\n' b/Cargo.toml '' c/Cargo.toml 'tre' j - j~1 -
                > front 11
                | a/Cargo.toml b/Cargo.toml c/Cargo.toml
                | a/Cargo.toml 'one\n\ntwo\n' b/Cargo.toml '' c/Cargo.toml 'tre' j - j~1 -
                > front 12
                | b/Cargo.toml c/Cargo.toml
                | a/Cargo.toml 'one\n\ntwo\n' b/Cargo.toml '' c/Cargo.toml 'tre' j - j~1 -
                > front 13
                | b/Cargo.toml
                | a/Cargo.toml 'one\n\ntwo\n' b/Cargo.toml '' c/Cargo.toml 'tre' j - j~1 -
                > front 14
                | nothing
                | a/Cargo.toml 'one\n\ntwo\n' b/Cargo.toml '' c/Cargo.toml 'tre' j - j~1 -
                > front 15
                | nothing
                | a/Cargo.toml 'one\n\ntwo\n' b/Cargo.toml '' c/Cargo.toml 'tre' j - j~1 -
                > front 16
                | nothing
                | a/Cargo.toml 'one\n\ntwo\n' b/Cargo.toml '' c/Cargo.toml 'tre' j - j~1 -
                > front 17
                | nothing
                | a/Cargo.toml 'one\n\ntwo\n' b/Cargo.toml '' c/Cargo.toml 'tre' j - j~1 -
                > front 18
                | nothing
                | a/Cargo.toml 'one\n\ntwo\n' b/Cargo.toml '' c/Cargo.toml 'tre' j - j~1 -
                > front 19
                | nothing
                | a/Cargo.toml 'one\n\ntwo\n' b/Cargo.toml '' c/Cargo.toml 'tre' j - j~1 -
            ",
        ],
    )
}

#[test]
fn a_file_that_somebody_changed_is_refused(rt: HostRuntime) -> Result<(), Wrong> {
    on(
        rt.alloc(),
        &[
            EDITED,
            "
                > cut 9
                | ok
                > front: write b/Cargo.toml other
                | ok
                > front: recover
                | `b/Cargo.toml` was changed after an interrupted call had edited it; put back by hand what `j` tells, and remove `j`
                > front: changes
                | 10
            ",
        ],
    )
}

// The manifest of `a` held `one\n\ntwo\n`, then `one\n`, and then `uno`. A write of one of these over another was
// cut, behind its first byte or later.
#[test]
fn a_cut_write_comes_back(rt: HostRuntime) -> Result<(), Wrong> {
    on(
        rt.alloc(),
        &[
            EDITED,
            r"
                > cut 9
                | ok
                > front: write a/Cargo.toml une\n
                | ok
                > front: recover
                | a/Cargo.toml b/Cargo.toml
                > front: held a/Cargo.toml b/Cargo.toml j j~1
                | a/Cargo.toml 'one\n\ntwo\n' b/Cargo.toml '' j - j~1 -

                # All of its bytes were written, before the file was made shorter.
                > cut 9
                | ok
                > front: write a/Cargo.toml uno\n
                | ok
                > front: recover
                | a/Cargo.toml b/Cargo.toml
                > front: held a/Cargo.toml b/Cargo.toml j j~1
                | a/Cargo.toml 'one\n\ntwo\n' b/Cargo.toml '' j - j~1 -

                # One that puts back.
                > cut 9
                | ok
                > front: write a/Cargo.toml one\n\nt
                | ok
                > front: write b/Cargo.toml \n
                | ok
                > front: recover
                | a/Cargo.toml b/Cargo.toml
                > front: held a/Cargo.toml b/Cargo.toml j j~1
                | a/Cargo.toml 'one\n\ntwo\n' b/Cargo.toml '' j - j~1 -
            ",
        ],
    )
}

// What no cut write leaves: other bytes at the front or behind it, a cut text of another path, or the
// front of a text where no file was.
#[test]
fn a_text_that_no_cut_leaves_is_refused(rt: HostRuntime) -> Result<(), Wrong> {
    on(
        rt.alloc(),
        &[
            EDITED,
            r"
                > cut 9
                | ok
                > front: write a/Cargo.toml xne\n
                | ok
                > front: recover
                | `a/Cargo.toml` was changed after an interrupted call had edited it; put back by hand what `j` tells, and remove `j`
                > front: write a/Cargo.toml unx
                | ok
                > front: recover
                | `a/Cargo.toml` was changed after an interrupted call had edited it; put back by hand what `j` tells, and remove `j`
                > front: write a/Cargo.toml uno
                | ok
                > front: write b/Cargo.toml une\n
                | ok
                > front: recover
                | `b/Cargo.toml` was changed after an interrupted call had edited it; put back by hand what `j` tells, and remove `j`
                > front: changes
                | 13
                > cut 0
                | ok
                > front: write j edited files\npath c/Cargo.toml\nheld nothing\nwrote\n new\nend\n
                | ok
                > front: write c/Cargo.toml ne
                | ok
                > front: recover
                | `c/Cargo.toml` was changed after an interrupted call had edited it; put back by hand what `j` tells, and remove `j`
                > front: changes
                | 2
            ",
        ],
    )
}

#[test]
fn nothing_written_no_journal(rt: HostRuntime) -> Result<(), Wrong> {
    on(
        rt.alloc(),
        &[
            "
            > below: write a one
            | ok
            > begin
            | ok
            > read a
            | 'one'
            > exists b
            | false
            > finish
            | true
            > end
            | ok
            > below: changes
            | 1
        ",
        ],
    )
}

// The journal isn't one of the files, nor is a path that begins like it. It is kept until all files
// are restored.
#[test]
fn the_journal_is_none_of_the_files(rt: HostRuntime) -> Result<(), Wrong> {
    on(
        rt.alloc(),
        &[
            r"
            > below: write a/Cargo.toml one
            | ok
            > begin
            | ok
            > write a/Cargo.toml new
            | ok
            > exists j
            | false
            > read j
            | device
            > write j/Cargo.toml new
            | device
            > read jam
            | device
            > failures
            | 3
            > finish
            | false
            > end
            | ok
            > below: held a/Cargo.toml j
            | a/Cargo.toml 'new' j 'edited files\npath a/Cargo.toml\nheld\n one\nwrote\n new\nend\n'
        ",
        ],
    )
}

// The next call restores nothing for a journal that names anything but edits of manifests. So no
// other file is noted, no manifest that isn't there, and no removal, and nothing is changed.
#[test]
fn only_edits_of_manifests_are_noted(rt: HostRuntime) -> Result<(), Wrong> {
    names_no_stranger();
    on(
        rt.alloc(),
        &[
            "
            > below: write /w/Cargo.toml one
            | ok
            > below: write /w/a.rs two
            | ok
            > below: write /w/NoCargo.toml three
            | ok
            > begin /w
            | ok
            > write /w/a.rs new
            | device
            > write /w/NoCargo.toml new
            | device
            > write /w/a/Cargo.toml new
            | device
            > failures
            | 3
            > finish
            | true
            > end
            | ok
            > below: changes
            | 3
        ",
        ],
    )
}
