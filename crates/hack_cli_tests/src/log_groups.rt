//! Groups of lines in a log, also where a write of their lines is interrupted or fails. `terminal`
//! describes the questions.

use crate::terminal::{on, on_plain};
use hack_holds::Wrong;
use hack_term::term::{Coloring, Term};

#[test]
fn lines_of_log_groups(rt: HostRuntime) -> Result<(), Wrong> {
    on(
        rt.alloc(),
        Term::new(Coloring::Auto, false),
        r"
            > group none running x
            | ok, not open, out '', err 'info: running x\n' in 6 writes
            > group github running x
            | ok, ok, out '::group::running x\n::endgroup::\n', err '' in 0 writes
        ",
    )
}

#[test]
fn a_group_hands_out_its_fault(rt: HostRuntime) -> Result<(), Wrong> {
    on_plain(
        rt.alloc(),
        r"
            > group none told / broken at 0 / broken at 0
            | broken, not open, out '', err '' in 1 writes
            > group none told / broken at 1 / broken at 1
            | broken, not open, out '', err 'inf' in 2 writes
            > group none told / broken at 2 / broken at 2
            | broken, not open, out '', err 'info: ' in 3 writes
            > group none told / broken at 3 / broken at 3
            | broken, not open, out '', err 'info: tol' in 4 writes
            > group none told / broken at 100 / broken at 100
            | ok, not open, out '', err 'info: told\n' in 5 writes

            > group github told / broken at 0 / broken at 0
            | broken, ok, out '::endgroup::\n', err '' in 0 writes
            > group github told / broken at 1 / broken at 1
            | broken, ok, out '::g::endgroup::\n', err '' in 0 writes
            > group github told / broken at 2 / broken at 2
            | broken, ok, out '::grou::endgroup::\n', err '' in 0 writes
            > group github told / broken at 3 / broken at 3
            | broken, ok, out '::group::::endgroup::\n', err '' in 0 writes
            > group github told / broken at 100 / broken at 100
            | ok, ok, out '::group::told\n::endgroup::\n', err '' in 0 writes
        ",
    )
}

// Two more writes than the opening line and the closing one need.
static INTERRUPTED: &str = r"
    > group github told / interrupted at 0 / broken at 0
    | ok, ok, out '::group::told\n::endgroup::\n', err '' in 0 writes
    > group github told / interrupted at 1 / broken at 0
    | ok, ok, out '::group::told\n::endgroup::\n', err '' in 0 writes
    > group github told / interrupted at 2 / broken at 0
    | ok, ok, out '::group::told\n::endgroup::\n', err '' in 0 writes
    > group github told / interrupted at 3 / broken at 0
    | ok, ok, out '::group::told\n::endgroup::\n', err '' in 0 writes
    > group github told / interrupted at 4 / broken at 0
    | ok, ok, out '::group::told\n::endgroup::\n', err '' in 0 writes
    > group github told / interrupted at 5 / broken at 0
    | ok, ok, out '::group::told\n::endgroup::\n', err '' in 0 writes
    > group github told / interrupted at 6 / broken at 0
    | ok, ok, out '::group::told\n::endgroup::\n', err '' in 0 writes
    > group github told / interrupted at 7 / broken at 0
    | ok, ok, out '::group::told\n::endgroup::\n', err '' in 0 writes
    > group github told / interrupted at 8 / broken at 0
    | ok, ok, out '::group::told\n::endgroup::\n', err '' in 0 writes
    > group github told / interrupted at 9 / broken at 0
    | ok, ok, out '::group::told\n::endgroup::\n', err '' in 0 writes
    > group github told / interrupted at 10 / broken at 0
    | ok, ok, out '::group::told\n::endgroup::\n', err '' in 0 writes
    > group github told / interrupted at 11 / broken at 0
    | ok, ok, out '::group::told\n::endgroup::\n', err '' in 0 writes
    > group github told / interrupted at 12 / broken at 0
    | ok, ok, out '::group::told\n::endgroup::\n', err '' in 0 writes
";

#[test]
fn a_group_is_ended_after_an_interrupted_write(rt: HostRuntime) -> Result<(), Wrong> {
    on_plain(rt.alloc(), INTERRUPTED)
}
