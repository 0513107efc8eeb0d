//! Lines for the user in each colouring, what the terminal records of them, and what was written
//! where a write is interrupted, fails or takes nothing. `terminal` describes the questions.

use crate::terminal::{on, on_plain};
use hack_holds::Wrong;
use hack_term::term::{Coloring, Term};

static PLAIN: &str = r"
    > info a
    | ok, 4 writes, nothing noted: 'info: a\n'
    > warn b
    | ok, 5 writes, warning noted: 'warning: b\n'
    > warn c
    | ok, 5 writes, warning noted: 'warning: c\n'
    > error d
    | ok, 5 writes, both noted: 'error: d\n'
";

static COLOURED: &str = r"
    > info a
    | ok, 11 writes, nothing noted: '\e[0m\e[1minfo\e[0m\e[1m:\e[0m a\n'
    > warn b
    | ok, 14 writes, warning noted: '\e[0m\e[1m\e[33mwarning\e[0m\e[1m:\e[0m b\n'
    > warn c
    | ok, 14 writes, warning noted: '\e[0m\e[1m\e[33mwarning\e[0m\e[1m:\e[0m c\n'
    > error d
    | ok, 13 writes, both noted: '\e[0m\e[1m\e[31merror\e[0m\e[1m:\e[0m d\n'
";

#[test]
fn lines_in_each_colouring(rt: HostRuntime) -> Result<(), Wrong> {
    on(rt.alloc(), Term::new(Coloring::Auto, false), PLAIN)?;
    on(rt.alloc(), Term::new(Coloring::Never, false), PLAIN)?;
    on(rt.alloc(), Term::new(Coloring::Always, false), COLOURED)
}

#[test]
fn flags_without_a_writer(rt: HostRuntime) -> Result<(), Wrong> {
    on_plain(
        rt.alloc(),
        "
            > each told / broken at 0
            | broken, 1 writes, nothing noted: ''
            | broken, 1 writes, warning noted: ''
            | broken, 1 writes, both noted: ''
            > each told / broken at 1
            | broken, 2 writes, nothing noted: 'inf'
            | broken, 2 writes, warning noted: 'war'
            | broken, 2 writes, both noted: 'err'
            > each told / broken at 3
            | broken, 4 writes, nothing noted: 'info: tol'
            | broken, 4 writes, warning noted: 'warning: '
            | broken, 4 writes, both noted: 'error: '

            > status nothing
            | 0
            > error told / broken at 4
            | broken, 5 writes, error noted: 'error: tol'
        ",
    )
}

#[test]
fn notices_by_kind(rt: HostRuntime) -> Result<(), Wrong> {
    on(
        rt.alloc(),
        Term::new(Coloring::Auto, false),
        r"
            > note-info n
            | ok, 4 writes, nothing noted: 'info: n\n'
            > note-quiet n
            | ok, 5 writes, nothing noted: 'warning: n\n'
            > note-warn n
            | ok, 5 writes, warning noted: 'warning: n\n'
        ",
    )
}

#[test]
fn statuses(rt: HostRuntime) -> Result<(), Wrong> {
    on(
        rt.alloc(),
        Term::new(Coloring::Auto, true),
        "
            > status nothing
            | 0
            > status denied
            | 0
            > status warning
            | 0
            > status warning denied
            | 1
            > status error
            | 1
            > status error warning denied
            | 1
        ",
    )
}

// The line takes five writes: two for `info: `, two for its text, one for the line feed. One that is
// interrupted is made again; after one that fails nothing is written.
#[test]
fn writes_of_a_line_that_fail(rt: HostRuntime) -> Result<(), Wrong> {
    on_plain(
        rt.alloc(),
        r"
            > info told / interrupted at 0..=4
            | ok, 6 writes, nothing noted: 'info: told\n'
            | ok, 6 writes, nothing noted: 'info: told\n'
            | ok, 6 writes, nothing noted: 'info: told\n'
            | ok, 6 writes, nothing noted: 'info: told\n'
            | ok, 6 writes, nothing noted: 'info: told\n'
            > info told / interrupted at 5
            | ok, 5 writes, nothing noted: 'info: told\n'

            > error told / broken at 0..=5
            | broken, 1 writes, error noted: ''
            | broken, 2 writes, error noted: 'err'
            | broken, 3 writes, error noted: 'error:'
            | broken, 4 writes, error noted: 'error: '
            | broken, 5 writes, error noted: 'error: tol'
            | broken, 6 writes, error noted: 'error: told'
        ",
    )
}

#[test]
fn a_write_that_takes_nothing_is_a_fault(rt: HostRuntime) -> Result<(), Wrong> {
    on_plain(
        rt.alloc(),
        "
            > warn told / full at 0
            | takes nothing, 1 writes, warning noted: ''
            > note-info told / full at 0
            | takes nothing, 1 writes, warning noted: ''
        ",
    )
}
