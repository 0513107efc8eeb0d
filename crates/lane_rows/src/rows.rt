//! What is tried, in order.

use crate::shells::{Shells, lane_at};
use hack_children::processors::count_processors;
use hack_starts::starts::Starts;
use std::alloc::{AllocError, Global};
use std::io;
use std::process::Processes;
use std::rt::Files;

/// Ends only where the last of the lanes runs at the same time.
const FIRST: &str = r#"until [ -e "$1/third" ]; do sleep 0.01; done; rm "$1/third"; echo first"#;

const THIRD: &str = r#"echo third; : > "$1/third""#;

const VARIABLES: &str =
    r#"echo "$CARGO_TARGET_DIR, $CARGO_BUILD_JOBS jobs, colors $CARGO_TERM_COLOR""#;

/// Keeps the variables that lanes may set.
const OWN_VARIABLES: &str =
    r#"echo "${CARGO_TARGET_DIR-none} ${CARGO_BUILD_JOBS-none} ${CARGO_TERM_COLOR-none}" > "$1/own""#;

const SAME_VARIABLES: &str =
    r#"here="${CARGO_TARGET_DIR-none} ${CARGO_BUILD_JOBS-none} ${CARGO_TERM_COLOR-none}"; [ "$here" = "$(cat "$1/own")" ] && echo "as here"; rm "$1/own""#;

/// A program with a child and a grandchild, which tells its number.
const FAMILY: &str = r#"sh -c 'sleep 100 & echo $! > "$1/number"; wait' sh "$1" & wait"#;

/// Waits for the grandchild, and tells its state.
const STATE: &str =
    r#"until [ -s "$1/number" ]; do sleep 0.01; done; cut -d ' ' -f 3 "/proc/$(cat "$1/number")/stat""#;

/// Waits until the grandchild has ended, though maybe nobody has waited for it.
const GONE: &str =
    r#"state() { cut -d ' ' -f 3 "/proc/$(cat "$1/number")/stat" 2>/dev/null; }; for try in 1 2 3 4 5 6 7 8 9; do case "$(state "$1")" in ''|Z) echo gone; break;; *) sleep 0.1;; esac; done; rm "$1/number""#;

/// Calls this program again, the way that it was called, and counts each stretch of equal lines.
const COUNTED: &str =
    r#"xargs -0 sh -c '"$@" heavy' sh < "/proc/$PPID/cmdline" 2>&1 | uniq -c | tr -s ' ' | tr '\n' ','"#;

/// The number of processors, of which a quota may allow fewer.
const PROCESSORS: &str =
    r#"unset OMP_NUM_THREADS OMP_THREAD_LIMIT; n=$(nproc); if read -r time period && [ "$time" != max ]; then most=$((time / period)); [ "$n" -lt "$most" ] || n=$most; [ "$n" -gt 0 ] || n=1; fi 2>/dev/null < /sys/fs/cgroup/cpu.max; echo "$n""#;

const HEAVY: &str = "yes x | head -c 10485760; yes y | head -c 10485760 >&2";

/// Prints a line for each row, after what the programs themselves wrote.
pub fn rows<R: Print, S: Starts + Drop>(
    rt: &R,
    alloc: Global,
    shells: &mut Shells<S>,
    number: u32,
) -> io::Result<()> {
    side_by_side(rt, alloc, shells)?;
    ends(rt, alloc, shells)?;
    nothing_started(rt, alloc, shells)?;
    abandoned(rt, alloc, shells)?;
    abandoned_after_its_end(rt, alloc, shells)?;
    name_taken(rt, alloc, shells, number)?;
    let counted = shells.read(alloc, COUNTED)?;
    println!(rt; "10 MB on both streams, twice:{counted}")
}

/// Prints whether the number of processors is what a shell is told.
pub fn told_by_nproc<R: Print + Processes + Files, S: Starts + Drop>(
    rt: &R,
    alloc: Global,
    shells: &mut Shells<S>,
) -> io::Result<()> {
    let wanted = shells.read(alloc, PROCESSORS)?;
    let is_same = count_processors(rt, alloc) == wanted.as_str().parse::<usize>().ok();
    println!(rt; "as many processors as nproc tells: {is_same}")
}

/// Prints a line of a lane that has a share of the processors, and how many files are left.
pub fn last_rows<R: Print, S: Starts + Drop>(
    rt: &R,
    alloc: Global,
    shells: &mut Shells<S>,
) -> io::Result<()> {
    row(rt, alloc, shells, 12, VARIABLES)?;
    let left = shells.read(alloc, r#"ls -A "$1" | wc -l"#)?;
    println!(rt; "files left: {left}")
}

/// Writes 10 MB to each of the standard streams, and once more.
pub fn heavy<S: Starts + Drop>(alloc: Global, shells: &mut Shells<S>) -> Result<(), AllocError> {
    for place in 0..2 {
        shells.start(alloc, place, 0, HEAVY)?;
    }
    for place in 0..2 {
        shells.finish(alloc, place)?;
    }
    Ok(())
}

fn side_by_side<R: Print, S: Starts + Drop>(
    rt: &R,
    alloc: Global,
    shells: &mut Shells<S>,
) -> io::Result<()> {
    shells.start(alloc, 0, 0, FIRST)?;
    shells.start(alloc, 1, 1, "echo second; exit 7")?;
    shells.start(alloc, 2, 2, THIRD)?;
    let third = shells.wait(alloc, 2);
    println!(rt; "the third has ended: {third}")?;
    shells.run(alloc, "echo another one meanwhile")?;
    for place in 0..3 {
        told(rt, alloc, shells, place)?;
    }
    Ok(())
}

fn told<R: Print, S: Starts + Drop>(
    rt: &R,
    alloc: Global,
    shells: &mut Shells<S>,
    place: usize,
) -> io::Result<()> {
    let end = shells.finish(alloc, place)?;
    println!(rt; "at {place}: {end}")
}

/// A script that is started and finished at once.
fn row<R: Print, S: Starts + Drop>(
    rt: &R,
    alloc: Global,
    shells: &mut Shells<S>,
    lane: usize,
    script: &str,
) -> io::Result<()> {
    shells.start(alloc, 3, lane, script)?;
    let end = shells.finish(alloc, 3)?;
    println!(rt; "in lane {lane}: {end}")
}

fn ends<R: Print, S: Starts + Drop>(
    rt: &R,
    alloc: Global,
    shells: &mut Shells<S>,
) -> io::Result<()> {
    row(rt, alloc, shells, 1, "echo before; kill -9 $$; echo after")?;
    row(rt, alloc, shells, 1, "kill -15 $$")?;
    row(rt, alloc, shells, 1, "cat; echo no input")?;
    shells.run(alloc, OWN_VARIABLES)?;
    row(rt, alloc, shells, 0, SAME_VARIABLES)
}

fn nothing_started<R: Print, S: Starts + Drop>(
    rt: &R,
    alloc: Global,
    shells: &mut Shells<S>,
) -> io::Result<()> {
    let missing = shells
        .starts
        .start(alloc, 4, lane_at(1), "/hack/no/such/program", &[]);
    println!(rt; "a missing program: {missing}")?;
    let ended = shells.starts.has_ended(4);
    println!(rt; "ended: {ended}")?;
    told(rt, alloc, shells, 4)
}

fn abandoned<R: Print, S: Starts + Drop>(
    rt: &R,
    alloc: Global,
    shells: &mut Shells<S>,
) -> io::Result<()> {
    shells.start(alloc, 5, 1, FAMILY)?;
    let before = shells.read(alloc, STATE)?;
    shells.starts.abandon(alloc, 5);
    let after = shells.read(alloc, GONE)?;
    println!(rt; "a grandchild: {before}, {after}")?;
    told(rt, alloc, shells, 5)
}

fn abandoned_after_its_end<R: Print, S: Starts + Drop>(
    rt: &R,
    alloc: Global,
    shells: &mut Shells<S>,
) -> io::Result<()> {
    shells.start(alloc, 6, 1, "echo dropped")?;
    let ended = shells.wait(alloc, 6);
    shells.starts.abandon(alloc, 6);
    println!(rt; "ended and abandoned: {ended}")
}

/// A file of the name that a place's output would have stays, and nothing is started.
fn name_taken<R: Print, S: Starts + Drop>(
    rt: &R,
    alloc: Global,
    shells: &mut Shells<S>,
    number: u32,
) -> io::Result<()> {
    let make = format!(in alloc; "echo kept > \"$1/cargo-hack-{number}-7.out\"")?;
    shells.run(alloc, make.as_str())?;
    let started = shells.start(alloc, 7, 1, "echo never")?;
    let kept = shells.read(alloc, r#"cat "$1"/*; rm "$1"/*"#)?;
    println!(rt; "a name that is taken: {started}, {kept}")
}
