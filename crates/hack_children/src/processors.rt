//! How many processors there are, and how many of them each command gets.

ghost use Rattle.std.specs.Prelude.{◌≡◌, ◌/◌, max};

use std::alloc::Global;
use std::io::Read;
use std::process::{Command, Processes};
use std::rt::Files;
use std::{fs, io, str};

/// The processors that commands side by side share.
#[derive(Clone, Copy, Debug, PartialEq, Eq)]
pub enum Processors {
    /// Nothing is said of them: cargo decides on its jobs.
    Unshared,
    /// Those of this machine, which is asked for their number once it matters.
    All,
    Known(usize),
}

/// How many jobs each of so many commands runs at once, so that all have the processors to
/// themselves: an equal share, and at least one. With no commands it is one.
pub fn jobs_for(processors: usize, width: usize) -> usize
    ensures { result ≡ max 1 (processors / width) }
{
    processors.checked_div(width).unwrap_or(0).max(1)
}

/// The number of processors that this process may use, as the program `nproc` tells it; in a container
/// that has a quota of their time, no more than that allows.
pub fn count_processors<R: Processes + Files>(rt: &R, alloc: Global) -> Option<usize> {
    let told = told_by_nproc(rt, alloc).ok()?;
    let processors = number_in(told.as_slice())?;
    match told_by_cgroup(rt, alloc) {
        Ok(quota) => Some(within_quota(processors, quota.as_str())),
        Err(_) => Some(processors),
    }
}

fn told_by_cgroup<R: Files>(rt: &R, alloc: Global) -> io::Result<String> {
    let mut quota = String::new(alloc);
    fs::open(rt, "/sys/fs/cgroup/cpu.max")?.read_to_string(&mut quota)?;
    Ok(quota)
}

fn told_by_nproc<R: Processes>(rt: &R, alloc: Global) -> io::Result<Vec<u8>> {
    let mut nproc = Command::new(alloc, "nproc")?;
    // By these, too, it answers, and cargo doesn't.
    nproc.env_remove("OMP_NUM_THREADS")?;
    nproc.env_remove("OMP_THREAD_LIMIT")?;
    Ok(nproc.output(rt)?.stdout)
}

/// As many of the processors as a quota of their time allows, at least one: two numbers, how much of
/// each period may be used, or `max` in place of the first.
fn within_quota(processors: usize, quota: &str) -> usize {
    match quota.trim().split_once(' ') {
        Some((time, period)) => match (time.parse::<usize>(), period.parse::<usize>()) {
            (Ok(time), Ok(period)) => processors.min(jobs_for(time, period)),
            _ => processors,
        },
        None => processors,
    }
}

fn number_in(told: &[u8]) -> Option<usize> {
    let text = str::from_utf8(told).ok()?;
    text.trim().parse::<usize>().ok()
}
