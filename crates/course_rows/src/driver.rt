//! Goes through the jobs of a row in order, as a session does through the runs of a plan.

use crate::course::{Course, Task};
use crate::memory::Memory;
use hack_base::copies::copies;
use hack_lanes::job::Job;
use hack_lanes::lanes::Lanes;
use hack_lanes::turns::Turns;
use hack_lanes::window::Window;
use std::alloc::{AllocError, Global};

const PROGRAM: &str = "job";

/// What happens in the course of a row, with a space before each word.
pub fn events(alloc: Global, course: &Course) -> Result<String, AllocError> {
    let mut memory = Memory::new(alloc, &course.tasks)?;
    let mut window = Window::new(alloc, course.width, String::new(alloc));
    let mut lanes = Lanes {
        starts: &mut memory,
        window: &mut window,
    };
    drive(alloc, course, &mut lanes)?;
    window.clear(alloc, &mut memory);
    String::from_str(alloc, memory.notes())
}

/// Calls each job at its turn and each preparation, until a job fails.
fn drive<L: Turns>(alloc: Global, course: &Course, lanes: &mut L) -> Result<(), AllocError> {
    let mut prepared = 0;
    for place in 0..course.tasks.len() {
        let prepares = course.tasks[place].prepares;
        prepare(alloc, prepared, prepares, lanes)?;
        prepared = prepares;
        give_turn(alloc, &course.tasks, place, lanes)?;
        let succeeds = call_job(alloc, place, lanes)?;
        lanes.take_turn();
        if !succeeds && !course.keeps_going {
            return Ok(());
        }
    }
    prepare(alloc, prepared, course.prepares, lanes)
}

/// Makes the preparations from one number up to another.
fn prepare<L: Turns>(
    alloc: Global,
    first: usize,
    end: usize,
    lanes: &mut L,
) -> Result<(), AllocError> {
    for _ in first..end {
        lanes.call(alloc, "prepare", &[], false)?;
    }
    Ok(())
}

/// Gives a job its turn, where several run at once.
fn give_turn<L: Turns>(
    alloc: Global,
    tasks: &[Task],
    place: usize,
    lanes: &mut L,
) -> Result<(), AllocError> {
    if lanes.width() <= 1 {
        lanes.take_turn();
        return Ok(());
    }
    let first = match lanes.last() {
        Some(last) => place.max(last.saturating_add(1)),
        None => place,
    };
    let offers = offers(alloc, tasks, place, first, lanes.room())?;
    lanes.give_turn(place, offers);
    Ok(())
}

/// So many jobs at most, from the first one on, that no preparation parts from this place.
fn offers(
    alloc: Global,
    tasks: &[Task],
    place: usize,
    first: usize,
    room: usize,
) -> Result<Vec<Job>, AllocError> {
    let mut offers = Vec::new(alloc);
    for other in first..tasks.len() {
        if offers.len() >= room || !are_together(tasks, place, other) {
            return Ok(offers);
        }
        offers.push(job(alloc, other)?)?;
    }
    Ok(offers)
}

/// Whether no preparation parts two jobs.
fn are_together(tasks: &[Task], place: usize, other: usize) -> bool {
    match (tasks.get(place), tasks.get(other)) {
        (Some(task), Some(other)) => task.prepares == other.prepares,
        _ => false,
    }
}

/// The command of a job, whose argument is its place.
fn job(alloc: Global, place: usize) -> Result<Job, AllocError> {
    Ok(Job {
        place,
        program: String::from_str(alloc, PROGRAM)?,
        words: words(alloc, place)?,
    })
}

fn words(alloc: Global, place: usize) -> Result<Vec<String>, AllocError> {
    let word = format!(in alloc; "{place}")?;
    copies(alloc, &[word.as_str()])
}

/// Calls the command of a job, and returns whether it succeeds.
fn call_job<L: Turns>(alloc: Global, place: usize, lanes: &mut L) -> Result<bool, AllocError> {
    let words = words(alloc, place)?;
    let called = lanes.call(alloc, PROGRAM, &words, false);
    match called {
        Ok(called) => Ok(called.end.is_success()),
        Err(_) => Ok(false),
    }
}
