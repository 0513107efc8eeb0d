//! Jobs in memory, which are started ahead of their turn and take no time: a pause is counted.

ghost use Rattle.std.specs.Prelude.{[]};
ghost use Rattle.hack_process.specs.Calls.{WroteNothing, answer_of};

use crate::course::Task;
use hack_process::process::{Called, Caller, End};
use hack_starts::starts::{Lane, Starts};
use std::alloc::{AllocError, Global};

/// A job, and while it runs the count of pauses from which on it has ended.
#[derive(Clone, Copy)]
struct Running {
    task: Task,
    end: Option<u64>,
}

/// Runs the jobs of a row, and notes what happens in one line. Where memory is refused, a note is
/// missing.
#[derive(Drop)]
pub struct Memory {
    jobs: Vec<Running>,
    pauses: u64,
    notes: String,
}

impl Memory {
    /// These jobs, none of which runs.
    pub fn new(alloc: Global, tasks: &[Task]) -> Result<Memory, AllocError> {
        let mut jobs = Vec::new(alloc);
        for task in tasks {
            jobs.push(Running {
                task: *task,
                end: None,
            })?;
        }
        Ok(Memory {
            jobs,
            pauses: 0,
            notes: String::new(alloc),
        })
    }

    /// What happened, with a space before each word.
    pub fn notes(&self) -> &str {
        self.notes.as_str()
    }

    fn note(&mut self, alloc: Global, mark: &str, place: usize) {
        if let Ok(word) = format!(in alloc; " {mark}{place}") {
            let _ = self.notes.push_str(word.as_str());
        }
    }

    fn note_start(&mut self, alloc: Global, place: usize, lane: usize) {
        if let Ok(word) = format!(in alloc; " s{place}/{lane}") {
            let _ = self.notes.push_str(word.as_str());
        }
    }

    /// Notes that a command was run by itself: the job of a place, or a preparation.
    fn note_run(&mut self, alloc: Global, place: Option<usize>) {
        match place {
            Some(place) => self.note(alloc, "r", place),
            None => {
                let _ = self.notes.push_str(" r");
            }
        }
    }

    /// Lets a job run, where it can be started and doesn't run.
    fn launch(&mut self, place: usize) -> bool {
        if place >= self.jobs.len() {
            return false;
        }
        let Running { task, end } = self.jobs[place];
        if end.is_some() || !task.can_start {
            return false;
        }
        self.jobs[place] = Running {
            task,
            end: Some(self.pauses.saturating_add(task.length)),
        };
        true
    }

    /// Whether a job was started, wasn't taken away, and has had its pauses.
    fn is_over(&self, place: usize) -> bool {
        match self.jobs.get(place) {
            Some(Running { end: Some(end), .. }) => *end <= self.pauses,
            _ => false,
        }
    }

    /// Lets a job run no more, and returns whether it did.
    fn stop(&mut self, place: usize) -> bool {
        if place >= self.jobs.len() {
            return false;
        }
        let Running { task, end } = self.jobs[place];
        self.jobs[place] = Running { task, end: None };
        end.is_some()
    }

    /// Runs a command by itself: the job that these are the arguments of, or a preparation.
    fn run(&mut self, alloc: Global, words: &[String]) -> Called
        ensures { WroteNothing (answer_of result) }
    {
        let place = place_in(words);
        self.note_run(alloc, place);
        let end = match place {
            Some(place) => self.end_of(place),
            None => End::Status(0),
        };
        Called::silent(alloc, end)
    }

    /// How the job of a place ends.
    fn end_of(&self, place: usize) -> End {
        match self.jobs.get(place) {
            Some(job) if job.task.fails => End::Status(1),
            _ => End::Status(0),
        }
    }
}

/// The place of the job that these are the arguments of.
fn place_in(words: &[String]) -> Option<usize> {
    let word = words.first()?;
    word.as_str().parse::<usize>().ok()
}

impl Caller for Memory {
    ghost tells = { ⊥ };

    ghost calls = { λ _. [] };

    ghost course = { λ _ _. Unit {0} };

    ghost course_none = { λ _. tt };

    ghost course_more = { λ _ _ _ _ _. tt };

    fn call(
        &mut self,
        alloc: Global,
        _program: &str,
        words: &[String],
        _capture: bool,
    ) -> Result<Called, AllocError> {
        Ok(self.run(alloc, words))
    }
}

impl Starts for Memory {
    ghost did = { λ _ _ _. Unit {0} };

    ghost did_none = { λ _. tt };

    ghost did_more = { λ _ _ _ _ _ _ _. tt };

    ghost did_calls = { λ _ _ _ _ told. elim told [ ] };

    fn perform(
        &mut self,
        alloc: Global,
        _program: &str,
        words: &[String],
        _capture: bool,
    ) -> Result<Called, AllocError> {
        Ok(self.run(alloc, words))
    }

    fn start(
        &mut self,
        alloc: Global,
        place: usize,
        lane: Lane<'_>,
        _program: &str,
        _words: &[String],
    ) -> bool {
        let is_started = self.launch(place);
        if is_started {
            self.note_start(alloc, place, lane.number);
        }
        is_started
    }

    fn has_ended(&mut self, place: usize) -> bool {
        let is_over = self.is_over(place);
        if is_over {
            let alloc = *self.notes.allocator();
            self.note(alloc, "e", place);
        }
        is_over
    }

    fn finish(
        &mut self,
        alloc: Global,
        place: usize,
        _program: &str,
        _words: &[String],
    ) -> Result<Called, AllocError> {
        self.note(alloc, "t", place);
        if !self.stop(place) {
            // Nothing was started there.
            return Err(AllocError);
        }
        Ok(Called::silent(alloc, self.end_of(place)))
    }

    fn abandon(&mut self, alloc: Global, place: usize) {
        self.note(alloc, "a", place);
        let _ = self.stop(place);
    }

    fn pause(&mut self, _alloc: Global, _ended: usize, _running: usize) {
        self.pauses = self.pauses.saturating_add(1);
    }
}
