//! The jobs of a row.

use std::alloc::{AllocError, Global};

/// A job. Its place is that among the jobs of its row.
#[derive(Clone, Copy)]
pub struct Task {
    /// How many pauses it takes.
    pub length: u64,
    pub fails: bool,
    pub can_start: bool,
    /// How many preparations stand before it.
    pub prepares: usize,
}

impl Task {
    /// Reads a number of pauses, perhaps with `x` and `!` behind it.
    fn parse(word: &str, prepares: usize) -> Option<Task> {
        let (word, fails) = without(word, "!");
        let (word, is_stuck) = without(word, "x");
        let length = word.parse::<u64>().ok()?;
        Some(Task {
            length,
            fails,
            can_start: !is_stuck,
            prepares,
        })
    }
}

/// A word without this end, and whether it had it.
fn without<'a>(word: &'a str, end: &str) -> (&'a str, bool) {
    match word.strip_suffix(end) {
        Some(rest) => (rest, true),
        None => (word, false),
    }
}

/// What a row tries.
#[derive(Drop)]
pub struct Course {
    /// How many jobs run at once.
    pub width: usize,
    /// Whether it goes on after a job that failed.
    pub keeps_going: bool,
    pub tasks: Vec<Task>,
    /// How many preparations there are.
    pub prepares: usize,
}

impl Course {
    /// Reads `WIDTH: JOB JOB ..`, perhaps behind `keep`.
    pub fn parse(alloc: Global, text: &str) -> Result<Option<Course>, AllocError> {
        let (keeps_going, text) = match text.strip_prefix("keep ") {
            Some(rest) => (true, rest),
            None => (false, text),
        };
        let Some((width, words)) = text.split_once(':') else {
            return Ok(None);
        };
        let Ok(width) = width.parse::<usize>() else {
            return Ok(None);
        };
        let mut course = Course {
            width,
            keeps_going,
            tasks: Vec::new(alloc),
            prepares: 0,
        };
        for word in words.split_whitespace() {
            if !course.push(word)? {
                return Ok(None);
            }
        }
        Ok(Some(course))
    }

    /// Adds a job or a preparation. False where the word is neither.
    fn push(&mut self, word: &str) -> Result<bool, AllocError> {
        if word == "prepare" {
            self.prepares = self.prepares.saturating_add(1);
            return Ok(true);
        }
        let Some(task) = Task::parse(word, self.prepares) else {
            return Ok(false);
        };
        self.tasks.push(task)?;
        Ok(true)
    }
}
