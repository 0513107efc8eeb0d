//! Scripts of the shell, run at once or ahead of their turn.

use hack_base::copies::copies;
use hack_process::process::Called;
use hack_starts::starts::{Lane, Starts};
use std::alloc::{AllocError, Global};
use std::str;

/// Runs scripts by a starter.
#[derive(Drop)]
pub struct Shells<S: Starts + Drop> {
    pub starts: S,
    folder: String,
}

impl<S: Starts + Drop> Shells<S> {
    /// Scripts for which this folder is `$1`.
    pub fn new(starts: S, folder: String) -> Self {
        Shells { starts, folder }
    }

    fn words(&self, alloc: Global, script: &str) -> Result<Vec<String>, AllocError> {
        let folder = self.folder.as_str();
        copies(alloc, &["-c", script, "sh", folder])
    }

    /// Runs a script to its end, and returns the text that it wrote, without line feeds at its end.
    pub fn read(&mut self, alloc: Global, script: &str) -> Result<String, AllocError> {
        let words = self.words(alloc, script)?;
        let called = self.starts.perform(alloc, "sh", &words, true)?;
        text_in(alloc, &called)
    }

    /// Runs a script to its end. It writes to the streams of this process.
    pub fn run(&mut self, alloc: Global, script: &str) -> Result<(), AllocError> {
        let words = self.words(alloc, script)?;
        self.starts.perform(alloc, "sh", &words, false)?;
        Ok(())
    }

    /// Starts a script, which builds below the folder `built`, and returns whether it was started.
    pub fn start(
        &mut self,
        alloc: Global,
        place: usize,
        lane: usize,
        script: &str,
    ) -> Result<bool, AllocError> {
        let words = self.words(alloc, script)?;
        Ok(self.starts.start(alloc, place, lane_at(lane), "sh", &words))
    }

    /// Waits until the script at a place has ended, for a minute at most. It is not told by that.
    pub fn wait(&mut self, alloc: Global, place: usize) -> bool {
        for _ in 0..12_000 {
            if self.starts.has_ended(place) {
                return true;
            }
            self.starts.pause(alloc, 0, 1);
        }
        false
    }

    /// Waits for the script at a place, which has written by then what it wrote, and returns how it
    /// ended.
    pub fn finish(&mut self, alloc: Global, place: usize) -> Result<String, AllocError> {
        match self.starts.finish(alloc, place, "sh", &[]) {
            Ok(called) => {
                let end = called.end;
                format!(in alloc; "{end}")
            }
            Err(_) => String::from_str(alloc, "no outcome"),
        }
    }
}

/// The text that a program wrote, without line feeds at its end.
pub fn text_in(alloc: Global, called: &Called) -> Result<String, AllocError> {
    match str::from_utf8(called.stdout.as_slice()) {
        Ok(text) => String::from_str(alloc, text.trim_end_matches('\n')),
        Err(_) => String::from_str(alloc, "no text"),
    }
}

/// One of four lanes below the folder `built`.
pub fn lane_at(number: usize) -> Lane<'static> {
    Lane {
        number,
        count: 4,
        folder: "built",
    }
}
