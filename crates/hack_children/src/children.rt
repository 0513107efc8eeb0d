//! Programs of the system that were started ahead of their turn. No contract says what they do;
//! tests check it.

ghost use Rattle.std.specs.Prelude.{◌≡◌, ◌<◌, [], IfSome, false, vec_len};

use crate::captures::{are_streams_one, nameless_file};
use crate::commands::{lane_command, lane_folder};
use crate::processors::{Processors, count_processors, jobs_for};
use crate::progress::Progress;
use crate::running::Running;
use hack_process::process::{Called, Caller, Child};
use hack_starts::starts::{Lane, Starts};
use std::alloc::{AllocError, Global};
use std::fs::File;
use std::io::{IsTerminal, Stderr, Stdout};
use std::process::{Processes, Stdio};
use std::rt::{Clock, Files};
use std::time::Duration;
use std::{io, thread};

/// How many milliseconds a pause has.
const PAUSE: u64 = 5;

/// Runs programs of the system as `Child` does, and starts others ahead of their turn. What such a
/// one writes goes into files, one where both standard streams of this process go to one, and to these
/// at its turn.
#[derive(Drop)]
pub struct Children<R: Processes + Files<File = File> + Clock + Drop> {
    rt: R,
    out: Stdout,
    err: Stderr,
    /// The folder for files that take what children write.
    scratch: String,
    /// The number of this process, which makes the names of these files its own.
    process: u32,
    processors: Processors,
    colors: bool,
    running: Vec<Running<R::Started>>,
    progress: Progress,
    /// Standard output didn't take all that children wrote.
    is_cut: bool,
}

impl<R: Processes + Files<File = File> + Clock + Drop> Children<R> {
    /// Starts programs by this handle of the runtime. What they write goes into files in the folder
    /// `scratch`, whose names have the number of this process in them, and are taken away before a
    /// program starts; at their turn it goes to these streams. A line on how far they are is shown
    /// where `err` is a terminal. Cargo decides on its jobs and colors.
    pub fn new(
        alloc: Global,
        rt: R,
        out: Stdout,
        err: Stderr,
        scratch: String,
        process: u32,
    ) -> Self
        ensures rt { result.rt ≡ rt }
        ensures streams { (result.out ≡ out) × (result.err ≡ err) }
        ensures files { (result.scratch ≡ scratch) × (result.process ≡ process) }
        ensures share { (result.processors ≡ Processors.Unshared) × (result.colors ≡ false) }
        ensures running { result.running.items ≡ [] }
        ensures whole { result.is_cut ≡ false }
    {
        Children {
            rt,
            out,
            err,
            scratch,
            process,
            processors: Processors::Unshared,
            colors: false,
            running: Vec::new(alloc),
            progress: Progress::new(),
            is_cut: false,
        }
    }

    /// Says which processors the cargos that are started from now on share, each with a part of
    /// the jobs, and whether they write colors.
    pub fn share(&mut self, processors: Processors, colors: bool)
        ensures { self.new ≡ record self.old { processors = processors; colors = colors } }
    {
        self.processors = processors;
        self.colors = colors;
    }

    /// Whether standard output didn't take all that children wrote which were started ahead.
    pub fn is_output_cut(&self) -> bool
        ensures { result ≡ self.now.is_cut }
    {
        self.is_cut
    }

    /// How many jobs each cargo has, of which so many run at once.
    fn jobs(&mut self, alloc: Global, count: usize) -> Option<usize> {
        if self.processors == Processors::All {
            self.processors = match count_processors(&self.rt, alloc) {
                Some(number) => Processors::Known(number),
                None => Processors::Unshared,
            };
        }
        match self.processors {
            Processors::Known(number) => Some(jobs_for(number, count)),
            Processors::Unshared | Processors::All => None,
        }
    }

    /// Makes a file for what the child of a place writes to a stream.
    fn capture(&self, alloc: Global, place: usize, stream: &str) -> io::Result<File> {
        let scratch = self.scratch.as_str();
        let process = self.process;
        let path = format!(in alloc; "{scratch}/cargo-hack-{process}-{place}.{stream}")?;
        nameless_file(&self.rt, path.as_str())
    }

    fn spawn(
        &self,
        alloc: Global,
        place: usize,
        target: Option<&str>,
        jobs: Option<usize>,
        program: &str,
        words: &[String],
    ) -> io::Result<Running<R::Started>> {
        let mut command = lane_command(alloc, program, words, target, jobs, self.colors)?;
        let output = self.capture(alloc, place, "out")?;
        let errors = if are_streams_one(&self.rt) {
            None
        } else {
            Some(self.capture(alloc, place, "err")?)
        };
        command.stdin(Stdio::null());
        command.stdout(output.try_clone()?);
        command.stderr(errors.as_ref().unwrap_or(&output).try_clone()?);
        let child = command.spawn(&self.rt)?;
        Ok(Running {
            place,
            child,
            output,
            errors,
        })
    }

    /// Where the child of a place is among those that run.
    fn index_of(&self, place: usize) -> Option<usize>
        ensures { IfSome result (λ i. i < vec_len self.now.running) }
    {
        for i in 0..self.running.len() {
            if self.running[i].place == place {
                return Some(i);
            }
        }
        None
    }

    /// Takes the child of a place from those that run.
    fn take(&mut self, place: usize) -> Option<Running<R::Started>> {
        let i = self.index_of(place)?;
        Some(self.running.remove(i))
    }
}

impl<R: Processes + Files<File = File> + Clock + Drop> Caller for Children<R> {
    ghost tells = { ⊥ };

    ghost calls = { λ _. [] };

    ghost course = { λ _ _. Unit {0} };

    ghost course_none = { λ _. tt };

    ghost course_more = { λ _ _ _ _ _. tt };

    fn call(
        &mut self,
        alloc: Global,
        program: &str,
        words: &[String],
        capture: bool,
    ) -> Result<Called, AllocError> {
        self.progress.erase(&mut self.err);
        Child::new(&self.rt).call(alloc, program, words, capture)
    }
}

impl<R: Processes + Files<File = File> + Clock + Drop> Starts for Children<R> {
    ghost did = { λ _ _ _. Unit {0} };

    ghost did_none = { λ _. tt };

    ghost did_more = { λ _ _ _ _ _ _ _. tt };

    ghost did_calls = { λ _ _ _ _ told. elim told [ ] };

    fn perform(
        &mut self,
        alloc: Global,
        program: &str,
        words: &[String],
        capture: bool,
    ) -> Result<Called, AllocError> {
        self.call(alloc, program, words, capture)
    }

    fn start(
        &mut self,
        alloc: Global,
        place: usize,
        lane: Lane<'_>,
        program: &str,
        words: &[String],
    ) -> bool {
        if self.running.reserve(1).is_err() {
            return false;
        }
        let Ok(target) = lane_folder(alloc, lane.folder, lane.number) else {
            return false;
        };
        let target = target.as_ref().map(|target| target.as_str());
        let jobs = self.jobs(alloc, lane.count);
        match self.spawn(alloc, place, target, jobs, program, words) {
            Ok(running) => self.running.push(running).is_ok(),
            Err(_) => false,
        }
    }

    fn has_ended(&mut self, place: usize) -> bool {
        let Some(i) = self.index_of(place) else {
            return false;
        };
        let has_ended = self.running[i].has_ended();
        if has_ended {
            // Others may write to the terminal now, before `finish`.
            self.progress.erase(&mut self.err);
        }
        has_ended
    }

    fn finish(
        &mut self,
        alloc: Global,
        place: usize,
        _program: &str,
        _words: &[String],
    ) -> Result<Called, AllocError> {
        let Some(mut running) = self.take(place) else {
            // Nothing was started there.
            return Err(AllocError);
        };
        let end = running.wait();
        self.progress.erase(&mut self.err);
        let is_whole = running.show(&mut self.out, &mut self.err);
        self.is_cut = self.is_cut || !is_whole;
        Ok(Called::silent(alloc, end))
    }

    fn abandon(&mut self, alloc: Global, place: usize) {
        self.progress.erase(&mut self.err);
        if let Some(mut running) = self.take(place) {
            running.end(&self.rt, alloc);
        }
    }

    fn pause(&mut self, _alloc: Global, ended: usize, running: usize) {
        thread::sleep(&self.rt, Duration::from_millis(PAUSE));
        if self.err.is_terminal() {
            self.progress.pause(ended, running, &mut self.err);
        }
    }
}
