//! A call that edits files with a journal at `j`, and the next call, which restores what the first
//! had edited.
//!
//! A question about files is one of files in memory, `recover` or `row`, and begins with their place:
//!
//! - `below: ..`: those under the journal, before the call and after it.
//! - `lockfiles: ..`: those of the lockfiles, which are separate.
//! - `apart: ..`: both together, where all but the lockfiles are under the journal.
//! - `front: ..`: those that the first changes leave.
//!
//! Without a place it is about the files over the journal. `begin` takes the files below into a
//! call, `finish` asks whether no journal is left, and `end` gives the files below back. `cut N`
//! makes the files that the first N changes leave, and `front N` recovers these too: it shows the
//! paths that were restored, or the error, and the contents at the paths. `row` shows what is read of
//! a journal. `begin`, `recover` and `row` may be followed by the folder that the journal lies in. The
//! modules below have more questions.

mod apart;
mod failing;
mod fronts;
mod row;
mod spelled;

use crate::tests::files::memory::in_memory;
use crate::tests::files::{answer, held, truth};
use crate::tests::journal::failing::left;
use crate::tests::journal::spelled::{entries, spelled, torn};
use hack_base::paths::join;
use hack_files::fs::{FileChange, FileFault, Files, JournalFiles, MemoryFiles};
use hack_holds::{Ask, Wrong, hold};
use hack_journal::apart::Apart;
use hack_journal::journaled::Journaled;
use hack_journal::place::JournalPlace;
use hack_journal::recover::recover;
use hack_journal::rows::row_at;
use std::alloc::{AllocError, Global};
use std::mem;

/// The journal `j` in a folder.
fn place(alloc: Global, folder: &str) -> Result<JournalPlace, AllocError> {
    Ok(JournalPlace {
        folder: String::from_str(alloc, folder)?,
        journal: join(alloc, folder, "j")?,
    })
}

/// These files with a journal over them, in this folder.
fn journaled<F: JournalFiles + Drop>(
    alloc: Global,
    files: F,
    folder: &str,
) -> Result<Journaled<F, u64>, AllocError> {
    Ok(Journaled::new(alloc, files, place(alloc, folder)?, 0u64))
}

/// The files that these steps make.
fn replayed(alloc: Global, steps: &[FileChange]) -> Result<MemoryFiles, FileFault> {
    let mut files = MemoryFiles::new(alloc);
    for step in steps {
        match &step.bytes {
            Some(bytes) => files.write(&step.path, bytes)?,
            None => files.remove(&step.path)?,
        }
    }
    Ok(files)
}

/// The paths that were restored, or the error.
fn recovered<F: JournalFiles>(
    alloc: Global,
    files: &mut F,
    folder: &str,
) -> Result<String, AllocError> {
    let place = place(alloc, folder)?;
    match recover(alloc, files, &place) {
        Ok(paths) if paths.is_empty() => String::from_str(alloc, "nothing"),
        Ok(paths) => paths.join(alloc, " "),
        Err(fault) => format!(in alloc; "{fault}"),
    }
}

/// The row of a journal, or the error.
fn row_in<F: Files>(alloc: Global, files: &mut F, folder: &str) -> Result<String, AllocError> {
    let place = place(alloc, folder)?;
    match row_at(alloc, files, &place) {
        Ok(row) => format!(in alloc; "{row:?}"),
        Err(fault) => format!(in alloc; "{fault}"),
    }
}

/// Answers a question about files in memory or their recovery.
fn memory(alloc: Global, files: &mut MemoryFiles, question: &str) -> Result<String, AllocError> {
    let (kind, folder) = question.split_once(' ').unwrap_or((question, ""));
    match kind {
        "recover" => recovered(alloc, files, folder),
        "row" => row_in(alloc, files, folder),
        _ => in_memory(alloc, files, question),
    }
}

#[derive(Drop)]
struct Call {
    over: Apart<Journaled<MemoryFiles, u64>, MemoryFiles>,
    below: MemoryFiles,
    front: MemoryFiles,
}

impl Call {
    fn begin(&mut self, alloc: Global, folder: &str) -> Result<String, AllocError> {
        let below = mem::replace(&mut self.below, MemoryFiles::new(alloc));
        let files = journaled(alloc, below, folder)?;
        let lockfiles = mem::replace(&mut self.over.lockfiles, MemoryFiles::new(alloc));
        self.over = Apart::new(files, lockfiles);
        String::from_str(alloc, "ok")
    }

    fn end(&mut self, alloc: Global) -> Result<String, AllocError> {
        let none = journaled(alloc, MemoryFiles::new(alloc), "")?;
        self.below = mem::replace(&mut self.over.files, none).into_inner().0;
        String::from_str(alloc, "ok")
    }

    fn cut(&mut self, alloc: Global, count: &str) -> Result<String, AllocError> {
        let count = count.parse::<usize>().unwrap_or(0);
        let steps = self.below.steps().get(..count).unwrap_or(&[]);
        match replayed(alloc, steps) {
            Ok(files) => {
                self.front = files;
                String::from_str(alloc, "ok")
            }
            Err(_) => String::from_str(alloc, "memory"),
        }
    }

    fn front(&mut self, alloc: Global, count: &str) -> Result<String, AllocError> {
        self.cut(alloc, count)?;
        let told = recovered(alloc, &mut self.front, "")?;
        let held = held(
            alloc,
            &mut self.front,
            "a/Cargo.toml b/Cargo.toml c/Cargo.toml j j~1",
        )?;
        format!(in alloc; "{told}\n{held}")
    }

    /// Answers a question that begins without a place.
    fn step(&mut self, alloc: Global, question: &str) -> Result<String, AllocError> {
        let (kind, rest) = question.split_once(' ').unwrap_or((question, ""));
        match kind {
            "begin" => self.begin(alloc, rest),
            "finish" => truth(alloc, self.over.files.finish()),
            "end" => self.end(alloc),
            "cut" => self.cut(alloc, rest),
            "front" => self.front(alloc, rest),
            "edit" => left(alloc, rest),
            "spell" => spelled(alloc, rest),
            "entries" => entries(alloc, rest),
            "torn" => torn(alloc, rest),
            _ => answer(alloc, &mut self.over.files, "", question),
        }
    }
}

impl Ask for Call {
    fn answer(&mut self, alloc: Global, question: &str) -> Result<String, AllocError> {
        match question.split_once(": ") {
            Some(("below", rest)) => memory(alloc, &mut self.below, rest),
            Some(("front", rest)) => memory(alloc, &mut self.front, rest),
            Some(("lockfiles", rest)) => memory(alloc, &mut self.over.lockfiles, rest),
            Some(("apart", rest)) => answer(alloc, &mut self.over, "", rest),
            _ => self.step(alloc, question),
        }
    }
}

/// Checks the parts of a script in turn, beginning without files.
fn on(alloc: Global, parts: &[&str]) -> Result<(), Wrong> {
    let mut call = Call {
        over: Apart::new(
            journaled(alloc, MemoryFiles::new(alloc), "")?,
            MemoryFiles::new(alloc),
        ),
        below: MemoryFiles::new(alloc),
        front: MemoryFiles::new(alloc),
    };
    for rows in parts {
        hold(alloc, &mut call, rows)?;
    }
    Ok(())
}
