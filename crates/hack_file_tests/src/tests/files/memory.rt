//! Files in memory. Besides the questions of all files there are `changes`, how many were made, and
//! `list of changes`.

use crate::tests::files::{CALLS, answer_over, hold_over};
use crate::tests::text::number;
use hack_files::fs::MemoryFiles;
use hack_holds::{Ask, Wrong, hold};
use std::alloc::{AllocError, Global};

/// Answers a question about files in memory.
pub fn in_memory(
    alloc: Global,
    files: &mut MemoryFiles,
    question: &str,
) -> Result<String, AllocError> {
    match question {
        "changes" => number(alloc, files.steps().len() as u64),
        "list of changes" => format!(in alloc; "{:?}", files.steps()),
        _ => answer_over(alloc, files, "", question),
    }
}

#[derive(Drop)]
struct InMemory {
    files: MemoryFiles,
}

impl Ask for InMemory {
    fn answer(&mut self, alloc: Global, question: &str) -> Result<String, AllocError> {
        in_memory(alloc, &mut self.files, question)
    }
}

#[test]
fn files_in_memory_by_the_table(rt: HostRuntime) -> Result<(), Wrong> {
    hold_over(rt.alloc(), MemoryFiles::new(rt.alloc()), CALLS)
}

#[test]
fn each_change_is_kept(rt: HostRuntime) -> Result<(), Wrong> {
    let files = MemoryFiles::new(rt.alloc());
    hold(
        rt.alloc(),
        &mut InMemory { files },
        r#"
            > list of changes
            | []
            > write a 1
            | ok
            > read b
            | device
            > remove a
            | ok
            > list of changes
            | [FileChange { path: "a", bytes: Some([49]) }, FileChange { path: "a", bytes: None }]
        "#,
    )
}
