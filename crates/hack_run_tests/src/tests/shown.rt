//! What is shown of a scene after a call, section by section; empty ones are left out.

use crate::tests::scene::Scene;
use crate::tests::world::{ASKED, push_all};
use hack_files::fs::FileChange;
use hack_process::process::FakeCaller;
use std::alloc::{AllocError, Global};

/// The calls, one line for each.
pub fn push_calls(text: &mut String, alloc: Global, caller: &FakeCaller) -> Result<(), AllocError> {
    let mut calls = String::new(alloc);
    for made in caller.made() {
        calls.push_str(format!(in alloc; "{made}\n")?.as_str())?;
    }
    match calls.as_str().strip_prefix(ASKED) {
        Some(rest) => push_all(text, &["asked\n", rest]),
        None => text.push_str(calls.as_str()),
    }
}

/// What was written, after its name.
pub fn push_bytes(
    text: &mut String,
    alloc: Global,
    name: &'static str,
    bytes: &[u8],
) -> Result<(), AllocError> {
    if bytes.is_empty() {
        return Ok(());
    }
    let written = String::from_utf8_lossy(alloc, bytes)?;
    push_all(text, &[name, written.as_str()])
}

fn push_change(text: &mut String, alloc: Global, step: &FileChange) -> Result<(), AllocError> {
    push_all(text, &[step.path.as_str(), ":\n"])?;
    match &step.bytes {
        Some(bytes) => push_bytes(text, alloc, "", bytes.as_slice()),
        None => text.push_str("removed\n"),
    }
}

/// The changes from one index up to another: a path, and what it holds from then on.
pub fn push_changes(
    text: &mut String,
    alloc: Global,
    steps: &[FileChange],
    first: usize,
    end: usize,
) -> Result<(), AllocError> {
    for (place, step) in steps.iter().enumerate() {
        if first <= place && place < end {
            push_change(text, alloc, step)?;
        }
    }
    Ok(())
}

/// The errors among the lines.
fn push_errors(text: &mut String, alloc: Global, bytes: &[u8]) -> Result<(), AllocError> {
    let written = String::from_utf8_lossy(alloc, bytes)?;
    for line in written.as_str().lines() {
        if line.starts_with("error: ") {
            push_all(text, &[line, "\n"])?;
        }
    }
    Ok(())
}

/// How many calls were made after the questions.
fn push_count(text: &mut String, alloc: Global, caller: &FakeCaller) -> Result<(), AllocError> {
    let count = caller.made().len().saturating_sub(ASKED.lines().count());
    text.push_str(format!(in alloc; "{count} runs\n")?.as_str())
}

/// The lines but for those on runs.
fn push_report(text: &mut String, alloc: Global, bytes: &[u8]) -> Result<(), AllocError> {
    let written = String::from_utf8_lossy(alloc, bytes)?;
    for line in written.as_str().lines() {
        if !line.is_empty() && !line.starts_with("info: running ") {
            push_all(text, &[line, "\n"])?;
        }
    }
    Ok(())
}

/// Whether the last change of a path left it as this step did.
fn is_back(steps: &[FileChange], first: &FileChange) -> bool {
    let mut is_back = false;
    for step in steps {
        if step.path.as_str() == first.path.as_str() {
            is_back = step.bytes == first.bytes;
        }
    }
    is_back
}

/// The paths whose contents differ from those at first, one line for each.
fn push_left(text: &mut String, steps: &[FileChange], first: usize) -> Result<(), AllocError> {
    for (place, step) in steps.iter().enumerate() {
        if place < first && !is_back(steps, step) {
            push_all(text, &["left ", step.path.as_str(), "\n"])?;
        }
    }
    Ok(())
}

/// A section: `calls`, or how many runs they `count`, `err` and `out`, the `errors` among the lines of
/// `err`, or its `report`, the `changes` of files, and the paths that are `left` with contents that
/// differ from those at first.
fn push_section(
    text: &mut String,
    alloc: Global,
    scene: &Scene,
    section: &str,
) -> Result<(), AllocError> {
    let steps = scene.files.inner().steps();
    match section {
        "calls" => push_calls(text, alloc, &scene.caller),
        "err" => push_bytes(text, alloc, "err\n", scene.err.as_slice()),
        "out" => push_bytes(text, alloc, "out\n", scene.out.inner().as_slice()),
        "errors" => push_errors(text, alloc, scene.err.as_slice()),
        "count" => push_count(text, alloc, &scene.caller),
        "report" => push_report(text, alloc, scene.err.as_slice()),
        "changes" => push_changes(text, alloc, steps, scene.first, steps.len()),
        "left" => push_left(text, steps, scene.first),
        _ => text.push_str("no such section\n"),
    }
}

/// The sections with these names.
pub fn push_sections(
    text: &mut String,
    alloc: Global,
    scene: &Scene,
    sections: &str,
) -> Result<(), AllocError> {
    for section in sections.split_whitespace() {
        push_section(text, alloc, scene, section)?;
    }
    Ok(())
}
