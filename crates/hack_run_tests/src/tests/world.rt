//! Worlds as text: the files of a workspace in the folder `/w`, and what is answered there.
//!
//! - `members p /w/p/Cargo.toml, q! /w/q/Cargo.toml`: the members with their manifests; `q` is
//!   private. They have the `features a b`, the optional dependencies `optional d`, and the
//!   rust-version `own "1.61"`.
//! - `file: PATH`: a file, whose lines follow, each after `|`. A line `+ features` is a line for
//!   each feature.
//! - `fails STATUS LINE`, `missing LINE`, `says LINE = TEXT` and `writes LINE = TEXT`: a command
//!   that fails, one whose program isn't there, and one that writes a text, with a line feed or
//!   without one. The first line about a command counts.
//! - `no cargo`, `deny warnings`, `on github` and `colors always`: the environment.
//! - `broken call N` and `broken write N`: the call of the files and the write to the output that
//!   fail.

use hack_files::fs::{Files, MemoryFiles};
use hack_process::process::{End, FakeCaller};
use hack_term::term::Coloring;
use hack_words::cli::Env;
use std::alloc::{AllocError, Global};

/// The questions of each call after its arguments are read, one line each. They are shown as
/// `asked`.
pub const ASKED: &str = "cargo -vV
rustup run stable cargo -vV
cargo metadata --format-version=1 --no-deps
cargo locate-project
";

/// What commands write in each world.
static ANSWERS: [(&str, &str); 5] = [
    ("rustup --version", "rustup 1.27.1 (54dd3d00f 2024-04-24)\n"),
    ("cargo -vV", "cargo 1.90.0\nrelease: 1.90.0\nhost: h\n"),
    (
        "rustup run stable cargo -vV",
        "cargo 1.90.0\nrelease: 1.90.0\nhost: h\n",
    ),
    ("cargo locate-project", "{\"root\":\"/w/Cargo.toml\"}\n"),
    (
        "cargo locate-project --manifest-path m",
        "{\"root\":\"/w/Cargo.toml\"}\n",
    ),
];

/// Appends the parts to the text.
pub fn push_all(text: &mut String, parts: &[&str]) -> Result<(), AllocError> {
    for part in parts {
        text.push_str(part)?;
    }
    Ok(())
}

fn behind<'a>(line: &'a str, word: &str) -> Option<&'a str> {
    line.strip_prefix(word)?.strip_prefix(" ")
}

/// The text after this word in the first line that begins with it; empty where there is none.
pub fn given<'a>(world: &'a str, word: &str) -> &'a str {
    for line in world.lines() {
        if let Some(rest) = behind(line.trim_start(), word) {
            return rest;
        }
    }
    ""
}

/// The number after the word in the first line that begins with it, or 0.
pub fn number(world: &str, word: &str) -> u64 {
    given(world, word).parse::<u64>().unwrap_or(0)
}

/// What is given, separated by semicolons, followed by the world below.
pub fn world_of(alloc: Global, givens: &str, below: &str) -> Result<String, AllocError> {
    let mut world = String::new(alloc);
    for line in givens.split("; ") {
        push_all(&mut world, &[line, "\n"])?;
    }
    world.push_str(below)?;
    Ok(world)
}

fn push_between(text: &mut String, place: usize, between: &'static str) -> Result<(), AllocError> {
    if place == 0 {
        Ok(())
    } else {
        text.push_str(between)
    }
}

/// Appends names to the text, each with a prefix and a suffix, and a separator between them.
fn push_each(
    text: &mut String,
    names: &str,
    between: &'static str,
    front: &'static str,
    end: &'static str,
) -> Result<(), AllocError> {
    for (place, name) in names.split_whitespace().enumerate() {
        push_between(text, place, between)?;
        push_all(text, &[front, name, end])?;
    }
    Ok(())
}

/// A member's name without its mark, and whether it is private.
fn name_of(member: &str) -> (&str, bool) {
    let name = member.split_once(' ').unwrap_or((member, "")).0;
    match name.strip_suffix("!") {
        Some(name) => (name, true),
        None => (name, false),
    }
}

/// What cargo reports of the features and optional dependencies of each member.
fn push_features(text: &mut String, world: &str) -> Result<(), AllocError> {
    let end = r#"","optional":true,"rename":null}"#;
    push_each(text, given(world, "optional"), ",", r#"{"name":""#, end)?;
    text.push_str(r#"],"features":{"#)?;
    push_each(text, given(world, "features"), ",", "\"", "\":[]")
}

/// What cargo reports of a member.
fn push_package(text: &mut String, world: &str, member: &str) -> Result<(), AllocError> {
    let (name, is_private) = name_of(member);
    let path = member.split_once(' ').unwrap_or((member, "")).1;
    let publish = if is_private { "[]" } else { "null" };
    push_all(text, &[r#"{"id":""#, name, r#"","name":""#, name])?;
    text.push_str(r#"","version":"0.1.0","dependencies":["#)?;
    push_features(text, world)?;
    push_all(text, &[r#"},"manifest_path":""#, path])?;
    push_all(text, &[r#"","publish":"#, publish, r#","rust_version":"#])?;
    text.push_str(own_of(world))?;
    text.push_str("}")
}

/// The rust-version of each member, as JSON.
fn own_of(world: &str) -> &str {
    match given(world, "own") {
        "" => "null",
        own => own,
    }
}

fn push_packages(text: &mut String, world: &str) -> Result<(), AllocError> {
    for (place, member) in given(world, "members").split(", ").enumerate() {
        push_between(text, place, ",")?;
        push_package(text, world, member)?;
    }
    Ok(())
}

fn push_ids(text: &mut String, world: &str) -> Result<(), AllocError> {
    for (place, member) in given(world, "members").split(", ").enumerate() {
        push_between(text, place, ",")?;
        push_all(text, &["\"", name_of(member).0, "\""])?;
    }
    Ok(())
}

/// What cargo reports of the workspace.
fn metadata(alloc: Global, world: &str) -> Result<String, AllocError> {
    let mut text = String::from_str(alloc, r#"{"packages":["#)?;
    push_packages(&mut text, world)?;
    text.push_str(r#"],"workspace_members":["#)?;
    push_ids(&mut text, world)?;
    text.push_str(r#"],"resolve":null,"workspace_root":"/w"}"#)?;
    Ok(text)
}

fn answer_failing(caller: &mut FakeCaller, rest: &str) -> Result<(), AllocError> {
    let (status, line) = rest.split_once(' ').unwrap_or((rest, ""));
    let status = status.parse::<i32>().unwrap_or(0);
    caller.answer(line, End::Status(status), b"", b"")
}

fn answer_text(
    alloc: Global,
    caller: &mut FakeCaller,
    rest: &str,
    end: &'static str,
) -> Result<(), AllocError> {
    let (line, text) = rest.split_once(" = ").unwrap_or((rest, ""));
    let mut text = String::from_str(alloc, text)?;
    text.push_str(end)?;
    caller.answer(line, End::Status(0), text.as_bytes(), b"")
}

/// Makes the caller answer as a line says.
fn answer_line(alloc: Global, caller: &mut FakeCaller, line: &str) -> Result<(), AllocError> {
    let (kind, rest) = line.split_once(' ').unwrap_or((line, ""));
    match kind {
        "fails" => answer_failing(caller, rest),
        "missing" => caller.answer(rest, End::NeverStarted, b"", b""),
        "says" => answer_text(alloc, caller, rest, "\n"),
        "writes" => answer_text(alloc, caller, rest, ""),
        _ => Ok(()),
    }
}

fn answer_lines(alloc: Global, caller: &mut FakeCaller, world: &str) -> Result<(), AllocError> {
    for line in world.lines() {
        answer_line(alloc, caller, line.trim_start())?;
    }
    Ok(())
}

fn answer_always(caller: &mut FakeCaller) -> Result<(), AllocError> {
    for answer in &ANSWERS {
        let (line, text) = *answer;
        caller.answer(line, End::Status(0), text.as_bytes(), b"")?;
    }
    Ok(())
}

/// A caller that answers as the world says.
pub fn caller_of(alloc: Global, world: &str) -> Result<FakeCaller, AllocError> {
    let mut caller = FakeCaller::new(alloc, End::Status(0));
    answer_lines(alloc, &mut caller, world)?;
    let told = metadata(alloc, world)?;
    let asked = "cargo metadata --format-version=1 --no-deps";
    caller.answer(asked, End::Status(0), told.as_bytes(), b"")?;
    answer_always(&mut caller)?;
    Ok(caller)
}

fn push_line(text: &mut String, world: &str, line: &str) -> Result<(), AllocError> {
    if line == "+ features" {
        return push_each(text, given(world, "features"), "", "", " = []\n");
    }
    match line.strip_prefix("|") {
        Some(rest) => push_all(text, &[rest.strip_prefix(" ").unwrap_or(rest), "\n"]),
        None => Ok(()),
    }
}

fn text_of(alloc: Global, world: &str, lines: &str) -> Result<String, AllocError> {
    let mut text = String::new(alloc);
    for line in lines.lines() {
        push_line(&mut text, world, line.trim_start())?;
    }
    Ok(text)
}

fn write_files(
    alloc: Global,
    files: &mut MemoryFiles,
    world: &str,
    all: &str,
) -> Result<(), AllocError> {
    for file in all.split("file: ") {
        let (path, lines) = file.split_once('\n').unwrap_or((file, ""));
        let text = text_of(alloc, world, lines)?;
        let _ = files.write(path, text.as_bytes());
    }
    Ok(())
}

/// The files of the world, each written once.
pub fn files_of(alloc: Global, world: &str) -> Result<MemoryFiles, AllocError> {
    let mut files = MemoryFiles::new(alloc);
    if let Some((_, all)) = world.split_once("file: ") {
        write_files(alloc, &mut files, world, all)?;
    }
    Ok(files)
}

pub fn env_of(alloc: Global, world: &str) -> Result<Env, AllocError> {
    let cargo = match (given(world, "no"), given(world, "chosen")) {
        ("cargo", _) => "",
        (_, "") => "cargo",
        (_, program) => program,
    };
    let cargo = String::from_str(alloc, cargo)?;
    let rustup = String::from_str(alloc, "rustup")?;
    let current_dir = String::from_str(alloc, "/w")?;
    Ok(Env {
        term_color: None,
        github_actions: given(world, "on") == "github",
        deny_warnings: given(world, "deny") == "warnings",
        cargo,
        rustup,
        current_dir,
        by_guard: false,
    })
}

/// The colouring of the terminal.
pub fn coloring_of(world: &str) -> Coloring {
    match given(world, "colors") {
        "always" => Coloring::Always,
        _ => Coloring::Never,
    }
}
