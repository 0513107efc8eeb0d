//! Calls of `cargo hack`, as a user of the library makes them: with a caller and files in memory,
//! so that no cargo runs and nothing is built. Standard input has what cargo reports of the
//! workspace, on one line, and each manifest after a line `== PATH`. With arguments, these are the
//! call that is made; else there are four calls on the workspace in `examples`. Prints each call,
//! its messages, and its list. The bench times such calls.
#![tactic(auto)]

use cargo_hack::cli::Env;
use cargo_hack::fs::{Files, MemoryFiles};
use cargo_hack::process::{End, FakeCaller};
use cargo_hack::run::run;
use cargo_hack::term::{Coloring, Term};
use std::alloc::{AllocError, Global};
use std::{env, io};

/// The command lines of the four calls.
const CALLS: [&str; 4] = [
    "hack check --feature-powerset --print-command-list --ignore-private --depth 2",
    "hack check --each-feature --exclude-all-features --partition 2/2",
    "hack test --feature-powerset --package-rules --keep-going",
    "hack test --feature-powerset --package-rules --find-conflicts",
];

/// The commands that cargo fails: two features don't build together.
const FAILING: [&str; 3] = [
    "cargo test --manifest-path codec/Cargo.toml --no-default-features --features compact,trace",
    "cargo test --manifest-path codec/Cargo.toml --no-default-features --features binary,compact,trace",
    "cargo test --manifest-path codec/Cargo.toml --no-default-features --features compact,json,trace",
];

/// A caller that answers like a cargo that reported this of the workspace.
fn caller(alloc: Global, told: &str) -> Result<FakeCaller, AllocError> {
    let mut caller = FakeCaller::new(alloc, End::Status(0));
    for (line, answer) in [
        (
            "cargo -vV",
            "release: 1.95.0\nhost: x86_64-unknown-linux-gnu\n",
        ),
        ("cargo metadata --format-version=1 --no-deps", told),
        ("cargo locate-project", "{\"root\":\"/w/Cargo.toml\"}"),
    ] {
        caller.answer(line, End::Status(0), answer.as_bytes(), b"")?;
    }
    for line in FAILING {
        caller.answer(line, End::Status(101), b"", b"")?;
    }
    Ok(caller)
}

/// What cargo reports of the workspace, and files with its manifests.
fn workspace(alloc: Global, input: &str) -> Result<(String, MemoryFiles), AllocError> {
    let mut files = MemoryFiles::new(alloc);
    let mut parts = input.split("\n== ");
    let told = String::from_str(alloc, parts.next().unwrap_or(""))?;
    for part in parts {
        if let Some((path, manifest)) = part.split_once('\n') {
            let _ = files.write(path, manifest.as_bytes());
        }
    }
    Ok((told, files))
}

/// The arguments of a command line without quotes.
fn words_of(alloc: Global, line: &str) -> Result<Vec<String>, AllocError> {
    let mut words = Vec::new(alloc);
    for word in line.split(' ') {
        words.push(String::from_str(alloc, word)?)?;
    }
    Ok(words)
}

/// The lines of a call with these arguments, of its messages and its list.
fn call(alloc: Global, words: &[String], input: &str) -> Result<String, AllocError> {
    let (told, files) = workspace(alloc, input)?;
    let mut files = files;
    let env = Env::new(alloc, &[], String::from_str(alloc, "/w")?)?;
    let mut term = Term::new(Coloring::Never, false);
    let mut caller = caller(alloc, told.as_str())?;
    let mut out = Vec::new(alloc);
    let mut err = Vec::new(alloc);
    let status = run(
        alloc,
        words,
        &env,
        &mut term,
        &mut files,
        &mut caller,
        &mut out,
        &mut err,
    );
    let listed = String::from_utf8_lossy(alloc, &out)?;
    let notes = String::from_utf8_lossy(alloc, &err)?;
    let line = words.join(alloc, " ")?;
    format!(in alloc; "$ cargo {line}\n{notes}{listed}status {status}\n")
}

fn main(rt: HostRuntime) -> io::Result<()> {
    let alloc = rt.alloc();
    let input = io::read_to_string(alloc, rt.reader())?;
    let words: Vec<String> = env::args(&rt)?.skip(1).collect(alloc)?;
    if !words.is_empty() {
        let lines = call(alloc, &words, input.as_str())?;
        return println!(rt; "{lines}");
    }
    for line in CALLS {
        let lines = call(alloc, &words_of(alloc, line)?, input.as_str())?;
        println!(rt; "{lines}")?;
    }
    Ok(())
}
