//! Calls of the program, over a system, files, locks, a caller and streams in memory, and what they
//! are started with. A question is the variables that are set, each `NAME=TEXT`, or `NAME` where it
//! is not UTF-8, and after a colon all arguments, or `?` where one is not UTF-8. Before the variables
//! stand `terminal` and `nowhere`, where there is no folder.

use hack_files::fs::MemoryFiles;
use hack_holds::{Ask, Wrong, hold};
use hack_process::process::{End, FakeCaller};
use hack_recovery::call::{Outside, call};
use hack_recovery::guards::FakeGuards;
use hack_recovery::keepers::Keepers;
use hack_recovery::locks::{FakeLocks, Holder};
use hack_recovery::started::Started;
use hack_recovery::system::{FakeSystem, Variable};
use hack_term::term::{Coloring, Term};
use std::alloc::{AllocError, Global};

fn variable_of(alloc: Global, word: &str) -> Result<(String, Variable), AllocError> {
    match word.split_once('=') {
        Some((name, text)) => {
            let text = String::from_str(alloc, text)?;
            Ok((String::from_str(alloc, name)?, Variable::Text(text)))
        }
        None => Ok((String::from_str(alloc, word)?, Variable::NotText)),
    }
}

fn variables_of(alloc: Global, text: &str) -> Result<Vec<(String, Variable)>, AllocError> {
    let mut variables = Vec::new(alloc);
    for word in text.split_whitespace() {
        variables.push(variable_of(alloc, word)?)?;
    }
    Ok(variables)
}

fn arguments_of(alloc: Global, text: &str) -> Result<Option<Vec<String>>, AllocError> {
    let mut arguments = Vec::new(alloc);
    for word in text.split_whitespace() {
        if word == "?" {
            return Ok(None);
        }
        arguments.push(String::from_str(alloc, word)?)?;
    }
    Ok(Some(arguments))
}

fn folder_of(alloc: Global, text: &str) -> Result<Option<String>, AllocError> {
    if text.contains("nowhere") {
        return Ok(None);
    }
    Ok(Some(String::from_str(alloc, "/w")?))
}

fn started(alloc: Global, system: &FakeSystem, is_terminal: bool) -> Result<String, AllocError> {
    let mut coloring = Coloring::Never;
    match Started::of(alloc, system, is_terminal, &mut coloring) {
        Ok(started) => {
            let words = &started.words;
            let env = &started.env;
            format!(in alloc; "{coloring:?}\n{words:?}\n{env:?}")
        }
        Err(fault) => {
            let text = fault.text();
            format!(in alloc; "{coloring:?}\n{text}")
        }
    }
}

/// The system of a question, and whether messages go to a terminal.
fn system_of(alloc: Global, question: &str) -> Result<(FakeSystem, bool), AllocError> {
    let (set, arguments) = question.split_once(':').unwrap_or((question, ""));
    let system = FakeSystem::new(
        arguments_of(alloc, arguments)?,
        variables_of(alloc, set)?,
        folder_of(alloc, set)?,
    );
    Ok((system, set.contains("terminal")))
}

/// What calls are started with.
#[derive(Clone, Copy)]
struct Starts {}

impl Ask for Starts {
    fn answer(&mut self, alloc: Global, question: &str) -> Result<String, AllocError> {
        let (system, is_terminal) = system_of(alloc, question)?;
        started(alloc, &system, is_terminal)
    }
}

fn text_in(bytes: &[u8]) -> &str {
    std::str::from_utf8(bytes).unwrap_or("not UTF-8")
}

/// Whole calls: what was written to both streams, how many programs were called, which folders were
/// to be locked, and the status.
#[derive(Clone, Copy)]
struct Calls {}

impl Ask for Calls {
    fn answer(&mut self, alloc: Global, question: &str) -> Result<String, AllocError> {
        let (system, is_terminal) = system_of(alloc, question)?;
        let mut term = Term::new(Coloring::Auto, false);
        let mut caller = FakeCaller::new(alloc, End::Status(1));
        let locks = FakeLocks::new(alloc, Holder::Ours);
        let mut keepers = Keepers::new(locks, FakeGuards::new(alloc, true));
        let (mut out, mut err) = (Vec::new(alloc), Vec::new(alloc));
        let mut outside = Outside {
            term: &mut term,
            caller: &mut caller,
            out: &mut out,
            err: &mut err,
            is_terminal,
            fails: false,
        };
        let (status, _, _, _) = call(
            alloc,
            &system,
            MemoryFiles::new(alloc),
            MemoryFiles::new(alloc),
            0u64,
            &mut keepers,
            &mut outside,
        );
        let calls = caller.made().len();
        let locked = keepers.locks.taken().len();
        let (out, err) = (text_in(&out), text_in(&err));
        format!(in alloc; "{out}{err}{calls} calls, {locked} locks, status {status}")
    }
}

#[test]
fn starts_of_calls(rt: HostRuntime) -> Result<(), Wrong> {
    hold(
        rt.alloc(),
        &mut Starts {},
        r#"
            > : cargo-hack hack check
            | Auto
            | ["hack", "check"]
            | Env { term_color: None, github_actions: false, deny_warnings: false, cargo: "cargo", rustup: "rustup", current_dir: "/w", by_guard: false }
            > nowhere :
            | Auto
            | []
            | Env { term_color: None, github_actions: false, deny_warnings: false, cargo: "cargo", rustup: "rustup", current_dir: "", by_guard: false }
            > terminal TERM=xterm CARGO=c CARGO_HACK_CARGO_SRC=s CARGO_HACK_RUSTUP=r CARGO_TERM_COLOR=always : cargo-hack
            | Always
            | []
            | Env { term_color: Some("always"), github_actions: false, deny_warnings: false, cargo: "s", rustup: "r", current_dir: "/w", by_guard: false }
            > CARGO=c GITHUB_ACTIONS= CARGO_HACK_DENY_WARNINGS=0 : cargo-hack hack
            | Auto
            | ["hack"]
            | Env { term_color: None, github_actions: true, deny_warnings: true, cargo: "c", rustup: "rustup", current_dir: "/w", by_guard: false }
            > CARGO_HACK_GUARD= : cargo-hack hack --restore
            | Auto
            | ["hack", "--restore"]
            | Env { term_color: None, github_actions: false, deny_warnings: false, cargo: "cargo", rustup: "rustup", current_dir: "/w", by_guard: true }
            > CARGO_HACK_GUARD=0 CARGO_HACK_RUSTUP=r : cargo-hack
            | Auto
            | []
            | Env { term_color: None, github_actions: false, deny_warnings: false, cargo: "cargo", rustup: "r", current_dir: "/w", by_guard: true }

            > terminal TERM=xterm : ?
            | Always
            | the words must be UTF-8
            > terminal TERM= : ?
            | Always
            | the words must be UTF-8
            > TERM=xterm : ?
            | Auto
            | the words must be UTF-8
            > terminal : ?
            | Auto
            | the words must be UTF-8
            > terminal TERM=dumb : ?
            | Auto
            | the words must be UTF-8
            > terminal TERM : ?
            | Auto
            | the words must be UTF-8
            > terminal TERM=xterm NO_COLOR= : ?
            | Auto
            | the words must be UTF-8
            > terminal TERM=xterm NO_COLOR : ?
            | Auto
            | the words must be UTF-8

            > CARGO : ?
            | Auto
            | the words must be UTF-8
            > CARGO_TERM_COLOR : cargo-hack
            | Auto
            | the variables of the environment must be UTF-8
            > GITHUB_ACTIONS : cargo-hack
            | Auto
            | the variables of the environment must be UTF-8
            > CARGO_HACK_DENY_WARNINGS : cargo-hack
            | Auto
            | the variables of the environment must be UTF-8
            > CARGO_HACK_CARGO_SRC=s CARGO : cargo-hack
            | Auto
            | the variables of the environment must be UTF-8
            > CARGO=c CARGO_HACK_CARGO_SRC : cargo-hack
            | Auto
            | the variables of the environment must be UTF-8
            > terminal TERM=xterm CARGO_HACK_RUSTUP : cargo-hack
            | Always
            | the variables of the environment must be UTF-8
            > CARGO_HACK_GUARD : cargo-hack
            | Auto
            | the variables of the environment must be UTF-8
            > OTHER : cargo-hack
            | Auto
            | []
            | Env { term_color: None, github_actions: false, deny_warnings: false, cargo: "cargo", rustup: "rustup", current_dir: "/w", by_guard: false }
        "#,
    )
}

#[test]
fn calls_of_the_program(rt: HostRuntime) -> Result<(), Wrong> {
    hold(
        rt.alloc(),
        &mut Calls {},
        r#"
            > : cargo-hack hack --version
            | cargo-hack 0.6.46
            | 0 calls, 0 locks, status 0
            > CARGO_HACK_DENY_WARNINGS= : cargo-hack hack --version
            | cargo-hack 0.6.46
            | 0 calls, 0 locks, status 0
            > : cargo-hack
            | error: expected subcommand 'hack'
            | 0 calls, 0 locks, status 1
            > : ?
            | error: the words must be UTF-8
            | 0 calls, 0 locks, status 1
            > CARGO : cargo-hack hack check
            | error: the variables of the environment must be UTF-8
            | 0 calls, 0 locks, status 1
        "#,
    )
}

#[test]
fn colors_of_refusals(rt: HostRuntime) -> Result<(), Wrong> {
    hold(
        rt.alloc(),
        &mut Calls {},
        "
            > terminal TERM=xterm : cargo-hack hack check --depth 2
            | \x1b[0m\x1b[1m\x1b[31merror\x1b[0m\x1b[1m:\x1b[0m --depth can only be used together with --feature-powerset
            | 0 calls, 0 locks, status 1
            > terminal TERM=xterm : cargo-hack hack check --color never --depth 2
            | error: --depth can only be used together with --feature-powerset
            | 0 calls, 0 locks, status 1
            > terminal TERM=xterm CARGO_TERM_COLOR=never : cargo-hack hack check --depth 2
            | error: --depth can only be used together with --feature-powerset
            | 0 calls, 0 locks, status 1
            > : cargo-hack hack check --color=always --depth 2
            | \x1b[0m\x1b[1m\x1b[31merror\x1b[0m\x1b[1m:\x1b[0m --depth can only be used together with --feature-powerset
            | 0 calls, 0 locks, status 1
            > CARGO_TERM_COLOR=always : cargo-hack hack check --depth 2
            | \x1b[0m\x1b[1m\x1b[31merror\x1b[0m\x1b[1m:\x1b[0m --depth can only be used together with --feature-powerset
            | 0 calls, 0 locks, status 1
            > CARGO_TERM_COLOR=always : cargo-hack hack check --depth 2 --color never
            | error: --depth can only be used together with --feature-powerset
            | 0 calls, 0 locks, status 1
            > CARGO_TERM_COLOR=always : cargo-hack hack check --depth 2 --color auto
            | error: --depth can only be used together with --feature-powerset
            | 0 calls, 0 locks, status 1
            > : cargo-hack hack check --depth 2 -- --color always
            | error: --depth can only be used together with --feature-powerset
            | 0 calls, 0 locks, status 1
            > : cargo-hack hack check --color always --find-rust-version
            | \x1b[0m\x1b[1m\x1b[31merror\x1b[0m\x1b[1m:\x1b[0m --find-rust-version can only be used together with --version-range
            | 0 calls, 0 locks, status 1
            > terminal TERM=xterm CARGO_TERM_COLOR=never : cargo-hack hack check --color x
            | \x1b[0m\x1b[1m\x1b[31merror\x1b[0m\x1b[1m:\x1b[0m argument for --color must be auto, always, or never, but found `x`
            | 0 calls, 0 locks, status 1
            > CARGO_TERM_COLOR=x : cargo-hack hack check
            | error: CARGO_TERM_COLOR must be auto, always, or never, but found `x`
            | 0 calls, 0 locks, status 1
            > terminal TERM=xterm : cargo-hack hack check --color never --depth
            | \x1b[0m\x1b[1m\x1b[31merror\x1b[0m\x1b[1m:\x1b[0m missing argument for option '--depth'
            | 0 calls, 0 locks, status 1
            > : cargo-hack check --color always
            | error: expected subcommand 'hack', found argument 'check'
            | 0 calls, 0 locks, status 1
        ",
    )
}
