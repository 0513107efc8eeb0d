//! The command `cargo hack`: it gives what the system tells, and this process's files, locks,
//! guards, programs and streams, to `hack_recovery::call`.
#![tactic(auto)]

use hack_children::children::Children;
use hack_children::processors::Processors;
use hack_files::fs::Disk;
use hack_recovery::call::{Outside, call};
use hack_recovery::guards::ShellGuards;
use hack_recovery::keepers::Keepers;
use hack_recovery::locks::FolderLocks;
use hack_recovery::system::{HostSystem, System, Variable};
use hack_term::term::{Coloring, Term};
use std::io::IsTerminal;
use std::process::ExitCode;
use std::{env, fs, io, process};

/// In place of a standard stream that is closed stands a file that can't be written: otherwise the
/// next file that is opened would have its number, and get what is written to it.
fn main(rt: HostRuntime) -> ExitCode {
    let _input = fs::open(&rt, "/dev/null");
    let _output = fs::open(&rt, "/dev/null");
    let _messages = fs::open(&rt, "/dev/null");
    ExitCode::from(call_here(&rt))
}

/// Performs the call of this process, and returns its exit status. Where standard output didn't take
/// what runs wrote side by side, that is an error too.
fn call_here(rt: &HostRuntime) -> u8 {
    let mut term = Term::new(Coloring::Auto, false);
    let mut out = io::writer(rt);
    let mut err = rt.stderr();
    let is_terminal = err.is_terminal();
    let system = HostSystem::new(rt);
    let mut caller = children(rt, &system, is_terminal);
    let mut outside = Outside {
        term: &mut term,
        caller: &mut caller,
        out: &mut out,
        err: &mut err,
        is_terminal,
        fails: false,
    };
    let mut keepers = Keepers::new(FolderLocks::new(rt), ShellGuards::new(rt));
    let (status, _, _, _) = call(
        rt.alloc(),
        &system,
        Disk::new(rt),
        Disk::new(rt),
        0u64,
        &mut keepers,
        &mut outside,
    );
    if caller.is_output_cut() {
        let _ = term.error("failed to write to standard output", &mut err);
        return 1;
    }
    status
}

/// Who runs programs. Those that are started ahead share the processors, and have colors where both
/// streams go to a terminal, unless the environment decides that.
fn children<'a, S: System>(
    rt: &'a HostRuntime,
    system: &S,
    is_terminal: bool,
) -> Children<&'a HostRuntime> {
    let alloc = rt.alloc();
    let scratch = match env::temp_dir(rt) {
        Ok(folder) => folder.into_string(),
        Err(_) => String::new(alloc),
    };
    let process = process::id(rt.process());
    let mut children = Children::new(alloc, rt, rt.stdout(), rt.stderr(), scratch, process);
    let processors = if is_unset(system, "CARGO_BUILD_JOBS") {
        Processors::All
    } else {
        Processors::Unshared
    };
    let colors = is_terminal
        && rt.stdout().is_terminal()
        && is_unset(system, "CARGO_TERM_COLOR")
        && is_unset(system, "NO_COLOR");
    children.share(processors, colors);
    children
}

/// Whether the environment has no variable of this name.
fn is_unset<S: System>(system: &S, name: &str) -> bool {
    match system.variable(name) {
        Ok(Variable::Unset) => true,
        Ok(Variable::Text(_)) | Ok(Variable::NotText) | Err(_) => false,
    }
}
