//! Errors for the user. An error of writing them is ignored.

ghost use Rattle.std.specs.Prelude.{◌≡◌, ◌∷◌, [], Err, None, OnErr, OnOk, option_map, true};
ghost use Rattle.hack_base.specs.Streams.{WritesAll, stream_of};
ghost use Rattle.hack_run.specs.Errors.{SaysEnd, SaysError, advice_of, choice_of};
ghost use Rattle.hack_term.specs.Lines.{error_line};

use crate::fault::RunFault;
use hack_base::writes::Sink;
use hack_files::reason::tell_fault;
use hack_planner::fault::PlanFault;
use hack_process::process::ProcessFault;
use hack_term::term::Term;
use hack_words::cli::Env;
use std::alloc::Global;

/// The line on how another cargo or rustup is chosen.
const CHOICE: &str =
    "cargo is chosen by CARGO_HACK_CARGO_SRC or CARGO, and rustup by CARGO_HACK_RUSTUP";

/// The lines on a program that no variable chose.
const NO_CARGO: &str = "no `cargo` is in the `PATH`";

const NO_RUSTUP: &str = "no `rustup` is in the `PATH`";

/// The line on how a call has fewer runs.
const FEWER: &str = "--depth and --strength make fewer runs";

/// Reports an error. Where the user can do something about it, a line on that comes first.
pub(crate) fn tell<E: Sink>(
    alloc: Global,
    fault: &RunFault,
    env: &Env,
    term: &mut Term,
    err: &mut E,
)
    ensures noted { term.new ≡ record term.old { error = true } }
    ensures shown { SaysEnd (Err fault.now) env.now term.old.coloring
        (stream_of E.Sink err.old) (stream_of E.Sink err.new) }
{
    if let Some(line) = advice(fault, env) {
        let _ = term.info(line, err);
    }
    tell_text(alloc, fault, term, err);
}

/// Prints the line of an error. That of a file needs no memory, so that its path is named.
fn tell_text<E: Sink>(alloc: Global, fault: &RunFault, term: &mut Term, err: &mut E)
    ensures noted { term.new ≡ record term.old { error = true } }
    ensures shown { SaysError fault.now term.old.coloring
        (stream_of E.Sink err.old) (stream_of E.Sink err.new) }
{
    if let Some(failed) = fault.failed_file() {
        tell_fault(failed, term, err);
        return;
    }
    match format!(in alloc; "{fault}") {
        Ok(text) => {
            let _ = term.error(&text, err);
        }
        Err(_) => {
            let _ = term.error("out of memory", err);
        }
    }
}

/// What the user can do: install or choose another program where one couldn't be started, or ask
/// for fewer runs where there are too many.
fn advice(fault: &RunFault, env: &Env) -> Option<&'static str>
    ensures { option_map (λ text. text.now) result ≡ advice_of env.now fault.now }
{
    if let RunFault::Plan(PlanFault::TooManyRuns) = fault {
        return Some(FEWER);
    }
    match fault.failed_command() {
        Some(ProcessFault::NeverExecuted(command)) => Some(choice(command.as_str(), env)),
        _ => None,
    }
}

/// What to say of the program of a command that couldn't be started, which is shown in backquotes:
/// that none is in the `PATH`, where no variable chose it.
fn choice(command: &str, env: &Env) -> &'static str
    ensures { result.now ≡ choice_of env.now command.now }
{
    if env.cargo.as_str() == "cargo" && command.starts_with("`cargo ") {
        return NO_CARGO;
    }
    if env.rustup.as_str() == "rustup" && command.starts_with("`rustup ") {
        return NO_RUSTUP;
    }
    CHOICE
}

/// Reports the error that a call ended with, if it ended with one.
pub(crate) fn tell_end<E: Sink>(
    alloc: Global,
    came: Result<(), RunFault>,
    env: &Env,
    term: &mut Term,
    err: &mut E,
)
    ensures ok { OnOk came (term.new ≡ term.old) }
    ensures err { OnErr came (term.new.error ≡ true) }
    ensures term { term.new ≡ record term.old { error = term.new.error } }
    ensures shown { SaysEnd came env.now term.old.coloring
        (stream_of E.Sink err.old) (stream_of E.Sink err.new) }
{
    match came {
        Ok(()) => (),
        Err(fault) => tell(alloc, &fault, env, term, err),
    }
}

/// Reports what cut a search short.
pub(crate) fn fail<E: Sink>(text: &str, term: &mut Term, err: &mut E)
    ensures term { term.new ≡ record term.old { error = true } }
    ensures shown { WritesAll (error_line term.old.coloring text.now ∷ [])
        (stream_of E.Sink err.old) (stream_of E.Sink err.new) }
{
    let _ = term.error(text, err);
}

/// Leaves a search in which memory was refused, which was reported at once. What is kept then is
/// the error of an earlier run, which is none of the call.
pub(crate) fn cut_off(fault: &mut Option<ProcessFault>, term: &mut Term)
    ensures fault { fault.new ≡ None }
    ensures term { term.new ≡ record term.old { error = true } }
{
    *fault = None;
    term.error = true;
}
