//! What rustup is asked before there is a plan: its own version, and that of the toolchain
//! `stable`.

ghost use Rattle.std.specs.Prelude.{◌≡◌, ◌≢◌, IfErr, IfOk, IfSome, IsSomeAnd, None, Ok, OnErr};
ghost use Rattle.std.specs.Prelude.{Some, OnOk, false, string_bytes, true};
ghost use Rattle.hack_base.specs.Names.{names_of};
ghost use Rattle.hack_metadata.specs.Requests.{version_command as asks_stable};
ghost use Rattle.hack_process.specs.Calls.{MayAdd};
ghost use Rattle.hack_process.specs.CargoTexts.{release_part};
ghost use Rattle.hack_process.specs.Commands.{asked_of, command_of};
ghost use Rattle.hack_process.specs.CommandTexts.{text_of};
ghost use Rattle.hack_process.specs.Faults.{fault_text};
ghost use Rattle.hack_versions.specs.RangeSteps.{NeedsStable};
ghost use Rattle.hack_versions.specs.ToolTexts.{TellsRelease, answer_fault_text, rustup_part};
ghost use Rattle.hack_words.specs.RustupView.{unknown_of};
ghost use Rattle.hack_words.specs.Start.{wants_rustup as rustup_wanted};
ghost use Rattle.hack_run.specs.Loading.{IsMinorIn};
ghost use Rattle.hack_run.specs.Questions.{CannotInstallStable, CannotReadStable, FailsStable};
ghost use Rattle.hack_run.specs.Questions.{MayAskStable, AsksStable, InstallsStable, AsksRustup};
ghost use Rattle.hack_run.specs.Questions.{ReadsStable, IsAnswerReason, IsInstallReason, IsReason};
ghost use Rattle.hack_run.specs.Questions.{TellsReason, TellsStableReason, rustup_asked};
ghost use Rattle.hack_run.specs.Questions.{rustup_command as asks_rustup};
ghost use Rattle.hack_drive.specs.Answered.{IsAnswered, NeedsAnswer};
ghost use Rattle.hack_run.specs.Internal.{IsLatest, IsUnknown, TellsMinor};

use hack_planner::stable::Stable;
use hack_process::cargo::version;
use hack_process::process::{Caller, ProcessBuilder, ProcessFault};
use hack_session::rustup::install_toolchain;
use hack_session::session::Screen;
use hack_term::term::{LogGroup, Term};
use hack_versions::rustup::{AnswerFault, Rustup, VersionTextFault, minor_version, needs_stable};
use hack_words::cli::{Args, Env, wants_rustup};
use std::alloc::{AllocError, Global};
use std::io;

/// Returns what is known of rustup's version, which is asked for only where the command line has a
/// range of versions.
pub(crate) fn rustup_for<C: Caller>(
    alloc: Global,
    words: &[String],
    env: &Env,
    verbose: bool,
    caller: &mut C,
) -> Result<Rustup, AllocError>
    ensures may { C.tells → MayAdd (rustup_asked (string_bytes env.now.rustup))
        (C.calls caller.old) (C.calls caller.new) }
    ensures asked { IfOk result (λ known. C.tells → AsksRustup
        (rustup_wanted (names_of words.now)) (string_bytes env.now.rustup) known
        (C.calls caller.old) (C.calls caller.new)) }
    ensures reason { IfOk result (λ known. C.tells → TellsReason verbose
        (string_bytes env.now.rustup) known (C.calls caller.old) (C.calls caller.new)) }
    ensures unneeded { rustup_wanted (names_of words.now) ≡ false → caller.new ≡ caller.old }
    ensures course { C.course caller.old caller.new }
{
    if !wants_rustup(words) {
        return Ok(Rustup::Unasked);
    }
    let asked = rustup_command(alloc, env)?;
    match asked.read(alloc, caller, env.current_dir.as_str()) {
        Ok(text) => rustup_in(alloc, &asked, text.as_str(), env, verbose),
        Err(fault) => unknown_rustup(alloc, fault),
    }
}

fn rustup_command<'a>(alloc: Global, env: &Env) -> Result<ProcessBuilder<'a>, AllocError>
    ensures { IfOk result (λ asked. command_of asked ≡ asks_rustup (string_bytes env.now.rustup)) }
{
    let mut asked = ProcessBuilder::new(alloc, env.rustup.as_str())?;
    asked.arg("--version")?;
    Ok(asked)
}

/// Returns that rustup's version is unknown, with the error of asking for it as the reason.
fn unknown_rustup(alloc: Global, fault: ProcessFault) -> Result<Rustup, AllocError>
    ensures unknown { IfOk result IsUnknown }
    ensures why { IfOk result (λ known. unknown_of known ≡ Some (fault_text fault)) }
    ensures failed { OnOk result (fault ≢ ProcessFault.Memory) }
{
    match fault {
        ProcessFault::Memory => Err(AllocError),
        fault => Ok(Rustup::Unknown(format!(in alloc; "{fault}")?)),
    }
}

/// Reads rustup's minor version from its answer. It is unknown where the answer can't be read.
fn rustup_in(
    alloc: Global,
    asked: &ProcessBuilder<'_>,
    answer: &str,
    env: &Env,
    verbose: bool,
) -> Result<Rustup, AllocError>
    ensures minor { IfOk result (TellsMinor answer.now) }
    ensures why { IfOk result (λ known. IfSome (unknown_of known) (IsAnswerReason answer.now
        (rustup_part answer.now)
        (text_of verbose (string_bytes env.now.current_dir) (command_of asked.now)))) }
{
    match minor_version(alloc, answer) {
        Ok(minor) => Ok(Rustup::Known(minor)),
        Err(VersionTextFault::Memory) => Err(AllocError),
        Err(fault) => Ok(Rustup::Unknown(wrong_answer_text(alloc, fault, asked, env, verbose)?)),
    }
}

/// Returns the error of reading a command's answer, as a text.
fn wrong_answer_text(
    alloc: Global,
    fault: VersionTextFault,
    asked: &ProcessBuilder<'_>,
    env: &Env,
    verbose: bool,
) -> Result<String, AllocError>
    ensures { IfOk result (λ text. string_bytes text ≡ answer_fault_text
        (text_of verbose (string_bytes env.now.current_dir) (command_of asked.now)) fault) }
{
    let command = asked.text(alloc, false, verbose, env.current_dir.as_str())?;
    shown_fault(alloc, fault.of(command.as_str()))
}

fn shown_fault(alloc: Global, fault: AnswerFault<'_>) -> Result<String, AllocError>
    ensures { IfOk result (λ text. string_bytes text
        ≡ answer_fault_text fault.entry.command.now fault.entry.fault.now) }
{
    format!(in alloc; "{fault}")
}

/// Asks for stable's version where the call needs it.
#[tactic(auto, using(crate::proofs::CallLemmas::asks_none))]
pub(crate) fn stable_for<C: Caller>(
    alloc: Global,
    args: &Args,
    env: &Env,
    term: &Term,
    caller: &mut C,
) -> Result<Stable, AllocError>
    ensures asked { IfOk result (λ stable. C.tells → AsksStable (string_bytes env.now.rustup)
        stable (C.calls caller.old) (C.calls caller.new)) }
    ensures reason { IfOk result (λ stable. C.tells → TellsStableReason term.now.verbose
        (string_bytes env.now.rustup) stable (C.calls caller.old) (C.calls caller.new)) }
    ensures unasked { IfOk result (λ stable. ¬ NeedsAnswer args.now → stable ≡ Stable.Unasked) }
    ensures needed { IfOk result (IsAnswered args.now) }
    ensures made { C.tells → MayAskStable (string_bytes env.now.rustup)
        (C.calls caller.old) (C.calls caller.new) }
    ensures unneeded { ¬ NeedsAnswer args.now → caller.new ≡ caller.old }
    ensures course { C.course caller.old caller.new }
{
    if args.subcommand.is_none() || !is_stable_asked(args) {
        return Ok(Stable::Unasked);
    }
    match install(alloc, env, term, caller) {
        Ok(()) => stable_version(alloc, env, term.verbose, caller),
        Err(fault) => stable_fault(alloc, fault),
    }
}

/// Returns whether a bound of the range is stable's version.
fn is_stable_asked(args: &Args) -> bool
    ensures no { result ≡ false → IfSome args.now.version_range (λ range. ¬ NeedsStable range) }
    ensures yes { result ≡ true → IsSomeAnd args.now.version_range NeedsStable }
{
    match args.version_range {
        Some(range) => needs_stable(range),
        None => false,
    }
}

/// Makes sure that the toolchain `stable` is installed, and prints nothing about it.
fn install<C: Caller>(
    alloc: Global,
    env: &Env,
    term: &Term,
    caller: &mut C,
) -> Result<(), ProcessFault>
    ensures ok { OnOk result (C.tells → InstallsStable (string_bytes env.now.rustup)
        (C.calls caller.old) (C.calls caller.new)) }
    ensures err { OnErr result (C.tells → FailsStable (string_bytes env.now.rustup)
        (C.calls caller.old) (C.calls caller.new)) }
    ensures vain { IfErr result (λ fault. fault ≢ ProcessFault.Memory → C.tells
        → CannotInstallStable (string_bytes env.now.rustup)
        (C.calls caller.old) (C.calls caller.new)) }
    ensures why { IfErr result (λ fault. fault ≢ ProcessFault.Memory → C.tells
        → IsInstallReason (string_bytes env.now.rustup)
        (C.calls caller.old) (C.calls caller.new) (fault_text fault)) }
    ensures course { C.course caller.old caller.new }
{
    let mut screen = Screen {
        term,
        out: &mut io::sink(),
        err: &mut io::sink(),
        log_group: LogGroup::None,
    };
    install_toolchain(
        alloc,
        caller,
        &mut screen,
        env.rustup.as_str(),
        "stable",
        &[],
        false,
        env.current_dir.as_str(),
    )
}

/// Returns that stable's version is unknown, with the error of asking for it as the reason.
fn stable_fault(alloc: Global, fault: ProcessFault) -> Result<Stable, AllocError>
    ensures { IfOk result (IsLatest (λ _. ⊥)
        (λ why. (fault ≢ ProcessFault.Memory) × (why ≡ fault_text fault))) }
{
    match fault {
        ProcessFault::Memory => Err(AllocError),
        fault => Ok(Stable::Unknown(format!(in alloc; "{fault}")?)),
    }
}

fn stable_command<'a>(alloc: Global, env: &Env) -> Result<ProcessBuilder<'a>, AllocError>
    ensures { IfOk result (λ asked. command_of asked ≡ asks_stable (string_bytes env.now.rustup)) }
{
    let mut asked = ProcessBuilder::new(alloc, env.rustup.as_str())?;
    asked.args(&["run", "stable", "cargo", "-vV"])?;
    Ok(asked)
}

/// Asks stable's cargo for its version.
fn stable_version<C: Caller>(
    alloc: Global,
    env: &Env,
    verbose: bool,
    caller: &mut C,
) -> Result<Stable, AllocError>
    ensures read { IfOk result (IsLatest
        (λ v. C.tells → ReadsStable (string_bytes env.now.rustup) v
        (C.calls caller.old) (C.calls caller.new))
        (λ _. C.tells → CannotReadStable (string_bytes env.now.rustup)
        (C.calls caller.old) (C.calls caller.new))) }
    ensures why { IfOk result (IsLatest (λ _. Unit {0})
        (λ why. C.tells → IsReason release_part verbose
        (asks_stable (string_bytes env.now.rustup))
        (C.calls caller.old) (C.calls caller.new) why)) }
    ensures may { C.tells → MayAdd (asked_of true (asks_stable (string_bytes env.now.rustup)))
        (C.calls caller.old) (C.calls caller.new) }
    ensures course { C.course caller.old caller.new }
{
    let asked = stable_command(alloc, env)?;
    match asked.read(alloc, caller, env.current_dir.as_str()) {
        Ok(text) => stable_in(alloc, &asked, text.as_str(), env, verbose),
        Err(fault) => stable_fault(alloc, fault),
    }
}

/// Reads the version from the answer of stable's cargo.
fn stable_in(
    alloc: Global,
    asked: &ProcessBuilder<'_>,
    answer: &str,
    env: &Env,
    verbose: bool,
) -> Result<Stable, AllocError>
    ensures { IfOk result (IsLatest (TellsRelease (release_part answer.now))
        (λ why. IsMinorIn (release_part answer.now) None
        × IsAnswerReason answer.now (release_part answer.now)
        (text_of verbose (string_bytes env.now.current_dir) (command_of asked.now)) why)) }
{
    match version(alloc, answer) {
        Ok(version) => Ok(Stable::Known(version)),
        Err(VersionTextFault::Memory) => Err(AllocError),
        Err(fault) => Ok(Stable::Unknown(wrong_answer_text(alloc, fault, asked, env, verbose)?)),
    }
}
