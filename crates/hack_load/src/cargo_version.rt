//! What cargo reports of itself by `cargo -vV`: its minor version and its host.

ghost use Rattle.std.specs.Prelude.{◌≡◌, IfOk, OnErr, option_copied, string_bytes, true};
ghost use Rattle.hack_base.specs.Names.{optional_text};
ghost use Rattle.hack_process.specs.Calls.{MayAdd};
ghost use Rattle.hack_process.specs.CommandTexts.{text_of};
ghost use Rattle.hack_process.specs.Commands.{asked_of, command_of};
ghost use Rattle.hack_load.specs.CargoQuestions.{FailsSelf, IsSelf, TellsSelf, TellsVersion};
ghost use Rattle.hack_load.specs.CargoQuestions.{self_command, told_version, unknown_version};
ghost use Rattle.std.specs.Result.{result_unwrap_or};
ghost use Rattle.hack_versions.specs.ToolTexts.{answer_fault_text};

use hack_process::cargo::{host, version};
use hack_process::process::{Caller, ProcessBuilder, ProcessFault};
use hack_versions::rustup::{AnswerFault, VersionTextFault};
use hack_words::cli::{Args, Env};
use std::alloc::{AllocError, Global};

/// What cargo reports of itself.
#[derive(Drop)]
pub(crate) struct CargoVersion {
    /// Its minor version, or the warning that it can't be determined.
    pub version: Result<u32, String>,
    /// The target that it was built for.
    pub host: Option<String>,
}

impl CargoVersion {
    /// Asks cargo for its version and its host.
    pub fn ask<C: Caller>(
        alloc: Global,
        args: &Args,
        env: &Env,
        caller: &mut C,
    ) -> Result<CargoVersion, AllocError>
        ensures ok { IfOk result (λ t. C.tells → IsSelf args.now env.now (told_version t.version)
            (optional_text t.host) (C.calls caller.old) (C.calls caller.new)) }
        ensures err { OnErr result (C.tells → MayAdd
            (asked_of true (self_command (string_bytes env.now.cargo)))
            (C.calls caller.old) (C.calls caller.new)) }
        ensures course { C.course caller.old caller.new }
    {
        let asked = self_command(alloc, env)?;
        match asked.read(alloc, caller, env.current_dir.as_str()) {
            Ok(text) => CargoVersion::of(alloc, text.as_str(), &asked, args, env),
            Err(fault) => CargoVersion::of_failure(alloc, fault),
        }
    }

    /// Reads an answer to the command.
    fn of(
        alloc: Global,
        answer: &str,
        asked: &ProcessBuilder<'_>,
        args: &Args,
        env: &Env,
    ) -> Result<CargoVersion, AllocError>
        ensures { IfOk result (λ t. TellsSelf (text_of args.now.verbose
            (string_bytes env.now.current_dir) (command_of asked.now)) answer.now
            (told_version t.version) (optional_text t.host)) }
    {
        let version = version_in(alloc, answer, asked, args, env)?;
        let host = owned_text(alloc, host(answer))?;
        Ok(CargoVersion { version, host })
    }

    /// Returns what is known where the command failed: a warning, and no host.
    fn of_failure(alloc: Global, fault: ProcessFault) -> Result<CargoVersion, AllocError>
        ensures { IfOk result (λ t.
            FailsSelf fault (told_version t.version) (optional_text t.host)) }
    {
        match fault {
            ProcessFault::Memory => Err(AllocError),
            fault => {
                let warning = format!(in alloc; "unable to determine cargo version: {fault}")?;
                Ok(CargoVersion {
                    version: Err(warning),
                    host: None,
                })
            }
        }
    }
}

/// Returns the version, or 0 where it isn't known.
pub(crate) fn minor_of(version: &Result<u32, String>) -> u32
    ensures { result ≡ result_unwrap_or version.now 0 }
{
    match version {
        Ok(minor) => *minor,
        Err(_) => 0,
    }
}

fn self_command<'a>(alloc: Global, env: &Env) -> Result<ProcessBuilder<'a>, AllocError>
    ensures { IfOk result (λ asked.
        command_of asked ≡ self_command (string_bytes env.now.cargo)) }
{
    let mut asked = ProcessBuilder::new(alloc, env.cargo.as_str())?;
    asked.arg("-vV")?;
    Ok(asked)
}

fn owned_text(alloc: Global, text: Option<&str>) -> Result<Option<String>, AllocError>
    ensures { IfOk result (λ copy. optional_text copy ≡ option_copied text.entry) }
{
    match text {
        Some(text) => Ok(Some(String::from_str(alloc, text)?)),
        None => Ok(None),
    }
}

/// Returns the minor version in an answer, or the warning that it has none.
fn version_in(
    alloc: Global,
    answer: &str,
    asked: &ProcessBuilder<'_>,
    args: &Args,
    env: &Env,
) -> Result<Result<u32, String>, AllocError>
    ensures { IfOk result (λ v. TellsVersion (text_of args.now.verbose
        (string_bytes env.now.current_dir) (command_of asked.now)) answer.now (told_version v)) }
{
    match version(alloc, answer) {
        Ok(version) => Ok(Ok(version.minor)),
        Err(VersionTextFault::Memory) => Err(AllocError),
        Err(fault) => Ok(Err(warning_of(alloc, &fault, asked, args, env)?)),
    }
}

/// Returns the warning that an answer has no version.
fn warning_of(
    alloc: Global,
    fault: &VersionTextFault,
    asked: &ProcessBuilder<'_>,
    args: &Args,
    env: &Env,
) -> Result<String, AllocError>
    ensures { IfOk result (λ text. string_bytes text ≡ unknown_version (answer_fault_text
        (text_of args.now.verbose (string_bytes env.now.current_dir) (command_of asked.now))
        fault.now)) }
{
    let command = asked.text(alloc, false, args.verbose, env.current_dir.as_str())?;
    unknown_version_text(alloc, fault.of(command.as_str()))
}

fn unknown_version_text(alloc: Global, fault: AnswerFault<'_>) -> Result<String, AllocError>
    ensures { IfOk result (λ text. string_bytes text ≡ unknown_version
        (answer_fault_text fault.entry.command.now fault.entry.fault.now)) }
{
    format!(in alloc; "unable to determine cargo version: {fault}")
}
