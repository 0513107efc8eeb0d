//! The commands that ask cargo for the metadata of a workspace: their arguments, and the question
//! for stable's version.

ghost use Rattle.std.specs.Prelude.{◌≡◌, ◌⊎◌, ◌++◌, ◌∷◌, [], Some, None, IfOk, IfErr, OnOk, OnErr};
ghost use Rattle.std.specs.Prelude.{codes, map, option_copied, string_bytes, true};
ghost use Rattle.hack_base.specs.Names.{optional_text};
ghost use Rattle.hack_process.specs.Calls.{MayAdd};
ghost use Rattle.hack_process.specs.Commands.{asked_of, command_of, manifest_words, plain_command};
ghost use Rattle.hack_metadata.specs.QuestionCalls.{MinorOf, TellsStableMinor};
ghost use Rattle.hack_metadata.specs.Requests.{full_of};
ghost use Rattle.hack_metadata.specs.Requests.{platform_words, scope_words, version_command};

use crate::ask::answers::try_read;
use crate::ask::fault::AskFault;
use hack_process::cargo::version;
use hack_process::process::{Caller, ProcessBuilder};
use hack_versions::rustup::VersionTextFault;
use hack_words::cli::{Args, Env};
use std::alloc::{AllocError, Global};

/// Returns `--manifest-path` and its value, where it is given.
pub(crate) fn manifest_words(alloc: Global, args: &Args) -> Result<Vec<String>, AllocError>
    ensures { IfOk result (λ words. map string_bytes words.items
        ≡ manifest_words (optional_text args.now.manifest_path)) }
{
    let mut words = Vec::new(alloc);
    match &args.manifest_path {
        Some(path) => {
            words.push(String::from_str(alloc, "--manifest-path")?)?;
            words.push(path.clone()?)?;
            Ok(words)
        }
        None => Ok(words),
    }
}

/// Returns the arguments of the full request.
pub(crate) fn full_words(
    alloc: Global,
    args: &Args,
    host: Option<&str>,
) -> Result<Vec<String>, AskFault>
    ensures ok { IfOk result (λ words. full_of args.now (option_copied host.entry)
        ≡ Some (map string_bytes words.items)) }
    ensures err { IfErr result (λ e. (e ≡ AskFault.Memory)
        ⊎ ((e ≡ AskFault.NoHost) × (full_of args.now (option_copied host.entry) ≡ None))) }
{
    let mut words = Vec::new(alloc);
    words.push(String::from_str(alloc, "metadata")?)?;
    words.push(String::from_str(alloc, "--format-version=1")?)?;
    words.append(&mut manifest_words(alloc, args)?)?;
    words.append(&mut platform_words(alloc, args, host)?)?;
    Ok(words)
}

/// Returns the arguments that say which dependencies are wanted: none, or those for each target, or
/// for the host where no target is given.
fn platform_words(alloc: Global, args: &Args, host: Option<&str>) -> Result<Vec<String>, AskFault>
    ensures ok { IfOk result (λ words. scope_words args.now.include_deps_features
        (map string_bytes args.now.target.items) (option_copied host.entry)
        ≡ Some (map string_bytes words.items)) }
    ensures err { IfErr result (λ e. (e ≡ AskFault.Memory) ⊎ ((e ≡ AskFault.NoHost)
        × (scope_words args.now.include_deps_features (map string_bytes args.now.target.items)
        (option_copied host.entry) ≡ None))) }
{
    if !args.include_deps_features {
        return Ok(no_deps(alloc)?);
    }
    if !args.target.is_empty() {
        return Ok(target_words(alloc, &args.target)?);
    }
    match host {
        Some(host) => Ok(host_words(alloc, host)?),
        None => Err(AskFault::NoHost),
    }
}

fn no_deps(alloc: Global) -> Result<Vec<String>, AllocError>
    ensures { IfOk result (λ words. map string_bytes words.items ≡ codes "--no-deps" ∷ []) }
{
    let mut words = Vec::new(alloc);
    words.push(String::from_str(alloc, "--no-deps")?)?;
    Ok(words)
}

fn host_words(alloc: Global, host: &str) -> Result<Vec<String>, AllocError>
    ensures { IfOk result (λ words. map string_bytes words.items
        ≡ platform_words (host.now ∷ [])) }
{
    let mut words = Vec::new(alloc);
    push_platform(&mut words, host)?;
    Ok(words)
}

fn target_words(alloc: Global, targets: &[String]) -> Result<Vec<String>, AllocError>
    ensures { IfOk result (λ words. map string_bytes words.items
        ≡ platform_words (map string_bytes targets.now)) }
{
    let mut words = Vec::new(alloc);
    for target in targets {
        push_platform(&mut words, target.as_str())?;
    }
    Ok(words)
}

/// Adds `--filter-platform` and the platform.
fn push_platform(words: &mut Vec<String>, platform: &str) -> Result<(), AllocError>
    ensures { OnOk result (map string_bytes words.new.items
        ≡ map string_bytes words.old.items ++ codes "--filter-platform" ∷ platform.now ∷ []) }
{
    let alloc = *words.allocator();
    words.push(String::from_str(alloc, "--filter-platform")?)?;
    words.push(String::from_str(alloc, platform)?)?;
    Ok(())
}

/// Makes the command of a program with these arguments.
pub(crate) fn command<'a>(
    alloc: Global,
    program: &str,
    front: &[&str],
    rest: &[String],
) -> Result<ProcessBuilder<'a>, AllocError>
    ensures { IfOk result (λ builder. command_of builder ≡ plain_command program.now []
        (map (λ word. word.now) front.now ++ map string_bytes rest.now)) }
{
    let mut command = ProcessBuilder::new(alloc, program)?;
    command.args(front)?;
    command.args(rest)?;
    Ok(command)
}

/// Asks stable's cargo for its minor version. Returns 0 where it fails or its answer has none.
pub(crate) fn stable_minor<C: Caller>(
    alloc: Global,
    env: &Env,
    caller: &mut C,
) -> Result<u32, AllocError>
    ensures ok { IfOk result (λ minor. C.tells → TellsStableMinor
        (string_bytes env.now.rustup) minor
        (C.calls caller.old) (C.calls caller.new)) }
    ensures err { OnErr result (C.tells → MayAdd
        (asked_of true (version_command (string_bytes env.now.rustup)))
        (C.calls caller.old) (C.calls caller.new)) }
    ensures course { C.course caller.old caller.new }
{
    let words = ["run", "stable", "cargo", "-vV"];
    let asked = command(alloc, env.rustup.as_str(), &words, &[])?;
    match try_read(alloc, &asked, env, caller)? {
        Some(answer) => told_minor(alloc, answer.as_str()),
        None => Ok(0),
    }
}

/// Returns the minor version in an answer, or 0 where it has none.
fn told_minor(alloc: Global, answer: &str) -> Result<u32, AllocError>
    ensures { IfOk result (MinorOf answer.now) }
{
    match version(alloc, answer) {
        Ok(version) => Ok(version.minor),
        Err(VersionTextFault::Memory) => Err(AllocError),
        Err(_) => Ok(0),
    }
}
