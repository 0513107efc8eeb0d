//! Runs the commands that ask for metadata, and reads what they write.

ghost use Rattle.std.specs.Prelude.{◌≡◌, Some, IfOk, IfErr, OnOk, OnErr, MatchOption, true};
ghost use Rattle.std.specs.Prelude.{string_bytes};
ghost use Rattle.serde_json.specs.View.{members_view};
ghost use Rattle.hack_process.specs.Calls.{MayAdd};
ghost use Rattle.hack_process.specs.CommandTexts.{text_of};
ghost use Rattle.hack_process.specs.Commands.{asked_of, command_of};
ghost use Rattle.hack_process.specs.Faults.{IsFault, IsReadFault};
ghost use Rattle.hack_metadata.specs.QuestionCalls.{FailsToRead, ReadsOutput, Runs, TellsAs};
ghost use Rattle.hack_metadata.specs.QuestionCalls.{root_of};
ghost use Rattle.hack_metadata.specs.InternalQuestionCalls.{FailsAs, IsObjectFault, IsTextFault};
ghost use Rattle.hack_metadata.specs.Fields.{object_in_text};
ghost use Rattle.hack_metadata.specs.MetadataReading.{read_metadata};
ghost use Rattle.hack_metadata.specs.MetadataView.{metadata_view};

use crate::ask::fault::AskFault;
use crate::metadata::fault::MetadataFault;
use crate::metadata::{Metadata, Object, ObjectExt, object_of};
use hack_process::process::{Caller, ProcessBuilder, ProcessFault};
use hack_words::cli::{Args, Env};
use std::alloc::{AllocError, Global};

/// Runs a command. Its output is captured, so the terminal doesn't show it.
pub(crate) fn run<C: Caller>(
    alloc: Global,
    asked: &ProcessBuilder<'_>,
    env: &Env,
    caller: &mut C,
) -> Result<(), AskFault>
    ensures ok { OnOk result (C.tells → Runs (command_of asked.now)
        (C.calls caller.old) (C.calls caller.new)) }
    ensures err { IfErr result (FailsAs (C.tells → MayAdd (asked_of true (command_of asked.now))
        (C.calls caller.old) (C.calls caller.new)) (IsFault C.tells
        (asked_of true (command_of asked.now))
        (text_of true (string_bytes env.now.current_dir) (command_of asked.now))
        (C.calls caller.old) (C.calls caller.new))) }
    ensures course { C.course caller.old caller.new }
{
    match asked.run_with_output(alloc, caller, env.current_dir.as_str()) {
        Ok(_) => Ok(()),
        Err(ProcessFault::Memory) => Err(AskFault::Memory),
        Err(fault) => Err(AskFault::Process(fault)),
    }
}

/// Runs a command, and returns the text that it writes.
pub(crate) fn read<C: Caller>(
    alloc: Global,
    asked: &ProcessBuilder<'_>,
    env: &Env,
    caller: &mut C,
) -> Result<String, AskFault>
    ensures ok { IfOk result (λ text. C.tells → ReadsOutput (command_of asked.now)
        (string_bytes text) (C.calls caller.old) (C.calls caller.new)) }
    ensures err { IfErr result (FailsAs (C.tells → MayAdd (asked_of true (command_of asked.now))
        (C.calls caller.old) (C.calls caller.new)) (IsReadFault C.tells
        (asked_of true (command_of asked.now))
        (text_of true (string_bytes env.now.current_dir) (command_of asked.now))
        (C.calls caller.old) (C.calls caller.new))) }
    ensures course { C.course caller.old caller.new }
{
    match asked.read(alloc, caller, env.current_dir.as_str()) {
        Ok(text) => Ok(text),
        Err(ProcessFault::Memory) => Err(AskFault::Memory),
        Err(fault) => Err(AskFault::Process(fault)),
    }
}

/// Runs a command, and returns the text that it writes. None where the command fails; an error
/// where memory is refused.
pub(crate) fn try_read<C: Caller>(
    alloc: Global,
    asked: &ProcessBuilder<'_>,
    env: &Env,
    caller: &mut C,
) -> Result<Option<String>, AllocError>
    ensures ok { IfOk result (λ told. C.tells → MatchOption told
        (FailsToRead (command_of asked.now) (C.calls caller.old) (C.calls caller.new))
        (λ text. ReadsOutput (command_of asked.now) (string_bytes text)
        (C.calls caller.old) (C.calls caller.new))) }
    ensures err { OnErr result (C.tells → MayAdd (asked_of true (command_of asked.now))
        (C.calls caller.old) (C.calls caller.new)) }
    ensures course { C.course caller.old caller.new }
{
    match asked.read(alloc, caller, env.current_dir.as_str()) {
        Ok(text) => Ok(Some(text)),
        Err(ProcessFault::Memory) => Err(AllocError),
        Err(ProcessFault::EmptyProgram) => Ok(None),
        Err(ProcessFault::NeverExecuted(_)) => Ok(None),
        Err(ProcessFault::Failed(_)) => Ok(None),
        Err(ProcessFault::NotText(_)) => Ok(None),
    }
}

/// Reads the metadata from the answer to a command, as those of a cargo of this minor version.
pub(crate) fn metadata_in(
    alloc: Global,
    text: &str,
    minor: u32,
    asked: &ProcessBuilder<'_>,
    args: &Args,
    env: &Env,
) -> Result<Metadata, AskFault>
    ensures ok { IfOk result (λ m. TellsAs (read_metadata minor) text.now (metadata_view m)) }
    ensures err { IfErr result (IsTextFault (read_metadata minor) text.now (text_of args.now.verbose
        (string_bytes env.now.current_dir) (command_of asked.now))) }
{
    let object = match object_in(alloc, text, asked, args, env) {
        Ok(object) => object,
        Err(fault) => return Err(fault),
    };
    match Metadata::from_obj(alloc, object, minor) {
        Ok(metadata) => Ok(metadata),
        Err(MetadataFault::Field(name)) => Err(AskFault::Field(name)),
        Err(_) => Err(AskFault::Memory),
    }
}

/// Reads the folder of the workspace from the answer to a command.
pub(crate) fn root_in(
    alloc: Global,
    text: &str,
    asked: &ProcessBuilder<'_>,
    args: &Args,
    env: &Env,
) -> Result<String, AskFault>
    ensures ok { IfOk result (λ root. TellsAs root_of text.now (string_bytes root)) }
    ensures err { IfErr result (IsTextFault root_of text.now (text_of args.now.verbose
        (string_bytes env.now.current_dir) (command_of asked.now))) }
{
    let mut object = match object_in(alloc, text, asked, args, env) {
        Ok(object) => object,
        Err(fault) => return Err(fault),
    };
    match object.remove_string("workspace_root") {
        Ok(root) => Ok(root),
        Err(MetadataFault::Field(name)) => Err(AskFault::Field(name)),
        Err(_) => Err(AskFault::Memory),
    }
}

/// Reads the answer to a command as a JSON object.
fn object_in(
    alloc: Global,
    text: &str,
    asked: &ProcessBuilder<'_>,
    args: &Args,
    env: &Env,
) -> Result<Object, AskFault>
    ensures ok { IfOk result (λ m. object_in_text text.now ≡ Some (members_view m.entries)) }
    ensures err { IfErr result (IsObjectFault text.now (text_of args.now.verbose
        (string_bytes env.now.current_dir) (command_of asked.now))) }
{
    match object_of(alloc, text) {
        Ok(object) => Ok(object),
        Err(MetadataFault::Json) => {
            let shown = asked.text(alloc, false, args.verbose, env.current_dir.as_str())?;
            Err(AskFault::Output(shown))
        }
        Err(_) => Err(AskFault::Memory),
    }
}
