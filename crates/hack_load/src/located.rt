//! The current package of a call, by the manifest that `cargo locate-project` reports.

ghost use Rattle.std.specs.Prelude.{◌≡◌, IfErr, IfOk, Some, None, map, option_map, string_bytes};
ghost use Rattle.serde_json.specs.View.{members_view};
ghost use Rattle.hack_load.specs.Located.{root_at, root_in, current_of, has_manifest};
ghost use Rattle.hack_load.specs.RootFaults.{IsRootRefusal};
ghost use Rattle.hack_load.specs.Internal.{IsNotJson, IsOfProcess};
ghost use Rattle.hack_load.specs.CargoQuestions.{FailsLocate, locate};
ghost use Rattle.hack_metadata.specs.QuestionCalls.{ReadsOutput};
ghost use Rattle.hack_metadata.specs.RecordViews.{package_view, place_at};
ghost use Rattle.hack_metadata.specs.MetadataView.{metadata_view};
ghost use Rattle.hack_process.specs.CommandTexts.{text_of};
ghost use Rattle.hack_process.specs.Commands.{command_of};

use crate::fault::ContextFault;
use hack_metadata::metadata::{Metadata, MetadataFault, Object, ObjectExt, PackageId, object_of};
use hack_process::process::{Caller, ProcessBuilder, ProcessFault};
use hack_words::cli::{Args, Env};
use std::alloc::{AllocError, Global};

/// The answer of `cargo locate-project`.
#[derive(Drop)]
pub struct Located {
    /// The command's text, for an error.
    pub command: String,
    /// What the command wrote.
    pub text: String,
}

impl Located {
    /// Asks cargo for the path of the current manifest.
    pub(crate) fn ask<C: Caller>(
        alloc: Global,
        args: &Args,
        env: &Env,
        caller: &mut C,
    ) -> Result<Located, ContextFault>
        ensures shown { IfOk result (λ l. string_bytes l.command ≡ text_of args.now.verbose
            (string_bytes env.now.current_dir) (locate args.now env.now)) }
        ensures ok { IfOk result (λ l. C.tells → ReadsOutput (locate args.now env.now)
            (string_bytes l.text) (C.calls caller.old) (C.calls caller.new)) }
        ensures err { IfErr result (FailsLocate C.tells (locate args.now env.now)
            (string_bytes env.now.current_dir) (C.calls caller.old) (C.calls caller.new)) }
        ensures course { C.course caller.old caller.new }
    {
        let asked = locate_command(alloc, args, env)?;
        let command = asked.text(alloc, false, args.verbose, env.current_dir.as_str())?;
        match asked.read(alloc, caller, env.current_dir.as_str()) {
            Ok(text) => Ok(Located { command, text }),
            Err(fault) => Err(of_process(fault)),
        }
    }

    /// Returns the path of the manifest that cargo reported.
    pub fn root(&self, alloc: Global) -> Result<String, ContextFault>
        ensures ok { IfOk result (λ root.
            root_in (string_bytes self.now.text) ≡ Some (string_bytes root)) }
        ensures err { IfErr result
            (IsRootRefusal (string_bytes self.now.command) (string_bytes self.now.text)) }
    {
        match object_of(alloc, self.text.as_str()) {
            Ok(object) => remove_root(object),
            Err(MetadataFault::Json) => Err(not_json(alloc, self.command.as_str())),
            Err(_) => Err(ContextFault::Memory),
        }
    }
}

/// Makes the command that asks for it.
fn locate_command<'a>(
    alloc: Global,
    args: &Args,
    env: &Env,
) -> Result<ProcessBuilder<'a>, AllocError>
    ensures { IfOk result (λ asked. command_of asked ≡ locate args.now env.now) }
{
    let mut asked = ProcessBuilder::new(alloc, env.cargo.as_str())?;
    asked.arg("locate-project")?;
    match &args.manifest_path {
        Some(path) => {
            asked.arg("--manifest-path")?;
            asked.arg(path.as_str())?;
            Ok(asked)
        }
        None => Ok(asked),
    }
}

fn of_process(fault: ProcessFault) -> ContextFault
    ensures { IsOfProcess fault result }
{
    match fault {
        ProcessFault::Memory => ContextFault::Memory,
        fault => ContextFault::Process(fault),
    }
}

/// Takes out the text at `root`.
fn remove_root(mut object: Object) -> Result<String, ContextFault>
    ensures ok { IfOk result (λ root.
        root_at (members_view object.entries) ≡ Some (string_bytes root)) }
    ensures err { IfErr result (λ e. (e ≡ ContextFault.Root)
        × (root_at (members_view object.entries) ≡ None)) }
{
    match object.remove_string("root") {
        Ok(root) => Ok(root),
        Err(_) => Err(ContextFault::Root),
    }
}

/// Returns the error of an answer that is no JSON object.
fn not_json(alloc: Global, command: &str) -> ContextFault
    ensures { IsNotJson command.now result }
{
    match String::from_str(alloc, command) {
        Ok(command) => ContextFault::NotJson(command),
        Err(_) => ContextFault::Memory,
    }
}

/// Returns the first member of the workspace whose manifest has this path.
pub fn current_package(metadata: &Metadata, root: &str) -> Option<PackageId>
    ensures { option_map place_at result ≡ current_of (metadata_view metadata.now) root.now }
{
    for id in &metadata.workspace_members {
        if has_manifest(metadata, *id, root) {
            return Some(*id);
        }
    }
    None
}

/// Returns whether the manifest of a package has this path.
fn has_manifest(metadata: &Metadata, id: PackageId, path: &str) -> bool
    ensures { result
        ≡ has_manifest (map package_view metadata.now.packages.items) path.now id.index }
{
    match metadata.find(id) {
        Some(package) => package.manifest_path.as_str() == path,
        None => false,
    }
}
