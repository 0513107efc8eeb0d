//! The questions of a call, before its context is made: cargo's version, the metadata of the
//! workspace, the manifests of its members, and the current manifest.

ghost use Rattle.std.specs.Prelude.{◌≡◌, [], Err, IfOk, OnOk, option_copied};
ghost use Rattle.hack_files.specs.Files.{KeepsAllBut, Makes};
ghost use Rattle.hack_files.specs.Restore.{registered_files};
ghost use Rattle.hack_load.specs.Answers.{AreAnswers, LoadsFromMetadata, IsAskFault, IsLoaded};
ghost use Rattle.hack_load.specs.Answers.{LoadsTo};
ghost use Rattle.hack_load.specs.FailedLoads.{AnswersFailSo, FailsOnlyReading, FailsToLoad};
ghost use Rattle.hack_load.specs.FailedLoads.{IsMemberPath, LoadFails};
ghost use Rattle.hack_load.specs.FilesAfterLoading.{LeavesFew};
ghost use Rattle.hack_load.specs.Internal.{ReadsOnly};
ghost use Rattle.hack_metadata.specs.FilesAfterAsking.{Whole};
ghost use Rattle.hack_metadata.specs.MetadataView.{metadata_view};
ghost use Rattle.hack_metadata.specs.Requests.{question};
ghost use Rattle.hack_metadata.specs.FailedQuestions.{WroteTo};

use crate::cargo_version::{CargoVersion, minor_of};
use crate::fault::ContextFault;
pub use crate::loaded::Loaded;
use crate::located::Located;
use crate::members::manifests_of;
use hack_files::fs::Files;
use hack_files::restore::Manager;
use hack_metadata::metadata::{AskFault, Metadata};
use hack_process::process::Caller;
use hack_words::cli::{Args, Env};
use std::alloc::{AllocError, Global};

/// The answers to the questions of a call.
#[derive(Drop)]
pub struct Answers {
    /// Cargo's own minor version, or the warning that it can't be determined.
    pub cargo_version: Result<u32, String>,
    /// The rest, or the error that ended the questions.
    pub loaded: Result<Loaded, ContextFault>,
}

impl Answers {
    /// Asks cargo for its version, asks it or stable's cargo for the metadata, reads the manifest
    /// of each member, and asks cargo for the current manifest. An error ends the questions, unless
    /// it is one of the version; where memory is refused, they always end.
    #[tactic(auto, using(hack_files::proofs::FilesLemmas::trace_steps))]
    pub fn ask<'a, C: Caller, F: Files>(
        alloc: Global,
        args: &'a Args,
        env: &'a Env,
        caller: &mut C,
        files: &mut F,
        manager: &mut Manager,
    ) -> Answers
        ensures stays { F.stays files.old files.new }
        ensures left { LeavesFew F.tells (F.bytes_at files.old) (F.bytes_at files.new)
            (F.failed files.old) (F.failed files.new) }
        ensures spoilt { KeepsAllBut (F.refuses files.old files.new) F.tells
            (F.bytes_at files.old) (F.bytes_at files.new) }
        ensures calls { FailsToLoad F.Files files.old files.new result.loaded }
        ensures undone { C.tells → AnswersFailSo F.Files files.old files.new args.now env.now
            (C.calls caller.old) (C.calls caller.new) result }
        ensures whole { OnOk result.loaded (Whole F.tells (F.bytes_at files.old)
            (F.bytes_at files.new) (F.failed files.old) (F.failed files.new)) }
        ensures kept { registered_files manager.new ≡ registered_files manager.old }
        ensures needs { manager.new.needs_restore ≡ manager.old.needs_restore }
        ensures read { IfOk result.loaded (IsLoaded F.tells (F.bytes_at files.new) env.now) }
        ensures asked { C.tells → AreAnswers F.tells (WroteTo F.Files files.old files.new)
            args.now env.now (F.bytes_at files.old) (F.failed files.old) (F.failed files.new)
            (C.calls caller.old) (C.calls caller.new) result }
        ensures course { C.course caller.old caller.new }
    {
        let told = match CargoVersion::ask(alloc, args, env, caller) {
            Ok(told) => told,
            Err(AllocError) => return out_of_memory(),
        };
        let minor = minor_of(&told.version);
        let host = told.host.as_deref();
        let asker = Asker {
            args,
            env,
            minor,
            host,
        };
        let loaded = asker.load(alloc, caller, files, manager);
        Answers {
            cargo_version: told.version,
            loaded,
        }
    }
}

/// The answers where memory was refused at the first question.
fn out_of_memory() -> Answers
    ensures { result.loaded ≡ Err ContextFault.Memory }
{
    Answers {
        cargo_version: Ok(0),
        loaded: Err(ContextFault::Memory),
    }
}

/// Who asks cargo: a call, which knows cargo's minor version and host.
#[derive(Drop)]
struct Asker<'a, 'h> {
    args: &'a Args,
    env: &'a Env,
    minor: u32,
    host: Option<&'h str>,
}

impl<'a, 'h> Asker<'a, 'h> {
    /// Asks for all but the version.
    fn load<C: Caller, F: Files>(
        &self,
        alloc: Global,
        caller: &mut C,
        files: &mut F,
        manager: &mut Manager,
    ) -> Result<Loaded, ContextFault>
        ensures stays { F.stays files.old files.new }
        ensures left { LeavesFew F.tells (F.bytes_at files.old) (F.bytes_at files.new)
            (F.failed files.old) (F.failed files.new) }
        ensures spoilt { KeepsAllBut (F.refuses files.old files.new) F.tells
            (F.bytes_at files.old) (F.bytes_at files.new) }
        ensures calls { FailsToLoad F.Files files.old files.new result }
        ensures undone { C.tells → LoadFails F.Files files.old files.new
            (question self.now.args.now self.now.env.now self.now.minor
            (option_copied self.now.host)) (C.calls caller.old) (C.calls caller.new) result }
        ensures whole { OnOk result (Whole F.tells (F.bytes_at files.old)
            (F.bytes_at files.new) (F.failed files.old) (F.failed files.new)) }
        ensures kept { registered_files manager.new ≡ registered_files manager.old }
        ensures needs { manager.new.needs_restore ≡ manager.old.needs_restore }
        ensures read { IfOk result (IsLoaded F.tells (F.bytes_at files.new) self.now.env.now) }
        ensures asked { C.tells → LoadsTo F.tells self.now.args.now self.now.env.now
            (F.bytes_at files.old) (F.failed files.old) (F.failed files.new)
            (WroteTo F.Files files.old files.new)
            self.now.minor (option_copied self.now.host) (C.calls caller.old) (C.calls caller.new)
            result }
        ensures course { C.course caller.old caller.new }
    {
        match Metadata::new(
            alloc, self.args, self.env, self.minor, self.host, caller, files, manager,
        ) {
            Ok(metadata) => self.load_behind(alloc, metadata, caller, files),
            Err(fault) => Err(of_question(fault)),
        }
    }

    /// Asks for what follows the metadata.
    fn load_behind<C: Caller, F: Files>(
        &self,
        alloc: Global,
        metadata: Metadata,
        caller: &mut C,
        files: &mut F,
    ) -> Result<Loaded, ContextFault>
        ensures stays { F.stays files.old files.new }
        ensures left { ReadsOnly F.tells (F.bytes_at files.old) (F.bytes_at files.new)
            (F.failed files.old) (F.failed files.new) result }
        ensures untraced { F.whole → Makes [] (F.trace files.old) (F.trace files.new)
            (F.bytes_at files.old) (F.bytes_at files.new) }
        ensures calls { FailsOnlyReading F.Files (λ path. (C.tells
            → C.calls caller.new ≡ C.calls caller.old)
            × IsMemberPath (metadata_view metadata) path) files.old files.new result }
        ensures read { IfOk result (IsLoaded F.tells (F.bytes_at files.old) self.now.env.now) }
        ensures asked { C.tells → LoadsFromMetadata F.tells self.now.args.now self.now.env.now
            (F.bytes_at files.old) (F.failed files.old) (F.failed files.new) metadata
            (C.calls caller.old) (C.calls caller.new) result }
        ensures course { C.course caller.old caller.new }
    {
        let manifests = match manifests_of(alloc, &metadata, files) {
            Ok(manifests) => manifests,
            Err(fault) => return Err(fault),
        };
        let located = match Located::ask(alloc, self.args, self.env, caller) {
            Ok(located) => located,
            Err(fault) => return Err(fault),
        };
        let cargo = self.env.cargo.clone()?;
        let current_dir = self.env.current_dir.clone()?;
        Ok(Loaded {
            cargo,
            current_dir,
            metadata,
            manifests,
            located,
        })
    }
}

fn of_question(fault: AskFault) -> ContextFault
    ensures { IsAskFault fault result }
{
    match fault {
        AskFault::Memory => ContextFault::Memory,
        fault => ContextFault::Asked(fault),
    }
}
