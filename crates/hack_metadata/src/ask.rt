//! Asks cargo for the metadata of a workspace. A cargo doesn't report what only a newer one knows,
//! so stable's cargo is asked where it is newer, and what it does to the lockfile is undone.

ghost use Rattle.std.specs.Prelude.{◌≡◌, ◌⊎◌, ◌∷◌, [], ℕ, List, Err, Some, None, IfOk, IfErr};
ghost use Rattle.std.specs.Prelude.{OnOk, OnErr, MatchOption, option_copied, string_bytes, true};
ghost use Rattle.hack_files.specs.Files.{KeepsAll, KeepsAllBut, Makes};
ghost use Rattle.hack_files.specs.FailedCalls.{NoneFailed};
ghost use Rattle.hack_files.specs.Restore.{registered_files};
ghost use Rattle.hack_process.specs.Calls.{Call, MayAdd};
ghost use Rattle.hack_process.specs.Commands.{asked_of, command_of};
ghost use Rattle.hack_metadata.specs.InternalAskView.{question_of};
ghost use Rattle.hack_metadata.specs.QuestionCalls.{FailsToRead, IsLockfile, LeadsToStage};
ghost use Rattle.hack_metadata.specs.QuestionCalls.{ReadsOutput, first, locked, newer};
ghost use Rattle.hack_metadata.specs.InternalQuestionCalls.{AsksCargo, FailsFirst, FallsBack};
ghost use Rattle.hack_metadata.specs.FailedQuestions.{EndsQuestion, FailsOnlyAt, IsOfLook, IsPutBack};
ghost use Rattle.hack_metadata.specs.FilesAfterAsking.{LeavesFiles};
ghost use Rattle.hack_metadata.specs.Internal.{FailsOver, IsNoFileFault, PutsHeld};
ghost use Rattle.hack_metadata.specs.Requests.{first_command, full_of, question};

mod answers;
mod commands;
pub(crate) mod fault;
mod lockfile;

use crate::ask::answers::{metadata_in, read, root_in, run, try_read};
use crate::ask::commands::{command, full_words, manifest_words, stable_minor};
use crate::ask::fault::AskFault;
use crate::ask::lockfile::{is_there, keep, put_back};
use crate::metadata::Metadata;
use hack_base::paths::join;
use hack_files::fs::Files;
use hack_files::restore::Manager;
use hack_process::process::{Caller, ProcessBuilder};
use hack_words::cli::{Args, Env};
use std::alloc::{AllocError, Global};

impl Metadata {
    /// Asks cargo, whose minor version and host are given, for the metadata of the workspace; or
    /// stable's cargo where that is newer. Before stable's cargo runs, the lockfile is made where
    /// there is none; after it, the lockfile is written back. Where stable's cargo fails, the
    /// answer of cargo itself is used. At most the lockfile is written, and nothing but a refused
    /// write of it leaves it changed.
    #[tactic(auto, using(crate::proofs::SpoiltLemmas::unspoilt))]
    pub fn new<C: Caller, F: Files>(
        alloc: Global,
        args: &Args,
        env: &Env,
        cargo_version: u32,
        host: Option<&str>,
        caller: &mut C,
        files: &mut F,
        manager: &mut Manager,
    ) -> Result<Metadata, AskFault>
        ensures stays { F.stays files.old files.new }
        ensures left { (path : List ℕ) × LeavesFiles path F.tells (F.bytes_at files.old)
            (F.bytes_at files.new) (F.failed files.old) (F.failed files.new) result }
        ensures spoilt { KeepsAllBut (F.refuses files.old files.new) F.tells
            (F.bytes_at files.old) (F.bytes_at files.new) }
        ensures calls { (path : List ℕ) × FailsOnlyAt F.Files path files.old files.new result }
        ensures ends { C.tells → EndsQuestion F.Files files.old files.new
            (question args.now env.now cargo_version (option_copied host.entry))
            (C.calls caller.old) (C.calls caller.new) result }
        ensures kept { registered_files manager.new ≡ registered_files manager.old }
        ensures needs { manager.new.needs_restore ≡ manager.old.needs_restore }
        ensures course { C.course caller.old caller.new }
    {
        let stable = stable_minor(alloc, env, caller)?;
        let question = Question::new(alloc, args, env, cargo_version, host)?;
        if stable > cargo_version {
            return question.ask_stable(alloc, stable, caller, files, manager);
        }
        question.ask_cargo(alloc, caller)
    }
}

/// The question for the metadata: what is asked, and the programs that are asked.
#[derive(Drop)]
struct Question<'a> {
    args: &'a Args,
    env: &'a Env,
    cargo_version: u32,
    /// The arguments of the full request.
    full: Vec<String>,
}

/// The first answer of cargo itself, where stable's is newer: the command, what it wrote, and the
/// path of the lockfile.
#[derive(Drop)]
struct First<'a> {
    command: ProcessBuilder<'a>,
    text: String,
    lockfile: String,
}

/// A request to stable's cargo, and the path of the lockfile, which it may change.
#[derive(Drop)]
struct OverLockfile<'a> {
    asked: &'a ProcessBuilder<'a>,
    lockfile: &'a str,
}

impl<'a> Question<'a> {
    fn new(
        alloc: Global,
        args: &'a Args,
        env: &'a Env,
        cargo_version: u32,
        host: Option<&str>,
    ) -> Result<Question<'a>, AskFault>
        ensures ok { IfOk result (λ q. question_of q
            ≡ question args.now env.now cargo_version (option_copied host.entry)) }
        ensures err { IfErr result (λ e. (e ≡ AskFault.Memory) ⊎ ((e ≡ AskFault.NoHost)
            × (full_of args.now (option_copied host.entry) ≡ None))) }
    {
        let full = full_words(alloc, args, host)?;
        Ok(Question {
            args,
            env,
            cargo_version,
            full,
        })
    }

    /// Makes the full request to cargo.
    fn ask_cargo<C: Caller>(&self, alloc: Global, caller: &mut C) -> Result<Metadata, AskFault>
        ensures asked { C.tells → AsksCargo (question_of self.now) (C.calls caller.old)
            (C.calls caller.new) result }
        ensures spares { IfErr result IsNoFileFault }
        ensures course { C.course caller.old caller.new }
    {
        let asked = command(alloc, self.env.cargo.as_str(), &[], &self.full)?;
        let text = read(alloc, &asked, self.env, caller)?;
        metadata_in(
            alloc,
            text.as_str(),
            self.cargo_version,
            &asked,
            self.args,
            self.env,
        )
    }

    /// Asks stable's cargo, of this minor version, after a first request to cargo, whose answer
    /// says where the lockfile is.
    fn ask_stable<C: Caller, F: Files>(
        &self,
        alloc: Global,
        minor: u32,
        caller: &mut C,
        files: &mut F,
        manager: &mut Manager,
    ) -> Result<Metadata, AskFault>
        ensures stays { F.stays files.old files.new }
        ensures left { (path : List ℕ) × LeavesFiles path F.tells (F.bytes_at files.old)
            (F.bytes_at files.new) (F.failed files.old) (F.failed files.new) result }
        ensures spoilt { KeepsAllBut (F.refuses files.old files.new) F.tells
            (F.bytes_at files.old) (F.bytes_at files.new) }
        ensures calls { (path : List ℕ) × FailsOnlyAt F.Files path files.old files.new result }
        ensures ends { C.tells → (start : List Call)
            → LeadsToStage F.tells (question_of self.now) (F.bytes_at files.old) start
            (newer minor) (C.calls caller.old) []
            → EndsQuestion F.Files files.old files.new (question_of self.now) start
            (C.calls caller.new) result }
        ensures kept { registered_files manager.new ≡ registered_files manager.old }
        ensures needs { manager.new.needs_restore ≡ manager.old.needs_restore }
        ensures course { C.course caller.old caller.new }
    {
        let first = self.first(alloc, caller)?;
        self.make_lockfile(alloc, first.lockfile.as_str(), caller, files)?;
        let words = ["run", "stable", "cargo"];
        let asked = command(alloc, self.env.rustup.as_str(), &words, &self.full)?;
        let lockfile = first.lockfile.as_str();
        let over = OverLockfile {
            asked: &asked,
            lockfile,
        };
        let told = self.read_over(alloc, &over, caller, files, manager)?;
        match told {
            Some(text) => metadata_in(alloc, text.as_str(), minor, &asked, self.args, self.env),
            None => self.fall_back(alloc, &first, caller),
        }
    }

    /// Asks cargo for the metadata without dependencies.
    fn first<C: Caller>(&self, alloc: Global, caller: &mut C) -> Result<First<'a>, AskFault>
        ensures command { IfOk result (λ f.
            command_of f.command ≡ first_command (question_of self.now)) }
        ensures lockfile { IfOk result (λ f.
            IsLockfile (string_bytes f.text) (string_bytes f.lockfile)) }
        ensures ok { IfOk result (λ f. C.tells → ReadsOutput (first_command (question_of self.now))
            (string_bytes f.text) (C.calls caller.old) (C.calls caller.new)) }
        ensures err { IfErr result (λ e. C.tells → (minor : ℕ)
            → FailsFirst (question_of self.now) minor
            (C.calls caller.old) (C.calls caller.new) e) }
        ensures spares { IfErr result IsNoFileFault }
        ensures course { C.course caller.old caller.new }
    {
        let words = ["metadata", "--format-version=1", "--no-deps"];
        let rest = manifest_words(alloc, self.args)?;
        let command = command(alloc, self.env.cargo.as_str(), &words, &rest)?;
        let text = read(alloc, &command, self.env, caller)?;
        let root = root_in(alloc, text.as_str(), &command, self.args, self.env)?;
        let lockfile = join(alloc, root.as_str(), "Cargo.lock")?;
        Ok(First {
            command,
            text,
            lockfile,
        })
    }

    /// Makes the lockfile by `cargo generate-lockfile`, where there is none.
    fn make_lockfile<C: Caller, F: Files>(
        &self,
        alloc: Global,
        lockfile: &str,
        caller: &mut C,
        files: &mut F,
    ) -> Result<(), AskFault>
        ensures stays { F.stays files.old files.new }
        ensures left { LeavesFiles lockfile.now F.tells (F.bytes_at files.old)
            (F.bytes_at files.new)
            (F.failed files.old) (F.failed files.new) result }
        ensures same { F.tells → KeepsAll (F.bytes_at files.old) (F.bytes_at files.new) }
        ensures untraced { F.whole → Makes [] (F.trace files.old) (F.trace files.new)
            (F.bytes_at files.old) (F.bytes_at files.new) }
        ensures none { OnOk result (NoneFailed F.Files files.old files.new) }
        ensures looked { IfErr result (IsOfLook F.Files lockfile.now files.old files.new) }
        ensures ok { OnOk result (C.tells → (start : List Call) (minor : ℕ) (text : List ℕ)
            → IsLockfile text lockfile.now → LeadsToStage F.tells (question_of self.now)
            (F.bytes_at files.old)
            start (first minor text) (C.calls caller.old) []
            → LeadsToStage F.tells (question_of self.now)
            (F.bytes_at files.old) start (locked minor text) (C.calls caller.new) []) }
        ensures err { IfErr result (λ e. C.tells → (start : List Call) (minor : ℕ) (text : List ℕ)
            → IsLockfile text lockfile.now → LeadsToStage F.tells (question_of self.now)
            (F.bytes_at files.old) start (first minor text) (C.calls caller.old) []
            → EndsQuestion F.Files files.old files.new (question_of self.now) start
            (C.calls caller.new) (Err e)) }
        ensures course { C.course caller.old caller.new }
    {
        if is_there(alloc, lockfile, files)? {
            return Ok(());
        }
        let words = ["generate-lockfile"];
        let rest = manifest_words(alloc, self.args)?;
        let asked = command(alloc, self.env.cargo.as_str(), &words, &rest)?;
        run(alloc, &asked, self.env, caller)
    }

    /// Runs a command, puts the lockfile back after it, and returns what the command wrote. None
    /// where the command failed.
    fn read_over<C: Caller, F: Files>(
        &self,
        alloc: Global,
        over: &OverLockfile<'_>,
        caller: &mut C,
        files: &mut F,
        manager: &mut Manager,
    ) -> Result<Option<String>, AskFault>
        ensures stays { F.stays files.old files.new }
        ensures left { LeavesFiles over.now.lockfile.now F.tells (F.bytes_at files.old)
            (F.bytes_at files.new)
            (F.failed files.old) (F.failed files.new) result }
        ensures spoilt { KeepsAllBut (F.refuses files.old files.new) F.tells
            (F.bytes_at files.old) (F.bytes_at files.new) }
        ensures calls { FailsOnlyAt F.Files over.now.lockfile.now files.old files.new result }
        ensures undone { IsPutBack F.Files over.now.lockfile.now
            (C.tells → C.calls caller.new ≡ C.calls caller.old) files.old files.new }
        ensures kept { registered_files manager.new ≡ registered_files manager.old }
        ensures needs { manager.new.needs_restore ≡ manager.old.needs_restore }
        ensures ok { IfOk result (λ told. C.tells → MatchOption told
            (FailsToRead (command_of over.now.asked.now) (C.calls caller.old)
            (C.calls caller.new))
            (λ text. ReadsOutput (command_of over.now.asked.now) (string_bytes text)
            (C.calls caller.old) (C.calls caller.new))) }
        ensures err { IfErr result (FailsOver over.now.lockfile.now
            (C.tells → C.calls caller.new ≡ C.calls caller.old)
            (C.tells → MayAdd (asked_of true (command_of over.now.asked.now))
            (C.calls caller.old) (C.calls caller.new))) }
        ensures back { OnOk result (PutsHeld F.tells (F.bytes_at files.old) over.now.lockfile.now
            (λ put. F.whole → Makes (put ∷ []) (F.trace files.old) (F.trace files.new)
            (F.bytes_at files.old) (F.bytes_at files.new))) }
        ensures refused { OnErr result (F.whole → Makes [] (F.trace files.old)
            (F.trace files.new) (F.bytes_at files.old) (F.bytes_at files.new)
            ⊎ PutsHeld F.tells (F.bytes_at files.old) over.now.lockfile.now
            (λ put. Makes (put ∷ []) (F.trace files.old) (F.trace files.new)
            (F.bytes_at files.old) (F.bytes_at files.new))) }
        ensures course { C.course caller.old caller.new }
    {
        keep(alloc, over.lockfile, files, manager)?;
        let told = try_read(alloc, over.asked, self.env, caller);
        put_back(files, manager)?;
        match told {
            Ok(told) => Ok(told),
            Err(AllocError) => Err(AskFault::Memory),
        }
    }

    /// Returns the metadata where stable's cargo failed: those of the first answer, which has no
    /// dependencies; or, where dependencies are wanted, those of the full request to cargo.
    fn fall_back<C: Caller>(
        &self,
        alloc: Global,
        first: &First<'_>,
        caller: &mut C,
    ) -> Result<Metadata, AskFault>
        ensures fell { C.tells → command_of first.now.command ≡ first_command (question_of self.now)
            → FallsBack (question_of self.now) (string_bytes first.now.text)
            (C.calls caller.old) (C.calls caller.new) result }
        ensures spares { IfErr result IsNoFileFault }
        ensures course { C.course caller.old caller.new }
    {
        if self.args.include_deps_features {
            return self.ask_cargo(alloc, caller);
        }
        let text = first.text.as_str();
        metadata_in(
            alloc,
            text,
            self.cargo_version,
            &first.command,
            self.args,
            self.env,
        )
    }
}
