//! Questions of a call to its environment: the arguments after `hack`, with settings of the
//! environment before ` $ `. The answer has the commands that were called, then how many files were
//! left changed and how many calls of files failed with the content of the lockfile, and then the
//! result.

ghost use Rattle.std.specs.Prelude.{◌<◌, Contains, length};
ghost use Rattle.hack_load.specs.ContextView.{context_view};

use crate::tests::commands::commands;
use crate::tests::given::{args_of, env_of, reason};
use crate::tests::shared::with_shared;
use crate::tests::shown::{name_of, push_notices};
use crate::tests::workspace::push_all;
use crate::tests::world::{Stage, stage_of};
use hack_base::notice::Notice;
use hack_features::feature::Feature;
use hack_files::fs::{FailingFiles, Files, MemoryFiles};
use hack_files::restore::Manager;
use hack_holds::{Ask, Wrong, hold};
use hack_load::context::{Answers, Context, ContextFault};
use hack_load::metadata::PackageId;
use hack_metadata::metadata::{AskFault, Metadata};
use hack_process::process::Made;
use hack_term::term::{Coloring, Term};
use hack_words::cli::{Args, Env};
use std::alloc::{AllocError, Global};

/// What is shown of the result.
#[derive(Clone, Copy)]
pub enum Show {
    /// The whole context, with the notices.
    Context,
    /// Only the current package, the members and the notices.
    Members,
    /// Only what the context gives commands.
    Commands,
    /// The metadata, for which a cargo 1.70 is asked.
    Metadata,
}

/// Calls in an environment.
#[derive(Clone, Copy)]
struct Loading<'a> {
    show: Show,
    world: &'a str,
}

/// Writes the files back.
fn restored(alloc: Global, manager: Manager, stage: &mut Stage) {
    let mut term = Term::new(Coloring::Never, false);
    stage.left = manager.restore_all(None, &mut stage.files, &mut term, &mut Vec::new(alloc));
}

fn ask_context(
    alloc: Global,
    stage: &mut Stage,
    env: &Env,
    args: Args,
) -> Result<(Context, Vec<Notice>), ContextFault> {
    let mut manager = Manager::new(alloc, true);
    let caller = &mut stage.caller;
    let answers = Answers::ask(alloc, &args, env, caller, &mut stage.files, &mut manager);
    restored(alloc, manager, stage);
    Context::new(alloc, args, answers)
}

fn ask_metadata(
    alloc: Global,
    stage: &mut Stage,
    env: &Env,
    args: &Args,
) -> Result<Metadata, AskFault> {
    let mut manager = Manager::new(alloc, false);
    let answer = Metadata::new(
        alloc,
        args,
        env,
        70,
        stage.host.as_deref(),
        &mut stage.caller,
        &mut stage.files,
        &mut manager,
    );
    restored(alloc, manager, stage);
    answer
}

fn metadata_outcome(
    alloc: Global,
    stage: &mut Stage,
    env: &Env,
    args: &Args,
) -> Result<String, AllocError> {
    match ask_metadata(alloc, stage, env, args) {
        Ok(metadata) => {
            let minor = metadata.cargo_version;
            format!(in alloc; "read as 1.{minor}")
        }
        Err(fault) => format!(in alloc; "{fault}"),
    }
}

fn push_features(text: &mut String, features: &[Feature]) -> Result<(), AllocError> {
    for feature in features {
        push_all(text, &[" ", feature.name()])?;
    }
    Ok(())
}

/// Appends a member to the text: its name and its manifest's path, whether it is private, its
/// version, the length of its manifest, and its candidates.
fn push_member(
    text: &mut String,
    alloc: Global,
    cx: &Context,
    id: PackageId,
) -> Result<(), AllocError>
    requires member { Contains (context_view cx.now).metadata.workspace_members id.index }
    requires within { id.index < length (context_view cx.now).metadata.packages }
{
    let name = cx.name_verbose(id);
    let private = cx.is_private(id);
    let long = cx.manifests(id).text.len();
    text.push_str(format!(in alloc; "\n{name} at ")?.as_str())?;
    text.push_str(cx.packages(id).manifest_path.as_str())?;
    text.push_str(format!(in alloc; ", private: {private}, ")?.as_str())?;
    text.push_str(cx.rust_version(id).unwrap_or("none"))?;
    text.push_str(format!(in alloc; ", {long}:")?.as_str())?;
    push_features(text, cx.pkg_features(id).normal())
}

/// Appends the current package, the members and the notices to the text.
fn push_members(
    text: &mut String,
    alloc: Global,
    cx: &Context,
    notices: &[Notice],
) -> Result<(), AllocError> {
    let current = match cx.current_package() {
        Some(id) => name_of(cx.metadata(), id),
        None => "none",
    };
    push_all(text, &["at ", current])?;
    for id in cx.workspace_members() {
        push_member(text, alloc, cx, *id)?;
    }
    push_notices(text, notices)
}

/// The workspace's folder, cargo with its own minor version and the one that reported the metadata,
/// and the current folder.
fn place_text(alloc: Global, cx: &Context) -> Result<String, AllocError> {
    let root = cx.workspace_root();
    let dir = cx.current_dir();
    let own = cx.cargo_minor();
    let told = cx.metadata().cargo_version;
    let cargo = cx.cargo(alloc)?;
    format!(in alloc; "{root} by {cargo} 1.{own} (1.{told}) in {dir}\n")
}

fn members_text(alloc: Global, cx: &Context, notices: &[Notice]) -> Result<String, AllocError> {
    let mut text = String::new(alloc);
    push_members(&mut text, alloc, cx, notices)?;
    Ok(text)
}

fn context_text(alloc: Global, cx: &Context, notices: &[Notice]) -> Result<String, AllocError> {
    let mut text = place_text(alloc, cx)?;
    push_members(&mut text, alloc, cx, notices)?;
    Ok(text)
}

fn context_outcome(
    alloc: Global,
    show: Show,
    stage: &mut Stage,
    env: &Env,
    args: Args,
) -> Result<String, AllocError> {
    match ask_context(alloc, stage, env, args) {
        Ok((cx, notices)) => match show {
            Show::Members => members_text(alloc, &cx, notices.as_slice()),
            Show::Commands => commands(alloc, &cx),
            _ => context_text(alloc, &cx, notices.as_slice()),
        },
        Err(fault) => format!(in alloc; "{fault}"),
    }
}

/// The result of a call's questions.
fn outcome(
    alloc: Global,
    show: Show,
    stage: &mut Stage,
    words: &str,
) -> Result<String, AllocError> {
    let env = env_of(alloc, stage.variables.as_slice())?;
    match args_of(alloc, &env, words) {
        Ok(args) => match show {
            Show::Metadata => metadata_outcome(alloc, stage, &env, &args),
            _ => context_outcome(alloc, show, stage, &env, args),
        },
        Err(why) => reason(why),
    }
}

/// Appends the calls to the text, one line for each.
fn push_calls(text: &mut String, alloc: Global, made: &[Made]) -> Result<(), AllocError> {
    for call in made {
        text.push_str(format!(in alloc; "{call}\n")?.as_str())?;
    }
    Ok(())
}

/// Appends bytes to the text, those that are no UTF-8 as `\x`.
fn push_bytes(text: &mut String, bytes: &[u8]) -> Result<(), AllocError> {
    for byte in bytes {
        match *byte {
            255 => text.push_str("\\x")?,
            byte => text.push(char::from(byte))?,
        }
    }
    Ok(())
}

/// Appends the content of the lockfile to the text, if there is one.
fn push_lockfile(
    text: &mut String,
    alloc: Global,
    files: &mut FailingFiles<MemoryFiles>,
) -> Result<(), AllocError> {
    match files.read(alloc, "/w/Cargo.lock") {
        Ok(bytes) => {
            text.push_str(", lockfile '")?;
            push_bytes(text, bytes.as_slice())?;
            text.push_str("'")
        }
        Err(_) => Ok(()),
    }
}

/// Appends what was asked to the text, and the state of the files afterwards.
fn push_questions(text: &mut String, alloc: Global, stage: &mut Stage) -> Result<(), AllocError> {
    push_calls(text, alloc, stage.caller.made())?;
    let left = stage.left;
    let failed = stage.files.failures();
    text.push_str(format!(in alloc; "{left} of {failed}")?.as_str())?;
    push_lockfile(text, alloc, &mut stage.files)
}

fn told(alloc: Global, show: Show, stage: &mut Stage, words: &str) -> Result<String, AllocError> {
    let outcome = outcome(alloc, show, stage, words)?;
    if matches!(show, Show::Members | Show::Commands) {
        return Ok(outcome);
    }
    let mut text = String::new(alloc);
    push_questions(&mut text, alloc, stage)?;
    push_all(&mut text, &["\n", outcome.as_str()])?;
    Ok(text)
}

impl Ask for Loading<'_> {
    fn answer(&mut self, alloc: Global, question: &str) -> Result<String, AllocError> {
        let (first, words) = question.split_once(" $ ").unwrap_or(("", question));
        let mut stage = stage_of(alloc, first, self.world)?;
        told(alloc, self.show, &mut stage, words)
    }
}

/// Checks rows in this environment; both may have texts of `shared`.
pub fn within(alloc: Global, show: Show, world: &str, rows: &str) -> Result<(), Wrong> {
    let world = with_shared(alloc, world)?;
    let rows = with_shared(alloc, rows)?;
    let mut loading = Loading {
        show,
        world: world.as_str(),
    };
    hold(alloc, &mut loading, rows.as_str())
}
