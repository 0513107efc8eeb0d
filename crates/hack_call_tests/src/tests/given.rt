//! Calls from short texts: the arguments after `hack`, and a context in a workspace.

use crate::tests::workspace::{manifest_text, members_and_table, metadata_text, no_graph};
use hack_holds::Wrong;
use hack_load::context::{Answers, Context, Loaded, Located};
use hack_manifest::manifest::Manifest;
use hack_metadata::metadata::{Metadata, MetadataFault, object_of};
use hack_versions::rustup::Rustup;
use hack_words::cli::{Args, CliFault, Env, Parsed};
use std::alloc::{AllocError, Global};

const NO_MANIFESTS: &str = "no manifests, or a member twice";

/// The answer to a row that makes no call: why it makes none.
pub fn reason(wrong: Wrong) -> Result<String, AllocError> {
    match wrong {
        Wrong::Row(why) => Ok(why),
        Wrong::Memory => Err(AllocError),
    }
}

fn no_call(alloc: Global, why: &str) -> Wrong {
    String::from_str(alloc, why).map_or(Wrong::Memory, Wrong::Row)
}

/// The environment of a call in `/w` with these variables.
pub fn env_of(alloc: Global, variables: &[(String, String)]) -> Result<Env, AllocError> {
    Env::new(alloc, variables, String::from_str(alloc, "/w")?)
}

/// `hack` and the arguments after it.
fn words_of(alloc: Global, text: &str) -> Result<Vec<String>, Wrong> {
    let mut words = Vec::new(alloc);
    words.push(String::from_str(alloc, "hack")?)?;
    for word in text.split_whitespace() {
        words.push(String::from_str(alloc, word)?)?;
    }
    Ok(words)
}

fn parsed(alloc: Global, words: &[String], env: &Env) -> Result<Parsed, CliFault> {
    let answer = Args::parse(alloc, words, env, Rustup::Known(27))?;
    Ok(answer.0)
}

/// The parsed arguments after `hack`.
pub fn args_of(alloc: Global, env: &Env, text: &str) -> Result<Args, Wrong> {
    let words = words_of(alloc, text)?;
    match parsed(alloc, words.as_slice(), env) {
        Ok(Parsed::Args(args)) => Ok(args),
        _ => Err(no_call(alloc, "no arguments")),
    }
}

/// Reads a text as the metadata that a cargo of this minor version reports.
pub fn read(alloc: Global, text: &str, minor: u32) -> Result<Metadata, MetadataFault> {
    Metadata::from_obj(alloc, object_of(alloc, text)?, minor)
}

/// The manifest of a member, read as with cargo 1.90.
pub fn manifest_of(alloc: Global, member: &str) -> Result<Manifest, Wrong> {
    let text = manifest_text(alloc, member)?;
    match Manifest::new(alloc, "/w/p/Cargo.toml", text, 90) {
        Ok(manifest) => Ok(manifest),
        Err(_) => Err(no_call(alloc, NO_MANIFESTS)),
    }
}

/// The manifest of each member.
fn manifests_of(alloc: Global, members: &str) -> Result<Vec<Manifest>, Wrong> {
    let mut manifests = Vec::new(alloc);
    for member in members.split(';') {
        manifests.push(manifest_of(alloc, member)?)?;
    }
    Ok(manifests)
}

/// The command that finds the current package, and what it wrote.
pub fn located(alloc: Global, text: String) -> Result<Located, AllocError> {
    let command = String::from_str(alloc, "`cargo locate-project`")?;
    Ok(Located { command, text })
}

fn loaded(alloc: Global, whole: &str, current: &str) -> Result<Loaded, Wrong> {
    let (members, table) = members_and_table(whole);
    let root = format!(in alloc; "{{\"root\":\"/w/{current}/Cargo.toml\"}}")?;
    let graph = no_graph(alloc, table)?;
    let text = metadata_text(alloc, members, "", graph.as_str())?;
    let Ok(metadata) = read(alloc, text.as_str(), 90) else {
        return Err(no_call(alloc, "no metadata"));
    };
    let manifests = manifests_of(alloc, members)?;
    if manifests.len() != metadata.workspace_members.len() {
        return Err(no_call(alloc, NO_MANIFESTS));
    }
    Ok(Loaded {
        cargo: String::from_str(alloc, "/bin/cargo")?,
        current_dir: String::from_str(alloc, "/w")?,
        metadata,
        manifests,
        located: located(alloc, root)?,
    })
}

fn cargo_version(alloc: Global, minor: Option<u32>) -> Result<Result<u32, String>, AllocError> {
    match minor {
        Some(minor) => Ok(Ok(minor)),
        None => Ok(Err(String::from_str(alloc, "unknown")?)),
    }
}

/// What a call is made from.
#[derive(Clone, Copy)]
pub struct Given<'a> {
    pub members: &'a str,
    /// The current package.
    pub current: &'a str,
    /// Cargo's own minor version; none where it is unknown.
    pub minor: Option<u32>,
    /// The error of asking for the version of the toolchain `stable`; without one it is 1.66.
    pub stable: Option<&'a str>,
    /// The piece of the plan that runs.
    pub piece: &'a str,
    /// The arguments after `hack`.
    pub words: &'a str,
}

/// The context of a call.
pub fn context_of(alloc: Global, given: Given<'_>) -> Result<Context, Wrong> {
    let env = env_of(alloc, &[])?;
    let args = args_of(alloc, &env, given.words)?;
    let loaded = loaded(alloc, given.members, given.current)?;
    let cargo_version = cargo_version(alloc, given.minor)?;
    let answers = Answers {
        cargo_version,
        loaded: Ok(loaded),
    };
    match Context::new(alloc, args, answers) {
        Ok((context, _)) => Ok(context),
        Err(_) => Err(no_call(alloc, "no context")),
    }
}
