//! The scene of a call: the world, with its arguments, a terminal and both streams.

use crate::tests::world::{caller_of, coloring_of, env_of, files_of, number};
use hack_files::fs::{FailingFiles, FailingWriter, MemoryFiles};
use hack_files::restore::Manager;
use hack_holds::Wrong;
use hack_load::context::{Answers, Context};
use hack_process::process::FakeCaller;
use hack_run::host::Host;
use hack_term::term::Term;
use hack_versions::rustup::Rustup;
use hack_words::cli::{Args, CliFault, Env, Parsed};
use std::alloc::{AllocError, Global};

/// What a call is made with, and the state that it leaves.
#[derive(Drop)]
pub struct Scene {
    pub words: Vec<String>,
    pub env: Env,
    pub term: Term,
    pub files: FailingFiles<MemoryFiles>,
    /// How many changes it took to make the world.
    pub first: usize,
    pub caller: FakeCaller,
    pub out: FailingWriter<Vec<u8>>,
    pub err: Vec<u8>,
}

/// A host with what a scene has for it.
pub type SceneHost<'a> = Host<'a, FakeCaller, FailingWriter<Vec<u8>>, Vec<u8>>;

impl Scene {
    /// The arguments, the files, and the host of a call.
    pub fn parts(
        &mut self,
        alloc: Global,
    ) -> (&[String], &mut FailingFiles<MemoryFiles>, SceneHost<'_>) {
        let host = Host::new(
            alloc,
            &self.env,
            &mut self.term,
            &mut self.caller,
            &mut self.out,
            &mut self.err,
        );
        (self.words.as_slice(), &mut self.files, host)
    }
}

pub fn words_of(alloc: Global, text: &str) -> Result<Vec<String>, AllocError> {
    let mut words = Vec::new(alloc);
    for word in text.split_whitespace() {
        words.push(String::from_str(alloc, word)?)?;
    }
    Ok(words)
}

pub fn scene_of(alloc: Global, world: &str, words: &str) -> Result<Scene, AllocError> {
    let files = files_of(alloc, world)?;
    let caller = caller_of(alloc, world)?;
    let env = env_of(alloc, world)?;
    let words = words_of(alloc, words)?;
    let first = files.steps().len();
    Ok(Scene {
        words,
        env,
        term: Term::new(coloring_of(world), false),
        files: FailingFiles::new(files, number(world, "broken call")),
        first,
        caller,
        out: FailingWriter::new(Vec::new(alloc), number(world, "broken write")),
        err: Vec::new(alloc),
    })
}

/// The answer, or why there is none, as text.
pub fn told(answer: Result<String, Wrong>) -> Result<String, AllocError> {
    match answer {
        Ok(text) | Err(Wrong::Row(text)) => Ok(text),
        Err(Wrong::Memory) => Err(AllocError),
    }
}

/// The error of a question that has no answer, and says why.
pub fn unanswered(alloc: Global, why: &str) -> Wrong {
    match String::from_str(alloc, why) {
        Ok(why) => Wrong::Row(why),
        Err(_) => Wrong::Memory,
    }
}

fn parsed(alloc: Global, words: &[String], env: &Env) -> Result<Parsed, CliFault> {
    let answer = Args::parse(alloc, words, env, Rustup::Known(27))?;
    Ok(answer.0)
}

fn args_of(alloc: Global, words: &[String], env: &Env) -> Result<Args, Wrong> {
    match parsed(alloc, words, env) {
        Ok(Parsed::Args(args)) => Ok(args),
        _ => Err(unanswered(alloc, "no arguments")),
    }
}

/// The context for the arguments, for which the caller and the files are asked.
pub fn context_of(alloc: Global, scene: &mut Scene) -> Result<Context, Wrong> {
    let args = args_of(alloc, scene.words.as_slice(), &scene.env)?;
    let mut manager = Manager::new(alloc, true);
    let answers = Answers::ask(
        alloc,
        &args,
        &scene.env,
        &mut scene.caller,
        &mut scene.files,
        &mut manager,
    );
    let _ = manager.restore_all(None, &mut scene.files, &mut scene.term, &mut scene.err);
    match Context::new(alloc, args, answers) {
        Ok((context, _)) => Ok(context),
        Err(_) => Err(unanswered(alloc, "no context")),
    }
}
