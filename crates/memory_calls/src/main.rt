//! The eight calls that take memory step by step, one after the other, on a workspace of one package
//! in memory. Each adds to what is printed at the end; where memory is refused, the name of the call
//! and the error go to standard error, and the status is 1. `tests/refused_memory.py` refuses each
//! growth in turn.
#![tactic(auto)]

use hack_edits::manifest::{EditFault, remove_dev_deps};
use hack_features::{Feature, Rules, pruned};
use hack_files::fs::{Files, MemoryFiles};
use hack_files::restore::Manager;
use hack_load::context::{Answers, Context, ContextFault};
use hack_planner::fault::PlanFault;
use hack_planner::plan::{Plan, plan_of};
use hack_planner::stable::Stable;
use hack_prepare::manifest::{PrepareFault, prepare};
use hack_process::process::{End, FakeCaller};
use hack_session::session::{Outcome, Session};
use hack_term::term::{Coloring, Term};
use hack_versions::rustup::Rustup;
use hack_versions::version::Version;
use hack_words::cli::{Args, CliFault, Env, Parsed};
use std::alloc::{AllocError, Global};
use std::io;
use std::process::ExitCode;

const WORDS: &str = "hack check --feature-powerset --no-dev-deps --version-range 1.60..=1.61";

const STABLE: Version = Version {
    major: 1,
    minor: 90,
    patch: None,
};

const PATH: &str = "/w/Cargo.toml";

const MANIFEST: &str = r#"[package]
name = "p"
version = "0.1.0"

[features]
a = []
b = ["a", "d/x"]
c = []

[dev-dependencies]
d = "1"
"#;

/// What cargo reports of the workspace.
const TOLD: &str =
    r#"{"packages":[{"id":"p","name":"p","version":"0.1.0","dependencies":[],"features":{"a":[],"b":["a"],"c":[]},"manifest_path":"/w/Cargo.toml","publish":null,"rust_version":null}],"workspace_members":["p"],"workspace_root":"/w","resolve":null}"#;

/// Why not all calls were made.
enum Fault {
    /// Memory was refused in this call.
    Memory(&'static str),
    /// Something else came of this one.
    Other(&'static str),
}

impl From<AllocError> for Fault {
    fn from(_e: AllocError) -> Fault {
        Fault::Memory("the workspace")
    }
}

fn env_of(alloc: Global) -> Result<Env, AllocError> {
    Env::new(alloc, &[], String::from_str(alloc, "/w")?)
}

fn caller_of(alloc: Global) -> Result<FakeCaller, AllocError> {
    let mut caller = FakeCaller::new(alloc, End::Status(0));
    let metadata = "cargo metadata --format-version=1 --no-deps";
    let located = r#"{"root":"/w/Cargo.toml"}"#;
    let release = "release: 1.90.0\nhost: h\n";
    caller.answer("cargo -vV", End::Status(0), release.as_bytes(), b"")?;
    caller.answer(metadata, End::Status(0), TOLD.as_bytes(), b"")?;
    caller.answer(
        "cargo locate-project",
        End::Status(0),
        located.as_bytes(),
        b"",
    )?;
    Ok(caller)
}

fn files_of(alloc: Global) -> Result<MemoryFiles, AllocError> {
    let mut files = MemoryFiles::new(alloc);
    match files.write(PATH, MANIFEST.as_bytes()) {
        Ok(()) => Ok(files),
        Err(_) => Err(AllocError),
    }
}

fn words_of(alloc: Global) -> Result<Vec<String>, AllocError> {
    let mut words = Vec::new(alloc);
    for word in WORDS.split(' ') {
        words.push(String::from_str(alloc, word)?)?;
    }
    Ok(words)
}

/// The arguments that are read from `WORDS`.
fn args_of(alloc: Global, env: &Env) -> Result<Args, Fault> {
    let words = words_of(alloc)?;
    let parsed = match Args::parse(alloc, &words, env, Rustup::Known(27)) {
        Ok((parsed, _)) => parsed,
        Err(CliFault::Memory) => return Err(Fault::Memory("Args::parse")),
        Err(_) => return Err(Fault::Other("Args::parse")),
    };
    match parsed {
        Parsed::Args(args) => Ok(args),
        Parsed::Print(_) | Parsed::List => Err(Fault::Other("Args::parse")),
    }
}

fn restore(alloc: Global, manager: Manager, files: &mut MemoryFiles) {
    let mut term = Term::new(Coloring::Never, false);
    let _ = manager.restore_all(None, files, &mut term, &mut Vec::new(alloc));
}

/// The context of a call with these arguments.
fn context_of(alloc: Global, env: &Env, files: &mut MemoryFiles) -> Result<Context, Fault> {
    let args = args_of(alloc, env)?;
    let mut caller = caller_of(alloc)?;
    let mut manager = Manager::new(alloc, true);
    let answers = Answers::ask(alloc, &args, env, &mut caller, files, &mut manager);
    restore(alloc, manager, files);
    match &answers.loaded {
        Ok(_) => {}
        Err(ContextFault::Memory) => return Err(Fault::Memory("Answers::ask")),
        Err(_) => return Err(Fault::Other("Answers::ask")),
    }
    match Context::new(alloc, args, answers) {
        Ok((cx, _)) => Ok(cx),
        Err(ContextFault::Memory) => Err(Fault::Memory("Context::new")),
        Err(_) => Err(Fault::Other("Context::new")),
    }
}

/// Edits the manifest, and brings it back. Each path that was written is kept, whatever is refused.
fn edit(alloc: Global, cx: &Context, files: &mut MemoryFiles) -> Result<(), Fault> {
    let before = files.steps().len();
    let mut manager = Manager::new(alloc, true);
    let prepared = prepare(alloc, cx, files, &mut manager);
    let is_safe = files.steps().len() == before || manager.keeps(PATH);
    restore(alloc, manager, files);
    match prepared {
        _ if !is_safe => Err(Fault::Other("prepare: a file that was written isn't kept")),
        Ok(_) => Ok(()),
        Err(PrepareFault::Memory) => Err(Fault::Memory("prepare")),
        Err(_) => Err(Fault::Other("prepare")),
    }
}

fn planned(alloc: Global, cx: &Context) -> Result<Plan, Fault> {
    match plan_of(alloc, cx, "rustup", Stable::Known(STABLE)) {
        Ok((plan, _)) => Ok(plan),
        Err(PlanFault::Memory) => Err(Fault::Memory("plan_of")),
        Err(_) => Err(Fault::Other("plan_of")),
    }
}

/// How many steps a session of the plan has, each of which passes.
fn steps_of(alloc: Global, plan: Plan) -> Result<u64, Fault> {
    let Ok(mut session) = Session::new(alloc, plan, None, false) else {
        return Err(Fault::Memory("Session::new"));
    };
    for steps in 0..u64::MAX {
        let Some(_step) = session.next() else {
            return Ok(steps);
        };
        session.done(Outcome::Passed);
    }
    Ok(u64::MAX)
}

fn features_of(alloc: Global) -> Result<Vec<Feature>, AllocError> {
    let mut features = Vec::new(alloc);
    for name in ["a", "b", "c"] {
        features.push(Feature::normal(alloc, name)?)?;
    }
    Ok(features)
}

/// How many sets of the package's features are listed.
fn sets_of(alloc: Global, cx: &Context) -> Result<usize, Fault> {
    let features = features_of(alloc)?;
    let refs: Vec<&Feature> = features.iter().collect(alloc)?;
    let Some(pkg) = cx.metadata().packages.first() else {
        return Err(Fault::Other("pruned"));
    };
    let mut rules = Rules::new(alloc, &refs, None, &[], &[], &pkg.features, &[])?;
    match pruned(alloc, &mut rules, refs.len()) {
        Ok(found) => Ok(found.sets.len()),
        Err(_) => Err(Fault::Memory("pruned")),
    }
}

fn edited_text(alloc: Global) -> Result<String, Fault> {
    match remove_dev_deps(alloc, MANIFEST) {
        Ok(text) => Ok(text),
        Err(EditFault::Memory) => Err(Fault::Memory("remove_dev_deps")),
        Err(_) => Err(Fault::Other("remove_dev_deps")),
    }
}

/// What all calls answer.
fn answers(alloc: Global) -> Result<String, Fault> {
    let env = env_of(alloc)?;
    let mut files = files_of(alloc)?;
    let cx = context_of(alloc, &env, &mut files)?;
    edit(alloc, &cx, &mut files)?;
    let plan = planned(alloc, &cx)?;
    let places = plan.len();
    let steps = steps_of(alloc, plan)?;
    let sets = sets_of(alloc, &cx)?;
    let text = edited_text(alloc)?;
    Ok(format!(in alloc; "{places} places\n{steps} steps\n{sets} sets\n{text}")?)
}

fn main(rt: HostRuntime) -> io::Result<ExitCode> {
    match answers(rt.alloc()) {
        Ok(text) => {
            print!(rt; "{text}")?;
            Ok(ExitCode::SUCCESS)
        }
        Err(Fault::Memory(call)) => {
            eprintln!(rt; "{call}\nerror: out of memory")?;
            Ok(ExitCode::FAILURE)
        }
        Err(Fault::Other(call)) => {
            eprintln!(rt; "{call}\nerror: another answer")?;
            Ok(ExitCode::from(2))
        }
    }
}
