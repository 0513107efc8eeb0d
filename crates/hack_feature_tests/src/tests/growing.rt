//! Plans that grow while they are run. `grow all none plain 0,2` begins a plan of a package with the
//! candidates a, b and c, without a place. Each word adds a run, which is performed at its place:
//! with all features, without the default ones, a plain one, or one of a set, by its positions. The
//! answer is the calls, and the lines on them.

ghost use Rattle.hack_plan.specs.Inputs.{AreVersionsOf};

use crate::tests::given::{numbers, words};
use crate::tests::inputs::{input_of, versions_of};
use hack_features::Feature;
use hack_holds::{Ask, Wrong, hold};
use hack_plan::parts::{CommandParts, PlanPackage};
use hack_plan::places::PlacesFault;
use hack_plan::plan::{Added, Plan};
use hack_plan::runs::Runs;
use hack_plan::versions::{PlanInput, Versions};
use hack_process::process::{End, FakeCaller};
use hack_session::session::{Runner, Starter, Step};
use hack_term::term::{Coloring, Term};
use std::alloc::{AllocError, Global};

fn parts(alloc: Global) -> Result<CommandParts, AllocError> {
    Ok(CommandParts {
        cargo: String::from_str(alloc, "cargo")?,
        rustup: String::new(alloc),
        passed: words(alloc, "check")?,
        trailing: Vec::new(alloc),
        features: Vec::new(alloc),
        targets: Vec::new(alloc),
        cargo_minor: 90,
        locked: false,
        clean_per_run: false,
        clean_per_version: false,
        grows: true,
        current_manifest: None,
        dir: String::new(alloc),
    })
}

fn package_of(alloc: Global) -> Result<PlanPackage, AllocError> {
    let mut candidates = Vec::new(alloc);
    for name in "a b c".split(' ') {
        candidates.push(Feature::normal(alloc, name)?)?;
    }
    Ok(PlanPackage {
        name: String::from_str(alloc, "p")?,
        manifest_path: None,
        features: Vec::new(alloc),
        candidates,
        runs: Runs::none(alloc)?,
        settings: Vec::new(alloc),
    })
}

/// The plan without a place.
fn begun(alloc: Global, input: &PlanInput, versions: &Versions) -> Result<Plan, PlacesFault>
    requires { AreVersionsOf input.now versions.now }
{
    let mut packages = Vec::new(alloc);
    packages.push(package_of(alloc)?)?;
    if packages.len() != input.packages.len() {
        return Err(PlacesFault::Memory);
    }
    Plan::of_input(alloc, parts(alloc)?, packages, input, versions)
}

fn run_of(alloc: Global, word: &str) -> Result<Added, AllocError> {
    match word {
        "all" => Ok(Added::AllFeatures),
        "none" => Ok(Added::NoDefaultFeatures),
        "plain" => Ok(Added::Plain),
        word => Ok(Added::Features(numbers(alloc, word)?)),
    }
}

/// Adds a run to the plan, and returns its place.
fn add(alloc: Global, plan: &mut Plan, word: &str) -> Result<usize, PlacesFault> {
    if plan.versions().is_empty() || plan.packages().is_empty() {
        return Err(PlacesFault::Memory);
    }
    plan.grow(0, 0, run_of(alloc, word)?)
}

/// Adds the runs to the plan, and performs each.
fn perform<R: Runner>(
    alloc: Global,
    plan: &mut Plan,
    question: &str,
    runner: &mut R,
) -> Result<(), PlacesFault> {
    for word in question.split_whitespace().skip(1) {
        let place = add(alloc, plan, word)?;
        if place < plan.len() {
            runner.step(plan, Step::Run(place));
        }
    }
    Ok(())
}

fn answer_of(alloc: Global, question: &str) -> Result<String, PlacesFault> {
    let input = input_of(alloc, "")?;
    let Ok(versions) = versions_of(alloc, &input) else {
        return Err(PlacesFault::Memory);
    };
    let mut plan = begun(alloc, &input, &versions)?;
    let mut caller = FakeCaller::new(alloc, End::Status(0));
    let mut term = Term::new(Coloring::Never, false);
    let mut out = Vec::new(alloc);
    let mut err = Vec::new(alloc);
    let mut fault = None;
    let mut starter = Starter::new(
        alloc,
        &mut caller,
        &mut term,
        &mut out,
        &mut err,
        &mut fault,
    );
    perform(alloc, &mut plan, question, &mut starter)?;
    let mut text = String::new(alloc);
    for made in caller.made() {
        write!(text, "{made}\n")?;
    }
    for byte in err {
        text.push(char::from(byte))?;
    }
    let _ = text.pop();
    Ok(text)
}

#[derive(Drop)]
struct Growing {}

impl Ask for Growing {
    fn answer(&mut self, alloc: Global, question: &str) -> Result<String, AllocError> {
        match answer_of(alloc, question) {
            Ok(text) => Ok(text),
            Err(fault) => fault.to_string(alloc),
        }
    }
}

#[test]
fn runs_that_are_added(rt: HostRuntime) -> Result<(), Wrong> {
    let rows = "
            > grow all none plain 0,2
            | cargo check --all-features
            | cargo check --no-default-features
            | cargo check
            | cargo check --no-default-features --features a,c
            | info: running `cargo check --all-features` on p (1)
            |
            | info: running `cargo check --no-default-features` on p (2)
            |
            | info: running `cargo check` on p (3)
            |
            | info: running `cargo check --no-default-features --features a,c` on p (4)
        ";
    hold(rt.alloc(), &mut Growing {}, rows)
}
