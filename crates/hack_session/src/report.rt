//! The report of the runs that failed.

ghost use Rattle.std.specs.Prelude.{◌≡◌, ℕ, List, IfOk, Some, filter, option_map, map, slice_get};
ghost use Rattle.std.specs.Prelude.{is_some};
ghost use Rattle.std.specs.BTreeMap.{get_by_text};
ghost use Rattle.std.specs.List.{filter_map, flat_map, list_any};
ghost use Rattle.hack_session.specs.Reports.{IsReport, command_text, package_group_text};
ghost use Rattle.hack_session.specs.Reports.{report_text, failure_of, failures_of, is_of, run_at};
ghost use Rattle.hack_session.specs.Reports.{texts_under, told_text};
ghost use Rattle.hack_session.specs.Internal.{failure_view};

use crate::history::History;
use crate::session::Session;
use crate::step::{Handed, Outcome, Step};
use hack_plan::plan::Plan;
use std::alloc::{AllocError, Global};
use std::collections::BTreeMap;
use std::fmt;

/// A run that failed.
#[derive(Drop)]
struct Failure {
    /// The package's name, empty without one.
    name: String,
    /// The long text of the command.
    text: String,
}

/// The runs that failed.
#[derive(Drop)]
pub struct KeepGoing {
    pub count: usize,
    /// The long texts of their commands, in order, by the names of their packages.
    pub commands: BTreeMap<String, Vec<String>>,
}

/// Returns the run at a place as one that failed.
fn failure_at(alloc: Global, plan: &Plan, place: usize) -> Result<Option<Failure>, AllocError>
    ensures { IfOk result (λ found. option_map failure_view found
        ≡ run_at plan.now (slice_get plan.now.entries place)) }
{
    if place >= plan.len() {
        return Ok(None);
    }
    let run = plan.run(alloc, place)?;
    let text = run.command.text(alloc, true, false, plan.dir())?;
    let name = String::from_str(alloc, run.name.unwrap_or(""))?;
    Ok(Some(Failure { name, text }))
}

/// Returns the failed run of a step that was handed out, if the step is one.
fn failure_in(alloc: Global, plan: &Plan, handed: Handed) -> Result<Option<Failure>, AllocError>
    ensures { IfOk result (λ found. option_map failure_view found ≡ failure_of plan.now handed) }
{
    match handed.outcome {
        Outcome::Passed => Ok(None),
        Outcome::Failed => match handed.step {
            Step::Run(place) => failure_at(alloc, plan, place),
            Step::Prepare(_) | Step::Skip(_) => Ok(None),
        },
    }
}

/// The failed runs among steps that were handed out.
fn failures(alloc: Global, plan: &Plan, handed: History<'_>) -> Result<Vec<Failure>, AllocError>
    ensures { IfOk result (λ failures. map failure_view failures.items
        ≡ filter_map (failure_of plan.now) handed.entry) }
{
    let mut failures = Vec::new(alloc);
    for one in handed {
        if let Some(found) = failure_in(alloc, plan, one)? {
            failures.push(found)?;
        }
    }
    Ok(failures)
}

/// Groups the commands of failed runs by the names of their packages.
fn group_by_package(
    alloc: Global,
    failures: &[Failure],
) -> Result<BTreeMap<String, Vec<String>>, AllocError>
    ensures texts { IfOk result (λ m. (name : List ℕ)
        → texts_under name m ≡ map told_text (filter (is_of name)
        (map failure_view failures.now))) }
    ensures names { IfOk result (λ m. (name : List ℕ) → is_some (get_by_text m name)
        ≡ list_any (is_of name) (map failure_view failures.now)) }
{
    let mut commands: BTreeMap<String, Vec<String>> = BTreeMap::new(alloc);
    for failure in failures {
        let name = failure.name.clone()?;
        let text = failure.text.clone()?;
        commands.entry(name)?.or_default().push(text)?;
    }
    Ok(commands)
}

impl Session {
    /// Returns the runs that failed, where runs go on after a failed one, and else none.
    pub fn report(&self, alloc: Global) -> Result<KeepGoing, AllocError>
        ensures { IfOk result (IsReport (failures_of self.now)) }
    {
        let failures = self.failures(alloc)?;
        let commands = group_by_package(alloc, &failures)?;
        Ok(KeepGoing {
            count: failures.len(),
            commands,
        })
    }

    /// Returns the failed runs, where runs go on after a failed one, and else none.
    fn failures(&self, alloc: Global) -> Result<Vec<Failure>, AllocError>
        ensures { IfOk result (λ failures. map failure_view failures.items
            ≡ failures_of self.now) }
    {
        if !self.keep_going() {
            return Ok(Vec::new(alloc));
        }
        failures(alloc, self.plan(), self.handed())
    }
}

/// Shows how many runs failed, and their commands by the names of their packages, in the order of
/// their bytes.
impl fmt::Display for KeepGoing {
    ghost output = { λ r. Some (report_text r) };

    fn fmt<W: fmt::Write>(&self, f: &mut fmt::Formatter<W>) -> fmt::Result {
        let count = self.count;
        let groups = Groups(&self.commands);
        write!(
            f,
            "failed to run {count} commands\n\nfailed commands:\n{groups}"
        )
    }
}

/// The commands of each package.
#[derive(Drop)]
struct Groups<'a>(&'a BTreeMap<String, Vec<String>>);

impl fmt::Display for Groups<'_> {
    ghost output = { λ g. Some (flat_map package_group_text g.0.now.entries) };

    fn fmt<W: fmt::Write>(&self, f: &mut fmt::Formatter<W>) -> fmt::Result {
        for (name, texts) in self.0 {
            let name = name.as_str();
            let commands = Commands(texts);
            write!(f, "    {name}:\n{commands}")?;
        }
        Ok(())
    }
}

/// Commands, each on a line.
#[derive(Drop)]
struct Commands<'a>(&'a [String]);

impl fmt::Display for Commands<'_> {
    ghost output = { λ c. Some (flat_map command_text c.0.now) };

    fn fmt<W: fmt::Write>(&self, f: &mut fmt::Formatter<W>) -> fmt::Result {
        for command in self.0 {
            write!(f, "        {command}\n")?;
        }
        Ok(())
    }
}
