//! Which small patterns explain the failed runs of a session, where a covering sample of sets was
//! run.

ghost use Rattle.std.specs.Prelude.{◌≡◌, ◌≢◌, ◌⊎◌, ◌↔◌, ◌++◌, ◌∷◌, [], List, Some, IfOk, OnOk};
ghost use Rattle.std.specs.Prelude.{All, AllPairs, Contains, MatchBool, map, option_map};
ghost use Rattle.std.specs.Prelude.{slice_get, unwrap_or};
ghost use Rattle.std.specs.List.{slice_index_or};
ghost use Rattle.hack_samples.specs.Sets.{rows_of};
ghost use Rattle.hack_suspects.specs.Counts.{Fails, FailsWith, IsNumberOf};
ghost use Rattle.hack_suspects.specs.Suspects.{outcomes_of};
ghost use Rattle.hack_suspects.specs.Uses.{AreInOrderOfUse};
ghost use Rattle.hack_session.specs.Suspects.{AreExplained, AreFound, AreOutcomes, FailsBefore};
ghost use Rattle.hack_session.specs.Suspects.{HasFailedRun, IsExplained, candidate_count};
ghost use Rattle.hack_session.specs.Suspects.{explained_view, part_at, part_explained, part_of};
ghost use Rattle.hack_session.specs.Suspects.{plan_entry_of, settings_in};
ghost use Rattle.hack_session.specs.Internal.{AddsOnce};
ghost use Rattle.hack_session.specs.ListLines.{is_failed};

use crate::session::Session;
use crate::step::{Handed, Outcome, Step};
use hack_plan::places::PlanEntry;
use hack_plan::plan::Plan;
use hack_samples::Setting;
use hack_suspects::{RunOutcome, SuspectFault, count_failed, count_showing, sort_by_use};
use hack_versions::version::Version;
use std::alloc::{AllocError, Global};

/// For the runs of a part, at most this many patterns are looked at: outcomes times choices of
/// candidates.
const MOST_PATTERNS: u64 = 1_000_000_000;

/// The runs of one version, one slot and one package.
#[derive(Clone, Copy, Debug, PartialEq, Eq)]
pub struct Part {
    /// None where no range of versions is given.
    pub version: Option<Version>,
    pub slot: usize,
    /// The package, as an index into the plan's packages.
    pub package: usize,
}

/// A part with a failed run, and the small patterns that explain which of its runs failed.
#[derive(Drop)]
pub struct Explained {
    pub part: Part,
    /// How many candidates a pattern has at most.
    pub strength: usize,
    /// How many runs of the part failed.
    pub failed: usize,
    /// How many of these show a suspect.
    pub showing: usize,
    /// The suspects, those that most failed runs show first; none where there are too many patterns
    /// to look at.
    pub suspects: Option<Vec<Vec<Setting>>>,
}

impl Session {
    /// Returns the suspects of at most `strength` candidates for each version, slot and package
    /// with a failed run, in the order of the first failures.
    pub fn suspects(&self, alloc: Global, strength: usize) -> Result<Vec<Explained>, AllocError>
        ensures { IfOk result (λ all. AreExplained self.now strength
            (map explained_view all.items)) }
    {
        let parts = failed_parts(alloc, self)?;
        explain_all(alloc, self, parts.as_slice(), strength)
    }
}

/// The parts with a failed run, in the order of their first failures, each once.
fn failed_parts(alloc: Global, session: &Session) -> Result<Vec<Part>, AllocError>
    ensures ordered { IfOk result (λ parts.
        AllPairs (FailsBefore session.now.plan session.now.handed) parts.items) }
    ensures exactly { IfOk result (λ parts. (part : Part) → Contains parts.items part
        ↔ HasFailedRun session.now.plan session.now.handed part) }
{
    let mut parts = Vec::new(alloc);
    for one in session.handed() {
        add_failed(session.plan(), one, &mut parts)?;
    }
    Ok(parts)
}

/// Adds the part of a failed run, unless it was added already.
fn add_failed(plan: &Plan, handed: Handed, parts: &mut Vec<Part>) -> Result<(), AllocError>
    ensures once { OnOk result (AddsOnce parts.old.items parts.new.items) }
    ensures exactly { OnOk result ((part : Part) → Contains parts.new.items part
        ↔ (Contains parts.old.items part ⊎ HasFailedRun plan.now (handed ∷ []) part)) }
{
    if !is_failed(handed.outcome) {
        return Ok(());
    }
    match part_at(plan, handed) {
        Some(part) => add_once(parts, part),
        None => Ok(()),
    }
}

/// Adds a part, unless it was added already.
fn add_once(parts: &mut Vec<Part>, part: Part) -> Result<(), AllocError>
    ensures once { OnOk result (AddsOnce parts.old.items parts.new.items) }
    ensures exactly { OnOk result ((other : Part) → Contains parts.new.items other
        ↔ (Contains parts.old.items other ⊎ (part ≡ other))) }
{
    if parts.contains(&part) {
        return Ok(());
    }
    parts.push(part)?;
    Ok(())
}

/// Finds the suspects of each of the parts.
fn explain_all(
    alloc: Global,
    session: &Session,
    parts: &[Part],
    strength: usize,
) -> Result<Vec<Explained>, AllocError>
    ensures parts { IfOk result (λ all. map part_explained (map explained_view all.items)
        ≡ parts.now) }
    ensures explained { IfOk result (λ all.
        All (IsExplained session.now.plan session.now.handed strength)
        (map explained_view all.items)) }
{
    let mut all = Vec::new(alloc);
    for part in parts {
        all.push(explain(alloc, session, *part, strength)?)?;
    }
    Ok(all)
}

/// Finds the suspects of a part.
fn explain(
    alloc: Global,
    session: &Session,
    part: Part,
    strength: usize,
) -> Result<Explained, AllocError>
    ensures part { IfOk result (λ e. e.part ≡ part) }
    ensures explained { IfOk result (λ e. IsExplained session.now.plan session.now.handed strength
        (explained_view e)) }
{
    let outcomes = outcomes(alloc, session, part)?;
    let candidates = count_candidates(session.plan(), part.package);
    let suspects = look(alloc, outcomes.as_slice(), candidates, strength)?;
    Ok(counted(part, strength, outcomes.as_slice(), suspects))
}

/// The part with its suspects, and how many of its failed runs show one.
fn counted(
    part: Part,
    strength: usize,
    outcomes: &[RunOutcome],
    suspects: Option<Vec<Vec<Setting>>>,
) -> Explained
    ensures part { result.part ≡ part }
    ensures strength { result.strength ≡ strength }
    ensures failed { IsNumberOf Fails (outcomes_of outcomes.now) result.failed }
    ensures showing { IsNumberOf (FailsWith (unwrap_or
        (option_map (λ found. rows_of found.items) suspects) [])) (outcomes_of outcomes.now)
        result.showing }
    ensures suspects { result.suspects ≡ suspects }
{
    let failed = count_failed(outcomes);
    let showing = count_showing(outcomes, patterns_of(&suspects));
    Explained {
        part,
        strength,
        failed,
        showing,
        suspects,
    }
}

/// The suspects, or no pattern where there are too many to look at.
fn patterns_of(suspects: &Option<Vec<Vec<Setting>>>) -> &[Vec<Setting>]
    ensures { rows_of result.now
        ≡ unwrap_or (option_map (λ found. rows_of found.items) suspects.now) [] }
{
    suspects.as_deref().unwrap_or(&[])
}

/// The suspects; none where there are too many patterns to look at.
fn look(
    alloc: Global,
    outcomes: &[RunOutcome],
    candidates: usize,
    strength: usize,
) -> Result<Option<Vec<Vec<Setting>>>, AllocError>
    ensures { IfOk result (λ found. AreFound (outcomes_of outcomes.now) candidates strength
        (option_map (λ patterns. rows_of patterns.items) found)) }
{
    match hack_suspects::suspects(alloc, outcomes, candidates, strength, MOST_PATTERNS) {
        Ok(found) => Ok(Some(by_use(alloc, outcomes, found)?)),
        Err(SuspectFault::Memory) => Err(AllocError),
        Err(SuspectFault::TooManyPatterns) => Ok(None),
    }
}

/// The suspects in the order of use.
fn by_use(
    alloc: Global,
    outcomes: &[RunOutcome],
    mut found: Vec<Vec<Setting>>,
) -> Result<Vec<Vec<Setting>>, AllocError>
    ensures { IfOk result (λ sorted. AreInOrderOfUse (outcomes_of outcomes.now)
        (rows_of found.items) (rows_of sorted.items)) }
{
    sort_by_use(alloc, outcomes, found.as_mut_slice())?;
    Ok(found)
}

/// What came of the runs of a part.
fn outcomes(alloc: Global, session: &Session, part: Part) -> Result<Vec<RunOutcome>, AllocError>
    ensures { IfOk result (λ outcomes. AreOutcomes session.now.plan part session.now.handed
        (outcomes_of outcomes.items)) }
{
    let mut outcomes = Vec::new(alloc);
    for one in session.handed() {
        add_outcome(alloc, session.plan(), part, one, &mut outcomes)?;
    }
    Ok(outcomes)
}

/// Adds what came of a handed step, if it is a run of the part.
fn add_outcome(
    alloc: Global,
    plan: &Plan,
    part: Part,
    handed: Handed,
    outcomes: &mut Vec<RunOutcome>,
) -> Result<(), AllocError>
    ensures { OnOk result ((before : List Handed)
        → AreOutcomes plan.now part before (outcomes_of outcomes.old.items)
        → AreOutcomes plan.now part (before ++ handed ∷ []) (outcomes_of outcomes.new.items)) }
{
    let Some(entry) = entry_of(plan, handed.step) else {
        return Ok(());
    };
    if !is_in(entry, part) {
        return Ok(());
    }
    let on = Vec::from_slice(alloc, settings_at(plan, part.package, entry.rank))?;
    let failed = is_failed(handed.outcome);
    outcomes.push(RunOutcome { on, failed })?;
    Ok(())
}

/// Whether a run is of the part.
fn is_in(entry: PlanEntry, part: Part) -> bool
    ensures { MatchBool result (part_of entry ≡ Some part) (part_of entry ≢ Some part) }
{
    part_of(entry) == Some(part)
}

/// The part of a run; none where it is for all packages.
fn part_of(entry: PlanEntry) -> Option<Part>
    ensures { result ≡ part_of entry }
{
    entry.package.map(|package| Part {
        version: entry.version,
        slot: entry.slot,
        package,
    })
}

/// The part that a handed step is a run of.
fn part_at(plan: &Plan, handed: Handed) -> Option<Part>
    ensures { result ≡ part_at plan.now handed }
{
    entry_of(plan, handed.step).and_then(part_of)
}

/// The version, slot, package and rank of a step that is a run.
fn entry_of(plan: &Plan, step: Step) -> Option<PlanEntry>
    ensures { result ≡ plan_entry_of plan.now step }
{
    match step {
        Step::Run(place) => entry_at(plan, place),
        Step::Prepare(_) | Step::Skip(_) => None,
    }
}

/// The version, slot, package and rank of a place.
fn entry_at(plan: &Plan, place: usize) -> Option<PlanEntry>
    ensures { result ≡ slice_get plan.now.entries place }
{
    if place >= plan.len() {
        return None;
    }
    Some(plan.entry(place))
}

/// Whether a run failed.
fn is_failed(outcome: Outcome) -> bool
    ensures { result ≡ is_failed outcome }
{
    matches!(outcome, Outcome::Failed)
}

/// Which candidates of a package are on in the run at a rank.
fn settings_at(plan: &Plan, place: usize, rank: usize) -> &[bool]
    ensures { result.now
        ≡ slice_index_or (settings_in (slice_get plan.now.packages place)) rank [] }
{
    plan.packages()
        .get(place)
        .map_or(&[], |member| row_at(&member.settings, rank))
}

/// The row at an index; empty past the last.
fn row_at(rows: &[Vec<bool>], place: usize) -> &[bool]
    ensures { result.now ≡ slice_index_or (rows_of rows.now) place [] }
{
    rows.get(place).map_or(&[], |row| row.as_slice())
}

/// How many candidates a package has.
pub(crate) fn count_candidates(plan: &Plan, place: usize) -> usize
    ensures { result ≡ candidate_count (slice_get plan.now.packages place) }
{
    plan.packages()
        .get(place)
        .map_or(0, |member| member.candidates.len())
}
