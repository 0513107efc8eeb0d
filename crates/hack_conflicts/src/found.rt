//! Finds the least sets that fail and the greatest that pass.

ghost use Rattle.std.specs.Prelude.{◌≡◌, ◌≤◌, ◌++◌, ◌+◌, ◌*◌, List, Bool, false, IsTrue, IfOk, IfErr};
ghost use Rattle.std.specs.Prelude.{MatchBool, length};
ghost use Rattle.hack_conflicts.specs.Sets.{rows_of};
ghost use Rattle.hack_conflicts.specs.Rules.{IsPreorder, IsChoice, IsPlain, size_of};
ghost use Rattle.hack_conflicts.specs.Runs.{Run, run_of, runs_in, IsCourse, IsFaultOf, IsFinding};
ghost use Rattle.hack_conflicts.specs.Runs.{IsClear, IsToldOf, finding_of};
ghost use Rattle.hack_conflicts.specs.Internal.{IsSound, IsSteady, IsSettled, IsCutOff, IsGoing};
ghost use Rattle.hack_conflicts.specs.Internal.{worth, told, conflicts_of, passing_of, AreOthers};

use crate::builds::Builds;
use crate::fault::{End, SearchFault};
use crate::greatest::other_sets;
use crate::known::Known;
use crate::rules::Rules;
use crate::search::search_all;
use crate::sets::has_inside;
use crate::tried::{BuildOutcome, Tried};
use std::alloc::{AllocError, Global};

/// What a search has found. A set has a mark for each position, and a position past its last mark
/// isn't one of its members.
#[derive(Drop)]
pub struct Found {
    /// The least sets that fail, in the order in which they were found.
    pub conflicts: Vec<Vec<bool>>,
    /// The greatest sets that passed. None lies inside another.
    pub passing: Vec<Vec<bool>>,
    /// The builds that were tried, the first one first. If the search isn't complete, a last set that
    /// failed and has no conflict inside it was being made smaller.
    pub runs: Vec<Tried>,
    /// Whether each set that may be chosen has a conflict inside it, or lies inside a passing set.
    pub complete: bool,
}

impl Found {
    ghost use Rattle.std.specs.Prelude.{MatchOption};
    ghost use Rattle.hack_conflicts.specs.Runs.{AreBlamed, IsOpen};

    /// The last run that failed though no conflict lies inside its set, as an index into the runs.
    /// Only a search that isn't complete has one.
    pub fn unfinished(&self) -> Option<usize>
        ensures { MatchOption result
            (AreBlamed (runs_in self.now.runs.items) (rows_of self.now.conflicts.items))
            (IsOpen (runs_in self.now.runs.items) (rows_of self.now.conflicts.items)) }
    {
        let mut last = None;
        for place in 0..self.runs.len() {
            if is_clear(self.conflicts.as_slice(), &self.runs[place]) {
                last = Some(place);
            }
        }
        last
    }
}

/// Whether a run failed, and no conflict lies inside its set.
fn is_clear(conflicts: &[Vec<bool>], one: &Tried) -> bool
    ensures { MatchBool result (IsClear (rows_of conflicts.now) (run_of one.now))
        (IsToldOf (rows_of conflicts.now) (run_of one.now)) }
{
    match one.outcome {
        BuildOutcome::Failed => !has_inside(conflicts, one.set.as_slice()),
        BuildOutcome::Passed | BuildOutcome::Broken => false,
    }
}

/// Searches, as far as so many runs allow, and returns whether all sets are settled.
fn search<B: Builds>(
    alloc: Global,
    rules: &Rules,
    most_runs: Option<usize>,
    known: &mut Known,
    builder: &mut B,
) -> Result<bool, SearchFault>
    requires order { IsPreorder rules.now }
    requires sound { IsSound rules.now most_runs known.old }
    requires steady { IsSteady rules.now (size_of rules.now) known.old }
    ensures sound { IsSound rules.now most_runs known.new }
    ensures ran { (start : B) → B.ran (told known.old) start builder.old
        → B.ran (told known.new) start builder.new }
    ensures owes { IsPlain rules.now → length known.new.runs.items
        ≤ worth (size_of rules.now) known.new + (2 * size_of rules.now + 1) }
    ensures going { IfOk result (λ complete. IsGoing known.new) }
    ensures cut_off { IfOk result (λ complete. complete ≡ false
        → IsCutOff rules.now most_runs known.new) }
    ensures steady { IfOk result (λ complete. IsTrue complete
        → IsSteady rules.now 0 known.new) }
    ensures settled { IfOk result (λ complete. IsTrue complete → (s : List Bool)
        → IsChoice rules.now s → IsSettled known.new s) }
    ensures broke { IfErr result (IsFaultOf (told known.new)) }
{
    match search_all(alloc, rules, most_runs, known, builder) {
        Ok(()) => Ok(true),
        Err(End::Spent) => Ok(false),
        Err(End::Memory) => Err(SearchFault::Memory),
        Err(End::Broken) => Err(SearchFault::Broken),
    }
}

/// What is found by what is known.
fn conclude(alloc: Global, known: Known, complete: bool) -> Result<Found, AllocError>
    ensures runs { IfOk result (λ found. runs_in found.runs.items ≡ told known) }
    ensures conflicts { IfOk result (λ found. rows_of found.conflicts.items
        ≡ conflicts_of known) }
    ensures complete { IfOk result (λ found. found.complete ≡ complete) }
    ensures passing { IfOk result (λ found. (others : List (List Bool)) × (rows_of
        found.passing.items ≡ passing_of known ++ others)
        × AreOthers (passing_of known) (told known) others) }
{
    let mut others = other_sets(alloc, known.passing.as_slice(), known.runs.as_slice())?;
    let runs = known.runs;
    let conflicts = known.conflicts;
    let mut passing = known.passing;
    passing.append(&mut others)?;
    Ok(Found {
        conflicts,
        passing,
        runs,
        complete,
    })
}

/// Finds the least sets that fail, and the greatest that pass, of those that may be chosen. Builds
/// are tried one after another, as long as some set isn't decided, and at most `most_runs` if that
/// is given. Nothing is assumed of their outcomes.
///
/// A set may be chosen if it is what some names enable that a command line may give: by the README
/// of cargo-hack, at most one of them reaches each group of `--mutually-exclusive-features`, and one
/// of them serves each group of `--at-least-one-of`.
///
/// # Errors
///
/// `Broken` if a build was broken, with which the search ends; `Memory` if memory is refused.
pub fn find_conflicts<B: Builds>(
    alloc: Global,
    rules: &Rules,
    most_runs: Option<usize>,
    builder: &mut B,
) -> Result<Found, SearchFault>
    requires { IsPreorder rules.now }

    // The builds that were tried are those in `runs`, and what was found is what they say.
    ensures ran { IfOk result (λ found.
        B.ran (finding_of found).runs builder.old builder.new) }
    ensures found { IfOk result (λ found. IsFinding rules.now most_runs (finding_of found)) }

    // After an error, too, no other builds were tried than such. The error is `Broken` just if one
    // was broken, after which none was tried.
    ensures fault { IfErr result (λ fault. (runs : List Run)
        × B.ran runs builder.old builder.new × IsCourse rules.now most_runs runs
        × IsFaultOf runs fault) }
{
    let mut known = Known::nothing(alloc);
    let complete = search(alloc, rules, most_runs, &mut known, builder)?;
    Ok(conclude(alloc, known, complete)?)
}
