//! Which small patterns explain the failed runs of a package: those that some failed run shows and
//! no passed run, and that have no smaller part of this kind.

ghost use Rattle.std.specs.Prelude.{◌≡◌, ◌<◌, ◌≤◌, ◌+◌, ◌*◌, ◌++◌, ◌∷◌, ◌-◌, ◌^◌, ℕ, [], false};
ghost use Rattle.std.specs.Prelude.{min, length, remove, IfOk, IfErr, OnOk, MatchBool};
ghost use Rattle.hack_samples.specs.Sets.{rows_of};
ghost use Rattle.hack_suspects.specs.Suspects.{outcomes_of, choices, IsShown, Rises};
ghost use Rattle.hack_samples.specs.Samples.{RowShows};
ghost use Rattle.hack_suspects.specs.Suspects.{AreSuspects, IsRefused};
ghost use Rattle.hack_suspects.specs.InternalWalks.{IsFailedRow, AreSomeSuspects, FindsFrom};
ghost use Rattle.hack_suspects.specs.InternalWalks.{PatternsAreKept};

use crate::choices::choices;
use crate::patterns::{put, row_shows};
use hack_samples::Setting;
use std::alloc::{AllocError, AllocFailed, Global};
use thiserror::Error;

/// A run of a package: for each of its candidates whether it is on, and whether the run failed.
#[derive(Drop)]
pub struct RunOutcome {
    pub on: Vec<bool>,
    pub failed: bool,
}

/// Why there is no list of suspects.
#[derive(Debug, Drop, PartialEq, Eq, Error)]
pub enum SuspectFault {
    #[error("out of memory")]
    Memory,
    /// The search would look at more patterns than it may.
    #[error("too many patterns")]
    TooManyPatterns,
}

impl From<AllocError> for SuspectFault {
    ghost use Rattle.hack_suspects.specs.declared.suspect.SuspectFault.TheVariants.{Memory};

    ghost from_gives = { λ _ e. e ≡ Memory };

    fn from(_e: AllocError) -> SuspectFault {
        SuspectFault::Memory
    }
}

impl<T: Drop> From<AllocFailed<T>> for SuspectFault {
    ghost use Rattle.hack_suspects.specs.declared.suspect.SuspectFault.TheVariants.{Memory};

    ghost from_gives = { λ _ e. e ≡ Memory };

    fn from(_e: AllocFailed<T>) -> SuspectFault {
        SuspectFault::Memory
    }
}

/// Returns the suspects: each pattern of at most `strength` candidates, in increasing order, that
/// some failed run shows and no passed run, and of which no smaller part is such a pattern.
///
/// A shorter suspect comes first. Of two with the same length the first setting that differs
/// decides: the lower candidate comes first, and off comes before on. If a run failed and none
/// passed, the empty pattern is the only suspect. For each failed run the search looks at no more
/// patterns than there are choices of at most `strength` candidates. If this number, times the
/// number of outcomes, is more than `most`, the search doesn't begin, and the error is
/// `TooManyPatterns`.
pub fn suspects(
    alloc: Global,
    outcomes: &[RunOutcome],
    candidates: usize,
    strength: usize,
    most: u64,
) -> Result<Vec<Vec<Setting>>, SuspectFault>
    ensures ok { IfOk result (λ found. AreSuspects (outcomes_of outcomes.now) candidates strength
        (rows_of found.items)) }
    ensures never { OnOk result (length outcomes.now * choices candidates strength ≤ most) }
    ensures err { IfErr result (IsRefused most
        (length outcomes.now * choices candidates strength)) }
{
    let patterns = choices(alloc, candidates, strength)?;
    if too_many(outcomes.len(), patterns, most) {
        return Err(SuspectFault::TooManyPatterns);
    }
    let mut found = Vec::new(alloc);
    for outcome in outcomes {
        if outcome.failed {
            let search = Search {
                outcomes,
                row: outcome.on.as_slice(),
                candidates,
                strength,
            };
            walk(alloc, &search, &mut found, Vec::new(alloc), 0, strength)?;
        }
    }
    Ok(found)
}

/// Whether the number of outcomes times the number of choices is more than `most`. `patterns` is
/// the number of choices, or the greatest `u128` if there are more.
fn too_many(outcomes: usize, patterns: u128, most: u64) -> bool
    ensures { (n : ℕ) → patterns ≡ min n (2 ^ 128 - 1)
        → MatchBool result (most < outcomes * n) (outcomes * n ≤ most) }
{
    patterns.saturating_mul(outcomes as u128) > u128::from(most)
}

/// What a search for suspects looks at.
#[derive(Clone, Copy)]
struct Search<'a> {
    outcomes: &'a [RunOutcome],
    /// For each candidate whether it was on in the failed run that is looked at.
    row: &'a [bool],
    candidates: usize,
    strength: usize,
}

/// Adds the suspects that the row shows and that continue the pattern by up to `more` settings, of
/// candidates from `first` on.
fn walk(
    alloc: Global,
    search: &Search<'_>,
    found: &mut Vec<Vec<Setting>>,
    pattern: Vec<Setting>,
    first: usize,
    more: usize,
) -> Result<(), AllocError>
    requires rises { Rises 0 first pattern.items }
    requires first { first ≤ search.now.candidates }
    requires small { length pattern.items + more ≤ search.now.strength }
    requires row { IsFailedRow (outcomes_of search.now.outcomes.now) search.now.row.now }
    requires shown { RowShows search.now.row.now pattern.items }
    requires sound { AreSomeSuspects (outcomes_of search.now.outcomes.now) search.now.candidates
        search.now.strength (rows_of found.old.items) }
    ensures sound { OnOk result (AreSomeSuspects (outcomes_of search.now.outcomes.now)
        search.now.candidates search.now.strength (rows_of found.new.items)) }
    ensures kept { OnOk result (PatternsAreKept (rows_of found.old.items)
        (rows_of found.new.items)) }
    ensures all { OnOk result (FindsFrom (outcomes_of search.now.outcomes.now)
        search.now.candidates search.now.strength search.now.row.now pattern.items first more
        (rows_of found.new.items)) }
{
    if !passed_shows(search.outcomes, pattern.as_slice(), &[]) {
        if !is_minimal(search.outcomes, pattern.as_slice()) {
            return Ok(());
        }
        return put(found, pattern);
    }
    if more == 0 {
        return Ok(());
    }
    for candidate in first..search.candidates {
        let Some(on) = search.row.get(candidate) else {
            return Ok(());
        };
        let setting = Setting { candidate, on: *on };
        let next = with(alloc, pattern.as_slice(), setting)?;
        walk(alloc, search, found, next, candidate + 1, more - 1)?;
    }
    Ok(())
}

/// The pattern with one more setting.
fn with(alloc: Global, pattern: &[Setting], setting: Setting) -> Result<Vec<Setting>, AllocError>
    ensures { IfOk result (λ more. more.items ≡ pattern.now ++ setting ∷ []) }
{
    let mut more = Vec::from_slice(alloc, pattern)?;
    more.push(setting)?;
    Ok(more)
}

/// Whether for each of its settings some passed run shows the pattern without that setting.
fn is_minimal(outcomes: &[RunOutcome], pattern: &[Setting]) -> bool
    ensures { MatchBool result ((place : ℕ) → place < length pattern.now
        → IsShown false (outcomes_of outcomes.now) (remove pattern.now place))
        ((place : ℕ) × (place < length pattern.now)
        × (IsShown false (outcomes_of outcomes.now) (remove pattern.now place) → ⊥)) }
{
    for place in 0..pattern.len() {
        if !passed_shows(outcomes, &pattern[..place], &pattern[place + 1..]) {
            return false;
        }
    }
    true
}

/// Whether some passed run shows the pattern that these two parts make.
fn passed_shows(outcomes: &[RunOutcome], front: &[Setting], rest: &[Setting]) -> bool
    ensures { MatchBool result (IsShown false (outcomes_of outcomes.now) (front.now ++ rest.now))
        (IsShown false (outcomes_of outcomes.now) (front.now ++ rest.now) → ⊥) }
{
    outcomes.iter().any(|run| !run.failed && row_shows(&run.on, front) && row_shows(&run.on, rest))
}
