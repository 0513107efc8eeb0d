//! Patterns of settings: which rows show them, and their order.

ghost use Rattle.std.specs.Prelude.{◌≡◌, List, length, OnOk};
ghost use Rattle.std.specs.Prelude.{MatchBool, MatchOption, AllPairs, Contains, ◌⊎◌};
ghost use Rattle.std.specs.Ordering.{MatchOrdering};
ghost use Rattle.hack_samples.specs.Sets.{rows_of};
ghost use Rattle.hack_suspects.specs.Suspects.{Precedes, DiffersBefore, IsPatternBefore};
ghost use Rattle.hack_samples.specs.Samples.{RowShows};
ghost use Rattle.hack_suspects.specs.InternalWalks.{PatternsAreKept, PatternFits};

use hack_samples::Setting;
use std::alloc::AllocError;
use std::cmp::Ordering;

/// Whether the row shows the pattern.
pub(crate) fn row_shows(row: &[bool], pattern: &[Setting]) -> bool
    ensures { MatchBool result (RowShows row.now pattern.now)
        (RowShows row.now pattern.now → ⊥) }
{
    pattern
        .iter()
        .all(|setting| row.get(setting.candidate) == Some(&setting.on))
}

/// Compares two settings by their candidates; for the same candidate off comes before on.
fn compare_settings(one: Setting, other: Setting) -> Ordering
    ensures { MatchOrdering result (Precedes one other) (one ≡ other) (Precedes other one) }
{
    one.candidate
        .cmp(&other.candidate)
        .then(one.on.cmp(&other.on))
}

/// Compares two patterns of the same length by the first place where they differ.
fn compare_places(one: &[Setting], other: &[Setting]) -> Ordering
    requires { length one.now ≡ length other.now }
    ensures { MatchOrdering result (DiffersBefore one.now other.now) (one.now ≡ other.now)
        (DiffersBefore other.now one.now) }
{
    for place in 0..one.len() {
        match compare_settings(one[place], other[place]) {
            Ordering::Less => return Ordering::Less,
            Ordering::Equal => {}
            Ordering::Greater => return Ordering::Greater,
        }
    }
    Ordering::Equal
}

/// Compares two patterns: the shorter one comes first; of the same length the first place where
/// they differ decides.
fn compare(one: &[Setting], other: &[Setting]) -> Ordering
    ensures { MatchOrdering result (IsPatternBefore one.now other.now) (one.now ≡ other.now)
        (IsPatternBefore other.now one.now) }
{
    match one.len().cmp(&other.len()) {
        Ordering::Less => Ordering::Less,
        Ordering::Equal => compare_places(one, other),
        Ordering::Greater => Ordering::Greater,
    }
}

/// Returns the place where the pattern belongs among patterns in order; None if it is one of them.
fn place_of(found: &[Vec<Setting>], pattern: &[Setting]) -> Option<usize>
    requires { AllPairs IsPatternBefore (rows_of found.now) }
    ensures { MatchOption result (Contains (rows_of found.now) pattern.now)
        (PatternFits (rows_of found.now) pattern.now) }
{
    for place in 0..found.len() {
        match compare(found[place].as_slice(), pattern) {
            Ordering::Less => {}
            Ordering::Equal => return None,
            Ordering::Greater => return Some(place),
        }
    }
    Some(found.len())
}

/// Inserts a pattern at its place among patterns in order, unless it is one of them.
pub(crate) fn put(found: &mut Vec<Vec<Setting>>, pattern: Vec<Setting>) -> Result<(), AllocError>
    requires { AllPairs IsPatternBefore (rows_of found.old.items) }
    ensures ordered { OnOk result (AllPairs IsPatternBefore (rows_of found.new.items)) }
    ensures kept { OnOk result (PatternsAreKept (rows_of found.old.items)
        (rows_of found.new.items)) }
    ensures added { OnOk result (Contains (rows_of found.new.items) pattern.items) }
    ensures only { OnOk result ((p : List Setting) → Contains (rows_of found.new.items) p
        → Contains (rows_of found.old.items) p ⊎ (p ≡ pattern.items)) }
{
    let Some(place) = place_of(found.as_slice(), pattern.as_slice()) else {
        return Ok(());
    };
    found.insert(place, pattern)?;
    Ok(())
}
