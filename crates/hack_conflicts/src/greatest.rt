//! The greatest of the sets that passed.

ghost use Rattle.std.specs.Prelude.{◌<◌, ◌+◌, take, length, IfOk, AllPairs};
ghost use Rattle.hack_conflicts.specs.Sets.{rows_of, AreApart};
ghost use Rattle.hack_conflicts.specs.Runs.{runs_in};
ghost use Rattle.hack_conflicts.specs.Internal.{KeepsOthers, AreOthers};

use crate::known::{has_passed, set_of};
use crate::sets::{is_inside, is_within, set_at};
use crate::tried::Tried;
use std::alloc::{AllocError, Global};

/// Those of the sets that don't lie inside the set.
fn without_inner(
    alloc: Global,
    sets: &[Vec<bool>],
    set: &[bool],
) -> Result<Vec<Vec<bool>>, AllocError>
    requires { AllPairs AreApart (rows_of sets.now) }
    ensures { IfOk result (λ left. KeepsOthers set.now (rows_of sets.now) (rows_of left.items)) }
{
    let mut left = Vec::new(alloc);
    for place in 0..sets.len() {
        let other = set_at(sets, place);
        if !is_within(other, set) {
            left.push(Vec::from_slice(alloc, other)?)?;
        }
    }
    Ok(left)
}

/// Adds the set of a run to the other sets, if the run passed and none of the first or the others
/// contains it. Others that lie inside it are dropped.
fn add_run(
    alloc: Global,
    first: &[Vec<bool>],
    others: Vec<Vec<bool>>,
    runs: &[Tried],
    place: usize,
) -> Result<Vec<Vec<bool>>, AllocError>
    requires inside { place < length runs.now }
    requires others { AreOthers (rows_of first.now) (take place (runs_in runs.now)) (rows_of
        others.items) }
    ensures { IfOk result (λ left. AreOthers (rows_of first.now) (take (place
        + 1) (runs_in runs.now)) (rows_of left.items)) }
{
    if !has_passed(runs, place) {
        return Ok(others);
    }
    let set = set_of(runs, place);
    if is_inside(first, set) {
        return Ok(others);
    }
    if is_inside(others.as_slice(), set) {
        return Ok(others);
    }
    let mut left = without_inner(alloc, others.as_slice(), set)?;
    left.push(Vec::from_slice(alloc, set)?)?;
    Ok(left)
}

/// The greatest of the sets that passed, but for those that lie inside one of the first sets.
pub(crate) fn other_sets(
    alloc: Global,
    first: &[Vec<bool>],
    runs: &[Tried],
) -> Result<Vec<Vec<bool>>, AllocError>
    ensures { IfOk result (λ others.
        AreOthers (rows_of first.now) (runs_in runs.now) (rows_of others.items)) }
{
    let mut others = Vec::new(alloc);
    for place in 0..runs.len() {
        others = add_run(alloc, first, others, runs, place)?;
    }
    Ok(others)
}
