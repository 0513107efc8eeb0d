//! The rows of which a set needs a position each.

ghost use Rattle.std.specs.Prelude.{◌≡◌, ◌++◌, ◌∷◌, [], map, length, cond, IfOk, replicate};
ghost use Rattle.std.specs.Prelude.{true, ◌+◌};
ghost use Rattle.hack_conflicts.specs.Sets.{rows_of, mark};
ghost use Rattle.hack_features.specs.View.{choice_of};
ghost use Rattle.hack_closures.specs.Internal.{AreNeeded};

use crate::marks::marks_of;
use hack_features::Rules;
use std::alloc::{AllocError, Global};

/// The marks of these candidates in a row that has one for each candidate, and one of all features,
/// if `all`.
fn serving(alloc: Global, row: &[bool], alone: &[usize], all: bool) -> Result<Vec<bool>, AllocError>
    ensures { IfOk result (λ marks. marks.items
        ≡ map (mark row.now) alone.now ++ cond all (true ∷ []) []) }
{
    let mut marks = marks_of(alloc, row, alone)?;
    if all {
        marks.push(true)?;
    }
    Ok(marks)
}

/// For each of the rows the marks of these candidates, and one of all features, if `all`.
fn all_serving(
    alloc: Global,
    rows: &[Vec<bool>],
    alone: &[usize],
    all: bool,
) -> Result<Vec<Vec<bool>>, AllocError>
    ensures { IfOk result (λ found. rows_of found.items
        ≡ map (λ row. map (mark row) alone.now ++ cond all (true ∷ []) []) (rows_of rows.now)) }
{
    let mut found = Vec::new(alloc);
    for row in rows {
        found.push(serving(alloc, row.as_slice(), alone, all)?)?;
    }
    Ok(found)
}

/// A mark for each of these candidates, and one of all features, if `all`.
fn every(alloc: Global, alone: &[usize], all: bool) -> Result<Vec<bool>, AllocError>
    ensures { IfOk result (λ marks. marks.items
        ≡ replicate (length alone.now) true ++ cond all (true ∷ []) []) }
{
    let mut marks = vec![in alloc; true; alone.len()]?;
    if all {
        marks.push(true)?;
    }
    Ok(marks)
}

/// The positions that serve each at-least-one group that some key serves; all features do. If the
/// empty set isn't to be chosen, one more row has all positions.
pub(crate) fn needed(
    alloc: Global,
    rules: &Rules,
    alone: &[usize],
    with_empty: bool,
    all: bool,
) -> Result<Vec<Vec<bool>>, AllocError>
    ensures { IfOk result (λ rows. AreNeeded (choice_of rules.now) alone.now with_empty all
        (rows_of rows.items)) }
{
    let mut rows = all_serving(alloc, rules.serving(), alone, all)?;
    if !with_empty {
        rows.push(every(alloc, alone, all)?)?;
    }
    Ok(rows)
}
