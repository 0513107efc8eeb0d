//! The rows that say which positions exclude each other.

ghost use Rattle.std.specs.Prelude.{◌≡◌, ◌<◌, ◌↔◌, ◌⊎◌, [], length, All, IfOk, ℕ, false};
ghost use Rattle.std.specs.List.{slice_index_or};
ghost use Rattle.hack_conflicts.specs.Sets.{rows_of, Has};
ghost use Rattle.hack_features.specs.View.{choice_of, size_of};
ghost use Rattle.hack_closures.specs.Internal.{AreReaching, ArePairs, AreGroups, AreExcluding};

use crate::marks::{has, row_at};
use hack_features::Rules;
use std::alloc::{AllocError, Global};

/// Whether each of these candidates reaches the exclusion group.
fn reaching(
    alloc: Global,
    rules: &Rules,
    alone: &[usize],
    group: usize,
) -> Result<Vec<bool>, AllocError>
    requires group { group < length (choice_of rules.now).exclusive }
    requires low { All (λ q. q < size_of rules.now) alone.now }
    ensures { IfOk result (λ row. AreReaching (choice_of rules.now) alone.now
        (slice_index_or (choice_of rules.now).exclusive group []) row.items) }
{
    let mut row = Vec::new(alloc);
    for q in alone {
        row.push(rules.reaches(group, *q))?;
    }
    Ok(row)
}

/// For each exclusion group whether each of these candidates reaches it.
fn groups(alloc: Global, rules: &Rules, alone: &[usize]) -> Result<Vec<Vec<bool>>, AllocError>
    requires { All (λ q. q < size_of rules.now) alone.now }
    ensures { IfOk result (λ rows.
        AreGroups (choice_of rules.now) alone.now (rows_of rows.items)) }
{
    let mut rows = Vec::new(alloc);
    for group in 0..rules.exclusion_groups() {
        rows.push(reaching(alloc, rules, alone, group)?)?;
    }
    Ok(rows)
}

/// A row of marks at the two positions, of which the second is greater.
fn pair(alloc: Global, x: usize, last: usize) -> Result<Vec<bool>, AllocError>
    requires { x < last }
    ensures { IfOk result (λ row. (p : ℕ) → Has row.items p ↔ ((p ≡ x) ⊎ (p ≡ last))) }
{
    let mut row = vec![in alloc; false; last]?;
    row[x] = true;
    row.push(true)?;
    Ok(row)
}

/// For each position below `last` that the row doesn't mark, a row of marks at it and at `last`.
fn pairs(alloc: Global, row: &[bool], last: usize) -> Result<Vec<Vec<bool>>, AllocError>
    ensures { IfOk result (λ rows. ArePairs row.now last (rows_of rows.items)) }
{
    let mut rows = Vec::new(alloc);
    for x in 0..last {
        if !has(row, x) {
            rows.push(pair(alloc, x, last)?)?;
        }
    }
    Ok(rows)
}

/// Which positions exclude each other: those whose candidates reach an exclusion group. Where there
/// is a position of all features, there is no such group, and that position excludes all that it
/// doesn't enable.
pub(crate) fn excluding(
    alloc: Global,
    rules: &Rules,
    alone: &[usize],
    enabled: &[Vec<bool>],
    all: bool,
) -> Result<Vec<Vec<bool>>, AllocError>
    requires { All (λ q. q < size_of rules.now) alone.now }
    ensures { IfOk result (λ rows. AreExcluding (choice_of rules.now) alone.now all
        (rows_of enabled.now) (rows_of rows.items)) }
{
    if all {
        let row = row_at(enabled, alone.len());
        Ok(pairs(alloc, row, alone.len())?)
    } else {
        Ok(groups(alloc, rules, alone)?)
    }
}
