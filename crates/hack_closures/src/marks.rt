//! Rows of marks.

ghost use Rattle.std.specs.Prelude.{◌≡◌, [], map, IfOk};
ghost use Rattle.std.specs.List.{slice_index_or};
ghost use Rattle.hack_conflicts.specs.Sets.{mark, rows_of};
ghost use Rattle.hack_closures.specs.Internal.{candidates_of};

use std::alloc::{AllocError, Global};

/// The mark at the place, false past the end.
pub(crate) fn has(row: &[bool], place: usize) -> bool
    ensures { result ≡ mark row.now place }
{
    match row.get(place) {
        Some(marked) => *marked,
        None => false,
    }
}

/// The row at the place, none past the last.
pub(crate) fn row_at(rows: &[Vec<bool>], place: usize) -> &[bool]
    ensures { result.now ≡ slice_index_or (rows_of rows.now) place [] }
{
    match rows.get(place) {
        Some(row) => row.as_slice(),
        None => &[],
    }
}

/// The marks of these candidates in a row that has one for each candidate.
pub(crate) fn marks_of(
    alloc: Global,
    row: &[bool],
    candidates: &[usize],
) -> Result<Vec<bool>, AllocError>
    ensures { IfOk result (λ marks. marks.items ≡ map (mark row.now) candidates.now) }
{
    let mut marks = Vec::new(alloc);
    for p in candidates {
        marks.push(has(row, *p))?;
    }
    Ok(marks)
}

/// Those of the candidates whose positions are in the set.
pub(crate) fn candidates_of(
    alloc: Global,
    alone: &[usize],
    set: &[bool],
) -> Result<Vec<usize>, AllocError>
    ensures { IfOk result (λ found. found.items ≡ candidates_of alone.now set.now) }
{
    let mut found = Vec::new(alloc);
    for x in 0..alone.len() {
        if has(set, x) {
            found.push(alone[x])?;
        }
    }
    Ok(found)
}
