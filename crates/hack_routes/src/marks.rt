//! What chains of edges lead to from a place, marked in a row.

ghost use Rattle.std.specs.Prelude.{◌≡◌, ◌<◌, ◌↔◌, ◌==◌, ◌||◌, ℕ, [], length, All, IfOk, OnOk};
ghost use Rattle.std.specs.Prelude.{IsTrue, Contains};
ghost use Rattle.std.specs.List.{slice_index_or};
ghost use Rattle.hack_routes.specs.FeatureMap.{Chain};
ghost use Rattle.hack_samples.specs.Sets.{rows_of};
ghost use Rattle.hack_routes.specs.Rows.{bit, leads};
ghost use Rattle.hack_routes.specs.InternalPlaces.{Leads, AddsPlaces, AreMarked};

use std::alloc::{AllocError, Global};

/// The places found so far, in the order in which they were found, and a mark at each of them.
#[derive(Drop)]
struct Marks {
    marks: Vec<bool>,
    order: Vec<usize>,
}

impl Marks {
    /// Marks the place, unless it is marked.
    fn mark(&mut self, place: usize) -> Result<(), AllocError>
        requires marked { AreMarked self.old.marks.items self.old.order.items }
        requires within { place < length self.old.marks.items }
        ensures marked { OnOk result (AreMarked self.new.marks.items self.new.order.items) }
        ensures size { length self.new.marks.items ≡ length self.old.marks.items }
        ensures adds { OnOk result (AddsPlaces (λ j. place
            ≡ j) self.old.order.items self.new.order.items) }
    {
        if !self.marks[place] {
            self.order.push(place)?;
            self.marks[place] = true;
        }
        Ok(())
    }

    /// Marks each of the places.
    fn mark_all(&mut self, places: &[usize]) -> Result<(), AllocError>
        requires marked { AreMarked self.old.marks.items self.old.order.items }
        requires within { All (λ place. place < length self.old.marks.items) places.now }
        ensures marked { OnOk result (AreMarked self.new.marks.items self.new.order.items) }
        ensures size { length self.new.marks.items ≡ length self.old.marks.items }
        ensures adds { OnOk result (AddsPlaces
            (Contains places.now) self.old.order.items self.new.order.items) }
    {
        for place in places {
            self.mark(*place)?;
        }
        Ok(())
    }
}

/// The row at the place; an empty row past the last one.
pub fn row_at<T>(rows: &[Vec<T>], place: usize) -> &[T]
    ensures { result.now ≡ slice_index_or (rows_of rows.now) place [] }
{
    match rows.get(place) {
        Some(row) => row.as_slice(),
        None => &[],
    }
}

/// Returns marks: true at `start` and at each place that a chain of edges leads to from it. `rows`
/// has for each place the places that one edge leads to from it.
pub(crate) fn mark_reached(
    alloc: Global,
    rows: &[Vec<usize>],
    start: usize,
) -> Result<Vec<bool>, AllocError>
    requires start { start < length rows.now }
    requires within { All (All (λ place. place < length rows.now)) (rows_of rows.now) }
    ensures { IfOk result (λ marks. (j : ℕ)
        → IsTrue (bit marks.items j) ↔ Chain (Leads (rows_of rows.now)) start j) }
{
    let mut found = Marks {
        marks: vec![in alloc; false; rows.len()]?,
        order: Vec::new(alloc),
    };
    found.mark(start)?;
    let mut next = 0;
    while next < found.order.len() {
        let place = found.order[next];
        found.mark_all(row_at(rows, place))?;
        next += 1;
    }
    Ok(found.marks)
}

/// The marks of the places that chains of edges lead to from the place; an empty row if no edge
/// leads away from it.
fn marks_from(alloc: Global, rows: &[Vec<usize>], place: usize) -> Result<Vec<bool>, AllocError>
    requires start { place < length rows.now }
    requires within { All (All (λ place. place < length rows.now)) (rows_of rows.now) }
    ensures { IfOk result (λ marks. (j : ℕ)
        → IsTrue (place == j || bit marks.items j) ↔ Chain (Leads (rows_of rows.now)) place j) }
{
    if row_at(rows, place).is_empty() {
        return Ok(Vec::new(alloc));
    }
    Ok(mark_reached(alloc, rows, place)?)
}

/// For each place the marks of the places that chains of edges lead to from it.
pub fn all_marks(alloc: Global, rows: &[Vec<usize>]) -> Result<Vec<Vec<bool>>, AllocError>
    requires within { All (All (λ place. place < length rows.now)) (rows_of rows.now) }
    ensures { IfOk result (λ marks. (i j : ℕ) → i < length rows.now
        → IsTrue (leads (rows_of marks.items) i j) ↔ Chain (Leads (rows_of rows.now)) i j) }
{
    let mut marks = Vec::new(alloc);
    for place in 0..rows.len() {
        marks.push(marks_from(alloc, rows, place)?)?;
    }
    Ok(marks)
}
