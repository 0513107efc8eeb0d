//! Sets that say of each position whether it is a member, and tests of such sets by the rows of
//! tables. Each test takes time in proportion to the number of positions.

ghost use Rattle.std.specs.Prelude.{◌≡◌, ◌≤◌, ◌++◌, ◌∷◌, ◌&&◌, [], length, cond, not, nat_le};
ghost use Rattle.std.specs.Prelude.{sum_by, IfOk};
ghost use Rattle.std.specs.List.{list_all};
ghost use Rattle.hack_samples.specs.Sets.{rows_of};
ghost use Rattle.hack_features.specs.Tables.{count_at};
ghost use Rattle.hack_routes.specs.Rows.{bit, cell};
ghost use Rattle.hack_features.specs.Samples.{positions_of};

use crate::tables::count;
use hack_routes::marks::row_at;
use hack_routes::routes::bit;
use std::alloc::{AllocError, Global};

/// How many members the set has.
pub(crate) fn count_members(set: &[bool]) -> usize
    ensures same { result ≡ length (positions_of set.now) }
    ensures few { result ≤ length set.now }
{
    set.iter().filter(|member| **member).count()
}

/// The members of the set, in increasing order.
pub(crate) fn members_of(alloc: Global, set: &[bool]) -> Result<Vec<usize>, AllocError>
    ensures { IfOk result (λ members. members.items ≡ positions_of set.now) }
{
    let mut members = Vec::new(alloc);
    for place in 0..set.len() {
        if bit(set, place) {
            members.push(place)?;
        }
    }
    Ok(members)
}

/// Whether the position is a member of the set and the row is true at it.
fn is_both(set: &[bool], row: &[bool], place: usize) -> bool
    ensures { result ≡ (bit set.now place && bit row.now place) }
{
    bit(set, place) && bit(row, place)
}

/// Whether the row is false at each member of the set.
fn none_in(row: &[bool], set: &[bool]) -> bool
    ensures { result ≡ list_all (λ q. not (bit row.now q)) (positions_of set.now) }
{
    for place in 0..set.len() {
        if is_both(set, row, place) {
            return false;
        }
    }
    true
}

/// Whether the position is a member of the set, and its row is true at `last`.
fn is_with(rows: &[Vec<bool>], set: &[bool], place: usize, last: usize) -> bool
    ensures { result ≡ (bit set.now place && cell (rows_of rows.now) place last) }
{
    bit(set, place) && bit(row_at(rows, place), last)
}

/// Whether each member's row is false at `last`.
fn none_at(rows: &[Vec<bool>], set: &[bool], last: usize) -> bool
    ensures { result ≡ list_all (λ p. not (cell (rows_of rows.now) p last)) (positions_of set.now) }
{
    for place in 0..set.len() {
        if is_with(rows, set, place, last) {
            return false;
        }
    }
    true
}

/// Whether the row of `last` is false at `last` and at each member of the set, and each member's
/// row is false at `last`.
pub(crate) fn is_clear(rows: &[Vec<bool>], set: &[bool], last: usize) -> bool
    ensures { result ≡ ((not (cell (rows_of rows.now) last last)
        && list_all (λ q. not (cell (rows_of rows.now) last q)) (positions_of set.now))
        && list_all (λ p. not (cell (rows_of rows.now) p last)) (positions_of set.now)) }
{
    let row = row_at(rows, last);
    !bit(row, last) && none_in(row, set) && none_at(rows, set, last)
}

/// The element of the row at the position if that is a member of the set, else 0.
fn entry_at(row: &[usize], set: &[bool], place: usize) -> usize
    ensures { result ≡ cond (bit set.now place) (count_at row.now place) 0 }
{
    if bit(set, place) {
        return count(row, place);
    }
    0
}

/// Whether the sum of the row's entries at the members of the set and at `last` is at most 1.
pub(crate) fn at_most_one_in(row: &[usize], set: &[bool], last: usize) -> bool
    ensures { result ≡ nat_le (sum_by (count_at row.now) (positions_of set.now ++ last ∷ [])) 1 }
{
    let mut seen = 0;
    for place in 0..set.len() {
        let more = entry_at(row, set, place);
        if more > 1 - seen {
            return false;
        }
        seen += more;
    }
    count(row, last) <= 1 - seen
}
