//! Sets of positions, as a mark for each position.

ghost use Rattle.std.specs.Prelude.{◌≡◌, ◌<◌, ◌≤◌, ◌↔◌, ℕ, [], length, IsTrue, MatchBool};
ghost use Rattle.std.specs.Prelude.{MatchOption, false};
ghost use Rattle.std.specs.List.{slice_index_or};
ghost use Rattle.hack_conflicts.specs.Sets.{Has, IsInside, HasInside, IsWithin, mark, rows_of};
ghost use Rattle.hack_conflicts.specs.Internal.{members};

/// Whether the set has the position.
pub(crate) fn has(set: &[bool], p: usize) -> bool
    ensures { result ≡ mark set.now p }
{
    match set.get(p) {
        Some(marked) => *marked,
        None => false,
    }
}

/// The set at the place, none past the last.
pub(crate) fn set_at(sets: &[Vec<bool>], place: usize) -> &[bool]
    ensures { result.now ≡ slice_index_or (rows_of sets.now) place [] }
{
    match sets.get(place) {
        Some(set) => set.as_slice(),
        None => &[],
    }
}

/// Whether each member of the first set is one of the second.
pub(crate) fn is_within(small: &[bool], large: &[bool]) -> bool
    ensures { IsTrue result ↔ IsWithin small.now large.now }
{
    for p in 0..small.len() {
        if has(small, p) && !has(large, p) {
            return false;
        }
    }
    true
}

/// Whether one of the sets lies inside the set.
pub(crate) fn has_inside(sets: &[Vec<bool>], set: &[bool]) -> bool
    ensures { IsTrue result ↔ HasInside (rows_of sets.now) set.now }
{
    match first_inside(sets, set) {
        Some(_) => true,
        None => false,
    }
}

/// The place of the first of the sets that lies inside the set.
pub(crate) fn first_inside(sets: &[Vec<bool>], set: &[bool]) -> Option<usize>
    ensures { MatchOption result (¬ HasInside (rows_of sets.now) set.now) (λ place. (place
        < length sets.now) × IsWithin (slice_index_or (rows_of sets.now) place []) set.now) }
{
    for place in 0..sets.len() {
        if is_within(set_at(sets, place), set) {
            return Some(place);
        }
    }
    None
}

/// Whether the set lies inside one of the sets.
pub(crate) fn is_inside(sets: &[Vec<bool>], set: &[bool]) -> bool
    ensures { IsTrue result ↔ IsInside (rows_of sets.now) set.now }
{
    for place in 0..sets.len() {
        if is_within(set, set_at(sets, place)) {
            return true;
        }
    }
    false
}

/// Whether the set has a position from `from` on and below `to`.
pub(crate) fn has_any(set: &[bool], from: usize, to: usize) -> bool
    ensures { MatchBool result ((x : ℕ) × (from ≤ x) × (x < to) × Has set.now x)
        ((x : ℕ) → from ≤ x → x < to → ¬ Has set.now x) }
{
    for x in from..to {
        if has(set, x) {
            return true;
        }
    }
    false
}

/// How many positions below `n` the set has.
pub(crate) fn count_members(set: &[bool], n: usize) -> usize
    ensures { result ≡ members n set.now }
{
    let mut count = 0;
    for p in 0..n {
        if has(set, p) {
            count += 1;
        }
    }
    count
}
