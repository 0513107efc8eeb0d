//! The order of sets: a set is before another if the greatest position that is in only one of them
//! is in the other.

ghost use Rattle.std.specs.Prelude.{◌≡◌, List, Bool, length, OnOk, MatchOption, ◌⊎◌, All, AllPairs};
ghost use Rattle.std.specs.Prelude.{Contains};
ghost use Rattle.std.specs.Ordering.{MatchOrdering};
ghost use Rattle.hack_samples.specs.Sets.{rows_of};
ghost use Rattle.hack_samples.specs.Order.{IsMaskBefore};
ghost use Rattle.hack_samples.specs.Internal.{BelongsAt};
ghost use Rattle.hack_samples.specs.InternalDescendingPatterns.{AreKept};

use crate::sets::has;
use std::alloc::AllocError;
use std::cmp::Ordering;

/// Compares two sets by the greatest position that is in only one of them: the set that has it is
/// later.
fn compare(one: &[bool], other: &[bool]) -> Ordering
    requires { length one.now ≡ length other.now }
    ensures { MatchOrdering result (IsMaskBefore one.now other.now) (one.now ≡ other.now)
        (IsMaskBefore other.now one.now) }
{
    let mut left = one.len();
    while left > 0 {
        left -= 1;
        if has(one, left) != has(other, left) {
            return if has(one, left) {
                Ordering::Greater
            } else {
                Ordering::Less
            };
        }
    }
    Ordering::Equal
}

/// Returns the place where the set belongs among sets in order; None if it is one of them.
fn place_of(sets: &[Vec<bool>], set: &[bool]) -> Option<usize>
    requires sizes { All (λ t. length t ≡ length set.now) (rows_of sets.now) }
    requires ordered { AllPairs IsMaskBefore (rows_of sets.now) }
    ensures { MatchOption result (Contains (rows_of sets.now) set.now)
        (BelongsAt (rows_of sets.now) set.now) }
{
    for place in 0..sets.len() {
        match compare(sets[place].as_slice(), set) {
            Ordering::Less => {}
            Ordering::Equal => return None,
            Ordering::Greater => return Some(place),
        }
    }
    Some(sets.len())
}

/// Inserts a set at its place among sets in order, unless it is one of them.
pub(crate) fn put(sets: &mut Vec<Vec<bool>>, set: Vec<bool>) -> Result<(), AllocError>
    requires sizes { All (λ t. length t ≡ length set.items) (rows_of sets.old.items) }
    requires ordered { AllPairs IsMaskBefore (rows_of sets.old.items) }
    ensures ordered { OnOk result (AllPairs IsMaskBefore (rows_of sets.new.items)) }
    ensures kept { OnOk result (AreKept (rows_of sets.old.items) (rows_of sets.new.items)) }
    ensures added { OnOk result (Contains (rows_of sets.new.items) set.items) }
    ensures only { OnOk result ((s : List Bool) → Contains (rows_of sets.new.items) s
        → Contains (rows_of sets.old.items) s ⊎ (s ≡ set.items)) }
{
    let Some(place) = place_of(sets.as_slice(), set.as_slice()) else {
        return Ok(());
    };
    sets.insert(place, set)?;
    Ok(())
}
