//! All sets of some items, and the order of sets.

ghost use Rattle.std.specs.Prelude.{◌≡◌, IfOk, List, ℕ, ◌<◌, AllPairs};
ghost use Rattle.std.specs.Ordering.{MatchOrdering};
ghost use Rattle.hack_sets.specs.Sets.{IsBefore, ListsSelections, IsWithin};
ghost use Rattle.hack_sets.specs.InternalSets.{has_room, with_each};
ghost use Rattle.hack_samples.specs.Sets.{rows_of};

use std::alloc::{AllocError, Global};
use std::cmp::Ordering;

/// Returns which of two sets, given as increasing lists of positions, comes first in the order of
/// sets: the later set is the one with the greatest position that is in only one of them.
pub fn compare_sets(first: &[usize], second: &[usize]) -> Ordering
    requires first { AllPairs (λ p q. p < q) first.now }
    requires second { AllPairs (λ p q. p < q) second.now }

    // Total: of two sets one is before, or they are the same.
    ensures order { MatchOrdering result (IsBefore first.now second.now) (first.now
        ≡ second.now) (IsBefore second.now first.now) }

    // Strict: no set is before itself, and what is before a set is before all that come after it.
    ensures irreflexive { IsBefore first.now first.now → ⊥ }
    ensures transitive { (third : List ℕ) → IsBefore first.now second.now
        → IsBefore second.now third → IsBefore first.now third }
{
    match (first.split_last(), second.split_last()) {
        (None, None) => Ordering::Equal,
        (None, Some(_)) => Ordering::Less,
        (Some(_), None) => Ordering::Greater,
        (Some((p, first)), Some((q, second))) => match p.cmp(q) {
            Ordering::Equal => compare_sets(first, second),
            other => other,
        },
    }
}

fn has_room<T>(list: &[T], depth: Option<usize>) -> bool
    ensures { result ≡ has_room depth list.now }
{
    match depth {
        None => true,
        Some(most) => list.len() < most,
    }
}

/// For each list that the depth lets grow, the list with one more item.
fn longer<T: Copy>(
    alloc: Global,
    lists: &[Vec<T>],
    item: T,
    depth: Option<usize>,
) -> Result<Vec<Vec<T>>, AllocError>
    ensures { IfOk result (λ more. rows_of more.items ≡ with_each depth item (rows_of lists.now)) }
{
    let mut more = Vec::new(alloc);
    for list in lists {
        if has_room(list.as_slice(), depth) {
            let mut next = Vec::from_slice(alloc, list.as_slice())?;
            next.push(item)?;
            more.push(next)?;
        }
    }
    Ok(more)
}

/// The lists of items of all sets of positions within the depth, in the order of sets.
pub fn powerset<T: Copy>(
    alloc: Global,
    items: &[T],
    depth: Option<usize>,
) -> Result<Vec<Vec<T>>, AllocError>
    ensures { IfOk result (λ lists.
        ListsSelections (IsWithin depth) items.now (rows_of lists.items)) }
{
    let mut lists = Vec::new(alloc);
    lists.push(Vec::new(alloc))?;
    for item in items {
        let mut more = longer(alloc, lists.as_slice(), *item, depth)?;
        lists.append(&mut more)?;
    }
    Ok(lists)
}
