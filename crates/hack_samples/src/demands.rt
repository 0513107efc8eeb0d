//! What a set has to meet: it has to have a member of each group, and no banned position.

ghost use Rattle.std.specs.Prelude.{◌≡◌, List, Bool, false, length, IfOk, ◌↔◌, ◌&&◌};
ghost use Rattle.hack_samples.specs.Sets.{has_one_of, has_each, rows_of};
ghost use Rattle.hack_samples.specs.Internal.{IsClear};

use crate::sets::{add, has};
use std::alloc::{AllocError, Global};

/// What a sample has to be, and how many questions its search may ask.
#[derive(Clone, Copy)]
pub(crate) struct Wanted<'a> {
    /// For each candidate and each of its names the positions that enable it.
    pub(crate) providers: &'a [Vec<Vec<usize>>],
    /// The groups of each of which a set has to have a member.
    pub(crate) required: &'a [Vec<usize>],
    /// How many candidates a pattern has at most.
    pub(crate) strength: usize,
    /// The count of questions at which the search gives up.
    pub(crate) end: u128,
}

/// Bans the positions of a group.
pub(crate) fn ban(banned: &mut Vec<bool>, group: &[usize])
    ensures size { length banned.new.items ≡ length banned.old.items }
    ensures clear { (s : List Bool) → length s ≡ length banned.old.items
        → IsClear banned.new.items s
        ↔ (IsClear banned.old.items s × (has_one_of s group.now ≡ false)) }
{
    for position in group {
        if *position < banned.len() {
            add(banned, *position);
        }
    }
}

/// The positions of the group, beginning with those that are liked.
fn ordered(alloc: Global, group: &[usize], liked: &[bool]) -> Result<Vec<usize>, AllocError>
    ensures { IfOk result (λ ordered. (s : List Bool)
        → has_one_of s ordered.items ≡ has_one_of s group.now) }
{
    let mut ordered = Vec::from_slice(alloc, group)?;
    ordered.sort_by_key(|position| !has(liked, *position))?;
    Ok(ordered)
}

/// Copies of the groups, each beginning with its positions that are liked.
pub(crate) fn copies(
    alloc: Global,
    groups: &[Vec<usize>],
    liked: &[bool],
) -> Result<Vec<Vec<usize>>, AllocError>
    ensures { IfOk result (λ copies. (s : List Bool)
        → has_each s (rows_of copies.items) ≡ has_each s (rows_of groups.now)) }
{
    let mut copies = Vec::new(alloc);
    for group in groups {
        copies.push(ordered(alloc, group.as_slice(), liked)?)?;
    }
    Ok(copies)
}

/// Copies of the first groups, followed by copies of the others.
pub(crate) fn joined(
    alloc: Global,
    first: &[Vec<usize>],
    others: &[Vec<usize>],
) -> Result<Vec<Vec<usize>>, AllocError>
    ensures { IfOk result (λ joined. (s : List Bool) → has_each s (rows_of joined.items)
        ≡ (has_each s (rows_of first.now) && has_each s (rows_of others.now))) }
{
    let mut joined = copies(alloc, first, &[])?;
    let mut behind = copies(alloc, others, &[])?;
    joined.append(&mut behind)?;
    Ok(joined)
}
