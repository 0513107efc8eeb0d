//! How many sets are listed at least, found without a list of them: it counts the sets between a
//! small listed set and a large one.
//!
//! Which two these are isn't promised: contracts say only that the sets between them are listed. A
//! set has here one flag for each candidate.
#![tactic(auto)]

ghost use Rattle.std.specs.Prelude.{◌≡◌, ◌<◌, ◌≤◌, ◌+◌, ◌^◌, length, slice_set, true, false};
ghost use Rattle.std.specs.Prelude.{IfOk, IsTrue, replicate};
ghost use Rattle.hack_samples.specs.Sets.{has, IsInside};
ghost use Rattle.hack_features.specs.Samples.{positions_of, IsSame};
ghost use Rattle.hack_features.specs.View.{choice_of, size_of, may_of, whole_of};
ghost use Rattle.hack_least.specs.Least.{ListsAtLeast};

use hack_features::{Questions, Rules};
use hack_samples::Allowed;
use std::alloc::{AllocError, Global};

/// For more candidates it isn't asked which go together.
const MOST_ASKED: usize = 200;

/// Whether the position is in the set.
fn has(set: &[bool], position: usize) -> bool
    ensures { result ≡ has set.now position }
{
    set.get(position).copied().unwrap_or(false)
}

/// Whether the position isn't in the permitted set, and the set stays permitted with it.
fn joins(rules: &mut Rules, set: &[bool], position: usize) -> bool
    requires size { length set.now ≡ size_of rules.old }
    requires inside { position < length set.now }
    requires permitted { may_of rules.old (positions_of set.now) ≡ true }
    ensures joined { IsTrue result
        → may_of rules.old (positions_of (slice_set set.now position true)) ≡ true }
    ensures same { IsSame rules.old rules.new }
{
    if has(set, position) {
        return false;
    }
    rules.may_add(set, position)
}

/// How many positions can't be added to the permitted set: its members, and those with which it
/// isn't permitted.
fn count_ties(rules: &mut Rules, set: &[bool]) -> usize
    requires size { length set.now ≡ size_of rules.old }
    requires permitted { may_of rules.old (positions_of set.now) ≡ true }
    ensures same { IsSame rules.old rules.new }
{
    let mut ties: usize = 0;
    for position in 0..set.len() {
        if !joins(rules, set, position) {
            ties = ties.saturating_add(1);
        }
    }
    ties
}

/// The set with the position.
fn with(alloc: Global, set: &[bool], position: usize) -> Result<Vec<bool>, AllocError>
    requires { position < length set.now }
    ensures { IfOk result (λ more. more.items ≡ slice_set set.now position true) }
{
    let mut more = Vec::from_slice(alloc, set)?;
    more[position] = true;
    Ok(more)
}

/// How many positions can't be in a permitted set together with this one, itself included.
fn ties_of(
    alloc: Global,
    rules: &mut Rules,
    none: &[bool],
    position: usize,
) -> Result<usize, AllocError>
    requires size { length none.now ≡ size_of rules.old }
    requires inside { position < length none.now }
    requires permitted { may_of rules.old (positions_of none.now) ≡ true }
    ensures same { IsSame rules.old rules.new }
{
    if !joins(rules, none, position) {
        return Ok(none.len());
    }
    let one = with(alloc, none, position)?;
    Ok(count_ties(rules, one.as_slice()))
}

/// The ties of each position; 0 for each if there are too many positions to ask for that.
fn all_ties(alloc: Global, rules: &mut Rules, none: &[bool]) -> Result<Vec<usize>, AllocError>
    requires size { length none.now ≡ size_of rules.old }
    requires permitted { may_of rules.old (positions_of none.now) ≡ true }
    ensures same { IsSame rules.old rules.new }
{
    if none.len() > MOST_ASKED {
        return Ok(vec![in alloc; 0; none.len()]?);
    }
    let mut ties = Vec::new(alloc);
    for position in 0..none.len() {
        ties.push(ties_of(alloc, rules, none, position)?)?;
    }
    Ok(ties)
}

/// Adds the position to the permitted set, if it has that many ties and the set stays permitted.
fn add(rules: &mut Rules, set: &mut Vec<bool>, position: usize, ties: &[usize], number: usize)
    requires size { length set.old.items ≡ size_of rules.old }
    requires inside { position < length set.old.items }
    requires permitted { may_of rules.old (positions_of set.old.items) ≡ true }
    ensures size { length set.new.items ≡ length set.old.items }
    ensures permitted { may_of rules.old (positions_of set.new.items) ≡ true }
    ensures same { IsSame rules.old rules.new }
{
    if ties.get(position) != Some(&number) {
        return;
    }
    if joins(rules, set.as_slice(), position) {
        set[position] = true;
    }
}

/// Adds to the permitted set each position with that many ties with which it stays permitted.
fn grow(rules: &mut Rules, set: &mut Vec<bool>, ties: &[usize], number: usize)
    requires size { length set.old.items ≡ size_of rules.old }
    requires permitted { may_of rules.old (positions_of set.old.items) ≡ true }
    ensures size { length set.new.items ≡ length set.old.items }
    ensures permitted { may_of rules.old (positions_of set.new.items) ≡ true }
    ensures same { IsSame rules.old rules.new }
{
    for position in 0..set.len() {
        add(rules, set, position, ties, number);
    }
}

/// The empty set.
fn empty_set(alloc: Global, rules: &Rules) -> Result<Vec<bool>, AllocError>
    ensures { IfOk result (λ set. set.items ≡ replicate (size_of rules.now) false) }
{
    vec![in alloc; false; rules.positions()]
}

/// A permitted set with many members: those with few ties come first.
fn large_set(alloc: Global, rules: &mut Rules) -> Result<Vec<bool>, AllocError>
    ensures size { IfOk result (λ set. length set.items ≡ size_of rules.old) }
    ensures permitted { IfOk result (λ set. may_of rules.old (positions_of set.items) ≡ true) }
    ensures same { IsSame rules.old rules.new }
{
    let mut set = empty_set(alloc, rules)?;
    let ties = all_ties(alloc, rules, set.as_slice())?;
    for number in 0..set.len() {
        grow(rules, &mut set, ties.as_slice(), number);
    }
    Ok(set)
}

/// The members of the set, in increasing order.
fn members_of(alloc: Global, set: &[bool]) -> Result<Vec<usize>, AllocError>
    ensures { IfOk result (λ members. members.items ≡ positions_of set.now) }
{
    let mut members = Vec::new(alloc);
    for place in 0..set.len() {
        if has(set, place) {
            members.push(place)?;
        }
    }
    Ok(members)
}

/// Whether the set serves each at-least-one group.
fn serves_each(alloc: Global, rules: &Rules, set: &[bool]) -> Result<bool, AllocError>
    requires { length set.now ≡ size_of rules.now }
    ensures { IfOk result (λ serves. serves ≡ whole_of rules.now (positions_of set.now)) }
{
    let members = members_of(alloc, set)?;
    Ok(rules.complete(members.as_slice()))
}

/// The set without the position.
fn without(alloc: Global, set: &[bool], position: usize) -> Result<Vec<bool>, AllocError>
    requires { position < length set.now }
    ensures { IfOk result (λ rest. rest.items ≡ slice_set set.now position false) }
{
    let mut rest = Vec::from_slice(alloc, set)?;
    rest[position] = false;
    Ok(rest)
}

/// What is left of the set after each member is taken out without which it still serves each
/// at-least-one group.
fn needed(alloc: Global, rules: &Rules, set: &[bool]) -> Result<Vec<bool>, AllocError>
    requires size { length set.now ≡ size_of rules.now }
    requires serves { whole_of rules.now (positions_of set.now) ≡ true }
    ensures inside { IfOk result (λ rest. IsInside rest.items set.now) }
    ensures serves { IfOk result (λ rest. whole_of rules.now (positions_of rest.items) ≡ true) }
{
    let mut kept = Vec::from_slice(alloc, set)?;
    for position in 0..set.len() {
        let rest = without(alloc, kept.as_slice(), position)?;
        if serves_each(alloc, rules, rest.as_slice())? {
            kept = rest;
        }
    }
    Ok(kept)
}

/// How many nonempty sets so many members have, or as many as are counted.
fn subsets(members: usize) -> usize
    ensures least { result + 1 ≤ 2 ^ members }
    ensures few { result < 2 ^ 62 }
{
    let mut least: usize = 0;
    for _member in 0..members {
        if least < 1_000_000_000_000_000_000 {
            least = 2 * least + 1;
        }
    }
    least
}

/// Returns a number, of which the listed sets are at least as many. It is 0 where no listed set is
/// found.
pub fn least_listed(alloc: Global, rules: &mut Rules) -> Result<usize, AllocError>
    ensures least { IfOk result (ListsAtLeast (choice_of rules.old) (size_of rules.old)) }
    ensures few { IfOk result (λ least. least < 2 ^ 62) }
    ensures same { IsSame rules.old rules.new }
{
    let most = large_set(alloc, rules)?;
    if !serves_each(alloc, rules, most.as_slice())? {
        return Ok(0);
    }
    let least = needed(alloc, rules, most.as_slice())?;
    let members = members_of(alloc, most.as_slice())?;
    let fewer = members_of(alloc, least.as_slice())?;
    Ok(subsets(members.len().saturating_sub(fewer.len())))
}
