//! What sets are chosen from, and by which rules.

ghost use Rattle.std.specs.Prelude.{◌≡◌, ◌<◌, ◌≤◌, ◌↔◌, ℕ, List, Bool, All, IfOk, IsTrue};
ghost use Rattle.std.specs.Prelude.{MatchOption};
ghost use Rattle.hack_conflicts.specs.Sets.{rows_of, Has, IsWithin};
ghost use Rattle.hack_conflicts.specs.Rules.{Meets, IsChoice, enables, size_of, HasAbove, HasOneOf};
ghost use Rattle.hack_conflicts.specs.Rules.{IsRequired, IsExclusive, IsPreorder, IsClosed, row_of};
ghost use Rattle.hack_conflicts.specs.Internal.{IsWithout, Clashes};

use crate::sets::{has, is_within, set_at};
use std::alloc::{AllocError, Global};

/// Positions, by what each of them enables, and the groups by which sets of them may be chosen. A row
/// has an entry for each position; one past its end is false.
#[derive(Drop)]
pub struct Rules {
    /// A row for each position: whether it enables the entry's position. Each enables itself.
    pub enables: Vec<Vec<bool>>,
    /// A row for each exclusion group: whether the entry's position reaches the group. A set may be
    /// chosen only if for any two of its members that reach the group some member enables both.
    pub exclusive: Vec<Vec<bool>>,
    /// A row for each at-least-one group: whether the entry's position serves the group. A set may be
    /// chosen only if a member serves it.
    pub needed: Vec<Vec<bool>>,
}

/// Whether the sets share a position.
fn meets(set: &[bool], group: &[bool]) -> bool
    ensures { IsTrue result ↔ Meets set.now group.now }
{
    for p in 0..set.len() {
        if has(group, p) && has(set, p) {
            return true;
        }
    }
    false
}

/// Whether the set shares a position with each of the groups.
fn meets_all(set: &[bool], groups: &[Vec<bool>]) -> bool
    ensures { IsTrue result ↔ All (Meets set.now) (rows_of groups.now) }
{
    for place in 0..groups.len() {
        if !meets(set, set_at(groups, place)) {
            return false;
        }
    }
    true
}

impl Rules {
    /// Whether position `x` enables position `y`.
    fn enables(&self, x: usize, y: usize) -> bool
        ensures { result ≡ enables self.now x y }
    {
        has(set_at(self.enables.as_slice(), x), y)
    }

    /// Whether the set has a member of each at-least-one group.
    pub(crate) fn is_required(&self, set: &[bool]) -> bool
        ensures { IsTrue result ↔ IsRequired self.now set.now }
    {
        meets_all(set, self.needed.as_slice())
    }

    /// Whether a member of the set enables both `p` and `q`.
    fn has_above(&self, set: &[bool], p: usize, q: usize) -> bool
        ensures { IsTrue result ↔ HasAbove self.now set.now p q }
    {
        for t in 0..set.len() {
            if has(set, t) && self.enables(t, p) && self.enables(t, q) {
                return true;
            }
        }
        false
    }

    /// A member of the set and of the group that no member enables together with `p`.
    fn clash_with(&self, set: &[bool], group: &[bool], p: usize) -> Option<usize>
        ensures { MatchOption result
            ((q : ℕ) → Has set.now q → Has group.now q → HasAbove self.now set.now p q)
            (λ q. Has set.now q × Has group.now q × ¬ HasAbove self.now set.now p q) }
    {
        for q in 0..set.len() {
            if has(set, q) && has(group, q) && !self.has_above(set, p, q) {
                return Some(q);
            }
        }
        None
    }

    /// Two members of the set and of the group that no member enables both.
    fn clash_in(&self, set: &[bool], group: &[bool]) -> Option<(usize, usize)>
        ensures { MatchOption result (HasOneOf self.now set.now group.now)
            (λ pair. Has set.now pair.0 × Has set.now pair.1 × Has group.now pair.0
            × Has group.now pair.1 × ¬ HasAbove self.now set.now pair.0 pair.1) }
    {
        for p in 0..set.len() {
            if has(set, p) && has(group, p) {
                if let Some(q) = self.clash_with(set, group, p) {
                    return Some((p, q));
                }
            }
        }
        None
    }

    /// Two members of the set and of one exclusion group that no member enables both.
    pub(crate) fn clash(&self, set: &[bool]) -> Option<(usize, usize)>
        ensures { MatchOption result (IsExclusive self.now set.now)
            (λ pair. Clashes self.now set.now pair.0 pair.1) }
    {
        for place in 0..self.exclusive.len() {
            let found = self.clash_in(set, set_at(self.exclusive.as_slice(), place));
            if let Some(pair) = found {
                return Some(pair);
            }
        }
        None
    }

    /// The set without `x` and all that enable it.
    pub(crate) fn without(
        &self,
        alloc: Global,
        set: &[bool],
        x: usize,
    ) -> Result<Vec<bool>, AllocError>
        ensures { IfOk result (λ left. IsWithout self.now x set.now left.items) }
    {
        let mut left = Vec::new(alloc);
        for p in 0..set.len() {
            left.push(has(set, p) && !self.enables(p, x))?;
        }
        Ok(left)
    }

    /// The set without the positions from `from` on and below `to`, and without all that enable
    /// one of them.
    pub(crate) fn without_block(
        &self,
        alloc: Global,
        set: &[bool],
        from: usize,
        to: usize,
    ) -> Result<Vec<bool>, AllocError>
        requires order { IsPreorder self.now }
        requires closed { IsClosed self.now set.now }
        requires block { from ≤ to }
        ensures within { IfOk result (λ left. IsWithin left.items set.now) }
        ensures closed { IfOk result (λ left. IsClosed self.now left.items) }
        ensures lacks { IfOk result (λ left. (x : ℕ) → from ≤ x → x < to → ¬ Has left.items x) }
        ensures around { IfOk result (λ left. (s : List Bool) → IsClosed self.now s
            → IsWithin s set.now → ((x : ℕ) → from ≤ x → x < to → ¬ Has s x)
            → IsWithin s left.items) }
    {
        let mut left = Vec::from_slice(alloc, set)?;
        for x in from..to {
            left = self.without(alloc, left.as_slice(), x)?;
        }
        Ok(left)
    }

    /// Whether `p` is a position, and the set has all that it enables.
    fn keeps(&self, set: &[bool], p: usize) -> bool
        ensures { IsTrue result
            ↔ ((p < size_of self.now) × IsWithin (row_of self.now p) set.now) }
    {
        p < self.enables.len() && is_within(set_at(self.enables.as_slice(), p), set)
    }

    /// Whether each member of the set is a position, and the set has all that its members enable.
    fn is_closed(&self, set: &[bool]) -> bool
        ensures { IsTrue result ↔ IsClosed self.now set.now }
    {
        for p in 0..set.len() {
            if has(set, p) && !self.keeps(set, p) {
                return false;
            }
        }
        true
    }

    /// Whether the set may be chosen.
    pub fn is_choice(&self, set: &[bool]) -> bool
        ensures { IsTrue result ↔ IsChoice self.now set.now }
    {
        self.is_closed(set) && self.clash(set).is_none() && self.is_required(set)
    }

    /// Whether `y`, where `x` enables it, is a position, and what it enables `x` enables too.
    fn fits(&self, x: usize, y: usize) -> bool
        ensures { IsTrue result ↔ (IsTrue (enables self.now x y) → (y < size_of self.now)
            × IsWithin (row_of self.now y) (row_of self.now x)) }
    {
        if !self.enables(x, y) {
            return true;
        }
        if y >= self.enables.len() {
            return false;
        }
        is_within(
            set_at(self.enables.as_slice(), y),
            set_at(self.enables.as_slice(), x),
        )
    }

    /// Whether all that `x` enables are positions, and what those enable it enables too.
    fn is_whole(&self, x: usize) -> bool
        ensures { IsTrue result ↔ ((y : ℕ) → IsTrue (enables self.now x y) → (y < size_of self.now)
            × IsWithin (row_of self.now y) (row_of self.now x)) }
    {
        for y in 0..set_at(self.enables.as_slice(), x).len() {
            if !self.fits(x, y) {
                return false;
            }
        }
        true
    }

    /// Whether each position enables itself, only positions that there are, and all that those
    /// enable, as `find_conflicts` requires.
    pub fn is_preorder(&self) -> bool
        ensures { IsTrue result ↔ IsPreorder self.now }
    {
        for x in 0..self.enables.len() {
            if !self.enables(x, x) {
                return false;
            }
            if !self.is_whole(x) {
                return false;
            }
        }
        true
    }
}
