//! Leaves the sets out of a sample that it doesn't need.

ghost use Rattle.std.specs.Prelude.{◌<◌, ◌≤◌, ◌+◌, ◌++◌, [], List, length, OnOk, IfOk, MatchBool};
ghost use Rattle.std.specs.Prelude.{AllPairs};
ghost use Rattle.std.specs.List.{slice_index_or, remove};
ghost use Rattle.hack_samples.specs.Sets.{rows_of, tables_of};
ghost use Rattle.hack_samples.specs.Order.{IsMaskBefore};
ghost use Rattle.hack_samples.specs.Samples.{Shows, SomeShows, IsNeeded, IsLean};
ghost use Rattle.hack_samples.specs.InternalDescendingPatterns.{IsAlone, IsShownBelow};
ghost use Rattle.hack_samples.specs.InternalDescendingPatterns.{AreKept, AreShown};
ghost use Rattle.hack_samples.specs.declared.sets.Setting.{Setting};

use crate::patterns::{Further, some_shows, with};
use crate::sets::{Setting, is_on};
use std::alloc::{AllocError, Global};

/// A set among the others of a sample: those before it and those behind it.
#[derive(Clone, Copy)]
struct Among<'a> {
    before: &'a [Vec<bool>],
    set: &'a [bool],
    behind: &'a [Vec<bool>],
}

/// Whether one of the others shows the pattern.
fn others_show(providers: &[Vec<Vec<usize>>], among: &Among<'_>, pattern: &[Setting]) -> bool
    ensures { MatchBool result (SomeShows (tables_of providers.now) pattern.now
        (rows_of among.now.before.now ++ rows_of among.now.behind.now))
        (SomeShows (tables_of providers.now) pattern.now
        (rows_of among.now.before.now ++ rows_of among.now.behind.now) → ⊥) }
{
    some_shows(providers, among.before, pattern) || some_shows(providers, among.behind, pattern)
}

/// Whether the pattern, or one that continues it further as the set does, is shown by none of the
/// others.
fn is_alone(
    alloc: Global,
    providers: &[Vec<Vec<usize>>],
    among: &Among<'_>,
    pattern: &[Setting],
    further: Further,
) -> Result<bool, AllocError>
    requires { Shows (tables_of providers.now) pattern.now among.now.set.now }
    ensures { IfOk result (λ alone. MatchBool alone
        (IsAlone (tables_of providers.now) (length pattern.now + further.more) among.now.set.now
        (rows_of among.now.before.now ++ rows_of among.now.behind.now))
        (IsShownBelow (tables_of providers.now) among.now.set.now pattern.now further.limit
        further.more (rows_of among.now.before.now ++ rows_of among.now.behind.now))) }
{
    if !others_show(providers, among, pattern) {
        return Ok(true);
    }
    if further.more == 0 {
        return Ok(false);
    }
    for candidate in 0..further.limit {
        let on = is_on(providers, among.set, candidate);
        let next = with(alloc, pattern, Setting { candidate, on })?;
        let narrower = Further {
            limit: candidate,
            more: further.more - 1,
        };
        if is_alone(alloc, providers, among, next.as_slice(), narrower)? {
            return Ok(true);
        }
    }
    Ok(false)
}

/// Whether some pattern of at most `strength` candidates is shown by the set at the place, and by
/// no other of the sets.
fn is_needed(
    alloc: Global,
    providers: &[Vec<Vec<usize>>],
    strength: usize,
    sets: &[Vec<bool>],
    place: usize,
) -> Result<bool, AllocError>
    requires { place < length sets.now }
    ensures { IfOk result (λ needed. MatchBool needed
        (IsNeeded (tables_of providers.now) strength (rows_of sets.now)
        (slice_index_or (rows_of sets.now) place []))
        ((pattern : List Setting) → length pattern ≤ strength
        → Shows (tables_of providers.now) pattern (slice_index_or (rows_of sets.now) place [])
        → SomeShows (tables_of providers.now) pattern (remove (rows_of sets.now) place))) }
{
    let among = Among {
        before: &sets[..place],
        set: sets[place].as_slice(),
        behind: &sets[place + 1..],
    };
    let further = Further {
        limit: providers.len(),
        more: strength,
    };
    is_alone(alloc, providers, &among, &[], further)
}

/// Leaves out one set after another that isn't needed beside those that are left.
pub(crate) fn leave_out(
    alloc: Global,
    providers: &[Vec<Vec<usize>>],
    strength: usize,
    sets: &mut Vec<Vec<bool>>,
) -> Result<(), AllocError>
    ensures lean { OnOk result (IsLean (tables_of providers.now) strength
        (rows_of sets.new.items)) }
    ensures shown { OnOk result (AreShown (tables_of providers.now) strength
        (rows_of sets.old.items) (rows_of sets.new.items)) }
    ensures only { OnOk result (AreKept (rows_of sets.new.items) (rows_of sets.old.items)) }
    ensures ordered { OnOk result (AllPairs IsMaskBefore (rows_of sets.old.items)
        → AllPairs IsMaskBefore (rows_of sets.new.items)) }
{
    let mut place = 0;
    while place < sets.len() {
        if is_needed(alloc, providers, strength, sets.as_slice(), place)? {
            place += 1;
        } else {
            sets.remove(place);
        }
    }
    Ok(())
}
