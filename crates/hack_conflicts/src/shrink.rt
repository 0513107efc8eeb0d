//! Makes a set that fails smaller.

ghost use Rattle.std.specs.Prelude.{◌≡◌, ◌<◌, ◌≤◌, ◌+◌, ◌-◌, ◌*◌, ℕ, List, Bool, IfOk, IfErr};
ghost use Rattle.std.specs.Prelude.{IfSome, IfNone, MatchOption, length};
ghost use Rattle.hack_conflicts.specs.Sets.{Has, IsWithin};
ghost use Rattle.hack_conflicts.specs.Rules.{IsPreorder, IsClosed, IsExclusive, IsChoice, IsPlain};
ghost use Rattle.hack_conflicts.specs.Rules.{size_of};
ghost use Rattle.hack_conflicts.specs.Runs.{IsPassed, Needs, IsLeast};
ghost use Rattle.hack_conflicts.specs.Internal.{IsSound, Grows, IsEnd, IsNext, IsGoing, IsFailing};
ghost use Rattle.hack_conflicts.specs.Internal.{IsPart, IsPartOfFailing, told};

use crate::builds::Builds;
use crate::fault::End;
use crate::known::{Known, ask, is_passed};
use crate::rules::Rules;
use crate::sets::has_any;
use std::alloc::Global;

/// Tries a build with the set, which may be chosen. Returns the set if it fails.
fn try_choice<B: Builds>(
    alloc: Global,
    rules: &Rules,
    most: Option<usize>,
    known: &mut Known,
    set: &[bool],
    builder: &mut B,
) -> Result<Option<Vec<bool>>, End>
    requires sound { IsSound rules.now most known.old }
    requires next { IsNext rules.now known.old set.now }
    ensures sound { IsSound rules.now most known.new }
    ensures grows { Grows known.old known.new }
    ensures ran { (start : B) → B.ran (told known.old) start builder.old
        → B.ran (told known.new) start builder.new }
    ensures going { IfOk result (λ left. IsGoing known.old → IsGoing known.new) }
    ensures same_conflicts { known.new.conflicts ≡ known.old.conflicts }
    ensures same_passing { known.new.passing ≡ known.old.passing }
    ensures few { length known.new.runs.items ≤ length known.old.runs.items + 1 }
    ensures ends { IfErr result (IsEnd rules.now most known.new) }
    ensures within { IfOk result (λ left. IfSome left (λ less. IsWithin less.items set.now)) }
    ensures passed { IfOk result (λ left. IfNone left (IsPassed (told known.new) set.now)) }
    ensures failing { IfOk result (λ left. (large : List Bool) → IsPart set.now large
        → IsFailing rules.now known.old large → MatchOption left
        (IsFailing rules.now known.new large)
        (λ less. IsFailing rules.now known.new less.items)) }
{
    let passed = ask(alloc, most, known, set, builder)?;
    if passed {
        return Ok(None);
    }
    Ok(Some(Vec::from_slice(alloc, set)?))
}

/// Looks for a set inside the set that may be chosen and fails. If there is none, each such set
/// lies inside one that passed.
fn try_inside<B: Builds>(
    alloc: Global,
    rules: &Rules,
    most: Option<usize>,
    known: &mut Known,
    set: &[bool],
    builder: &mut B,
) -> Result<Option<Vec<bool>>, End>
    requires order { IsPreorder rules.now }
    requires closed { IsClosed rules.now set.now }
    requires sound { IsSound rules.now most known.old }
    requires part { IsPartOfFailing rules.now known.old set.now }
    requires going { IsGoing known.old }
    ensures sound { IsSound rules.now most known.new }
    ensures grows { Grows known.old known.new }
    ensures ran { (start : B) → B.ran (told known.old) start builder.old
        → B.ran (told known.new) start builder.new }
    ensures going { IfOk result (λ left. IsGoing known.old → IsGoing known.new) }
    ensures same_conflicts { known.new.conflicts ≡ known.old.conflicts }
    ensures same_passing { known.new.passing ≡ known.old.passing }
    ensures few { IsExclusive rules.now set.now
        → length known.new.runs.items ≤ length known.old.runs.items + 1 }
    ensures ends { IfErr result (IsEnd rules.now most known.new) }
    ensures within { IfOk result (λ left. IfSome left (λ less. IsWithin less.items set.now)) }
    ensures passed { IfOk result (λ left. IfNone left ((s : List Bool) → IsChoice rules.now s
        → IsWithin s set.now → IsPassed (told known.new) s)) }
    ensures failing { IfOk result (λ left. (large : List Bool) → IsPart set.now large
        → IsFailing rules.now known.old large → MatchOption left
        (IsFailing rules.now known.new large)
        (λ less. IsFailing rules.now known.new less.items)) }
{
    if !rules.is_required(set) {
        return Ok(None);
    }
    if is_passed(known.runs.as_slice(), set) {
        return Ok(None);
    }
    if let Some((p, q)) = rules.clash(set) {
        let first = rules.without(alloc, set, p)?;
        let found = try_inside(alloc, rules, most, known, first.as_slice(), builder)?;
        if let Some(less) = found {
            return Ok(Some(less));
        }
        let second = rules.without(alloc, set, q)?;
        let last = try_inside(alloc, rules, most, known, second.as_slice(), builder)?;
        return Ok(last);
    }
    let left = try_choice(alloc, rules, most, known, set, builder)?;
    Ok(left)
}

/// Looks for a set that fails inside the one that fails without a block of its positions.
fn try_block<B: Builds>(
    alloc: Global,
    rules: &Rules,
    most: Option<usize>,
    known: &mut Known,
    set: &[bool],
    from: usize,
    to: usize,
    builder: &mut B,
) -> Result<Option<Vec<bool>>, End>
    requires order { IsPreorder rules.now }
    requires sound { IsSound rules.now most known.old }
    requires failing { IsFailing rules.now known.old set.now }
    requires block { from < to }
    ensures sound { IsSound rules.now most known.new }
    ensures grows { Grows known.old known.new }
    ensures ran { (start : B) → B.ran (told known.old) start builder.old
        → B.ran (told known.new) start builder.new }
    ensures same_conflicts { known.new.conflicts ≡ known.old.conflicts }
    ensures same_passing { known.new.passing ≡ known.old.passing }
    ensures few { IsPlain rules.now
        → length known.new.runs.items ≤ length known.old.runs.items + 1 }
    ensures ends { IfErr result (IsEnd rules.now most known.new) }
    ensures within { IfOk result (λ left. IfSome left (λ less. IsWithin less.items set.now)) }
    ensures lacks { IfOk result (λ left. IfSome left
        (λ less. (x : ℕ) → from ≤ x → x < to → ¬ Has less.items x)) }
    ensures needs { IfOk result (λ left. IfNone left (from + 1 ≡ to → Has set.now from
        → Needs rules.now (told known.new) set.now from)) }
    ensures failing { IfOk result (λ left. MatchOption left
        (IsFailing rules.now known.new set.now)
        (λ less. IsFailing rules.now known.new less.items)) }
{
    if !has_any(set, from, to) {
        return Ok(None);
    }
    let smaller = rules.without_block(alloc, set, from, to)?;
    let left = try_inside(alloc, rules, most, known, smaller.as_slice(), builder)?;
    Ok(left)
}

/// A set that fails inside the one that fails, which needs each of its positions in the block: the
/// whole block is tried first, and then each of its halves.
fn shrink_block<B: Builds>(
    alloc: Global,
    rules: &Rules,
    most: Option<usize>,
    known: &mut Known,
    set: Vec<bool>,
    from: usize,
    to: usize,
    builder: &mut B,
) -> Result<Vec<bool>, End>
    requires order { IsPreorder rules.now }
    requires sound { IsSound rules.now most known.old }
    requires failing { IsFailing rules.now known.old set.items }
    requires block { from < to }
    ensures sound { IsSound rules.now most known.new }
    ensures grows { Grows known.old known.new }
    ensures ran { (start : B) → B.ran (told known.old) start builder.old
        → B.ran (told known.new) start builder.new }
    ensures same_conflicts { known.new.conflicts ≡ known.old.conflicts }
    ensures same_passing { known.new.passing ≡ known.old.passing }
    ensures few { IsPlain rules.now → length known.new.runs.items + 1
        ≤ length known.old.runs.items + 2 * (to - from) }
    ensures ends { IfErr result (IsEnd rules.now most known.new) }
    ensures within { IfOk result (λ left. IsWithin left.items set.items) }
    ensures needs { IfOk result (λ left. (x : ℕ) → from ≤ x → x < to → Has left.items x
        → Needs rules.now (told known.new) left.items x) }
    ensures failing { IfOk result (λ left. IsFailing rules.now known.new left.items) }
{
    let found = try_block(alloc, rules, most, known, set.as_slice(), from, to, builder)?;
    if let Some(smaller) = found {
        return Ok(smaller);
    }
    if to - from == 1 {
        return Ok(set);
    }
    let middle = from + (to - from) / 2;
    let first = shrink_block(alloc, rules, most, known, set, from, middle, builder)?;
    let both = shrink_block(alloc, rules, most, known, first, middle, to, builder)?;
    Ok(both)
}

/// A set that fails inside the one that fails, and which needs each of its members.
pub(crate) fn shrink<B: Builds>(
    alloc: Global,
    rules: &Rules,
    most: Option<usize>,
    known: &mut Known,
    failed: &[bool],
    builder: &mut B,
) -> Result<Vec<bool>, End>
    requires order { IsPreorder rules.now }
    requires sound { IsSound rules.now most known.old }
    requires failing { IsFailing rules.now known.old failed.now }
    ensures sound { IsSound rules.now most known.new }
    ensures grows { Grows known.old known.new }
    ensures ran { (start : B) → B.ran (told known.old) start builder.old
        → B.ran (told known.new) start builder.new }
    ensures same_conflicts { known.new.conflicts ≡ known.old.conflicts }
    ensures same_passing { known.new.passing ≡ known.old.passing }
    ensures few { IsPlain rules.now → length known.new.runs.items
        ≤ length known.old.runs.items + 2 * size_of rules.now }
    ensures ends { IfErr result (IsEnd rules.now most known.new) }
    ensures within { IfOk result (λ left. IsWithin left.items failed.now) }
    ensures least { IfOk result (λ left. IsLeast rules.now (told known.new) left.items) }
    ensures failing { IfOk result (λ left. IsFailing rules.now known.new left.items) }
{
    let set = Vec::from_slice(alloc, failed)?;
    let n = rules.enables.len();
    if n == 0 {
        return Ok(set);
    }
    let left = shrink_block(alloc, rules, most, known, set, 0, n, builder)?;
    Ok(left)
}
