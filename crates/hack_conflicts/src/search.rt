//! Finds the least sets that fail, and sets that pass.

ghost use Rattle.std.specs.Prelude.{◌<◌, ◌≤◌, ◌+◌, ◌*◌, ◌⊎◌, ℕ, List, Bool, IfOk, IfErr, OnOk};
ghost use Rattle.std.specs.Prelude.{length};
ghost use Rattle.hack_conflicts.specs.Sets.{Has, IsWithin, IsInside, rows_of};
ghost use Rattle.hack_conflicts.specs.Rules.{IsPreorder, IsClosed, IsChoice, IsPlain, size_of};
ghost use Rattle.hack_conflicts.specs.Internal.{IsSound, Grows, IsEnd, IsNext, IsSteady, IsQueue};
ghost use Rattle.hack_conflicts.specs.Internal.{AreCovered, Avoids, Leaves, IsSettled, Clashes};
ghost use Rattle.hack_conflicts.specs.Internal.{members, worth, told};

use crate::builds::Builds;
use crate::fault::End;
use crate::known::{Known, ask, is_passed};
use crate::rules::Rules;
use crate::sets::{count_members, first_inside, has, is_inside, set_at};
use crate::shrink::shrink;
use std::alloc::{AllocError, Global};

/// Adds the set to the next ones, unless it lies inside one of them.
fn add_set(alloc: Global, set: &[bool], next: &mut Vec<Vec<bool>>) -> Result<(), AllocError>
    ensures queue { OnOk result ((r : Rules) (size : ℕ) → IsClosed r set.now
        → members (size_of r) set.now < size → IsQueue r size (rows_of next.old.items)
        → IsQueue r size (rows_of next.new.items)) }
    ensures covered { OnOk result (AreCovered (rows_of next.old.items) (rows_of next.new.items)) }
    ensures added { OnOk result (IsInside (rows_of next.new.items) set.now) }
{
    if is_inside(next.as_slice(), set) {
        return Ok(());
    }
    next.push(Vec::from_slice(alloc, set)?)?;
    Ok(())
}

/// Adds to the next ones the set without `x` and all that enable it.
fn add_without(
    alloc: Global,
    rules: &Rules,
    set: &[bool],
    x: usize,
    next: &mut Vec<Vec<bool>>,
) -> Result<(), AllocError>
    requires order { IsPreorder rules.now }
    requires closed { IsClosed rules.now set.now }
    requires member { Has set.now x }
    ensures queue { OnOk result ((size : ℕ) → members (size_of rules.now) set.now ≤ size
        → IsQueue rules.now size (rows_of next.old.items)
        → IsQueue rules.now size (rows_of next.new.items)) }
    ensures covered { OnOk result (AreCovered (rows_of next.old.items) (rows_of next.new.items)) }
    ensures avoids { OnOk result (Avoids rules.now set.now x (rows_of next.new.items)) }
{
    let smaller = rules.without(alloc, set, x)?;
    add_set(alloc, smaller.as_slice(), next)?;
    Ok(())
}

/// Adds to the next ones the set without each member of the conflict.
fn spread(
    alloc: Global,
    rules: &Rules,
    set: &[bool],
    conflict: &[bool],
    next: &mut Vec<Vec<bool>>,
) -> Result<(), AllocError>
    requires order { IsPreorder rules.now }
    requires closed { IsClosed rules.now set.now }
    requires within { IsWithin conflict.now set.now }
    ensures queue { OnOk result ((size : ℕ) → members (size_of rules.now) set.now ≤ size
        → IsQueue rules.now size (rows_of next.old.items)
        → IsQueue rules.now size (rows_of next.new.items)) }
    ensures covered { OnOk result (AreCovered (rows_of next.old.items) (rows_of next.new.items)) }
    ensures avoids { OnOk result ((x : ℕ) → Has conflict.now x
        → Avoids rules.now set.now x (rows_of next.new.items)) }
{
    for x in 0..conflict.len() {
        if has(conflict, x) {
            add_without(alloc, rules, set, x, next)?;
        }
    }
    Ok(())
}

/// Adds two sets to the next ones: the set without `p` and all that enable `p`, and the set without
/// `q` and all that enable `q`.
fn part(
    alloc: Global,
    rules: &Rules,
    set: &[bool],
    p: usize,
    q: usize,
    next: &mut Vec<Vec<bool>>,
) -> Result<(), AllocError>
    requires order { IsPreorder rules.now }
    requires closed { IsClosed rules.now set.now }
    requires clash { Clashes rules.now set.now p q }
    ensures queue { OnOk result ((size : ℕ) → members (size_of rules.now) set.now ≤ size
        → IsQueue rules.now size (rows_of next.old.items)
        → IsQueue rules.now size (rows_of next.new.items)) }
    ensures covered { OnOk result (AreCovered (rows_of next.old.items) (rows_of next.new.items)) }
    ensures avoids { OnOk result ((s : List Bool) → IsChoice rules.now s → IsWithin s set.now
        → IsInside (rows_of next.new.items) s) }
{
    add_without(alloc, rules, set, p, next)?;
    add_without(alloc, rules, set, q, next)?;
    Ok(())
}

/// Tries a build with the set. Where it fails, there is a new conflict inside it.
fn run_set<B: Builds>(
    alloc: Global,
    rules: &Rules,
    most: Option<usize>,
    known: &mut Known,
    set: &[bool],
    next: &mut Vec<Vec<bool>>,
    builder: &mut B,
) -> Result<(), End>
    requires order { IsPreorder rules.now }
    requires sound { IsSound rules.now most known.old }
    requires steady { IsSteady rules.now (members (size_of rules.now) set.now) known.old }
    requires next { IsNext rules.now known.old set.now }
    ensures sound { IsSound rules.now most known.new }
    ensures grows { Grows known.old known.new }
    ensures ran { (start : B) → B.ran (told known.old) start builder.old
        → B.ran (told known.new) start builder.new }
    ensures owes { IsPlain rules.now → length known.new.runs.items
        ≤ worth (size_of rules.now) known.new + (2 * size_of rules.now + 1) }
    ensures ends { IfErr result (IsEnd rules.now most known.new) }
    ensures steady { OnOk result (IsSteady rules.now (members (size_of rules.now) set.now) known.new) }
    ensures queue { OnOk result ((size : ℕ) → members (size_of rules.now) set.now ≤ size
        → IsQueue rules.now size (rows_of next.old.items)
        → IsQueue rules.now size (rows_of next.new.items)) }
    ensures covered { OnOk result (AreCovered (rows_of next.old.items) (rows_of next.new.items)) }
    ensures leaves { OnOk result (Leaves rules.now known.new set.now (rows_of next.new.items)) }
{
    let passed = ask(alloc, most, known, set, builder)?;
    if passed {
        known.passing.push(Vec::from_slice(alloc, set)?)?;
        return Ok(());
    }
    let conflict = shrink(alloc, rules, most, known, set, builder)?;
    spread(alloc, rules, set, conflict.as_slice(), next)?;
    known.conflicts.push(conflict)?;
    Ok(())
}

/// Settles the sets inside the set, or leaves them to the next ones.
fn search_set<B: Builds>(
    alloc: Global,
    rules: &Rules,
    most: Option<usize>,
    known: &mut Known,
    set: &[bool],
    next: &mut Vec<Vec<bool>>,
    builder: &mut B,
) -> Result<(), End>
    requires order { IsPreorder rules.now }
    requires closed { IsClosed rules.now set.now }
    requires sound { IsSound rules.now most known.old }
    requires steady { IsSteady rules.now (members (size_of rules.now) set.now) known.old }
    ensures sound { IsSound rules.now most known.new }
    ensures grows { Grows known.old known.new }
    ensures ran { (start : B) → B.ran (told known.old) start builder.old
        → B.ran (told known.new) start builder.new }
    ensures owes { IsPlain rules.now → length known.new.runs.items
        ≤ worth (size_of rules.now) known.new + (2 * size_of rules.now + 1) }
    ensures ends { IfErr result (IsEnd rules.now most known.new) }
    ensures steady { OnOk result (IsSteady rules.now (members (size_of rules.now) set.now) known.new) }
    ensures queue { OnOk result ((size : ℕ) → members (size_of rules.now) set.now ≤ size
        → IsQueue rules.now size (rows_of next.old.items)
        → IsQueue rules.now size (rows_of next.new.items)) }
    ensures covered { OnOk result (AreCovered (rows_of next.old.items) (rows_of next.new.items)) }
    ensures leaves { OnOk result (Leaves rules.now known.new set.now (rows_of next.new.items)) }
{
    if !rules.is_required(set) {
        return Ok(());
    }
    if is_passed(known.runs.as_slice(), set) {
        return Ok(());
    }
    if let Some((p, q)) = rules.clash(set) {
        part(alloc, rules, set, p, q, next)?;
        return Ok(());
    }
    if let Some(place) = first_inside(known.conflicts.as_slice(), set) {
        spread(
            alloc,
            rules,
            set,
            set_at(known.conflicts.as_slice(), place),
            next,
        )?;
        return Ok(());
    }
    run_set(alloc, rules, most, known, set, next, builder)?;
    Ok(())
}

/// Settles the sets inside a set of so many members, or leaves them to the next ones, to which a
/// smaller set is added.
fn visit<B: Builds>(
    alloc: Global,
    rules: &Rules,
    most: Option<usize>,
    known: &mut Known,
    size: usize,
    set: &[bool],
    next: &mut Vec<Vec<bool>>,
    builder: &mut B,
) -> Result<(), End>
    requires order { IsPreorder rules.now }
    requires closed { IsClosed rules.now set.now }
    requires small { members (size_of rules.now) set.now ≤ size }
    requires sound { IsSound rules.now most known.old }
    requires steady { IsSteady rules.now size known.old }
    ensures sound { IsSound rules.now most known.new }
    ensures grows { Grows known.old known.new }
    ensures ran { (start : B) → B.ran (told known.old) start builder.old
        → B.ran (told known.new) start builder.new }
    ensures owes { IsPlain rules.now → length known.new.runs.items
        ≤ worth (size_of rules.now) known.new + (2 * size_of rules.now + 1) }
    ensures ends { IfErr result (IsEnd rules.now most known.new) }
    ensures steady { OnOk result (IsSteady rules.now size known.new) }
    ensures queue { OnOk result (IsQueue rules.now size (rows_of next.old.items)
        → IsQueue rules.now size (rows_of next.new.items)) }
    ensures covered { OnOk result (AreCovered (rows_of next.old.items) (rows_of next.new.items)) }
    ensures leaves { OnOk result (Leaves rules.now known.new set.now (rows_of next.new.items)) }
{
    if count_members(set, rules.enables.len()) < size {
        add_set(alloc, set, next)?;
        return Ok(());
    }
    search_set(alloc, rules, most, known, set, next, builder)?;
    Ok(())
}

/// Settles the sets inside those that are left, of which none has more than so many members, or
/// leaves them to smaller ones.
fn search_level<B: Builds>(
    alloc: Global,
    rules: &Rules,
    most: Option<usize>,
    known: &mut Known,
    size: usize,
    left: &[Vec<bool>],
    builder: &mut B,
) -> Result<Vec<Vec<bool>>, End>
    requires order { IsPreorder rules.now }
    requires sound { IsSound rules.now most known.old }
    requires steady { IsSteady rules.now size known.old }
    requires queue { IsQueue rules.now (size + 1) (rows_of left.now) }
    ensures sound { IsSound rules.now most known.new }
    ensures grows { Grows known.old known.new }
    ensures ran { (start : B) → B.ran (told known.old) start builder.old
        → B.ran (told known.new) start builder.new }
    ensures owes { IsPlain rules.now → length known.new.runs.items
        ≤ worth (size_of rules.now) known.new + (2 * size_of rules.now + 1) }
    ensures ends { IfErr result (IsEnd rules.now most known.new) }
    ensures steady { IfOk result (λ next. IsSteady rules.now size known.new) }
    ensures queue { IfOk result (λ next. IsQueue rules.now size (rows_of next.items)) }
    ensures leaves { IfOk result (λ next. (s : List Bool) → IsChoice rules.now s
        → IsInside (rows_of left.now) s → IsSettled known.new s
        ⊎ IsInside (rows_of next.items) s) }
{
    let mut next = Vec::new(alloc);
    for place in 0..left.len() {
        visit(
            alloc,
            rules,
            most,
            known,
            size,
            set_at(left, place),
            &mut next,
            builder,
        )?;
    }
    Ok(next)
}

/// Settles all sets, the greater ones first.
pub(crate) fn search_all<B: Builds>(
    alloc: Global,
    rules: &Rules,
    most: Option<usize>,
    known: &mut Known,
    builder: &mut B,
) -> Result<(), End>
    requires order { IsPreorder rules.now }
    requires sound { IsSound rules.now most known.old }
    requires steady { IsSteady rules.now (size_of rules.now) known.old }
    ensures sound { IsSound rules.now most known.new }
    ensures ran { (start : B) → B.ran (told known.old) start builder.old
        → B.ran (told known.new) start builder.new }
    ensures owes { IsPlain rules.now → length known.new.runs.items
        ≤ worth (size_of rules.now) known.new + (2 * size_of rules.now + 1) }
    ensures ends { IfErr result (IsEnd rules.now most known.new) }
    ensures steady { OnOk result (IsSteady rules.now 0 known.new) }
    ensures settled { OnOk result ((s : List Bool) → IsChoice rules.now s
        → IsSettled known.new s) }
{
    let n = rules.enables.len();
    let mut left = Vec::new(alloc);
    left.push(vec![in alloc; true; n]?)?;
    for done in 0..n {
        left = search_level(
            alloc,
            rules,
            most,
            known,
            n - done,
            left.as_slice(),
            builder,
        )?;
    }
    let _none = search_level(alloc, rules, most, known, 0, left.as_slice(), builder)?;
    Ok(())
}
