//! Finds a listed set that shows a pattern, if there is one.
//!
//! A candidate is on if the set has a member of each of its rows, so each row becomes a group that
//! the set has to meet. It is off if the set has no member of one of its rows, so each row is
//! banned in turn.

ghost use Rattle.std.specs.Prelude.{◌≡◌, ◌<◌, List, Bool, true, false, length, slice_set, IfOk};
ghost use Rattle.std.specs.Prelude.{IfErr, IfSome, IfNone, MatchOption};
ghost use Rattle.hack_samples.specs.Sets.{IsInside, is_on, rows_of, tables_of};
ghost use Rattle.hack_samples.specs.Internal.{IsClear, IsSuited, Meets, NoneMeets, NoneShows};
ghost use Rattle.hack_samples.specs.Internal.{StaysWithin};
ghost use Rattle.hack_samples.specs.Samples.{IsListedMask, Shows};
ghost use Rattle.hack_samples.specs.Questions.{IsTired};

use crate::allowed::Allowed;
use crate::demands::{Wanted, ban, copies, joined};
use crate::fault::SampleFault;
use crate::greedy::{Columns, hold_off, may_join, pack};
use crate::sets::{Setting, add, has_one_of, rows_at};
use std::alloc::{AllocError, Global};

/// The set with one more member.
fn with(alloc: Global, set: &[bool], position: usize) -> Result<Vec<bool>, AllocError>
    requires { position < length set.now }
    ensures { IfOk result (λ more. more.items ≡ slice_set set.now position true) }
{
    let mut more = Vec::from_slice(alloc, set)?;
    add(&mut more, position);
    Ok(more)
}

/// Returns an allowed set that has all members of this one, a member of each group, and no banned
/// position; None if there is none.
fn meet<A: Allowed>(
    alloc: Global,
    allowed: &mut A,
    end: u128,
    groups: &[Vec<usize>],
    banned: &[bool],
    set: &[bool],
) -> Result<Option<Vec<bool>>, SampleFault>
    requires { IsSuited (A.may allowed.old) (A.size allowed.old) banned.now set.now }
    ensures meets { IfOk result (λ found. MatchOption found
        (NoneMeets (A.may allowed.old) (A.size allowed.old) (rows_of groups.now) banned.now set.now)
        (λ t. Meets (A.may allowed.old) (A.size allowed.old) (rows_of groups.now) banned.now
        t.items)) }
    ensures inside { IfOk result (λ found. IfSome found (λ t. IsInside set.now t.items)) }
    ensures tired { IfErr result (IsTired end (A.count allowed.new)) }
    ensures within { StaysWithin end (A.count allowed.old) (A.count allowed.new) }
    ensures same_size { A.size allowed.new ≡ A.size allowed.old }
    ensures same_may { A.may allowed.new ≡ A.may allowed.old }
    ensures stays { (first : A) → A.stays first allowed.old → A.stays first allowed.new }
{
    let Some((group, rest)) = groups.split_first() else {
        return Ok(Some(Vec::from_slice(alloc, set)?));
    };
    if has_one_of(set, group.as_slice()) {
        return meet(alloc, allowed, end, rest, banned, set);
    }
    for position in group.as_slice() {
        if may_join(allowed, end, banned, set, *position)? {
            let more = with(alloc, set, *position)?;
            let found = meet(alloc, allowed, end, rest, banned, more.as_slice())?;
            if found.is_some() {
                return Ok(found);
            }
        }
    }
    Ok(None)
}

/// Returns an allowed set that has a member of each group and no banned position, and shows the
/// settings that are left; None if there is none.
fn find<A: Allowed>(
    alloc: Global,
    allowed: &mut A,
    wanted: &Wanted<'_>,
    groups: &[Vec<usize>],
    banned: &[bool],
    left: &[Setting],
) -> Result<Option<Vec<bool>>, SampleFault>
    requires { length banned.now ≡ A.size allowed.old }
    ensures finds { IfOk result (λ found. MatchOption found
        (NoneShows (A.may allowed.old) (A.size allowed.old) (rows_of groups.now) banned.now
        (tables_of wanted.now.providers.now) left.now)
        (λ t. Meets (A.may allowed.old) (A.size allowed.old) (rows_of groups.now) banned.now
        t.items × Shows (tables_of wanted.now.providers.now) left.now t.items)) }
    ensures tired { IfErr result (IsTired wanted.now.end (A.count allowed.new)) }
    ensures within { StaysWithin wanted.now.end (A.count allowed.old) (A.count allowed.new) }
    ensures same_size { A.size allowed.new ≡ A.size allowed.old }
    ensures same_may { A.may allowed.new ≡ A.may allowed.old }
    ensures stays { (first : A) → A.stays first allowed.old → A.stays first allowed.new }
{
    let Some((setting, rest)) = left.split_first() else {
        let empty = vec![in alloc; false; allowed.positions()]?;
        return meet(alloc, allowed, wanted.end, groups, banned, empty.as_slice());
    };
    let rows = rows_at(wanted.providers, setting.candidate);
    if setting.on {
        let more = joined(alloc, rows, groups)?;
        return find(alloc, allowed, wanted, more.as_slice(), banned, rest);
    }
    for row in rows {
        let mut more = Vec::from_slice(alloc, banned)?;
        ban(&mut more, row.as_slice());
        let found = find(alloc, allowed, wanted, groups, more.as_slice(), rest)?;
        if found.is_some() {
            return Ok(found);
        }
    }
    Ok(None)
}

/// Returns positions that the set doesn't have, to be banned: each larger set without them shows
/// the pattern too, which this set shows.
fn held_off(
    alloc: Global,
    wanted: &Wanted<'_>,
    pattern: &[Setting],
    set: &[bool],
) -> Result<Vec<bool>, AllocError>
    requires { Shows (tables_of wanted.now.providers.now) pattern.now set.now }
    ensures size { IfOk result (λ held. length held.items ≡ length set.now) }
    ensures clear { IfOk result (λ held. IsClear held.items set.now) }
    ensures shows { IfOk result (λ held. (t : List Bool) → IsInside set.now t
        → IsClear held.items t → Shows (tables_of wanted.now.providers.now) pattern.now t) }
{
    let mut held = vec![in alloc; false; set.len()]?;
    for setting in pattern {
        hold_setting(wanted, &mut held, set, *setting);
    }
    Ok(held)
}

/// If the setting says that the candidate is off, bans positions that the set doesn't have, so that
/// no larger set without them turns it on.
fn hold_setting(wanted: &Wanted<'_>, held: &mut Vec<bool>, set: &[bool], setting: Setting)
    requires size { length held.old.items ≡ length set.now }
    requires shown { is_on (tables_of wanted.now.providers.now) set.now setting.candidate
        ≡ setting.on }
    ensures size { length held.new.items ≡ length held.old.items }
    ensures clear { IsClear held.old.items set.now → IsClear held.new.items set.now }
    ensures more { (t : List Bool) → length t ≡ length held.old.items
        → IsClear held.new.items t → IsClear held.old.items t }
    ensures shows { (t : List Bool) → IsInside set.now t → IsClear held.new.items t
        → is_on (tables_of wanted.now.providers.now) t setting.candidate ≡ setting.on }
{
    if setting.on {
        return;
    }
    hold_off(held, set, rows_at(wanted.providers, setting.candidate));
}

/// Returns a listed set that shows the pattern, and as many new patterns as a greedy rule finds, or
/// what a row of the guide leads to, if the columns follow one; None if no listed set shows the
/// pattern.
pub(crate) fn pick<A: Allowed>(
    alloc: Global,
    allowed: &mut A,
    wanted: &Wanted<'_>,
    columns: &mut Columns,
    pattern: &[Setting],
) -> Result<Option<Vec<bool>>, SampleFault>
    ensures none { IfOk result (λ found. IfNone found ((s : List Bool)
        → IsListedMask (A.may allowed.old) (A.size allowed.old) (rows_of wanted.now.required.now) s
        → Shows (tables_of wanted.now.providers.now) pattern.now s → ⊥)) }
    ensures listed { IfOk result (λ found. IfSome found (λ t. IsListedMask (A.may allowed.old)
        (A.size allowed.old) (rows_of wanted.now.required.now) t.items)) }
    ensures shows { IfOk result (λ found. IfSome found (λ t.
        Shows (tables_of wanted.now.providers.now) pattern.now t.items)) }
    ensures tired { IfErr result (IsTired wanted.now.end (A.count allowed.new)) }
    ensures within { StaysWithin wanted.now.end (A.count allowed.old) (A.count allowed.new) }
    ensures same_size { A.size allowed.new ≡ A.size allowed.old }
    ensures same_may { A.may allowed.new ≡ A.may allowed.old }
    ensures stays { (first : A) → A.stays first allowed.old → A.stays first allowed.new }
{
    let positions = allowed.positions();
    let liked = columns.liked(alloc, wanted.providers, positions)?;
    let groups = copies(alloc, wanted.required, liked.as_slice())?;
    let free = vec![in alloc; false; positions]?;
    let Some(set) = find(
        alloc,
        allowed,
        wanted,
        groups.as_slice(),
        free.as_slice(),
        pattern,
    )?
    else {
        return Ok(None);
    };
    let held = held_off(alloc, wanted, pattern, set.as_slice())?;
    let set = pack(
        alloc,
        allowed,
        wanted,
        columns,
        held.as_slice(),
        set.as_slice(),
    )?;
    Ok(Some(set))
}
