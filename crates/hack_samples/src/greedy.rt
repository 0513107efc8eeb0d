//! Adds members to a set, so that it shows as many new patterns as a greedy rule finds.
//!
//! Which members are added is not promised: contracts say only that the set stays allowed, keeps
//! its members and has no banned position.

ghost use Rattle.std.specs.Prelude.{◌≡◌, ◌<◌, List, Bool, true, false, length, IfOk, IfErr, OnOk};
ghost use Rattle.hack_samples.specs.Sets.{has_each, rows_of, IsInside};
ghost use Rattle.hack_samples.specs.Internal.{may_join, IsClear, IsSuited, StaysWithin};
ghost use Rattle.hack_samples.specs.Questions.{IsTired};

use crate::allowed::{Allowed, ask};
use crate::demands::{Wanted, ban};
use crate::fault::SampleFault;
use crate::guide::Guide;
use crate::sets::{add, has, has_each, has_one_of, is_on, rows_at};
use std::alloc::{AllocError, Global};

/// For each candidate, which of the sets so far turn it on and which turn it off, with one bit for
/// each set. Sets past the 128th aren't recorded.
#[derive(Drop)]
pub(crate) struct Columns {
    on: Vec<u128>,
    off: Vec<u128>,
    bit: u128,
    random: u64,
    guide: Guide,
    /// The row of the guide that the next set follows, if it follows one.
    row: Option<u32>,
}

impl Columns {
    pub(crate) fn new(
        alloc: Global,
        candidates: usize,
        strength: usize,
    ) -> Result<Columns, AllocError> {
        Ok(Columns {
            on: vec![in alloc; 0; candidates]?,
            off: vec![in alloc; 0; candidates]?,
            bit: 1,
            random: 0x9e37_79b9_7f4a_7c15,
            guide: Guide::new(alloc, candidates, strength)?,
            row: None,
        })
    }

    /// Records one more set.
    pub(crate) fn add(&mut self, providers: &[Vec<Vec<usize>>], set: &[bool]) {
        let bit = self.bit;
        for (candidate, (on, off)) in self.on.iter_mut().zip(self.off.iter_mut()).enumerate() {
            if is_on(providers, set, candidate) {
                *on |= bit;
            } else {
                *off |= bit;
            }
        }
        self.bit = bit << 1;
    }

    /// The recorded sets that turn the candidate on, or those that turn it off.
    fn column(&self, candidate: usize, on: bool) -> u128 {
        let columns = if on { &self.on } else { &self.off };
        columns.get(candidate).copied().unwrap_or(0)
    }

    /// How many rows the guide has.
    pub(crate) fn rows(&self) -> u32 {
        self.guide.rows()
    }

    /// Makes the next sets follow a row of the guide, or none.
    pub(crate) fn follow(&mut self, row: Option<u32>) {
        self.row = row;
    }

    /// Whether to turn the candidate on. With a row the guide decides. Without one the greater gain
    /// decides, where the candidate gains `on` if it is on and `off` if it is off; for equal gains
    /// the fixed sequence of numbers does.
    fn asks(&mut self, candidate: usize, on: usize, off: usize) -> bool {
        match self.row {
            Some(row) => self.guide.is_on(candidate, row),
            None => on > off || on == off && self.random() % 2 == 0,
        }
    }

    /// Returns which positions to try first. With a row they are those that enable no name of a
    /// candidate that is off in the row. Without one the fixed sequence of numbers chooses about
    /// half of all positions.
    pub(crate) fn liked(
        &mut self,
        alloc: Global,
        providers: &[Vec<Vec<usize>>],
        positions: usize,
    ) -> Result<Vec<bool>, AllocError> {
        let mut liked = Vec::new(alloc);
        for _ in 0..positions {
            liked.push(self.row.is_some() || self.random() % 2 == 0)?;
        }
        let Some(row) = self.row else {
            return Ok(liked);
        };
        for (candidate, rows) in providers.iter().enumerate() {
            if !self.guide.is_on(candidate, row) {
                dislike(&mut liked, rows.as_slice());
            }
        }
        Ok(liked)
    }

    /// Returns the next number of a fixed pseudorandom sequence.
    fn random(&mut self) -> u64 {
        let mut x = self.random;
        x ^= x << 13;
        x ^= x >> 7;
        x ^= x << 17;
        self.random = x;
        x
    }
}

/// Makes the positions of the rows not liked.
fn dislike(liked: &mut [bool], rows: &[Vec<usize>]) {
    for row in rows {
        for position in row.as_slice() {
            if *position < liked.len() {
                liked[*position] = false;
            }
        }
    }
}

/// Returns how many choices of `choose - 1` of the columns have no set that is in `sets` and in all
/// chosen columns: each of them is a pattern that no recorded set shows.
fn fresh(columns: &[u128], sets: u128, choose: usize) -> usize {
    if choose <= 1 {
        return if sets == 0 { 1 } else { 0 };
    }
    let mut count: usize = 0;
    for (i, column) in columns.iter().enumerate() {
        count = count.saturating_add(fresh(&columns[..i], sets & *column, choose - 1));
    }
    count
}

/// Returns the candidates in an order that the fixed sequence of numbers gives.
fn shuffled(
    alloc: Global,
    columns: &mut Columns,
    candidates: usize,
) -> Result<Vec<usize>, AllocError> {
    let mut order: Vec<usize> = (0..candidates).collect(alloc)?;
    for i in 0..order.len() {
        let j = i + (columns.random() % (order.len() - i) as u64) as usize;
        order.swap(i, j);
    }
    Ok(order)
}

/// Whether the position is new to the suited set, and the set is still suited with it: allowed, and
/// without a banned position.
pub(crate) fn may_join<A: Allowed>(
    allowed: &mut A,
    end: u128,
    banned: &[bool],
    set: &[bool],
    position: usize,
) -> Result<bool, SampleFault>
    requires { IsSuited (A.may allowed.old) (A.size allowed.old) banned.now set.now }
    ensures joins { IfOk result (λ joins. joins
        ≡ may_join (A.may allowed.old) banned.now set.now position) }
    ensures tired { IfErr result (IsTired end (A.count allowed.new)) }
    ensures within { StaysWithin end (A.count allowed.old) (A.count allowed.new) }
    ensures same_size { A.size allowed.new ≡ A.size allowed.old }
    ensures same_may { A.may allowed.new ≡ A.may allowed.old }
    ensures stays { (first : A) → A.stays first allowed.old → A.stays first allowed.new }
{
    if has(banned, position) || has(set, position) || position >= set.len() {
        return Ok(false);
    }
    ask(allowed, end, set, position)
}

/// Adds the first of these positions that may join, unless the set has one of them.
fn add_one_of<A: Allowed>(
    allowed: &mut A,
    end: u128,
    banned: &[bool],
    set: &mut Vec<bool>,
    group: &[usize],
) -> Result<(), SampleFault>
    requires { IsSuited (A.may allowed.old) (A.size allowed.old) banned.now set.old.items }
    ensures suited { OnOk result (IsSuited (A.may allowed.old) (A.size allowed.old) banned.now
        set.new.items) }
    ensures inside { OnOk result (IsInside set.old.items set.new.items) }
    ensures tired { IfErr result (IsTired end (A.count allowed.new)) }
    ensures within { StaysWithin end (A.count allowed.old) (A.count allowed.new) }
    ensures same_size { A.size allowed.new ≡ A.size allowed.old }
    ensures same_may { A.may allowed.new ≡ A.may allowed.old }
    ensures stays { (first : A) → A.stays first allowed.old → A.stays first allowed.new }
{
    if has_one_of(set.as_slice(), group) {
        return Ok(());
    }
    for position in group {
        if may_join(allowed, end, banned, set.as_slice(), *position)? {
            add(set, *position);
            return Ok(());
        }
    }
    Ok(())
}

/// Bans the first row of which the set has no member, if there is one, so that no larger set
/// without banned positions has a member of each row.
pub(crate) fn hold_off(held: &mut Vec<bool>, set: &[bool], rows: &[Vec<usize>])
    requires { length set.now ≡ length held.old.items }
    ensures size { length held.new.items ≡ length held.old.items }
    ensures clear { IsClear held.old.items set.now → IsClear held.new.items set.now }
    ensures more { (s : List Bool) → length s ≡ length held.old.items
        → IsClear held.new.items s → IsClear held.old.items s }
    ensures off { has_each set.now (rows_of rows.now) ≡ false → (s : List Bool)
        → length s ≡ length held.old.items → IsClear held.new.items s
        → has_each s (rows_of rows.now) ≡ false }
{
    if let Some(row) = rows.iter().find(|row| !has_one_of(set, row)) {
        ban(held, row);
    }
}

/// Turns the candidate of these rows on, if `on` is true and that is allowed: adds, for each row of
/// which the set has no member, the first position that may join, if there is one. If the candidate
/// isn't on then, bans one of its rows, so that no later member turns it on.
fn turn<A: Allowed>(
    allowed: &mut A,
    end: u128,
    held: &mut Vec<bool>,
    set: &mut Vec<bool>,
    rows: &[Vec<usize>],
    on: bool,
) -> Result<(), SampleFault>
    requires size { length held.old.items ≡ A.size allowed.old }
    requires suited { IsSuited (A.may allowed.old) (A.size allowed.old) held.old.items
        set.old.items }
    ensures size { OnOk result (length held.new.items ≡ A.size allowed.old) }
    ensures suited { OnOk result (IsSuited (A.may allowed.old) (A.size allowed.old) held.new.items
        set.new.items) }
    ensures inside { OnOk result (IsInside set.old.items set.new.items) }
    ensures more { OnOk result ((s : List Bool) → length s ≡ A.size allowed.old
        → IsClear held.new.items s → IsClear held.old.items s) }
    ensures tired { IfErr result (IsTired end (A.count allowed.new)) }
    ensures within { StaysWithin end (A.count allowed.old) (A.count allowed.new) }
    ensures same_size { A.size allowed.new ≡ A.size allowed.old }
    ensures same_may { A.may allowed.new ≡ A.may allowed.old }
    ensures stays { (first : A) → A.stays first allowed.old → A.stays first allowed.new }
{
    if !on {
        hold_off(held, set.as_slice(), rows);
        return Ok(());
    }
    for row in rows {
        add_one_of(allowed, end, held.as_slice(), set, row.as_slice())?;
    }
    hold_off(held, set.as_slice(), rows);
    Ok(())
}

/// A set to which members were added, and its gain: how many patterns of as many candidates as the
/// strength it shows that no recorded set shows.
#[derive(Drop)]
struct Packed {
    set: Vec<bool>,
    gain: usize,
}

/// Turns each candidate on or off, where that is possible, in an order that the fixed sequence of
/// numbers gives. If the columns follow a row of the guide it does too; else it chooses what shows
/// more new patterns together with the candidates before.
fn pack_once<A: Allowed>(
    alloc: Global,
    allowed: &mut A,
    wanted: &Wanted<'_>,
    columns: &mut Columns,
    banned: &[bool],
    set: &[bool],
) -> Result<Packed, SampleFault>
    requires size { length banned.now ≡ A.size allowed.old }
    requires suited { IsSuited (A.may allowed.old) (A.size allowed.old) banned.now set.now }
    ensures suited { IfOk result (λ packed.
        IsSuited (A.may allowed.old) (A.size allowed.old) banned.now packed.set.items) }
    ensures inside { IfOk result (λ packed. IsInside set.now packed.set.items) }
    ensures tired { IfErr result (IsTired wanted.now.end (A.count allowed.new)) }
    ensures within { StaysWithin wanted.now.end (A.count allowed.old) (A.count allowed.new) }
    ensures same_size { A.size allowed.new ≡ A.size allowed.old }
    ensures same_may { A.may allowed.new ≡ A.may allowed.old }
    ensures stays { (first : A) → A.stays first allowed.old → A.stays first allowed.new }
{
    let order = shuffled(alloc, columns, wanted.providers.len())?;
    let mut set = Vec::from_slice(alloc, set)?;
    let mut held = Vec::from_slice(alloc, banned)?;
    let mut decided = Vec::new(alloc);
    let mut gain: usize = 0;
    for candidate in order.as_slice() {
        let rows = rows_at(wanted.providers, *candidate);
        let on = fresh(
            decided.as_slice(),
            columns.column(*candidate, true),
            wanted.strength,
        );
        let off = fresh(
            decided.as_slice(),
            columns.column(*candidate, false),
            wanted.strength,
        );
        let asked = columns.asks(*candidate, on, off);
        turn(allowed, wanted.end, &mut held, &mut set, rows, asked)?;
        let is_on = has_each(set.as_slice(), rows);
        gain = gain.saturating_add(gained(is_on, on, off));
        decided.push(columns.column(*candidate, is_on))?;
    }
    Ok(Packed { set, gain })
}

/// Returns what the candidate gains: `on` if it is on, else `off`.
fn gained(is_on: bool, on: usize, off: usize) -> usize {
    if is_on { on } else { off }
}

/// How many sets are tried for each that is taken, where no row of the guide decides.
const TRIES: usize = 30;

/// Returns this set with more members: those that the row of the guide leads to, if the columns
/// follow one, else the best of several sets that a greedy rule finds.
pub(crate) fn pack<A: Allowed>(
    alloc: Global,
    allowed: &mut A,
    wanted: &Wanted<'_>,
    columns: &mut Columns,
    banned: &[bool],
    set: &[bool],
) -> Result<Vec<bool>, SampleFault>
    requires size { length banned.now ≡ A.size allowed.old }
    requires suited { IsSuited (A.may allowed.old) (A.size allowed.old) banned.now set.now }
    ensures suited { IfOk result (λ packed.
        IsSuited (A.may allowed.old) (A.size allowed.old) banned.now packed.items) }
    ensures inside { IfOk result (λ packed. IsInside set.now packed.items) }
    ensures tired { IfErr result (IsTired wanted.now.end (A.count allowed.new)) }
    ensures within { StaysWithin wanted.now.end (A.count allowed.old) (A.count allowed.new) }
    ensures same_size { A.size allowed.new ≡ A.size allowed.old }
    ensures same_may { A.may allowed.new ≡ A.may allowed.old }
    ensures stays { (first : A) → A.stays first allowed.old → A.stays first allowed.new }
{
    let mut best = pack_once(alloc, allowed, wanted, columns, banned, set)?;
    let tries = if columns.row.is_some() { 1 } else { TRIES };
    for _ in 1..tries {
        let next = pack_once(alloc, allowed, wanted, columns, banned, set)?;
        if next.gain > best.gain {
            best = next;
        }
    }
    Ok(best.set)
}
