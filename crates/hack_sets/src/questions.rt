//! Enumerates sets by questions: only permitted sets are extended, so that few questions are asked.

ghost use Rattle.std.specs.Prelude.{◌≡◌, ◌<◌, ◌≤◌, ◌+◌, ◌-◌, ◌^◌, ◌*◌, ℕ, List, [], ◌++◌, ◌∷◌};
ghost use Rattle.std.specs.Prelude.{Bool, true, length, min, map, filter, IsTrue, OnOk, IfOk};
ghost use Rattle.std.specs.Prelude.{IfSome, All};
ghost use Rattle.std.specs.List.{remove, slice_index_or};
ghost use Rattle.hack_sets.specs.Sets.{IsSelection, IsListing};
ghost use Rattle.hack_sets.specs.Forest.{sets_of, sets_in};
ghost use Rattle.hack_sets.specs.Questions.{IsCheap, IsWholeSet, is_whole};
ghost use Rattle.hack_sets.specs.InternalQuestions.{with_next, AreComplete, AreOpen, AreLimits};

use crate::forest::{FeatureSets, Forest, Pruned};
use std::alloc::{AllocError, Global};

/// Questions on sets of positions. Each call of `may_extend` is counted.
pub trait Questions {
    /// What the sets are chosen from, and by which rules: of this type.
    ghost given: { Type 0 };

    /// What the sets are chosen from, and by which rules. No question changes it.
    ghost choice: { Self → given };

    /// How many positions there are.
    ghost size: { Self → ℕ };

    /// Whether a set is permitted.
    ghost may: { Self → List ℕ → Bool };

    /// Whether a set serves each at-least-one group.
    ghost whole: { Self → List ℕ → Bool };

    /// How many questions were asked.
    ghost count: { Self → ℕ };

    /// Whether the set of `positions` and `next` is permitted.
    fn may_extend(&mut self, positions: &[usize], next: usize) -> bool
        requires below { IsSelection next positions.now }
        requires next { next < size self.old }
        ensures answer { result ≡ may self.old (positions.now ++ next ∷ []) }
        ensures counted { count self.new ≡ min (count self.old + 1) (2 ^ 128 - 1) }
        ensures same_choice { choice self.new ≡ choice self.old }
        ensures same_size { size self.new ≡ size self.old }
        ensures same_may { may self.new ≡ may self.old }
        ensures same_whole { whole self.new ≡ whole self.old };

    /// Whether the set serves each at-least-one group.
    fn complete(&self, positions: &[usize]) -> bool
        requires { IsSelection (size self.now) positions.now }
        ensures { result ≡ whole self.now positions.now };

    /// How often `may_extend` was called. At 2^128 - 1 the count stays.
    fn asked(&self) -> u128
        ensures { result ≡ count self.now };

    /// The empty set is permitted.
    ghost empty: { (q : Self) → may q [] ≡ true };

    /// The count never exceeds 2^128 - 1.
    ghost capped: { (q : Self) → count q ≤ 2 ^ 128 - 1 };

    /// A permitted set is still permitted after a position is taken out.
    ghost closed: { (q : Self) (s : List ℕ) (i : ℕ) → i < length s → IsTrue (may q s)
        → IsTrue (may q (remove s i)) };
}

/// What is known of all sets before any question is asked.
#[derive(Clone, Copy)]
pub struct Limits {
    /// How many positions a permitted set has at most. None: not known.
    pub most: Option<usize>,
    /// Whether each set is permitted and complete. False: not known.
    pub free: bool,
}

/// The permitted sets of some first positions.
#[derive(Drop)]
struct SetsSoFar {
    sets: Forest,
    /// Whether all sets but the empty one are complete. False: not known.
    all: bool,
}

/// Extends the set at the place, whose positions are in `set`, by the next position and adds the
/// result to the sets, if it is permitted. Returns whether `all` is true and the added set, if
/// there is one, is complete.
fn extend_one<Q: Questions>(
    questions: &mut Q,
    sets: &mut Forest,
    set: &mut Vec<usize>,
    place: usize,
    next: usize,
    all: bool,
) -> Result<bool, AllocError>
    requires next { next < Q.size questions.old }
    requires inside { place < length (sets_of sets.old) }
    requires read { set.old.items ≡ slice_index_or (sets_of sets.old) place [] }
    requires below { IsSelection next set.old.items }
    ensures sets { OnOk result (sets_of sets.new
        ≡ sets_of sets.old ++ with_next (Q.may questions.old) next (set.old.items ∷ [])) }
    ensures complete { IfOk result (λ now. (IsTrue all → AreComplete (Q.whole questions.old)
        (sets_of sets.old)) → IsTrue now → AreComplete (Q.whole questions.old) (sets_of sets.new)) }
    ensures counted { Q.count questions.new ≤ Q.count questions.old + 1 }
    ensures risen { Q.count questions.old ≤ Q.count questions.new }
    ensures same_choice { Q.choice questions.new ≡ Q.choice questions.old }
    ensures same_size { Q.size questions.new ≡ Q.size questions.old }
    ensures same_may { Q.may questions.new ≡ Q.may questions.old }
    ensures same_whole { Q.whole questions.new ≡ Q.whole questions.old }
{
    if questions.may_extend(set.as_slice(), next) {
        sets.push(place, next)?;
        if !all {
            return Ok(false);
        }
        set.push(next)?;
        return Ok(questions.complete(set.as_slice()));
    }
    Ok(all)
}

/// Adds to the sets, for each of them, the set that has the next position too.
fn extend_each(sets: &mut Forest, next: usize) -> Result<(), AllocError>
    ensures { OnOk result (sets_of sets.new
        ≡ sets_of sets.old ++ with_next (λ _. true) next (sets_of sets.old)) }
{
    for place in 0..sets.len() {
        sets.push(place, next)?;
    }
    Ok(())
}

/// Extends each set at an open place by the next position and adds the results that are permitted
/// to the sets. A permitted set has at most `most` positions, so the place of a new set is open
/// only if the set has fewer.
fn extend_open<Q: Questions>(
    alloc: Global,
    questions: &mut Q,
    found: &mut SetsSoFar,
    places: &mut Vec<usize>,
    most: usize,
    next: usize,
) -> Result<(), AllocError>
    requires next { next < Q.size questions.old }
    requires below { All (IsSelection next) (sets_of found.old.sets) }
    requires most { (s : List ℕ) → IsTrue (Q.may questions.old s) → length s ≤ most }
    requires places { AreOpen (Q.may questions.old) (sets_of found.old.sets)
        places.old.items }
    ensures sets { OnOk result (sets_of found.new.sets ≡ sets_of found.old.sets
        ++ with_next (Q.may questions.old) next (sets_of found.old.sets)) }
    ensures places { OnOk result (AreOpen (Q.may questions.old)
        (sets_of found.new.sets) places.new.items) }
    ensures complete { OnOk result (
        (IsTrue found.old.all → AreComplete (Q.whole questions.old) (sets_of found.old.sets))
        → IsTrue found.new.all → AreComplete (Q.whole questions.old) (sets_of found.new.sets)) }
    ensures counted { Q.count questions.new
        ≤ Q.count questions.old + length (sets_of found.old.sets) }
    ensures risen { Q.count questions.old ≤ Q.count questions.new }
    ensures same_choice { Q.choice questions.new ≡ Q.choice questions.old }
    ensures same_size { Q.size questions.new ≡ Q.size questions.old }
    ensures same_may { Q.may questions.new ≡ Q.may questions.old }
    ensures same_whole { Q.whole questions.new ≡ Q.whole questions.old }
{
    let mut set = Vec::new(alloc);
    for rank in 0..places.len() {
        let place = places[rank];
        found.sets.read(place, &mut set)?;
        let has_room = set.len() + 1 < most;
        let new = found.sets.len();
        found.all = extend_one(questions, &mut found.sets, &mut set, place, next, found.all)?;
        if has_room && found.sets.len() > new {
            places.push(new)?;
        }
    }
    Ok(())
}

/// Extends each set by the next position and adds the results that are permitted to the sets. If
/// the limits say how many positions a permitted set has at most, `places` are the open places;
/// else they are not used.
fn extend<Q: Questions>(
    alloc: Global,
    questions: &mut Q,
    found: &mut SetsSoFar,
    places: &mut Vec<usize>,
    limits: Limits,
    next: usize,
) -> Result<(), AllocError>
    requires next { next < Q.size questions.old }
    requires below { All (IsSelection next) (sets_of found.old.sets) }
    requires limits { AreLimits (Q.may questions.old) (Q.whole questions.old) limits }
    requires places { IfSome limits.most (λ _. AreOpen (Q.may questions.old)
        (sets_of found.old.sets) places.old.items) }
    ensures sets { OnOk result (sets_of found.new.sets ≡ sets_of found.old.sets
        ++ with_next (Q.may questions.old) next (sets_of found.old.sets)) }
    ensures places { OnOk result (IfSome limits.most (λ _. AreOpen (Q.may questions.old)
        (sets_of found.new.sets) places.new.items)) }
    ensures complete { OnOk result (
        (IsTrue found.old.all → AreComplete (Q.whole questions.old) (sets_of found.old.sets))
        → IsTrue found.new.all → AreComplete (Q.whole questions.old) (sets_of found.new.sets)) }
    ensures counted { Q.count questions.new
        ≤ Q.count questions.old + length (sets_of found.old.sets) }
    ensures risen { Q.count questions.old ≤ Q.count questions.new }
    ensures same_choice { Q.choice questions.new ≡ Q.choice questions.old }
    ensures same_size { Q.size questions.new ≡ Q.size questions.old }
    ensures same_may { Q.may questions.new ≡ Q.may questions.old }
    ensures same_whole { Q.whole questions.new ≡ Q.whole questions.old }
{
    if let Some(most) = limits.most {
        return extend_open(alloc, questions, found, places, most, next);
    }
    if limits.free {
        extend_each(&mut found.sets, next)?;
        return Ok(());
    }
    let mut set = Vec::new(alloc);
    for place in 0..found.sets.len() {
        found.sets.read(place, &mut set)?;
        found.all = extend_one(questions, &mut found.sets, &mut set, place, next, found.all)?;
    }
    Ok(())
}

/// Returns the permitted sets, and true if all of them but the empty one are complete. It asks at
/// most one question for each of them and each position greater than its own.
fn permitted_sets<Q: Questions>(
    alloc: Global,
    questions: &mut Q,
    n: usize,
    limits: Limits,
) -> Result<(Forest, bool), AllocError>
    requires size { n ≡ Q.size questions.old }
    requires limits { AreLimits (Q.may questions.old) (Q.whole questions.old) limits }
    ensures sets { IfOk result (λ found. IsListing n (λ s. IsTrue (Q.may questions.old s)) (sets_of
        found.0)) }
    ensures complete { IfOk result (λ found. IsTrue found.1 → AreComplete (Q.whole questions.old)
        (sets_of found.0)) }
    ensures cost { IfOk result (λ found. Q.count questions.new ≤ Q.count questions.old + n * length
        (sets_of found.0)) }
    ensures risen { Q.count questions.old ≤ Q.count questions.new }
    ensures same_choice { Q.choice questions.new ≡ Q.choice questions.old }
    ensures same_size { Q.size questions.new ≡ Q.size questions.old }
    ensures same_may { Q.may questions.new ≡ Q.may questions.old }
    ensures same_whole { Q.whole questions.new ≡ Q.whole questions.old }
{
    let mut found = SetsSoFar {
        sets: Forest::new(alloc),
        all: true,
    };
    let mut places = Vec::new(alloc);
    places.push(0)?;
    for next in 0..n {
        extend(alloc, questions, &mut found, &mut places, limits, next)?;
    }
    Ok((found.sets, found.all))
}

/// Whether the set is not empty and complete.
fn is_whole<Q: Questions>(questions: &Q, set: &[usize]) -> bool
    requires { IsSelection (Q.size questions.now) set.now }
    ensures { result ≡ is_whole (Q.whole questions.now) set.now }
{
    !set.is_empty() && questions.complete(set)
}

/// The places of the sets that are not empty and are complete.
fn complete_places<Q: Questions>(
    alloc: Global,
    questions: &Q,
    sets: &Forest,
) -> Result<Vec<usize>, AllocError>
    requires { All (IsSelection (Q.size questions.now)) (sets_of sets.now) }
    ensures below { IfOk result (λ places. All (λ p. p < length (sets_of sets.now)) places.items) }
    ensures sets { IfOk result (λ places.
        map (λ p. slice_index_or (sets_of sets.now) p []) places.items
        ≡ filter (is_whole (Q.whole questions.now)) (sets_of sets.now)) }
{
    let mut set = Vec::new(alloc);
    let mut places = Vec::new(alloc);
    for place in 0..sets.len() {
        sets.read(place, &mut set)?;
        if is_whole(questions, set.as_slice()) {
            places.push(place)?;
        }
    }
    Ok(places)
}

/// Those of the sets that are not empty and are complete. If `all` is true these are all but the
/// first.
fn complete_ones<Q: Questions>(
    alloc: Global,
    questions: &Q,
    sets: Forest,
    all: bool,
) -> Result<FeatureSets, AllocError>
    requires below { All (IsSelection (Q.size questions.now)) (sets_of sets) }
    requires complete { IsTrue all → AreComplete (Q.whole questions.now) (sets_of sets) }
    ensures { IfOk result (λ complete. sets_in complete
        ≡ filter (is_whole (Q.whole questions.now)) (sets_of sets)) }
{
    if all {
        return Ok(FeatureSets::all(sets));
    }
    let places = complete_places(alloc, questions, &sets)?;
    Ok(FeatureSets::at_places(sets, places))
}

/// The nonempty sets of positions below `n` that are permitted and complete, in the order of sets.
/// A set that is not complete is still extended. The limits save questions.
pub fn pruned_within<Q: Questions>(
    alloc: Global,
    questions: &mut Q,
    n: usize,
    limits: Limits,
) -> Result<Pruned, AllocError>
    requires size { n ≡ Q.size questions.old }
    requires limits { AreLimits (Q.may questions.old) (Q.whole questions.old) limits }
    ensures sets { IfOk result (λ pruned.
        IsListing n (IsWholeSet (Q.may questions.old) (Q.whole questions.old))
        (sets_in pruned.sets)) }
    ensures asked { IfOk result (λ pruned. Q.count questions.new
        ≡ Q.count questions.old + pruned.asked) }
    ensures few { IfOk result (λ pruned.
        IsCheap (λ s. IsTrue (Q.may questions.old s)) n pruned.asked) }
    ensures risen { Q.count questions.old ≤ Q.count questions.new }
    ensures same_choice { Q.choice questions.new ≡ Q.choice questions.old }
    ensures same_size { Q.size questions.new ≡ Q.size questions.old }
    ensures same_may { Q.may questions.new ≡ Q.may questions.old }
    ensures same_whole { Q.whole questions.new ≡ Q.whole questions.old }
{
    let before = questions.asked();
    let (sets, all) = permitted_sets(alloc, questions, n, limits)?;
    let asked = questions.asked().saturating_sub(before);
    let sets = complete_ones(alloc, questions, sets, all)?;
    Ok(Pruned { sets, asked })
}

/// The nonempty sets of positions below `n` that are permitted and complete, in the order of sets.
/// A set that is not complete is still extended. What is known of the sets comes from questions
/// alone.
pub fn pruned<Q: Questions>(
    alloc: Global,
    questions: &mut Q,
    n: usize,
) -> Result<Pruned, AllocError>
    requires { n ≡ Q.size questions.old }
    ensures sets { IfOk result (λ pruned.
        IsListing n (IsWholeSet (Q.may questions.old) (Q.whole questions.old))
        (sets_in pruned.sets)) }
    ensures asked { IfOk result (λ pruned. Q.count questions.new
        ≡ Q.count questions.old + pruned.asked) }
    ensures few { IfOk result (λ pruned.
        IsCheap (λ s. IsTrue (Q.may questions.old s)) n pruned.asked) }
    ensures risen { Q.count questions.old ≤ Q.count questions.new }
    ensures same_choice { Q.choice questions.new ≡ Q.choice questions.old }
    ensures same_size { Q.size questions.new ≡ Q.size questions.old }
    ensures same_may { Q.may questions.new ≡ Q.may questions.old }
    ensures same_whole { Q.whole questions.new ≡ Q.whole questions.old }
{
    let limits = Limits {
        most: None,
        free: false,
    };
    pruned_within(alloc, questions, n, limits)
}
