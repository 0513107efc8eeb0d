//! Which sets of positions are allowed, and how often that may be asked.

ghost use Rattle.std.specs.Prelude.{◌≡◌, ◌<◌, ◌+◌, ◌-◌, ◌^◌, ℕ, List, Bool, true, false, length};
ghost use Rattle.std.specs.Prelude.{min, replicate, slice_set, IfOk, IfErr};
ghost use Rattle.hack_samples.specs.Sets.{has, IsInside};
ghost use Rattle.hack_samples.specs.Questions.{IsTired};
ghost use Rattle.hack_samples.specs.Internal.{StaysWithin};

use crate::fault::SampleFault;

/// Sets of positions below a number, some of which are allowed: the empty one is, and so is each
/// set inside an allowed one. Each call of `may_add` is a question, and is counted.
pub trait Allowed {
    /// How many positions there are.
    ghost size: { Self → ℕ };

    /// Whether a set is allowed.
    ghost may: { Self → List Bool → Bool };

    /// How many questions were asked.
    ghost count: { Self → ℕ };

    /// What else stays the same between two states, however many questions were asked between them.
    ghost stays: { Self → Self → Type 0 };

    fn positions(&self) -> usize
        ensures { result ≡ size self.now };

    /// Whether the allowed set is still allowed with the position as one more member.
    fn may_add(&mut self, set: &[bool], position: usize) -> bool
        requires size { length set.now ≡ size self.old }
        requires inside { position < length set.now }
        requires fresh { has set.now position ≡ false }
        requires allowed { may self.old set.now ≡ true }
        ensures answer { result ≡ may self.old (slice_set set.now position true) }
        ensures counted { count self.new ≡ min (count self.old + 1) (2 ^ 128 - 1) }
        ensures same_size { size self.new ≡ size self.old }
        ensures same_may { may self.new ≡ may self.old }
        ensures stays { stays self.old self.new };

    /// How often `may_add` was called. At 2^128 - 1 the count stays.
    fn asked(&self) -> u128
        ensures { result ≡ count self.now };

    /// The empty set is allowed.
    ghost empty: { (a : Self) → may a (replicate (size a) false) ≡ true };

    /// A set inside an allowed one is allowed.
    ghost closed: { (a : Self) (s t : List Bool) → IsInside s t → may a t ≡ true
        → may a s ≡ true };

    ghost stays_none: { (a : Self) → stays a a };

    ghost stays_more: { (a b c : Self) → stays a b → stays b c → stays a c };
}

/// Asks whether the allowed set is still allowed with the position as one more member. It doesn't
/// ask, and returns the error `TooManyQuestions`, if the count of questions has reached `end`.
pub(crate) fn ask<A: Allowed>(
    allowed: &mut A,
    end: u128,
    set: &[bool],
    position: usize,
) -> Result<bool, SampleFault>
    requires size { length set.now ≡ A.size allowed.old }
    requires inside { position < length set.now }
    requires fresh { has set.now position ≡ false }
    requires allowed { A.may allowed.old set.now ≡ true }
    ensures answer { IfOk result
        (λ joins. joins ≡ A.may allowed.old (slice_set set.now position true)) }
    ensures tired { IfErr result (IsTired end (A.count allowed.new)) }
    ensures within { StaysWithin end (A.count allowed.old) (A.count allowed.new) }
    ensures same_size { A.size allowed.new ≡ A.size allowed.old }
    ensures same_may { A.may allowed.new ≡ A.may allowed.old }
    ensures stays { (first : A) → A.stays first allowed.old → A.stays first allowed.new }
{
    if allowed.asked() >= end {
        return Err(SampleFault::TooManyQuestions);
    }
    Ok(allowed.may_add(set, position))
}
