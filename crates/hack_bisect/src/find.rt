//! Finds the least place from which on all pass.

ghost use Rattle.std.specs.Prelude.{List};
ghost use Rattle.hack_bisect.specs.Searches.{Trial, IsSearch, IsRight};

use crate::tries::{TrialOutcome, Tries};

/// What a search has found.
#[derive(Clone, Copy, Debug, PartialEq, Eq)]
pub enum Least {
    /// This place passed, and the one below it failed, if there is one.
    At(usize),
    /// The greatest place failed.
    Nowhere,
    /// A trial was broken, with which the search ended.
    Broken,
}

/// Finds the least of the places from 0 to the greatest that passes, where what passes at a place
/// passes at each greater one. The greatest is tried first, and then always the middle of the places
/// that are left: those above the greatest that failed, and below the least that passed. Nothing is
/// assumed of the outcomes.
pub fn find_least<T: Tries>(greatest: usize, tries: &mut T) -> Least
    // The trials were such, and no others. Where the outcomes are those of a test by which what
    // passes at a place passes at each greater one, the answer is right for that test.
    ensures searched { (trials : List Trial) × T.tried trials tries.old tries.new
        × IsSearch greatest trials result × IsRight greatest trials result }
{
    match tries.try_at(greatest) {
        TrialOutcome::Passed => {}
        TrialOutcome::Failed => return Least::Nowhere,
        TrialOutcome::Broken => return Least::Broken,
    }
    let mut low = 0;
    let mut high = greatest;
    while low < high {
        let middle = low + (high - low) / 2;
        match tries.try_at(middle) {
            TrialOutcome::Passed => high = middle,
            TrialOutcome::Failed => low = middle + 1,
            TrialOutcome::Broken => return Least::Broken,
        }
    }
    Least::At(high)
}
