//! The sets that the rules of a package list. This module is separate from `rules`, so that it
//! can't read the fields of `Rules`: to learn whether a set is permitted it has to ask, and each
//! question is counted.

ghost use Rattle.std.specs.Prelude.{◌≡◌, ◌≤◌, ◌+◌, IfOk};

use crate::rules::Rules;
use hack_sets::forest::Pruned;
use hack_sets::questions::pruned_within;
use std::alloc::{AllocError, Global};

impl Rules<'_> {
    ghost use Rattle.hack_sets.specs.Forest.{sets_in};
    ghost use Rattle.hack_sets.specs.Sets.{IsListing};
    ghost use Rattle.hack_sets.specs.Questions.{IsCheap};
    ghost use Rattle.hack_features.specs.Rules.{IsListed, IsPermitted, AreCovers};
    ghost use Rattle.hack_features.specs.View.{choice_of, size_of, questions_asked};

    /// The sets that are listed, in the order of sets, and by how much the count of questions rose.
    pub fn listed(&mut self, alloc: Global) -> Result<Pruned, AllocError>
        ensures sets { IfOk result (λ pruned.
            IsListing (size_of self.old) (IsListed (choice_of self.old)) (sets_in pruned.sets)) }

        // For each set that has to be covered there is a listed one inside it that enables the same
        // names.
        ensures covered { IfOk result (λ pruned.
            AreCovers (choice_of self.old) (size_of self.old) (sets_in pruned.sets)) }
        ensures asked { IfOk result (λ pruned. questions_asked self.new
            ≡ questions_asked self.old + pruned.asked) }

        // At most one question for each permitted set and each candidate.
        ensures few { IfOk result (λ pruned.
            IsCheap (IsPermitted (choice_of self.old)) (size_of self.old) pruned.asked) }
        ensures risen { questions_asked self.old ≤ questions_asked self.new }
        ensures same_choice { choice_of self.new ≡ choice_of self.old }
        ensures same_size { size_of self.new ≡ size_of self.old }
    {
        let n = self.size();
        let limits = self.limits();
        pruned_within(alloc, self, n, limits)
    }
}
