//! Positions of candidates, and which sets of them a search for conflicts chooses.

ghost use Rattle.std.specs.Prelude.{◌≡◌, ◌<◌, IfOk, length};
ghost use Rattle.hack_features.specs.View.{choice_of};
ghost use Rattle.hack_closures.specs.Closures.{AreAlone};
ghost use Rattle.hack_closures.specs.Internal.{AreRows, IsTold};

use crate::build::Build;
use crate::enabling::{alone, enabling};
use crate::excluding::excluding;
use crate::greatest::greatest;
use crate::marks::{candidates_of, has};
use crate::needed::needed;
use hack_conflicts::Rules as SearchRules;
use hack_features::Rules;
use std::alloc::{AllocError, Global};

/// The rules of a search for the conflicts of one package, and what is built for a set that it
/// chooses.
#[derive(Drop)]
pub struct Closures<'a> {
    rules: &'a Rules<'a>,
    /// The candidates of the first positions.
    alone: Vec<usize>,
    /// Whether one more position is that of all features.
    all: bool,
    /// By which rules the search chooses sets.
    pub search: SearchRules,
    ghost told: { ∥ IsTold (choice_of rules.now) alone.items all search ∥₁ },
}

/// The rules of the search for these positions.
fn search_rules(
    alloc: Global,
    rules: &Rules,
    alone: &[usize],
    with_empty: bool,
    all: bool,
) -> Result<SearchRules, AllocError>
    requires { AreAlone (choice_of rules.now) alone.now }
    ensures { IfOk result (λ search.
        AreRows (choice_of rules.now) alone.now with_empty all search) }
{
    let enables = enabling(alloc, rules, alone, all)?;
    let exclusive = excluding(alloc, rules, alone, enables.as_slice(), all)?;
    let needed = needed(alloc, rules, alone, with_empty, all)?;
    Ok(SearchRules {
        enables,
        exclusive,
        needed,
    })
}

impl<'a> Closures<'a> {
    ghost use Rattle.std.specs.Prelude.{◌↔◌, ◌≤◌, ℕ, [], List, Bool, None, IsTrue, MatchOption};
    ghost use Rattle.hack_conflicts.specs.Sets.{Has};
    ghost use Rattle.hack_conflicts.specs.Rules.{IsChoice, row_of};
    ghost use Rattle.hack_features.specs.Rules.{IsRequired};
    ghost use Rattle.hack_closures.specs.Closures.{AreEnabling, AreChosen, IsBuildFor};
    ghost use Rattle.hack_closures.specs.Closures.{candidate_at};
    ghost use Rattle.hack_closures.specs.View.{alone_in, choice_in, has_all, search_of};

    /// Makes the rules of the search. The positions are those of the candidates that reach no
    /// exclusion group by two names, since a listed set has no others. If `with_all`, and no group
    /// excludes, one more position is that of all features. The empty set may be chosen only if
    /// `with_empty`.
    pub fn new(
        alloc: Global,
        rules: &'a Rules<'a>,
        with_empty: bool,
        with_all: bool,
    ) -> Result<Closures<'a>, AllocError>
        requires { (choice_of rules.now).depth ≡ None }
        ensures choice { IfOk result (λ made. choice_in made ≡ choice_of rules.now) }
        ensures alone { IfOk result (λ made. AreAlone (choice_of rules.now) (alone_in made)) }
        ensures all { IfOk result (λ made. IsTrue (has_all made)
            ↔ (IsTrue with_all × ((choice_of rules.now).exclusive ≡ []))) }

        // What the positions enable.
        ensures enabling { IfOk result (λ made. AreEnabling (choice_of rules.now) (alone_in made)
            (has_all made) (search_of made)) }

        // The search may choose what a listed set turns on, the empty set if that is asked for and
        // no at-least-one group forbids it, and what all features turn on.
        ensures listed { IfOk result (λ made.
            AreChosen (choice_of rules.now) (alone_in made) (search_of made)) }
        ensures empty { IfOk result (λ made. (s : List Bool) → ((x : ℕ) → ¬ Has s x)
            → IsChoice (search_of made) s
            ↔ (IsTrue with_empty × IsRequired (choice_of rules.now) [])) }
        ensures with_all { IfOk result (λ made. IsTrue (has_all made)
            → IsChoice (search_of made) (row_of (search_of made) (length (alone_in made)))) }
    {
        let alone = alone(alloc, rules)?;
        let all = with_all && rules.exclusion_groups() == 0;
        let search = search_rules(alloc, rules, alone.as_slice(), with_empty, all)?;
        Ok(Closures {
            rules,
            alone,
            all,
            search,
        })
    }

    /// The candidate of the position; none for that of all features.
    pub fn candidate(&self, position: usize) -> Option<usize>
        ensures { MatchOption result (length (alone_in self.now) ≤ position)
            (λ p. (position < length (alone_in self.now))
            × (p ≡ candidate_at (alone_in self.now) position)) }
    {
        match self.alone.get(position) {
            Some(p) => Some(*p),
            None => None,
        }
    }

    /// What is built for a set that the search may choose: all features if it has their position,
    /// no features if it is empty, else a listed set that enables what the set's candidates enable,
    /// the first for its top positions. Of other sets nothing is promised.
    pub fn build_of(&self, alloc: Global, set: &[bool]) -> Result<Build, AllocError>
        ensures { IfOk result (λ build. IsChoice (search_of self.now) set.now
            → IsBuildFor (choice_in self.now) (alone_in self.now) (has_all self.now)
            (search_of self.now) set.now build) }
    {
        if self.all && has(set, self.alone.len()) {
            return Ok(Build::AllFeatures);
        }
        let kept = greatest(alloc, &self.search, set)?;
        let candidates = candidates_of(alloc, self.alone.as_slice(), kept.as_slice())?;
        match self.rules.covering(alloc, candidates.as_slice())? {
            Some(listed) => Ok(Build::Set(listed)),
            None => Ok(Build::NoFeatures),
        }
    }
}
