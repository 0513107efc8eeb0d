//! The rules by which sets of features are listed, which answer questions on them.

ghost use Rattle.std.specs.Prelude.{◌≡◌, ◌≤◌, ◌+◌, ◌-◌, ◌^◌, ℕ, List, [], length};
ghost use Rattle.std.specs.Prelude.{IsTrue, IfOk, MatchOption, true};
ghost use Rattle.hack_sets.specs.Sets.{IsSelection};
ghost use Rattle.hack_samples.specs.Sets.{rows_of};
ghost use Rattle.hack_features.specs.Rules.{Choice, IsPermitted, IsRequired};
ghost use Rattle.hack_features.specs.Rules.{IsFirstCover, IsWanted};
ghost use Rattle.hack_features.specs.Tables.{keeps_depth as depth_test, AreTables};
ghost use Rattle.hack_features.specs.InternalTables.{wanted_test};
ghost use Rattle.hack_features.specs.ChoiceView.{choice, choice_in};
ghost use Rattle.hack_features.specs.PlacedView.{IsPlaced};
ghost use Rattle.hack_routes.specs.declared.reach.Edges.TheVariants.{Enabling};

use crate::cover::first_cover;
use crate::feature::Feature;
use crate::members::count_members;
use crate::placed::Placed;
use crate::tables::{Given, Tables, count};
use crate::tally::Tally;
use hack_routes::marks::row_at;
use hack_routes::reach::Edges;
use hack_sets::questions::{Limits, Questions};
use std::alloc::{AllocError, Global};
use std::collections::BTreeMap;

/// The rules of one package, which answer questions on sets of its candidates from tables.
#[derive(Drop)]
pub struct Rules<'a> {
    given: Given<'a>,
    /// What the names of candidates and at-least-one groups enable.
    enabled: Placed<'a>,
    tables: Tables,
    asked: u128,
    ghost capped: { asked ≤ 2 ^ 128 - 1 },
    ghost placed_told: { ∥ IsPlaced Enabling (choice_in given).map (choice_in given).candidates
        (choice_in given).at_least_one_of enabled ∥₁ },
    ghost tables_told: { ∥ AreTables (choice_in given) (rows_of tables.spares.items)
        (rows_of tables.hits.items) (rows_of tables.serves.items) ∥₁ },
}

impl<'a> Rules<'a> {
    ghost use Rattle.std.specs.Prelude.{◌↔◌, ◌++◌, ◌∷◌, min, ◌<◌};
    ghost use Rattle.hack_sets.specs.Sets.{IsWithin};
    ghost use Rattle.hack_sets.specs.InternalQuestions.{AreLimits, IsFree};
    ghost use Rattle.hack_features.specs.View.{choice_of, size_of, questions_asked, may_of};
    ghost use Rattle.hack_features.specs.View.{whole_of, asked_in};
    ghost use Rattle.hack_features.specs.Samples.{positions_of, IsSame};
    ghost use Rattle.std.specs.List.{slice_index_or};
    ghost use Rattle.hack_features.specs.Rules.{IsExclusive, CandidateReaches};
    ghost use Rattle.hack_features.specs.Tables.{is_required};

    /// Makes the rules for the candidates `features` of a package with the feature map `map`. A set
    /// has at most `depth` candidates. For each group of `at_least_one_of` that some key of the map
    /// serves, it has a name that serves the group. For each group of `mutually_exclusive_features`
    /// that isn't lifted, it has at most one name that reaches the group. `lifted` says of each of
    /// these groups whether it is lifted; a missing entry means that it isn't.
    pub fn new(
        alloc: Global,
        features: &'a [&'a Feature],
        depth: Option<usize>,
        at_least_one_of: &'a [Feature],
        mutually_exclusive_features: &'a [Feature],
        map: &'a BTreeMap<String, Vec<String>>,
        lifted: &'a [bool],
    ) -> Result<Rules<'a>, AllocError>
        ensures choice { IfOk result (λ rules. choice_of rules
            ≡ choice features.now depth at_least_one_of.now mutually_exclusive_features.now map.now
            lifted.now) }
        ensures size { IfOk result (λ rules. size_of rules ≡ length features.now) }
        ensures fresh { IfOk result (λ rules. questions_asked rules ≡ 0) }

        // `may_extend` returns whether a set is permitted, and `complete` whether it is required.
        ensures permitted { IfOk result (λ rules. (s : List ℕ) → IsSelection (size_of rules) s
            → IsTrue (may_of rules s) ↔ IsPermitted (choice_of rules) s) }
        ensures required { IfOk result (λ rules. (s : List ℕ) → IsSelection (size_of rules) s
            → IsTrue (whole_of rules s) ↔ IsRequired (choice_of rules) s) }
    {
        let given = Given {
            features,
            depth,
            at_least_one_of,
            exclusive: mutually_exclusive_features,
            map,
            lifted,
        };
        let rules = Rules::from_given(alloc, given)?;
        Ok(rules)
    }

    /// The rules for what is given.
    fn from_given(alloc: Global, given: Given<'a>) -> Result<Rules<'a>, AllocError>
        ensures given { IfOk result (λ rules. rules.given ≡ given.entry) }
        ensures fresh { IfOk result (λ rules. questions_asked rules ≡ 0) }
    {
        let enabled = Placed::new(
            alloc,
            given.map,
            Edges::Enabling,
            given.features,
            given.at_least_one_of,
        )?;
        let tables = Tables::new(alloc, given, &enabled)?;
        Ok(Rules {
            given,
            enabled,
            tables,
            asked: 0,
        })
    }

    /// How many candidates there are.
    pub(crate) fn size(&self) -> usize
        ensures { result ≡ size_of self.now }
    {
        self.given.features.len()
    }

    /// How many positions a permitted set has at most, if a depth is given.
    pub fn most(&self) -> Option<usize>
        ensures depth { result ≡ (choice_of self.now).depth }
        ensures within { (s : List ℕ) → IsTrue (may_of self.now s) → IsWithin result s }
    {
        self.given.depth
    }

    /// Whether there is no rule, so that each set is permitted and complete.
    fn is_free(&self) -> bool
        ensures { IsTrue result → IsFree (may_of self.now) (whole_of self.now) }
    {
        self.given.depth.is_none() && self.tables.are_free()
    }

    /// What the rules say of all sets, so that no question has to be asked for it.
    pub(crate) fn limits(&self) -> Limits
        ensures { AreLimits (may_of self.now) (whole_of self.now) result }
    {
        Limits {
            most: self.most(),
            free: self.is_free(),
        }
    }

    /// Whether the set of `positions` and `next` keeps the depth, and is exclusive and not
    /// redundant. It is counted as a question.
    fn permits(&mut self, positions: &[usize], next: usize) -> bool
        ensures answer { result ≡ may_of self.old (positions.now ++ next ∷ []) }
        ensures counted { questions_asked self.new
            ≡ min (questions_asked self.old + 1) (2 ^ 128 - 1) }
        ensures same { IsSame self.old self.new }
    {
        self.asked = self.asked.saturating_add(1);
        if !keeps_depth(self.given.depth, positions.len() + 1) {
            return false;
        }
        if !self.tables.is_exclusive(positions, next) {
            return false;
        }
        self.tables.is_lean(positions, next)
    }

    /// Whether the permitted set is still permitted with the position added. It is counted as a
    /// question.
    pub(crate) fn permits_in(&mut self, set: &[bool], position: usize) -> bool
        requires { may_of self.old (positions_of set.now) ≡ true }
        ensures answer { result ≡ may_of self.old (positions_of set.now ++ position ∷ []) }
        ensures counted { questions_asked self.new
            ≡ min (questions_asked self.old + 1) (2 ^ 128 - 1) }
        ensures same { IsSame self.old self.new }
    {
        self.asked = self.asked.saturating_add(1);
        if !keeps_depth(self.given.depth, count_members(set) + 1) {
            return false;
        }
        if !self.tables.is_exclusive_in(set, position) {
            return false;
        }
        self.tables.stays_lean(set, position)
    }

    /// How many questions were asked.
    pub(crate) fn questions(&self) -> u128
        ensures { result ≡ questions_asked self.now }
    {
        self.asked
    }

    /// How many questions were asked, as a value that only rules give.
    pub fn tally(&self) -> Tally
        ensures { asked_in result ≡ questions_asked self.now }
    {
        Tally::of(self.asked)
    }

    /// What the names of candidates and at-least-one groups enable.
    pub(crate) fn enabled(&self) -> &Placed<'a>
        ensures { result.now ≡ self.now.enabled }
    {
        &self.enabled
    }

    /// For each at-least-one group that some key serves, which candidates serve it.
    pub(crate) fn serves(&self) -> &[Vec<bool>]
        ensures { result.now ≡ self.now.tables.serves.items }
    {
        self.tables.serves.as_slice()
    }

    /// Rows of marks, one for each candidate: a set serves each at-least-one group that some key
    /// serves just where each row is true at one of its members.
    pub fn serving(&self) -> &[Vec<bool>]
        ensures { (s : List ℕ) → IsSelection (size_of self.now) s
            → IsTrue (is_required (rows_of result.now) s) ↔ IsRequired (choice_of self.now) s }
    {
        self.tables.serves.as_slice()
    }

    /// How many exclusion groups there are that aren't lifted.
    pub fn exclusion_groups(&self) -> usize
        ensures { result ≡ length (choice_of self.now).exclusive }
    {
        self.tables.hits.len()
    }

    /// Whether the candidate reaches the exclusion group, of those that aren't lifted.
    pub fn reaches(&self, group: usize, candidate: usize) -> bool
        requires group { group < length (choice_of self.now).exclusive }
        requires candidate { candidate < size_of self.now }
        ensures { IsTrue result ↔ CandidateReaches (choice_of self.now)
            (slice_index_or (choice_of self.now).exclusive group []) candidate }
    {
        count(row_at(self.tables.hits.as_slice(), group), candidate) > 0
    }

    /// Whether no exclusion group is reached by two names of the candidate.
    pub fn is_exclusive_alone(&self, candidate: usize) -> bool
        requires { candidate < size_of self.now }
        ensures { IsTrue result ↔ IsExclusive (choice_of self.now) (candidate ∷ []) }
    {
        self.tables.is_exclusive(&[], candidate)
    }

    /// Whether the set of `least` and the greater `positions` is permitted. It is counted as a
    /// question, like a call of `may_extend`.
    pub fn may_begin(&mut self, least: usize, positions: &[usize]) -> bool
        requires { IsSelection (size_of self.old) (least ∷ positions.now) }
        ensures answer { result ≡ may_of self.old (least ∷ positions.now) }
        ensures permitted { IsTrue result
            ↔ IsPermitted (choice_of self.old) (least ∷ positions.now) }
        ensures counted { questions_asked self.new
            ≡ min (questions_asked self.old + 1) (2 ^ 128 - 1) }
        ensures same_choice { choice_of self.new ≡ choice_of self.old }
        ensures same_size { size_of self.new ≡ size_of self.old }
        ensures same_may { may_of self.new ≡ may_of self.old }
        ensures same_whole { whole_of self.new ≡ whole_of self.old }
    {
        self.permits(positions, least)
    }

    /// The first set, in the order of sets, that is listed, lies inside `positions` and enables the
    /// same names. None if `positions` is empty, or breaks the depth, an at-least-one group or an
    /// exclusion.
    pub fn covering(
        &self,
        alloc: Global,
        positions: &[usize],
    ) -> Result<Option<Vec<usize>>, AllocError>
        requires { IsSelection (size_of self.now) positions.now }
        ensures { IfOk result (λ cover.
            MatchOption cover (¬ IsWanted (choice_of self.now) positions.now)
            (λ t. IsWanted (choice_of self.now) positions.now
            × IsFirstCover (choice_of self.now) positions.now t.items)) }
    {
        if !is_wanted(self.given.depth, &self.tables, positions) {
            return Ok(None);
        }
        Ok(Some(first_cover(alloc, &self.enabled, positions)?))
    }
}

/// Whether a set of that many members keeps the depth.
fn keeps_depth(depth: Option<usize>, members: usize) -> bool
    ensures { (s : List ℕ) → length s ≡ members → result ≡ depth_test depth s }
{
    match depth {
        None => true,
        Some(most) => members <= most,
    }
}

/// Whether the set is not empty and keeps the depth, the exclusions and the at-least-one groups.
fn is_wanted(depth: Option<usize>, tables: &Tables, positions: &[usize]) -> bool
    ensures { result ≡ wanted_test depth (rows_of tables.now.hits.items)
        (rows_of tables.now.serves.items) positions.now }
{
    let Some((last, others)) = positions.split_last() else {
        return false;
    };
    if !keeps_depth(depth, positions.len()) {
        return false;
    }
    if !tables.is_exclusive(others, *last) {
        return false;
    }
    tables.is_required(positions)
}

impl Questions for Rules<'_> {
    ghost use Rattle.std.specs.Prelude.{◌≡◌, ◌<◌, ◌≤◌, ◌+◌, ◌-◌, ◌^◌, ◌++◌, ◌∷◌, ◌↔◌, min, ℕ, List};
    ghost use Rattle.hack_features.specs.View.{choice_of, size_of, questions_asked, may_of};
    ghost use Rattle.hack_features.specs.View.{whole_of};
    ghost use Rattle.hack_features.specs.ClosureLaws.{may_of-empty, may_of-remove};

    ghost given = { Choice };

    ghost choice = { choice_of };

    ghost size = { size_of };

    ghost may = { may_of };

    ghost whole = { whole_of };

    ghost count = { questions_asked };

    fn may_extend(&mut self, positions: &[usize], next: usize) -> bool
        requires below { IsSelection next positions.now }
        requires next { next < size_of self.old }
        ensures answer { result ≡ may_of self.old (positions.now ++ next ∷ []) }
        ensures permitted { IsTrue result
            ↔ IsPermitted (choice_of self.old) (positions.now ++ next ∷ []) }
        ensures counted { questions_asked self.new
            ≡ min (questions_asked self.old + 1) (2 ^ 128 - 1) }
        ensures same_choice { choice_of self.new ≡ choice_of self.old }
        ensures same_size { size_of self.new ≡ size_of self.old }
        ensures same_may { may_of self.new ≡ may_of self.old }
        ensures same_whole { whole_of self.new ≡ whole_of self.old }
    {
        self.permits(positions, next)
    }

    fn complete(&self, positions: &[usize]) -> bool
        requires { IsSelection (size_of self.now) positions.now }
        ensures answer { result ≡ whole_of self.now positions.now }
        ensures required { IsTrue result ↔ IsRequired (choice_of self.now) positions.now }
    {
        self.tables.is_required(positions)
    }

    fn asked(&self) -> u128 {
        self.asked
    }

    ghost empty = { may_of-empty };

    ghost capped = { λ r. r.capped };

    ghost closed = { may_of-remove };
}
