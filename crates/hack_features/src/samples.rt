//! Samples of a package's sets, which show each pattern of a few candidates that some listed set
//! shows.

ghost use Rattle.std.specs.Prelude.{◌≡◌, map, IfOk, replicate, ◌++◌, ◌∷◌, [], true};
ghost use Rattle.hack_samples.specs.Sets.{tables_of, rows_of};
ghost use Rattle.hack_sets.specs.Forest.{sets_in};
ghost use Rattle.hack_features.specs.Samples.{positions_of};
ghost use Rattle.hack_features.specs.InternalSamples.{one_leads, providers_of, all_providers};

use crate::members::members_of;
use crate::placed::Placed;
use crate::rules::Rules;
use hack_routes::routes::Routes;
use hack_samples::{Allowed, SampleFault, sample};
use hack_sets::forest::{FeatureSets, Forest};
use std::alloc::{AllocError, Global};

/// Whether one of the names leads to `y`.
pub(crate) fn one_leads(routes: &Routes, names: &[usize], y: usize) -> bool
    ensures { result ≡ one_leads (rows_of routes.now.marks.items) y names.now }
{
    names.iter().any(|x| routes.leads(*x, y))
}

/// The candidates that have a name that leads to `y`.
fn providers_of(alloc: Global, enabled: &Placed, y: usize) -> Result<Vec<usize>, AllocError>
    ensures { IfOk result (λ row. row.items ≡ providers_of
        (rows_of enabled.now.routes.marks.items) (rows_of enabled.now.candidates.items) y) }
{
    let mut leading = Vec::new(alloc);
    for names in enabled.candidates.as_slice() {
        leading.push(one_leads(&enabled.routes, names.as_slice(), y))?;
    }
    Ok(members_of(alloc, leading.as_slice())?)
}

/// For each of the names the candidates that have a name that leads to it.
fn providers_at(
    alloc: Global,
    enabled: &Placed,
    names: &[usize],
) -> Result<Vec<Vec<usize>>, AllocError>
    ensures { IfOk result (λ rows. rows_of rows.items ≡ map (providers_of
        (rows_of enabled.now.routes.marks.items) (rows_of enabled.now.candidates.items))
        names.now) }
{
    let mut rows = Vec::new(alloc);
    for y in names {
        rows.push(providers_of(alloc, enabled, *y)?)?;
    }
    Ok(rows)
}

/// For each name of each candidate the candidates that have a name that leads to it.
fn all_providers(alloc: Global, enabled: &Placed) -> Result<Vec<Vec<Vec<usize>>>, AllocError>
    ensures { IfOk result (λ tables. tables_of tables.items ≡ all_providers
        (rows_of enabled.now.routes.marks.items) (rows_of enabled.now.candidates.items)) }
{
    let mut tables = Vec::new(alloc);
    for names in enabled.candidates.as_slice() {
        tables.push(providers_at(alloc, enabled, names.as_slice())?)?;
    }
    Ok(tables)
}

/// For each row the positions at which it is true, and after these groups one of all positions
/// below `n`.
fn groups_of(alloc: Global, rows: &[Vec<bool>], n: usize) -> Result<Vec<Vec<usize>>, AllocError>
    ensures { IfOk result (λ groups. rows_of groups.items
        ≡ map positions_of (rows_of rows.now) ++ positions_of (replicate n true) ∷ []) }
{
    let mut groups = Vec::new(alloc);
    for row in rows {
        groups.push(members_of(alloc, row.as_slice())?)?;
    }
    let all = vec![in alloc; true; n]?;
    groups.push(members_of(alloc, all.as_slice())?)?;
    Ok(groups)
}

/// The sets, given as one flag for each position, as lists of positions.
fn sets_from(alloc: Global, sets: &[Vec<bool>]) -> Result<FeatureSets, AllocError>
    ensures { IfOk result (λ all. sets_in all ≡ map positions_of (rows_of sets.now)) }
{
    let mut forest = Forest::new(alloc);
    let mut places = Vec::new(alloc);
    for set in sets {
        let row = set.as_slice();
        let members = members_of(alloc, row)?;
        let positions = members.as_slice();
        places.push(forest.push_set(positions)?)?;
    }
    Ok(FeatureSets::at_places(forest, places))
}

impl Allowed for Rules<'_> {
    ghost use Rattle.std.specs.Prelude.{◌≡◌, ◌<◌, ◌+◌, ◌-◌, ◌^◌, min, true};
    ghost use Rattle.hack_features.specs.View.{size_of, questions_asked, may_of};
    ghost use Rattle.hack_features.specs.Samples.{positions_of, IsSame};
    ghost use Rattle.hack_features.specs.ClosureLaws.{may-empty, may-inside, same_none, same_more};

    ghost size = { size_of };

    ghost may = { λ r s. may_of r (positions_of s) };

    ghost count = { questions_asked };

    ghost stays = { IsSame };

    fn positions(&self) -> usize {
        self.size()
    }

    fn may_add(&mut self, set: &[bool], position: usize) -> bool {
        self.permits_in(set, position)
    }

    fn asked(&self) -> u128 {
        self.questions()
    }

    ghost empty = { may-empty };

    ghost closed = { may-inside };

    ghost stays_none = { same_none };

    ghost stays_more = { same_more };
}

impl Rules<'_> {
    ghost use Rattle.std.specs.Prelude.{◌≡◌, ◌≤◌, ◌+◌, ◌-◌, ◌^◌, min, IfOk, IfErr};
    ghost use Rattle.hack_samples.specs.Questions.{IsTired};
    ghost use Rattle.hack_sets.specs.Forest.{sets_in};
    ghost use Rattle.hack_features.specs.Samples.{IsSample, CoversPatterns, IsLean};
    ghost use Rattle.hack_features.specs.View.{choice_of, size_of, questions_asked};

    /// Returns a sample: a few of the listed sets, in the order of sets, that show each pattern of
    /// at most `strength` candidates, each on or off, that some listed set shows. Each of them is
    /// the only one that shows some such pattern. A candidate is on in a set that enables each of
    /// its names. At most `most_questions` questions are asked.
    pub fn sample(
        &mut self,
        alloc: Global,
        strength: usize,
        most_questions: u64,
    ) -> Result<FeatureSets, SampleFault>
        ensures sample { IfOk result (λ sets.
            IsSample (choice_of self.old) (size_of self.old) (sets_in sets)) }
        ensures covers { IfOk result (λ sets.
            CoversPatterns (choice_of self.old) (size_of self.old) strength (sets_in sets)) }
        ensures lean { IfOk result (λ sets.
            IsLean (choice_of self.old) strength (sets_in sets)) }
        ensures tired { IfErr result (IsTired (min (questions_asked self.old + most_questions)
            (2 ^ 128 - 1)) (questions_asked self.new)) }
        ensures within { questions_asked self.new ≤ questions_asked self.old + most_questions }
        ensures same_choice { choice_of self.new ≡ choice_of self.old }
        ensures same_size { size_of self.new ≡ size_of self.old }
    {
        let providers = all_providers(alloc, self.enabled())?;
        let required = groups_of(alloc, self.serves(), self.size())?;
        let sets = sample(
            alloc,
            self,
            providers.as_slice(),
            required.as_slice(),
            strength,
            most_questions,
        )?;
        Ok(sets_from(alloc, sets.as_slice())?)
    }
}
