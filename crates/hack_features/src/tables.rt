//! The tables that answer questions on sets: which candidate spares which, how many names of a
//! candidate reach an exclusion group, and which candidates serve an at-least-one group.

ghost use Rattle.std.specs.Prelude.{◌≡◌, ◌<◌, ◌++◌, ◌∷◌, ◌&&◌, ◌==◌, [], ℕ, List, length, map, not};
ghost use Rattle.std.specs.Prelude.{count_by, nat_le, sum_by, IfOk, IsTrue, false};
ghost use Rattle.std.specs.List.{list_all, list_any, slice_index_or};
ghost use Rattle.hack_base.specs.Names.{Name};
ghost use Rattle.hack_routes.specs.FeatureMap.{feature_map, FeatureMap};
ghost use Rattle.hack_features.specs.Feature.{groups_of, candidates_of};
ghost use Rattle.hack_samples.specs.Sets.{rows_of};
ghost use Rattle.hack_features.specs.Rules.{unlifted_groups};
ghost use Rattle.hack_routes.specs.Rows.{leads, bit, cell};
ghost use Rattle.hack_features.specs.PlacedView.{IsPlaced};
ghost use Rattle.hack_features.specs.Tables.{count_at, is_lean, is_exclusive, is_required};
ghost use Rattle.hack_features.specs.InternalTables.{spares_test, serves_test, Counts};
ghost use Rattle.hack_features.specs.InternalTables.{Matched, CountsHits, RowsServe};
ghost use Rattle.hack_routes.specs.declared.reach.Edges.TheVariants.{Enabling};

use crate::feature::Feature;
use crate::members::{at_most_one_in, is_clear};
use crate::placed::Placed;
use hack_routes::marks::row_at;
use hack_routes::reach::Edges;
use hack_routes::routes::{Routes, bit};
use std::alloc::{AllocError, Global};
use std::collections::BTreeMap;

/// What the sets of a package are chosen from, and by which rules.
#[derive(Clone, Copy)]
pub(crate) struct Given<'a> {
    pub features: &'a [&'a Feature],
    pub depth: Option<usize>,
    pub at_least_one_of: &'a [Feature],
    pub exclusive: &'a [Feature],
    pub map: &'a BTreeMap<String, Vec<String>>,
    pub lifted: &'a [bool],
}

/// A row for each candidate or group, with an entry for each candidate.
#[derive(Drop)]
pub(crate) struct Tables {
    /// Whether the candidate of the row spares the one of the entry.
    pub spares: Vec<Vec<bool>>,
    /// How many names of the entry's candidate reach the row's exclusion group. Lifted groups have
    /// no row.
    pub hits: Vec<Vec<usize>>,
    /// Whether the entry's candidate serves the row's at-least-one group. Groups that no key serves
    /// have no row.
    pub serves: Vec<Vec<bool>>,
}

/// Whether the place leads to each of the others, and is none of them.
fn leads_to_all(routes: &Routes, from: usize, others: &[usize]) -> bool
    ensures { result ≡ list_all (λ y.
        not (from == y) && cell (rows_of routes.now.marks.items) from y) others.now }
{
    others.iter().all(|y| routes.leads_on(from, *y))
}

/// Whether one of the names is a key, differs from each of the others, and enables it.
fn spares(routes: &Routes, names: &[usize], others: &[usize]) -> bool
    ensures { result ≡ spares_test routes.now.keys.items
        (rows_of routes.now.marks.items) names.now others.now }
{
    names
        .iter()
        .any(|x| routes.is_key(*x) && leads_to_all(routes, *x, others))
}

/// Whether no edge leads away from any of the names.
fn are_ends(routes: &Routes, names: &[usize]) -> bool
    ensures { result ≡ list_all (λ x.
        length (slice_index_or (rows_of routes.now.marks.items) x []) == 0) names.now }
{
    names.iter().all(|x| routes.is_end(*x))
}

/// Whether some candidate has no names.
#[tactic(auto, using(hack_base::proofs::Chains::mapped))]
fn is_some_nameless(candidates: &[Vec<usize>]) -> bool
    ensures { result ≡ list_any (λ names. length names == 0) (rows_of candidates.now) }
{
    candidates.iter().any(|names| names.is_empty())
}

/// The row of the candidate with these names: which candidates it spares. The row is empty if it
/// spares none, so that most questions skip it. `some_nameless` says whether some candidate has no
/// names.
fn spare_row(
    alloc: Global,
    routes: &Routes,
    names: &[usize],
    candidates: &[Vec<usize>],
    some_nameless: bool,
) -> Result<Vec<bool>, AllocError>
    requires { some_nameless ≡ list_any (λ names. length names == 0) (rows_of candidates.now) }
    ensures { IfOk result (λ row. (q : ℕ) → q < length candidates.now
        → bit row.items q ≡ spares_test routes.now.keys.items
        (rows_of routes.now.marks.items) names.now (slice_index_or (rows_of candidates.now) q [])) }
{
    if !some_nameless && are_ends(routes, names) {
        return Ok(Vec::new(alloc));
    }
    let mut row = Vec::new(alloc);
    let mut some = false;
    for others in candidates {
        let spared = spares(routes, names, others.as_slice());
        some = some || spared;
        row.push(spared)?;
    }
    if some { Ok(row) } else { Ok(Vec::new(alloc)) }
}

/// For each candidate the candidates that it spares.
fn spare_rows(alloc: Global, placed: &Placed) -> Result<Vec<Vec<bool>>, AllocError>
    ensures { IfOk result (λ rows. (p q : ℕ) → p < length placed.now.candidates.items
        → q < length placed.now.candidates.items
        → cell (rows_of rows.items) p q
        ≡ spares_test placed.now.routes.keys.items (rows_of placed.now.routes.marks.items)
        (slice_index_or (rows_of placed.now.candidates.items) p [])
        (slice_index_or (rows_of placed.now.candidates.items) q [])) }
{
    let candidates = placed.candidates.as_slice();
    let some_nameless = is_some_nameless(candidates);
    let mut rows = Vec::new(alloc);
    for names in candidates {
        let row = spare_row(
            alloc,
            &placed.routes,
            names.as_slice(),
            candidates,
            some_nameless,
        )?;
        rows.push(row)?;
    }
    Ok(rows)
}

/// Whether the place leads to one of the group.
fn leads_to_one(routes: &Routes, from: usize, group: &[usize]) -> bool
    ensures { result ≡ list_any (leads (rows_of routes.now.marks.items) from) group.now }
{
    group.iter().any(|y| routes.leads(from, *y))
}

/// How many of the names lead to the group.
fn count_reaching(routes: &Routes, names: &[usize], group: &[usize]) -> usize
    ensures { result ≡ count_by (λ x. list_any
        (leads (rows_of routes.now.marks.items) x) group.now) names.now }
{
    names
        .iter()
        .filter(|x| leads_to_one(routes, **x, group))
        .count()
}

/// For each candidate how many of its names lead to the group.
fn hit_row(alloc: Global, placed: &Placed, group: &[usize]) -> Result<Vec<usize>, AllocError>
    ensures { IfOk result (λ row. (q : ℕ) → q < length placed.now.candidates.items
        → Counts (λ x. IsTrue (list_any
        (leads (rows_of placed.now.routes.marks.items) x) group.now))
        (slice_index_or (rows_of placed.now.candidates.items) q []) (count_at row.items q)) }
{
    let mut row = Vec::new(alloc);
    for names in placed.candidates.as_slice() {
        row.push(count_reaching(&placed.routes, names.as_slice(), group))?;
    }
    Ok(row)
}

/// For each group that isn't lifted, how many names of each candidate reach it.
fn hit_rows(alloc: Global, given: Given<'_>) -> Result<Vec<Vec<usize>>, AllocError>
    ensures { IfOk result (λ rows. Matched
        (CountsHits (feature_map given.entry.map.now) (candidates_of given.entry.features.now))
        (unlifted_groups (groups_of given.entry.exclusive.now) given.entry.lifted.now)
        (rows_of rows.items)) }
{
    let mut rows = Vec::new(alloc);
    if given.exclusive.is_empty() {
        return Ok(rows);
    }
    let placed = Placed::new(
        alloc,
        given.map,
        Edges::Reaching,
        given.features,
        given.exclusive,
    )?;
    for place in 0..given.exclusive.len() {
        if !bit(given.lifted, place) {
            rows.push(hit_row(alloc, &placed, row_at(placed.groups.as_slice(), place))?)?;
        }
    }
    Ok(rows)
}

/// Whether the name is a key that enables a name of the group.
fn serves(routes: &Routes, x: usize, group: &[usize]) -> bool
    ensures { result ≡ serves_test routes.now.keys.items
        (rows_of routes.now.marks.items) group.now x }
{
    routes.is_key(x) && leads_to_one(routes, x, group)
}

/// Whether some name serves the group.
fn is_served(routes: &Routes, group: &[usize]) -> bool
    ensures some { IsTrue result → (x : ℕ) × (x < length routes.now.names.items)
        × IsTrue (serves_test routes.now.keys.items (rows_of routes.now.marks.items) group.now x) }
    ensures none { result ≡ false → (x : ℕ) → x < length routes.now.names.items
        → serves_test routes.now.keys.items (rows_of routes.now.marks.items) group.now x ≡ false }
{
    for x in 0..routes.len() {
        if serves(routes, x, group) {
            return true;
        }
    }
    false
}

/// Whether one of the names serves the group.
fn some_serves(routes: &Routes, names: &[usize], group: &[usize]) -> bool
    ensures { result ≡ list_any (serves_test routes.now.keys.items
        (rows_of routes.now.marks.items) group.now) names.now }
{
    names.iter().any(|x| serves(routes, *x, group))
}

/// Which candidates serve the group.
fn serve_row(alloc: Global, placed: &Placed, group: &[usize]) -> Result<Vec<bool>, AllocError>
    ensures { IfOk result (λ row. (q : ℕ) → q < length placed.now.candidates.items
        → bit row.items q ≡ list_any (serves_test placed.now.routes.keys.items
        (rows_of placed.now.routes.marks.items) group.now)
        (slice_index_or (rows_of placed.now.candidates.items) q [])) }
{
    let mut row = Vec::new(alloc);
    for names in placed.candidates.as_slice() {
        row.push(some_serves(&placed.routes, names.as_slice(), group))?;
    }
    Ok(row)
}

/// For each group that some key serves, which candidates serve it.
fn serve_rows(alloc: Global, placed: &Placed) -> Result<Vec<Vec<bool>>, AllocError>
    ensures { IfOk result (λ rows. (m : FeatureMap) (candidates groups : List (List Name))
        → IsPlaced Enabling m candidates groups placed.now
        → RowsServe m candidates groups (rows_of rows.items)) }
{
    let mut rows = Vec::new(alloc);
    for group in placed.groups.as_slice() {
        if is_served(&placed.routes, group.as_slice()) {
            rows.push(serve_row(alloc, placed, group.as_slice())?)?;
        }
    }
    Ok(rows)
}

/// The element of a row, 0 past its end.
pub(crate) fn count(row: &[usize], place: usize) -> usize
    ensures { result ≡ count_at row.now place }
{
    row.get(place).copied().unwrap_or(0)
}

/// Whether the row is false at each of the positions and at `last`.
fn has_none(row: &[bool], positions: &[usize], last: usize) -> bool
    ensures { result ≡ list_all (λ q. not (bit row.now q)) (positions.now ++ last ∷ []) }
{
    if row.is_empty() {
        return true;
    }
    for p in positions {
        if bit(row, *p) {
            return false;
        }
    }
    !bit(row, last)
}

/// Whether all rows are empty, so that no candidate spares another.
fn are_empty(rows: &[Vec<bool>]) -> bool
    ensures { IsTrue result → (s : List ℕ) → IsTrue (is_lean (rows_of rows.now) s) }
{
    rows.iter().all(|row| row.is_empty())
}

/// Whether the sum of the row's entries at the positions and at `last` is at most 1.
fn has_at_most_one(row: &[usize], positions: &[usize], last: usize) -> bool
    ensures { result ≡ nat_le (sum_by (count_at row.now) (positions.now ++ last ∷ [])) 1 }
{
    let mut seen = 0;
    for p in positions {
        let more = count(row, *p);
        if more > 1 - seen {
            return false;
        }
        seen += more;
    }
    count(row, last) <= 1 - seen
}

/// Whether the row is true at one of the positions.
fn has_some(row: &[bool], positions: &[usize]) -> bool
    ensures { result ≡ list_any (bit row.now) positions.now }
{
    positions.iter().any(|p| bit(row, *p))
}

impl Tables {
    ghost use Rattle.hack_features.specs.Tables.{AreTables};
    ghost use Rattle.hack_features.specs.ChoiceView.{choice_in};
    ghost use Rattle.hack_features.specs.Samples.{positions_of};
    ghost use Rattle.std.specs.Prelude.{true};

    /// Makes the tables of what is given. `enabled` is what the names of candidates and
    /// at-least-one groups enable.
    pub(crate) fn new(
        alloc: Global,
        given: Given<'_>,
        enabled: &Placed,
    ) -> Result<Tables, AllocError>
        requires { IsPlaced Enabling (choice_in given).map (choice_in given).candidates
            (choice_in given).at_least_one_of enabled.now }
        ensures { IfOk result (λ t. AreTables (choice_in given.entry) (rows_of t.spares.items)
            (rows_of t.hits.items) (rows_of t.serves.items)) }
    {
        Ok(Tables {
            spares: spare_rows(alloc, enabled)?,
            hits: hit_rows(alloc, given)?,
            serves: serve_rows(alloc, enabled)?,
        })
    }

    /// Whether the candidate spares none of those at the positions and at `last`.
    fn spares_none(&self, p: usize, positions: &[usize], last: usize) -> bool
        ensures { result ≡ list_all (λ q. not (cell (rows_of self.now.spares.items) p q))
            (positions.now ++ last ∷ []) }
    {
        match self.spares.get(p) {
            Some(row) => has_none(row.as_slice(), positions, last),
            None => true,
        }
    }

    /// Whether none of those at the positions and at `last` spares another.
    pub(crate) fn is_lean(&self, positions: &[usize], last: usize) -> bool
        ensures { result ≡ is_lean (rows_of self.now.spares.items) (positions.now ++ last ∷ []) }
    {
        for p in positions {
            if !self.spares_none(*p, positions, last) {
                return false;
            }
        }
        self.spares_none(last, positions, last)
    }

    /// Whether each exclusion group is reached by at most one name of the candidates at the
    /// positions and at `last`.
    #[tactic(auto, using(hack_base::proofs::Chains::mapped))]
    pub(crate) fn is_exclusive(&self, positions: &[usize], last: usize) -> bool
        ensures { result ≡ is_exclusive (rows_of self.now.hits.items) (positions.now ++ last ∷ []) }
    {
        self.hits
            .iter()
            .all(|row| has_at_most_one(row.as_slice(), positions, last))
    }

    /// Whether each exclusion group is reached by at most one name of the set's members and of
    /// `last`.
    #[tactic(auto, using(hack_base::proofs::Chains::mapped))]
    pub(crate) fn is_exclusive_in(&self, set: &[bool], last: usize) -> bool
        ensures { result ≡ is_exclusive (rows_of self.now.hits.items)
            (positions_of set.now ++ last ∷ []) }
    {
        self.hits
            .iter()
            .all(|row| at_most_one_in(row.as_slice(), set, last))
    }

    /// Whether `last` spares neither a member of the set nor itself, and no member spares `last`.
    /// No member of the set may spare another.
    pub(crate) fn stays_lean(&self, set: &[bool], last: usize) -> bool
        requires { is_lean (rows_of self.now.spares.items) (positions_of set.now) ≡ true }
        ensures { result ≡ is_lean (rows_of self.now.spares.items)
            (positions_of set.now ++ last ∷ []) }
    {
        is_clear(self.spares.as_slice(), set, last)
    }

    /// Whether the tables refuse no set: no candidate spares another, and no group has a row.
    pub(crate) fn are_free(&self) -> bool
        ensures { IsTrue result → (s : List ℕ) → IsTrue (is_lean (rows_of self.now.spares.items) s)
            × IsTrue (is_exclusive (rows_of self.now.hits.items) s)
            × IsTrue (is_required (rows_of self.now.serves.items) s) }
    {
        self.hits.is_empty() && self.serves.is_empty() && are_empty(self.spares.as_slice())
    }

    /// Whether each at-least-one group is served by one of those at the positions.
    #[tactic(auto, using(hack_base::proofs::Chains::mapped))]
    pub(crate) fn is_required(&self, positions: &[usize]) -> bool
        ensures { result ≡ is_required (rows_of self.now.serves.items) positions.now }
    {
        self.serves
            .iter()
            .all(|row| has_some(row.as_slice(), positions))
    }
}
