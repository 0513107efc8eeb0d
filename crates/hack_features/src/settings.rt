//! Which candidates are on: those that a set enables, and those that all features of the package
//! enable.

ghost use Rattle.std.specs.Prelude.{◌≡◌, [], map, flat_map, length, IfOk};
ghost use Rattle.std.specs.List.{slice_index_or};
ghost use Rattle.hack_samples.specs.Sets.{rows_of};
ghost use Rattle.hack_features.specs.InternalSettings.{leads_to_each, AreKeyPlaces};

use crate::placed::Placed;
use crate::rules::Rules;
use crate::samples::one_leads;
use hack_routes::marks::row_at;
use hack_routes::routes::Routes;
use std::alloc::{AllocError, Global};

/// The places of the names of the set's members, one after another.
fn member_places(
    alloc: Global,
    candidates: &[Vec<usize>],
    set: &[usize],
) -> Result<Vec<usize>, AllocError>
    ensures { IfOk result (λ places. places.items
        ≡ flat_map (λ p. slice_index_or (rows_of candidates.now) p []) set.now) }
{
    let mut places = Vec::new(alloc);
    for p in set {
        places.extend_from_slice(row_at(candidates, *p))?;
    }
    Ok(places)
}

/// The places of the names that are keys.
fn key_places(alloc: Global, routes: &Routes) -> Result<Vec<usize>, AllocError>
    ensures { IfOk result (λ places. AreKeyPlaces routes.now.keys.items
        (length routes.now.names.items) places.items) }
{
    (0..routes.len())
        .filter(|x| routes.is_key(*x))
        .collect(alloc)
}

/// Whether for each of the names one of these places leads to it.
fn leads_to_each(routes: &Routes, from: &[usize], names: &[usize]) -> bool
    ensures { result ≡ leads_to_each (rows_of routes.now.marks.items) from.now names.now }
{
    names.iter().all(|y| one_leads(routes, from, *y))
}

/// For each candidate whether each of its names is one to which some of these places leads.
fn settings_from(alloc: Global, enabled: &Placed, from: &[usize]) -> Result<Vec<bool>, AllocError>
    ensures { IfOk result (λ row. row.items
        ≡ map (leads_to_each (rows_of enabled.now.routes.marks.items) from.now)
        (rows_of enabled.now.candidates.items)) }
{
    enabled
        .candidates
        .iter()
        .map(|names| leads_to_each(&enabled.routes, from, names.as_slice()))
        .collect(alloc)
}

impl Rules<'_> {
    ghost use Rattle.std.specs.Prelude.{◌↔◌, List};
    ghost use Rattle.hack_samples.specs.declared.sets.Setting.{Setting};
    ghost use Rattle.hack_features.specs.Samples.{SetShows};
    ghost use Rattle.hack_features.specs.Settings.{AreSettings, AreSettingsOfAll};
    ghost use Rattle.hack_samples.specs.Samples.{RowShows};
    ghost use Rattle.hack_features.specs.Settings.{IsOfCandidates, AllShow};
    ghost use Rattle.hack_features.specs.View.{choice_of};

    /// For each candidate whether it is on in the set of `positions`, that is whether the set
    /// enables each of its names. A position past the last candidate adds nothing to the set.
    pub fn settings(&self, alloc: Global, positions: &[usize]) -> Result<Vec<bool>, AllocError>
        ensures settings { IfOk result (λ row.
            AreSettings (choice_of self.now) positions.now row.items) }

        // So the set shows a pattern exactly where the row does.
        ensures shown { IfOk result (λ row. (pattern : List Setting)
            → IsOfCandidates (choice_of self.now) pattern
            → RowShows row.items pattern ↔ SetShows (choice_of self.now) pattern positions.now) }
    {
        let enabled = self.enabled();
        let from = member_places(alloc, enabled.candidates.as_slice(), positions)?;
        settings_from(alloc, enabled, from.as_slice())
    }

    /// For each candidate whether it is on where all features of the package are, as Cargo's
    /// `--all-features` turns them on: whether each of its names is enabled by some key of the
    /// feature map. A key enables itself.
    /// <https://doc.rust-lang.org/cargo/reference/features.html#command-line-feature-options>
    pub fn settings_of_all(&self, alloc: Global) -> Result<Vec<bool>, AllocError>
        ensures settings { IfOk result (λ row. AreSettingsOfAll (choice_of self.now) row.items) }

        // So all features show a pattern exactly where the row does.
        ensures shown { IfOk result (λ row. (pattern : List Setting)
            → IsOfCandidates (choice_of self.now) pattern
            → RowShows row.items pattern ↔ AllShow (choice_of self.now) pattern) }
    {
        let enabled = self.enabled();
        let from = key_places(alloc, &enabled.routes)?;
        settings_from(alloc, enabled, from.as_slice())
    }
}
