//! The candidates of a package and groups of names, as places in one table of names.

ghost use Rattle.std.specs.Prelude.{IfOk, OnOk};
ghost use Rattle.hack_routes.specs.FeatureMap.{feature_map};
ghost use Rattle.hack_features.specs.Feature.{groups_of, candidates_of};
ghost use Rattle.hack_samples.specs.Sets.{rows_of};
ghost use Rattle.hack_routes.specs.Places.{AreAllAt};
ghost use Rattle.hack_routes.specs.InternalPlaces.{IsMore};
ghost use Rattle.hack_routes.specs.InternalNamesView.{table, IsInStep};

use crate::feature::Feature;
use hack_routes::names::Names;
use hack_routes::reach::Edges;
use hack_routes::routes::Routes;
use std::alloc::{AllocError, Global};
use std::collections::BTreeMap;

/// The places of each candidate's names. Those that the table doesn't have are added.
fn candidate_places<'a>(
    alloc: Global,
    names: &mut Names<'a>,
    candidates: &'a [&'a Feature],
) -> Result<Vec<Vec<usize>>, AllocError>
    requires { IsInStep names.old }
    ensures in_step { OnOk result (IsInStep names.new) }
    ensures rows { IfOk result (λ rows.
        AreAllAt (table names.new) (rows_of rows.items) (candidates_of candidates.now)) }
    ensures kept { OnOk result (IsMore (table names.old) (table names.new)) }
{
    let mut rows = Vec::new(alloc);
    for candidate in candidates {
        rows.push(names.places_of(alloc, candidate.as_group())?)?;
    }
    Ok(rows)
}

/// The places of each group's names. Those that the table doesn't have are added.
fn group_places<'a>(
    alloc: Global,
    names: &mut Names<'a>,
    groups: &'a [Feature],
) -> Result<Vec<Vec<usize>>, AllocError>
    requires { IsInStep names.old }
    ensures in_step { OnOk result (IsInStep names.new) }
    ensures rows { IfOk result (λ rows.
        AreAllAt (table names.new) (rows_of rows.items) (groups_of groups.now)) }
    ensures kept { OnOk result (IsMore (table names.old) (table names.new)) }
{
    let mut rows = Vec::new(alloc);
    for group in groups {
        rows.push(names.places_of(alloc, group.as_group())?)?;
    }
    Ok(rows)
}

/// What names lead to by one kind of edges, and the places of the names of candidates and groups.
#[derive(Drop)]
pub(crate) struct Placed<'a> {
    pub routes: Routes<'a>,
    /// A row for each candidate.
    pub candidates: Vec<Vec<usize>>,
    /// A row for each group.
    pub groups: Vec<Vec<usize>>,
}

impl<'a> Placed<'a> {
    ghost use Rattle.hack_features.specs.PlacedView.{IsPlaced};

    pub(crate) fn new(
        alloc: Global,
        map: &'a BTreeMap<String, Vec<String>>,
        edges: Edges,
        candidates: &'a [&'a Feature],
        groups: &'a [Feature],
    ) -> Result<Placed<'a>, AllocError>
        ensures { IfOk result (IsPlaced edges (feature_map map.now) (candidates_of candidates.now)
            (groups_of groups.now)) }
    {
        let mut names = Names::new(alloc);
        names.add_keys(map)?;
        let candidates = candidate_places(alloc, &mut names, candidates)?;
        let groups = group_places(alloc, &mut names, groups)?;
        let routes = Routes::new(alloc, map, edges, names)?;
        Ok(Placed {
            routes,
            candidates,
            groups,
        })
    }
}
