//! What the names of a feature map lead to by chains of edges: one table of places for each kind of
//! edges.

ghost use Rattle.std.specs.Prelude.{◌≡◌, ◌==◌, ◌&&◌, ◌++◌, [], List, length, not, IfOk, IsTrue};
ghost use Rattle.std.specs.Prelude.{Contains};
ghost use Rattle.std.specs.List.{slice_index_or};
ghost use Rattle.hack_base.specs.Names.{Name};
ghost use Rattle.hack_routes.specs.FeatureMap.{feature_map};
ghost use Rattle.hack_samples.specs.Sets.{rows_of};
ghost use Rattle.hack_routes.specs.Rows.{bit, cell, leads};

use crate::links::Links;
use crate::marks::{all_marks, row_at};
use crate::names::Names;
use crate::reach::Edges;
use std::alloc::{AllocError, Global};
use std::collections::BTreeMap;

/// The element of a row, false past its end.
pub fn bit(row: &[bool], place: usize) -> bool
    ensures { result ≡ bit row.now place }
{
    row.get(place).copied().unwrap_or(false)
}

/// For each name of a table, by place, whether it is a key and what chains of edges lead to from
/// it.
#[derive(Drop)]
pub struct Routes<'a> {
    names: Vec<&'a str>,
    keys: Vec<bool>,
    /// An empty row for a name from which no edge leads away, so that most questions skip it.
    marks: Vec<Vec<bool>>,
}

impl<'a> Routes<'a> {
    ghost use Rattle.std.specs.Prelude.{◌↔◌};
    ghost use Rattle.hack_routes.specs.FeatureMap.{IsKey};
    ghost use Rattle.hack_routes.specs.InternalNamesView.{table, IsInStep};
    ghost use Rattle.hack_routes.specs.RoutesView.{routed_names};
    ghost use Rattle.hack_routes.specs.InternalRoutesView.{AreRoutesOf};

    /// What names lead to: the names of the table, which has to have the keys of the map, and all
    /// names that chains of edges lead to from them.
    pub fn new(
        alloc: Global,
        map: &'a BTreeMap<String, Vec<String>>,
        edges: Edges,
        names: Names<'a>,
    ) -> Result<Routes<'a>, AllocError>
        requires in_step { IsInStep names }
        requires known { (x : Name) → IsKey (feature_map map.now) x → Contains (table names) x }
        ensures routes { IfOk result (AreRoutesOf edges (feature_map map.now)) }
        ensures kept { IfOk result (λ routes. (more : List Name)
            × (routed_names routes ≡ table names.entry ++ more)) }
    {
        let links = Links::new(alloc, map, edges, names)?;
        let marks = all_marks(alloc, links.rows.as_slice())?;
        let keys = links.keys;
        let names = links.names;
        Ok(Routes {
            names: names.texts,
            keys,
            marks,
        })
    }

    /// How many names there are.
    pub fn len(&self) -> usize
        ensures { result ≡ length self.now.names.items }
    {
        self.names.len()
    }

    /// The names, by place.
    pub fn names(&self) -> &[&'a str]
        ensures { result.now ≡ self.now.names.items }
    {
        self.names.as_slice()
    }

    /// Whether the name at the place is a key.
    pub fn is_key(&self, place: usize) -> bool
        ensures { result ≡ bit self.now.keys.items place }
    {
        bit(self.keys.as_slice(), place)
    }

    /// Whether no edge leads away from the place.
    pub fn is_end(&self, place: usize) -> bool
        ensures { IsTrue result ↔ (length (slice_index_or (rows_of self.now.marks.items) place [])
            ≡ 0) }
    {
        row_at(self.marks.as_slice(), place).is_empty()
    }

    /// Whether a chain of edges leads from a place to a different one. For a place and itself the
    /// result says nothing.
    pub(crate) fn has_mark(&self, from: usize, to: usize) -> bool
        ensures { result ≡ cell (rows_of self.now.marks.items) from to }
    {
        bit(row_at(self.marks.as_slice(), from), to)
    }

    /// Whether a chain of edges leads from a place to another one, or both are the same place.
    pub fn leads(&self, from: usize, to: usize) -> bool
        ensures { result ≡ leads (rows_of self.now.marks.items) from to }
    {
        from == to || self.has_mark(from, to)
    }

    /// Whether a chain of edges leads from a place to another one, and they are not the same place.
    pub fn leads_on(&self, from: usize, to: usize) -> bool
        ensures { result ≡ (not (from == to) && cell (rows_of self.now.marks.items) from to) }
    {
        from != to && self.has_mark(from, to)
    }
}
