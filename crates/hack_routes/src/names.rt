//! The names of a feature map by their places in one table: texts are compared only while it is
//! made.

ghost use Rattle.std.specs.Prelude.{◌≡◌, ◌<◌, length, IfOk, OnOk, MatchOption, Contains};
ghost use Rattle.hack_base.specs.Names.{Name, names_of};
ghost use Rattle.hack_routes.specs.FeatureMap.{feature_map, values_at, IsKey};
ghost use Rattle.hack_routes.specs.InternalSearch.{Adds, IsTarget};
ghost use Rattle.hack_routes.specs.Places.{name_at, AreAt};
ghost use Rattle.hack_routes.specs.InternalPlaces.{targets_of, IsMore};

use crate::reach::Edges;
use std::alloc::{AllocError, Global};
use std::collections::BTreeMap;

/// A table of distinct names, each with its place.
#[derive(Drop)]
pub struct Names<'a> {
    pub texts: Vec<&'a str>,
    places: BTreeMap<&'a str, usize>,
}

impl<'a> Names<'a> {
    ghost use Rattle.std.specs.Prelude.{[], ◌∷◌, ◌++◌};
    ghost use Rattle.hack_routes.specs.InternalNamesView.{table, IsInStep};

    /// An empty table.
    pub fn new(alloc: Global) -> Names<'a>
        ensures in_step { IsInStep result }
        ensures empty { table result ≡ [] }
    {
        Names {
            texts: Vec::new(alloc),
            places: BTreeMap::new(alloc),
        }
    }

    /// The place of the name, if the table has it.
    pub fn find(&self, name: &str) -> Option<usize>
        requires { IsInStep self.now }
        ensures { MatchOption result (¬ Contains (table self.now) name.now)
            (λ place. (place < length (table self.now))
            × (name_at (table self.now) place ≡ name.now)) }
    {
        match self.places.get(name) {
            Some(place) => Some(*place),
            None => None,
        }
    }

    /// Adds a name that the table doesn't have, and returns its place.
    fn add(&mut self, name: &'a str) -> Result<usize, AllocError>
        requires in_step { IsInStep self.old }
        requires new { ¬ Contains (table self.old) name.now }
        ensures in_step { OnOk result (IsInStep self.new) }
        ensures place { IfOk result (λ place. place ≡ length (table self.old)) }
        ensures added { OnOk result (table self.new ≡ table self.old ++ name.now ∷ []) }
    {
        let place = self.texts.len();
        self.places.insert(name, place)?;
        self.texts.push(name)?;
        Ok(place)
    }

    /// The place of the name, which is added if the table doesn't have it.
    pub fn place_of(&mut self, name: &'a str) -> Result<usize, AllocError>
        requires { IsInStep self.old }
        ensures in_step { OnOk result (IsInStep self.new) }
        ensures place { IfOk result (λ place. (place < length (table self.new))
            × (name_at (table self.new) place ≡ name.now)) }
        ensures adds { OnOk result (Adds (λ y. name.now ≡ y) (table self.old) (table self.new)) }
    {
        match self.find(name) {
            Some(place) => Ok(place),
            None => Ok(self.add(name)?),
        }
    }

    /// The places of the names that the values lead to. Those that the table doesn't have are
    /// added.
    pub(crate) fn targets(
        &mut self,
        alloc: Global,
        values: &'a [String],
        edges: Edges,
    ) -> Result<Vec<usize>, AllocError>
        requires { IsInStep self.old }
        ensures in_step { OnOk result (IsInStep self.new) }
        ensures row { IfOk result (λ row.
            AreAt (table self.new) row.items (targets_of edges (names_of values.now))) }
        ensures adds { OnOk result (Adds (IsTarget edges (names_of values.now)) (table self.old)
            (table self.new)) }
    {
        let mut row = Vec::new(alloc);
        for value in values {
            if let Some(name) = edges.target(value.as_str()) {
                row.push(self.place_of(name)?)?;
            }
        }
        Ok(row)
    }

    /// The places of the names that the map's values of `name` lead to. Those that the table
    /// doesn't have are added.
    pub(crate) fn row_of(
        &mut self,
        alloc: Global,
        map: &'a BTreeMap<String, Vec<String>>,
        name: &str,
        edges: Edges,
    ) -> Result<Vec<usize>, AllocError>
        requires { IsInStep self.old }
        ensures in_step { OnOk result (IsInStep self.new) }
        ensures row { IfOk result (λ row.
            AreAt (table self.new) row.items
            (targets_of edges (values_at (feature_map map.now) name.now))) }
        ensures adds { OnOk result (Adds (IsTarget edges (values_at (feature_map map.now) name.now))
            (table self.old) (table self.new)) }
    {
        match map.get(name) {
            Some(values) => Ok(self.targets(alloc, values.as_slice(), edges)?),
            None => Ok(Vec::new(alloc)),
        }
    }

    /// The places of these texts. Those that the table doesn't have are added.
    pub fn places_of(
        &mut self,
        alloc: Global,
        texts: &'a [String],
    ) -> Result<Vec<usize>, AllocError>
        requires { IsInStep self.old }
        ensures in_step { OnOk result (IsInStep self.new) }
        ensures row { IfOk result (λ row. AreAt (table self.new) row.items (names_of texts.now)) }
        ensures kept { OnOk result (IsMore (table self.old) (table self.new)) }
    {
        let mut row = Vec::new(alloc);
        for text in texts {
            row.push(self.place_of(text.as_str())?)?;
        }
        Ok(row)
    }

    /// Adds the keys of the map that the table doesn't have.
    pub fn add_keys(&mut self, map: &'a BTreeMap<String, Vec<String>>) -> Result<(), AllocError>
        requires { IsInStep self.old }
        ensures in_step { OnOk result (IsInStep self.new) }
        ensures known { OnOk result ((x : Name) → IsKey (feature_map map.now) x
            → Contains (table self.new) x) }
    {
        for key in map.keys() {
            self.place_of(key.as_str())?;
        }
        Ok(())
    }
}
