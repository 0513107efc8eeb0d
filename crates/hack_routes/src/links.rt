//! Which names of a feature map lead to which by one edge, as rows of places in a table of names.

ghost use Rattle.std.specs.Prelude.{◌≡◌, ◌<◌, ◌++◌, ◌+◌, List, length, IfOk, OnOk};
ghost use Rattle.hack_base.specs.Names.{Name};
ghost use Rattle.hack_routes.specs.FeatureMap.{feature_map};

use crate::names::Names;
use crate::reach::Edges;
use std::alloc::{AllocError, Global};
use std::collections::BTreeMap;

/// For each name of a table, by its place, whether it is a key of the map and what its values lead
/// to.
#[derive(Drop)]
pub struct Links<'a> {
    pub names: Names<'a>,
    /// Whether the name is a key.
    pub keys: Vec<bool>,
    /// The places of what its values lead to.
    pub rows: Vec<Vec<usize>>,
}

impl<'a> Links<'a> {
    ghost use Rattle.hack_routes.specs.InternalNamesView.{table, IsInStep};
    ghost use Rattle.hack_routes.specs.InternalLinksView.{table_of, AreLinks, IsLinking};
    ghost use Rattle.hack_routes.specs.InternalPlaces.{IsGrown};

    /// Makes the row of the next name. Names that its values lead to are added to the table.
    fn add_row(
        &mut self,
        alloc: Global,
        map: &'a BTreeMap<String, Vec<String>>,
        edges: Edges,
    ) -> Result<(), AllocError>
        requires links { IsLinking edges (feature_map map.now) self.old }
        requires left { length self.old.rows.items < length (table_of self.old) }
        ensures links { OnOk result (IsLinking edges (feature_map map.now) self.new) }
        ensures more { OnOk result (length self.new.rows.items ≡ length self.old.rows.items + 1) }
        ensures grown { OnOk result (IsGrown edges (feature_map map.now) (table_of self.old)
            (table_of self.new)) }
    {
        let name = self.names.texts[self.rows.len()];
        let row = self.names.row_of(alloc, map, name, edges)?;
        self.rows.push(row)?;
        self.keys.push(map.contains_key(name))?;
        Ok(())
    }

    /// The links of these names and of all names that chains of edges lead to from them.
    pub fn new(
        alloc: Global,
        map: &'a BTreeMap<String, Vec<String>>,
        edges: Edges,
        names: Names<'a>,
    ) -> Result<Links<'a>, AllocError>
        requires { IsInStep names }
        ensures links { IfOk result (AreLinks edges (feature_map map.now)) }
        ensures kept { IfOk result (λ links. (more : List Name)
            × (table_of links ≡ table names.entry ++ more)) }
    {
        let mut links = Links {
            names,
            keys: Vec::new(alloc),
            rows: Vec::new(alloc),
        };
        'rows: while links.rows.len() < links.names.texts.len() {
            links.add_row(alloc, map, edges)?;
        }
        Ok(links)
    }
}
