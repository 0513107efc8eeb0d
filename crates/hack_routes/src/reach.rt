//! A search through a feature map: all names that chains of values lead to from one name.

ghost use Rattle.std.specs.Prelude.{◌≡◌, IfOk, OnOk};
ghost use Rattle.std.specs.Option.{option_map};
ghost use Rattle.hack_base.specs.Names.{names_of, names_behind};
ghost use Rattle.hack_routes.specs.FeatureMap.{feature_map};
ghost use Rattle.hack_routes.specs.Search.{edge_of};
ghost use Rattle.hack_routes.specs.InternalSearch.{IsReach};

use std::alloc::{AllocError, Global};
use std::collections::{BTreeMap, BTreeSet};

/// Which values of a name lead on, and to what name.
#[derive(Clone, Copy)]
pub enum Edges {
    /// Whole values that don't begin with `dep:`: what a name enables.
    Enabling,
    /// Values cut before their first `/`: what a name reaches.
    Reaching,
}

impl Edges {
    ghost use Rattle.hack_routes.specs.InternalSearch.{target_of};

    /// The name that a value leads to.
    pub(crate) fn target(self, value: &str) -> Option<&str>
        ensures { option_map (λ name. name.now) result ≡ target_of self value.now }
    {
        match self {
            Edges::Enabling if value.starts_with("dep:") => None,
            Edges::Enabling => Some(value),
            Edges::Reaching => match value.split_once('/') {
                Some((name, _)) => Some(name),
                None => Some(value),
            },
        }
    }
}

/// The names found so far, in the order in which they were found, each once.
#[derive(Drop)]
struct Found<'a> {
    order: Vec<&'a str>,
    seen: BTreeSet<&'a str>,
}

impl<'a> Found<'a> {
    ghost use Rattle.hack_routes.specs.InternalSearch.{Adds, IsSeenInStep, IsTarget, names_found};

    /// Adds a name unless it was found before.
    fn add(&mut self, name: &'a str) -> Result<(), AllocError>
        requires { IsSeenInStep self.old }
        ensures in_step { OnOk result (IsSeenInStep self.new) }
        ensures adds { OnOk result (Adds (λ y. name.now
            ≡ y) (names_found self.old) (names_found self.new)) }
    {
        if !self.seen.contains(name) {
            self.seen.insert(name)?;
            self.order.push(name)?;
        }
        Ok(())
    }

    /// Adds the names that the values lead to.
    fn add_targets(&mut self, values: &'a [String], edges: Edges) -> Result<(), AllocError>
        requires { IsSeenInStep self.old }
        ensures in_step { OnOk result (IsSeenInStep self.new) }
        ensures adds { OnOk result (Adds (IsTarget edges (names_of values.now))
            (names_found self.old) (names_found self.new)) }
    {
        for value in values {
            if let Some(name) = edges.target(value.as_str()) {
                self.add(name)?;
            }
        }
        Ok(())
    }
}

/// The names to which a chain of values leads from `name`, `name` itself first, each once.
pub fn names_from<'a>(
    alloc: Global,
    map: &'a BTreeMap<String, Vec<String>>,
    name: &'a str,
    edges: Edges,
) -> Result<Vec<&'a str>, AllocError>
    ensures { IfOk result (λ found.
        IsReach (edge_of edges (feature_map map.now)) name.now (names_behind found.items)) }
{
    let mut found = Found {
        order: Vec::new(alloc),
        seen: BTreeSet::new(alloc),
    };
    found.add(name)?;
    let mut next = 0;
    while next < found.order.len() {
        let from = found.order[next];
        if let Some(values) = map.get(from) {
            found.add_targets(values.as_slice(), edges)?;
        }
        next += 1;
    }
    Ok(found.order)
}
