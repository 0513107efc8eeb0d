//! A feature of a package: one name, a group of several names, or a feature of a dependency.

ghost use Rattle.std.specs.Prelude.{◌≡◌, ◌↔◌, Some, IsTrue, IfOk, Any, Contains};
ghost use Rattle.hack_base.specs.Names.{names_of};
ghost use Rattle.hack_routes.specs.FeatureMap.{feature_map, Reaches};
ghost use Rattle.std.specs.Cmp.{IsTotalOrder};
ghost use Rattle.std.specs.Ordering.{is_eq};
ghost use Rattle.hack_features.specs.FeatureOrder.{feature_order, AreSame};

use hack_routes::reach::{Edges, names_from};
use std::alloc::{AllocError, Global};
use std::cmp::Ordering;
use std::collections::BTreeMap;
use std::fmt::Write;
use std::{fmt, slice};

/// A feature, a group of features, or a feature of a dependency: candidates and exclusion groups
/// have this type. Features are ordered by variant, in the order below, and then by their fields.
#[derive(PartialEq, Eq, PartialOrd, Ord, Drop)]
pub enum Feature {
    /// A feature of the package itself; its name is not divided any further.
    Normal { name: String },
    /// Several features as one element; `name` is their names joined by commas.
    Group { name: String, list: Vec<String> },
    /// A feature of a dependency, as `dependency/feature`; `_slash` is the place, in bytes, of the
    /// slash between the two.
    Path { name: String, _slash: usize },
}

impl Feature {
    ghost use Rattle.hack_features.specs.Feature.{name_of, group_of, IsNormal, IsGroup, IsPath};

    /// A feature of the package itself.
    pub fn normal(alloc: Global, name: &str) -> Result<Feature, AllocError>
        ensures { IfOk result (IsNormal name.now) }
    {
        Ok(Feature::Normal {
            name: String::from_str(alloc, name)?,
        })
    }

    /// A group of features, in the order given; names may repeat or be empty.
    pub fn group(alloc: Global, names: Vec<String>) -> Result<Feature, AllocError>
        ensures { IfOk result (IsGroup (names_of names.items)) }
    {
        let mut name = String::new(alloc);
        for (place, part) in names.iter().enumerate() {
            if place > 0 {
                name.push_str(",")?;
            }
            name.push_str(part.as_str())?;
        }
        Ok(Feature::Group { name, list: names })
    }

    /// The feature `name` of the dependency `parent`.
    pub fn path(alloc: Global, parent: &str, name: &str) -> Result<Feature, AllocError>
        ensures { IfOk result (IsPath parent.now name.now) }
    {
        let slash = parent.len();
        let mut text = String::from_str(alloc, parent)?;
        text.push_str("/")?;
        text.push_str(name)?;
        Ok(Feature::Path {
            name: text,
            _slash: slash,
        })
    }

    /// The text of the feature, as `--features` takes it.
    pub fn name(&self) -> &str
        ensures { result.now ≡ name_of self.now }
    {
        match self {
            Feature::Normal { name } => name.as_str(),
            Feature::Group { name, .. } => name.as_str(),
            Feature::Path { name, .. } => name.as_str(),
        }
    }

    /// The names of the feature: those in the list of a group, else its own.
    pub fn as_group(&self) -> &[String]
        ensures { names_of result.now ≡ group_of self.now }
    {
        match self {
            Feature::Normal { name } => slice::from_ref(name),
            Feature::Group { list, .. } => list.as_slice(),
            Feature::Path { name, .. } => slice::from_ref(name),
        }
    }

    /// Whether `s` is one of the feature's names.
    pub fn matches(&self, s: &str) -> bool
        ensures { IsTrue result ↔ Contains (group_of self.now) s.now }
    {
        self.as_group().iter().any(|name| s == name.as_str())
    }

    /// Whether a chain of values leads from `s` to one of the feature's names. Values are cut
    /// before their first `/`, and values that begin with `dep:` count too. No program here calls
    /// it: it is for users of the library.
    pub fn matches_recursive(
        &self,
        alloc: Global,
        s: &str,
        map: &BTreeMap<String, Vec<String>>,
    ) -> Result<bool, AllocError>
        ensures { IfOk result (λ matches. IsTrue matches
            ↔ Reaches (feature_map map.now) (group_of self.now) s.now) }
    {
        let found = names_from(alloc, map, s, Edges::Reaching)?;
        Ok(self.matches_one_of(found.as_slice()))
    }

    /// Whether one of these is a name of the feature.
    fn matches_one_of(&self, names: &[&str]) -> bool
        ensures { IsTrue result ↔ Any (λ name. Contains (group_of self.now) name.now) names.now }
    {
        names.iter().any(|name| self.matches(*name))
    }
}

/// Returns which of two features comes first: by variant, `Normal` before `Group` before `Path`,
/// and then by name, by the list of a group, and by the place of a slash. Texts are ordered by
/// their bytes.
pub fn compare_features(first: &Feature, second: &Feature) -> Ordering
    ensures order { result ≡ feature_order first.now second.now }

    // A total order: of two features one is before the other, or they are the same, and what is
    // before a feature is before all that come after it.
    ensures total { IsTotalOrder feature_order }

    // The result is `Equal` exactly if both have the same variant and fields.
    ensures same { IsTrue (is_eq result) ↔ AreSame first.now second.now }
{
    first.cmp(second)
}

impl fmt::Debug for Feature {
    ghost use Rattle.hack_features.specs.Feature.{shown_as};

    ghost debug_output = { λ feature. Some (shown_as feature) };

    fn fmt<W: fmt::Write>(&self, f: &mut fmt::Formatter<W>) -> fmt::Result {
        match self {
            Feature::Normal { name } => f.write_str(name.as_str()),
            Feature::Path { name, .. } => f.write_str(name.as_str()),
            Feature::Group { name, .. } => {
                f.write_str("[")?;
                f.write_str(name.as_str())?;
                f.write_str("]")
            }
        }
    }
}
