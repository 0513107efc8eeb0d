//! What each key of a feature map enables, and which keys serve an at-least-one group.

ghost use Rattle.std.specs.Prelude.{◌≡◌, ◌<◌, ◌↔◌, ◌||◌, bytes_eq, length, IsTrue, IfOk};
ghost use Rattle.hack_routes.specs.FeatureMap.{FeatureMap, feature_map};
ghost use Rattle.hack_features.specs.Deps.{AreDepsOf, AreServers, IsDepsOf, ServeGroups};
ghost use Rattle.hack_routes.specs.NameSets.{has_name};
ghost use Rattle.hack_features.specs.InternalDeps.{IsServedBy};
ghost use Rattle.hack_features.specs.Feature.{group_of, groups_of};
ghost use Rattle.hack_routes.specs.Places.{name_at};
ghost use Rattle.hack_routes.specs.RoutesView.{routed_names};
ghost use Rattle.hack_routes.specs.InternalRoutesView.{AreRoutesOf};
ghost use Rattle.hack_routes.specs.declared.reach.Edges.TheVariants.{Enabling};

use crate::feature::Feature;
use hack_routes::names::Names;
use hack_routes::reach::Edges;
use hack_routes::routes::Routes;
use std::alloc::{AllocError, Global};
use std::collections::{BTreeMap, BTreeSet};

/// All names that the name at the place enables, without that name itself.
fn deps_at<'a>(
    alloc: Global,
    routes: &Routes<'a>,
    from: usize,
) -> Result<BTreeSet<&'a str>, AllocError>
    requires { from < length (routed_names routes.now) }
    ensures { IfOk result (λ set. (m : FeatureMap) → AreRoutesOf Enabling m routes.now
        → IsDepsOf m (name_at (routed_names routes.now) from) set) }
{
    let mut set = BTreeSet::new(alloc);
    for (to, name) in routes.names().iter().enumerate() {
        if routes.leads_on(from, to) {
            set.insert(*name)?;
        }
    }
    Ok(set)
}

/// For each key, all names that it enables, without the key itself.
fn deps_by_place<'a>(
    alloc: Global,
    routes: &Routes<'a>,
) -> Result<BTreeMap<&'a str, BTreeSet<&'a str>>, AllocError>
    ensures { IfOk result (λ deps. (m : FeatureMap) → AreRoutesOf Enabling m routes.now
        → AreDepsOf m deps) }
{
    let mut deps = BTreeMap::new(alloc);
    for (place, name) in routes.names().iter().enumerate() {
        if routes.is_key(place) {
            let set = deps_at(alloc, routes, place)?;
            deps.insert(*name, set)?;
        }
    }
    Ok(deps)
}

/// For each key of a package's feature map, all names that it enables, without the key itself.
pub fn feature_deps<'a>(
    alloc: Global,
    map: &'a BTreeMap<String, Vec<String>>,
) -> Result<BTreeMap<&'a str, BTreeSet<&'a str>>, AllocError>
    ensures { IfOk result (λ deps. AreDepsOf (feature_map map.now) deps) }
{
    let mut names = Names::new(alloc);
    names.add_keys(map)?;
    let routes = Routes::new(alloc, map, Edges::Enabling, names)?;
    deps_by_place(alloc, &routes)
}

/// Whether the name is the key or one of its deps.
fn is_among(name: &str, key: &str, deps: &BTreeSet<&str>) -> bool
    ensures { result ≡ (bytes_eq name.now key.now || has_name deps.now name.now) }
{
    name == key || deps.contains(name)
}

/// Whether a name of the group is the key or one of its deps.
fn serves(group: &Feature, key: &str, deps: &BTreeSet<&str>) -> bool
    ensures { IsTrue result ↔ IsServedBy (group_of group.now) key.now deps.now }
{
    let names = group.as_group();
    names.iter().any(|name| is_among(name.as_str(), key, deps))
}

/// The keys that enable a name of the group.
fn servers<'a>(
    alloc: Global,
    group: &Feature,
    deps: &BTreeMap<&'a str, BTreeSet<&'a str>>,
) -> Result<BTreeSet<&'a str>, AllocError>
    ensures { IfOk result (λ keys. (m : FeatureMap) → AreDepsOf m deps.now
        → AreServers m (group_of group.now) keys) }
{
    let mut keys = BTreeSet::new(alloc);
    for (key, enabled) in deps.iter() {
        if serves(group, *key, enabled) {
            keys.insert(*key)?;
        }
    }
    Ok(keys)
}

/// For each group of which some key of the package enables a name, the set of those keys. Groups
/// without such a key are dropped. `deps` is what `feature_deps` returns for the package's map.
pub fn at_least_one_of_for_package<'a>(
    alloc: Global,
    at_least_one_of: &[Feature],
    deps: &BTreeMap<&'a str, BTreeSet<&'a str>>,
) -> Result<Vec<BTreeSet<&'a str>>, AllocError>
    ensures { IfOk result (λ sets. (m : FeatureMap) → AreDepsOf m deps.now
        → ServeGroups m (groups_of at_least_one_of.now) sets.items) }
{
    let mut sets = Vec::new(alloc);
    for group in at_least_one_of {
        let keys = servers(alloc, group, deps)?;
        if !keys.is_empty() {
            sets.push(keys)?;
        }
    }
    Ok(sets)
}
