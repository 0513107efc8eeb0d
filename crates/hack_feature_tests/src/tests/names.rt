//! Single features, and what the names of a map enable. An empty name lies between two spaces.
//!
//! - `order a b`: how each feature compares with each.
//! - `show a`: its name, its text for debugging, and the names that it consists of.
//! - `slash a>b`: the place of its slash.
//! - `has a [a|b]`: whether the feature matches the name; `reach a b`: whether the name reaches the
//!   feature.
//! - `deps`: what each key enables; `serve a [b|c]`: the keys that serve each group.

use crate::tests::given::{Map, feature, features, map_of};
use crate::tests::shown::{push_between, push_order, told};
use hack_features::{Feature, at_least_one_of_for_package, compare_features, feature_deps};
use hack_holds::{Ask, Wrong, hold};
use std::alloc::{AllocError, Global};
use std::cmp::Ordering;
use std::collections::BTreeSet;

/// How the first feature compares with the other; none where the methods disagree.
fn compared(first: &Feature, other: &Feature) -> Option<Ordering> {
    let order = first.cmp(other);
    let is_equal = order == Ordering::Equal;
    if compare_features(first, other) == order && (first == other) == is_equal {
        Some(order)
    } else {
        None
    }
}

fn push_compared(text: &mut String, first: &Feature, all: &[Feature]) -> Result<(), AllocError> {
    for other in all {
        push_order(text, compared(first, other))?;
    }
    Ok(())
}

fn order(alloc: Global, texts: &str) -> Result<String, AllocError> {
    let all = features(alloc, texts)?;
    let mut text = String::new(alloc);
    for (place, first) in all.iter().enumerate() {
        push_between(&mut text, place, "\n")?;
        push_compared(&mut text, first, all.as_slice())?;
    }
    Ok(text)
}

fn show(alloc: Global, feature: &Feature) -> Result<String, AllocError> {
    let name = feature.name();
    let mut text = format!(in alloc; "{name} {feature:?}")?;
    for part in feature.as_group() {
        text.push_str(" ")?;
        text.push_str(part.as_str())?;
    }
    Ok(text)
}

fn slash(alloc: Global, feature: &Feature) -> Result<String, AllocError> {
    match feature {
        Feature::Path { _slash, .. } => _slash.to_string(alloc),
        _ => String::from_str(alloc, "no path"),
    }
}

fn push_set(text: &mut String, set: &BTreeSet<&str>) -> Result<(), AllocError> {
    for name in set.iter() {
        text.push_str(" ")?;
        text.push_str(*name)?;
    }
    text.push_str(";")
}

fn deps(alloc: Global, map: &Map) -> Result<String, AllocError> {
    let deps = feature_deps(alloc, map)?;
    let mut text = String::new(alloc);
    for (key, enabled) in deps.iter() {
        text.push_str(*key)?;
        text.push_str(":")?;
        push_set(&mut text, enabled)?;
    }
    Ok(text)
}

fn serve(alloc: Global, map: &Map, groups: &str) -> Result<String, AllocError> {
    let groups = features(alloc, groups)?;
    let deps = feature_deps(alloc, map)?;
    let sets = at_least_one_of_for_package(alloc, groups.as_slice(), &deps)?;
    let mut text = String::new(alloc);
    for set in sets.as_slice() {
        push_set(&mut text, set)?;
    }
    Ok(text)
}

/// The answer to a question on a feature, or on a name and a feature.
fn on_feature(alloc: Global, map: &Map, kind: &str, rest: &str) -> Result<String, AllocError> {
    let (name, text) = rest.split_once(' ').unwrap_or(("", rest));
    let feature = feature(alloc, text)?;
    match kind {
        "show" => show(alloc, &feature),
        "slash" => slash(alloc, &feature),
        "has" => told(alloc, feature.matches(name)),
        "reach" => told(alloc, feature.matches_recursive(alloc, name, map)?),
        _ => String::from_str(alloc, "no such question"),
    }
}

/// A map of which questions are asked.
#[derive(Drop)]
struct Named<'a> {
    map: &'a str,
}

impl Ask for Named<'_> {
    fn answer(&mut self, alloc: Global, question: &str) -> Result<String, AllocError> {
        let map = map_of(alloc, self.map)?;
        let (kind, rest) = question.split_once(' ').unwrap_or((question, ""));
        match kind {
            "order" => order(alloc, rest),
            "deps" => deps(alloc, &map),
            "serve" => serve(alloc, &map, rest),
            _ => on_feature(alloc, &map, kind, rest),
        }
    }
}

/// Checks rows on a map.
fn on(alloc: Global, map: &str, rows: &str) -> Result<(), Wrong> {
    hold(alloc, &mut Named { map }, rows)
}

/// Values of each form, a cycle, and names that are no keys.
const FORMS: &str = "path: tokio/full;weak: async-std?/alloc;dep: dep:tokio;both: dep path;\
    deep: dep:x/y/z;one: two;two: three one;three: one end;self: self;: empty";

const FOUR: &str = "a:;b: a;c: b;d: a b";

#[test]
fn features_are_ordered_by_kind_and_then_by_fields(rt: HostRuntime) -> Result<(), Wrong> {
    on(
        rt.alloc(),
        "",
        "
            > order  b b/c ba [a|b] [a,b] [b] a>b/c a/b>c b>a
            | =<<<<<<<<<
            | >=<<<<<<<<
            | >>=<<<<<<<
            | >>>=<<<<<<
            | >>>>=<<<<<
            | >>>>>=<<<<
            | >>>>>>=<<<
            | >>>>>>>=<<
            | >>>>>>>>=<
            | >>>>>>>>>=
        ",
    )
}

#[test]
fn features_as_text(rt: HostRuntime) -> Result<(), Wrong> {
    on(
        rt.alloc(),
        "",
        "
            > show a,b
            | a,b a,b a,b
            > show [b|a|b]
            | b,a,b [b,a,b] b a b
            > show [a]
            | a [a] a
            > show [|a]
            | ,a [,a]  a
            > show dep>feat
            | dep/feat dep/feat dep/feat
            > show >
            | / / /

            # The group of no names.
            > show ()
            |  []
        ",
    )
}

#[test]
fn a_path_keeps_the_place_of_its_slash(rt: HostRuntime) -> Result<(), Wrong> {
    on(
        rt.alloc(),
        "",
        "
            > slash dep>feat
            | 3
            > slash >a
            | 0
            > slash a/b>c/d
            | 3
            > slash ä>b
            | 2
        ",
    )
}

#[test]
fn names_that_a_feature_matches(rt: HostRuntime) -> Result<(), Wrong> {
    on(
        rt.alloc(),
        "",
        "
            > has a a
            | true
            > has A a
            | false
            > has a a,b
            | false
            > has b [a|b|]
            | true
            > has  [a|b|]
            | true
            > has a,b [a|b]
            | false
            > has  [a|b]
            | false
            > has dep/feat dep>feat
            | true
            > has dep dep>feat
            | false
            > has feat dep>feat
            | false
        ",
    )
}

#[test]
fn names_that_reach_a_feature(rt: HostRuntime) -> Result<(), Wrong> {
    on(
        rt.alloc(),
        FORMS,
        "
            > reach path tokio
            | true
            > reach path tokio/full
            | false
            > reach weak async-std?
            | true
            > reach weak async-std
            | false
            > reach dep dep:tokio
            | true
            > reach dep tokio
            | false
            > reach both tokio
            | true
            > reach deep dep:x
            | true
            > reach deep dep:x/y
            | false
            > reach one end
            | true
            > reach three one
            | true
            > reach end one
            | false
            > reach self self
            | true
            > reach self other
            | false
            > reach tokio tokio
            | true
            > reach  empty
            | true
            > reach x/y x/y
            | true
            > reach x/y x
            | false
            > reach both [tokio|end]
            | true
            > reach two [tokio|end]
            | true
            > reach weak [tokio|end]
            | false
        ",
    )
}

#[test]
fn what_each_key_enables(rt: HostRuntime) -> Result<(), Wrong> {
    on(
        rt.alloc(),
        FOUR,
        "
            > deps
            | a:;b: a;c: a b;d: a b;
        ",
    )?;
    on(
        rt.alloc(),
        FORMS,
        "
            > deps
            | : empty;both: dep path tokio/full;deep:;dep:;one: end three two;path: tokio/full;self:;three: end one two;two: end one three;weak: async-std?/alloc;
        ",
    )
}

#[test]
fn keys_that_serve_a_group(rt: HostRuntime) -> Result<(), Wrong> {
    on(
        rt.alloc(),
        FOUR,
        "
            > serve [b|x|y|z]
            |  b c d;
            > serve b x y z
            |  b c d;

            # One of the groups is that of an empty name.
            > serve [x|y] [c|a] [c] [] [c|d]
            |  a b c d; c; c d;
        ",
    )?;
    on(
        rt.alloc(),
        FORMS,
        "
            > serve [tokio/full] [tokio] [dep:tokio]
            |  both path;
        ",
    )
}
