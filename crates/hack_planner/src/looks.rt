//! The packages whose samples are looked for long, so that a call can say so before it looks.

ghost use Rattle.std.specs.Prelude.{◌≡◌, ◌++◌, All, Contains, IfOk, OnOk, map};
ghost use Rattle.std.specs.Prelude.{option_map, string_bytes};
ghost use Rattle.std.specs.List.{filter_map};
ghost use Rattle.std.specs.Option.{option_to_list};
ghost use Rattle.hack_load.specs.ContextView.{context_view};
ghost use Rattle.hack_metadata.specs.RecordViews.{place_at};
ghost use Rattle.hack_planner.specs.Looks.{AreLongLooks, look_among, look_at, look_of, look_text};
ghost use Rattle.hack_planner.specs.PackageRules.{rules_in};

use crate::candidates::candidates;
use crate::determine::determine_package_list;
use crate::fault::PackagesFault;
use crate::package_rules::PackageRules;
use crate::pattern_counts::has_many_patterns;
use hack_load::context::Context;
use hack_load::features::Features;
use hack_metadata::metadata::PackageId;
use std::alloc::{AllocError, Global};

/// Returns a text for each package that the call runs on, in order, whose sample is looked for
/// long: its rules have a strength, and there are more than a million patterns of exactly so many
/// of its candidates, each on or off. There is none where it isn't known which packages these are.
pub fn long_looks(alloc: Global, cx: &Context) -> Result<Vec<String>, AllocError>
    ensures { IfOk result (λ texts.
        AreLongLooks (context_view cx.now) (map string_bytes texts.items)) }
{
    match determine_package_list(alloc, cx) {
        Ok(answer) => looks_at(alloc, cx, answer.0.ids.as_slice()),
        Err(PackagesFault::Memory) => Err(AllocError),
        Err(PackagesFault::Unmatched(_)) => Ok(Vec::new(alloc)),
    }
}

/// The texts on these packages.
fn looks_at(alloc: Global, cx: &Context, ids: &[PackageId]) -> Result<Vec<String>, AllocError>
    requires { All (λ id. Contains (context_view cx.now).metadata.workspace_members id.index)
        ids.now }
    ensures { IfOk result (λ texts. map string_bytes texts.items
        ≡ filter_map (look_at (context_view cx.now)) (map place_at ids.now)) }
{
    let mut texts = Vec::new(alloc);
    for id in ids {
        add_look(alloc, cx, *id, &mut texts)?;
    }
    Ok(texts)
}

/// Adds the text on a package, where there is one.
fn add_look(
    alloc: Global,
    cx: &Context,
    id: PackageId,
    texts: &mut Vec<String>,
) -> Result<(), AllocError>
    requires { Contains (context_view cx.now).metadata.workspace_members id.index }
    ensures { OnOk result (map string_bytes texts.new.items ≡ map string_bytes texts.old.items
        ++ option_to_list (look_at (context_view cx.now) id.index)) }
{
    if let Some(text) = look_at(alloc, cx, id)? {
        texts.push(text)?;
    }
    Ok(())
}

/// The text on a package of the call.
fn look_at(alloc: Global, cx: &Context, id: PackageId) -> Result<Option<String>, AllocError>
    requires { Contains (context_view cx.now).metadata.workspace_members id.index }
    ensures { IfOk result (λ text. option_map string_bytes text
        ≡ look_at (context_view cx.now) id.index) }
{
    let features = cx.pkg_features(id);
    let pkg = cx.packages(id);
    let asked = PackageRules::of(alloc, cx, pkg, features)?;
    look_of(alloc, &asked, pkg.name.as_str(), features)
}

/// The text on a package of these rules, under a powerset.
fn look_of(
    alloc: Global,
    asked: &PackageRules,
    name: &str,
    features: &Features,
) -> Result<Option<String>, AllocError>
    ensures { IfOk result (λ text. option_map string_bytes text
        ≡ look_of (rules_in asked.now) name.now features.now) }
{
    if !asked.feature_powerset {
        return Ok(None);
    }
    let found = candidates(alloc, asked, features)?;
    look_among(alloc, name, found.len(), asked.strength)
}

/// The text on a package of so many candidates, where there is a strength and there are many
/// patterns: of all candidates, where they are fewer.
fn look_among(
    alloc: Global,
    name: &str,
    candidates: usize,
    strength: Option<usize>,
) -> Result<Option<String>, AllocError>
    ensures { IfOk result (λ text. option_map string_bytes text
        ≡ look_among name.now candidates strength) }
{
    let Some(strength) = strength else {
        return Ok(None);
    };
    if !has_many_patterns(alloc, candidates, strength.min(candidates))? {
        return Ok(None);
    }
    Ok(Some(look_text(alloc, name, candidates, strength)?))
}

/// The text on a package whose sample is looked for long.
fn look_text(
    alloc: Global,
    name: &str,
    candidates: usize,
    strength: usize,
) -> Result<String, AllocError>
    ensures { IfOk result (λ text. string_bytes text ≡ look_text name.now candidates strength) }
{
    format!(in alloc;
        "looking for a sample of `{name}`: {candidates} features at strength {strength}"
    )
}
