//! Looks whether a call has too many runs, before the sets of a package are listed.
//!
//! That this finds every such call isn't promised: the plan refuses the others.

ghost use Rattle.std.specs.Prelude.{◌≡◌, ◌<◌, ◌≤◌, ◌+◌, ◌^◌, IfOk, IfSome, IsSome, IsTrue};
ghost use Rattle.std.specs.Prelude.{ℕ, None, Some, cond, length, slice_index};
ghost use Rattle.hack_features.specs.Samples.{IsSame};
ghost use Rattle.hack_features.specs.View.{choice_of, questions_asked, size_of};
ghost use Rattle.hack_plan.specs.Inputs.{AreVersionsOf};
ghost use Rattle.hack_planner.specs.InternalLeastPlaces.{GivesAtLeast, IsOver};
ghost use Rattle.hack_planner.specs.PackageRules.{rules_in};

use crate::package_rules::PackageRules;
use hack_features::Rules;
use hack_least::least_listed;
use hack_plan::places::{Places, PlacesFault};
use hack_plan::versions::{PlanInput, Versions};
use std::alloc::{AllocError, Global};

/// What is known of a call when the next of its packages is looked at.
#[derive(Clone, Copy)]
pub(crate) struct Limit<'a> {
    pub input: &'a PlanInput,
    pub versions: &'a Versions,
    /// For each of the packages before, a number of which it has at least as many runs.
    pub counts: &'a [usize],
}

/// The number at the place; 0 past the end.
fn count_at(counts: &[usize], place: usize) -> usize
    ensures { result ≡ slice_index counts.now place }
{
    match counts.get(place) {
        Some(count) => *count,
        None => 0,
    }
}

/// A number for each package: these, and zeros behind them.
fn padded(alloc: Global, counts: &[usize], packages: usize) -> Result<Vec<usize>, AllocError>
    ensures long { IfOk result (λ all. length all.items ≡ packages) }
    ensures fewer { IfOk result (λ all.
        (p : ℕ) → slice_index all.items p ≤ slice_index counts.now p) }
{
    let mut all = Vec::with_capacity(alloc, packages)?;
    for place in 0..packages {
        all.push(count_at(counts, place))?;
    }
    Ok(all)
}

/// Whether there are too many runs if the next package has so many.
fn is_passed(alloc: Global, limit: Limit<'_>, least: usize) -> Result<bool, AllocError>
    requires { AreVersionsOf limit.input.now limit.versions.now }
    ensures { IfOk result (λ passed. IsTrue passed → IsOver (Some limit.entry) least) }
{
    let mut known = Vec::from_slice(alloc, limit.counts)?;
    known.push(least)?;
    let counts = padded(alloc, known.as_slice(), limit.input.packages.len())?;
    match Places::new(alloc, limit.input, limit.versions, counts.as_slice()) {
        Ok(_) => Ok(false),
        Err(PlacesFault::TooManyRuns) => Ok(true),
        Err(PlacesFault::Memory) => Err(AllocError),
    }
}

/// How many runs there are at least, if there are that many sets at least.
fn runs_of(sets: usize, without_features_excluded: bool) -> usize
    requires { sets < 2 ^ 62 }
    ensures most { result ≤ sets + cond without_features_excluded 0 1 }
    ensures none { sets ≡ 0 → result ≡ 0 }
{
    if without_features_excluded || sets == 0 {
        return sets;
    }
    sets + 1
}

/// How many runs the listed sets of these rules give at least, if that is too many.
fn least_over(
    alloc: Global,
    asked: &PackageRules,
    rules: &mut Rules,
    limit: Limit<'_>,
) -> Result<Option<usize>, AllocError>
    requires { AreVersionsOf limit.input.now limit.versions.now }
    ensures over { IfOk result (λ over. IfSome over (λ least.
        GivesAtLeast (rules_in asked.now) (choice_of rules.old) (size_of rules.old) least
        × IsOver (Some limit.entry) least)) }
    ensures same { IsSame rules.old rules.new }
{
    let sets = least_listed(alloc, rules)?;
    let least = runs_of(sets, asked.exclude_no_default_features);
    if is_passed(alloc, limit, least)? {
        return Ok(Some(least));
    }
    Ok(None)
}

/// How many runs the listed sets of these rules give at least, if there is a limit and that is too
/// many. With a strength they aren't listed.
pub(crate) fn too_many(
    alloc: Global,
    asked: &PackageRules,
    rules: &mut Rules,
    limit: Option<Limit<'_>>,
) -> Result<Option<usize>, AllocError>
    requires { IfSome limit (λ l. AreVersionsOf l.input.now l.versions.now) }
    ensures over { IfOk result (λ over. IfSome over (λ least. (asked.now.strength ≡ None)
        × GivesAtLeast (rules_in asked.now) (choice_of rules.old) (size_of rules.old) least
        × IsOver limit.entry least)) }
    ensures same { IsSame rules.old rules.new }
    ensures fresh { IsSome asked.now.strength
        → questions_asked rules.new ≡ questions_asked rules.old }
{
    if asked.strength.is_some() {
        return Ok(None);
    }
    match limit {
        Some(limit) => least_over(alloc, asked, rules, limit),
        None => Ok(None),
    }
}
