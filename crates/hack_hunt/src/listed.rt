//! Whether a package has just a plain run.

ghost use Rattle.std.specs.Prelude.{◌≡◌, ℕ, All, IfOk, List, None, length};
ghost use Rattle.hack_closures.specs.View.{search_of};
ghost use Rattle.hack_conflicts.specs.Rules.{IsChoice};
ghost use Rattle.hack_conflicts.specs.Runs.{finding_of};
ghost use Rattle.hack_features.specs.Rules.{IsListed};
ghost use Rattle.hack_sets.specs.Sets.{IsListing};
ghost use Rattle.hack_features.specs.View.{choice_of};
ghost use Rattle.hack_plan.specs.Runs.{is_plain as are_plain};
ghost use Rattle.hack_planner.specs.Kinds.{options_of};
ghost use Rattle.hack_planner.specs.PackageRules.{rules_in};
ghost use Rattle.hack_hunt.specs.Internal.{BeginsWith, ListsNone};

use hack_closures::{Build, Closures};
use hack_conflicts::{Found, Scripted, find_conflicts};
use hack_features::Rules;
use hack_load::features::Features;
use hack_planner::package_rules::PackageRules;
use hack_planner::parts::options;
use std::alloc::{AllocError, Global};

/// What was built first in a search, if anything.
fn first_build(
    alloc: Global,
    closures: &Closures<'_>,
    found: &Found,
) -> Result<Option<Build>, AllocError>
    requires { All (λ run. IsChoice (search_of closures.now) run.set) (finding_of found.now).runs }
    ensures { IfOk result (BeginsWith closures.now (finding_of found.now).runs) }
{
    if found.runs.len() == 0 {
        return Ok(None);
    }
    let set = found.runs[0].set.as_slice();
    Ok(Some(closures.build_of(alloc, set)?))
}

/// Whether no set is listed, so that nothing would be built in a search in which all builds pass.
fn lists_none(alloc: Global, rules: &Rules<'_>) -> Result<bool, AllocError>
    requires { (choice_of rules.now).depth ≡ None }
    ensures { IfOk result (ListsNone (choice_of rules.now)) }
{
    let closures = Closures::new(alloc, rules, false, false)?;
    let mut all_pass = Scripted {
        broken: Vec::new(alloc),
        passing: Vec::new(alloc),
        failing: Vec::new(alloc),
    };
    match find_conflicts(alloc, &closures.search, Some(1), &mut all_pass) {
        Ok(found) => {
            let first = first_build(alloc, &closures, &found)?;
            Ok(first.is_none())
        }
        Err(_) => Err(AllocError),
    }
}

/// Whether a package with these rules has just a plain run.
pub(crate) fn is_plain(
    alloc: Global,
    asked: &PackageRules,
    features: &Features,
    rules: &Rules<'_>,
) -> Result<bool, AllocError>
    requires { (choice_of rules.now).depth ≡ None }
    ensures { IfOk result (λ plain. (sets : List (List ℕ))
        → IsListing (length (choice_of rules.now).candidates) (IsListed (choice_of rules.now)) sets
        → plain ≡ are_plain (options_of (rules_in asked.now) features.now) sets) }
{
    if !options(asked, features).is_plain(0) {
        return Ok(false);
    }
    lists_none(alloc, rules)
}
