//! The search for the least version of each package.

ghost use Rattle.std.specs.Prelude.{◌≡◌, ◌≤◌, [], IfOk, OnErr, length, map, vec_capacity};
ghost use Rattle.std.specs.List.{range_with_len};
ghost use Rattle.hack_msrv.specs.Internal.{AreSearched};
ghost use Rattle.hack_msrv.specs.Searches.{IsEnd, IsSearched, uses_of};

use crate::found::Found;
use crate::package::find_version;
use crate::uses::all_uses;
use hack_plan::plan::Plan;
use hack_side::judge::Judge;
use std::alloc::{AllocError, Global};

/// Searches for the least version of each package of the plan, one after another, and returns what
/// is found, in the order of the packages; up to a search that is broken off, the last one then.
///
/// Of the versions that a package uses the greatest is tried first, and then the one in the middle
/// between the greatest that failed and the least that passed.
///
/// # Errors
///
/// Memory was refused, before anything was tried.
pub fn find_versions<R: Judge>(
    alloc: Global,
    plan: &Plan,
    runner: &mut R,
) -> Result<Vec<Found>, AllocError>
    // For each package in turn the steps that were handed out are those of trials, each of a version
    // that the package uses: its preparations and the front of the package's places up to the first
    // that failed. The trials are those of a search by halving, which says what was found: each
    // version is tried once at most, and they are at most two more than the logarithm of the
    // versions in number. The answer's version passed whole in this search, and the one that the
    // package uses before it failed in this search, or there is none.
    ensures searched { IfOk result (λ found. IsSearched R.ran R.ended plan.now found.items
        runner.old runner.new) }
    ensures refused { OnErr result (runner.new ≡ runner.old) }
{
    let uses = all_uses(alloc, plan)?;
    let mut found = Vec::with_capacity(alloc, uses.len())?;
    search_all(plan, &uses, runner, &mut found);
    Ok(found)
}

/// Searches for the least version of each package, and appends what is found.
fn search_all<R: Judge>(plan: &Plan, uses: &[Vec<usize>], runner: &mut R, found: &mut Vec<Found>)
    requires uses { map (λ uses. uses.items) uses.now
        ≡ map (uses_of plan.now) (range_with_len 0 (length plan.now.packages)) }
    requires found { found.old.items ≡ [] }
    requires room { length uses.now ≤ vec_capacity found.old }
    ensures searched { AreSearched R.ran R.ended plan.now found.new.items runner.old runner.new }
    ensures end { IsEnd plan.now found.new.items }
{
    for member in 0..uses.len() {
        let one = find_version(plan, member, &uses[member], runner);
        found.push(one).unwrap();
        if one.is_broken() {
            return;
        }
    }
}
